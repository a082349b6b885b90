//! Dumps of tables, and what one dump is refused for by itself.
ghost use Rattle.std.specs.Prelude.{◌≡◌, ◌↔◌, Some, nat_eq, IsTrue, OnOk, IfErr};
ghost use Rattle.std.specs.Option.{option_eq};
ghost use Rattle.acpi_tables.specs.Header.{HoldsTable, table_of};
ghost use Rattle.acpi_tables.specs.Dumps.{content_of, kind_of, HoldsShape, sums_hold, HoldsContent, HoldsDump};
ghost use Rattle.acpi_tables.specs.Dumps.{shape_fault, RefusesContent, RefusesDump};

use crate::addresses::{AddressWidth, check_addresses};
use crate::bytes::{begins_with, has_length, sum, u32_at};
use crate::fadt::Fadt;
use crate::faults::Bad;
use crate::header::{Header, LENGTH_AT};
use crate::madt::Madt;
use crate::rsdp::Rsdp;
use crate::signatures::{APIC, FACP, FACS, RSDP, RSDT, XSDT};

/// The bytes that every FACS has, at least: its signature and its Length.
const FACS_FRONT: usize = 8;

/// The greatest number of bytes of a dump.
pub const MAX_DUMP_BYTES: usize = 16_777_216;

/// The bytes of one table, as a file has them. Bytes past the table's length may follow it.
#[derive(Drop)]
pub struct Dump {
    /// The file's name.
    pub name: String,
    /// The physical address at which the table stood, if it is known.
    pub address: Option<u64>,
    pub bytes: Vec<u8>,
}

impl Dump {
    /// Whether the table stood at this address.
    pub(crate) fn stands_at(&self, address: u64) -> bool
        ensures { result ≡ option_eq nat_eq self.now.address (Some address) }
    {
        self.address == Some(address)
    }
}

/// How a dump is read.
#[derive(Clone, Copy)]
pub enum Kind {
    /// A Root System Description Pointer.
    Root,
    /// A Firmware ACPI Control Structure, which has neither the standard header nor a checksum.
    Facs,
    /// Any other table, with the standard header.
    Standard(Content),
}

/// What is read of a table behind its standard header.
#[derive(Clone, Copy)]
pub enum Content {
    /// The addresses of an XSDT.
    Xsdt,
    /// The addresses of an RSDT.
    Rsdt,
    /// The fields of a FADT.
    Fadt,
    /// The fields and records of a MADT.
    Madt,
    /// Nothing.
    Other,
}

impl Content {
    /// By the signature of the table that these bytes begin with.
    fn of(bytes: &[u8]) -> Content
        ensures { result ≡ content_of bytes.now }
    {
        if begins_with(bytes, &XSDT) {
            Content::Xsdt
        } else if begins_with(bytes, &RSDT) {
            Content::Rsdt
        } else if begins_with(bytes, &FACP) {
            Content::Fadt
        } else if begins_with(bytes, &APIC) {
            Content::Madt
        } else {
            Content::Other
        }
    }
}

impl Kind {
    /// The kind of the table that these bytes begin with, by its signature.
    pub fn of(bytes: &[u8]) -> Kind
        ensures { result ≡ kind_of bytes.now }
    {
        if begins_with(bytes, &RSDP) {
            Kind::Root
        } else if begins_with(bytes, &FACS) {
            Kind::Facs
        } else {
            Kind::Standard(Content::of(bytes))
        }
    }

    /// Whether the fields that say how long such a dump is are there, and agree with its bytes.
    fn holds_shape(self, bytes: &[u8]) -> bool
        ensures { IsTrue result ↔ HoldsShape self bytes.now }
    {
        match self {
            Kind::Root => Rsdp::holds(bytes),
            Kind::Facs => has_length(bytes, LENGTH_AT, FACS_FRONT),
            Kind::Standard(_) => Header::holds(bytes),
        }
    }

    /// What is wrong with such a dump where they aren't.
    fn shape_fault(self) -> Bad
        ensures { result ≡ shape_fault self }
    {
        match self {
            Kind::Root => Bad::BadRoot,
            Kind::Facs | Kind::Standard(_) => Bad::Short,
        }
    }

    /// Whether the checksums of such a dump are right.
    pub fn sums_hold(self, bytes: &[u8]) -> bool
        requires shape { HoldsShape self bytes.now }
        ensures { result ≡ sums_hold self bytes.now }
    {
        match self {
            Kind::Root => Rsdp::sums(bytes),
            Kind::Facs => true,
            Kind::Standard(_) => sum(table_of(bytes)) == 0,
        }
    }

    /// Whether what is read of such a dump can be read, and else what is wrong with it.
    fn check_content(self, bytes: &[u8]) -> Result<(), Bad>
        requires shape { HoldsShape self bytes.now }
        ensures holds { OnOk result (HoldsContent self bytes.now) }
        ensures refused { IfErr result (RefusesContent self bytes.now) }
    {
        match self {
            Kind::Root | Kind::Facs => Ok(()),
            Kind::Standard(content) => match content {
                Content::Xsdt => check_addresses(table_of(bytes), AddressWidth::Eight),
                Content::Rsdt => check_addresses(table_of(bytes), AddressWidth::Four),
                Content::Fadt => Fadt::check(table_of(bytes)),
                Content::Madt => Madt::check(table_of(bytes)),
                Content::Other => Ok(()),
            },
        }
    }
}

/// The table that these bytes begin with: the first Length of them.
pub fn table_of(bytes: &[u8]) -> &[u8]
    requires { HoldsTable bytes.now }
    ensures { result.now ≡ table_of bytes.now }
{
    &bytes[..u32_at(bytes, LENGTH_AT) as usize]
}

/// Whether a dump is taken by itself, and else what is wrong with it.
pub(crate) fn check_dump(bytes: &[u8], any_sum: bool) -> Result<(), Bad>
    ensures holds { OnOk result (HoldsDump any_sum bytes.now) }
    ensures refused { IfErr result (RefusesDump any_sum bytes.now) }
{
    if bytes.len() > MAX_DUMP_BYTES {
        return Err(Bad::TooLarge);
    }
    let kind = Kind::of(bytes);
    if !kind.holds_shape(bytes) {
        return Err(kind.shape_fault());
    }
    if !any_sum && !kind.sums_hold(bytes) {
        return Err(Bad::BadSum);
    }
    kind.check_content(bytes)
}
