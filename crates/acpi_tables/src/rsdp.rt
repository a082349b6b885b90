//! The pointer from which the tables are found (ACPI 6.5, section 5.2.5.3).
ghost use Rattle.std.specs.Prelude.{◌≡◌, ◌↔◌, IsOk, IfOk, IfErr, IsTrue};
ghost use Rattle.acpi_tables.specs.declared.faults.Bad.TheVariants.{BadRoot};

use crate::bytes::{array_at, begins_with, has_length, sum, u8_at, u32_at, u64_at};
use crate::faults::Bad;
use crate::signatures;

/// The bytes of an RSDP before revision 2.
const FIRST_LENGTH: usize = 20;

/// The bytes of an RSDP from revision 2 on, at least.
const EXTENDED_LENGTH: usize = 36;

/// The first revision with the fields that follow.
const EXTENDED: u8 = 2;

/// Where the revision stands.
const REVISION_AT: usize = 15;

/// Where Length stands, from revision 2 on.
const LENGTH_AT: usize = 20;

/// The fields of a Root System Description Pointer, but for its signature and its checksums.
#[derive(Clone, Copy)]
pub struct Rsdp {
    /// OEMID, at offset 9.
    pub oem: [u8; 6],
    /// At offset 15.
    pub revision: u8,
    /// The physical address of the RSDT, at offset 16.
    pub rsdt: u32,
    /// What revision 2 added.
    pub wide: Option<Wide>,
}

/// The fields that an RSDP has from revision 2 on.
#[derive(Clone, Copy)]
pub struct Wide {
    /// The length of the RSDP in bytes, at offset 20.
    pub length: u32,
    /// The physical address of the XSDT, at offset 24.
    pub xsdt: u64,
}

impl Rsdp {
    ghost use Rattle.acpi_tables.specs.Header.{HoldsRoot, root_sums, rsdp_of};

    /// The RSDP that these bytes begin with.
    ///
    /// # Errors
    /// `Bad::BadRoot` where the signature differs, where there are fewer than 20 bytes, or, from revision 2 on, where
    /// there are fewer than 36 bytes or Length is below 36 or above the number of bytes.
    pub fn read(bytes: &[u8]) -> Result<Rsdp, Bad>
        ensures holds { IsOk result ↔ HoldsRoot bytes.now }
        ensures bad_root { IfErr result (λ bad. bad ≡ BadRoot) }
        ensures fields { IfOk result (λ rsdp. rsdp ≡ rsdp_of bytes.now) }
    {
        if !Rsdp::holds(bytes) {
            return Err(Bad::BadRoot);
        }
        Ok(Rsdp::of(bytes))
    }

    /// Whether `read` takes these bytes.
    pub(crate) fn holds(bytes: &[u8]) -> bool
        ensures { IsTrue result ↔ HoldsRoot bytes.now }
    {
        if !begins_with(bytes, &signatures::RSDP) || bytes.len() < FIRST_LENGTH {
            return false;
        }
        u8_at(bytes, REVISION_AT) < EXTENDED || has_length(bytes, LENGTH_AT, EXTENDED_LENGTH)
    }

    /// The RSDP of bytes that `read` takes.
    pub fn of(bytes: &[u8]) -> Rsdp
        requires { HoldsRoot bytes.now }
        ensures { result ≡ rsdp_of bytes.now }
    {
        let revision = u8_at(bytes, REVISION_AT);
        let wide = if revision < EXTENDED {
            None
        } else {
            Some(Wide {
                length: u32_at(bytes, LENGTH_AT),
                xsdt: u64_at(bytes, 24),
            })
        };
        Rsdp {
            oem: array_at(bytes, 9),
            revision,
            rsdt: u32_at(bytes, 16),
            wide,
        }
    }

    /// Whether the checksums of these bytes are right: that of the first 20 bytes, and from revision 2 on that of the
    /// first Length bytes too.
    pub fn sums(bytes: &[u8]) -> bool
        requires { HoldsRoot bytes.now }
        ensures { result ≡ root_sums bytes.now }
    {
        sum(&bytes[..FIRST_LENGTH]) == 0
            && (u8_at(bytes, REVISION_AT) < EXTENDED
                || sum(&bytes[..u32_at(bytes, LENGTH_AT) as usize]) == 0)
    }
}
