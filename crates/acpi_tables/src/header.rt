//! The header that the tables share (ACPI 6.5, section 5.2.6).
ghost use Rattle.std.specs.Prelude.{◌≡◌, ◌↔◌, IsTrue, IsOk, IfOk, IfErr};
ghost use Rattle.acpi_tables.specs.declared.faults.Bad.TheVariants.{Short};

use crate::bytes::{array_at, has_length, u8_at, u32_at};
use crate::faults::Bad;

/// The bytes of a System Description Table Header.
pub const HEADER_LENGTH: usize = 36;

/// Where Length stands, in a FACS too.
pub const LENGTH_AT: usize = 4;

/// The fields of a System Description Table Header.
#[derive(Clone, Copy)]
pub struct Header {
    /// At offset 0.
    pub signature: [u8; 4],
    /// At offset 4: the length of the table in bytes, its header included.
    pub length: u32,
    /// At offset 8.
    pub revision: u8,
    /// At offset 9: what makes the bytes of the table sum to 0.
    pub checksum: u8,
    /// At offset 10.
    pub oem_id: [u8; 6],
    /// At offset 16.
    pub oem_table_id: [u8; 8],
    /// At offset 24.
    pub oem_revision: u32,
    /// At offset 28.
    pub creator_id: [u8; 4],
    /// At offset 32.
    pub creator_revision: u32,
}

impl Header {
    ghost use Rattle.acpi_tables.specs.Header.{HoldsTable, header_of};

    /// The header of a table that these bytes begin with. Bytes past its Length may follow.
    ///
    /// # Errors
    /// `Bad::Short` where there are fewer than 36 bytes, or Length is below 36 or above the number of bytes.
    pub fn read(bytes: &[u8]) -> Result<Header, Bad>
        ensures holds { IsOk result ↔ HoldsTable bytes.now }
        ensures short { IfErr result (λ bad. bad ≡ Short) }
        ensures fields { IfOk result (λ header. header ≡ header_of bytes.now) }
    {
        if !Header::holds(bytes) {
            return Err(Bad::Short);
        }
        Ok(Header::of(bytes))
    }

    /// Whether `read` takes these bytes.
    pub(crate) fn holds(bytes: &[u8]) -> bool
        ensures { IsTrue result ↔ HoldsTable bytes.now }
    {
        has_length(bytes, LENGTH_AT, HEADER_LENGTH)
    }

    /// The header of a table that `read` takes.
    pub fn of(bytes: &[u8]) -> Header
        requires { HoldsTable bytes.now }
        ensures { result ≡ header_of bytes.now }
    {
        Header {
            signature: array_at(bytes, 0),
            length: u32_at(bytes, LENGTH_AT),
            revision: u8_at(bytes, 8),
            checksum: u8_at(bytes, 9),
            oem_id: array_at(bytes, 10),
            oem_table_id: array_at(bytes, 16),
            oem_revision: u32_at(bytes, 24),
            creator_id: array_at(bytes, 28),
            creator_revision: u32_at(bytes, 32),
        }
    }
}
