//! The table of interrupt controllers (ACPI 6.5, section 5.2.12).
ghost use Rattle.std.specs.Prelude.{◌≡◌, ◌⊎◌, ◌↔◌, ◌+◌, ◌<◌, ◌≤◌, length, map, IsSome, IfSome, IfOk, IfErr, OnOk};
ghost use Rattle.acpi_tables.specs.Bytes.{number_at};
ghost use Rattle.acpi_tables.specs.Madt.{HoldsRecord, HoldsMadt, meaning_of, said};
ghost use Rattle.acpi_tables.specs.Madt.{record_bytes_at, record_end, records_of, RefusesMadt};
ghost use Rattle.acpi_tables.specs.declared.faults.Bad.{Bad};
ghost use Rattle.acpi_tables.specs.declared.faults.Bad.TheVariants.{NoMemory};

use crate::bytes::{u8_at, u32_at};
use crate::faults::Bad;
use crate::fields::{MOST_FIELDS, RecordRow};
use std::alloc::{AllocError, Global};

/// Where the address of the local interrupt controllers stands.
pub const MADT_CONTROLLER: usize = 36;

/// Where the flags stand.
pub const MADT_FLAGS: usize = 40;

/// Where the records begin, behind the header and two fields.
pub const MADT_RECORDS: usize = 44;

/// The fields and the records of a Multiple APIC Description Table.
#[derive(Drop)]
pub struct Madt {
    /// The physical address of the local interrupt controllers, at offset 36.
    pub controller: u32,
    /// At offset 40.
    pub flags: u32,
    /// The records, which begin at offset [`MADT_RECORDS`].
    pub records: Vec<MadtRecord>,
}

/// A record of a MADT: its kind with the values of its fields, or, of no known kind, the bytes behind its length.
#[derive(Drop)]
pub enum MadtRecord<Content = Vec<u8>> {
    /// One of the kinds of [`RecordRow::of_madt`].
    Known {
        row: &'static RecordRow,
        /// Those of the row's fields, in their order, before others that say nothing.
        values: [u64; MOST_FIELDS],
    },
    /// Another type, or another length.
    Other {
        kind: u8,
        content: Content,
    },
}

/// A record that borrows its raw content from the table.
pub type MadtView<'a> = MadtRecord<&'a [u8]>;

impl<'a> MadtRecord<&'a [u8]> {
    /// What a whole record says.
    fn of_record(bytes: &'a [u8]) -> MadtView<'a>
        requires { 2 ≤ length bytes.now }
        ensures { said (λ content. content.now) result ≡ meaning_of bytes.now }
    {
        match RecordRow::of_record(bytes) {
            Some(row) => MadtRecord::Known {
                row,
                values: row.values_in(bytes),
            },
            None => MadtRecord::Other {
                kind: u8_at(bytes, 0),
                content: &bytes[2..],
            },
        }
    }

    /// The same record with a copy of its content.
    pub fn to_record(&self, alloc: Global) -> Result<MadtRecord, AllocError>
        ensures { IfOk result (λ copy.
            said (λ content. content.items) copy ≡ said (λ content. content.now) self.now) }
    {
        Ok(match *self {
            MadtRecord::Known { row, values } => MadtRecord::Known { row, values },
            MadtRecord::Other { kind, content } => MadtRecord::Other {
                kind,
                content: Vec::from_slice(alloc, content)?,
            },
        })
    }
}

impl Madt {
    /// The fields and the records of a MADT. `table` is the first Length bytes of a dump.
    ///
    /// # Errors
    /// `Bad::Short` below 44 bytes, and `Bad::MadtRecord(at)` where the record at offset `at` has no length byte, has a
    /// length below 2, or ends past the table.
    pub fn read(alloc: Global, table: &[u8]) -> Result<Madt, Bad>
        ensures holds { OnOk result (HoldsMadt table.now) }
        ensures controller { IfOk result (λ madt. madt.controller ≡ number_at table.now 36 4) }
        ensures flags { IfOk result (λ madt. madt.flags ≡ number_at table.now 40 4) }
        ensures records { IfOk result (λ madt. map (said (λ content. content.items)) madt.records.items
            ≡ map meaning_of (records_of table.now)) }
        ensures refused { IfErr result (λ bad. (bad ≡ NoMemory) ⊎ RefusesMadt table.now bad) }
        ensures exact { OnOk result ((bad : Bad) → ¬ RefusesMadt table.now bad) }
    {
        if table.len() < MADT_RECORDS {
            return Err(Bad::Short);
        }
        let mut records = Vec::new(alloc);
        let mut at = MADT_RECORDS;
        while at < table.len() {
            let Some((view, end)) = Madt::record_at(table, at) else {
                return Err(Bad::MadtRecord(at));
            };
            records.push(view.to_record(alloc)?)?;
            at = end;
        }
        Ok(Madt {
            controller: u32_at(table, MADT_CONTROLLER),
            flags: u32_at(table, MADT_FLAGS),
            records,
        })
    }

    /// Whether `read` takes this table, and else why not. It takes no memory.
    pub(crate) fn check(table: &[u8]) -> Result<(), Bad>
        ensures holds { OnOk result (HoldsMadt table.now) }
        ensures refused { IfErr result (RefusesMadt table.now) }
    {
        if table.len() < MADT_RECORDS {
            return Err(Bad::Short);
        }
        let mut at = MADT_RECORDS;
        while at < table.len() {
            let Some(bytes) = Madt::record_bytes(table, at) else {
                return Err(Bad::MadtRecord(at));
            };
            at += bytes.len();
        }
        Ok(())
    }

    /// The record at offset `at` of the table, and the offset behind it. It takes no memory.
    ///
    /// It is `None` where no whole record stands there: below 44, where the first record begins, where there is no
    /// length byte, where the length is below 2, and where the record ends past the table.
    pub fn record_at(table: &[u8], at: usize) -> Option<(MadtView<'_>, usize)>
        ensures holds { IsSome result ↔ HoldsRecord table.now at }
        ensures record { IfSome result (λ r. said (λ content. content.now) r.0
            ≡ meaning_of (record_bytes_at table.now at)) }
        ensures end { IfSome result (λ r. r.1 ≡ record_end table.now at) }
    {
        let bytes = Madt::record_bytes(table, at)?;
        Some((MadtRecord::of_record(bytes), at + bytes.len()))
    }

    /// The bytes of the record at offset `at` of the table, and `None` where `record_at` is.
    pub fn record_bytes(table: &[u8], at: usize) -> Option<&[u8]>
        ensures holds { IsSome result ↔ HoldsRecord table.now at }
        ensures bytes { IfSome result (λ bytes. bytes.now ≡ record_bytes_at table.now at) }
        ensures end { IfSome result (λ bytes. at + length bytes.now ≡ record_end table.now at) }
    {
        if at < MADT_RECORDS || table.len() < 2 || at > table.len() - 2 {
            return None;
        }
        let long = usize::from(u8_at(table, at + 1));
        if long < 2 || long > table.len() - at {
            return None;
        }
        Some(&table[at..at + long])
    }
}
