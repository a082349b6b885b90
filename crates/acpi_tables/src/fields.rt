//! The fields of tables as data: where each stands, how many bytes it has, and how a listing shows it.
ghost use Rattle.std.specs.Prelude.{◌≡◌, ◌≤◌, ◌&&◌, nat_eq, length, take, map, find, option_map, IfSome};
ghost use Rattle.std.specs.List.{All};
ghost use Rattle.acpi_tables.specs.Bytes.{number_at, field_bytes, field_view, values_of, IsNarrow};
ghost use Rattle.acpi_tables.specs.Fadt.{fadt_fields};
ghost use Rattle.acpi_tables.specs.Madt.{madt_rows, row_view, row_of, IsSmall};

use crate::bytes::{little_endian, u8_at};

/// The base of the digits in which a listing shows a number.
#[derive(Clone, Copy)]
pub enum Base {
    /// As few digits as the number has.
    Decimal,
    /// Two digits for each byte.
    Hexadecimal,
}

/// A field of a table, or of a record of one.
pub struct TableField {
    /// Where it begins, in bytes from the start of the table or the record.
    pub offset: usize,
    /// How many bytes it has.
    pub width: usize,
    /// What a listing calls it, and nothing for a field that it shows without a label.
    pub label: &'static str,
    /// How a listing shows its number.
    pub base: Base,
}

/// How many fields a kind of records may have.
pub const MOST_FIELDS: usize = 4;

/// A kind of records of the MADT: those of one type and one length.
pub struct RecordRow {
    /// The type: the first byte of its records.
    pub kind: u8,
    /// How many bytes its records have.
    pub length: usize,
    /// What a listing calls it.
    pub name: &'static str,
    /// The fields that a listing shows, in the order of their offsets.
    pub fields: &'static [TableField],
}

macro_rules! fields {
    ($($offset:literal $width:literal $label:literal $base:ident;)*) => {
        [$(TableField {
            offset: $offset,
            width: $width,
            label: $label,
            base: Base::$base,
        }),*]
    };
}

macro_rules! rows {
    ($($kind:literal $length:literal $name:literal { $($field:tt)* })*) => {
        [$(RecordRow {
            kind: $kind,
            length: $length,
            name: $name,
            fields: &fields! { $($field)* },
        }),*]
    };
}

static FADT_FIELDS: &[TableField] = &fields! {
    36  4 "FirmwareCtrl"  Hexadecimal;
    40  4 "Dsdt"          Hexadecimal;
    45  1 "Profile"       Hexadecimal;
    46  2 "SciInt"        Hexadecimal;
    48  4 "SmiCmd"        Hexadecimal;
    52  1 "AcpiEnable"    Hexadecimal;
    53  1 "AcpiDisable"   Hexadecimal;
    56  4 "Pm1aEvt"       Hexadecimal;
    64  4 "Pm1aCnt"       Hexadecimal;
    76  4 "PmTmr"         Hexadecimal;
    80  4 "Gpe0"          Hexadecimal;
    92  1 "Gpe0Len"       Hexadecimal;
    109 2 "BootArch"      Hexadecimal;
    112 4 "Flags"         Hexadecimal;
    132 8 "XFirmwareCtrl" Hexadecimal;
    140 8 "XDsdt"         Hexadecimal;
};

static MADT_ROWS: &[RecordRow] = &rows! {
    0  8  "LocalApic"       { 2 1 "Uid"   Decimal;     3 1 "Apic"    Decimal;     4  4 "Flags" Hexadecimal; }
    1  12 "IoApic"          { 2 1 "Id"    Decimal;     4 4 "Address" Hexadecimal; 8  4 "Gsi"   Decimal; }
    2  10 "Override"        { 2 1 "Bus"   Decimal;     3 1 "Source"  Decimal;     4  4 "Gsi"   Decimal;
                              8 2 "Flags" Hexadecimal; }
    3  8  "NmiSource"       { 2 2 "Flags" Hexadecimal; 4 4 "Gsi"     Decimal; }
    4  6  "LocalNmi"        { 2 1 "Uid"   Decimal;     3 2 "Flags"   Hexadecimal; 5  1 "Lint"  Decimal; }
    5  12 "AddressOverride" { 4 8 ""      Hexadecimal; }
    9  16 "X2Apic"          { 4 4 "Id"    Decimal;     8 4 "Flags"   Hexadecimal; 12 4 "Uid"   Decimal; }
    10 12 "X2Nmi"           { 2 2 "Flags" Hexadecimal; 4 4 "Uid"     Decimal;     8  1 "Lint"  Decimal; }
};

impl TableField {
    /// The fields of a FADT that a listing shows, in the order of their offsets (ACPI 6.5, section 5.2.9).
    pub fn of_fadt() -> &'static [TableField]
        ensures fields { map field_view result.now ≡ fadt_fields }
        ensures narrow { All IsNarrow result.now }
    {
        FADT_FIELDS
    }

    /// The bytes of the field, in a table that reaches to its end.
    pub fn bytes_in<'t>(&self, table: &'t [u8]) -> Option<&'t [u8]>
        ensures bytes { option_map (λ bytes. bytes.now) result ≡ field_bytes table.now (field_view self.now) }
        ensures width { IfSome result (λ bytes. length bytes.now ≡ self.now.width) }
    {
        let end = self.offset.checked_add(self.width)?;
        table.get(self.offset..end)
    }

    /// The number of the field, of as many of its bytes as are there.
    fn number_in(&self, bytes: &[u8]) -> u64
        requires narrow { IsNarrow self.now }
        ensures { result ≡ number_at bytes.now self.now.offset self.now.width }
    {
        let behind = &bytes[self.offset.min(bytes.len())..];
        little_endian(&behind[..self.width.min(behind.len())])
    }
}

impl RecordRow {
    /// The kinds of records of a MADT that are read here (ACPI 6.5, section 5.2.12).
    pub fn of_madt() -> &'static [RecordRow]
        ensures rows { map row_view result.now ≡ madt_rows }
        ensures small { All IsSmall result.now }
    {
        MADT_ROWS
    }

    /// The kind that has the type and the length of this record, if there is one.
    pub fn of_record(bytes: &[u8]) -> Option<&'static RecordRow>
        requires { 2 ≤ length bytes.now }
        ensures row { option_map (λ row. row_view row.now) result ≡ row_of bytes.now }
        ensures small { IfSome result (λ row. IsSmall row.now) }
    {
        row_among(RecordRow::of_madt(), u8_at(bytes, 0), bytes.len())
    }

    /// The values of the fields in a record of this kind, in their order, before others that say nothing.
    pub(crate) fn values_in(&self, bytes: &[u8]) -> [u64; MOST_FIELDS]
        requires small { IsSmall self.now }
        ensures { take (length self.now.fields.now) result
            ≡ values_of bytes.now (map field_view self.now.fields.now) }
    {
        let mut values = [0; MOST_FIELDS];
        for (index, field) in self.fields.iter().enumerate() {
            values[index] = field.number_in(bytes);
        }
        values
    }
}

/// The first of these kinds that has this type and this length.
fn row_among(rows: &'static [RecordRow], kind: u8, length: usize) -> Option<&'static RecordRow>
    requires small { All IsSmall rows.now }
    ensures first { option_map (λ row. row.now) result
        ≡ find (λ row. nat_eq kind row.kind && nat_eq length row.length) rows.now }
    ensures small { IfSome result (λ row. IsSmall row.now) }
{
    rows.iter()
        .find(|row| kind == row.kind && length == row.length)
}
