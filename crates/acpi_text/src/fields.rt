//! The fields of a table or of a record: each with its label, and its value in the digits of its base.
#![tactic(auto, using(text_writer::proofs::PrintLaws::straight), unfolding(crate::specs::Dumps::labelled))]

ghost use Rattle.std.specs.Prelude.{◌≤◌, ◌++◌, flat_map, length, map, reverse};
ghost use Rattle.std.specs.List.{All};
ghost use Rattle.text_writer.specs.Prints.{Prints, hex2};
ghost use Rattle.acpi_tables.specs.Bytes.{field_view, IsNarrow};
ghost use Rattle.acpi_text.specs.Dumps.{label_text, value_text, labelled, field_text, fields_text};

use acpi_tables::{Base, TableField, little_endian};
use std::io::Write;
use text_writer::{Out, print_decimal, print_hex2};

/// A label and a space; nothing where there is no label.
fn print_label<W: Write>(out: &mut Out<'_, W>, label: &[u8])
    ensures { Prints W.contents out.old out.new (label_text label.now) }
{
    if !label.is_empty() {
        out.put(label);
        out.put(b" ");
    }
}

/// The bytes in hexadecimal digits, the last first.
pub(crate) fn print_reversed<W: Write>(out: &mut Out<'_, W>, bytes: &[u8])
    ensures { Prints W.contents out.old out.new (flat_map hex2 (reverse bytes.now)) }
{
    for done in 0..bytes.len() {
        print_hex2(out, bytes[bytes.len() - 1 - done]);
    }
}

/// The number that these bytes spell.
fn print_value<W: Write>(out: &mut Out<'_, W>, base: Base, bytes: &[u8])
    requires narrow { length bytes.now ≤ 8 }
    ensures { Prints W.contents out.old out.new (value_text base bytes.now) }
{
    match base {
        Base::Decimal => print_decimal(out, little_endian(bytes)),
        Base::Hexadecimal => print_reversed(out, bytes),
    }
}

/// A field with these bytes.
fn print_labelled<W: Write>(out: &mut Out<'_, W>, field: &TableField, bytes: &[u8])
    requires narrow { length bytes.now ≤ 8 }
    ensures { Prints W.contents out.old out.new (labelled (field_view field.now) bytes.now) }
{
    print_label(out, field.label.as_bytes());
    print_value(out, field.base, bytes);
}

/// A field with these bytes, between these words.
fn print_between<W: Write>(
    out: &mut Out<'_, W>,
    before: &[u8],
    behind: &[u8],
    field: &TableField,
    bytes: &[u8],
)
    requires narrow { length bytes.now ≤ 8 }
    ensures { Prints W.contents out.old out.new
        (before.now ++ labelled (field_view field.now) bytes.now ++ behind.now) }
{
    out.put(before);
    print_labelled(out, field, bytes);
    out.put(behind);
}

/// A field between these words, where the bytes of its table or record reach to its end.
fn print_field<W: Write>(
    out: &mut Out<'_, W>,
    before: &[u8],
    behind: &[u8],
    bytes: &[u8],
    field: &TableField,
)
    requires narrow { IsNarrow field.now }
    ensures { Prints W.contents out.old out.new
        (field_text before.now behind.now bytes.now (field_view field.now)) }
{
    if let Some(value) = field.bytes_in(bytes) {
        print_between(out, before, behind, field, value);
    }
}

/// The fields that the bytes of a table or of a record reach to, each between these words.
pub(crate) fn print_fields<W: Write>(
    out: &mut Out<'_, W>,
    before: &[u8],
    behind: &[u8],
    bytes: &[u8],
    fields: &[TableField],
)
    requires narrow { All IsNarrow fields.now }
    ensures { Prints W.contents out.old out.new
        (fields_text before.now behind.now bytes.now (map field_view fields.now)) }
{
    for field in fields {
        print_field(out, before, behind, bytes, field);
    }
}
