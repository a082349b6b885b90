//! The lines below a MADT: its two fields, and its records.
#![tactic(auto, using(text_writer::proofs::PrintLaws::straight))]

ghost use Rattle.std.specs.Prelude.{◌≤◌, Some, flat_map, length};
ghost use Rattle.std.specs.List.{All};
ghost use Rattle.text_writer.specs.Prints.{Prints};
ghost use Rattle.acpi_tables.specs.Bytes.{IsNarrow};
ghost use Rattle.acpi_tables.specs.Madt.{HoldsMadt, records_of, row_of, row_view};
ghost use Rattle.acpi_text.specs.Dumps.{spaced_byte, other_text, record_text_by, record_line, madt_lines};

use crate::fields::print_fields;
use crate::labels::{put_decimal, put_hex8};
use acpi_tables::{MADT_CONTROLLER, MADT_FLAGS, MADT_RECORDS, Madt, RecordRow, u8_at, u32_at};
use std::io::Write;
use text_writer::{Out, print_hex2};

/// A record of this kind.
fn print_known<W: Write>(out: &mut Out<'_, W>, bytes: &[u8], row: &RecordRow)
    requires narrow { All IsNarrow row.now.fields.now }
    ensures { Prints W.contents out.old out.new (record_text_by (Some (row_view row.now)) bytes.now) }
{
    out.put(row.name.as_bytes());
    print_fields(out, b" ", b"", bytes, row.fields);
}

fn print_spaced<W: Write>(out: &mut Out<'_, W>, byte: u8)
    ensures { Prints W.contents out.old out.new (spaced_byte byte) }
{
    out.put(b" ");
    print_hex2(out, byte);
}

fn print_content<W: Write>(out: &mut Out<'_, W>, content: &[u8])
    ensures { Prints W.contents out.old out.new (flat_map spaced_byte content.now) }
{
    for byte in content {
        print_spaced(out, *byte);
    }
}

/// A record of no known type and length.
fn print_other<W: Write>(out: &mut Out<'_, W>, bytes: &[u8])
    requires header { 2 ≤ length bytes.now }
    ensures { Prints W.contents out.old out.new (other_text bytes.now) }
{
    put_decimal(out, b"Record ", u64::from(u8_at(bytes, 0)));
    put_decimal(out, b" Length ", bytes.len() as u64);
    print_content(out, &bytes[2..]);
}

/// A record by the table of kinds.
fn print_record<W: Write>(out: &mut Out<'_, W>, bytes: &[u8])
    requires header { 2 ≤ length bytes.now }
    ensures { Prints W.contents out.old out.new (record_text_by (row_of bytes.now) bytes.now) }
{
    match RecordRow::of_record(bytes) {
        Some(row) => print_known(out, bytes, row),
        None => print_other(out, bytes),
    }
}

fn print_record_line<W: Write>(out: &mut Out<'_, W>, bytes: &[u8])
    requires header { 2 ≤ length bytes.now }
    ensures { Prints W.contents out.old out.new (record_line bytes.now) }
{
    out.put(b"  ");
    print_record(out, bytes);
    out.put(b"\n");
}

/// The records of a MADT.
fn print_records<W: Write>(out: &mut Out<'_, W>, table: &[u8])
    requires holds { HoldsMadt table.now }
    ensures { Prints W.contents out.old out.new (flat_map record_line (records_of table.now)) }
{
    let mut at = MADT_RECORDS;
    while at < table.len() {
        let Some(bytes) = Madt::record_bytes(table, at) else {
            return;
        };
        print_record_line(out, bytes);
        at += bytes.len();
    }
}

/// The fields and records of a MADT.
pub(crate) fn print_madt<W: Write>(out: &mut Out<'_, W>, table: &[u8])
    requires holds { HoldsMadt table.now }
    ensures { Prints W.contents out.old out.new (madt_lines table.now) }
{
    put_hex8(out, b"  Controller ", u32_at(table, MADT_CONTROLLER));
    put_hex8(out, b" Flags ", u32_at(table, MADT_FLAGS));
    out.put(b"\n");
    print_records(out, table);
}
