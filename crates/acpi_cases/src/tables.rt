//! Rows of tables by themselves: the addresses that an XSDT or an RSDT lists, and the records of a MADT.

use crate::lines::push_bytes;
use acpi_tables::{Bad, Madt, MadtRecord, RecordRow, Rsdt, Xsdt};
use std::alloc::{AllocError, Global};
use std::fmt::Write;

/// The addresses of an XSDT.
pub fn push_xsdt(alloc: Global, out: &mut String, table: &[u8]) -> Result<(), AllocError> {
    push_entries(out, Xsdt::entries(alloc, table))
}

/// The addresses of an RSDT.
pub fn push_rsdt(alloc: Global, out: &mut String, table: &[u8]) -> Result<(), AllocError> {
    push_entries(out, Rsdt::entries(alloc, table))
}

fn push_entries(out: &mut String, entries: Result<Vec<u64>, Bad>) -> Result<(), AllocError> {
    match entries {
        Err(bad) => writeln!(out, "  {bad}"),
        Ok(entries) => push_addresses(out, &entries),
    }
}

/// Addresses in hexadecimal digits, or `none`.
fn push_addresses(out: &mut String, addresses: &[u64]) -> Result<(), AllocError> {
    let Some((first, others)) = addresses.split_first() else {
        return out.push_str("  none\n");
    };
    write!(out, "  {first:X}")?;
    push_numbers(out, others, ", ")
}

/// Numbers in hexadecimal digits, with a gap before each, to the end of the line.
fn push_numbers(out: &mut String, numbers: &[u64], gap: &str) -> Result<(), AllocError> {
    for number in numbers {
        write!(out, "{gap}{number:X}")?;
    }
    out.push_str("\n")
}

/// The fields of a MADT, and a line for each of its records.
pub fn push_madt(alloc: Global, out: &mut String, table: &[u8]) -> Result<(), AllocError> {
    match Madt::read(alloc, table) {
        Err(bad) => writeln!(out, "  {bad}"),
        Ok(madt) => push_records(out, &madt),
    }
}

fn push_records(out: &mut String, madt: &Madt) -> Result<(), AllocError> {
    let Madt {
        controller,
        flags,
        ..
    } = madt;
    writeln!(out, "  Controller {controller:X} Flags {flags:X}")?;
    for record in &madt.records {
        push_record(out, record)?;
    }
    Ok(())
}

/// A record's kind, and the values of its fields or its content, in hexadecimal digits.
fn push_record(out: &mut String, record: &MadtRecord) -> Result<(), AllocError> {
    match record {
        MadtRecord::Known { row, values } => push_known(out, row, values),
        MadtRecord::Other { kind, content } => push_other(out, *kind, content),
    }
}

fn push_known(out: &mut String, row: &RecordRow, values: &[u64]) -> Result<(), AllocError> {
    write!(out, "  {}", row.name)?;
    push_numbers(out, values.get(..row.fields.len()).unwrap_or(values), " ")
}

fn push_other(out: &mut String, kind: u8, content: &[u8]) -> Result<(), AllocError> {
    write!(out, "  Other {kind:X}:")?;
    push_bytes(out, content, " ")
}
