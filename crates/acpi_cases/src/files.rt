//! Rows of files beside the dumps: `tables.map`, and the counts that the user gives.

use acpi_folder::{ExternalsFault, MapFault, parse_externals, parse_map};
use aml_names::{ArgumentCount, Path};
use std::alloc::{AllocError, Global};
use std::fmt::Write;

fn push_address(out: &mut String, label: &str, address: Option<u64>) -> Result<(), AllocError> {
    match address {
        None => writeln!(out, "  {label} none"),
        Some(address) => writeln!(out, "  {label} {address:X}"),
    }
}

/// The address that a map gives each of some files.
pub fn push_map(
    alloc: Global,
    out: &mut String,
    words: &str,
    text: &[u8],
) -> Result<(), AllocError> {
    let mut names = Vec::new(alloc);
    add_names(alloc, &mut names, words)?;
    match parse_map(alloc, text, &names) {
        Err(fault) => push_map_fault(out, fault),
        Ok(addresses) => push_names(out, &names, &addresses),
    }
}

/// The paths and counts of a file that the user gives.
pub fn push_externals(alloc: Global, out: &mut String, text: &[u8]) -> Result<(), AllocError> {
    match parse_externals(alloc, text) {
        Err(ExternalsFault::BadLine(line)) => writeln!(out, "  BadLine in line {line}"),
        Err(ExternalsFault::NoMemory) => Err(AllocError),
        Ok(givens) => push_givens(out, &givens),
    }
}

fn push_givens(out: &mut String, givens: &[(Path, ArgumentCount)]) -> Result<(), AllocError> {
    for (path, count) in givens {
        writeln!(out, "  {path} {}", count.get())?;
    }
    Ok(())
}

/// Adds each word.
fn add_names(alloc: Global, names: &mut Vec<String>, words: &str) -> Result<(), AllocError> {
    for word in words.split(' ') {
        names.push(String::from_str(alloc, word)?)?;
    }
    Ok(())
}

fn push_names(
    out: &mut String,
    names: &[String],
    addresses: &[Option<u64>],
) -> Result<(), AllocError> {
    for (name, address) in names.iter().zip(addresses) {
        push_address(out, name.as_str(), *address)?;
    }
    Ok(())
}

fn push_map_fault(out: &mut String, fault: MapFault) -> Result<(), AllocError> {
    match fault.line() {
        None => writeln!(out, "  {fault}"),
        Some(line) => writeln!(out, "  {fault} in line {line}"),
    }
}
