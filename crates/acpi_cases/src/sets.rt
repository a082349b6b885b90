//! Rows of sets of dumps, and of their order.
use crate::lines::first_word;
use acpi_tables::{Dump, Order, TableFault, load_order, sum};
use std::alloc::{AllocError, Global};
use std::fmt::Write;

/// What stands in a header behind the length: revision, checksum, OEM and creator.
const HEADER: [u8; 28] = *b"\x02\x00TEST  EXAMPLE \x01\x00\x00\x00TEST\x01\x00\x00\x00";

/// A table with this signature, this content and a right checksum.
fn with_header(alloc: Global, signature: &str, content: &[u8]) -> Result<Vec<u8>, AllocError> {
    let len = u32::try_from(content.len()).unwrap_or(0).saturating_add(36);
    let mut bytes = Vec::new(alloc);
    bytes.extend_from_slice(signature.as_bytes())?;
    bytes.extend_from_slice(&len.to_le_bytes())?;
    bytes.extend_from_slice(&HEADER)?;
    bytes.extend_from_slice(content)?;
    let total = sum(&bytes);
    put(&mut bytes, 9, 0u8.wrapping_sub(total));
    Ok(bytes)
}

/// Writes one byte.
fn put(bytes: &mut Vec<u8>, at: usize, byte: u8) {
    if let Some(place) = bytes.get_mut(at) {
        *place = byte;
    }
}

/// Adds a dump. Its words are the file's name, `@` and the address where it has one.
pub fn push_dump(
    alloc: Global,
    dumps: &mut Vec<Dump>,
    words: &str,
    bytes: &[u8],
) -> Result<(), AllocError> {
    let (name, address) = words.split_once('@').unwrap_or((words, ""));
    dumps.push(Dump {
        name: String::from_str(alloc, name)?,
        address: u64::from_str_radix(address, 16).ok(),
        bytes: bytes.to_vec(alloc)?,
    })?;
    Ok(())
}

/// Adds a dump of a table: behind the name stands its signature.
pub fn push_table(
    alloc: Global,
    dumps: &mut Vec<Dump>,
    words: &str,
    content: &[u8],
) -> Result<(), AllocError> {
    let (name, signature) = first_word(words);
    let bytes = with_header(alloc, signature, content)?;
    push_dump(alloc, dumps, name, &bytes)
}

/// Cuts the last dump to so many bytes.
fn cut(dumps: &mut [Dump], len: usize) -> Result<(), AllocError> {
    if let Some(dump) = dumps.last_mut() {
        dump.bytes.truncate(len);
    }
    Ok(())
}

/// Changes one byte of the last dump.
pub fn put_byte(dumps: &mut [Dump], at: usize, bytes: &[u8]) -> Result<(), AllocError> {
    if let (Some(dump), [byte]) = (dumps.last_mut(), bytes) {
        put(&mut dump.bytes, at, *byte);
    }
    Ok(())
}

/// Adds bytes to the last dump.
pub fn add_bytes(dumps: &mut [Dump], bytes: &[u8]) -> Result<(), AllocError> {
    match dumps.last_mut() {
        None => Ok(()),
        Some(dump) => dump.bytes.extend_from_slice(bytes),
    }
}

/// The dumps of the definition blocks in load order, by index and name, or why they have none.
pub fn push_order(
    alloc: Global,
    out: &mut String,
    words: &str,
    dumps: &[Dump],
) -> Result<(), AllocError> {
    match load_order(alloc, dumps, words.contains("any_sum")) {
        Err(fault) => push_refusal(out, fault),
        Ok(order) => push_indexes(out, &order),
    }
}

fn push_refusal(out: &mut String, fault: TableFault) -> Result<(), AllocError> {
    match fault.dump {
        None => writeln!(out, "  {fault}"),
        Some(index) => writeln!(out, "  {fault}, dump {index}"),
    }
}

fn push_indexes(out: &mut String, order: &Order) -> Result<(), AllocError> {
    let dsdt = order.dsdt;
    write!(out, "  {dsdt}")?;
    for ssdt in &order.ssdts {
        write!(out, " {ssdt}")?;
    }
    writeln!(out)
}

/// The order for each number of bytes to which the last dump can be cut, from the greatest on.
pub fn push_orders(
    alloc: Global,
    out: &mut String,
    dumps: &mut [Dump],
    len: usize,
) -> Result<(), AllocError> {
    for taken in 0..len {
        let left = len - taken - 1;
        cut(dumps, left)?;
        writeln!(out, "  {left} bytes:")?;
        push_order(alloc, out, "", dumps)?;
    }
    Ok(())
}
