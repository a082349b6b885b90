//! Bodies of 512 levels, the most that are read, on each thread.
use super::fixtures::{OfListing, Want, Watch, are_trees, dsdt_of, holds_of_listing, runs_behind};
use acpi_tables::Dump;
use aml_text::Listing;
use std::alloc::{AllocError, Global};
use std::panic::Expect;
use std::sync::Wait;
use std::thread::Threads;

/// How many levels stand around the innermost term.
const AROUND: u32 = 511;

/// Adds an opcode with a package length over what stands in front of the inner bytes, and these.
fn push_package(
    bytes: &mut Vec<u8>,
    opcode: &[u8],
    front: &[u8],
    inner: &[u8],
) -> Result<(), AllocError> {
    let len = front.len().saturating_add(inner.len()).saturating_add(3);
    let length = [
        0x80 | (len % 16) as u8,
        (len / 16 % 256) as u8,
        (len / 4096 % 256) as u8,
    ];
    bytes.extend_from_slice(opcode)?;
    bytes.extend_from_slice(&length)?;
    bytes.extend_from_slice(front)?;
    bytes.extend_from_slice(inner)
}

/// So many packages, one in the other.
fn packages(
    alloc: Global,
    count: u32,
    opcode: &[u8],
    front: &[u8],
    inner: Vec<u8>,
) -> Result<Vec<u8>, AllocError> {
    let mut bytes = inner;
    for _ in 0..count {
        let mut outer = Vec::new(alloc);
        push_package(&mut outer, opcode, front, &bytes)?;
        bytes = outer;
    }
    Ok(bytes)
}

/// The same bytes so many times, and the last ones.
fn chain(alloc: Global, count: u32, link: &[u8], last: &[u8]) -> Result<Vec<u8>, AllocError> {
    let mut bytes = Vec::new(alloc);
    for _ in 0..count {
        bytes.extend_from_slice(link)?;
    }
    bytes.extend_from_slice(last)?;
    Ok(bytes)
}

/// A Field, whose connection is a Buffer of so deep a size, in so many If terms.
fn connection(alloc: Global, around: u32, within: u32) -> Result<Vec<u8>, AllocError> {
    let size = chain(alloc, within, b"\x92", b"\x60")?;
    let buffer = packages(alloc, 1, b"\x11", b"", size)?;
    let field = packages(alloc, 1, b"\x5B\x81", b"REGN\x01\x02", buffer)?;
    packages(alloc, around, b"\xA0", b"\x60", field)
}

/// What stands in front of a term in which it is the last part, and the innermost term.
const LINKS: [(&[u8], &[u8]); 3] = [
    (b"\x92", b"\x60"),
    (b"\x88\x60\x00", b"\x00"),
    (b"CALL", b"\x60"),
];

/// The opcode of a term with a package length, what stands in front of the terms in it, and the innermost.
const SHELLS: [(&[u8], &[u8], &[u8]); 3] = [
    (b"\xA0", b"\x60", b"\xA3"),
    (b"\x12", b"\x01", b"\x00"),
    (b"\x11", b"", b"\x00"),
];

/// A body for each way in which terms stand in terms.
fn push_bodies(alloc: Global, bodies: &mut Vec<Vec<u8>>) -> Result<(), AllocError> {
    for (link, last) in &LINKS {
        bodies.push(chain(alloc, AROUND, link, last)?)?;
    }
    for (opcode, front, inner) in &SHELLS {
        bodies.push(packages(alloc, AROUND, opcode, front, inner.to_vec(alloc)?)?)?;
    }
    bodies.push(connection(alloc, 300, 209)?)?;
    Ok(())
}

/// Two methods of each body, one after the other.
fn push_methods(code: &mut Vec<u8>, bodies: &[Vec<u8>]) -> Result<(), AllocError> {
    code.extend_from_slice(b"\x15CALL\x08\x01")?;
    for (letter, body) in (b'A'..=b'Z').zip(bodies) {
        push_package(code, b"\x14", &[letter, b'_', b'_', b'1', 0], body)?;
        push_package(code, b"\x14", &[letter, b'_', b'_', b'2', 0], body)?;
    }
    Ok(())
}

/// A DSDT with two methods of each body.
fn deepest_methods(alloc: Global) -> Result<Vec<Dump>, AllocError> {
    let mut bodies = Vec::new(alloc);
    push_bodies(alloc, &mut bodies)?;
    let mut code = Vec::new(alloc);
    push_methods(&mut code, &bodies)?;
    dsdt_of(alloc, &code)
}

/// That no body is raw, and two workers have read one of each two.
struct Halves;

impl OfListing for Halves {
    fn holds(&self, _alloc: Global, listing: &mut Listing<'_>) -> Result<bool, Want> {
        let [one, other] = listing.drawn.as_slice() else {
            return Ok(false);
        };
        let halved = one.len() == 7 && other.len() == 7 && listing.bodies.len() == 14;
        Ok(halved && are_trees(&listing.bodies))
    }
}

/// Whether that is so of two workers behind this gate.
fn are_halves<T: Threads + Wait + Sync>(
    threads: &T,
    alloc: Global,
    gate: &Watch,
) -> Result<bool, Want> {
    let dumps = deepest_methods(alloc)?;
    holds_of_listing(threads, alloc, &dumps, 2, gate, &Halves)
}

/// A worker is held at the one copy of a body until the other worker has the other copy.
#[test]
fn the_deepest_bodies_on_each_thread(rt: HostRuntime) {
    let gate = Watch::new(rt.alloc(), 2, 0).expect(&rt, "no gate");
    assert!(rt; matches!(are_halves(&rt, rt.alloc(), &gate), Ok(true)));
    assert!(rt; !gate.is_stuck());
}

#[test]
fn the_deepest_bodies_are_printed(rt: HostRuntime) {
    let dumps = deepest_methods(rt.alloc()).expect(&rt, "no dumps");
    let gate = Watch::new(rt.alloc(), 2, 0).expect(&rt, "no gate");
    assert!(rt; runs_behind(&rt, rt.alloc(), &dumps, &gate));
}
