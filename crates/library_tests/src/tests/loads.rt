//! The bodies of the methods of a load, by their bytes and as terms.
ghost use Rattle.aml_set.specs.Code.{AreShort};
ghost use Rattle.aml_set.specs.Views.{codes_view};

use super::fixtures::{OfLoad, Want, holds_of_load, is_whole_or_no_memory};
use aml_code::{CodeFault, Node, encode_terms};
use aml_load::read_body;
use aml_set::{Loaded, Method, span_of};
use std::alloc::{AllocError, Global};

/// Two tables of two methods each: empty, `Return (BBBB (Local0))`, and two that call these.
const CODES: [&[u8]; 2] = [
    b"\x14\x06BBBB\x01\x14\x0CAAAA\x00\xA4BBBB\x60",
    b"\x14\x0ACCCC\x02AAAA\x14\x0CDDDD\x00CCCC\x68\x60",
];

/// The bodies of their methods.
const BODIES: [&[u8]; 4] = [b"", b"\xA4BBBB\x60", b"AAAA", b"CCCC\x68\x60"];

/// Whether terms are those of these bytes.
fn are_of(alloc: Global, nodes: &[Node], body: &[u8]) -> Result<bool, AllocError> {
    let bytes = encode_terms(alloc, body, nodes)?;
    Ok(bytes.as_slice() == body)
}

/// Whether an answer is terms of these bytes.
fn has_terms(
    alloc: Global,
    answer: &Result<Vec<Node>, CodeFault>,
    body: &[u8],
) -> Result<bool, Want> {
    match answer {
        Ok(nodes) => Ok(are_of(alloc, nodes, body)?),
        Err(CodeFault::NoMemory) => Err(Want::Memory),
        Err(_) => Ok(false),
    }
}

/// Whether the body of a method reads as terms of these bytes.
fn reads(alloc: Global, loaded: &Loaded<'_>, method: &Method, body: &[u8]) -> Result<bool, Want>
    requires { AreShort (codes_view loaded.now.tables.items) }
{
    let answer = read_body(alloc, &loaded.tables, &loaded.space, method, false);
    has_terms(alloc, &answer, body)
}

/// Whether the body of the method with this number has these bytes, and reads as terms of them.
fn has_body(alloc: Global, loaded: &Loaded<'_>, number: u32, body: &[u8]) -> Result<bool, Want>
    requires { AreShort (codes_view loaded.now.tables.items) }
{
    let Some(method) = loaded.methods.get(number as usize) else {
        return Ok(false);
    };
    let same = loaded.body(number) == body && span_of(&loaded.tables, method) == body;
    Ok(same && reads(alloc, loaded, method, body)?)
}

/// That the methods of a load have these bodies, in the order of the text, and no others are there.
struct Bodies;

impl OfLoad for Bodies {
    fn holds(&self, alloc: Global, loaded: &Loaded<'_>) -> Result<bool, Want> {
        let mut same = loaded.methods.len() == BODIES.len();
        for number in 0..4 {
            same = same && has_body(alloc, loaded, number, BODIES[number as usize])?;
        }
        Ok(same)
    }
}

#[test]
fn bodies_by_their_bytes_or_no_memory(rt: HostRuntime) {
    let answer = holds_of_load(rt.alloc(), &CODES, &[], &Bodies);
    assert!(rt; is_whole_or_no_memory(&rt, answer));
}
