//! Parts that hold no terms.
#![tactic(auto, unfolding(crate::specs::Reading::segmented_at))]

ghost use Rattle.std.specs.Prelude.{◌≡◌, ◌<◌, ◌==◌, position, IfSome, length};
ghost use Rattle.aml_names.specs.NameReading.{Gives};
ghost use Rattle.aml_code.specs.Packages.{little_at};
ghost use Rattle.aml_code.specs.Tree.{text};
ghost use Rattle.aml_parse.specs.Reading.{text_part, segmented_at};

use aml_code::{CodeFault, Name, byte_of, offset_of};
use aml_names::name_of;
use std::alloc::Global;

/// A number of one byte, without the steps of longer ones.
#[tactic(auto, unfolding(aml_code::specs::Packages::little_at))]
#[inline(always)]
pub fn one_of(end: u32, bytes: &[u8]) -> Result<(u8, &[u8]), CodeFault>
    ensures { Gives (λ x. (x.0, x.1.now)) result (little_at 1 end bytes.now) }
{
    byte_of(end, bytes)
}

/// Where the first 00 stands.
fn first_zero(bytes: &[u8]) -> Option<usize>
    ensures zero { result ≡ position (λ b. b == 0) bytes.now }
    ensures inside { IfSome result (λ n. n < length bytes.now) }
{
    bytes.iter().position(|byte| *byte == 0)
}

/// The bytes of a text up to its 00. `Truncated` at the span's end where there is none.
pub fn text_of(end: u32, bytes: &[u8]) -> Result<(&[u8], &[u8]), CodeFault>
    ensures { Gives (λ x. (text x.0.now, x.1.now)) result (text_part end bytes.now) }
{
    match first_zero(bytes) {
        None => Err(CodeFault::Truncated { at: end }),
        Some(len) => Ok((&bytes[..len], &bytes[len + 1..])),
    }
}

/// A name with a segment. `EmptyName` at its first byte where it has none.
#[inline(always)]
pub fn segmented_of(alloc: Global, end: u32, bytes: &[u8]) -> Result<(Name, &[u8]), CodeFault>
    ensures { Gives (λ x. (x.0, x.1.now)) result (segmented_at end bytes.now) }
{
    let (name, rest) = name_of(alloc, end, bytes)?;
    if !name.has_segment() {
        return Err(CodeFault::EmptyName {
            at: offset_of(end, bytes),
        });
    }
    Ok((name, rest))
}
