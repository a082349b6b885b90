//! Reading names.
ghost use Rattle.std.specs.Prelude.{◌≡◌, ◌<◌, ◌^◌, ◌⊎◌, ℕ, Ok, length, drop, IfOk, IfErr, IfSome};
ghost use Rattle.aml_names.specs.Names.{is_lead_char as leads, is_name_char as follows, is_name_lead as begins_name};
ghost use Rattle.aml_names.specs.Names.{IsName, spelling};
ghost use Rattle.aml_names.specs.declared.names.Name.{Name};
ghost use Rattle.aml_names.specs.NameReading.{Gives, passing_at, is_count, segment_at, segments_at, form_at, parents};
ghost use Rattle.aml_names.specs.NameReading.{is_rooted as rooted, path_at, name_at, NameFault, Spelled, SpellsNone};
ghost use Rattle.aml_names.specs.NameReading.{Begins};

use crate::faults::CodeFault;
use crate::names::{Name, NameForm};
use crate::segments::{Seg, Segs};
use crate::stepping::{byte_of, offset_of};
use std::alloc::Global;

/// `\`, which leads to the root.
const ROOT_CHAR: u8 = 0x5C;

/// `^`, which leads to the parent.
const PARENT_PREFIX: u8 = 0x5E;

/// What stands before two segments.
const DUAL_NAME_PREFIX: u8 = 0x2E;

/// What stands before a number of segments and these.
const MULTI_NAME_PREFIX: u8 = 0x2F;

/// Whether a byte is a LeadNameChar: `A` to `Z` or `_`.
fn is_lead_char(byte: u8) -> bool
    ensures { result ≡ leads byte }
{
    (b'A' <= byte && byte <= b'Z') || byte == b'_'
}

/// Whether a byte is a NameChar: a LeadNameChar or a digit.
fn is_name_char(byte: u8) -> bool
    ensures { result ≡ follows byte }
{
    is_lead_char(byte) || (b'0' <= byte && byte <= b'9')
}

/// Whether a byte can begin a name in any position: a LeadNameChar or a prefix. The NullName, 00, is none, since that
/// byte is the opcode of Zero too.
pub fn is_name_lead(byte: u8) -> bool
    ensures { result ≡ begins_name byte }
{
    is_lead_char(byte)
        || matches!(
            byte,
            ROOT_CHAR | PARENT_PREFIX | DUAL_NAME_PREFIX | MULTI_NAME_PREFIX
        )
}

/// The first character of a segment.
fn lead_char_of(end: u32, bytes: &[u8]) -> Result<(u8, &[u8]), CodeFault>
    ensures { Gives (λ x. (x.0, x.1.now)) result (passing_at leads end bytes.now) }
{
    match bytes {
        [] => Err(CodeFault::Truncated { at: end }),
        [byte, rest @ ..] if is_lead_char(*byte) => Ok((*byte, rest)),
        _ => Err(CodeFault::BadName {
            at: offset_of(end, bytes),
        }),
    }
}

/// A further character of a segment.
fn name_char_of(end: u32, bytes: &[u8]) -> Result<(u8, &[u8]), CodeFault>
    ensures { Gives (λ x. (x.0, x.1.now)) result (passing_at follows end bytes.now) }
{
    match bytes {
        [] => Err(CodeFault::Truncated { at: end }),
        [byte, rest @ ..] if is_name_char(*byte) => Ok((*byte, rest)),
        _ => Err(CodeFault::BadName {
            at: offset_of(end, bytes),
        }),
    }
}

/// The number of segments behind a MultiNamePrefix.
fn count_of(end: u32, bytes: &[u8]) -> Result<(u8, &[u8]), CodeFault>
    ensures { Gives (λ x. (x.0, x.1.now)) result (passing_at is_count end bytes.now) }
{
    match bytes {
        [] => Err(CodeFault::Truncated { at: end }),
        [byte, rest @ ..] if *byte > 0 => Ok((*byte, rest)),
        _ => Err(CodeFault::BadName {
            at: offset_of(end, bytes),
        }),
    }
}

/// Reads a NameSeg, four characters that `end` bounds, and answers it with what is left (ACPI 6.5, 20.2.2).
///
/// `end` is the offset in the code at which the bytes end. `BadName` at the first character that can't stand in its
/// place, `Truncated` at the end where the bytes are fewer.
#[inline(always)]
pub fn segment_of(end: u32, bytes: &[u8]) -> Result<(Seg, &[u8]), CodeFault>
    ensures { Gives (λ x. (x.0, x.1.now)) result (segment_at end bytes.now) }
{
    match whole_segment_of(bytes) {
        Some(found) => Ok(found),
        None => chars_of(end, bytes),
    }
}

/// The NameSeg with which the bytes begin, if they do, and what is left.
#[tactic(auto, unfolding(crate::specs::NameReading::segment_at))]
#[inline(always)]
fn whole_segment_of(bytes: &[u8]) -> Option<(Seg, &[u8])>
    ensures { IfSome result (λ x. (end : ℕ) → segment_at end bytes.now ≡ Ok (x.0, x.1.now)) }
{
    match bytes {
        [a, b, c, d, rest @ ..]
            if is_lead_char(*a) && is_name_char(*b) && is_name_char(*c) && is_name_char(*d) => {
            Some((Seg([*a, *b, *c, *d]), rest))
        }
        _ => None,
    }
}

/// The same, character by character, by which it tells where a fault is.
#[tactic(auto, unfolding(crate::specs::NameReading::segment_at))]
#[cold]
#[inline(never)]
fn chars_of(end: u32, bytes: &[u8]) -> Result<(Seg, &[u8]), CodeFault>
    ensures { Gives (λ x. (x.0, x.1.now)) result (segment_at end bytes.now) }
{
    let (a, rest) = lead_char_of(end, bytes)?;
    let (b, rest) = name_char_of(end, rest)?;
    let (c, rest) = name_char_of(end, rest)?;
    let (d, rest) = name_char_of(end, rest)?;
    Ok((Seg([a, b, c, d]), rest))
}

/// So many NameSegs.
#[tactic(auto, using(crate::proofs::NameLoops::segments_fail))]
fn segments_of(alloc: Global, count: u8, end: u32, bytes: &[u8]) -> Result<(Segs, &[u8]), CodeFault>
    ensures { Gives (λ x. (x.0, x.1.now)) result (segments_at count end bytes.now) }
{
    let mut segs = Segs::new(alloc);
    let mut rest = bytes;
    'segments: for _ in 0..count {
        let (seg, behind) = segment_of(end, rest)?;
        segs.push(seg)?;
        rest = behind;
    }
    Ok((segs, rest))
}

/// How the segments of a NamePath are spelled, and how many there are. What is left begins with the first of them.
#[tactic(auto, unfolding(crate::specs::NameReading::form_at))]
fn form_of(end: u32, bytes: &[u8]) -> Result<(NameForm, u8, &[u8]), CodeFault>
    ensures { Gives (λ x. ((x.0, x.1), x.2.now)) result (form_at end bytes.now) }
{
    let (lead, rest) = byte_of(end, bytes)?;
    match lead {
        0 => Ok((NameForm::Null, 0, rest)),
        DUAL_NAME_PREFIX => Ok((NameForm::Dual, 2, rest)),
        MULTI_NAME_PREFIX => {
            let (count, rest) = count_of(end, rest)?;
            Ok((NameForm::Multi, count, rest))
        }
        _ => Ok((NameForm::One, 1, bytes)),
    }
}

/// The NamePath behind these prefixes, and so the whole name.
#[tactic(auto, unfolding(crate::specs::NameReading::path_at))]
fn path_of(
    alloc: Global,
    root: bool,
    ups: u32,
    end: u32,
    bytes: &[u8],
) -> Result<(Name, &[u8]), CodeFault>
    ensures { Gives (λ x. (x.0, x.1.now)) result (path_at root ups end bytes.now) }
{
    let (form, count, rest) = form_of(end, bytes)?;
    let (segs, rest) = segments_of(alloc, count, end, rest)?;
    Ok((
        Name {
            root,
            ups,
            form,
            segs,
        },
        rest,
    ))
}

/// Whether a root prefix stands in front.
fn is_rooted(bytes: &[u8]) -> bool
    ensures { result ≡ rooted bytes.now }
{
    match bytes {
        [ROOT_CHAR, ..] => true,
        _ => false,
    }
}

/// How many parent prefixes stand in front.
fn parents_of(bytes: &[u8]) -> usize
    ensures { result ≡ parents bytes.now }
{
    let mut count = 0;
    for byte in bytes {
        if *byte != PARENT_PREFIX {
            return count;
        }
        count += 1;
    }
    count
}

/// Reads a NameString in any form (ACPI 6.5, 20.2.2) from the front of what is left of a span that ends at `end`,
/// and gives what is left behind it. A bare 00 is the name without a segment.
///
/// `Truncated` at the span's end where a byte is wanted, `BadName` at a byte that can't stand in its place, whichever
/// comes first. `NoMemory` also for more parent prefixes than a `u32` counts.
#[inline(always)]
pub fn name_of(alloc: Global, end: u32, bytes: &[u8]) -> Result<(Name, &[u8]), CodeFault>
    ensures exact { Gives (λ x. (x.0, x.1.now)) result (name_at end bytes.now) }
{
    match whole_segment_of(bytes) {
        Some((seg, rest)) => Ok((Name::plain(alloc, seg), rest)),
        None => name_with_prefix(alloc, end, bytes),
    }
}

/// The same, where most often a prefix stands in front.
#[tactic(auto, unfolding(crate::specs::NameReading::name_at), using(crate::proofs::NameLoops::parents_fit, crate::proofs::NameLoops::rooted_some))]
#[inline(never)]
fn name_with_prefix(alloc: Global, end: u32, bytes: &[u8]) -> Result<(Name, &[u8]), CodeFault>
    ensures { Gives (λ x. (x.0, x.1.now)) result (name_at end bytes.now) }
{
    if is_rooted(bytes) {
        return path_of(alloc, true, 0, end, &bytes[1..]);
    }
    let count = parents_of(bytes);
    let Ok(ups) = u32::try_from(count) else {
        return Err(CodeFault::NoMemory);
    };
    path_of(alloc, false, ups, end, &bytes[count..])
}

/// Reads a NameString in any form (ACPI 6.5, 20.2.2) from the front of the bytes, and gives how many bytes spell it.
/// A bare 00 is the name without a segment.
///
/// `Truncated` at the length of the bytes where one more is wanted, `BadName` at a byte that can't stand in its place,
/// whichever comes first.
pub fn read_name(alloc: Global, bytes: &[u8]) -> Result<(Name, usize), CodeFault>
    requires { length bytes.now < 2 ^ 32 }
    // What is read is a name, and spelled so.
    ensures sound { IfOk result (λ x. Spelled bytes.now x.0 x.1) }
    // No other name is spelled so.
    ensures one { IfOk result (λ x. (n : Name) → IsName n → Begins bytes.now (spelling n) → n ≡ x.0) }
    // What is refused spells no name, unless memory was refused.
    ensures complete { IfErr result (λ e. (e ≡ CodeFault.NoMemory) ⊎ SpellsNone bytes.now) }
    // A fault stands where it says.
    ensures placed { IfErr result (λ e. (e ≡ CodeFault.NoMemory) ⊎ NameFault (length bytes.now) bytes.now e) }
    // Which fault it is.
    ensures exact { Gives (λ x. (x.0, drop x.1 bytes.now)) result (name_at (length bytes.now) bytes.now) }
{
    match name_of(alloc, bytes.len() as u32, bytes) {
        Ok((name, rest)) => Ok((name, bytes.len() - rest.len())),
        Err(fault) => Err(fault),
    }
}
