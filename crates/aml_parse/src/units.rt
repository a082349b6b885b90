//! Elements of field lists that hold no terms (ACPI 6.5, 20.2.5.2).
#![tactic(auto)]

ghost use Rattle.aml_names.specs.NameReading.{Gives};
ghost use Rattle.aml_code.specs.Tree.{target};
ghost use Rattle.aml_code.specs.View.{field_view, link_view};
ghost use Rattle.aml_parse.specs.Reading.{named_unit, reserved_unit, access_unit, extended_unit, held, segmented_at};

use crate::flat::segmented_of;
use aml_code::{CodeFault, Field, Link, byte_of, length_of};
use aml_names::segment_of;
use std::alloc::Global;

/// A named unit: a segment and a number of bits.
#[tactic(auto, unfolding(crate::specs::Reading::named_unit))]
pub fn named_unit_of(end: u32, bytes: &[u8]) -> Result<(Field, &[u8]), CodeFault>
    ensures { Gives (λ x. (field_view x.0, x.1.now)) result (named_unit end bytes.now) }
{
    let (seg, rest) = segment_of(end, bytes)?;
    let ((width, bits), rest) = length_of(end, rest)?;
    Ok((Field::NamedUnit { seg, width, bits }, rest))
}

/// Reserved bits, behind their 00.
pub fn reserved_unit_of(end: u32, bytes: &[u8]) -> Result<(Field, &[u8]), CodeFault>
    ensures { Gives (λ x. (field_view x.0, x.1.now)) result (reserved_unit end bytes.now) }
{
    let ((width, bits), rest) = length_of(end, bytes)?;
    Ok((Field::Reserved { width, bits }, rest))
}

/// Access type and attribute, behind their 01.
#[tactic(auto, unfolding(crate::specs::Reading::access_unit))]
pub fn access_unit_of(end: u32, bytes: &[u8]) -> Result<(Field, &[u8]), CodeFault>
    ensures { Gives (λ x. (field_view x.0, x.1.now)) result (access_unit end bytes.now) }
{
    let (kind, rest) = byte_of(end, bytes)?;
    let (attribute, rest) = byte_of(end, rest)?;
    Ok((Field::Access(kind, attribute), rest))
}

/// Extended access: type, attribute and length, behind their 03.
#[tactic(auto, unfolding(crate::specs::Reading::extended_unit))]
pub fn extended_unit_of(end: u32, bytes: &[u8]) -> Result<(Field, &[u8]), CodeFault>
    ensures { Gives (λ x. (field_view x.0, x.1.now)) result (extended_unit end bytes.now) }
{
    let (kind, rest) = byte_of(end, bytes)?;
    let (attribute, rest) = byte_of(end, rest)?;
    let (len, rest) = byte_of(end, rest)?;
    Ok((Field::Extended(kind, attribute, len), rest))
}

/// A connection's name, which has a segment.
pub fn named_link_of(alloc: Global, end: u32, bytes: &[u8]) -> Result<(Link, &[u8]), CodeFault>
    ensures { Gives (λ x. (link_view x.0, x.1.now)) result (held target (segmented_at end bytes.now)) }
{
    let (name, rest) = segmented_of(alloc, end, bytes)?;
    Ok((Link::Target(name), rest))
}
