//! Opcodes, which of them a position takes, and which position comes next.
#![tactic(auto, unfolding(crate::specs::Reading::opcode_at, crate::specs::Reading::taken_at))]

ghost use Rattle.std.specs.Prelude.{◌≡◌};
ghost use Rattle.aml_names.specs.NameReading.{Gives};
ghost use Rattle.aml_code.specs.Lawful.{has_opcode, is_guard, next_position, tail_in, terms_in};
ghost use Rattle.aml_code.specs.Opcodes.{row_view};
ghost use Rattle.aml_code.specs.Tree.{Tree};
ghost use Rattle.aml_code.specs.View.{node_view};
ghost use Rattle.aml_parse.specs.Reading.{opcode_at, taken_at, refused_in_body, refused_in_run, refusal};
ghost use Rattle.aml_parse.specs.Reading.{is_absent_target, Begins, takes_names, guard_at};

use aml_code::{
    CodeFault, Node, OpRow, Place, Position, TailKind, byte_of, listed_row, offset_of, takes,
};
use aml_names::is_name_lead;

/// An opcode: one byte, or 5B and a second.
pub fn opcode_of(end: u32, bytes: &[u8]) -> Result<(u16, &[u8]), CodeFault>
    ensures { Gives (λ x. (x.0, x.1.now)) result (opcode_at end bytes.now) }
{
    let (lead, rest) = byte_of(end, bytes)?;
    if lead != 0x5B {
        return Ok((lead as u16, rest));
    }
    let (second, rest) = byte_of(end, rest)?;
    Ok((0x5B00 + second as u16, rest))
}

/// Why a method's body doesn't take an opcode of a place.
fn refused_in_body(place: Place, at: u32) -> CodeFault
    ensures { result ≡ refused_in_body place at }
{
    match place {
        Place::Method => CodeFault::NestedMethod { at },
        Place::Scope => CodeFault::NestedScope { at },
        Place::Else => CodeFault::StrayElse { at },
        _ => CodeFault::NotHere { at },
    }
}

/// Why a table whose code may run doesn't take an opcode of a place.
fn refused_in_run(place: Place, at: u32) -> CodeFault
    ensures { result ≡ refused_in_run place at }
{
    if place == Place::Else {
        return CodeFault::StrayElse { at };
    }
    CodeFault::ModuleCode { at }
}

/// Why a position doesn't take an opcode of a place.
pub fn refusal(position: Position, place: Place, at: u32) -> CodeFault
    ensures { result ≡ refusal position place at }
{
    match position {
        Position::ModuleTerm | Position::GuardTerm => CodeFault::ModuleCode { at },
        Position::RunTerm | Position::RunAfterIf => refused_in_run(place, at),
        Position::BodyTerm | Position::AfterIf => refused_in_body(place, at),
        Position::Argument | Position::Target | Position::Data => CodeFault::NotHere { at },
    }
}

/// The row of an opcode in its position, and what is left behind the opcode. `UnknownOp` where it has no row, and a
/// fault where the position does not take it.
#[inline]
pub fn row_of(
    position: Position,
    end: u32,
    bytes: &[u8],
) -> Result<(&'static OpRow, &[u8]), CodeFault>
    ensures { Gives (λ x. (row_view x.0.now, x.1.now)) result (taken_at position end bytes.now) }
{
    let (opcode, rest) = opcode_of(end, bytes)?;
    let at = offset_of(end, bytes);
    match listed_row(opcode) {
        None => Err(CodeFault::UnknownOp { at }),
        Some(row) => {
            if !takes(position, row.place) {
                return Err(refusal(position, row.place, at));
            }
            Ok((row, rest))
        }
    }
}

/// Whether a target is absent: its place holds the byte 00.
pub fn is_absent_target(position: Position, lead: u8) -> bool
    ensures { result ≡ is_absent_target position lead }
{
    position == Position::Target && lead == 0x00
}

/// What the first byte of a term begins.
#[derive(Clone, Copy)]
pub enum Lead {
    Name,
    /// An absent target, which is this byte alone.
    Nothing,
    Opcode,
}

/// The last byte that begins a name, `_`. Most opcodes are behind it.
const LAST_NAME_LEAD: u8 = 0x5F;

/// What the first byte of a term begins in its position.
pub fn lead_of(position: Position, lead: u8) -> Lead
    ensures { Begins result position lead }
{
    if lead > LAST_NAME_LEAD {
        return Lead::Opcode;
    }
    if is_name_lead(lead) {
        return Lead::Name;
    }
    if is_absent_target(position, lead) {
        return Lead::Nothing;
    }
    Lead::Opcode
}

/// Whether a term may be a name.
pub fn takes_names(position: Position) -> bool
    ensures { result ≡ takes_names position }
{
    !matches!(position, Position::ModuleTerm | Position::GuardTerm)
}

/// Whether the terms inside a term of a table are those of a guard.
pub fn is_guard(position: Position, place: Place) -> bool
    ensures { result ≡ is_guard position place }
{
    position == Position::ModuleTerm && place == Place::If
}

/// Where the terms inside a term stand.
pub fn terms_in(position: Position, place: Place) -> Position
    ensures { result ≡ terms_in position place }
{
    match position {
        Position::ModuleTerm => match place {
            Place::If => Position::GuardTerm,
            _ => Position::ModuleTerm,
        },
        Position::RunTerm | Position::RunAfterIf => Position::RunTerm,
        _ => Position::BodyTerm,
    }
}

/// What is kept of a tail: of the terms inside a term of a table whose code may run, only their span.
pub fn tail_in(position: Position, tail: TailKind) -> TailKind
    ensures { result ≡ tail_in position tail }
{
    match position {
        Position::RunTerm | Position::RunAfterIf => match tail {
            TailKind::Terms => TailKind::Body,
            _ => tail,
        },
        _ => tail,
    }
}

/// The opcode of an If.
const IF: u16 = 0xA0;

/// Whether a term is an If.
fn is_if(node: &Node) -> bool
    ensures { result ≡ has_opcode 0xA0 (node_view node.now) }
{
    match node {
        Node::Op { opcode, .. } => *opcode == IF,
        _ => false,
    }
}

/// Where the term after a term of a list stands, by whether that is an If.
pub fn position_after(position: Position, is_if: bool) -> Position
    ensures { (t : Tree) → is_if ≡ has_opcode 0xA0 t → result ≡ next_position position t }
{
    match position {
        Position::BodyTerm | Position::AfterIf => {
            if is_if {
                Position::AfterIf
            } else {
                Position::BodyTerm
            }
        }
        Position::RunTerm | Position::RunAfterIf => {
            if is_if {
                Position::RunAfterIf
            } else {
                Position::RunTerm
            }
        }
        _ => position,
    }
}

/// Where the term after a term of a list stands.
pub fn next_position(position: Position, node: &Node) -> Position
    ensures { result ≡ next_position position (node_view node.now) }
{
    position_after(position, is_if(node))
}

/// Whether a guard begins with its predicate 00. `ModuleCode` at the guard where it begins with another byte.
pub fn guard_of(guarded: bool, at: u32, end: u32, inside: &[u8]) -> Result<bool, CodeFault>
    ensures { Gives (λ b. b) result (guard_at guarded at end inside.now) }
{
    if !guarded {
        return Ok(false);
    }
    let (first, _) = byte_of(end, inside)?;
    if first != 0x00 {
        return Err(CodeFault::ModuleCode { at });
    }
    Ok(true)
}
