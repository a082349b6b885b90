//! Terms of one or two bytes, told without the steps of longer ones.
ghost use Rattle.std.specs.Prelude.{◌≡◌, ◌<◌, [], ◌∷◌, None, Some, ℕ, OnOk, IfOk, IfSome, IfNone, IsTrue};
ghost use Rattle.aml_code.specs.Opcodes.{row_of as row_by, row_view};
ghost use Rattle.aml_code.specs.Pieces.{pieces};
ghost use Rattle.aml_code.specs.Tree.{op, byte, no_parts, part_more, empty};
ghost use Rattle.aml_parse.specs.Telling.{TellsShort};

use crate::flat::one_of;
use crate::positions::{is_absent_target, row_of};
use crate::tell::Here;
use aml_code::{NoMemory, OpRow, PartKind, Piece, Role, Sink};

/// Whether nothing stands behind an opcode of this row, and it declares nothing.
fn is_bare(row: &OpRow) -> bool
    ensures { IsTrue result → (row.now.parts.now ≡ []) × (row.now.tail ≡ None) × (row.now.role ≡ Role.Other) }
{
    row.parts.is_empty() && row.tail.is_none() && matches!(row.role, Role::Other)
}

/// Whether a byte stands behind an opcode of this row and nothing else, and it declares nothing.
fn has_byte(row: &OpRow) -> bool
    ensures { IsTrue result →
        (row.now.parts.now ≡ PartKind.Byte ∷ []) × (row.now.tail ≡ None) × (row.now.role ≡ Role.Other) }
{
    matches!(row.parts, [PartKind::Byte]) && row.tail.is_none() && matches!(row.role, Role::Other)
}

/// Tells an opcode behind which nothing stands.
#[inline(always)]
fn tell_bare<S: Sink>(row: &OpRow, sink: &mut S) -> Result<(), NoMemory>
    requires listed { row_by row.now.opcode ≡ Some (row_view row.now) }
    requires bare { row.now.parts.now ≡ [] }
    ensures { OnOk result ((level : ℕ) →
        S.grew sink.old sink.new (pieces level (op row.now.opcode None no_parts empty))) }
{
    sink.tell(&Piece::Opcode(row, None))?;
    sink.tell(&Piece::EndOfParts(row))?;
    sink.tell(&Piece::Empty)?;
    Ok(())
}

/// Tells an opcode behind which this byte stands.
#[inline(always)]
fn tell_with_byte<S: Sink>(row: &OpRow, value: u8, sink: &mut S) -> Result<(), NoMemory>
    requires listed { row_by row.now.opcode ≡ Some (row_view row.now) }
    requires byte { row.now.parts.now ≡ PartKind.Byte ∷ [] }
    ensures { OnOk result ((level : ℕ) →
        S.grew sink.old sink.new (pieces level (op row.now.opcode None (part_more (byte value) no_parts) empty))) }
{
    sink.tell(&Piece::Opcode(row, None))?;
    sink.tell(&Piece::Byte(value))?;
    sink.tell(&Piece::EndOfParts(row))?;
    sink.tell(&Piece::Empty)?;
    Ok(())
}

/// Tells a term of one or two bytes, and answers what is behind it. Where none stands there, or no level is left,
/// nothing is told.
#[inline(always)]
pub fn tell_short<'b, S: Sink>(
    here: Here,
    end: u32,
    sink: &mut S,
    bytes: &'b [u8],
) -> Result<Option<&'b [u8]>, NoMemory>
    ensures told { IfOk result (λ found. IfSome found (λ rest. TellsShort S.grew here.position here.levels here.level
        end sink.old sink.new bytes.now rest.now)) }
    ensures none { IfOk result (λ found. IfNone found (sink.new ≡ sink.old)) }
{
    match bytes {
        [lead, rest @ ..] if here.levels > 0 && is_absent_target(here.position, *lead) => {
            sink.tell(&Piece::Absent)?;
            Ok(Some(rest))
        }
        // A constant, a Local or an Arg.
        [0x00 | 0x01 | 0x0A | 0x60..=0x6E | 0xFF, ..] if here.levels > 0 => tell_shortly(
            here, end, sink, bytes,
        ),
        _ => Ok(None),
    }
}

/// The same, by the row of its opcode. It stays out of the frame of the reader of terms.
#[inline(never)]
fn tell_shortly<'b, S: Sink>(
    here: Here,
    end: u32,
    sink: &mut S,
    bytes: &'b [u8],
) -> Result<Option<&'b [u8]>, NoMemory>
    requires { 0 < here.levels }
    ensures told { IfOk result (λ found. IfSome found (λ rest. TellsShort S.grew here.position here.levels here.level
        end sink.old sink.new bytes.now rest.now)) }
    ensures none { IfOk result (λ found. IfNone found (sink.new ≡ sink.old)) }
{
    let Ok((row, behind)) = row_of(here.position, end, bytes) else {
        return Ok(None);
    };
    if is_bare(row) {
        tell_bare(row, sink)?;
        return Ok(Some(behind));
    }
    if !has_byte(row) {
        return Ok(None);
    }
    let Ok((value, after)) = one_of(end, behind) else {
        return Ok(None);
    };
    tell_with_byte(row, value, sink)?;
    Ok(Some(after))
}
