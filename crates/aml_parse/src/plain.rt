//! Parts that hold no terms, told as they are read.
#![tactic(auto, unfolding(crate::specs::Reading::count_part, crate::specs::Reading::segmented_at))]

ghost use Rattle.std.specs.Prelude.{◌≡◌, true, IfOk, IfErr};
ghost use Rattle.aml_names.specs.NameReading.{Fails, name_at};
ghost use Rattle.aml_names.specs.Paths.{PathSet};
ghost use Rattle.aml_code.specs.Packages.{little_at};
ghost use Rattle.aml_code.specs.Tree.{Tree, label, byte, word, dword, qword};
ghost use Rattle.aml_code.specs.declared.rows.Position.{Position};
ghost use Rattle.aml_parse.specs.Reading.{Reader, held, count_part, text_part, segmented_at, part_at};
ghost use Rattle.aml_parse.specs.Telling.{TellsPart, TellsFlat, IsLabel, IsPlain, is_flat, label_at};

use crate::flat::{one_of, segmented_of, text_of};
use aml_code::{CodeFault, PartKind, Piece, Sink, little_of, offset_of};
use aml_names::name_of;
use std::alloc::Global;

/// The most arguments that an External tells.
const MOST_ARGUMENTS: u64 = 7;

/// A number of one byte.
#[inline(always)]
pub fn tell_byte<'b, S: Sink>(
    end: u32,
    sink: &mut S,
    bytes: &'b [u8],
) -> Result<&'b [u8], CodeFault>
    ensures told { IfOk result (λ rest. TellsPart S.grew IsPlain sink.old sink.new rest.now
        (held byte (little_at 1 end bytes.now))) }
    ensures fails { IfErr result (λ e. Fails e (held byte (little_at 1 end bytes.now))) }
{
    let (value, rest) = one_of(end, bytes)?;
    sink.tell(&Piece::Byte(value))?;
    Ok(rest)
}

/// A number of arguments. `BadCount` at the byte where there are too many.
pub fn tell_count<'b, S: Sink>(
    end: u32,
    sink: &mut S,
    bytes: &'b [u8],
) -> Result<&'b [u8], CodeFault>
    ensures told { IfOk result (λ rest. TellsPart S.grew IsPlain sink.old sink.new rest.now
        (count_part end bytes.now)) }
    ensures fails { IfErr result (λ e. Fails e (count_part end bytes.now)) }
{
    let (value, rest) = little_of(1, end, bytes)?;
    if value > MOST_ARGUMENTS {
        return Err(CodeFault::BadCount {
            at: offset_of(end, bytes),
        });
    }
    sink.tell(&Piece::Byte(value as u8))?;
    Ok(rest)
}

/// A number of two bytes.
pub fn tell_word<'b, S: Sink>(
    end: u32,
    sink: &mut S,
    bytes: &'b [u8],
) -> Result<&'b [u8], CodeFault>
    ensures told { IfOk result (λ rest. TellsPart S.grew IsPlain sink.old sink.new rest.now
        (held word (little_at 2 end bytes.now))) }
    ensures fails { IfErr result (λ e. Fails e (held word (little_at 2 end bytes.now))) }
{
    let (value, rest) = little_of(2, end, bytes)?;
    sink.tell(&Piece::Word(value as u16))?;
    Ok(rest)
}

/// A number of four bytes.
pub fn tell_dword<'b, S: Sink>(
    end: u32,
    sink: &mut S,
    bytes: &'b [u8],
) -> Result<&'b [u8], CodeFault>
    ensures told { IfOk result (λ rest. TellsPart S.grew IsPlain sink.old sink.new rest.now
        (held dword (little_at 4 end bytes.now))) }
    ensures fails { IfErr result (λ e. Fails e (held dword (little_at 4 end bytes.now))) }
{
    let (value, rest) = little_of(4, end, bytes)?;
    sink.tell(&Piece::Dword(value as u32))?;
    Ok(rest)
}

/// A number of eight bytes.
pub fn tell_qword<'b, S: Sink>(
    end: u32,
    sink: &mut S,
    bytes: &'b [u8],
) -> Result<&'b [u8], CodeFault>
    ensures told { IfOk result (λ rest. TellsPart S.grew IsPlain sink.old sink.new rest.now
        (held qword (little_at 8 end bytes.now))) }
    ensures fails { IfErr result (λ e. Fails e (held qword (little_at 8 end bytes.now))) }
{
    let (value, rest) = little_of(8, end, bytes)?;
    sink.tell(&Piece::Qword(value))?;
    Ok(rest)
}

/// A text up to its 00. `Truncated` at the span's end where there is none.
pub fn tell_text<'b, S: Sink>(
    end: u32,
    sink: &mut S,
    bytes: &'b [u8],
) -> Result<&'b [u8], CodeFault>
    ensures told { IfOk result (λ rest. TellsPart S.grew IsPlain sink.old sink.new rest.now
        (text_part end bytes.now)) }
    ensures fails { IfErr result (λ e. Fails e (text_part end bytes.now)) }
{
    let (text, rest) = text_of(end, bytes)?;
    sink.tell(&Piece::Text(text))?;
    Ok(rest)
}

/// A name that may have no segment.
pub fn tell_any_name<'b, S: Sink>(
    alloc: Global,
    end: u32,
    sink: &mut S,
    bytes: &'b [u8],
) -> Result<&'b [u8], CodeFault>
    ensures told { IfOk result (λ rest. TellsPart S.grew (IsLabel end bytes.now) sink.old sink.new rest.now
        (held label (name_at end bytes.now))) }
    ensures fails { IfErr result (λ e. Fails e (held label (name_at end bytes.now))) }
{
    let (name, rest) = name_of(alloc, end, bytes)?;
    sink.tell(&Piece::Label(&name))?;
    Ok(rest)
}

/// A name with a segment. `EmptyName` at its first byte where it has none.
pub fn tell_name<'b, S: Sink>(
    alloc: Global,
    end: u32,
    sink: &mut S,
    bytes: &'b [u8],
) -> Result<&'b [u8], CodeFault>
    ensures told { IfOk result (λ rest. TellsPart S.grew (IsLabel end bytes.now) sink.old sink.new rest.now
        (held label (segmented_at end bytes.now))) }
    ensures fails { IfErr result (λ e. Fails e (held label (segmented_at end bytes.now))) }
{
    let (name, rest) = segmented_of(alloc, end, bytes)?;
    sink.tell(&Piece::Label(&name))?;
    Ok(rest)
}

/// A part of a kind that holds no terms. Where it is a name, it is kept where it begins. It stays out of the frame of
/// the reader of terms, which are most parts.
#[inline(never)]
pub fn tell_flat<'b, S: Sink>(
    kind: PartKind,
    alloc: Global,
    end: u32,
    label: &mut Option<&'b [u8]>,
    sink: &mut S,
    bytes: &'b [u8],
) -> Result<&'b [u8], CodeFault>
    requires { is_flat kind ≡ true }
    ensures told { IfOk result (λ rest. TellsFlat S.grew kind end (label_at end label.old) (label_at end label.new)
        sink.old sink.new bytes.now rest.now) }
    ensures fails { IfErr result (λ e. (read : Position → Reader Tree) (ls : PathSet) →
        Fails e (part_at read kind end ls bytes.now)) }
{
    match kind {
        PartKind::Name => {
            *label = Some(bytes);
            Ok(tell_name(alloc, end, sink, bytes)?)
        }
        PartKind::ScopeName => {
            *label = Some(bytes);
            Ok(tell_any_name(alloc, end, sink, bytes)?)
        }
        PartKind::Byte => Ok(tell_byte(end, sink, bytes)?),
        PartKind::Count => Ok(tell_count(end, sink, bytes)?),
        PartKind::Word => Ok(tell_word(end, sink, bytes)?),
        PartKind::Dword => Ok(tell_dword(end, sink, bytes)?),
        PartKind::Qword => Ok(tell_qword(end, sink, bytes)?),
        PartKind::Text => Ok(tell_text(end, sink, bytes)?),
        PartKind::Term | PartKind::Target | PartKind::Data => unreachable!(),
    }
}
