//! The bytes of terms that are told, and whether they are those of the code.
#![tactic(auto, using(crate::proofs::EncodedLaws::told_bytes))]

ghost use Rattle.std.specs.Prelude.{◌≡◌, ◌∷◌, [], ◌++◌, ℕ, List, true, Some, OnOk, IfOk, IfErr, IfSome, reverse};
ghost use Rattle.aml_code.specs.Pieces.{Told, piece_view};
ghost use Rattle.aml_code.specs.Encoded.{Grew, State, TellsSame, begun, closed, ended, own, same_bytes, state_of, step};

use crate::encode::{
    close_package, encode_field, encode_name, encode_opcode, open_package, push_little2,
    push_little4, push_little8, slice,
};
use crate::packages::PkgWidth;
use crate::pieces::{Piece, Sink, Telling};
use aml_names::NoMemory;
use std::alloc::Global;

/// An opcode that isn't ended.
#[derive(Clone, Copy)]
pub struct Open {
    /// Where its package length stands among the bytes, or would.
    at: usize,
    /// The width of its package length, if it has one.
    width: Option<PkgWidth>,
}

/// A sink that encodes what it is told of the terms of a code.
#[derive(Drop)]
pub struct Encoder<'c> {
    code: &'c [u8],
    /// The bytes so far, with zeros for the lengths of packages that aren't ended.
    out: Vec<u8>,
    /// The innermost last.
    opens: Vec<Open>,
}

/// Begins an opcode, with room for the length of its package, if it has one.
fn begin(
    opcode: u16,
    width: Option<PkgWidth>,
    out: &mut Vec<u8>,
    opens: &mut Vec<Open>,
) -> Result<(), NoMemory>
    ensures { OnOk result (begun opcode width out.old.items (reverse opens.old.items)
        ≡ Some (out.new.items, reverse opens.new.items)) }
{
    encode_opcode(opcode, out)?;
    let at = out.len();
    if let Some(width) = width {
        open_package(width, out)?;
    }
    opens.push(Open { at, width })?;
    Ok(())
}

/// Writes the length of a package that is ended.
fn close(innermost: Open, out: &mut Vec<u8>)
    ensures { IfSome (closed innermost.width innermost.at out.old.items) (λ all. out.new.items ≡ all) }
{
    let Some(width) = innermost.width else {
        return;
    };
    if innermost.at.saturating_add(width.bytes() as usize) <= out.len() {
        close_package(width, innermost.at, out);
    }
}

/// Ends the innermost opcode.
fn end(out: &mut Vec<u8>, opens: &mut Vec<Open>)
    ensures { IfSome (ended out.old.items (reverse opens.old.items))
        (λ s. (out.new.items, reverse opens.new.items) ≡ s) }
{
    if let Some(innermost) = opens.pop() {
        close(innermost, out);
    }
}

/// The bytes of a part that is a text, with the 00 that ends it.
fn encode_text(bytes: &[u8], out: &mut Vec<u8>) -> Result<(), NoMemory>
    ensures { OnOk result (out.new.items ≡ out.old.items ++ (bytes.now ++ 0x00 ∷ [])) }
{
    out.extend_from_slice(bytes)?;
    out.push(0x00)?;
    Ok(())
}

/// The bytes of a piece itself. An opcode has others.
fn encode_piece(code: &[u8], piece: Piece<'_>, out: &mut Vec<u8>) -> Result<(), NoMemory>
    ensures { OnOk result (out.new.items ≡ out.old.items ++ own code.now (piece_view piece.entry)) }
{
    match piece {
        Piece::Absent => out.push(0x00)?,
        Piece::Name(name, _) => encode_name(name, out)?,
        Piece::Label(name) => encode_name(name, out)?,
        Piece::Byte(n) => out.push(n)?,
        Piece::Word(n) => push_little2(n, out)?,
        Piece::Dword(n) => push_little4(n, out)?,
        Piece::Qword(n) => push_little8(n, out)?,
        Piece::Text(bytes) => encode_text(bytes, out)?,
        Piece::Bytes(bytes) => out.extend_from_slice(bytes)?,
        Piece::Body(start, len) => out.extend_from_slice(slice(code, start, len))?,
        Piece::Field(field) => encode_field(code, field, out)?,
        Piece::Link => out.push(0x02)?,
        _ => {}
    }
    Ok(())
}

/// Whether a piece is encoded as nothing, and ends no opcode.
#[inline(always)]
fn is_silent(piece: &Piece<'_>) -> bool
    ensures { result ≡ true → (code : List ℕ) (s : State) → step code (piece_view piece.now) s.0 s.1 ≡ Some s }
{
    matches!(
        piece,
        Piece::EndOfCall(_)
            | Piece::EndOfParts(_)
            | Piece::Next
            | Piece::List(_)
            | Piece::Line(_)
            | Piece::EndOfLine
            | Piece::EndOfLink
    )
}

impl<'c> Encoder<'c> {
    /// An encoder of terms of this code that was told nothing.
    pub fn new(alloc: Global, code: &'c [u8]) -> Encoder<'c>
        ensures code { result.code.now ≡ code.now }
        ensures state { state_of result ≡ ([], []) }
    {
        Encoder {
            code,
            out: Vec::new(alloc),
            opens: Vec::new(alloc),
        }
    }

    /// Whether the bytes of what was told are those of the code.
    pub fn is_code(&self) -> bool
        ensures { result ≡ same_bytes (state_of self.now).0 self.now.code.now }
    {
        self.out.as_slice() == self.code
    }

    /// A piece that has bytes, or ends an opcode. Of the reader's frame it takes nothing.
    #[inline(never)]
    fn take(&mut self, piece: &Piece<'_>) -> Result<(), NoMemory>
        ensures { OnOk result (Grew self.old self.new (piece_view piece.now ∷ [])) }
    {
        match *piece {
            Piece::Opcode(row, width) => {
                begin(row.opcode, width, &mut self.out, &mut self.opens)?;
            }
            Piece::Empty | Piece::Bytes(_) | Piece::Body(_, _) | Piece::EndOfList(_, _) => {
                encode_piece(self.code, *piece, &mut self.out)?;
                end(&mut self.out, &mut self.opens);
            }
            _ => encode_piece(self.code, *piece, &mut self.out)?,
        }
        Ok(())
    }
}

impl Sink for Encoder<'_> {
    ghost use Rattle.aml_code.specs.Encoded.{Grew, grew_nothing, grew_further};

    ghost grew = { Grew };

    #[inline(always)]
    fn tell(&mut self, piece: &Piece<'_>) -> Result<(), NoMemory> {
        if is_silent(piece) {
            return Ok(());
        }
        self.take(piece)
    }

    ghost nothing = { grew_nothing };

    ghost further = { grew_further };
}

/// Whether the terms that are told encode to this code, and what is made of them besides; or why nothing is told.
pub fn told_same<T: Telling>(
    alloc: Global,
    code: &[u8],
    telling: T,
) -> Result<(T::Made, bool), T::Fault>
    requires { T.can_tell telling }
    ensures told { IfOk result (λ x. (ps : List Told) × (T.tells telling x.0 ps × TellsSame code.now ps x.1)) }
    ensures fails { IfErr result (T.fails telling) }
{
    let mut encoder = Encoder::new(alloc, code);
    let made = telling.tell_all(&mut encoder)?;
    Ok((made, encoder.is_code()))
}
