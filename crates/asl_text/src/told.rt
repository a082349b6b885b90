//! The lines of terms that are told piece by piece.
#![tactic(auto, using(crate::proofs::NodeLaws::printing, crate::proofs::ToldLaws::printing))]

ghost use Rattle.std.specs.Prelude.{◌≡◌, ◌++◌, ℕ, List, Some, flat_map, length, IfOk, IfErr};
ghost use Rattle.aml_names.specs.declared.segments.Seg.{Seg as AnySeg};
ghost use Rattle.aml_code.specs.Faults.{Arities};
ghost use Rattle.aml_code.specs.Lawful.{ReadsBody};
ghost use Rattle.aml_code.specs.Opcodes.{row_view};
ghost use Rattle.aml_code.specs.Pieces.{Told, line_pieces, piece_view};
ghost use Rattle.aml_code.specs.Tree.{Trees};
ghost use Rattle.text_writer.specs.Prints.{Prints};
ghost use Rattle.asl_text.specs.Pieces.{piece_text, opened, closed, row_opening, row_closing, list_opening};
ghost use Rattle.asl_text.specs.Pieces.{list_closing};
ghost use Rattle.asl_text.specs.Texts.{name_text, all_lines};

use crate::inline::Inline;
use crate::lines::print_indent;
use crate::texts::{
    is_constant, print_braced_bytes, print_byte, print_dword, print_qword, print_word,
};
use crate::words::print_name;
use aml_code::{Name, NoMemory, OpRow, Piece, Sink, TailKind, Telling};
use std::io::Write;
use text_writer::{Out, print_quoted};

/// The pieces of a body's terms, each as its text, are the lines of the terms.
pub fn pieces_are_lines()
    ensures { (arity : Arities) (method : List AnySeg) (code : List ℕ) (level : ℕ) (ts : Trees) →
        ReadsBody arity method code ts → flat_map piece_text (line_pieces level ts) ≡ all_lines level ts }
{}

/// What stands before so many arguments.
#[inline(always)]
fn print_opened<W: Write>(out: &mut Out<'_, W>, count: usize)
    ensures { Prints W.contents out.old out.new (opened count) }
{
    if count != 0 {
        out.put_two(b' ', b'(');
    }
}

/// What stands behind so many arguments.
#[inline(always)]
fn print_closed<W: Write>(out: &mut Out<'_, W>, count: usize)
    ensures { Prints W.contents out.old out.new (closed count) }
{
    if count != 0 {
        out.put(b")");
    }
}

/// A name that so many arguments follow.
fn print_called<W: Write>(out: &mut Out<'_, W>, name: &Name, count: u8)
    ensures { Prints W.contents out.old out.new (name_text name.now ++ opened count) }
{
    print_name(out, name);
    print_opened(out, count as usize);
}

/// What stands before the parts of an opcode of this row.
#[inline(always)]
fn print_row_opening<W: Write>(out: &mut Out<'_, W>, row: &OpRow)
    ensures { Prints W.contents out.old out.new (row_opening (Some (row_view row.now)) (length row.now.parts.now)) }
{
    if !is_constant(row) {
        out.put(row.mnemonic.as_bytes());
        print_opened(out, row.parts.len());
    }
}

/// What stands behind them.
#[inline(always)]
fn print_row_closing<W: Write>(out: &mut Out<'_, W>, row: &OpRow)
    ensures { Prints W.contents out.old out.new (row_closing (Some (row_view row.now)) (length row.now.parts.now)) }
{
    if !is_constant(row) {
        print_closed(out, row.parts.len());
    }
}

/// What stands before a tail of this kind.
fn print_list_opening<W: Write>(out: &mut Out<'_, W>, kind: TailKind)
    ensures { Prints W.contents out.old out.new (list_opening kind) }
{
    match kind {
        TailKind::Elements => out.put(b" {"),
        _ => out.put(b" {\n"),
    }
}

/// What stands behind it, of a term on a line of this level.
fn print_list_closing<W: Write>(out: &mut Out<'_, W>, kind: TailKind, level: u32)
    ensures { Prints W.contents out.old out.new (list_closing kind level) }
{
    match kind {
        TailKind::Elements => out.put(b"}"),
        _ => {
            print_indent(out, level);
            out.put(b"}");
        }
    }
}

/// What stands behind so many arguments of a call.
fn print_call_end<W: Write>(out: &mut Out<'_, W>, count: u8)
    ensures { Prints W.contents out.old out.new (closed count) }
{
    print_closed(out, count as usize);
}

/// A fixed text.
fn print_fixed<W: Write>(out: &mut Out<'_, W>, text: &[u8])
    ensures { Prints W.contents out.old out.new text.now }
{
    out.put(text);
}

/// A piece. Only what the reader prints in its own frame is inlined: a function that would grow very large is inlined
/// no more itself.
#[inline(always)]
pub(crate) fn print_piece<W: Write>(out: &mut Out<'_, W>, piece: Piece<'_>)
    ensures { Prints W.contents out.old out.new (piece_text (piece_view piece.entry)) }
{
    match piece {
        Piece::Absent | Piece::Empty | Piece::Body(..) => {}
        Piece::Name(name, count) => print_called(out, name, count),
        Piece::EndOfCall(count) => print_call_end(out, count),
        Piece::Opcode(row, _) => print_row_opening(out, row),
        Piece::EndOfParts(row) => print_row_closing(out, row),
        Piece::Next => out.put_two(b',', b' '),
        Piece::Label(name) => print_name(out, name),
        Piece::Byte(n) => print_byte(out, n),
        Piece::Word(n) => print_word(out, n),
        Piece::Dword(n) => print_dword(out, n),
        Piece::Qword(n) => print_qword(out, n),
        Piece::Text(text) => print_quoted(out, text),
        Piece::Bytes(bytes) => print_braced_bytes(out, bytes),
        Piece::List(kind) => print_list_opening(out, kind),
        Piece::EndOfList(kind, level) => print_list_closing(out, kind, level),
        Piece::Line(level) => print_indent(out, level),
        Piece::EndOfLine => out.put(b"\n"),
        Piece::Field(field) => field.print(out),
        Piece::Link => print_fixed(out, b"Connection ("),
        Piece::EndOfLink => print_fixed(out, b")"),
    }
}

/// An output that prints what it is told. It keeps the writer's fault itself.
#[derive(Drop)]
struct Lines<'o, 'w, W> {
    out: &'o mut Out<'w, W>,
}

impl<W: Write> Sink for Lines<'_, '_, W> {
    ghost use Rattle.std.proofs.Common.{refl, ◌∙◌};
    ghost use Rattle.text_writer.proofs.PrintLaws.{prints_none};
    ghost use Rattle.asl_text.specs.TextLaws.{told_further};

    ghost grew = { λ a b ps. (b.out.ghost_name ≡ a.out.ghost_name) ×
        Prints W.contents a.out.now b.out.now (flat_map piece_text ps) };

    #[inline(always)]
    fn tell(&mut self, piece: &Piece<'_>) -> Result<(), NoMemory> {
        print_piece(self.out, *piece);
        Ok(())
    }

    ghost nothing = { λ s. (refl, prints_none W.contents s.out.now) };

    ghost further = { λ a b c ps qs h g.
        (g.0 ∙ h.0, told_further W.contents a.out.now b.out.now c.out.now ps qs h.1 g.1) };
}

/// Prints what is told. Answers what is made of it besides.
pub(crate) fn print_told<W: Write, T: Telling>(
    out: &mut Out<'_, W>,
    telling: T,
) -> Result<T::Made, T::Fault>
    requires { T.can_tell telling }
    ensures told { IfOk result (λ made. (ps : List Told) × (T.tells telling made ps ×
        Prints W.contents out.old out.new (flat_map piece_text ps))) }
    ensures fails { IfErr result (T.fails telling) }
{
    let mut lines = Lines { out };
    telling.tell_all(&mut lines)
}
