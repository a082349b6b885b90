//! The text of a table's terms, told piece by piece, and the places in it where the bodies of methods go.
#![tactic(auto, using(text_writer::proofs::PrintLaws::straight))]

ghost use Rattle.std.specs.Prelude.{◌≡◌, [], ◌∷◌, List, Some, OnOk, IfOk, IfErr, IfSome};
ghost use Rattle.aml_code.specs.Opcodes.{row_view};
ghost use Rattle.aml_code.specs.Pieces.{Told, line, tail, piece_view};
ghost use Rattle.aml_code.specs.declared.pieces.Piece.TheVariants as Piece;
ghost use Rattle.aml_code.specs.Tree.{body};
ghost use Rattle.text_writer.specs.Prints.{Prints};
ghost use Rattle.asl_text.specs.Tables.{grown, grown_text, made, method_piece, made_text, is_method};
ghost use Rattle.asl_text.specs.Tables.{Grew, IsMade, IsSame, Made, MakesOf};

use crate::blocks::print_flags;
use crate::bounded::Bounded;
use crate::lines::print_indent;
use crate::told::print_piece;
use aml_code::{NoMemory, OpRow, Piece, PkgWidth, Sink, TableSink, TailKind, Telling};
use std::alloc::{AllocError, Global};
use std::io::Write;
use text_writer::Out;

/// How many bytes of a text wait to be written.
const ROOM: usize = 4096;

/// Where the lines of a method's body go in the text of a table.
#[derive(Clone, Copy)]
pub struct Place {
    /// The offset in the text, in bytes.
    pub at: usize,
    /// The level of these lines.
    pub level: u32,
    /// Where the body begins in the table's AML, in bytes.
    pub start: u32,
    /// The body's length in bytes.
    pub len: u32,
}

/// The text of a table's terms without the bodies of its methods.
#[derive(Drop)]
pub struct TableText {
    /// The lines of the terms.
    pub text: Vec<u8>,
    /// The places of the bodies, in the order of the text.
    pub places: Vec<Place>,
}

/// A piece of a method's parts. Its flags are printed as such, with a comma before them.
fn print_method_piece<W: Write>(out: &mut Out<'_, W>, piece: &Piece<'_>)
    ensures { Prints W.contents out.old out.new (method_piece (piece_view piece.now)) }
{
    match *piece {
        Piece::Next => {}
        Piece::Byte(flags) => print_flags(out, flags),
        _ => print_piece(out, *piece),
    }
}

/// A piece of a table's terms.
#[inline(always)]
fn print_table_piece<W: Write>(out: &mut Out<'_, W>, in_method: bool, piece: &Piece<'_>)
    ensures { Prints W.contents out.old out.new (made_text in_method (piece_view piece.now)) }
{
    if in_method {
        print_method_piece(out, piece);
    } else {
        print_piece(out, *piece);
    }
}

/// Whether a row is a method's.
fn is_method(row: &OpRow) -> bool
    ensures { result ≡ is_method (Some (row_view row.now)) }
{
    matches!(row.tail, Some(TailKind::Body))
}

/// A table's text so far. It keeps the writer's fault itself.
#[derive(Drop)]
struct TableLines<'o, 'w> {
    out: &'o mut Out<'w, Bounded>,
    places: &'o mut Vec<Place>,
    /// The level of the line told last.
    level: u32,
    /// Whether the parts of a method are being told.
    in_method: bool,
}

impl TableLines<'_, '_> {
    /// A method's body, which ends the method's parts: its place, between braces.
    fn tell_body(&mut self, start: u32, len: u32) -> Result<(), NoMemory>
        ensures same { IsSame self.old self.new }
        ensures told { OnOk result (Grew self.old self.new (tail (body start len) ∷ [])) }
    {
        self.in_method = false;
        print_piece(self.out, Piece::List(TailKind::Terms));
        let Some(at) = self.out.writer().len().checked_add(self.out.waits()) else {
            return Err(AllocError);
        };
        self.places.push(Place {
            at,
            level: self.level.saturating_add(1),
            start,
            len,
        })?;
        print_piece(self.out, Piece::EndOfList(TailKind::Terms, self.level));
        Ok(())
    }
}

impl TableLines<'_, '_> {
    /// The beginning of a line.
    #[inline(always)]
    fn tell_line(&mut self, level: u32)
        ensures same { IsSame self.old self.new }
        ensures told { Grew self.old self.new (line level ∷ []) }
    {
        self.level = level;
        print_indent(self.out, level);
    }

    /// An opcode of this row. The parts that follow are a method's, or aren't.
    #[inline(always)]
    fn tell_opcode(&mut self, row: &OpRow, width: Option<PkgWidth>)
        ensures same { IsSame self.old self.new }
        ensures told { Grew self.old self.new (piece_view (Piece.Opcode row.entry width) ∷ []) }
    {
        self.in_method = is_method(row);
        print_piece(self.out, Piece::Opcode(row, width));
    }

    /// Another piece.
    #[inline(always)]
    fn tell_other(&mut self, piece: &Piece<'_>)
        requires other { (m : Made) → grown m (piece_view piece.now) ≡ grown_text m (piece_view piece.now) }
        ensures same { IsSame self.old self.new }
        ensures told { Grew self.old self.new (piece_view piece.now ∷ []) }
    {
        print_table_piece(self.out, self.in_method, piece);
    }
}

impl Sink for TableLines<'_, '_> {
    ghost use Rattle.std.proofs.Common.{refl, ◌∙◌};
    ghost use Rattle.asl_text.specs.Tables.{Grew, IsSame};
    ghost use Rattle.asl_text.specs.TextLaws.{grew_none, grew_further};

    ghost grew = { λ a b ps. IsSame a b × Grew a b ps };

    #[inline(always)]
    fn tell(&mut self, piece: &Piece<'_>) -> Result<(), NoMemory> {
        match *piece {
            Piece::Body(start, len) => self.tell_body(start, len)?,
            Piece::Line(level) => self.tell_line(level),
            Piece::Opcode(row, width) => self.tell_opcode(row, width),
            _ => self.tell_other(piece),
        }
        Ok(())
    }

    ghost nothing = { λ s. ((refl, refl), grew_none s) };

    ghost further = { λ a b c ps qs h g. ((g.0.0 ∙ h.0.0, g.0.1 ∙ h.0.1), grew_further a b c ps qs h.1 g.1) };
}

/// Prints what is told, and keeps the places of bodies in it.
fn print_pieces<T: Telling>(
    out: &mut Out<'_, Bounded>,
    places: &mut Vec<Place>,
    telling: T,
) -> Result<T::Made, T::Fault>
    requires { T.can_tell telling }
    ensures told { IfOk result (λ made. (ps : List Told) × (T.tells telling made ps ×
        MakesOf out.old out.new places.old.items places.new.items ps)) }
    ensures fails { IfErr result (T.fails telling) }
{
    let mut lines = TableLines {
        out,
        places,
        level: 0,
        in_method: false,
    };
    telling.tell_all(&mut lines)
}

/// The text of the table of which all pieces are told, in as much memory as it needs, and what is made of them besides;
/// no text where there are more than `most` bytes of it, or no memory for these; or why nothing is told.
fn told_table<T: Telling>(
    alloc: Global,
    most: usize,
    telling: T,
) -> Result<(T::Made, Option<TableText>), T::Fault>
    requires { T.can_tell telling }
    ensures told { IfOk result (λ x. (ps : List Told) × (T.tells telling x.0 ps × IfSome x.1 (IsMade ps))) }
    ensures fails { IfErr result (T.fails telling) }
{
    let mut text = Bounded::new(alloc, most);
    let mut buffer = [0; ROOM];
    let mut out = Out::new(&mut text, &mut buffer);
    let mut places = Vec::new(alloc);
    let made = print_pieces(&mut out, &mut places, telling)?;
    if out.finish().is_err() {
        return Ok((made, None));
    }
    places.shrink_to_fit();
    let text = text.into_text();
    Ok((made, Some(TableText { text, places })))
}

/// Who keeps the text of each table that is told: none where that would take more memory than the terms, or where there
/// is no memory.
#[derive(Clone, Copy)]
pub struct TableTexts {
    pub alloc: Global,
}

/// How many bytes of text are kept of a table: more than 32 for each byte of its AML would take as much memory as the
/// terms.
fn most_of(code: &[u8]) -> usize {
    code.len().saturating_mul(32)
}

impl TableSink for TableTexts {
    ghost use Rattle.std.specs.Prelude.{IfSome};
    ghost use Rattle.asl_text.specs.Tables.{IsMade};

    type Kept = Option<TableText>;

    ghost keeps = { λ _ _ ps kept. IfSome kept (IsMade ps) };

    fn take<T: Telling>(
        &self,
        code: &[u8],
        telling: T,
    ) -> Result<(T::Made, Option<TableText>), T::Fault> {
        told_table(self.alloc, most_of(code), telling)
    }
}
