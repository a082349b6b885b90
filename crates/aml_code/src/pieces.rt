//! Terms as pieces, and who is told them: what a reader hands on that makes no tree.

use crate::packages::PkgWidth;
use crate::rows::{OpRow, TailKind};
use crate::tree::Field;
use aml_names::{Name, NoMemory};

/// A piece of a term, in the order of the bytes (ACPI 6.5, 20.2).
///
/// What follows a name, an opcode and the beginning of a list goes up to an end. Where a text of the term has a new line
/// or a comma is told too: lines by their level, which is how many blocks are around them.
#[derive(Clone, Copy)]
pub enum Piece<'a> {
    /// The 00 of a target that is absent.
    Absent,
    /// A name, and how many arguments follow it.
    Name(&'a Name, u8),
    /// The end of a name's arguments, of which there are so many.
    EndOfCall(u8),
    /// An opcode by its row, with the width of its package length. Its parts follow, and its tail.
    Opcode(&'a OpRow, Option<PkgWidth>),
    /// The end of the parts of an opcode of this row.
    EndOfParts(&'a OpRow),
    /// Another argument, part or element follows those before it.
    Next,
    /// A part that is a name.
    Label(&'a Name),
    /// A part of one byte.
    Byte(u8),
    /// A part of two bytes.
    Word(u16),
    /// A part of four bytes.
    Dword(u32),
    /// A part of eight bytes.
    Qword(u64),
    /// The bytes of a part that is a text, without the 00 that ends it.
    Text(&'a [u8]),
    /// No tail.
    Empty,
    /// A tail of bytes.
    Bytes(&'a [u8]),
    /// A tail that is only a span of the code: where it begins there, and its length, in bytes.
    Body(u32, u32),
    /// The tail's terms, elements or fields follow.
    List(TailKind),
    /// The end of such a tail, of a term in a line of this level.
    EndOfList(TailKind, u32),
    /// A line of this level begins: a term, or an element of a field list.
    Line(u32),
    /// The line ends.
    EndOfLine,
    /// An element of a field list, but for a connection to a Buffer.
    Field(&'a Field),
    /// A connection to the Buffer that follows.
    Link,
    /// The end of that Buffer.
    EndOfLink,
}

/// Who is told the pieces of terms.
pub trait Sink {
    ghost use Rattle.std.specs.Prelude.{List, ◌∷◌, [], ◌++◌, OnOk};
    ghost use Rattle.aml_code.specs.Pieces.{Told, piece_view};

    /// That these pieces were told between two states, in this order.
    ghost grew: { Self → Self → List Told → Type 0 };

    /// Takes one more. Where it refuses one, nothing is promised of what was told.
    fn tell(&mut self, piece: &Piece<'_>) -> Result<(), NoMemory>
        ensures { OnOk result (grew self.old self.new (piece_view piece.now ∷ [])) };

    /// Nothing was told meanwhile.
    ghost nothing: { (s : Self) → grew s s [] };

    /// One after the other.
    ghost further: { (a b c : Self) (ps qs : List Told) → grew a b ps → grew b c qs → grew a c (ps ++ qs) };
}

/// Two sinks, each of which is told all pieces.
#[derive(Drop)]
pub struct Both<'a, A, B> {
    pub first: &'a mut A,
    pub second: &'a mut B,
}

impl<A: Sink, B: Sink> Sink for Both<'_, A, B> {
    ghost use Rattle.std.proofs.Common.{◌≡◌, refl, ◌∙◌};

    ghost grew = { λ a b ps.
        ((b.first.ghost_name ≡ a.first.ghost_name) × A.grew a.first.now b.first.now ps)
        × ((b.second.ghost_name ≡ a.second.ghost_name) × B.grew a.second.now b.second.now ps) };

    #[inline(always)]
    fn tell(&mut self, piece: &Piece<'_>) -> Result<(), NoMemory> {
        self.first.tell(piece)?;
        self.second.tell(piece)
    }

    ghost nothing = { λ s. ((refl, A.nothing s.first.now), (refl, B.nothing s.second.now)) };

    ghost further = { λ a b c ps qs g h. (
      (h.0.0 ∙ g.0.0, A.further a.first.now b.first.now c.first.now ps qs g.0.1 h.0.1),
      (h.1.0 ∙ g.1.0, B.further a.second.now b.second.now c.second.now ps qs g.1.1 h.1.1),
    ) };
}

/// What tells a sink all pieces of some terms, or why there are none.
pub trait Telling {
    ghost use Rattle.std.specs.Prelude.{List, IfOk, IfErr};
    ghost use Rattle.aml_code.specs.Pieces.{Told};

    /// What is made of them besides.
    type Made: Drop;

    /// Why there are none.
    type Fault: Drop;

    /// The condition of telling: none, where an impl names none.
    ghost can_tell: { Self → Type 0 } = { λ _. Unit {0} };

    /// That it tells these pieces, and makes this of them.
    ghost tells: { Self → Self.Made → List Told → Type 0 };

    /// That it tells none for this fault.
    ghost fails: { Self → Self.Fault → Type 0 };

    /// Tells them. What was told before a fault says nothing.
    fn tell_all<S: Sink>(self, sink: &mut S) -> Result<Self::Made, Self::Fault>
        requires { can_tell self }
        ensures told { IfOk result (λ made. (ps : List Told) × (tells self made ps × S.grew sink.old sink.new ps)) }
        ensures fails { IfErr result (fails self) };
}

/// Who is told tables, one after the other, and keeps something of each.
pub trait TableSink {
    ghost use Rattle.std.specs.Prelude.{ℕ, List, IfOk, IfErr};
    ghost use Rattle.aml_code.specs.Pieces.{Told};

    type Kept: Drop;

    /// That this is kept of a table of this AML and these pieces.
    ghost keeps: { Self → List ℕ → List Told → Self.Kept → Type 0 };

    /// Has a table of this AML told. Gives what was made of it besides, and what is kept, or the fault for which
    /// nothing is told.
    fn take<T: Telling>(&self, code: &[u8], telling: T) -> Result<(T::Made, Self::Kept), T::Fault>
        requires { T.can_tell telling }
        ensures kept { IfOk result (λ x. (ps : List Told) ×
            (T.tells telling x.0 ps × keeps self.now code.now ps x.1)) }
        ensures fails { IfErr result (T.fails telling) };
}
