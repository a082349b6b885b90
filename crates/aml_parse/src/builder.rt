//! Trees, built of the pieces that are told.
#![tactic(auto, using(crate::proofs::BuiltLaws::building))]

ghost use Rattle.std.specs.Prelude.{◌≡◌, ◌∷◌, [], List, map, option_map, true, Some, OnOk, IfOk};
ghost use Rattle.aml_code.specs.Pieces.{piece_view};
ghost use Rattle.aml_code.specs.Tree.{Tree, terms, elements, label, text, bytes};
ghost use Rattle.aml_code.specs.View.{node_view, part_view, tail_view, field_view, trees_of};
ghost use Rattle.aml_parse.specs.Built.{StandsAs, state_of, with_tree, lines, call, parts, frame_view, end_call};
ghost use Rattle.aml_parse.specs.Built.{with_part, end_operation, begin_list, end_list, with_field, without_terms};
ghost use Rattle.aml_parse.specs.Built.{State, Grew, step};

use crate::room::without_room;
use aml_code::{
    Bytes, Field, Link, Name, NoMemory, Node, OpRow, Part, Piece, PkgWidth, Segs, Sink, Tail,
    TailKind,
};
use std::alloc::Global;
use std::mem;

/// What holds terms, parts or elements of a field list, and isn't ended. An opcode stands with the width of its package
/// length.
#[derive(Drop)]
pub enum Frame {
    /// All terms.
    Lines(Vec<Node>),
    /// A call with its arguments.
    Call(Name, Vec<Node>),
    /// An opcode with its parts.
    Parts(u16, Option<PkgWidth>, Vec<Part>),
    /// The same with the terms or the elements of its tail.
    Inside(u16, Option<PkgWidth>, Vec<Part>, Vec<Node>),
    /// Or with its field list.
    Units(u16, Option<PkgWidth>, Vec<Part>, Vec<Field>),
}

/// A sink that makes trees of what it is told.
#[derive(Drop)]
pub struct Builder {
    alloc: Global,
    innermost: Frame,
    /// What is around it, the outermost first.
    around: Vec<Frame>,
}

impl Builder {
    /// A builder that was told nothing.
    pub fn new(alloc: Global) -> Builder
        ensures { state_of result ≡ (lines [], []) }
    {
        Builder {
            alloc,
            innermost: Frame::Lines(Vec::new(alloc)),
            around: Vec::new(alloc),
        }
    }

    /// All terms, where none is open.
    pub fn into_nodes(self) -> Vec<Node>
        ensures { (ts : List Tree) → (state_of self).0 ≡ lines ts → map node_view result.items ≡ ts }
    {
        let Builder {
            alloc,
            innermost,
            ..
        } = self;
        match innermost {
            Frame::Lines(nodes) => without_room(nodes),
            _ => Vec::new(alloc),
        }
    }

    /// The term, where it is the one that was told.
    pub fn into_node(self) -> Node
        requires { (t : Tree) × ((state_of self).0 ≡ lines (t ∷ [])) }
        ensures { (t : Tree) → (state_of self).0 ≡ lines (t ∷ []) → node_view result ≡ t }
    {
        let mut nodes = self.into_nodes();
        nodes.swap_remove(0)
    }

    /// Adds a term that is ended.
    #[inline(always)]
    fn add(&mut self, node: Node) -> Result<(), NoMemory>
        ensures { OnOk result (state_of self.new
            ≡ (with_tree (state_of self.old).0 (node_view node), (state_of self.old).1)) }
    {
        match &mut self.innermost {
            Frame::Lines(nodes) => nodes.push(node)?,
            Frame::Call(_, nodes) => nodes.push(node)?,
            Frame::Inside(_, _, _, nodes) => nodes.push(node)?,
            Frame::Parts(_, _, parts) => parts.push(Part::Child(node))?,
            Frame::Units(_, _, _, fields) => fields.push(Field::Connection(Link::Buffer(node)))?,
        }
        Ok(())
    }

    fn begin(&mut self, frame: Frame) -> Result<(), NoMemory>
        ensures { OnOk result (state_of self.new
            ≡ (frame_view frame, (state_of self.old).0 ∷ (state_of self.old).1)) }
    {
        let around = mem::replace(&mut self.innermost, frame);
        self.around.push(around)?;
        Ok(())
    }

    fn begin_call(&mut self, name: &Name, count: u8) -> Result<(), NoMemory>
        ensures { OnOk result (state_of self.new
            ≡ (call name.now [], (state_of self.old).0 ∷ (state_of self.old).1)) }
    {
        let name = copy_of(self.alloc, name)?;
        let args = Vec::with_capacity(self.alloc, count as usize)?;
        self.begin(Frame::Call(name, args))
    }

    fn begin_operation(&mut self, row: &OpRow, width: Option<PkgWidth>) -> Result<(), NoMemory>
        ensures { OnOk result (state_of self.new
            ≡ (parts row.now.opcode width [], (state_of self.old).0 ∷ (state_of self.old).1)) }
    {
        let parts = Vec::with_capacity(self.alloc, row.parts.len())?;
        self.begin(Frame::Parts(row.opcode, width, parts))
    }

    fn end_call(&mut self) -> Result<(), NoMemory>
        ensures { OnOk result (StandsAs self.new (end_call (state_of self.old).0 (state_of self.old).1)) }
    {
        let Some(around) = self.around.pop() else {
            return Ok(());
        };
        match mem::replace(&mut self.innermost, around) {
            Frame::Call(name, args) => self.add(Node::Named { name, args }),
            _ => Ok(()),
        }
    }

    fn add_part(&mut self, part: Part) -> Result<(), NoMemory>
        ensures { OnOk result (StandsAs self.new
            (with_part (part_view part) (state_of self.old).0 (state_of self.old).1)) }
    {
        if let Frame::Parts(_, _, parts) = &mut self.innermost {
            parts.push(part)?;
        }
        Ok(())
    }

    fn add_label(&mut self, name: &Name) -> Result<(), NoMemory>
        ensures { OnOk result (StandsAs self.new
            (with_part (label name.now) (state_of self.old).0 (state_of self.old).1)) }
    {
        let name = copy_of(self.alloc, name)?;
        self.add_part(Part::Label(name))
    }

    fn add_text(&mut self, bytes: &[u8]) -> Result<(), NoMemory>
        ensures { OnOk result (StandsAs self.new
            (with_part (text bytes.now) (state_of self.old).0 (state_of self.old).1)) }
    {
        let text = bytes_of(self.alloc, bytes)?;
        self.add_part(Part::Text(text))
    }

    fn end_operation(&mut self, tail: Tail) -> Result<(), NoMemory>
        ensures { OnOk result (StandsAs self.new
            (end_operation (tail_view tail) (state_of self.old).0 (state_of self.old).1)) }
    {
        let Some(around) = self.around.pop() else {
            return Ok(());
        };
        match mem::replace(&mut self.innermost, around) {
            Frame::Parts(opcode, width, parts) => self.add(Node::Op {
                opcode,
                width,
                parts,
                tail,
            }),
            _ => Ok(()),
        }
    }

    fn end_with_bytes(&mut self, content: &[u8]) -> Result<(), NoMemory>
        ensures { OnOk result (StandsAs self.new
            (end_operation (bytes content.now) (state_of self.old).0 (state_of self.old).1)) }
    {
        let content = bytes_of(self.alloc, content)?;
        self.end_operation(Tail::Bytes(content))
    }

    fn begin_list(&mut self, kind: TailKind)
        ensures { StandsAs self.new (begin_list kind (state_of self.old).0 (state_of self.old).1) }
    {
        let none = Frame::Lines(Vec::new(self.alloc));
        if let Frame::Parts(opcode, width, parts) = mem::replace(&mut self.innermost, none) {
            self.innermost = match kind {
                TailKind::Fields => Frame::Units(opcode, width, parts, Vec::new(self.alloc)),
                _ => Frame::Inside(opcode, width, parts, Vec::new(self.alloc)),
            };
        }
    }

    fn end_list(&mut self, kind: TailKind) -> Result<(), NoMemory>
        ensures { OnOk result (StandsAs self.new (end_list kind (state_of self.old).0 (state_of self.old).1)) }
    {
        let Some(around) = self.around.pop() else {
            return Ok(());
        };
        let (opcode, width, parts, tail) = match mem::replace(&mut self.innermost, around) {
            Frame::Inside(opcode, width, parts, nodes) => {
                (opcode, width, parts, list_of(kind, nodes))
            }
            Frame::Units(opcode, width, parts, fields) => {
                (opcode, width, parts, Tail::Fields(without_room(fields)))
            }
            _ => return Ok(()),
        };
        self.add(Node::Op {
            opcode,
            width,
            parts,
            tail,
        })
    }

    fn add_field(&mut self, field: &Field) -> Result<(), NoMemory>
        ensures { OnOk result (StandsAs self.new
            (with_field (without_terms (field_view field.now)) (state_of self.old).0 (state_of self.old).1)) }
    {
        let Some(field) = flat_of(self.alloc, field)? else {
            return Ok(());
        };
        if let Frame::Units(_, _, _, fields) = &mut self.innermost {
            fields.push(field)?;
        }
        Ok(())
    }
}

/// An element of a field list that holds no term.
fn flat_of(alloc: Global, field: &Field) -> Result<Option<Field>, NoMemory>
    ensures { IfOk result (λ flat. option_map field_view flat ≡ without_terms (field_view field.now)) }
{
    let flat = match field {
        Field::NamedUnit { seg, width, bits } => Field::NamedUnit {
            seg: *seg,
            width: *width,
            bits: *bits,
        },
        Field::Reserved { width, bits } => Field::Reserved {
            width: *width,
            bits: *bits,
        },
        Field::Access(kind, attribute) => Field::Access(*kind, *attribute),
        Field::Extended(kind, attribute, len) => Field::Extended(*kind, *attribute, *len),
        Field::Connection(Link::Target(name)) => {
            let name = copy_of(alloc, name)?;
            Field::Connection(Link::Target(name))
        }
        Field::Connection(Link::Buffer(_)) => return Ok(None),
    };
    Ok(Some(flat))
}

/// A name of its own that is the same.
fn copy_of(alloc: Global, name: &Name) -> Result<Name, NoMemory>
    ensures { IfOk result (λ copy. copy ≡ name.now) }
{
    Ok(Name {
        root: name.root,
        form: name.form,
        ups: name.ups,
        segs: Segs::of(alloc, name.segs.as_slice())?,
    })
}

/// A list of terms or elements as a tail.
fn list_of(kind: TailKind, nodes: Vec<Node>) -> Tail
    ensures terms { kind ≡ TailKind.Terms → tail_view result ≡ terms (trees_of (map node_view nodes.items)) }
    ensures elements { kind ≡ TailKind.Elements →
        tail_view result ≡ elements (trees_of (map node_view nodes.items)) }
{
    match kind {
        TailKind::Elements => Tail::Elements(without_room(nodes)),
        _ => Tail::Terms(without_room(nodes)),
    }
}

/// These bytes, in a list of their own.
fn bytes_of(alloc: Global, bytes: &[u8]) -> Result<Bytes, NoMemory>
    ensures { IfOk result (λ all. all ≡ bytes.now) }
{
    let bytes = Vec::from_slice(alloc, bytes)?;
    Ok(Bytes::from_vec(bytes))
}

impl Builder {
    /// A piece that builds something. Of the reader's frame it takes nothing.
    #[inline(never)]
    fn take(&mut self, piece: &Piece<'_>) -> Result<(), NoMemory>
        ensures { OnOk result (Grew self.old self.new (piece_view piece.now ∷ [])) }
    {
        match *piece {
            Piece::Absent => self.add(Node::Nothing),
            Piece::Name(name, count) => self.begin_call(name, count),
            Piece::EndOfCall(_) => self.end_call(),
            Piece::Opcode(row, width) => self.begin_operation(row, width),
            Piece::Label(name) => self.add_label(name),
            Piece::Byte(value) => self.add_part(Part::Byte(value)),
            Piece::Word(value) => self.add_part(Part::Word(value)),
            Piece::Dword(value) => self.add_part(Part::Dword(value)),
            Piece::Qword(value) => self.add_part(Part::Qword(value)),
            Piece::Text(bytes) => self.add_text(bytes),
            Piece::Empty => self.end_operation(Tail::Empty),
            Piece::Bytes(bytes) => self.end_with_bytes(bytes),
            Piece::Body(start, len) => self.end_operation(Tail::Body { start, len }),
            Piece::List(kind) => {
                self.begin_list(kind);
                Ok(())
            }
            Piece::EndOfList(kind, _) => self.end_list(kind),
            Piece::Field(field) => self.add_field(field),
            _ => Ok(()),
        }
    }
}

/// Whether a piece builds nothing.
#[inline(always)]
fn is_silent(piece: &Piece<'_>) -> bool
    ensures { result ≡ true → (f : State) → step (piece_view piece.now) f.0 f.1 ≡ Some f }
{
    matches!(
        piece,
        Piece::EndOfParts(_)
            | Piece::Next
            | Piece::Line(_)
            | Piece::EndOfLine
            | Piece::Link
            | Piece::EndOfLink
    )
}

impl Sink for Builder {
    ghost use Rattle.aml_parse.specs.Built.{Grew, grew_nothing, grew_further};

    ghost grew = { Grew };

    #[inline(always)]
    fn tell(&mut self, piece: &Piece<'_>) -> Result<(), NoMemory> {
        if is_silent(piece) {
            return Ok(());
        }
        self.take(piece)
    }

    ghost nothing = { grew_nothing };

    ghost further = { grew_further };
}
