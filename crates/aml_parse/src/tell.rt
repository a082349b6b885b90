//! Reading terms without making trees: each piece is told as it is read. What an opcode's parts take is inlined, so that
//! each level of terms has a frame or two.
ghost use Rattle.std.specs.Prelude.{◌≡◌, ◌++◌, None, Some, Option, length, map, IfOk, IfErr, OnOk};
ghost use Rattle.aml_names.specs.NameReading.{Fails};
ghost use Rattle.aml_names.specs.declared.names.Name.{Name as AnyName};
ghost use Rattle.aml_code.specs.Opcodes.{row_of, row_view};
ghost use Rattle.aml_code.specs.Lawful.{tail_in, terms_in, has_opcode, last_label, plain_name, unit_names};
ghost use Rattle.aml_code.specs.Tree.{tree_count, child, no_parts, part_more, no_fields, field_more};
ghost use Rattle.aml_code.specs.View.{field_view};
ghost use Rattle.aml_code.specs.Pieces.{pieces, items, part_pieces, parts_pieces, tail_pieces, line_pieces};
ghost use Rattle.aml_code.specs.Pieces.{fields_pieces, field_pieces, link_pieces, part_count, deeper};
ghost use Rattle.aml_parse.specs.Reading.{held_inside, part_at, parts_at, arguments_at, terms_at, fields_at};
ghost use Rattle.aml_parse.specs.Reading.{field_at, link_at, call_at, tail_at, plain_at, packed_at};
ghost use Rattle.aml_parse.specs.Telling.{read_by, Tells, TellsAll, AreUnits, separator, label_at};

use crate::packages::package_of;
use crate::parser::Parser;
use crate::plain::tell_flat;
use crate::positions::{
    Lead, guard_of, is_guard, lead_of, position_after, row_of, tail_in, takes_names, terms_in,
};
use crate::short::tell_short;
use crate::units::{
    access_unit_of, extended_unit_of, named_link_of, named_unit_of, reserved_unit_of,
};
use aml_code::{
    CodeFault, Field, Names, NoMemory, OpRow, PartKind, Piece, Position, Seg, Sink, TailKind,
    byte_of, offset_of,
};
use aml_names::name_of;

/// The opcode of a Buffer.
const BUFFER: u8 = 0x11;

/// The opcode of an If.
const IF: u16 = 0xA0;

/// Where a term stands.
#[derive(Clone, Copy)]
pub struct Here {
    pub position: Position,
    /// How many levels of terms inside each other are left.
    pub levels: u16,
    /// The level of the line in which it stands.
    pub level: u32,
}

impl Here {
    /// Another position in the same line.
    fn at(self, position: Position) -> Here
        ensures position { result.position ≡ position }
        ensures levels { result.levels ≡ self.levels }
        ensures level { result.level ≡ self.level }
    {
        Here { position, ..self }
    }

    /// The lines of the block inside.
    fn deeper(self) -> Here
        ensures position { result.position ≡ self.position }
        ensures levels { result.levels ≡ self.levels }
        ensures level { result.level ≡ deeper self.level }
    {
        Here {
            level: self.level.saturating_add(1),
            ..self
        }
    }
}

/// An opcode with a package that stands at an offset, with its row and the kind of its tail.
#[derive(Drop)]
struct Packed<'r> {
    at: u32,
    row: &'r OpRow,
    tail: TailKind,
}

/// Where a part of this kind stands, if it is a term.
fn child_position(kind: PartKind) -> Position
    ensures term { kind ≡ PartKind.Term → result ≡ Position.Argument }
    ensures target { kind ≡ PartKind.Target → result ≡ Position.Target }
    ensures data { kind ≡ PartKind.Data → result ≡ Position.Data }
{
    match kind {
        PartKind::Target => Position::Target,
        PartKind::Data => Position::Data,
        _ => Position::Argument,
    }
}

/// Keeps the segment of an element of a field list, if it is a named unit.
fn keep_unit(field: &Field, units: &mut Vec<Seg>) -> Result<(), NoMemory>
    ensures { OnOk result (map plain_name units.new.items
        ≡ map plain_name units.old.items ++ unit_names (field_more (field_view field.now) no_fields)) }
{
    if let Field::NamedUnit { seg, .. } = field {
        units.push(*seg)?;
    }
    Ok(())
}

/// Tells that another argument, part or element follows, before all but the first.
#[inline(always)]
fn tell_separator<S: Sink>(sink: &mut S, is_first: bool) -> Result<(), NoMemory>
    ensures { OnOk result (S.grew sink.old sink.new (separator is_first)) }
{
    if is_first {
        return Ok(());
    }
    sink.tell(&Piece::Next)
}

#[tactic(auto, unfolding(crate::specs::Reading::call_at, crate::specs::Reading::link_at, crate::specs::Reading::plain_at))]
impl<'a, N: Names> Parser<'a, N> {
    /// Tells a term: its first byte tells whether it is a name, nothing or an opcode. `TooDeep` where no level is left,
    /// and `ModuleCode` where no name may stand. Answers whether it is an If, and what is behind it.
    #[cycle(telling)]
    #[tactic(auto, unfolding(crate::specs::Reading::read_at, crate::specs::Reading::term_at, crate::specs::Reading::too_deep, crate::specs::Reading::operation_at))]
    pub fn tell_term<'b, S: Sink>(
        &self,
        here: Here,
        end: u32,
        locals: &mut N::Locals,
        sink: &mut S,
        bytes: &'b [u8],
    ) -> Result<(bool, &'b [u8]), CodeFault>
        requires { N.fits self.now.names.now locals.old }
        ensures told { IfOk result (λ x. Tells S.grew (pieces here.level) (λ t. x.0 ≡ has_opcode 0xA0 t) sink.old
            sink.new (N.paths self.now.names.now locals.new) x.1.now
            (read_by N.arity N.scope self.now here.levels here.position end
            (N.paths self.now.names.now locals.old) bytes.now)) }
        ensures fails { IfErr result (λ e. Fails e
            (read_by N.arity N.scope self.now here.levels here.position end
            (N.paths self.now.names.now locals.old) bytes.now)) }
        ensures fits { N.fits self.now.names.now locals.new }
    {
        let (lead, rest) = byte_of(end, bytes)?;
        if here.levels == 0 {
            return Err(CodeFault::TooDeep {
                at: offset_of(end, bytes),
            });
        }
        let inside = Here {
            levels: here.levels - 1,
            ..here
        };
        match lead_of(here.position, lead) {
            Lead::Name => {
                if !takes_names(here.position) {
                    return Err(CodeFault::ModuleCode {
                        at: offset_of(end, bytes),
                    });
                }
                self.tell_call(inside, end, locals, sink, bytes)
            }
            Lead::Nothing => {
                sink.tell(&Piece::Absent)?;
                Ok((false, rest))
            }
            Lead::Opcode => {
                let (row, behind) = row_of(here.position, end, bytes)?;
                match row.tail {
                    None => self.tell_plain(row, inside, end, locals, sink, behind),
                    Some(tail) => {
                        let at = offset_of(end, bytes);
                        let found = Packed { at, row, tail };
                        self.tell_packed(&found, inside, end, locals, sink, behind)
                    }
                }
            }
        }
    }

    /// A name and as many arguments as it takes in its position. It is no If.
    #[cycle(telling)]
    fn tell_call<'b, S: Sink>(
        &self,
        here: Here,
        end: u32,
        locals: &mut N::Locals,
        sink: &mut S,
        bytes: &'b [u8],
    ) -> Result<(bool, &'b [u8]), CodeFault>
        requires { N.fits self.now.names.now locals.old }
        ensures told { IfOk result (λ x. Tells S.grew (pieces here.level) (λ t. x.0 ≡ has_opcode 0xA0 t) sink.old
            sink.new (N.paths self.now.names.now locals.new) x.1.now (call_at (N.arity self.now.names.now)
            (read_by N.arity N.scope self.now here.levels) here.position end
            (N.paths self.now.names.now locals.old) bytes.now)) }
        ensures fails { IfErr result (λ e. Fails e (call_at (N.arity self.now.names.now)
            (read_by N.arity N.scope self.now here.levels) here.position end
            (N.paths self.now.names.now locals.old) bytes.now)) }
        ensures fits { N.fits self.now.names.now locals.new }
    {
        let (name, rest) = name_of(self.alloc, end, bytes)?;
        let count = self.count(here.position, offset_of(end, bytes), locals, &name)?;
        sink.tell(&Piece::Name(&name, count))?;
        let behind = self.tell_arguments(
            count,
            here.at(Position::Argument),
            end,
            locals,
            sink,
            rest,
        )?;
        sink.tell(&Piece::EndOfCall(count))?;
        Ok((false, behind))
    }

    /// So many arguments, most often none.
    #[inline(always)]
    #[cycle(telling)]
    fn tell_arguments<'b, S: Sink>(
        &self,
        count: u8,
        here: Here,
        end: u32,
        locals: &mut N::Locals,
        sink: &mut S,
        bytes: &'b [u8],
    ) -> Result<&'b [u8], CodeFault>
        requires fits { N.fits self.now.names.now locals.old }
        requires argument { here.position ≡ Position.Argument }
        ensures told { IfOk result (λ rest. Tells S.grew (items here.level) (λ ts. tree_count ts ≡ count)
            sink.old sink.new (N.paths self.now.names.now locals.new) rest.now
            (arguments_at (read_by N.arity N.scope self.now here.levels) count end
            (N.paths self.now.names.now locals.old) bytes.now)) }
        ensures fails { IfErr result (λ e. Fails e
            (arguments_at (read_by N.arity N.scope self.now here.levels) count end
            (N.paths self.now.names.now locals.old) bytes.now)) }
        ensures fits { N.fits self.now.names.now locals.new }
    {
        if count == 0 {
            return Ok(bytes);
        }
        self.tell_each(count, here, end, locals, sink, bytes)
    }

    /// So many arguments, one after the other.
    #[cycle(telling)]
    fn tell_each<'b, S: Sink>(
        &self,
        count: u8,
        here: Here,
        end: u32,
        locals: &mut N::Locals,
        sink: &mut S,
        bytes: &'b [u8],
    ) -> Result<&'b [u8], CodeFault>
        requires fits { N.fits self.now.names.now locals.old }
        requires argument { here.position ≡ Position.Argument }
        ensures told { IfOk result (λ rest. Tells S.grew (items here.level) (λ ts. tree_count ts ≡ count)
            sink.old sink.new (N.paths self.now.names.now locals.new) rest.now
            (arguments_at (read_by N.arity N.scope self.now here.levels) count end
            (N.paths self.now.names.now locals.old) bytes.now)) }
        ensures fails { IfErr result (λ e. Fails e
            (arguments_at (read_by N.arity N.scope self.now here.levels) count end
            (N.paths self.now.names.now locals.old) bytes.now)) }
        ensures fits { N.fits self.now.names.now locals.new }
    {
        let mut is_first = true;
        let mut rest = bytes;
        for _i in 0..count {
            tell_separator(sink, is_first)?;
            rest = self.tell_inner(here, end, locals, sink, rest)?;
            is_first = false;
        }
        Ok(rest)
    }

    /// An opcode without a package length.
    #[inline(always)]
    #[cycle(telling)]
    fn tell_plain<'b, S: Sink>(
        &self,
        row: &OpRow,
        here: Here,
        end: u32,
        locals: &mut N::Locals,
        sink: &mut S,
        bytes: &'b [u8],
    ) -> Result<(bool, &'b [u8]), CodeFault>
        requires fits { N.fits self.now.names.now locals.old }
        requires listed { row_of row.now.opcode ≡ Some (row_view row.now) }
        ensures told { IfOk result (λ x. Tells S.grew (pieces here.level) (λ t. x.0 ≡ has_opcode 0xA0 t) sink.old
            sink.new (N.paths self.now.names.now locals.new) x.1.now
            (plain_at (N.scope self.now.names.now) (read_by N.arity N.scope self.now here.levels)
            (row_view row.now) end (N.paths self.now.names.now locals.old) bytes.now)) }
        ensures fails { IfErr result (λ e. Fails e (plain_at (N.scope self.now.names.now)
            (read_by N.arity N.scope self.now here.levels) (row_view row.now) end
            (N.paths self.now.names.now locals.old) bytes.now)) }
        ensures fits { N.fits self.now.names.now locals.new }
    {
        sink.tell(&Piece::Opcode(row, None))?;
        let (label, rest) = self.tell_parts(row.parts, here, end, locals, sink, bytes)?;
        sink.tell(&Piece::EndOfParts(row))?;
        sink.tell(&Piece::Empty)?;
        self.declare(row.role, end, label, &[], locals)?;
        Ok((row.opcode == IF, rest))
    }

    /// An opcode with a package length. It has a frame of its own, so that the reader of terms, most of which have no
    /// package, keeps fewer values.
    #[inline(never)]
    #[cycle(telling)]
    #[tactic(auto, unfolding(crate::specs::Reading::packed_at))]
    fn tell_packed<'b, S: Sink>(
        &self,
        found: &Packed<'_>,
        here: Here,
        end: u32,
        locals: &mut N::Locals,
        sink: &mut S,
        bytes: &'b [u8],
    ) -> Result<(bool, &'b [u8]), CodeFault>
        requires fits { N.fits self.now.names.now locals.old }
        requires listed { row_of found.now.row.now.opcode ≡ Some (row_view found.now.row.now) }
        ensures told { IfOk result (λ x. Tells S.grew (pieces here.level) (λ t. x.0 ≡ has_opcode 0xA0 t) sink.old
            sink.new (N.paths self.now.names.now locals.new) x.1.now (packed_at (N.scope self.now.names.now)
            (read_by N.arity N.scope self.now here.levels) here.position found.now.at (row_view found.now.row.now)
            found.now.tail end (N.paths self.now.names.now locals.old) bytes.now)) }
        ensures fails { IfErr result (λ e. Fails e (packed_at (N.scope self.now.names.now)
            (read_by N.arity N.scope self.now here.levels) here.position found.now.at (row_view found.now.row.now)
            found.now.tail end (N.paths self.now.names.now locals.old) bytes.now)) }
        ensures fits { N.fits self.now.names.now locals.new }
    {
        let row = found.row;
        let (width, inner, inside, behind) = package_of(end, bytes)?;
        guard_of(is_guard(here.position, row.place), found.at, inner, inside)?;
        sink.tell(&Piece::Opcode(row, Some(width)))?;
        let (label, rest) = self.tell_parts(row.parts, here, inner, locals, sink, inside)?;
        sink.tell(&Piece::EndOfParts(row))?;
        let units = self.tell_tail(found, here, inner, locals, sink, rest)?;
        self.declare(row.role, inner, label, units.as_slice(), locals)?;
        Ok((row.opcode == IF, behind))
    }

    /// The parts of these kinds, in order. Answers where the last begins that is a name, too.
    #[inline(always)]
    #[cycle(telling)]
    fn tell_parts<'b, S: Sink>(
        &self,
        kinds: &[PartKind],
        here: Here,
        end: u32,
        locals: &mut N::Locals,
        sink: &mut S,
        bytes: &'b [u8],
    ) -> Result<(Option<&'b [u8]>, &'b [u8]), CodeFault>
        requires { N.fits self.now.names.now locals.old }
        ensures told { IfOk result (λ x. Tells S.grew (parts_pieces here.level)
            (λ ps. (label_at end x.0 ≡ last_label None ps) × (part_count ps ≡ length kinds.now)) sink.old sink.new
            (N.paths self.now.names.now locals.new) x.1.now
            (parts_at (read_by N.arity N.scope self.now here.levels) kinds.now end
            (N.paths self.now.names.now locals.old) bytes.now)) }
        ensures fails { IfErr result (λ e. Fails e
            (parts_at (read_by N.arity N.scope self.now here.levels) kinds.now end
            (N.paths self.now.names.now locals.old) bytes.now)) }
        ensures fits { N.fits self.now.names.now locals.new }
    {
        let mut label = None;
        let mut is_first = true;
        let mut rest = bytes;
        for kind in kinds {
            tell_separator(sink, is_first)?;
            rest = self.tell_part(*kind, here, end, locals, &mut label, sink, rest)?;
            is_first = false;
        }
        Ok((label, rest))
    }

    /// A part of this kind. Where it is a name, it is kept where it begins.
    #[inline(always)]
    #[cycle(telling)]
    fn tell_part<'b, S: Sink>(
        &self,
        kind: PartKind,
        here: Here,
        end: u32,
        locals: &mut N::Locals,
        label: &mut Option<&'b [u8]>,
        sink: &mut S,
        bytes: &'b [u8],
    ) -> Result<&'b [u8], CodeFault>
        requires { N.fits self.now.names.now locals.old }
        ensures told { IfOk result (λ rest. Tells S.grew (part_pieces here.level)
            (λ p. label_at end label.new ≡ last_label (label_at end label.old) (part_more p no_parts)) sink.old sink.new
            (N.paths self.now.names.now locals.new) rest.now
            (part_at (read_by N.arity N.scope self.now here.levels) kind end
            (N.paths self.now.names.now locals.old) bytes.now)) }
        ensures fails { IfErr result (λ e. Fails e
            (part_at (read_by N.arity N.scope self.now here.levels) kind end
            (N.paths self.now.names.now locals.old) bytes.now)) }
        ensures fits { N.fits self.now.names.now locals.new }
    {
        // A result that is handed on whole goes through memory, so each is taken apart where it is read.
        match kind {
            PartKind::Term | PartKind::Target | PartKind::Data => self.tell_child(
                here.at(child_position(kind)),
                end,
                locals,
                sink,
                bytes,
            ),
            _ => Ok(tell_flat(kind, self.alloc, end, label, sink, bytes)?),
        }
    }

    /// A term as a part.
    #[inline(always)]
    #[cycle(telling)]
    fn tell_child<'b, S: Sink>(
        &self,
        here: Here,
        end: u32,
        locals: &mut N::Locals,
        sink: &mut S,
        bytes: &'b [u8],
    ) -> Result<&'b [u8], CodeFault>
        requires { N.fits self.now.names.now locals.old }
        ensures told { IfOk result (λ rest. Tells S.grew (part_pieces here.level)
            (λ p. (label : Option AnyName) → label ≡ last_label label (part_more p no_parts)) sink.old sink.new
            (N.paths self.now.names.now locals.new) rest.now (held_inside child
            (read_by N.arity N.scope self.now here.levels here.position end
            (N.paths self.now.names.now locals.old) bytes.now))) }
        ensures fails { IfErr result (λ e. Fails e (held_inside child
            (read_by N.arity N.scope self.now here.levels here.position end
            (N.paths self.now.names.now locals.old) bytes.now))) }
        ensures fits { N.fits self.now.names.now locals.new }
    {
        let rest = self.tell_inner(here, end, locals, sink, bytes)?;
        Ok(rest)
    }

    /// A term inside another, which is often short.
    #[inline(always)]
    #[cycle(telling)]
    fn tell_inner<'b, S: Sink>(
        &self,
        here: Here,
        end: u32,
        locals: &mut N::Locals,
        sink: &mut S,
        bytes: &'b [u8],
    ) -> Result<&'b [u8], CodeFault>
        requires { N.fits self.now.names.now locals.old }
        ensures told { IfOk result (λ rest. Tells S.grew (pieces here.level) (λ t. Unit {0}) sink.old sink.new
            (N.paths self.now.names.now locals.new) rest.now
            (read_by N.arity N.scope self.now here.levels here.position end
            (N.paths self.now.names.now locals.old) bytes.now)) }
        ensures fails { IfErr result (λ e. Fails e
            (read_by N.arity N.scope self.now here.levels here.position end
            (N.paths self.now.names.now locals.old) bytes.now)) }
        ensures fits { N.fits self.now.names.now locals.new }
    {
        match tell_short(here, end, sink, bytes)? {
            Some(rest) => Ok(rest),
            None => {
                let (_is_if, rest) = self.tell_term(here, end, locals, sink, bytes)?;
                Ok(rest)
            }
        }
    }

    /// What follows the parts, to the end of the span. Answers the segments of the named units of a field list.
    #[cycle(telling)]
    fn tell_tail<S: Sink>(
        &self,
        found: &Packed<'_>,
        here: Here,
        end: u32,
        locals: &mut N::Locals,
        sink: &mut S,
        inside: &[u8],
    ) -> Result<Vec<Seg>, CodeFault>
        requires { N.fits self.now.names.now locals.old }
        ensures told { IfOk result (λ units. TellsAll S.grew (tail_pieces here.level) (AreUnits units.items) sink.old
            sink.new (N.paths self.now.names.now locals.new) (tail_at (read_by N.arity N.scope self.now here.levels)
            (terms_in here.position found.now.row.now.place) (tail_in here.position found.now.tail) end
            (N.paths self.now.names.now locals.old) inside.now)) }
        ensures fails { IfErr result (λ e. Fails e (tail_at (read_by N.arity N.scope self.now here.levels)
            (terms_in here.position found.now.row.now.place) (tail_in here.position found.now.tail) end
            (N.paths self.now.names.now locals.old) inside.now)) }
        ensures fits { N.fits self.now.names.now locals.new }
    {
        let kind = tail_in(here.position, found.tail);
        match kind {
            TailKind::Bytes => {
                sink.tell(&Piece::Bytes(inside))?;
                Ok(Vec::new(self.alloc))
            }
            TailKind::Body => {
                let start = offset_of(end, inside);
                sink.tell(&Piece::Body(start, end - start))?;
                Ok(Vec::new(self.alloc))
            }
            TailKind::Terms => {
                let inner = Here {
                    position: terms_in(here.position, found.row.place),
                    ..here.deeper()
                };
                sink.tell(&Piece::List(kind))?;
                self.tell_lines(inner, end, locals, sink, inside)?;
                sink.tell(&Piece::EndOfList(kind, here.level))?;
                Ok(Vec::new(self.alloc))
            }
            TailKind::Elements => {
                sink.tell(&Piece::List(kind))?;
                self.tell_elements(here.at(Position::Data), end, locals, sink, inside)?;
                sink.tell(&Piece::EndOfList(kind, here.level))?;
                Ok(Vec::new(self.alloc))
            }
            TailKind::Fields => {
                sink.tell(&Piece::List(kind))?;
                let units = self.tell_fields(here.deeper(), end, locals, sink, inside)?;
                sink.tell(&Piece::EndOfList(kind, here.level))?;
                Ok(units)
            }
        }
    }

    /// Terms to the end of the span, a line each. Each takes a byte at least, so as many turns as there are bytes are
    /// enough.
    #[cycle(telling)]
    pub fn tell_lines<S: Sink>(
        &self,
        here: Here,
        end: u32,
        locals: &mut N::Locals,
        sink: &mut S,
        bytes: &[u8],
    ) -> Result<(), CodeFault>
        requires { N.fits self.now.names.now locals.old }
        ensures told { OnOk result (TellsAll S.grew (line_pieces here.level) (λ ts. Unit {0}) sink.old sink.new
            (N.paths self.now.names.now locals.new)
            (terms_at (read_by N.arity N.scope self.now here.levels) (length bytes.now) here.position end
            (N.paths self.now.names.now locals.old) bytes.now)) }
        ensures fails { IfErr result (λ e. Fails e (terms_at (read_by N.arity N.scope self.now here.levels)
            (length bytes.now) here.position end (N.paths self.now.names.now locals.old) bytes.now)) }
        ensures fits { N.fits self.now.names.now locals.new }
    {
        let mut position = here.position;
        let mut rest = bytes;
        for _turn in 0..bytes.len() {
            if rest.is_empty() {
                return Ok(());
            }
            sink.tell(&Piece::Line(here.level))?;
            let (is_if, behind) = self.tell_term(here.at(position), end, locals, sink, rest)?;
            sink.tell(&Piece::EndOfLine)?;
            position = position_after(position, is_if);
            rest = behind;
        }
        if rest.is_empty() {
            Ok(())
        } else {
            Err(CodeFault::Truncated { at: end })
        }
    }

    /// Elements to the end of the span. As many turns as there are bytes are enough.
    #[cycle(telling)]
    fn tell_elements<S: Sink>(
        &self,
        here: Here,
        end: u32,
        locals: &mut N::Locals,
        sink: &mut S,
        bytes: &[u8],
    ) -> Result<(), CodeFault>
        requires fits { N.fits self.now.names.now locals.old }
        requires data { here.position ≡ Position.Data }
        ensures told { OnOk result (TellsAll S.grew (items here.level) (λ ts. Unit {0}) sink.old sink.new
            (N.paths self.now.names.now locals.new)
            (terms_at (read_by N.arity N.scope self.now here.levels) (length bytes.now) Position.Data end
            (N.paths self.now.names.now locals.old) bytes.now)) }
        ensures fails { IfErr result (λ e. Fails e (terms_at (read_by N.arity N.scope self.now here.levels)
            (length bytes.now) Position.Data end (N.paths self.now.names.now locals.old) bytes.now)) }
        ensures fits { N.fits self.now.names.now locals.new }
    {
        let mut is_first = true;
        let mut rest = bytes;
        for _turn in 0..bytes.len() {
            if rest.is_empty() {
                return Ok(());
            }
            tell_separator(sink, is_first)?;
            let (_is_if, behind) = self.tell_term(here, end, locals, sink, rest)?;
            is_first = false;
            rest = behind;
        }
        if rest.is_empty() {
            Ok(())
        } else {
            Err(CodeFault::Truncated { at: end })
        }
    }

    /// The elements of a field list, to the end of the span, a line each. As many turns as there are bytes are enough.
    /// Answers the segments of the named units. It has a frame of its own, of which levels of terms take nothing.
    #[inline(never)]
    #[cycle(telling)]
    fn tell_fields<S: Sink>(
        &self,
        here: Here,
        end: u32,
        locals: &mut N::Locals,
        sink: &mut S,
        bytes: &[u8],
    ) -> Result<Vec<Seg>, CodeFault>
        requires { N.fits self.now.names.now locals.old }
        ensures told { IfOk result (λ units. TellsAll S.grew (fields_pieces here.level)
            (λ us. map plain_name units.items ≡ unit_names us) sink.old sink.new (N.paths self.now.names.now locals.new)
            (fields_at (read_by N.arity N.scope self.now here.levels) (length bytes.now) end
            (N.paths self.now.names.now locals.old) bytes.now)) }
        ensures fails { IfErr result (λ e. Fails e
            (fields_at (read_by N.arity N.scope self.now here.levels) (length bytes.now) end
            (N.paths self.now.names.now locals.old) bytes.now)) }
        ensures fits { N.fits self.now.names.now locals.new }
    {
        let mut units = Vec::new(self.alloc);
        let mut rest = bytes;
        for _turn in 0..bytes.len() {
            if rest.is_empty() {
                return Ok(units);
            }
            sink.tell(&Piece::Line(here.level))?;
            rest = self.tell_field(here, end, locals, &mut units, sink, rest)?;
            sink.tell(&Piece::EndOfLine)?;
        }
        if rest.is_empty() {
            Ok(units)
        } else {
            Err(CodeFault::Truncated { at: end })
        }
    }

    /// An element of a field list, by its lead byte. The segment of a named unit is kept.
    #[cycle(telling)]
    #[tactic(auto, unfolding(crate::specs::Reading::field_at))]
    fn tell_field<'b, S: Sink>(
        &self,
        here: Here,
        end: u32,
        locals: &mut N::Locals,
        units: &mut Vec<Seg>,
        sink: &mut S,
        bytes: &'b [u8],
    ) -> Result<&'b [u8], CodeFault>
        requires { N.fits self.now.names.now locals.old }
        ensures told { IfOk result (λ rest. Tells S.grew (field_pieces here.level)
            (λ u. map plain_name units.new.items
            ≡ map plain_name units.old.items ++ unit_names (field_more u no_fields))
            sink.old sink.new (N.paths self.now.names.now locals.new) rest.now
            (field_at (read_by N.arity N.scope self.now here.levels) end
            (N.paths self.now.names.now locals.old) bytes.now)) }
        ensures fails { IfErr result (λ e. Fails e
            (field_at (read_by N.arity N.scope self.now here.levels) end
            (N.paths self.now.names.now locals.old) bytes.now)) }
        ensures fits { N.fits self.now.names.now locals.new }
    {
        let (lead, rest) = byte_of(end, bytes)?;
        let (field, rest) = match lead {
            0x00 => reserved_unit_of(end, rest)?,
            0x01 => access_unit_of(end, rest)?,
            0x02 => {
                let behind = self.tell_link(here, end, locals, sink, rest)?;
                return Ok(behind);
            }
            0x03 => extended_unit_of(end, rest)?,
            _ => named_unit_of(end, bytes)?,
        };
        keep_unit(&field, units)?;
        sink.tell(&Piece::Field(&field))?;
        Ok(rest)
    }

    /// What a connection leads to: a Buffer, which its lead byte tells, or a name.
    #[cycle(telling)]
    fn tell_link<'b, S: Sink>(
        &self,
        here: Here,
        end: u32,
        locals: &mut N::Locals,
        sink: &mut S,
        bytes: &'b [u8],
    ) -> Result<&'b [u8], CodeFault>
        requires { N.fits self.now.names.now locals.old }
        ensures told { IfOk result (λ rest. Tells S.grew (link_pieces here.level) (λ l. Unit {0}) sink.old sink.new
            (N.paths self.now.names.now locals.new) rest.now
            (link_at (read_by N.arity N.scope self.now here.levels) end
            (N.paths self.now.names.now locals.old) bytes.now)) }
        ensures fails { IfErr result (λ e. Fails e
            (link_at (read_by N.arity N.scope self.now here.levels) end
            (N.paths self.now.names.now locals.old) bytes.now)) }
        ensures fits { N.fits self.now.names.now locals.new }
    {
        let (lead, _) = byte_of(end, bytes)?;
        if lead != BUFFER {
            let (link, rest) = named_link_of(self.alloc, end, bytes)?;
            sink.tell(&Piece::Field(&Field::Connection(link)))?;
            return Ok(rest);
        }
        sink.tell(&Piece::Link)?;
        let (_is_if, rest) = self.tell_term(here.at(Position::Data), end, locals, sink, bytes)?;
        sink.tell(&Piece::EndOfLink)?;
        Ok(rest)
    }
}
