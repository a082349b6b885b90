//! The lines of terms and of field lists.
#![tactic(auto, using(crate::proofs::LineLaws::printing))]

ghost use Rattle.std.specs.Prelude.{◌++◌, [], None, decimal};
ghost use Rattle.aml_code.specs.Pieces.{deeper};
ghost use Rattle.aml_code.specs.View.{node_view, nodes_view, parts_view, tail_view, field_view, fields_view, link_view};
ghost use Rattle.text_writer.specs.Prints.{Prints, word};
ghost use Rattle.asl_text.specs.Texts.{head_of, tail_text, link_text, byte_pair, byte_end, field_text, field_lines};
ghost use Rattle.asl_text.specs.Texts.{indent, line, opening, lines, op_lines, all_lines};

use crate::inline::Inline;
use crate::texts::{Head, print_byte, print_tail};
use crate::words::print_name;
use aml_code::{Field, Link, Node, Seg, Tail};
use std::io::Write;
use text_writer::{Out, print_decimal};

/// The spaces of eight levels.
const SPACES: [u8; 16] = [b' '; 16];

/// Two spaces for each level.
#[inline]
pub fn print_indent<W: Write>(out: &mut Out<'_, W>, level: u32)
    ensures { Prints W.contents out.old out.new (indent level) }
{
    if level <= 8 {
        out.put_front(&SPACES, level as usize * 2);
    } else {
        print_deep_indent(out, level);
    }
}

/// The same of any level.
#[inline(never)]
fn print_deep_indent<W: Write>(out: &mut Out<'_, W>, level: u32)
    ensures { Prints W.contents out.old out.new (indent level) }
{
    for _i in 0..level / 4 {
        out.put(b"        ");
    }
    for _j in 0..level % 4 {
        out.put(b"  ");
    }
}

/// The last line of a block.
pub fn print_closing<W: Write>(out: &mut Out<'_, W>, level: u32)
    ensures { Prints W.contents out.old out.new (line level (word "}")) }
{
    print_indent(out, level);
    out.put(b"}");
    out.put(b"\n");
}

/// A line.
pub fn print_line<W: Write, T: Inline>(out: &mut Out<'_, W>, level: u32, item: &T)
    ensures { Prints W.contents out.old out.new (line level (T.text item.now)) }
{
    print_indent(out, level);
    item.print(out);
    out.put(b"\n");
}

/// The first line of a block.
pub fn print_opening<W: Write, T: Inline>(out: &mut Out<'_, W>, level: u32, head: &T)
    ensures { Prints W.contents out.old out.new (opening level (T.text head.now)) }
{
    print_indent(out, level);
    head.print(out);
    out.put(b" {\n");
}

/// An opcode with its parts and its tail, where these stand on one line.
#[derive(Drop)]
pub struct Op<'n> {
    pub head: Head<'n>,
    pub tail: &'n Tail,
}

impl Inline for Op<'_> {
    ghost text = { λ op. head_of op.head.opcode (parts_view op.head.parts.now.items) ++
        tail_text (tail_view op.tail.now) };

    fn print<W: Write>(&self, out: &mut Out<'_, W>) {
        self.head.print(out);
        print_tail(out, self.tail);
    }
}

/// What a connection leads to.
fn print_link<W: Write>(out: &mut Out<'_, W>, link: &Link)
    ensures { Prints W.contents out.old out.new (link_text (link_view link.now)) }
{
    match link {
        Link::Target(name) => print_name(out, name),
        Link::Buffer(node) => node.print(out),
    }
}

/// A named unit and its number of bits.
fn print_unit<W: Write>(out: &mut Out<'_, W>, seg: &Seg, bits: u32)
    ensures { Prints W.contents out.old out.new (seg.now.0 ++ word ", " ++ decimal bits) }
{
    out.put(&seg.0);
    out.put(b", ");
    print_decimal(out, bits as u64);
}

/// A number of reserved bits.
fn print_reserved<W: Write>(out: &mut Out<'_, W>, bits: u32)
    ensures { Prints W.contents out.old out.new (word "Reserved, " ++ decimal bits) }
{
    out.put(b"Reserved, ");
    print_decimal(out, bits as u64);
}

/// Two bytes as constants.
fn print_byte_pair<W: Write>(out: &mut Out<'_, W>, first: u8, second: u8)
    ensures { Prints W.contents out.old out.new (byte_pair first second) }
{
    print_byte(out, first);
    out.put(b", ");
    print_byte(out, second);
}

/// An access type and an access attribute.
fn print_access<W: Write>(out: &mut Out<'_, W>, access: u8, attribute: u8)
    ensures { Prints W.contents out.old out.new (word "Access (" ++ byte_pair access attribute ++ word ")") }
{
    out.put(b"Access (");
    print_byte_pair(out, access, attribute);
    out.put(b")");
}

/// An access type, an access attribute and an access length.
fn print_extended<W: Write>(out: &mut Out<'_, W>, access: u8, attribute: u8, length: u8)
    ensures { Prints W.contents out.old out.new
        (word "ExtendedAccess (" ++ byte_pair access attribute ++ byte_end length) }
{
    out.put(b"ExtendedAccess (");
    print_byte_pair(out, access, attribute);
    print_byte_end(out, length);
}

fn print_byte_end<W: Write>(out: &mut Out<'_, W>, last: u8)
    ensures { Prints W.contents out.old out.new (byte_end last) }
{
    out.put(b", ");
    print_byte(out, last);
    out.put(b")");
}

/// A connection.
fn print_connection<W: Write>(out: &mut Out<'_, W>, link: &Link)
    ensures { Prints W.contents out.old out.new (word "Connection (" ++ link_text (link_view link.now) ++ word ")") }
{
    out.put(b"Connection (");
    print_link(out, link);
    out.put(b")");
}

/// An element of a field list.
impl Inline for Field {
    ghost text = { λ field. field_text (field_view field) };

    fn print<W: Write>(&self, out: &mut Out<'_, W>) {
        match self {
            Field::NamedUnit { seg, bits, .. } => print_unit(out, seg, *bits),
            Field::Reserved { bits, .. } => print_reserved(out, *bits),
            Field::Access(access, attribute) => print_access(out, *access, *attribute),
            Field::Connection(link) => print_connection(out, link),
            Field::Extended(access, attribute, length) => print_extended(
                out, *access, *attribute, *length,
            ),
        }
    }
}

/// The elements of a field list, a line each.
fn print_fields<W: Write>(out: &mut Out<'_, W>, level: u32, fields: &[Field])
    ensures { Prints W.contents out.old out.new (field_lines level (fields_view fields.now)) }
{
    for field in fields {
        print_line(out, level, field);
    }
}

/// An opcode with a field list as a block.
pub fn print_fields_block<W: Write>(
    out: &mut Out<'_, W>,
    level: u32,
    head: Head<'_>,
    fields: &[Field],
)
    ensures { Prints W.contents out.old out.new
        (opening level (head_of head.entry.opcode (parts_view head.entry.parts.now.items)) ++
        field_lines (deeper level) (fields_view fields.now) ++ line level (word "}")) }
{
    print_opening(out, level, &head);
    print_fields(out, level.saturating_add(1), fields);
    print_closing(out, level);
}

/// The lines of a term, whose methods stand without their bodies.
#[cycle(lines)]
fn print_lines<W: Write>(out: &mut Out<'_, W>, level: u32, node: &Node)
    ensures { Prints W.contents out.old out.new (lines level (node_view node.now)) }
{
    match node {
        Node::Op {
            opcode,
            parts,
            tail,
            ..
        } => print_op_lines(
            out,
            level,
            tail,
            Head {
                opcode: *opcode,
                parts,
            },
        ),
        Node::Nothing | Node::Named { .. } => print_line(out, level, node),
    }
}

/// The lines of an opcode with its parts and its tail.
#[cycle(lines)]
fn print_op_lines<W: Write>(out: &mut Out<'_, W>, level: u32, tail: &Tail, head: Head<'_>)
    ensures { Prints W.contents out.old out.new
        (op_lines [] None level head.entry.opcode (parts_view head.entry.parts.now.items) (tail_view tail.now)) }
{
    match tail {
        Tail::Terms(nodes) => print_terms_block(out, level, nodes.as_slice(), head),
        Tail::Fields(fields) => print_fields_block(out, level, head, fields.as_slice()),
        _ => print_line(out, level, &Op { head, tail }),
    }
}

/// An opcode with terms as a block.
#[cycle(lines)]
fn print_terms_block<W: Write>(out: &mut Out<'_, W>, level: u32, nodes: &[Node], head: Head<'_>)
    ensures { Prints W.contents out.old out.new
        (opening level (head_of head.entry.opcode (parts_view head.entry.parts.now.items)) ++
        all_lines (deeper level) (nodes_view nodes.now) ++ line level (word "}")) }
{
    print_opening(out, level, &head);
    print_terms(out, level.saturating_add(1), nodes);
    print_closing(out, level);
}

/// The lines of terms, one after the other.
#[cycle(lines)]
pub fn print_terms<W: Write>(out: &mut Out<'_, W>, level: u32, nodes: &[Node])
    ensures { Prints W.contents out.old out.new (all_lines level (nodes_view nodes.now)) }
{
    for node in nodes {
        print_lines(out, level, node);
    }
}
