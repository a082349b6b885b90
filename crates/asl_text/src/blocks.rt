//! Definition blocks: the terms of a table, with the bodies of its methods in their places.
#![tactic(auto, using(crate::proofs::BlockLaws::printing), unfolding(crate::specs::Texts::serialized_text))]

ghost use Rattle.std.specs.Prelude.{◌≡◌, ◌++◌, Some, decimal};
ghost use Rattle.aml_code.specs.Pieces.{deeper};
ghost use Rattle.aml_code.specs.View.{node_view, nodes_view, parts_view, tail_view};
ghost use Rattle.text_writer.specs.Prints.{Prints, quoted, word};
ghost use Rattle.asl_text.specs.Bodies.{bodies_lines};
ghost use Rattle.asl_text.specs.Texts.{head_of, line, opening, serialized_text, flags_text, method_text};
ghost use Rattle.asl_text.specs.Texts.{method_head, first_lines, levels_in, tail_levels, all_levels, behind};
ghost use Rattle.asl_text.specs.Texts.{term_lines, op_lines, terms_lines, left_all, block_text};

use crate::bodies::{Bodies, print_first};
use crate::inline::Inline;
use crate::lines::{Op, print_closing, print_fields_block, print_line, print_opening};
use crate::texts::Head;
use crate::words::print_name;
use aml_code::{Name, Node, Tail, last_byte, last_name, slice};
use std::io::Write;
use text_writer::{Out, print_decimal, print_quoted};

/// A table that is printed as a definition block.
#[derive(Drop)]
pub struct Block<'a> {
    /// The file's name.
    pub name: &'a [u8],
    /// The table's AML.
    pub code: &'a [u8],
    /// Its terms.
    pub nodes: &'a [Node],
}

/// Whether a method is serialized: bit 3 of its flags.
fn print_serialized<W: Write>(out: &mut Out<'_, W>, flags: u8)
    ensures { Prints W.contents out.old out.new (serialized_text flags) }
{
    if flags / 8 % 2 == 1 {
        out.put(b", Serialized");
    } else {
        out.put(b", NotSerialized");
    }
}

/// A comma and a number.
fn print_comma_decimal<W: Write>(out: &mut Out<'_, W>, n: u8)
    ensures { Prints W.contents out.old out.new (word ", " ++ decimal n) }
{
    out.put(b", ");
    print_decimal(out, n as u64);
}

/// The number of arguments, whether the method is serialized, and its sync level.
pub(crate) fn print_flags<W: Write>(out: &mut Out<'_, W>, flags: u8)
    ensures { Prints W.contents out.old out.new (flags_text flags) }
{
    print_comma_decimal(out, flags % 8);
    print_serialized(out, flags);
    print_comma_decimal(out, flags / 16);
}

/// A method by its name and flags.
fn print_method<W: Write>(out: &mut Out<'_, W>, name: &Name, flags: u8)
    ensures { Prints W.contents out.old out.new (method_text name.now flags) }
{
    out.put(b"Method (");
    print_name(out, name);
    print_flags(out, flags);
    out.put(b")");
}

/// The head of a method, from its name and flags.
#[derive(Drop)]
struct MethodHead<'n>(Head<'n>);

impl Inline for MethodHead<'_> {
    ghost text = { λ method. method_head method.0.opcode (parts_view method.0.parts.now.items) };

    fn print<W: Write>(&self, out: &mut Out<'_, W>) {
        let parts = self.0.parts.as_slice();
        match last_name(parts) {
            None => self.0.print(out),
            Some(name) => match last_byte(parts) {
                None => self.0.print(out),
                Some(flags) => print_method(out, name, flags),
            },
        }
    }
}

/// A method, with the first of the bodies.
fn print_method_block<W: Write>(
    out: &mut Out<'_, W>,
    level: u32,
    head: Head<'_>,
    bytes: &[u8],
    bodies: Bodies<'_>,
)
    ensures { Prints W.contents out.old out.new
        (opening level (method_head head.entry.opcode (parts_view head.entry.parts.now.items)) ++
        first_lines (bodies_lines bodies.entry) (deeper level) bytes.now ++ line level (word "}")) }
{
    print_opening(out, level, &MethodHead(head));
    print_first(out, level.saturating_add(1), bytes, bodies);
    print_closing(out, level);
}

/// The lines of a term of a table. Each method takes the first of the bodies; the others are answered.
#[cycle(blocks)]
fn print_table_term<'b, W: Write>(
    out: &mut Out<'_, W>,
    code: &[u8],
    level: u32,
    node: &Node,
    bodies: Bodies<'b>,
) -> Bodies<'b>
    ensures prints { Prints W.contents out.old out.new
        (term_lines code.now (Some (bodies_lines bodies.entry)) level (node_view node.now)) }
    ensures others { bodies_lines result ≡ behind (levels_in level (node_view node.now)) (bodies_lines bodies.entry) }
{
    match node {
        Node::Op {
            opcode,
            parts,
            tail,
            ..
        } => print_table_op(
            out,
            code,
            level,
            tail,
            Head {
                opcode: *opcode,
                parts,
            },
            bodies,
        ),
        Node::Nothing | Node::Named { .. } => {
            print_line(out, level, node);
            bodies
        }
    }
}

/// The lines of an opcode of a table. Bodies are taken and answered as for a term.
#[cycle(blocks)]
fn print_table_op<'b, W: Write>(
    out: &mut Out<'_, W>,
    code: &[u8],
    level: u32,
    tail: &Tail,
    head: Head<'_>,
    bodies: Bodies<'b>,
) -> Bodies<'b>
    ensures prints { Prints W.contents out.old out.new
        (op_lines code.now (Some (bodies_lines bodies.entry)) level head.entry.opcode
        (parts_view head.entry.parts.now.items) (tail_view tail.now)) }
    ensures others { bodies_lines result
        ≡ behind (tail_levels (deeper level) (tail_view tail.now)) (bodies_lines bodies.entry) }
{
    match tail {
        Tail::Terms(nodes) => print_table_block(out, code, level, nodes.as_slice(), head, bodies),
        Tail::Body { start, len } => {
            print_method_block(out, level, head, slice(code, *start, *len), bodies);
            bodies.others()
        }
        Tail::Fields(fields) => {
            print_fields_block(out, level, head, fields.as_slice());
            bodies
        }
        _ => {
            print_line(out, level, &Op { head, tail });
            bodies
        }
    }
}

/// An opcode with terms of a table as a block.
#[cycle(blocks)]
fn print_table_block<'b, W: Write>(
    out: &mut Out<'_, W>,
    code: &[u8],
    level: u32,
    nodes: &[Node],
    head: Head<'_>,
    bodies: Bodies<'b>,
) -> Bodies<'b>
    ensures prints { Prints W.contents out.old out.new
        (opening level (head_of head.entry.opcode (parts_view head.entry.parts.now.items)) ++
        terms_lines code.now (Some (bodies_lines bodies.entry)) (deeper level) (nodes_view nodes.now) ++
        line level (word "}")) }
    ensures others { bodies_lines result
        ≡ behind (all_levels (deeper level) (nodes_view nodes.now)) (bodies_lines bodies.entry) }
{
    print_opening(out, level, &head);
    let others = print_table_terms(out, code, level.saturating_add(1), nodes, bodies);
    print_closing(out, level);
    others
}

/// The lines of terms of a table, one after the other.
#[cycle(blocks)]
fn print_table_terms<'b, W: Write>(
    out: &mut Out<'_, W>,
    code: &[u8],
    level: u32,
    nodes: &[Node],
    bodies: Bodies<'b>,
) -> Bodies<'b>
    ensures prints { Prints W.contents out.old out.new
        (terms_lines code.now (Some (bodies_lines bodies.entry)) level (nodes_view nodes.now)) }
    ensures others { bodies_lines result
        ≡ behind (all_levels level (nodes_view nodes.now)) (bodies_lines bodies.entry) }
{
    let mut rest = bodies;
    for node in nodes {
        rest = print_table_term(out, code, level, node, rest);
    }
    rest
}

/// A definition block: the terms of a table's AML, each method with its body, in the order of the text.
/// Answers the bodies that are left: those of the next tables.
pub fn print_block<'b, W: Write>(
    out: &mut Out<'_, W>,
    name: &[u8],
    code: &[u8],
    nodes: &[Node],
    bodies: Bodies<'b>,
) -> Bodies<'b>
    ensures prints { Prints W.contents out.old out.new
        (block_text name.now code.now (nodes_view nodes.now) (bodies_lines bodies.entry)) }
    ensures others { bodies_lines result ≡ left_all (nodes_view nodes.now) (bodies_lines bodies.entry) }
{
    print_opening(out, 0, &BlockHead(name));
    let others = print_table_terms(out, code, 1, nodes, bodies);
    print_closing(out, 0);
    others
}

/// The head of a definition block: the name of its table's file.
#[derive(Drop)]
pub(crate) struct BlockHead<'n>(pub(crate) &'n [u8]);

impl Inline for BlockHead<'_> {
    ghost text = { λ head. word "DefinitionBlock (" ++ quoted head.0.now ++ word ")" };

    fn print<W: Write>(&self, out: &mut Out<'_, W>) {
        out.put(b"DefinitionBlock (");
        print_quoted(out, self.0);
        out.put(b")");
    }
}
