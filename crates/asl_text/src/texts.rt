//! The text of a term on one line.
#![tactic(auto, using(crate::proofs::NodeLaws::printing), unfolding(crate::specs::Texts::braced))]

ghost use Rattle.std.specs.Prelude.{◌≡◌, ◌++◌, Some, map};
ghost use Rattle.aml_code.specs.Opcodes.{row_view};
ghost use Rattle.aml_code.specs.View.{node_view, nodes_view, part_view, parts_view, tail_view};
ghost use Rattle.text_writer.specs.Prints.{Prints, word, hex2, hex4, hex8, hex16};
ghost use Rattle.asl_text.specs.Texts.{name_text, arguments_text, braced, is_constant, head_of, head_text};
ghost use Rattle.asl_text.specs.Texts.{inline, inlines, part_text, part_texts, tail_text};

use crate::inline::{Inline, print_separated};
use crate::words::print_name;
use aml_code::{Bytes, Group, Name, Node, OpRow, Part, Tail, listed_row};
use std::io::Write;
use text_writer::{Out, print_hex2, print_hex4, print_hex8, print_hex16, print_quoted};

/// The parts of an opcode. They are passed as the vector that a node has: a recursion through the impl for vectors is
/// proved at the types of fields alone.
pub type Parts = Vec<Part>;

/// An opcode with its parts.
#[derive(Clone, Copy)]
pub struct Head<'n> {
    pub opcode: u16,
    pub parts: &'n Parts,
}

impl Inline for Head<'_> {
    ghost text = { λ head. head_of head.opcode (parts_view head.parts.now.items) };

    fn print<W: Write>(&self, out: &mut Out<'_, W>) {
        print_head(out, self.opcode, self.parts);
    }
}

/// A byte in two digits.
impl Inline for u8 {
    ghost text = { hex2 };

    fn print<W: Write>(&self, out: &mut Out<'_, W>) {
        print_hex2(out, *self);
    }
}

/// Bytes in braces.
pub fn print_braced_bytes<W: Write>(out: &mut Out<'_, W>, bytes: &[u8])
    ensures { Prints W.contents out.old out.new (braced (map hex2 bytes.now)) }
{
    out.put(b" {");
    print_separated(out, b", ", bytes);
    out.put(b"}");
}

/// A number of one byte as a constant.
pub fn print_byte<W: Write>(out: &mut Out<'_, W>, n: u8)
    ensures { Prints W.contents out.old out.new (word "0x" ++ hex2 n) }
{
    out.put(b"0x");
    print_hex2(out, n);
}

/// A number of two bytes as a constant.
pub fn print_word<W: Write>(out: &mut Out<'_, W>, n: u16)
    ensures { Prints W.contents out.old out.new (word "0x" ++ hex4 n) }
{
    out.put(b"0x");
    print_hex4(out, n);
}

/// A number of four bytes as a constant.
pub fn print_dword<W: Write>(out: &mut Out<'_, W>, n: u32)
    ensures { Prints W.contents out.old out.new (word "0x" ++ hex8 n) }
{
    out.put(b"0x");
    print_hex8(out, n);
}

/// A number of eight bytes as a constant.
pub fn print_qword<W: Write>(out: &mut Out<'_, W>, n: u64)
    ensures { Prints W.contents out.old out.new (word "0x" ++ hex16 n) }
{
    out.put(b"0x");
    print_hex16(out, n);
}

/// Whether a row is that of a constant, whose value stands without a mnemonic.
pub fn is_constant(row: &OpRow) -> bool
    ensures { result ≡ is_constant (row_view row.now) }
{
    row.group == Group::Value && !row.has_length() && !row.parts.is_empty()
}

/// A term on one line.
impl Inline for Node {
    ghost text = { λ node. inline (node_view node) };

    #[cycle(inline)]
    fn print<W: Write>(&self, out: &mut Out<'_, W>) {
        match self {
            Node::Nothing => {}
            Node::Named { name, args } => print_call(out, name, args),
            Node::Op {
                opcode,
                parts,
                tail,
                ..
            } => {
                print_head(out, *opcode, parts);
                print_tail(out, tail);
            }
        }
    }
}

#[cycle(inline)]
fn print_call<W: Write>(out: &mut Out<'_, W>, name: &Name, args: &Vec<Node>)
    ensures { Prints W.contents out.old out.new
        (name_text name.now ++ arguments_text (inlines (nodes_view args.now.items))) }
{
    print_name(out, name);
    print_arguments(out, args);
}

/// Arguments in parentheses, if there are any.
#[cycle(inline)]
fn print_arguments<W: Write>(out: &mut Out<'_, W>, args: &Vec<Node>)
    ensures { Prints W.contents out.old out.new (arguments_text (inlines (nodes_view args.now.items))) }
{
    if !args.is_empty() {
        out.put(b" (");
        args.print(out);
        out.put(b")");
    }
}

/// An opcode's mnemonic and its parts.
#[cycle(inline)]
fn print_head<W: Write>(out: &mut Out<'_, W>, opcode: u16, parts: &Parts)
    ensures { Prints W.contents out.old out.new (head_of opcode (parts_view parts.now.items)) }
{
    match listed_row(opcode) {
        None => parts.print(out),
        Some(row) => print_row_head(out, row, parts),
    }
}

/// An opcode with its parts, by its row.
#[cycle(inline)]
fn print_row_head<W: Write>(out: &mut Out<'_, W>, row: &OpRow, parts: &Parts)
    ensures { Prints W.contents out.old out.new
        (head_text (Some (row_view row.now)) (part_texts (parts_view parts.now.items))) }
{
    if is_constant(row) {
        parts.print(out);
    } else {
        out.put(row.mnemonic.as_bytes());
        print_part_arguments(out, parts);
    }
}

/// Parts in parentheses, if there are any.
#[cycle(inline)]
fn print_part_arguments<W: Write>(out: &mut Out<'_, W>, parts: &Parts)
    ensures { Prints W.contents out.old out.new (arguments_text (part_texts (parts_view parts.now.items))) }
{
    if !parts.is_empty() {
        out.put(b" (");
        parts.print(out);
        out.put(b")");
    }
}

/// A part. A target that is absent has an empty text.
impl Inline for Part {
    ghost text = { λ part. part_text (part_view part) };

    #[cycle(inline)]
    fn print<W: Write>(&self, out: &mut Out<'_, W>) {
        match self {
            Part::Child(node) => node.print(out),
            Part::Label(name) => print_name(out, name),
            Part::Byte(n) => print_byte(out, *n),
            Part::Word(n) => print_word(out, *n),
            Part::Dword(n) => print_dword(out, *n),
            Part::Qword(n) => print_qword(out, *n),
            Part::Text(text) => print_quoted(out, text.as_slice()),
        }
    }
}

/// The bytes of a Buffer, or the elements of a package.
#[cycle(inline)]
pub fn print_tail<W: Write>(out: &mut Out<'_, W>, tail: &Tail)
    ensures { Prints W.contents out.old out.new (tail_text (tail_view tail.now)) }
{
    match tail {
        Tail::Bytes(bytes) => print_braced_bytes(out, bytes.as_slice()),
        Tail::Elements(nodes) => print_braced_nodes(out, nodes),
        Tail::Empty | Tail::Terms(_) | Tail::Fields(_) | Tail::Body { .. } => {}
    }
}

/// Elements in braces.
#[cycle(inline)]
fn print_braced_nodes<W: Write>(out: &mut Out<'_, W>, nodes: &Vec<Node>)
    ensures { Prints W.contents out.old out.new (braced (inlines (nodes_view nodes.now.items))) }
{
    out.put(b" {");
    nodes.print(out);
    out.put(b"}");
}
