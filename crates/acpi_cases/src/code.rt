//! Rows of AML: bodies, tables, names and package lengths.
ghost use Rattle.std.specs.Prelude.{◌≤◌, Some, length};

use crate::lines::{count_of, first_word, push_bytes, push_indented};
use aml_code::{
    Arity, Bytes, CodeFault, Locals, Name, NameForm, NoMemory, Node, Path, PkgWidth, Position,
    Tail, encode_terms, read_pkg,
};
use aml_names::read_name;
use aml_parse::{next_position, parse_body, parse_module, read_step};
use asl_text::{Bodies, Body, print_block, term_text};
use std::alloc::{AllocError, Global};
use std::fmt::Write;
use text_writer::Out;

/// The text around the terms of a definition block without a name.
const OPENING: &str = "DefinitionBlock (\"\") {\n";

const CLOSING: &str = "}\n";

/// Each name takes so many arguments.
#[derive(Clone, Copy)]
struct Each {
    count: u8,
}

impl Arity for Each {
    ghost arity = { λ each _ _. Some each.count };

    fn count(
        &self,
        _alloc: Global,
        _locals: &Locals,
        _name: &Name,
    ) -> Result<Option<u8>, NoMemory> {
        Ok(Some(self.count))
    }
}

/// The terms of a body in which each name takes so many arguments.
pub fn push_body(
    alloc: Global,
    out: &mut String,
    count: &str,
    code: &[u8],
) -> Result<(), AllocError>
    requires { length code.now ≤ 16777216 }
{
    let count = count_of(count);
    let read = parse_body(alloc, code, &Each { count }, &Path::root(alloc));
    push_read(alloc, out, code, read)
}

/// The text of each term of a body by itself, in which each name takes so many arguments.
pub fn push_texts(
    alloc: Global,
    out: &mut String,
    count: &str,
    code: &[u8],
) -> Result<(), AllocError>
    requires { length code.now ≤ 16777216 }
{
    let count = count_of(count);
    match parse_body(alloc, code, &Each { count }, &Path::root(alloc)) {
        Err(fault) => push_fault(out, fault),
        Ok(nodes) => push_each_text(alloc, out, &nodes),
    }
}

/// How many bytes the text of each term has, and its lines: no newline stands behind the last.
fn push_each_text(alloc: Global, out: &mut String, nodes: &[Node]) -> Result<(), AllocError> {
    for node in nodes {
        let Ok(text) = term_text(alloc, node) else {
            return out.push_str("  NoMemory\n");
        };
        let len = text.len();
        writeln!(out, "  {len} bytes:")?;
        push_indented(out, &text)?;
    }
    Ok(())
}

/// The terms that code was read as, or why it can't be.
pub fn push_read(
    alloc: Global,
    out: &mut String,
    code: &[u8],
    read: Result<Vec<Node>, CodeFault>,
) -> Result<(), AllocError>
    requires { length code.now ≤ 16777216 }
{
    match read {
        Err(fault) => push_fault(out, fault),
        Ok(nodes) => push_terms(alloc, out, code, &nodes),
    }
}

/// A term of a table whose code may run: where it ends, the span of the terms inside it or of its method's body, and
/// whether an Else may follow.
/// The words are how many arguments each name takes, and the offset at which it stands.
pub fn push_step(
    alloc: Global,
    out: &mut String,
    words: &str,
    code: &[u8],
) -> Result<(), AllocError>
    requires { length code.now ≤ 16777216 }
{
    let (count, at) = first_word(words);
    let count = count_of(count);
    let at = at.parse::<u32>().unwrap_or(0);
    let end = code.len() as u32;
    if at > end {
        return Ok(());
    }
    match read_step(
        alloc,
        &Each { count },
        Position::RunTerm,
        512,
        code,
        at,
        end,
    ) {
        Err(fault) => push_fault(out, fault),
        Ok((node, behind)) => push_stepped(out, &node, behind),
    }
}

fn push_stepped(out: &mut String, node: &Node, behind: u32) -> Result<(), AllocError> {
    write!(out, "  to {behind}")?;
    if let Node::Op {
        tail: Tail::Body { start, len },
        ..
    } = node
    {
        write!(out, ", inside {len} bytes at {start}")?;
    }
    if next_position(Position::RunTerm, node) == Position::RunAfterIf {
        out.push_str(", an Else may follow")?;
    }
    writeln!(out)
}

/// The terms of a table, with the bytes of the bodies of its methods.
pub fn push_table(alloc: Global, out: &mut String, code: &[u8]) -> Result<(), AllocError>
    requires { length code.now ≤ 16777216 }
{
    match parse_module(alloc, code) {
        Err(fault) => push_fault(out, fault),
        Ok(nodes) => push_terms(alloc, out, code, &nodes),
    }
}

fn push_fault(out: &mut String, fault: CodeFault) -> Result<(), AllocError> {
    writeln!(out, "  {fault}")
}

/// The text of terms, if they have the bytes that they were read from.
fn push_terms(
    alloc: Global,
    out: &mut String,
    code: &[u8],
    nodes: &[Node],
) -> Result<(), AllocError> {
    let bytes = encode_terms(alloc, code, nodes)?;
    if bytes.as_slice() != code {
        return writeln!(out, "  other bytes");
    }
    let bodies = raw_bodies(alloc, code)?;
    let mut text = Vec::new(alloc);
    let mut buffer = [0; 1024];
    let mut sink = Out::new(&mut text, &mut buffer);
    print_block(&mut sink, b"", code, nodes, Bodies::Read(&bodies));
    match sink.finish() {
        Err(_) => Err(AllocError),
        Ok(()) => out.push_str(inner_text(&text)),
    }
}

/// A body that isn't read for each byte of a table, and so one at least for each of its methods.
fn raw_bodies(alloc: Global, code: &[u8]) -> Result<Vec<Body>, AllocError> {
    let mut bodies = Vec::new(alloc);
    for _ in code {
        bodies.push(Body::Raw(CodeFault::NoMemory))?;
    }
    Ok(bodies)
}

/// The lines between the first and the last of a definition block.
fn inner_text(text: &[u8]) -> &str {
    let text = str::from_utf8(text).unwrap_or("");
    let text = text.strip_prefix(OPENING).unwrap_or("");
    text.strip_suffix(CLOSING).unwrap_or("")
}

/// A name as it is spelled, and how many bytes spell it.
pub fn push_name(alloc: Global, out: &mut String, bytes: &[u8]) -> Result<(), AllocError>
    requires { length bytes.now ≤ 16777216 }
{
    match read_name(alloc, bytes) {
        Err(fault) => push_fault(out, fault),
        Ok((name, len)) => {
            let form = form_word(name.form);
            write!(out, "  {form}, {len} bytes:")?;
            push_spelled(out, &name)
        }
    }
}

/// The prefixes and the segments of a name.
fn push_spelled(out: &mut String, name: &Name) -> Result<(), AllocError> {
    if name.root {
        out.push_str(" \\")?;
    }
    for _ in 0..name.ups {
        out.push_str(" ^")?;
    }
    for seg in name.segs.as_slice() {
        write!(out, " {seg}")?;
    }
    writeln!(out)
}

fn form_word(form: NameForm) -> &'static str {
    match form {
        NameForm::Null => "Null",
        NameForm::One => "One",
        NameForm::Dual => "Dual",
        NameForm::Multi => "Multi",
    }
}

/// Bytes as a tree keeps them, given back.
pub fn push_kept(alloc: Global, out: &mut String, bytes: &[u8]) -> Result<(), AllocError> {
    let kept = Bytes::from_vec(bytes.to_vec(alloc)?).into_vec();
    out.push_str("  ")?;
    push_bytes(out, &kept, "")
}

/// A package length.
pub fn push_length(out: &mut String, bytes: &[u8]) -> Result<(), AllocError>
    requires { length bytes.now ≤ 16777216 }
{
    match read_pkg(bytes) {
        Err(fault) => push_fault(out, fault),
        Ok((width, value)) => {
            let width = width_word(width);
            writeln!(out, "  {value} in width {width}")
        }
    }
}

fn width_word(width: PkgWidth) -> &'static str {
    match width {
        PkgWidth::One => "One",
        PkgWidth::Two => "Two",
        PkgWidth::Three => "Three",
        PkgWidth::Four => "Four",
    }
}

/// What the first bytes of a table are read as, without the last one, and so on down to none.
pub fn push_cuts(alloc: Global, out: &mut String, code: &[u8]) -> Result<(), AllocError>
    requires { length code.now ≤ 16777216 }
{
    for len in 0..code.len() {
        writeln!(out, "  {len} bytes:")?;
        push_table(alloc, out, &code[..len])?;
    }
    Ok(())
}
