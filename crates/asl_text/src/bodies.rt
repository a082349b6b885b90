//! The bodies of methods, as blocks take them.
#![tactic(auto, using(crate::proofs::BodyLaws::printing))]

ghost use Rattle.std.specs.Prelude.{◌≡◌, drop, map};
ghost use Rattle.text_writer.specs.Prints.{Prints};
ghost use Rattle.asl_text.specs.Texts.{raw_text, body_lines, first_lines};
ghost use Rattle.asl_text.specs.Bodies.{body_view, kept_lines, printed_lines, bodies_lines};

use crate::inline::Inline;
use crate::lines::{print_line, print_terms};
use crate::texts::print_braced_bytes;
use aml_code::{CodeFault, Node};
use std::io::Write;
use text_writer::Out;

/// What became of a method's body.
#[derive(Drop)]
pub enum Body {
    /// Its terms.
    Tree(Vec<Node>),
    /// It can't be read: why. It is printed as its bytes.
    Raw(CodeFault),
}

/// What is kept of a body that reads as terms, to be printed at one level.
#[derive(Drop)]
pub enum BodyText {
    /// The lines of its terms at that level.
    Lines(Vec<u8>),
    /// Its terms, which take less memory where their lines are long.
    Terms(Vec<Node>),
}

/// The bodies of methods in the order of the text, each method taking one.
#[derive(Clone, Copy)]
pub enum Bodies<'b> {
    /// As what they read as.
    Read(&'b [Body]),
    /// As what is kept of their terms, each at its level, or as the fault of one that can't be read.
    Printed(&'b [Result<BodyText, CodeFault>]),
}

impl<'b> Bodies<'b> {
    /// The bodies but for the first.
    pub fn others(self) -> Bodies<'b>
        ensures { bodies_lines result ≡ drop 1 (bodies_lines self.entry) }
    {
        match self {
            Bodies::Read([_, rest @ ..]) => Bodies::Read(rest),
            Bodies::Printed([_, rest @ ..]) => Bodies::Printed(rest),
            _ => self,
        }
    }
}

/// The lines of the first of the bodies, which has these bytes; nothing where there is none.
pub fn print_first<W: Write>(out: &mut Out<'_, W>, level: u32, bytes: &[u8], bodies: Bodies<'_>)
    ensures { Prints W.contents out.old out.new (first_lines (bodies_lines bodies.entry) level bytes.now) }
{
    match bodies {
        Bodies::Read(bodies) => print_first_read(out, level, bytes, bodies),
        Bodies::Printed(texts) => print_first_printed(out, level, bytes, texts),
    }
}

fn print_first_read<W: Write>(out: &mut Out<'_, W>, level: u32, bytes: &[u8], bodies: &[Body])
    ensures { Prints W.contents out.old out.new
        (first_lines (map body_lines (map body_view bodies.now)) level bytes.now) }
{
    if let Some((body, _)) = bodies.split_first() {
        print_read(out, level, bytes, body);
    }
}

fn print_first_printed<W: Write>(
    out: &mut Out<'_, W>,
    level: u32,
    bytes: &[u8],
    texts: &[Result<BodyText, CodeFault>],
)
    ensures { Prints W.contents out.old out.new
        (first_lines (map printed_lines texts.now) level bytes.now) }
{
    if let Some((text, _)) = texts.split_first() {
        print_printed(out, level, bytes, text);
    }
}

/// The lines of a body with these bytes.
fn print_read<W: Write>(out: &mut Out<'_, W>, level: u32, bytes: &[u8], body: &Body)
    ensures { Prints W.contents out.old out.new (body_lines (body_view body.now) level bytes.now) }
{
    match body {
        Body::Tree(nodes) => print_terms(out, level, nodes.as_slice()),
        Body::Raw(_) => print_line(out, level, &Raw(bytes)),
    }
}

/// The lines of a body with these bytes, of whose terms this is kept.
fn print_printed<W: Write>(
    out: &mut Out<'_, W>,
    level: u32,
    bytes: &[u8],
    text: &Result<BodyText, CodeFault>,
)
    ensures { Prints W.contents out.old out.new (printed_lines text.now level bytes.now) }
{
    match text {
        Ok(text) => print_kept(out, level, text),
        Err(_) => print_line(out, level, &Raw(bytes)),
    }
}

/// The lines of a body of whose terms this is kept.
fn print_kept<W: Write>(out: &mut Out<'_, W>, level: u32, text: &BodyText)
    ensures { Prints W.contents out.old out.new (kept_lines text.now level) }
{
    match text {
        BodyText::Lines(lines) => out.put(lines.as_slice()),
        BodyText::Terms(nodes) => print_terms(out, level, nodes.as_slice()),
    }
}

/// The bytes of a body that can't be read.
#[derive(Drop)]
struct Raw<'b>(&'b [u8]);

impl Inline for Raw<'_> {
    ghost text = { λ raw. raw_text raw.0.now };

    fn print<W: Write>(&self, out: &mut Out<'_, W>) {
        out.put(b"Raw");
        print_braced_bytes(out, self.0);
    }
}
