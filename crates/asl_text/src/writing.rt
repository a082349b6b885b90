//! Terms, written whole to memory.
ghost use Rattle.std.specs.Prelude.{◌≡◌, ◌++◌, List, flat_map, IfOk, IfErr, IfSome};
ghost use Rattle.aml_code.specs.Pieces.{Told};
ghost use Rattle.aml_code.specs.View.{node_view, nodes_view};
ghost use Rattle.text_writer.specs.Prints.{Writes, word};
ghost use Rattle.asl_text.specs.Pieces.{piece_text};
ghost use Rattle.asl_text.specs.Texts.{lines, all_lines};

use crate::bounded::Bounded;
use crate::lines::print_terms;
use crate::told::print_told;
use aml_code::{NoMemory, Node, Telling};
use std::alloc::{AllocError, Global};
use std::io::Write;
use std::slice;
use text_writer::{Out, Print, WriteFault, write_text};

/// How many bytes of what is told wait to be written.
const ROOM: usize = 1024;

/// Terms that are printed at a level.
#[derive(Drop)]
struct Terms<'n> {
    level: u32,
    nodes: &'n [Node],
}

impl Print for Terms<'_> {
    ghost text = { λ terms. all_lines terms.level (nodes_view terms.nodes.now) };

    fn print<W: Write>(&self, out: &mut Out<'_, W>) {
        print_terms(out, self.level, self.nodes);
    }
}

/// The lines of a term by itself, with no newline behind the last. A method's body isn't among them.
pub fn term_text(alloc: Global, node: &Node) -> Result<Vec<u8>, NoMemory>
    ensures { IfOk result (λ text. text.items ++ word "\n" ≡ lines 0 (node_view node.now)) }
{
    let mut text = Vec::new(alloc);
    let terms = Terms {
        level: 0,
        nodes: slice::from_ref(node),
    };
    match write_text(&mut text, &terms) {
        Err(_) => Err(AllocError),
        Ok(()) => {
            text.pop();
            Ok(text)
        }
    }
}

/// Writes what is told, and says how that went; or why nothing is told.
fn write_told<W: Write, T: Telling>(
    out: &mut W,
    telling: T,
    buffer: &mut [u8],
) -> Result<Result<(), WriteFault>, T::Fault>
    requires { T.can_tell telling }
    ensures told { IfOk result (λ written. (made : T.Made) × (ps : List Told) × (T.tells telling made ps ×
        Writes (W.contents out.old) (W.contents out.new) (flat_map piece_text ps) written)) }
    ensures fails { IfErr result (T.fails telling) }
{
    let mut lines = Out::new(out, buffer);
    print_told(&mut lines, telling)?;
    Ok(lines.finish())
}

/// The text of what is told, in as much memory as it needs; `None` where there are more than `most` bytes of it, or no
/// memory for these; and the fault where nothing is told.
pub fn told_text<T: Telling>(
    alloc: Global,
    most: usize,
    telling: T,
) -> Result<Option<Vec<u8>>, T::Fault>
    requires { T.can_tell telling }
    ensures told { IfOk result (λ text. IfSome text (λ t. (made : T.Made) × (ps : List Told) ×
        (T.tells telling made ps × (t.items ≡ flat_map piece_text ps)))) }
    ensures fails { IfErr result (T.fails telling) }
{
    let mut text = Bounded::new(alloc, most);
    match write_told(&mut text, telling, &mut [0; ROOM])? {
        Err(_) => Ok(None),
        Ok(()) => Ok(Some(text.into_text())),
    }
}
