//! Definition blocks of tables whose text is in memory, with the bodies of methods in their places.
#![tactic(auto, using(text_writer::proofs::PrintLaws::straight))]

ghost use Rattle.std.specs.Prelude.{◌≡◌, ◌++◌, ◌-◌, take, drop, length};
ghost use Rattle.aml_code.specs.Tree.{slice_of};
ghost use Rattle.text_writer.specs.Prints.{Prints};
ghost use Rattle.asl_text.specs.Bodies.{bodies_lines};
ghost use Rattle.asl_text.specs.Tables.{told_block_text, woven};
ghost use Rattle.asl_text.specs.Texts.{first_lines};

use crate::blocks::BlockHead;
use crate::bodies::{Bodies, print_first};
use crate::lines::{print_closing, print_opening};
use crate::tables::{Place, TableText};
use aml_code::slice;
use std::io::Write;
use text_writer::Out;

/// The bytes of a text from an offset on; none where it ends before.
fn behind(text: &[u8], from: usize) -> &[u8]
    ensures { result.now ≡ drop from text.now }
{
    &text[from.min(text.len())..]
}

/// The bytes of a text from an offset up to another.
fn between(text: &[u8], from: usize, to: usize) -> &[u8]
    ensures { result.now ≡ take (to - from) (drop from text.now) }
{
    let rest = behind(text, from);
    &rest[..to.saturating_sub(from).min(rest.len())]
}

/// The text from an offset up to a place, and the body that goes there.
fn print_place<W: Write>(
    out: &mut Out<'_, W>,
    code: &[u8],
    text: &[u8],
    from: usize,
    place: &Place,
    bodies: Bodies<'_>,
)
    ensures { Prints W.contents out.old out.new
        (take (place.now.at - from) (drop from text.now) ++
        first_lines (bodies_lines bodies.entry) place.now.level (slice_of code.now place.now.start place.now.len)) }
{
    out.put(between(text, from, place.at));
    print_first(
        out,
        place.level,
        slice(code, place.start, place.len),
        bodies,
    );
}

/// The text of a table, with the bodies in their places. Answers the others.
fn print_woven<'b, W: Write>(
    out: &mut Out<'_, W>,
    code: &[u8],
    text: &[u8],
    places: &[Place],
    bodies: Bodies<'b>,
) -> Bodies<'b>
    ensures prints { Prints W.contents out.old out.new
        (woven code.now (bodies_lines bodies.entry) text.now 0 places.now) }
    ensures others { bodies_lines result ≡ drop (length places.now) (bodies_lines bodies.entry) }
{
    let mut from = 0;
    let mut rest = bodies;
    for place in places {
        print_place(out, code, text, from, place, rest);
        from = place.at;
        rest = rest.others();
    }
    out.put(behind(text, from));
    rest
}

/// A definition block: the text that was told of a table's terms, each method with its body, in the order of the text.
/// Answers the bodies that are left: those of the next tables.
pub fn print_told_block<'b, W: Write>(
    out: &mut Out<'_, W>,
    name: &[u8],
    code: &[u8],
    text: &TableText,
    bodies: Bodies<'b>,
) -> Bodies<'b>
    ensures prints { Prints W.contents out.old out.new
        (told_block_text name.now code.now text.now (bodies_lines bodies.entry)) }
    ensures others { bodies_lines result ≡ drop (length text.now.places.items) (bodies_lines bodies.entry) }
{
    print_opening(out, 0, &BlockHead(name));
    let others = print_woven(
        out,
        code,
        text.text.as_slice(),
        text.places.as_slice(),
        bodies,
    );
    print_closing(out, 0);
    others
}
