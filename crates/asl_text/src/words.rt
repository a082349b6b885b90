//! The text of names.
#![tactic(auto, using(crate::proofs::TextLaws::names))]

ghost use Rattle.std.specs.Prelude.{◌≡◌, ◌≤◌, [], ◌++◌, cond, flat_map, length, map, replicate};
ghost use Rattle.text_writer.specs.Prints.{Prints, word};
ghost use Rattle.asl_text.specs.Texts.{separated, prefix_text, segment_text, name_text};

use crate::inline::Inline;
use aml_code::{Name, Seg};
use std::io::Write;
use text_writer::Out;

/// So many `^`.
fn print_parents<W: Write>(out: &mut Out<'_, W>, ups: u32)
    ensures { Prints W.contents out.old out.new (replicate ups 94) }
{
    for _i in 0..ups {
        out.put(b"^");
    }
}

fn print_root<W: Write>(out: &mut Out<'_, W>, root: bool)
    ensures { Prints W.contents out.old out.new (cond root (word "\\") []) }
{
    if root {
        out.put(b"\\");
    }
}

fn print_prefix<W: Write>(out: &mut Out<'_, W>, name: &Name)
    ensures { Prints W.contents out.old out.new (prefix_text name.now) }
{
    print_root(out, name.root);
    print_parents(out, name.ups);
}

impl Inline for Seg {
    ghost text = { segment_text };

    fn print<W: Write>(&self, out: &mut Out<'_, W>) {
        out.put(&self.0);
    }
}

/// A dot and a segment.
fn dotted(seg: Seg) -> [u8; 5]
    ensures { result ≡ word "." ++ segment_text seg }
{
    let [first, second, third, fourth] = seg.0;
    [b'.', first, second, third, fourth]
}

/// So many segments are put together at once, 20 KB of text.
const BLOCK: usize = 4096;

/// With fewer segments a block costs more than it saves.
const FEW: usize = 512;

/// As many segments as a block takes at most, each behind a dot.
fn print_block<W: Write>(out: &mut Out<'_, W>, segs: &[Seg])
    requires { length segs.now ≤ 4096 }
    ensures { Prints W.contents out.old out.new (flat_map (λ text. word "." ++ text) (map segment_text segs.now)) }
{
    let mut block = [[0; 5]; BLOCK];
    for place in 0..segs.len() {
        block[place] = dotted(segs[place]);
    }
    out.put(block[..segs.len()].as_flattened());
}

/// Many segments, each behind a dot, a block at a time: a deep path has many thousands of them. It stays out of the
/// frame of what prints a few.
#[inline(never)]
fn print_blocks<W: Write>(out: &mut Out<'_, W>, segs: &[Seg])
    ensures { Prints W.contents out.old out.new (flat_map (λ text. word "." ++ text) (map segment_text segs.now)) }
{
    let mut done = 0;
    while done < segs.len() {
        let count = BLOCK.min(segs.len() - done);
        print_block(out, &segs[done..done + count]);
        done += count;
    }
}

/// A few segments, each behind a dot.
fn print_few<W: Write>(out: &mut Out<'_, W>, segs: &[Seg])
    ensures { Prints W.contents out.old out.new (flat_map (λ text. word "." ++ text) (map segment_text segs.now)) }
{
    for seg in segs {
        out.put(&dotted(*seg));
    }
}

/// Segments with a dot between two.
pub fn print_segments<W: Write>(out: &mut Out<'_, W>, segs: &[Seg])
    ensures { Prints W.contents out.old out.new (separated (word ".") (map segment_text segs.now)) }
{
    if let Some((first, rest)) = segs.split_first() {
        first.print(out);
        if rest.len() < FEW {
            print_few(out, rest);
        } else {
            print_blocks(out, rest);
        }
    }
}

/// A name: its prefix, and its segments with a dot between two.
pub fn print_name<W: Write>(out: &mut Out<'_, W>, name: &Name)
    ensures { Prints W.contents out.old out.new (name_text name.now) }
{
    print_prefix(out, name);
    print_segments(out, name.segs.as_slice());
}
