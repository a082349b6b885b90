//! A label, and a value behind it.
#![tactic(auto, using(text_writer::proofs::PrintLaws::straight))]

ghost use Rattle.std.specs.Prelude.{◌++◌, decimal};
ghost use Rattle.text_writer.specs.Prints.{Prints, hex8, hex16, quoted};

use std::io::Write;
use text_writer::{Out, print_decimal, print_hex8, print_hex16, print_quoted};

/// A label, and a number in decimal digits.
pub fn put_decimal<W: Write>(out: &mut Out<'_, W>, label: &[u8], value: u64)
    ensures { Prints W.contents out.old out.new (label.now ++ decimal value) }
{
    out.put(label);
    print_decimal(out, value);
}

pub(crate) fn put_hex8<W: Write>(out: &mut Out<'_, W>, label: &[u8], value: u32)
    ensures { Prints W.contents out.old out.new (label.now ++ hex8 value) }
{
    out.put(label);
    print_hex8(out, value);
}

pub(crate) fn put_hex16<W: Write>(out: &mut Out<'_, W>, label: &[u8], value: u64)
    ensures { Prints W.contents out.old out.new (label.now ++ hex16 value) }
{
    out.put(label);
    print_hex16(out, value);
}

/// A label, and bytes between quotes.
pub fn put_quoted<W: Write>(out: &mut Out<'_, W>, label: &[u8], bytes: &[u8])
    ensures { Prints W.contents out.old out.new (label.now ++ quoted bytes.now) }
{
    out.put(label);
    print_quoted(out, bytes);
}
