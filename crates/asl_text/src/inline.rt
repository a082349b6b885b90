//! What has a text on one line, and lists of it.
#![tactic(auto, using(text_writer::proofs::PrintLaws::straight, crate::proofs::TextLaws::separations))]

ghost use Rattle.std.specs.Prelude.{ℕ, List, ◌++◌, map};
ghost use Rattle.text_writer.specs.Prints.{Prints};
ghost use Rattle.asl_text.specs.Texts.{separated, joined};

use std::io::Write;
use text_writer::Out;

/// What has a text on one line.
pub trait Inline {
    /// Its text.
    ghost text: { Self → List ℕ };

    /// Prints it.
    fn print<W: Write>(&self, out: &mut Out<'_, W>)
        ensures { Prints W.contents out.old out.new (text self.now) };
}

/// An item behind a separator.
fn print_next<W: Write, T: Inline>(out: &mut Out<'_, W>, separator: &[u8], item: &T)
    ensures { Prints W.contents out.old out.new (separator.now ++ T.text item.now) }
{
    out.put(separator);
    item.print(out);
}

/// Items with a separator between two.
pub fn print_separated<W: Write, T: Inline>(out: &mut Out<'_, W>, separator: &[u8], items: &[T])
    ensures { Prints W.contents out.old out.new (separated separator.now (map T.text items.now)) }
{
    if let Some((first, rest)) = items.split_first() {
        first.print(out);
        for item in rest {
            print_next(out, separator, item);
        }
    }
}

/// Items with a comma between two.
impl<T: Inline> Inline for Vec<T> {
    ghost text = { λ items. joined (map T.text items.items) };

    fn print<W: Write>(&self, out: &mut Out<'_, W>) {
        print_separated(out, b", ", self.as_slice());
    }
}
