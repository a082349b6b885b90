//! What prints as a text, and how it is written whole.
ghost use Rattle.std.specs.Prelude.{ℕ, List};
ghost use Rattle.text_writer.specs.Prints.{Prints, Writes};

use crate::output::{Out, WriteFault};
use std::io::Write;

/// How many bytes of a text wait to be written, where no buffer is given.
const ROOM: usize = 1024;

/// What prints as one text.
pub trait Print {
    /// The condition of printing it: none, where an impl names none.
    ghost can_print: { Self → Type 0 } = { λ _. Unit {0} };

    /// Its text.
    ghost text: { Self → List ℕ };

    /// Prints it.
    fn print<W: Write>(&self, out: &mut Out<'_, W>)
        requires { can_print self.now }
        ensures { Prints W.contents out.old out.new (text self.now) };
}

/// Writes the text of an item, and says how it went.
///
/// Where the writer takes no more, it has the first bytes of that text, and the fault says how many.
pub fn write_text<W: Write, T: Print>(out: &mut W, item: &T) -> Result<(), WriteFault>
    requires { T.can_print item.now }
    ensures { Writes (W.contents out.old) (W.contents out.new) (T.text item.now) result }
{
    write_text_in(out, item, &mut [0; ROOM])
}

/// Writes the same, where so many bytes wait to be written as the buffer has. The more there are, the fewer calls of the
/// writer.
pub fn write_text_in<W: Write, T: Print>(
    out: &mut W,
    item: &T,
    buffer: &mut [u8],
) -> Result<(), WriteFault>
    requires { T.can_print item.now }
    ensures { Writes (W.contents out.old) (W.contents out.new) (T.text item.now) result }
{
    let mut sink = Out::new(out, buffer);
    item.print(&mut sink);
    sink.finish()
}
