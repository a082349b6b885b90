//! A text in memory of a bounded length.
ghost use Rattle.std.specs.Prelude.{◌≡◌, [], Some, length};
ghost use Rattle.std.specs.Io.{WritesAtMost};
ghost use Rattle.std.specs.Io.KnownBytes.{Keeps, WriteAppends};

use std::alloc::{AllocError, Global};
use std::io::{self, Write};

/// A text in memory that takes so many more bytes.
#[derive(Drop)]
pub(crate) struct Bounded {
    text: Vec<u8>,
    left: usize,
}

impl Bounded {
    /// An empty text that takes so many bytes.
    pub(crate) fn new(alloc: Global, left: usize) -> Bounded
        ensures { result.text.items ≡ [] }
    {
        Bounded {
            text: Vec::new(alloc),
            left,
        }
    }

    /// How many bytes it has.
    pub(crate) fn len(&self) -> usize
        ensures { result ≡ length self.now.text.items }
    {
        self.text.len()
    }

    /// The text, in as much memory as it needs.
    pub(crate) fn into_text(self) -> Vec<u8>
        ensures { result.items ≡ self.text.items }
    {
        let mut text = self.text;
        text.shrink_to_fit();
        text
    }
}

/// `write` appends all the bytes, or fails where they are more than the text takes, or where there is no memory.
impl Write for Bounded {
    ghost contents = { λ b. Some b.text.items };

    fn write(&mut self, bytes: &[u8]) -> io::Result<usize>
        ensures bound { WritesAtMost result bytes.now }
        ensures bytes { WriteAppends (Some self.old.text.items) (Some self.new.text.items) result bytes.now }
    {
        match self.left.checked_sub(bytes.len()) {
            None => Err(io::Error::from(AllocError)),
            Some(left) => {
                self.left = left;
                self.text.write(bytes)
            }
        }
    }

    fn flush(&mut self) -> io::Result<()>
        ensures bytes { Keeps (Some self.old.text.items) (Some self.new.text.items) }
    {
        Ok(())
    }
}
