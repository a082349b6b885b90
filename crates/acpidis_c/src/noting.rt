//! A writer into memory that notes whether a growth was refused.
ghost use Rattle.std.specs.Prelude.{◌≡◌, Some, [], false};

use std::alloc::Global;
use std::io;
use std::io::Write;

/// What was written, and whether a growth was refused: then something is missing.
#[derive(Drop)]
pub(crate) struct Noting {
    pub(crate) bytes: Vec<u8>,
    pub(crate) refused: bool,
}

impl Noting {
    /// Nothing was written yet.
    pub(crate) fn new(alloc: Global) -> Noting
        ensures { (result.bytes.items ≡ []) × (result.refused ≡ false) }
    {
        Noting {
            bytes: Vec::new(alloc),
            refused: false,
        }
    }
}

impl Write for Noting {
    ghost contents = { λ noting. Some noting.bytes.items };

    fn write(&mut self, bytes: &[u8]) -> io::Result<usize> {
        let written = self.bytes.write(bytes);
        if written.is_err() {
            self.refused = true;
        }
        written
    }

    fn flush(&mut self) -> io::Result<()> {
        Ok(())
    }
}
