//! A writer that collects what it is given, counts what went out, and stops at the first fault.
ghost use Rattle.std.specs.Prelude.{◌≡◌, ◌≤◌, ◌∷◌, ◌+◌, length, take, [], true, false, OnOk, IfErr, IfSome};
ghost use Rattle.std.specs.Option.{unwrap_or};
ghost use Rattle.std.specs.Io.KnownBytes.{Appends};

use crate::buffer::{place, place_front, place_two};
use std::io::{ErrorKind, Write};
use thiserror::Error;

/// The writer failed, or took nothing, after it took `wrote` bytes of the text.
#[derive(Clone, Copy, Debug, Drop, Error)]
#[error("write failed after {wrote} bytes")]
pub struct WriteFault {
    pub wrote: u64,
}

/// A writer, the bytes that wait for it, and how many bytes it took. After a fault nothing more is written: what is put
/// then stays in the buffer, so that only who finds this full has to ask for a fault.
#[derive(Drop)]
pub struct Out<'w, W> {
    inner: &'w mut W,
    /// The bytes that wait are its first.
    buffer: &'w mut [u8],
    len: usize,
    wrote: u64,
    failed: bool,
    ghost within: { len ≤ length buffer.now },
}

/// How many of these bytes the writer took in one call: none where the call was interrupted, and no answer where it
/// failed or took nothing.
fn write_some<W: Write>(to: &mut W, bytes: &[u8]) -> Option<usize>
    ensures bound { IfSome result (λ taken. taken ≤ length bytes.now) }
    ensures sent { Appends (W.contents to.old) (W.contents to.new) (take (unwrap_or result 0) bytes.now) }
{
    match to.write(bytes) {
        Ok(0) => None,
        Ok(taken) => Some(taken),
        Err(fault) => {
            if fault.kind() == ErrorKind::Interrupted {
                Some(0)
            } else {
                None
            }
        }
    }
}

/// Writes these bytes, up to the first fault, and returns how many the writer took. A write that was interrupted is
/// made again.
fn send<W: Write>(to: &mut W, bytes: &[u8]) -> usize
    ensures bound { result ≤ length bytes.now }
    ensures sent { Appends (W.contents to.old) (W.contents to.new) (take result bytes.now) }
{
    let mut done = 0;
    // No run makes so many calls; the bound shows that this ends.
    'writes: for _ in 0..u64::MAX {
        if done >= bytes.len() {
            return done;
        }
        match write_some(to, &bytes[done..]) {
            None => return done,
            Some(taken) => done += taken,
        }
    }
    done
}

impl<'w, W: Write> Out<'w, W> {
    ghost use Rattle.text_writer.specs.Prints.{waiting, Prints};

    /// An output that has written nothing so far. What waits to be written does so in the buffer.
    pub fn new(inner: &'w mut W, buffer: &'w mut [u8]) -> Out<'w, W>
        ensures same { result.inner.ghost_name ≡ inner.entry.ghost_name }
        ensures now { result.inner.now ≡ inner.old }
        ensures empty { waiting result ≡ [] }
        ensures none { result.wrote ≡ 0 }
        ensures well { result.failed ≡ false }
    {
        Out {
            inner,
            buffer,
            len: 0,
            wrote: 0,
            failed: false,
        }
    }

    /// Prints these bytes.
    #[inline(always)]
    pub fn put(&mut self, bytes: &[u8])
        ensures { Prints W.contents self.old self.new bytes.now }
    {
        if bytes.len() <= self.room() {
            self.len = place(self.buffer, self.len, bytes);
        } else {
            self.spill(bytes);
        }
    }

    /// How many more bytes can wait.
    #[inline(always)]
    fn room(&self) -> usize
        ensures { result + length (waiting self.now) ≡ length self.now.buffer.now }
    {
        self.buffer.len() - self.len
    }

    /// Prints two bytes.
    #[inline(always)]
    pub fn put_two(&mut self, first: u8, second: u8)
        ensures { Prints W.contents self.old self.new (first ∷ second ∷ []) }
    {
        if 2 <= self.room() {
            self.len = place_two(self.buffer, self.len, first, second);
        } else {
            self.spill(&[first, second]);
        }
    }

    /// Prints the first of some bytes, so many of them.
    #[inline(always)]
    pub fn put_front(&mut self, bytes: &[u8; 16], count: usize)
        requires { count ≤ 16 }
        ensures { Prints W.contents self.old self.new (take count bytes.now) }
    {
        if 16 <= self.room() {
            self.len = place_front(self.buffer, self.len, bytes, count);
        } else {
            self.spill(&bytes[..count]);
        }
    }

    /// Writes what waits, and then keeps these bytes, or writes them too where they are many; after a fault nothing.
    #[cold]
    #[inline(never)]
    fn spill(&mut self, bytes: &[u8])
        ensures { Prints W.contents self.old self.new bytes.now }
    {
        if self.failed {
            return;
        }
        self.write_pending();
        if self.failed {
            return;
        }
        if bytes.len() <= self.room() {
            self.len = place(self.buffer, self.len, bytes);
            return;
        }
        let taken = send(self.inner, bytes);
        self.wrote = self.wrote.saturating_add(taken as u64);
        self.failed = taken < bytes.len();
    }

    /// Writes what waits.
    fn write_pending(&mut self)
        requires { self.old.failed ≡ false }
        ensures prints { Prints W.contents self.old self.new [] }
        ensures empty { self.new.failed ≡ false → waiting self.new ≡ [] }
    {
        let waiting = &self.buffer[..self.len];
        let taken = send(self.inner, waiting);
        self.wrote = self.wrote.saturating_add(taken as u64);
        self.failed = taken < waiting.len();
        self.len = 0;
    }

    /// The writer, which has what was printed but for what waits.
    pub fn writer(&self) -> &W
        ensures { result.now ≡ self.now.inner.now }
    {
        self.inner
    }

    /// How many bytes wait.
    pub fn waits(&self) -> usize
        ensures { result ≡ length (waiting self.now) }
    {
        self.len
    }

    /// Writes what waits, and says how it went.
    pub fn finish(&mut self) -> Result<(), WriteFault>
        ensures prints { Prints W.contents self.old self.new [] }
        ensures ok { OnOk result ((self.new.failed ≡ false) × (waiting self.new ≡ [])) }
        ensures err { IfErr result (λ e. (self.new.failed ≡ true) × (e.wrote ≡ self.new.wrote)) }
    {
        if self.failed {
            return Err(WriteFault { wrote: self.wrote });
        }
        self.write_pending();
        if self.failed {
            return Err(WriteFault { wrote: self.wrote });
        }
        Ok(())
    }
}
