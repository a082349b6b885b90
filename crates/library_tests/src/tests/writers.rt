//! Runs and listings whose writer fails, or takes few bytes a call.
use super::fixtures::{OfListing, Want, holds_of_listing, status_of};
use acpi_tables::Dump;
use aml_pool::FreeGate;
use aml_text::{Listing, write_listing};
use std::alloc::{AllocError, Global};
use std::io;
use std::panic::Expect;
use std::sync::Wait;
use std::thread::Threads;

/// The DSDT of a method that returns its argument.
const METHOD: [u8; 45] =
    *b"DSDT\x2D\x00\x00\x00\x02\x48TEST  EXAMPLE \x01\x00\x00\x00TEST\x01\x00\x00\x00\x14\x08FOO_\x01\xA4\x68";

/// The same of a method whose body calls what no table has.
const UNREAD: [u8; 48] =
    *b"DSDT\x30\x00\x00\x00\x02\x48TEST  EXAMPLE \x01\x00\x00\x00TEST\x01\x00\x00\x00\x14\x0BFOO_\x00\xA4BBBB";

/// The text of the first.
const TEXT: &str = "\
Table \"a\" \"DSDT\" Length 45 Revision 2 Oem \"TEST  \" \"EXAMPLE \" 00000001 Creator \"TEST\" 00000001
Namespace 1
  \\FOO_ Method 1
DefinitionBlock (\"a\") {
  Method (FOO_, 1, NotSerialized, 0) {
    Return (Arg0)
  }
}
";

/// A writer that takes so many bytes, some a call, and then fails.
#[derive(Drop)]
struct Slow {
    taken: Vec<u8>,
    room: usize,
    a_call: usize,
    /// Whether every other call is interrupted, the first among them.
    interrupts: bool,
    /// Whether the last call was.
    interrupted: bool,
}

impl Slow {
    fn new(alloc: Global, room: usize, a_call: usize) -> Slow {
        Slow {
            taken: Vec::new(alloc),
            room,
            a_call,
            interrupts: false,
            interrupted: false,
        }
    }
}

impl io::Write for Slow {
    fn write(&mut self, bytes: &[u8]) -> io::Result<usize> {
        if self.room == 0 {
            return Err(io::Error::from(AllocError));
        }
        self.interrupted = self.interrupts && !self.interrupted;
        if self.interrupted {
            return Err(io::Error::from(io::ErrorKind::Interrupted));
        }
        let count = self.room.min(self.a_call).min(bytes.len());
        self.room = self.room.saturating_sub(count);
        self.taken.write(&bytes[..count])
    }

    fn flush(&mut self) -> io::Result<()> {
        Ok(())
    }
}

/// A set of this dump.
fn set(alloc: Global, bytes: &[u8]) -> Result<[Dump; 1], AllocError> {
    Ok([Dump {
        name: String::from_str(alloc, "a")?,
        address: None,
        bytes: bytes.to_vec(alloc)?,
    }])
}

/// Whether a run to this writer has this status and this error line.
fn has_run<T: Threads + Wait + Sync>(
    threads: &T,
    alloc: Global,
    out: &mut Slow,
    status: u8,
    line: &[u8],
) -> Result<bool, AllocError> {
    let dumps = set(alloc, &METHOD)?;
    let mut error = Vec::new(alloc);
    let seen = status_of(threads, alloc, &dumps, 1, &FreeGate, out, &mut error);
    Ok(seen == status && error.as_slice() == line)
}

/// Whether a run fails behind so many bytes, which are the first of the text.
fn is_cut<T: Threads + Wait + Sync>(
    threads: &T,
    alloc: Global,
    room: usize,
) -> Result<bool, AllocError> {
    let line = format!(in alloc; "acpidis: write failed after {room} bytes\n")?;
    let mut out = Slow::new(alloc, room, usize::MAX);
    let failed = has_run(threads, alloc, &mut out, 4, line.as_bytes())?;
    Ok(failed && Some(out.taken.as_slice()) == TEXT.as_bytes().get(..room))
}

#[test]
fn a_writer_that_fails_has_the_first_bytes(rt: HostRuntime) {
    for room in 0..TEXT.len() {
        assert!(rt; matches!(is_cut(&rt, rt.alloc(), room), Ok(true)));
    }
}

#[test]
fn a_writer_that_takes_one_byte_a_call_and_is_interrupted_has_all(rt: HostRuntime) {
    let mut out = Slow::new(rt.alloc(), usize::MAX, 1);
    out.interrupts = true;
    assert!(rt; matches!(has_run(&rt, rt.alloc(), &mut out, 0, b""), Ok(true)));
    assert!(rt; out.taken.as_slice() == TEXT.as_bytes());
}

#[test]
fn a_writer_that_takes_nothing_is_a_fault(rt: HostRuntime) {
    let mut out = Slow::new(rt.alloc(), usize::MAX, 0);
    let line = b"acpidis: write failed after 0 bytes\n";
    assert!(rt; matches!(has_run(&rt, rt.alloc(), &mut out, 4, line), Ok(true)));
}

/// That a writer of any room has all of a listing, or its first bytes.
struct Cuts;

impl OfListing for Cuts {
    fn holds(&self, alloc: Global, listing: &mut Listing<'_>) -> Result<bool, Want> {
        for room in 0..=TEXT.len() {
            let mut out = Slow::new(alloc, room, 7);
            let whole = match write_listing(&mut out, listing) {
                Ok(()) => room == TEXT.len(),
                Err(fault) => room < TEXT.len() && fault.wrote == room as u64,
            };
            if !whole || Some(out.taken.as_slice()) != TEXT.as_bytes().get(..room) {
                return Ok(false);
            }
        }
        Ok(true)
    }
}

#[test]
fn a_listing_is_written_whole_or_its_first_bytes(rt: HostRuntime) {
    let dumps = set(rt.alloc(), &METHOD).expect(&rt, "no dumps");
    let answer = holds_of_listing(&rt, rt.alloc(), &dumps, 1, &FreeGate, &Cuts);
    assert!(rt; matches!(answer, Ok(true)));
}

/// The status of a run to a writer of so much room, whose standard error is this one.
fn status_beside<T: Threads + Wait + Sync>(
    threads: &T,
    alloc: Global,
    dumps: &[Dump],
    room: usize,
    error: &mut Slow,
) -> u8 {
    let mut out = Slow::new(alloc, room, usize::MAX);
    status_of(threads, alloc, dumps, 1, &FreeGate, &mut out, error)
}

/// Whether a run has this status where standard error takes so many bytes, and these are the first of this line.
fn has_status_at<T: Threads + Wait + Sync>(
    threads: &T,
    alloc: Global,
    dumps: &[Dump],
    room: usize,
    status: u8,
    line: &[u8],
    taken: usize,
) -> bool {
    let mut error = Slow::new(alloc, taken, 7);
    let seen = status_beside(threads, alloc, dumps, room, &mut error);
    seen == status && Some(error.taken.as_slice()) == line.get(..taken)
}

/// Whether a run over this dump has this status wherever standard error ends, and that takes the first bytes of this
/// line.
fn has_status<T: Threads + Wait + Sync>(
    threads: &T,
    alloc: Global,
    dump: &[u8],
    room: usize,
    status: u8,
    line: &str,
) -> Result<bool, AllocError> {
    let dumps = set(alloc, dump)?;
    let line = line.as_bytes();
    let mut same = true;
    for taken in 0..=line.len() {
        same = same && has_status_at(threads, alloc, &dumps, room, status, line, taken);
    }
    Ok(same)
}

/// A set that is refused, one with a body that can't be read, and one whose text isn't taken.
#[test]
fn an_error_line_that_fails_changes_no_status(rt: HostRuntime) {
    let line = "acpidis: table \"a\": Short\n";
    assert!(rt;
        matches!(
            has_status(&rt, rt.alloc(), b"", usize::MAX, 1, line),
            Ok(true)
        )
    );
    let line = "acpidis: body \\FOO_: UnknownName at 1\n";
    assert!(rt;
        matches!(
            has_status(&rt, rt.alloc(), &UNREAD, usize::MAX, 3, line),
            Ok(true)
        )
    );
    let line = "acpidis: write failed after 10 bytes\n";
    assert!(rt; matches!(has_status(&rt, rt.alloc(), &METHOD, 10, 4, line), Ok(true)));
}
