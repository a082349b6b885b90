//! The file of argument counts that the user gives.
ghost use Rattle.std.specs.Prelude.{◌≤◌, ℕ, List, IfOk, length};
ghost use Rattle.acpi_folder.specs.Externals.{AreGiven};
ghost use Rattle.acpi_folder.specs.Map.{lines_of};

use acpi_folder::{ExternalsFault, Quoted, parse_externals};
use aml_names::{ArgumentCount, Path};
use std::alloc::AllocError;
use std::io::Read;
use std::{fs, io};
use thiserror::Error;

/// The greatest number of bytes of such a file.
const MAX_BYTES: usize = 16_777_216;

/// One byte more is read, so that a longer file is seen.
const READ_LIMIT: u64 = 16_777_217;

/// Why a file of argument counts isn't taken. It displays as the program prints it.
#[derive(Debug, Drop, Error)]
pub enum FileFault<'a> {
    /// The file can't be read, or has more than 16,777,216 bytes.
    #[error("cannot read {}", Quoted(*.0))]
    File(&'a str),
    /// A line has not the form, by its number from 1.
    #[error("externals line {0}: BadLine")]
    BadLine(usize),
    /// A growth was refused.
    #[error("NoMemory")]
    NoMemory,
}

impl<'a> From<AllocError> for FileFault<'a> {
    fn from(_error: AllocError) -> FileFault<'a> {
        FileFault::NoMemory
    }
}

impl<'a> From<ExternalsFault> for FileFault<'a> {
    fn from(fault: ExternalsFault) -> FileFault<'a> {
        match fault {
            ExternalsFault::BadLine(number) => FileFault::BadLine(number),
            ExternalsFault::NoMemory => FileFault::NoMemory,
        }
    }
}

/// The paths and counts of the lines of a file, in their order.
pub fn read_externals<'a>(
    rt: &HostRuntime,
    file: &'a str,
) -> Result<Vec<(Path, ArgumentCount)>, FileFault<'a>>
    // They are those of a text, which isn't too long.
    ensures { IfOk result (λ given. (text : List ℕ) × (length text ≤ 16777216)
        × AreGiven (lines_of text) given.items) }
{
    let text = read_text(rt, file)?;
    Ok(parse_externals(rt.alloc(), &text)?)
}

/// The bytes of a file that isn't too long.
fn read_text<'a>(rt: &HostRuntime, file: &'a str) -> Result<Vec<u8>, FileFault<'a>>
    ensures { IfOk result (λ text. length text.items ≤ 16777216) }
{
    match read_file(rt, file) {
        Ok(text) if text.len() <= MAX_BYTES => Ok(text),
        Err(error) if error.kind() == io::ErrorKind::OutOfMemory => Err(FileFault::NoMemory),
        _ => Err(FileFault::File(file)),
    }
}

fn read_file(rt: &HostRuntime, path: &str) -> io::Result<Vec<u8>> {
    let mut bytes = Vec::new(rt.alloc());
    let file = fs::open(rt, path)?;
    file.take(READ_LIMIT).read_to_end(&mut bytes)?;
    Ok(bytes)
}
