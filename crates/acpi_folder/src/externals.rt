//! The file of the counts that are given: how many arguments methods take that no table declares.
ghost use Rattle.std.specs.Prelude.{◌≡◌, ◌⊎◌, List, MatchOption, IfOk, IfErr};
ghost use Rattle.acpi_folder.specs.declared.externals.ExternalsFault.TheVariants.{NoMemory};
ghost use Rattle.acpi_folder.specs.Map.{lines_of};
ghost use Rattle.acpi_folder.specs.Externals.{AreGiven, AreGiving, Gives, IsGiving, IsPrinted};
ghost use Rattle.acpi_folder.specs.Externals.{BeginsWith, BeginsWithNone, RefusesExternals};

use crate::lines::first_line;
use aml_names::{ArgumentCount, CodeFault, Path, Seg, segment_of};
use std::alloc::{AllocError, AllocFailed, Global};
use std::error::Error;
use std::fmt;

/// Why a file of counts is refused. It displays as the variant's name.
#[derive(Clone, Copy, Debug)]
pub enum ExternalsFault {
    /// A line, by its number from 1, that isn't a path, a space and a digit from 0 to 7.
    BadLine(usize),
    /// A growth was refused.
    NoMemory,
}

/// The variant's name.
impl fmt::Display for ExternalsFault {
    ghost use Rattle.std.specs.Prelude.{Some};
    ghost use Rattle.acpi_folder.specs.Faults.{counts_word};

    ghost output = { λ fault. Some (counts_word fault) };

    fn fmt<W: fmt::Write>(&self, f: &mut fmt::Formatter<W>) -> fmt::Result {
        match self {
            ExternalsFault::BadLine(_) => f.write_str("BadLine"),
            ExternalsFault::NoMemory => f.write_str("NoMemory"),
        }
    }
}

impl Error for ExternalsFault {}

impl From<AllocError> for ExternalsFault {
    ghost from_gives = { λ _ fault. fault ≡ NoMemory };

    fn from(_error: AllocError) -> ExternalsFault {
        ExternalsFault::NoMemory
    }
}

impl<T: Drop> From<AllocFailed<T>> for ExternalsFault {
    ghost from_gives = { λ _ fault. fault ≡ NoMemory };

    fn from(_error: AllocFailed<T>) -> ExternalsFault {
        ExternalsFault::NoMemory
    }
}

/// The path and the number of arguments of each line of a file of counts, in their order.
///
/// A line is a path as the listing prints it (`\` and its segments, joined by `.`), one space and a digit from 0 to 7:
/// as many arguments as a method takes at most (ACPI 6.5, 20.2.5.2). The path isn't the root, and each segment is a
/// NameSeg (20.2.2). The byte 0A ends a line; the last may go without. A path may come twice, and an empty text gives
/// nothing.
///
/// # Errors
/// `ExternalsFault::BadLine` with the number of the first line, from 1, that hasn't this form.
/// `ExternalsFault::NoMemory` where a growth was refused.
pub fn parse_externals(
    alloc: Global,
    text: &[u8],
) -> Result<Vec<(Path, ArgumentCount)>, ExternalsFault>
    ensures lines { IfOk result (λ given. AreGiven (lines_of text.now) given.items) }

    ensures refused { IfErr result (λ fault. (fault ≡ NoMemory) ⊎ RefusesExternals text.now fault) }
    ensures none { IfErr result (λ fault. (fault ≡ NoMemory) ⊎ (¬ AreGiving (lines_of text.now))) }
{
    let mut given = Vec::new(alloc);
    let mut rest = text;
    while !rest.is_empty() {
        let (line, others) = first_line(rest);
        let Some(pair) = read_given(alloc, line)? else {
            return Err(ExternalsFault::BadLine(given.len() + 1));
        };
        given.push(pair)?;
        rest = others;
    }
    Ok(given)
}

/// The path and the count that a line gives, if it has the form.
fn read_given(alloc: Global, line: &[u8]) -> Result<Option<(Path, ArgumentCount)>, ExternalsFault>
    ensures given { IfOk result (λ found. MatchOption found (¬ IsGiving line.now) (Gives line.now)) }
    ensures memory { IfErr result (λ fault. fault ≡ NoMemory) }
{
    let [text @ .., space, digit] = line else {
        return Ok(None);
    };
    if *space != b' ' || *digit < b'0' {
        return Ok(None);
    }
    let Some(count) = ArgumentCount::new(*digit - b'0') else {
        return Ok(None);
    };
    let Some(path) = read_path(alloc, text)? else {
        return Ok(None);
    };
    Ok(Some((path, count)))
}

/// The path that is printed so, if it is one below the root.
fn read_path(alloc: Global, text: &[u8]) -> Result<Option<Path>, ExternalsFault>
    ensures path { IfOk result (λ found. MatchOption found ((path : List Seg) → ¬ IsPrinted text.now path)
        (IsPrinted text.now)) }
    ensures memory { IfErr result (λ fault. fault ≡ NoMemory) }
{
    let mut segs = Vec::new(alloc);
    let mut rest = text;
    let mut lead = b'\\';
    while !rest.is_empty() {
        let Some((seg, behind)) = read_seg(lead, rest)? else {
            return Ok(None);
        };
        segs.push(seg)?;
        rest = behind;
        lead = b'.';
    }
    if segs.is_empty() {
        return Ok(None);
    }
    Ok(Some(Path::from_segs(segs)))
}

/// The NameSeg behind this byte, and what is left, if the bytes begin so.
fn read_seg(lead: u8, bytes: &[u8]) -> Result<Option<(Seg, &[u8])>, ExternalsFault>
    ensures segment { IfOk result (λ found. MatchOption found (BeginsWithNone lead bytes.now)
        (λ read. BeginsWith lead bytes.now read.0 read.1.now)) }
    ensures memory { IfErr result (λ fault. fault ≡ NoMemory) }
{
    match bytes {
        [first, others @ ..] if *first == lead => match segment_of(0, others) {
            Ok(read) => Ok(Some(read)),
            Err(fault) => match fault {
                CodeFault::NoMemory => Err(ExternalsFault::NoMemory),
                _ => Ok(None),
            },
        },
        _ => Ok(None),
    }
}
