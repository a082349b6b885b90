//! The file `tables.map` of a folder: the physical address at which each table stood.
#![tactic(auto, using(crate::proofs::Entries::entries))]

ghost use Rattle.std.specs.Prelude.{◌≡◌, ◌⊎◌, true, false, None, Some, MatchOption};
ghost use Rattle.std.specs.Prelude.{OnOk, IfOk, IfErr, map, find, option_map, length, string_bytes};
ghost use Rattle.std.specs.List.{list_any};
ghost use Rattle.std.specs.Str.{bytes_eq};
ghost use Rattle.std.specs.Str.Parse.{AllDigits, digits_value};
ghost use Rattle.acpi_folder.specs.declared.map.MapFault.TheVariants.{NoMemory};
ghost use Rattle.acpi_folder.specs.Map.{lines_of, IsLine, entry_of, shown_by, is_listed, repeats, address_in};
ghost use Rattle.acpi_folder.specs.Map.{addresses_of, HoldsMap, HasFault, RefusesMap, numbered_by};

use crate::lines::first_line;
use std::alloc::{AllocError, AllocFailed, Global};
use std::error::Error;
use std::fmt;

/// Why a map is refused, with the number of the line, counted from 1. It displays as the variant's name.
#[derive(Clone, Copy, Debug)]
pub enum MapFault {
    /// A line that isn't 16 hexadecimal digits, a space and a name.
    BadLine(usize),
    /// A name that no file has.
    NoSuchFile(usize),
    /// A name or an address that an earlier line has.
    Again(usize),
    /// A growth was refused.
    NoMemory,
}

/// The variant's name.
impl fmt::Display for MapFault {
    ghost use Rattle.std.specs.Prelude.{Some};
    ghost use Rattle.acpi_folder.specs.Faults.{map_word};

    ghost output = { λ fault. Some (map_word fault) };

    fn fmt<W: fmt::Write>(&self, f: &mut fmt::Formatter<W>) -> fmt::Result {
        match self {
            MapFault::BadLine(_) => f.write_str("BadLine"),
            MapFault::NoSuchFile(_) => f.write_str("NoSuchFile"),
            MapFault::Again(_) => f.write_str("Again"),
            MapFault::NoMemory => f.write_str("NoMemory"),
        }
    }
}

impl Error for MapFault {}

impl MapFault {
    /// The number of the line that has the fault, counted from 1, and none for `NoMemory`.
    pub fn line(&self) -> Option<usize>
        ensures { result ≡ numbered_by self.now }
    {
        match self {
            MapFault::BadLine(number) | MapFault::NoSuchFile(number) | MapFault::Again(number) => {
                Some(*number)
            }
            MapFault::NoMemory => None,
        }
    }
}

impl From<AllocError> for MapFault {
    ghost from_gives = { λ _ fault. fault ≡ NoMemory };

    fn from(_error: AllocError) -> MapFault {
        MapFault::NoMemory
    }
}

impl<T: Drop> From<AllocFailed<T>> for MapFault {
    ghost from_gives = { λ _ fault. fault ≡ NoMemory };

    fn from(_error: AllocFailed<T>) -> MapFault {
        MapFault::NoMemory
    }
}

/// What a line says: the file of this name stood at this address.
#[derive(Clone, Copy)]
struct Line<'a> {
    address: u64,
    name: &'a [u8],
}

/// The address of each of the files of these names, as a map's text gives it, and none for a file that no line names.
///
/// A line is 16 hexadecimal digits of either case, one space and the name of a file. The byte 0A ends a line; the last
/// may go without. No name and no address comes twice.
///
/// # Errors
/// The first line that isn't so decides, by its number from 1: `MapFault::BadLine` where it hasn't this form,
/// `MapFault::NoSuchFile` where its name is empty or isn't among the names, `MapFault::Again` where an earlier line has
/// its name or its address, the first of these that holds. `MapFault::NoMemory` where a growth was refused.
pub fn parse_map(alloc: Global, text: &[u8], names: &[String]) -> Result<Vec<Option<u64>>, MapFault>
    ensures map { OnOk result (HoldsMap (map string_bytes names.now) text.now) }
    ensures addresses { IfOk result (λ addresses. addresses.items
        ≡ addresses_of (map string_bytes names.now) text.now) }

    ensures refused { IfErr result (λ fault. (fault ≡ NoMemory) ⊎
        RefusesMap (map string_bytes names.now) text.now fault) }
    ensures none { IfErr result (λ fault. (fault ≡ NoMemory) ⊎
        (¬ HoldsMap (map string_bytes names.now) text.now)) }
{
    let lines = read_lines(alloc, text, names)?;
    let addresses = addresses_in(alloc, &lines, names)?;
    Ok(addresses)
}

/// For each name the address of the line that has it.
fn addresses_in(
    alloc: Global,
    lines: &[Line<'_>],
    names: &[String],
) -> Result<Vec<Option<u64>>, AllocError>
    ensures { IfOk result (λ addresses. addresses.items ≡ map (λ name. option_map (λ line. line.address) (find
        (λ line. bytes_eq line.name.now (string_bytes name)) lines.now)) names.now) }
{
    names
        .iter()
        .map(|name| address_in(lines, name.as_bytes()))
        .collect(alloc)
}

/// What the lines of a map say, in their order.
fn read_lines<'a>(
    alloc: Global,
    text: &'a [u8],
    names: &[String],
) -> Result<Vec<Line<'a>>, MapFault>
    ensures map { OnOk result (HoldsMap (map string_bytes names.now) text.now) }
    ensures lines { IfOk result (λ lines. map shown_by lines.items ≡ map entry_of (lines_of text.now)) }
    ensures refused { IfErr result (λ fault. (fault ≡ NoMemory) ⊎
        RefusesMap (map string_bytes names.now) text.now fault) }
{
    let mut lines: Vec<Line<'a>> = Vec::new(alloc);
    let mut rest = text;
    while !rest.is_empty() {
        let (bytes, others) = first_line(rest);
        let line = check_line(bytes, lines.len() + 1, names, &lines)?;
        lines.push(line)?;
        rest = others;
    }
    Ok(lines)
}

/// What the line of this number says, behind these.
fn check_line<'a>(
    bytes: &'a [u8],
    number: usize,
    names: &[String],
    earlier: &[Line<'_>],
) -> Result<Line<'a>, MapFault>
    ensures form { OnOk result (IsLine bytes.now) }
    ensures listed { OnOk result (is_listed (map string_bytes names.now) (entry_of bytes.now).name ≡ true) }
    ensures fresh { OnOk result (list_any (repeats (entry_of bytes.now)) (map shown_by earlier.now) ≡ false) }
    ensures entry { IfOk result (λ line. shown_by line ≡ entry_of bytes.now) }

    ensures numbered { IfErr result (λ fault. numbered_by fault ≡ Some number) }
    ensures refused { IfErr result (HasFault (map string_bytes names.now) (map shown_by earlier.now) bytes.now) }
{
    let Some(line) = Line::read(bytes) else {
        return Err(MapFault::BadLine(number));
    };
    if !is_listed(names, line.name) {
        return Err(MapFault::NoSuchFile(number));
    }
    if is_repeated(&line, earlier) {
        return Err(MapFault::Again(number));
    }
    Ok(line)
}

/// Whether an earlier line has the same name, or the same address.
fn is_repeated(line: &Line<'_>, earlier: &[Line<'_>]) -> bool
    ensures { result ≡ list_any (λ other. repeats (shown_by line.now) (shown_by other)) earlier.now }
{
    earlier.iter().any(|other| line.repeats(other))
}

impl<'a> Line<'a> {
    /// What a line says, if it has the form.
    fn read(bytes: &'a [u8]) -> Option<Line<'a>>
        ensures { MatchOption result (¬ IsLine bytes.now) (λ line. IsLine bytes.now ×
            (shown_by line ≡ entry_of bytes.now)) }
    {
        if bytes.len() < 17 || bytes[16] != b' ' {
            return None;
        }
        Some(Line {
            address: hex_number(&bytes[..16])?,
            name: &bytes[17..],
        })
    }

    /// Whether both have the same name, or the same address.
    fn repeats(&self, other: &Line<'_>) -> bool
        ensures { result ≡ repeats (shown_by self.now) (shown_by other.now) }
    {
        self.name == other.name || self.address == other.address
    }
}

/// The number that 16 hexadecimal digits spell.
fn hex_number(digits: &[u8]) -> Option<u64>
    requires { length digits.now ≡ 16 }
    ensures { MatchOption result (¬ AllDigits 16 digits.now)
        (λ number. AllDigits 16 digits.now × (number ≡ digits_value 16 digits.now)) }
{
    let mut number = 0;
    for digit in digits {
        number = number * 16 + u64::from(char::from(*digit).to_digit(16)?);
    }
    Some(number)
}

/// Whether a name is a file's.
fn is_listed(names: &[String], name: &[u8]) -> bool
    ensures { result ≡ is_listed (map string_bytes names.now) name.now }
{
    !name.is_empty() && is_among(names, name)
}

fn is_among(names: &[String], name: &[u8]) -> bool
    ensures { result ≡ list_any (λ other. bytes_eq name.now (string_bytes other)) names.now }
{
    names.iter().any(|other| name == other.as_bytes())
}

/// The address of the line that has this name.
fn address_in(lines: &[Line<'_>], name: &[u8]) -> Option<u64>
    ensures { result ≡ option_map (λ line. line.address)
        (find (λ line. bytes_eq line.name.now name.now) lines.now) }
{
    line_named(lines, name).map(|line| line.address)
}

/// The first line that has this name.
fn line_named<'a>(lines: &[Line<'a>], name: &[u8]) -> Option<Line<'a>>
    ensures { result ≡ find (λ line. bytes_eq line.name.now name.now) lines.now }
{
    lines.iter().copied().find(|line| line.name == name)
}
