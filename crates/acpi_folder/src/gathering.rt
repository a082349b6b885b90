//! The dumps of a folder: its files, and the addresses that its map gives them.
#![tactic(auto, using(crate::proofs::Gathered::unmapped))]

ghost use Rattle.std.specs.Prelude.{◌≡◌, ◌⊎◌, true, not, None, map, filter, zip, string_bytes};
ghost use Rattle.std.specs.Prelude.{string_cmp, IsPermutation, IsSorted, IfOk, IfErr};
ghost use Rattle.std.specs.List.{list_any};
ghost use Rattle.acpi_folder.specs.declared.gathering.GatherFault.TheVariants.{NoMemory};
ghost use Rattle.acpi_folder.specs.Folders.{IsWithin, Reads, IsListing, AreRead, AreAddresses};
ghost use Rattle.acpi_folder.specs.Folders.{AreGathered, RefusesFolder, StopsBy, FailsAt, FailsAtMap};
ghost use Rattle.acpi_folder.specs.Folders.{is_map as is_map_name, read_limit};

use crate::folder::{Folder, FolderFault};
use crate::map::{MapFault, parse_map};
use crate::quoted::Quoted;
use acpi_tables::{Dump, MAX_DUMP_BYTES, MAX_DUMPS};
use std::alloc::{AllocError, AllocFailed, Global};
use std::error::Error;
use std::fmt;

/// The file that says at which address each table stood. It is no dump.
const MAP_NAME: &str = "tables.map";

/// The greatest number of bytes of a map.
const MAX_MAP_BYTES: usize = MAX_DUMP_BYTES;

/// One byte more of a file is read than a dump may have, so that a longer one is seen.
const READ_LIMIT: u64 = MAX_DUMP_BYTES as u64 + 1;

/// Why the dumps of a folder can't be gathered. It displays as the program prints it.
#[derive(Debug, Drop)]
pub enum GatherFault {
    /// The folder can't be listed.
    Folder,
    /// A file that can't be read, or a map of more than 16,777,216 bytes.
    File(String),
    /// A map that is refused.
    Map(MapFault),
    /// More than 512 dumps.
    TooManyTables,
    /// A growth was refused.
    NoMemory,
}

/// What the program prints of it.
impl fmt::Display for GatherFault {
    ghost use Rattle.std.specs.Prelude.{Some};
    ghost use Rattle.acpi_folder.specs.Faults.{gather_text};

    ghost output = { λ fault. Some (gather_text fault) };

    fn fmt<W: fmt::Write>(&self, f: &mut fmt::Formatter<W>) -> fmt::Result {
        match self {
            GatherFault::Folder => f.write_str("cannot read folder"),
            GatherFault::File(name) => {
                let name = Quoted(name.as_str());
                write!(f, "cannot read {name}")
            }
            GatherFault::Map(fault) => {
                let line = MapLine(*fault);
                write!(f, "{line}")
            }
            GatherFault::TooManyTables => f.write_str("TooManyTables"),
            GatherFault::NoMemory => f.write_str("NoMemory"),
        }
    }
}

impl Error for GatherFault {}

impl From<AllocError> for GatherFault {
    ghost from_gives = { λ _ fault. fault ≡ NoMemory };

    fn from(_error: AllocError) -> GatherFault {
        GatherFault::NoMemory
    }
}

impl<T: Drop> From<AllocFailed<T>> for GatherFault {
    ghost from_gives = { λ _ fault. fault ≡ NoMemory };

    fn from(_error: AllocFailed<T>) -> GatherFault {
        GatherFault::NoMemory
    }
}

/// Displays as the line of the map that is refused, and why.
#[derive(Clone, Copy)]
struct MapLine(MapFault);

impl fmt::Display for MapLine {
    ghost use Rattle.std.specs.Prelude.{Some};
    ghost use Rattle.acpi_folder.specs.Faults.{map_text};

    ghost output = { λ line. Some (map_text line.0) };

    fn fmt<W: fmt::Write>(&self, f: &mut fmt::Formatter<W>) -> fmt::Result {
        let fault = self.0;
        match fault.line() {
            Some(number) => write!(f, "{MAP_NAME} line {number}: {fault}"),
            None => write!(f, "{fault}"),
        }
    }
}

/// The names of a folder's files.
#[derive(Drop)]
struct Listing {
    /// Those of the dumps, in the order of their bytes.
    dumps: Vec<String>,
    has_map: bool,
}

/// The dumps of this folder, ordered by name as bytes, each with the address that the map gives it.
///
/// They are its files except `tables.map`, each with its first 16,777,217 bytes.
///
/// # Errors
/// The first fault that is met: the listing (`GatherFault::Folder`), the number of dumps
/// (`GatherFault::TooManyTables`), the files in their order (`GatherFault::File`), the map (`GatherFault::File`,
/// `GatherFault::Map`). `GatherFault::NoMemory` where a growth was refused.
pub fn gather<F: Folder>(alloc: Global, folder: &mut F) -> Result<Vec<Dump>, GatherFault>
    ensures gathered { IfOk result (λ dumps. AreGathered (F.answers folder.old) dumps.items) }
    ensures refused { IfErr result (RefusesFolder (F.answers folder.old)) }
    ensures within { IsWithin (F.answers folder.new) (F.answers folder.old) }
{
    let listing = list_files(folder)?;
    if listing.dumps.len() > MAX_DUMPS {
        return Err(GatherFault::TooManyTables);
    }
    let files = read_files(alloc, folder, &listing.dumps)?;
    let addresses = find_addresses(alloc, folder, &listing)?;
    let dumps = dumps_of(alloc, listing.dumps, files, addresses)?;
    Ok(dumps)
}

/// The names of the folder's dumps, and whether it has a map.
fn list_files<F: Folder>(folder: &mut F) -> Result<Listing, GatherFault>
    ensures listing { IfOk result (λ listing. IsListing (F.answers folder.old)
        (map string_bytes listing.dumps.items) listing.has_map) }
    ensures refused { IfErr result (RefusesFolder (F.answers folder.old)) }
    ensures within { IsWithin (F.answers folder.new) (F.answers folder.old) }
{
    let names = match folder.list() {
        Ok(names) => names,
        Err(FolderFault::Failed) => return Err(GatherFault::Folder),
        Err(FolderFault::NoMemory) => return Err(GatherFault::NoMemory),
    };
    let has_map = has_map(&names);
    let dumps = dumps_among(names)?;
    Ok(Listing { dumps, has_map })
}

/// Whether the map is among the files of these names.
fn has_map(names: &[String]) -> bool
    ensures { result ≡ list_any (λ name. is_map_name (string_bytes name)) names.now }
{
    names.iter().any(is_map)
}

/// The names of the dumps among these, in the order of their bytes.
fn dumps_among(names: Vec<String>) -> Result<Vec<String>, AllocError>
    ensures all { IfOk result (λ dumps. IsPermutation
        (filter (λ name. not (is_map_name (string_bytes name))) names.items) dumps.items) }
    ensures ordered { IfOk result (λ dumps. IsSorted string_cmp dumps.items) }
{
    let mut dumps = names;
    dumps.retain(|name| !is_map(name));
    dumps.sort()?;
    Ok(dumps)
}

/// Whether this is the map's name.
fn is_map(name: &String) -> bool
    ensures { result ≡ is_map_name (string_bytes name.now) }
{
    name.as_str() == MAP_NAME
}

/// For each of the files of these names no address.
fn no_addresses(alloc: Global, names: &[String]) -> Result<Vec<Option<u64>>, AllocError>
    ensures { IfOk result (λ addresses. addresses.items ≡ map (λ name. None) names.now) }
{
    names.iter().map(|_name| None).collect(alloc)
}

/// The bytes of the files of these names.
fn read_files<F: Folder>(
    alloc: Global,
    folder: &mut F,
    names: &[String],
) -> Result<Vec<Vec<u8>>, GatherFault>
    ensures read { IfOk result (λ files. AreRead (F.answers folder.old) (map string_bytes names.now)
        (map (λ file. file.items) files.items)) }
    ensures stops { IfErr result (StopsBy (F.answers folder.old) (map string_bytes names.now)) }
    ensures within { IsWithin (F.answers folder.new) (F.answers folder.old) }
{
    let mut files = Vec::new(alloc);
    for name in names {
        match read_file(alloc, folder, name.as_str()) {
            Ok(file) => files.push(file)?,
            Err(fault) => return Err(fault),
        }
    }
    Ok(files)
}

/// The first bytes of the file of this name.
fn read_file<F: Folder>(alloc: Global, folder: &mut F, name: &str) -> Result<Vec<u8>, GatherFault>
    ensures read { IfOk result (λ file. Reads (F.answers folder.old) name.now read_limit file.items) }
    ensures fails { IfErr result (FailsAt (F.answers folder.old) name.now) }
    ensures within { IsWithin (F.answers folder.new) (F.answers folder.old) }
{
    match folder.read(name, READ_LIMIT) {
        Ok(file) => Ok(file),
        Err(FolderFault::Failed) => Err(GatherFault::File(String::from_str(alloc, name)?)),
        Err(FolderFault::NoMemory) => Err(GatherFault::NoMemory),
    }
}

/// The addresses of the dumps that are listed, if there is a map.
fn find_addresses<F: Folder>(
    alloc: Global,
    folder: &mut F,
    listing: &Listing,
) -> Result<Vec<Option<u64>>, GatherFault>
    ensures addresses { IfOk result (λ addresses. AreAddresses (F.answers folder.old) listing.now.has_map
        (map string_bytes listing.now.dumps.items) addresses.items) }
    ensures fails { IfErr result (λ fault. (fault ≡ NoMemory) ⊎ ((listing.now.has_map ≡ true) ×
        FailsAtMap (F.answers folder.old) (map string_bytes listing.now.dumps.items) fault)) }
    ensures within { IsWithin (F.answers folder.new) (F.answers folder.old) }
{
    if listing.has_map {
        read_map(alloc, folder, &listing.dumps)
    } else {
        Ok(no_addresses(alloc, &listing.dumps)?)
    }
}

/// The address of each of the files of these names, by the folder's map.
fn read_map<F: Folder>(
    alloc: Global,
    folder: &mut F,
    names: &[String],
) -> Result<Vec<Option<u64>>, GatherFault>
    ensures addresses { IfOk result (λ addresses. AreAddresses (F.answers folder.old) true
        (map string_bytes names.now) addresses.items) }
    ensures fails { IfErr result (FailsAtMap (F.answers folder.old) (map string_bytes names.now)) }
    ensures within { IsWithin (F.answers folder.new) (F.answers folder.old) }
{
    let text = read_file(alloc, folder, MAP_NAME)?;
    if text.len() > MAX_MAP_BYTES {
        return Err(GatherFault::File(String::from_str(alloc, MAP_NAME)?));
    }
    match parse_map(alloc, &text, names) {
        Ok(addresses) => Ok(addresses),
        Err(fault) => match fault {
            MapFault::NoMemory => Err(GatherFault::NoMemory),
            _ => Err(GatherFault::Map(fault)),
        },
    }
}

/// The dumps of these names with these bytes and addresses.
fn dumps_of(
    alloc: Global,
    names: Vec<String>,
    files: Vec<Vec<u8>>,
    addresses: Vec<Option<u64>>,
) -> Result<Vec<Dump>, AllocError>
    ensures { IfOk result (λ dumps. dumps.items
        ≡ map (λ parts. record { name = parts.0.0; address = parts.1; bytes = parts.0.1 })
        (zip (zip names.items files.items) addresses.items)) }
{
    names
        .into_iter()
        .zip(files)
        .zip(addresses)
        .map(|((name, bytes), address)| Dump {
            name,
            address,
            bytes,
        })
        .collect(alloc)
}
