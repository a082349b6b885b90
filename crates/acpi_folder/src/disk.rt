//! A folder of the operating system.
ghost use Rattle.std.specs.Prelude.{◌≡◌};
ghost use Rattle.acpi_folder.specs.Folders.{anything, fault_by};

use crate::folder::{Folder, FolderFault};
use std::fs::File;
use std::io::Read;
use std::os::unix::fs::MetadataExt;
use std::{fs, io};

/// A folder of the operating system, by its path. What it has isn't known, so that it may answer anything.
///
/// Its files are the regular files directly in it. Folders, links and all else are passed over. The listing fails where
/// the folder can't be read, or where a name in it isn't UTF-8, whatever bears it.
#[derive(Clone, Copy)]
pub struct DiskFolder<'a> {
    rt: &'a HostRuntime,
    path: &'a str,
}

impl<'a> DiskFolder<'a> {
    /// The folder at this path.
    pub fn new(rt: &'a HostRuntime, path: &'a str) -> DiskFolder<'a>
        ensures { result.path.now ≡ path.now }
    {
        DiskFolder { rt, path }
    }

    fn names(&self) -> io::Result<Vec<String>> {
        let mut names = Vec::new(self.rt.alloc());
        for entry in fs::read_dir(self.rt, self.path)? {
            let entry = entry?;
            if entry.metadata()?.is_file() {
                names.push(String::from_str(self.rt.alloc(), entry.file_name())?)?;
            }
        }
        Ok(names)
    }

    fn first_bytes(&self, name: &str, limit: u64) -> io::Result<Vec<u8>> {
        let alloc = self.rt.alloc();
        let path = format!(in alloc; "{}/{name}", self.path)?;
        let mut bytes = Vec::new(alloc);
        let file = self.opened(path.as_str())?;
        file.take(limit).read_to_end(&mut bytes)?;
        Ok(bytes)
    }

    /// The regular file at a path. What stands there may have been swapped since the folder was listed: a link isn't
    /// followed, and a pipe isn't waited for.
    fn opened(&self, path: &str) -> io::Result<File> {
        let looked = fs::symlink_metadata(self.rt, path)?;
        if !looked.is_file() {
            return Err(io::ErrorKind::InvalidInput.into());
        }
        let file = fs::open(self.rt, path)?;
        let there = file.metadata()?;
        // One that is swapped in between is another file.
        if there.ino() == looked.ino() && there.dev() == looked.dev() {
            Ok(file)
        } else {
            Err(io::ErrorKind::InvalidInput.into())
        }
    }
}

impl Folder for DiskFolder<'_> {
    ghost answers = { λ _. anything };

    fn list(&mut self) -> Result<Vec<String>, FolderFault> {
        // No folder interrupts so often; the bound shows that this ends.
        'tries: for _ in 0..u64::MAX {
            match self.names() {
                Err(error) if error.kind() == io::ErrorKind::Interrupted => {}
                listed => return Ok(listed?),
            }
        }
        Err(FolderFault::Failed)
    }

    fn read(&mut self, name: &str, limit: u64) -> Result<Vec<u8>, FolderFault> {
        let mut bytes = self.first_bytes(name, limit)?;
        // There are no more; this shows it.
        bytes.truncate(limit as usize);
        Ok(bytes)
    }
}

/// Why a folder doesn't answer, by the kind of the call's error.
fn fault_by(kind: io::ErrorKind) -> FolderFault
    ensures { result ≡ fault_by kind }
{
    match kind {
        io::ErrorKind::OutOfMemory => FolderFault::NoMemory,
        _ => FolderFault::Failed,
    }
}

impl From<io::Error> for FolderFault {
    ghost use Rattle.std.specs.IoError.{error_kind};

    ghost from_gives = { λ error fault. fault ≡ fault_by (error_kind error) };

    fn from(error: io::Error) -> FolderFault {
        fault_by(error.kind())
    }
}
