//! A folder of files, whatever keeps it.
ghost use Rattle.std.specs.Prelude.{◌≡◌, map, string_bytes, IfOk, IsErrOf};
ghost use Rattle.acpi_folder.specs.declared.folder.FolderFault.TheVariants.{Failed, NoMemory};
ghost use Rattle.acpi_folder.specs.Folders.{Answers, IsWithin, Reads};

use std::alloc::{AllocError, AllocFailed};

/// Why a folder doesn't answer.
#[derive(Clone, Copy, Debug)]
pub enum FolderFault {
    /// The call failed.
    Failed,
    /// A growth was refused.
    NoMemory,
}

impl From<AllocError> for FolderFault {
    ghost from_gives = { λ _ fault. fault ≡ NoMemory };

    fn from(_error: AllocError) -> FolderFault {
        FolderFault::NoMemory
    }
}

impl<T: Drop> From<AllocFailed<T>> for FolderFault {
    ghost from_gives = { λ _ fault. fault ≡ NoMemory };

    fn from(_error: AllocFailed<T>) -> FolderFault {
        FolderFault::NoMemory
    }
}

/// A folder of files.
pub trait Folder {
    /// What it may answer.
    ghost answers: { Self → Answers };

    /// The names of the regular files directly in it, in any order.
    fn list(&mut self) -> Result<Vec<String>, FolderFault>
        ensures names { IfOk result (λ names. (answers self.old).lists (map string_bytes names.items)) }
        ensures failed { IsErrOf result Failed → (answers self.old).unlisted }
        ensures within { IsWithin (answers self.new) (answers self.old) };

    /// The first bytes of the file of this name, at most so many.
    fn read(&mut self, name: &str, limit: u64) -> Result<Vec<u8>, FolderFault>
        ensures bytes { IfOk result (λ bytes. Reads (answers self.old) name.now limit bytes.items) }
        ensures failed { IsErrOf result Failed → (answers self.old).unread name.now }
        ensures within { IsWithin (answers self.new) (answers self.old) };
}
