//! Folders kept in memory, of whose calls each fails in turn.
ghost use Rattle.std.specs.Prelude.{◌≡◌, ⊤, IfErr};
ghost use Rattle.acpi_folder.specs.declared.folder.FolderFault.TheVariants.{Failed};

use acpi_folder::{Folder, FolderFault, GatherFault, gather};
use acpi_tables::Dump;
use std::alloc::{AllocError, Global};

/// Files by their names, and a fault that comes once so many calls were answered.
#[derive(Clone, Copy)]
pub struct MemoryFolder<'a> {
    alloc: Global,
    files: &'a [(&'a str, &'a [u8])],
    answered: u32,
    fault: FolderFault,
}

impl<'a> MemoryFolder<'a> {
    /// Its first calls, so many of them, are answered.
    pub fn new(
        alloc: Global,
        files: &'a [(&'a str, &'a [u8])],
        answered: u32,
        fault: FolderFault,
    ) -> MemoryFolder<'a> {
        MemoryFolder {
            alloc,
            files,
            answered,
            fault,
        }
    }

    /// Whether the next call is answered.
    fn turn(&mut self) -> Result<(), FolderFault>
        ensures refused { IfErr result (λ fault. fault ≡ self.old.fault) }
        ensures same { self.new.fault ≡ self.old.fault }
    {
        match self.answered.checked_sub(1) {
            None => Err(self.fault),
            Some(left) => {
                self.answered = left;
                Ok(())
            }
        }
    }

    fn push_names(&self, names: &mut Vec<String>) -> Result<(), AllocError> {
        for (name, _) in self.files {
            names.push(String::from_str(self.alloc, name)?)?;
        }
        Ok(())
    }

    /// What is in the file with this name, and nothing where there is none.
    fn content(&self, name: &str) -> &'a [u8] {
        for (other, content) in self.files {
            if *other == name {
                return content;
            }
        }
        &[]
    }
}

impl Folder for MemoryFolder<'_> {
    // A call fails only where that is the fault to come.
    ghost answers = { λ folder. record {
      lists = λ _. ⊤;
      unlisted = folder.fault ≡ Failed;
      holds = λ _ _. ⊤;
      unread = λ _. folder.fault ≡ Failed;
    } };

    fn list(&mut self) -> Result<Vec<String>, FolderFault> {
        self.turn()?;
        let mut names = Vec::new(self.alloc);
        self.push_names(&mut names)?;
        Ok(names)
    }

    fn read(&mut self, name: &str, limit: u64) -> Result<Vec<u8>, FolderFault> {
        self.turn()?;
        let mut bytes = self.content(name).to_vec(self.alloc)?;
        bytes.truncate(limit as usize);
        Ok(bytes)
    }
}

/// Three tables and their map, in no order.
pub const FILES: [(&str, &[u8]); 4] = [
    ("ssdt2.dat", b"two"),
    ("tables.map", b"0000000000004000 dsdt.dat\n"),
    ("dsdt.dat", b"none"),
    ("ssdt1.dat", b"one"),
];

fn is_dump(dump: &Dump, name: &str, address: Option<u64>, bytes: &[u8]) -> bool {
    dump.name.as_str() == name && dump.address == address && dump.bytes.as_slice() == bytes
}

/// Whether these are the dumps of those files.
pub fn are_gathered(dumps: &[Dump]) -> bool {
    let [dsdt, first, second] = dumps else {
        return false;
    };
    is_dump(dsdt, "dsdt.dat", Some(0x4000), b"none")
        && is_dump(first, "ssdt1.dat", None, b"one")
        && is_dump(second, "ssdt2.dat", None, b"two")
}

/// Whether an answer is three dumps, and this says so, or a fault that is printed so.
fn is_line(
    alloc: Global,
    answer: &Result<Vec<Dump>, GatherFault>,
    line: &str,
) -> Result<bool, AllocError> {
    match answer {
        Ok(dumps) => Ok(dumps.len() == 3 && line == "3 dumps"),
        Err(fault) => {
            let text = format!(in alloc; "{fault}")?;
            Ok(text.as_str() == line)
        }
    }
}

/// Whether this is printed where so many calls are answered before this fault.
fn prints(
    alloc: Global,
    answered: u32,
    fault: FolderFault,
    line: &str,
) -> Result<bool, AllocError> {
    let mut folder = MemoryFolder::new(alloc, &FILES, answered, fault);
    let answer = gather(alloc, &mut folder);
    is_line(alloc, &answer, line)
}

/// Whether this is printed where the call behind so many fails, and the want of memory where it is refused memory.
fn is_told(alloc: Global, answered: u32, line: &str) -> Result<bool, AllocError> {
    let failed = prints(alloc, answered, FolderFault::Failed, line)?;
    let refused = answered == 5 || prints(alloc, answered, FolderFault::NoMemory, "NoMemory")?;
    Ok(failed && refused)
}

/// What is printed where so many calls are answered.
const LINES: [&str; 6] = [
    "cannot read folder",
    "cannot read \"dsdt.dat\"",
    "cannot read \"ssdt1.dat\"",
    "cannot read \"ssdt2.dat\"",
    "cannot read \"tables.map\"",
    "3 dumps",
];

#[test]
fn each_call_of_a_folder_fails_in_turn(rt: HostRuntime) {
    for answered in 0..6 {
        let line = LINES[answered as usize];
        assert!(rt;
            matches!(is_told(rt.alloc(), answered, line), Ok(true)),
            "{line}"
        );
    }
}
