//! What a refusal leads to: the second line that it gets where standard error is a terminal.
ghost use Rattle.std.specs.Prelude.{◌≡◌, true, IfSome};

use acpi_folder::Quoted;
use std::io::ErrorKind;
use std::{fmt, fs, str};

/// The words of refusals that `--any-run` lifts, as they stand behind a table's name.
const LIFTED: [&str; 4] = [
    ": ModuleCode ",
    ": ModuleCall",
    ": Duplicate ",
    ": ScopeMissing ",
];

const NO_FOLDER: &str = "acpidis: cannot read folder\n";

/// What to do about a refusal. It displays as the program prints it.
#[derive(Clone, Copy)]
pub enum WayOn<'a> {
    /// The folder isn't there.
    NotThere(&'a str),
    /// What was named isn't a folder.
    NotFolder(&'a str),
    /// An option that the command line doesn't have.
    AnyRun,
    /// The script that shows what stands there, with the option for who gave it.
    Refused { any_run: bool },
}

impl<'a> fmt::Display for WayOn<'a> {
    fn fmt<W: fmt::Write>(&self, f: &mut fmt::Formatter<W>) -> fmt::Result {
        match self {
            WayOn::NotThere(folder) => {
                let folder = Quoted(*folder);
                write!(f, "{folder} isn't there")
            }
            WayOn::NotFolder(file) => {
                let file = Quoted(*file);
                write!(
                    f,
                    "{file} is a file: put it into a folder, and name that; acpidis-unpack takes acpidump's text",
                )
            }
            WayOn::AnyRun => f.write_str(
                "try --any-run, which takes what a run would declare; acpidis-refused FOLDER, with your options, shows what stands there",
            ),
            WayOn::Refused { any_run } => {
                let option = if *any_run { "--any-run " } else { "" };
                write!(
                    f,
                    "acpidis-refused {option}FOLDER, with your options, shows what stands there, and ways on",
                )
            }
        }
    }
}

/// The way on from a refusal, by its line, for who named this folder.
pub fn way_on<'a>(rt: &HostRuntime, said: &[u8], folder: &'a str, any_run: bool) -> WayOn<'a>
    // The option isn't the way on of who gave it.
    ensures { any_run ≡ true → ¬ (result ≡ WayOn.AnyRun) }
{
    let Ok(said) = str::from_utf8(said) else {
        return WayOn::Refused { any_run };
    };
    if said == NO_FOLDER {
        return of_no_folder(rt, folder).unwrap_or(WayOn::Refused { any_run });
    }
    // A table's name has no quote inside, and what stands behind it has none.
    match said.rsplit_once('"') {
        Some((_, words)) if !any_run && is_lifted(words) => WayOn::AnyRun,
        _ => WayOn::Refused { any_run },
    }
}

fn is_lifted(words: &str) -> bool {
    LIFTED.iter().any(|lifted| words.starts_with(*lifted))
}

/// What is wrong with a folder that can't be read, if that can be told.
fn of_no_folder<'a>(rt: &HostRuntime, folder: &'a str) -> Option<WayOn<'a>>
    ensures { IfSome result (λ way. ¬ (way ≡ WayOn.AnyRun)) }
{
    match fs::metadata(rt, folder) {
        Ok(found) if found.is_dir() => None,
        Ok(_) => Some(WayOn::NotFolder(folder)),
        Err(fault) if fault.kind() == ErrorKind::NotFound => Some(WayOn::NotThere(folder)),
        Err(_) => None,
    }
}
