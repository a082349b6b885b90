//! The command line.
ghost use Rattle.std.specs.Prelude.{◌≤◌, IfOk};

use clap::error::ErrorKind;
use clap::{Arg, ArgAction, Command, Error, value_parser};
use std::alloc::Global;
use std::{env, io};

/// How many workers read the bodies where the line doesn't say.
const WORKERS: u32 = 4;

const MOST_WORKERS: u32 = 64;

const ABOUT: &str =
    "Disassembles the ACPI tables of a folder: the tables' headers and records, the namespace of all of them, and every control method as ASL-like text";

const STATUSES: &str = "\
Exit status:
  0  all is printed; with --check, each table is the same
  1  the folder or a table is refused, and nothing is printed
  2  the command line is at fault
  3  all is printed, and the body of a method can't be read: it stands there as its bytes
  4  standard output took no more";

/// What the command line asks for.
#[derive(Drop)]
pub struct CommandLine {
    /// Whether tables with any checksum are taken.
    pub any_sum: bool,
    /// Whether the code of tables outside methods may run.
    pub any_run: bool,
    /// Whether an unknown name in a body is read as one without arguments.
    pub unknown_zero: bool,
    /// The file with argument counts of paths that no table declares.
    pub externals: Option<String>,
    /// How many workers read the bodies, 1 to 64.
    pub workers: u32,
    /// Whether a line for each table is printed in place of the listing.
    pub check: bool,
    pub folder: String,
    ghost some_workers: { (1 ≤ workers) × (workers ≤ 64) },
}

/// Why the program ends before it begins.
#[derive(Clone, Copy)]
pub enum Stop {
    /// Help or the version was asked for, and printed.
    Shown,
    /// The same, but standard output didn't take it.
    Unwritten,
    /// The line has a fault, which was printed.
    Refused,
    /// A growth was refused.
    NoMemory,
}

/// Reads the command line, and prints the text of a request for help or the version, or of a fault.
pub fn read(rt: &HostRuntime, version: &str) -> Result<CommandLine, Stop>
    ensures { IfOk result (λ line. (1 ≤ line.workers) × (line.workers ≤ 64)) }
{
    let alloc = rt.alloc();
    let words = match env::args(rt) {
        Ok(words) => words,
        Err(error) if error.kind() == io::ErrorKind::OutOfMemory => return Err(Stop::NoMemory),
        Err(_) => {
            let _ = eprintln!(rt; "error: a word of the command line isn't text");
            return Err(Stop::Refused);
        }
    };
    let Ok(words): Result<Vec<String>, _> = words.collect(alloc) else {
        return Err(Stop::NoMemory);
    };
    match parse(alloc, version, words.as_slice()) {
        Ok(line) => Ok(line),
        Err(error) if error.kind() == ErrorKind::OutOfMemory => Err(Stop::NoMemory),
        Err(error) => Err(match error.print(rt) {
            _ if error.use_stderr() => Stop::Refused,
            Ok(()) => Stop::Shown,
            Err(_) => Stop::Unwritten,
        }),
    }
}

/// The options, and their help.
fn command<'a>(alloc: Global, version: &'a str) -> Result<Command<'a>, Error> {
    let mut command = Command::new(alloc, "acpidis")
        .about(ABOUT)
        .version(version)
        .after_help(STATUSES);
    for argument in [
        workers(alloc),
        flag(
            alloc,
            "any-sum",
            "Take tables with any checksum, and say BadSum behind those whose sum is wrong",
        ),
        flag(
            alloc,
            "any-run",
            "Read tables whatever a run of their code outside methods would declare",
        ),
        externals(alloc),
        flag(
            alloc,
            "unknown-zero",
            "Take a name whose count nothing tells for one without arguments (with --any-run outside bodies too)",
        ),
        flag(
            alloc,
            "check",
            "Print a line for each table: whether its terms encode to its bytes again",
        ),
        folder(alloc),
    ] {
        command = command.arg(argument)?;
    }
    Ok(command)
}

/// An option without a value.
fn flag<'a>(alloc: Global, name: &'a str, help: &'a str) -> Arg<'a> {
    Arg::new(alloc, name)
        .long(name)
        .help(help)
        .action(ArgAction::SetTrue)
}

fn workers<'a>(alloc: Global) -> Arg<'a> {
    Arg::new(alloc, "workers")
        .long("workers")
        .value_name("N")
        .help("How many workers share the work, 1 to 64; the text is the same for each number")
        .value_parser(value_parser!(u32).range(1..=64))
        .default_value("4")
}

fn externals<'a>(alloc: Global) -> Arg<'a> {
    Arg::new(alloc, "externals")
        .long("externals")
        .value_name("FILE")
        .help(
            "Take argument counts of names that no table declares from a file of lines like \\_SB_.PC00.MTHD 2",
        )
}

fn folder<'a>(alloc: Global) -> Arg<'a> {
    Arg::new(alloc, "FOLDER")
        .help("The folder with a file for each table, and tables.map, if their addresses are known")
        .required(true)
}

fn parse(alloc: Global, version: &str, words: &[String]) -> Result<CommandLine, Error> {
    let matches = command(alloc, version)?.try_get_matches_from(words)?;
    Ok(CommandLine {
        any_sum: matches.get_flag("any-sum"),
        any_run: matches.get_flag("any-run"),
        unknown_zero: matches.get_flag("unknown-zero"),
        externals: match matches.get_str("externals") {
            Some(file) => Some(String::from_str(alloc, file)?),
            None => None,
        },
        // The parser takes no other number; `run` wants to know.
        workers: matches
            .get_one::<u32>("workers")
            .unwrap_or(WORKERS)
            .clamp(1, MOST_WORKERS),
        check: matches.get_flag("check"),
        folder: String::from_str(alloc, matches.get_str("FOLDER").unwrap_or(""))?,
    })
}
