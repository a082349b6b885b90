//! Disassembles the ACPI tables of a folder.
#![tactic(auto)]

mod version;
mod ways_on;

use acpi_folder::{DiskFolder, gather};
use acpidis::{Options, run};
use aml_names::{ArgumentCount, Path};
use aml_pool::FreeGate;
use command_line::{CommandLine, FileFault, Stop, read, read_externals};
use std::io::{BufWriter, IsTerminal, Write};
use std::mem::forget;
use std::process::ExitCode;
use std::sync::Wait;
use std::thread;
use std::thread::{Builder, Threads};
use ways_on::way_on;

/// The status of a command line that can't be read.
const COMMAND_LINE: u8 = 2;

/// The status where the folder can't be read, or memory is short.
const REFUSED: u8 = 1;

/// The status where standard output takes no more.
const UNWRITTEN: u8 = 4;

/// The stack on which all is read, printed and checked, whatever the system's own limit is. The deepest tables need
/// about 1 MB of it.
const STACK_BYTES: usize = 8 << 20;

fn main(rt: HostRuntime) -> ExitCode {
    match in_thread(&rt, &rt) {
        Some(status) => ExitCode::from(status),
        None => {
            let _ = eprintln!(rt; "acpidis: NoThread");
            ExitCode::from(REFUSED)
        }
    }
}

/// The exit status of a run in a thread of its own, or `None` where none can be started.
fn in_thread<T: Threads + Wait + Sync>(rt: &HostRuntime, threads: &T) -> Option<u8> {
    thread::scope(thread::scope_env(), threads, move |scope| -> Option<u8> {
        let builder = Builder::new().stack_size(STACK_BYTES);
        match builder.spawn_scoped(scope, move || status_of(rt, threads)) {
            Ok(child) => Some(child.join(threads)),
            Err(_) => None,
        }
    })
}

/// Does what the command line asks for, and answers the exit status.
fn status_of<T: Threads + Wait + Sync>(rt: &HostRuntime, threads: &T) -> u8 {
    match read(rt, version::VERSION) {
        Ok(line) => match BufWriter::new(rt.alloc(), rt.stderr()) {
            // There may be a line for each of a million methods.
            Ok(mut err) => {
                let status = run_folder(rt, threads, &line, &mut err);
                // The line of a refusal is still in the buffer, and stands alone there; a check that differs has none.
                let said = err.buffer();
                if status == REFUSED && !said.is_empty() && rt.stderr().is_terminal() {
                    let way = way_on(rt, said, line.folder.as_str(), line.any_run);
                    let _ = writeln!(err, "acpidis: {way}");
                }
                let _ = err.flush();
                status
            }
            Err(_) => run_folder(rt, threads, &line, &mut rt.stderr()),
        },
        Err(Stop::Shown) => 0,
        Err(Stop::Unwritten) => {
            let _ = eprintln!(rt; "acpidis: write failed");
            UNWRITTEN
        }
        Err(Stop::Refused) => COMMAND_LINE,
        Err(Stop::NoMemory) => {
            let _ = eprintln!(rt; "acpidis: NoMemory");
            REFUSED
        }
    }
}

/// Disassembles the tables of a folder, the bodies of methods by workers on `threads`, and returns the exit status.
fn run_folder<T: Threads + Wait + Sync, E: Write>(
    rt: &HostRuntime,
    threads: &T,
    line: &CommandLine,
    err: &mut E,
) -> u8 {
    let mut folder = DiskFolder::new(rt, line.folder.as_str());
    let dumps = match gather(rt.alloc(), &mut folder) {
        Ok(dumps) => dumps,
        Err(fault) => {
            let _ = writeln!(err, "acpidis: {fault}");
            return REFUSED;
        }
    };
    let externals = match externals_of(rt, line) {
        Ok(externals) => externals,
        Err(fault) => {
            let _ = writeln!(err, "acpidis: {fault}");
            return REFUSED;
        }
    };
    let status = run(
        threads,
        rt.alloc(),
        &dumps,
        Options {
            any_sum: line.any_sum,
            any_run: line.any_run,
            unknown_zero: line.unknown_zero,
            externals,
        },
        line.workers,
        line.check,
        &FreeGate,
        &mut rt.stdout(),
        err,
    );
    // The process ends: the system has the memory back sooner than it is let go piece by piece.
    forget(dumps);
    status
}

/// The argument counts of the file that the command line names, or none.
fn externals_of<'a>(
    rt: &HostRuntime,
    line: &'a CommandLine,
) -> Result<Vec<(Path, ArgumentCount)>, FileFault<'a>> {
    match &line.externals {
        Some(file) => read_externals(rt, file.as_str()),
        None => Ok(Vec::new(rt.alloc())),
    }
}
