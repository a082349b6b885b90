//! What `run` writes, by the caller alone: without a runtime, threads or waiting.
ghost use Rattle.std.specs.Prelude.{true, false};
ghost use Rattle.acpidis.specs.Endings.{Ends};
ghost use Rattle.acpidis.specs.Told.{HasTexts};

use crate::bodies::keep_bodies_alone;
use crate::disassembling::load_names_set;
use crate::faults::RunFault;
use crate::options::Options;
use crate::running::{print_listing, print_trials};
use crate::texts::Texts;
use crate::told::load_texts_alone;
use crate::trials::{Trials, Tried};
use acpi_tables::Dump;
use aml_text::{Tables, body_levels};
use std::alloc::Global;
use std::io::Write;

/// Writes what `run` writes of these dumps to `out`, and on `err` a line for each body that can't be read, and lets go
/// all memory that it took.
///
/// Answers the status, 0 or 3, where all is written, and else why the run ends early, of which `print_fault` prints
/// what `run` does.
pub fn run_alone<O: Write, E: Write>(
    alloc: Global,
    dumps: &[Dump],
    options: &Options,
    check: bool,
    out: &mut O,
    err: &mut E,
) -> Result<u8, RunFault>
    // The text of the one listing that the dumps mean went out, and the status is that of its bodies; or the first bytes
    // of it; or nothing, and then they mean none, unless memory was refused.
    ensures { Ends dumps.now options.now check (O.contents out.old) (O.contents out.new) result }
{
    if check {
        return checks_alone(alloc, dumps, options, out, err);
    }
    let (set, texts) = load_texts_alone(alloc, dumps, options)?;
    let tables = Tables {
        dumps,
        set: &set,
        texts: texts.as_slice(),
        rows: &[],
    };
    listing_alone(alloc, tables, options, out, err)
}

/// Writes the listing of a loaded set, and a line on `err` for each body that can't be read. Answers the status.
fn listing_alone<O: Write, E: Write>(
    alloc: Global,
    tables: Tables<'_, '_>,
    options: &Options,
    out: &mut O,
    err: &mut E,
) -> Result<u8, RunFault>
    requires set { HasTexts tables.dumps.now options.now tables.set.now tables.texts.now }
    ensures { Ends tables.entry.dumps.now options.now false (O.contents out.old) (O.contents out.new) result }
{
    let levels = body_levels(alloc, tables)?;
    let keep = Texts {
        alloc,
        levels: levels.as_slice(),
    };
    let found = keep_bodies_alone(alloc, tables.set, options.unknown_zero, &keep)?;
    print_listing(tables, options, keep, found.as_slice(), out, err)
}

/// Loads the tables of these dumps, and writes a line for each, and a line on `err` for each body that can't be read.
/// Answers the status.
fn checks_alone<O: Write, E: Write>(
    alloc: Global,
    dumps: &[Dump],
    options: &Options,
    out: &mut O,
    err: &mut E,
) -> Result<u8, RunFault>
    ensures { Ends dumps.now options.now true (O.contents out.old) (O.contents out.new) result }
{
    let keep = Trials { alloc };
    let (set, checks) = load_names_set(alloc, dumps, options, &keep)?;
    let found = keep_bodies_alone(alloc, &set, options.unknown_zero, &keep)?;
    let tried = Tried {
        alloc,
        tables: checks,
        bodies: found.as_slice(),
    };
    print_trials(Tables::without_texts(dumps, &set), options, tried, out, err)
}
