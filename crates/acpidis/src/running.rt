//! A whole run over the dumps of a folder.
ghost use Rattle.std.specs.Prelude.{◌≡◌, ◌⊎◌, ◌≤◌, ℕ, List, true, false, cond, length, get_or};
ghost use Rattle.std.specs.Io.KnownBytes.{Appends};
ghost use Rattle.acpidis.specs.Endings.{Lists, IsCut, Ends, status_of};
ghost use Rattle.aml_set.specs.Views.{body_in_set};
ghost use Rattle.asl_text.specs.Bodies.{IsText};
ghost use Rattle.aml_text.specs.Told.{levels_kept};
ghost use Rattle.acpidis.specs.Told.{HasTexts, IsTriedSet};
ghost use Rattle.acpidis.specs.Checks.{AreKeptOf, IsKept, IsSame, has_fault};

use crate::bodies::keep_bodies;
use crate::check_lines::{are_same, write_tables};
use crate::checking::count_methods;
use crate::crew::Crew;
use crate::disassembling::load_names_set;
use crate::faults::RunFault;
use crate::options::Options;
use crate::refusal::Refusal;
use crate::rows::row_texts;
use crate::texts::Texts;
use crate::told::load_texts;
use crate::trials::{Trials, Tried};
use acpi_folder::Quoted;
use acpi_tables::Dump;
use aml_code::{CodeFault, NoMemory};
use aml_load::LoadFault;
use aml_names::Seg;
use aml_pool::Gate;
use aml_set::TableSet;
use aml_text::{BodyText, Tables, body_levels, write_printed};
use std::alloc::Global;
use std::io::{Error, Write};
use std::mem::forget;
use std::sync::Wait;
use std::thread::Threads;

/// The status of a run that is done.
const DONE: u8 = 0;

/// The status of a run that is refused.
const REFUSED: u8 = 1;

/// The status of a run that is done, with a body that can't be read.
const RAW: u8 = 3;

/// The status where the writer takes no more.
const UNWRITTEN: u8 = 4;

/// Disassembles the tables of these dumps by so many workers, 1 to 64, and writes the listing to `out`, or with `check`
/// a line for each table. What is refused, and then each body that can't be read, gets a line on `err`; a fault of
/// `err` changes nothing.
///
/// Returns the exit status: 0 where all is written, 1 where the set is refused, and nothing is written, 3 where all is
/// written and the body of a method can't be read, so that it stands there as its bytes, and 4 where the writer took no
/// more. The terms of a body are let go once its text is made; what else a run holds goes with the process alone.
pub fn run<R: Threads + Wait + Sync, G: Gate + Sync, O: Write, E: Write>(
    rt: &R,
    alloc: Global,
    dumps: &[Dump],
    options: Options,
    workers: u32,
    check: bool,
    gate: &G,
    out: &mut O,
    err: &mut E,
) -> u8
    requires workers { (1 ≤ workers) × (workers ≤ 64) }

    ensures statuses { (result ≡ 0) ⊎ (result ≡ 1) ⊎ (result ≡ 3) ⊎ (result ≡ 4) }
    // What the writer took is the text of a listing that the set means.
    ensures done { (result ≡ 0) ⊎ (result ≡ 3) → (text : List ℕ) ×
        Lists dumps.now options check result text ×
        Appends (O.contents out.old) (O.contents out.new) text }
    // The set has no other text, and no other status goes with it.
    ensures one { (result ≡ 0) ⊎ (result ≡ 3) → (status : ℕ) (text : List ℕ) →
        Lists dumps.now options check status text →
        (status ≡ result) × Appends (O.contents out.old) (O.contents out.new) text }
    // Nothing was written.
    ensures refused { result ≡ 1 → O.contents out.new ≡ O.contents out.old }
    // The first bytes of a text of the set were written, and not all.
    ensures cut { result ≡ 4 →
        IsCut dumps.now options check (O.contents out.old) (O.contents out.new) }
{
    let crew = Crew {
        rt,
        alloc,
        workers,
        gate,
    };
    match run_set(&crew, dumps, &options, check, out, err) {
        Ok(status) => status,
        Err(fault) => print_fault(dumps, &fault, err),
    }
}

/// Loads the tables of these dumps, and writes what is printed of them. Answers the status.
fn run_set<R: Threads + Wait + Sync, G: Gate + Sync, O: Write, E: Write>(
    crew: &Crew<'_, R, G>,
    dumps: &[Dump],
    options: &Options,
    check: bool,
    out: &mut O,
    err: &mut E,
) -> Result<u8, RunFault>
    requires workers { (1 ≤ crew.now.workers) × (crew.now.workers ≤ 64) }
    ensures { Ends dumps.now options.now check (O.contents out.old) (O.contents out.new) result }
{
    if check {
        return run_checks(crew, dumps, options, out, err);
    }
    let (set, texts) = load_texts(crew, dumps, options)?;
    let tables = Tables {
        dumps,
        set: &set,
        texts: texts.as_slice(),
        rows: &[],
    };
    let ended = run_listing(crew, tables, options, out, err);
    forget((set, texts));
    ended
}

/// Writes the listing of a loaded set, and a line on `err` for each body that can't be read. Each body is read and
/// printed by a worker, which lets its terms go, and so are the rows of a large namespace. Answers the status.
fn run_listing<R: Threads + Wait + Sync, G: Gate + Sync, O: Write, E: Write>(
    crew: &Crew<'_, R, G>,
    tables: Tables<'_, '_>,
    options: &Options,
    out: &mut O,
    err: &mut E,
) -> Result<u8, RunFault>
    requires workers { (1 ≤ crew.now.workers) × (crew.now.workers ≤ 64) }
    requires set { HasTexts tables.dumps.now options.now tables.set.now tables.texts.now }
    ensures { Ends tables.entry.dumps.now options.now false (O.contents out.old) (O.contents out.new) result }
{
    let set = tables.set;
    let levels = body_levels(crew.alloc, tables)?;
    let keep = Texts {
        alloc: crew.alloc,
        levels: levels.as_slice(),
    };
    let found = keep_bodies(crew, set, options.unknown_zero, &keep)?;
    let rows = row_texts(crew, &set.space).unwrap_or(Vec::new(crew.alloc));
    let tables = Tables {
        dumps: tables.dumps,
        set,
        texts: tables.texts,
        rows: rows.as_slice(),
    };
    let ended = print_listing(tables, options, keep, found.items.as_slice(), out, err);
    forget((levels, found, rows));
    ended
}

/// Writes the listing of a loaded set of whose bodies this is kept, and a line on `err` for each that can't be read.
/// Answers the status.
pub(crate) fn print_listing<O: Write, E: Write>(
    tables: Tables<'_, '_>,
    options: &Options,
    keep: Texts<'_>,
    texts: &[Result<BodyText, CodeFault>],
    out: &mut O,
    err: &mut E,
) -> Result<u8, RunFault>
    requires set { HasTexts tables.dumps.now options.now tables.set.now tables.texts.now }
    requires levels { keep.levels.now ≡ levels_kept tables.set.now.tables.items tables.texts.now }
    requires kept { AreKeptOf (λ n. IsKept (IsText (get_or keep.levels.now n 0))) options.now.unknown_zero
        tables.set.now texts.now }
    ensures { Ends tables.entry.dumps.now options.now false (O.contents out.old) (O.contents out.new) result }
{
    let _ = options;
    let room = room_for_paths(keep.alloc, tables.set, texts)?;
    write_printed(out, tables, texts)?;
    print_raw_bodies(tables.set, texts, room, err);
    Ok(status_of_bodies(texts))
}

/// Loads the tables of these dumps, and writes a line for each, and a line on `err` for each body that can't be read.
/// Tables and bodies are tried as they are told, the bodies by workers, and no terms are made. Answers the status.
fn run_checks<R: Threads + Wait + Sync, G: Gate + Sync, O: Write, E: Write>(
    crew: &Crew<'_, R, G>,
    dumps: &[Dump],
    options: &Options,
    out: &mut O,
    err: &mut E,
) -> Result<u8, RunFault>
    requires workers { (1 ≤ crew.now.workers) × (crew.now.workers ≤ 64) }
    ensures { Ends dumps.now options.now true (O.contents out.old) (O.contents out.new) result }
{
    let keep = Trials { alloc: crew.alloc };
    let (set, checks) = load_names_set(crew.alloc, dumps, options, &keep)?;
    let found = keep_bodies(crew, &set, options.unknown_zero, &keep)?;
    let tried = Tried {
        alloc: crew.alloc,
        tables: checks,
        bodies: found.items.as_slice(),
    };
    let ended = print_trials(Tables::without_texts(dumps, &set), options, tried, out, err);
    forget((set, found));
    ended
}

/// Writes a line for each table of a loaded set whose bodies were tried so, and a line on `err` for each that can't be
/// read. Answers the status.
pub(crate) fn print_trials<O: Write, E: Write>(
    tables: Tables<'_, '_>,
    options: &Options,
    tried: Tried<'_>,
    out: &mut O,
    err: &mut E,
) -> Result<u8, RunFault>
    requires set { IsTriedSet tables.dumps.now options.now tables.set.now tried.tables.items }
    requires each { length tried.bodies.now ≡ length tables.set.now.methods.items }
    requires kept { AreKeptOf (λ n. IsKept (IsSame (body_in_set tables.set.now n))) options.now.unknown_zero
        tables.set.now tried.bodies.now }
    ensures { Ends tables.entry.dumps.now options.now true (O.contents out.old) (O.contents out.new) result }
{
    let _ = options;
    let Tried {
        alloc,
        tables: mut checks,
        bodies,
    } = tried;
    count_methods(tables.set.methods.as_slice(), bodies, &mut checks);
    let room = room_for_paths(alloc, tables.set, bodies)?;
    write_tables(out, &tables, checks.as_slice())?;
    if !are_same(checks.as_slice()) {
        return Err(RunFault::Differs);
    }
    print_raw_bodies(tables.set, bodies, room, err);
    Ok(status_of_bodies(bodies))
}

/// Whether one of these bodies can't be read.
fn is_any_raw<T>(bodies: &[Result<T, CodeFault>]) -> bool
    ensures { result ≡ has_fault bodies.now }
{
    bodies.iter().any(|body| body.is_err())
}

/// The status of a run with these bodies.
fn status_of_bodies<T>(bodies: &[Result<T, CodeFault>]) -> u8
    ensures { result ≡ cond (has_fault bodies.now) 3 0 }
{
    if is_any_raw(bodies) { RAW } else { DONE }
}

/// Prints why a run of these dumps ends early, as `run` does, and returns its status. A fault of the writer is passed
/// over.
pub fn print_fault<E: Write>(dumps: &[Dump], fault: &RunFault, err: &mut E) -> u8
    ensures { result ≡ status_of fault.now }
{
    match fault {
        RunFault::Write(fault) => {
            let _ = writeln!(err, "acpidis: {fault}");
            UNWRITTEN
        }
        RunFault::Refused(refusal) => {
            print_refusal(dumps, refusal, err);
            REFUSED
        }
        RunFault::Differs => REFUSED,
    }
}

/// Prints why a set isn't disassembled, and the file that it is about.
fn print_refusal<E: Write>(dumps: &[Dump], refusal: &Refusal, err: &mut E) {
    let _ = match name_of(dumps, dump_of(refusal)) {
        Some(name) => {
            let name = Quoted(name);
            writeln!(err, "acpidis: table {name}: {refusal}")
        }
        None => writeln!(err, "acpidis: {refusal}"),
    };
}

/// The dump that a refusal is about, if it is about one.
fn dump_of(refusal: &Refusal) -> Option<usize> {
    match refusal {
        Refusal::Table(fault) => fault.dump,
        Refusal::Load(LoadFault::Code(dump, _)) => Some(*dump),
        Refusal::Load(LoadFault::Space(dump, _)) => Some(*dump),
        Refusal::Load(LoadFault::ModuleCall(dump)) => Some(*dump),
        Refusal::Load(LoadFault::RunCall(dump, _)) => Some(*dump),
        _ => None,
    }
}

/// The name of the dump at an index, if there is one.
fn name_of(dumps: &[Dump], index: Option<usize>) -> Option<&str> {
    let dump = dumps.get(index?)?;
    Some(dump.name.as_str())
}

/// Room for the longest path of a method whose body can't be read.
fn room_for_paths<T>(
    alloc: Global,
    set: &TableSet<'_>,
    bodies: &[Result<T, CodeFault>],
) -> Result<Vec<Seg>, NoMemory> {
    let mut longest = 0;
    for (method, body) in set.methods.iter().zip(bodies.iter()) {
        if body.is_err() {
            longest = longest.max(set.space.path(method.path).depth());
        }
    }
    let mut room = Vec::new(alloc);
    room.resize(longest, Seg::default())?;
    Ok(room)
}

/// Prints each body that can't be read, by its method's path, for which there is room, and why.
fn print_raw_bodies<T, E: Write>(
    set: &TableSet<'_>,
    bodies: &[Result<T, CodeFault>],
    mut room: Vec<Seg>,
    err: &mut E,
) {
    for (method, body) in set.methods.iter().zip(bodies.iter()) {
        if let Err(fault) = body {
            let path = set.space.path(method.path);
            let depth = path.copy_segs(0, room.as_mut_slice());
            let _ = print_raw_body(&room[..depth], fault, err);
        }
    }
}

/// Prints that the body of the method at a path can't be read, and why.
fn print_raw_body<E: Write>(path: &[Seg], fault: &CodeFault, err: &mut E) -> Result<(), Error> {
    write!(err, "acpidis: body \\")?;
    if let Some((first, others)) = path.split_first() {
        // Thousands of segments in a path, and of such lines, are written faster so than as formatted text.
        err.write_all(&first.0)?;
        for Seg([a, b, c, d]) in others {
            err.write_all(&[b'.', *a, *b, *c, *d])?;
        }
    }
    writeln!(err, ": {fault}")
}
