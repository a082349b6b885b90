//! From the dumps of a set to its listing, the bodies read by workers.
ghost use Rattle.std.specs.Prelude.{◌≡◌, ◌⊎◌, ◌≤◌, ℕ, Bool, true, List, IfOk, IfErr, length};
ghost use Rattle.aml_code.specs.Tree.{Trees};
ghost use Rattle.aml_namespace.specs.Namespace.{Entry};
ghost use Rattle.aml_load.specs.Views.{HoldsTables};
ghost use Rattle.aml_set.specs.Code.{AreShort};
ghost use Rattle.aml_set.specs.Views.{codes_view, table_codes, table_dumps};
ghost use Rattle.acpi_tables.specs.Order.{AreTables, AreTaken, IsOrder};
ghost use Rattle.acpidis.specs.Bodies.{AreDrawn};
ghost use Rattle.acpidis.specs.Meaning.{Meaning, LoadsBy, LoadsSet, IsSet, Means, Shows, Told, none_unknown};
ghost use Rattle.aml_text.specs.Listing.{indexes_in};
ghost use Rattle.acpidis.specs.Refusals.{IsWant, load_refusal, TellsTable, TellsLoad, TellsBlocks};
ghost use Rattle.acpidis.specs.Told.{IsKeptSet, LoadsKept};

use crate::bodies::read_bodies;
use crate::crew::Crew;
use crate::options::Options;
use crate::refusal::Refusal;
use crate::tables::tables_of;
use acpi_tables::{Bad, Dump, Order, TableFault, load_order};
use aml_code::TableSink;
use aml_load::{LoadFault, LoadRules, load_names, load_tables};
use aml_pool::Gate;
use aml_set::{Loaded, Table, TableSet};
use aml_text::{Listing, dump_of};
use std::alloc::Global;
use std::sync::Wait;
use std::thread::Threads;

/// Why a set without an order isn't disassembled.
fn refused_order(fault: TableFault) -> Refusal
    ensures want { fault.bad ≡ Bad.NoMemory → result ≡ Refusal.NoMemory }
    ensures other { (result ≡ Refusal.NoMemory) ⊎ (result ≡ Refusal.Table fault) }
    ensures told { (fault.bad ≡ Bad.NoMemory) ⊎ (result ≡ Refusal.Table fault) }
{
    match fault.bad {
        Bad::NoMemory => Refusal::NoMemory,
        _ => Refusal::Table(fault),
    }
}

/// The order of the definition blocks.
pub(crate) fn order_in(alloc: Global, dumps: &[Dump], any_sum: bool) -> Result<Order, Refusal>
    ensures order { IfOk result (λ order. IsOrder dumps.now any_sum order.dsdt order.ssdts.items) }
    ensures only { IfOk result (λ order. (dsdt : ℕ) (ssdts : List ℕ) → IsOrder dumps.now any_sum dsdt ssdts →
        (dsdt ≡ order.dsdt) × (ssdts ≡ order.ssdts.items)) }
    ensures tables { IfOk result (λ order. AreTables dumps.now (indexes_in order)) }
    ensures none { IfErr result (λ e. IsWant e ⊎ ((dsdt : ℕ) (ssdts : List ℕ) →
        ¬ IsOrder dumps.now any_sum dsdt ssdts)) }
    ensures tells { IfErr result (TellsTable dumps.now any_sum) }
    ensures of_order { IfErr result (λ e. (dumps : List Dump) (options : Options) → TellsBlocks dumps options e) }
    ensures no_thread { IfErr result (λ e. ¬ (e ≡ Refusal.NoThread)) }
{
    match load_order(alloc, dumps, any_sum) {
        Ok(order) => Ok(order),
        Err(fault) => Err(refused_order(fault)),
    }
}

/// Why tables that can't be loaded aren't disassembled, by the dump of the table at fault.
fn refused_load(order: &Order, fault: LoadFault) -> Refusal
    ensures { result ≡ load_refusal (indexes_in order.now) fault }
{
    match fault {
        LoadFault::Code(table, fault) => Refusal::Load(LoadFault::Code(
            dump_of(order, table),
            fault,
        )),
        LoadFault::Space(table, fault) => Refusal::Load(LoadFault::Space(
            dump_of(order, table),
            fault,
        )),
        LoadFault::ModuleCall(table) => Refusal::Load(LoadFault::ModuleCall(dump_of(order, table))),
        LoadFault::RunCall(table, path) => Refusal::Load(LoadFault::RunCall(
            dump_of(order, table),
            path,
        )),
        LoadFault::TooManyMethods => Refusal::Load(LoadFault::TooManyMethods),
        LoadFault::NoMemory => Refusal::NoMemory,
    }
}

/// Whether a name outside the methods whose count nothing tells takes none.
fn none_unknown(options: &Options) -> bool
    ensures { result ≡ none_unknown options.now }
{
    options.any_run && options.unknown_zero
}

/// Loads tables by their AML, as the options say.
fn load_in<'a>(
    alloc: Global,
    tables: Vec<Table<'a>>,
    options: &Options,
    order: &Order,
) -> Result<TableSet<'a>, Refusal>
    ensures dumps { IfOk result (λ x. table_dumps x.tables.items ≡ table_dumps tables.entry.items) }
    ensures sound { IfOk result (λ x. (trees : List Trees) × (es : List Entry) ×
        LoadsBy options.now (table_codes tables.entry.items) trees es ×
        HoldsTables x (table_codes tables.entry.items) trees es) }
    ensures one { IfOk result (λ x. (trees : List Trees) (es : List Entry) →
        LoadsBy options.now (table_codes tables.entry.items) trees es →
        HoldsTables x (table_codes tables.entry.items) trees es) }
    ensures few { IfOk result (λ x. length x.methods.items ≤ 1048576) }
    ensures complete { IfErr result (λ e. IsWant e ⊎ ((trees : List Trees) (es : List Entry) →
        LoadsBy options.now (table_codes tables.entry.items) trees es → ⊥)) }
    ensures tells { IfErr result (TellsLoad options.now (table_codes tables.entry.items) (indexes_in order.now)) }
    ensures of_load { IfErr result (λ e. (dumps : List Dump) (any_sum : Bool) → TellsTable dumps any_sum e) }
    ensures no_thread { IfErr result (λ e. ¬ (e ≡ Refusal.NoThread)) }
{
    match load_tables(
        alloc,
        tables,
        options.externals.as_slice(),
        options.any_run,
        none_unknown(options),
    ) {
        Ok(set) => Ok(set),
        Err(fault) => Err(refused_load(order, fault)),
    }
}

/// The order of the tables of a set, and what they load to. No body is read.
pub fn load_set<'a>(
    alloc: Global,
    dumps: &'a [Dump],
    options: &Options,
) -> Result<(Order, TableSet<'a>), Refusal>
    ensures order { IfOk result (λ x. table_dumps x.1.tables.items ≡ indexes_in x.0) }
    ensures set { IfOk result (λ x. IsSet dumps.now options.now x.1) }
    ensures complete { IfErr result (λ e. IsWant e ⊎ ((k : Meaning) → ¬ LoadsSet dumps.now options.now k)) }
    ensures true_table { IfErr result (TellsTable dumps.now options.now.any_sum) }
    ensures true_load { IfErr result (TellsBlocks dumps.now options.now) }
    // No thread is asked for.
    ensures no_thread { IfErr result (λ e. ¬ (e ≡ Refusal.NoThread)) }
{
    let order = order_in(alloc, dumps, options.any_sum)?;
    let tables = tables_of(alloc, dumps, &order)?;
    let set = match load_in(alloc, tables, options, &order) {
        Ok(set) => set,
        Err(refusal) => return Err(refusal),
    };
    Ok((order, set))
}

/// Loads tables by their AML, and keeps of each what a sink keeps, in place of its terms.
fn load_names_in<'a, S: TableSink>(
    alloc: Global,
    tables: Vec<Table<'a>>,
    options: &Options,
    order: &Order,
    sink: &S,
) -> Result<(TableSet<'a>, Vec<S::Kept>), Refusal>
    ensures dumps { IfOk result (λ x. table_dumps x.0.tables.items ≡ table_dumps tables.entry.items) }
    ensures loads { IfOk result (λ x.
        LoadsKept S.keeps sink.now options.now (table_codes tables.entry.items) x.0 x.1.items) }
    ensures few { IfOk result (λ x. length x.0.methods.items ≤ 1048576) }
    ensures complete { IfErr result (λ e. IsWant e ⊎ ((trees : List Trees) (es : List Entry) →
        LoadsBy options.now (table_codes tables.entry.items) trees es → ⊥)) }
{
    let rules = LoadRules {
        givens: options.externals.as_slice(),
        any_run: options.any_run,
        unknown_zero: none_unknown(options),
    };
    match load_names(alloc, tables, rules, sink) {
        Ok(loaded) => Ok(loaded),
        Err(fault) => Err(refused_load(order, fault)),
    }
}

/// What the tables of a set load to, and what a sink keeps of each, in place of its terms. No body is read.
pub(crate) fn load_names_set<'a, S: TableSink>(
    alloc: Global,
    dumps: &'a [Dump],
    options: &Options,
    sink: &S,
) -> Result<(TableSet<'a>, Vec<S::Kept>), Refusal>
    ensures set { IfOk result (λ x. IsKeptSet S.keeps sink.now dumps.now options.now x.0 x.1.items) }
    ensures complete { IfErr result (λ e. IsWant e ⊎ ((k : Meaning) → ¬ LoadsSet dumps.now options.now k)) }
{
    let order = order_in(alloc, dumps, options.any_sum)?;
    let tables = tables_of(alloc, dumps, &order)?;
    let loaded = match load_names_in(alloc, tables, options, &order, sink) {
        Ok(loaded) => loaded,
        Err(refusal) => return Err(refusal),
    };
    Ok(loaded)
}

/// Disassembles a set of dumps by so many workers, 1 to 64, each on a thread of its own, the caller's among them.
///
/// A body that can't be read is raw, and refuses nothing.
pub fn disassemble<'a, R: Threads + Wait + Sync, G: Gate + Sync>(
    rt: &R,
    alloc: Global,
    dumps: &'a [Dump],
    options: Options,
    workers: u32,
    gate: &G,
) -> Result<Listing<'a>, Refusal>
    requires workers { (1 ≤ workers) × (workers ≤ 64) }

    // The dumps mean the listing.
    ensures sound { IfOk result (λ x. (k : Meaning) × Means dumps.now options k ×
        Shows x dumps.now k) }
    // It shows each that they mean.
    ensures one { IfOk result (λ x. (k : Meaning) → Means dumps.now options k →
        Shows x dumps.now k) }
    // Each dump is one that is taken with any checksum.
    ensures taken { IfOk result (λ x. AreTaken x.dumps.now true) }
    // No table is longer than a table may be, and there are no more methods than there may be.
    ensures limits { IfOk result (λ x. AreShort (codes_view x.loaded.tables.items) ×
        (length x.loaded.methods.items ≤ 1048576)) }
    // The fault of each raw body is true of it, and the first that is met.
    ensures told { IfOk result (λ x. (k : Meaning) → Means dumps.now options k →
        Told x dumps.now options k) }
    // Each method was drawn by one worker, once.
    ensures drawn { IfOk result (λ x. AreDrawn workers (length x.loaded.methods.items) x.drawn.items) }
    // A refusal for another cause than memory or threads comes only where the dumps mean nothing, and is true of them:
    // of the dumps themselves, or of the load of their order.
    ensures complete { IfErr result (λ e. IsWant e ⊎ ((k : Meaning) →
        ¬ Means dumps.now options k)) }
    ensures true_table { IfErr result (TellsTable dumps.now options.any_sum) }
    ensures true_load { IfErr result (TellsBlocks dumps.now options) }
    // One worker needs no thread.
    ensures one_needs_no_thread { workers ≡ 1 → IfErr result (λ e. ¬ (e ≡ Refusal.NoThread)) }
{
    let (order, set) = match load_set(alloc, dumps, &options) {
        Ok(set) => set,
        Err(refusal) => return Err(refusal),
    };
    let crew = Crew {
        rt,
        alloc,
        workers,
        gate,
    };
    let found = read_bodies(&crew, &set, options.unknown_zero)?;
    let loaded = Loaded::of(alloc, set)?;
    Ok(Listing {
        dumps,
        order,
        loaded,
        bodies: found.items,
        drawn: found.drawn,
    })
}
