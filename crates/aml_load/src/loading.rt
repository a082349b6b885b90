//! The load of tables in their order.
ghost use Rattle.std.specs.Prelude.{◌≡◌, ◌⊎◌, true, false, List, Bool, Err, IfOk, IfErr, Some, length};
ghost use Rattle.std.specs.Prelude.{nat_eq, ◌≤◌, ◌||◌};
ghost use Rattle.aml_names.specs.declared.segments.Seg.{Seg as AnySeg};
ghost use Rattle.aml_load.specs.Groups.{group_uses, use_in, uses_of};
ghost use Rattle.std.specs.Option.{option_eq};
ghost use Rattle.aml_code.specs.Tree.{Trees};
ghost use Rattle.aml_namespace.specs.Namespace.{Entry, given_entries};
ghost use Rattle.aml_namespace.specs.Known.{StandsFor};
ghost use Rattle.aml_load.specs.Declaring.{Listed, first_listed, most_methods, use_count, call_fault, uses_at};
ghost use Rattle.aml_load.specs.Kept.{AreKeptOf};
ghost use Rattle.aml_load.specs.Loading.{LoadsTo};
ghost use Rattle.aml_load.specs.Tables.{StopsFor, GivesBy, GivesLoad, GivesSet};
ghost use Rattle.aml_load.specs.HearingViews.{TablesHeard, FailToTell, IsChecked};
ghost use Rattle.aml_load.specs.Views.{HoldsKept, HoldsLoad, HoldsTables};
ghost use Rattle.aml_load.specs.Walking.{Holds, Gives};
ghost use Rattle.aml_set.specs.Code.{AreCodes, AreShort};
ghost use Rattle.aml_set.specs.Views.{codes_view, table_codes, table_dumps, table_terms, trees_view};

use crate::faults::LoadFault;
use crate::groups::Group;
use crate::hearer::hear_table;
use crate::sites::Site;
use crate::used::Asked;
use crate::walking::Progress;
use aml_code::{Locals, NoMemory, Node, Path, TableSink};
use aml_names::{ArgumentCount, Arity, place};
use aml_parse::TableTerms;
use aml_set::{Loaded, Table, TableSet};
use aml_space::{BodyNames, Space, SpacePath};
use std::alloc::Global;

/// The names as one sees them that stands in their scope outside the methods.
fn names_for<'a>(names: BodyNames<'a>, unknown_zero: bool, asked: &Asked) -> BodyNames<'a>
    ensures { result ≡ record {
      known = names.entry.known;
      method = names.entry.method;
      unknown_zero = unknown_zero || asked.now.declaring;
    } }
{
    names.with_unknown(unknown_zero || asked.declaring)
}

/// How many arguments a name takes that stands outside the methods, once all tables are there.
fn count_of(alloc: Global, names: &BodyNames<'_>, asked: &Asked) -> Result<Option<u8>, NoMemory>
    ensures { (l : Listed) (scope : List AnySeg) (unknown_zero : Bool) → StandsFor names.now.known l.entries →
        names.now.method ≡ scope →
        names.now.unknown_zero ≡ (unknown_zero || asked.now.declaring) →
        IfOk result (λ n. n ≡ use_count unknown_zero l.entries (use_in scope asked.now)) }
{
    names.count(alloc, &Locals::new(alloc), &asked.name)
}

/// Whether a count is this number.
fn is_count(args: usize, count: Option<u8>) -> bool
    ensures { result ≡ option_eq nat_eq count (Some args) }
{
    match count {
        None => false,
        Some(count) => count as usize == args,
    }
}

/// The fault of a name that takes another number of arguments than it was read with.
fn call_fault(
    alloc: Global,
    any_run: bool,
    scope: &SpacePath<'_>,
    asked: &Asked,
) -> Result<LoadFault, NoMemory>
    ensures { IfOk result (λ fault. fault ≡ call_fault any_run (use_in scope.now asked.now)) }
{
    if !any_run {
        return Ok(LoadFault::ModuleCall(asked.table));
    }
    match place(alloc, &scope.to_path(alloc)?, &asked.name)? {
        None => Ok(LoadFault::ModuleCall(asked.table)),
        Some(path) => Ok(LoadFault::RunCall(asked.table, path)),
    }
}

/// Looks at each name of a group.
#[tactic(auto, unfolding(crate::specs::Declaring::uses_at))]
fn check_group(
    alloc: Global,
    space: &Space,
    any_run: bool,
    unknown_zero: bool,
    group: &Group,
) -> Result<(), LoadFault>
    ensures { (l : Listed) → StandsFor space.now l.entries →
        Gives (λ x. x) result (uses_at any_run unknown_zero l.entries (group_uses space.now group.now)) }
{
    let mut names = BodyNames::numbered(space, group.scope, unknown_zero);
    for asked in &group.names {
        names = names_for(names, unknown_zero, asked);
        let count = count_of(alloc, &names, asked)?;
        if !is_count(asked.args, count) {
            return Err(call_fault(alloc, any_run, &space.path(group.scope), asked)?);
        }
    }
    Ok(())
}

/// Looks at each name that stands outside the methods. `ModuleCall` or `RunCall` at the first that takes another number
/// of arguments than it was read with.
#[tactic(auto, unfolding(crate::specs::Declaring::uses_at))]
fn check_uses(
    alloc: Global,
    space: &Space,
    any_run: bool,
    unknown_zero: bool,
    groups: &[Group],
) -> Result<(), LoadFault>
    ensures { (l : Listed) → StandsFor space.now l.entries →
        Gives (λ x. x) result (uses_at any_run unknown_zero l.entries (uses_of space.now groups.now)) }
{
    for group in groups {
        check_group(alloc, space, any_run, unknown_zero, group)?;
    }
    Ok(())
}

/// A namespace before any table, with the counts that the user gives.
fn space_with(alloc: Global, givens: &[(Path, ArgumentCount)]) -> Result<Space, NoMemory>
    ensures stands { IfOk result (λ space. StandsFor space (given_entries givens.now)) }
{
    let mut space = Space::new(alloc)?;
    for (path, count) in givens {
        space.given(path, count.get())?;
    }
    Ok(space)
}

/// What the tables have made before any of them.
pub fn first_progress(alloc: Global, givens: &[(Path, ArgumentCount)]) -> Result<Progress, NoMemory>
    ensures { IfOk result (λ progress. Holds progress (first_listed givens.now)) }
{
    Ok(Progress {
        alloc,
        space: space_with(alloc, givens)?,
        methods: Vec::new(alloc),
        uses: Vec::new(alloc),
    })
}

/// The set of tables that were declared so, once each name that stands outside the methods was looked at.
fn checked_set<'a>(
    mut progress: Progress,
    tables: Vec<Table<'a>>,
    any_run: bool,
    unknown_zero: bool,
) -> Result<TableSet<'a>, LoadFault>
    ensures tables { IfOk result (λ x. x.tables.items ≡ tables.entry.items) }
    ensures checked { (l : Listed) → Holds progress l →
        IsChecked result l (uses_at any_run unknown_zero l.entries l.uses) }
{
    progress.space.settle()?;
    check_uses(
        progress.alloc,
        &progress.space,
        any_run,
        unknown_zero,
        progress.uses.as_slice(),
    )?;
    Ok(TableSet {
        tables,
        space: progress.space,
        methods: progress.methods,
    })
}

/// Reads tables, and declares what their terms declare: no term is kept. Gives what is kept of each.
#[tactic(auto, unfolding(crate::specs::Tables::tables_at))]
fn hear_tables<S: TableSink>(
    progress: Progress,
    any_run: bool,
    tables: &[Table<'_>],
    sink: &S,
) -> Result<(Progress, Vec<S::Kept>), LoadFault>
    ensures heard { IfOk result (λ x. TablesHeard any_run progress (table_codes tables.now) x.0
        (λ trees. AreKeptOf S.keeps sink.now (table_codes tables.now) trees x.1.items)) }
    ensures each { IfOk result (λ x. length x.1.items ≡ length tables.now) }
    ensures fails { IfErr result (FailToTell any_run progress (table_codes tables.now)) }
{
    let mut heard = progress;
    let mut kept = Vec::new(heard.alloc);
    for number in 0..tables.len() {
        let (progress, one) = hear_table(heard, any_run, number, tables[number].code, sink)?;
        heard = progress;
        kept.push(one)?;
    }
    Ok((heard, kept))
}

#[tactic(auto, unfolding(crate::specs::Tables::load_at))]
fn hear_each<'a, S: TableSink>(
    alloc: Global,
    tables: Vec<Table<'a>>,
    rules: LoadRules<'_>,
    sink: &S,
) -> Result<(TableSet<'a>, Vec<S::Kept>), LoadFault>
    ensures dumps { IfOk result (λ x. table_dumps x.0.tables.items ≡ table_dumps tables.entry.items) }
    ensures each { IfOk result (λ x. length x.1.items ≡ length x.0.tables.items) }
    ensures gives { GivesBy (HoldsKept S.keeps sink.now) rules.entry.any_run rules.entry.unknown_zero
        rules.entry.givens.now result (table_codes tables.entry.items) }
{
    let progress = first_progress(alloc, rules.givens)?;
    let (heard, kept) = hear_tables(progress, rules.any_run, tables.as_slice(), sink)?;
    let set = checked_set(heard, tables, rules.any_run, rules.unknown_zero)?;
    Ok((set, kept))
}

/// How tables load.
#[derive(Clone, Copy)]
pub struct LoadRules<'g> {
    /// Argument counts that the user gives to paths.
    pub givens: &'g [(Path, ArgumentCount)],
    /// Whether the code outside methods may run.
    pub any_run: bool,
    /// Whether a name outside the methods of which nothing tells how many arguments it takes, takes none.
    pub unknown_zero: bool,
}

/// Loads tables that aren't read yet as one, as `load` does, or as `load_any_run` where `rules.any_run` says so, and keeps
/// no terms: each table keeps its place, its dump and its AML. The sink is told each table once, as it declares: what it
/// keeps of them is answered too, in load order.
pub fn load_names<'a, S: TableSink>(
    alloc: Global,
    tables: Vec<Table<'a>>,
    rules: LoadRules<'_>,
    sink: &S,
) -> Result<(TableSet<'a>, Vec<S::Kept>), LoadFault>
    // The tables are the same ones.
    ensures dumps { IfOk result (λ x. table_dumps x.0.tables.items ≡ table_dumps tables.entry.items) }
    // Their AML reads as terms that load to entries whose namespace and methods are the answer's; and of each table is
    // kept what the sink keeps of its AML and these terms.
    ensures sound { IfOk result (λ x. (trees : List Trees) × (es : List Entry) ×
        LoadsTo rules.entry.any_run rules.entry.unknown_zero rules.entry.givens.now (table_codes tables.entry.items)
        trees es × HoldsKept S.keeps sink.now x (table_codes tables.entry.items) trees es) }
    // To nothing else.
    ensures one { IfOk result (λ x. (trees : List Trees) (es : List Entry) →
        LoadsTo rules.entry.any_run rules.entry.unknown_zero rules.entry.givens.now (table_codes tables.entry.items)
        trees es → HoldsKept S.keeps sink.now x (table_codes tables.entry.items) trees es) }
    // There are at most so many methods.
    ensures few { IfOk result (λ x. length x.0.methods.items ≤ most_methods) }
    // A refusal for another cause than memory comes only where there are no trees and entries that load.
    ensures complete { IfErr result (λ e. (e ≡ LoadFault.NoMemory) ⊎ ((trees : List Trees) (es : List Entry) →
        LoadsTo rules.entry.any_run rules.entry.unknown_zero rules.entry.givens.now (table_codes tables.entry.items)
        trees es → ⊥)) }
    // A fault is true of its table and of the entries where it stands.
    ensures true_fault { IfErr result (λ e. (e ≡ LoadFault.NoMemory) ⊎ StopsFor rules.entry.any_run
        rules.entry.unknown_zero rules.entry.givens.now (table_codes tables.entry.items) e) }
    // Which fault it is: the first that is met in loading forward.
    ensures forward { GivesBy (HoldsKept S.keeps sink.now) rules.entry.any_run rules.entry.unknown_zero
        rules.entry.givens.now result (table_codes tables.entry.items) }
{
    hear_each(alloc, tables, rules, sink)
}

/// Puts terms into tables, in their order.
fn put_terms(tables: &mut Vec<Table<'_>>, terms: Vec<Vec<Node>>)
    requires { length terms.items ≡ length tables.old.items }
    ensures dumps { table_dumps tables.new.items ≡ table_dumps tables.old.items }
    ensures codes { table_codes tables.new.items ≡ table_codes tables.old.items }
    ensures terms { table_terms tables.new.items ≡ trees_view terms.items }
{
    let mut number = 0;
    for nodes in terms {
        tables[number].terms = nodes;
        number += 1;
    }
}

/// Loads tables, and keeps their terms in them.
fn load_each<'a>(
    alloc: Global,
    tables: Vec<Table<'a>>,
    rules: LoadRules<'_>,
) -> Result<TableSet<'a>, LoadFault>
    ensures dumps { IfOk result (λ x. table_dumps x.tables.items ≡ table_dumps tables.entry.items) }
    ensures gives { GivesSet rules.entry.any_run rules.entry.unknown_zero rules.entry.givens.now result
        (table_codes tables.entry.items) }
{
    let (mut set, terms) = hear_each(alloc, tables, rules, &TableTerms { alloc })?;
    put_terms(&mut set.tables, terms);
    Ok(set)
}

/// Loads tables that aren't read yet as one, as `load` does, or as `load_any_run` where `any_run` says so: each keeps
/// its place, its dump and its AML, and has its terms then.
pub fn load_tables<'a>(
    alloc: Global,
    tables: Vec<Table<'a>>,
    givens: &[(Path, ArgumentCount)],
    any_run: bool,
    unknown_zero: bool,
) -> Result<TableSet<'a>, LoadFault>
    // The tables are the same ones.
    ensures dumps { IfOk result (λ x. table_dumps x.tables.items ≡ table_dumps tables.entry.items) }
    // Their AML reads as their terms, and these load to entries whose namespace and methods are the answer's.
    ensures sound { IfOk result (λ x. (trees : List Trees) × (es : List Entry) ×
        LoadsTo any_run unknown_zero givens.now (table_codes tables.entry.items) trees es ×
        HoldsTables x (table_codes tables.entry.items) trees es) }
    // To nothing else.
    ensures one { IfOk result (λ x. (trees : List Trees) (es : List Entry) →
        LoadsTo any_run unknown_zero givens.now (table_codes tables.entry.items) trees es →
        HoldsTables x (table_codes tables.entry.items) trees es) }
    // There are at most so many methods.
    ensures few { IfOk result (λ x. length x.methods.items ≤ most_methods) }
    // A refusal for another cause than memory comes only where there are no trees and entries that load.
    ensures complete { IfErr result (λ e. (e ≡ LoadFault.NoMemory) ⊎ ((trees : List Trees) (es : List Entry) →
        LoadsTo any_run unknown_zero givens.now (table_codes tables.entry.items) trees es → ⊥)) }
    // A fault is true of its table and of the entries where it stands.
    ensures true_fault { IfErr result (λ e. (e ≡ LoadFault.NoMemory) ⊎
        StopsFor any_run unknown_zero givens.now (table_codes tables.entry.items) e) }
    // Which fault it is: the first that is met in loading forward.
    ensures forward { GivesSet any_run unknown_zero givens.now result (table_codes tables.entry.items) }
{
    let rules = LoadRules {
        givens,
        any_run,
        unknown_zero,
    };
    load_each(alloc, tables, rules)
}

/// Tables by their AML, which aren't read yet, each with its place for the index of its dump.
fn unread_tables<'a>(alloc: Global, codes: &[&'a [u8]]) -> Result<Vec<Table<'a>>, NoMemory>
    requires { AreShort (codes_view codes.now) }
    ensures { IfOk result (λ tables. table_codes tables.items ≡ codes_view codes.now) }
{
    let mut tables = Vec::new(alloc);
    for number in 0..codes.len() {
        tables.push(Table::unread(alloc, number, codes[number]))?;
    }
    Ok(tables)
}

/// Loads tables, and gives their AML and their terms in lists of their own.
fn load_lists<'a>(
    alloc: Global,
    codes: &[&'a [u8]],
    rules: LoadRules<'_>,
) -> Result<Loaded<'a>, LoadFault>
    requires { AreShort (codes_view codes.now) }
    ensures bytes { (result ≡ Err LoadFault.NoMemory) ⊎ AreCodes (codes_view codes.now) }
    ensures gives { GivesLoad rules.entry.any_run rules.entry.unknown_zero rules.entry.givens.now result
        (codes_view codes.now) }
{
    let tables = unread_tables(alloc, codes)?;
    let set = load_each(alloc, tables, rules)?;
    let loaded = Loaded::of(alloc, set)?;
    Ok(loaded)
}

/// Loads tables as one, each by its AML, in load order.
///
/// Each table is read whole, and then its terms declare in the order of the text. A path is declared once; a Scope or
/// an Alias needs a name that is predefined or came earlier; there are at most 1,048,576 methods; and no name that
/// takes arguments stands as a TermArg outside the methods. The fault is the first that is met.
///
/// `givens` are argument counts that the user gives to paths. They count for a name that leads nowhere that
/// any table names, by the first of the paths that it may mean, and the greatest of a path; and they declare nothing.
pub fn load<'a>(
    alloc: Global,
    tables: &[&'a [u8]],
    givens: &[(Path, ArgumentCount)],
) -> Result<Loaded<'a>, LoadFault>
    // The limit of a table.
    requires { AreShort (codes_view tables.now) }

    // The tables' AML reads as the trees, and these load to entries whose namespace and methods are the answer's.
    ensures sound { IfOk result (λ x. (trees : List Trees) × (es : List Entry) ×
        LoadsTo false false givens.now (codes_view tables.now) trees es ×
        HoldsLoad x (codes_view tables.now) trees es) }
    // To nothing else.
    ensures one { IfOk result (λ x. (trees : List Trees) (es : List Entry) →
        LoadsTo false false givens.now (codes_view tables.now) trees es →
        HoldsLoad x (codes_view tables.now) trees es) }
    // No table is longer than a table may be, and there are at most so many methods.
    ensures short { IfOk result (λ x. AreShort (codes_view x.tables.items)) }
    ensures few { IfOk result (λ x. length x.methods.items ≤ most_methods) }
    // A refusal for another cause than memory comes only where there are no trees and entries that load.
    ensures complete { IfErr result (λ e. (e ≡ LoadFault.NoMemory) ⊎ ((trees : List Trees) (es : List Entry) →
        LoadsTo false false givens.now (codes_view tables.now) trees es → ⊥)) }
    // A fault is true of its table and of the entries where it stands.
    ensures true_fault { IfErr result (λ e. (e ≡ LoadFault.NoMemory) ⊎
        StopsFor false false givens.now (codes_view tables.now) e) }
    // Which fault it is: the first that is met in loading forward.
    ensures forward { GivesLoad false false givens.now result (codes_view tables.now) }
{
    let rules = LoadRules {
        givens,
        any_run: false,
        unknown_zero: false,
    };
    load_lists(alloc, tables, rules)
}

/// Loads tables as one, as `load` does, where the code outside methods may run. Each table is read from the left: how
/// many arguments a name outside methods takes is what every run agrees on by what is declared in front of it, and none
/// where nothing tells. A path may be declared again. Once all tables are there, each of these names takes as many as
/// were read with it; one that nothing knows takes none with `unknown_zero`, and in a declaration.
pub fn load_any_run<'a>(
    alloc: Global,
    tables: &[&'a [u8]],
    givens: &[(Path, ArgumentCount)],
    unknown_zero: bool,
) -> Result<Loaded<'a>, LoadFault>
    // The limit of a table.
    requires { AreShort (codes_view tables.now) }

    // The tables' AML reads as the trees, and these load to entries whose namespace and methods are the answer's.
    ensures sound { IfOk result (λ x. (trees : List Trees) × (es : List Entry) ×
        LoadsTo true unknown_zero givens.now (codes_view tables.now) trees es ×
        HoldsLoad x (codes_view tables.now) trees es) }
    // To nothing else.
    ensures one { IfOk result (λ x. (trees : List Trees) (es : List Entry) →
        LoadsTo true unknown_zero givens.now (codes_view tables.now) trees es →
        HoldsLoad x (codes_view tables.now) trees es) }
    // No table is longer than a table may be, and there are at most so many methods.
    ensures short { IfOk result (λ x. AreShort (codes_view x.tables.items)) }
    ensures few { IfOk result (λ x. length x.methods.items ≤ most_methods) }
    // A refusal for another cause than memory comes only where there are no trees and entries that load.
    ensures complete { IfErr result (λ e. (e ≡ LoadFault.NoMemory) ⊎ ((trees : List Trees) (es : List Entry) →
        LoadsTo true unknown_zero givens.now (codes_view tables.now) trees es → ⊥)) }
    // A fault is true of its table and of the entries where it stands.
    ensures true_fault { IfErr result (λ e. (e ≡ LoadFault.NoMemory) ⊎
        StopsFor true unknown_zero givens.now (codes_view tables.now) e) }
    // Which fault it is: the first that is met in loading forward.
    ensures forward { GivesLoad true unknown_zero givens.now result (codes_view tables.now) }
{
    let rules = LoadRules {
        givens,
        any_run: true,
        unknown_zero,
    };
    load_lists(alloc, tables, rules)
}
