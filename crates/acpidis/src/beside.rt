//! The load of a set and the texts of its tables, made side by side by workers: where the code outside methods may not
//! run, the terms of a table hang on no other table.
ghost use Rattle.std.specs.Prelude.{◌≡◌, ◌⊎◌, ◌≤◌, ◌+◌, ℕ, Some, IfOk, IfErr, IfSome, length, map, slice_get};
ghost use Rattle.std.specs.List.{AllZip};
ghost use Rattle.std.specs.Vec.Iter.{into_iter_items};
ghost use Rattle.aml_code.specs.Lawful.{ReadsModule};
ghost use Rattle.aml_code.specs.Pieces.{line_pieces};
ghost use Rattle.aml_code.specs.Tree.{Trees};
ghost use Rattle.aml_set.specs.Views.{table_codes};
ghost use Rattle.acpidis.specs.Beside.{IsLoad, IsLoaded, IsPart, IsTextOf, text_in};
ghost use Rattle.acpidis.specs.Meaning.{LoadsSet, Meaning};
ghost use Rattle.acpidis.specs.Refusals.{IsWant};
ghost use Rattle.acpidis.specs.declared.beside.Part.{Part as Made};

use crate::crew::Crew;
use crate::disassembling::{load_names_set, order_in};
use crate::options::Options;
use crate::refusal::Refusal;
use crate::tables::tables_of;
use acpi_tables::Dump;
use aml_code::{CodeFault, Piece, Sink, TableSink, Telling};
use aml_parse::tell_module;
use aml_pool::{FreeGate, Gate, NoMemory, Work, harvest};
use aml_set::{Table, TableSet};
use aml_text::{TableText, TableTexts};
use std::alloc::{AllocError, Global};
use std::sync::Wait;
use std::thread::Threads;
use std::vec::IntoIter;

/// How many tables are told side by side at most.
const MOST_TABLES: usize = 65_536;

/// A table that is told by itself.
#[derive(Drop)]
struct Single<'a> {
    alloc: Global,
    code: &'a [u8],
}

impl Telling for Single<'_> {
    ghost can_tell = { λ t. length t.code.now ≤ 16777216 };

    type Made = ();

    type Fault = CodeFault;

    ghost tells = { λ t made ps. (ts : Trees) → ReadsModule t.code.now ts → ps ≡ line_pieces 1 ts };

    ghost fails = { λ t fault. Unit {0} };

    fn tell_all<S: Sink>(self, sink: &mut S) -> Result<(), CodeFault> {
        tell_module(self.alloc, self.code, 1, sink)
    }
}

/// The text of a table by itself, if it can be read and its text takes no more memory than its terms.
fn text_of(alloc: Global, code: &[u8]) -> Option<TableText>
    requires { length code.now ≤ 16777216 }
    ensures { IfSome result (IsTextOf code.now) }
{
    let texts = TableTexts { alloc };
    match texts.take(code, Single { alloc, code }) {
        Ok((_made, text)) => text,
        Err(_) => None,
    }
}

/// Who hears nothing of what is told.
#[derive(Drop)]
struct Deaf;

impl Sink for Deaf {
    ghost grew = { λ a b ps. Unit {0} };

    #[inline(always)]
    fn tell(&mut self, _piece: &Piece<'_>) -> Result<(), AllocError> {
        Ok(())
    }

    ghost nothing = { λ s. tt };

    ghost further = { λ a b c ps qs h g. tt };
}

/// Nothing is kept of tables that are told.
#[derive(Clone, Copy)]
struct Untold;

impl TableSink for Untold {
    type Kept = ();

    ghost keeps = { λ s code ps kept. Unit {0} };

    fn take<T: Telling>(&self, _code: &[u8], telling: T) -> Result<(T::Made, ()), T::Fault> {
        match telling.tell_all(&mut Deaf) {
            Ok(made) => Ok((made, ())),
            Err(fault) => Err(fault),
        }
    }
}

/// What a worker makes of a set.
#[derive(Drop)]
pub(crate) enum Part<'d> {
    /// What its tables load to.
    Set(Result<TableSet<'d>, Refusal>),
    /// The text of a table.
    Text(Option<TableText>),
}

impl Part<'_> {
    /// The text of a table, if it is one.
    fn into_text(self) -> Option<TableText>
        ensures { result ≡ text_in self.entry }
    {
        match self {
            Part::Text(text) => text,
            Part::Set(_) => None,
        }
    }
}

/// A set whose load and whose tables' texts are pieces of work.
#[derive(Drop)]
struct Beside<'t, 'd> {
    alloc: Global,
    dumps: &'d [Dump],
    options: &'t Options,
    tables: &'t [Table<'d>],
}

impl<'d> Work for Beside<'_, 'd> {
    type Done = Part<'d>;

    ghost can_work = { λ w n. n ≤ length w.tables.now };

    ghost gives = { λ w n part. IsPart w.dumps.now w.options.now (table_codes w.tables.now) n part };

    /// The load, which takes longest, and then the texts of the tables in their order.
    fn work(&self, number: u32) -> Result<Part<'d>, NoMemory> {
        if number == 0 {
            return Ok(Part::Set(load_untold(self.alloc, self.dumps, self.options)));
        }
        let table = &self.tables[number as usize - 1];
        Ok(Part::Text(text_of(self.alloc, table.code)))
    }
}

/// What the tables of a set load to. No text and no terms are kept.
fn load_untold<'d>(
    alloc: Global,
    dumps: &'d [Dump],
    options: &Options,
) -> Result<TableSet<'d>, Refusal>
    ensures { IsLoad dumps.now options.now result }
{
    let (set, _kept) = load_names_set(alloc, dumps, options, &Untold)?;
    Ok(set)
}

/// The texts among parts.
fn texts_of(alloc: Global, parts: IntoIter<Part<'_>>) -> Result<Vec<Option<TableText>>, AllocError>
    ensures { IfOk result (λ texts. texts.items ≡ map text_in (into_iter_items parts.entry)) }
{
    let mut texts = Vec::new(alloc);
    for part in parts {
        texts.push(part.into_text())?;
    }
    Ok(texts)
}

impl<'d> Beside<'_, 'd> {
    /// The set, and the texts of its tables, that workers made.
    fn taken_apart(
        &self,
        parts: Vec<Part<'d>>,
    ) -> Result<Option<(TableSet<'d>, Vec<Option<TableText>>)>, Refusal>
        requires all { length parts.items ≡ length self.now.tables.now + 1 }
        requires each { (n : ℕ) (d : Made) → slice_get parts.items n ≡ Some d →
            IsPart self.now.dumps.now self.now.options.now (table_codes self.now.tables.now) n d }
        ensures set { IfOk result (λ met. IfSome met (λ x. IsLoaded self.now.dumps.now self.now.options.now x.0
            × AllZip (λ code text. IfSome text (IsTextOf code)) (table_codes self.now.tables.now) x.1.items)) }
        ensures complete { IfErr result (λ e. IsWant e ⊎
            ((k : Meaning) → LoadsSet self.now.dumps.now self.now.options.now k → ⊥)) }
    {
        let mut parts = parts.into_iter();
        match parts.next() {
            Some(Part::Set(Ok(set))) => {
                let texts = texts_of(self.alloc, parts)?;
                Ok(Some((set, texts)))
            }
            Some(Part::Set(Err(refusal))) => Err(refusal),
            _ => Ok(None),
        }
    }
}

/// What the tables of a set load to, and the text of each that has one, by the crew; nothing where a thread or memory for
/// the crew was refused.
pub(crate) fn load_beside<'d, R: Threads + Wait + Sync, G: Gate + Sync>(
    crew: &Crew<'_, R, G>,
    dumps: &'d [Dump],
    options: &Options,
) -> Result<Option<(TableSet<'d>, Vec<Option<TableText>>)>, Refusal>
    requires workers { (1 ≤ crew.now.workers) × (crew.now.workers ≤ 64) }
    ensures set { IfOk result (λ met. IfSome met (λ x. IsLoaded dumps.now options.now x.0
        × AllZip (λ code text. IfSome text (IsTextOf code)) (table_codes x.0.tables.items) x.1.items)) }
    ensures complete { IfErr result (λ e. IsWant e ⊎ ((k : Meaning) → LoadsSet dumps.now options.now k → ⊥)) }
{
    let order = order_in(crew.alloc, dumps, options.any_sum)?;
    let tables = tables_of(crew.alloc, dumps, &order)?;
    if tables.len() > MOST_TABLES {
        return Ok(None);
    }
    let beside = Beside {
        alloc: crew.alloc,
        dumps,
        options,
        tables: tables.as_slice(),
    };
    let count = tables.len() as u32 + 1;
    let workers = crew.workers.min(count);
    match harvest(crew.rt, crew.alloc, workers, count, &beside, &FreeGate) {
        Ok(made) => beside.taken_apart(made.items),
        Err(_) => Ok(None),
    }
}
