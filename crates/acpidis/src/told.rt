//! The tables of a set as a run prints them: by the texts that are told of them, or by their terms.
ghost use Rattle.std.specs.Prelude.{◌≡◌, ◌⊎◌, ◌≤◌, true, false, IfOk, IfErr, is_some};
ghost use Rattle.std.specs.List.{list_all};
ghost use Rattle.acpidis.specs.Meaning.{LoadsSet, Meaning};
ghost use Rattle.acpidis.specs.Refusals.{IsWant};
ghost use Rattle.acpidis.specs.Told.{HasTexts};

use crate::beside::load_beside;
use crate::crew::Crew;
use crate::disassembling::{load_names_set, load_set};
use crate::options::Options;
use crate::refusal::Refusal;
use acpi_tables::Dump;
use aml_pool::Gate;
use aml_set::TableSet;
use aml_text::{TableText, TableTexts};
use std::alloc::Global;
use std::sync::Wait;
use std::thread::Threads;

/// Dumps of fewer bytes are read by the caller alone: to start a thread takes as long.
const LEAST_BYTES: usize = 65_536;

/// Whether each table has its text.
fn has_all(texts: &[Option<TableText>]) -> bool
    ensures { result ≡ list_all is_some texts.now }
{
    texts.iter().all(|text| text.is_some())
}

/// The set with the text of each table; or else with the terms of each, where one has no text.
fn or_terms<'a>(
    alloc: Global,
    dumps: &'a [Dump],
    options: &Options,
    told: (TableSet<'a>, Vec<Option<TableText>>),
) -> Result<(TableSet<'a>, Vec<Option<TableText>>), Refusal>
    requires { list_all is_some told.1.items ≡ true → HasTexts dumps.now options.now told.0 told.1.items }
    ensures set { IfOk result (λ x. HasTexts dumps.now options.now x.0 x.1.items) }
    ensures complete { IfErr result (λ e. IsWant e ⊎ ((k : Meaning) → ¬ LoadsSet dumps.now options.now k)) }
{
    if has_all(told.1.as_slice()) {
        return Ok(told);
    }
    let (_order, set) = load_set(alloc, dumps, options)?;
    Ok((set, Vec::new(alloc)))
}

/// What the tables of a set load to, and the text of each, told while they declare; or else the terms of each, where one
/// of the texts would take more memory than these. No body is read.
pub(crate) fn load_texts_alone<'a>(
    alloc: Global,
    dumps: &'a [Dump],
    options: &Options,
) -> Result<(TableSet<'a>, Vec<Option<TableText>>), Refusal>
    ensures set { IfOk result (λ x. HasTexts dumps.now options.now x.0 x.1.items) }
    ensures complete { IfErr result (λ e. IsWant e ⊎ ((k : Meaning) → ¬ LoadsSet dumps.now options.now k)) }
{
    let told = load_names_set(alloc, dumps, options, &TableTexts { alloc })?;
    or_terms(alloc, dumps, options, told)
}

/// Whether several workers load a set sooner than one: where its tables hang on no other, and are long.
fn is_shared(dumps: &[Dump], options: &Options, workers: u32) -> bool
    ensures { result ≡ true → options.now.any_run ≡ false }
{
    let mut bytes: usize = 0;
    for dump in dumps {
        bytes = bytes.saturating_add(dump.bytes.len());
    }
    !options.any_run && workers > 1 && bytes >= LEAST_BYTES
}

/// The same by a crew.
pub(crate) fn load_texts<'a, R: Threads + Wait + Sync, G: Gate + Sync>(
    crew: &Crew<'_, R, G>,
    dumps: &'a [Dump],
    options: &Options,
) -> Result<(TableSet<'a>, Vec<Option<TableText>>), Refusal>
    requires workers { (1 ≤ crew.now.workers) × (crew.now.workers ≤ 64) }
    ensures set { IfOk result (λ x. HasTexts dumps.now options.now x.0 x.1.items) }
    ensures complete { IfErr result (λ e. IsWant e ⊎ ((k : Meaning) → ¬ LoadsSet dumps.now options.now k)) }
{
    if is_shared(dumps, options, crew.workers) {
        if let Some(told) = load_beside(crew, dumps, options)? {
            return or_terms(crew.alloc, dumps, options, told);
        }
    }
    load_texts_alone(crew.alloc, dumps, options)
}
