//! A step through a table whose code may run.
#![tactic(auto, unfolding(crate::specs::Reading::step_at))]

ghost use Rattle.std.specs.Prelude.{◌≡◌, ◌⊎◌, ◌≤◌, ◌<◌, ◌+◌, ℕ, None, Ok, length, get_or, IfOk, IfErr};
ghost use Rattle.aml_names.specs.NameReading.{Fails, Gives};
ghost use Rattle.aml_code.specs.Faults.{IsEnd, StandsAt, most_levels};
ghost use Rattle.aml_code.specs.Lawful.{ReadsStep, next_position};
ghost use Rattle.aml_code.specs.Pieces.{pieces};
ghost use Rattle.aml_code.specs.Tree.{Tree};
ghost use Rattle.aml_code.specs.View.{node_view};
ghost use Rattle.aml_parse.specs.Reading.{step_at};

use crate::builder::Builder;
use crate::parser::Parser;
use crate::positions::position_after;
use crate::tell::Here;
use aml_code::{Arity, CodeFault, Locals, Name, Names, NoMemory, Node, Position, Sink, offset_of};
use std::alloc::Global;

/// The names of a table outside methods, whose counts are told, and which aren't kept.
#[derive(Drop)]
struct Outside<'a, A> {
    arity: &'a A,
}

impl<'a, A: Arity> Names for Outside<'a, A> {
    ghost use Rattle.std.specs.Prelude.{◌≡◌, None};
    ghost use Rattle.std.specs.FinSet as set;

    type Locals = Locals;

    ghost arity = { λ o. A.arity o.arity.now };

    ghost scope = { λ _. None };

    ghost fits = { λ _ locals. locals ≡ set.empty };

    ghost paths = { λ _ locals. locals };

    fn no_locals(&self, alloc: Global) -> Locals {
        Locals::new(alloc)
    }

    fn count(&self, alloc: Global, locals: &Locals, name: &Name) -> Result<Option<u8>, NoMemory> {
        self.arity.count(alloc, locals, name)
    }

    fn declare(&self, _alloc: Global, _locals: &mut Locals, _name: &Name) -> Result<(), NoMemory> {
        Ok(())
    }
}

/// Where a term of a table stands whose code may run: in a line of a level, in a position, with so many levels of terms
/// left, and in a span of the table's AML.
#[derive(Clone, Copy)]
pub struct StepAt<'c> {
    pub level: u32,
    pub position: Position,
    pub levels: u16,
    /// The table's AML, whole.
    pub code: &'c [u8],
    /// The offset where the term begins, in bytes.
    pub at: u32,
    /// The offset where the span ends.
    pub end: u32,
}

/// Where a span goes on behind a term.
#[derive(Clone, Copy)]
pub struct Behind {
    pub position: Position,
    /// An offset in bytes.
    pub at: u32,
}

/// What `tell_step` tells and answers, up to the fault that is met first.
fn tell_at<A: Arity, S: Sink>(
    alloc: Global,
    arity: &A,
    here: Here,
    code: &[u8],
    at: u32,
    end: u32,
    sink: &mut S,
) -> Result<Behind, CodeFault>
    requires { (at ≤ end) × (end ≤ length code.now) }
    ensures told { IfOk result (λ x. (t : Tree)
        × ((step_at (A.arity arity.now) here.levels here.position code.now at end
        ≡ Ok (t, x.at)) × ((x.position ≡ next_position here.position t)
        × S.grew sink.old sink.new (pieces here.level t)))) }
    ensures fails { IfErr result (λ fault. Fails fault
        (step_at (A.arity arity.now) here.levels here.position code.now at end)) }
    // The code is of bytes, which a `StepAt` does not say.
    ensures bytes { (i : ℕ) → get_or code.now i 0 < 256 }
{
    let parser = Parser {
        alloc,
        names: &Outside { arity },
    };
    let mut locals = Locals::new(alloc);
    let bytes = &code[at as usize..end as usize];
    let (is_if, rest) = parser.tell_term(here, end, &mut locals, sink, bytes)?;
    Ok(Behind {
        position: position_after(here.position, is_if),
        at: offset_of(end, rest),
    })
}

/// Tells a sink the pieces of the term that stands there, in a line of its level, and makes no tree of it: of the term
/// that `read_step` reads. Answers where its span goes on behind it.
///
/// A fault's offset is one in the code, and what the fault says is true there. Which of several faults is answered is
/// the first that is met in reading forward; what was told until then says nothing.
pub fn tell_step<A: Arity, S: Sink>(
    alloc: Global,
    arity: &A,
    step: &StepAt<'_>,
    sink: &mut S,
) -> Result<Behind, CodeFault>
    // The limit of a table.
    requires table { length step.now.code.now ≤ 16777216 }
    // The span ends with the code, or with a package around it; each level that is used up took a byte at least.
    requires inside { (step.now.at ≤ step.now.end) × (step.now.end ≤ length step.now.code.now) }
    requires ends { IsEnd step.now.code.now step.now.at step.now.end }
    requires deep { most_levels ≤ step.now.levels + step.now.at }

    // What is told are the pieces of a lawful term that stands there: of the one that reading forward gives.
    ensures told { IfOk result (λ x. (t : Tree) × (ReadsStep (A.arity arity.now) step.now.levels step.now.position
        step.now.code.now step.now.at step.now.end t x.at × ((step_at (A.arity arity.now) step.now.levels
        step.now.position step.now.code.now step.now.at step.now.end ≡ Ok (t, x.at)) × ((x.position
        ≡ next_position step.now.position t) × S.grew sink.old sink.new (pieces step.now.level t))))) }
    // No other term does.
    ensures one { IfOk result (λ x. (t : Tree) (behind : ℕ) → ReadsStep (A.arity arity.now) step.now.levels
        step.now.position step.now.code.now step.now.at step.now.end t behind → (behind ≡ x.at) × ((x.position
        ≡ next_position step.now.position t) × S.grew sink.old sink.new (pieces step.now.level t))) }
    // A refusal for another cause than memory comes only where no term does.
    ensures complete { IfErr result (λ fault. (fault ≡ CodeFault.NoMemory) ⊎ ((t : Tree) (behind : ℕ) →
        ReadsStep (A.arity arity.now) step.now.levels step.now.position step.now.code.now step.now.at step.now.end
        t behind → ⊥)) }
    // A fault is true of its offset.
    ensures placed { IfErr result (StandsAt (A.arity arity.now) step.now.code.now) }
    // Which fault it is.
    ensures forward { IfErr result (λ fault. Fails fault (step_at (A.arity arity.now) step.now.levels
        step.now.position step.now.code.now step.now.at step.now.end)) }
{
    let here = Here {
        position: step.position,
        levels: step.levels,
        level: step.level,
    };
    let behind = tell_at(alloc, arity, here, step.code, step.at, step.end, sink)?;
    Ok(behind)
}

/// The term, built of the pieces that are told, and the fault that is met first.
fn build<A: Arity>(
    alloc: Global,
    arity: &A,
    here: Here,
    code: &[u8],
    at: u32,
    end: u32,
) -> Result<(Node, u32), CodeFault>
    requires { (at ≤ end) × (end ≤ length code.now) }
    ensures read { Gives (λ x. (node_view x.0, x.1)) result
        (step_at (A.arity arity.now) here.levels here.position code.now at end) }
    ensures bytes { (i : ℕ) → get_or code.now i 0 < 256 }
{
    let mut builder = Builder::new(alloc);
    let behind = tell_at(alloc, arity, here, code, at, end, &mut builder)?;
    Ok((builder.into_node(), behind.at))
}

/// The term that stands in a position at an offset of a table's AML, which `code` holds whole, inside a span that ends
/// at `end`; and the offset behind it. How many arguments a name takes is asked of `arity`. A term of a table whose
/// code may run (`Position::RunTerm`) is read without the terms inside it, as a method is without its body: its tail is
/// the span of `code` in which they stand, since what is declared in front of them counts for the names in them.
///
/// A fault's offset is one in `code`, and what the fault says is true there. Which of several faults is answered is the
/// first that is met in reading forward.
pub fn read_step<A: Arity>(
    alloc: Global,
    arity: &A,
    position: Position,
    levels: u16,
    code: &[u8],
    at: u32,
    end: u32,
) -> Result<(Node, u32), CodeFault>
    // The limit of a table.
    requires table { length code.now ≤ 16777216 }
    // The span ends with the code, or with a package around it; each level that is used up took a byte at least.
    requires inside { (at ≤ end) × (end ≤ length code.now) }
    requires ends { IsEnd code.now at end }
    requires deep { most_levels ≤ levels + at }

    // What is answered is lawful, and stands there.
    ensures sound { IfOk result (λ x.
        ReadsStep (A.arity arity.now) levels position code.now at end (node_view x.0) x.1) }
    // No other term does.
    ensures one { IfOk result (λ x. (t : Tree) (behind : ℕ) →
        ReadsStep (A.arity arity.now) levels position code.now at end t behind → (t ≡ node_view x.0) × (behind ≡ x.1)) }
    // A refusal for another cause than memory comes only where no term does.
    ensures complete { IfErr result (λ fault. (fault ≡ CodeFault.NoMemory) ⊎ ((t : Tree) (behind : ℕ) →
        ReadsStep (A.arity arity.now) levels position code.now at end t behind → ⊥)) }
    // A fault is true of its offset.
    ensures placed { IfErr result (StandsAt (A.arity arity.now) code.now) }
    // Which fault it is.
    ensures forward { Gives (λ x. (node_view x.0, x.1)) result
        (step_at (A.arity arity.now) levels position code.now at end) }
{
    let here = Here {
        position,
        levels,
        level: 0,
    };
    build(alloc, arity, here, code, at, end)
}
