//! The bytes of a method's body, told piece by piece.
#![tactic(auto, unfolding(crate::specs::Reading::all_at))]

ghost use Rattle.std.specs.Prelude.{◌≡◌, ◌⊎◌, ◌≤◌, ◌<◌, ◌^◌, Some, Ok, length, OnOk, IfErr};
ghost use Rattle.aml_names.specs.NameReading.{Fails};
ghost use Rattle.aml_code.specs.Faults.{StandsAt};
ghost use Rattle.aml_code.specs.Lawful.{ReadsBody};
ghost use Rattle.aml_code.specs.Tree.{Trees};
ghost use Rattle.aml_code.specs.Pieces.{line_pieces};
ghost use Rattle.aml_parse.specs.Reading.{all_at};

use crate::body::Placed;
use crate::parser::{MOST_LEVELS, Parser};
use crate::tell::Here;
use aml_code::{Arity, CodeFault, Names, Path, Position, Sink};
use std::alloc::Global;

/// What `tell_body` tells, by the names of the body: the lines of the terms, up to the fault that is met first.
pub fn tell_terms<N: Names, S: Sink>(
    alloc: Global,
    code: &[u8],
    names: &N,
    level: u32,
    sink: &mut S,
) -> Result<(), CodeFault>
    requires { length code.now < 2 ^ 32 }
    ensures told { OnOk result ((ts : Trees)
        × ((all_at (N.arity names.now) (N.scope names.now) Position.BodyTerm code.now
        ≡ Ok ts) × S.grew sink.old sink.new (line_pieces level ts))) }
    ensures fails { IfErr result (λ fault. Fails fault
        (all_at (N.arity names.now) (N.scope names.now) Position.BodyTerm code.now)) }
{
    let parser = Parser { alloc, names };
    let mut locals = names.no_locals(alloc);
    let end = code.len() as u32;
    let here = Here {
        position: Position::BodyTerm,
        levels: MOST_LEVELS,
        level,
    };
    parser.tell_lines(here, end, &mut locals, sink, code)?;
    Ok(())
}

/// Tells a sink the terms of a method's body, which `code` holds whole, piece by piece as they are read, and makes no
/// trees of them. How many arguments a name takes is asked of `arity`, by the paths that the body has declared so far;
/// `scope` is the method's path, from which these are placed (ACPI 6.5, 5.3). The terms stand in lines of this level.
///
/// A fault's offset is one in `code`, and what the fault says is true there. Which of several faults is answered is the
/// first that is met in reading forward; what was told until then says nothing.
pub fn tell_body<A: Arity, S: Sink>(
    alloc: Global,
    code: &[u8],
    arity: &A,
    scope: &Path,
    level: u32,
    sink: &mut S,
) -> Result<(), CodeFault>
    // The limit of a table.
    requires { length code.now ≤ 16777216 }

    // What is told are the pieces of lawful terms, whose bytes are the code.
    ensures told { OnOk result ((ts : Trees) × (ReadsBody (A.arity arity.now) scope.now code.now ts ×
        S.grew sink.old sink.new (line_pieces level ts))) }
    // Of no others.
    ensures one { OnOk result ((ts : Trees) → ReadsBody (A.arity arity.now) scope.now code.now ts →
        S.grew sink.old sink.new (line_pieces level ts)) }
    // A refusal for another cause than memory comes only where no terms are.
    ensures complete { IfErr result (λ fault. (fault ≡ CodeFault.NoMemory) ⊎
        ((ts : Trees) → ReadsBody (A.arity arity.now) scope.now code.now ts → ⊥)) }
    // A fault is true of its offset.
    ensures placed { IfErr result (StandsAt (A.arity arity.now) code.now) }
    // Which fault it is.
    ensures forward { IfErr result (λ fault. Fails fault
        (all_at (A.arity arity.now) (Some scope.now) Position.BodyTerm code.now)) }
{
    tell_terms(alloc, code, &Placed { arity, scope }, level, sink)?;
    Ok(())
}
