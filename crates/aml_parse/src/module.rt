//! The AML of a table.
#![tactic(auto, unfolding(crate::specs::Reading::all_at))]

ghost use Rattle.std.specs.Prelude.{◌≡◌, ◌⊎◌, ◌≤◌, ◌<◌, ◌^◌, None, Some, Ok, length, OnOk, IfOk, IfErr};
ghost use Rattle.aml_names.specs.NameReading.{Gives, Fails};
ghost use Rattle.aml_code.specs.Faults.{StandsAt};
ghost use Rattle.aml_code.specs.Lawful.{ReadsModule, no_arguments};
ghost use Rattle.aml_code.specs.Pieces.{line_pieces};
ghost use Rattle.aml_code.specs.Tree.{Trees};
ghost use Rattle.aml_code.specs.View.{nodes_view};
ghost use Rattle.aml_parse.specs.Reading.{all_at};

use crate::builder::Builder;
use crate::parser::{MOST_LEVELS, Parser};
use crate::tell::Here;
use aml_code::{CodeFault, Name, Names, NoMemory, Node, Position, Sink};
use std::alloc::Global;

/// In a table no name has arguments, and none is kept.
#[derive(Clone, Copy)]
struct NoArguments;

/// Of names that aren't kept.
#[derive(Clone, Copy)]
struct Nothing;

impl Names for NoArguments {
    ghost use Rattle.std.specs.Prelude.{⊤, None, Some};
    ghost use Rattle.std.specs.FinSet as set;

    type Locals = Nothing;

    ghost arity = { λ _ _ _. Some 0 };

    ghost scope = { λ _. None };

    ghost fits = { λ _ _. ⊤ };

    ghost paths = { λ _ _. set.empty };

    fn keeps(&self) -> bool {
        false
    }

    fn no_locals(&self, _alloc: Global) -> Nothing {
        Nothing
    }

    fn count(
        &self,
        _alloc: Global,
        _locals: &Nothing,
        _name: &Name,
    ) -> Result<Option<u8>, NoMemory> {
        Ok(Some(0))
    }

    fn declare(&self, _alloc: Global, _locals: &mut Nothing, _name: &Name) -> Result<(), NoMemory> {
        Ok(())
    }
}

/// The terms, and the fault that is met first.
fn module_terms(alloc: Global, code: &[u8]) -> Result<Vec<Node>, CodeFault>
    requires { length code.now < 2 ^ 32 }
    ensures { Gives (λ x. nodes_view x.items) result (all_at no_arguments None Position.ModuleTerm code.now) }
{
    let mut builder = Builder::new(alloc);
    tell_module_terms(alloc, code, 0, &mut builder)?;
    Ok(builder.into_nodes())
}

/// The terms of a table's AML, which `code` holds whole. The body of a method isn't read: its tail is the span of
/// `code` in which it stands, since the number of arguments of the names in it isn't known before all tables are.
///
/// A fault's offset is one in `code`, and what the fault says is true there. Which of several faults is answered is the
/// first that is met in reading forward.
pub fn parse_module(alloc: Global, code: &[u8]) -> Result<Vec<Node>, CodeFault>
    // The limit of a table.
    requires { length code.now ≤ 16777216 }

    // What is answered is lawful, and its bytes are the code.
    ensures sound { IfOk result (λ nodes. ReadsModule code.now (nodes_view nodes.items)) }
    // No other terms are.
    ensures one { IfOk result (λ nodes. (ts : Trees) → ReadsModule code.now ts → ts ≡ nodes_view nodes.items) }
    // A refusal for another cause than memory comes only where no terms are.
    ensures complete { IfErr result (λ fault. (fault ≡ CodeFault.NoMemory) ⊎
        ((ts : Trees) → ReadsModule code.now ts → ⊥)) }
    // A fault is true of its offset.
    ensures placed { IfErr result (StandsAt no_arguments code.now) }
    // Which fault it is.
    ensures forward { Gives (λ nodes. nodes_view nodes.items) result
        (all_at no_arguments None Position.ModuleTerm code.now) }
{
    module_terms(alloc, code)
}

/// What `tell_module` tells: the lines of the terms, up to the fault that is met first.
fn tell_module_terms<S: Sink>(
    alloc: Global,
    code: &[u8],
    level: u32,
    sink: &mut S,
) -> Result<(), CodeFault>
    requires { length code.now < 2 ^ 32 }
    ensures told { OnOk result ((ts : Trees) × ((all_at no_arguments None Position.ModuleTerm code.now ≡ Ok ts)
        × S.grew sink.old sink.new (line_pieces level ts))) }
    ensures fails { IfErr result (λ fault. Fails fault (all_at no_arguments None Position.ModuleTerm code.now)) }
{
    let parser = Parser {
        alloc,
        names: &NoArguments,
    };
    let end = code.len() as u32;
    let here = Here {
        position: Position::ModuleTerm,
        levels: MOST_LEVELS,
        level,
    };
    parser.tell_lines(here, end, &mut Nothing, sink, code)?;
    Ok(())
}

/// Tells a sink the terms of a table's AML, which `code` holds whole, piece by piece as they are read, and makes no
/// trees of them. The body of a method isn't read, as in `parse_module`. The terms stand in lines of this level.
///
/// A fault's offset is one in `code`, and what the fault says is true there. Which of several faults is answered is the
/// first that is met in reading forward; what was told until then says nothing.
pub fn tell_module<S: Sink>(
    alloc: Global,
    code: &[u8],
    level: u32,
    sink: &mut S,
) -> Result<(), CodeFault>
    // The limit of a table.
    requires { length code.now ≤ 16777216 }

    // What is told are the pieces of lawful terms, whose bytes are the code: of those that reading forward gives.
    ensures told { OnOk result ((ts : Trees) × (ReadsModule code.now ts
        × ((all_at no_arguments None Position.ModuleTerm code.now ≡ Ok ts)
        × S.grew sink.old sink.new (line_pieces level ts)))) }
    // Of no others.
    ensures one { OnOk result ((ts : Trees) → ReadsModule code.now ts →
        S.grew sink.old sink.new (line_pieces level ts)) }
    // A refusal for another cause than memory comes only where no terms are.
    ensures complete { IfErr result (λ fault. (fault ≡ CodeFault.NoMemory) ⊎
        ((ts : Trees) → ReadsModule code.now ts → ⊥)) }
    // A fault is true of its offset.
    ensures placed { IfErr result (StandsAt no_arguments code.now) }
    // Which fault it is.
    ensures forward { IfErr result (λ fault. Fails fault (all_at no_arguments None Position.ModuleTerm code.now)) }
{
    tell_module_terms(alloc, code, level, sink)?;
    Ok(())
}
