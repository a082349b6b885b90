//! The bytes of a method's body.
#![tactic(auto, unfolding(crate::specs::Reading::all_at))]

ghost use Rattle.std.specs.Prelude.{◌≡◌, ◌⊎◌, ◌≤◌, ◌<◌, ◌^◌, Some, length, IfOk, IfErr};
ghost use Rattle.aml_names.specs.NameReading.{Gives};
ghost use Rattle.aml_code.specs.Faults.{StandsAt};
ghost use Rattle.aml_code.specs.Lawful.{ReadsBody};
ghost use Rattle.aml_code.specs.Tree.{Trees};
ghost use Rattle.aml_code.specs.View.{nodes_view};
ghost use Rattle.aml_parse.specs.Reading.{all_at};

use crate::builder::Builder;
use crate::told::tell_terms;
use aml_code::{Arity, CodeFault, Locals, Name, Names, NoMemory, Node, Path, Position, place};
use std::alloc::Global;

/// The names of a body whose counts anybody tells who has all of its paths, and the scope from which these are placed.
#[derive(Drop)]
pub(crate) struct Placed<'a, A> {
    pub arity: &'a A,
    pub scope: &'a Path,
}

impl<'a, A: Arity> Names for Placed<'a, A> {
    ghost use Rattle.std.specs.Prelude.{⊤, Some};

    type Locals = Locals;

    ghost arity = { λ p. A.arity p.arity.now };

    ghost scope = { λ p. Some p.scope.now };

    ghost fits = { λ p locals. ⊤ };

    ghost paths = { λ p locals. locals };

    fn no_locals(&self, alloc: Global) -> Locals {
        Locals::new(alloc)
    }

    fn count(&self, alloc: Global, locals: &Locals, name: &Name) -> Result<Option<u8>, NoMemory> {
        self.arity.count(alloc, locals, name)
    }

    fn declare(&self, alloc: Global, locals: &mut Locals, name: &Name) -> Result<(), NoMemory> {
        match place(alloc, self.scope, name)? {
            None => Ok(()),
            Some(path) => locals.push(path),
        }
    }
}

/// What `parse_body` answers, by the names of the body: the terms, and the fault that is met first.
pub fn body_terms<N: Names>(alloc: Global, code: &[u8], names: &N) -> Result<Vec<Node>, CodeFault>
    requires { length code.now < 2 ^ 32 }
    ensures { Gives (λ x. nodes_view x.items) result
        (all_at (N.arity names.now) (N.scope names.now) Position.BodyTerm code.now) }
{
    let mut builder = Builder::new(alloc);
    tell_terms(alloc, code, names, 0, &mut builder)?;
    Ok(builder.into_nodes())
}

/// The terms of a method's body, which `code` holds whole. How many arguments a name takes is asked of `arity`, by the
/// paths that the body has declared so far; `scope` is the method's path, from which these are placed (ACPI 6.5, 5.3).
///
/// A fault's offset is one in `code`, and what the fault says is true there. Which of several faults is answered is the
/// first that is met in reading forward.
pub fn parse_body<A: Arity>(
    alloc: Global,
    code: &[u8],
    arity: &A,
    scope: &Path,
) -> Result<Vec<Node>, CodeFault>
    // The limit of a table.
    requires { length code.now ≤ 16777216 }

    // What is answered is lawful, and its bytes are the code.
    ensures sound { IfOk result (λ nodes. ReadsBody (A.arity arity.now) scope.now code.now (nodes_view nodes.items)) }
    // No other terms are.
    ensures one { IfOk result (λ nodes. (ts : Trees) → ReadsBody (A.arity arity.now) scope.now code.now ts →
        ts ≡ nodes_view nodes.items) }
    // A refusal for another cause than memory comes only where no terms are.
    ensures complete { IfErr result (λ fault. (fault ≡ CodeFault.NoMemory) ⊎
        ((ts : Trees) → ReadsBody (A.arity arity.now) scope.now code.now ts → ⊥)) }
    // A fault is true of its offset.
    ensures placed { IfErr result (StandsAt (A.arity arity.now) code.now) }
    // Which fault it is.
    ensures forward { Gives (λ nodes. nodes_view nodes.items) result
        (all_at (A.arity arity.now) (Some scope.now) Position.BodyTerm code.now) }
{
    body_terms(alloc, code, &Placed { arity, scope })
}
