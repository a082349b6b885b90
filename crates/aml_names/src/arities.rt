//! How many arguments a name takes, and what is kept of the names that terms declare.
ghost use Rattle.std.specs.Prelude.{◌≡◌, ℕ, List, Option, None, false, IfOk, OnOk};
ghost use Rattle.std.specs.FinSet as set;
ghost use Rattle.aml_names.specs.Branches.{with_declared_name};
ghost use Rattle.aml_names.specs.Paths.{PathSet};
ghost use Rattle.aml_names.specs.declared.names.Name.{Name};
ghost use Rattle.aml_names.specs.declared.segments.Seg.{Seg};

use crate::faults::NoMemory;
use crate::locals::Locals;
use crate::names::Name;
use std::alloc::Global;

/// What tells how many arguments follow a name. AML doesn't spell the number: it depends on what the name stands for
/// (ACPI 6.5, 20.2.5: a MethodInvocation is a NameString and a TermArgList).
pub trait Arity {
    /// The number of arguments, by the paths declared so far in the body; nothing for a name that leads nowhere.
    ghost arity: { Self → PathSet → Name → Option ℕ };

    /// That number.
    fn count(&self, alloc: Global, locals: &Locals, name: &Name) -> Result<Option<u8>, NoMemory>
        ensures { IfOk result (λ count. count ≡ arity self.now locals.now name.now) };
}

/// What a reader of terms asks of names: how many arguments they take, and that the ones which the terms declare are
/// kept, by the scope in which they stand.
pub trait Names {
    /// What is kept of the paths that the terms have declared so far.
    type Locals: Drop;

    /// The number of arguments, as `Arity` has it.
    ghost arity: { Self → PathSet → Name → Option ℕ };

    /// The path from which declared names are placed; without one they aren't kept.
    ghost scope: { Self → Option (List Seg) };

    /// Whether these are kept for such names.
    ghost fits: { Self → Self.Locals → Type 0 };

    /// The paths that they stand for.
    ghost paths: { Self → Self.Locals → PathSet };

    /// Whether declared names are kept. Where they aren't, no reader reads one again to have it declared.
    fn keeps(&self) -> bool
        ensures { result ≡ false → scope self.now ≡ None }
    {
        true
    }

    /// No path.
    fn no_locals(&self, alloc: Global) -> Self::Locals
        ensures fits { fits self.now result }
        ensures paths { paths self.now result ≡ set.empty };

    /// How many arguments a name takes.
    fn count(
        &self,
        alloc: Global,
        locals: &Self::Locals,
        name: &Name,
    ) -> Result<Option<u8>, NoMemory>
        requires { fits self.now locals.now }
        ensures { IfOk result (λ count. count ≡ arity self.now (paths self.now locals.now) name.now) };

    /// Adds the path of a declared name. One that leads above the root has none.
    fn declare(&self, alloc: Global, locals: &mut Self::Locals, name: &Name) -> Result<(), NoMemory>
        requires { fits self.now locals.old }
        ensures fits { fits self.now locals.new }
        ensures declared { OnOk result
            (paths self.now locals.new ≡ with_declared_name (scope self.now) (paths self.now locals.old) name.now) };
}
