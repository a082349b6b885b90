//! The paths that a body has declared so far, as the search of a name asks for them.
ghost use Rattle.std.specs.Prelude.{◌≡◌, ◌≤◌, ◌++◌, [], ◌∷◌, List, length, take, IfOk};
ghost use Rattle.std.specs.FinSet as set;
ghost use Rattle.aml_names.specs.declared.segments.Seg.{Seg as AnySeg};
ghost use Rattle.aml_names.specs.Paths.{PathSet};
ghost use Rattle.aml_names.specs.Searching.{nearest};

use aml_names::{Branches, Locals, NoMemory, Path, Seg, Stand};
use std::alloc::Global;

/// Declared paths, seen from a scope.
pub(crate) trait Seen {
    ghost paths: { Self → PathSet };

    /// Whether they are seen from this scope.
    ghost fits: { Self → List AnySeg → Type 0 };

    /// Whether the path of some segments behind a front of the scope is there.
    fn has_below(&self, front: usize, segs: &[Seg]) -> Result<bool, NoMemory>
        requires { (scope : List AnySeg) × fits self.now scope × (front ≤ length scope) }
        ensures { (scope : List AnySeg) → fits self.now scope → IfOk result (λ local.
            local ≡ set.contains (paths self.now) (take front scope ++ segs.now)) };

    /// The nearest of the paths that are a segment in the scope or in a parent of it: how many segments of the scope
    /// stand before it.
    fn nearest(&self, segment: Seg) -> Result<Option<usize>, NoMemory>
        ensures { (scope : List AnySeg) → fits self.now scope → IfOk result (λ depth.
            depth ≡ nearest (paths self.now) scope (segment ∷ [])) };
}

/// None is declared.
#[derive(Clone, Copy)]
pub(crate) struct NoLocals;

impl Seen for NoLocals {
    ghost use Rattle.std.specs.Prelude.{⊤};
    ghost use Rattle.std.specs.FinSet as set;

    ghost paths = { λ _. set.empty };

    ghost fits = { λ _ _. ⊤ };

    fn has_below(&self, _front: usize, _segs: &[Seg]) -> Result<bool, NoMemory> {
        Ok(false)
    }

    fn nearest(&self, _segment: Seg) -> Result<Option<usize>, NoMemory> {
        Ok(None)
    }
}

impl<S: Stand> Seen for Branches<S> {
    ghost use Rattle.std.specs.Prelude.{◌≡◌};

    ghost paths = { λ locals. locals.paths };

    ghost fits = { λ locals scope. locals.scope ≡ scope };

    fn has_below(&self, front: usize, segs: &[Seg]) -> Result<bool, NoMemory> {
        Ok(self.contains(front, segs))
    }

    fn nearest(&self, segment: Seg) -> Result<Option<usize>, NoMemory> {
        Ok(Branches::nearest(self, segment))
    }
}

/// Paths that are kept whole, seen from any scope.
#[derive(Drop)]
pub(crate) struct Elsewhere<'l, 's> {
    pub alloc: Global,
    pub locals: &'l Locals,
    pub scope: &'s Path,
}

impl Seen for Elsewhere<'_, '_> {
    ghost use Rattle.std.specs.Prelude.{◌≡◌};

    ghost paths = { λ seen. seen.locals.now };

    ghost fits = { λ seen scope. seen.scope.now ≡ scope };

    fn has_below(&self, front: usize, segs: &[Seg]) -> Result<bool, NoMemory> {
        self.locals.has_below(self.alloc, self.scope, front, segs)
    }

    fn nearest(&self, segment: Seg) -> Result<Option<usize>, NoMemory> {
        self.locals.nearest(self.alloc, self.scope, segment)
    }
}
