//! The paths that a method body has declared so far.
ghost use Rattle.std.specs.Prelude.{◌≡◌, ◌↔◌, ◌≤◌, ◌++◌, ◌∷◌, [], length, take, IsTrue, IfOk, OnOk, OnErr};
ghost use Rattle.aml_names.specs.Searching.{nearest};
ghost use Rattle.std.specs.FinSet as set;

use crate::branches::Branches;
use crate::faults::NoMemory;
use crate::paths::Path;
use crate::segments::Seg;
use std::alloc::Global;
use std::marker::Model;

/// The paths that the terms of a method body have declared so far, as a set. A name among them takes no arguments.
/// Names that stand in one scope keep them by it instead, as `Branches`.
#[derive(Drop)]
pub struct Locals {
    branches: Branches<Path>,
}

impl Model for Locals {
    ghost use Rattle.std.specs.FinSet as set;
    ghost use Rattle.aml_names.specs.Paths.{path_cmp, coded_path};

    ghost Value = { set.FinSet path_cmp };

    ghost coded = { set.code coded_path };

    ghost view = { λ a. a.branches.paths };
}

impl Locals {
    /// No path.
    pub fn new(alloc: Global) -> Locals
        ensures { result ≡ set.empty }
    {
        Locals {
            branches: Branches::new(alloc, Path::root(alloc)),
        }
    }

    /// Adds a path. Where memory is refused the set is as before.
    pub fn push(&mut self, path: Path) -> Result<(), NoMemory>
        ensures ok { OnOk result (self.new ≡ set.insert self.old path) }
        ensures err { OnErr result (self.new ≡ self.old) }
    {
        self.branches.insert(0, path.segs())
    }

    /// Whether no path is there.
    pub fn is_empty(&self) -> bool
        ensures { IsTrue result ↔ self.now ≡ set.empty }
    {
        self.branches.is_empty()
    }

    /// Whether the path is there, in time logarithmic in their number, and without a look at the path's other segments
    /// where none of them ends as the path does.
    pub fn has(&self, path: &Path) -> bool
        ensures { result ≡ set.contains self.now path.now }
    {
        self.branches.contains(0, path.segs())
    }
    /// Whether the path of some segments behind a front of a scope is there.
    pub fn has_below(
        &self,
        alloc: Global,
        scope: &Path,
        front: usize,
        segs: &[Seg],
    ) -> Result<bool, NoMemory>
        requires { front ≤ length scope.now }
        ensures { IfOk result (λ local. local ≡ set.contains self.now (take front scope.now ++ segs.now)) }
    {
        // Each may have the last of no segments.
        if self.is_empty() {
            return Ok(false);
        }
        if !self.branches.may_end(segs) {
            return Ok(false);
        }
        let path = Path::below(alloc, &scope.segs()[..front], segs)?;
        Ok(self.has(&path))
    }

    /// The nearest of the paths that are a segment in a scope or in a parent of it, by a question for each of these: how
    /// many segments of the scope stand before it.
    pub fn nearest(
        &self,
        alloc: Global,
        scope: &Path,
        segment: Seg,
    ) -> Result<Option<usize>, NoMemory>
        ensures { IfOk result (λ depth. depth ≡ nearest self.now scope.now (segment ∷ [])) }
    {
        if !self.branches.may_end(&[segment]) {
            return Ok(None);
        }
        let mut path = Path::below(alloc, scope.segs(), &[segment])?;
        let mut depth = scope.segs().len();
        'depths: loop {
            if self.has(&path) {
                return Ok(Some(depth));
            }
            if depth == 0 {
                return Ok(None);
            }
            depth -= 1;
            path.raise();
        }
    }
}
