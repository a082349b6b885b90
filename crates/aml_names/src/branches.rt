//! Paths by where they branch off a scope.
ghost use Rattle.std.specs.Prelude.{◌≡◌, ◌≤◌, ◌<◌, ◌+◌, ◌-◌, ◌^◌, ◌++◌, [], ◌∷◌, List, cond, length, take, slice_get};
ghost use Rattle.std.specs.Prelude.{Some, None, false, IsTrue, ◌↔◌, OnOk, OnErr, IfOk};
ghost use Rattle.std.specs.Bool.{OnTrue, OnFalse};
ghost use Rattle.std.specs.Option.{option_flatten};
ghost use Rattle.std.specs.List.{list_any};
ghost use Rattle.std.specs.BTreeMap.{is_at, get, IsUnchanged};
ghost use Rattle.std.specs.FinSet as set;
ghost use Rattle.aml_names.specs.declared.segments.Seg.{Seg};
ghost use Rattle.aml_names.specs.Paths.{seg_cmp};
ghost use Rattle.aml_names.specs.Branches.{whole, goes_on, end_depth, branch_cmp, IsBranch};
ghost use Rattle.aml_names.specs.Searching.{nearest, deeper};

use crate::faults::NoMemory;
use crate::paths::{Path, same_segs};
use crate::placing::Stand;
use crate::segments::Seg;
use std::alloc::{AllocError, Global};
use std::collections::{BTreeMap, BTreeSet};
use std::marker::Model;

/// A path by where it branches off a scope.
#[derive(Clone, Copy)]
struct Branch<'a> {
    /// How many segments of the scope begin the path.
    depth: usize,
    /// The path's segments behind them. The first isn't the scope's next.
    tail: &'a [Seg],
}

/// Paths that are placed from one scope, as those are that the terms of a method's body have declared so far. Of each
/// only what lies behind the segments in common with the scope is kept, so that it costs in a deep scope what it costs
/// in the root.
#[derive(Drop)]
pub struct Branches<S: Stand> {
    alloc: Global,
    scope: S,
    /// Each path as a branch.
    kept: BTreeSet<(usize, Path)>,
    /// The last segment of each of them, and how many segments of the scope stand before it in the nearest path that is
    /// this segment in the scope or in a parent of it. So a name of one segment is found without a look at a path.
    ends: BTreeMap<Seg, Option<usize>>,
}

impl<S: Stand> Model for Branches<S> {
    ghost use Rattle.std.specs.Prelude.{map};
    ghost use Rattle.std.specs.FinSet as set;
    ghost use Rattle.std.specs.BTreeMap.{get};
    ghost use Rattle.aml_names.specs.Paths.{seg_cmp};
    ghost use Rattle.aml_names.specs.Branches.{whole, AreBranches, Branched, coded_branched};
    ghost use Rattle.aml_names.specs.Searching.{KnowEnds};

    ghost Value = { Branched };

    ghost coded = { coded_branched };

    ghost view = { λ a.
        record { scope = S.path a.scope; paths = set.from_list (map (whole (S.path a.scope)) a.kept.keys) } };

    ghost invariant = { λ a. AreBranches (S.path a.scope) a.kept.keys
        × KnowEnds (set.from_list (map (whole (S.path a.scope)) a.kept.keys)) (S.path a.scope) (get seg_cmp a.ends) };
}

impl<S: Stand> Branches<S> {
    /// No path.
    pub fn new(alloc: Global, scope: S) -> Branches<S>
        ensures { result ≡ record { scope = S.path scope; paths = set.empty } }
    {
        Branches {
            alloc,
            scope,
            kept: BTreeSet::new(alloc),
            ends: BTreeMap::new(alloc),
        }
    }

    /// Whether no path is there.
    pub(crate) fn is_empty(&self) -> bool
        ensures { IsTrue result ↔ self.now.paths ≡ set.empty }
    {
        self.kept.is_empty()
    }

    /// Adds the path of some segments behind a front of the scope. Where memory is refused the paths are as before.
    pub fn insert(&mut self, front: usize, segs: &[Seg]) -> Result<(), NoMemory>
        requires { front ≤ length self.old.scope }
        ensures scope { self.new.scope ≡ self.old.scope }
        ensures ok { OnOk result
            (self.new.paths ≡ set.insert self.old.paths (take front self.old.scope ++ segs.now)) }
        ensures err { OnErr result (self.new ≡ self.old) }
    {
        let branch = branch_of(&self.scope, front, segs);
        let tail = Path::below(self.alloc, &[], branch.tail)?;
        let Some(end) = last_of(&self.scope, branch) else {
            self.kept.insert((branch.depth, tail))?;
            return Ok(());
        };
        let known = deepen(&mut self.ends, end, depth_of(branch))?;
        match self.kept.insert((branch.depth, tail)) {
            Ok(_) => Ok(()),
            Err(_) => {
                // The segment is known by now, so this isn't refused.
                let _ = self.ends.insert(end, known);
                Err(AllocError)
            }
        }
    }

    /// Whether the path of some segments behind a front of the scope is there, in time logarithmic in the number of
    /// paths, and without a look at its other segments where none of the paths ends as it does.
    pub fn contains(&self, front: usize, segs: &[Seg]) -> bool
        requires { front ≤ length self.now.scope }
        ensures { result ≡ set.contains self.now.paths (take front self.now.scope ++ segs.now) }
    {
        self.may_end(segs)
            && has_branch(self.alloc, &self.kept, branch_of(&self.scope, front, segs))
    }

    /// Whether one of the paths may have the last of these segments.
    pub(crate) fn may_end(&self, segs: &[Seg]) -> bool
        ensures { OnFalse result
            ((front : List Seg) → set.contains self.now.paths (front ++ segs.now) ≡ false) }
    {
        match segs.last() {
            None => true,
            Some(end) => self.ends.contains_key(end),
        }
    }

    /// The nearest of the paths that are a segment in the scope or in a parent of it: how many segments of the scope
    /// stand before it.
    pub fn nearest(&self, segment: Seg) -> Option<usize>
        ensures { result ≡ nearest self.now.paths self.now.scope (segment ∷ []) }
    {
        match self.ends.get(&segment) {
            None => None,
            Some(depth) => *depth,
        }
    }
}

/// Whether a scope has a segment at a depth.
fn goes_on<S: Stand>(scope: &S, depth: usize, seg: Seg) -> bool
    ensures test { result ≡ goes_on (S.path scope.now) depth seg }
    ensures room { OnTrue result (depth + 1 < 2 ^ 64) }
{
    depth < scope.depth() && scope.segment_at(depth).cmp(&seg).is_eq()
}

/// Where the path of some segments behind a front of a scope branches off this scope.
fn branch_of<'s, S: Stand>(scope: &S, front: usize, segs: &'s [Seg]) -> Branch<'s>
    requires { front ≤ length (S.path scope.now) }
    ensures branch { IsBranch (S.path scope.now) (result.depth, result.tail.now) }
    ensures whole { whole (S.path scope.now) (result.depth, result.tail.now)
        ≡ take front (S.path scope.now) ++ segs.now }
{
    let mut depth = front;
    for seg in segs {
        if !goes_on(scope, depth, *seg) {
            return Branch {
                depth,
                tail: &segs[depth - front..],
            };
        }
        depth += 1;
    }
    Branch { depth, tail: &[] }
}

/// The last segment of a path; the root has none.
fn last_of<S: Stand>(scope: &S, branch: Branch<'_>) -> Option<Seg>
    requires { branch.depth ≤ length (S.path scope.now) }
    ensures { let path = whole (S.path scope.now) (branch.entry.depth, branch.entry.tail.now) in
        result ≡ slice_get path (length path - 1) }
{
    match branch.tail.last() {
        Some(end) => Some(*end),
        None if branch.depth == 0 => None,
        None => Some(scope.segment_at(branch.depth - 1)),
    }
}

/// How many segments of the scope stand before the last one of a path, if these begin the path.
fn depth_of(branch: Branch<'_>) -> Option<usize>
    ensures { result ≡ end_depth (branch.entry.depth, branch.entry.tail.now) }
{
    match branch.tail {
        [] => Some(branch.depth.saturating_sub(1)),
        [_] => Some(branch.depth),
        _ => None,
    }
}

/// Whether a branch is among others. Where memory for it is refused each of these is looked at.
fn has_branch(alloc: Global, kept: &BTreeSet<(usize, Path)>, branch: Branch<'_>) -> bool
    ensures { result ≡ list_any (is_at (branch_cmp (branch.entry.depth, branch.entry.tail.now))) kept.now.keys }
{
    match Path::below(alloc, &[], branch.tail) {
        Ok(tail) => kept.contains(&(branch.depth, tail)),
        Err(_) => kept.iter().any(|other| is_branch(other, branch)),
    }
}

fn is_branch(kept: &(usize, Path), branch: Branch<'_>) -> bool
    ensures { result ≡ is_at (branch_cmp (branch.entry.depth, branch.entry.tail.now)) kept.now }
{
    kept.0 == branch.depth && same_segs(branch.tail, kept.1.segs())
}

/// Makes a segment known, and the depth in its place if it is greater. The result is the depth that was known before.
fn deepen(
    ends: &mut BTreeMap<Seg, Option<usize>>,
    end: Seg,
    depth: Option<usize>,
) -> Result<Option<usize>, NoMemory>
    ensures ok { OnOk result ((q : Seg) → get seg_cmp ends.new q
        ≡ cond (is_at (seg_cmp end) q) (Some (deeper depth (option_flatten (get seg_cmp ends.old end))))
        (get seg_cmp ends.old q)) }
    ensures known { IfOk result (λ known. known ≡ option_flatten (get seg_cmp ends.old end)) }
    ensures err { OnErr result (IsUnchanged ends.old ends.new) }
{
    let slot = ends.entry(end)?.or_insert(None);
    let known = *slot;
    *slot = deeper_of(depth, known);
    Ok(known)
}

/// The greater of two depths.
fn deeper_of(a: Option<usize>, b: Option<usize>) -> Option<usize>
    ensures { result ≡ deeper a b }
{
    match (a, b) {
        (None, known) => known,
        (Some(depth), None) => Some(depth),
        (Some(depth), Some(known)) => Some(if depth <= known { known } else { depth }),
    }
}
