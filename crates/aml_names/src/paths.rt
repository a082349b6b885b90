//! Absolute paths in the namespace.
ghost use Rattle.std.specs.Prelude.{◌≡◌, ℕ, [], ◌++◌, ◌≤◌, ◌-◌, length, take, drop, slice_get, Some, IfOk, refl};
ghost use Rattle.std.specs.Ordering.{eq_by_cmp};
ghost use Rattle.std.specs.Cmp.{partial_equiv_from_equiv, partial_order_from_total, eq_by_cmp_equiv};
ghost use Rattle.std.specs.Fmt.{WritesOnOk};
ghost use Rattle.aml_names.specs.Paths.{path_cmp, paths_total, joined_text};

use crate::segments::{Seg, in_order};
use smallvec::SmallVec;
use std::alloc::{AllocError, Global};
use std::cmp::Ordering;
use std::fmt;
use std::marker::Model;

/// An absolute path: the segments from the root on, none for the root itself (ACPI 6.5, 5.3).
///
/// Paths are ordered by their segments as bytes, a shorter path before those that it begins. A path of up to four
/// segments needs no allocation.
#[derive(Debug, Drop)]
pub struct Path {
    segs: SmallVec<Seg, 4>,
}

// With more segments inside it would be larger; with fewer it would not be smaller.
const _: () = prove!(size_of::<Path>() == 32);

impl Model for Path {
    ghost use Rattle.std.specs.Prelude.{List};
    ghost use Rattle.aml_names.specs.declared.segments.Seg.{Seg};
    ghost use Rattle.aml_names.specs.Paths.{coded_path};

    ghost Value = { List Seg };

    ghost coded = { coded_path };

    ghost view = { λ p. p.segs.items };
}

impl Path {
    /// The root.
    pub fn root(alloc: Global) -> Path
        ensures { result ≡ [] }
    {
        Path {
            segs: SmallVec::new(alloc),
        }
    }

    /// The path of these segments.
    pub fn from_segs(segs: Vec<Seg>) -> Path
        ensures { result ≡ segs.items }
    {
        Path {
            segs: SmallVec::from_vec(segs),
        }
    }

    /// The path of some segments and more below them.
    pub fn below(alloc: Global, front: &[Seg], tail: &[Seg]) -> Result<Path, AllocError>
        ensures { IfOk result (λ path. path ≡ front.now ++ tail.now) }
    {
        let mut segs = SmallVec::new(alloc);
        segs.extend_from_slice(front)?;
        segs.extend_from_slice(tail)?;
        Ok(Path { segs })
    }

    /// Takes the segment before the last one out: the last one then stands in the parent of its scope.
    pub fn raise(&mut self)
        requires { 2 ≤ length self.old }
        ensures { self.new ≡ take (length self.old - 2) self.old ++ drop (length self.old - 1) self.old }
    {
        let above = self.segs.len() - 2;
        self.segs.remove(above);
    }

    /// The last segment; the root has none.
    pub fn last(&self) -> Option<Seg>
        ensures { result ≡ slice_get self.now (length self.now - 1) }
    {
        self.segs().last().copied()
    }

    /// The segments from the root on.
    pub fn segs(&self) -> &[Seg]
        ensures { result.now ≡ self.now }
    {
        self.segs.as_slice()
    }
}

/// `\` and the segments, joined by `.`.
impl fmt::Display for Path {
    ghost use Rattle.aml_names.specs.Paths.{path_text};

    ghost output = { λ path. Some (path_text path) };

    fn fmt<W: fmt::Write>(&self, f: &mut fmt::Formatter<W>) -> fmt::Result {
        f.write_char('\\')?;
        match self.segs() {
            [] => Ok(()),
            [first, others @ ..] => write_segs(f, first, others),
        }
    }
}

/// The segments, joined by `.`.
fn write_segs<W: fmt::Write>(f: &mut fmt::Formatter<W>, first: &Seg, others: &[Seg]) -> fmt::Result
    ensures { WritesOnOk W.write_str_gives f.old result (joined_text first.now others.now) f.new }
{
    write!(f, "{first}")?;
    for seg in others {
        write!(f, ".{seg}")?;
    }
    Ok(())
}

impl Clone for Path {
    ghost is_clone = { λ path copy. copy ≡ path };

    fn clone(&self) -> Result<Path, AllocError> {
        let segs = SmallVec::from_slice(*self.segs.allocator(), self.segs())?;
        Ok(Path { segs })
    }
}

/// So many segments are compared at once.
const BLOCK: usize = 256;

/// How many of so many first segments are the same. It is counted in a number as wide as a segment, since more of them
/// are then compared by one instruction.
fn matches(some: &[Seg], others: &[Seg], count: usize) -> u32
    requires some { count ≤ length some.now }
    requires others { count ≤ length others.now }
    requires block { count ≤ 256 }
    ensures within { result ≤ count }
    ensures all { result ≡ count → take count some.now ≡ take count others.now }
{
    let mut same: u32 = 0;
    for index in 0..count {
        if in_order(some[index], others[index]).is_eq() {
            same += 1;
        }
    }
    same
}

/// How many first segments two paths have in common. They are compared by blocks, each as a whole, which is several
/// times as fast as one segment after the other.
fn common(some: &[Seg], others: &[Seg]) -> usize
    ensures some { result ≤ length some.now }
    ensures others { result ≤ length others.now }
    ensures same { take result some.now ≡ take result others.now }
    ensures most { (n : ℕ) → n ≤ length some.now → n ≤ length others.now →
        take n some.now ≡ take n others.now → n ≤ result }
{
    let most = some.len().min(others.len());
    let mut known: usize = 0;
    while most - known >= BLOCK
        && matches(&some[known..], &others[known..], BLOCK) as usize == BLOCK
    {
        known += BLOCK;
    }
    while known < most && in_order(some[known], others[known]).is_eq() {
        known += 1;
    }
    known
}

/// Whether two paths are the same.
pub(crate) fn same_segs(a: &[Seg], b: &[Seg]) -> bool
    ensures { result ≡ eq_by_cmp path_cmp a.now b.now }
{
    a.len() == b.len() && common(a, b) == a.len()
}

impl PartialEq for Path {
    ghost eq = { eq_by_cmp path_cmp };

    ghost laws = { partial_equiv_from_equiv (eq_by_cmp_equiv paths_total) };

    fn eq(&self, other: &Path) -> bool {
        same_segs(self.segs(), other.segs())
    }
}

impl Eq for Path {
    ghost laws = { eq_by_cmp_equiv paths_total };
}

impl PartialOrd for Path {
    ghost partial_cmp = { λ a b. Some (path_cmp a b) };

    ghost laws = { partial_order_from_total paths_total };

    fn partial_cmp(&self, other: &Path) -> Option<Ordering> {
        Some(self.cmp(other))
    }
}

impl Ord for Path {
    ghost cmp = { path_cmp };

    ghost total = { paths_total };

    ghost matches_partial_cmp = { λ a b. refl };

    ghost matches_eq = { λ a b. refl };

    fn cmp(&self, other: &Path) -> Ordering {
        self.segs().cmp(other.segs())
    }
}
