//! Who has a child by a segment.
ghost use Rattle.std.specs.Prelude.{◌≡◌, ℕ, ◌<◌, ◌≤◌, ◌^◌, false, true, IfSome, OnOk};
ghost use Rattle.aml_space.specs.Edges.{key_of, has_edge};
ghost use Rattle.aml_names.specs.declared.segments.Seg.{Seg as AnySeg};

use aml_names::{NoMemory, Seg};
use std::alloc::Global;
use std::collections::BTreeSet;

/// The segments by which nodes have children, each with the number of the parent, in order.
#[derive(Drop)]
pub(crate) struct Edges {
    pub keys: BTreeSet<u64>,
}

fn key(seg: Seg, parent: usize) -> u64
    requires { parent < 2 ^ 32 }
    ensures { result ≡ key_of seg parent }
{
    (seg.number() as u64) * 0x1_0000_0000 + parent as u64
}

impl Edges {
    pub(crate) fn new(alloc: Global) -> Edges
        ensures { (s : AnySeg) (p : ℕ) → has_edge result s p ≡ false }
    {
        Edges {
            keys: BTreeSet::new(alloc),
        }
    }

    /// One more. A refused one takes none away.
    pub(crate) fn add(&mut self, seg: Seg, parent: usize) -> Result<(), NoMemory>
        requires { parent < 2 ^ 32 }
        ensures old { (s : AnySeg) (p : ℕ) → has_edge self.old s p ≡ true → has_edge self.new s p ≡ true }
        ensures new { OnOk result (has_edge self.new seg parent ≡ true) }
    {
        self.keys.insert(key(seg, parent))?;
        Ok(())
    }

    /// The greatest number of a node up to this one that has a child by a segment.
    pub(crate) fn before(&self, seg: Seg, from: usize) -> Option<usize>
        requires { from < 2 ^ 32 }
        ensures { (p : ℕ) → p ≤ from → IfSome result (λ r. r < p) → has_edge self.now seg p ≡ false }
    {
        let most = key(seg, from);
        let found: u64 = *self.keys.range(..=most).next_back()?;
        if found / 0x1_0000_0000 == seg.number() as u64 {
            Some((found % 0x1_0000_0000) as usize)
        } else {
            None
        }
    }
}
