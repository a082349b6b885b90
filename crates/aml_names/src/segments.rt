//! Segments of names.
ghost use Rattle.std.specs.Prelude.{◌≡◌, ◌∷◌, ◌++◌, [], length, Some, IfOk, OnOk, OnErr, refl};
ghost use Rattle.std.specs.Cmp.Rules.{comparing};
ghost use Rattle.std.specs.Int.{w32, from_be_bytes};
ghost use Rattle.aml_names.specs.Paths.{seg_cmp, segs_total, segs_partial};

use smallvec::SmallVec;
use std::alloc::{AllocError, Global};
use std::cmp::Ordering;
use std::fmt;
use std::marker::Model;

/// A NameSeg: four characters of a name, as its bytes (ACPI 6.5, 20.2.2).
#[derive(Clone, Copy, Debug, Default, PartialEq, Eq)]
pub struct Seg(pub [u8; 4]);

impl Seg {
    /// The bytes as one number, the first the highest, so that numbers are ordered as their segments.
    pub fn number(self) -> u32
        ensures { result ≡ from_be_bytes w32 self.0 }
    {
        u32::from_be_bytes(self.0)
    }
}

impl PartialOrd for Seg {
    ghost partial_cmp = { λ a b. Some (seg_cmp a b) };

    ghost laws = { segs_partial };

    fn partial_cmp(&self, other: &Seg) -> Option<Ordering> {
        Some(self.cmp(other))
    }
}

/// By the bytes, as two numbers.
impl Ord for Seg {
    ghost cmp = { seg_cmp };

    ghost total = { segs_total };

    ghost matches_partial_cmp = { λ a b. refl };

    ghost matches_eq = { λ a b. Prim.search comparing };

    fn cmp(&self, other: &Seg) -> Ordering {
        in_order(*self, *other)
    }
}

/// How two segments are ordered.
pub(crate) fn in_order(a: Seg, b: Seg) -> Ordering
    ensures { result ≡ seg_cmp a b }
{
    a.number().cmp(&b.number())
}

/// Each byte as the character of that number.
impl fmt::Display for Seg {
    ghost use Rattle.aml_names.specs.Paths.{segment_text};

    ghost output = { λ s. Some (segment_text s) };

    fn fmt<W: fmt::Write>(&self, f: &mut fmt::Formatter<W>) -> fmt::Result {
        for byte in &self.0 {
            f.write_char(*byte as char)?;
        }
        Ok(())
    }
}

/// The segments of a name. Most names have a few, which need no allocation.
#[derive(Drop)]
pub struct Segs {
    segs: SmallVec<Seg, 4>,
}

impl Model for Segs {
    ghost use Rattle.std.specs.Prelude.{List};
    ghost use Rattle.aml_names.specs.declared.segments.Seg.{Seg};

    ghost Value = { List Seg };

    ghost view = { λ s. s.segs.items };
}

impl Clone for Segs {
    ghost use Rattle.std.specs.Prelude.{◌≡◌};

    ghost is_clone = { λ segs copy. copy ≡ segs };

    fn clone(&self) -> Result<Segs, AllocError> {
        let alloc = *self.segs.allocator();
        match self.as_slice() {
            [seg] => Ok(Segs::one(alloc, *seg)),
            segs => Segs::of(alloc, segs),
        }
    }
}

impl Segs {
    /// No segment.
    pub fn new(alloc: Global) -> Segs
        ensures { result ≡ [] }
    {
        Segs {
            segs: SmallVec::new(alloc),
        }
    }

    /// This segment alone, which needs no allocation.
    pub(crate) fn one(alloc: Global, seg: Seg) -> Segs
        ensures { result ≡ seg ∷ [] }
    {
        let mut segs = SmallVec::new(alloc);
        segs.push_reserved(seg);
        Segs { segs }
    }

    /// These segments.
    pub fn of(alloc: Global, segs: &[Seg]) -> Result<Segs, AllocError>
        ensures { IfOk result (λ all. all ≡ segs.now) }
    {
        let segs = SmallVec::from_slice(alloc, segs)?;
        Ok(Segs { segs })
    }

    /// How many segments there are.
    pub fn len(&self) -> usize
        ensures { result ≡ length self.now }
    {
        self.segs.len()
    }

    /// The segments in order.
    pub fn as_slice(&self) -> &[Seg]
        ensures { result.now ≡ self.now }
    {
        self.segs.as_slice()
    }

    /// Adds a segment at the end. Where memory is refused the segments are as before.
    pub fn push(&mut self, seg: Seg) -> Result<(), AllocError>
        ensures ok { OnOk result (self.new ≡ self.old ++ seg ∷ []) }
        ensures err { OnErr result (self.new ≡ self.old) }
    {
        self.segs.push(seg)?;
        Ok(())
    }
}
