//! Where a name leads from a scope.
ghost use Rattle.std.specs.Prelude.{◌≡◌, ◌<◌, ◌≤◌, ◌++◌, [], List, length, take, get_or, IfOk, IfSome};
ghost use Rattle.aml_names.specs.declared.segments.Seg.{Seg as AnySeg};
ghost use Rattle.std.specs.Option.{option_map};
ghost use Rattle.aml_names.specs.Names.{placed};

use crate::faults::NoMemory;
use crate::names::Name;
use crate::paths::Path;
use crate::segments::Seg;
use std::alloc::Global;

/// A path in which names stand.
pub trait Stand: Drop {
    ghost path: { Self → List AnySeg };

    /// How many segments it has.
    fn depth(&self) -> usize
        ensures { result ≡ length (path self.now) };

    /// The segment at a place.
    fn segment_at(&self, place: usize) -> Seg
        requires { place < length (path self.now) }
        ensures { result ≡ get_or (path self.now) place (record { 0 = [] }) };
}

impl Stand for Path {
    ghost path = { λ path. path };

    fn depth(&self) -> usize {
        self.segs().len()
    }

    fn segment_at(&self, place: usize) -> Seg {
        self.segs()[place]
    }
}

/// How many segments of a scope stand before a name's own where the name leads without a search: none after a root
/// prefix, else all but as many as there are parent prefixes (ACPI 6.5, 5.3). `None` where the prefixes lead above the
/// root.
pub fn front_of<S: Stand>(scope: &S, name: &Name) -> Option<usize>
    ensures placed { placed (S.path scope.now) name.now
        ≡ option_map (λ front. take front (S.path scope.now) ++ name.now.segs) result }
    ensures within { IfSome result (λ front. front ≤ length (S.path scope.now)) }
{
    if name.root {
        return Some(0);
    }
    scope.depth().checked_sub(name.ups as usize)
}

/// The path that a name leads to from a scope, without a search: a front of the scope, and then the name's segments
/// (ACPI 6.5, 5.3). `None` where the prefixes lead above the root.
pub fn place(alloc: Global, scope: &Path, name: &Name) -> Result<Option<Path>, NoMemory>
    ensures { IfOk result (λ path. path ≡ placed scope.now name.now) }
{
    match front_of(scope, name) {
        None => Ok(None),
        Some(front) => {
            let path = Path::below(alloc, &scope.segs()[..front], name.segs.as_slice())?;
            Ok(Some(path))
        }
    }
}
