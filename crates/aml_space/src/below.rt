//! Paths by the number of another one and the segments behind it.

use aml_names::Seg;
use aml_namespace::PathId;

/// A path by the number of one that it begins with, and the segments behind that. It copies neither.
#[derive(Clone, Copy)]
pub struct Below<'a> {
    /// The number of the path above.
    pub above: PathId,
    /// The segments behind it.
    pub segs: &'a [Seg],
}
