//! The nodes of the index by path.
ghost use Rattle.std.specs.Prelude.{◌≡◌};
ghost use Rattle.aml_space.specs.Nodes.{empty};

use aml_children::Children;
use aml_names::Seg;
use aml_namespace::{Declarations, PathId};

/// A node of the index. It stands for one path.
#[derive(Drop)]
pub(crate) struct Node {
    /// What the declarations of the path say, where it is declared.
    pub declared: Option<Declarations>,
    /// The greatest count of its Externals.
    pub outs: Option<u8>,
    /// The greatest count that the user gives it.
    pub given: Option<u8>,
    /// The segment by which it is a child of its parent.
    pub seg: Seg,
    /// How many segments its path has.
    pub depth: u32,
    /// The number of its parent; the root is its own.
    pub parent: PathId,
    /// The nodes below.
    pub children: Children,
}

// Each segment of a path has a node, and a path may have many thousands.
const _: () = prove!(size_of::<Node>() == 72);

impl Node {
    /// A node without content, a child of its parent by a segment.
    pub(crate) fn empty(parent: PathId, seg: Seg, depth: u32) -> Node
        ensures { result ≡ empty parent seg depth }
    {
        Node {
            declared: None,
            outs: None,
            given: None,
            seg,
            depth,
            parent,
            children: Children::new(),
        }
    }
}
