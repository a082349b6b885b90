//! The children of a node, ordered by segment.
ghost use Rattle.std.specs.Ordering.{is_lt};
ghost use Rattle.std.specs.Prelude.{◌≡◌, ◌≤◌, [], ◌∷◌, None, OnOk, OnErr};
ghost use Rattle.aml_names.specs.Paths.{seg_cmp};
ghost use Rattle.aml_children.specs.Children.{child_in, Rise, put, behind, first_node};

use crate::lists::{MOST, find_in, node_after, node_in, put_in, tree_of};
use crate::trees::Tree;
use aml_names::Seg;
use std::alloc::{AllocError, Global};
use std::cmp::Ordering;
use std::marker::Model;

/// The height of a tree at most. A tree of this height would have more than 10^13 children.
const HIGHEST: u64 = 64;

/// A child of a node: its segment, and the number of its node.
#[derive(Clone, Copy)]
pub struct Child {
    pub seg: Seg,
    pub node: usize,
}

/// The children of a node, ordered by segment.
#[derive(Drop)]
pub struct Children {
    kept: Kept,
}

/// How children are kept. An only child, as each segment of a long path is one, needs no memory of its own; and a few
/// take less of it, and less time, in a list, than each with a fork of a tree.
#[derive(Drop)]
enum Kept {
    Nobody,
    Only(Child),
    Few(Box<Vec<Child>>),
    Many(Tree),
}

// Each node has its own.
const _: () = prove!(size_of::<Children>() == 24);

impl Model for Children {
    ghost use Rattle.std.specs.Prelude.{List};
    ghost use Rattle.aml_children.specs.declared.children.Child.{Child};
    ghost use Rattle.aml_children.specs.Codes.{coded_children};
    ghost use Rattle.aml_children.specs.Trees.{kept_list, IsFit};

    ghost Value = { List Child };

    ghost coded = { coded_children };

    ghost view = { λ s. kept_list s.kept };

    ghost invariant = { λ s. IsFit s.kept };
}

impl Children {
    /// No children.
    pub fn new() -> Children
        ensures { result ≡ [] }
    {
        Children { kept: Kept::Nobody }
    }

    /// The node of a segment.
    pub fn node(&self, seg: Seg) -> Option<usize>
        requires { Rise self.now }
        ensures { result ≡ child_in self.now seg }
    {
        match &self.kept {
            Kept::Nobody => None,
            Kept::Only(child) => child.node_of(seg),
            Kept::Few(children) => node_in(children.as_slice(), seg),
            Kept::Many(tree) => tree.node(seg),
        }
    }

    /// The node of the first child.
    pub fn first(&self) -> Option<usize>
        ensures { result ≡ first_node self.now }
    {
        match &self.kept {
            Kept::Nobody => None,
            Kept::Only(child) => Some(child.node),
            Kept::Few(children) => Some(children.first()?.node),
            Kept::Many(tree) => tree.first(),
        }
    }

    /// The node of the first child whose segment comes behind this one.
    pub fn after(&self, seg: Seg) -> Option<usize>
        requires { Rise self.now }
        ensures { result ≡ first_node (behind seg self.now) }
    {
        match &self.kept {
            Kept::Nobody => None,
            Kept::Only(child) => child.node_behind(seg),
            Kept::Few(children) => node_after(children.as_slice(), seg),
            Kept::Many(tree) => tree.after(seg),
        }
    }

    /// What `node` answers, and the comparisons made.
    pub fn find(&self, seg: Seg) -> (Option<usize>, u128)
        requires { Rise self.now }
        ensures node { result.0 ≡ child_in self.now seg }
        ensures few { result.1 ≤ 64 }
    {
        match &self.kept {
            Kept::Nobody => (None, 0),
            Kept::Only(child) => (child.node_of(seg), 1),
            Kept::Few(children) => find_in(children.as_slice(), seg),
            Kept::Many(tree) => tree.find(seg),
        }
    }

    /// Puts a child into its place. A refused one changes nothing.
    pub fn insert(&mut self, alloc: Global, child: Child) -> Result<(), AllocError>
        requires rise { Rise self.old }
        requires absent { child_in self.old child.seg ≡ None }
        ensures ok { OnOk result (self.new ≡ put self.old child) }
        ensures err { OnErr result (self.new ≡ self.old) }
    {
        match &mut self.kept {
            Kept::Nobody => self.kept = Kept::Only(child),
            Kept::Only(only) => {
                let mut children = Box::new(alloc, Vec::new(alloc))?;
                children.push(*only)?;
                put_in(&mut children, child)?;
                self.kept = Kept::Few(children);
            }
            Kept::Few(children) => {
                if children.len() < MOST {
                    return put_in(children, child);
                }
                let mut tree = tree_of(alloc, children.as_slice())?;
                tree.insert(alloc, child)?;
                self.kept = Kept::Many(tree);
            }
            Kept::Many(tree) => {
                if tree.height() >= HIGHEST {
                    return Err(AllocError);
                }
                tree.insert(alloc, child)?;
            }
        }
        Ok(())
    }
}

impl Child {
    /// The child's node, where it has a segment.
    fn node_of(&self, seg: Seg) -> Option<usize>
        ensures { result ≡ child_in (self.now ∷ []) seg }
    {
        match seg.cmp(&self.seg) {
            Ordering::Equal => Some(self.node),
            _ => None,
        }
    }
    /// Whether the child's segment comes behind this one.
    pub(crate) fn is_behind(&self, seg: Seg) -> bool
        ensures { result ≡ is_lt (seg_cmp seg self.now.seg) }
    {
        match seg.cmp(&self.seg) {
            Ordering::Less => true,
            _ => false,
        }
    }

    /// The child's node, where its segment comes behind this one.
    fn node_behind(&self, seg: Seg) -> Option<usize>
        ensures { result ≡ first_node (behind seg (self.now ∷ [])) }
    {
        if self.is_behind(seg) {
            Some(self.node)
        } else {
            None
        }
    }
}
