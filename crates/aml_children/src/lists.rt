//! A few children in a list.
ghost use Rattle.std.specs.Prelude.{◌≡◌, ◌+◌, ◌≤◌, length, OnOk, OnErr, IfOk};
ghost use Rattle.std.specs.List.{insert};
ghost use Rattle.aml_children.specs.Children.{child_in, Rise, put, behind, first_node};

use crate::children::Child;
use crate::trees::Tree;
use aml_names::Seg;
use std::alloc::{AllocError, Global};

/// So many children are kept in a list, which is searched from its front; more are found faster in a tree.
pub(crate) const MOST: usize = 32;

/// The node of a segment.
pub(crate) fn node_in(children: &[Child], seg: Seg) -> Option<usize>
    ensures { result ≡ child_in children.now seg }
{
    for child in children {
        if seg.cmp(&child.seg).is_eq() {
            return Some(child.node);
        }
    }
    None
}

/// What `node_in` answers, and the comparisons made.
pub(crate) fn find_in(children: &[Child], seg: Seg) -> (Option<usize>, u128)
    requires { length children.now ≤ 32 }
    ensures node { result.0 ≡ child_in children.now seg }
    ensures few { result.1 ≤ length children.now }
{
    let mut compared = 0;
    for child in children {
        compared += 1;
        if seg.cmp(&child.seg).is_eq() {
            return (Some(child.node), compared);
        }
    }
    (None, compared)
}

/// The node of the first child whose segment comes behind this one.
pub(crate) fn node_after(children: &[Child], seg: Seg) -> Option<usize>
    ensures { result ≡ first_node (behind seg children.now) }
{
    for child in children {
        if child.is_behind(seg) {
            return Some(child.node);
        }
    }
    None
}

/// The place of a new child.
fn place_of(children: &[Child], child: Child) -> usize
    ensures place { put children.now child ≡ insert children.now result child }
    ensures within { result ≤ length children.now }
{
    for place in 0..children.len() {
        if !children[place].seg.cmp(&child.seg).is_lt() {
            return place;
        }
    }
    children.len()
}

/// Puts a child into its place. A refused one changes nothing.
#[tactic(auto, using(crate::proofs::Sides::length_put))]
pub(crate) fn put_in(children: &mut Vec<Child>, child: Child) -> Result<(), AllocError>
    ensures ok { OnOk result (children.new.items ≡ put children.old.items child) }
    ensures err { OnErr result (children.new.items ≡ children.old.items) }
    ensures long { length children.new.items ≤ length children.old.items + 1 }
{
    let place = place_of(children.as_slice(), child);
    children.insert(place, child)?;
    Ok(())
}

/// A tree of a few children.
pub(crate) fn tree_of(alloc: Global, children: &[Child]) -> Result<Tree, AllocError>
    requires few { length children.now ≤ 32 }
    requires rise { Rise children.now }
    ensures list { IfOk result (λ tree. tree.0 ≡ children.now) }
    ensures low { IfOk result (λ tree. tree.1 ≤ 32) }
{
    let mut tree = Tree::new();
    for child in children {
        tree.insert(alloc, *child)?;
    }
    Ok(tree)
}
