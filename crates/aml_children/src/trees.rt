//! A balanced tree of children, seen as the list of these in order and the tree's height (Adelson-Velsky and Landis).
ghost use Rattle.std.specs.Prelude.{◌≡◌, ℕ, ◌+◌, ◌^◌, ◌<◌, ◌≤◌, max, [], Some, None, is_ok, if◌then◌else◌, OnOk, OnErr};
ghost use Rattle.aml_children.specs.Children.{child_in, Rise, put, behind, first_node};
ghost use Rattle.aml_children.specs.Trees.{made, list_of, list_and_height, seen, height_of, left_lifted, right_lifted};
ghost use Rattle.aml_children.specs.Trees.{DifferByAtMost, IsBalanced, AreBalanced, IsNearlyBalanced};
ghost use Rattle.aml_children.specs.Trees.{AreNearlyBalanced, CanLean, IsRebalanced, Rebalances};

use crate::children::Child;
use aml_names::Seg;
use std::alloc::{AllocError, Global};
use std::cmp::Ordering;
use std::marker::Model;
use std::mem;

/// A tree of children. The heights of the two sides of each fork differ by one at most.
#[cycle(trees)]
#[derive(Drop)]
pub struct Tree {
    top: Option<Box<Fork>>,
}

/// A child, with those before it and those behind it.
#[cycle(trees)]
#[derive(Drop)]
struct Fork {
    left: Tree,
    child: Child,
    height: u64,
    right: Tree,
}

impl Model for Tree {
    ghost use Rattle.std.specs.Prelude.{ℕ, List, length};
    ghost use Rattle.aml_children.specs.declared.children.Child.{Child};
    ghost use Rattle.aml_children.specs.Codes.{coded_tree};

    ghost Value = { List Child × ℕ };

    ghost coded = { coded_tree };

    ghost use Rattle.aml_children.specs.Trees.{list_and_height, AreBalanced};

    ghost view = { λ a. list_and_height a.top };

    ghost invariant = { λ a. AreBalanced a.top };

    ghost size = { λ d. length d.0 };

    ghost use Rattle.std.proofs.Common.{arith, length-append};

    ghost size_decreases = { λ a h. Prim.grind (arith, length-append) };
}

impl Tree {
    pub fn new() -> Tree
        ensures { result ≡ ([], 0) }
    {
        Tree { top: None }
    }

    pub fn height(&self) -> u64
        ensures { result ≡ self.now.1 }
    {
        match &self.top {
            None => 0,
            Some(fork) => fork.height,
        }
    }

    fn open(self) -> Option<Box<Fork>>
        ensures same_view { list_and_height result ≡ self }
        ensures balanced { AreBalanced result }
    {
        self.top
    }

    fn close(top: Box<Fork>) -> Tree
        requires { IsBalanced top.value }
        ensures same_view { result ≡ seen top.value }
    {
        Tree { top: Some(top) }
    }

    /// The node of a segment.
    pub fn node(&self, seg: Seg) -> Option<usize>
        requires { Rise self.now.0 }
        ensures { result ≡ child_in self.now.0 seg }
    {
        let mut tree = self;
        'forks: loop {
            match &tree.top {
                None => return None,
                Some(fork) => match seg.cmp(&fork.child.seg) {
                    Ordering::Less => tree = &fork.left,
                    Ordering::Equal => return Some(fork.child.node),
                    Ordering::Greater => tree = &fork.right,
                },
            }
        }
    }

    /// The node of the first child.
    pub fn first(&self) -> Option<usize>
        ensures { result ≡ first_node self.now.0 }
    {
        let mut tree = self;
        let mut found = None;
        'forks: loop {
            match &tree.top {
                None => return found,
                Some(fork) => {
                    found = Some(fork.child.node);
                    tree = &fork.left;
                }
            }
        }
    }

    /// The node of the first child whose segment comes behind this one.
    pub fn after(&self, seg: Seg) -> Option<usize>
        requires { Rise self.now.0 }
        ensures { result ≡ first_node (behind seg self.now.0) }
    {
        let mut tree = self;
        let mut found = None;
        'forks: loop {
            match &tree.top {
                None => return found,
                Some(fork) => {
                    if fork.child.is_behind(seg) {
                        found = Some(fork.child.node);
                        tree = &fork.left;
                    } else {
                        tree = &fork.right;
                    }
                }
            }
        }
    }

    /// What `node` answers, and the comparisons made.
    pub fn find(&self, seg: Seg) -> (Option<usize>, u128)
        requires low { self.now.1 ≤ 64 }
        requires rise { Rise self.now.0 }
        ensures node { result.0 ≡ child_in self.now.0 seg }
        ensures few { result.1 ≤ self.now.1 }
    {
        match &self.top {
            None => (None, 0),
            Some(fork) => match seg.cmp(&fork.child.seg) {
                Ordering::Less => {
                    let (found, compared) = fork.left.find(seg);
                    (found, compared + 1)
                }
                Ordering::Equal => (Some(fork.child.node), 1),
                Ordering::Greater => {
                    let (found, compared) = fork.right.find(seg);
                    (found, compared + 1)
                }
            },
        }
    }

    /// Puts a child into its place. The growth comes before the first change. Above a side that is as high as before
    /// nothing is out of balance.
    pub fn insert(&mut self, alloc: Global, child: Child) -> Result<(), AllocError>
        requires room { self.old.1 < 2 ^ 63 }
        requires rise { Rise self.old.0 }
        requires absent { child_in self.old.0 child.seg ≡ None }
        ensures ok { OnOk result (self.new.0 ≡ put self.old.0 child) }
        ensures err { OnErr result (self.new.0 ≡ self.old.0) }
        ensures not_lower { self.old.1 ≤ self.new.1 }
        ensures at_most_one_higher { self.new.1 ≤ self.old.1 + (if is_ok result then 1 else 0) }
    {
        match &mut self.top {
            None => {
                let leaf = Box::new(alloc, Fork::leaf(child))?;
                self.top = Some(leaf);
                return Ok(());
            }
            Some(fork) => match child.seg.cmp(&fork.child.seg) {
                Ordering::Less => {
                    let before = fork.left.height();
                    fork.left.insert(alloc, child)?;
                    if fork.left.height() == before {
                        return Ok(());
                    }
                }
                Ordering::Equal => {}
                Ordering::Greater => {
                    let before = fork.right.height();
                    fork.right.insert(alloc, child)?;
                    if fork.right.height() == before {
                        return Ok(());
                    }
                }
            },
        }
        rebalance(&mut self.top);
        Ok(())
    }
}

impl Fork {
    /// A child alone.
    fn leaf(child: Child) -> Fork
        ensures { result ≡ made ([], 0) child ([], 0) }
    {
        Fork {
            left: Tree::new(),
            child,
            height: 1,
            right: Tree::new(),
        }
    }

    /// Sets the height by the two sides.
    fn renew(&mut self)
        requires { height_of self.old < 2 ^ 64 }
        ensures { self.new ≡ made self.old.left self.old.child self.old.right }
    {
        self.height = self.left.height().max(self.right.height()) + 1;
    }
}

fn rebalance(top: &mut Option<Box<Fork>>)
    requires { AreNearlyBalanced top.old }
    ensures { Rebalances top.old top.new }
{
    *top = match mem::replace(top, None) {
        None => None,
        Some(fork) => Some(balanced(fork)),
    };
}

/// The children of a fork, of whose sides one may be too high by one, in a balanced fork.
fn balanced(mut fork: Box<Fork>) -> Box<Fork>
    requires { IsNearlyBalanced fork.value }
    ensures { IsRebalanced fork.value result.value }
{
    let (left, right) = (fork.left.height(), fork.right.height());
    if left > right + 1 {
        lower_left(fork)
    } else if right > left + 1 {
        lower_right(fork)
    } else {
        fork.renew();
        fork
    }
}

/// The left side is too high: what it has before its own left side's end becomes the top.
#[tactic(auto, using(crate::proofs::Forks::can_lean))]
fn lower_left(mut fork: Box<Fork>) -> Box<Fork>
    requires near { IsNearlyBalanced fork.value }
    requires two_higher { fork.value.left.1 ≡ fork.value.right.1 + 2 }
    ensures { IsRebalanced fork.value result.value }
{
    match mem::replace(&mut fork.left, Tree::new()).open() {
        None => fork,
        Some(left) => lift_left(fork, lean_left(left)),
    }
}

#[tactic(auto, using(crate::proofs::Forks::can_lean))]
fn lower_right(mut fork: Box<Fork>) -> Box<Fork>
    requires near { IsNearlyBalanced fork.value }
    requires two_higher { fork.value.right.1 ≡ fork.value.left.1 + 2 }
    ensures { IsRebalanced fork.value result.value }
{
    match mem::replace(&mut fork.right, Tree::new()).open() {
        None => fork,
        Some(right) => lift_right(fork, lean_right(right)),
    }
}

/// A fork with the same children whose left side is the higher one.
fn lean_left(mut fork: Box<Fork>) -> Box<Fork>
    requires { CanLean fork.value }
    ensures list { list_of result.value ≡ list_of fork.value }
    ensures outer { result.value.left.1 + 1 ≡ fork.value.height }
    ensures inner { (fork.value.height ≤ result.value.right.1 + 3) ×
        (result.value.right.1 + 1 ≤ fork.value.height) }
{
    if fork.left.height() >= fork.right.height() {
        return fork;
    }
    match mem::replace(&mut fork.right, Tree::new()).open() {
        None => fork,
        Some(right) => lift_right(fork, right),
    }
}

fn lean_right(mut fork: Box<Fork>) -> Box<Fork>
    requires { CanLean fork.value }
    ensures list { list_of result.value ≡ list_of fork.value }
    ensures outer { result.value.right.1 + 1 ≡ fork.value.height }
    ensures inner { (fork.value.height ≤ result.value.left.1 + 3) ×
        (result.value.left.1 + 1 ≤ fork.value.height) }
{
    if fork.right.height() >= fork.left.height() {
        return fork;
    }
    match mem::replace(&mut fork.left, Tree::new()).open() {
        None => fork,
        Some(left) => lift_left(fork, left),
    }
}

/// The left side, which was taken out of a fork, becomes the top.
fn lift_left(mut fork: Box<Fork>, mut left: Box<Fork>) -> Box<Fork>
    requires even { DifferByAtMost 1 left.value.right.1 fork.value.right.1 }
    requires room { max left.value.left.1 (max left.value.right.1 fork.value.right.1) ≤ 2 ^ 63 }
    ensures { result.value ≡ left_lifted fork.value left.value }
{
    fork.left = mem::replace(&mut left.right, Tree::new());
    fork.renew();
    left.right = Tree::close(fork);
    left.renew();
    left
}

fn lift_right(mut fork: Box<Fork>, mut right: Box<Fork>) -> Box<Fork>
    requires even { DifferByAtMost 1 fork.value.left.1 right.value.left.1 }
    requires room { max right.value.right.1 (max right.value.left.1 fork.value.left.1) ≤ 2 ^ 63 }
    ensures { result.value ≡ right_lifted fork.value right.value }
{
    fork.right = mem::replace(&mut right.left, Tree::new());
    fork.renew();
    right.left = Tree::close(fork);
    right.renew();
    right
}
