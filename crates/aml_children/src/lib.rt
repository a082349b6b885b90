//! The children of a node of the namespace, ordered by segment: a sequence, kept as a list where they are
//! few, or as a balanced tree.
#![tactic(auto)]

mod children;
mod lists;
mod trees;

pub use children::{Child, Children};
