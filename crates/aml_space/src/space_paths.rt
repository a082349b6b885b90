//! The paths of nodes.
ghost use Rattle.std.specs.Prelude.{◌≡◌, ◌<◌, ◌-◌, length, take, drop, min, IfOk};
ghost use Rattle.aml_namespace.specs.Kinds.{target_in};
ghost use Rattle.aml_space.specs.Nodes.{path_of, paths_in, IsIndex};

use crate::nodes::Node;
use crate::parents::{ancestor, depth_at, fill};
use aml_names::{NoMemory, Path, Seg};
use aml_namespace::PathId;
use std::alloc::Global;
use std::marker::Model;

/// The node of the path of a number; the root where no node has it.
pub(crate) fn numbered(nodes: &[Node], id: PathId) -> usize
    requires { IsIndex nodes.now }
    ensures path { path_of nodes.now result ≡ target_in (paths_in nodes.now) id }
    ensures within { result < length nodes.now }
{
    let at = id.index();
    if at < nodes.len() { at } else { 0 }
}

/// A path of a space. It keeps no segments of its own: each is that by which a node is a child of its parent.
#[derive(Drop)]
pub struct SpacePath<'a> {
    nodes: &'a [Node],
    /// The node of the path.
    at: usize,
}

impl<'a> Model for SpacePath<'a> {
    ghost use Rattle.std.specs.Prelude.{List, ◌<◌, length};
    ghost use Rattle.aml_names.specs.declared.segments.Seg.{Seg};
    ghost use Rattle.aml_names.specs.Paths.{coded_path};
    ghost use Rattle.aml_space.specs.Nodes.{path_of, IsIndex};

    ghost Value = { List Seg };

    ghost coded = { coded_path };

    ghost view = { λ s. path_of s.nodes.now s.at };

    ghost invariant = { λ s. IsIndex s.nodes.now × (s.at < length s.nodes.now) };
}

impl<'a> SpacePath<'a> {
    /// The path of a node.
    pub(crate) fn new(nodes: &'a [Node], at: usize) -> SpacePath<'a>
        requires index { IsIndex nodes.now }
        requires within { at < length nodes.now }
        ensures { result ≡ path_of nodes.now at }
    {
        SpacePath { nodes, at }
    }

    /// How many segments it has.
    pub fn depth(&self) -> usize
        ensures { result ≡ length self.now }
    {
        depth_at(self.nodes, self.at) as usize
    }

    /// Copies its segments from one on to the front of a buffer, as many as it takes. The result is how many these are.
    pub fn copy_segs(&self, from: usize, buffer: &mut [Seg]) -> usize
        ensures count { result ≡ min (length buffer.old) (length self.now - from) }
        ensures copied { take result buffer.new ≡ take result (drop from self.now) }
        ensures long { length buffer.new ≡ length buffer.old }
    {
        let rest = self.depth().saturating_sub(from);
        let count = buffer.len().min(rest);
        let last = ancestor(self.nodes, self.at, rest - count);
        fill(self.nodes, last, count, buffer);
        count
    }

    /// It as a path of its own, which is made anew.
    pub fn to_path(&self, alloc: Global) -> Result<Path, NoMemory>
        ensures { IfOk result (λ path. path ≡ self.now) }
    {
        let mut segs = Vec::new(alloc);
        segs.resize(self.depth(), Seg::default())?;
        let _ = self.copy_segs(0, segs.as_mut_slice());
        Ok(Path::from_segs(segs))
    }
}
