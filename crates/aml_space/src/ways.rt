//! The ways up from nodes: which nodes have a child by a segment, and steps of all lengths.
ghost use Rattle.std.specs.Prelude.{◌≡◌, ◌+◌, ◌<◌, ◌++◌, ◌∷◌, [], List, length, get_or, OnOk, Some};
ghost use Rattle.aml_space.specs.declared.nodes.Node.{Node as AnyNode};
ghost use Rattle.aml_space.specs.Nodes.{IsIndex};
ghost use Rattle.aml_space.specs.Candidates.{AreEdged, AreSteps, AreWays};

use crate::edges::Edges;
use crate::nodes::Node;
use crate::parents::{depth_at, link};
use aml_names::NoMemory;
use aml_namespace::PathId;
use std::alloc::Global;

/// By what the next node above another is found that has a child by a segment. A node's is kept once searches want it.
#[derive(Drop)]
pub(crate) struct Ways {
    /// Who has a child by a segment, of the children that have a step.
    pub edges: Edges,
    /// Of some first nodes one further up each, by which each one above is found in few steps; the root's is itself.
    pub steps: Vec<PathId>,
}

/// The node to which one steps, or itself where none is kept.
pub(crate) fn step_from(steps: &[PathId], at: usize) -> usize
    ensures { result ≡ get_or steps.now at at }
{
    match steps.get(at) {
        None => at,
        Some(over) => over.index(),
    }
}

/// The node to which the next one steps: its parent, or, where the two next steps from there are as far as each other,
/// where both lead. So from each node up steps of all lengths come.
fn next_step(steps: &[PathId], nodes: &[Node]) -> PathId
    requires index { IsIndex nodes.now }
    requires steps { AreSteps nodes.now steps.now }
    requires more { length steps.now < length nodes.now }
    ensures { AreSteps nodes.now (steps.now ++ result ∷ []) }
{
    let at = steps.len();
    if at == 0 {
        return PathId::root();
    }
    let (parent, _) = link(nodes, at);
    let middle = step_from(steps, parent);
    let far = step_from(steps, middle);
    let (low, high) = (depth_at(nodes, middle), depth_at(nodes, far));
    if depth_at(nodes, parent).saturating_sub(low) == low.saturating_sub(high) {
        PathId::new(far)
    } else {
        PathId::new(parent)
    }
}

/// Keeps whose child the next node is.
fn add_edge(edges: &mut Edges, nodes: &[Node], at: usize) -> Result<(), NoMemory>
    requires index { IsIndex nodes.now }
    requires within { at < length nodes.now }
    requires edged { AreEdged nodes.now at edges.old }
    ensures old { AreEdged nodes.now at edges.new }
    ensures edged { OnOk result (AreEdged nodes.now (at + 1) edges.new) }
{
    if at == 0 {
        return Ok(());
    }
    let (parent, seg) = link(nodes, at);
    edges.add(seg, parent)
}

impl Ways {
    pub(crate) fn new(alloc: Global) -> Ways
        ensures { (nodes : List AnyNode) → AreWays nodes result }
    {
        Ways {
            edges: Edges::new(alloc),
            steps: Vec::new(alloc),
        }
    }

    /// Keeps those of the next node.
    fn add(&mut self, nodes: &[Node]) -> Result<(), NoMemory>
        requires index { IsIndex nodes.now }
        requires ways { AreWays nodes.now self.old }
        requires more { length self.old.steps.items < length nodes.now }
        ensures ways { AreWays nodes.now self.new }
        ensures more { OnOk result (length self.new.steps.items ≡ length self.old.steps.items + 1) }
    {
        let step = next_step(self.steps.as_slice(), nodes);
        add_edge(&mut self.edges, nodes, self.steps.len())?;
        self.steps.push(step)?;
        Ok(())
    }

    /// Keeps those of all nodes of which they aren't kept yet. Where memory is refused, of some of them.
    pub(crate) fn fill(&mut self, nodes: &[Node]) -> Result<(), NoMemory>
        requires index { IsIndex nodes.now }
        requires ways { AreWays nodes.now self.old }
        ensures { AreWays nodes.now self.new }
    {
        self.steps.reserve(nodes.len() - self.steps.len())?;
        while self.steps.len() < nodes.len() {
            self.add(nodes)?;
        }
        Ok(())
    }
}
