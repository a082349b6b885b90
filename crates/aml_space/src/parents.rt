//! The path of a node, from the node up.
ghost use Rattle.std.specs.Prelude.{◌≡◌, ◌<◌, ◌≤◌, ◌-◌, length, take, drop};
ghost use Rattle.aml_space.specs.Nodes.{links_of, depths_of, path_of, IsIndex};

use crate::nodes::Node;
use aml_names::Seg;

/// The parent of a node, and the segment by which it is a child there.
pub(crate) fn link(nodes: &[Node], at: usize) -> (usize, Seg)
    requires { at < length nodes.now }
    ensures { result ≡ links_of nodes.now at }
{
    let node = &nodes[at];
    (node.parent.index(), node.seg)
}

/// How many segments the path of a node has.
pub(crate) fn depth_at(nodes: &[Node], at: usize) -> u32
    requires { at < length nodes.now }
    ensures { result ≡ depths_of nodes.now at }
{
    let node = &nodes[at];
    node.depth
}

/// The node so many levels above another.
pub(crate) fn ancestor(nodes: &[Node], from: usize, levels: usize) -> usize
    requires index { IsIndex nodes.now }
    requires within { from < length nodes.now }
    requires levels { levels ≤ length (path_of nodes.now from) }
    ensures path { let path = path_of nodes.now from in
        path_of nodes.now result ≡ take (length path - levels) path }
    ensures within { result < length nodes.now }
{
    let mut at = from;
    for _level in 0..levels {
        let (parent, _) = link(nodes, at);
        at = parent;
    }
    at
}

/// Copies so many last segments of a node's path to the front of a buffer.
pub(crate) fn fill(nodes: &[Node], from: usize, count: usize, buffer: &mut [Seg])
    requires index { IsIndex nodes.now }
    requires within { from < length nodes.now }
    requires path { count ≤ length (path_of nodes.now from) }
    requires room { count ≤ length buffer.old }
    ensures copied { let path = path_of nodes.now from in
        take count buffer.new ≡ drop (length path - count) path }
    ensures long { length buffer.new ≡ length buffer.old }
{
    let mut at = from;
    let mut place = count;
    while place > 0 {
        place -= 1;
        let (parent, seg) = link(nodes, at);
        buffer[place] = seg;
        at = parent;
    }
}
