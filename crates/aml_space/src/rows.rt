//! The declared paths, and what their declarations say.
ghost use Rattle.std.specs.Prelude.{◌≡◌, ◌<◌, length};
ghost use Rattle.aml_space.specs.Nodes.{path_of, paths_in, said_in, IsIndex};

use crate::nodes::Node;
use crate::space_paths::SpacePath;
use crate::walking::seen_kind;
use aml_namespace::{Declarations, Kind};
use std::marker::Model;

/// A declared path, with what its declarations say.
#[derive(Drop)]
pub struct Row<'a> {
    nodes: &'a [Node],
    /// The node of the path.
    at: usize,
    said: &'a Declarations,
}

impl<'a> Model for Row<'a> {
    ghost use Rattle.std.specs.Prelude.{List, ◌<◌, length};
    ghost use Rattle.aml_names.specs.declared.segments.Seg.{Seg};
    ghost use Rattle.aml_namespace.specs.Known.{Declared, coded_row};
    ghost use Rattle.aml_space.specs.Nodes.{path_of, paths_in, said_in, IsIndex};

    ghost Value = { List Seg × Declared };

    ghost coded = { coded_row };

    ghost view = { λ s. (path_of s.nodes.now s.at, said_in (paths_in s.nodes.now) s.said.now) };

    ghost invariant = { λ s. IsIndex s.nodes.now × (s.at < length s.nodes.now) };
}

impl<'a> Row<'a> {
    /// The row of a node.
    pub(crate) fn new(nodes: &'a [Node], at: usize, said: &'a Declarations) -> Row<'a>
        requires index { IsIndex nodes.now }
        requires at { at < length nodes.now }
        ensures { result ≡ (path_of nodes.now at, said_in (paths_in nodes.now) said.now) }
    {
        Row { nodes, at, said }
    }

    /// The path.
    pub fn path(&self) -> SpacePath<'a>
        ensures { result ≡ self.now.0 }
    {
        SpacePath::new(self.nodes, self.at)
    }

    /// The kind with which the path is declared first.
    pub fn kind(&self) -> Kind<SpacePath<'a>>
        ensures { result ≡ self.now.1.kind }
    {
        seen_kind(self.nodes, self.said.kind())
    }

    /// Whether a declaration is sure.
    pub fn is_sure(&self) -> bool
        ensures { result ≡ self.now.1.sure }
    {
        self.said.is_sure()
    }

    /// How many declarations there are.
    pub fn times(&self) -> usize
        ensures { result ≡ self.now.1.times }
    {
        self.said.times()
    }
}
