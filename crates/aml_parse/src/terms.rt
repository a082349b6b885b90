//! The terms of tables, kept as trees.

use crate::builder::Builder;
use aml_code::{Node, TableSink, Telling};
use std::alloc::Global;

/// Keeps the terms of each table that it is told.
#[derive(Clone, Copy)]
pub struct TableTerms {
    pub alloc: Global,
}

impl TableSink for TableTerms {
    ghost use Rattle.std.specs.Prelude.{ℕ, ◌≡◌};
    ghost use Rattle.aml_code.specs.Pieces.{line_pieces};
    ghost use Rattle.aml_code.specs.Tree.{Trees};
    ghost use Rattle.aml_code.specs.View.{nodes_view};

    type Kept = Vec<Node>;

    ghost keeps = { λ _ _ ps kept. (level : ℕ) (ts : Trees) → ps ≡ line_pieces level ts → nodes_view kept.items ≡ ts };

    fn take<T: Telling>(&self, _code: &[u8], telling: T) -> Result<(T::Made, Vec<Node>), T::Fault> {
        let mut builder = Builder::new(self.alloc);
        let made = telling.tell_all(&mut builder)?;
        Ok((made, builder.into_nodes()))
    }
}
