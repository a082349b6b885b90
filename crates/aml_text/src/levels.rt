//! The levels at which the bodies of methods are printed.
ghost use Rattle.std.specs.Prelude.{◌≡◌, ◌++◌, OnOk, IfOk};
ghost use Rattle.aml_code.specs.View.{node_view, nodes_view, tail_view};
ghost use Rattle.std.specs.Option.{option_map};
ghost use Rattle.asl_text.specs.Texts.{levels_in, tail_levels, all_levels};
ghost use Rattle.aml_text.specs.Told.{levels_kept, table_levels};

use crate::listing::Tables;
use crate::told::{first_text, other_texts, push_place_levels};
use aml_code::{NoMemory, Node, Tail};
use aml_set::Table;
use asl_text::TableText;
use std::alloc::Global;

/// The levels of the bodies in a term of a table, behind the others.
#[cycle(levels)]
fn push_levels(levels: &mut Vec<u32>, level: u32, node: &Node) -> Result<(), NoMemory>
    ensures { OnOk result (levels.new.items ≡ levels.old.items ++ levels_in level (node_view node.now)) }
{
    match node {
        Node::Op { tail, .. } => push_tail_levels(levels, level.saturating_add(1), tail),
        Node::Nothing | Node::Named { .. } => Ok(()),
    }
}

/// Those in a tail whose terms stand at this level.
#[cycle(levels)]
fn push_tail_levels(levels: &mut Vec<u32>, level: u32, tail: &Tail) -> Result<(), NoMemory>
    ensures { OnOk result (levels.new.items ≡ levels.old.items ++ tail_levels level (tail_view tail.now)) }
{
    match tail {
        Tail::Terms(nodes) => push_all_levels(levels, level, nodes.as_slice()),
        Tail::Body { .. } => {
            levels.push(level)?;
            Ok(())
        }
        _ => Ok(()),
    }
}

/// Those in terms, one after the other.
#[cycle(levels)]
fn push_all_levels(levels: &mut Vec<u32>, level: u32, nodes: &[Node]) -> Result<(), NoMemory>
    ensures { OnOk result (levels.new.items ≡ levels.old.items ++ all_levels level (nodes_view nodes.now)) }
{
    for node in nodes {
        push_levels(levels, level, node)?;
    }
    Ok(())
}

/// The levels of the bodies of a table, behind the others.
fn push_table_levels(
    levels: &mut Vec<u32>,
    table: &Table<'_>,
    text: Option<&TableText>,
) -> Result<(), NoMemory>
    ensures { OnOk result (levels.new.items
        ≡ levels.old.items ++ table_levels table.now (option_map (λ t. t.now) text.entry)) }
{
    match text {
        Some(text) => push_place_levels(levels, text),
        None => push_all_levels(levels, 1, table.terms.as_slice()),
    }
}

/// The level at which the body of each method is printed, in the order of the text.
pub fn body_levels(alloc: Global, tables: Tables<'_, '_>) -> Result<Vec<u32>, NoMemory>
    ensures { IfOk result (λ levels. levels.items
        ≡ levels_kept tables.entry.set.now.tables.items tables.entry.texts.now) }
{
    let mut levels = Vec::new(alloc);
    let mut texts = tables.texts;
    for table in &tables.set.tables {
        push_table_levels(&mut levels, table, first_text(texts))?;
        texts = other_texts(texts);
    }
    Ok(levels)
}
