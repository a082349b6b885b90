//! The definition blocks of a set of tables.
ghost use Rattle.std.specs.Prelude.{◌≡◌, ◌<◌, List, length, get_or, min, slice_index_or};
ghost use Rattle.text_writer.specs.Prints.{Prints};
ghost use Rattle.asl_text.specs.Texts.{OneBlock, blocks_text};
ghost use Rattle.asl_text.specs.Bodies.{block_view, bodies_lines};
ghost use Rattle.aml_text.specs.Listing.{indexes_in};

use crate::listing::{Listing, Tables};
use acpi_tables::{Order, name_of};
use asl_text::{Block, Bodies, print_block};
use std::io::Write;
use text_writer::Out;

/// Tables that are printed as definition blocks, wherever their AML and their terms lie.
pub trait Blocks {
    /// The definition blocks, in load order.
    ghost blocks: { Self → List OneBlock };

    /// How many there are.
    fn count(&self) -> usize
        ensures { result ≡ length (blocks self.now) };

    /// The definition block of a table, by its place in load order.
    fn block(&self, table: usize) -> Block<'_>
        requires { table < length (blocks self.now) }
        ensures { (other : OneBlock) → block_view result ≡ slice_index_or (blocks self.now) table other };
}

/// The index of the dump of a table, by the table's place in load order, and 0 past the last.
pub fn dump_of(order: &Order, table: usize) -> usize
    ensures { result ≡ get_or (indexes_in order.now) table 0 }
{
    if table == 0 {
        order.dsdt
    } else {
        order.ssdts.get(table - 1).copied().unwrap_or(0)
    }
}

impl Blocks for Listing<'_> {
    ghost use Rattle.aml_text.specs.Listing.{blocks_in};

    ghost blocks = { blocks_in };

    fn count(&self) -> usize {
        let read = self.loaded.tables.len().min(self.loaded.trees.len());
        (self.order.ssdts.len() + 1).min(read)
    }

    fn block(&self, table: usize) -> Block<'_> {
        Block {
            name: name_of(self.dumps, dump_of(&self.order, table)),
            code: self.loaded.tables[table],
            nodes: self.loaded.trees[table].as_slice(),
        }
    }
}

impl Blocks for Tables<'_, '_> {
    ghost use Rattle.aml_text.specs.Listing.{blocks_at};

    ghost blocks = { blocks_at };

    fn count(&self) -> usize {
        self.set.tables.len()
    }

    fn block(&self, table: usize) -> Block<'_> {
        let table = &self.set.tables[table];
        Block {
            name: name_of(self.dumps, table.dump),
            code: table.code,
            nodes: table.terms.as_slice(),
        }
    }
}

/// The definition blocks of tables, in load order, with the bodies of their methods.
pub fn print_tables<W: Write, T: Blocks>(out: &mut Out<'_, W>, tables: &T, bodies: Bodies<'_>)
    ensures { Prints W.contents out.old out.new (blocks_text (T.blocks tables.now) (bodies_lines bodies.entry)) }
{
    let mut rest = bodies;
    for table in 0..tables.count() {
        let block = tables.block(table);
        rest = print_block(out, block.name, block.code, block.nodes, rest);
    }
}
