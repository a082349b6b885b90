//! What is known of a set of tables.
ghost use Rattle.std.specs.Prelude.{◌≡◌, [], flat_map, length};
ghost use Rattle.std.specs.FinMap as map;
ghost use Rattle.aml_text.specs.Rows.{lines_by, row_line};

use acpi_tables::{Dump, Order};
use aml_set::{Loaded, TableSet};
use asl_text::{Body, TableText};

/// A set of tables: its dumps, the tables that were loaded, and the bodies of their methods.
#[derive(Drop)]
pub struct Listing<'a> {
    pub dumps: &'a [Dump],
    /// The dumps with the definition blocks, in load order.
    pub order: Order,
    pub loaded: Loaded<'a>,
    /// The bodies of the methods, in the order of the methods' numbers.
    pub bodies: Vec<Body>,
    /// For each worker, the numbers of the bodies that it read, ascending.
    pub drawn: Vec<Vec<u32>>,
    pub ghost each: { length bodies.items ≡ length loaded.methods.items },
}

/// A set of tables without the bodies of their methods: the dumps, the tables that were loaded, each with the index of
/// its dump, and what is kept of their texts, in load order: none of a table that keeps its terms.
#[derive(Clone, Copy)]
pub struct Tables<'s, 'a> {
    pub dumps: &'s [Dump],
    pub set: &'s TableSet<'a>,
    pub texts: &'s [Option<TableText>],
    /// The lines of the rows of the namespace, in pieces: none where they aren't printed yet.
    pub rows: &'s [Vec<u8>],
    pub ghost lines: { lines_by (map.entries set.now.space.declarations) rows.now
        ≡ flat_map row_line (map.entries set.now.space.declarations) },
}

impl<'s, 'a> Tables<'s, 'a> {
    /// Of tables of whose texts nothing is kept.
    pub fn without_texts(dumps: &'s [Dump], set: &'s TableSet<'a>) -> Tables<'s, 'a>
        ensures dumps { result.dumps.now ≡ dumps.now }
        ensures set { result.set.now ≡ set.now }
        ensures texts { result.texts.now ≡ [] }
        ensures rows { result.rows.now ≡ [] }
    {
        Tables {
            dumps,
            set,
            texts: &[],
            rows: &[],
        }
    }
}
