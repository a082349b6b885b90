//! A set of tables that were loaded as one, each with its AML and its terms.
ghost use Rattle.std.specs.Prelude.{◌≡◌, ◌≤◌, length};
ghost use Rattle.aml_set.specs.Code.{IsCode};

use crate::methods::Method;
use aml_code::{Node, slice};
use aml_space::Space;
use std::alloc::Global;

/// A table of a set: its AML, and the terms that it reads as.
#[derive(Drop)]
pub struct Table<'a> {
    /// The index of its dump.
    pub dump: usize,
    /// Its AML, which begins behind the header: at most 16,777,216 bytes.
    pub code: &'a [u8],
    /// Its terms; none before it is read.
    pub terms: Vec<Node>,
    pub ghost bytes: { IsCode code.now },
    pub ghost short: { length code.now ≤ 16777216 },
}

impl<'a> Table<'a> {
    ghost use Rattle.std.specs.Prelude.{[]};

    /// A table that isn't read yet.
    pub fn unread(alloc: Global, dump: usize, code: &'a [u8]) -> Table<'a>
        requires { length code.now ≤ 16777216 }
        ensures of_dump { result.dump ≡ dump }
        ensures of_code { result.code.now ≡ code.now }
    {
        Table {
            dump,
            code,
            terms: Vec::new(alloc),
        }
    }
}

/// Tables that were loaded as one: their namespace and their methods.
#[derive(Drop)]
pub struct TableSet<'a> {
    /// In load order.
    pub tables: Vec<Table<'a>>,
    /// The namespace of all tables.
    pub space: Space,
    /// The methods of all tables, in load order and in the order of the text. Their numbers begin at 0.
    pub methods: Vec<Method>,
}

impl<'a> TableSet<'a> {
    ghost use Rattle.std.specs.Prelude.{[], slice_index_or};
    ghost use Rattle.aml_code.specs.Tree.{slice_of};
    ghost use Rattle.aml_set.specs.Views.{table_codes};

    /// The bytes of the body of a method.
    pub fn span(&self, method: &Method) -> &'a [u8]
        ensures bytes { let m = method.now in
            result.now ≡ slice_of (slice_index_or (table_codes self.now.tables.items) m.table []) m.start m.len }
        ensures short { length result.now ≤ 16777216 }
    {
        match self.tables.get(method.table) {
            None => &[],
            Some(table) => slice(table.code, method.start, method.len),
        }
    }
}
