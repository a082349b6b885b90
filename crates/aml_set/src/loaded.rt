//! A loaded set of tables, and the bytes in it.
ghost use Rattle.std.specs.Prelude.{◌≡◌, [], slice_index_or, IfOk};
ghost use Rattle.aml_code.specs.Tree.{slice_of};
ghost use Rattle.aml_set.specs.Views.{body_of, codes_view, table_encoding};

use crate::methods::Method;
use crate::tables::TableSet;
use aml_code::{NoMemory, Node, encode_terms, slice};
use aml_space::Space;
use std::alloc::Global;

/// Tables that were loaded as one: their namespace and their methods.
#[derive(Drop)]
pub struct Loaded<'a> {
    /// The AML of each table, in load order.
    pub tables: Vec<&'a [u8]>,
    /// The terms of each table.
    pub trees: Vec<Vec<Node>>,
    /// The namespace of all tables.
    pub space: Space,
    /// The methods of all tables, in load order and in the order of the text. Their numbers begin at 0.
    pub methods: Vec<Method>,
}

/// The bytes of the body of a method, by the AML of each table in load order.
pub fn span_of<'a>(tables: &[&'a [u8]], method: &Method) -> &'a [u8]
    ensures { let m = method.now in
        result.now ≡ slice_of (slice_index_or (codes_view tables.now) m.table []) m.start m.len }
{
    match tables.get(method.table) {
        None => &[],
        Some(code) => slice(code, method.start, method.len),
    }
}

impl<'a> Loaded<'a> {
    ghost use Rattle.aml_set.specs.Views.{IsListed};

    /// A set, with the AML of its tables and their terms in lists of their own.
    pub fn of(alloc: Global, set: TableSet<'a>) -> Result<Loaded<'a>, NoMemory>
        ensures { IfOk result (λ x. IsListed x set.entry) }
    {
        let mut tables = Vec::new(alloc);
        let mut trees = Vec::new(alloc);
        for table in set.tables {
            tables.push(table.code)?;
            trees.push(table.terms)?;
        }
        Ok(Loaded {
            tables,
            trees,
            space: set.space,
            methods: set.methods,
        })
    }

    /// The bytes of the body of a method, by the method's number. Of a number without a method there are none.
    pub fn body(&self, number: u32) -> &'a [u8]
        ensures { result.now ≡ body_of self.now number }
    {
        match self.methods.get(number as usize) {
            None => &[],
            Some(method) => span_of(self.tables.as_slice(), method),
        }
    }
}

/// The AML of a table, made anew from its terms. Of a number without a table there is none.
pub fn rebuild(alloc: Global, loaded: &Loaded<'_>, table: usize) -> Result<Vec<u8>, NoMemory>
    ensures { IfOk result (λ bytes. bytes.items ≡ table_encoding loaded.now table) }
{
    match loaded.tables.get(table) {
        None => Ok(Vec::new(alloc)),
        Some(code) => match loaded.trees.get(table) {
            None => Ok(Vec::new(alloc)),
            Some(terms) => encode_terms(alloc, code, terms.as_slice()),
        },
    }
}
