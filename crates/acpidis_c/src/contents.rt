//! What a set has, value by value: the tables that it loads, the rows of its namespace, its methods, their bodies.
ghost use Rattle.std.specs.Prelude.{◌≡◌, ◌≤◌, length, IfOk, IfErr};
ghost use Rattle.aml_set.specs.Views.{table_dumps};
ghost use Rattle.acpidis_c.specs.Contents.{AreContents, AreIn, AreRead, RefusesContents};
ghost use Rattle.acpidis_c.specs.States.{IsNoMemory};

use crate::code::Fault;
use crate::values::{bodies_of, methods_of, rows_of};
use acpi_tables::Dump;
use acpidis::{Options, Refusal, load_set, read_lines};
use aml_set::{Table, TableSet};
use std::alloc::Global;

/// A row of the namespace, as C has it.
#[repr(C)]
#[derive(Clone, Copy)]
pub struct RowValue {
    /// Where the text of its path begins, and how many bytes it has.
    pub at: usize,
    pub path: usize,
    /// How many bytes behind it are the path that an Alias leads to.
    pub target: usize,
    /// How many declarations it has.
    pub times: usize,
    /// The number of its kind.
    pub kind: u32,
    /// The number of arguments of a method.
    pub arguments: u32,
    /// 1 where no declaration is sure, and else 0.
    pub maybe: u32,
}

/// A method, as C has it.
#[repr(C)]
#[derive(Clone, Copy)]
pub struct MethodValue {
    /// Where the text of its path begins, and how many bytes it has.
    pub at: usize,
    pub path: usize,
    /// Its table, by the place in load order.
    pub table: usize,
    /// Where its body begins in the table's AML, and how many bytes it has.
    pub start: u32,
    pub length: u32,
    /// Bits 0 to 2: the number of arguments. Bit 3: whether it is serialized. Bits 4 to 7: the sync level.
    pub flags: u32,
}

/// The body of a method, as C has it.
#[repr(C)]
#[derive(Clone, Copy)]
pub struct BodyValue {
    /// Where its lines begin, and how many bytes they have.
    pub at: usize,
    pub length: usize,
    /// 0, or the number of the fault for which it is raw, and the byte of the body that this is about.
    pub fault: u32,
    pub offset: u32,
}

/// Values, and all their texts.
#[derive(Drop)]
pub struct Values<T> {
    pub(crate) items: Vec<T>,
    pub(crate) texts: Vec<u8>,
}

/// What a set has.
#[derive(Drop)]
pub struct Contents {
    /// The indexes of the dumps of its tables, in load order.
    pub(crate) tables: Vec<usize>,
    pub(crate) rows: Values<RowValue>,
    pub(crate) methods: Values<MethodValue>,
    pub(crate) bodies: Values<BodyValue>,
}

/// The indexes of the dumps of a set's tables.
fn dumps_of(alloc: Global, tables: &[Table<'_>]) -> Result<Vec<usize>, Fault>
    ensures dumps { IfOk result (λ dumps. dumps.items ≡ table_dumps tables.now) }
    ensures stops { IfErr result IsNoMemory }
{
    let mut dumps = Vec::new(alloc);
    for table in tables {
        dumps.push(table.dump)?;
    }
    Ok(dumps)
}

/// The bodies of a loaded set, or none where they weren't asked for.
fn bodies_in(
    alloc: Global,
    set: &TableSet<'_>,
    unknown_zero: bool,
    asked: bool,
) -> Result<Values<BodyValue>, Fault>
    requires few { length set.now.methods.items ≤ 1048576 }
    ensures bodies { IfOk result (AreRead asked unknown_zero set.now) }
    ensures stops { IfErr result IsNoMemory }
{
    if !asked {
        return bodies_of(alloc, &[]);
    }
    match read_lines(alloc, set, unknown_zero) {
        Ok(bodies) => bodies_of(alloc, bodies.as_slice()),
        Err(_) => Err(Fault::NoMemory),
    }
}

/// What a loaded set has, with the bodies of its methods if they are asked for.
fn contents_in(
    alloc: Global,
    set: &TableSet<'_>,
    options: &Options,
    bodies: bool,
) -> Result<Contents, Fault>
    requires few { length set.now.methods.items ≤ 1048576 }
    ensures contents { IfOk result (AreIn bodies options.now.unknown_zero set.now) }
    ensures stops { IfErr result IsNoMemory }
{
    Ok(Contents {
        tables: dumps_of(alloc, set.tables.as_slice())?,
        rows: rows_of(alloc, &set.space)?,
        methods: methods_of(alloc, &set.space, set.methods.as_slice())?,
        bodies: bodies_in(alloc, set, options.unknown_zero, bodies)?,
    })
}

/// What the set of these dumps has, with the bodies of its methods if they are asked for.
pub(crate) fn contents_of(
    alloc: Global,
    dumps: &[Dump],
    options: &Options,
    bodies: bool,
) -> Result<Contents, Fault>
    ensures contents { IfOk result (AreContents bodies dumps.now options.now) }
    ensures stops { IfErr result (RefusesContents dumps.now options.now) }
{
    match load_set(alloc, dumps, options) {
        Ok((_order, set)) => contents_in(alloc, &set, options, bodies),
        Err(Refusal::NoMemory | Refusal::NoThread) => Err(Fault::NoMemory),
        Err(_) => Err(Fault::Refused),
    }
}
