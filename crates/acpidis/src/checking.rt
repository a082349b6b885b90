//! Whether what was read encodes to the same bytes again.
ghost use Rattle.std.specs.Prelude.{◌≡◌, ◌≤◌, ◌<◌, All, IfOk, length, map, slice_set, slice_index_or};
ghost use Rattle.aml_code.specs.Encoded.{same_bytes};
ghost use Rattle.aml_code.specs.Tree.{encodings};
ghost use Rattle.aml_code.specs.View.{nodes_view};
ghost use Rattle.aml_set.specs.Code.{AreShort};
ghost use Rattle.aml_set.specs.Views.{codes_view, body_of};
ghost use Rattle.asl_text.specs.Bodies.{block_view};
ghost use Rattle.acpidis.specs.Bodies.{reading_of};
ghost use Rattle.acpidis.specs.Checks.{checks_with, checks_of, Under, added, uncounted, tallied, tried_mark};
ghost use Rattle.acpidis.specs.Checks.{tried_marks, AreKept, IsKept, IsSame};

use aml_code::{CodeFault, NoMemory, Node, encode_terms};
use aml_set::Method;
use aml_text::{Blocks, Listing};
use asl_text::{Block, Body};
use std::alloc::Global;

/// What `check` says of a loaded table.
#[derive(Clone, Copy)]
pub struct Checked {
    /// The length of its AML, in bytes.
    pub bytes: u32,
    /// How many methods it declares.
    pub methods: u32,
    /// How many of their bodies can't be read.
    pub raw: u32,
    /// Whether its terms, and those of its methods' bodies, encode to its bytes again: always so of what dumps mean.
    pub same: bool,
}

/// What is said of a method: the number of its table, and whether its body is raw, and the same.
#[derive(Clone, Copy)]
pub(crate) struct Mark {
    table: usize,
    raw: bool,
    same: bool,
}

impl Mark {
    /// By what was tried of its body.
    fn of(method: &Method, tried: &Result<bool, CodeFault>) -> Mark
        ensures { result ≡ tried_mark method.now.table tried.now }
    {
        let table = method.table;
        match tried {
            Ok(same) => Mark {
                table,
                raw: false,
                same: *same,
            },
            Err(_) => Mark {
                table,
                raw: true,
                same: true,
            },
        }
    }
}

impl Checked {
    /// What is said of a table of this AML before its methods are counted.
    pub(crate) fn of_table(code: &[u8], same: bool) -> Checked
        ensures { length code.now ≤ 16777216 →
            result ≡ record { bytes = length code.now; methods = 0; raw = 0; same = same } }
    {
        Checked {
            bytes: u32::try_from(code.len()).unwrap_or(u32::MAX),
            methods: 0,
            raw: 0,
            same,
        }
    }

    /// The same with one method more.
    fn with_method(self, mark: Mark) -> Checked
        requires { (self.methods < 1048576) × (self.raw < 1048576) }
        ensures { result ≡ added mark self }
    {
        Checked {
            bytes: self.bytes,
            methods: self.methods + 1,
            raw: self.raw + u32::from(mark.raw),
            same: self.same && mark.same,
        }
    }
}

/// Whether terms encode to these bytes.
fn is_encoding(alloc: Global, bytes: &[u8], nodes: &[Node]) -> Result<bool, NoMemory>
    ensures { IfOk result (λ same. same ≡ same_bytes (encodings bytes.now (nodes_view nodes.now)) bytes.now) }
{
    let encoded = encode_terms(alloc, bytes, nodes)?;
    Ok(encoded.as_slice() == bytes)
}

/// What is said of a table before its methods are counted.
fn check_block(alloc: Global, block: &Block<'_>) -> Result<Checked, NoMemory>
    requires { length block.now.code.now ≤ 16777216 }
    ensures { IfOk result (λ checked. checked ≡ uncounted (block_view block.now)) }
{
    let same = is_encoding(alloc, block.code, block.nodes)?;
    Ok(Checked::of_table(block.code, same))
}

/// What is said of the tables before their methods are counted.
fn check_blocks<T: Blocks>(alloc: Global, tables: &T) -> Result<Vec<Checked>, NoMemory>
    requires short { All (λ b. length b.code ≤ 16777216) (T.blocks tables.now) }
    ensures { IfOk result (λ all. all.items ≡ map uncounted (T.blocks tables.now)) }
{
    let mut all = Vec::new(alloc);
    for table in 0..tables.count() {
        let block = tables.block(table);
        all.push(check_block(alloc, &block)?)?;
    }
    Ok(all)
}

/// Counts a method of its table.
fn count_method(all: &mut Vec<Checked>, mark: Mark)
    requires { Under 1048576 all.old.items }
    ensures { (other : Checked) → all.new.items ≡ slice_set all.old.items mark.table
        (added mark (slice_index_or all.old.items mark.table other)) }
{
    if mark.table < all.len() {
        all[mark.table] = all[mark.table].with_method(mark);
    }
}

/// Counts the methods of each table, by what was tried of their bodies.
pub(crate) fn count_methods(
    methods: &[Method],
    tried: &[Result<bool, CodeFault>],
    all: &mut Vec<Checked>,
)
    requires each { length tried.now ≡ length methods.now }
    requires few { length methods.now ≤ 1048576 }
    requires new { Under 1 all.old.items }
    ensures { all.new.items ≡ tallied (tried_marks methods.now tried.now) 0 all.old.items }
{
    for number in 0..methods.len() {
        count_method(all, Mark::of(&methods[number], &tried[number]));
    }
}

/// What is said of the tables, by what was tried of the bodies of their methods.
fn check_tables<T: Blocks>(
    alloc: Global,
    tables: &T,
    methods: &[Method],
    tried: &[Result<bool, CodeFault>],
) -> Result<Vec<Checked>, NoMemory>
    requires short { All (λ b. length b.code ≤ 16777216) (T.blocks tables.now) }
    requires few { length methods.now ≤ 1048576 }
    requires each { length tried.now ≡ length methods.now }
    ensures { IfOk result (λ all. all.items ≡ checks_with (T.blocks tables.now) (tried_marks methods.now tried.now)) }
{
    let mut all = check_blocks(alloc, tables)?;
    count_methods(methods, tried, &mut all);
    Ok(all)
}

/// Whether a body's terms encode to its bytes. Of a raw body that is its fault.
fn try_body(alloc: Global, bytes: &[u8], body: &Body) -> Result<Result<bool, CodeFault>, NoMemory>
    ensures { IfOk result (IsKept (IsSame bytes.now) (reading_of body.now)) }
{
    match body {
        Body::Tree(nodes) => Ok(Ok(is_encoding(alloc, bytes, nodes.as_slice())?)),
        Body::Raw(fault) => Ok(Err(*fault)),
    }
}

/// Tries the bodies of a listing.
fn try_bodies(
    alloc: Global,
    listing: &Listing<'_>,
) -> Result<Vec<Result<bool, CodeFault>>, NoMemory>
    requires few { length listing.now.loaded.methods.items ≤ 1048576 }
    ensures kept { IfOk result (λ tried.
        AreKept (λ n. IsKept (IsSame (body_of listing.now.loaded n))) (map reading_of listing.now.bodies.items)
        tried.items) }
    ensures each { IfOk result (λ tried. length tried.items ≡ length listing.now.loaded.methods.items) }
{
    let mut tried = Vec::new(alloc);
    for number in 0..listing.bodies.len() {
        let bytes = listing.loaded.body(number as u32);
        tried.push(try_body(alloc, bytes, &listing.bodies[number])?)?;
    }
    Ok(tried)
}

/// Whether each loaded table is the same when it is made anew from what was read: its terms, and those of its methods'
/// bodies. A member for each table, in load order.
pub fn check(alloc: Global, listing: &Listing<'_>) -> Result<Vec<Checked>, NoMemory>
    // The limits of a table and of the methods.
    requires short { AreShort (codes_view listing.now.loaded.tables.items) }
    requires few { length listing.now.loaded.methods.items ≤ 1048576 }
    ensures { IfOk result (λ all. all.items ≡ checks_of listing.now) }
{
    let tried = try_bodies(alloc, listing)?;
    let methods = listing.loaded.methods.as_slice();
    check_tables(alloc, listing, methods, tried.as_slice())
}
