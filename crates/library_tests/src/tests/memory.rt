//! Answers where a growth is refused, a thread's start included: the whole answer, or the want of memory or a thread.
//!
//! `tests/refusals.py` runs each of these tests again and again, with each growth refused in turn. Where none is
//! refused the answer has to be whole.

use super::fixtures::{
    Bare, OfListing, OfLoad, Want, are_trees, codes, dsdt_of, has_share, has_squares,
    holds_of_listing, holds_of_load, holds_of_loaded, is_whole_or_no_memory, is_whole_or_want,
    push_dump, push_table,
};
use super::folders::{FILES, MemoryFolder, are_gathered};
use super::listings::{ThreeBodies, holds_of_three};
use acpi_folder::{ExternalsFault, FolderFault, GatherFault, gather, parse_externals};
use acpi_tables::{Bad, Dump, load_order};
use acpidis::{Checked, check};
use aml_code::{CodeFault, Node};
use aml_load::load_any_run;
use aml_names::{ArgumentCount, Path, Seg};
use aml_parse::parse_body;
use aml_pool::FreeGate;
use aml_set::{Loaded, rebuild};
use aml_space::{Space, SpaceRow};
use aml_text::{Listing, term_text};
use std::alloc::{AllocError, Global};
use std::sync::Wait;
use std::thread::Threads;

/// Whether an answer is the dumps where all five calls were answered, and where two were, names the file that can't be
/// read.
fn is_gathered(answer: &Result<Vec<Dump>, GatherFault>, answered: u32) -> Result<bool, Want> {
    match answer {
        Ok(dumps) => Ok(answered == 5 && are_gathered(dumps)),
        Err(GatherFault::File(name)) => Ok(answered == 2 && name.as_str() == "ssdt1.dat"),
        Err(GatherFault::NoMemory) => Err(Want::Memory),
        Err(_) => Ok(false),
    }
}

/// Whether it is where so many calls are answered.
fn gathers(alloc: Global, answered: u32) -> Result<bool, Want> {
    let mut folder = MemoryFolder::new(alloc, &FILES, answered, FolderFault::Failed);
    let answer = gather(alloc, &mut folder);
    is_gathered(&answer, answered)
}

#[test]
fn whole_folder_or_no_memory(rt: HostRuntime) {
    for answered in [5, 2] {
        assert!(rt; is_whole_or_no_memory(&rt, gathers(rt.alloc(), answered)));
    }
}

/// Whether these are one argument for a path of three segments, and two for one of one.
fn are_counts(given: &[(Path, ArgumentCount)]) -> bool {
    let [(long, one), (short, two)] = given else {
        return false;
    };
    long.segs().len() == 3 && short.segs().len() == 1 && one.get() == 1 && two.get() == 2
}

/// Whether an answer is these counts.
fn is_counted(answer: &Result<Vec<(Path, ArgumentCount)>, ExternalsFault>) -> Result<bool, Want> {
    match answer {
        Ok(given) => Ok(are_counts(given)),
        Err(ExternalsFault::NoMemory) => Err(Want::Memory),
        Err(_) => Ok(false),
    }
}

/// Whether the counts of a file are read.
fn has_counts(alloc: Global) -> Result<bool, Want> {
    let answer = parse_externals(alloc, b"\\_SB_.PC00._EJ0 1\n\\BBBB 2");
    is_counted(&answer)
}

#[test]
fn whole_counts_or_no_memory(rt: HostRuntime) {
    assert!(rt; is_whole_or_no_memory(&rt, has_counts(rt.alloc())));
}

/// What is declared: a path, whether it is in every run, and how often.
type Declared = (&'static [Seg], bool, usize);

fn is_row(row: &SpaceRow, declared: &Declared) -> bool {
    row.path.segs() == declared.0 && row.sure == declared.1 && row.times == declared.2
}

fn are_rows(rows: &[SpaceRow], declared: &[Declared]) -> bool {
    for (row, declared) in rows.iter().zip(declared) {
        if !is_row(row, declared) {
            return false;
        }
    }
    rows.len() == declared.len()
}

/// Whether these are the rows of a namespace.
fn has_rows(alloc: Global, space: &Space, declared: &[Declared]) -> Result<bool, AllocError> {
    let rows = space.rows(alloc)?;
    Ok(are_rows(&rows, declared))
}

/// Whether the bytes of a table are made anew.
fn has_bytes(alloc: Global, loaded: &Loaded<'_>, code: &[u8]) -> Result<bool, AllocError> {
    let bytes = rebuild(alloc, loaded, 0)?;
    Ok(bytes.as_slice() == code)
}

/// A table, and what it declares.
struct Table {
    code: &'static [u8],
    declared: &'static [Declared],
}

/// That a table that loads has its bytes and its names.
impl OfLoad for Table {
    fn holds(&self, alloc: Global, loaded: &Loaded<'_>) -> Result<bool, Want> {
        Ok(has_bytes(alloc, loaded, self.code)? && has_rows(alloc, &loaded.space, self.declared)?)
    }
}

/// A table of two methods, a device and a region whose offset is a name.
const PLAIN: Table = Table {
    code: b"\x14\x06BBBB\x01\x10\x1A\\_SB_\x5B\x82\x12DEV0\x14\x0CAAAA\x00\xA4BBBB\x60\x5B\x80REG0\x01ZZZZ\x01",
    declared: &[
        (&[Seg(*b"BBBB")], true, 1),
        (&[Seg(*b"REG0")], true, 1),
        (&[Seg(*b"_SB_"), Seg(*b"DEV0")], true, 1),
        (&[Seg(*b"_SB_"), Seg(*b"DEV0"), Seg(*b"AAAA")], true, 1),
    ],
};

/// Whether it loads, with a count that is given.
fn has_load(alloc: Global) -> Result<bool, Want> {
    let Some(none) = ArgumentCount::new(0) else {
        return Ok(false);
    };
    let given = [(Path::below(alloc, &[Seg(*b"ZZZZ")], &[])?, none)];
    holds_of_load(alloc, &[PLAIN.code], &given, &PLAIN)
}

/// A table whose code outside methods may run: names, of which one is declared in a branch, and one there and again.
const BRANCH: Table = Table {
    code: b"\x08SS3_\x01\xA0\x12SS3_\x08_S3_\x0A\x05\x08SS1_\x01\x08SS1_\x01",
    declared: &[
        (&[Seg(*b"SS1_")], true, 2),
        (&[Seg(*b"SS3_")], true, 1),
        (&[Seg(*b"_S3_")], false, 1),
    ],
};

/// Whether it loads as whatever a run of its code may declare.
fn has_any_run_load(alloc: Global) -> Result<bool, Want> {
    let answer = load_any_run(alloc, &[BRANCH.code], &[], false);
    holds_of_loaded(alloc, &answer, &BRANCH)
}

#[test]
fn whole_load_or_no_memory(rt: HostRuntime) {
    assert!(rt; is_whole_or_no_memory(&rt, has_load(rt.alloc())));
    assert!(rt; is_whole_or_no_memory(&rt, has_any_run_load(rt.alloc())));
}

/// That each body of a listing is read as terms, and its only table has these bytes.
#[derive(Clone, Copy)]
struct Whole {
    code: &'static [u8],
}

impl OfListing for Whole {
    fn holds(&self, alloc: Global, listing: &mut Listing<'_>) -> Result<bool, Want> {
        Ok(are_trees(&listing.bodies) && has_bytes(alloc, &listing.loaded, self.code)?)
    }
}

/// Whether a table by itself is listed so.
fn is_listed<T: Threads + Wait + Sync>(
    threads: &T,
    alloc: Global,
    code: &'static [u8],
) -> Result<bool, Want> {
    let dumps = dsdt_of(alloc, code)?;
    holds_of_listing(threads, alloc, &dumps, 1, &FreeGate, &Whole { code })
}

#[test]
fn whole_tables_or_no_memory(rt: HostRuntime) {
    for code in codes() {
        assert!(rt; is_whole_or_no_memory(&rt, is_listed(&rt, rt.alloc(), code)));
    }
}

/// Whether the text of the only term is whole.
fn is_text(alloc: Global, terms: &[Node]) -> Result<bool, AllocError> {
    let [term] = terms else {
        return Ok(false);
    };
    let text = term_text(alloc, term)?;
    Ok(text.as_slice() == b"If (Local0) {\n  Noop\n}".as_slice())
}

/// Whether an answer is that term.
fn is_term(alloc: Global, answer: &Result<Vec<Node>, CodeFault>) -> Result<bool, Want> {
    match answer {
        Ok(terms) => Ok(is_text(alloc, terms)?),
        Err(CodeFault::NoMemory) => Err(Want::Memory),
        Err(_) => Ok(false),
    }
}

/// Whether the text of a term is whole.
fn has_text(alloc: Global) -> Result<bool, Want> {
    let answer = parse_body(alloc, b"\xA0\x03\x60\xA3", &Bare, &Path::root(alloc));
    is_term(alloc, &answer)
}

#[test]
fn whole_text_or_no_memory(rt: HostRuntime) {
    assert!(rt; is_whole_or_no_memory(&rt, has_text(rt.alloc())));
}

/// An SSDT, a DSDT and an SSDT without addresses.
fn push_named(alloc: Global, dumps: &mut Vec<Dump>) -> Result<(), AllocError> {
    push_table(alloc, dumps, None, b"SSDT", &[])?;
    push_table(alloc, dumps, None, b"DSDT", &[])?;
    push_table(alloc, dumps, None, b"SSDT", &[])
}

/// A root pointer that leads to the XSDT at 1000.
const ROOT: [u8; 36] =
    *b"RSD PTR \x00TEST  \x02\x00\x00\x00\x00\x24\x00\x00\x00\x00\x10\x00\x00\x00\x00\x00\x00\x00\x00\x00\x00";

/// What stands in a FADT behind its header: its DSDT is at 4000.
fn fadt() -> [u8; 80] {
    let mut content = [0; 80];
    content[5] = 0x40;
    content
}

/// The addresses 3000 and 2000.
const ADDRESSES: [u8; 16] = [0, 0x30, 0, 0, 0, 0, 0, 0, 0, 0x20, 0, 0, 0, 0, 0, 0];

/// A chain from the root pointer to a DSDT and an SSDT.
fn push_chained(alloc: Global, dumps: &mut Vec<Dump>) -> Result<(), AllocError> {
    push_table(alloc, dumps, Some(0x2000), b"FACP", &fadt())?;
    push_table(alloc, dumps, Some(0x4000), b"DSDT", &[])?;
    push_table(alloc, dumps, Some(0x3000), b"SSDT", &[])?;
    push_table(alloc, dumps, Some(0x1000), b"XSDT", &ADDRESSES)?;
    push_dump(alloc, dumps, None, ROOT.to_vec(alloc)?)
}

/// Whether a set has this order.
fn has_order(alloc: Global, dumps: &[Dump], dsdt: usize, ssdts: &[usize]) -> Result<bool, Want> {
    match &load_order(alloc, dumps, true) {
        Ok(order) => Ok(order.dsdt == dsdt && order.ssdts.as_slice() == ssdts),
        Err(fault) if matches!((fault.dump, fault.bad), (None, Bad::NoMemory)) => Err(Want::Memory),
        Err(_) => Ok(false),
    }
}

/// Whether the set without addresses has its order.
fn has_order_by_name(alloc: Global) -> Result<bool, Want> {
    let mut dumps = Vec::new(alloc);
    push_named(alloc, &mut dumps)?;
    has_order(alloc, &dumps, 1, &[0, 2])
}

/// Whether the chain has its order.
fn has_order_by_chain(alloc: Global) -> Result<bool, Want> {
    let mut dumps = Vec::new(alloc);
    push_chained(alloc, &mut dumps)?;
    has_order(alloc, &dumps, 1, &[2])
}

#[test]
fn whole_order_or_no_memory(rt: HostRuntime) {
    assert!(rt; is_whole_or_no_memory(&rt, has_order_by_name(rt.alloc())));
    assert!(rt; is_whole_or_no_memory(&rt, has_order_by_chain(rt.alloc())));
}

#[test]
fn whole_listing_or_want(rt: HostRuntime) {
    for workers in [1, 2] {
        assert!(rt; is_whole_or_want(&rt, holds_of_three(&rt, rt.alloc(), workers, &ThreeBodies)));
    }
}

/// Whether these are the checks of three methods in two tables, which are the same when they are made anew.
fn are_same(checks: &[Checked]) -> bool {
    let [dsdt, ssdt] = checks else {
        return false;
    };
    dsdt.same && ssdt.same && (dsdt.methods, dsdt.raw, ssdt.methods, ssdt.raw) == (2, 1, 1, 0)
}

/// That both tables of a listing are the same when they are made anew.
struct Same;

impl OfListing for Same {
    fn holds(&self, alloc: Global, listing: &mut Listing<'_>) -> Result<bool, Want> {
        let checks = check(alloc, listing)?;
        Ok(are_same(&checks))
    }
}

#[test]
fn whole_check_or_no_memory(rt: HostRuntime) {
    assert!(rt; is_whole_or_no_memory(&rt, holds_of_three(&rt, rt.alloc(), 1, &Same)));
}

#[test]
fn whole_work_or_want(rt: HostRuntime) {
    let squares = [0, 1, 4, 9, 16, 25, 36];
    for workers in [1, 2, 3] {
        assert!(rt; is_whole_or_want(&rt, has_share(&rt, rt.alloc(), workers)));
        assert!(rt; is_whole_or_want(&rt, has_squares(&rt, rt.alloc(), workers, &squares)));
    }
}
