//! Tables that are loaded and printed without keeping their terms.
ghost use Rattle.std.specs.Prelude.{◌≤◌, length};

use super::fixtures::{Want, is_whole_or_no_memory};
use aml_code::CodeFault;
use aml_load::{LoadFault, LoadRules, load_names};
use aml_names::Seg;
use aml_set::{Method, Table, TableSet};
use aml_space::SpaceFault;
use aml_text::{BodyText, TableText, TableTexts, Tables, body_levels, write_printed};
use std::alloc::{AllocError, Global};

/// Device (DEV0) { Method (FOO_, 2, Serialized, 0) { Return (Arg0) } }.
const FIRST: &[u8] = b"[\x82\x0EDEV0\x14\x08FOO_\x0A\xA4\x68";

/// An External, and a Scope of that Device with a Method that calls the first one.
const SECOND: &[u8] = b"\x15EXT_\x08\x01\x10\x14\\DEV0\x14\x0DBAR_\x00\xA4FOO_\x00\x01";

/// A Scope of what isn't there.
const GONE: &[u8] = b"\x10\x05GONE";

/// And a Name that ends before its name does.
const GONE_AND_CUT: &[u8] = b"\x10\x05GONE\x08";

/// The namespace and the blocks of the first two.
const TEXT: &str = "\
Namespace 3
  \\DEV0 Device
  \\DEV0.BAR_ Method 0
  \\DEV0.FOO_ Method 2
DefinitionBlock (\"\") {
  Device (DEV0) {
    Method (FOO_, 2, Serialized, 0) {
      Return (Arg0)
    }
  }
}
DefinitionBlock (\"\") {
  External (EXT_, 0x08, 0x01)
  Scope (\\DEV0) {
    Method (BAR_, 0, NotSerialized, 0) {
      Raw {A4, 46, 4F, 4F, 5F, 00, 01}
    }
  }
}
";

/// A set of tables, and what is kept of their texts.
type Loaded<'a> = (TableSet<'a>, Vec<Option<TableText>>);

/// The load of the first table and of another behind it, which keeps their texts in place of their terms.
fn load_behind(
    alloc: Global,
    other: &'static [u8],
    any_run: bool,
) -> Result<Loaded<'static>, LoadFault>
    requires { length other.now ≤ 16777216 }
{
    let mut tables = Vec::new(alloc);
    tables.push(Table::unread(alloc, 0, FIRST))?;
    tables.push(Table::unread(alloc, 1, other))?;
    let rules = LoadRules {
        givens: &[],
        any_run,
        unknown_zero: false,
    };
    load_names(alloc, tables, rules, &TableTexts { alloc })
}

/// What is kept of the bodies of the two methods: the lines of the first, and that the second can't be read.
fn two_bodies(alloc: Global) -> Result<Vec<Result<BodyText, CodeFault>>, AllocError> {
    let mut lines = Vec::new(alloc);
    lines.extend_from_slice(b"      Return (Arg0)\n")?;
    let mut bodies = Vec::new(alloc);
    bodies.push(Ok(BodyText::Lines(lines)))?;
    bodies.push(Err(CodeFault::Truncated { at: 7 }))?;
    Ok(bodies)
}

/// Whether both texts are there; where memory ends, one may not be.
fn are_kept(texts: &[Option<TableText>]) -> Result<bool, Want> {
    if texts.iter().any(|text| text.is_none()) {
        return Err(Want::Memory);
    }
    Ok(texts.len() == 2)
}

/// Whether these tables are printed as that text, with the bodies at the third level.
fn are_written(
    alloc: Global,
    set: &TableSet<'_>,
    texts: &[Option<TableText>],
) -> Result<bool, AllocError> {
    let tables = Tables {
        dumps: &[],
        set,
        texts,
        rows: &[],
    };
    let mut text = Vec::new(alloc);
    if write_printed(&mut text, tables, &two_bodies(alloc)?).is_err() {
        return Err(AllocError);
    }
    let levels = body_levels(alloc, tables)?;
    Ok(text.as_slice() == TEXT.as_bytes() && levels.as_slice() == [3, 3].as_slice())
}

/// Whether the tables of a set have these texts.
fn are_told(alloc: Global, set: &TableSet<'_>, texts: &[Option<TableText>]) -> Result<bool, Want> {
    Ok(are_kept(texts)? && are_written(alloc, set, texts)?)
}

/// Whether a method has these flags, and this span in this table.
fn is_method(method: &Method, flags: u8, start: u32, len: u32, table: usize) -> bool {
    let same_span = method.start == start && method.len == len && method.table == table;
    method.flags == flags && same_span
}

/// Whether a set has the two methods, and no terms.
fn has_methods(set: &TableSet<'_>) -> bool {
    let [first, second] = set.methods.as_slice() else {
        return false;
    };
    let bare = set.tables.iter().all(|it| it.terms.is_empty());
    bare && is_method(first, 0x0A, 14, 2, 0) && is_method(second, 0, 21, 7, 1)
}

/// Whether an answer is the set of the first two tables.
fn is_set(alloc: Global, answer: &Result<Loaded<'_>, LoadFault>) -> Result<bool, Want> {
    match answer {
        Ok((set, texts)) => Ok(has_methods(set) && are_told(alloc, set, texts)?),
        Err(LoadFault::NoMemory) => Err(Want::Memory),
        Err(_) => Ok(false),
    }
}

/// Whether an answer is that the Scope of the second table is missing; or, where it is cut, the fault of its bytes.
fn is_refused(answer: &Result<Loaded<'_>, LoadFault>, cut: bool) -> Result<bool, Want> {
    match answer {
        Err(LoadFault::NoMemory) => Err(Want::Memory),
        Err(LoadFault::Space(1, SpaceFault::ScopeMissing(path))) => {
            Ok(!cut && path.segs() == [Seg(*b"GONE")].as_slice())
        }
        Err(LoadFault::Code(1, CodeFault::Truncated { at: 7 })) => Ok(cut),
        _ => Ok(false),
    }
}

#[test]
fn told_tables_or_no_memory(rt: HostRuntime) {
    let alloc = rt.alloc();
    let set = load_behind(alloc, SECOND, false);
    assert!(rt; is_whole_or_no_memory(&rt, is_set(alloc, &set)));
}

/// Where the code outside methods may run, these tables mean the same.
#[test]
fn told_runs_or_no_memory(rt: HostRuntime) {
    let alloc = rt.alloc();
    let set = load_behind(alloc, SECOND, true);
    assert!(rt; is_whole_or_no_memory(&rt, is_set(alloc, &set)));
}

/// A fault of the bytes goes before one of what is declared in front of them.
#[test]
fn told_tables_are_refused_or_no_memory(rt: HostRuntime) {
    let alloc = rt.alloc();
    assert!(rt; is_whole_or_no_memory(&rt, is_refused(&load_behind(alloc, GONE, false), false)));
    assert!(rt;
        is_whole_or_no_memory(
            &rt,
            is_refused(&load_behind(alloc, GONE_AND_CUT, false), true)
        )
    );
    assert!(rt;
        is_whole_or_no_memory(
            &rt,
            is_refused(&load_behind(alloc, GONE_AND_CUT, true), true)
        )
    );
}
