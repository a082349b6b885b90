//! Rows of large namespaces: methods with a segment each, declared in a mixed order, beside the plain list of them.

use aml_names::{Path, Seg};
use aml_space::{Kind, Row, Space, SpacePath};
use std::alloc::{AllocError, Global};
use std::fmt::Write;

/// A prime, so that each number below a count that it doesn't divide comes once.
const STEP: usize = 7_919;

fn letter(number: usize) -> u8 {
    b'A' + (number % 26) as u8
}

/// Four letters for a number below 456,976, in the order of the numbers.
fn segment(number: usize) -> Seg {
    Seg([
        letter(number / 17_576),
        letter(number / 676),
        letter(number / 26),
        letter(number),
    ])
}

fn path_of(alloc: Global, number: usize) -> Result<Path, AllocError> {
    Path::below(alloc, &[], &[segment(number)])
}

/// How many arguments the method with a number takes.
fn count_of(number: usize) -> u8 {
    (number % 8) as u8
}

/// Declares the method with a number.
fn declare(alloc: Global, space: &mut Space, number: usize) -> Result<(), AllocError> {
    let kind = Kind::Method {
        args: count_of(number),
    };
    match space.declare(path_of(alloc, number)?, kind) {
        Ok(()) => Ok(()),
        Err(_) => Err(AllocError),
    }
}

/// Declares so many methods.
fn declare_all(alloc: Global, space: &mut Space, count: usize) -> Result<(), AllocError> {
    let mut number: usize = 0;
    for _ in 0..count {
        number = number.saturating_add(STEP).checked_rem(count).unwrap_or(0);
        declare(alloc, space, number)?;
    }
    Ok(())
}

fn is_kind(kind: &Kind<SpacePath<'_>>, number: usize) -> bool {
    matches!(kind, Kind::Method { args } if *args == count_of(number))
}

/// Whether the path of a row is this segment.
fn is_path(row: &Row<'_>, segment: Seg) -> bool {
    let mut segs = [Seg::default(); 2];
    row.path().copy_segs(0, &mut segs) == 1 && segs[0] == segment
}

/// Whether the row at a place is that of the method with this number.
fn is_at_place(space: &Space, number: usize) -> bool {
    match space.row_at(number) {
        None => false,
        Some(row) => is_path(&row, segment(number)) && is_kind(&row.kind(), number),
    }
}

/// Whether the kind of a path is found by 1 to 64 comparisons.
fn is_found(alloc: Global, space: &Space, number: usize) -> Result<bool, AllocError> {
    let path = path_of(alloc, number)?;
    Ok(match space.kind_counted(&path) {
        (Some(kind), 1..=64) => is_kind(&kind, number),
        _ => false,
    })
}

/// How many rows of so many methods are at their places, one asked for after the other.
fn push_places(out: &mut String, space: &Space, count: usize) -> Result<(), AllocError> {
    let mut right: usize = 0;
    for number in 0..count {
        right = right.saturating_add(usize::from(is_at_place(space, number)));
    }
    writeln!(out, "  {right} at their places")
}

/// How many kinds of so many methods are found by few comparisons, but by some.
fn push_found(
    alloc: Global,
    out: &mut String,
    space: &Space,
    count: usize,
) -> Result<(), AllocError> {
    let mut right: usize = 0;
    for number in 0..count {
        right = right.saturating_add(usize::from(is_found(alloc, space, number)?));
    }
    writeln!(out, "  {right} found by 1 to 64 comparisons")
}

/// A namespace of so many methods.
fn space_of(alloc: Global, count: usize) -> Result<Space, AllocError> {
    let mut space = Space::new(alloc)?;
    declare_all(alloc, &mut space, count)?;
    Ok(space)
}

/// What is asked of a namespace of so many methods.
pub fn push_many(
    alloc: Global,
    out: &mut String,
    asked: &str,
    count: usize,
) -> Result<(), AllocError> {
    let space = space_of(alloc, count)?;
    match asked {
        "many_rows" => push_places(out, &space, count),
        _ => push_found(alloc, out, &space, count),
    }
}
