//! Rows that are taken and printed in pieces, as workers print many, with memory for all of them.
use aml_names::{Path, Seg};
use aml_space::{Kind, Space, SpaceFault};
use aml_text::{count_pieces, piece_text, take_rows};
use std::alloc::{AllocError, Global};

const LINES: &[u8] = b"  \\AAAA Name\n  \\BBBB Device\n";

/// A namespace of a Name and a Device.
fn space_of(alloc: Global) -> Result<Space, SpaceFault> {
    let mut space = Space::new(alloc)?;
    space.declare(Path::below(alloc, &[], &[Seg(*b"BBBB")])?, Kind::Device)?;
    space.declare(Path::below(alloc, &[], &[Seg(*b"AAAA")])?, Kind::Name)?;
    Ok(space)
}

/// Whether its rows are taken at once, in one piece of these lines.
fn has_lines(alloc: Global, space: &Space) -> bool {
    let mut left = space.in_order();
    let Some(rows) = take_rows(alloc, &mut left) else {
        return false;
    };
    let is_one = left.next().is_none() && count_pieces(rows.as_slice()) == 1;
    match piece_text(alloc, rows.as_slice(), 0) {
        Some(text) => is_one && text.as_slice() == LINES,
        None => false,
    }
}

/// Whether its rows are so.
fn has_rows(alloc: Global) -> Result<bool, SpaceFault> {
    let space = space_of(alloc)?;
    Ok(has_lines(alloc, &space))
}

#[test]
fn rows_in_a_piece(rt: HostRuntime) {
    assert!(rt; matches!(has_rows(rt.alloc()), Ok(true)));
}
