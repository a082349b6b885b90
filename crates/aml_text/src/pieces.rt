//! The rows of a large namespace in pieces, each of which any worker prints by itself.
#![tactic(auto, using(crate::proofs::RowLaws::printing))]

ghost use Rattle.std.specs.Prelude.{◌≡◌, ◌<◌, ◌≤◌, ◌+◌, ◌*◌, ◌++◌, length, flat_map, IfNone, IfSome};
ghost use Rattle.std.specs.Prelude.{vec_capacity, vec_len};
ghost use Rattle.aml_text.specs.Rows.{piece_of, row_line};

use crate::rows::{SMALL_WINDOW, is_deep, print_row};
use aml_names::Seg;
use aml_space::{Row, Rows};
use std::alloc::Global;
use std::io::Write;
use text_writer::{Out, Print, write_text_in};

/// How many rows a piece has, but for the last.
const PIECE_ROWS: usize = 512;

/// How many rows are taken at a time: 64 pieces, which the caches of a processor hold until they are printed.
const TAKEN_ROWS: usize = 32_768;

/// How many bytes of a piece wait to be written. The text of most is shorter.
const ROOM: usize = 32_768;

/// How many segments the paths of rows in pieces have at most: so a line has at most some 200 bytes.
const MOST_SEGMENTS: usize = 16;

/// The next rows, as many as are taken at a time. `None` where there are no more, or no memory for them.
pub fn take_rows<'a>(alloc: Global, left: &mut Rows<'a>) -> Option<Vec<Row<'a>>>
    ensures taken { IfSome result (λ rows. rows.items ++ left.new ≡ left.old) }
    ensures fewer { IfSome result (λ rows. length left.new < length left.old) }
    ensures none { IfNone result (left.new ≡ left.old) }
{
    let mut rows = Vec::with_capacity(alloc, TAKEN_ROWS).ok()?;
    fill(&mut rows, left);
    if rows.is_empty() {
        return None;
    }
    Some(rows)
}

/// Takes so many of the rows, and all where they are fewer.
fn fill<'a>(rows: &mut Vec<Row<'a>>, left: &mut Rows<'a>)
    requires room { vec_len rows.old + 32768 ≤ vec_capacity rows.old }
    ensures { rows.new.items ++ left.new ≡ rows.old.items ++ left.old }
{
    for _place in 0..TAKEN_ROWS {
        let Some(row) = left.next() else {
            return;
        };
        rows.push_reserved(row);
    }
}

/// How many pieces have all rows.
pub fn count_pieces(rows: &[Row<'_>]) -> usize
    ensures { length rows.now < result * 512 }
{
    rows.len() / PIECE_ROWS + 1
}

/// The rows of a piece, by its number.
fn piece_at<'r, 'a>(rows: &'r [Row<'a>], number: usize) -> &'r [Row<'a>]
    ensures { result.now ≡ piece_of rows.now number }
{
    let begin = number.saturating_mul(PIECE_ROWS).min(rows.len());
    let rest = &rows[begin..];
    &rest[..rest.len().min(PIECE_ROWS)]
}

/// Rows whose lines are printed.
#[derive(Drop)]
struct Piece<'r, 'a>(&'r [Row<'a>]);

impl Print for Piece<'_, '_> {
    ghost text = { λ piece. flat_map row_line piece.0.now };

    fn print<W: Write>(&self, out: &mut Out<'_, W>) {
        let mut window = [Seg::default(); SMALL_WINDOW];
        let rows = self.0;
        for row in rows {
            print_row(out, row, &mut window);
        }
    }
}

/// The lines of a piece, by its number. `None` where a path is long, or where there is no memory for them.
pub fn piece_text(alloc: Global, rows: &[Row<'_>], number: usize) -> Option<Vec<u8>>
    ensures { IfSome result (λ text. text.items ≡ flat_map row_line (piece_of rows.now number)) }
{
    let piece = piece_at(rows, number);
    if piece.iter().any(|row| is_deep(row, MOST_SEGMENTS)) {
        return None;
    }
    let mut text = Vec::new(alloc);
    match write_text_in(&mut text, &Piece(piece), &mut [0; ROOM]) {
        Ok(()) => Some(text),
        Err(_) => None,
    }
}
