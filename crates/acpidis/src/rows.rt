//! The rows of a large namespace, which the crew prints in pieces.
ghost use Rattle.std.specs.Prelude.{◌≡◌, ◌≤◌, flat_map, IfSome};
ghost use Rattle.std.specs.FinMap as map;
ghost use Rattle.aml_text.specs.Rows.{piece_of, row_line};

use crate::crew::Crew;
use aml_pool::{FreeGate, Gate, NoMemory, Work, harvest};
use aml_space::{Row, Space};
use aml_text::{count_pieces, piece_text, take_rows};
use std::alloc::Global;
use std::sync::Wait;
use std::thread::Threads;

/// So many rows are printed by the crew. To start its threads for fewer takes as long as they save.
const LEAST_ROWS: usize = 8_192;

/// How many pieces a harvest takes.
const MOST_PIECES: usize = 1_048_576;

/// Rows of which a worker prints a piece by its number.
#[derive(Drop)]
struct Printing<'r, 'a> {
    alloc: Global,
    rows: &'r [Row<'a>],
}

impl Work for Printing<'_, '_> {
    type Done = Vec<u8>;

    ghost can_work = { λ w n. Unit {0} };

    ghost gives = { λ w n text. text.items ≡ flat_map row_line (piece_of w.rows.now n) };

    fn work(&self, number: u32) -> Result<Vec<u8>, NoMemory> {
        piece_text(self.alloc, self.rows, number as usize).ok_or(NoMemory)
    }
}

/// The lines of rows, in pieces. `None` where a path is long, or where a thread or memory is refused.
fn print_pieces<R: Threads + Wait + Sync, G: Gate + Sync>(
    crew: &Crew<'_, R, G>,
    rows: &[Row<'_>],
) -> Option<Vec<Vec<u8>>>
    requires workers { (1 ≤ crew.now.workers) × (crew.now.workers ≤ 64) }
    ensures { IfSome result (λ texts. flat_map (λ t. t.items) texts.items ≡ flat_map row_line rows.now) }
{
    let count = count_pieces(rows);
    if count > MOST_PIECES {
        return None;
    }
    let count = count as u32;
    let work = Printing {
        alloc: crew.alloc,
        rows,
    };
    let workers = crew.workers.min(count);
    match harvest(crew.rt, crew.alloc, workers, count, &work, &FreeGate) {
        Ok(found) => Some(found.items),
        Err(_) => None,
    }
}

/// The lines of the rows of a namespace, in pieces. `None` where they are few or one is long, or where a thread or
/// memory is refused: the caller prints them then.
pub(crate) fn row_texts<R: Threads + Wait + Sync, G: Gate + Sync>(
    crew: &Crew<'_, R, G>,
    space: &Space,
) -> Option<Vec<Vec<u8>>>
    requires workers { (1 ≤ crew.now.workers) × (crew.now.workers ≤ 64) }
    ensures { IfSome result (λ texts. flat_map (λ t. t.items) texts.items
        ≡ flat_map row_line (map.entries space.now.declarations)) }
{
    if crew.workers == 1 || space.row_count() < LEAST_ROWS {
        return None;
    }
    let mut texts = Vec::new(crew.alloc);
    let mut left = space.in_order();
    'rows: while let Some(rows) = take_rows(crew.alloc, &mut left) {
        let mut more = print_pieces(crew, rows.as_slice())?;
        texts.append(&mut more).ok()?;
    }
    if left.next().is_some() {
        return None;
    }
    Some(texts)
}
