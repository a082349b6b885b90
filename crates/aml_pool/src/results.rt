//! A harvest: the results of all numbers, in number order.
ghost use Rattle.std.specs.Prelude.{◌≡◌, ℕ, ◌≤◌, None, All, length, map, replicate, IfOk, IfErr};
ghost use Rattle.aml_pool.specs.Counting.{times, vacant, free, AllGive};
ghost use Rattle.aml_pool.specs.Seats.{EachBelow, IsShareOf, count_of, places_of, IsHarvest};

use crate::board::Board;
use crate::faults::PoolFault;
use crate::gate::{FreeGate, Gate};
use crate::shelf::Shelf;
use crate::work::Work;
use crate::workers::{Share, alone, crew};
use std::alloc::Global;
use std::sync::Wait;
use std::thread::Threads;

/// The results in number order, and for each worker the numbers that it drew, ascending.
#[derive(Drop)]
pub struct Results<D> {
    pub items: Vec<D>,
    pub drawn: Vec<Vec<u32>>,
}

/// Does the work of each number below `count`, at most 1,048,576, by so many workers, 1 to 64, each on a thread of its
/// own, the caller's among them.
///
/// Each worker draws until none is left, so each number is drawn once by one worker, and its result stands in its place
/// whatever the schedule.
pub fn harvest<R: Threads + Wait + Sync, W: Work + Sync, G: Gate + Sync>(
    rt: &R,
    alloc: Global,
    workers: u32,
    count: u32,
    work: &W,
    gate: &G,
) -> Result<Results<W::Done>, PoolFault>
where
    W::Done: Send + Drop,
    requires sizes { (1 ≤ workers) × (workers ≤ 64) × (count ≤ 1048576) }
    requires can { EachBelow count (W.can_work work.now) }
    ensures results { IfOk result (λ r. IsHarvest (W.gives work.now) workers count
        r.items.items r.drawn.items) }
    ensures one_needs_no_thread { workers ≡ 1 → IfErr result (λ fault. fault ≡ PoolFault.NoMemory) }
{
    let shelf = Shelf::new(alloc, count)?;
    let (board, seat) = Board::new(alloc, count)?;
    let share = crew(rt, alloc, &board, seat, 0, workers, work, gate)?;
    Ok(reaped(work, workers, shelf, board, share))
}

/// Does the same by the caller alone, which takes no runtime: no thread is started, and nothing waits.
pub fn harvest_alone<W: Work>(
    alloc: Global,
    count: u32,
    work: &W,
) -> Result<Results<W::Done>, PoolFault>
where
    W::Done: Drop,
    requires few { count ≤ 1048576 }
    requires can { EachBelow count (W.can_work work.now) }
    ensures results { IfOk result (λ r. IsHarvest (W.gives work.now) 1 count
        r.items.items r.drawn.items) }
    ensures no_thread { IfErr result (λ fault. fault ≡ PoolFault.NoMemory) }
{
    let shelf = Shelf::new(alloc, count)?;
    let (board, seat) = Board::new(alloc, count)?;
    let share = alone(alloc, &board, seat, 0, work, &FreeGate)?;
    Ok(reaped(work, 1, shelf, board, share))
}

/// The results of a share that so many workers handed over, and their lists. The board is closed.
fn reaped<W: Work>(
    work: &W,
    workers: u32,
    shelf: Shelf<W::Done>,
    board: Board,
    share: Share<W::Done>,
) -> Results<W::Done>
where
    W::Done: Drop,
    requires empty { places_of shelf ≡ replicate (count_of board) None }
    requires share { IsShareOf (W.gives work.now) board workers share }
    ensures { IsHarvest (W.gives work.now) workers (count_of board) result.items.items result.drawn.items }
{
    let _ = workers;
    let Share { seat, done, drawn } = share;
    let _drawn = board.close(seat);
    let items = filed(work, shelf, done).finish();
    Results { items, drawn }
}

/// The shelf with all results. `Double` and `Stranger` can't occur, since each number was drawn once.
fn filed<W: Work>(
    work: &W,
    mut shelf: Shelf<W::Done>,
    mut done: Vec<(u32, W::Done)>,
) -> Shelf<W::Done>
where
    W::Done: Drop,
    requires places { (x : ℕ) → times x (map (λ p. p.0) done.items) ≡ free x (places_of shelf) }
    requires gives { All (λ p. W.gives work.now p.0 p.1) done.items
        × AllGive (W.gives work.now) (places_of shelf) }
    ensures full { vacant (places_of result) ≡ 0 }
    ensures gives { AllGive (W.gives work.now) (places_of result) }
    ensures len { length (places_of result) ≡ length (places_of shelf) }
{
    let _ = work;
    while let Some((number, found)) = done.pop() {
        let Ok(()) = shelf.put(number, found) else {
            unreachable!()
        };
    }
    shelf
}
