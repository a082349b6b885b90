//! A crew of workers, in threads that halve it.
ghost use Rattle.std.specs.Prelude.{◌≡◌, ◌+◌, ◌/◌, ◌≤◌, Err, IfOk, IfErr};
ghost use Rattle.std.specs.Thread.{IsSync, IsSend};
ghost use Rattle.aml_pool.specs.Seats.{count_of, IsSeatOf, IsFresh, IsCut, EachBelow, CanBegin, IsShare};

use crate::board::{Board, Seat};
use crate::faults::PoolFault;
use crate::gate::Gate;
use crate::work::Work;
use core::thread::Stack;
use std::alloc::Global;
use std::snapshot::Snapshot;
use std::sync::Wait;
use std::thread;
use std::thread::{Promise, Threads};

/// The stack of each thread, whatever the system's own limit is. The deepest bodies need about 1 MB of it.
const STACK_BYTES: usize = 8 << 20;

/// What a crew hands over: its seat, each number drawn with its result, in any order, and for each worker the numbers
/// that it drew, ascending.
#[derive(Drop)]
pub struct Share<D> {
    pub seat: Seat,
    pub done: Vec<(u32, D)>,
    pub drawn: Vec<Vec<u32>>,
}

type Outcome<D> = Result<Share<D>, PoolFault>;

/// That a crew of so many workers hands over its share.
#[derive(Drop)]
struct HandsOver<W> {
    work: Snapshot<W>,
    seat: Snapshot<Seat>,
    workers: u32,
}

impl<W: Work> Promise<Outcome<W::Done>> for HandsOver<W> {
    ghost kept_by = { λ p r. IfOk r (λ s. IsShare (W.gives p.work.value) p.seat.value p.workers s) };
}

/// A crew in two halves: the seat that it was given, the two that it was cut into, and how many workers have each.
#[derive(Drop)]
pub(crate) struct Halves {
    pub(crate) whole: Snapshot<Seat>,
    pub(crate) left: Snapshot<Seat>,
    pub(crate) right: Snapshot<Seat>,
    pub(crate) mine: u32,
    pub(crate) others: u32,
}

/// The workers from number `first` on draw from the board until each of them is answered `None`.
///
/// One worker draws itself. More of them are halved: half of them, rounded down, go to a thread with a seat that is
/// split off, the others go on here, and the two are joined. A refusal spends the seat, and the board can't be closed
/// any more.
pub fn crew<R: Threads + Wait + Sync, W: Work + Sync, G: Gate + Sync>(
    rt: &R,
    alloc: Global,
    board: &Board,
    mut seat: Seat,
    first: u32,
    workers: u32,
    work: &W,
    gate: &G,
) -> Result<Share<W::Done>, PoolFault>
where
    W::Done: Send + Drop,
    requires workers { (1 ≤ workers) × (first + workers ≤ 64) }
    requires board { IsSeatOf board.now seat }
    requires fresh { IsFresh workers seat }
    requires can { EachBelow (count_of board.now) (W.can_work work.now) }
    ensures share { IfOk result (λ s. IsShare (W.gives work.now) seat workers s) }
    ensures one_needs_no_thread { workers ≡ 1 → IfErr result (λ fault. fault ≡ PoolFault.NoMemory) }
{
    if workers == 1 {
        return alone(alloc, board, seat, first, work, gate);
    }
    let (mine, others) = halved(workers);
    let middle = first + mine;
    let whole = Snapshot::of(&seat);
    let other = board.split(&mut seat, others);
    let halves = Halves {
        whole,
        left: Snapshot::of(&seat),
        right: Snapshot::of(&other),
        mine,
        others,
    };
    let (here, there) = thread::scope(
        thread::scope_env(),
        rt,
        move |scope| -> Result<(Outcome<W::Done>, Outcome<W::Done>), PoolFault>
            requires { IsSync R.row × IsSync W.row × IsSync G.row × IsSend W.Done.row
                × CanBegin board.now first mine seat × CanBegin board.now middle others other
                × EachBelow (count_of board.now) (W.can_work work.now) }
            ensures { IfOk result (λ t. IfOk t.0 (λ s. IsShare (W.gives work.entry.now) seat mine s)
                × IfOk t.1 (λ s. IsShare (W.gives work.entry.now) other others s)) }
        {
            let promise = HandsOver {
                work: Snapshot::of(work),
                seat: Snapshot::of(&other),
                workers: others,
            };
            let there = move || -> Outcome<W::Done>
                requires { IsSync R.row × IsSync W.row × IsSync G.row × IsSend W.Done.row
                    × CanBegin board.now middle others other
                    × EachBelow (count_of board.now) (W.can_work work.now) }
                ensures { IfOk result (λ s. IsShare (W.gives work.entry.now) other others s) }
            { crew(rt, alloc, board, other, middle, others, work, gate) };
            let stack = Stack::new().stack_size(STACK_BYTES);
            let Ok(child) = stack.spawn_scoped_with(scope, promise, there) else {
                return Err(PoolFault::NoThread);
            };
            let here = crew(rt, alloc, board, seat, first, mine, work, gate);
            Ok((here, child.join(rt)))
        },
    )?;
    together(board, work, &halves, here, there)
}

/// Two halves of some workers; the second one is rounded down.
fn halved(workers: u32) -> (u32, u32)
    requires { 2 ≤ workers }
    ensures all { result.0 + result.1 ≡ workers }
    ensures second { result.1 ≡ workers / 2 }
{
    let others = workers / 2;
    (workers - others, others)
}

/// One worker: it draws, passes the gate, works, and keeps what it found.
pub(crate) fn alone<W: Work, G: Gate>(
    alloc: Global,
    board: &Board,
    mut seat: Seat,
    worker: u32,
    work: &W,
    gate: &G,
) -> Outcome<W::Done>
where
    W::Done: Drop,
    requires board { IsSeatOf board.now seat }
    requires fresh { IsFresh 1 seat }
    requires can { EachBelow (count_of board.now) (W.can_work work.now) }
    ensures share { IfOk result (λ s. IsShare (W.gives work.now) seat 1 s) }
    ensures no_thread { IfErr result (λ fault. fault ≡ PoolFault.NoMemory) }
{
    let mut done = Vec::new(alloc);
    let mut mine = Vec::new(alloc);
    while let Some(number) = board.draw(&mut seat) {
        gate.enter(worker, number);
        let found = work.work(number)?;
        done.push((number, found))?;
        mine.push(number)?;
    }
    let mut drawn = Vec::new(alloc);
    drawn.push(mine)?;
    Ok(Share { seat, done, drawn })
}

/// The answer of both halves. A refused start decides over want of memory.
pub(crate) fn together<W: Work>(
    board: &Board,
    work: &W,
    halves: &Halves,
    here: Outcome<W::Done>,
    there: Outcome<W::Done>,
) -> Outcome<W::Done>
where
    W::Done: Drop,
    requires board { IsSeatOf board.now halves.now.left.value × IsSeatOf board.now halves.now.right.value }
    requires cut { IsCut halves.now.whole.value halves.now.left.value halves.now.right.value }
    requires here { IfOk here (λ s. IsShare (W.gives work.now) halves.now.left.value halves.now.mine s) }
    requires there { IfOk there (λ s. IsShare (W.gives work.now) halves.now.right.value halves.now.others s) }
    ensures share { IfOk result (λ s. IsShare (W.gives work.now) halves.now.whole.value
        (halves.now.mine + halves.now.others) s) }
    ensures own_start_refused { here ≡ Err PoolFault.NoThread → result ≡ Err PoolFault.NoThread }
    ensures other_start_refused { there ≡ Err PoolFault.NoThread → result ≡ Err PoolFault.NoThread }
    ensures no_start_refused { IfErr here (λ fault. fault ≡ PoolFault.NoMemory) →
        IfErr there (λ fault. fault ≡ PoolFault.NoMemory)
        → IfErr result (λ fault. fault ≡ PoolFault.NoMemory) }
{
    match (here, there) {
        (Ok(here), Ok(there)) => united(board, work, halves, here, there),
        (Err(PoolFault::NoThread), _) => Err(PoolFault::NoThread),
        (_, Err(PoolFault::NoThread)) => Err(PoolFault::NoThread),
        _ => Err(PoolFault::NoMemory),
    }
}

/// The left share and then the right one, under one seat.
fn united<W: Work>(
    board: &Board,
    work: &W,
    halves: &Halves,
    left: Share<W::Done>,
    right: Share<W::Done>,
) -> Outcome<W::Done>
where
    W::Done: Drop,
    requires board { IsSeatOf board.now halves.now.left.value × IsSeatOf board.now halves.now.right.value }
    requires cut { IsCut halves.now.whole.value halves.now.left.value halves.now.right.value }
    requires left { IsShare (W.gives work.now) halves.now.left.value halves.now.mine left }
    requires right { IsShare (W.gives work.now) halves.now.right.value halves.now.others right }
    ensures share { IfOk result (λ s. IsShare (W.gives work.now) halves.now.whole.value
        (halves.now.mine + halves.now.others) s) }
    ensures no_thread { IfErr result (λ fault. fault ≡ PoolFault.NoMemory) }
{
    let _ = work;
    let _ = halves;
    let Share {
        seat,
        mut done,
        mut drawn,
    } = left;
    let Share {
        seat: other,
        done: mut more_done,
        drawn: mut more_drawn,
    } = right;
    let seat = board.join(seat, other);
    done.append(&mut more_done)?;
    drawn.append(&mut more_drawn)?;
    Ok(Share { seat, done, drawn })
}
