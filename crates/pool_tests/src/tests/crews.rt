ghost use Rattle.std.specs.Prelude.{◌≡◌};
ghost use Rattle.aml_pool.specs.Seats.{weight_of, IsSeatOf};

use super::fixtures::{Log, Square, each_once};
use aml_pool::{Board, FreeGate, Share, crew};
use std::alloc::Global;
use std::panic::Expect;

/// Whether three workers did all of seven pieces of work on a board, which is closed.
fn is_whole(alloc: Global, board: Board, share: Share<u64>) -> bool
    requires { IsSeatOf board share.seat × (weight_of share.seat ≡ 64) }
{
    let Share { seat, done, drawn } = share;
    seat.ended()
        && done.len() == 7
        && drawn.len() == 3
        && each_once(alloc, drawn.as_slice(), 7)
        && board.close(seat).numbers == 7
}

#[test]
fn a_crew_of_three(rt: HostRuntime) {
    let (board, seat) = Board::new(rt.alloc(), 7).expect(&rt, "no board");
    let share = crew(&rt, rt.alloc(), &board, seat, 0, 3, &Square, &FreeGate).expect(
        &rt, "no crew",
    );
    assert!(rt; share.seat.weight() == 64);
    assert!(rt; is_whole(rt.alloc(), board, share));
}

/// Whether the lists of three workers from worker five on are what the gate kept of fifty calls.
fn is_kept(share: &Share<u64>, log: &Log) -> bool {
    let lists = share.drawn.as_slice();
    lists.len() == 3 && log.len() == 50 && log.has_lists(5, lists)
}

/// The list at place i is that of the worker `first + i`.
#[test]
fn a_crew_that_begins_at_worker_five(rt: HostRuntime) {
    let log = Log::with_room(rt.alloc(), 50).expect(&rt, "no log");
    let (board, mut seat) = Board::new(rt.alloc(), 50).expect(&rt, "no board");
    let other = board.split(&mut seat, 61);
    let share = crew(&rt, rt.alloc(), &board, seat, 5, 3, &Square, &log).expect(&rt, "no crew");
    assert!(rt; share.seat.weight() == 3 && is_kept(&share, &log));
    let whole = board.join(share.seat, other);
    assert!(rt; board.close(whole).numbers == 50);
}
