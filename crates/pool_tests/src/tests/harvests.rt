ghost use Rattle.std.specs.Prelude.{◌≤◌, length};

use super::fixtures::{Hold, Log, Meeting, Order, Square, ThirdFails, Watch, each_once};
use aml_pool::{FreeGate, Gate, PoolFault, Results, harvest, harvest_alone};
use std::alloc::Global;
use std::panic::Expect;
use std::sync::Wait;
use std::thread::Threads;

/// Whether an answer of so many workers has these squares, and each number was drawn once.
fn are_squares(
    alloc: Global,
    answer: &Result<Results<u64>, PoolFault>,
    workers: u32,
    squares: &[u64],
) -> bool
    requires { length squares.now ≤ 64 }
{
    let Ok(found) = answer else {
        return false;
    };
    found.items.as_slice() == squares
        && found.drawn.len() == workers as usize
        && each_once(alloc, found.drawn.as_slice(), squares.len() as u32)
}

/// Whether so many workers answer these squares, and draw each number once.
fn has_squares<T: Threads + Wait + Sync, G: Gate + Sync>(
    threads: &T,
    alloc: Global,
    workers: u32,
    gate: &G,
    squares: &[u64],
) -> bool
    requires { (1 ≤ workers) × (workers ≤ 64) × (length squares.now ≤ 64) }
{
    let count = squares.len() as u32;
    let answer = harvest(threads, alloc, workers, count, &Square, gate);
    are_squares(alloc, &answer, workers, squares)
}

#[test]
fn each_number_once_by_any_number_of_workers(rt: HostRuntime) {
    let squares = [0, 1, 4, 9, 16, 25, 36];
    for workers in [1, 2, 3, 64] {
        assert!(rt; has_squares(&rt, rt.alloc(), workers, &FreeGate, &squares));
    }
}

#[test]
fn each_number_once_by_the_caller_alone(rt: HostRuntime) {
    for squares in [[].as_slice(), &[0], &[0, 1, 4, 9, 16, 25, 36]] {
        let answer = harvest_alone(rt.alloc(), squares.len() as u32, &Square);
        assert!(rt; are_squares(rt.alloc(), &answer, 1, squares));
    }
}

#[test]
fn a_refused_piece_refuses_the_harvest_alone(rt: HostRuntime) {
    let answer = harvest_alone(rt.alloc(), 7, &ThirdFails);
    assert!(rt; matches!(answer, Err(PoolFault::NoMemory)));
}

#[test]
fn no_numbers(rt: HostRuntime) {
    assert!(rt; has_squares(&rt, rt.alloc(), 3, &FreeGate, &[]));
}

#[test]
fn one_number_for_64_workers(rt: HostRuntime) {
    assert!(rt; has_squares(&rt, rt.alloc(), 64, &FreeGate, &[0]));
}

#[test]
fn a_refused_piece_refuses_the_harvest(rt: HostRuntime) {
    let answer = harvest(&rt, rt.alloc(), 2, 7, &ThirdFails, &FreeGate);
    assert!(rt;
        matches!(answer, Err(PoolFault::NoMemory)),
        "number 3 has no result"
    );
}

#[test]
fn two_workers_meet_in_the_gate(rt: HostRuntime) {
    let gate = Meeting::new();
    assert!(rt; has_squares(&rt, rt.alloc(), 2, &gate, &[0, 1]));
    assert!(rt; !gate.is_stuck());
}

#[test]
fn two_workers_meet_in_the_work(rt: HostRuntime) {
    let work = Hold::of_others(1);
    let answer = harvest(&rt, rt.alloc(), 2, 2, &work, &FreeGate);
    assert!(rt; !work.is_stuck());
    assert!(rt; matches!(&answer, Ok(found) if found.items.as_slice() == [0, 1].as_slice()));
}

/// While the first worker is held, the other one draws all that is left. With a fixed cut it could not.
#[test]
fn a_held_worker_holds_up_no_other(rt: HostRuntime) {
    let gate = Hold::of_others(7);
    assert!(rt; has_squares(&rt, rt.alloc(), 2, &gate, &[0, 1, 4, 9, 16, 25, 36, 49]));
    assert!(rt; !gate.is_stuck());
}

/// Whether each number enters before its work, which so many workers do.
fn is_in_order<T: Threads + Wait + Sync>(
    threads: &T,
    alloc: Global,
    workers: u32,
    order: &Order,
) -> bool
    requires { (1 ≤ workers) × (workers ≤ 64) }
{
    let answer = harvest(threads, alloc, workers, 50, order, order);
    are_fifty(&answer) && order.works() == 50 && order.unentered() == 0
}

fn are_fifty(answer: &Result<Results<u32>, PoolFault>) -> bool {
    matches!(answer, Ok(found) if found.items.len() == 50)
}

#[test]
fn each_number_enters_before_its_work(rt: HostRuntime) {
    for workers in [1, 3] {
        let order = Order::of_numbers(rt.alloc(), 50).expect(&rt, "no room");
        assert!(rt; is_in_order(&rt, rt.alloc(), workers, &order));
    }
}

/// Whether the lists of three workers who drew a hundred numbers are what the gate kept.
fn are_kept(alloc: Global, answer: &Result<Results<u64>, PoolFault>, log: &Log) -> bool {
    let Ok(found) = answer else {
        return false;
    };
    let lists = found.drawn.as_slice();
    lists.len() == 3 && each_once(alloc, lists, 100) && log.len() == 100 && log.has_lists(0, lists)
}

#[test]
fn the_lists_are_what_the_workers_did(rt: HostRuntime) {
    let gate = Watch {
        log: Log::with_room(rt.alloc(), 100).expect(&rt, "no log"),
        meeting: Meeting::new(),
    };
    let answer = harvest(&rt, rt.alloc(), 3, 100, &Square, &gate);
    assert!(rt; !gate.meeting.is_stuck());
    assert!(rt; are_kept(rt.alloc(), &answer, &gate.log));
}
