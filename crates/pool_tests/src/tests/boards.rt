ghost use Rattle.std.specs.Prelude.{◌≡◌, ◌+◌, IfOk, IfSome};
ghost use Rattle.aml_pool.specs.Seats.{weight_of, IsDrawing, IsSeatOf};

use super::fixtures::each_once;
use aml_pool::{Board, NoMemory, Seat};
use std::alloc::Global;
use std::panic::Expect;
use std::snapshot::Snapshot;
use std::thread;
use std::thread::Promise;

/// Two seats draw in turn. The function is given no `Wait`: none of its calls waits for another thread.
fn take_turns(board: &Board, mut one: Seat) -> (Seat, [Option<u32>; 3])
    requires board { IsSeatOf board.now one }
    requires weight { weight_of one ≡ 64 }
    requires drawing { IsDrawing one }
    ensures { IsSeatOf board.now result.0 × (weight_of result.0 ≡ 64) }
{
    let mut other = board.split(&mut one, 1);
    let first = board.draw(&mut other);
    let second = board.draw(&mut one);
    let third = if other.ended() {
        None
    } else {
        board.draw(&mut other)
    };
    (board.join(one, other), [first, second, third])
}

#[test]
fn a_board_of_two_numbers(rt: HostRuntime) {
    let (board, seat) = Board::new(rt.alloc(), 2).expect(&rt, "no board");
    let (whole, drawn) = take_turns(&board, seat);
    assert!(rt; drawn == [Some(0), Some(1), None]);
    assert!(rt; whole.ended() && whole.weight() == 64);
    assert!(rt; board.close(whole).numbers == 2);
}

#[test]
fn a_split_seat_has_its_weight(rt: HostRuntime) {
    let (board, mut seat) = Board::new(rt.alloc(), 1).expect(&rt, "no board");
    let other = board.split(&mut seat, 24);
    assert!(rt; seat.weight() == 40 && other.weight() == 24);
    assert!(rt; !seat.ended() && !other.ended());
    let whole = board.join(other, seat);
    assert!(rt; board.close(whole).numbers == 0);
}

/// That a seat of the same board and weight comes back.
#[derive(Drop)]
struct ComesBack(Snapshot<Board>, Snapshot<Seat>);

impl Promise<Result<(Seat, Vec<u32>), NoMemory>> for ComesBack {
    ghost kept_by = { λ p r. IfOk r (λ t. IsSeatOf p.0.value t.0 × (weight_of t.0 ≡ weight_of p.1.value)) };
}

/// Draws until none is left.
fn drain(alloc: Global, board: &Board, mut seat: Seat) -> Result<(Seat, Vec<u32>), NoMemory>
    requires board { IsSeatOf board.now seat }
    requires drawing { IsDrawing seat }
    ensures { IfOk result (λ t. IsSeatOf board.now t.0 × (weight_of t.0 ≡ weight_of seat)) }
{
    let mut numbers = Vec::new(alloc);
    for _ in 0..u32::MAX {
        let Some(number) = board.draw(&mut seat) else {
            break;
        };
        numbers.push(number)?;
    }
    Ok((seat, numbers))
}

/// Whether two seats drew the thousand numbers of a board, which is closed.
fn are_drawn(alloc: Global, board: Board, here: (Seat, Vec<u32>), there: (Seat, Vec<u32>)) -> bool
    requires seats { IsSeatOf board here.0 × IsSeatOf board there.0 }
    requires weights { weight_of here.0 + weight_of there.0 ≡ 64 }
{
    let (seat, mine) = here;
    let (other, theirs) = there;
    let whole = board.join(seat, other);
    whole.ended()
        && board.close(whole).numbers == 1000
        && each_once(alloc, [mine, theirs].as_slice(), 1000)
}

#[test]
fn two_threads_drain_a_board(rt: HostRuntime) {
    let alloc = rt.alloc();
    let (board, mut seat) = Board::new(alloc, 1000).expect(&rt, "no board");
    let other = board.split(&mut seat, 32);
    let shared = &board;
    let both = thread::scope(
        thread::scope_env(),
        &rt,
        move |scope| -> Option<
            (
                Result<(Seat, Vec<u32>), NoMemory>,
                Result<(Seat, Vec<u32>), NoMemory>,
            ),
        >
            requires { IsSeatOf shared.now seat × IsSeatOf shared.now other × IsDrawing seat × IsDrawing other }
            ensures { IfSome result (λ p.
                IfOk p.0 (λ t. IsSeatOf shared.entry.now t.0 × (weight_of t.0 ≡ weight_of seat)) ×
                IfOk p.1 (λ t. IsSeatOf shared.entry.now t.0 × (weight_of t.0 ≡ weight_of other))) }
        {
            let promise = ComesBack(Snapshot::of(shared), Snapshot::of(&other));
            let there = move || -> Result<(Seat, Vec<u32>), NoMemory>
                requires { IsSeatOf shared.now other × IsDrawing other }
                ensures { IfOk result (λ t. IsSeatOf shared.entry.now t.0 × (weight_of t.0 ≡ weight_of other)) }
            { drain(alloc, shared, other) };
            let child = scope.spawn_with(promise, there).ok()?;
            let here = drain(alloc, shared, seat);
            Some((here, child.join(&rt)))
        },
    );
    let (here, there) = both.expect(&rt, "no thread");
    let here = here.expect(&rt, "no memory");
    let there = there.expect(&rt, "no memory there");
    assert!(rt; are_drawn(alloc, board, here, there));
}
