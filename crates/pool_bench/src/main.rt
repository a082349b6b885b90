//! Times harvests, and prints what a harvest answers. `bench/pool.sh` and `tests/pool_refusals.sh` run it.
//!
//! `empty WORKERS COUNT` and `busy WORKERS COUNT` print milliseconds: of pieces of work that do nothing, and of pieces
//! of 100 microseconds each. `answer WORKERS COUNT` prints `whole`, `no thread`, `no memory` or `wrong`.
#![tactic(auto)]

ghost use Rattle.std.specs.Prelude.{◌<◌, ⊤};

use aml_pool::{FreeGate, NoMemory, PoolFault, Results, Work, harvest};
use std::alloc::Global;
use std::sync::Wait;
use std::thread::Threads;
use std::time::Instant;
use std::{env, io};

/// The number itself, after so many turns of a loop.
#[derive(Drop)]
struct Turns {
    turns: u32,
}

impl Work for Turns {
    type Done = u64;

    ghost can_work = { λ _ _. ⊤ };

    ghost gives = { λ _ _ _. ⊤ };

    fn work(&self, number: u32) -> Result<u64, NoMemory> {
        Ok(turned(u64::from(number), self.turns))
    }
}

fn turned(mut state: u64, turns: u32) -> u64 {
    for _ in 0..turns {
        state = state
            .wrapping_mul(6_364_136_223_846_793_005)
            .wrapping_add(1_442_695_040_888_963_407);
    }
    state
}

fn answer(found: &Result<Results<u64>, PoolFault>, count: u32) -> &'static str {
    match found {
        Ok(found) => {
            let same = found.items.iter().copied().eq(0..u64::from(count));
            if same { "whole" } else { "wrong" }
        }
        Err(PoolFault::NoThread) => "no thread",
        Err(PoolFault::NoMemory) => "no memory",
    }
}

/// How many turns take 100 microseconds here.
fn turns_of_a_piece(rt: &HostRuntime) -> io::Result<u32> {
    let start = Instant::now(rt)?;
    let state = turned(1, 20_000_000);
    let micros = start.elapsed(rt)?.as_micros().max(1) + u128::from(state & 1);
    Ok((2_000_000_000 / micros) as u32)
}

/// The mode, the number of workers and the number of pieces that are asked for.
fn asked(mut words: env::Args) -> Option<(String, u32, u32)> {
    let mode = words.nth(1)?;
    let workers = words.next()?.parse::<u32>().ok()?;
    let count = words.next()?.parse::<u32>().ok()?;
    Some((mode, workers, count))
}

/// Prints what a harvest answered, or how long it took.
fn print_found(
    rt: &HostRuntime,
    mode: &str,
    found: &Result<Results<u64>, PoolFault>,
    count: u32,
    micros: u128,
) -> io::Result<()> {
    if mode == "answer" {
        return println!(rt; "{}", answer(found, count));
    }
    let done = if found.is_ok() { "done" } else { "refused" };
    println!(rt; "{done} {}.{:03} ms", micros / 1000, micros % 1000)
}

fn main(rt: HostRuntime) -> io::Result<()> {
    let Some((mode, workers, count)) = asked(env::args(&rt)?) else {
        return println!(rt; "pool_bench empty|busy|answer WORKERS COUNT");
    };
    if workers < 1 || workers > 64 || count > 1_048_576 {
        return println!(rt; "1 to 64 workers, at most 1048576 numbers");
    }
    let turns = if mode.as_str() == "busy" {
        turns_of_a_piece(&rt)?
    } else {
        0
    };
    let start = Instant::now(&rt)?;
    let found = harvest(&rt, rt.alloc(), workers, count, &Turns { turns }, &FreeGate);
    let micros = start.elapsed(&rt)?.as_micros();
    print_found(&rt, mode.as_str(), &found, count, micros)
}
