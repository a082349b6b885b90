//! The board and its seats, and the rule over the board's word.
//!
//! The word counts the draws. Each seat has a view, which exists in proofs alone: the numbers that it drew, how often
//! it was answered `None`, and its share of the weight. The rule says that the word and the views show a state of the
//! claim machine of `specs/Machine.antt`.

ghost use Rattle.std.specs.Prelude.{◌≡◌, ℕ, ◌<◌, ◌≤◌, [], ◌↔◌, IsTrue};
ghost use Rattle.aml_pool.specs.Counting.{times};
ghost use Rattle.aml_pool.specs.Machine.{IsRuled, view, TellsDraw, TellsLook, kept, given, joined, spent};

mod steps;

use atomic_table::{Join, Play, Split, Table, TableRule};
use std::alloc::Global;
use std::collections::LinkedList;
use std::marker::{Brand, PhantomData};

/// What a seat knows. No value of it is made.
pub struct View {
    pub count: u32,
    pub weight: u32,
    pub numbers: LinkedList<u32>,
    pub nones: u32,
}

/// The rule of the board's table: one word, no slots, the count as key.
pub struct ClaimRule;

impl TableRule<(), View, u32> for ClaimRule {
    ghost holds = { IsRuled };

    ghost first = { λ count. view count 64 [] 0 };
}

struct DrawPlay;

impl Play<(), View> for DrawPlay {
    ghost then = { TellsDraw };
}

struct LookPlay;

impl Play<(), View> for LookPlay {
    ghost then = { TellsLook };
}

/// How much weight a new seat gets: a number that exists in proofs alone.
trait Part {
    ghost part: { ℕ };
}

impl Part for Brand {
    ghost part = { 0 };
}

struct SeatSplit<P> {
    part: PhantomData<P>,
}

impl<P: Part> Split<View> for SeatSplit<P> {
    ghost left = { kept P.part };

    ghost right = { given P.part };
}

struct SeatJoin;

impl Join<View> for SeatJoin {
    ghost both = { joined };

    ghost spent = { spent };
}

/// Gives out the numbers below a count, each of them once, to seats that any threads hold.
#[derive(Drop)]
pub struct Board {
    table: Table<(), View, u32, ClaimRule, Global>,
    count: u32,
    ghost known: { (table.shared.key ≡ count) × (table.shared.table_id.words ≡ 1)
        × (table.shared.table_id.slots ≡ 0) },
}

/// The right to draw from one board. A seat carries its board's identity, and a share of the board's weight of 64.
#[derive(Drop)]
pub struct Seat {
    seat: atomic_table::Seat<(), View>,
    weight: u32,
    ended: bool,
    ghost told: { (seat.me.0.weight ≡ weight) × (1 ≤ weight) × (weight ≤ 64)
        × (IsTrue ended ↔ (0 < seat.me.0.nones)) × (seat.me.1 ≡ []) },
    ghost once: { (x : ℕ) → times x seat.me.0.numbers ≤ 1 },
}

/// What a closed board gave out: the numbers below `numbers`.
#[derive(Clone, Copy)]
pub struct Drawn {
    pub numbers: u32,
}
