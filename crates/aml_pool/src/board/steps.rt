//! The steps on a board: make, split, draw, join, close. None of them waits, and only `new` takes memory.

ghost use Rattle.std.specs.Prelude.{◌≡◌, ℕ, ◌+◌, ◌<◌, ◌≤◌, ◌++◌, ◌∷◌, [], ◌↔◌, IfOk, IfSome, IfNone, IsTrue, All};
ghost use Rattle.aml_pool.specs.Counting.{times, IsOnce};
ghost use Rattle.aml_pool.specs.Machine.{IsDraw, kept, given, FollowsMachine};
ghost use Rattle.aml_pool.specs.Seats.{count_of, numbers_of, weight_of, HasEnded, IsDrawing, claimant_of, IsSeatOf};

use crate::board::{Board, DrawPlay, Drawn, LookPlay, Part, Seat, SeatJoin, SeatSplit, View};
use crate::faults::NoMemory;
use atomic_table::Table;
use std::alloc::Global;
use std::marker::Brand;

impl Board {
    /// A board of the numbers below `count`, at most 1,048,576, and its first seat, which has the whole weight.
    ///
    /// From here on each step on the board's word is a step of the claim machine: that is the clause `machine`.
    pub fn new(alloc: Global, count: u32) -> Result<(Board, Seat), NoMemory>
        requires { count ≤ 1048576 }
        ensures board { IfOk result (λ b. (count_of b.0 ≡ count) × IsSeatOf b.0 b.1) }
        ensures seat { IfOk result (λ b. (numbers_of b.1 ≡ []) × (weight_of b.1 ≡ 64)
            × IsDrawing b.1) }
        ensures machine { FollowsMachine count }
    {
        let (table, seat) = Table::of_words(alloc, &[0], &count)?;
        let board = Board { table, count };
        let first = Seat {
            seat,
            weight: 64,
            ended: false,
        };
        Ok((board, first))
    }

    /// A new seat with no numbers, to which `seat` gives up so much of its weight.
    pub fn split(&self, seat: &mut Seat, weight: u32) -> Seat
        requires board { IsSeatOf self.now seat.old }
        requires weight { (1 ≤ weight) × (weight < weight_of seat.old) }
        requires drawing { IsDrawing seat.old }
        ensures board { IsSeatOf self.now seat.new × IsSeatOf self.now result }
        ensures old { (numbers_of seat.new ≡ numbers_of seat.old)
            × (weight_of seat.new + weight ≡ weight_of seat.old) × IsDrawing seat.new }
        ensures new { (numbers_of result ≡ []) × (weight_of result ≡ weight) × IsDrawing result }
    {
        let given = self.split_view::<Brand>(&mut seat.seat, weight);
        seat.weight -= weight;
        Seat {
            seat: given,
            weight,
            ended: false,
        }
    }

    fn split_view<P: Part>(
        &self,
        seat: &mut atomic_table::Seat<(), View>,
        weight: u32,
    ) -> atomic_table::Seat<(), View>
        requires board { (seat.old.table_id ≡ self.now.table.shared.table_id) × (P.part ≡ weight) }
        requires weight { (1 ≤ weight) × (weight < seat.old.me.0.weight)
            × (seat.old.me.0.nones ≡ 0) }
        ensures old { (seat.new.table_id ≡ seat.old.table_id)
            × (seat.new.me ≡ (kept weight seat.old.me.0, seat.old.me.1)) }
        ensures new { (result.table_id ≡ seat.old.table_id)
            × (result.me ≡ (given weight seat.old.me.0, [])) }
    {
        let _ = weight;
        self.table.shared.split_seat::<SeatSplit<P>>(seat)
    }

    /// The least number that no seat of the board has drawn, or `None` where all are drawn, which ends the seat.
    ///
    /// This is one `fetch_add` of 1 on the board's word, and one draw of the claim machine: the clause `event`.
    pub fn draw(&self, seat: &mut Seat) -> Option<u32>
        requires board { IsSeatOf self.now seat.old }
        requires drawing { IsDrawing seat.old }
        ensures board { IsSeatOf self.now seat.new }
        ensures weight { weight_of seat.new ≡ weight_of seat.old }
        ensures some { IfSome result (λ n. (n < count_of self.now)
            × All (λ x. x < n) (numbers_of seat.old)
            × (numbers_of seat.new ≡ numbers_of seat.old ++ n ∷ []) × IsDrawing seat.new) }
        ensures none { IfNone result ((numbers_of seat.new ≡ numbers_of seat.old)
            × HasEnded seat.new) }
        ensures event { IsDraw (count_of self.now) (claimant_of seat.old) result (claimant_of seat.new) }
    {
        let found = self
            .table
            .shared
            .fetch_add::<DrawPlay>(&mut seat.seat, 0, 1);
        if found < u64::from(self.count) {
            Some(found as u32)
        } else {
            seat.ended = true;
            None
        }
    }

    /// Two seats in one, which has both lists, that of `seat` first, and both weights. It has ended where either had.
    pub fn join(&self, seat: Seat, other: Seat) -> Seat
        requires board { IsSeatOf self.now seat × IsSeatOf self.now other }
        ensures board { IsSeatOf self.now result }
        ensures weight { weight_of result ≡ weight_of seat + weight_of other }
        ensures numbers { numbers_of result ≡ numbers_of seat ++ numbers_of other }
        ensures ended { (HasEnded seat → HasEnded result) × (HasEnded other → HasEnded result)
            × (IsDrawing seat → IsDrawing other → IsDrawing result) }
        ensures apart { (x : ℕ) → times x (numbers_of seat) + times x (numbers_of other) ≤ 1 }
    {
        let Seat {
            mut seat,
            weight,
            ended,
        } = seat;
        let Seat {
            seat: spent,
            weight: more,
            ended: other_ended,
        } = other;
        self.table.shared.join_seat::<SeatJoin>(&mut seat, spent);
        // The look tells that the weights are at most 64 together, and that no number is in both lists.
        self.table.shared.load::<LookPlay>(&mut seat, 0);
        Seat {
            seat,
            weight: weight + more,
            ended: ended || other_ended,
        }
    }

    /// How many numbers were drawn. The seat has the whole weight, so no other one is left.
    pub fn close(self, seat: Seat) -> Drawn
        requires board { IsSeatOf self seat }
        requires whole { weight_of seat ≡ 64 }
        ensures each { IsOnce (numbers_of seat) result.numbers }
        ensures ended { HasEnded seat → result.numbers ≡ count_of self }
    {
        let Board { table, count } = self;
        let Seat {
            seat,
            weight: _,
            ended: _,
        } = seat;
        let closed = table.close_with(seat);
        let word = closed.word(0);
        closed.free();
        Drawn {
            numbers: word.min(u64::from(count)) as u32,
        }
    }
}

impl Seat {
    /// The seat's share of the board's weight, 1 to 64.
    pub fn weight(&self) -> u32
        ensures { result ≡ weight_of self.now }
    {
        self.weight
    }

    /// Whether the seat, or one that was joined into it, was answered `None`.
    pub fn ended(&self) -> bool
        ensures { IsTrue result ↔ HasEnded self.now }
    {
        self.ended
    }
}
