//! A term that is told without the span in which the terms inside it stand.
ghost use Rattle.std.specs.Prelude.{◌≡◌, ◌≤◌, ◌+◌, None, length, IfOk, IfErr, OnOk};
ghost use Rattle.aml_names.specs.NameReading.{Fails};
ghost use Rattle.aml_code.specs.Faults.{IsEnd, most_levels};
ghost use Rattle.aml_code.specs.Pieces.{piece_view, pieces};
ghost use Rattle.aml_code.specs.Tree.{Tree};
ghost use Rattle.aml_parse.specs.Reading.{step_at};
ghost use Rattle.aml_namespace.specs.Known.{Known};
ghost use Rattle.aml_load.specs.Hearing.{catch_all};
ghost use Rattle.aml_load.specs.HearingViews.{AreNumbered, Goes};
ghost use Rattle.aml_load.specs.Opening.{front_pieces, held_pieces, span_of, tail_of};
ghost use Rattle.aml_load.specs.Front.{HasBegun, IsRead};

use crate::ears::Ears;
use aml_code::{Arity, Both, CodeFault, NoMemory, Piece, Sink};
use aml_parse::{Behind, StepAt, tell_step};
use std::alloc::Global;

/// Hands pieces on, but holds back a tail that is only a span until another piece follows.
#[derive(Drop)]
struct Opening<'a, S> {
    sink: &'a mut S,
    /// The span, if the last piece was one.
    held: Option<(u32, u32)>,
}

/// The span of a piece that is a tail with nothing else.
#[inline(always)]
fn span_of(piece: &Piece<'_>) -> Option<(u32, u32)>
    ensures { result ≡ span_of (piece_view piece.now) }
{
    match piece {
        Piece::Body(start, len) => Some((*start, *len)),
        _ => None,
    }
}

impl<S: Sink> Opening<'_, S> {
    /// Hands on what is held back, if anything is.
    #[inline(always)]
    fn let_go(&mut self) -> Result<(), NoMemory>
        ensures held { OnOk result (self.new.held ≡ None) }
        ensures same { OnOk result (self.new.sink.ghost_name ≡ self.old.sink.ghost_name) }
        ensures told { OnOk result (S.grew self.old.sink.now self.new.sink.now (held_pieces self.old.held)) }
    {
        if self.held.is_some() {
            self.hand_on()?;
        }
        Ok(())
    }

    /// The same. It is seldom that anything is, so the reader's frames shouldn't grow by it.
    #[inline(never)]
    fn hand_on(&mut self) -> Result<(), NoMemory>
        ensures held { OnOk result (self.new.held ≡ None) }
        ensures same { OnOk result (self.new.sink.ghost_name ≡ self.old.sink.ghost_name) }
        ensures told { OnOk result (S.grew self.old.sink.now self.new.sink.now (held_pieces self.old.held)) }
    {
        if let Some((start, len)) = self.held {
            self.held = None;
            self.sink.tell(&Piece::Body(start, len))?;
        }
        Ok(())
    }
}

impl<S: Sink> Sink for Opening<'_, S> {
    ghost use Rattle.aml_load.specs.Opening.{HoldsBack, holds_none, holds_further};

    ghost grew = { λ a b ps. HoldsBack S.grew a b ps };

    #[inline(always)]
    fn tell(&mut self, piece: &Piece<'_>) -> Result<(), NoMemory> {
        self.let_go()?;
        self.held = span_of(piece);
        if self.held.is_some() {
            return Ok(());
        }
        self.sink.tell(piece)?;
        Ok(())
    }

    ghost nothing = { λ s. holds_none S.grew S.nothing s };

    ghost further = { λ a b c ps qs g h. holds_further S.grew S.further a b c ps qs g h };
}

/// What was told of a term without the terms inside it.
#[derive(Clone, Copy)]
pub struct Opened {
    pub behind: Behind,
    /// Its tail, if that is only a span: where it begins, and its length.
    pub tail: Option<(u32, u32)>,
}

/// Tells two sinks a term without the terms inside it.
fn tell_both<A: Arity, F: Sink, S: Sink>(
    alloc: Global,
    arity: &A,
    step: &StepAt<'_>,
    first: &mut F,
    second: &mut S,
) -> Result<Behind, CodeFault>
    requires table { length step.now.code.now ≤ 16777216 }
    requires inside { (step.now.at ≤ step.now.end) × (step.now.end ≤ length step.now.code.now) }
    requires ends { IsEnd step.now.code.now step.now.at step.now.end }
    requires deep { most_levels ≤ step.now.levels + step.now.at }
    ensures told { IfOk result (λ x. (t : Tree) × (IsRead (A.arity arity.now) step.now x t ×
        (F.grew first.old first.new (pieces step.now.level t)
        × S.grew second.old second.new (pieces step.now.level t)))) }
    ensures fails { IfErr result (λ fault. Fails fault (step_at (A.arity arity.now) step.now.levels step.now.position
        step.now.code.now step.now.at step.now.end)) }
{
    let mut both = Both { first, second };
    tell_step(alloc, arity, step, &mut both)
}

/// What `tell_front` answers and tells, where nothing is held back yet.
fn open_front<A: Arity, S: Sink>(
    arity: &A,
    step: &StepAt<'_>,
    ears: &mut Ears,
    opening: &mut Opening<'_, S>,
) -> Result<Opened, CodeFault>
    requires begun { HasBegun ears.old }
    requires none { opening.old.held ≡ None }
    requires table { length step.now.code.now ≤ 16777216 }
    requires inside { (step.now.at ≤ step.now.end) × (step.now.end ≤ length step.now.code.now) }
    requires ends { IsEnd step.now.code.now step.now.at step.now.end }
    requires deep { most_levels ≤ step.now.levels + step.now.at }
    ensures same { IfOk result (λ _. opening.new.sink.ghost_name ≡ opening.old.sink.ghost_name) }
    ensures told { (k : Known) → AreNumbered k ears.old → IfOk result (λ x. (t : Tree) ×
        (IsRead (A.arity arity.now) step.now x.behind t × ((x.tail ≡ tail_of t)
        × (Goes k ears.old ears.new (catch_all (pieces step.now.level t))
        × S.grew opening.old.sink.now opening.new.sink.now (front_pieces step.now.level t))))) }
    ensures fails { IfErr result (λ fault. Fails fault (step_at (A.arity arity.now) step.now.levels step.now.position
        step.now.code.now step.now.at step.now.end)) }
{
    let behind = tell_both(ears.alloc, arity, step, ears, opening)?;
    let tail = opening.held;
    if !ears.is_block() {
        opening.let_go()?;
    }
    Ok(Opened { behind, tail })
}

/// Tells ears the term that stands there, and a sink its pieces, but of a term inside which terms stand not their span.
pub fn tell_front<A: Arity, S: Sink>(
    arity: &A,
    step: &StepAt<'_>,
    ears: &mut Ears,
    sink: &mut S,
) -> Result<Opened, CodeFault>
    requires begun { HasBegun ears.old }
    requires table { length step.now.code.now ≤ 16777216 }
    requires inside { (step.now.at ≤ step.now.end) × (step.now.end ≤ length step.now.code.now) }
    requires ends { IsEnd step.now.code.now step.now.at step.now.end }
    requires deep { most_levels ≤ step.now.levels + step.now.at }
    ensures told { (k : Known) → AreNumbered k ears.old → IfOk result (λ x. (t : Tree) ×
        (IsRead (A.arity arity.now) step.now x.behind t × ((x.tail ≡ tail_of t)
        × (Goes k ears.old ears.new (catch_all (pieces step.now.level t))
        × S.grew sink.old sink.new (front_pieces step.now.level t))))) }
    ensures fails { IfErr result (λ fault. Fails fault (step_at (A.arity arity.now) step.now.levels step.now.position
        step.now.code.now step.now.at step.now.end)) }
{
    let mut opening = Opening { sink, held: None };
    open_front(arity, step, ears, &mut opening)
}
