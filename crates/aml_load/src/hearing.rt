//! What the terms of a table declare, as they are told.
ghost use Rattle.std.specs.Prelude.{◌≡◌, Some, None, Ok, OnOk, option_map, drop, true, length, ◌<◌, IfSome, IfErr};
ghost use Rattle.aml_code.specs.Pieces.{list as list_told, piece_view};
ghost use Rattle.aml_namespace.specs.Known.{Known};
ghost use Rattle.aml_load.specs.Hearing.{hear, left, top, closed_by, done_by, inside_by, is_own_terms, catch};
ghost use Rattle.aml_load.specs.HearingViews.{around_view, Hears, IsQuiet, StopsBy, IsNumbered, AreNumbered};
ghost use Rattle.aml_load.specs.HearingViews.{entered_by, Finishes};
ghost use Rattle.aml_load.specs.Walking.{at_site};

use crate::ears::{Around, Ears, Head};
use crate::faults::LoadFault;
use crate::sites::Site;
use crate::walking::Progress;
use aml_code::{NoMemory, Piece, TailKind};

/// What is heard of the terms of a table, and what they declare.
#[derive(Drop)]
pub struct Hearing {
    pub progress: Progress,
    pub ears: Ears,
}

impl Hearing {
    /// What the term that isn't told whole does, with the span of its body; and where the terms inside it stand, if they
    /// declare.
    fn finish(&mut self, span: (u32, u32)) -> Result<Option<Site>, LoadFault>
        requires { AreNumbered self.old.progress.space self.old.ears }
        ensures finishes { Finishes self.old self.new result span }
    {
        self.progress.keep_uses(&mut self.ears.uses)?;
        let Some(head) = &self.ears.head else {
            return Ok(None);
        };
        let inner = self.progress.enter_head(&head.site, head, span)?;
        self.ears.head = None;
        Ok(Some(inner))
    }

    /// Behind the tail of an opcode, with the span of a body: a term of a list does then what it does.
    fn close(&mut self, span: (u32, u32)) -> Result<(), LoadFault>
        requires { AreNumbered self.old.progress.space self.old.ears }
        ensures hears { OnOk result (Hears self.old self.new (λ x. closed_by true (top x.around) span x)) }
        ensures stops { IfErr result (StopsBy self.old (λ x. closed_by true (top x.around) span x)) }
    {
        if self.ears.top().is_head() {
            self.finish_flat(span)?;
        }
        self.ears.close()?;
        Ok(())
    }

    /// What the term that isn't told whole does, in which no terms stand.
    fn finish_flat(&mut self, span: (u32, u32)) -> Result<(), LoadFault>
        requires { AreNumbered self.old.progress.space self.old.ears }
        ensures hears { OnOk result (Hears self.old self.new (λ x. done_by x.term span x)) }
        ensures stops { IfErr result (StopsBy self.old (λ x. done_by x.term span x)) }
    {
        let _site = self.finish(span)?;
        Ok(())
    }

    /// Goes into the terms of a term of a list, which does then what it does.
    fn open_terms(&mut self) -> Result<(), LoadFault>
        requires { AreNumbered self.old.progress.space self.old.ears }
        ensures hears { OnOk result (Hears self.old self.new (λ x. inside_by x.term x)) }
        ensures stops { IfErr result (StopsBy self.old (λ x. inside_by x.term x)) }
    {
        let site = self.finish((0, 0))?;
        self.ears.go_in(terms_at(site))?;
        Ok(())
    }

    /// A list of this kind.
    fn hear_list(&mut self, kind: TailKind) -> Result<(), LoadFault>
        requires { AreNumbered self.old.progress.space self.old.ears }
        ensures hears { OnOk result (Hears self.old self.new (hear true (list_told kind))) }
        ensures stops { IfErr result (StopsBy self.old (hear true (list_told kind))) }
    {
        if is_own_terms(&self.ears.top(), kind) {
            self.open_terms()?;
        } else {
            self.ears.catch_list(kind)?;
        }
        Ok(())
    }

    /// Behind a list.
    fn end_list(&mut self) -> Result<(), LoadFault>
        requires { AreNumbered self.old.progress.space self.old.ears }
        ensures hears { OnOk result (Hears self.old self.new
            (λ x. closed_by true (top (drop 1 x.around)) (0, 0) (left x))) }
        ensures stops { IfErr result (StopsBy self.old (λ x. closed_by true (top (drop 1 x.around)) (0, 0) (left x))) }
    {
        self.ears.leave();
        self.close((0, 0))
    }

    /// A piece behind which no term does anything.
    #[inline(always)]
    pub fn catch(&mut self, piece: &Piece<'_>) -> Result<(), NoMemory>
        requires { AreNumbered self.old.progress.space self.old.ears }
        ensures { OnOk result (Hears self.old self.new (λ x. Ok (catch (piece_view piece.now) x))) }
    {
        self.ears.catch(piece)?;
        Ok(())
    }

    /// Whether no term does anything behind a piece.
    #[inline(always)]
    pub fn is_quiet(&self, piece: &Piece<'_>) -> bool
        ensures { result ≡ true → IsQuiet self.now (piece_view piece.now) }
    {
        match piece {
            Piece::Body(..) | Piece::List(_) | Piece::EndOfList(..) => false,
            Piece::Empty => !self.ears.top().is_head(),
            Piece::Bytes(_) => !self.ears.top().is_head(),
            _ => true,
        }
    }

    /// A piece.
    pub fn hear(&mut self, piece: &Piece<'_>) -> Result<(), LoadFault>
        requires { AreNumbered self.old.progress.space self.old.ears }
        ensures hears { OnOk result (Hears self.old self.new (hear true (piece_view piece.now))) }
        ensures stops { IfErr result (StopsBy self.old (hear true (piece_view piece.now))) }
    {
        match *piece {
            Piece::Empty | Piece::Bytes(_) => self.close((0, 0)),
            Piece::Body(start, len) => self.close((start, len)),
            Piece::List(kind) => self.hear_list(kind),
            Piece::EndOfList(..) => self.end_list(),
            _ => Ok(self.catch(piece)?),
        }
    }
}

/// What stands around the terms inside a term, if they declare.
fn terms_at(site: Option<Site>) -> Around
    ensures around { (k : Known) → around_view k result ≡ entered_by (option_map (at_site k) site) }
    ensures numbered { (k : Known) → IfSome site (λ s. s.scope < length k.paths) → IsNumbered k result }
{
    match site {
        None => Around::Nowhere,
        Some(site) => Around::Terms(site),
    }
}

/// Whether a list of this kind has the terms of a term of a list.
fn is_own_terms(around: &Around, kind: TailKind) -> bool
    ensures { (k : Known) → result ≡ is_own_terms (around_view k around.now) kind }
{
    match (around, kind) {
        (Around::Head(..), TailKind::Terms) => true,
        _ => false,
    }
}
