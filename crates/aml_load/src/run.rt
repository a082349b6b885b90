//! The terms of a table whose code outside methods may run: each is told as it is read, and declares before the next one
//! is read.
ghost use Rattle.std.specs.Prelude.{◌≡◌, ◌≤◌, ◌++◌, ◌∷◌, [], List, Option, length, true, IfOk, IfErr, OnOk};
ghost use Rattle.aml_code.specs.Pieces.{Told, deeper, line_pieces, pieces, line, end_of_line};
ghost use Rattle.aml_code.specs.Tree.{Tree, Trees};
ghost use Rattle.aml_load.specs.Front.{HasBegunAt, IsHeard};
ghost use Rattle.aml_load.specs.Opening.{front_pieces};
ghost use Rattle.aml_load.specs.HearingViews.{AreNumbered, Goes};
ghost use Rattle.aml_load.specs.Hearing.{catch_all};
ghost use Rattle.aml_load.specs.Run.{FailsEntering, FailsHead, FailsOpening, FailsStep, FailsTerm, FailsTerms, FailsTable, HeadTo, OpensTo};
ghost use Rattle.aml_load.specs.Run.{RunsTo, RunsAllTo, RunsTableTo, IsBehind, StepTo, Fronts};
ghost use Rattle.aml_load.specs.Runner.{HasRoom, RoomBy, span_inside};
ghost use Rattle.aml_load.specs.Walking.{IsInside, Stays};

use crate::ears::{Around, Ears};
use crate::faults::LoadFault;
use crate::opening::{Opened, tell_front};
use crate::runner::{MOST_LEVELS, Rest, RunNames};
use crate::sites::Site;
use crate::walking::Progress;
use aml_code::{Piece, Position, Sink, TailKind};
use aml_parse::{Behind, StepAt};
use aml_space::BodyNames;

/// A term that was told without the terms inside it, and has declared what it declares itself.
#[derive(Clone, Copy)]
struct Front {
    /// Where the terms inside it stand.
    inner: Site,
    /// Their span, if there is one: where it begins, and its length.
    inside: Option<(u32, u32)>,
    behind: Behind,
}

/// The level of the lines in a block in a line of this one.
fn deeper(level: u32) -> u32
    ensures { result ≡ deeper level }
{
    level.saturating_add(1)
}

impl Progress {
    /// Reads the term that stands there without the terms inside it, and searches each name in it. The ears hear it, and
    /// the sink is told its pieces, but not the span of those terms.
    fn read_front<S: Sink>(
        &mut self,
        site: &Site,
        rest: Rest,
        code: &[u8],
        ears: &mut Ears,
        sink: &mut S,
    ) -> Result<Opened, LoadFault>
        requires room { HasRoom code.now rest }
        requires inside { IsInside self.old site.now }
        requires begun { HasBegunAt ears.old site.now }
        ensures told { IfOk result (λ x. (t : Tree) × (StepTo self.old site.now rest code.now x t
            × (Goes self.old.space ears.old ears.new (catch_all (pieces rest.level t))
            × S.grew sink.old sink.new (front_pieces rest.level t)))) }
        ensures fails { IfErr result (FailsStep self.old site.now rest code.now) }
        ensures same { self.new ≡ self.old }
    {
        self.space.expect_search(site.scope);
        let names = RunNames {
            names: BodyNames::numbered(&self.space, site.scope, false),
        };
        let step = StepAt {
            level: rest.level,
            position: rest.position,
            levels: rest.levels,
            code,
            at: rest.at,
            end: rest.end,
        };
        match tell_front(&names, &step, ears, sink) {
            Ok(opened) => Ok(opened),
            Err(fault) => Err(LoadFault::in_code(site.table, fault)),
        }
    }

    /// Does what a term does of which this was heard.
    fn enter_front(
        &mut self,
        site: &Site,
        mut ears: Ears,
        opened: &Opened,
    ) -> Result<Front, LoadFault>
        requires inside { IsInside self.old site.now }
        requires numbered { AreNumbered self.old.space ears }
        ensures comes { (t : Tree) → IsHeard self.old.space site.now ears opened.now t →
            IfOk result (Fronts self.old self.new site.now opened.now t) }
        ensures fails { (t : Tree) → IsHeard self.old.space site.now ears opened.now t →
            IfErr result (FailsEntering self.old site.now t) }
        ensures stays { OnOk result (Stays self.old self.new) }
        ensures runs { IfOk result (λ x. x.inner.any_run ≡ site.now.any_run) }
    {
        self.keep_uses(&mut ears.uses)?;
        let is_block = ears.is_block();
        let span = opened.tail.unwrap_or((0, 0));
        let inner = self.enter_heard(site, ears.head.as_ref(), span)?;
        Ok(Front {
            inner,
            inside: if is_block { opened.tail } else { None },
            behind: opened.behind,
        })
    }

    /// Tells the term that stands there without the terms inside it and their span: what it declares itself is declared.
    /// What this takes of the stack is let go before the terms inside it are told.
    #[inline(never)]
    fn tell_head<S: Sink>(
        &mut self,
        site: &Site,
        rest: Rest,
        code: &[u8],
        sink: &mut S,
    ) -> Result<Front, LoadFault>
        requires room { HasRoom code.now rest }
        requires inside { IsInside self.old site.now }
        requires runs { site.now.any_run ≡ true }
        ensures told { IfOk result (λ x. (t : Tree) × (S.grew sink.old sink.new (front_pieces rest.level t)
            × HeadTo self.old self.new site.now rest code.now x t)) }
        ensures fails { IfErr result (FailsHead self.old site.now rest code.now) }
        ensures stays { OnOk result (Stays self.old self.new) }
        ensures runs { IfOk result (λ x. x.inner.any_run ≡ true) }
    {
        let mut ears = Ears::new(self.alloc, Around::Run(*site))?;
        let opened = self.read_front(site, rest, code, &mut ears, sink)?;
        self.enter_front(site, ears, &opened)
    }

    /// Tells the terms inside a term that was told without them.
    #[cycle(running)]
    fn tell_inside<S: Sink>(
        &mut self,
        front: &Front,
        rest: Rest,
        code: &[u8],
        sink: &mut S,
    ) -> Result<(), LoadFault>
        requires room { RoomBy code.now rest.levels front.now.inside }
        requires inside { IsInside self.old front.now.inner }
        requires runs { front.now.inner.any_run ≡ true }
        ensures told { OnOk result ((head : Tree) → span_inside head ≡ front.now.inside →
            (t : Tree) × ((ps : List Told) × ((pieces rest.level t ≡ front_pieces rest.level head ++ ps)
            × (S.grew sink.old sink.new ps × OpensTo self.old self.new front.now.inner rest.levels code.now head t)))) }
        ensures fails { (head : Tree) → span_inside head ≡ front.now.inside →
            IfErr result (FailsOpening self.old front.now.inner rest.levels code.now head) }
        ensures stays { OnOk result (Stays self.old self.new) }
    {
        match front.inside {
            None => Ok(()),
            Some((start, len)) => {
                let inside = Rest {
                    level: deeper(rest.level),
                    levels: rest.levels - 1,
                    position: Position::RunTerm,
                    at: start,
                    end: start + len,
                };
                sink.tell(&Piece::List(TailKind::Terms))?;
                self.tell_terms(&front.inner, inside, code, sink)?;
                sink.tell(&Piece::EndOfList(TailKind::Terms, rest.level))?;
                Ok(())
            }
        }
    }

    /// Tells the first term of a span in a line: what it and the terms inside it declare is declared.
    #[cycle(running)]
    fn tell_line<S: Sink>(
        &mut self,
        site: &Site,
        rest: Rest,
        code: &[u8],
        sink: &mut S,
    ) -> Result<Behind, LoadFault>
        requires room { HasRoom code.now rest }
        requires inside { IsInside self.old site.now }
        requires runs { site.now.any_run ≡ true }
        ensures bounds { IfOk result (λ x. IsBehind rest x) }
        ensures told { IfOk result (λ x. (t : Tree) × (S.grew sink.old sink.new
            (line rest.level ∷ (pieces rest.level t ++ end_of_line ∷ []))
            × RunsTo self.old self.new site.now rest code.now x t)) }
        ensures fails { IfErr result (FailsTerm self.old site.now rest code.now) }
        ensures stays { OnOk result (Stays self.old self.new) }
    {
        sink.tell(&Piece::Line(rest.level))?;
        let front = self.tell_head(site, rest, code, sink)?;
        self.tell_inside(&front, rest, code, sink)?;
        sink.tell(&Piece::EndOfLine)?;
        Ok(front.behind)
    }

    /// Tells the terms of a span, one after the other.
    #[cycle(running)]
    fn tell_terms<S: Sink>(
        &mut self,
        site: &Site,
        rest: Rest,
        code: &[u8],
        sink: &mut S,
    ) -> Result<(), LoadFault>
        requires room { HasRoom code.now rest }
        requires inside { IsInside self.old site.now }
        requires runs { site.now.any_run ≡ true }
        ensures told { OnOk result ((ts : Trees) × (S.grew sink.old sink.new (line_pieces rest.level ts)
            × RunsAllTo self.old self.new site.now rest code.now ts)) }
        ensures fails { IfErr result (FailsTerms self.old site.now rest code.now) }
        ensures stays { OnOk result (Stays self.old self.new) }
    {
        let mut here = rest;
        for _turn in rest.at..rest.end {
            if here.at >= rest.end {
                return Ok(());
            }
            let behind = self.tell_line(site, here, code, sink)?;
            here = Rest {
                position: behind.position,
                at: behind.at,
                ..rest
            };
        }
        Ok(())
    }

    /// Tells the terms of a table: what they declare is declared.
    #[tactic(auto, unfolding(aml_parse::specs::Running::run_table_at))]
    pub fn tell_table<S: Sink>(
        &mut self,
        table: usize,
        code: &[u8],
        sink: &mut S,
    ) -> Result<(), LoadFault>
        requires { length code.now ≤ 16777216 }
        ensures told { OnOk result ((ts : Trees) × (S.grew sink.old sink.new (line_pieces 1 ts)
            × RunsTableTo self.old self.new table code.now ts)) }
        ensures fails { IfErr result (FailsTable self.old table code.now) }
    {
        let root = self.root_site(table, true);
        let whole = Rest {
            level: 1,
            levels: MOST_LEVELS,
            position: Position::RunTerm,
            at: 0,
            end: code.len() as u32,
        };
        self.tell_terms(&root, whole, code, sink)?;
        Ok(())
    }
}
