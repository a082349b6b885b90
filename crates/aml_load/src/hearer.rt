//! Tables whose terms are told, and declare as they are told.
ghost use Rattle.std.specs.Prelude.{◌≡◌, ◌≤◌, false, [], ◌∷◌, Option, Result, Some, None, Ok, OnOk};
ghost use Rattle.std.specs.Prelude.{IfOk, IfErr, length};
ghost use Rattle.aml_load.specs.Declaring.{Listed};
ghost use Rattle.aml_load.specs.Hearing.{Heard};
ghost use Rattle.aml_code.specs.Pieces.{piece_view, line_pieces};
ghost use Rattle.aml_code.specs.Lawful.{no_arguments};
ghost use Rattle.aml_code.specs.Tree.{Trees};
ghost use Rattle.aml_code.specs.declared.rows.Position.{Position};
ghost use Rattle.aml_names.specs.NameReading.{Fails as NotRead};
ghost use Rattle.aml_parse.specs.Reading.{all_at};
ghost use Rattle.aml_load.specs.HearingViews.{Says, Ended, Grew, TableHeard, FailsToTell, HasNumbers, HasNumbers-prop, begun};
ghost use Rattle.aml_load.specs.HearingViews.{IsQuiet};
ghost use Rattle.aml_load.specs.Walking.{Holds};
ghost use Rattle.aml_load.specs.declared.faults.LoadFault.{LoadFault as AnyFault};

use crate::ears::{Around, Ears, is_silent};
use crate::faults::LoadFault;
use crate::hearing::Hearing;
use crate::walking::Progress;
use aml_code::{Both, CodeFault, NoMemory, Piece, Sink, TableSink, Telling};
use aml_parse::tell_module;
use std::alloc::{AllocError, Global};

/// Who hears the terms of a table. A fault of what they declare is kept, and what comes behind it is passed over: a fault
/// of the bytes further on goes first.
#[derive(Drop)]
pub struct Hearer {
    hearing: Hearing,
    fault: Option<LoadFault>,
    ghost numbered: { HasNumbers hearing fault } by { HasNumbers-prop hearing fault },
}

impl Hearer {
    /// Before a table's first term.
    fn new(progress: Progress, table: usize) -> Result<Hearer, NoMemory>
        ensures { (l : Listed) → Holds progress l → IfOk result (λ x. Says (x.hearing, x.fault) (Ok (begun table l))) }
    {
        let root = progress.root_site(table, false);
        let ears = Ears::new(progress.alloc, Around::Terms(root))?;
        let hearing = Hearing { progress, ears };
        Ok(Hearer {
            hearing,
            fault: None,
        })
    }

    /// What was made of the terms that were told, or why they can't be declared.
    fn ended(self) -> Result<Progress, LoadFault>
        ensures { (heard : Result Heard AnyFault) → Says (self.hearing, self.fault) heard → Ended result heard }
    {
        let Hearer { hearing, fault } = self;
        let Hearing {
            mut progress,
            mut ears,
        } = hearing;
        if let Some(fault) = fault {
            return Err(fault);
        }
        progress.keep_uses(&mut ears.uses)?;
        Ok(progress)
    }
}

impl Hearer {
    /// A piece behind which no term does anything, as most are. Of the reader's frame it takes nothing.
    #[inline(never)]
    fn catch(&mut self, piece: &Piece<'_>) -> Result<(), NoMemory>
        requires quiet { IsQuiet self.old.hearing (piece_view piece.now) }
        ensures grew { OnOk result (Grew (self.old.hearing, self.old.fault) (self.new.hearing, self.new.fault)
            (piece_view piece.now ∷ [])) }
    {
        if self.fault.is_some() {
            return Ok(());
        }
        match self.hearing.catch(piece) {
            Ok(()) => Ok(()),
            Err(refused) => {
                self.fault = Some(LoadFault::NoMemory);
                Err(refused)
            }
        }
    }

    /// A piece that may declare. Of the reader's frame it takes nothing.
    #[inline(never)]
    fn take(&mut self, piece: &Piece<'_>) -> Result<(), NoMemory>
        ensures { OnOk result (Grew (self.old.hearing, self.old.fault) (self.new.hearing, self.new.fault)
            (piece_view piece.now ∷ [])) }
    {
        if self.fault.is_some() {
            return Ok(());
        }
        match self.hearing.hear(piece) {
            Ok(()) => Ok(()),
            Err(LoadFault::NoMemory) => {
                self.fault = Some(LoadFault::NoMemory);
                Err(AllocError)
            }
            Err(fault) => {
                self.fault = Some(fault);
                Ok(())
            }
        }
    }
}

impl Sink for Hearer {
    ghost use Rattle.aml_load.specs.HearingViews.{Grew};
    ghost use Rattle.aml_load.specs.HearerLaws.{says_still, says_further};

    ghost grew = { λ a b ps. Grew (a.hearing, a.fault) (b.hearing, b.fault) ps };

    #[inline(always)]
    fn tell(&mut self, piece: &Piece<'_>) -> Result<(), NoMemory> {
        if is_silent(piece) {
            return Ok(());
        }
        if self.hearing.is_quiet(piece) {
            return self.catch(piece);
        }
        self.take(piece)
    }

    ghost nothing = { λ s. says_still (s.hearing, s.fault) };

    ghost further = { λ a b c ps qs h g.
        says_further (a.hearing, a.fault) (b.hearing, b.fault) (c.hearing, c.fault) ps qs h g };
}

/// Tells two sinks the terms of a table, in lines of the first level.
fn tell_both<A: Sink, B: Sink>(
    alloc: Global,
    code: &[u8],
    first: &mut A,
    second: &mut B,
) -> Result<(), CodeFault>
    requires { length code.now ≤ 16777216 }
    ensures told { OnOk result ((ts : Trees) × ((all_at no_arguments None Position.ModuleTerm code.now ≡ Ok ts)
        × (A.grew first.old first.new (line_pieces 1 ts) × B.grew second.old second.new (line_pieces 1 ts)))) }
    ensures fails { IfErr result (λ fault. NotRead fault (all_at no_arguments None Position.ModuleTerm code.now)) }
{
    let mut both = Both { first, second };
    tell_module(alloc, code, 1, &mut both)
}

/// A table that isn't read yet, and what the tables before it have made: its terms declare as they are told.
#[derive(Drop)]
pub struct TableHearing<'a> {
    progress: Progress,
    table: usize,
    code: &'a [u8],
}

impl Telling for TableHearing<'_> {
    ghost use Rattle.std.specs.Prelude.{◌≤◌, length, false};
    ghost use Rattle.aml_load.specs.HearingViews.{FailsToTell, TellsTable};

    /// What the tables up to this one have made.
    type Made = Progress;

    /// Why it can't be read, or declared.
    type Fault = LoadFault;

    ghost can_tell = { λ t. length t.code.now ≤ 16777216 };

    ghost tells = { λ t made ps. TellsTable false t.progress t.table t.code.now made ps };

    ghost fails = { λ t fault. FailsToTell false t.progress t.table t.code.now fault };

    fn tell_all<S: Sink>(self, sink: &mut S) -> Result<Progress, LoadFault> {
        let TableHearing {
            progress,
            table,
            code,
        } = self;
        let alloc = progress.alloc;
        let mut hearer = Hearer::new(progress, table)?;
        match tell_both(alloc, code, &mut hearer, sink) {
            Ok(()) => hearer.ended(),
            Err(fault) => Err(LoadFault::in_code(table, fault)),
        }
    }
}

/// The same of a table whose code outside methods may run: each term declares before the next is read.
#[derive(Drop)]
pub struct TableRun<'a> {
    progress: Progress,
    table: usize,
    code: &'a [u8],
}

impl Telling for TableRun<'_> {
    ghost use Rattle.std.specs.Prelude.{◌≤◌, length, true};
    ghost use Rattle.aml_load.specs.HearingViews.{FailsToTell, TellsTable};

    type Made = Progress;

    type Fault = LoadFault;

    ghost can_tell = { λ t. length t.code.now ≤ 16777216 };

    ghost tells = { λ t made ps. TellsTable true t.progress t.table t.code.now made ps };

    ghost fails = { λ t fault. FailsToTell true t.progress t.table t.code.now fault };

    #[tactic(auto, unfolding(crate::specs::Tables::table_at))]
    fn tell_all<S: Sink>(self, sink: &mut S) -> Result<Progress, LoadFault> {
        let TableRun {
            mut progress,
            table,
            code,
        } = self;
        progress.tell_table(table, code, sink)?;
        Ok(progress)
    }
}

/// Reads a table, and declares what its terms declare as they are told. Answers what the sink keeps of it.
pub fn hear_table<S: TableSink>(
    progress: Progress,
    any_run: bool,
    table: usize,
    code: &[u8],
    sink: &S,
) -> Result<(Progress, S::Kept), LoadFault>
    requires { length code.now ≤ 16777216 }
    ensures heard { IfOk result (λ x.
        TableHeard any_run progress table code.now x.0 (λ ps. S.keeps sink.now code.now ps x.1)) }
    ensures fails { IfErr result (FailsToTell any_run progress table code.now) }
{
    if any_run {
        let run = TableRun {
            progress,
            table,
            code,
        };
        return sink.take(code, run);
    }
    let hearing = TableHearing {
        progress,
        table,
        code,
    };
    sink.take(code, hearing)
}
