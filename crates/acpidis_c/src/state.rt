//! What an open set has: its dumps, its options, what came of its last run, and its contents.
ghost use Rattle.std.specs.Prelude.{◌≡◌, None, Some, IfOk, IfErr, OnErr, OnOk};
ghost use Rattle.acpidis_c.specs.declared.code.Fault.TheVariants.{NotRun};
ghost use Rattle.acpidis_c.specs.States.{IsNew, HasAdded, HasFlags, HasCounts, IsSame, IsRunOf, Settles, HasRun};
ghost use Rattle.acpidis_c.specs.States.{HasListed, RefusesListed, RefusesCount, RefusesCounts, IsNoMemory};

use crate::code::{Ended, Fault};
use crate::contents::{Contents, contents_of};
use crate::noting::Noting;
use acpi_folder::parse_externals;
use acpi_tables::{Dump, MAX_DUMPS};
use acpidis::{Options, Refusal, RunFault, print_fault, run_alone};
use std::alloc::Global;

/// The greatest number of bytes of a text of counts.
const MAX_TEXT_BYTES: usize = 16_777_216;

/// The status of a run that is refused.
const REFUSED: u8 = 1;

/// What came of a run.
#[derive(Drop)]
pub struct Ran {
    /// Whether it printed a line for each table, in place of the listing.
    pub(crate) check: bool,
    /// 0; 1 where the set is refused; 3 where the body of a method can't be read.
    pub(crate) status: u8,
    pub(crate) text: Vec<u8>,
    pub(crate) errors: Vec<u8>,
}

/// The state of an open set.
#[derive(Drop)]
pub struct State {
    pub(crate) dumps: Vec<Dump>,
    pub(crate) options: Options,
    pub(crate) ran: Option<Ran>,
    pub(crate) contents: Option<Contents>,
}

/// What is taken that is refused else.
#[derive(Clone, Copy)]
pub(crate) struct Flags {
    pub(crate) any_sum: bool,
    pub(crate) any_run: bool,
    pub(crate) unknown_zero: bool,
}

impl State {
    /// A set without dumps, with no option.
    pub(crate) fn new(alloc: Global) -> State
        ensures { IsNew result }
    {
        State {
            dumps: Vec::new(alloc),
            options: Options {
                any_sum: false,
                any_run: false,
                unknown_zero: false,
                externals: Vec::new(alloc),
            },
            ran: None,
            contents: None,
        }
    }

    /// Adds a dump behind the others.
    pub(crate) fn add(&mut self, dump: Dump) -> Ended
        ensures added { OnOk result (HasAdded self.old dump self.new) }
        ensures stops { IfErr result (RefusesCount self.old) }
        ensures refused { OnErr result (IsSame self.old self.new) }
    {
        if self.dumps.len() >= MAX_DUMPS {
            return Err(Fault::TooManyTables);
        }
        self.dumps.push(dump)?;
        self.ran = None;
        self.contents = None;
        Ok(())
    }

    /// Sets what is taken that is refused else.
    pub(crate) fn set_flags(&mut self, flags: Flags)
        ensures { HasFlags self.old flags self.new }
    {
        self.options.any_sum = flags.any_sum;
        self.options.any_run = flags.any_run;
        self.options.unknown_zero = flags.unknown_zero;
        self.ran = None;
        self.contents = None;
    }

    /// Sets the counts that the user gives, by the text of a file of them.
    pub(crate) fn set_counts(&mut self, alloc: Global, text: &[u8]) -> Ended
        ensures given { OnOk result (HasCounts self.old text.now self.new) }
        ensures stops { IfErr result (RefusesCounts text.now) }
        ensures refused { OnErr result (IsSame self.old self.new) }
    {
        if text.len() > MAX_TEXT_BYTES {
            return Err(Fault::TooLong);
        }
        let counts = parse_externals(alloc, text)?;
        self.options.externals = counts;
        self.ran = None;
        self.contents = None;
        Ok(())
    }

    /// What came of the last run.
    pub(crate) fn last_run(&self) -> Result<&Ran, Fault>
        ensures ran { IfOk result (λ ran. self.now.ran ≡ Some ran.now) }
        ensures none { IfErr result (λ fault. (fault ≡ NotRun) × (self.now.ran ≡ None)) }
    {
        match &self.ran {
            Some(ran) => Ok(ran),
            None => Err(Fault::NotRun),
        }
    }

    /// Runs the set: its listing, or with `check` a line for each table, and its error lines.
    pub(crate) fn run(&mut self, alloc: Global, check: bool) -> Ended
        ensures ran { OnOk result (HasRun self.old check self.new) }
        ensures stops { IfErr result IsNoMemory }
        ensures refused { OnErr result (IsSame self.old self.new) }
    {
        let ran = self.run_of(alloc, check)?;
        self.ran = Some(ran);
        Ok(())
    }

    /// Tells what the set has, with the bodies of its methods if they are asked for.
    pub(crate) fn list(&mut self, alloc: Global, bodies: bool) -> Ended
        ensures listed { OnOk result (HasListed self.old bodies self.new) }
        ensures stops { IfErr result (RefusesListed self.old) }
        ensures refused { OnErr result (IsSame self.old self.new) }
    {
        let contents = contents_of(alloc, self.dumps.as_slice(), &self.options, bodies)?;
        self.contents = Some(contents);
        Ok(())
    }

    /// What the set has, as it was told last.
    pub(crate) fn listed(&self) -> Result<&Contents, Fault>
        ensures contents { IfOk result (λ contents. self.now.contents ≡ Some contents.now) }
        ensures none { IfErr result (λ fault. (fault ≡ NotRun) × (self.now.contents ≡ None)) }
    {
        match &self.contents {
            Some(contents) => Ok(contents),
            None => Err(Fault::NotRun),
        }
    }

    /// What comes of a run.
    fn run_of(&self, alloc: Global, check: bool) -> Result<Ran, Fault>
        ensures ran { IfOk result (IsRunOf self.now check) }
        ensures stops { IfErr result IsNoMemory }
    {
        let mut text = Noting::new(alloc);
        let mut errors = Noting::new(alloc);
        let dumps = self.dumps.as_slice();
        let ended = run_alone(alloc, dumps, &self.options, check, &mut text, &mut errors);
        let status = settle(dumps, ended, &mut errors)?;
        if errors.refused {
            return Err(Fault::NoMemory);
        }
        Ok(Ran {
            check,
            status,
            text: text.bytes,
            errors: errors.bytes,
        })
    }
}

/// The status of a run that ended so. A refused one gets its error line; where memory was refused, there is none.
fn settle(dumps: &[Dump], ended: Result<u8, RunFault>, errors: &mut Noting) -> Result<u8, Fault>
    ensures status { IfOk result (Settles ended) }
    ensures stops { IfErr result IsNoMemory }
{
    match ended {
        Ok(status) => Ok(status),
        Err(RunFault::Write(_)) => Err(Fault::NoMemory),
        Err(RunFault::Refused(Refusal::NoMemory | Refusal::NoThread)) => Err(Fault::NoMemory),
        Err(fault) => {
            print_fault(dumps, &fault, errors);
            Ok(REFUSED)
        }
    }
}
