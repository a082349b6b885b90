//! Calls that change the state of an open set.
ghost use Rattle.std.specs.Prelude.{OnOk, OnErr, IfErr};
ghost use Rattle.acpidis_c.specs.declared.code.Fault.{Fault};
ghost use Rattle.acpidis_c.specs.declared.state.State.{State};
ghost use Rattle.acpidis_c.specs.Sets.{state_of, Calls};
ghost use Rattle.acpidis_c.specs.States.{IsSame};

use crate::code::{Ended, Fault};
use crate::dump::dump_of;
use crate::handle::Set;
use crate::state::{Flags, State};
use std::alloc::Global;

/// What a call does to the state of an open set.
pub(crate) trait Step {
    /// The states before and behind it, where it does what is asked.
    ghost does: { Self → State → State → Type 0 };

    /// Why it does nothing else.
    ghost stops: { Self → State → Fault → Type 0 };

    fn step(self, alloc: Global, state: &mut State) -> Ended
        ensures done { OnOk result (does self state.old state.new) }
        ensures stops { IfErr result (stops self state.old) }
        ensures refused { OnErr result (IsSame state.old state.new) };
}

/// Does this to an open set. A closed one stays closed.
pub(crate) fn call<S: Step + Drop>(alloc: Global, set: &mut Set, step: S) -> Ended
    ensures { Calls (S.does step) (S.stops step) (state_of set.old) result (state_of set.new) }
{
    let Some(mut state) = set.take(alloc) else {
        return Err(Fault::Closed);
    };
    let ended = step.step(alloc, &mut state);
    set.put(state);
    ended
}

/// Adds a dump.
#[derive(Drop)]
pub(crate) struct Add<'a> {
    pub(crate) name: &'a [u8],
    pub(crate) address: Option<u64>,
    pub(crate) bytes: &'a [u8],
}

impl Step for Add<'_> {
    ghost use Rattle.acpidis_c.specs.Steps.{Adds, RefusesAdd};

    ghost does = { λ add. Adds add.name.now add.address add.bytes.now };

    ghost stops = { λ add. RefusesAdd add.name.now };

    fn step(self, alloc: Global, state: &mut State) -> Ended {
        let dump = dump_of(alloc, self.name, self.address, self.bytes)?;
        state.add(dump)
    }
}

impl Step for Flags {
    ghost use Rattle.acpidis_c.specs.States.{HasFlags};

    ghost does = { λ flags before after. HasFlags before flags after };

    ghost stops = { λ _ _ _. ⊥ };

    fn step(self, _alloc: Global, state: &mut State) -> Ended {
        state.set_flags(self);
        Ok(())
    }
}

/// Sets the counts that the user gives.
#[derive(Drop)]
pub(crate) struct Count<'a> {
    pub(crate) text: &'a [u8],
}

impl Step for Count<'_> {
    ghost use Rattle.acpidis_c.specs.States.{HasCounts, RefusesCounts};

    ghost does = { λ count before after. HasCounts before count.text.now after };

    ghost stops = { λ count _. RefusesCounts count.text.now };

    fn step(self, alloc: Global, state: &mut State) -> Ended {
        state.set_counts(alloc, self.text)
    }
}

/// Runs the set.
#[derive(Clone, Copy)]
pub(crate) struct Run {
    pub(crate) check: bool,
}

/// Tells what the set has.
#[derive(Clone, Copy)]
pub(crate) struct List {
    pub(crate) bodies: bool,
}

impl Step for List {
    ghost use Rattle.acpidis_c.specs.States.{HasListed, RefusesListed};

    ghost does = { λ list before after. HasListed before list.bodies after };

    ghost stops = { λ _ before. RefusesListed before };

    fn step(self, alloc: Global, state: &mut State) -> Ended {
        state.list(alloc, self.bodies)
    }
}

impl Step for Run {
    ghost use Rattle.acpidis_c.specs.States.{HasRun, IsNoMemory};

    ghost does = { λ run before after. HasRun before run.check after };

    ghost stops = { λ _ _. IsNoMemory };

    fn step(self, alloc: Global, state: &mut State) -> Ended {
        state.run(alloc, self.check)
    }
}
