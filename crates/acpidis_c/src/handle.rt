//! The handle of a set, which C holds: nothing, or a box of the set's state.
ghost use Rattle.std.specs.Prelude.{◌≡◌, Option, Some, None, true, is_some, IfSome, IfNone};
ghost use Rattle.acpidis_c.specs.declared.state.State.{State};
ghost use Rattle.acpidis_c.specs.Handles.{state_coded, held_owns};

use crate::parts::Parts;
use crate::state::State;
use std::alloc::Global;
use std::marker::Model;
use std::mem::replace;
use std::ptr::null_mut;

/// A box of a state as an address that says nothing of what is there, since no state crosses to C; or nothing. Only one
/// of nothing is let go: a box would be lost.
#[repr(C)]
#[derive(Drop)]
pub struct Held {
    at: *mut u8,
    alloc: Global,
    pub(crate) ghost state: { Option State } by { state_coded },
}

impl Model for Held {
    ghost also_owns = { λ held. held_owns held.alloc held.at held.state };
}

impl Held {
    /// Nothing.
    fn none(alloc: Global) -> Held
        ensures { result.state ≡ None }
    {
        Held {
            at: null_mut(),
            alloc,
        }
    }

    fn of_parts(parts: Parts<State, Global>) -> Held
        ensures { result.state ≡ Some parts.value }
    {
        let Parts { ptr, alloc } = parts;
        Held {
            at: ptr as *mut u8,
            alloc,
        }
    }

    fn into_parts(self) -> Parts<State, Global>
        requires { is_some self.state ≡ true }
        ensures { Some result.value ≡ self.state }
    {
        let Held { at, alloc } = self;
        Parts {
            ptr: at as *mut State,
            alloc,
        }
    }

    /// A box of a state.
    fn of(state: Box<State>) -> Held
        ensures { result.state ≡ Some state.value }
    {
        Held::of_parts(Parts::of(state))
    }

    fn into_box(self) -> Box<State>
        requires { is_some self.state ≡ true }
        ensures { Some result.value ≡ self.state }
    {
        self.into_parts().into_box()
    }
}

/// A set of tables, as C holds it: closed, or open with its state. C makes it closed, of zeros, and writes nothing into
/// it.
#[repr(C)]
#[derive(Drop)]
pub struct Set {
    held: Held,
    full: bool,
    pub(crate) ghost told: { full ≡ is_some held.state },
}

impl Set {
    ghost use Rattle.acpidis_c.specs.Sets.{state_of};

    /// Whether it is open.
    pub(crate) fn is_open(&self) -> bool
        ensures { result ≡ is_some (state_of self.now) }
    {
        self.full
    }

    /// Takes its state out, if it is open, and leaves it closed.
    pub(crate) fn take(&mut self, alloc: Global) -> Option<Box<State>>
        ensures some { IfSome result (λ state. state_of self.old ≡ Some state.value) }
        ensures none { IfNone result (state_of self.old ≡ None) }
        ensures closed { state_of self.new ≡ None }
    {
        let closed = Set {
            held: Held::none(alloc),
            full: false,
        };
        let Set { held, full } = replace(self, closed);
        if full { Some(held.into_box()) } else { None }
    }

    /// Opens it with this state. It is closed before.
    pub(crate) fn put(&mut self, state: Box<State>)
        requires closed { state_of self.old ≡ None }
        ensures { state_of self.new ≡ Some state.value }
    {
        *self = Set {
            held: Held::of(state),
            full: true,
        };
    }
}
