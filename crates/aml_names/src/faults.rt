//! Why AML could not be read.
ghost use Rattle.std.specs.Prelude.{◌≡◌};
ghost use Rattle.aml_names.specs.declared.faults.CodeFault.TheVariants.{NoMemory as want};

use std::alloc::{AllocError, AllocFailed};
use thiserror::Error;

/// Want of memory.
pub type NoMemory = AllocError;

/// Why AML could not be read. `at` is an offset in the bytes that were handed in.
#[derive(Clone, Copy, Debug, Error)]
pub enum CodeFault {
    /// One more byte was wanted where the bytes end, or those of a package whose length is spelled in them.
    #[error("Truncated at {at}")]
    Truncated { at: u32 },
    /// The lead byte of a package length of several bytes has bit 5 or 4 set.
    #[error("PkgBits at {at}")]
    PkgBits { at: u32 },
    /// A package length that is smaller than its own bytes, or that leads past the end of the bytes or of a package
    /// that begins before it.
    #[error("PkgPast at {at}")]
    PkgPast { at: u32 },
    /// A byte that can't stand in its place of a name.
    #[error("BadName at {at}")]
    BadName { at: u32 },
    /// An opcode that the table of opcodes doesn't have.
    #[error("UnknownOp at {at}")]
    UnknownOp { at: u32 },
    /// An opcode that the position doesn't take.
    #[error("NotHere at {at}")]
    NotHere { at: u32 },
    /// An Else that doesn't stand right after an If.
    #[error("StrayElse at {at}")]
    StrayElse { at: u32 },
    /// A name of which nobody knows how many arguments follow it.
    #[error("UnknownName at {at}")]
    UnknownName { at: u32 },
    /// A name without a segment, where it has to have one.
    #[error("EmptyName at {at}")]
    EmptyName { at: u32 },
    /// A Method inside a method's body.
    #[error("NestedMethod at {at}")]
    NestedMethod { at: u32 },
    /// A Scope, Device, Processor, PowerResource or ThermalZone inside a method's body.
    #[error("NestedScope at {at}")]
    NestedScope { at: u32 },
    /// Code that runs when the table is loaded.
    #[error("ModuleCode at {at}")]
    ModuleCode { at: u32 },
    /// An External of more than seven arguments.
    #[error("BadCount at {at}")]
    BadCount { at: u32 },
    /// A term below 512 others.
    #[error("TooDeep at {at}")]
    TooDeep { at: u32 },
    /// Memory was refused.
    #[error("NoMemory")]
    NoMemory,
}

impl From<AllocError> for CodeFault {
    ghost from_gives = { λ _ e. e ≡ want };

    fn from(_e: AllocError) -> CodeFault {
        CodeFault::NoMemory
    }
}

impl<T: Drop> From<AllocFailed<T>> for CodeFault {
    ghost from_gives = { λ _ e. e ≡ want };

    fn from(_e: AllocFailed<T>) -> CodeFault {
        CodeFault::NoMemory
    }
}
