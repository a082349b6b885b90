//! Why tables can't be loaded.
ghost use Rattle.std.specs.Prelude.{◌≡◌};
ghost use Rattle.aml_load.specs.declared.faults.LoadFault.TheVariants.{NoMemory as want};
ghost use Rattle.aml_load.specs.Declaring.{code_fault};

use aml_code::{CodeFault, Path};
use aml_space::SpaceFault;
use std::alloc::{AllocError, AllocFailed};
use thiserror::Error;

/// Why tables can't be loaded. The number is that of the table, in load order from 0 on.
#[derive(Debug, Drop, Error)]
pub enum LoadFault {
    /// The table's AML can't be read, by an offset in it.
    #[error("{1}")]
    Code(usize, CodeFault),
    /// A name that the namespace refuses.
    #[error("{1}")]
    Space(usize, SpaceFault),
    /// A name that takes arguments stands as a TermArg outside the methods, or, where the code outside methods may run,
    /// one that can mean no path.
    #[error("ModuleCall")]
    ModuleCall(usize),
    /// A name outside the methods that is read with another number of arguments than it takes, by the first path that
    /// it may mean, where the code outside methods may run.
    #[error("ModuleCall {1}")]
    RunCall(usize, Path),
    /// More than 1,048,576 methods.
    #[error("TooManyMethods")]
    TooManyMethods,
    /// Memory was refused.
    #[error("NoMemory")]
    NoMemory,
}

impl LoadFault {
    /// A fault in a table's AML.
    pub fn in_code(table: usize, fault: CodeFault) -> LoadFault
        ensures { result ≡ code_fault table fault }
    {
        match fault {
            CodeFault::NoMemory => LoadFault::NoMemory,
            other => LoadFault::Code(table, other),
        }
    }
}

impl From<AllocError> for LoadFault {
    ghost from_gives = { λ _ e. e ≡ want };

    fn from(_e: AllocError) -> LoadFault {
        LoadFault::NoMemory
    }
}

impl<T: Drop> From<AllocFailed<T>> for LoadFault {
    ghost from_gives = { λ _ e. e ≡ want };

    fn from(_e: AllocFailed<T>) -> LoadFault {
        LoadFault::NoMemory
    }
}
