//! What a pool can refuse.

ghost use Rattle.std.specs.Prelude.{◌≡◌, Some, codes};
ghost use Rattle.aml_pool.specs.declared.faults.PoolFault.TheVariants.{NoMemory as no_memory};

use std::alloc::{AllocError, AllocFailed};
use std::error::Error;
use std::fmt;

/// A growth was refused.
#[derive(Clone, Copy, Debug, Drop)]
pub struct NoMemory;

impl fmt::Display for NoMemory {
    ghost output = { λ _. Some (codes "out of memory") };

    fn fmt<W: fmt::Write>(&self, f: &mut fmt::Formatter<W>) -> fmt::Result {
        f.write_str("out of memory")
    }
}

impl Error for NoMemory {}

impl From<AllocError> for NoMemory {
    fn from(_: AllocError) -> NoMemory {
        NoMemory
    }
}

impl<T: Drop> From<AllocFailed<T>> for NoMemory {
    fn from(_: AllocFailed<T>) -> NoMemory {
        NoMemory
    }
}

/// Why there is no answer. It says nothing of the work: with more threads or memory there would be one.
#[derive(Clone, Copy, Debug)]
pub enum PoolFault {
    /// A thread's start was refused, for want of memory too. The threads already started were joined.
    NoThread,
    /// A growth was refused, in a worker or between them.
    NoMemory,
}

impl fmt::Display for PoolFault {
    ghost use Rattle.aml_pool.specs.Seats.{fault_text};

    ghost output = { λ fault. Some (fault_text fault) };

    fn fmt<W: fmt::Write>(&self, f: &mut fmt::Formatter<W>) -> fmt::Result {
        f.write_str(match self {
            PoolFault::NoThread => "a thread could not be started",
            PoolFault::NoMemory => "out of memory",
        })
    }
}

impl Error for PoolFault {}

impl From<NoMemory> for PoolFault {
    ghost from_gives = { λ _ fault. fault ≡ no_memory };

    fn from(_: NoMemory) -> PoolFault {
        PoolFault::NoMemory
    }
}

impl From<AllocError> for PoolFault {
    ghost from_gives = { λ _ fault. fault ≡ no_memory };

    fn from(_: AllocError) -> PoolFault {
        PoolFault::NoMemory
    }
}

impl<T: Drop> From<AllocFailed<T>> for PoolFault {
    ghost from_gives = { λ _ fault. fault ≡ no_memory };

    fn from(_: AllocFailed<T>) -> PoolFault {
        PoolFault::NoMemory
    }
}
