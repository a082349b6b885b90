//! How a call ends.
ghost use Rattle.std.specs.Prelude.{◌≡◌};
ghost use Rattle.acpidis_c.specs.declared.code.Fault.TheVariants.{NoMemory as no_memory};
ghost use Rattle.acpidis_c.specs.Codes.{fault_number, code_of, line_of, of_counts};

use acpi_folder::ExternalsFault;
use std::alloc::{AllocError, AllocFailed};

/// Why a call does nothing. C has its number, and of a line that of the line, from 1.
#[derive(Clone, Copy, Debug)]
pub enum Fault {
    /// The set is closed, and the call wants an open one.
    Closed,
    /// The set is open, and the call wants a closed one.
    Open,
    /// A growth was refused.
    NoMemory,
    /// A name isn't UTF-8.
    BadName,
    /// There are 512 dumps already.
    TooManyTables,
    /// A text has more than 16,777,216 bytes.
    TooLong,
    /// A line of a text hasn't the form.
    BadLine(usize),
    /// The set has not run since it was changed.
    NotRun,
    /// What is asked for isn't within what there is.
    OutOfRange,
    /// The set has no listing.
    Refused,
}

impl From<AllocError> for Fault {
    ghost from_gives = { λ _ fault. fault ≡ no_memory };

    fn from(_error: AllocError) -> Fault {
        Fault::NoMemory
    }
}

impl<T: Drop> From<AllocFailed<T>> for Fault {
    ghost from_gives = { λ _ fault. fault ≡ no_memory };

    fn from(_error: AllocFailed<T>) -> Fault {
        Fault::NoMemory
    }
}

impl From<ExternalsFault> for Fault {
    ghost from_gives = { λ told fault. fault ≡ of_counts told };

    fn from(fault: ExternalsFault) -> Fault {
        match fault {
            ExternalsFault::BadLine(line) => Fault::BadLine(line),
            ExternalsFault::NoMemory => Fault::NoMemory,
        }
    }
}

impl Fault {
    /// Its number, from 1 on.
    pub(crate) fn number(self) -> u32
        ensures { result ≡ fault_number self }
    {
        match self {
            Fault::Closed => 1,
            Fault::Open => 2,
            Fault::NoMemory => 3,
            Fault::BadName => 4,
            Fault::TooManyTables => 5,
            Fault::TooLong => 6,
            Fault::BadLine(_) => 7,
            Fault::NotRun => 8,
            Fault::OutOfRange => 9,
            Fault::Refused => 12,
        }
    }
}

/// How a call ended: as it was asked to, or by a fault.
pub(crate) type Ended = Result<(), Fault>;

/// The number of a call that does what is asked, 0, or of its fault.
pub(crate) fn code_of(ended: &Ended) -> u32
    ensures { result ≡ code_of ended.now }
{
    match ended {
        Ok(()) => 0,
        Err(fault) => fault.number(),
    }
}

/// The number of the line that a fault is about, or 0.
pub(crate) fn line_of(ended: &Ended) -> usize
    ensures { result ≡ line_of ended.now }
{
    match ended {
        Err(Fault::BadLine(line)) => *line,
        _ => 0,
    }
}
