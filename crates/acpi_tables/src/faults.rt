//! Why a table is refused.
ghost use Rattle.std.specs.Prelude.{◌≡◌, None, Some};
ghost use Rattle.acpi_tables.specs.declared.faults.Bad.TheVariants.{NoMemory};

use std::alloc::{AllocError, AllocFailed};
use thiserror::Error;

/// What is wrong with a table, or with a set of tables. It displays as the variant's name.
#[derive(Clone, Copy, Debug, Error)]
pub enum Bad {
    /// More than 512 dumps.
    #[error("TooManyTables")]
    TooManyTables,
    /// A dump of more than 16,777,216 bytes.
    #[error("TooLarge")]
    TooLarge,
    /// A table that is shorter than its header or than its Length.
    #[error("Short")]
    Short,
    /// A checksum that isn't 0.
    #[error("BadSum")]
    BadSum,
    /// An RSDP, an XSDT or an RSDT that isn't well formed.
    #[error("BadRoot")]
    BadRoot,
    /// No RSDP, or no XSDT, or RSDT, at the address that the RSDP gives.
    #[error("RootMissing")]
    RootMissing,
    /// An XSDT or an RSDT that leads to no FADT.
    #[error("FadtMissing")]
    FadtMissing,
    /// A FADT of less than 116 bytes.
    #[error("FadtShort")]
    FadtShort,
    /// A MADT's record, at this offset of the table, without a length, or with one below 2 or past the table's end.
    #[error("MadtRecord at {0}")]
    MadtRecord(usize),
    /// No DSDT, or none at the address that the FADT gives.
    #[error("NoDsdt")]
    NoDsdt,
    /// A second DSDT where no addresses choose between them.
    #[error("TwoDsdts")]
    TwoDsdts,
    /// A growth was refused.
    #[error("NoMemory")]
    NoMemory,
}

/// A refusal, and the index of the dump that it is about, if it is about one. It displays as what is wrong.
#[derive(Clone, Copy, Debug, Error)]
#[error("{bad}")]
pub struct TableFault {
    pub dump: Option<usize>,
    pub bad: Bad,
}

impl TableFault {
    /// A refusal that is about no dump in particular.
    pub(crate) fn of_set(bad: Bad) -> TableFault
        ensures dump { result.dump ≡ None }
        ensures bad { result.bad ≡ bad }
    {
        TableFault { dump: None, bad }
    }

    /// A refusal of the dump at this index.
    pub(crate) fn of_dump(index: usize, bad: Bad) -> TableFault
        ensures dump { result.dump ≡ Some index }
        ensures bad { result.bad ≡ bad }
    {
        TableFault {
            dump: Some(index),
            bad,
        }
    }
}

impl From<AllocError> for Bad {
    ghost from_gives = { λ _ bad. bad ≡ NoMemory };

    fn from(_error: AllocError) -> Bad {
        Bad::NoMemory
    }
}

impl<T: Drop> From<AllocFailed<T>> for Bad {
    ghost from_gives = { λ _ bad. bad ≡ NoMemory };

    fn from(_error: AllocFailed<T>) -> Bad {
        Bad::NoMemory
    }
}

impl From<AllocError> for TableFault {
    ghost from_gives = { λ _ fault. fault ≡ record { dump = None; bad = NoMemory } };

    fn from(_error: AllocError) -> TableFault {
        TableFault {
            dump: None,
            bad: Bad::NoMemory,
        }
    }
}

impl<T: Drop> From<AllocFailed<T>> for TableFault {
    ghost from_gives = { λ _ fault. fault ≡ record { dump = None; bad = NoMemory } };

    fn from(_error: AllocFailed<T>) -> TableFault {
        TableFault {
            dump: None,
            bad: Bad::NoMemory,
        }
    }
}
