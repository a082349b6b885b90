//! Why a set isn't disassembled.
ghost use Rattle.std.specs.Prelude.{◌≡◌};
ghost use Rattle.acpidis.specs.declared.refusal.Refusal.TheVariants.{NoMemory as want};

use acpi_tables::TableFault;
use aml_load::LoadFault;
use std::alloc::{AllocError, AllocFailed};
use std::error::Error;
use std::fmt;

/// Why a set isn't disassembled. It displays as `run` prints it, without the file's name.
#[derive(Debug, Drop)]
pub enum Refusal {
    /// A dump isn't taken, or the dumps have no order.
    Table(TableFault),
    /// The tables can't be loaded. Where the fault is about a table, that is the index of its dump.
    Load(LoadFault),
    /// The start of a thread was refused.
    NoThread,
    /// A growth was refused.
    NoMemory,
}

/// The words of the fault.
impl fmt::Display for Refusal {
    ghost use Rattle.acpidis.specs.Refusals.{want_text};

    ghost output = { want_text };

    fn fmt<W: fmt::Write>(&self, f: &mut fmt::Formatter<W>) -> fmt::Result {
        match self {
            Refusal::Table(fault) => write!(f, "{fault}"),
            Refusal::Load(fault) => write!(f, "{fault}"),
            Refusal::NoThread => f.write_str("NoThread"),
            Refusal::NoMemory => f.write_str("NoMemory"),
        }
    }
}

impl Error for Refusal {}

impl From<AllocError> for Refusal {
    ghost from_gives = { λ _ e. e ≡ want };

    fn from(_e: AllocError) -> Refusal {
        Refusal::NoMemory
    }
}

impl<T: Drop> From<AllocFailed<T>> for Refusal {
    ghost from_gives = { λ _ e. e ≡ want };

    fn from(_e: AllocFailed<T>) -> Refusal {
        Refusal::NoMemory
    }
}
