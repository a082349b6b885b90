//! Why a run ends early.
ghost use Rattle.std.specs.Prelude.{◌≡◌};
ghost use Rattle.acpidis.specs.declared.faults.RunFault.TheVariants as ends;
ghost use Rattle.acpidis.specs.declared.refusal.Refusal.TheVariants.{NoMemory as want};

use crate::refusal::Refusal;
use std::alloc::AllocError;
use text_writer::WriteFault;

/// Why a run ends before its end.
#[derive(Drop)]
pub enum RunFault {
    /// The set isn't disassembled. Nothing was written.
    Refused(Refusal),
    /// The writer took no more.
    Write(WriteFault),
    /// A table isn't the same when it is made anew. All was written.
    Differs,
}

impl From<Refusal> for RunFault {
    ghost from_gives = { λ refusal e. e ≡ ends.Refused refusal };

    fn from(refusal: Refusal) -> RunFault {
        RunFault::Refused(refusal)
    }
}

impl From<AllocError> for RunFault {
    ghost from_gives = { λ _ e. e ≡ ends.Refused want };

    fn from(_e: AllocError) -> RunFault {
        RunFault::Refused(Refusal::NoMemory)
    }
}

impl From<WriteFault> for RunFault {
    ghost from_gives = { λ fault e. e ≡ ends.Write fault };

    fn from(fault: WriteFault) -> RunFault {
        RunFault::Write(fault)
    }
}
