//! What is told of the last run of a set.
ghost use Rattle.std.specs.Prelude.{◌≡◌};
ghost use Rattle.acpidis_c.specs.Codes.{code_of, fault_number};
ghost use Rattle.acpidis_c.specs.Reads.{nothing_told, told_of, bytes_of, CopiesRun};

use crate::code::{Ended, Fault};
use crate::looking::copy;
use crate::state::{Ran, State};

/// What came of a run.
#[repr(C)]
#[derive(Drop)]
pub struct Told {
    /// The code of the call. With another than 0 the other numbers are 0.
    pub code: u32,
    /// 0, 1 or 3, as the exit status of the program.
    pub status: u32,
    /// How many bytes the text has, and the error lines.
    pub text: usize,
    pub errors: usize,
}

/// Only a code is told.
pub(crate) fn nothing_told(fault: Fault) -> Told
    ensures { result ≡ nothing_told (fault_number fault) }
{
    Told {
        code: fault.number(),
        status: 0,
        text: 0,
        errors: 0,
    }
}

/// What came of the last run of an open set.
pub(crate) fn told_of(state: &State) -> Told
    ensures { result ≡ told_of state.now.ran }
{
    match state.last_run() {
        Ok(ran) => Told {
            code: 0,
            status: ran.status as u32,
            text: ran.text.len(),
            errors: ran.errors.len(),
        },
        Err(fault) => nothing_told(fault),
    }
}

/// The bytes that are copied.
fn bytes_of(ran: &Ran, errors: bool) -> &[u8]
    ensures { result.now ≡ bytes_of errors ran.now }
{
    if errors {
        ran.errors.as_slice()
    } else {
        ran.text.as_slice()
    }
}

/// Copies bytes of the last run of an open set, from one on.
pub(crate) fn copy_of(state: &State, errors: bool, from: usize, out: &mut [u8]) -> Ended
    ensures { CopiesRun state.now.ran errors from out.old out.new (code_of result) }
{
    let ran = match state.last_run() {
        Ok(ran) => ran,
        Err(fault) => return Err(fault),
    };
    copy(bytes_of(ran, errors), from, out)
}
