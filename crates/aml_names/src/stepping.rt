//! The first steps of reading bytes forward.
ghost use Rattle.std.specs.Prelude.{◌≡◌, ◌≢◌, ◌-◌, length, IfErr};
ghost use Rattle.aml_names.specs.NameReading.{Gives, byte_at};

use crate::faults::CodeFault;

/// Where the bytes begin that are left of a span, as an offset in the code: the span ends at `end`.
pub fn offset_of(end: u32, rest: &[u8]) -> u32
    ensures { result ≡ end - length rest.now }
{
    let left = rest.len();
    if left < end as usize {
        end - left as u32
    } else {
        0
    }
}

/// The first byte and the others. `Truncated` at the span's end where there is none.
pub fn byte_of(end: u32, bytes: &[u8]) -> Result<(u8, &[u8]), CodeFault>
    ensures exact { Gives (λ x. (x.0, x.1.now)) result (byte_at end bytes.now) }
    ensures takes_none { IfErr result (λ e. e ≢ CodeFault.NoMemory) }
{
    match bytes {
        [] => Err(CodeFault::Truncated { at: end }),
        [byte, rest @ ..] => Ok((*byte, rest)),
    }
}
