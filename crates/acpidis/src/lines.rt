//! The lines of all bodies of a loaded set, read by the caller alone, for whoever prints no listing.
ghost use Rattle.std.specs.Prelude.{◌≡◌, ◌≤◌, IfOk, IfErr, length};
ghost use Rattle.acpidis.specs.Checks.{AreKeptOf, IsKept, AreLines};

use crate::bodies::{Keep, Unread, keep_bodies_alone};
use crate::refusal::Refusal;
use crate::texts::AtLevel;
use aml_code::CodeFault;
use aml_pool::NoMemory;
use aml_set::TableSet;
use asl_text::told_text;
use std::alloc::Global;

/// Each body is kept as its lines without an indent, or as its fault.
#[derive(Clone, Copy)]
struct Lines {
    alloc: Global,
}

impl Keep for Lines {
    type Kept = Result<Vec<u8>, CodeFault>;

    ghost keeps = { λ w n bytes reading kept. IsKept AreLines reading kept };

    fn keep(&self, unread: &Unread<'_, '_>) -> Result<Self::Kept, NoMemory> {
        let told = AtLevel { unread, level: 0 };
        match told_text(self.alloc, usize::MAX, told) {
            Ok(Some(text)) => Ok(Ok(text)),
            Ok(None) => Err(NoMemory),
            Err(CodeFault::NoMemory) => Err(NoMemory),
            Err(fault) => Ok(Err(fault)),
        }
    }
}

/// The lines of the body of each method of a loaded set, without an indent, or why the body can't be read. With
/// `unknown_zero` a name that leads nowhere counts as one without arguments.
pub fn read_lines(
    alloc: Global,
    set: &TableSet<'_>,
    unknown_zero: bool,
) -> Result<Vec<Result<Vec<u8>, CodeFault>>, Refusal>
    requires few { length set.now.methods.items ≤ 1048576 }
    // Each body reads as the terms whose lines these are, and as no others, or is raw for this fault.
    ensures kept { IfOk result (λ r. AreKeptOf (λ _. IsKept AreLines) unknown_zero set.now r.items) }
    ensures memory { IfErr result (λ e. e ≡ Refusal.NoMemory) }
{
    keep_bodies_alone(alloc, set, unknown_zero, &Lines { alloc })
}
