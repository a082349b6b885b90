//! Whether the terms of tables and of bodies encode to their bytes again: as they are told, so that no terms are made.
ghost use Rattle.std.specs.Prelude.{◌≡◌, ◌≤◌, ℕ, length};
ghost use Rattle.aml_code.specs.Pieces.{line_pieces};
ghost use Rattle.aml_code.specs.Tree.{Trees};
ghost use Rattle.acpidis.specs.Checks.{IsKept, IsSame, first_check};

use crate::bodies::{Keep, Unread};
use crate::checking::Checked;
use crate::texts::AtLevel;
use aml_code::{CodeFault, TableSink, Telling, told_same};
use aml_pool::NoMemory;
use std::alloc::Global;

/// Of each table is kept what is said of it before its methods are counted, and of each body whether its terms encode
/// to its bytes, or its fault.
#[derive(Clone, Copy)]
pub(crate) struct Trials {
    pub(crate) alloc: Global,
}

/// What was tried of a loaded set.
#[derive(Drop)]
pub(crate) struct Tried<'t> {
    pub(crate) alloc: Global,
    /// What is said of each table before its methods are counted.
    pub(crate) tables: Vec<Checked>,
    /// What was tried of each body.
    pub(crate) bodies: &'t [Result<bool, CodeFault>],
}

impl TableSink for Trials {
    type Kept = Checked;

    ghost keeps = { λ _ code ps checked. length code ≤ 16777216 → (level : ℕ) (ts : Trees) →
        ps ≡ line_pieces level ts → checked ≡ first_check code ts };

    fn take<T: Telling>(&self, code: &[u8], telling: T) -> Result<(T::Made, Checked), T::Fault> {
        let (made, same) = told_same(self.alloc, code, telling)?;
        Ok((made, Checked::of_table(code, same)))
    }
}

impl Keep for Trials {
    type Kept = Result<bool, CodeFault>;

    ghost keeps = { λ w n bytes reading kept. IsKept (IsSame bytes) reading kept };

    fn keep(&self, unread: &Unread<'_, '_>) -> Result<Self::Kept, NoMemory> {
        let told = AtLevel { unread, level: 0 };
        match told_same(self.alloc, unread.bytes, told) {
            Ok((_, same)) => Ok(Ok(same)),
            Err(CodeFault::NoMemory) => Err(NoMemory),
            Err(fault) => Ok(Err(fault)),
        }
    }
}
