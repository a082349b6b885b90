//! What workers do.
ghost use Rattle.std.specs.Prelude.{ℕ, IfOk};

use crate::faults::NoMemory;

/// Pieces of work, one for each number.
pub trait Work {
    type Done;

    /// The condition of the piece with this number.
    ghost can_work: { Self → ℕ → Type 0 };

    /// What the work promises of its answer.
    ghost gives: { Self → ℕ → Self.Done → Type 0 };

    /// The result for this number, or `NoMemory` where a growth was refused.
    fn work(&self, number: u32) -> Result<Self::Done, NoMemory>
        requires { can_work self.now number }
        ensures { IfOk result (λ done. gives self.now number done) };
}
