//! Paths by number.
ghost use Rattle.std.specs.Prelude.{◌≡◌, ◌<◌, ◌^◌, nat_eq};

use std::marker::Model;

/// A path, by its number in a namespace. It stands for the same path while the namespace grows.
#[derive(Clone, Copy)]
pub struct PathId(u32);

impl Model for PathId {
    ghost use Rattle.std.specs.Prelude.{ℕ};
    ghost use Rattle.std.specs.Coded.{coded_ℕ};

    ghost Value = { ℕ };

    ghost coded = { coded_ℕ };

    ghost view = { λ p. p.0 };

    ghost inverse = { λ n. record { 0 = n } };
}

impl PathId {
    /// The root's.
    pub fn root() -> PathId
        ensures { result ≡ 0 }
    {
        PathId(0)
    }

    /// The path of this number.
    pub fn new(number: usize) -> PathId
        requires { number < 2 ^ 32 }
        ensures { result ≡ number }
    {
        PathId(number as u32)
    }

    /// Whether it is the same number.
    pub fn is(self, other: PathId) -> bool
        ensures { result ≡ nat_eq self other }
    {
        self.0 == other.0
    }

    /// The number, below 2^32.
    pub fn index(self) -> usize
        ensures number { result ≡ self }
        ensures fits { self < 2 ^ 32 }
    {
        self.0 as usize
    }
}
