//! How many arguments a method takes.
ghost use Rattle.std.specs.Prelude.{◌≡◌, ◌<◌, ◌≤◌, MatchOption};

use std::marker::Model;

/// How many arguments a method takes: 0 to 7, as the bits 0 to 2 of its flags say it (ACPI 6.5, 20.2.5.2).
#[derive(Debug, Clone, Copy)]
pub struct ArgumentCount {
    count: u8,
}

impl Model for ArgumentCount {
    ghost use Rattle.std.specs.Prelude.{ℕ, ◌≤◌};

    ghost Value = { ℕ };

    ghost view = { λ a. a.count };

    ghost invariant = { λ a. a.count ≤ 7 };

    ghost inverse = { λ n. record { count = n } };
}

impl ArgumentCount {
    /// This count; `None` above 7.
    pub fn new(count: u8) -> Option<ArgumentCount>
        ensures { MatchOption result (7 < count) (λ n. (n ≡ count) × (n ≤ 7)) }
    {
        if count <= 7 {
            Some(ArgumentCount { count })
        } else {
            None
        }
    }

    /// The number.
    pub fn get(self) -> u8
        ensures value { result ≡ self }
        ensures most { result ≤ 7 }
    {
        self.count
    }
}
