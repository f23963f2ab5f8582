//! The places of a disk's files.
ghost use Rattle.std.specs.Prelude.{◌≡◌, ℕ, ◌<◌, ◌≤◌, SomeIff};

use std::marker::Model;

/// A place for a file: 0 is the base image, and 1 to 8 are its shadow files.
#[derive(Clone, Copy, Debug, PartialEq, Eq)]
pub struct Slot {
    number: u8,
}

impl Model for Slot {
    ghost Value = { ℕ };

    ghost view = { λ s. s.number };

    ghost invariant = { λ s. s.number ≤ 8 };

    ghost inverse = { λ n. record { number = n } };
}

impl Slot {
    /// The slot of a number. None where it is above 8.
    pub fn new(n: u8) -> Option<Slot>
        ensures { SomeIff result (n ≤ 8) n }
    {
        if n > 8 {
            return None;
        }
        Some(Slot { number: n })
    }

    /// The slot's number.
    pub fn get(self) -> u8
        ensures value { result ≡ self }
        ensures within { result ≤ 8 }
    {
        self.number
    }
}
