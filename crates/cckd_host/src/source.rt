//! Where the words of a run come from.
ghost use Rattle.std.specs.Prelude.{◌≡◌, ℕ, List, [], length};
ghost use Rattle.std.specs.Io.{WritesAtMost};
ghost use Rattle.cckd_host.specs.Words.{IsWordAt};

use std::env::{Env, FillError};

/// The words behind a program's name.
pub trait WordSource {
    /// Whether it tells its words: a list in memory does, the process doesn't.
    ghost tells: { Type 0 };

    /// The words, as bytes. Where it doesn't tell, this says nothing.
    ghost words: { Self → List (List ℕ) };

    /// Copies the word of this number, counted from 0, to the front of `room`, and answers its length.
    fn word(&self, number: usize, room: &mut [u8]) -> Result<usize, FillError>
        ensures fits { WritesAtMost result room.new }
        ensures word { tells → IsWordAt (words self.now) number (length room.old) room.new result };
}

impl WordSource for HostRuntime {
    ghost tells = { ⊥ };

    ghost words = { λ _. [] };

    fn word(&self, number: usize, room: &mut [u8]) -> Result<usize, FillError> {
        // The process's own list has the program's name in front.
        self.arg(number.saturating_add(1), room)
    }
}
