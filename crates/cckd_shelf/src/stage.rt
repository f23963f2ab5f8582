//! A shelf with a script to take and an output to put.
ghost use Rattle.std.specs.Prelude.{◌<◌, ◌≤◌, length, take, IfOk, OnErr};
ghost use Rattle.cckd_shelf.specs.Faults.{Takes, Puts};
ghost use Rattle.cckd_shelf.specs.World.{after_take, after_put};
ghost use Rattle.cckd_shelf.specs.Seen.{seen, Stays, Makes, Fails, Called, AreNext};

use crate::{Failed, Shelf};

/// The outside of a run: its files, a script that is taken and an output that is put. `take` and `put` have
/// counts of faults of their own.
pub trait Stage: Shelf {
    /// Fills the front of `into` with the next bytes of the script, and answers how many: 0 at its end.
    fn take(&mut self, into: &mut [u8]) -> Result<usize, Failed>
        requires { 0 < length into.old }
        ensures fits { IfOk result (λ n. n ≤ length into.old) }
        ensures next { IfOk result (λ n. AreNext n into.new (seen Self.Shows self.old)) }
        ensures left { IfOk result (λ n. Makes (after_take n) (seen Self.Shows self.old) (seen Self.Shows self.new)) }
        ensures kept { OnErr result (Stays (seen Self.Shows self.old) (seen Self.Shows self.new)) }
        ensures fails { Fails Takes result (seen Self.Shows self.old) (seen Self.Shows self.new) }
        ensures called { Called (seen Self.Shows self.old) (seen Self.Shows self.new) };

    /// Adds the front of `bytes` to the output, and answers how many. Of a piece that isn't empty it takes
    /// at least one.
    fn put(&mut self, bytes: &[u8]) -> Result<usize, Failed>
        ensures fits { IfOk result (λ n. n ≤ length bytes.now) }
        ensures some { IfOk result (λ n. 0 < length bytes.now → 0 < n) }
        ensures put { IfOk result (λ n. Makes (after_put (take n bytes.now)) (seen Self.Shows self.old) (seen Self.Shows self.new)) }
        ensures kept { OnErr result (Stays (seen Self.Shows self.old) (seen Self.Shows self.new)) }
        ensures fails { Fails Puts result (seen Self.Shows self.old) (seen Self.Shows self.new) }
        ensures called { Called (seen Self.Shows self.old) (seen Self.Shows self.new) };
}
