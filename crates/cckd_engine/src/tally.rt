//! How many calls were refused, by what refused them.
ghost use Rattle.std.specs.Prelude.{◌≡◌};

use cckd_base::{Refusal, Reply};

/// How many replies since mounting were refusals of these four kinds. Each number stands still at its last value.
#[derive(Clone, Copy, Debug, PartialEq, Eq)]
pub struct Tally {
    /// For want of room.
    pub fulls: u64,
    /// Faults of reading.
    pub reads: u64,
    /// Faults of writing.
    pub writes: u64,
    /// Faults of syncing.
    pub syncs: u64,
}

impl Tally {
    ghost use Rattle.cckd_engine.specs.Engine.{no_tally, tallied};

    /// Nothing was refused yet.
    pub fn none() -> Tally
        ensures { result ≡ no_tally }
    {
        Tally {
            fulls: 0,
            reads: 0,
            writes: 0,
            syncs: 0,
        }
    }

    /// Counts a reply.
    pub fn count(&mut self, reply: Reply)
        ensures { self.new ≡ tallied reply self.old }
    {
        let Reply::Refused(why) = reply else {
            return;
        };
        match why {
            Refusal::Full(_) => self.fulls = self.fulls.saturating_add(1),
            Refusal::ReadFault => self.reads = self.reads.saturating_add(1),
            Refusal::WriteFault => self.writes = self.writes.saturating_add(1),
            Refusal::SyncFault => self.syncs = self.syncs.saturating_add(1),
            _ => {}
        }
    }
}
