//! The calls of a stage in memory, and those that fail.
ghost use Rattle.std.specs.Prelude.{◌≡◌, ◌+◌, ◌-◌, ◌^◌, min, IfOk};

use crate::Memory;
use cckd_shelf::{Failed, Faults, Kind};
use std::alloc::Global;

/// Which calls are to fail, and how many were made, wanted memory, and failed.
#[derive(Debug, Drop)]
pub struct Counts {
    failing: Vec<u64>,
    calls: u64,
    wanted: u64,
    faults: Faults,
}

impl Counts {
    ghost use Rattle.cckd_memory.specs.Counts.{IsFresh, Begins, Fell, Wanted};

    pub(crate) fn new(alloc: Global, failing: &[u64]) -> Result<Counts, Memory>
        ensures { IfOk result (IsFresh failing.now) }
    {
        Ok(Counts {
            failing: Vec::from_slice(alloc, failing)?,
            calls: 0,
            wanted: 0,
            faults: Faults::none(),
        })
    }

    /// Counts a call, and answers whether it is to fail.
    pub(crate) fn begin(&mut self) -> bool
        ensures { Begins result self.old self.new }
    {
        self.calls = self.calls.saturating_add(1);
        self.failing.contains(&self.calls)
    }

    /// Counts a call that failed.
    pub(crate) fn fail(&mut self, kind: Kind) -> Failed
        ensures { Fell kind self.old self.new }
    {
        self.faults.raise(kind)
    }

    /// Counts a call that failed for want of memory.
    pub(crate) fn fail_wanting(&mut self, kind: Kind) -> Failed
        ensures { Wanted kind self.old self.new }
    {
        self.wanted = self.wanted.saturating_add(1);
        self.faults.raise(kind)
    }

    pub(crate) fn wanted(&self) -> u64
        ensures { result ≡ self.now.wanted }
    {
        self.wanted
    }
}
