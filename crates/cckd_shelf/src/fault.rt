//! Calls that fail, and how often they did.
ghost use Rattle.std.specs.Prelude.{◌≡◌};

/// The kinds of calls whose faults are counted apart.
#[derive(Clone, Copy, Debug, PartialEq, Eq)]
pub enum Kind {
    /// `bind`, `len` and `read`.
    Reads,
    /// `write` and `cut`.
    Writes,
    Syncs,
    Takes,
    Puts,
}

/// The call failed. Its count of faults rose, or stands at the last value.
#[derive(Clone, Copy, Debug, PartialEq, Eq)]
pub struct Failed;

/// How often calls have failed, by kind. Each count stands still at its last value.
#[derive(Clone, Copy, Debug, PartialEq, Eq)]
pub struct Faults {
    pub reads: u64,
    pub writes: u64,
    pub syncs: u64,
    pub takes: u64,
    pub puts: u64,
}

impl Faults {
    ghost use Rattle.cckd_shelf.specs.Faults.{Raises, no_faults};

    /// Nothing failed yet.
    pub fn none() -> Faults
        ensures { result ≡ no_faults }
    {
        Faults {
            reads: 0,
            writes: 0,
            syncs: 0,
            takes: 0,
            puts: 0,
        }
    }

    /// Counts a call that failed, for a stage.
    pub fn raise(&mut self, kind: Kind) -> Failed
        ensures { Raises kind self.old self.new }
    {
        match kind {
            Kind::Reads => self.reads = self.reads.saturating_add(1),
            Kind::Writes => self.writes = self.writes.saturating_add(1),
            Kind::Syncs => self.syncs = self.syncs.saturating_add(1),
            Kind::Takes => self.takes = self.takes.saturating_add(1),
            Kind::Puts => self.puts = self.puts.saturating_add(1),
        }
        Failed
    }
}
