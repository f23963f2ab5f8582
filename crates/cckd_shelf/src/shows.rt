//! What a stage shows of itself.
ghost use Rattle.std.specs.Prelude.{ℕ, Bool, T};
ghost use Rattle.cckd_shelf.specs.World.{World, IsTied};
ghost use Rattle.cckd_shelf.specs.declared.fault.Faults.{Faults as Counts};

/// What contracts see of a shelf or a stage, as one value: `seen S.Shows shelf.old`.
pub trait Shows {
    /// Whether it tells what it holds: memory does, a real file doesn't.
    ghost tells: { Bool };

    /// What it holds, and all that happened to it. Where it doesn't tell, this says nothing.
    ghost world: { Self → World };

    /// How many of its calls failed, by kind.
    ghost faults: { Self → Counts };

    /// How many calls of the shelf and of the stage were made.
    ghost calls: { Self → ℕ };

    /// A name that some slot got once holds what was done to it.
    ghost tied: { (shelf : Self) → T tells → IsTied (world shelf) };
}
