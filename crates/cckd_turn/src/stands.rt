ghost use Rattle.std.specs.Prelude.{ℕ, List};

/// A value that stands for a list of entries. Each entry names the pass that made it.
pub trait Stands {
    type Entry;

    ghost stands: { Self → List Self.Entry → Type 0 };

    ghost by: { Self.Entry → ℕ };
}

/// Which entry a call of `leave` adds. Each caller picks it.
pub trait Adds<E> {
    ghost entry: { E };
}
