//! A stack of layers: the base image and the shadow files on it.

use cckd_base::Geometry;
use cckd_layer::Layer;
use std::marker::Model;

/// The layers of a disk, the base first, each in the slot of its number. Contracts see a `StackState`.
#[derive(Drop)]
pub struct Stack<U> {
    pub(crate) geometry: Geometry,
    /// With memory for nine of them.
    pub(crate) layers: Vec<Layer<U>>,
    /// A write, a cut or a sync failed.
    pub(crate) broken: bool,
}

impl<U> Model for Stack<U> {
    ghost use Rattle.std.specs.Prelude.{◌≤◌, vec_capacity};
    ghost use Rattle.cckd_stack.specs.Stacked.{StackState, IsStack};

    ghost Value = { StackState };

    ghost view = { λ s. record { geometry = s.geometry; layers = s.layers.items; broken = s.broken } };

    ghost invariant = { λ s. IsStack (record { geometry = s.geometry; layers = s.layers.items; broken = s.broken }) × (9 ≤ vec_capacity s.layers) };
}

impl<U> Stack<U> {
    ghost use Rattle.std.specs.Prelude.{◌≡◌};
    ghost use Rattle.cckd_base.specs.Geometry.{IsGeometry};
    ghost use Rattle.cckd_stack.specs.Stacked.{IsStack};

    /// The geometry of all layers.
    pub fn geometry(&self) -> Geometry
        ensures value { result ≡ self.now.geometry }
        ensures can { IsGeometry result }
        ensures stack { IsStack self.now }
    {
        self.geometry
    }

    /// Whether a write, a cut or a sync failed. Nothing else may be called then.
    pub fn broken(&self) -> bool
        ensures { result ≡ self.now.broken }
    {
        self.broken
    }
}
