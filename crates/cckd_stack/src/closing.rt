//! Closing: the files that were changed are closed images, and all that was written is on the disk for good.
ghost use Rattle.cckd_stack.specs.Room.{StayInRoom};
ghost use Rattle.std.specs.Prelude.{◌≡◌, ◌≤◌, ℕ, length, false, IsOk, OnOk, IfErr};
ghost use Rattle.cckd_shelf.specs.Seen.{seen};
ghost use Rattle.cckd_layer.specs.Writes.{IsOutside, CountsLayer, is_broken_by as is_layer_broken_by};
ghost use Rattle.cckd_stack.specs.Stacked.{AreLayersFrom, AreWhole, CanReadAll, InLayer, CountsFault};
ghost use Rattle.cckd_stack.specs.Marking.{KeepMarks};
ghost use Rattle.cckd_stack.specs.Writes.{KeepsEach, AreUnchanged, HasNoChange, OnlyInChanged, ClosesChanged, AreSameFiles, StopsLie, StopsSettle, is_broken_by};

use crate::hardening::breaks;
use crate::stack::Stack;
use cckd_base::{Geometry, LayerFault, StackFault, Unit};
use cckd_layer::Layer;
use cckd_shelf::Stage;

/// Closes the files of the layers that were changed, the last one first.
fn close_each<U: Unit, T: Stage>(
    layers: &mut [Layer<U>],
    stage: &mut T,
    geo: &Geometry,
) -> Result<(), LayerFault>
    requires some { 1 ≤ length layers.old }
    requires layers { AreLayersFrom geo.now 0 layers.old }
    requires whole { AreWhole layers.old }
    requires can_read { CanReadAll layers.old (seen T.Shows stage.old) }
    ensures closed { OnOk result (ClosesChanged layers.old (seen T.Shows stage.old) (seen T.Shows stage.new)) }
    ensures unchanged { OnOk result (AreUnchanged layers.new) }
    ensures settles { OnOk result (StopsSettle U.null_bytes geo.now layers.old (seen T.Shows stage.old) (seen T.Shows stage.new)) }
    ensures map { is_layer_broken_by result ≡ false → KeepsEach U.null_bytes layers.old layers.new (seen T.Shows stage.old) (seen T.Shows stage.new) }
    ensures marks { is_layer_broken_by result ≡ false → KeepMarks layers.old layers.new (seen T.Shows stage.old) (seen T.Shows stage.new) }
    ensures still { AreUnchanged layers.old → IsOk result × (layers.new ≡ layers.old) × (seen T.Shows stage.new ≡ seen T.Shows stage.old) }
    ensures files { AreSameFiles layers.old layers.new }
    ensures confined { StayInRoom layers.old layers.new }
    ensures layers { AreLayersFrom geo.now 0 layers.new }
    ensures whole { is_layer_broken_by result ≡ false → AreWhole layers.new }
    ensures refusal { IfErr result IsOutside }
    ensures counts { CountsLayer result (seen T.Shows stage.old).faults (seen T.Shows stage.new).faults }
    ensures stops { StopsLie U.null_bytes geo.now layers.old (seen T.Shows stage.old) (seen T.Shows stage.new) }
    ensures others { OnlyInChanged layers.old (seen T.Shows stage.old) (seen T.Shows stage.new) }
    ensures calm { (slot : ℕ) → HasNoChange layers.old slot → HasNoChange layers.new slot }
{
    let count = layers.len();
    for done in 0..count {
        let layer = &mut layers[count - 1 - done];
        match layer.close(stage) {
            Ok(()) => {}
            Err(fault) => return Err(fault),
        }
    }
    Ok(())
}

impl<U: Unit> Stack<U> {
    /// Closes the files of the layers that were changed since they were mounted or closed, that of the last layer first.
    pub fn close<T: Stage>(&mut self, stage: &mut T) -> Result<(), StackFault>
        requires whole { self.old.broken ≡ false }
        requires can_read { CanReadAll self.old.layers (seen T.Shows stage.old) }

        // At Ok those files are closed images, and a stop leaves exactly the stack; and unless the call breaks, the stack is the same.
        ensures closed { OnOk result (ClosesChanged self.old.layers (seen T.Shows stage.old) (seen T.Shows stage.new)) }
        ensures unchanged { OnOk result (AreUnchanged self.new.layers) }
        ensures settles { OnOk result (StopsSettle U.null_bytes self.old.geometry self.old.layers (seen T.Shows stage.old) (seen T.Shows stage.new)) }
        ensures map { self.new.broken ≡ false → KeepsEach U.null_bytes self.old.layers self.new.layers (seen T.Shows stage.old) (seen T.Shows stage.new) }
        ensures marks { self.new.broken ≡ false → KeepMarks self.old.layers self.new.layers (seen T.Shows stage.old) (seen T.Shows stage.new) }
        ensures still { AreUnchanged self.old.layers → IsOk result × (self.new ≡ self.old) × (seen T.Shows stage.new ≡ seen T.Shows stage.old) }
        ensures files { AreSameFiles self.old.layers self.new.layers }
        ensures confined { StayInRoom self.old.layers self.new.layers }
        ensures geometry { self.new.geometry ≡ self.old.geometry }

        // A fault of reading leaves it as it is, though some files may be closed; any other breaks the stack.
        ensures broken { self.new.broken ≡ is_broken_by result }
        ensures refusal { IfErr result (InLayer IsOutside) }
        ensures counts { CountsFault result (seen T.Shows stage.old).faults (seen T.Shows stage.new).faults }

        // A stop leaves what it could leave before, or the stack, or something of both. Files that weren't changed are left alone,
        // and their layers still aren't.
        ensures stops { StopsLie U.null_bytes self.old.geometry self.old.layers (seen T.Shows stage.old) (seen T.Shows stage.new) }
        ensures others { OnlyInChanged self.old.layers (seen T.Shows stage.old) (seen T.Shows stage.new) }
        ensures calm { (slot : ℕ) → HasNoChange self.old.layers slot → HasNoChange self.new.layers slot }
    {
        let geo = self.geometry;
        match close_each(self.layers.as_mut_slice(), stage, &geo) {
            Ok(()) => Ok(()),
            Err(fault) => {
                self.broken = breaks(&fault);
                Err(StackFault::Layer(fault))
            }
        }
    }
}
