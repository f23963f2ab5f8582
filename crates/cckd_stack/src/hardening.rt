//! Hardening: all that was written to a stack is on the disk for good.
ghost use Rattle.cckd_layer.specs.Justified.{StaysInRoom};
ghost use Rattle.std.specs.Prelude.{◌≡◌, ◌-◌, ◌≤◌, length, false, Err, IsOk, OnOk, IfErr};
ghost use Rattle.cckd_shelf.specs.Seen.{seen, Stays};
ghost use Rattle.cckd_shelf.specs.Frame.{OnlyIn};
ghost use Rattle.cckd_layer.specs.Writes.{IsSameLayer, IsOutside, CountsLayer, is_broken_by as is_layer_broken_by};
ghost use Rattle.cckd_stack.specs.Stacked.{AreLayersFrom, AreWhole, CanReadAll, InLayer, CountsFault};
ghost use Rattle.cckd_stack.specs.Marking.{KeepMarks};
ghost use Rattle.cckd_stack.specs.Writes.{KeepsEach, IsHardenedLast, ChangesLast, StopsLie, StopsSettle, breaks_layer, is_broken_by};

use crate::stack::Stack;
use cckd_base::{Geometry, LayerFault, StackFault, Unit};
use cckd_layer::Layer;
use cckd_shelf::Stage;

/// Makes all stay that was written to the last of the layers.
fn harden_last<U: Unit, T: Stage>(
    layers: &mut [Layer<U>],
    stage: &mut T,
    geo: &Geometry,
) -> Result<(), LayerFault>
    requires some { 1 ≤ length layers.old }
    requires layers { AreLayersFrom geo.now 0 layers.old }
    requires whole { AreWhole layers.old }
    requires can_read { CanReadAll layers.old (seen T.Shows stage.old) }
    ensures settles { OnOk result (StopsSettle U.null_bytes geo.now layers.old (seen T.Shows stage.old) (seen T.Shows stage.new)) }
    ensures hardened { OnOk result (IsHardenedLast layers.new) }
    ensures map { is_layer_broken_by result ≡ false → KeepsEach U.null_bytes layers.old layers.new (seen T.Shows stage.old) (seen T.Shows stage.new) }
    ensures last { ChangesLast IsSameLayer layers.old layers.new }
    ensures confined { ChangesLast StaysInRoom layers.old layers.new }
    ensures marks { is_layer_broken_by result ≡ false → KeepMarks layers.old layers.new (seen T.Shows stage.old) (seen T.Shows stage.new) }
    ensures layers { AreLayersFrom geo.now 0 layers.new }
    ensures still { IsHardenedLast layers.old → IsOk result × (layers.new ≡ layers.old) × (seen T.Shows stage.new ≡ seen T.Shows stage.old) }
    ensures whole { is_layer_broken_by result ≡ false → AreWhole layers.new }
    ensures refusal { IfErr result IsOutside }
    ensures read { result ≡ Err LayerFault.ReadFault → (layers.new ≡ layers.old) × Stays (seen T.Shows stage.old) (seen T.Shows stage.new) }
    ensures counts { CountsLayer result (seen T.Shows stage.old).faults (seen T.Shows stage.new).faults }
    ensures stops { StopsLie U.null_bytes geo.now layers.old (seen T.Shows stage.old) (seen T.Shows stage.new) }
    ensures others { OnlyIn (length layers.old - 1) (seen T.Shows stage.old) (seen T.Shows stage.new) }
{
    let last = layers.len() - 1;
    let layer = &mut layers[last];
    layer.harden(stage)
}

/// Whether a fault of a layer breaks the stack: a write, a cut or a sync failed.
pub(crate) fn breaks(fault: &LayerFault) -> bool
    ensures { result ≡ breaks_layer fault.now }
{
    matches!(fault, LayerFault::WriteFault | LayerFault::SyncFault)
}

impl<U: Unit> Stack<U> {
    /// Makes all stay that was written, where something was since that was done. All that was is in the last layer.
    pub fn harden<T: Stage>(&mut self, stage: &mut T) -> Result<(), StackFault>
        requires whole { self.old.broken ≡ false }
        requires can_read { CanReadAll self.old.layers (seen T.Shows stage.old) }

        // At Ok a stop leaves exactly the stack; and unless the call breaks, the stack is the same.
        ensures settles { OnOk result (StopsSettle U.null_bytes self.old.geometry self.old.layers (seen T.Shows stage.old) (seen T.Shows stage.new)) }
        ensures hardened { OnOk result (IsHardenedLast self.new.layers) }
        ensures map { self.new.broken ≡ false → KeepsEach U.null_bytes self.old.layers self.new.layers (seen T.Shows stage.old) (seen T.Shows stage.new) }
        ensures last { ChangesLast IsSameLayer self.old.layers self.new.layers }
        ensures confined { ChangesLast StaysInRoom self.old.layers self.new.layers }
        ensures marks { self.new.broken ≡ false → KeepMarks self.old.layers self.new.layers (seen T.Shows stage.old) (seen T.Shows stage.new) }
        ensures geometry { self.new.geometry ≡ self.old.geometry }
        ensures still { IsHardenedLast self.old.layers → IsOk result × (self.new ≡ self.old) × (seen T.Shows stage.new ≡ seen T.Shows stage.old) }

        // At a fault of reading all is as before, and any other breaks the stack.
        ensures broken { self.new.broken ≡ is_broken_by result }
        ensures refusal { IfErr result (InLayer IsOutside) }
        ensures read { result ≡ Err (StackFault.Layer LayerFault.ReadFault) → (self.new ≡ self.old) × Stays (seen T.Shows stage.old) (seen T.Shows stage.new) }
        ensures counts { CountsFault result (seen T.Shows stage.old).faults (seen T.Shows stage.new).faults }

        // A stop leaves what it could leave before, or the stack, or something of both.
        ensures stops { StopsLie U.null_bytes self.old.geometry self.old.layers (seen T.Shows stage.old) (seen T.Shows stage.new) }
        ensures others { OnlyIn (length self.old.layers - 1) (seen T.Shows stage.old) (seen T.Shows stage.new) }
    {
        let geo = self.geometry;
        match harden_last(self.layers.as_mut_slice(), stage, &geo) {
            Ok(()) => Ok(()),
            Err(fault) => {
                self.broken = breaks(&fault);
                Err(StackFault::Layer(fault))
            }
        }
    }
}
