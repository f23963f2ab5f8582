//! Writing: a track of the last layer gets other bytes.
ghost use Rattle.cckd_stack.specs.Room.{LacksPlace, IsNoFull};
ghost use Rattle.cckd_layer.specs.Justified.{StaysInRoom, AddsInRoom};
ghost use Rattle.std.specs.Prelude.{◌≡◌, [], ◌-◌, ◌<◌, ◌≤◌, length, true, false, Some, None, Err, OnOk, IfErr, ◌/◌};
ghost use Rattle.cckd_shelf.specs.Seen.{seen, Tells};
ghost use Rattle.cckd_shelf.specs.World.{IsSure};
ghost use Rattle.cckd_shelf.specs.Frame.{OnlyIn};
ghost use Rattle.cckd_base.specs.declared.fault.TrackFault.{TrackFault as Fault_of};
ghost use Rattle.cckd_base.specs.Geometry.{track_count};
ghost use Rattle.cckd_layer.specs.Writes.{Agrees, IsSameFile, StoresIn, StopsWithin, CountsLayer, is_broken_by as is_layer_broken_by};
ghost use Rattle.cckd_layer.specs.Storing.{IsHarmless, IsWriteRefusal};
ghost use Rattle.cckd_layer.specs.Loose.{Tied, TiedIn, Completes, IsUndisturbed, IsOnlyLooked};
ghost use Rattle.cckd_stack.specs.Stacked.{AreLayersFrom, AreWhole, InLayer, CountsFault};
ghost use Rattle.cckd_layer.specs.Calm.{KeepsUnharmed};
ghost use Rattle.cckd_stack.specs.Marking.{KeepMarks};
ghost use Rattle.cckd_stack.specs.Writes.{AreTied, KeepsEach, KeepsLayer, StoresEach, EndsWith, ChangesLast, StopsLie, IsWriteRefused, is_broken_by};

use crate::hardening::breaks;
use crate::stack::Stack;
use cckd_base::{Geometry, LayerFault, StackFault, Track, Unit};
use cckd_layer::Layer;
use cckd_shelf::Stage;

/// Makes a layer ready for a write of what bytes say, where they are a track: the file of one that wasn't changed is made snug.
fn ready<U: Unit, T: Stage>(
    layer: &mut Layer<U>,
    stage: &mut T,
    t: Track,
    bytes: &[u8],
) -> Result<(), LayerFault>
    requires whole { layer.old.broken ≡ false }
    requires track { t.0 < track_count layer.old.tables.layout.geo }
    requires long { length bytes.now ≤ 65535 }
    requires tied { TiedIn layer.old (seen T.Shows stage.old) }
    ensures completed { OnOk result (Completes U.null_bytes layer.old layer.new (seen T.Shows stage.old) (seen T.Shows stage.new)) }
    ensures still { Tells (seen T.Shows stage.old) → Agrees layer.old (seen T.Shows stage.old).world
        → IsUndisturbed U.null_bytes layer.old layer.new (seen T.Shows stage.old) (seen T.Shows stage.new) }
    ensures looked { IfErr result (λ why. IsHarmless why → IsOnlyLooked layer.old layer.new (seen T.Shows stage.old) (seen T.Shows stage.new)) }
    ensures refused { (why : Fault_of) → U.fault layer.old.tables.layout.geo t.0 bytes.now ≡ Some why
        → IfErr result (λ fault. fault ≡ LayerFault.Track why) × (layer.new ≡ layer.old) × (seen T.Shows stage.new ≡ seen T.Shows stage.old) }
    ensures refusal { IfErr result (IsWriteRefusal U.null_bytes (U.fault layer.old.tables.layout.geo t.0 bytes.now) layer.old layer.new (seen T.Shows stage.old) (seen T.Shows stage.new) t.0 (U.value bytes.now)) }
    ensures same { IsSameFile layer.old layer.new }
    ensures kind { IfErr result IsNoFull }
    ensures confined { StaysInRoom layer.old layer.new }
    ensures broken { layer.new.broken ≡ is_layer_broken_by result }
    ensures counts { CountsLayer result (seen T.Shows stage.old).faults (seen T.Shows stage.new).faults }
    ensures others { OnlyIn layer.old.slot (seen T.Shows stage.old) (seen T.Shows stage.new) }
{
    if layer.marked() {
        return Ok(());
    }
    let layout = layer.layout();
    match U::check(&layout.geo, t, bytes) {
        Ok(()) => layer.complete(stage),
        Err(fault) => Err(LayerFault::Track(fault)),
    }
}

/// Writes what bytes say as a track of a layer, whose file is made snug before it is changed.
fn write_ready<U: Unit, T: Stage>(
    layer: &mut Layer<U>,
    stage: &mut T,
    t: Track,
    bytes: &[u8],
) -> Result<(), LayerFault>
    requires whole { layer.old.broken ≡ false }
    requires track { t.0 < track_count layer.old.tables.layout.geo }
    requires long { length bytes.now ≤ 65535 }
    requires tied { TiedIn layer.old (seen T.Shows stage.old) }
    ensures stores { OnOk result (Tells (seen T.Shows stage.old) → Tied layer.old (seen T.Shows stage.old).world
        → StoresIn [] U.null_bytes layer.old layer.new t.0 (Some (U.value bytes.now)) (seen T.Shows stage.old) (seen T.Shows stage.new)) }
    ensures checked { OnOk result (U.fault layer.old.tables.layout.geo t.0 bytes.now ≡ None) }
    ensures marked { OnOk result (layer.new.marked ≡ true) }
    ensures kept { IfErr result (λ why. IsHarmless why → KeepsLayer U.null_bytes layer.old layer.new (seen T.Shows stage.old) (seen T.Shows stage.new)) }
    ensures unharmed { IfErr result (λ why. IsHarmless why → KeepsUnharmed layer.old layer.new (seen T.Shows stage.old) (seen T.Shows stage.new)) }
    ensures refused { (why : Fault_of) → U.fault layer.old.tables.layout.geo t.0 bytes.now ≡ Some why
        → (result ≡ Err (LayerFault.Track why)) × (layer.new ≡ layer.old) × (seen T.Shows stage.new ≡ seen T.Shows stage.old) }
    ensures refusal { IfErr result (IsWriteRefusal U.null_bytes (U.fault layer.old.tables.layout.geo t.0 bytes.now) layer.old layer.new (seen T.Shows stage.old) (seen T.Shows stage.new) t.0 (U.value bytes.now)) }
    ensures same { IsSameFile layer.old layer.new }
    ensures grows { OnOk result (AddsInRoom (t.0 / 256) layer.old layer.new) }
    ensures stays { IfErr result (λ why. IsHarmless why → StaysInRoom layer.old layer.new) }
    ensures lacks { Tells (seen T.Shows stage.old) → IsSure (seen T.Shows stage.old).world
        → IfErr result (LacksPlace U.null_bytes layer.new (seen T.Shows stage.new) t.0 (U.value bytes.now)) }
    ensures broken { layer.new.broken ≡ is_layer_broken_by result }
    ensures counts { CountsLayer result (seen T.Shows stage.old).faults (seen T.Shows stage.new).faults }
    ensures stopped { StopsWithin U.null_bytes layer.old (seen T.Shows stage.old) (seen T.Shows stage.new) }
    ensures others { OnlyIn layer.old.slot (seen T.Shows stage.old) (seen T.Shows stage.new) }
{
    match ready(layer, stage, t, bytes) {
        Ok(()) => layer.write(stage, t, bytes),
        Err(fault) => Err(fault),
    }
}

/// Writes what bytes say as a track of the last of the layers.
fn write_last<U: Unit, T: Stage>(
    layers: &mut [Layer<U>],
    stage: &mut T,
    geo: &Geometry,
    t: Track,
    bytes: &[u8],
) -> Result<(), LayerFault>
    requires some { 1 ≤ length layers.old }
    requires layers { AreLayersFrom geo.now 0 layers.old }
    requires whole { AreWhole layers.old }
    requires track { t.0 < track_count geo.now }
    requires long { length bytes.now ≤ 65535 }
    requires tied { Tells (seen T.Shows stage.old) → IsSure (seen T.Shows stage.old).world → AreTied layers.old (seen T.Shows stage.old).world }
    ensures stores { OnOk result (StoresEach U.null_bytes (t.0, U.value bytes.now) layers.old layers.new (seen T.Shows stage.old) (seen T.Shows stage.new)) }
    ensures checked { OnOk result (U.fault geo.now t.0 bytes.now ≡ None) }
    ensures marked { OnOk result (EndsWith (λ layer. layer.marked ≡ true) layers.new) }
    ensures marks { is_layer_broken_by result ≡ false → KeepMarks layers.old layers.new (seen T.Shows stage.old) (seen T.Shows stage.new) }
    ensures refused { (why : Fault_of) → U.fault geo.now t.0 bytes.now ≡ Some why
        → (result ≡ Err (LayerFault.Track why)) × (layers.new ≡ layers.old) × (seen T.Shows stage.new ≡ seen T.Shows stage.old) }
    ensures map { is_layer_broken_by result ≡ false → IfErr result (λ why. KeepsEach U.null_bytes layers.old layers.new (seen T.Shows stage.old) (seen T.Shows stage.new)) }
    ensures refusal { IfErr result (IsWriteRefused U.null_bytes (U.fault geo.now t.0 bytes.now) layers.old layers.new (seen T.Shows stage.old) (seen T.Shows stage.new) t.0 (U.value bytes.now)) }
    ensures last { ChangesLast IsSameFile layers.old layers.new }
    ensures grows { OnOk result (ChangesLast (AddsInRoom (t.0 / 256)) layers.old layers.new) }
    ensures stays { is_layer_broken_by result ≡ false → IfErr result (λ why. ChangesLast StaysInRoom layers.old layers.new) }
    ensures lacks { Tells (seen T.Shows stage.old) → IsSure (seen T.Shows stage.old).world
        → IfErr result (λ why. EndsWith (λ layer. LacksPlace U.null_bytes layer (seen T.Shows stage.new) t.0 (U.value bytes.now) why) layers.new) }
    ensures layers { AreLayersFrom geo.now 0 layers.new }
    ensures whole { is_layer_broken_by result ≡ false → AreWhole layers.new }
    ensures counts { CountsLayer result (seen T.Shows stage.old).faults (seen T.Shows stage.new).faults }
    ensures stops { StopsLie U.null_bytes geo.now layers.old (seen T.Shows stage.old) (seen T.Shows stage.new) }
    ensures others { OnlyIn (length layers.old - 1) (seen T.Shows stage.old) (seen T.Shows stage.new) }
{
    let last = layers.len() - 1;
    let layer = &mut layers[last];
    write_ready(layer, stage, t, bytes)
}

impl<U: Unit> Stack<U> {
    /// Writes what bytes say as a track, where they are one. The last layer gets it, whose file is made snug before it is changed.
    pub fn write<T: Stage>(
        &mut self,
        stage: &mut T,
        t: Track,
        bytes: &[u8],
    ) -> Result<(), StackFault>
        requires whole { self.old.broken ≡ false }
        requires track { t.0 < track_count self.old.geometry }
        requires long { length bytes.now ≤ 65535 }
        requires tied { Tells (seen T.Shows stage.old) → IsSure (seen T.Shows stage.old).world → AreTied self.old.layers (seen T.Shows stage.old).world }

        // At Ok the bytes are a track, and the stack is as before with what they say of it on top.
        ensures stores { OnOk result (StoresEach U.null_bytes (t.0, U.value bytes.now) self.old.layers self.new.layers (seen T.Shows stage.old) (seen T.Shows stage.new)) }
        ensures checked { OnOk result (U.fault self.old.geometry t.0 bytes.now ≡ None) }
        ensures marked { OnOk result (EndsWith (λ layer. layer.marked ≡ true) self.new.layers) }
        ensures marks { self.new.broken ≡ false → KeepMarks self.old.layers self.new.layers (seen T.Shows stage.old) (seen T.Shows stage.new) }
        ensures last { ChangesLast IsSameFile self.old.layers self.new.layers }
        ensures grows { OnOk result (ChangesLast (AddsInRoom (t.0 / 256)) self.old.layers self.new.layers) }
        ensures geometry { self.new.geometry ≡ self.old.geometry }

        // Bytes that are no track are refused by their first fault, and nothing is done. A refusal keeps the stack, unless a call
        // that writes or syncs failed, which breaks it.
        ensures refused { (why : Fault_of) → U.fault self.old.geometry t.0 bytes.now ≡ Some why
            → (result ≡ Err (StackFault.Layer (LayerFault.Track why))) × (self.new ≡ self.old) × (seen T.Shows stage.new ≡ seen T.Shows stage.old) }
        ensures map { self.new.broken ≡ false → IfErr result (λ why. KeepsEach U.null_bytes self.old.layers self.new.layers (seen T.Shows stage.old) (seen T.Shows stage.new)) }
        ensures refusal { IfErr result (InLayer (IsWriteRefused U.null_bytes (U.fault self.old.geometry t.0 bytes.now) self.old.layers self.new.layers (seen T.Shows stage.old) (seen T.Shows stage.new) t.0 (U.value bytes.now))) }
        ensures stays { self.new.broken ≡ false → IfErr result (λ why. ChangesLast StaysInRoom self.old.layers self.new.layers) }
        ensures lacks { Tells (seen T.Shows stage.old) → IsSure (seen T.Shows stage.old).world
            → IfErr result (InLayer (λ why. EndsWith (λ layer. LacksPlace U.null_bytes layer (seen T.Shows stage.new) t.0 (U.value bytes.now) why) self.new.layers)) }
        ensures broken { self.new.broken ≡ is_broken_by result }
        ensures counts { CountsFault result (seen T.Shows stage.old).faults (seen T.Shows stage.new).faults }

        // A stop leaves what it could leave before, or the stack as it was, or something of both.
        ensures stops { StopsLie U.null_bytes self.old.geometry self.old.layers (seen T.Shows stage.old) (seen T.Shows stage.new) }
        ensures others { OnlyIn (length self.old.layers - 1) (seen T.Shows stage.old) (seen T.Shows stage.new) }
    {
        let geo = self.geometry;
        match write_last(self.layers.as_mut_slice(), stage, &geo, t, bytes) {
            Ok(()) => Ok(()),
            Err(fault) => {
                self.broken = breaks(&fault);
                Err(StackFault::Layer(fault))
            }
        }
    }
}
