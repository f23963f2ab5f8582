//! Reading through the layers, from the last one down.
ghost use Rattle.std.specs.Prelude.{◌≡◌, ◌+◌, ◌*◌, ◌≤◌, ◌<◌, length, [], false, IfOk, OnOk, IfErr, None};
ghost use Rattle.cckd_shelf.specs.Seen.{seen, Stays};
ghost use Rattle.cckd_base.specs.Geometry.{track_count, IsGeometry};
ghost use Rattle.cckd_layer.specs.Reads.{CheckRefuses, IsReadRefusal, IsReadFault};
ghost use Rattle.cckd_stack.specs.Layers.{visible};
ghost use Rattle.cckd_stack.specs.Stacked.{stack_of, AreLayersFrom, AreWhole, OfFiles, CanReadAll, OnlyCaches, IsPut, Passes, InLayer, OnlyReads, with_layers};

use crate::stack::Stack;
use cckd_base::{Geometry, LayerFault, StackFault, Track, Unit};
use cckd_layer::{Held, Layer};
use cckd_shelf::Stage;

/// The fault of a track of which no layer has a byte.
fn fault_of_nothing<U: Unit>(geo: &Geometry, t: Track, out: &[u8]) -> LayerFault
    requires geometry { IsGeometry geo.now }
    requires track { t.0 < track_count geo.now }
    ensures { CheckRefuses (U.fault geo.now t.0 []) result }
{
    match U::check(geo, t, &out[..0]) {
        Ok(()) => unreachable!(),
        Err(fault) => LayerFault::Track(fault),
    }
}

/// What the last of the layers that has a track says of it, at the front of `out`, and how many bytes it is.
fn read_down<U: Unit, T: Stage>(
    layers: &mut [Layer<U>],
    stage: &mut T,
    geo: &Geometry,
    t: Track,
    out: &mut [u8],
) -> Result<u16, StackFault>
    requires geometry { IsGeometry geo.now }
    requires track { t.0 < track_count geo.now }
    requires room { 65536 ≤ length out.old }
    requires layers { AreLayersFrom geo.now 0 layers.old }
    requires whole { AreWhole layers.old }
    requires can_read { CanReadAll layers.old (seen T.Shows stage.old) }
    ensures answer { OfFiles (λ files. IfOk result (λ len. IsPut
        (U.value (visible (stack_of U.null_bytes layers.old files) t.0)) len out.old out.new)) (seen T.Shows stage.old) }
    ensures checked { OfFiles (λ files. OnOk result
        (U.fault geo.now t.0 (visible (stack_of U.null_bytes layers.old files) t.0) ≡ None)) (seen T.Shows stage.old) }
    ensures refusal { OfFiles (λ files. IfErr result (InLayer (IsReadRefusal
        (U.fault geo.now t.0 (visible (stack_of U.null_bytes layers.old files) t.0))))) (seen T.Shows stage.old) }
    ensures accepted { IfOk result (Passes (U.fault geo.now t.0) out.new) }
    ensures kind { IfErr result (InLayer IsReadFault) }
    ensures cached { OnlyCaches layers.old layers.new }
    ensures can_read { CanReadAll layers.new (seen T.Shows stage.new) }
    ensures reads { OnlyReads result (seen T.Shows stage.old) (seen T.Shows stage.new) }
    ensures called { (seen T.Shows stage.new).calls ≤ (seen T.Shows stage.old).calls + 2 * length layers.old }
{
    let count = layers.len();
    for done in 0..count {
        let layer = &mut layers[count - 1 - done];
        let answer = match layer.read(stage, t, out) {
            Ok(answer) => answer,
            Err(fault) => return Err(StackFault::Layer(fault)),
        };
        match answer {
            Held::Here { len } => return Ok(len),
            Held::Below => {}
        }
    }
    Err(StackFault::Layer(fault_of_nothing::<U>(geo, t, out)))
}

impl<U: Unit> Stack<U> {
    /// What a track says, from the last layer that has it, at the front of `out`, and how many bytes it is. It makes at most
    /// two calls for each layer.
    pub fn read<T: Stage>(
        &mut self,
        stage: &mut T,
        t: Track,
        out: &mut [u8],
    ) -> Result<u16, StackFault>
        requires whole { self.old.broken ≡ false }
        requires track { t.0 < track_count self.old.geometry }
        requires room { 65536 ≤ length out.old }
        requires can_read { CanReadAll self.old.layers (seen T.Shows stage.old) }
        ensures answer { OfFiles (λ files. IfOk result (λ len. IsPut
            (U.value (visible (stack_of U.null_bytes self.old.layers files) t.0)) len out.old out.new)) (seen T.Shows stage.old) }

        // Bytes that the check refuses are refused by their first fault, and those that no layer has as none.
        ensures checked { OfFiles (λ files. OnOk result
            (U.fault self.old.geometry t.0 (visible (stack_of U.null_bytes self.old.layers files) t.0) ≡ None)) (seen T.Shows stage.old) }
        ensures refusal { OfFiles (λ files. IfErr result (InLayer (IsReadRefusal
            (U.fault self.old.geometry t.0 (visible (stack_of U.null_bytes self.old.layers files) t.0))))) (seen T.Shows stage.old) }

        // Also where it isn't told what the files hold.
        ensures accepted { IfOk result (Passes (U.fault self.old.geometry t.0) out.new) }
        ensures kind { IfErr result (InLayer IsReadFault) }

        // What it does beside: of the layers only cached tables change, and everything can be read again.
        ensures rest { self.new ≡ with_layers self.old self.new.layers }
        ensures cached { OnlyCaches self.old.layers self.new.layers }
        ensures can_read { CanReadAll self.new.layers (seen T.Shows stage.new) }
        ensures reads { OnlyReads result (seen T.Shows stage.old) (seen T.Shows stage.new) }
        ensures called { (seen T.Shows stage.new).calls ≤ (seen T.Shows stage.old).calls + 2 * length self.old.layers }
    {
        let geo = self.geometry;
        read_down(self.layers.as_mut_slice(), stage, &geo, t, out)
    }
}
