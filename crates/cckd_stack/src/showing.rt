//! How many tracks the layers have.
ghost use Rattle.std.specs.Prelude.{◌≡◌, ◌≤◌, length, false, IfOk, IfErr};
ghost use Rattle.cckd_shelf.specs.Seen.{seen};
ghost use Rattle.cckd_stack.specs.Stacked.{stack_of, AreLayersFrom, AreWhole, OfFiles, CanReadAll, OnlyCaches, OnlyReads, Shows, FitsShown, with_layers};

use crate::stack::Stack;
use cckd_base::{Geometry, LayerFault, StackFault, Unit};
use cckd_layer::Layer;
use cckd_shelf::Stage;

/// How many layers there are, and how many tracks each has; 0 for each of nine that isn't there.
fn count_each<U: Unit, T: Stage>(
    layers: &mut [Layer<U>],
    stage: &mut T,
    geo: &Geometry,
) -> Result<(u8, [u32; 9]), StackFault>
    requires some { 1 ≤ length layers.old }
    requires few { length layers.old ≤ 9 }
    requires layers { AreLayersFrom geo.now 0 layers.old }
    requires whole { AreWhole layers.old }
    requires can_read { CanReadAll layers.old (seen T.Shows stage.old) }
    ensures shown { OfFiles (λ files. IfOk result (Shows geo.now (stack_of U.null_bytes layers.old files))) (seen T.Shows stage.old) }
    ensures fits { IfOk result FitsShown }
    ensures refusal { IfErr result (λ why. why ≡ StackFault.Layer LayerFault.ReadFault) }
    ensures cached { OnlyCaches layers.old layers.new }
    ensures can_read { CanReadAll layers.new (seen T.Shows stage.new) }
    ensures reads { OnlyReads result (seen T.Shows stage.old) (seen T.Shows stage.new) }
{
    let mut counts = [0; 9];
    let count = layers.len();
    for number in 0..count {
        let layer = &mut layers[number];
        match layer.count(stage) {
            Ok(tracks) => counts[number] = tracks,
            Err(fault) => return Err(StackFault::Layer(fault)),
        }
    }
    Ok((count as u8, counts))
}

impl<U: Unit> Stack<U> {
    /// How many layers there are, and how many tracks each has.
    pub fn display<T: Stage>(&mut self, stage: &mut T) -> Result<(u8, [u32; 9]), StackFault>
        requires whole { self.old.broken ≡ false }
        requires can_read { CanReadAll self.old.layers (seen T.Shows stage.old) }
        ensures shown { OfFiles (λ files. IfOk result (Shows self.old.geometry (stack_of U.null_bytes self.old.layers files))) (seen T.Shows stage.old) }
        ensures fits { IfOk result FitsShown }
        ensures refusal { IfErr result (λ why. why ≡ StackFault.Layer LayerFault.ReadFault) }

        // What it does beside: of the layers only cached tables change, and everything can be read again.
        ensures rest { self.new ≡ with_layers self.old self.new.layers }
        ensures cached { OnlyCaches self.old.layers self.new.layers }
        ensures can_read { CanReadAll self.new.layers (seen T.Shows stage.new) }
        ensures reads { OnlyReads result (seen T.Shows stage.old) (seen T.Shows stage.new) }
    {
        let geo = self.geometry;
        count_each(self.layers.as_mut_slice(), stage, &geo)
    }
}
