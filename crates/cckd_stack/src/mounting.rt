//! The mounting of a stack: from the files of the slots to its layers.
ghost use Rattle.std.specs.Prelude.{◌≡◌, ◌≢◌, ◌≤◌, length, vec_capacity, false, IfOk, OnOk, IfErr};
ghost use Rattle.cckd_shelf.specs.Seen.{seen, Makes};
ghost use Rattle.cckd_base.specs.Geometry.{IsGeometry};
ghost use Rattle.cckd_base.specs.Header.{headers_of, header_geometry};
ghost use Rattle.cckd_base.specs.Image.{IsSnug};
ghost use Rattle.cckd_image.specs.Image.{identifiers_of};
ghost use Rattle.cckd_layer.specs.Stands.{Stands};
ghost use Rattle.cckd_layer.specs.Reads.{OfFile};
ghost use Rattle.cckd_layer.specs.Mounted.{IsFresh, IsOf, CanRead, CountsOpen, OnlyLooks, kept_view};
ghost use Rattle.cckd_stack.specs.Mounting.{roles_in, IsSlotCause, SyncsOne, IsLayersCause, IsMountCause, IsMounted, IsRow, HasMounted, SyncsSome, AreFreshFrom, StandFrom, after_syncs, shape_of};
ghost use Rattle.cckd_stack.specs.Stacked.{IsStack, OfFiles, CanReadAll};
ghost use Rattle.cckd_stack.specs.Writes.{AreTied};

use crate::presence::{row, slot_of};
use crate::stack::Stack;
use cckd_base::{FORMAT_LIMIT, Geometry, OpenFault};
use cckd_image::Roles;
use cckd_layer::{Layer, geometry_in};
use cckd_shelf::{Slot, Stage};
use std::alloc::Global;

/// Whose file stands in the slot of a number.
fn roles_of(number: u8) -> Roles
    ensures { result ≡ roles_in number }
{
    if number == 0 {
        Roles::Base
    } else {
        Roles::Shadow
    }
}

/// Whether a slot's file is of a device of this shape.
fn check_shape(slot: Slot, shape: &Geometry, found: &Geometry) -> Result<(), OpenFault>
    ensures same { OnOk result (found.now ≡ shape.now) }
    ensures differs { IfErr result (λ why. (why ≡ OpenFault.Mismatch slot shape.now found.now) × (found.now ≢ shape.now)) }
{
    if found != shape {
        return Err(OpenFault::Mismatch {
            slot: slot.get(),
            base: *shape,
            found: *found,
        });
    }
    Ok(())
}

/// The layer of a slot's file, whose headers say this shape.
fn mount_shaped<U, T: Stage>(
    alloc: Global,
    stage: &mut T,
    slot: Slot,
    shape: &Geometry,
    limit: u32,
) -> Result<Layer<U>, OpenFault>
    requires limit { limit ≤ FORMAT_LIMIT }
    requires says { OfFile slot (λ file. header_geometry (headers_of file) ≡ shape.now) (seen T.Shows stage.old) }
    ensures fresh { IfOk result (IsFresh slot limit) }
    ensures shape { IfOk result (λ layer. layer.tables.layout.geo ≡ shape.now) }
    ensures opened { OfFile slot (λ file. IfOk result (IsOf (roles_in slot) file)) (seen T.Shows stage.old) }
    ensures stands { OfFile slot (λ file. IfOk result (λ layer. IsSnug layer.tables.layout file
        → Stands (kept_view layer) slot (seen T.Shows stage.new).world)) (seen T.Shows stage.old) }
    ensures can_read { IfOk result (λ layer. CanRead layer (seen T.Shows stage.new)) }
    ensures cause { IfErr result (IsSlotCause shape.now slot (seen T.Shows stage.old)) }
    ensures counts { CountsOpen result (seen T.Shows stage.old).faults (seen T.Shows stage.new).faults }
    ensures syncs { SyncsOne slot result (seen T.Shows stage.old) (seen T.Shows stage.new) }
{
    let layer = match Layer::mount(alloc, stage, slot, roles_of(slot.get()), limit) {
        Ok(layer) => layer,
        Err(fault) => return Err(fault),
    };
    let found = layer.layout().geo;
    match check_shape(slot, shape, &found) {
        Ok(()) => Ok(layer),
        Err(fault) => Err(fault),
    }
}

/// The layer of a slot's file, as one of a device of this shape.
fn mount_one<U, T: Stage>(
    alloc: Global,
    stage: &mut T,
    slot: Slot,
    shape: &Geometry,
    limit: u32,
) -> Result<Layer<U>, OpenFault>
    requires limit { limit ≤ FORMAT_LIMIT }
    ensures fresh { IfOk result (IsFresh slot limit) }
    ensures shape { IfOk result (λ layer. layer.tables.layout.geo ≡ shape.now) }
    ensures opened { OfFile slot (λ file. IfOk result (IsOf (roles_in slot) file)) (seen T.Shows stage.old) }
    ensures stands { OfFile slot (λ file. IfOk result (λ layer. IsSnug layer.tables.layout file
        → Stands (kept_view layer) slot (seen T.Shows stage.new).world)) (seen T.Shows stage.old) }
    ensures can_read { IfOk result (λ layer. CanRead layer (seen T.Shows stage.new)) }
    ensures cause { IfErr result (IsSlotCause shape.now slot (seen T.Shows stage.old)) }
    ensures counts { CountsOpen result (seen T.Shows stage.old).faults (seen T.Shows stage.new).faults }
    ensures syncs { SyncsOne slot result (seen T.Shows stage.old) (seen T.Shows stage.new) }
{
    let found = match geometry_in(stage, slot, roles_of(slot.get())) {
        Ok(found) => found,
        Err(fault) => return Err(fault),
    };
    match check_shape(slot, shape, &found) {
        Ok(()) => mount_shaped(alloc, stage, slot, shape, limit),
        Err(fault) => Err(fault),
    }
}

/// The layers of so many slots, as those of devices of this shape, with memory for nine.
fn mount_layers<U, T: Stage>(
    alloc: Global,
    stage: &mut T,
    shape: &Geometry,
    count: u8,
    limit: u32,
) -> Result<Vec<Layer<U>>, OpenFault>
    requires limit { limit ≤ FORMAT_LIMIT }
    requires few { count ≤ 9 }
    ensures count { IfOk result (λ layers. length layers.items ≡ count) }
    ensures room { IfOk result (λ layers. 9 ≤ vec_capacity layers) }
    ensures mounted { IfOk result (λ layers. HasMounted limit shape.now (seen T.Shows stage.old) (seen T.Shows stage.new) layers.items) }
    ensures cause { IfErr result (IsLayersCause shape.now count (seen T.Shows stage.old)) }
    ensures counts { CountsOpen result (seen T.Shows stage.old).faults (seen T.Shows stage.new).faults }
    ensures syncs { SyncsSome (seen T.Shows stage.old) (seen T.Shows stage.new) }
{
    let Ok(mut layers) = Vec::with_capacity(alloc, 9) else {
        return Err(OpenFault::Memory);
    };
    for number in 0..count {
        let layer = match mount_one(alloc, stage, slot_of(number), shape, limit) {
            Ok(layer) => layer,
            Err(fault) => return Err(fault),
        };
        let Ok(()) = layers.push(layer) else {
            return Err(OpenFault::Memory);
        };
    }
    Ok(layers)
}

/// How many slots are there, and the geometry of the base.
fn look_around<T: Stage>(stage: &mut T) -> Result<(u8, Geometry), OpenFault>
    ensures some { IfOk result (λ found. 1 ≤ found.0) }
    ensures few { IfOk result (λ found. found.0 ≤ 9) }
    ensures can { IfOk result (λ found. IsGeometry found.1) }
    ensures row { OfFiles (λ files. IfOk result (λ found. IsRow files found.0)) (seen T.Shows stage.old) }
    ensures shape { OfFiles (λ files. IfOk result (λ found. found.1 ≡ shape_of files)) (seen T.Shows stage.old) }
    ensures cause { IfErr result (IsMountCause (seen T.Shows stage.old)) }
    ensures looks { OnlyLooks result (seen T.Shows stage.old) (seen T.Shows stage.new) }
{
    let count = match row(stage) {
        Ok(count) => count,
        Err(fault) => return Err(fault),
    };
    match geometry_in(stage, slot_of(0), Roles::Base) {
        Ok(shape) => Ok((count.max(1), shape)),
        Err(fault) => Err(fault),
    }
}

impl<U> Stack<U> {
    /// Mounts the files of the slots, which are synced: the base, and all shadows on it. Each layer may grow to `limit` bytes.
    pub fn mount<T: Stage>(alloc: Global, stage: &mut T, limit: u32) -> Result<Stack<U>, OpenFault>
        requires limit { limit ≤ FORMAT_LIMIT }
        ensures fresh { IfOk result (λ s. AreFreshFrom limit 0 s.layers) }
        ensures stack { IfOk result IsStack }
        ensures whole { IfOk result (λ s. s.broken ≡ false) }
        ensures mounted { OfFiles (λ files. IfOk result (IsMounted files)) (seen T.Shows stage.old) }

        // Each layer whose file is snug stands, and all can be read.
        ensures stand { OfFiles (λ files. IfOk result (λ s. StandFrom files (seen T.Shows stage.new).world 0 s.layers)) (seen T.Shows stage.old) }
        ensures can_read { IfOk result (λ s. CanReadAll s.layers (seen T.Shows stage.new)) }

        // In any case each is tied to its file.
        ensures tied { OfFiles (λ files. IfOk result (λ s. AreTied s.layers (seen T.Shows stage.new).world)) (seen T.Shows stage.old) }

        // Why there is no stack, and what was done.
        ensures cause { IfErr result (IsMountCause (seen T.Shows stage.old)) }
        ensures counts { CountsOpen result (seen T.Shows stage.old).faults (seen T.Shows stage.new).faults }
        ensures synced { IfOk result (λ s. Makes (after_syncs (length s.layers)) (seen T.Shows stage.old) (seen T.Shows stage.new)) }
        ensures syncs { SyncsSome (seen T.Shows stage.old) (seen T.Shows stage.new) }
    {
        let (count, shape) = match look_around(stage) {
            Ok(found) => found,
            Err(fault) => return Err(fault),
        };
        match mount_layers(alloc, stage, &shape, count, limit) {
            Ok(layers) => Ok(Stack {
                geometry: shape,
                layers,
                broken: false,
            }),
            Err(fault) => Err(fault),
        }
    }
}
