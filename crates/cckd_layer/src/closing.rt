//! Closing an image whose tables are all written: the chain, and then the second header.
ghost use Rattle.cckd_layer.specs.Justified.{StaysInRoom};
ghost use Rattle.std.specs.Prelude.{◌≡◌, true, false, Err, IsOk, OnOk, IfOk, IfErr};
ghost use Rattle.cckd_shelf.specs.Seen.{seen, Tells, Stays};
ghost use Rattle.cckd_shelf.specs.World.{IsSure, file_of};
ghost use Rattle.cckd_shelf.specs.Outcomes.{EachOutcome};
ghost use Rattle.cckd_shelf.specs.Frame.{OnlyIn};
ghost use Rattle.cckd_shelf.specs.Stops.{StopsLeave};
ghost use Rattle.cckd_space.specs.Plan.{totals_of};
ghost use Rattle.cckd_tables.specs.Device.{CountsDevice};
ghost use Rattle.cckd_layer.specs.Changes.{IsChained};
ghost use Rattle.cckd_layer.specs.Marks.{WritesOrSyncs};
ghost use Rattle.cckd_layer.specs.Mounted.{CanRead};
ghost use Rattle.cckd_layer.specs.Writes.{KeepsMap, StopsWithin, StopHolds, StaysClosed, Agrees, IsSettled, IsSameFile, IsOutside, CountsLayer, closed_layer, failed_by, is_broken_by};
ghost use Rattle.cckd_layer.specs.Closed.{IsClosed};
ghost use Rattle.cckd_layer.specs.Chain.{chained, roomy_from, closed_second, closed_header, IsClosingAs, IsClosedFrom, IsEnding};
ghost use Rattle.cckd_layer.specs.Headed.{ClosesLast};

use crate::chaining::put_chain;
use crate::hardening::fault_of;
use crate::layer::Layer;
use crate::marking::{close_header, put_second, second_header};
use cckd_base::{LayerFault, Order, Unit};
use cckd_image::ImageHeader;
use cckd_shelf::{Shelf, Slot, Stage};
use cckd_space::Space;
use cckd_tables::Device;

/// Closes the image: writes the chain of its free spaces and makes that stay, and then its second header, with the
/// totals and without the mark. Answers the headers that the file has then.
pub fn close_image<S: Shelf>(
    shelf: &mut S,
    slot: Slot,
    space: &Space,
    order: Order,
    header: &ImageHeader,
) -> Result<ImageHeader, Device>
    ensures header { IfOk result (λ h. h ≡ closed_header (totals_of space.now) header.now) }
    ensures now { Tells (seen S.Shows shelf.old) → OnOk result (IsClosedFrom order space.now.pieces (closed_second (totals_of space.now) header.now.cckd)
        (file_of (seen S.Shows shelf.old).world slot) (file_of (seen S.Shows shelf.new).world slot)) }
    ensures sure { Tells (seen S.Shows shelf.old) → IsSure (seen S.Shows shelf.old).world → OnOk result (IsSure (seen S.Shows shelf.new).world) }
    ensures alone { Tells (seen S.Shows shelf.old) → IsSure (seen S.Shows shelf.old).world
        → OnOk result (EachOutcome slot (λ file. file ≡ file_of (seen S.Shows shelf.new).world slot) (seen S.Shows shelf.new).world.events) }
    ensures kind { IfErr result WritesOrSyncs }
    ensures counts { CountsDevice result (seen S.Shows shelf.old).faults (seen S.Shows shelf.new).faults }
    ensures others { OnlyIn slot (seen S.Shows shelf.old) (seen S.Shows shelf.new) }

    // A stop leaves what it could leave before, but for bytes of Free pieces, and for the second header.
    ensures stopped { StopsLeave slot (IsClosingAs (seen S.Shows shelf.old).world.events slot space.now.pieces space.now.size
        (closed_second (totals_of space.now) header.now.cckd)) (seen S.Shows shelf.old) (seen S.Shows shelf.new) }

    // It leaves the second header over nothing but the whole chain.
    ensures last { IsSure (seen S.Shows shelf.old).world → StopsLeave slot (IsEnding (seen S.Shows shelf.old).world.events slot space.now.pieces space.now.size order
        (closed_second (totals_of space.now) header.now.cckd) (file_of (seen S.Shows shelf.old).world slot)) (seen S.Shows shelf.old) (seen S.Shows shelf.new) }
{
    let closed = close_header(header, space.totals());
    let second = second_header(&closed);
    keep_chain(shelf, slot, space, order)?;
    put_second(shelf, slot, &second)?;
    Ok(closed)
}

/// Writes the chain, and makes it stay.
fn keep_chain<S: Shelf>(
    shelf: &mut S,
    slot: Slot,
    space: &Space,
    order: Order,
) -> Result<(), Device>
    ensures now { Tells (seen S.Shows shelf.old) → OnOk result (file_of (seen S.Shows shelf.new).world slot
        ≡ chained order (roomy_from 0 space.now.pieces) (file_of (seen S.Shows shelf.old).world slot)) }
    ensures sure { Tells (seen S.Shows shelf.old) → IsSure (seen S.Shows shelf.old).world → OnOk result (IsSure (seen S.Shows shelf.new).world) }
    ensures kind { IfErr result WritesOrSyncs }
    ensures counts { CountsDevice result (seen S.Shows shelf.old).faults (seen S.Shows shelf.new).faults }
    ensures others { OnlyIn slot (seen S.Shows shelf.old) (seen S.Shows shelf.new) }
    ensures stopped { StopsLeave slot (IsChained (seen S.Shows shelf.old).world.events slot space.now.pieces space.now.size) (seen S.Shows shelf.old) (seen S.Shows shelf.new) }
    ensures alone { Tells (seen S.Shows shelf.old) → IsSure (seen S.Shows shelf.old).world
        → OnOk result (EachOutcome slot (λ file. file ≡ file_of (seen S.Shows shelf.new).world slot) (seen S.Shows shelf.new).world.events) }
{
    let Ok(()) = put_chain(shelf, slot, space, order) else {
        return Err(Device::Write);
    };
    let synced = shelf.sync(slot);
    let Ok(()) = synced else {
        return Err(Device::Sync);
    };
    Ok(())
}

impl<U: Unit> Layer<U> {
    /// Closes an image that was just hardened.
    fn close_anew<T: Stage>(&mut self, stage: &mut T) -> Result<(), Device>
        requires settled { IsSettled self.old }
        ensures closes { OnOk result (self.new ≡ closed_layer self.old) }
        ensures closed { Tells (seen T.Shows stage.old) → Agrees self.old (seen T.Shows stage.old).world
            → OnOk result (IsClosed self.old.tables.layout (file_of (seen T.Shows stage.new).world self.old.slot)) }
        ensures map { OnOk result (KeepsMap U.null_bytes self.old self.new (seen T.Shows stage.old) (seen T.Shows stage.new)) }
        ensures failed { IfErr result (λ fault. self.new ≡ failed_by fault self.old) }
        ensures kind { IfErr result WritesOrSyncs }
        ensures counts { CountsDevice result (seen T.Shows stage.old).faults (seen T.Shows stage.new).faults }
        ensures stopped { StopsWithin U.null_bytes self.old (seen T.Shows stage.old) (seen T.Shows stage.new) }
        ensures headers { ClosesLast self.old (seen T.Shows stage.old) (seen T.Shows stage.new) }
        ensures others { OnlyIn self.old.slot (seen T.Shows stage.old) (seen T.Shows stage.new) }
    {
        let order = self.tables.layout().order;
        match close_image(stage, self.slot, &self.space, order, &self.header) {
            Ok(closed) => {
                self.header = closed;
                self.marked = false;
                Ok(())
            }
            Err(fault) => {
                self.fail(fault);
                Err(fault)
            }
        }
    }

    /// Closes the image, where something was changed since it was mounted or closed: makes all stay, writes the chain of
    /// its free spaces, and then the second header with the totals and without the mark.
    pub fn close<T: Stage>(&mut self, stage: &mut T) -> Result<(), LayerFault>
        requires whole { self.old.broken ≡ false }
        requires can_read { CanRead self.old (seen T.Shows stage.old) }

        // At Ok the file of a layer that was changed is a closed image; and a stop leaves exactly the layer's map.
        ensures closed { Tells (seen T.Shows stage.old) → Agrees self.old (seen T.Shows stage.old).world → self.old.marked ≡ true
            → OnOk result (StaysClosed self.old.tables.layout self.old.slot (seen T.Shows stage.new).world) }
        ensures unmarked { OnOk result (self.new.marked ≡ false) }
        ensures hardened { OnOk result (self.new.hardened ≡ true) }
        ensures holds { OnOk result (StopHolds U.null_bytes self.old (seen T.Shows stage.old) (seen T.Shows stage.new)) }
        ensures map { OnOk result (KeepsMap U.null_bytes self.old self.new (seen T.Shows stage.old) (seen T.Shows stage.new)) }
        ensures same { IsSameFile self.old self.new }
        ensures confined { StaysInRoom self.old self.new }
        ensures still { self.old.marked ≡ false → self.old.hardened ≡ true → IsOk result × (self.new ≡ self.old) × (seen T.Shows stage.new ≡ seen T.Shows stage.old) }

        // At a fault of reading all is as before, and any other breaks the layer.
        ensures broken { self.new.broken ≡ is_broken_by result }
        ensures refusal { IfErr result IsOutside }
        ensures read { result ≡ Err LayerFault.ReadFault → (self.new ≡ self.old) × Stays (seen T.Shows stage.old) (seen T.Shows stage.new) }
        ensures counts { CountsLayer result (seen T.Shows stage.old).faults (seen T.Shows stage.new).faults }

        // A stop leaves what it could leave before, or the layer's map, or something of both.
        ensures stopped { StopsWithin U.null_bytes self.old (seen T.Shows stage.old) (seen T.Shows stage.new) }

        // So it does with the headers that it left before, until it leaves a closed image.
        ensures headers { ClosesLast self.old (seen T.Shows stage.old) (seen T.Shows stage.new) }
        ensures others { OnlyIn self.old.slot (seen T.Shows stage.old) (seen T.Shows stage.new) }
    {
        if !self.marked {
            return self.harden(stage);
        }
        self.harden_anew(stage)?;
        match self.close_anew(stage) {
            Ok(()) => Ok(()),
            Err(fault) => Err(fault_of(fault)),
        }
    }
}
