//! Hardening: all that was written to a layer is on the disk for good.
ghost use Rattle.cckd_layer.specs.Justified.{StaysInRoom};
ghost use Rattle.std.specs.Prelude.{◌≡◌, true, false, Err, IsOk, OnOk, IfErr};
ghost use Rattle.cckd_shelf.specs.Seen.{seen, Stays, Makes};
ghost use Rattle.cckd_shelf.specs.World.{after_sync};
ghost use Rattle.cckd_shelf.specs.Frame.{OnlyIn};
ghost use Rattle.cckd_shelf.specs.Outcomes.{IsOutcome};
ghost use Rattle.cckd_shelf.specs.Stops.{StopsLeave};
ghost use Rattle.cckd_tables.specs.Device.{CountsDevice};
ghost use Rattle.cckd_layer.specs.Stands.{nothing_staged};
ghost use Rattle.cckd_layer.specs.Mounted.{CanRead};
ghost use Rattle.cckd_layer.specs.Writes.{KeepsMap, StopsWithin, StopHolds, IsReleased, IsSettled, IsSameLayer, IsOutside, CountsLayer, failed_by, fault_of, is_broken_by};
ghost use Rattle.cckd_layer.specs.Calm.{LeavesFile};
ghost use Rattle.cckd_layer.specs.Headed.{KeepsHeaders};

use crate::layer::Layer;
use cckd_base::{LayerFault, Unit};
use cckd_shelf::Stage;
use cckd_tables::Device;

/// The fault of a layer that a fault of its tables is.
pub(crate) fn fault_of(fault: Device) -> LayerFault
    ensures { result ≡ fault_of fault }
{
    match fault {
        Device::Read => LayerFault::ReadFault,
        Device::Write => LayerFault::WriteFault,
        Device::Sync => LayerFault::SyncFault,
    }
}

impl<U: Unit> Layer<U> {
    /// Makes what was committed stay, and frees what it replaced.
    fn make_stay<T: Stage>(&mut self, stage: &mut T) -> Result<(), Device>
        ensures released { OnOk result (IsReleased self.old self.new) }
        ensures synced { OnOk result (Makes (after_sync self.old.slot) (seen T.Shows stage.old) (seen T.Shows stage.new)) }
        ensures map { self.old.tables.stages ≡ nothing_staged → OnOk result (KeepsMap U.null_bytes self.old self.new (seen T.Shows stage.old) (seen T.Shows stage.new)) }
        ensures holds { self.old.tables.stages ≡ nothing_staged → OnOk result (StopHolds U.null_bytes self.old (seen T.Shows stage.old) (seen T.Shows stage.new)) }
        ensures failed { IfErr result (λ fault. (fault ≡ Device.Sync) × (self.new ≡ failed_by Device.Sync self.old)) }
        ensures counts { CountsDevice result (seen T.Shows stage.old).faults (seen T.Shows stage.new).faults }
        ensures stopped { StopsWithin U.null_bytes self.old (seen T.Shows stage.old) (seen T.Shows stage.new) }
        ensures added { StopsLeave self.old.slot (IsOutcome (seen T.Shows stage.old).world.events self.old.slot) (seen T.Shows stage.old) (seen T.Shows stage.new) }
        ensures others { OnlyIn self.old.slot (seen T.Shows stage.old) (seen T.Shows stage.new) }
    {
        let synced = stage.sync(self.slot);
        let Ok(()) = synced else {
            self.fail(Device::Sync);
            return Err(Device::Sync);
        };
        self.space.release_all();
        self.hardened = true;
        Ok(())
    }
    /// Writes all that is staged, and makes it stay; also where there is nothing to do.
    pub(crate) fn harden_anew<T: Stage>(&mut self, stage: &mut T) -> Result<(), LayerFault>
        requires whole { self.old.broken ≡ false }
        requires can_read { CanRead self.old (seen T.Shows stage.old) }
        ensures hardened { OnOk result (self.new.hardened ≡ true) }
        ensures settled { OnOk result (IsSettled self.new) }
        ensures leaves { OnOk result (LeavesFile self.old (seen T.Shows stage.old) (seen T.Shows stage.new)) }
        ensures same { IsSameLayer self.old self.new }
        ensures map { OnOk result (KeepsMap U.null_bytes self.old self.new (seen T.Shows stage.old) (seen T.Shows stage.new)) }
        ensures holds { OnOk result (StopHolds U.null_bytes self.old (seen T.Shows stage.old) (seen T.Shows stage.new)) }
        ensures confined { StaysInRoom self.old self.new }
        ensures broken { self.new.broken ≡ is_broken_by result }
        ensures refusal { IfErr result IsOutside }
        ensures read { result ≡ Err LayerFault.ReadFault → (self.new ≡ self.old) × Stays (seen T.Shows stage.old) (seen T.Shows stage.new) }
        ensures counts { CountsLayer result (seen T.Shows stage.old).faults (seen T.Shows stage.new).faults }
        ensures stopped { StopsWithin U.null_bytes self.old (seen T.Shows stage.old) (seen T.Shows stage.new) }
        ensures headers { KeepsHeaders self.old (seen T.Shows stage.old) (seen T.Shows stage.new) }
        ensures others { OnlyIn self.old.slot (seen T.Shows stage.old) (seen T.Shows stage.new) }
    {
        if let Err(fault) = self.commit(stage) {
            return Err(fault_of(fault));
        }
        match self.make_stay(stage) {
            Ok(()) => Ok(()),
            Err(fault) => Err(fault_of(fault)),
        }
    }

    /// Makes all stay that was written, where something was since that was done.
    pub fn harden<T: Stage>(&mut self, stage: &mut T) -> Result<(), LayerFault>
        requires whole { self.old.broken ≡ false }
        requires can_read { CanRead self.old (seen T.Shows stage.old) }

        // At Ok a stop leaves exactly the layer's map.
        ensures hardened { OnOk result (self.new.hardened ≡ true) }
        ensures holds { OnOk result (StopHolds U.null_bytes self.old (seen T.Shows stage.old) (seen T.Shows stage.new)) }
        ensures map { OnOk result (KeepsMap U.null_bytes self.old self.new (seen T.Shows stage.old) (seen T.Shows stage.new)) }
        ensures same { IsSameLayer self.old self.new }
        ensures confined { StaysInRoom self.old self.new }
        ensures still { self.old.hardened ≡ true → IsOk result × (self.new ≡ self.old) × (seen T.Shows stage.new ≡ seen T.Shows stage.old) }

        // At a fault of reading all is as before, and any other breaks the layer.
        ensures broken { self.new.broken ≡ is_broken_by result }
        ensures refusal { IfErr result IsOutside }
        ensures read { result ≡ Err LayerFault.ReadFault → (self.new ≡ self.old) × Stays (seen T.Shows stage.old) (seen T.Shows stage.new) }
        ensures counts { CountsLayer result (seen T.Shows stage.old).faults (seen T.Shows stage.new).faults }

        // A stop leaves what it could leave before, or the layer's map, or something of both.
        ensures stopped { StopsWithin U.null_bytes self.old (seen T.Shows stage.old) (seen T.Shows stage.new) }

        // So it does with the headers that it left before; and where nothing was to be done, nothing else than it left before.
        ensures headers { KeepsHeaders self.old (seen T.Shows stage.old) (seen T.Shows stage.new) }
        ensures others { OnlyIn self.old.slot (seen T.Shows stage.old) (seen T.Shows stage.new) }
    {
        if self.hardened {
            return Ok(());
        }
        self.harden_anew(stage)
    }
}
