//! A new file, laid so that a stop leaves none or the whole.
ghost use Rattle.std.specs.Prelude.{◌≡◌, ◌+◌, ◌^◌, ◌<◌, ◌++◌, length, replicate, OnOk, IfErr};
ghost use Rattle.cckd_shelf.specs.Seen.{seen, Tells, Makes};
ghost use Rattle.cckd_shelf.specs.Frame.{OnlyIn};
ghost use Rattle.cckd_shelf.specs.Stops.{StopLeaves, StopsLeave};
ghost use Rattle.cckd_shelf.specs.World.{after_cut};
ghost use Rattle.cckd_make.specs.Making.{StopsAbsent, StopsWithout, HasOnly, IsWritten, IsPutOver, CountsMaking, WritesOrSyncs, after_put, after_laying};

use crate::fault::MakeFault;
use cckd_shelf::{Shelf, Slot};

/// Bytes of a sector, which is written in whole or not.
const SECTOR: usize = 512;

/// Puts bytes at a position, and makes them and all that was done before stay.
fn put<S: Shelf>(shelf: &mut S, slot: Slot, position: u64, bytes: &[u8]) -> Result<(), MakeFault>
    requires { position + length bytes.now < 2 ^ 63 }
    ensures made { OnOk result (Makes (after_put slot position bytes.now) (seen S.Shows shelf.old) (seen S.Shows shelf.new)) }
    ensures counts { CountsMaking result (seen S.Shows shelf.old).faults (seen S.Shows shelf.new).faults }
    ensures kind { IfErr result WritesOrSyncs }
    ensures others { OnlyIn slot (seen S.Shows shelf.old) (seen S.Shows shelf.new) }
    ensures stopped { StopsLeave slot (IsWritten (seen S.Shows shelf.old).world.events slot position bytes.now) (seen S.Shows shelf.old) (seen S.Shows shelf.new) }
    ensures left { OnOk result (StopLeaves slot (IsPutOver (seen S.Shows shelf.old).world.events slot position bytes.now) (seen S.Shows shelf.new)) }
{
    let Ok(()) = shelf.write(slot, position, bytes) else {
        return Err(MakeFault::WriteFault);
    };
    let synced = shelf.sync(slot);
    let Ok(()) = synced else {
        return Err(MakeFault::SyncFault);
    };
    Ok(())
}

/// Makes the file empty, and puts a first sector of zeros.
fn clear<S: Shelf>(shelf: &mut S, slot: Slot) -> Result<(), MakeFault>
    ensures made { OnOk result (Makes (λ w. after_put slot 0 (replicate SECTOR 0) (after_cut slot 0 w)) (seen S.Shows shelf.old) (seen S.Shows shelf.new)) }
    ensures counts { CountsMaking result (seen S.Shows shelf.old).faults (seen S.Shows shelf.new).faults }
    ensures kind { IfErr result WritesOrSyncs }
    ensures others { OnlyIn slot (seen S.Shows shelf.old) (seen S.Shows shelf.new) }
    ensures stopped { StopsAbsent slot (seen S.Shows shelf.old) (seen S.Shows shelf.new) }
    ensures left { OnOk result (StopLeaves slot (λ file. file ≡ replicate SECTOR 0) (seen S.Shows shelf.new)) }
{
    let Ok(()) = shelf.cut(slot, 0) else {
        return Err(MakeFault::WriteFault);
    };
    put(shelf, slot, 0, &[0; SECTOR])
}

/// Lays a new file of a first sector and the bytes behind it. A first sector of zeros stands before them until they stay.
pub fn lay<S: Shelf>(shelf: &mut S, slot: Slot, front: &[u8], rest: &[u8]) -> Result<(), MakeFault>
    requires front { length front.now ≡ SECTOR }
    requires rest { length rest.now < 2 ^ 62 }
    ensures made { OnOk result (Makes (after_laying slot front.now rest.now) (seen S.Shows shelf.old) (seen S.Shows shelf.new)) }
    ensures counts { CountsMaking result (seen S.Shows shelf.old).faults (seen S.Shows shelf.new).faults }
    ensures kind { IfErr result WritesOrSyncs }
    ensures others { OnlyIn slot (seen S.Shows shelf.old) (seen S.Shows shelf.new) }
    ensures stopped { StopsWithout slot (front.now ++ rest.now) (seen S.Shows shelf.old) (seen S.Shows shelf.new) }
    ensures only { OnOk result (Tells (seen S.Shows shelf.old) → HasOnly slot (front.now ++ rest.now) (seen S.Shows shelf.new).world) }
{
    if let Err(fault) = clear(shelf, slot) {
        return Err(fault);
    }
    if let Err(fault) = put(shelf, slot, SECTOR as u64, rest) {
        return Err(fault);
    }
    put(shelf, slot, 0, front)
}
