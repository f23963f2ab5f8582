//! Bytes that stay at the front of a named file.
ghost use Rattle.std.specs.Prelude.{◌<◌, ◌^◌, length, OnOk, OnErr};
ghost use Rattle.cckd_shelf.specs.Seen.{seen};
ghost use Rattle.cckd_shelf.specs.Stops.{StopLeaves, StopLeavesHeld};
ghost use Rattle.cckd_record_example.specs.Records.{BeginsWith, HasName, HasStoreCause, KeepsCounts};

use cckd_shelf::{Failed, Shelf, Slot};

/// Gives the slot the file of this name, and puts the bytes at its front. After an Ok they are there whatever a
/// stop leaves.
pub fn store<S: Shelf>(shelf: &mut S, slot: Slot, name: &str, bytes: &[u8]) -> Result<(), Failed>
    requires { length bytes.now < 2 ^ 63 }
    ensures stays { OnOk result (StopLeaves slot (BeginsWith bytes.now) (seen S.Shows shelf.new)) }
    ensures named { OnOk result (HasName slot name.now (seen S.Shows shelf.new)) }

    // It fails only where a call did.
    ensures cause { OnErr result (HasStoreCause (seen S.Shows shelf.old) (seen S.Shows shelf.new)) }
    ensures still { OnOk result (KeepsCounts (seen S.Shows shelf.old) (seen S.Shows shelf.new)) }
{
    shelf.bind(slot, name)?;
    shelf.write(slot, 0, bytes)?;
    make_stay(shelf, slot, name)
}

/// Makes all stay that was written to the slot's file, which has this name. To bind the slot to another name and
/// back would not.
pub fn make_stay<S: Shelf>(shelf: &mut S, slot: Slot, name: &str) -> Result<(), Failed>
    requires { HasName slot name.now (seen S.Shows shelf.old) }
    ensures stays { OnOk result (StopLeavesHeld slot (seen S.Shows shelf.old) (seen S.Shows shelf.new)) }
    ensures named { OnOk result (HasName slot name.now (seen S.Shows shelf.new)) }
    ensures cause { OnErr result (HasStoreCause (seen S.Shows shelf.old) (seen S.Shows shelf.new)) }
    ensures still { OnOk result (KeepsCounts (seen S.Shows shelf.old) (seen S.Shows shelf.new)) }
{
    shelf.sync(slot)
}
