//! Bytes that are put to a free place.
ghost use Rattle.std.specs.Prelude.{◌≤◌, ◌+◌, length};
ghost use Rattle.cckd_shelf.specs.Seen.{seen, Called};
ghost use Rattle.cckd_shelf.specs.Frame.{OnlyIn};
ghost use Rattle.cckd_shelf.specs.Stops.{StopsLeave};
ghost use Rattle.cckd_space.specs.Plan.{IsNeed, IsSound, place_of};
ghost use Rattle.cckd_layer.specs.Changes.{IsFilled};
ghost use Rattle.cckd_layer.specs.Puts.{Puts, MakesPut, CountsPut};

use cckd_base::Full;
use cckd_shelf::{Shelf, Slot};
use cckd_space::Space;

/// Why bytes weren't put.
#[derive(Clone, Copy, Debug, PartialEq, Eq)]
pub enum PutFault {
    /// They have no room.
    Full(Full),
    /// They were placed, and the write failed.
    Write,
}

/// Places as many bytes as there are, and writes them there in one call. Their number is a multiple of 8.
pub fn put_bytes<S: Shelf>(
    shelf: &mut S,
    slot: Slot,
    space: &mut Space,
    bytes: &[u8],
) -> Result<u32, PutFault>
    requires need { IsNeed (length bytes.now) }
    requires spare { 2 ≤ space.old.spare }
    ensures put { Puts (length bytes.now) space.old space.new result }
    ensures spent { space.old.spare ≤ space.new.spare + 2 }
    ensures sound { IsSound space.new }

    // One write is made where there is room, and nothing else.
    ensures made { MakesPut slot (place_of (length bytes.now) space.old.pieces) bytes.now result (seen S.Shows shelf.old) (seen S.Shows shelf.new) }
    ensures counts { CountsPut result (seen S.Shows shelf.old).faults (seen S.Shows shelf.new).faults }
    ensures called { Called (seen S.Shows shelf.old) (seen S.Shows shelf.new) }
    ensures others { OnlyIn slot (seen S.Shows shelf.old) (seen S.Shows shelf.new) }

    // A stop leaves what it could leave before, but for these bytes.
    ensures stopped { StopsLeave slot (IsFilled (seen S.Shows shelf.old).world.events slot (place_of (length bytes.now) space.old.pieces) (length bytes.now))
        (seen S.Shows shelf.old) (seen S.Shows shelf.new) }
{
    let pos = match space.place(bytes.len() as u32) {
        Ok(pos) => pos,
        Err(full) => return Err(PutFault::Full(full)),
    };
    let Ok(()) = shelf.write(slot, pos as u64, bytes) else {
        return Err(PutFault::Write);
    };
    Ok(pos)
}
