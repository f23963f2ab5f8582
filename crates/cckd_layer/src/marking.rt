//! The second header, which says whether an image was closed.
ghost use Rattle.std.specs.Prelude.{◌≡◌, length, OnOk, IfErr};
ghost use Rattle.cckd_shelf.specs.Seen.{seen, Tells};
ghost use Rattle.cckd_shelf.specs.World.{IsSure, file_of};
ghost use Rattle.cckd_shelf.specs.Outcomes.{EachOutcome};
ghost use Rattle.cckd_shelf.specs.Frame.{OnlyIn};
ghost use Rattle.cckd_shelf.specs.Stops.{StopsLeave};
ghost use Rattle.cckd_tables.specs.Device.{CountsDevice};
ghost use Rattle.cckd_layer.specs.Changes.{IsRemarked};
ghost use Rattle.cckd_layer.specs.Chain.{opened_header, closed_header};
ghost use Rattle.cckd_layer.specs.Marks.{SpellsSecond, MakesSecond, CalledTwice, WritesOrSyncs};

use cckd_image::ImageHeader;
use cckd_shelf::{Shelf, Slot};
use cckd_space::Totals;
use cckd_tables::Device;

/// Where the second header stands in a file.
const SECOND_AT: u64 = 512;

/// The option bit of an image that was opened and not closed.
const OPENED: u8 = 128;

/// The headers once the image is opened: option bit 128 is on.
pub fn open_header(header: &ImageHeader) -> ImageHeader
    ensures { result ≡ opened_header header.now }
{
    let mut opened = *header;
    opened.cckd.options = header.cckd.options % OPENED + OPENED;
    opened
}

/// The headers once the image is closed with these totals.
pub fn close_header(header: &ImageHeader, totals: Totals) -> ImageHeader
    ensures { result ≡ closed_header totals header.now }
{
    let mut closed = *header;
    closed.cckd.options = header.cckd.options % OPENED;
    closed.cckd.size = totals.size;
    closed.cckd.used = totals.used;
    closed.cckd.free = totals.free;
    closed.cckd.free_total = totals.free_total;
    closed.cckd.free_largest = totals.free_largest;
    closed.cckd.free_number = totals.free_number;
    closed.cckd.free_imbed = totals.free_imbed;
    closed
}

/// The bytes that spell the second header.
pub fn second_header(header: &ImageHeader) -> [u8; 512]
    ensures { SpellsSecond result header.now.cckd }
{
    let both = header.encode();
    let mut second = [0; 512];
    second.copy_from_slice(&both[512..]);
    second
}

/// Writes the second header in one write, and makes it and all that was written before stay.
pub fn put_second<S: Shelf>(shelf: &mut S, slot: Slot, bytes: &[u8]) -> Result<(), Device>
    requires { length bytes.now ≡ 512 }
    ensures made { MakesSecond slot bytes.now result (seen S.Shows shelf.old) (seen S.Shows shelf.new) }
    ensures counts { CountsDevice result (seen S.Shows shelf.old).faults (seen S.Shows shelf.new).faults }
    ensures kind { IfErr result WritesOrSyncs }
    ensures called { CalledTwice (seen S.Shows shelf.old) (seen S.Shows shelf.new) }
    ensures others { OnlyIn slot (seen S.Shows shelf.old) (seen S.Shows shelf.new) }

    // A stop leaves what it could leave before, with its own second header or with this one.
    ensures stopped { StopsLeave slot (IsRemarked (seen S.Shows shelf.old).world.events slot bytes.now) (seen S.Shows shelf.old) (seen S.Shows shelf.new) }
    ensures alone { Tells (seen S.Shows shelf.old) → IsSure (seen S.Shows shelf.old).world
        → OnOk result (EachOutcome slot (λ file. file ≡ file_of (seen S.Shows shelf.new).world slot) (seen S.Shows shelf.new).world.events) }
{
    let Ok(()) = shelf.write(slot, SECOND_AT, bytes) else {
        return Err(Device::Write);
    };
    let synced = shelf.sync(slot);
    let Ok(()) = synced else {
        return Err(Device::Sync);
    };
    Ok(())
}
