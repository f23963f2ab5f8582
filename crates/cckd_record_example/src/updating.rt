//! Updates of one record after another.
ghost use Rattle.std.specs.Prelude.{◌≡◌, ℕ, ◌+◌, ◌^◌, ◌<◌, ◌≤◌, List, length, OnOk, OnErr};
ghost use Rattle.std.specs.Int.{w64, to_le_bytes};
ghost use Rattle.std.specs.List.{All};
ghost use Rattle.cckd_shelf.specs.Seen.{seen};
ghost use Rattle.cckd_shelf.specs.Frame.{OnlyIn};
ghost use Rattle.cckd_shelf.specs.Stops.{StopLeaves, StopsLeave};
ghost use Rattle.cckd_record_example.specs.Records.{Shows, ShowsBeside, ShowsEither, LieApart, HasCause, KeepsCounts};
ghost use Rattle.cckd_record_example.specs.Versions.{IsFit, AreInTurn, ShowsOne, last_place, last_value};

use cckd_shelf::{Failed, Shelf, Slot};

/// A value of the record, 600 bytes, and the place where it goes.
#[derive(Debug, Drop)]
pub struct Version {
    pub place: u64,
    pub value: Vec<u8>,
}

/// Makes the file read as this value, which is put at a free place. A stop at any operation leaves a file
/// that reads as the old value or as this one.
pub fn update<S: Shelf>(shelf: &mut S, slot: Slot, place: u64, value: &[u8]) -> Result<(), Failed>
    requires size { length value.now ≡ 600 }
    requires behind { 8 ≤ place }
    requires room { place + 600 < 2 ^ 63 }
    ensures stopped { (p : ℕ) (old : List ℕ) → LieApart p place
        → StopLeaves slot (Shows p old) (seen S.Shows shelf.old)
        → StopsLeave slot (ShowsEither p old place value.now) (seen S.Shows shelf.old) (seen S.Shows shelf.new) }
    ensures done { (p : ℕ) (old : List ℕ) → LieApart p place
        → StopLeaves slot (Shows p old) (seen S.Shows shelf.old)
        → OnOk result (StopLeaves slot (Shows place value.now) (seen S.Shows shelf.new)) }
    ensures others { OnlyIn slot (seen S.Shows shelf.old) (seen S.Shows shelf.new) }

    // It fails only where a write or a sync did.
    ensures cause { OnErr result (HasCause (seen S.Shows shelf.old) (seen S.Shows shelf.new)) }
    ensures still { OnOk result (KeepsCounts (seen S.Shows shelf.old) (seen S.Shows shelf.new)) }
{
    put_record(shelf, slot, place, value)?;
    point_to(shelf, slot, place)
}

/// Versions in a row, each at a place apart from the one before. A stop at any operation leaves the value that
/// was there or one of theirs, and at the end it leaves the last one.
pub fn update_all<S: Shelf>(shelf: &mut S, slot: Slot, versions: &[Version]) -> Result<(), Failed>
    requires { All IsFit versions.now }
    ensures stopped { (p : ℕ) (old : List ℕ) → AreInTurn p versions.now
        → StopLeaves slot (Shows p old) (seen S.Shows shelf.old)
        → StopsLeave slot (ShowsOne p old versions.now) (seen S.Shows shelf.old) (seen S.Shows shelf.new) }
    ensures done { (p : ℕ) (old : List ℕ) → AreInTurn p versions.now
        → StopLeaves slot (Shows p old) (seen S.Shows shelf.old)
        → OnOk result (StopLeaves slot (Shows (last_place p versions.now) (last_value old versions.now)) (seen S.Shows shelf.new)) }
    ensures others { OnlyIn slot (seen S.Shows shelf.old) (seen S.Shows shelf.new) }

    // It fails only where a write or a sync did.
    ensures cause { OnErr result (HasCause (seen S.Shows shelf.old) (seen S.Shows shelf.new)) }
    ensures still { OnOk result (KeepsCounts (seen S.Shows shelf.old) (seen S.Shows shelf.new)) }
{
    for next in versions {
        update(shelf, slot, next.place, next.value.as_slice())?;
    }
    Ok(())
}

/// Puts the record, and makes it stay before anything points to it.
fn put_record<S: Shelf>(shelf: &mut S, slot: Slot, place: u64, value: &[u8]) -> Result<(), Failed>
    requires size { length value.now ≡ 600 }
    requires behind { 8 ≤ place }
    requires room { place + 600 < 2 ^ 63 }
    ensures stopped { (p : ℕ) (old : List ℕ) → LieApart p place
        → StopLeaves slot (Shows p old) (seen S.Shows shelf.old)
        → StopsLeave slot (Shows p old) (seen S.Shows shelf.old) (seen S.Shows shelf.new) }
    ensures placed { (p : ℕ) (old : List ℕ) → LieApart p place
        → StopLeaves slot (Shows p old) (seen S.Shows shelf.old)
        → OnOk result (StopLeaves slot (ShowsBeside p old place value.now) (seen S.Shows shelf.new)) }
    ensures others { OnlyIn slot (seen S.Shows shelf.old) (seen S.Shows shelf.new) }
    ensures cause { OnErr result (HasCause (seen S.Shows shelf.old) (seen S.Shows shelf.new)) }
    ensures still { OnOk result (KeepsCounts (seen S.Shows shelf.old) (seen S.Shows shelf.new)) }
{
    shelf.write(slot, place, value)?;
    shelf.sync(slot)
}

/// Makes the entry point to the record that lies there.
fn point_to<S: Shelf>(shelf: &mut S, slot: Slot, place: u64) -> Result<(), Failed>
    ensures stopped { (p : ℕ) (old value : List ℕ)
        → StopLeaves slot (ShowsBeside p old place value) (seen S.Shows shelf.old)
        → StopsLeave slot (ShowsEither p old place value) (seen S.Shows shelf.old) (seen S.Shows shelf.new) }
    ensures done { (p : ℕ) (old value : List ℕ)
        → StopLeaves slot (ShowsBeside p old place value) (seen S.Shows shelf.old)
        → OnOk result (StopLeaves slot (Shows place value) (seen S.Shows shelf.new)) }
    ensures others { OnlyIn slot (seen S.Shows shelf.old) (seen S.Shows shelf.new) }
    ensures cause { OnErr result (HasCause (seen S.Shows shelf.old) (seen S.Shows shelf.new)) }
    ensures still { OnOk result (KeepsCounts (seen S.Shows shelf.old) (seen S.Shows shelf.new)) }
{
    write_entry(shelf, slot, place, &place.to_le_bytes())
}

fn write_entry<S: Shelf>(shelf: &mut S, slot: Slot, place: u64, entry: &[u8]) -> Result<(), Failed>
    requires { entry.now ≡ to_le_bytes w64 place }
    ensures stopped { (p : ℕ) (old value : List ℕ)
        → StopLeaves slot (ShowsBeside p old place value) (seen S.Shows shelf.old)
        → StopsLeave slot (ShowsEither p old place value) (seen S.Shows shelf.old) (seen S.Shows shelf.new) }
    ensures done { (p : ℕ) (old value : List ℕ)
        → StopLeaves slot (ShowsBeside p old place value) (seen S.Shows shelf.old)
        → OnOk result (StopLeaves slot (Shows place value) (seen S.Shows shelf.new)) }
    ensures others { OnlyIn slot (seen S.Shows shelf.old) (seen S.Shows shelf.new) }
    ensures cause { OnErr result (HasCause (seen S.Shows shelf.old) (seen S.Shows shelf.new)) }
    ensures still { OnOk result (KeepsCounts (seen S.Shows shelf.old) (seen S.Shows shelf.new)) }
{
    shelf.write(slot, 0, entry)?;
    shelf.sync(slot)
}
