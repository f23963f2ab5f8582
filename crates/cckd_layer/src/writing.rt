//! The writing of a track: its bytes go to a free place, and its entry is staged.
ghost use Rattle.cckd_layer.specs.Justified.{StaysInRoom, AddsInRoom};
ghost use Rattle.std.specs.Prelude.{◌≡◌, ◌⊎◌, ◌<◌, ◌≤◌, ◌+◌, ◌++◌, ◌/◌, ◌%◌, [], ℕ, List, length, take, IsSome, IsNone, IfSome, IfNone, IfOk, OnOk, IfErr, OnErr, Err, Some, None, true, false};
ghost use Rattle.std.specs.Option.{is_some};
ghost use Rattle.cckd_shelf.specs.Seen.{Seen, seen, Tells, Stays, Makes, MayMake, Fails};
ghost use Rattle.cckd_shelf.specs.World.{World, file_of, after_write, after_torn};
ghost use Rattle.cckd_shelf.specs.declared.fault.Kind.TheVariants.{Writes};
ghost use Rattle.cckd_shelf.specs.Frame.{OnlyIn};
ghost use Rattle.cckd_base.specs.declared.space.Extent.{Extent as Space_of};
ghost use Rattle.cckd_base.specs.declared.entry.L2Entry.{L2Entry as Entry_of};
ghost use Rattle.cckd_base.specs.Geometry.{track_count, IsLayout, IsNullFormat};
ghost use Rattle.cckd_base.specs.Entry.{bytes_by_entry};
ghost use Rattle.cckd_space.specs.Pieces.{aligned_up};
ghost use Rattle.cckd_space.specs.Plan.{IsNeed};
ghost use Rattle.cckd_tables.specs.Device.{CountsDevice};
ghost use Rattle.cckd_tables.specs.Staging.{IsStaged};
ghost use Rattle.cckd_tables.specs.Stages.{free_count};
ghost use Rattle.cckd_tables.specs.Looking.{HasAlignedTable, with_stages};
ghost use Rattle.cckd_layer.specs.Current.{claim, IsAmong};
ghost use Rattle.cckd_layer.specs.Writes.{Agrees, AgreesIn, AgreesWith, KeepsMap, KeepsMapWith, StopsWithin, StopsWithinWith, IsAct, IsPut, IsSameFile, AgreesAgainWith, CanStage, StoresIn, CountsLayer, claim_of, entry_now, failed_by, is_broken_by};
ghost use Rattle.cckd_layer.specs.Storing.{stored_as, padded, need_of, entry_of_stored, IsStoredOf, IsPutTo, IsClaimed, IsOneWrite, HasRoomFor, IsMarkedFrom, CanPlace, IsPrepared, IsStoreRefusal, IsWriteRefusal, IsHarmless, StoresTrack, breaks};
ghost use Rattle.cckd_base.specs.declared.fault.TrackFault.{TrackFault as Fault_of};
ghost use Rattle.cckd_layer.specs.Preparing.{HasNoneToFree, IsRoom, IsDenial, IsUndone};
ghost use Rattle.cckd_layer.specs.Marks.{WritesOrSyncs};
ghost use Rattle.cckd_layer.specs.Calm.{KeepsUnharmed};
ghost use Rattle.cckd_layer.specs.Taken.{LeavesTable, StagesPlaces, IsTaken, PlacesTrack, staged_table};
ghost use Rattle.cckd_layer.specs.Headed.{KeepsHeadersWith, KeepsHeaders, StaysSteady, KeepsMarkWith, KeepsMark};

use crate::hardening::fault_of;
use crate::layer::Layer;
use crate::preparing::Room;
use cckd_base::{GROUP_TRACKS, L2Entry, LayerFault, Layout, Track, Unit};
use cckd_shelf::{Failed, Slot, Stage};
use cckd_tables::Device;

/// How the bytes that are given to a write are stored.
#[derive(Clone, Copy, Debug, PartialEq, Eq)]
pub enum Form {
    /// As they are.
    Given,
    /// As what they say.
    Value,
}

/// The next multiple of 8.
fn padded_len(len: usize) -> usize
    requires { len ≤ 65528 }
    ensures { result ≡ aligned_up len }
{
    (len + 7) / 8 * 8
}

/// Puts bytes as they are stored to the front of a buffer.
fn fill<U: Unit>(form: Form, bytes: &[u8], buffer: &mut [u8])
    requires some { 0 < length bytes.now }
    requires room { length bytes.now ≤ length buffer.old }
    ensures front { take (length bytes.now) buffer.new ≡ stored_as U.value form bytes.now }
    ensures len { length buffer.new ≡ length buffer.old }
    ensures long { length (stored_as U.value form bytes.now) ≡ length bytes.now }
{
    let front = &mut buffer[..bytes.len()];
    front.copy_from_slice(bytes);
    match form {
        Form::Given => {}
        Form::Value => U::settle(front),
    }
}

/// Puts bytes as they are stored, and zeros up to a multiple of 8, to the front of a buffer, and answers how many.
fn fill_padded<U: Unit>(form: Form, bytes: &[u8], buffer: &mut [u8]) -> usize
    requires some { 0 < length bytes.now }
    requires short { length bytes.now ≤ 65528 }
    requires room { length buffer.old ≡ 65536 }
    ensures front { take result buffer.new ≡ padded (stored_as U.value form bytes.now) }
    ensures count { result ≡ aligned_up (length bytes.now) }
    ensures len { length buffer.new ≡ length buffer.old }
    ensures long { length (stored_as U.value form bytes.now) ≡ length bytes.now }
{
    fill::<U>(form, bytes, buffer);
    let count = padded_len(bytes.len());
    buffer[bytes.len()..count].fill(0);
    count
}

/// Writes so many bytes from the front of a buffer to a place, in one call.
fn write_front<T: Stage>(
    stage: &mut T,
    slot: Slot,
    pos: u32,
    buffer: &[u8],
    count: usize,
) -> Result<(), Failed>
    requires room { count ≤ length buffer.now }
    requires short { count ≤ 65536 }
    ensures written { OnOk result (Makes (after_write slot pos (take count buffer.now)) (seen T.Shows stage.old) (seen T.Shows stage.new)) }
    ensures torn { OnErr result (MayMake (after_torn slot pos (take count buffer.now)) (seen T.Shows stage.old) (seen T.Shows stage.new)) }
    ensures fails { Fails Writes result (seen T.Shows stage.old) (seen T.Shows stage.new) }
{
    stage.write(slot, pos as u64, &buffer[..count])
}

impl<U: Unit> Layer<U> {
    /// Writes bytes to a place that is reserved for them, with zeros up to a multiple of 8, in one call.
    fn put_reserved<T: Stage>(
        &mut self,
        stage: &mut T,
        pos: u32,
        form: Form,
        bytes: &[u8],
    ) -> Result<(), Device>
        requires some { 0 < length bytes.now }
        requires short { length bytes.now ≤ 65528 }
        ensures made { OnOk result (Makes (after_write self.old.slot pos (padded (stored_as U.value form bytes.now))) (seen T.Shows stage.old) (seen T.Shows stage.new)) }
        ensures rest { OnOk result (IsPut self.old self.new) }
        ensures map { (claims : List Space_of) → IsAmong (claim pos (aligned_up (length bytes.now))) claims
            → OnOk result (KeepsMapWith claims claims U.null_bytes self.old self.new (seen T.Shows stage.old) (seen T.Shows stage.new)) }
        ensures confined { StaysInRoom self.old self.new }
        ensures failed { IfErr result (λ fault. (fault ≡ Device.Write) × (self.new ≡ failed_by Device.Write self.old)) }
        ensures counts { CountsDevice result (seen T.Shows stage.old).faults (seen T.Shows stage.new).faults }
        ensures stopped { (claims : List Space_of) → IsAmong (claim pos (aligned_up (length bytes.now))) claims
            → StopsWithinWith claims U.null_bytes self.old (seen T.Shows stage.old) (seen T.Shows stage.new) }
        ensures headers { (claims : List Space_of) → IsAmong (claim pos (aligned_up (length bytes.now))) claims → KeepsHeadersWith claims self.old (seen T.Shows stage.old) (seen T.Shows stage.new) }
        ensures others { OnlyIn self.old.slot (seen T.Shows stage.old) (seen T.Shows stage.new) }
        ensures alone { IsOneWrite self.old.slot (padded (stored_as U.value form bytes.now)) (seen T.Shows stage.old) (seen T.Shows stage.new) }
    {
        let count = fill_padded::<U>(form, bytes, self.buffer.as_mut_slice());
        let written = write_front(stage, self.slot, pos, self.buffer.as_slice(), count);
        let Ok(()) = written else {
            self.fail(Device::Write);
            return Err(Device::Write);
        };
        self.hardened = false;
        Ok(())
    }
}

/// What is stored of a track.
#[derive(Clone, Copy, Debug, PartialEq, Eq)]
pub enum Stored {
    /// Nothing but the format of its null track.
    Null(u8),
    /// So many bytes, and the size of their space.
    Bytes { len: u16, size: u16 },
}

/// What a write needs, once it is found.
#[derive(Clone, Copy)]
pub(crate) struct Prepared {
    /// Where the track's old entry points.
    old: u32,
    stored: Stored,
    room: Room,
}

impl Stored {
    /// How many bytes want a place.
    fn need(self) -> Option<u32>
        ensures { result ≡ need_of self }
    {
        match self {
            Stored::Null(_) => None,
            Stored::Bytes { size, .. } => Some(u32::from(size)),
        }
    }

    /// The entry of a track of which this is stored.
    fn entry(self, place: Option<u32>) -> L2Entry
        ensures { result ≡ entry_of_stored self place }
    {
        match self {
            Stored::Null(format) => L2Entry {
                pos: 0,
                len: u16::from(format),
                size: u16::from(format),
            },
            Stored::Bytes { len, size } => L2Entry {
                pos: place.unwrap_or(0),
                len,
                size,
            },
        }
    }
}

/// The format of which bytes are the null track of the device.
fn null_format_of<U: Unit>(l: &Layout, t: Track, bytes: &[u8]) -> Option<u8>
    requires layout { IsLayout l.now }
    requires track { t.0 < track_count l.now.geo }
    ensures null { IfSome result (λ f. IsNullFormat l.now.geo f × (bytes.now ≡ U.null_bytes l.now.geo t.0 f)) }
    ensures not { IfNone result ((f : ℕ) → IsNullFormat l.now.geo f → bytes.now ≡ U.null_bytes l.now.geo t.0 f → ⊥) }
{
    if U::is_null(&l.geo, t, 0, bytes) {
        return Some(0);
    }
    if U::is_null(&l.geo, t, 1, bytes) {
        return Some(1);
    }
    None
}

impl<U: Unit> Layer<U> {
    /// The format of which bytes as they are stored are the null track.
    fn null_format(&mut self, t: Track, form: Form, bytes: &[u8]) -> Option<u8>
        requires track { t.0 < track_count self.old.tables.layout.geo }
        requires some { 0 < length bytes.now }
        requires short { length bytes.now ≤ 65528 }
        ensures null { IfSome result (λ f. IsNullFormat self.old.tables.layout.geo f × (stored_as U.value form bytes.now ≡ U.null_bytes self.old.tables.layout.geo t.0 f)) }
        ensures not { IfNone result ((f : ℕ) → IsNullFormat self.old.tables.layout.geo f → stored_as U.value form bytes.now ≡ U.null_bytes self.old.tables.layout.geo t.0 f → ⊥) }
        ensures long { length (stored_as U.value form bytes.now) ≡ length bytes.now }
        ensures same { self.new ≡ self.old }
    {
        let layout = self.tables.layout();
        fill::<U>(form, bytes, self.buffer.as_mut_slice());
        null_format_of::<U>(&layout, t, &self.buffer[..bytes.len()])
    }

    /// What is stored of bytes that are given.
    fn stored(&mut self, t: Track, form: Form, bytes: &[u8]) -> Stored
        requires track { t.0 < track_count self.old.tables.layout.geo }
        requires some { 0 < length bytes.now }
        requires short { length bytes.now ≤ 65528 }
        ensures stored { IsStoredOf U.null_bytes self.old.tables.layout.geo t.0 (stored_as U.value form bytes.now) result }
        ensures need { IfSome (need_of result) IsNeed }
        ensures long { length (stored_as U.value form bytes.now) ≡ length bytes.now }
        ensures same { self.new ≡ self.old }
    {
        match self.null_format(t, form, bytes) {
            Some(format) => Stored::Null(format),
            None => Stored::Bytes {
                len: bytes.len() as u16,
                size: padded_len(bytes.len()) as u16,
            },
        }
    }

    /// Marks the file, and writes bytes to their place, where they have one.
    fn put_track<T: Stage>(
        &mut self,
        stage: &mut T,
        place: Option<u32>,
        form: Form,
        bytes: &[u8],
    ) -> Result<(), Device>
        requires some { 0 < length bytes.now }
        requires short { length bytes.now ≤ 65528 }
        ensures rest { OnOk result (IsMarkedFrom self.old self.new) }
        ensures marked { OnOk result (self.new.marked ≡ true) }
        ensures map { (claims : List Space_of) → IsClaimed place (aligned_up (length bytes.now)) claims
            → OnOk result (KeepsMapWith claims claims U.null_bytes self.old self.new (seen T.Shows stage.old) (seen T.Shows stage.new)) }
        ensures put { (claims : List Space_of) → Tells (seen T.Shows stage.old) → AgreesWith claims self.old (seen T.Shows stage.old).world
            → OnOk result (IsPutTo place (stored_as U.value form bytes.now) (file_of (seen T.Shows stage.old).world self.old.slot) (file_of (seen T.Shows stage.new).world self.old.slot)) }
        ensures act { (claims : List Space_of) → IsClaimed place (aligned_up (length bytes.now)) claims
            → IsAct claims U.null_bytes self.old self.new (seen T.Shows stage.old) (seen T.Shows stage.new) }
        ensures marks { (claims : List Space_of) → IsClaimed place (aligned_up (length bytes.now)) claims → KeepsMarkWith claims self.old (seen T.Shows stage.old) (seen T.Shows stage.new) }
        ensures confined { StaysInRoom self.old self.new }
        ensures broken { self.old.broken ≡ false → self.new.broken ≡ breaks result }
        ensures kind { IfErr result WritesOrSyncs }
        ensures counts { CountsDevice result (seen T.Shows stage.old).faults (seen T.Shows stage.new).faults }
        ensures alone { self.old.marked ≡ true → IsOneWrite self.old.slot (padded (stored_as U.value form bytes.now)) (seen T.Shows stage.old) (seen T.Shows stage.new) }
    {
        if let Err(fault) = self.mark(stage) {
            return Err(fault);
        }
        match place {
            Some(pos) => self.put_reserved(stage, pos, form, bytes),
            None => Ok(()),
        }
    }

    /// Stages the new table of a track's group, where it gets one.
    fn stage_new_table(&mut self, t: Track, table: Option<u32>)
        requires track { t.0 < track_count self.old.tables.layout.geo }
        requires free { 2 ≤ free_count self.old.tables.stages }
        requires aligned { IfSome table (λ pos. pos % 8 ≡ 0) }
        requires table { is_some table ≡ false → HasAlignedTable self.old.tables (t.0 / 256) }
        ensures rest { self.new ≡ record self.old { tables = self.new.tables; plan = self.new.plan; hardened = self.new.hardened } }
        ensures same { IsSameFile self.old self.new }
        ensures confined { AddsInRoom (t.0 / 256) self.old self.new }
        ensures free { 0 < free_count self.new.tables.stages }
        ensures has { HasAlignedTable self.new.tables (t.0 / 256) }
        ensures entries { self.new.tables.stages.entries ≡ self.old.tables.stages.entries }
        ensures tables { self.new.tables ≡ with_stages self.old.tables (staged_table (t.0 / 256) table self.old.tables.stages) }
        ensures leaves { LeavesTable (t.0 / 256) table self.old self.new.plan }
        ensures can { (claims : List Space_of) (pos len : ℕ) (e : Entry_of) (w : Seen) → CanPlace claims self.old t.0 pos table e len w → Tells w → CanStage claims [] self.new t.0 e w }
        ensures map { (claims : List Space_of) (pos len : ℕ) (e : Entry_of) (w : Seen) → CanPlace claims self.old t.0 pos table e len w → Tells w
            → AgreesAgainWith claims U.null_bytes self.old self.new w w }
    {
        let _layout = self.tables.layout();
        if let Some(pos) = table {
            self.stage_table(t.0 / GROUP_TRACKS, pos);
        }
    }

    /// Stages what was placed: the group's new table, where it gets one, and the track's entry.
    fn stage_places(&mut self, t: Track, old: u32, table: Option<u32>, entry: L2Entry, len: u32)
        requires track { t.0 < track_count self.old.tables.layout.geo }
        requires free { 2 ≤ free_count self.old.tables.stages }
        requires aligned { IfSome table (λ pos. pos % 8 ≡ 0) }
        requires table { is_some table ≡ false → HasAlignedTable self.old.tables (t.0 / 256) }
        ensures rest { self.new ≡ record self.old { tables = self.new.tables; plan = self.new.plan; hardened = false } }
        ensures same { IsSameFile self.old self.new }
        ensures confined { AddsInRoom (t.0 / 256) self.old self.new }
        ensures stages { StagesPlaces self.old self.new t.0 old table entry len }
        ensures map { (claims : List Space_of) (w : Seen) → CanPlace claims self.old t.0 old table entry len w → Tells w
            → StoresIn [] U.null_bytes self.old self.new t.0 (bytes_by_entry U.null_bytes self.old.tables.layout (file_of w.world self.old.slot) t.0 entry) w w }
    {
        self.stage_new_table(t, table);
        self.stage_track(t, old, entry, len);
    }

    /// Finds what a write needs: what is stored of its bytes, where the track's old entry points, and places.
    fn prepare<T: Stage>(
        &mut self,
        stage: &mut T,
        t: Track,
        form: Form,
        bytes: &[u8],
    ) -> Result<Prepared, LayerFault>
        requires whole { self.old.broken ≡ false }
        requires track { t.0 < track_count self.old.tables.layout.geo }
        requires some { 0 < length bytes.now }
        requires short { length bytes.now ≤ 65528 }
        requires agrees { AgreesIn self.old (seen T.Shows stage.old) }
        ensures room { IfOk result (λ p. IsRoom self.new t.0 (need_of p.stored) p.room) }
        ensures free { OnOk result (2 ≤ free_count self.new.tables.stages) }
        ensures stored { IfOk result (λ p. IsStoredOf U.null_bytes self.old.tables.layout.geo t.0 (stored_as U.value form bytes.now) p.stored) }
        ensures long { OnOk result (length (stored_as U.value form bytes.now) ≡ length bytes.now) }
        ensures prepared { Tells (seen T.Shows stage.old) → Agrees self.old (seen T.Shows stage.old).world
            → IfOk result (IsPrepared U.null_bytes self.old self.new t.0 (seen T.Shows stage.old) (seen T.Shows stage.new)) }
        ensures taken { Tells (seen T.Shows stage.old) → Agrees self.old (seen T.Shows stage.old).world
            → IfOk result (λ p. IsTaken U.null_bytes self.old self.new t.0 (need_of p.stored) p.room.places (seen T.Shows stage.old) (seen T.Shows stage.new)) }
        ensures kept { IfErr result (λ why. IsDenial why → KeepsMap U.null_bytes self.old self.new (seen T.Shows stage.old) (seen T.Shows stage.new)) }
        ensures unharmed { IfErr result (λ why. IsDenial why → KeepsUnharmed self.old self.new (seen T.Shows stage.old) (seen T.Shows stage.new)) }
        ensures refusal { IfErr result (IsStoreRefusal U.null_bytes self.old self.new (seen T.Shows stage.old) (seen T.Shows stage.new) t.0 (stored_as U.value form bytes.now)) }
        ensures act { IsAct [] U.null_bytes self.old self.new (seen T.Shows stage.old) (seen T.Shows stage.new) }
        ensures headers { KeepsHeaders self.old (seen T.Shows stage.old) (seen T.Shows stage.new) }
        ensures steady { OnOk result (StaysSteady self.old self.new (seen T.Shows stage.old)) }
        ensures confined { StaysInRoom self.old self.new }
        ensures broken { self.new.broken ≡ is_broken_by result }
        ensures counts { CountsLayer result (seen T.Shows stage.old).faults (seen T.Shows stage.new).faults }
        ensures still { 2 ≤ free_count self.old.tables.stages → HasNoneToFree self.old.plan → 4 ≤ self.old.plan.spare → IsUndone self.old self.new (seen T.Shows stage.old) (seen T.Shows stage.new) }
        ensures alone { Tells (seen T.Shows stage.old) → Agrees self.old (seen T.Shows stage.old).world → 2 ≤ free_count self.old.tables.stages → 4 ≤ self.old.plan.spare
            → HasRoomFor U.null_bytes self.old t.0 (stored_as U.value form bytes.now) → Stays (seen T.Shows stage.old) (seen T.Shows stage.new) × (self.new.marked ≡ self.old.marked) }
    {
        if let Err(fault) = self.make_free_stages(stage) {
            return Err(fault);
        }
        let old = match self.find_entry(stage, t) {
            Ok(entry) => entry.pos,
            Err(fault) => return Err(fault),
        };
        let stored = self.stored(t, form, bytes);
        match self.find_places(stage, t, stored.need()) {
            Ok(room) => Ok(Prepared { old, stored, room }),
            Err(fault) => Err(fault),
        }
    }

    /// Writes a track: its bytes go to their place, and its entry is staged.
    fn store<T: Stage>(
        &mut self,
        stage: &mut T,
        t: Track,
        form: Form,
        bytes: &[u8],
    ) -> Result<(), LayerFault>
        requires whole { self.old.broken ≡ false }
        requires track { t.0 < track_count self.old.tables.layout.geo }
        requires some { 0 < length bytes.now }
        requires short { length bytes.now ≤ 65528 }
        requires agrees { AgreesIn self.old (seen T.Shows stage.old) }
        ensures stores { OnOk result (StoresTrack U.null_bytes self.old self.new t.0 (stored_as U.value form bytes.now) (seen T.Shows stage.old) (seen T.Shows stage.new)) }
        ensures placed { OnOk result (PlacesTrack U.null_bytes self.old self.new t.0 (stored_as U.value form bytes.now) (seen T.Shows stage.old) (seen T.Shows stage.new)) }
        ensures marked { OnOk result (self.new.marked ≡ true) }
        ensures grows { OnOk result (AddsInRoom (t.0 / 256) self.old self.new) }
        ensures stays { IfErr result (λ why. IsDenial why → StaysInRoom self.old self.new) }
        ensures kept { IfErr result (λ why. IsDenial why → KeepsMap U.null_bytes self.old self.new (seen T.Shows stage.old) (seen T.Shows stage.new)) }
        ensures unharmed { IfErr result (λ why. IsDenial why → KeepsUnharmed self.old self.new (seen T.Shows stage.old) (seen T.Shows stage.new)) }
        ensures refusal { IfErr result (IsStoreRefusal U.null_bytes self.old self.new (seen T.Shows stage.old) (seen T.Shows stage.new) t.0 (stored_as U.value form bytes.now)) }
        ensures act { IsAct [] U.null_bytes self.old self.new (seen T.Shows stage.old) (seen T.Shows stage.new) }
        ensures marks { KeepsMark self.old (seen T.Shows stage.old) (seen T.Shows stage.new) }
        ensures broken { self.new.broken ≡ is_broken_by result }
        ensures counts { CountsLayer result (seen T.Shows stage.old).faults (seen T.Shows stage.new).faults }
        ensures still { 2 ≤ free_count self.old.tables.stages → HasNoneToFree self.old.plan → 4 ≤ self.old.plan.spare
            → IfErr result (λ why. IsDenial why → IsUndone self.old self.new (seen T.Shows stage.old) (seen T.Shows stage.new)) }
        ensures alone { Tells (seen T.Shows stage.old) → Agrees self.old (seen T.Shows stage.old).world → self.old.marked ≡ true → 2 ≤ free_count self.old.tables.stages → 4 ≤ self.old.plan.spare
            → HasRoomFor U.null_bytes self.old t.0 (stored_as U.value form bytes.now) → IsOneWrite self.old.slot (padded (stored_as U.value form bytes.now)) (seen T.Shows stage.old) (seen T.Shows stage.new) }
    {
        let Prepared { old, stored, room } = match self.prepare(stage, t, form, bytes) {
            Ok(prepared) => prepared,
            Err(fault) => return Err(fault),
        };
        if let Err(fault) = self.put_track(stage, room.places.track, form, bytes) {
            return Err(fault_of(fault));
        }
        let entry = stored.entry(room.places.track);
        let len = room
            .len
            .max(entry.pos.saturating_add(u32::from(entry.size)));
        self.stage_places(t, old, room.places.table, entry, len);
        Ok(())
    }

    /// Writes bytes as those of a track, as they are.
    pub fn write_stored<T: Stage>(
        &mut self,
        stage: &mut T,
        t: Track,
        bytes: &[u8],
    ) -> Result<(), LayerFault>
        requires whole { self.old.broken ≡ false }
        requires track { t.0 < track_count self.old.tables.layout.geo }
        requires some { 0 < length bytes.now }
        requires short { length bytes.now ≤ 65528 }
        requires agrees { AgreesIn self.old (seen T.Shows stage.old) }

        // At Ok the layer has these bytes of the track, and of each other one those that it had.
        ensures stores { OnOk result (StoresTrack U.null_bytes self.old self.new t.0 bytes.now (seen T.Shows stage.old) (seen T.Shows stage.new)) }
        ensures placed { OnOk result (PlacesTrack U.null_bytes self.old self.new t.0 bytes.now (seen T.Shows stage.old) (seen T.Shows stage.new)) }
        ensures marked { OnOk result (self.new.marked ≡ true) }
        ensures same { IsSameFile self.old self.new }

        // It is refused for want of room, with which all is kept, and by a call that failed: where that was one that reads,
        // all is kept, and any other breaks the layer.
        ensures refusal { IfErr result (IsStoreRefusal U.null_bytes self.old self.new (seen T.Shows stage.old) (seen T.Shows stage.new) t.0 bytes.now) }
        ensures grows { OnOk result (AddsInRoom (t.0 / 256) self.old self.new) }
        ensures stays { IfErr result (λ why. IsDenial why → StaysInRoom self.old self.new) }
        ensures kept { IfErr result (λ why. IsDenial why → KeepsMap U.null_bytes self.old self.new (seen T.Shows stage.old) (seen T.Shows stage.new)) }
        ensures unharmed { IfErr result (λ why. IsDenial why → KeepsUnharmed self.old self.new (seen T.Shows stage.old) (seen T.Shows stage.new)) }
        ensures still { 2 ≤ free_count self.old.tables.stages → HasNoneToFree self.old.plan → 4 ≤ self.old.plan.spare
            → IfErr result (λ why. IsDenial why → IsUndone self.old self.new (seen T.Shows stage.old) (seen T.Shows stage.new)) }
        ensures broken { self.new.broken ≡ is_broken_by result }
        ensures counts { CountsLayer result (seen T.Shows stage.old).faults (seen T.Shows stage.new).faults }

        // At each operation a stop leaves what it could leave before, or the layer's map as it was, or something of both.
        ensures stopped { StopsWithin U.null_bytes self.old (seen T.Shows stage.old) (seen T.Shows stage.new) }

        // So it does with the headers that it left before, or with the mark. Until the file is marked it leaves nothing else than it left
        // before.
        ensures marks { KeepsMark self.old (seen T.Shows stage.old) (seen T.Shows stage.new) }
        ensures others { OnlyIn self.old.slot (seen T.Shows stage.old) (seen T.Shows stage.new) }

        // Once the file is marked, where there are free stages and room, it is one write at most, and no sync.
        ensures alone { Tells (seen T.Shows stage.old) → Agrees self.old (seen T.Shows stage.old).world → self.old.marked ≡ true → 2 ≤ free_count self.old.tables.stages → 4 ≤ self.old.plan.spare
            → HasRoomFor U.null_bytes self.old t.0 bytes.now → IsOneWrite self.old.slot (padded bytes.now) (seen T.Shows stage.old) (seen T.Shows stage.new) }
    {
        self.store(stage, t, Form::Given, bytes)
    }

    /// Writes what bytes say as a track, where they are one.
    pub fn write<T: Stage>(
        &mut self,
        stage: &mut T,
        t: Track,
        bytes: &[u8],
    ) -> Result<(), LayerFault>
        requires whole { self.old.broken ≡ false }
        requires track { t.0 < track_count self.old.tables.layout.geo }
        requires long { length bytes.now ≤ 65535 }
        requires agrees { AgreesIn self.old (seen T.Shows stage.old) }

        // At Ok the bytes are a track, and the layer has what they say of it, and of each other one the bytes that it had.
        ensures stores { OnOk result (StoresTrack U.null_bytes self.old self.new t.0 (U.value bytes.now) (seen T.Shows stage.old) (seen T.Shows stage.new)) }
        ensures placed { OnOk result (PlacesTrack U.null_bytes self.old self.new t.0 (U.value bytes.now) (seen T.Shows stage.old) (seen T.Shows stage.new)) }
        ensures checked { OnOk result (U.fault self.old.tables.layout.geo t.0 bytes.now ≡ None) }
        ensures marked { OnOk result (self.new.marked ≡ true) }
        ensures same { IsSameFile self.old self.new }

        // Bytes that are no track are refused by their first fault, and nothing is done.
        ensures refusal { IfErr result (IsWriteRefusal U.null_bytes (U.fault self.old.tables.layout.geo t.0 bytes.now) self.old self.new (seen T.Shows stage.old) (seen T.Shows stage.new) t.0 (U.value bytes.now)) }
        ensures refused { (why : Fault_of) → U.fault self.old.tables.layout.geo t.0 bytes.now ≡ Some why
            → (result ≡ Err (LayerFault.Track why)) × (self.new ≡ self.old) × (seen T.Shows stage.new ≡ seen T.Shows stage.old) }
        ensures grows { OnOk result (AddsInRoom (t.0 / 256) self.old self.new) }
        ensures stays { IfErr result (λ why. IsHarmless why → StaysInRoom self.old self.new) }
        ensures kept { IfErr result (λ why. IsHarmless why → KeepsMap U.null_bytes self.old self.new (seen T.Shows stage.old) (seen T.Shows stage.new)) }
        ensures unharmed { IfErr result (λ why. IsHarmless why → KeepsUnharmed self.old self.new (seen T.Shows stage.old) (seen T.Shows stage.new)) }
        ensures still { 2 ≤ free_count self.old.tables.stages → HasNoneToFree self.old.plan → 4 ≤ self.old.plan.spare
            → IfErr result (λ why. IsHarmless why → IsUndone self.old self.new (seen T.Shows stage.old) (seen T.Shows stage.new)) }
        ensures broken { self.new.broken ≡ is_broken_by result }
        ensures counts { CountsLayer result (seen T.Shows stage.old).faults (seen T.Shows stage.new).faults }

        // At each operation a stop leaves what it could leave before, or the layer's map as it was, or something of both.
        ensures stopped { StopsWithin U.null_bytes self.old (seen T.Shows stage.old) (seen T.Shows stage.new) }

        // So it does with the headers that it left before, or with the mark. Until the file is marked it leaves nothing else than it left
        // before.
        ensures marks { KeepsMark self.old (seen T.Shows stage.old) (seen T.Shows stage.new) }
        ensures others { OnlyIn self.old.slot (seen T.Shows stage.old) (seen T.Shows stage.new) }

        // Once the file is marked, where there are free stages and room, it is one write at most, and no sync.
        ensures alone { Tells (seen T.Shows stage.old) → Agrees self.old (seen T.Shows stage.old).world → self.old.marked ≡ true → 2 ≤ free_count self.old.tables.stages → 4 ≤ self.old.plan.spare
            → HasRoomFor U.null_bytes self.old t.0 (U.value bytes.now) → IsOneWrite self.old.slot (padded (U.value bytes.now)) (seen T.Shows stage.old) (seen T.Shows stage.new) }
    {
        let layout = self.tables.layout();
        if let Err(fault) = U::check(&layout.geo, t, bytes) {
            return Err(LayerFault::Track(fault));
        }
        self.store(stage, t, Form::Value, bytes)
    }
}
