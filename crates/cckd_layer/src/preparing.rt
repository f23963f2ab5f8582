//! What a write needs before it changes anything: room among what is staged, the entry of its track, and places.
ghost use Rattle.cckd_layer.specs.Justified.{StaysInRoom};
ghost use Rattle.std.specs.Prelude.{◌≡◌, ◌⊎◌, ◌↔◌, ◌<◌, ◌≤◌, ◌/◌, ◌%◌, ◌^◌, [], List, length, IsTrue, IsSome, IfSome, IsOk, IfOk, OnOk, IfErr, OnErr, Ok, Err, None, true, false, max};
ghost use Rattle.std.specs.Option.{is_some};
ghost use Rattle.cckd_shelf.specs.Seen.{Seen, seen, Tells, Stays};
ghost use Rattle.cckd_shelf.specs.World.{World, IsSure, file_of};
ghost use Rattle.cckd_base.specs.declared.space.Extent.{Extent as Space_of};
ghost use Rattle.cckd_base.specs.Geometry.{track_count};
ghost use Rattle.cckd_base.specs.Image.{IsPlace};
ghost use Rattle.cckd_space.specs.Plan.{IsNeed};
ghost use Rattle.cckd_tables.specs.Stages.{free_count};
ghost use Rattle.cckd_tables.specs.Looking.{HasAlignedTable, with_cached};
ghost use Rattle.cckd_layer.specs.Mounted.{CanRead, IsRoomy, with_tables};
ghost use Rattle.cckd_layer.specs.Reads.{OfFile, OnlyReads, LooksUp, IsAtHand};
ghost use Rattle.cckd_layer.specs.Writes.{Agrees, AgreesWith, AgreesIn, KeepsMap, KeepsMapWith, IsAct, IsCommitted, IsSettled, CountsLayer, IsOutside, HaveNoPlaces, entry_now, claims_of, is_broken_by, with_plan};
ghost use Rattle.cckd_layer.specs.Preparing.{HasNoneToFree, IsRoom, SuitsFile, IsDenial, IsDeniedFor, IsNoRoomIn, IsUnplaced, IsUnwritten, IsUntouched, FindsRoom};
ghost use Rattle.cckd_layer.specs.Calm.{KeepsUnharmed};
ghost use Rattle.cckd_layer.specs.Taken.{FindsPlaces, TakesPlaces};
ghost use Rattle.cckd_layer.specs.Headed.{KeepsHeaders, StaysSteady};

use crate::claiming::Places;
use crate::hardening::fault_of;
use crate::layer::Layer;
use crate::reading::entry_of;
use cckd_base::{Full, GROUP_TRACKS, L2Entry, LayerFault, SEE_PARENT, TABLE_LEN, Track, Unit};
use cckd_shelf::{Slot, Stage};

/// How many pieces the places of a write may add.
const PLACED: usize = 4;

/// What a write is given.
#[derive(Clone, Copy)]
pub(crate) struct Room {
    pub(crate) places: Places,
    /// How long the file is, where a place may be given back.
    pub(crate) len: u32,
}

/// The length of a slot's file, which is below 4 GiB, where a table is wanted or an entry is staged, and else 0.
fn len_if<T: Stage>(
    stage: &mut T,
    slot: Slot,
    wanted: bool,
    staged: bool,
) -> Result<u32, LayerFault>
    ensures len { OfFile slot (λ file. (wanted ≡ true) ⊎ (staged ≡ true) → length file < 2 ^ 32 → IfOk result (λ n. n ≡ length file)) (seen T.Shows stage.old) }
    ensures refusal { IfErr result (λ why. why ≡ LayerFault.ReadFault) }
    ensures reads { OnlyReads result (seen T.Shows stage.old) (seen T.Shows stage.new) }
    ensures quiet { wanted ≡ false → staged ≡ false → seen T.Shows stage.new ≡ seen T.Shows stage.old }
{
    if !wanted && !staged {
        return Ok(0);
    }
    match stage.len(slot) {
        Ok(len) => Ok(len.min(u32::MAX as u64) as u32),
        Err(_) => Err(LayerFault::ReadFault),
    }
}

/// Whether a level-one word names a place at a multiple of 8.
fn is_table_place(word: u32) -> bool
    ensures { IsTrue result ↔ (IsPlace word × (word % 8 ≡ 0)) }
{
    word != 0 && word != SEE_PARENT && word % 8 == 0
}

impl<U: Unit> Layer<U> {
    /// Whether the group of a track has a table at a multiple of 8, or gets one.
    fn has_table(&self, t: Track) -> bool
        requires { t.0 < track_count self.now.tables.layout.geo }
        ensures has { IsTrue result → HasAlignedTable self.now.tables (t.0 / 256) }
        ensures lacks { (claims : List Space_of) (w : World) → AgreesWith claims self.now w → result ≡ false → HasAlignedTable self.now.tables (t.0 / 256) → ⊥ }
    {
        let _layout = self.tables.layout();
        is_table_place(self.tables.word(t.0 / GROUP_TRACKS))
    }

    /// Commits, where fewer than two more entries and words can be staged.
    pub(crate) fn make_free_stages<T: Stage>(&mut self, stage: &mut T) -> Result<(), LayerFault>
        requires whole { self.old.broken ≡ false }
        requires can_read { CanRead self.old (seen T.Shows stage.old) }
        ensures free { OnOk result (2 ≤ free_count self.new.tables.stages) }
        ensures still { 2 ≤ free_count self.old.tables.stages → IsOk result × (self.new ≡ self.old) × (seen T.Shows stage.new ≡ seen T.Shows stage.old) }
        ensures few { free_count self.old.tables.stages < 2 → OnOk result (IsCommitted self.old self.new) }
        ensures map { OnOk result (KeepsMap U.null_bytes self.old self.new (seen T.Shows stage.old) (seen T.Shows stage.new)) }
        ensures marked { OnOk result (self.new.marked ≡ self.old.marked) }
        ensures act { IsAct [] U.null_bytes self.old self.new (seen T.Shows stage.old) (seen T.Shows stage.new) }
        ensures headers { KeepsHeaders self.old (seen T.Shows stage.old) (seen T.Shows stage.new) }
        ensures steady { OnOk result (StaysSteady self.old self.new (seen T.Shows stage.old)) }
        ensures confined { StaysInRoom self.old self.new }
        ensures broken { self.new.broken ≡ is_broken_by result }
        ensures read { result ≡ Err LayerFault.ReadFault → (self.new ≡ self.old) × Stays (seen T.Shows stage.old) (seen T.Shows stage.new) }
        ensures refusal { IfErr result IsOutside }
        ensures counts { CountsLayer result (seen T.Shows stage.old).faults (seen T.Shows stage.new).faults }
    {
        if self.tables.free_stages() >= 2 {
            return Ok(());
        }
        match self.commit(stage) {
            Ok(()) => Ok(()),
            Err(fault) => Err(fault_of(fault)),
        }
    }

    /// The entry of a track, the staged one or that of the file.
    pub(crate) fn find_entry<T: Stage>(
        &mut self,
        stage: &mut T,
        t: Track,
    ) -> Result<L2Entry, LayerFault>
        requires track { t.0 < track_count self.old.tables.layout.geo }
        requires can_read { CanRead self.old (seen T.Shows stage.old) }
        ensures entry { Tells (seen T.Shows stage.old) → Agrees self.old (seen T.Shows stage.old).world
            → IfOk result (λ e. e ≡ entry_now self.old (seen T.Shows stage.old) t.0) }
        ensures rest { self.new ≡ with_tables self.old (with_cached self.old.tables self.new.tables.cached) }
        ensures looks { LooksUp t.0 self.old.tables self.new.tables }
        ensures map { KeepsMap U.null_bytes self.old self.new (seen T.Shows stage.old) (seen T.Shows stage.new) }
        ensures refusal { IfErr result (λ why. why ≡ LayerFault.ReadFault) }
        ensures reads { OnlyReads result (seen T.Shows stage.old) (seen T.Shows stage.new) }
        ensures quiet { IsAtHand t.0 self.old.tables → (seen T.Shows stage.new).calls ≡ (seen T.Shows stage.old).calls }
    {
        entry_of(&mut self.tables, stage, self.slot, t)
    }

    /// Claims the places of a write to a track, all or none.
    fn try_places<T: Stage>(
        &mut self,
        stage: &mut T,
        t: Track,
        need: Option<u32>,
    ) -> Result<Room, LayerFault>
        requires track { t.0 < track_count self.old.tables.layout.geo }
        requires need { IfSome need IsNeed }
        requires spare { 4 ≤ self.old.plan.spare }
        ensures rest { self.new ≡ with_plan self.old self.new.plan }
        ensures limit { self.new.plan.limit ≡ self.old.plan.limit }
        ensures size { self.new.plan.size ≤ max self.old.plan.limit self.old.plan.size }
        ensures room { IfOk result (IsRoom self.new t.0 need) }
        ensures suits { Tells (seen T.Shows stage.old) → Agrees self.old (seen T.Shows stage.old).world
            → IfOk result (λ room. SuitsFile self.new t.0 room (seen T.Shows stage.new).world) }
        ensures map { IfOk result (λ room. KeepsMapWith [] (claims_of need room.places) U.null_bytes self.old self.new (seen T.Shows stage.old) (seen T.Shows stage.new)) }
        ensures found { Tells (seen T.Shows stage.old) → Agrees self.old (seen T.Shows stage.old).world
            → IfOk result (λ room. FindsPlaces self.old t.0 need room.places self.new.plan) }
        ensures kept { OnErr result (KeepsMap U.null_bytes self.old self.new (seen T.Shows stage.old) (seen T.Shows stage.new)) }
        ensures full { Tells (seen T.Shows stage.old) → Agrees self.old (seen T.Shows stage.old).world → IfErr result (IsDeniedFor self.old t.0 need) }
        ensures kind { IfErr result IsDenial }
        ensures reads { OnlyReads result (seen T.Shows stage.old) (seen T.Shows stage.new) }
    {
        let wanted = !self.has_table(t);
        let staged = self.tables.staged_entry(t).is_some();
        let len = match len_if(stage, self.slot, wanted, staged) {
            Ok(len) => len,
            Err(fault) => return Err(fault),
        };
        match self.claim_places(need, wanted, len) {
            Ok(places) => Ok(Room { places, len }),
            Err(full) => Err(LayerFault::Full(full)),
        }
    }

    /// Whether the places of a write can be kept.
    fn has_spare(&mut self) -> bool
        ensures answer { IsTrue result ↔ (4 ≤ self.old.plan.spare) }
        ensures same { self.new ≡ self.old }
        ensures roomy { IsRoomy self.old.tables self.old.plan }
    {
        self.space.has_spare(PLACED)
    }

    /// The same once all is hardened, where nothing waits to be freed.
    fn place_hardened<T: Stage>(
        &mut self,
        stage: &mut T,
        t: Track,
        need: Option<u32>,
    ) -> Result<Room, LayerFault>
        requires track { t.0 < track_count self.old.tables.layout.geo }
        requires need { IfSome need IsNeed }
        ensures rest { self.new ≡ with_plan self.old self.new.plan }
        ensures limit { self.new.plan.limit ≡ self.old.plan.limit }
        ensures size { self.new.plan.size ≤ max self.old.plan.limit self.old.plan.size }
        ensures room { IfOk result (IsRoom self.new t.0 need) }
        ensures suits { Tells (seen T.Shows stage.old) → Agrees self.old (seen T.Shows stage.old).world
            → IfOk result (λ room. SuitsFile self.new t.0 room (seen T.Shows stage.new).world) }
        ensures map { IfOk result (λ room. KeepsMapWith [] (claims_of need room.places) U.null_bytes self.old self.new (seen T.Shows stage.old) (seen T.Shows stage.new)) }
        ensures found { Tells (seen T.Shows stage.old) → Agrees self.old (seen T.Shows stage.old).world
            → IfOk result (λ room. FindsPlaces self.old t.0 need room.places self.new.plan) }
        ensures kept { OnErr result (KeepsMap U.null_bytes self.old self.new (seen T.Shows stage.old) (seen T.Shows stage.new)) }
        ensures full { IsSettled self.old → IfErr result (IsNoRoomIn self.old self.new (seen T.Shows stage.old) (seen T.Shows stage.new) t.0 need) }
        ensures kind { IfErr result IsDenial }
        ensures reads { OnlyReads result (seen T.Shows stage.old) (seen T.Shows stage.new) }
    {
        if !self.has_spare() {
            return Err(LayerFault::Full(Full {
                need: need.unwrap_or(TABLE_LEN),
                largest: 0,
                room: 0,
            }));
        }
        self.try_places(stage, t, need)
    }

    /// Whether something waits to be freed.
    fn waits(&self) -> bool
        ensures none { result ≡ false → HasNoneToFree self.now.plan }
        ensures some { HasNoneToFree self.now.plan → result ≡ false }
    {
        self.space.has_leaving() || self.space.has_pending()
    }

    /// Claims the places of a write to a track, all or none; or answers nothing, where something may be freed first, or few
    /// pieces may still be added.
    fn place_at_once<T: Stage>(
        &mut self,
        stage: &mut T,
        t: Track,
        need: Option<u32>,
    ) -> Result<Option<Room>, LayerFault>
        requires track { t.0 < track_count self.old.tables.layout.geo }
        requires need { IfSome need IsNeed }
        ensures rest { self.new ≡ with_plan self.old self.new.plan }
        ensures limit { self.new.plan.limit ≡ self.old.plan.limit }
        ensures size { self.new.plan.size ≤ max self.old.plan.limit self.old.plan.size }
        ensures room { IfOk result (λ o. IfSome o (IsRoom self.new t.0 need)) }
        ensures suits { Tells (seen T.Shows stage.old) → Agrees self.old (seen T.Shows stage.old).world
            → IfOk result (λ o. IfSome o (λ room. SuitsFile self.new t.0 room (seen T.Shows stage.new).world)) }
        ensures map { IfOk result (λ o. IfSome o (λ room. KeepsMapWith [] (claims_of need room.places) U.null_bytes self.old self.new (seen T.Shows stage.old) (seen T.Shows stage.new))) }
        ensures found { Tells (seen T.Shows stage.old) → Agrees self.old (seen T.Shows stage.old).world
            → IfOk result (λ o. IfSome o (λ room. FindsPlaces self.old t.0 need room.places self.new.plan)) }
        ensures kept { IsUnplaced result → KeepsMap U.null_bytes self.old self.new (seen T.Shows stage.old) (seen T.Shows stage.new) }
        ensures full { IfErr result (IsNoRoomIn self.old self.new (seen T.Shows stage.old) (seen T.Shows stage.new) t.0 need) }
        ensures kind { IfErr result IsDenial }
        ensures reads { OnlyReads result (seen T.Shows stage.old) (seen T.Shows stage.new) }
        ensures waits { HasNoneToFree self.old.plan → 4 ≤ self.old.plan.spare → result ≡ Ok None → ⊥ }
        ensures finds { Tells (seen T.Shows stage.old) → Agrees self.old (seen T.Shows stage.old).world → FindsRoom self.old t.0 need
            → 4 ≤ self.old.plan.spare → result ≡ Ok None → ⊥ }
    {
        if !self.has_spare() {
            return Ok(None);
        }
        let waits = self.waits();
        let tried = self.try_places(stage, t, need);
        if !waits {
            return match tried {
                Ok(room) => Ok(Some(room)),
                Err(fault) => Err(fault),
            };
        }
        match tried {
            Ok(room) => Ok(Some(room)),
            Err(fault) => match fault {
                LayerFault::Full(_) => Ok(None),
                fault => Err(fault),
            },
        }
    }

    /// Claims the places of a write to a track, all or none. Where they aren't there and something waits to be freed, or few
    /// pieces may still be added, it hardens, and tries again.
    pub(crate) fn find_places<T: Stage>(
        &mut self,
        stage: &mut T,
        t: Track,
        need: Option<u32>,
    ) -> Result<Room, LayerFault>
        requires whole { self.old.broken ≡ false }
        requires can_read { CanRead self.old (seen T.Shows stage.old) }
        requires track { t.0 < track_count self.old.tables.layout.geo }
        requires need { IfSome need IsNeed }
        ensures room { IfOk result (IsRoom self.new t.0 need) }
        ensures free { 2 ≤ free_count self.old.tables.stages → OnOk result (2 ≤ free_count self.new.tables.stages) }
        ensures suits { Tells (seen T.Shows stage.old) → Agrees self.old (seen T.Shows stage.old).world
            → IfOk result (λ room. SuitsFile self.new t.0 room (seen T.Shows stage.new).world) }
        ensures map { IfOk result (λ room. KeepsMapWith [] (claims_of need room.places) U.null_bytes self.old self.new (seen T.Shows stage.old) (seen T.Shows stage.new)) }
        ensures takes { Tells (seen T.Shows stage.old) → Agrees self.old (seen T.Shows stage.old).world
            → IfOk result (λ room. TakesPlaces U.null_bytes self.old self.new t.0 need room.places (seen T.Shows stage.old) (seen T.Shows stage.new)) }
        ensures kept { IfErr result (λ why. IsDenial why → KeepsMap U.null_bytes self.old self.new (seen T.Shows stage.old) (seen T.Shows stage.new)) }
        ensures unharmed { IfErr result (λ why. IsDenial why → KeepsUnharmed self.old self.new (seen T.Shows stage.old) (seen T.Shows stage.new)) }
        ensures full { IfErr result (IsNoRoomIn self.old self.new (seen T.Shows stage.old) (seen T.Shows stage.new) t.0 need) }
        ensures kind { IfErr result IsUnwritten }
        ensures act { IsAct [] U.null_bytes self.old self.new (seen T.Shows stage.old) (seen T.Shows stage.new) }
        ensures headers { KeepsHeaders self.old (seen T.Shows stage.old) (seen T.Shows stage.new) }
        ensures steady { OnOk result (StaysSteady self.old self.new (seen T.Shows stage.old)) }
        ensures confined { StaysInRoom self.old self.new }
        ensures broken { self.new.broken ≡ is_broken_by result }
        ensures counts { CountsLayer result (seen T.Shows stage.old).faults (seen T.Shows stage.new).faults }

        // Where nothing waits to be freed, or the places are there, nothing is done.
        ensures still { HasNoneToFree self.old.plan → 4 ≤ self.old.plan.spare → IsUntouched self.old self.new (seen T.Shows stage.old) (seen T.Shows stage.new) }
        ensures finds { Tells (seen T.Shows stage.old) → Agrees self.old (seen T.Shows stage.old).world → FindsRoom self.old t.0 need
            → 4 ≤ self.old.plan.spare → IsUntouched self.old self.new (seen T.Shows stage.old) (seen T.Shows stage.new) }
    {
        let placed = match self.place_at_once(stage, t, need) {
            Ok(placed) => placed,
            Err(fault) => return Err(fault),
        };
        if let Some(room) = placed {
            return Ok(room);
        }
        if let Err(fault) = self.harden_anew(stage) {
            return Err(fault);
        }
        self.place_hardened(stage, t, need)
    }
}
