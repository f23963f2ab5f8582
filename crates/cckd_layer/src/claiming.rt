//! Places that are claimed for what is to be written, and new tables that are staged.
ghost use Rattle.std.specs.Prelude.{◌≡◌, ◌⊎◌, ◌+◌, ◌<◌, ◌≤◌, ◌/◌, ◌%◌, [], ◌∷◌, ◌++◌, ℕ, List, length, None, Some, IsSome, IfSome, IfOk, OnOk, IfErr, OnErr, true, max};
ghost use Rattle.std.specs.Option.{is_some};
ghost use Rattle.cckd_shelf.specs.Seen.{Seen};
ghost use Rattle.cckd_base.specs.declared.space.Extent.{Extent as Space_of};
ghost use Rattle.cckd_shelf.specs.World.{file_of};
ghost use Rattle.cckd_base.specs.Geometry.{track_count};
ghost use Rattle.cckd_base.specs.Entry.{bytes_by_entry};
ghost use Rattle.cckd_space.specs.Plan.{IsNeed, IsSound, place_of};
ghost use Rattle.cckd_tables.specs.Staging.{IsStaged, IsMoved, entry_for};
ghost use Rattle.cckd_tables.specs.Stages.{free_count};
ghost use Rattle.cckd_tables.specs.Looking.{HasAlignedTable};
ghost use Rattle.cckd_layer.specs.Acts.{MayGiveBack, EndsBefore};
ghost use Rattle.cckd_layer.specs.Current.{claim};
ghost use Rattle.cckd_layer.specs.Puts.{IsReserved, HasNoRoom};
ghost use Rattle.cckd_layer.specs.Taken.{ArePlaced, place_found, LeavesTable};
ghost use Rattle.cckd_layer.specs.Writes.{KeepsMapWith, CanStage, StoresIn, FreesOld, entry_now, claim_of, table_need, claims_of, IsGranted, IsDenied, HaveNoPlaces, with_plan, with_table, with_track};

use crate::layer::Layer;
use crate::staging::{give_place_back, leave_place};
use cckd_base::{Full, L2Entry, SEE_PARENT, TABLE_LEN, Track, Unit};
use cckd_space::Space;

/// The places of a write.
#[derive(Clone, Copy)]
pub(crate) struct Places {
    /// That of the group's new table, where it gets one.
    pub(crate) table: Option<u32>,
    /// That of the track's bytes, where any are stored.
    pub(crate) track: Option<u32>,
}

/// Lets the space at the position of a track's entry go: that of a staged one is given back, and any other leaves.
fn free_old(space: &mut Space, staged: Option<L2Entry>, pos: u32, len: u32)
    ensures frees { FreesOld staged pos len space.old space.new }
    ensures limit { space.new.limit ≡ space.old.limit }
    ensures size { space.new.size ≤ space.old.size }
    ensures spent { space.old.spare ≤ space.new.spare }
    ensures sound { IsSound space.new }
{
    if staged.is_none() {
        leave_place(space, pos);
        return;
    }
    let _pieces = space.pieces();
    if pos != 0 && pos != SEE_PARENT {
        give_place_back(space, pos, len);
    }
}

impl<U: Unit> Layer<U> {
    /// Claims a place for `need` bytes.
    pub(crate) fn claim_place(&mut self, need: u32) -> Result<u32, Full>
        requires need { IsNeed need }
        requires spare { 2 ≤ self.old.plan.spare }
        ensures place { IfOk result (λ pos. pos ≡ place_of need self.old.plan.pieces) }
        ensures aligned { IfOk result (λ pos. pos % 8 ≡ 0) }
        ensures reserved { OnOk result (IsReserved need self.old.plan self.new.plan) }
        ensures rest { self.new ≡ with_plan self.old self.new.plan }
        ensures limit { self.new.plan.limit ≡ self.old.plan.limit }
        ensures size { self.new.plan.size ≤ max self.old.plan.limit self.old.plan.size }
        ensures map { (claims : List Space_of) (w : Seen) → IfOk result (λ pos. KeepsMapWith claims (claim pos need ∷ claims) U.null_bytes self.old self.new w w) }
        ensures full { IfErr result (HasNoRoom need self.old.plan) }
        ensures same { OnErr result (self.new ≡ self.old) }
        ensures spent { self.old.plan.spare ≤ self.new.plan.spare + 2 }
        ensures sound { IsSound self.new.plan }
    {
        self.space.place(need)
    }

    /// Gives a claimed place back. The file is `len` bytes long.
    pub(crate) fn unclaim(&mut self, pos: u32, len: u32)
        ensures gives { MayGiveBack pos len self.old.plan self.new.plan }
        ensures rest { self.new ≡ with_plan self.old self.new.plan }
        ensures limit { self.new.plan.limit ≡ self.old.plan.limit }
        ensures size { self.new.plan.size ≤ max self.old.plan.limit self.old.plan.size }
        ensures map { (claims : List Space_of) (n : ℕ) (w : Seen) → len ≡ length (file_of w.world self.old.slot) → EndsBefore (pos + n) len self.old.plan
            → KeepsMapWith (claim pos n ∷ claims) claims U.null_bytes self.old self.new w w }
        ensures spent { self.old.plan.spare ≤ self.new.plan.spare }
    {
        give_place_back(&mut self.space, pos, len);
    }

    /// Stages a new table for a group at a place that is claimed. The group's old table leaves.
    pub(crate) fn stage_table(&mut self, group: u32, pos: u32)
        requires group { group < self.old.tables.layout.groups }
        requires free { IsMoved group self.old.tables.stages ⊎ (0 < free_count self.old.tables.stages) }
        requires place { pos % 8 ≡ 0 }
        ensures staged { self.new ≡ with_table group pos self.old self.new.plan }
        ensures limit { self.new.plan.limit ≡ self.old.plan.limit }
        ensures size { self.new.plan.size ≡ self.old.plan.size }
        ensures leaves { LeavesTable group (Some pos) self.old self.new.plan }
        ensures free { free_count self.old.tables.stages ≤ free_count self.new.tables.stages + 1 }
        ensures table { HasAlignedTable self.new.tables group }
        ensures map { (claims : List Space_of) (w : Seen) → (HasAlignedTable self.old.tables group → ⊥)
            → KeepsMapWith (claim pos 2048 ∷ claims) claims U.null_bytes self.old self.new w w }
        ensures spent { self.new.plan.spare ≡ self.old.plan.spare }
    {
        let _layout = self.tables.layout();
        let old = self.tables.word(group);
        leave_place(&mut self.space, old);
        self.tables.stage_word(group, pos);
        self.hardened = false;
    }

    /// Stages an entry for a track, which had one at this position. The file is `len` bytes long, which isn't asked where
    /// no entry was staged for the track.
    pub(crate) fn stage_track(&mut self, t: Track, pos: u32, entry: L2Entry, len: u32)
        requires track { t.0 < track_count self.old.tables.layout.geo }
        requires free { IsStaged t.0 self.old.tables.stages ⊎ (0 < free_count self.old.tables.stages) }
        requires table { HasAlignedTable self.old.tables (t.0 / 256) }
        ensures staged { self.new ≡ with_track t.0 entry self.old self.new.plan }
        ensures frees { FreesOld (entry_for t.0 self.old.tables.stages.entries) pos len self.old.plan self.new.plan }
        ensures limit { self.new.plan.limit ≡ self.old.plan.limit }
        ensures size { self.new.plan.size ≤ self.old.plan.size }
        ensures map { (claims rest : List Space_of) (w : Seen) → CanStage claims rest self.old t.0 entry w
            → pos ≡ (entry_now self.old w t.0).pos → (IsStaged t.0 self.old.tables.stages → len ≡ length (file_of w.world self.old.slot))
            → StoresIn rest U.null_bytes self.old self.new t.0 (bytes_by_entry U.null_bytes self.old.tables.layout (file_of w.world self.old.slot) t.0 entry) w w }
        ensures spent { self.old.plan.spare ≤ self.new.plan.spare }
    {
        let staged = self.tables.staged_entry(t);
        free_old(&mut self.space, staged, pos, len);
        self.tables.stage_entry(t, entry);
        self.hardened = false;
    }

    /// Claims a place for a new table, where one is wanted.
    fn claim_table(&mut self, wanted: bool) -> Result<Option<u32>, Full>
        requires spare { 2 ≤ self.old.plan.spare }
        ensures rest { self.new ≡ with_plan self.old self.new.plan }
        ensures limit { self.new.plan.limit ≡ self.old.plan.limit }
        ensures size { self.new.plan.size ≤ max self.old.plan.limit self.old.plan.size }
        ensures map { (w : Seen) → IfOk result (λ place. KeepsMapWith [] (claim_of (Some 2048) place) U.null_bytes self.old self.new w w) }
        ensures wanted { IfOk result (λ place. is_some place ≡ wanted) }
        ensures place { IfOk result (λ place. IfSome place (λ pos. pos ≡ place_of 2048 self.old.plan.pieces)) }
        ensures aligned { IfOk result (λ place. IfSome place (λ pos. pos % 8 ≡ 0)) }
        ensures found { IfOk result (λ place. place ≡ place_found (table_need wanted) self.old.plan.pieces) }
        ensures granted { OnOk result (IsGranted (table_need wanted) self.old.plan self.new.plan) }
        ensures denied { IfErr result (IsDenied (table_need wanted) self.old.plan) }
        ensures same { OnErr result (self.new ≡ self.old) }
        ensures spent { self.old.plan.spare ≤ self.new.plan.spare + 2 }
    {
        if !wanted {
            return Ok(None);
        }
        match self.claim_place(TABLE_LEN) {
            Ok(pos) => Ok(Some(pos)),
            Err(full) => Err(full),
        }
    }

    /// Claims a place for the bytes of a track, where any are stored.
    fn claim_track(&mut self, need: Option<u32>) -> Result<Option<u32>, Full>
        requires need { IfSome need IsNeed }
        requires spare { 2 ≤ self.old.plan.spare }
        ensures rest { self.new ≡ with_plan self.old self.new.plan }
        ensures limit { self.new.plan.limit ≡ self.old.plan.limit }
        ensures size { self.new.plan.size ≤ max self.old.plan.limit self.old.plan.size }
        ensures map { (claims : List Space_of) (w : Seen) → IfOk result (λ place. KeepsMapWith claims (claim_of need place ++ claims) U.null_bytes self.old self.new w w) }
        ensures wanted { IfOk result (λ place. is_some place ≡ is_some need) }
        ensures found { IfOk result (λ place. place ≡ place_found need self.old.plan.pieces) }
        ensures granted { OnOk result (IsGranted need self.old.plan self.new.plan) }
        ensures denied { IfErr result (IsDenied need self.old.plan) }
        ensures same { OnErr result (self.new ≡ self.old) }
    {
        let Some(need) = need else {
            return Ok(None);
        };
        match self.claim_place(need) {
            Ok(pos) => Ok(Some(pos)),
            Err(full) => Err(full),
        }
    }

    /// Gives the place of a new table back, where there is one. The file is `len` bytes long.
    fn unclaim_table(&mut self, table: Option<u32>, len: u32)
        ensures rest { self.new ≡ with_plan self.old self.new.plan }
        ensures limit { self.new.plan.limit ≡ self.old.plan.limit }
        ensures size { self.new.plan.size ≤ max self.old.plan.limit self.old.plan.size }
        ensures map { (w : Seen) → (IsSome table → len ≡ length (file_of w.world self.old.slot)) → IfSome table (λ pos. EndsBefore (pos + 2048) len self.old.plan)
            → KeepsMapWith (claim_of (Some 2048) table) [] U.null_bytes self.old self.new w w }
    {
        if let Some(pos) = table {
            self.unclaim(pos, len);
        }
    }

    /// Claims the places of a write, all or none: that of `need` bytes, and that of a new table where one is wanted. The
    /// file is `len` bytes long, which isn't asked where no table is wanted.
    pub(crate) fn claim_places(
        &mut self,
        need: Option<u32>,
        wanted: bool,
        len: u32,
    ) -> Result<Places, Full>
        requires need { IfSome need IsNeed }
        requires spare { 4 ≤ self.old.plan.spare }
        ensures rest { self.new ≡ with_plan self.old self.new.plan }
        ensures limit { self.new.plan.limit ≡ self.old.plan.limit }
        ensures size { self.new.plan.size ≤ max self.old.plan.limit self.old.plan.size }
        ensures table { IfOk result (λ places. is_some places.table ≡ wanted) }
        ensures aligned { IfOk result (λ places. IfSome places.table (λ pos. pos % 8 ≡ 0)) }
        ensures track { IfOk result (λ places. is_some places.track ≡ is_some need) }
        ensures found { IfOk result (λ places. ArePlaced wanted need places self.old.plan self.new.plan) }
        ensures map { (w : Seen) → IfOk result (λ places. KeepsMapWith [] (claims_of need places) U.null_bytes self.old self.new w w) }

        // Where one has no place, the layer agrees with its file as before.
        ensures full { IfErr result (HaveNoPlaces wanted need self.old.plan) }
        ensures kept { (w : Seen) → (wanted ≡ true → len ≡ length (file_of w.world self.old.slot))
            → OnErr result (KeepsMapWith [] [] U.null_bytes self.old self.new w w) }
    {
        let table = match self.claim_table(wanted) {
            Ok(table) => table,
            Err(full) => return Err(full),
        };
        match self.claim_track(need) {
            Ok(track) => Ok(Places { table, track }),
            Err(full) => {
                self.unclaim_table(table, len);
                Err(full)
            }
        }
    }
}
