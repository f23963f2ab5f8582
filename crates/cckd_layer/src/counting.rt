//! How many tracks a layer has.
ghost use Rattle.std.specs.Prelude.{◌≡◌, ◌+◌, ◌*◌, ◌/◌, ◌≤◌, ◌==◌, if◌then◌else◌, false, IfOk, IfErr};
ghost use Rattle.cckd_shelf.specs.Seen.{seen};
ghost use Rattle.cckd_base.specs.Geometry.{track_count};
ghost use Rattle.cckd_base.specs.Entry.{see_parent};
ghost use Rattle.cckd_tables.specs.Looking.{with_cached};
ghost use Rattle.cckd_layer.specs.Held.{held};
ghost use Rattle.cckd_layer.specs.Mounted.{CanRead, ReadsFrom, with_tables};
ghost use Rattle.cckd_layer.specs.Reads.{OfFile, OnlyReads, tracks_in};

use crate::layer::Layer;
use crate::reading::entry_of;
use cckd_base::{GROUP_TRACKS, L2Entry, LayerFault, Track, Unit};
use cckd_shelf::{Slot, Stage};
use cckd_tables::Tables;

/// 1 for the entry of a track that has bytes, and 0 for one that is looked up below.
fn one_for(entry: L2Entry) -> u32
    ensures { result ≡ (if entry.pos == see_parent then 0 else 1) }
{
    if entry.is_parent() { 0 } else { 1 }
}

/// How many tracks of a group have bytes, from one track up to another, by at most one read.
fn count_between<U: Unit, T: Stage>(
    tables: &mut Tables,
    stage: &mut T,
    slot: Slot,
    from: u32,
    to: u32,
) -> Result<u32, LayerFault>
    requires order { from ≤ to }
    requires tracks { to ≤ track_count tables.old.layout.geo }
    requires group { to ≤ 256 * (from / 256) + 256 }
    requires can_read { OfFile slot (ReadsFrom tables.old) (seen T.Shows stage.old) }
    ensures count { OfFile slot (λ file. IfOk result (λ n. n
        + tracks_in (held U.null_bytes tables.old.layout tables.old.stages file) from
        ≡ tracks_in (held U.null_bytes tables.old.layout tables.old.stages file) to)) (seen T.Shows stage.old) }
    ensures few { IfOk result (λ n. n + from ≤ to) }
    ensures rest { tables.new ≡ with_cached tables.old tables.new.cached }
    ensures can_read { OfFile slot (ReadsFrom tables.new) (seen T.Shows stage.new) }
    ensures refusal { IfErr result (λ why. why ≡ LayerFault.ReadFault) }
    ensures reads { OnlyReads result (seen T.Shows stage.old) (seen T.Shows stage.new) }
    ensures called { (seen T.Shows stage.new).calls ≤ (seen T.Shows stage.old).calls + 1 }
{
    let mut count = 0;
    for number in from..to {
        match entry_of(tables, stage, slot, Track(number)) {
            Ok(entry) => count += one_for(entry),
            Err(fault) => return Err(fault),
        }
    }
    Ok(count)
}

/// How many tracks have bytes, by at most one read for each group.
fn count_all<U: Unit, T: Stage>(
    tables: &mut Tables,
    stage: &mut T,
    slot: Slot,
) -> Result<u32, LayerFault>
    requires can_read { OfFile slot (ReadsFrom tables.old) (seen T.Shows stage.old) }
    ensures count { OfFile slot (λ file. IfOk result (λ n. n
        ≡ tracks_in (held U.null_bytes tables.old.layout tables.old.stages file) (track_count tables.old.layout.geo))) (seen T.Shows stage.old) }
    ensures few { IfOk result (λ n. n ≤ track_count tables.old.layout.geo) }
    ensures rest { tables.new ≡ with_cached tables.old tables.new.cached }
    ensures can_read { OfFile slot (ReadsFrom tables.new) (seen T.Shows stage.new) }
    ensures refusal { IfErr result (λ why. why ≡ LayerFault.ReadFault) }
    ensures reads { OnlyReads result (seen T.Shows stage.old) (seen T.Shows stage.new) }
    ensures called { (seen T.Shows stage.new).calls ≤ (seen T.Shows stage.old).calls + tables.old.layout.groups }
{
    let layout = tables.layout();
    let tracks = layout.geo.tracks();
    let mut count = 0;
    for group in 0..layout.groups {
        let from = GROUP_TRACKS * group;
        let to = (from + GROUP_TRACKS).min(tracks);
        match count_between::<U, T>(tables, stage, slot, from, to) {
            Ok(more) => count += more,
            Err(fault) => return Err(fault),
        }
    }
    Ok(count)
}

impl<U: Unit> Layer<U> {
    /// How many tracks the layer has: those that aren't looked up below.
    pub fn count<T: Stage>(&mut self, stage: &mut T) -> Result<u32, LayerFault>
        requires whole { self.old.broken ≡ false }
        requires can_read { CanRead self.old (seen T.Shows stage.old) }
        ensures count { OfFile self.old.slot (λ file. IfOk result (λ n. n
            ≡ tracks_in (held U.null_bytes self.old.tables.layout self.old.tables.stages file) (track_count self.old.tables.layout.geo))) (seen T.Shows stage.old) }
        ensures few { IfOk result (λ n. n ≤ track_count self.old.tables.layout.geo) }
        ensures refusal { IfErr result (λ why. why ≡ LayerFault.ReadFault) }

        // What it does beside: of the tables only the cached ones change, and each is read at most once.
        ensures rest { self.new ≡ with_tables self.old (with_cached self.old.tables self.new.tables.cached) }
        ensures can_read { CanRead self.new (seen T.Shows stage.new) }
        ensures reads { OnlyReads result (seen T.Shows stage.old) (seen T.Shows stage.new) }
        ensures called { (seen T.Shows stage.new).calls ≤ (seen T.Shows stage.old).calls + self.old.tables.layout.groups }
    {
        count_all::<U, T>(&mut self.tables, stage, self.slot)
    }
}
