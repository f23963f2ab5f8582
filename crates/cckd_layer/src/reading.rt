//! The tracks of a layer, from their entries to their bytes.
ghost use Rattle.std.specs.Prelude.{◌≡◌, ◌+◌, ◌≤◌, ◌<◌, ◌/◌, length, take, Some, None, IfOk, OnOk, IfErr, false};
ghost use Rattle.std.specs.Option.{option_map};
ghost use Rattle.cckd_shelf.specs.Seen.{seen};
ghost use Rattle.cckd_base.specs.Geometry.{track_count, IsLayout, IsNullFormat};
ghost use Rattle.cckd_base.specs.Entry.{bytes_by_entry};
ghost use Rattle.cckd_base.specs.Misfit.{entry_misfit};
ghost use Rattle.cckd_tables.specs.Cached.{IsCached};
ghost use Rattle.cckd_tables.specs.Looking.{NeedsTable, IsEntryOf, with_cached};
ghost use Rattle.cckd_layer.specs.Mounted.{ReadsFrom};
ghost use Rattle.cckd_layer.specs.Reads.{OfFile, Answers, fault_in, CheckRefuses, IsAccepted, IsReadFault, IsReadRefusal, OnlyReads, LooksUp, IsAtHand, LooksOnce};

use crate::held::Held;
use crate::layer::Layer;
use cckd_base::{L2Entry, LayerFault, Layout, Track, Unit};
use cckd_shelf::{Slot, Stage};
use cckd_tables::Tables;

/// The format of a null entry; that of the header where no null track of the device has it.
fn format_of(l: &Layout, entry: L2Entry) -> u8
    requires { IsLayout l.now }
    ensures known { IsNullFormat l.now.geo result }
    ensures value { IsNullFormat l.now.geo entry.len → result ≡ entry.len }
{
    entry.null_format(&l.geo).unwrap_or(l.null_fmt)
}

/// The bytes that an entry gives a track, at the front of `out`, by at most one read.
pub(crate) fn bytes_by<U: Unit, T: Stage>(
    stage: &mut T,
    slot: Slot,
    l: &Layout,
    t: Track,
    entry: L2Entry,
    out: &mut [u8],
) -> Result<Held, LayerFault>
    requires layout { IsLayout l.now }
    requires track { t.0 < track_count l.now.geo }
    requires entry { OfFile slot (λ file. entry_misfit l.now (length file) t.0 entry ≡ None) (seen T.Shows stage.old) }
    requires room { 65536 ≤ length out.old }
    ensures answer { OfFile slot (λ file. IfOk result (λ held. Answers
        (bytes_by_entry U.null_bytes l.now file t.0 entry) held out.old out.new)) (seen T.Shows stage.old) }
    ensures null { IfOk result (λ held. entry.pos ≡ 0 → IsAccepted (U.fault l.now.geo t.0) out.new held) }
    ensures refusal { IfErr result (IsReadRefusal None) }
    ensures reads { OnlyReads result (seen T.Shows stage.old) (seen T.Shows stage.new) }
    ensures called { (seen T.Shows stage.new).calls ≤ (seen T.Shows stage.old).calls + 1 }
{
    if entry.is_parent() {
        return Ok(Held::Below);
    }
    if entry.is_null() {
        let len = U::null(&l.geo, t, format_of(l, entry), out);
        return Ok(Held::Here { len });
    }
    let bytes = &mut out[..usize::from(entry.len)];
    let Ok(()) = stage.read(slot, u64::from(entry.pos), bytes) else {
        return Err(LayerFault::ReadFault);
    };
    Ok(Held::Here { len: entry.len })
}

/// Checks the stored bytes at the front of `out`, and makes them what they say.
fn settle<U: Unit>(l: &Layout, t: Track, len: u16, out: &mut [u8]) -> Result<Held, LayerFault>
    requires layout { IsLayout l.now }
    requires track { t.0 < track_count l.now.geo }
    requires room { len ≤ length out.old }
    ensures answer { IfOk result (λ held. Answers (Some (U.value (take len out.old))) held out.old out.new) }
    ensures checked { OnOk result (U.fault l.now.geo t.0 (take len out.old) ≡ None) }
    ensures accepted { IfOk result (IsAccepted (U.fault l.now.geo t.0) out.new) }
    ensures refusal { IfErr result (λ why. CheckRefuses (U.fault l.now.geo t.0 (take len out.old)) why) }
{
    let bytes = &mut out[..usize::from(len)];
    match U::check(&l.geo, t, bytes) {
        Ok(()) => {
            U::settle(bytes);
            Ok(Held::Here { len })
        }
        Err(fault) => Err(LayerFault::Track(fault)),
    }
}

/// The value that an entry gives a track, at the front of `out`, by at most one read.
pub(crate) fn value_by<U: Unit, T: Stage>(
    stage: &mut T,
    slot: Slot,
    l: &Layout,
    t: Track,
    entry: L2Entry,
    out: &mut [u8],
) -> Result<Held, LayerFault>
    requires layout { IsLayout l.now }
    requires track { t.0 < track_count l.now.geo }
    requires entry { OfFile slot (λ file. entry_misfit l.now (length file) t.0 entry ≡ None) (seen T.Shows stage.old) }
    requires room { 65536 ≤ length out.old }
    ensures answer { OfFile slot (λ file. IfOk result (λ held. Answers
        (option_map U.value (bytes_by_entry U.null_bytes l.now file t.0 entry)) held out.old out.new)) (seen T.Shows stage.old) }
    ensures checked { OfFile slot (λ file. OnOk result
        (fault_in (U.fault l.now.geo t.0) (bytes_by_entry U.null_bytes l.now file t.0 entry) ≡ None)) (seen T.Shows stage.old) }
    ensures refusal { OfFile slot (λ file. IfErr result (IsReadRefusal
        (fault_in (U.fault l.now.geo t.0) (bytes_by_entry U.null_bytes l.now file t.0 entry)))) (seen T.Shows stage.old) }
    ensures accepted { IfOk result (IsAccepted (U.fault l.now.geo t.0) out.new) }
    ensures kind { IfErr result IsReadFault }
    ensures reads { OnlyReads result (seen T.Shows stage.old) (seen T.Shows stage.new) }
    ensures called { (seen T.Shows stage.new).calls ≤ (seen T.Shows stage.old).calls + 1 }
{
    match bytes_by::<U, T>(stage, slot, l, t, entry, out) {
        Ok(Held::Here { len }) if !entry.is_null() => settle::<U>(l, t, len, out),
        answer => answer,
    }
}

/// The entry of a track, the staged one or that of the file, by at most one read.
pub(crate) fn entry_of<T: Stage>(
    tables: &mut Tables,
    stage: &mut T,
    slot: Slot,
    t: Track,
) -> Result<L2Entry, LayerFault>
    requires track { t.0 < track_count tables.old.layout.geo }
    requires can_read { OfFile slot (ReadsFrom tables.old) (seen T.Shows stage.old) }
    ensures entry { IfOk result (IsEntryOf tables.old slot (seen T.Shows stage.old) t.0) }
    ensures fits { OfFile slot (λ file. IfOk result (λ e. entry_misfit tables.old.layout (length file) t.0 e ≡ None)) (seen T.Shows stage.new) }
    ensures looks { LooksUp t.0 tables.old tables.new }
    ensures used { NeedsTable t.0 tables.old → OnOk result (IsCached (t.0 / 256) tables.new.cached) }
    ensures can_read { OfFile slot (ReadsFrom tables.new) (seen T.Shows stage.new) }
    ensures refusal { IfErr result (λ why. why ≡ LayerFault.ReadFault) }
    ensures reads { OnlyReads result (seen T.Shows stage.old) (seen T.Shows stage.new) }
    ensures called { (seen T.Shows stage.new).calls ≤ (seen T.Shows stage.old).calls + 1 }
    ensures quiet { IsAtHand t.0 tables.old → (seen T.Shows stage.new).calls ≡ (seen T.Shows stage.old).calls }
{
    match tables.lookup(stage, slot, t) {
        Ok(entry) => Ok(entry),
        Err(_) => Err(LayerFault::ReadFault),
    }
}

impl<U: Unit> Layer<U> {
    ghost use Rattle.cckd_layer.specs.Held.{held};
    ghost use Rattle.cckd_layer.specs.Mounted.{CanRead, with_tables};

    /// The bytes that the layer has of a track, at the front of `out`, as they are stored.
    pub fn read_stored<T: Stage>(
        &mut self,
        stage: &mut T,
        t: Track,
        out: &mut [u8],
    ) -> Result<Held, LayerFault>
        requires whole { self.old.broken ≡ false }
        requires track { t.0 < track_count self.old.tables.layout.geo }
        requires room { 65536 ≤ length out.old }
        requires can_read { CanRead self.old (seen T.Shows stage.old) }
        ensures answer { OfFile self.old.slot (λ file. IfOk result (λ answer. Answers
            (held U.null_bytes self.old.tables.layout self.old.tables.stages file t.0) answer out.old out.new)) (seen T.Shows stage.old) }
        ensures refusal { IfErr result (λ why. why ≡ LayerFault.ReadFault) }

        // What it does beside.
        ensures rest { self.new ≡ with_tables self.old (with_cached self.old.tables self.new.tables.cached) }
        ensures tables { LooksOnce t.0 result self.old.tables self.new.tables (seen T.Shows stage.old) (seen T.Shows stage.new) }
        ensures can_read { CanRead self.new (seen T.Shows stage.new) }
        ensures reads { OnlyReads result (seen T.Shows stage.old) (seen T.Shows stage.new) }
    {
        let layout = self.tables.layout();
        match entry_of(&mut self.tables, stage, self.slot, t) {
            Ok(entry) => bytes_by::<U, T>(stage, self.slot, &layout, t, entry, out),
            Err(fault) => Err(fault),
        }
    }

    /// What the layer's bytes of a track say, at the front of `out`.
    pub fn read<T: Stage>(
        &mut self,
        stage: &mut T,
        t: Track,
        out: &mut [u8],
    ) -> Result<Held, LayerFault>
        requires whole { self.old.broken ≡ false }
        requires track { t.0 < track_count self.old.tables.layout.geo }
        requires room { 65536 ≤ length out.old }
        requires can_read { CanRead self.old (seen T.Shows stage.old) }
        ensures answer { OfFile self.old.slot (λ file. IfOk result (λ answer. Answers (option_map U.value
            (held U.null_bytes self.old.tables.layout self.old.tables.stages file t.0)) answer out.old out.new)) (seen T.Shows stage.old) }

        // Bytes that the check refuses are refused by their first fault.
        ensures checked { OfFile self.old.slot (λ file. OnOk result (fault_in (U.fault self.old.tables.layout.geo t.0)
            (held U.null_bytes self.old.tables.layout self.old.tables.stages file t.0) ≡ None)) (seen T.Shows stage.old) }
        ensures refusal { OfFile self.old.slot (λ file. IfErr result (IsReadRefusal (fault_in (U.fault self.old.tables.layout.geo t.0)
            (held U.null_bytes self.old.tables.layout self.old.tables.stages file t.0)))) (seen T.Shows stage.old) }

        // Also where it isn't told what the file holds.
        ensures accepted { IfOk result (IsAccepted (U.fault self.old.tables.layout.geo t.0) out.new) }
        ensures kind { IfErr result IsReadFault }

        // What it does beside.
        ensures rest { self.new ≡ with_tables self.old (with_cached self.old.tables self.new.tables.cached) }
        ensures tables { LooksOnce t.0 result self.old.tables self.new.tables (seen T.Shows stage.old) (seen T.Shows stage.new) }
        ensures can_read { CanRead self.new (seen T.Shows stage.new) }
        ensures reads { OnlyReads result (seen T.Shows stage.old) (seen T.Shows stage.new) }
    {
        let layout = self.tables.layout();
        match entry_of(&mut self.tables, stage, self.slot, t) {
            Ok(entry) => value_by::<U, T>(stage, self.slot, &layout, t, entry, out),
            Err(fault) => Err(fault),
        }
    }
}
