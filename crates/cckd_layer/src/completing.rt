//! A file that isn't snug: the entry of the space that passes its end gets the size up to that end.
ghost use Rattle.std.specs.Prelude.{◌≡◌, ◌+◌, ◌*◌, ◌/◌, ◌%◌, ◌<◌, ◌^◌, ℕ, List, [], true, false, length, None, IfOk, OnOk, IfErr, IfSome, Err};
ghost use Rattle.cckd_shelf.specs.Seen.{Seen, seen, Tells, Makes};
ghost use Rattle.cckd_shelf.specs.World.{World, IsSure, after_write, after_sync, after_put};
ghost use Rattle.cckd_shelf.specs.Frame.{OnlyIn, SparesOthers};
ghost use Rattle.cckd_base.specs.declared.entry.L2Entry.{L2Entry as Entry};
ghost use Rattle.cckd_base.specs.Geometry.{track_count, IsLayout};
ghost use Rattle.cckd_space.specs.Pieces.{last, begins_by};
ghost use Rattle.cckd_tables.specs.Device.{CountsDevice};
ghost use Rattle.cckd_tables.specs.Looking.{with_cached};
ghost use Rattle.cckd_layer.specs.Mounted.{LayerState, CanRead, with_tables};
ghost use Rattle.cckd_layer.specs.Marks.{WritesOrSyncs};
ghost use Rattle.cckd_layer.specs.Reads.{OnlyReads};
ghost use Rattle.cckd_layer.specs.Writes.{Agrees, CountsLayer, IsOutside, is_broken_by};
ghost use Rattle.cckd_layer.specs.Loose.{Loose, Tied, TiedIn, Completes, IsSameBeside, IsUndisturbed, IsOnlyLooked, IsLastTrack, PassesEnd, bare_tables};

use crate::hardening::fault_of;
use crate::layer::Layer;
use crate::reading::entry_of;
use cckd_base::{GROUP_TRACKS, L2Entry, LayerFault, Layout, Owner, Track, Unit};
use cckd_shelf::{Shelf, Slot, Stage};
use cckd_space::{Piece, Space};
use cckd_tables::Device;

/// The track whose space is the last one of a file, and how many bytes of that are in the file.
#[derive(Clone, Copy)]
struct LastTrack {
    track: Track,
    size: u32,
}

/// A track whose space passes the file's end, and its entry with the size up to that end.
#[derive(Clone, Copy)]
struct Excess {
    track: Track,
    entry: L2Entry,
}

/// The last piece of a file.
fn last_piece(space: &Space) -> Option<Piece>
    ensures { result ≡ last (begins_by 4294967295) space.now.pieces }
{
    space.pieces().at_or_before(u32::MAX)
}

/// The track whose space is the last one of a file, if that is one of a track.
fn last_track(space: &Space, l: &Layout) -> Option<LastTrack>
    requires { IsLayout l.now }
    ensures low { IfSome result (λ x. x.track.0 < track_count l.now.geo) }
    ensures last { IfSome result (λ x. IsLastTrack space.now.pieces x.track.0 x.size) }
    ensures none { result ≡ None → (t size : ℕ) → t < track_count l.now.geo → IsLastTrack space.now.pieces t size → ⊥ }
{
    let Some(piece) = last_piece(space) else {
        return None;
    };
    match piece.owner {
        Owner::Track(t) if t < l.geo.tracks() => Some(LastTrack {
            track: Track(t),
            size: piece.size,
        }),
        _ => None,
    }
}

/// The entry of the last track with the size that is in the file, if it says more.
fn excess_of(last: LastTrack, entry: L2Entry) -> Option<Excess>
    ensures some { IfSome result (λ x. (last.size < entry.size) × (x.track ≡ last.track) × (x.entry ≡ record { pos = entry.pos; len = entry.len; size = last.size })) }
    ensures none { result ≡ None → last.size < entry.size → ⊥ }
{
    if u32::from(entry.size) <= last.size {
        return None;
    }
    Some(Excess {
        track: last.track,
        entry: L2Entry {
            pos: entry.pos,
            len: entry.len,
            size: last.size as u16,
        },
    })
}

/// Writes bytes into a file in one write, and makes them and all that was written before stay.
fn put_synced<S: Shelf>(shelf: &mut S, slot: Slot, at: u64, bytes: &[u8]) -> Result<(), Device>
    requires { at + length bytes.now < 2 ^ 63 }
    ensures made { OnOk result (Makes (λ w. after_sync slot (after_write slot at bytes.now w)) (seen S.Shows shelf.old) (seen S.Shows shelf.new)) }
    ensures counts { CountsDevice result (seen S.Shows shelf.old).faults (seen S.Shows shelf.new).faults }
    ensures kind { IfErr result WritesOrSyncs }
    ensures others { OnlyIn slot (seen S.Shows shelf.old) (seen S.Shows shelf.new) }
{
    let Ok(()) = shelf.write(slot, at, bytes) else {
        return Err(Device::Write);
    };
    let synced = shelf.sync(slot);
    let Ok(()) = synced else {
        return Err(Device::Sync);
    };
    Ok(())
}

impl<U: Unit> Layer<U> {
    /// The track whose space passes the file's end, if there is one.
    fn excess<T: Stage>(&mut self, stage: &mut T) -> Result<Option<Excess>, LayerFault>
        requires tied { TiedIn self.old (seen T.Shows stage.old) }
        ensures low { IfOk result (λ o. IfSome o (λ x. x.track.0 < track_count self.old.tables.layout.geo)) }
        ensures none { Tells (seen T.Shows stage.old) → IsSure (seen T.Shows stage.old).world → IfOk result (λ o. o ≡ None → Agrees self.new (seen T.Shows stage.new).world) }
        ensures some { Tells (seen T.Shows stage.old) → IsSure (seen T.Shows stage.old).world → IfOk result (λ o. IfSome o (λ x. PassesEnd self.new (seen T.Shows stage.new).world x.track.0 x.entry)) }
        ensures agreed { Tells (seen T.Shows stage.old) → Agrees self.old (seen T.Shows stage.old).world → IfOk result (λ o. o ≡ None) }
        ensures looked { IsOnlyLooked self.old self.new (seen T.Shows stage.old) (seen T.Shows stage.new) }
        ensures refusal { IfErr result (λ why. why ≡ LayerFault.ReadFault) }
        ensures reads { OnlyReads result (seen T.Shows stage.old) (seen T.Shows stage.new) }
    {
        let layout = self.tables.layout();
        let Some(last) = last_track(&self.space, &layout) else {
            return Ok(None);
        };
        match entry_of(&mut self.tables, stage, self.slot, last.track) {
            Ok(entry) => Ok(excess_of(last, entry)),
            Err(fault) => Err(fault),
        }
    }

    /// Reads the level-one words anew, and keeps no table in memory.
    fn forget<T: Stage>(&mut self, stage: &mut T) -> Result<(), LayerFault>
        requires tied { TiedIn self.old (seen T.Shows stage.old) }
        ensures bare { OnOk result (self.new ≡ with_tables self.old (bare_tables self.old.tables self.new.tables.words)) }
        ensures words { Tells (seen T.Shows stage.old) → (t : ℕ) (e : Entry) → PassesEnd self.old (seen T.Shows stage.old).world t e
            → OnOk result (PassesEnd self.new (seen T.Shows stage.new).world t e) }
        ensures same { IfErr result (λ why. (why ≡ LayerFault.ReadFault) × (self.new ≡ self.old)) }
        ensures reads { OnlyReads result (seen T.Shows stage.old) (seen T.Shows stage.new) }
    {
        match self.tables.load_words(stage, self.slot) {
            Ok(()) => Ok(()),
            Err(fault) => Err(fault_of(fault)),
        }
    }

    /// Writes the entry of the track whose space passes the file's end, with the size up to that end.
    fn put_entry<T: Stage>(&mut self, stage: &mut T, excess: Excess) -> Result<(), LayerFault>
        requires whole { self.old.broken ≡ false }
        requires low { excess.track.0 < track_count self.old.tables.layout.geo }
        requires bare { self.old.tables.cached ≡ [] }
        requires passes { Tells (seen T.Shows stage.old) → IsSure (seen T.Shows stage.old).world → PassesEnd self.old (seen T.Shows stage.old).world excess.track.0 excess.entry }
        ensures completed { OnOk result (Completes U.null_bytes self.old self.new (seen T.Shows stage.old) (seen T.Shows stage.new)) }
        ensures same { IsSameBeside self.old self.new }
        ensures broken { self.new.broken ≡ is_broken_by result }
        ensures refusal { IfErr result IsOutside }
        ensures read { result ≡ Err LayerFault.ReadFault → ⊥ }
        ensures counts { CountsLayer result (seen T.Shows stage.old).faults (seen T.Shows stage.new).faults }
        ensures others { OnlyIn self.old.slot (seen T.Shows stage.old) (seen T.Shows stage.new) }
    {
        let layout = self.tables.layout();
        let word = self.tables.word(excess.track.0 / GROUP_TRACKS);
        let at = u64::from(word) + 8 * u64::from(excess.track.0 % GROUP_TRACKS);
        let bytes = excess.entry.encode(layout.order);
        match put_synced(stage, self.slot, at, &bytes) {
            Ok(()) => Ok(()),
            Err(fault) => {
                self.fail(fault);
                Err(fault_of(fault))
            }
        }
    }

    /// Makes the file of a layer snug that isn't: the entry of the track whose space passes the file's end gets the size up to
    /// that end.
    pub fn complete<T: Stage>(&mut self, stage: &mut T) -> Result<(), LayerFault>
        requires whole { self.old.broken ≡ false }
        requires tied { TiedIn self.old (seen T.Shows stage.old) }

        // At Ok the layer agrees with its file, and has the bytes of each track that it had.
        ensures completed { OnOk result (Completes U.null_bytes self.old self.new (seen T.Shows stage.old) (seen T.Shows stage.new)) }
        ensures same { IsSameBeside self.old self.new }

        // Where it agreed before, nothing is done.
        ensures still { Tells (seen T.Shows stage.old) → Agrees self.old (seen T.Shows stage.old).world
            → IsUndisturbed U.null_bytes self.old self.new (seen T.Shows stage.old) (seen T.Shows stage.new) }

        // At a fault of reading all is as before, and any other breaks the layer.
        ensures broken { self.new.broken ≡ is_broken_by result }
        ensures refusal { IfErr result IsOutside }
        ensures read { result ≡ Err LayerFault.ReadFault → IsOnlyLooked self.old self.new (seen T.Shows stage.old) (seen T.Shows stage.new) }
        ensures counts { CountsLayer result (seen T.Shows stage.old).faults (seen T.Shows stage.new).faults }
        ensures others { OnlyIn self.old.slot (seen T.Shows stage.old) (seen T.Shows stage.new) }
    {
        let excess = match self.excess(stage) {
            Ok(Some(excess)) => excess,
            Ok(None) => return Ok(()),
            Err(fault) => return Err(fault),
        };
        match self.forget(stage) {
            Ok(()) => self.put_entry(stage, excess),
            Err(fault) => Err(fault),
        }
    }
}

/// A layer that is tied to its file can be read, and stays tied through a read. No operation failed half way then, and where it was
/// changed, it agrees. One that is as it was mounted stays so where another slot is written. Only what has happened counts, and what
/// is put doesn't.
pub fn layers_tied()
    ensures reads { (s : LayerState) (now : Seen) → TiedIn s now → CanRead s now }
    ensures stays { (s next : LayerState) (old new : Seen) → Tied s old.world → new.world ≡ old.world → next ≡ with_tables s (with_cached s.tables next.tables.cached)
        → CanRead next new → Tells new → Tied next new.world }
    ensures sure { (s : LayerState) (w : World) → Tied s w → IsSure w }
    ensures marked { (s : LayerState) (w : World) → Tied s w → s.marked ≡ true → Agrees s w }
    ensures beside { (s : LayerState) (slot : ℕ) (old new : World) → (slot ≡ s.slot → ⊥) → IsSure new → SparesOthers slot old new → Loose s old → Loose s new }
    ensures events { (s : LayerState) (old new : World) → old.events ≡ new.events → Loose s old → Loose s new }
    ensures puts { (s : LayerState) (bytes : List ℕ) (w : World) → Loose s w → Loose s (after_put bytes w) }
{}
