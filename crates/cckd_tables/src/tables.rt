//! The two-level tables of one image, with entries and words that are staged over them.
ghost use Rattle.std.specs.Prelude.{◌≡◌, ◌⊎◌, ◌↔◌, ◌+◌, ◌<◌, ◌/◌, ◌%◌, slice_get, IsTrue, IsOk, IfOk, OnOk, OnErr, Err};
ghost use Rattle.cckd_base.specs.Geometry.{track_count, area_of, IsLayout};
ghost use Rattle.cckd_base.specs.Entry.{group_entry};
ghost use Rattle.cckd_shelf.specs.World.{IsSure, file_of};
ghost use Rattle.cckd_shelf.specs.Seen.{seen, Tells, Stays, HasBytes, Called};
ghost use Rattle.cckd_shelf.specs.Stops.{StopLeaves, StopsLeave};
ghost use Rattle.cckd_shelf.specs.Frame.{OnlyIn};
ghost use Rattle.cckd_tables.specs.Device.{CountsDevice, OnlyLooks};
ghost use Rattle.cckd_tables.specs.Tables.{AreOf};
ghost use Rattle.cckd_tables.specs.Commit.{MayLeave, IsBlended, IsCommittedFrom};
ghost use Rattle.cckd_tables.specs.Calls.{CallsAtMost, commit_calls};
ghost use Rattle.cckd_tables.specs.Making.{Commits};
ghost use Rattle.cckd_tables.specs.Settling.{Settles};
ghost use Rattle.cckd_tables.specs.Staging.{IsStaged, IsMoved, entry_for};
ghost use Rattle.cckd_tables.specs.Stages.{free_count, with_entry, with_word, staged_spaces};
ghost use Rattle.cckd_tables.specs.Cached.{IsCached, UsesTable, KeepsCached};
ghost use Rattle.cckd_tables.specs.Looking.{IsTables, HasAlignedTable, LoadsWords, NeedsTable, NeedsNoTable, IsOfSlot, IsEntryOf, new_tables, with_stages, with_cached, word_of};

use crate::cache::table_entry;
use crate::device::Device;
use crate::making::Making;
use crate::settling::{settle_entries, settle_words};
use crate::staged::{StagedEntry, StagedWord};
use crate::stages::{STAGES, Stages};
use crate::words::read_words;
use cckd_base::{Extent, GROUP_TRACKS, L2Entry, Layout, Memory, SEE_PARENT, TABLE_LEN, Track};
use cckd_frames::Frames;
use cckd_shelf::{Slot, Stage};
use std::alloc::Global;
use std::marker::Model;

/// How many level-two tables are cached.
const CACHED: u32 = 64;

/// The level-one words as the file has them, what is staged over the file's tables, and up to 64 of these. Only `new`
/// takes memory.
#[derive(Drop)]
pub struct Tables {
    layout: Layout,
    words: Vec<u32>,
    stages: Stages,
    cache: Frames,
    /// Room for the new tables of a commit.
    tables: Vec<u8>,
}

impl Model for Tables {
    ghost use Rattle.cckd_tables.specs.Tables.{TableView};

    ghost Value = { TableView };

    ghost use Rattle.std.specs.Prelude.{◌*◌, ◌≤◌, min};
    ghost use Rattle.std.specs.Vec.{vec_capacity};
    ghost use Rattle.cckd_tables.specs.Cached.{IsCache, tables_in};
    ghost use Rattle.cckd_tables.specs.Looking.{IsTables};

    ghost view = { λ t. record { layout = t.layout; words = t.words.items; stages = t.stages; cached = tables_in t.cache.entries } };

    ghost invariant = { λ t. IsTables (record { layout = t.layout; words = t.words.items; stages = t.stages; cached = tables_in t.cache.entries }) × IsCache t.cache × (2048 * min 256 t.layout.groups ≤ vec_capacity t.tables) };
}

/// The entry that a level-one word gives to all tracks of its group, where it names no table.
fn group_entry(l: &Layout, word: u32) -> Option<L2Entry>
    ensures { result ≡ group_entry l.now word }
{
    let (pos, fields) = match word {
        0 => (0, u16::from(l.null_fmt)),
        SEE_PARENT => (SEE_PARENT, 0xffff),
        _ => return None,
    };
    Some(L2Entry {
        pos,
        len: fields,
        size: fields,
    })
}

impl Tables {
    /// The words are all 0, and nothing is staged.
    pub fn new(alloc: Global, l: &Layout) -> Result<Tables, Memory>
        requires { IsLayout l.now }
        ensures new { IfOk result (λ t. t ≡ new_tables l.now) }
        ensures tables { IfOk result IsTables }
    {
        let words = vec![in alloc; 0; l.groups as usize]?;
        let stages = Stages::new(alloc)?;
        let cache = Frames::new(alloc, CACHED, TABLE_LEN)?;
        let most = (l.groups as usize).min(STAGES);
        let tables = Vec::with_capacity(alloc, TABLE_LEN as usize * most)?;
        Ok(Tables {
            layout: *l,
            words,
            stages,
            cache,
            tables,
        })
    }

    pub fn layout(&self) -> Layout
        ensures layout { result ≡ self.now.layout }
        ensures tables { IsTables self.now }
    {
        self.layout
    }

    /// The level-one word of a group, with the staged words put over those of the file.
    pub fn word(&self, group: u32) -> u32
        requires { group < self.now.layout.groups }
        ensures { result ≡ word_of self.now group }
    {
        match self.stages.place(group) {
            Some(pos) => pos,
            None => self.words[group as usize],
        }
    }

    /// The entry that is staged for a track, if one is.
    pub fn staged_entry(&self, t: Track) -> Option<L2Entry>
        ensures { result ≡ entry_for t.0 self.now.stages.entries }
    {
        self.stages.entry(t.0)
    }

    /// How many more entries and words can be staged.
    pub fn free_stages(&self) -> u32
        ensures { result ≡ free_count self.now.stages }
    {
        self.stages.free()
    }

    /// The staged space of this number, counted from 0 through the new tables and then the new tracks. An entry without
    /// a space has no number.
    pub fn staged(&self, number: u32) -> Option<Extent>
        ensures { result ≡ slice_get (staged_spaces self.now.stages) number }
    {
        self.stages.space(number as usize)
    }

    /// The staged entries, in order of track.
    pub fn staged_entries(&self) -> &[StagedEntry]
        ensures { result.now ≡ self.now.stages.entries }
    {
        self.stages.entries()
    }

    /// The staged words, in order of group.
    pub fn staged_words(&self) -> &[StagedWord]
        ensures { result.now ≡ self.now.stages.words }
    {
        self.stages.words()
    }

    /// Whether the table of a group is cached.
    pub fn cached(&self, group: u32) -> bool
        ensures { IsTrue result ↔ IsCached group self.now.cached }
    {
        self.cache.peek(group).is_some()
    }

    /// Stages an entry for a track, in place of one that is staged for it.
    pub fn stage_entry(&mut self, t: Track, entry: L2Entry)
        requires track { t.0 < track_count self.old.layout.geo }
        requires free { IsStaged t.0 self.old.stages ⊎ (0 < free_count self.old.stages) }
        requires table { HasAlignedTable self.old (t.0 / 256) }
        ensures staged { self.new ≡ with_stages self.old (with_entry (record { track = t.0; entry = entry }) self.old.stages) }
        ensures tables { IsTables self.new }
    {
        self.stages.put_entry(StagedEntry { track: t.0, entry });
    }

    /// Stages a place for the table of a group, in place of one that is staged for it.
    pub fn stage_word(&mut self, group: u32, pos: u32)
        requires group { group < self.old.layout.groups }
        requires free { IsMoved group self.old.stages ⊎ (0 < free_count self.old.stages) }
        requires place { pos % 8 ≡ 0 }
        ensures staged { self.new ≡ with_stages self.old (with_word (record { group = group; pos = pos }) self.old.stages) }
        ensures tables { IsTables self.new }
    {
        self.stages.put_word(StagedWord { group, pos });
    }

    /// Reads the level-one words from the file of a slot, in one call. No table is cached from then on.
    pub fn load_words<T: Stage>(&mut self, stage: &mut T, slot: Slot) -> Result<(), Device>
        requires { HasBytes slot (area_of self.old.layout.groups) (seen T.Shows stage.old) }
        ensures loaded { OnOk result (LoadsWords slot (seen T.Shows stage.old) self.old self.new) }
        ensures same { OnErr result (self.new ≡ self.old) }
        ensures tables { IsTables self.new }
        ensures looks { OnlyLooks result (seen T.Shows stage.old) (seen T.Shows stage.new) }
        ensures called { Called (seen T.Shows stage.old) (seen T.Shows stage.new) }
    {
        read_words(stage, slot, &self.layout, self.words.as_mut_slice())?;
        self.cache.forget_all();
        Ok(())
    }

    /// The entry of a track: the staged one, or else that of the file of a slot.
    pub fn lookup<T: Stage>(
        &mut self,
        stage: &mut T,
        slot: Slot,
        t: Track,
    ) -> Result<L2Entry, Device>
        requires track { t.0 < track_count self.old.layout.geo }
        requires of { IsOfSlot self.old slot (seen T.Shows stage.old) }
        ensures entry { IfOk result (IsEntryOf self.old slot (seen T.Shows stage.old) t.0) }
        ensures of { IsOfSlot self.new slot (seen T.Shows stage.new) }
        ensures rest { self.new ≡ with_cached self.old self.new.cached }
        ensures tables { IsTables self.new }
        ensures looks { OnlyLooks result (seen T.Shows stage.old) (seen T.Shows stage.new) }
        ensures called { Called (seen T.Shows stage.old) (seen T.Shows stage.new) }

        // A table that was needed is cached from then on, and then no call is made for its group.
        ensures used { NeedsTable t.0 self.old → OnOk result (UsesTable (t.0 / 256) self.old.cached self.new.cached) }
        ensures kept { KeepsCached (t.0 / 256) self.old.cached self.new.cached }
        ensures same { OnErr result (self.new ≡ self.old) }
        ensures bare { NeedsNoTable t.0 self.old → self.new ≡ self.old }
        ensures quiet { NeedsNoTable t.0 self.old ⊎ IsCached (t.0 / 256) self.old.cached
            → IsOk result × (seen T.Shows stage.new ≡ seen T.Shows stage.old) }
    {
        if let Some(entry) = self.stages.entry(t.0) {
            return Ok(entry);
        }
        let word = self.words[(t.0 / GROUP_TRACKS) as usize];
        if let Some(entry) = group_entry(&self.layout, word) {
            return Ok(entry);
        }
        table_entry(&mut self.cache, stage, slot, self.layout.order, t, word)
    }

    /// Writes all that is staged into the file of a slot: new tables, which a sync makes stay, and then words and
    /// entries, which don't stay yet. All reads come before the first write.
    pub fn commit<T: Stage>(&mut self, stage: &mut T, slot: Slot) -> Result<(), Device>
        requires { IsOfSlot self.old slot (seen T.Shows stage.old) }

        // The words and the cached tables are the new ones, and the same tables are cached.
        ensures settled { OnOk result (Settles self.old self.new) }
        ensures of { Commits self.old.layout self.old.stages slot (seen T.Shows stage.old)
            → OnOk result (AreOf self.new (file_of (seen T.Shows stage.new).world slot)) }
        ensures same { OnErr result (self.new ≡ self.old) }
        ensures tables { IsTables self.new }

        // The file, and what a stop leaves of it.
        ensures now { Commits self.old.layout self.old.stages slot (seen T.Shows stage.old) → OnOk result (IsCommittedFrom self.old.layout self.old.stages
            (file_of (seen T.Shows stage.old).world slot) (file_of (seen T.Shows stage.new).world slot)) }
        ensures stopped { Commits self.old.layout self.old.stages slot (seen T.Shows stage.old) → StopsLeave slot (MayLeave self.old.layout self.old.stages slot
            (seen T.Shows stage.old).world.events (file_of (seen T.Shows stage.old).world slot)) (seen T.Shows stage.old) (seen T.Shows stage.new) }
        ensures done { Commits self.old.layout self.old.stages slot (seen T.Shows stage.old) → OnOk result (StopLeaves slot (IsBlended self.old.layout self.old.stages
            (file_of (seen T.Shows stage.old).world slot)) (seen T.Shows stage.new)) }
        ensures sure { Tells (seen T.Shows stage.old) → IsSure (seen T.Shows stage.old).world → OnOk result (IsSure (seen T.Shows stage.new).world) }
        ensures others { OnlyIn slot (seen T.Shows stage.old) (seen T.Shows stage.new) }
        ensures counts { CountsDevice result (seen T.Shows stage.old).faults (seen T.Shows stage.new).faults }
        ensures read { result ≡ Err Device.Read → Stays (seen T.Shows stage.old) (seen T.Shows stage.new) }

        // Also where a call fails, at most these reads and writes and a sync.
        ensures calls { CallsAtMost (commit_calls self.old.words self.old.stages) (seen T.Shows stage.old) (seen T.Shows stage.new) }
    {
        let making = Making {
            layout: &self.layout,
            words: self.words.as_slice(),
            entries: self.stages.entries(),
            cache: &self.cache,
        };
        making.commit(stage, slot, self.stages.words(), &mut self.tables)?;
        settle_words(self.words.as_mut_slice(), self.stages.words());
        settle_entries(&mut self.cache, self.layout.order, self.stages.entries());
        self.stages.clear();
        Ok(())
    }
}
