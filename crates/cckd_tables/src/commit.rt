//! A commit: staged words and entries are written into the file of a slot.
ghost use Rattle.std.specs.Prelude.{◌≡◌, ◌<◌, ◌≤◌, ℕ, List, length, is_some, IfOk, OnOk, ◌+◌};
ghost use Rattle.cckd_shelf.specs.declared.fault.Kind.TheVariants.{Writes};
ghost use Rattle.cckd_shelf.specs.World.{IsSure, file_of};
ghost use Rattle.cckd_shelf.specs.Seen.{seen, Tells, Fails};
ghost use Rattle.cckd_shelf.specs.Stops.{StopLeaves, StopsLeave};
ghost use Rattle.cckd_shelf.specs.Frame.{OnlyIn};
ghost use Rattle.cckd_tables.specs.Staging.{place_for};
ghost use Rattle.cckd_tables.specs.Tables.{HasWords, HasTables};
ghost use Rattle.cckd_tables.specs.Blend.{Near, Blend, IsCommitted};
ghost use Rattle.cckd_tables.specs.Commit.{IsNearOutcome, stages_of, IsCommit, MayCommit, MayLeave, IsBlended, IsCommittedFrom, SpellsNewEntries, IsSyncedNow, CountsCommit};
ghost use Rattle.cckd_tables.specs.Calls.{CallsAtMost, MayCall, commit_writes, writes_from};
ghost use Rattle.cckd_tables.specs.Cells.{AreDisjoint, AreTablesWritten, IsReady, AreWordsWritten, AreEntriesWritten};

use crate::cell::{cell, write_run, write_table, write_word};
use crate::device::Device;
use crate::run::run_len;
use crate::staged::{StagedEntry, StagedWord};
use cckd_base::{GROUP_TRACKS, Layout, TABLE_LEN};
use cckd_shelf::{Failed, Shelf, Slot};

/// Staged words and entries, with what has to be known to write them.
#[derive(Clone, Copy, Debug)]
pub struct Commit<'a> {
    pub layout: &'a Layout,
    /// The level-one words of the file, of each group one.
    pub words: &'a [u32],
    /// The staged words, in the order of their groups.
    pub moved: &'a [StagedWord],
    /// The 2,048 bytes of each staged word's table, in the same order.
    pub tables: &'a [u8],
    /// The staged entries, in the order of their tracks.
    pub entries: &'a [StagedEntry],
}

impl Commit<'_> {
    /// Writes the new tables to their places, makes all stay that was written to the file, and then writes words and
    /// entries over the old ones. Those entries go with the new tables whose group has one. What is written last
    /// doesn't stay yet.
    pub fn write<S: Shelf>(&self, shelf: &mut S, slot: Slot) -> Result<(), Device>
        requires { IsCommit self.now }

        // A stop leaves what it could before, with any part of the new tables, or some of the words and entries written.
        ensures stopped { MayCommit self.now slot (seen S.Shows shelf.old) → StopsLeave slot (MayLeave self.now.layout.now (stages_of self.now) slot
            (seen S.Shows shelf.old).world.events (file_of (seen S.Shows shelf.old).world slot)) (seen S.Shows shelf.old) (seen S.Shows shelf.new) }
        ensures done { MayCommit self.now slot (seen S.Shows shelf.old) → OnOk result (StopLeaves slot (IsBlended self.now.layout.now (stages_of self.now)
            (file_of (seen S.Shows shelf.old).world slot)) (seen S.Shows shelf.new)) }
        ensures now { MayCommit self.now slot (seen S.Shows shelf.old) → OnOk result (IsCommittedFrom self.now.layout.now (stages_of self.now)
            (file_of (seen S.Shows shelf.old).world slot) (file_of (seen S.Shows shelf.new).world slot)) }
        ensures tables { MayCommit self.now slot (seen S.Shows shelf.old) → OnOk result (AreTablesWritten self.now.moved.now self.now.tables.now (length self.now.moved.now)
            (file_of (seen S.Shows shelf.new).world slot)) }
        ensures spelled { MayCommit self.now slot (seen S.Shows shelf.old) → HasTables self.now.layout.now (file_of (seen S.Shows shelf.old).world slot)
            → OnOk result (SpellsNewEntries self.now.layout.now (stages_of self.now)
            (file_of (seen S.Shows shelf.old).world slot) (file_of (seen S.Shows shelf.new).world slot)) }
        ensures sure { Tells (seen S.Shows shelf.old) → IsSure (seen S.Shows shelf.old).world → OnOk result (IsSure (seen S.Shows shelf.new).world) }
        ensures others { OnlyIn slot (seen S.Shows shelf.old) (seen S.Shows shelf.new) }
        ensures counts { CountsCommit result (seen S.Shows shelf.old).faults (seen S.Shows shelf.new).faults }

        // Also where a call fails, at most these writes and a sync.
        ensures calls { CallsAtMost (commit_writes self.now.words.now (stages_of self.now) + 1) (seen S.Shows shelf.old) (seen S.Shows shelf.new) }
    {
        self.prepare(shelf, slot)?;
        let Ok(()) = self.put_over(shelf, slot) else {
            return Err(Device::Write);
        };
        Ok(())
    }

    /// Writes the new tables, and makes all stay that was written.
    fn prepare<S: Shelf>(&self, shelf: &mut S, slot: Slot) -> Result<(), Device>
        requires { IsCommit self.now }
        ensures stopped { StopsLeave slot (IsNearOutcome (stages_of self.now) slot (seen S.Shows shelf.old).world.events) (seen S.Shows shelf.old) (seen S.Shows shelf.new) }
        ensures done { MayCommit self.now slot (seen S.Shows shelf.old) → OnOk result (IsSyncedNow self.now.layout.now (stages_of self.now) slot
            (file_of (seen S.Shows shelf.old).world slot) (seen S.Shows shelf.new)) }
        ensures tables { MayCommit self.now slot (seen S.Shows shelf.old) → OnOk result (AreTablesWritten self.now.moved.now self.now.tables.now (length self.now.moved.now)
            (file_of (seen S.Shows shelf.new).world slot)) }
        ensures sure { Tells (seen S.Shows shelf.old) → IsSure (seen S.Shows shelf.old).world → OnOk result (IsSure (seen S.Shows shelf.new).world) }
        ensures others { OnlyIn slot (seen S.Shows shelf.old) (seen S.Shows shelf.new) }
        ensures counts { CountsCommit result (seen S.Shows shelf.old).faults (seen S.Shows shelf.new).faults }
        ensures calls { CallsAtMost (length self.now.moved.now + 1) (seen S.Shows shelf.old) (seen S.Shows shelf.new) }
    {
        let Ok(()) = self.write_tables(shelf, slot) else {
            return Err(Device::Write);
        };
        let synced = shelf.sync(slot);
        let Ok(()) = synced else {
            return Err(Device::Sync);
        };
        Ok(())
    }

    /// Writes words and entries over the old ones.
    fn put_over<S: Shelf>(&self, shelf: &mut S, slot: Slot) -> Result<(), Failed>
        requires { IsCommit self.now }
        ensures stopped { (was : List ℕ) → IsReady self.now.layout.now (stages_of self.now) was → HasWords self.now.layout.now self.now.words.now was
            → StopLeaves slot (Blend self.now.layout.now was (stages_of self.now)) (seen S.Shows shelf.old)
            → StopsLeave slot (Blend self.now.layout.now was (stages_of self.now)) (seen S.Shows shelf.old) (seen S.Shows shelf.new) }
        ensures now { (was : List ℕ) → IsReady self.now.layout.now (stages_of self.now) was → HasWords self.now.layout.now self.now.words.now was → Tells (seen S.Shows shelf.old)
            → file_of (seen S.Shows shelf.old).world slot ≡ was
            → OnOk result (IsCommitted self.now.layout.now was (stages_of self.now) (file_of (seen S.Shows shelf.new).world slot)) }
        ensures sure { Tells (seen S.Shows shelf.old) → IsSure (seen S.Shows shelf.old).world → OnOk result (IsSure (seen S.Shows shelf.new).world) }
        ensures others { OnlyIn slot (seen S.Shows shelf.old) (seen S.Shows shelf.new) }
        ensures fails { Fails Writes result (seen S.Shows shelf.old) (seen S.Shows shelf.new) }
        ensures calls { CallsAtMost (length self.now.moved.now + writes_from self.now 0) (seen S.Shows shelf.old) (seen S.Shows shelf.new) }
    {
        self.write_words(shelf, slot)?;
        self.write_entries(shelf, slot)
    }

    /// Writes the staged entries that go in one write from one of them on, or passes over that one where its group has
    /// a new table, and answers which one comes next.
    fn write_next<S: Shelf>(&self, shelf: &mut S, slot: Slot, first: usize) -> Result<usize, Failed>
        requires commit { IsCommit self.now }
        requires first { first < length self.now.entries.now }
        ensures next { IfOk result (λ next. (first < next) × (next ≤ length self.now.entries.now)) }
        ensures stopped { (was : List ℕ) → IsReady self.now.layout.now (stages_of self.now) was → HasWords self.now.layout.now self.now.words.now was
            → StopLeaves slot (Blend self.now.layout.now was (stages_of self.now)) (seen S.Shows shelf.old)
            → StopsLeave slot (Blend self.now.layout.now was (stages_of self.now)) (seen S.Shows shelf.old) (seen S.Shows shelf.new) }
        ensures now { IfOk result (λ next. (was : List ℕ) → IsReady self.now.layout.now (stages_of self.now) was → HasWords self.now.layout.now self.now.words.now was
            → Tells (seen S.Shows shelf.old)
            → AreEntriesWritten self.now.layout.now was (stages_of self.now) first (file_of (seen S.Shows shelf.old).world slot)
            → AreEntriesWritten self.now.layout.now was (stages_of self.now) next (file_of (seen S.Shows shelf.new).world slot)) }
        ensures sure { Tells (seen S.Shows shelf.old) → IsSure (seen S.Shows shelf.old).world → OnOk result (IsSure (seen S.Shows shelf.new).world) }
        ensures others { OnlyIn slot (seen S.Shows shelf.old) (seen S.Shows shelf.new) }
        ensures fails { Fails Writes result (seen S.Shows shelf.old) (seen S.Shows shelf.new) }
        ensures calls { MayCall (writes_from self.now first) (writes_from self.now) result (seen S.Shows shelf.old) (seen S.Shows shelf.new) }
    {
        let track = self.entries[first].track;
        if is_moved(self.moved, track / GROUP_TRACKS) {
            return Ok(first + 1);
        }
        let at = cell(self.words, track);
        let count = run_len(at, self.entries, first);
        let run = &self.entries[first..first + count];
        write_run(shelf, slot, self.layout.order, at, run)?;
        Ok(first + count)
    }

    /// Writes the staged entries of groups without a new table.
    fn write_entries<S: Shelf>(&self, shelf: &mut S, slot: Slot) -> Result<(), Failed>
        requires { IsCommit self.now }
        ensures stopped { (was : List ℕ) → IsReady self.now.layout.now (stages_of self.now) was → HasWords self.now.layout.now self.now.words.now was
            → StopLeaves slot (Blend self.now.layout.now was (stages_of self.now)) (seen S.Shows shelf.old)
            → StopsLeave slot (Blend self.now.layout.now was (stages_of self.now)) (seen S.Shows shelf.old) (seen S.Shows shelf.new) }
        ensures now { (was : List ℕ) → IsReady self.now.layout.now (stages_of self.now) was → HasWords self.now.layout.now self.now.words.now was
            → Tells (seen S.Shows shelf.old)
            → AreEntriesWritten self.now.layout.now was (stages_of self.now) 0 (file_of (seen S.Shows shelf.old).world slot)
            → OnOk result (AreEntriesWritten self.now.layout.now was (stages_of self.now) (length self.now.entries.now) (file_of (seen S.Shows shelf.new).world slot)) }
        ensures sure { Tells (seen S.Shows shelf.old) → IsSure (seen S.Shows shelf.old).world → OnOk result (IsSure (seen S.Shows shelf.new).world) }
        ensures others { OnlyIn slot (seen S.Shows shelf.old) (seen S.Shows shelf.new) }
        ensures fails { Fails Writes result (seen S.Shows shelf.old) (seen S.Shows shelf.new) }
        ensures calls { CallsAtMost (writes_from self.now 0) (seen S.Shows shelf.old) (seen S.Shows shelf.new) }
    {
        let mut next = 0;
        while next < self.entries.len() {
            next = self.write_next(shelf, slot, next)?;
        }
        Ok(())
    }

    /// Writes the new tables to their places.
    fn write_tables<S: Shelf>(&self, shelf: &mut S, slot: Slot) -> Result<(), Failed>
        requires { IsCommit self.now }
        ensures stopped { StopsLeave slot (IsNearOutcome (stages_of self.now) slot (seen S.Shows shelf.old).world.events)
            (seen S.Shows shelf.old) (seen S.Shows shelf.new) }
        ensures near { Tells (seen S.Shows shelf.old) → OnOk result (Near (stages_of self.now)
            (file_of (seen S.Shows shelf.old).world slot) (file_of (seen S.Shows shelf.new).world slot)) }
        ensures now { Tells (seen S.Shows shelf.old) → AreDisjoint self.now.moved.now
            → OnOk result (AreTablesWritten self.now.moved.now self.now.tables.now (length self.now.moved.now)
            (file_of (seen S.Shows shelf.new).world slot)) }
        ensures sure { Tells (seen S.Shows shelf.old) → IsSure (seen S.Shows shelf.old).world → OnOk result (IsSure (seen S.Shows shelf.new).world) }
        ensures others { OnlyIn slot (seen S.Shows shelf.old) (seen S.Shows shelf.new) }
        ensures fails { Fails Writes result (seen S.Shows shelf.old) (seen S.Shows shelf.new) }
        ensures calls { CallsAtMost (length self.now.moved.now) (seen S.Shows shelf.old) (seen S.Shows shelf.new) }
    {
        for i in 0..self.moved.len() {
            let at = i * TABLE_LEN as usize;
            let table = &self.tables[at..at + TABLE_LEN as usize];
            write_table(shelf, slot, self.moved[i].pos, table)?;
        }
        Ok(())
    }

    /// Writes the staged words.
    fn write_words<S: Shelf>(&self, shelf: &mut S, slot: Slot) -> Result<(), Failed>
        requires { IsCommit self.now }
        ensures stopped { (was : List ℕ) → IsReady self.now.layout.now (stages_of self.now) was
            → StopLeaves slot (Blend self.now.layout.now was (stages_of self.now)) (seen S.Shows shelf.old)
            → StopsLeave slot (Blend self.now.layout.now was (stages_of self.now)) (seen S.Shows shelf.old) (seen S.Shows shelf.new) }
        ensures now { (was : List ℕ) → IsReady self.now.layout.now (stages_of self.now) was → Tells (seen S.Shows shelf.old)
            → file_of (seen S.Shows shelf.old).world slot ≡ was
            → OnOk result (AreWordsWritten self.now.layout.now was (stages_of self.now) (length self.now.moved.now)
            (file_of (seen S.Shows shelf.new).world slot)) }
        ensures sure { Tells (seen S.Shows shelf.old) → IsSure (seen S.Shows shelf.old).world → OnOk result (IsSure (seen S.Shows shelf.new).world) }
        ensures others { OnlyIn slot (seen S.Shows shelf.old) (seen S.Shows shelf.new) }
        ensures fails { Fails Writes result (seen S.Shows shelf.old) (seen S.Shows shelf.new) }
        ensures calls { CallsAtMost (length self.now.moved.now) (seen S.Shows shelf.old) (seen S.Shows shelf.new) }
    {
        for word in self.moved {
            write_word(shelf, slot, self.layout.order, *word)?;
        }
        Ok(())
    }
}

/// Whether a group has a new table.
fn is_moved(words: &[StagedWord], group: u32) -> bool
    ensures { result ≡ is_some (place_for group words.now) }
{
    for word in words {
        if word.group == group {
            return true;
        }
    }
    false
}
