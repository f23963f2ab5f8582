//! The new tables of a commit: the old entries of their groups, with the staged ones put over.
ghost use Rattle.std.specs.Prelude.{◌≡◌, ◌+◌, ◌*◌, ◌<◌, ◌≤◌, ◌++◌, length, Err, OnOk};
ghost use Rattle.std.specs.Vec.{vec_len, vec_capacity};
ghost use Rattle.std.specs.List.{AllByRecursion};
ghost use Rattle.cckd_shelf.specs.World.{IsSure, file_of};
ghost use Rattle.cckd_shelf.specs.Seen.{seen, Tells, Stays, Called};
ghost use Rattle.cckd_shelf.specs.Stops.{StopLeaves, StopsLeave};
ghost use Rattle.cckd_shelf.specs.Frame.{OnlyIn};
ghost use Rattle.cckd_tables.specs.Device.{CountsDevice, OnlyLooks};
ghost use Rattle.cckd_tables.specs.Commit.{AreInOrder, MayLeave, IsBlended, IsCommittedFrom};
ghost use Rattle.cckd_tables.specs.Calls.{CallsAtMost, commit_calls};
ghost use Rattle.cckd_tables.specs.Looking.{IsOfSlot};

use crate::cache::read_table;
use crate::commit::Commit;
use crate::device::Device;
use crate::staged::{StagedEntry, StagedWord};
use crate::table::{begin_table, put_entries};
use cckd_base::{Layout, SEE_PARENT, TABLE_LEN};
use cckd_frames::Frames;
use cckd_shelf::{Slot, Stage};

/// What new tables are made of.
#[derive(Clone, Copy)]
pub(crate) struct Making<'a> {
    pub(crate) layout: &'a Layout,
    /// The level-one words of the file, of each group one.
    pub(crate) words: &'a [u32],
    /// The staged entries, in the order of their tracks.
    pub(crate) entries: &'a [StagedEntry],
    pub(crate) cache: &'a Frames,
}

/// Puts a table behind others.
fn push_table(tables: &mut Vec<u8>, table: &[u8])
    requires { vec_len tables.old + length table.now ≤ vec_capacity tables.old }
    ensures items { tables.new.items ≡ tables.old.items ++ table.now }
    ensures len { vec_len tables.new ≡ vec_len tables.old + length table.now }
    ensures capacity { vec_capacity tables.old ≤ vec_capacity tables.new }
{
    let Ok(()) = tables.extend_from_slice(table) else {
        unreachable!();
    };
}

impl Making<'_> {
    ghost use Rattle.cckd_tables.specs.Making.{tables_of, IsMaking, HasOldEntries, AddsTable, AreMade, Commits};

    /// The table of a group, read where it isn't cached. A group without a table gives each track the same entry.
    fn old_table<T: Stage>(
        &self,
        stage: &mut T,
        slot: Slot,
        group: u32,
        table: &mut [u8],
    ) -> Result<(), Device>
        requires making { IsMaking self.now }
        requires group { group < self.now.layout.now.groups }
        requires size { length table.old ≡ 2048 }
        requires of { IsOfSlot (tables_of self.now) slot (seen T.Shows stage.old) }
        ensures size { length table.new ≡ 2048 }
        ensures entries { OnOk result (HasOldEntries self.now.layout.now group table.new slot (seen T.Shows stage.old)) }
        ensures looks { OnlyLooks result (seen T.Shows stage.old) (seen T.Shows stage.new) }
        ensures called { Called (seen T.Shows stage.old) (seen T.Shows stage.new) }
    {
        let word = self.words[group as usize];
        if word == 0 || word == SEE_PARENT {
            begin_table(self.layout, word, table);
            return Ok(());
        }
        match self.cache.peek(group) {
            Some(frame) => {
                table.copy_from_slice(self.cache.bytes(frame));
                Ok(())
            }
            None => read_table(stage, slot, word, table),
        }
    }

    /// Puts the new table of a group behind others.
    fn add<T: Stage>(
        &self,
        stage: &mut T,
        slot: Slot,
        group: u32,
        tables: &mut Vec<u8>,
    ) -> Result<(), Device>
        requires making { IsMaking self.now }
        requires group { group < self.now.layout.now.groups }
        requires room { vec_len tables.old + 2048 ≤ vec_capacity tables.old }
        requires of { IsOfSlot (tables_of self.now) slot (seen T.Shows stage.old) }
        ensures added { OnOk result (AddsTable self.now.layout.now self.now.entries.now group slot (seen T.Shows stage.old) tables.old.items tables.new.items) }
        ensures len { OnOk result (vec_len tables.new ≡ vec_len tables.old + 2048) }
        ensures capacity { vec_capacity tables.old ≤ vec_capacity tables.new }
        ensures looks { OnlyLooks result (seen T.Shows stage.old) (seen T.Shows stage.new) }
        ensures called { Called (seen T.Shows stage.old) (seen T.Shows stage.new) }
    {
        let mut table = [0; TABLE_LEN as usize];
        self.old_table(stage, slot, group, &mut table)?;
        put_entries(self.layout.order, group, self.entries, &mut table);
        push_table(tables, &table);
        Ok(())
    }

    /// Makes the new tables of staged words, one behind the other.
    pub(crate) fn make<T: Stage>(
        &self,
        stage: &mut T,
        slot: Slot,
        moved: &[StagedWord],
        tables: &mut Vec<u8>,
    ) -> Result<(), Device>
        requires making { IsMaking self.now }
        requires there { AllByRecursion (λ w. w.group < self.now.layout.now.groups) moved.now }
        requires room { 2048 * length moved.now ≤ vec_capacity tables.old }
        requires of { IsOfSlot (tables_of self.now) slot (seen T.Shows stage.old) }
        ensures made { OnOk result (AreMade self.now.layout.now (record { entries = self.now.entries.now; words = moved.now }) (length moved.now) tables.new.items slot (seen T.Shows stage.old)) }
        ensures len { OnOk result (vec_len tables.new ≡ 2048 * length moved.now) }
        ensures capacity { vec_capacity tables.old ≤ vec_capacity tables.new }
        ensures looks { OnlyLooks result (seen T.Shows stage.old) (seen T.Shows stage.new) }
        ensures calls { CallsAtMost (length moved.now) (seen T.Shows stage.old) (seen T.Shows stage.new) }
    {
        tables.clear();
        for word in moved {
            self.add(stage, slot, word.group, tables)?;
        }
        Ok(())
    }

    /// Makes the new tables of staged words, and writes them with the words and the entries. All reads come before the
    /// first write.
    pub(crate) fn commit<T: Stage>(
        &self,
        stage: &mut T,
        slot: Slot,
        moved: &[StagedWord],
        tables: &mut Vec<u8>,
    ) -> Result<(), Device>
        requires making { IsMaking self.now }
        requires order { AreInOrder self.now.layout.now (record { entries = self.now.entries.now; words = moved.now }) }
        requires room { 2048 * length moved.now ≤ vec_capacity tables.old }
        requires of { IsOfSlot (tables_of self.now) slot (seen T.Shows stage.old) }
        ensures stopped { Commits self.now.layout.now (record { entries = self.now.entries.now; words = moved.now }) slot (seen T.Shows stage.old)
            → StopsLeave slot (MayLeave self.now.layout.now (record { entries = self.now.entries.now; words = moved.now }) slot
            (seen T.Shows stage.old).world.events (file_of (seen T.Shows stage.old).world slot)) (seen T.Shows stage.old) (seen T.Shows stage.new) }
        ensures done { Commits self.now.layout.now (record { entries = self.now.entries.now; words = moved.now }) slot (seen T.Shows stage.old)
            → OnOk result (StopLeaves slot (IsBlended self.now.layout.now (record { entries = self.now.entries.now; words = moved.now })
            (file_of (seen T.Shows stage.old).world slot)) (seen T.Shows stage.new)) }
        ensures now { Commits self.now.layout.now (record { entries = self.now.entries.now; words = moved.now }) slot (seen T.Shows stage.old)
            → OnOk result (IsCommittedFrom self.now.layout.now (record { entries = self.now.entries.now; words = moved.now })
            (file_of (seen T.Shows stage.old).world slot) (file_of (seen T.Shows stage.new).world slot)) }
        ensures sure { Tells (seen T.Shows stage.old) → IsSure (seen T.Shows stage.old).world → OnOk result (IsSure (seen T.Shows stage.new).world) }
        ensures others { OnlyIn slot (seen T.Shows stage.old) (seen T.Shows stage.new) }
        ensures counts { CountsDevice result (seen T.Shows stage.old).faults (seen T.Shows stage.new).faults }
        ensures read { result ≡ Err Device.Read → Stays (seen T.Shows stage.old) (seen T.Shows stage.new) }
        ensures calls { CallsAtMost (commit_calls self.now.words.now (record { entries = self.now.entries.now; words = moved.now })) (seen T.Shows stage.old) (seen T.Shows stage.new) }
        ensures capacity { vec_capacity tables.old ≤ vec_capacity tables.new }
    {
        self.make(stage, slot, moved, tables)?;
        let commit = Commit {
            layout: self.layout,
            words: self.words,
            moved,
            tables: tables.as_slice(),
            entries: self.entries,
        };
        commit.write(stage, slot)
    }
}
