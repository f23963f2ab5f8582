//! The words and the cached tables, once what was staged stands in the file.
ghost use Rattle.std.specs.Prelude.{◌≡◌, ◌+◌, ◌<◌, ℕ, List, length, take, slice_index_or};
ghost use Rattle.std.specs.List.{AllByRecursion};
ghost use Rattle.std.specs.List.Sorted.{IsStrictlyIncreasing};
ghost use Rattle.cckd_tables.specs.declared.staged.StagedEntry.{StagedEntry as Entry};
ghost use Rattle.cckd_tables.specs.Tables.{CachedTable};
ghost use Rattle.cckd_tables.specs.Cached.{IsCache, tables_in};
ghost use Rattle.cckd_tables.specs.Commit.{staged_tracks};
ghost use Rattle.cckd_tables.specs.Settling.{with_words, PutsEntry, AreAllPutOver};

use crate::staged::{StagedEntry, StagedWord};
use cckd_base::{GROUP_TRACKS, Order, put_bytes};
use cckd_frames::Frames;

/// Puts staged words in their places.
pub(crate) fn settle_words(words: &mut [u32], moved: &[StagedWord])
    requires { AllByRecursion (λ w. w.group < length words.old) moved.now }
    ensures { words.new ≡ with_words moved.now words.old }
{
    for word in moved {
        words[word.group as usize] = word.pos;
    }
}

/// Puts a staged entry at its place of a table.
fn put_entry(order: Order, staged: &StagedEntry, table: &mut [u8])
    requires { length table.old ≡ 2048 }
    ensures { PutsEntry order staged.now table.old table.new }
{
    let bytes = staged.entry.encode(order);
    put_bytes(table, 8 * (staged.track % GROUP_TRACKS) as usize, &bytes);
}

/// Puts a staged entry into the table of its group, where that is cached.
fn settle_entry(cache: &mut Frames, order: Order, staged: &StagedEntry)
    requires { IsCache cache.old }
    ensures cache { IsCache cache.new }
    ensures put { (entries : List Entry) (i : ℕ) (d : Entry) (first : List CachedTable) → IsStrictlyIncreasing (staged_tracks entries) → i < length entries → slice_index_or entries i d ≡ staged.now
        → AreAllPutOver order (take i entries) first (tables_in cache.old.entries) → AreAllPutOver order (take (i + 1) entries) first (tables_in cache.new.entries) }
{
    match cache.peek(staged.track / GROUP_TRACKS) {
        Some(frame) => put_entry(order, staged, cache.bytes_mut(frame)),
        None => {}
    }
}

/// Puts staged entries into those tables of their groups that are cached.
pub(crate) fn settle_entries(cache: &mut Frames, order: Order, entries: &[StagedEntry])
    requires cache { IsCache cache.old }
    requires order { IsStrictlyIncreasing (staged_tracks entries.now) }
    ensures cache { IsCache cache.new }
    ensures put { AreAllPutOver order entries.now (tables_in cache.old.entries) (tables_in cache.new.entries) }
{
    for staged in entries {
        settle_entry(cache, order, staged);
    }
}
