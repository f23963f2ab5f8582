//! The bytes of tables, and of entries that go in one write.
ghost use Rattle.std.specs.Prelude.{◌≡◌, ◌⊎◌, ℕ, ◌*◌, ◌≤◌, List, length, take};
ghost use Rattle.std.specs.List.{AllByRecursion};
ghost use Rattle.std.specs.List.Sorted.{IsStrictlyIncreasing};
ghost use Rattle.cckd_base.specs.Entry.{see_parent, entry_by_word};
ghost use Rattle.cckd_tables.specs.Blend.{put_over};
ghost use Rattle.cckd_tables.specs.Commit.{staged_tracks};
ghost use Rattle.cckd_tables.specs.Cells.{IsEncoded, run_bytes, entry_among, ArePutOver};

use crate::staged::StagedEntry;
use cckd_base::{GROUP_TRACKS, L2Entry, Layout, Order, SEE_PARENT, put_bytes};

/// Puts the eight bytes of each of these entries at the front of a buffer, one behind the other.
pub(crate) fn put_run(order: Order, run: &[StagedEntry], into: &mut [u8])
    requires { 8 * length run.now ≤ length into.old }
    ensures bytes { take (8 * length run.now) into.new ≡ run_bytes order run.now }
    ensures encoded { AllByRecursion (λ s. IsEncoded order s.entry) run.now }
{
    let mut end = 0;
    for staged in run {
        let bytes = staged.entry.encode(order);
        end = put_bytes(into, end, &bytes);
    }
}

/// Puts the staged entries of a group over those of its table.
pub(crate) fn put_entries(order: Order, group: u32, entries: &[StagedEntry], table: &mut [u8])
    requires size { length table.old ≡ 2048 }
    requires order { IsStrictlyIncreasing (staged_tracks entries.now) }
    ensures bytes { table.new ≡ put_over order group entries.now table.old }
    ensures entries { ArePutOver order group entries.now table.old table.new }
{
    for staged in entries {
        if staged.track / GROUP_TRACKS == group {
            let bytes = staged.entry.encode(order);
            put_bytes(table, 8 * (staged.track % GROUP_TRACKS) as usize, &bytes);
        }
    }
}

/// Fills a table with one entry.
fn fill(order: Order, entry: L2Entry, table: &mut [u8])
    requires { length table.old ≡ 2048 }
    ensures { (t : ℕ) → entry_among order table.new t ≡ entry }
{
    let bytes = entry.encode(order);
    for at in 0..GROUP_TRACKS as usize {
        put_bytes(table, 8 * at, &bytes);
    }
}

/// Fills a new table with the entry that a word without a table gives to each track of its group.
pub(crate) fn begin_table(l: &Layout, word: u32, table: &mut [u8])
    requires size { length table.old ≡ 2048 }
    requires word { (word ≡ 0) ⊎ (word ≡ see_parent) }
    ensures { (file : List ℕ) (t : ℕ) → entry_among l.now.order table.new t ≡ entry_by_word l.now file word t }
{
    let format = u16::from(l.null_fmt);
    let (pos, len) = if word == 0 {
        (0, format)
    } else {
        (SEE_PARENT, u16::MAX)
    };
    fill(
        l.order,
        L2Entry {
            pos,
            len,
            size: len,
        },
        table,
    );
}
