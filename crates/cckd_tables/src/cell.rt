//! The single writes of a commit: a new table, a level-one word, entries side by side. Each is one call of the shelf.
ghost use Rattle.std.specs.Prelude.{◌≡◌, ◌+◌, ◌*◌, ◌/◌, ◌^◌, ◌<◌, ◌≤◌, length};
ghost use Rattle.std.specs.Int.{w32};
ghost use Rattle.std.specs.List.{AllByRecursion};
ghost use Rattle.cckd_shelf.specs.Seen.{seen, Called};
ghost use Rattle.cckd_base.specs.Numbers.{bytes_of, number_of};
ghost use Rattle.cckd_tables.specs.Cells.{OneWrite, IsEncoded, cell, run_bytes};

use crate::staged::{StagedEntry, StagedWord};
use crate::table::put_run;
use cckd_base::{GROUP_TRACKS, Order, WORDS_AT};
use cckd_shelf::{Failed, Shelf, Slot};

/// Where the entry of a track stands, by the level-one words.
pub(crate) fn cell(words: &[u32], track: u32) -> u64
    requires { track / 256 < length words.now }
    ensures value { result ≡ cell words.now track }
    ensures within { result < 2 ^ 33 }
{
    let word = words[(track / GROUP_TRACKS) as usize];
    u64::from(word) + 8 * u64::from(track % GROUP_TRACKS)
}

/// Writes a new table to its place.
pub(crate) fn write_table<S: Shelf>(
    shelf: &mut S,
    slot: Slot,
    pos: u32,
    table: &[u8],
) -> Result<(), Failed>
    requires { length table.now ≡ 2048 }
    ensures write { OneWrite slot pos table.now result (seen S.Shows shelf.old) (seen S.Shows shelf.new) }
    ensures called { Called (seen S.Shows shelf.old) (seen S.Shows shelf.new) }
{
    shelf.write(slot, u64::from(pos), table)
}

/// Writes the word of a group.
pub(crate) fn write_word<S: Shelf>(
    shelf: &mut S,
    slot: Slot,
    order: Order,
    word: StagedWord,
) -> Result<(), Failed>
    ensures write { OneWrite slot (1024 + 4 * word.group) (bytes_of order w32 word.pos) result (seen S.Shows shelf.old) (seen S.Shows shelf.new) }
    ensures called { Called (seen S.Shows shelf.old) (seen S.Shows shelf.new) }
    ensures size { length (bytes_of order w32 word.pos) ≡ 4 }
    ensures spelled { number_of order w32 (bytes_of order w32 word.pos) ≡ word.pos }
{
    let bytes = order.u32_bytes(word.pos);
    let at = u64::from(WORDS_AT) + 4 * u64::from(word.group);
    shelf.write(slot, at, &bytes)
}

/// Writes entries side by side, from a place in a table on.
pub(crate) fn write_run<S: Shelf>(
    shelf: &mut S,
    slot: Slot,
    order: Order,
    at: u64,
    run: &[StagedEntry],
) -> Result<(), Failed>
    requires few { length run.now ≤ 64 }
    requires place { at < 2 ^ 33 }
    ensures write { OneWrite slot at (run_bytes order run.now) result (seen S.Shows shelf.old) (seen S.Shows shelf.new) }
    ensures called { Called (seen S.Shows shelf.old) (seen S.Shows shelf.new) }
    ensures encoded { AllByRecursion (λ s. IsEncoded order s.entry) run.now }
{
    let mut bytes = [0; 512];
    put_run(order, run, &mut bytes);
    shelf.write(slot, at, &bytes[..8 * run.len()])
}
