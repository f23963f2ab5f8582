//! Staged entries that go in one write.
ghost use Rattle.std.specs.Prelude.{◌<◌, length};
ghost use Rattle.cckd_tables.specs.Commit.{staged_tracks};
ghost use Rattle.cckd_tables.specs.Cells.{IsRun};
ghost use Rattle.cckd_tables.specs.Calls.{IsWhole};

use crate::staged::StagedEntry;
use cckd_base::GROUP_TRACKS;

/// Bytes of a sector, which is written whole or not.
const SECTOR: u64 = 512;

/// How many staged entries go in one write, from one of them on that stands at this place.
pub(crate) fn run_len(at: u64, entries: &[StagedEntry], first: usize) -> usize
    requires { first < length entries.now }
    ensures run { IsRun (staged_tracks entries.now) first result at }
    ensures whole { IsWhole (staged_tracks entries.now) first result at }
{
    let start = entries[first].track;
    let room = ((SECTOR - at % SECTOR) / 8) as usize;
    let of_group = (GROUP_TRACKS - start % GROUP_TRACKS) as usize;
    let most = room.min(of_group).min(entries.len() - first);
    for count in 1..most {
        if u64::from(entries[first + count].track) != u64::from(start) + count as u64 {
            return count;
        }
    }
    most.max(1)
}
