//! Entries and words that no table of the file has yet.
use cckd_base::L2Entry;

/// A track's new entry, which its table hasn't yet.
#[derive(Clone, Copy, Debug, PartialEq, Eq)]
pub struct StagedEntry {
    pub track: u32,
    pub entry: L2Entry,
}

/// The position of a group's new table, which no level-one word names yet.
#[derive(Clone, Copy, Debug, PartialEq, Eq)]
pub struct StagedWord {
    pub group: u32,
    pub pos: u32,
}
