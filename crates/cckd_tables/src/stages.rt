//! All that is staged, with memory for 256 entries and words.
ghost use Rattle.std.specs.Prelude.{◌≡◌, ◌⊎◌, ◌+◌, ◌<◌, ◌≤◌, length, IsNone, IfOk, slice_get, count_by};
ghost use Rattle.std.specs.Vec.{vec_len, vec_capacity};
ghost use Rattle.cckd_tables.specs.Staging.{entry_for, place_for, IsStaged, IsMoved};
ghost use Rattle.cckd_tables.specs.Stages.{IsOrderedBy, AreStaged, IsPlaceOf, with_placed, with_entry, with_word, none_staged, free_count, is_place, word_space, entry_space, table_spaces, track_spaces, staged_spaces};

use crate::staged::{StagedEntry, StagedWord};
use cckd_base::{Extent, L2Entry, Memory, Owner, SEE_PARENT, TABLE_LEN};
use std::alloc::Global;
use std::marker::Model;

/// How many entries and words can be staged.
pub(crate) const STAGES: usize = 256;

/// Entries in order of track and words in order of group, each at most once.
#[derive(Drop)]
pub(crate) struct Stages {
    entries: Vec<StagedEntry>,
    words: Vec<StagedWord>,
}

impl Model for Stages {
    ghost use Rattle.std.specs.Prelude.{◌≤◌};
    ghost use Rattle.std.specs.Vec.{vec_capacity};
    ghost use Rattle.cckd_tables.specs.Staging.{Stages as View};
    ghost use Rattle.cckd_tables.specs.Stages.{AreStaged};

    ghost Value = { View };

    ghost view = { λ s. record { entries = s.entries.items; words = s.words.items } };

    ghost invariant = { λ s. AreStaged (record { entries = s.entries.items; words = s.words.items }) × (256 ≤ vec_capacity s.entries) × (256 ≤ vec_capacity s.words) };
}

/// Where the entry of a track stands, or else where it would.
fn entry_place(entries: &[StagedEntry], track: u32) -> Result<usize, usize>
    requires { IsOrderedBy (λ x. x.track) entries.now }
    ensures { IsPlaceOf (λ x. x.track) track entries.now result }
{
    let at = entries.partition_point(|x| x.track < track);
    if at < entries.len() && entries[at].track == track {
        return Ok(at);
    }
    Err(at)
}

/// The entry of a track.
fn entry_of(entries: &[StagedEntry], track: u32) -> Option<L2Entry>
    requires { IsOrderedBy (λ x. x.track) entries.now }
    ensures { result ≡ entry_for track entries.now }
{
    match entry_place(entries, track) {
        Ok(at) => Some(entries[at].entry),
        Err(_) => None,
    }
}

/// Puts one in at its place. One of the same track goes.
fn put_entry(entries: &mut Vec<StagedEntry>, staged: StagedEntry)
    requires order { IsOrderedBy (λ x. x.track) entries.old.items }
    requires room { IsNone (entry_for staged.track entries.old.items) → vec_len entries.old < vec_capacity entries.old }
    ensures items { entries.new.items ≡ with_placed (λ x. x.track) staged entries.old.items }
    ensures capacity { vec_capacity entries.old ≤ vec_capacity entries.new }
{
    match entry_place(entries.as_slice(), staged.track) {
        Ok(at) => entries[at] = staged,
        Err(at) => {
            let Ok(()) = entries.insert(at, staged) else {
                unreachable!();
            };
        }
    }
}

/// Where the word of a group stands, or else where it would.
fn word_place(words: &[StagedWord], group: u32) -> Result<usize, usize>
    requires { IsOrderedBy (λ x. x.group) words.now }
    ensures { IsPlaceOf (λ x. x.group) group words.now result }
{
    let at = words.partition_point(|x| x.group < group);
    if at < words.len() && words[at].group == group {
        return Ok(at);
    }
    Err(at)
}

/// The position of a group's new table.
fn pos_of(words: &[StagedWord], group: u32) -> Option<u32>
    requires { IsOrderedBy (λ x. x.group) words.now }
    ensures { result ≡ place_for group words.now }
{
    match word_place(words, group) {
        Ok(at) => Some(words[at].pos),
        Err(_) => None,
    }
}

/// Puts one in at its place. One of the same group goes.
fn put_word(words: &mut Vec<StagedWord>, staged: StagedWord)
    requires order { IsOrderedBy (λ x. x.group) words.old.items }
    requires room { IsNone (place_for staged.group words.old.items) → vec_len words.old < vec_capacity words.old }
    ensures items { words.new.items ≡ with_placed (λ x. x.group) staged words.old.items }
    ensures capacity { vec_capacity words.old ≤ vec_capacity words.new }
{
    match word_place(words.as_slice(), staged.group) {
        Ok(at) => words[at] = staged,
        Err(at) => {
            let Ok(()) = words.insert(at, staged) else {
                unreachable!();
            };
        }
    }
}

/// Whether a position names a space.
fn is_place(pos: u32) -> bool
    ensures { result ≡ is_place pos }
{
    pos != 0 && pos != SEE_PARENT
}

/// The space of a group's new table.
fn word_space(word: &StagedWord) -> Extent
    ensures { result ≡ word_space word.now }
{
    Extent {
        pos: word.pos,
        len: TABLE_LEN,
        size: TABLE_LEN,
        owner: Owner::Table(word.group),
    }
}

/// The space of a track's new bytes.
fn entry_space(staged: &StagedEntry) -> Extent
    ensures { result ≡ entry_space staged.now }
{
    Extent {
        pos: staged.entry.pos,
        len: u32::from(staged.entry.len),
        size: u32::from(staged.entry.size),
        owner: Owner::Track(staged.track),
    }
}

/// How many of these words name a space.
fn table_count(words: &[StagedWord]) -> usize
    ensures { result ≡ count_by (λ w. is_place w.pos) words.now }
{
    words.iter().filter(|w| is_place(w.pos)).count()
}

/// The space of this number that these words name.
fn table_space(words: &[StagedWord], number: usize) -> Option<Extent>
    ensures { result ≡ slice_get (table_spaces words.now) number }
{
    let mut left = number;
    for word in words {
        if is_place(word.pos) {
            if left == 0 {
                return Some(word_space(word));
            }
            left -= 1;
        }
    }
    None
}

/// The space of this number that these entries name.
fn track_space(entries: &[StagedEntry], number: usize) -> Option<Extent>
    ensures { result ≡ slice_get (track_spaces entries.now) number }
{
    let mut left = number;
    for staged in entries {
        if is_place(staged.entry.pos) {
            if left == 0 {
                return Some(entry_space(staged));
            }
            left -= 1;
        }
    }
    None
}

impl Stages {
    /// Nothing is staged.
    pub(crate) fn new(alloc: Global) -> Result<Stages, Memory>
        ensures { IfOk result (λ s. s ≡ none_staged) }
    {
        let entries = Vec::with_capacity(alloc, STAGES)?;
        let words = Vec::with_capacity(alloc, STAGES)?;
        Ok(Stages { entries, words })
    }

    /// The entry that is staged for a track.
    pub(crate) fn entry(&self, track: u32) -> Option<L2Entry>
        ensures { result ≡ entry_for track self.now.entries }
    {
        entry_of(self.entries.as_slice(), track)
    }

    /// The position that is staged for the table of a group.
    pub(crate) fn place(&self, group: u32) -> Option<u32>
        ensures { result ≡ place_for group self.now.words }
    {
        pos_of(self.words.as_slice(), group)
    }

    /// How many more entries and words can be staged.
    pub(crate) fn free(&self) -> u32
        ensures free { result ≡ free_count self.now }
        ensures staged { AreStaged self.now }
    {
        (STAGES - self.entries.len() - self.words.len()) as u32
    }

    /// Stages an entry for its track.
    pub(crate) fn put_entry(&mut self, staged: StagedEntry)
        requires { IsStaged staged.track self.old ⊎ (0 < free_count self.old) }
        ensures put { self.new ≡ with_entry staged self.old }
        ensures staged { AreStaged self.new }
    {
        put_entry(&mut self.entries, staged);
    }

    /// Stages a place for the table of its group.
    pub(crate) fn put_word(&mut self, staged: StagedWord)
        requires { IsMoved staged.group self.old ⊎ (0 < free_count self.old) }
        ensures put { self.new ≡ with_word staged self.old }
        ensures staged { AreStaged self.new }
    {
        put_word(&mut self.words, staged);
    }

    /// The staged space of this number, counted from 0 through words and then entries.
    pub(crate) fn space(&self, number: usize) -> Option<Extent>
        ensures { result ≡ slice_get (staged_spaces self.now) number }
    {
        let tables = table_count(self.words.as_slice());
        if number < tables {
            return table_space(self.words.as_slice(), number);
        }
        track_space(self.entries.as_slice(), number - tables)
    }

    /// Nothing is staged any more.
    pub(crate) fn clear(&mut self)
        ensures { self.new ≡ none_staged }
    {
        self.entries.clear();
        self.words.clear();
    }

    /// In order of track.
    pub(crate) fn entries(&self) -> &[StagedEntry]
        ensures entries { result.now ≡ self.now.entries }
        ensures staged { AreStaged self.now }
    {
        self.entries.as_slice()
    }

    /// In order of group.
    pub(crate) fn words(&self) -> &[StagedWord]
        ensures words { result.now ≡ self.now.words }
        ensures staged { AreStaged self.now }
    {
        self.words.as_slice()
    }
}
