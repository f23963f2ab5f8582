//! How far a survey has come through the items of an image.
ghost use Rattle.std.specs.Prelude.{◌≡◌, ◌≢◌, ◌↔◌, ◌+◌, ◌*◌, ◌<◌, ◌≤◌, [], ◌∷◌, Ok, Some, length, IfOk, OnOk, IsTrue};
ghost use Rattle.std.specs.Int.{w32};
ghost use Rattle.std.specs.List.Sorted.{IsPermutation, IsNonDecreasingBy};
ghost use Rattle.cckd_base.specs.Numbers.{number_at};
ghost use Rattle.cckd_base.specs.Geometry.{area_of, IsLayout};
ghost use Rattle.cckd_base.specs.Survey.{header_space, by_position};
ghost use Rattle.cckd_tables.specs.declared.progress.Until.TheVariants.{FirstMisfit};
ghost use Rattle.cckd_tables.specs.Inside.{IsFormed, HasFormed, IsUnderWay, Takes, items_of_words, items_of_table, tracks_end};

use crate::item::{entry_item, header_space, table_item};
use crate::kept::Kept;
use cckd_base::{Extent, GROUP_TRACKS, L2Entry, Layout, Memory, Misfit, part};
use std::alloc::Global;

/// How far a survey goes.
#[derive(Clone, Copy)]
pub(crate) enum Until {
    /// To the last entry.
    End,
    /// No table is looked at behind the first misfit.
    FirstMisfit,
}

/// What was kept of the items so far, and what was wrong with them.
#[derive(Drop)]
pub(crate) struct Progress {
    /// In the order of the survey.
    pub(crate) spaces: Vec<Extent>,
    /// The same spaces, found by their position.
    kept: Kept,
    pub(crate) misfits: Vec<Misfit>,
}

/// The level-one word of a group.
pub(crate) fn word_in(l: &Layout, words: &[u8], group: u32) -> u32
    requires { 4 * group + 4 ≤ length words.now }
    ensures { result ≡ number_at l.now.order w32 words.now (4 * group) }
{
    l.order.read_u32(&words[4 * group as usize..])
}

/// Puts the spaces in order of position.
fn sort(spaces: &mut Vec<Extent>)
    ensures moved { IsPermutation spaces.old.items spaces.new.items }
    ensures sorted { IsNonDecreasingBy (λ e. e.pos) spaces.new.items }
{
    spaces.sort_unstable_by_key(|e| e.pos);
}

impl Progress {
    /// The header area is kept first.
    pub(crate) fn new(alloc: Global, l: &Layout, len: u32) -> Result<Progress, Memory>
        requires { area_of l.now.groups ≤ len }
        ensures header { IfOk result (λ s. s.spaces.items ≡ header_space l.now.groups ∷ []) }
        ensures misfits { IfOk result (λ s. s.misfits.items ≡ []) }
        ensures under_way { IfOk result (IsUnderWay len) }
    {
        let header = header_space(l, len);
        let mut spaces = Vec::new(alloc);
        spaces.push(header)?;
        let mut kept = Kept::new(alloc);
        kept.add(header)?;
        Ok(Progress {
            spaces,
            kept,
            misfits: Vec::new(alloc),
        })
    }

    /// Whether it has gone as far as it should.
    pub(crate) fn is_done(&self, until: Until) -> bool
        ensures { IsTrue result ↔ ((until ≡ FirstMisfit) × (self.now.misfits.items ≢ [])) }
    {
        match until {
            Until::End => false,
            Until::FirstMisfit => !self.misfits.is_empty(),
        }
    }

    /// Keeps the space of an item, or notes what is wrong with it.
    fn take(&mut self, len: u32, item: Result<Option<Extent>, Misfit>) -> Result<(), Memory>
        requires under_way { IsUnderWay len self.old }
        requires formed { HasFormed len item }
        ensures { OnOk result (Takes len (item ∷ []) self.old self.new) }
    {
        match item {
            Err(misfit) => {
                self.misfits.push(misfit)?;
                Ok(())
            }
            Ok(None) => Ok(()),
            Ok(Some(space)) => self.take_space(len, space),
        }
    }

    /// Keeps a space that shares no byte with a kept one, or else notes the overlap.
    fn take_space(&mut self, len: u32, space: Extent) -> Result<(), Memory>
        requires under_way { IsUnderWay len self.old }
        requires formed { IsFormed len space }
        ensures { OnOk result (Takes len (Ok (Some space) ∷ []) self.old self.new) }
    {
        if let Some(first) = self.kept.met(&space) {
            self.misfits.push(Misfit::Overlap {
                first,
                second: space,
            })?;
            return Ok(());
        }
        self.kept.add(space)?;
        self.spaces.push(space)?;
        Ok(())
    }

    /// Takes the tables that these level-one words name.
    pub(crate) fn take_words(&mut self, l: &Layout, len: u32, words: &[u8]) -> Result<(), Memory>
        requires under_way { IsUnderWay len self.old }
        requires words { length words.now ≡ 4 * l.now.groups }
        ensures { OnOk result (Takes len (items_of_words l.now len words.now l.now.groups) self.old self.new) }
    {
        for group in 0..l.groups {
            let item = table_item(l, len, group, word_in(l, words, group));
            self.take(len, item)?;
        }
        Ok(())
    }

    /// Takes the tracks that the entries of a group's table name.
    pub(crate) fn take_table(
        &mut self,
        l: &Layout,
        len: u32,
        group: u32,
        bytes: &[u8],
    ) -> Result<(), Memory>
        requires under_way { IsUnderWay len self.old }
        requires layout { IsLayout l.now }
        requires group { group < l.now.groups }
        requires bytes { length bytes.now ≡ 2048 }
        ensures { OnOk result (Takes len (items_of_table l.now len bytes.now (256 * group) (tracks_end l.now group)) self.old self.new) }
    {
        let first = GROUP_TRACKS * group;
        let end = (first + GROUP_TRACKS).min(l.geo.tracks());
        for track in first..end {
            let at = 8 * (track % GROUP_TRACKS) as usize;
            let entry = L2Entry::decode(l.order, part(bytes, at));
            let item = entry_item(l, len, track, entry);
            self.take(len, item)?;
        }
        Ok(())
    }

    /// The kept spaces in order of position, and the misfits.
    pub(crate) fn finish(self, len: u32) -> (Vec<Extent>, Vec<Misfit>)
        requires { IsUnderWay len self }
        ensures kept { result.0.items ≡ by_position self.spaces.items }
        ensures misfits { result.1.items ≡ self.misfits.items }
    {
        let Progress {
            mut spaces,
            misfits,
            kept: _,
        } = self;
        sort(&mut spaces);
        (spaces, misfits)
    }
}
