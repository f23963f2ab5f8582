//! Look-ups, staging and commits on a 2311 with a table for its first group.
ghost use Rattle.std.specs.Prelude.{◌≡◌, ◌<◌, IfOk};
ghost use Rattle.cckd_base.specs.Geometry.{track_count, IsLayout};
ghost use Rattle.cckd_shelf.specs.Seen.{seen};
ghost use Rattle.cckd_tables.specs.Stages.{none_staged};
ghost use Rattle.cckd_tables.specs.Looking.{IsOfSlot};

use crate::survey::{Image, entry, small, stage_of};
use cckd_base::{L2Entry, Layout, Order, Track};
use cckd_shelf::{Slot, Stage};
use cckd_tables::{Device, Tables, scan};
use std::alloc::Global;
use std::test::Fail;

/// New tables of a sound file, with its words.
fn opened<T: Stage>(alloc: Global, l: &Layout, stage: &mut T, slot: Slot) -> Result<Tables, Fail>
    requires { IsLayout l.now }
    ensures of { IfOk result (λ t. IsOfSlot t slot (seen T.Shows stage.new)) }
    ensures layout { IfOk result (λ t. t.layout ≡ l.now) }
    ensures none { IfOk result (λ t. t.stages ≡ none_staged) }
{
    let len = u32::try_from(stage.len(slot)?)?;
    if u64::from(len) < l.area() {
        return Err(Fail::new("no header area"));
    }
    let Ok(_spaces) = scan(alloc, stage, slot, l, len) else {
        return Err(Fail::new("a misfit"));
    };
    let mut tables = Tables::new(alloc, l)?;
    tables.load_words(stage, slot)?;
    Ok(tables)
}

const FIRST: L2Entry = L2Entry {
    pos: 3104,
    len: 40,
    size: 40,
};

const OTHER: L2Entry = L2Entry {
    pos: 3144,
    len: 48,
    size: 48,
};

const NULL: L2Entry = L2Entry {
    pos: 0,
    len: 0,
    size: 0,
};

/// A table for the first group, with an entry for track 0.
const IMAGE: Image = Image {
    len: 5240,
    words: &[(0, 1056)],
    entries: &[(1056, FIRST)],
};

/// Looks a track up twice, and says whether its table was cached in between.
fn looked_up_twice<T: Stage>(
    tables: &mut Tables,
    stage: &mut T,
    slot: Slot,
) -> Result<(L2Entry, bool, L2Entry), Device>
    requires track { 0 < track_count tables.old.layout.geo }
    requires of { IsOfSlot tables.old slot (seen T.Shows stage.old) }
{
    let first = tables.lookup(stage, slot, Track(0))?;
    let cached = tables.cached(0);
    let second = tables.lookup(stage, slot, Track(0))?;
    Ok((first, cached, second))
}

/// Gives the second group a table with an entry for its second track, and answers the entries of two tracks before.
fn committed<T: Stage>(
    tables: &mut Tables,
    stage: &mut T,
    slot: Slot,
) -> Result<(L2Entry, L2Entry), Device>
    requires tracks { 257 < track_count tables.old.layout.geo }
    requires groups { 1 < tables.old.layout.groups }
    requires none { tables.old.stages ≡ none_staged }
    requires of { IsOfSlot tables.old slot (seen T.Shows stage.old) }
{
    tables.stage_word(1, 3192);
    tables.stage_entry(Track(257), OTHER);
    let null = tables.lookup(stage, slot, Track(256))?;
    let staged = tables.lookup(stage, slot, Track(257))?;
    tables.commit(stage, slot)?;
    Ok((null, staged))
}

#[test]
fn a_table_is_cached_once_it_was_needed(rt: HostRuntime) -> Result<(), Fail> {
    let l = small(Order::Little, false);
    // The bind, the length, the words and the table of the scan, the words again, and one table.
    let (mut stage, slot) = stage_of(rt.alloc(), l.order, &IMAGE, &[7])?;
    let mut tables = opened(rt.alloc(), &l, &mut stage, slot)?;
    let looked = looked_up_twice(&mut tables, &mut stage, slot)?;
    assert_eq!(rt; looked, (FIRST, true, FIRST));
    Ok(())
}

#[test]
fn what_is_staged_comes_first_and_is_committed(rt: HostRuntime) -> Result<(), Fail> {
    let l = small(Order::Big, false);
    let (mut stage, slot) = stage_of(rt.alloc(), l.order, &IMAGE, &[])?;
    let mut tables = opened(rt.alloc(), &l, &mut stage, slot)?;
    let entries = committed(&mut tables, &mut stage, slot)?;
    assert_eq!(rt; entries, (NULL, OTHER));
    let mut again = opened(rt.alloc(), &l, &mut stage, slot)?;
    let entry = again.lookup(&mut stage, slot, Track(257))?;
    assert_eq!(rt; entry, OTHER);
    Ok(())
}
