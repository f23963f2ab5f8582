//! Surveys of small images: a 2311 has 2,000 tracks in eight groups, and its header area ends at 1,056.
ghost use Rattle.std.specs.Prelude.{◌≡◌};
ghost use Rattle.cckd_base.specs.Geometry.{track_count, IsLayout};

use cckd_base::{Extent, Geometry, L2Entry, Layout, Misfit, Order, Owner, ScanFault};
use cckd_memory::{Bytes, FileIn, MemoryStage};
use cckd_shelf::{Shelf, Slot};
use cckd_tables::{SurveyFault, Surveyed, scan, survey};
use std::alloc::Global;
use std::test::Fail;

const HEADER: Extent = Extent {
    pos: 0,
    len: 1056,
    size: 1056,
    owner: Owner::Header,
};

pub(crate) fn small(order: Order, shadow: bool) -> Layout
    ensures layout { IsLayout result }
    ensures tracks { track_count result.geo ≡ 2000 }
    ensures groups { result.groups ≡ 8 }
{
    Layout {
        order,
        geo: Geometry {
            devtype: 0x11,
            heads: 10,
            cyls: 200,
            track_size: 4096,
        },
        groups: 8,
        shadow,
        null_fmt: 0,
    }
}

fn table(group: u32, pos: u32) -> Extent {
    Extent {
        pos,
        len: 2048,
        size: 2048,
        owner: Owner::Table(group),
    }
}

fn track(t: u32, pos: u32, len: u32, size: u32) -> Extent {
    Extent {
        pos,
        len,
        size,
        owner: Owner::Track(t),
    }
}

pub(crate) fn entry(pos: u32, len: u16, size: u16) -> L2Entry {
    L2Entry { pos, len, size }
}

fn bad_table(group: u32, pos: u32) -> Misfit {
    Misfit::BadTable { group, pos }
}

fn bad_entry(track: u32, entry: L2Entry) -> Misfit {
    Misfit::BadEntry { track, entry }
}

fn overlap(first: Extent, second: Extent) -> Misfit {
    Misfit::Overlap { first, second }
}

/// An image of `len` bytes: level-one words by their group, and entries by their place in the file.
#[derive(Clone, Copy)]
pub(crate) struct Image<'a> {
    pub(crate) len: usize,
    pub(crate) words: &'a [(u16, u32)],
    pub(crate) entries: &'a [(usize, L2Entry)],
}

/// Puts bytes over those of a file, as far as it reaches.
fn patch(file: &mut [u8], at: usize, bytes: &[u8]) {
    for (place, byte) in file.iter_mut().skip(at).zip(bytes) {
        *place = *byte;
    }
}

fn bytes_of(alloc: Global, order: Order, image: &Image) -> Result<Vec<u8>, Fail> {
    let mut file = vec![in alloc; 0; image.len]?;
    for (group, word) in image.words {
        let at = 1024 + 4 * *group as usize;
        patch(&mut file, at, &order.u32_bytes(*word));
    }
    for (at, entry) in image.entries {
        patch(&mut file, *at, &entry.encode(order));
    }
    Ok(file)
}

/// A stage with the image in slot 0, where the calls of these numbers fail: the first binds the slot.
pub(crate) fn stage_of(
    alloc: Global,
    order: Order,
    image: &Image,
    failing: &[u64],
) -> Result<(MemoryStage, Slot), Fail> {
    let bytes = bytes_of(alloc, order, image)?;
    let mut files = Vec::new(alloc);
    files.push(FileIn {
        name: Bytes::of(alloc, b"v")?,
        bytes: Bytes::of(alloc, &bytes)?,
    })?;
    let mut stage = MemoryStage::new(alloc, &files, b"", failing)?;
    let slot = Slot::new(0).ok_or("no slot")?;
    stage.bind(slot, "v")?;
    Ok((stage, slot))
}

/// The survey of an image, where the calls of these numbers fail: the first two bind the slot and ask for
/// the length.
fn survey_of(
    alloc: Global,
    l: &Layout,
    image: &Image,
    failing: &[u64],
) -> Result<Result<Surveyed, SurveyFault>, Fail>
    requires { IsLayout l.now }
{
    let (mut stage, slot) = stage_of(alloc, l.order, image, failing)?;
    let len = u32::try_from(stage.len(slot)?)?;
    if u64::from(len) < l.area() {
        return Err(Fail::new("no header area"));
    }
    Ok(survey(alloc, &mut stage, slot, l, len))
}

/// The same of a scan.
fn scan_of(
    alloc: Global,
    l: &Layout,
    image: &Image,
    failing: &[u64],
) -> Result<Result<Vec<Extent>, ScanFault>, Fail>
    requires { IsLayout l.now }
{
    let (mut stage, slot) = stage_of(alloc, l.order, image, failing)?;
    let len = u32::try_from(stage.len(slot)?)?;
    if u64::from(len) < l.area() {
        return Err(Fail::new("no header area"));
    }
    Ok(scan(alloc, &mut stage, slot, l, len))
}

type Words<'a> = &'a [(u16, u32)];

type Entries<'a> = &'a [(usize, L2Entry)];

#[test]
fn spaces_are_kept_and_misfits_told_in_order(rt: HostRuntime) -> Result<(), Fail> {
    let one = table(0, 1056);
    let cases: [(usize, Words, Entries, &[Extent], &[Misfit]); 9] = [
        (1056, &[], &[], &[HEADER], &[]),
        // Position counts, and neither group nor track. Neighbours touch.
        (
            5300,
            &[(0, 3200), (1, 1056)],
            &[
                (3200, entry(3152, 40, 48)),
                (3208, entry(3104, 40, 48)),
                (1056, entry(5248, 8, 8)),
            ],
            &[
                HEADER,
                table(1, 1056),
                track(1, 3104, 40, 48),
                track(0, 3152, 40, 48),
                table(0, 3200),
                track(256, 5248, 8, 8),
            ],
            &[],
        ),
        // A table may end with the file. Null tracks of both formats have no space.
        (
            3104,
            &[(0, 1056)],
            &[(1056, entry(0, 1, 9)), (1064, entry(0, 0, 0))],
            &[HEADER, one],
            &[],
        ),
        // The file's end cuts a space. Behind the entry of track 1,999, the last, nothing is looked at.
        (
            3149,
            &[(7, 1056)],
            &[(2712, entry(3104, 45, 48)), (2720, entry(8, 0, 1))],
            &[HEADER, table(7, 1056), track(1999, 3104, 45, 45)],
            &[],
        ),
        // The tracks of a table that isn't kept aren't surveyed.
        (
            5200,
            &[(0, 3104), (2, 1057), (3, 1055), (4, 3153), (5, 1056)],
            &[(3104, entry(8, 1, 1))],
            &[HEADER, table(5, 1056), table(0, 3104)],
            &[
                overlap(table(0, 3104), table(2, 1057)),
                bad_table(3, 1055),
                bad_table(4, 3153),
                bad_entry(0, entry(8, 1, 1)),
            ],
        ),
        // The newcomer is the second, also where it begins first, and one byte is enough.
        (
            5200,
            &[(0, 1056)],
            &[(1056, entry(3151, 45, 48)), (1064, entry(3104, 45, 48))],
            &[HEADER, one, track(0, 3151, 45, 48)],
            &[overlap(track(0, 3151, 45, 48), track(1, 3104, 45, 48))],
        ),
        // Of those that are met, the one of least position; here the track's own table.
        (
            5200,
            &[(0, 1056)],
            &[(1056, entry(3200, 9, 9)), (1064, entry(3103, 200, 200))],
            &[HEADER, one, track(0, 3200, 9, 9)],
            &[overlap(one, track(1, 3103, 200, 200))],
        ),
        // What shares bytes with a misfit alone is kept, and the survey goes on behind each misfit.
        (
            5200,
            &[(0, 1056)],
            &[
                (1056, entry(4000, 10, 10)),
                (1064, entry(3200, 10, 10)),
                (1072, entry(3110, 1000, 1000)),
                (1080, entry(3300, 10, 10)),
                (1088, entry(4000, 0, 10)),
                (1096, entry(3305, 10, 10)),
                (1104, entry(0, 2, 2)),
            ],
            &[
                HEADER,
                one,
                track(1, 3200, 10, 10),
                track(3, 3300, 10, 10),
                track(0, 4000, 10, 10),
            ],
            &[
                overlap(track(1, 3200, 10, 10), track(2, 3110, 1000, 1000)),
                bad_entry(4, entry(4000, 0, 10)),
                overlap(track(3, 3300, 10, 10), track(5, 3305, 10, 10)),
                bad_entry(6, entry(0, 2, 2)),
            ],
        ),
        // The greatest length, and one that no entry can have.
        (
            68_640,
            &[(0, 1056)],
            &[
                (1056, entry(3104, 65_528, 65_535)),
                (1064, entry(3104, 65_529, 65_535)),
            ],
            &[HEADER, one, track(0, 3104, 65_528, 65_535)],
            &[bad_entry(1, entry(3104, 65_529, 65_535))],
        ),
    ];
    for (len, words, entries, kept, misfits) in cases {
        for order in [Order::Little, Order::Big] {
            let image = Image {
                len,
                words,
                entries,
            };
            let l = small(order, false);
            let Ok(found) = survey_of(rt.alloc(), &l, &image, &[])? else {
                return Err(Fail::new("no survey"));
            };
            assert_eq!(rt; found.kept.as_slice(), kept);
            assert_eq!(rt; found.misfits.as_slice(), misfits);
            let first = misfits.first().copied().map(ScanFault::Misfit);
            assert_eq!(rt; scan_of(rt.alloc(), &l, &image, &[])?.err(), first);
        }
    }
    Ok(())
}

#[test]
fn see_parent_is_a_misfit_in_a_base_alone(rt: HostRuntime) -> Result<(), Fail> {
    let image = Image {
        len: 3104,
        words: &[(0, 1056), (1, u32::MAX)],
        entries: &[(1056, entry(u32::MAX, 65_535, 65_535))],
    };
    let in_base = [
        Misfit::ParentInBase {
            owner: Owner::Table(1),
        },
        Misfit::ParentInBase {
            owner: Owner::Track(0),
        },
    ];
    let cases: [(bool, &[Misfit]); 2] = [(true, &[]), (false, &in_base)];
    for (shadow, misfits) in cases {
        let l = small(Order::Little, shadow);
        let Ok(found) = survey_of(rt.alloc(), &l, &image, &[])? else {
            return Err(Fail::new("no survey"));
        };
        assert_eq!(rt; found.kept.as_slice(), [HEADER, table(0, 1056)].as_slice());
        assert_eq!(rt; found.misfits.as_slice(), misfits);
    }
    Ok(())
}

#[test]
fn a_failing_read_is_told(rt: HostRuntime) -> Result<(), Fail> {
    let image = Image {
        len: 3104,
        words: &[(0, 1056), (1, 8)],
        entries: &[(1056, entry(8, 0, 0))],
    };
    let l = small(Order::Little, false);
    // The words, and then the table, which a scan doesn't read behind a word that is a misfit.
    let cases = [
        (3, ScanFault::ReadFault),
        (4, ScanFault::Misfit(bad_table(1, 8))),
    ];
    for (call, first) in cases {
        let whole = survey_of(rt.alloc(), &l, &image, &[call])?;
        assert_eq!(rt; whole.err(), Some(SurveyFault::ReadFault));
        let scanned = scan_of(rt.alloc(), &l, &image, &[call])?;
        assert_eq!(rt; scanned.err(), Some(first));
    }
    Ok(())
}
