//! Looks at small images: a 2311 has 2,000 tracks in eight groups, and its header area ends at 1,056.
use cckd_base::{Damage, Extent, HeaderFault, L2Entry, Misfit, Order, Owner, TrackFault};
use cckd_check::{LookFault, look};
use cckd_memory::{Bytes, FileIn, MemoryStage};
use cckd_shelf::{Shelf, Slot};
use std::alloc::Global;
use std::process::Abort;
use std::test::Fail;

/// Bytes at a place of a file.
type Patch<'a> = (usize, &'a [u8]);

/// The bytes of track 0 with one record of eight bytes aa.
const STORED: [u8; 45] =
    *b"\0\0\0\0\0\0\0\0\0\0\0\0\x08\0\0\0\0\0\0\0\0\0\0\0\0\x01\0\0\x08\xaa\xaa\xaa\xaa\xaa\xaa\xaa\xaa\xff\xff\xff\xff\xff\xff\xff\xff";

/// An image of a 2311 and what is amiss in it. Track 0 has its bytes at 3,104, as far as the file reaches.
#[derive(Clone, Copy)]
struct Case<'a> {
    len: usize,
    shadow: bool,
    options: u8,
    free: u32,
    /// Level-one words by their group.
    words: &'a [(usize, u32)],
    /// Entries by their place in the file: position, length and size.
    entries: &'a [(usize, u32, u16, u16)],
    /// Free spaces by their place: the next one, and the size.
    links: &'a [(usize, u32, u32)],
    bytes: &'a [Patch<'a>],
    misfits: &'a [Misfit],
    /// From level 1 on.
    bad_free: Option<u32>,
    /// At level 2.
    home: &'a [Damage],
    /// At level 3.
    all: &'a [Damage],
    /// From level 2 on.
    unread: u32,
}

/// A new base.
const RAW: Case<'static> = Case {
    len: 1056,
    shadow: false,
    options: 0,
    free: 0,
    words: &[],
    entries: &[],
    links: &[],
    bytes: &[],
    misfits: &[],
    bad_free: None,
    home: &[],
    all: &[],
    unread: 0,
};

/// One whose track 0 was written.
const WRITTEN: Case<'static> = Case {
    len: 3152,
    words: &[(0, 1056)],
    entries: &[(1056, 3104, 45, 48)],
    ..RAW
};

/// One of 2,000 bytes whose last 944 are free.
const FREE: Case<'static> = Case {
    len: 2000,
    free: 1056,
    ..RAW
};

const TRACK_0: Extent = Extent {
    pos: 3104,
    len: 45,
    size: 48,
    owner: Owner::Track(0),
};

const OVER_TRACK_0: Extent = Extent {
    pos: 3120,
    len: 45,
    size: 48,
    owner: Owner::Track(1),
};

const TABLE_0: Extent = Extent {
    pos: 1056,
    len: 2048,
    size: 2048,
    owner: Owner::Table(0),
};

const OVER_TABLE_0: Extent = Extent {
    pos: 3100,
    len: 45,
    size: 48,
    owner: Owner::Track(0),
};

const FAR: L2Entry = L2Entry {
    pos: 99_999,
    len: 45,
    size: 48,
};

const THIRD_FORMAT: L2Entry = L2Entry {
    pos: 0,
    len: 2,
    size: 2,
};

/// Puts bytes over those of a file, as far as it reaches.
fn patch(file: &mut [u8], at: usize, bytes: &[u8]) {
    for (place, byte) in file.iter_mut().skip(at).zip(bytes) {
        *place = *byte;
    }
}

/// The headers of a 2311.
fn put_headers(file: &mut [u8], order: Order, case: &Case) {
    let name: &[u8] = if case.shadow {
        b"CKD_S370"
    } else {
        b"CKD_C370"
    };
    let big = if order == Order::Big { 2 } else { 0 };
    patch(file, 0, name);
    patch(file, 8, b"\x0a\0\0\0\0\x10\0\0\x11");
    patch(file, 512, &[0, 3, 1, case.options | big]);
    patch(file, 516, &order.u32_bytes(8));
    patch(file, 520, &order.u32_bytes(256));
    patch(file, 532, &order.u32_bytes(case.free));
    patch(file, 552, b"\xc8\0\0\0\0\0\xff\xff");
}

fn bytes_of(alloc: Global, order: Order, case: &Case) -> Result<Vec<u8>, Fail> {
    let mut file = vec![in alloc; 0; case.len]?;
    put_headers(&mut file, order, case);
    patch(&mut file, 3104, &STORED);
    for (group, word) in case.words {
        patch(&mut file, 1024 + 4 * (*group % 8), &order.u32_bytes(*word));
    }
    for (at, pos, len, size) in case.entries {
        let entry = L2Entry {
            pos: *pos,
            len: *len,
            size: *size,
        };
        patch(&mut file, *at, &entry.encode(order));
    }
    for (at, next, size) in case.links {
        patch(&mut file, *at, &order.u32_bytes(*next));
        patch(&mut file, at.saturating_add(4), &order.u32_bytes(*size));
    }
    for (at, bytes) in case.bytes {
        patch(&mut file, *at, bytes);
    }
    Ok(file)
}

/// A stage with these bytes in slot 0, where the calls of these numbers fail: the first binds the slot.
fn stage_of(alloc: Global, bytes: &[u8], failing: &[u64]) -> Result<(MemoryStage, Slot), Fail> {
    let mut files = Vec::new(alloc);
    files.push(FileIn {
        name: Bytes::of(alloc, b"v")?,
        bytes: Bytes::of(alloc, bytes)?,
    })?;
    let mut stage = MemoryStage::new(alloc, &files, b"", failing)?;
    let slot = Slot::new(0).ok_or("no slot")?;
    stage.bind(slot, "v")?;
    Ok((stage, slot))
}

/// What a level of the check should find.
fn wanted(alloc: Global, level: u8, case: &Case) -> Result<Vec<Damage>, Fail> {
    let mut all = Vec::new(alloc);
    for misfit in case.misfits {
        all.push(Damage::Misfit(*misfit))?;
    }
    if let Some(at) = case.bad_free {
        if level > 0 {
            all.push(Damage::BadFree { at })?;
        }
    }
    let tracks: &[Damage] = match level {
        2 => case.home,
        3 => case.all,
        _ => &[],
    };
    all.extend_from_slice(tracks)?;
    Ok(all)
}

/// A look at each level, which changes nothing.
fn look_at(rt: &impl Abort, alloc: Global, order: Order, case: &Case) -> Result<(), Fail> {
    let bytes = bytes_of(alloc, order, case)?;
    for level in 0..4u8 {
        let (mut stage, slot) = stage_of(alloc, &bytes, &[])?;
        let Ok(report) = look(alloc, &mut stage, slot, level) else {
            return Err(Fail::new("no report"));
        };
        let wanted = wanted(alloc, level, case)?;
        assert_eq!(rt; report.found.get(), wanted.as_slice());
        let unread = if level < 2 { 0 } else { case.unread };
        assert_eq!(rt; report.unread, unread);
        assert_eq!(rt; stage.ops().len(), 0);
        assert_eq!(rt; stage.file("v"), Some(bytes.as_slice()));
    }
    Ok(())
}

/// The same in both orders.
fn look_at_each(rt: &impl Abort, alloc: Global, cases: &[Case]) -> Result<(), Fail> {
    for case in cases {
        look_at(rt, alloc, Order::Little, case)?;
        look_at(rt, alloc, Order::Big, case)?;
    }
    Ok(())
}

#[test]
fn misfits_are_named_at_each_level(rt: HostRuntime) -> Result<(), Fail> {
    let cases = [
        RAW,
        WRITTEN,
        // A table in the header area, and one that passes the end.
        Case {
            words: &[(0, 1056), (1, 1055), (2, 1105)],
            misfits: &[
                Misfit::BadTable {
                    group: 1,
                    pos: 1055,
                },
                Misfit::BadTable {
                    group: 2,
                    pos: 1105,
                },
            ],
            ..WRITTEN
        },
        Case {
            entries: &[
                (1056, 3104, 45, 48),
                (1096, 99_999, 45, 48),
                (1104, 0, 2, 2),
            ],
            misfits: &[
                Misfit::BadEntry {
                    track: 5,
                    entry: FAR,
                },
                Misfit::BadEntry {
                    track: 6,
                    entry: THIRD_FORMAT,
                },
            ],
            ..WRITTEN
        },
        // The newcomer isn't kept, so that what shares bytes with it alone is.
        Case {
            len: 3300,
            entries: &[
                (1056, 3104, 45, 48),
                (1064, 3120, 45, 48),
                (1072, 3160, 45, 48),
            ],
            misfits: &[Misfit::Overlap {
                first: TRACK_0,
                second: OVER_TRACK_0,
            }],
            home: &[Damage::Track {
                track: 2,
                fault: TrackFault::WrongTrack { cyl: 0, head: 0 },
            }],
            all: &[Damage::Track {
                track: 2,
                fault: TrackFault::WrongTrack { cyl: 0, head: 0 },
            }],
            ..WRITTEN
        },
        // A track may lie in its own table's bytes.
        Case {
            entries: &[(1056, 3100, 45, 48)],
            misfits: &[Misfit::Overlap {
                first: TABLE_0,
                second: OVER_TABLE_0,
            }],
            ..WRITTEN
        },
        // A base has no file below.
        Case {
            words: &[(0, 1056), (3, u32::MAX)],
            entries: &[(1064, u32::MAX, 65_535, 65_535)],
            misfits: &[
                Misfit::ParentInBase {
                    owner: Owner::Table(3),
                },
                Misfit::ParentInBase {
                    owner: Owner::Track(1),
                },
            ],
            ..WRITTEN
        },
        // A shadow has.
        Case {
            shadow: true,
            words: &[(0, 1056), (3, u32::MAX)],
            entries: &[(1056, 3104, 45, 48), (1064, u32::MAX, 65_535, 65_535)],
            ..WRITTEN
        },
    ];
    look_at_each(&rt, rt.alloc(), &cases)
}

#[test]
fn the_chain_is_looked_at_from_level_1_on(rt: HostRuntime) -> Result<(), Fail> {
    let cases = [
        Case {
            links: &[(1056, 0, 944)],
            ..FREE
        },
        // Two free spaces, of which the second ends with the file.
        Case {
            links: &[(1056, 1992, 8), (1992, 0, 8)],
            ..FREE
        },
        // It runs backwards, and in a circle.
        Case {
            links: &[(1056, 1200, 8), (1200, 1100, 8), (1100, 0, 8)],
            bad_free: Some(1100),
            ..FREE
        },
        Case {
            links: &[(1056, 1100, 8), (1100, 1056, 8)],
            bad_free: Some(1056),
            ..FREE
        },
        Case {
            links: &[(1056, 1056, 8)],
            bad_free: Some(1056),
            ..FREE
        },
        // It has a space of 7 bytes, and one that passes the end.
        Case {
            links: &[(1056, 1100, 8), (1100, 0, 7)],
            bad_free: Some(1100),
            ..FREE
        },
        Case {
            links: &[(1056, 0, 945)],
            bad_free: Some(1056),
            ..FREE
        },
        // It begins past the end, too close to it, and in the header area.
        Case {
            free: 5000,
            bad_free: Some(5000),
            ..FREE
        },
        Case {
            free: 1993,
            bad_free: Some(1993),
            ..FREE
        },
        Case {
            free: 1055,
            links: &[(1055, 0, 8)],
            bad_free: Some(1055),
            ..FREE
        },
        // It stands beside bytes in use, a track's and a table's, and shares one with them.
        Case {
            len: 3200,
            free: 3152,
            links: &[(3152, 0, 48)],
            ..WRITTEN
        },
        Case {
            len: 3200,
            free: 3151,
            links: &[(3151, 0, 48)],
            bad_free: Some(3151),
            ..WRITTEN
        },
        Case {
            len: 3148,
            words: &[(7, 1100)],
            links: &[(1056, 0, 44)],
            ..FREE
        },
        Case {
            len: 3148,
            words: &[(7, 1100)],
            links: &[(1056, 0, 45)],
            bad_free: Some(1056),
            ..FREE
        },
        // Another form is accepted unread, and an image that wasn't closed is.
        Case {
            bytes: &[(1056, b"FREE_BLK\x01")],
            ..FREE
        },
        Case {
            bytes: &[(1056, b"FREE_BLX\x01")],
            bad_free: Some(1056),
            ..FREE
        },
        Case {
            options: 128,
            free: 5000,
            ..FREE
        },
    ];
    look_at_each(&rt, rt.alloc(), &cases)
}

#[test]
fn stored_tracks_are_looked_at_from_level_2_on(rt: HostRuntime) -> Result<(), Fail> {
    let cases = [
        // A compressed track is unread, whatever stands behind its flag byte.
        Case {
            bytes: &[(3104, b"\x01\0\x07")],
            unread: 1,
            ..WRITTEN
        },
        Case {
            bytes: &[(3106, b"\x01")],
            home: &[Damage::Track {
                track: 0,
                fault: TrackFault::WrongTrack { cyl: 1, head: 0 },
            }],
            all: &[Damage::Track {
                track: 0,
                fault: TrackFault::WrongTrack { cyl: 1, head: 0 },
            }],
            ..WRITTEN
        },
        Case {
            entries: &[(1056, 3104, 4, 48)],
            home: &[Damage::Track {
                track: 0,
                fault: TrackFault::NoEnd { at: 4 },
            }],
            all: &[Damage::Track {
                track: 0,
                fault: TrackFault::NoEnd { at: 4 },
            }],
            ..WRITTEN
        },
        Case {
            bytes: &[(3129, b"\0")],
            all: &[Damage::Track {
                track: 0,
                fault: TrackFault::BadRecord { at: 21 },
            }],
            ..WRITTEN
        },
        Case {
            len: 7201,
            entries: &[(1056, 3104, 4097, 4104)],
            all: &[Damage::Track {
                track: 0,
                fault: TrackFault::TooLong {
                    len: 4097,
                    max: 4096,
                },
            }],
            ..WRITTEN
        },
        // In the order of the tracks, and not of their places.
        Case {
            len: 3300,
            entries: &[
                (1064, 3200, 45, 45),
                (1072, 3150, 45, 45),
                (1080, 3104, 45, 45),
            ],
            bytes: &[(3150, b"\x02"), (3201, b"\0\x05\0\x06")],
            home: &[
                Damage::Track {
                    track: 1,
                    fault: TrackFault::WrongTrack { cyl: 5, head: 6 },
                },
                Damage::Track {
                    track: 3,
                    fault: TrackFault::WrongTrack { cyl: 0, head: 0 },
                },
            ],
            all: &[
                Damage::Track {
                    track: 1,
                    fault: TrackFault::WrongTrack { cyl: 5, head: 6 },
                },
                Damage::Track {
                    track: 3,
                    fault: TrackFault::WrongTrack { cyl: 0, head: 0 },
                },
            ],
            unread: 1,
            ..WRITTEN
        },
    ];
    look_at_each(&rt, rt.alloc(), &cases)
}

#[test]
fn a_file_without_headers_is_refused(rt: HostRuntime) -> Result<(), Fail> {
    let alloc = rt.alloc();
    let (mut stage, slot) = stage_of(alloc, b"CKD_C370", &[])?;
    let found = look(alloc, &mut stage, slot, 3).err();
    let fault = HeaderFault::NotCckd { id: *b"CKD_C370" };
    assert_eq!(rt; found, Some(LookFault::Header(fault)));
    Ok(())
}

#[test]
fn each_failing_read_is_told(rt: HostRuntime) -> Result<(), Fail> {
    let alloc = rt.alloc();
    let case = Case {
        len: 3200,
        free: 3152,
        links: &[(3152, 0, 48)],
        ..WRITTEN
    };
    let bytes = bytes_of(alloc, Order::Little, &case)?;
    // The length, the headers, the words, the table, the first free space twice, and the track.
    for call in 2..9u64 {
        let (mut stage, slot) = stage_of(alloc, &bytes, &[call])?;
        let found = look(alloc, &mut stage, slot, 3).err();
        assert_eq!(rt; found, Some(LookFault::ReadFault));
        assert_eq!(rt; stage.file("v"), Some(bytes.as_slice()));
    }
    let (mut stage, slot) = stage_of(alloc, &bytes, &[9])?;
    assert_eq!(rt; look(alloc, &mut stage, slot, 3).is_ok(), true);
    Ok(())
}
