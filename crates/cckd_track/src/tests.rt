ghost use Rattle.std.specs.Prelude.{◌≡◌, ◌<◌, ◌≤◌, length};
ghost use Rattle.cckd_base.specs.Geometry.{track_count, IsGeometry, IsLayout, IsNullFormat};

use super::*;
use cckd_base::{Geometry, Layout, Order, Track, TrackFault};
use std::alloc::{AllocError, Global};
use std::process::Abort;
use std::test::Fail;

/// A home address of track 0.
const HOME: &[u8] = &[0; 5];

/// The record zero that a null track has.
const ZERO: &[u8] = &[0, 0, 0, 0, 0, 0, 0, 8, 0, 0, 0, 0, 0, 0, 0, 0];

/// A record one without key and data.
const ONE: &[u8] = &[0, 0, 0, 0, 1, 0, 0, 0];

/// The record of a written track: eight bytes of data.
const WRITTEN: &[u8] = &[
    0, 0, 0, 0, 1, 0, 0, 8, 0xaa, 0xaa, 0xaa, 0xaa, 0xaa, 0xaa, 0xaa, 0xaa,
];

/// An end mark.
const END: &[u8] = &[0xff; 8];

/// A 2311.
fn small() -> Geometry
    ensures geometry { IsGeometry result }
    ensures tracks { track_count result ≡ 2000 }
{
    Geometry {
        devtype: 0x11,
        heads: 10,
        cyls: 200,
        track_size: 4_096,
    }
}

/// A 3390-1.
fn large() -> Geometry
    ensures geometry { IsGeometry result }
    ensures tracks { track_count result ≡ 16695 }
{
    Geometry {
        devtype: 0x90,
        heads: 15,
        cyls: 1_113,
        track_size: 56_832,
    }
}

fn joined(alloc: Global, parts: &[&[u8]]) -> Result<Vec<u8>, AllocError> {
    let mut all = Vec::new(alloc);
    for part in parts {
        all.extend_from_slice(part)?;
    }
    Ok(all)
}

fn shows_null(
    rt: &impl Abort,
    alloc: Global,
    geo: &Geometry,
    t: Track,
    fmt: u8,
    parts: &[&[u8]],
) -> Result<(), AllocError>
    requires geometry { IsGeometry geo.now }
    requires track { t.0 < track_count geo.now }
    requires format { IsNullFormat geo.now fmt }
{
    let mut out = vec![in alloc; 0xee; 65_536]?;
    let len = usize::from(Ckd::null(geo, t, fmt, &mut out));
    let want = joined(alloc, parts)?;
    assert!(rt; len <= out.len());
    assert_eq!(rt; &out[..len], want.as_slice());
    assert!(rt; out[len..].iter().all(|b| *b == 0xee));
    assert!(rt; Ckd::is_null(geo, t, fmt, want.as_slice()));
    assert!(rt; !Ckd::is_null(geo, t, fmt, &out));
    Ok(())
}

#[test]
fn null_tracks_have_their_bytes(rt: HostRuntime) -> Result<(), Fail> {
    shows_null(
        &rt,
        rt.alloc(),
        &small(),
        Track(0),
        0,
        &[HOME, ZERO, ONE, END],
    )?;
    shows_null(&rt, rt.alloc(), &small(), Track(0), 1, &[HOME, ZERO, END])?;
    let home: &[u8] = &[0, 4, 0x58, 0, 0x0e];
    let zero: &[u8] = &[4, 0x58, 0, 0x0e, 0, 0, 0, 8, 0, 0, 0, 0, 0, 0, 0, 0];
    let one: &[u8] = &[4, 0x58, 0, 0x0e, 1, 0, 0, 0];
    shows_null(
        &rt,
        rt.alloc(),
        &large(),
        Track(16_694),
        0,
        &[home, zero, one, END],
    )?;
    Ok(())
}

#[test]
fn the_first_fault_is_answered(rt: HostRuntime) -> Result<(), Fail> {
    let no_end = |at| Err(TrackFault::NoEnd { at });
    let compressed = |byte| Err(TrackFault::Compressed { byte });
    let elsewhere = |cyl, head| Err(TrackFault::WrongTrack { cyl, head });
    let bad = |at| Err(TrackFault::BadRecord { at });
    let rows: [(&str, &[&[u8]], Result<(), TrackFault>); 35] = [
        ("null track", &[HOME, ZERO, ONE, END], Ok(())),
        ("short null track", &[HOME, ZERO, END], Ok(())),
        ("written track", &[HOME, ZERO, WRITTEN, END], Ok(())),
        (
            "upper bits of the flag byte",
            &[&[0xfc, 0, 0, 0, 0], ZERO, END],
            Ok(()),
        ),
        (
            "count of another track",
            &[HOME, ZERO, &[9, 9, 9, 9, 255, 0, 0, 0], END],
            Ok(()),
        ),
        (
            "key and data",
            &[HOME, ZERO, &[0, 0, 0, 0, 2, 1, 0, 2, 7, 8, 9], ONE, END],
            Ok(()),
        ),
        ("nothing", &[], no_end(0)),
        ("four bytes of a home address", &[&[1, 9, 9, 9]], no_end(4)),
        ("zlib", &[&[1], &[0; 36]], compressed(1)),
        (
            "bzip2, and upper bits",
            &[&[0xfe, 0, 0, 0, 0]],
            compressed(0xfe),
        ),
        (
            "compressed, of another track",
            &[&[3, 0, 0, 0, 1], ZERO, END],
            compressed(3),
        ),
        (
            "last track of a 3390-1",
            &[&[0, 4, 0x58, 0, 0x0e], ZERO, END],
            elsewhere(1_112, 14),
        ),
        (
            "another head, and no end",
            &[&[0, 0, 0, 0, 1]],
            elsewhere(0, 1),
        ),
        ("home address alone", &[HOME], no_end(5)),
        ("seven bytes at record zero", &[HOME, &[0xff; 7]], no_end(5)),
        ("end mark at once", &[HOME, END], bad(5)),
        ("end mark at once, and more", &[HOME, END, END], bad(5)),
        (
            "record zero has number 1",
            &[HOME, &[0, 0, 0, 0, 1, 0, 0, 8], &[0; 8], END],
            bad(5),
        ),
        (
            "record zero has a key",
            &[HOME, &[0, 0, 0, 0, 0, 1, 0, 8], &[0; 9], END],
            bad(5),
        ),
        (
            "record zero has 7 bytes",
            &[HOME, &[0, 0, 0, 0, 0, 0, 0, 7], &[0; 7], END],
            bad(5),
        ),
        (
            "record zero has 264 bytes",
            &[HOME, &[0, 0, 0, 0, 0, 0, 1, 8], &[0; 264], END],
            bad(5),
        ),
        (
            "record zero is cut off",
            &[HOME, &[0, 0, 0, 0, 0, 0, 0, 8], &[0; 7]],
            bad(5),
        ),
        ("record zero alone", &[HOME, ZERO], no_end(21)),
        (
            "seven bytes behind record zero",
            &[HOME, ZERO, &[0xff; 7]],
            no_end(21),
        ),
        ("record zero again", &[HOME, ZERO, ZERO, END], bad(21)),
        (
            "empty record with number 0",
            &[HOME, ZERO, &[0; 8], END],
            bad(21),
        ),
        (
            "key is cut off",
            &[HOME, ZERO, &[0, 0, 0, 0, 1, 9, 0, 0], END],
            bad(21),
        ),
        (
            "data is cut off",
            &[HOME, ZERO, &[0, 0, 0, 0, 1, 0, 0, 9], END],
            bad(21),
        ),
        (
            "data takes the end mark",
            &[HOME, ZERO, &[0, 0, 0, 0, 1, 0, 0, 8], END],
            no_end(37),
        ),
        (
            "number 0 and cut off",
            &[HOME, ZERO, &[0, 0, 0, 0, 0, 0, 0, 9], END],
            bad(21),
        ),
        (
            "a byte behind the end mark",
            &[HOME, ZERO, END, &[0]],
            bad(29),
        ),
        ("two end marks", &[HOME, ZERO, END, END], bad(29)),
        ("no end behind record one", &[HOME, ZERO, ONE], no_end(29)),
        (
            "number 0 behind record one",
            &[HOME, ZERO, ONE, ZERO, END],
            bad(29),
        ),
        (
            "a byte behind a written track",
            &[HOME, ZERO, WRITTEN, END, &[1]],
            bad(45),
        ),
    ];
    for (what, parts, want) in rows {
        let bytes = joined(rt.alloc(), parts)?;
        assert!(rt; bytes.len() <= 4_096);
        assert_eq!(rt; Ckd::check(&small(), Track(0), &bytes), want, "{what}");
    }
    Ok(())
}

#[test]
fn a_track_may_be_as_long_as_the_track_size(rt: HostRuntime) -> Result<(), Fail> {
    for (len, want) in [
        (
            4_097,
            TrackFault::TooLong {
                len: 4_097,
                max: 4_096,
            },
        ),
        (
            65_535,
            TrackFault::TooLong {
                len: 65_535,
                max: 4_096,
            },
        ),
        (4_096, TrackFault::Compressed { byte: 1 }),
    ] {
        let bytes = vec![in rt.alloc(); 1; len]?;
        assert!(rt; bytes.len() <= 65_535);
        assert_eq!(rt; Ckd::check(&small(), Track(0), &bytes), Err(want), "{len}");
    }
    Ok(())
}

#[test]
fn a_home_address_is_judged_by_itself(rt: HostRuntime) -> Result<(), Fail> {
    let rows: [(&[u8], Result<(), TrackFault>); 5] = [
        (&[0, 0, 0, 0, 0], Ok(())),
        (&[0xfc, 0, 0, 0, 0, 1, 2, 3], Ok(())),
        (&[0, 0, 0, 0], Err(TrackFault::NoEnd { at: 4 })),
        (&[2, 9, 9, 9, 9], Err(TrackFault::Compressed { byte: 2 })),
        (
            &[0, 1, 2, 3, 4],
            Err(TrackFault::WrongTrack {
                cyl: 0x102,
                head: 0x304,
            }),
        ),
    ];
    for (bytes, want) in rows {
        assert!(rt; bytes.len() <= 65_535);
        assert_eq!(rt; Ckd::check_home(&small(), Track(0), bytes), want);
    }
    let mut bytes = [0xfc, 1, 2];
    Ckd::settle(bytes.as_mut_slice());
    assert_eq!(rt; bytes, [0, 1, 2]);
    Ok(())
}

/// A device whose tracks have 64 bytes.
fn short() -> Layout
    ensures layout { IsLayout result }
    ensures tracks { track_count result.geo ≡ 2000 }
{
    Layout {
        order: Order::Little,
        geo: Geometry {
            devtype: 0x11,
            heads: 10,
            cyls: 200,
            track_size: 64,
        },
        groups: 8,
        shadow: false,
        null_fmt: 0,
    }
}

/// Builds a track of two records that fits to the byte, with a refusal between them and one behind them.
fn build(rt: &impl Abort, out: &mut [u8]) -> usize
    requires { 65536 ≤ length out.old }
{
    let body: &[u8] = &[7; 12];
    let mut builder = Builder::new(&short(), Track(1_999), out);
    let over = |len| Err(TrackFault::TooLong { len, max: 64 });
    assert_eq!(rt; builder.add(1, b"KEY1", b"data"), Ok(()));
    assert_eq!(rt; builder.add(2, b"", body), over(65));
    assert_eq!(rt; builder.add(255, b"", &body[1..]), Ok(()));
    assert_eq!(rt; builder.add(3, b"K", b""), over(73));
    usize::from(builder.finish())
}

#[test]
fn records_are_added_up_to_the_track_size(rt: HostRuntime) -> Result<(), Fail> {
    let mut out = vec![in rt.alloc(); 0xee; 65_536]?;
    let len = build(&rt, &mut out);
    assert_eq!(rt; len, 64);
    let track: [&[u8]; 6] = [
        &[0, 0, 199, 0, 9],
        &[0, 199, 0, 9, 0, 0, 0, 8, 0, 0, 0, 0, 0, 0, 0, 0],
        b"\0\xc7\0\x09\x01\x04\0\x04KEY1data",
        b"\0\xc7\0\x09\xff\0\0\x0b\x07\x07\x07\x07\x07\x07\x07\x07\x07\x07\x07",
        END,
        &[0xee, 0xee],
    ];
    let want = joined(rt.alloc(), &track)?;
    let front = out.iter().take(66).eq(want.iter());
    assert_eq!(rt; front, true);
    Ok(())
}
