//! New bases in memory: their bytes, and stops at each operation of their making.
ghost use Rattle.std.specs.Prelude.{◌≤◌};
ghost use Rattle.cckd_base.specs.Geometry.{IsGeometry};
ghost use Rattle.cckd_tools.specs.Label.{label_length};

use cckd_base::Geometry;
use cckd_memory::{Bytes, FileIn, MemoryStage, Op, image_of};
use cckd_shelf::{Shelf, Slot};
use cckd_tools::{InitFault, init};
use std::alloc::{AllocError, Global};
use std::process::Abort;
use std::test::Fail;

/// Bytes at a place of a file.
type Patch<'a> = (usize, &'a [u8]);

/// The bytes of a raw 2311 that aren't zero.
const RAW_2311: [Patch<'static>; 3] = [
    (0, b"CKD_C370\x0a\0\0\0\0\x10\0\0\x11"),
    (512, b"\0\x03\x01\0\x08\0\0\0\0\x01\0\0\x20\x04\0\0\x20\x04"),
    (552, b"\xc8\0\0\0\0\0\xff\xff"),
];

/// The serial HERC01 in EBCDIC.
const SERIAL: [u8; 6] = *b"\xc8\xc5\xd9\xc3\xf0\xf1";

/// Those of a 2311 with that label: totals, the word, the entry, and the three records of track 0.
const LABELLED_2311: [Patch<'static>; 14] = [
    (0, b"CKD_C370\x0a\0\0\0\0\x10\0\0\x11"),
    (512, b"\0\x03\x01\0\x08\0\0\0\0\x01\0\0\x60\x0d\0\0\x59\x0d"),
    (548, b"\x07\0\0\0\xc8\0\0\0\0\0\xff\xff"),
    (1024, b"\x20\x04"),
    (1056, b"\x20\x0c\0\0\x39\x01\x40\x01"),
    (3116, b"\x08"),
    (3129, b"\x01\x04\0\x18\xc9\xd7\xd3\xf1"),
    (3165, b"\x02\x04\0\x90\xc9\xd7\xd3\xf2"),
    (3321, b"\x03\x04\0\x50\xe5\xd6\xd3\xf1"),
    (3329, b"\xe5\xd6\xd3\xf1\xc8\xc5\xd9\xc3\xf0\xf1\x40"),
    (
        3345,
        b"\x40\x40\x40\x40\x40\x40\x40\x40\x40\x40\x40\x40\x40\x40\x40\x40\x40\x40\x40\x40\x40\x40\x40\x40\x40\x40\x40\x40\x40\x40\x40\x40",
    ),
    (
        3377,
        b"\x40\x40\x40\x40\x40\x40\x40\x40\x40\x40\x40\x40\x40\x40\x40\x40\x40\x40\x40\x40\x40\x40\x40\x40\x40\x40\x40\x40\x40\x40\x40\x40",
    ),
    (3409, b"\xff\xff\xff\xff"),
    (3413, b"\xff\xff\xff\xff"),
];

/// What of a labelled 3390-2 isn't zero before its table, which stands four bytes behind the header area.
const LABELLED_3390_2: [Patch<'static>; 5] = [
    (0, b"CKD_C370\x0f\0\0\0\0\xde\0\0\x90"),
    (512, b"\0\x03\x01\0\x83\0\0\0\0\x01\0\0\x50\x0f\0\0\x45\x0f"),
    (548, b"\x0b\0\0\0\xb2\x08\0\0\0\0\xff\xff"),
    (1024, b"\x10\x06"),
    (1552, b"\x10\x0e\0\0\x39\x01\x40\x01"),
];

fn small() -> Geometry
    ensures geometry { IsGeometry result }
    ensures label { label_length ≤ result.track_size }
{
    Geometry {
        devtype: 0x11,
        heads: 10,
        cyls: 200,
        track_size: 4_096,
    }
}

fn large() -> Geometry
    ensures geometry { IsGeometry result }
    ensures label { label_length ≤ result.track_size }
{
    Geometry {
        devtype: 0x90,
        heads: 15,
        cyls: 2_226,
        track_size: 56_832,
    }
}

/// A file of zeros with these bytes put into it.
fn patched(alloc: Global, len: usize, patches: &[Patch]) -> Result<Vec<u8>, AllocError> {
    let mut file = vec![in alloc; 0; len]?;
    for (at, bytes) in patches {
        for (place, byte) in file.iter_mut().skip(*at).zip(*bytes) {
            *place = *byte;
        }
    }
    Ok(file)
}

/// A stage with these bytes in slot 0, where the calls of these numbers fail: the first binds the slot.
fn stage_of(alloc: Global, bytes: &[u8], failing: &[u64]) -> Result<MemoryStage, Fail> {
    let mut files = Vec::new(alloc);
    files.push(FileIn {
        name: Bytes::of(alloc, b"v")?,
        bytes: Bytes::of(alloc, bytes)?,
    })?;
    let mut stage = MemoryStage::new(alloc, &files, b"", failing)?;
    let slot = Slot::new(0).ok_or("no slot")?;
    stage.bind(slot, "v")?;
    Ok(stage)
}

#[test]
fn raw_2311_is_made(rt: HostRuntime) -> Result<(), Fail> {
    let alloc = rt.alloc();
    let mut stage = stage_of(alloc, b"", &[])?;
    assert_eq!(rt; init(alloc, &mut stage, small(), None), Ok(1_056));
    let raw = patched(alloc, 1_056, &RAW_2311)?;
    assert_eq!(rt; stage.file("v"), Some(raw.as_slice()));
    let again = init(alloc, &mut stage, small(), Some(SERIAL));
    assert_eq!(rt; again, Err(InitFault::NotEmpty { len: 1_056 }));
    assert_eq!(rt; stage.file("v"), Some(raw.as_slice()));
    Ok(())
}

#[test]
fn labelled_base_is_made_once(rt: HostRuntime) -> Result<(), Fail> {
    let alloc = rt.alloc();
    let mut stage = stage_of(alloc, &[0; 512], &[])?;
    assert_eq!(rt; init(alloc, &mut stage, small(), Some(SERIAL)), Ok(3_424));
    let labelled = patched(alloc, 3_424, &LABELLED_2311)?;
    assert_eq!(rt; stage.file("v"), Some(labelled.as_slice()));
    let again = init(alloc, &mut stage, small(), Some(SERIAL));
    assert_eq!(rt; again, Err(InitFault::NotEmpty { len: 3_424 }));
    Ok(())
}

#[test]
fn a_table_starts_at_a_multiple_of_eight(rt: HostRuntime) -> Result<(), Fail> {
    let alloc = rt.alloc();
    let mut stage = stage_of(alloc, b"", &[])?;
    assert_eq!(rt; init(alloc, &mut stage, large(), Some(SERIAL)), Ok(3_920));
    let front = patched(alloc, 3_600, &LABELLED_3390_2)?;
    let made = stage.file("v").ok_or("no file")?;
    assert_eq!(rt; made.len(), 3_920);
    assert_eq!(rt; made.starts_with(&front), true);
    Ok(())
}

/// How many stops leave no file there, and how many the whole: behind each of these operations, each of which was made, or not, or
/// filled its range with a byte.
fn stops(rt: &impl Abort, alloc: Global, ops: &[Op], whole: &[u8]) -> Result<(usize, usize), Fail> {
    let slot = Slot::new(0).ok_or("no slot")?;
    let (mut absent, mut made) = (0usize, 0usize);
    for n in 0..=ops.len() {
        for choice in [0, 1, 0x5a] {
            let image = image_of(alloc, b"", &ops[..n], slot, &[choice, choice, choice])?;
            if image.iter().take(512).any(|b| *b != 0) {
                assert_eq!(rt; image.as_slice(), whole);
                made = made.saturating_add(1);
            } else {
                absent = absent.saturating_add(1);
            }
        }
    }
    Ok((absent, made))
}

#[test]
fn a_stop_leaves_no_base_or_the_whole(rt: HostRuntime) -> Result<(), Fail> {
    let alloc = rt.alloc();
    let mut stage = stage_of(alloc, b"", &[])?;
    assert_eq!(rt; init(alloc, &mut stage, small(), Some(SERIAL)), Ok(3_424));
    let labelled = patched(alloc, 3_424, &LABELLED_2311)?;
    assert_eq!(rt; stops(&rt, alloc, stage.ops(), &labelled)?, (19, 5));
    Ok(())
}

#[test]
fn each_call_that_fails_is_told(rt: HostRuntime) -> Result<(), Fail> {
    let alloc = rt.alloc();
    let rows = [
        (2, InitFault::ReadFault),
        (3, InitFault::WriteFault),
        (4, InitFault::WriteFault),
        (5, InitFault::SyncFault),
        (6, InitFault::WriteFault),
        (7, InitFault::SyncFault),
        (8, InitFault::WriteFault),
        (9, InitFault::SyncFault),
    ];
    for (call, fault) in rows {
        let mut stage = stage_of(alloc, b"", &[call])?;
        assert_eq!(rt; init(alloc, &mut stage, small(), None), Err(fault));
        let mut stage = stage_of(alloc, b"", &[call])?;
        assert_eq!(rt; init(alloc, &mut stage, small(), Some(SERIAL)), Err(fault));
    }
    let mut stage = stage_of(alloc, &[0; 512], &[3])?;
    assert_eq!(rt;
        init(alloc, &mut stage, small(), None),
        Err(InitFault::ReadFault)
    );
    Ok(())
}
