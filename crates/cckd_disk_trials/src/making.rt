//! New images in memory, and stops at each operation of their making.
ghost use Rattle.std.specs.Prelude.{◌<◌};
ghost use Rattle.cckd_base.specs.Geometry.{IsLayout};

use cckd_base::{Geometry, Layout, Order};
use cckd_make::{MakeFault, make};
use cckd_memory::{Bytes, FileIn, MemoryStage, Op, image_of};
use cckd_shelf::{Shelf, Slot};
use std::alloc::{AllocError, Global};
use std::process::Abort;
use std::test::Fail;

/// Bytes at a place of a file.
type Patch<'a> = (usize, &'a [u8]);

/// The bytes of a raw 2311 that aren't zero.
const RAW_2311: [Patch<'static>; 3] = [
    (0, b"CKD_C370\x0a\0\0\0\0\x10\0\0\x11"),
    (512, b"\0\x03\x01\0\x08\0\0\0\0\x01\0\0\x20\x04\0\0\x20\x04"),
    (552, b"\xc8\0\0\0\0\0\xff\xff"),
];

/// Those of a shadow of it, with null format 1.
const SHADOW_2311: [Patch<'static>; 4] = [
    (0, b"CKD_S370\x0a\0\0\0\0\x10\0\0\x11"),
    (512, b"\0\x03\x01\0\x08\0\0\0\0\x01\0\0\x20\x04\0\0\x20\x04"),
    (552, b"\xc8\0\0\0\x01\0\xff\xff"),
    (
        1024,
        b"\xff\xff\xff\xff\xff\xff\xff\xff\xff\xff\xff\xff\xff\xff\xff\xff\xff\xff\xff\xff\xff\xff\xff\xff\xff\xff\xff\xff\xff\xff\xff\xff",
    ),
];

/// Those of a raw 3390-2, of 131 groups.
const RAW_3390_2: [Patch<'static>; 3] = [
    (0, b"CKD_C370\x0f\0\0\0\0\xde\0\0\x90"),
    (512, b"\0\x03\x01\0\x83\0\0\0\0\x01\0\0\x0c\x06\0\0\x0c\x06"),
    (552, b"\xb2\x08\0\0\0\0\xff\xff"),
];

fn small(shadow: bool, null_fmt: u8) -> Layout
    requires { null_fmt < 2 }
    ensures { IsLayout result }
{
    Layout {
        order: Order::Big,
        geo: Geometry {
            devtype: 0x11,
            heads: 10,
            cyls: 200,
            track_size: 4_096,
        },
        groups: 8,
        shadow,
        null_fmt,
    }
}

fn large() -> Layout
    ensures { IsLayout result }
{
    Layout {
        order: Order::Little,
        geo: Geometry {
            devtype: 0x90,
            heads: 15,
            cyls: 2_226,
            track_size: 56_832,
        },
        groups: 131,
        shadow: false,
        null_fmt: 0,
    }
}

/// A file of zeros with these bytes put into it.
fn patched(alloc: Global, len: usize, patches: &[Patch]) -> Result<Vec<u8>, AllocError> {
    let mut file = vec![in alloc; 0; len]?;
    for (at, bytes) in patches {
        for (place, byte) in file.iter_mut().skip(*at).zip(*bytes) {
            *place = *byte;
        }
    }
    Ok(file)
}

/// A stage with these bytes in slot 0, where the calls of these numbers fail: the first binds the slot.
fn stage_of(alloc: Global, bytes: &[u8], failing: &[u64]) -> Result<(MemoryStage, Slot), Fail> {
    let mut files = Vec::new(alloc);
    files.push(FileIn {
        name: Bytes::of(alloc, b"v")?,
        bytes: Bytes::of(alloc, bytes)?,
    })?;
    let mut stage = MemoryStage::new(alloc, &files, b"", failing)?;
    let slot = Slot::new(0).ok_or("no slot")?;
    stage.bind(slot, "v")?;
    Ok((stage, slot))
}

/// Makes an image over these bytes, and looks at the whole file.
fn is_made(
    rt: &impl Abort,
    alloc: Global,
    start: &[u8],
    l: &Layout,
    want: &[u8],
) -> Result<(), Fail>
    requires { IsLayout l.now }
{
    let (mut stage, slot) = stage_of(alloc, start, &[])?;
    assert_eq!(rt; make(alloc, &mut stage, slot, l), Ok(()));
    assert_eq!(rt; stage.file("v"), Some(want));
    assert_eq!(rt; stage.ops().len(), 7);
    Ok(())
}

#[test]
fn new_images_have_their_bytes(rt: HostRuntime) -> Result<(), Fail> {
    let alloc = rt.alloc();
    let raw = patched(alloc, 1_056, &RAW_2311)?;
    is_made(&rt, alloc, b"", &small(false, 0), &raw)?;
    is_made(&rt, alloc, &[7; 1_100], &small(false, 0), &raw)?;
    let shadow = patched(alloc, 1_056, &SHADOW_2311)?;
    is_made(&rt, alloc, b"", &small(true, 1), &shadow)?;
    let raw = patched(alloc, 1_548, &RAW_3390_2)?;
    is_made(&rt, alloc, b"", &large(), &raw)
}

/// Whether a slot with this file is there.
fn is_there(file: &[u8]) -> bool {
    !file.is_empty() && (file.len() < 512 || file.iter().take(512).any(|b| *b != 0))
}

/// Stops behind each of these operations, each of which was made, or not, or filled its range with a byte.
fn stops(
    rt: &impl Abort,
    alloc: Global,
    start: &[u8],
    ops: &[Op],
    slot: Slot,
    whole: &[u8],
) -> Result<(usize, usize), Fail> {
    let (mut absent, mut made) = (0usize, 0usize);
    for n in 0..=ops.len() {
        for choice in [0, 1, 0x5a] {
            let image = image_of(alloc, start, &ops[..n], slot, &[choice, choice, choice])?;
            if is_there(&image) {
                assert_eq!(rt; image.as_slice(), whole);
                made = made.saturating_add(1);
            } else {
                absent = absent.saturating_add(1);
            }
        }
    }
    Ok((absent, made))
}

/// Stops at each operation of a making over these bytes.
fn leaves_none_or_whole(rt: &impl Abort, alloc: Global, start: &[u8]) -> Result<(), Fail> {
    let whole = patched(alloc, 1_056, &RAW_2311)?;
    let (mut stage, slot) = stage_of(alloc, start, &[])?;
    assert_eq!(rt; make(alloc, &mut stage, slot, &small(false, 0)), Ok(()));
    let seen = stops(rt, alloc, start, stage.ops(), slot, &whole)?;
    assert_eq!(rt; seen, (19, 5));
    Ok(())
}

#[test]
fn a_stop_leaves_no_image_or_the_whole(rt: HostRuntime) -> Result<(), Fail> {
    let alloc = rt.alloc();
    leaves_none_or_whole(&rt, alloc, b"")?;
    let old = patched(alloc, 700, &[(512, b"left over")])?;
    leaves_none_or_whole(&rt, alloc, &old)
}

#[test]
fn each_call_that_fails_is_told(rt: HostRuntime) -> Result<(), Fail> {
    let alloc = rt.alloc();
    let whole = patched(alloc, 1_056, &RAW_2311)?;
    let kinds = [
        (2, MakeFault::WriteFault),
        (3, MakeFault::WriteFault),
        (4, MakeFault::SyncFault),
        (5, MakeFault::WriteFault),
        (6, MakeFault::SyncFault),
        (7, MakeFault::WriteFault),
        (8, MakeFault::SyncFault),
    ];
    for (call, fault) in kinds {
        let (mut stage, slot) = stage_of(alloc, b"", &[call])?;
        assert_eq!(rt; make(alloc, &mut stage, slot, &small(false, 0)), Err(fault));
        stops(&rt, alloc, b"", stage.ops(), slot, &whole)?;
    }
    Ok(())
}
