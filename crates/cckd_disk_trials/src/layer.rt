//! Mounting, reading and closing small images: a 2311 has 2,000 tracks in eight groups, and its header area ends at 1,056.
ghost use Rattle.std.specs.Prelude.{◌≡◌, ◌≤◌, false, length, vec_len, IfOk};
ghost use Rattle.cckd_shelf.specs.Seen.{seen};
ghost use Rattle.cckd_shelf.specs.World.{IsSure};
ghost use Rattle.cckd_memory.specs.Memory.{seen_of};
ghost use Rattle.cckd_layer.specs.Mounted.{CanRead};

use cckd_base::{
    Extent, FORMAT_LIMIT, HeaderFault, LayerFault, Misfit, OpenFault, Order, Owner, Track,
    TrackFault,
};
use cckd_image::{ImageHeader, Roles, decode};
use cckd_layer::{Device, Held, Layer, PutFault, close_image, open_header, put_bytes};
use cckd_memory::{Bytes, FileIn, MemoryStage};
use cckd_shelf::{Shelf, Slot, Stage};
use cckd_space::Space;
use cckd_track::Ckd;
use std::alloc::{AllocError, Global};
use std::test::Fail;

/// Bytes at a place of a file.
pub(crate) type Patch<'a> = (usize, &'a [u8]);

/// The headers of a 2311 as it is made; its eight level-one words are 0.
const RAW_2311: [Patch<'static>; 3] = [
    (0, b"CKD_C370\x0a\0\0\0\0\x10\0\0\x11"),
    (512, b"\0\x03\x01\0\x08\0\0\0\0\x01\0\0\x20\x04\0\0\x20\x04"),
    (552, b"\xc8\0\0\0\0\0\xff\xff"),
];

/// What a write of one record of eight bytes aa to track 0 leaves behind the headers.
const WRITTEN: [Patch<'static>; 5] = [
    (1024, b"\x20\x04"),
    (1056, b"\x20\x0c\0\0\x2d\0\x30\0"),
    (3116, b"\x08"),
    (3129, b"\x01\0\0\x08\xaa\xaa\xaa\xaa\xaa\xaa\xaa\xaa"),
    (3141, b"\xff\xff\xff\xff\xff\xff\xff\xff"),
];

/// A shadow of it: no other group has a table.
const SHADOW: [Patch<'static>; 2] = [
    (0, b"CKD_S370"),
    (
        1028,
        b"\xff\xff\xff\xff\xff\xff\xff\xff\xff\xff\xff\xff\xff\xff\xff\xff\xff\xff\xff\xff\xff\xff\xff\xff\xff\xff\xff\xff",
    ),
];

/// The bytes of track 0, and those of a null track 1.
pub(crate) const STORED: [u8; 45] =
    *b"\0\0\0\0\0\0\0\0\0\0\0\0\x08\0\0\0\0\0\0\0\0\0\0\0\0\x01\0\0\x08\xaa\xaa\xaa\xaa\xaa\xaa\xaa\xaa\xff\xff\xff\xff\xff\xff\xff\xff";

const NULL_1: [u8; 37] =
    *b"\0\0\0\0\x01\0\0\0\x01\0\0\0\x08\0\0\0\0\0\0\0\0\0\0\0\x01\x01\0\0\0\xff\xff\xff\xff\xff\xff\xff\xff";

/// Puts bytes over those of a file, as far as it reaches.
fn patch(file: &mut [u8], patches: &[Patch]) {
    for (at, bytes) in patches {
        for (place, byte) in file.iter_mut().skip(*at).zip(*bytes) {
            *place = *byte;
        }
    }
}

/// A 2311 whose track 0 was written, with more bytes put into it.
pub(crate) fn written(alloc: Global, len: usize, more: &[Patch]) -> Result<Vec<u8>, Fail> {
    let mut file = vec![in alloc; 0; len]?;
    patch(&mut file, &RAW_2311);
    patch(&mut file, &WRITTEN);
    patch(&mut file, more);
    Ok(file)
}

/// A stage with these bytes in slot 0, where the calls of these numbers fail: the first binds the slot.
pub(crate) fn stage_of(
    alloc: Global,
    bytes: &[u8],
    failing: &[u64],
) -> Result<(MemoryStage, Slot), Fail>
    ensures { IfOk result (λ given. IsSure (seen_of given.0).world) }
{
    let mut files = Vec::new(alloc);
    files.push(FileIn {
        name: Bytes::of(alloc, b"v")?,
        bytes: Bytes::of(alloc, bytes)?,
    })?;
    let mut stage = MemoryStage::new(alloc, &files, b"", failing)?;
    let slot = Slot::new(0).ok_or("no slot")?;
    stage.bind(slot, "v")?;
    Ok((stage, slot))
}

/// A buffer of so many zeros.
pub(crate) fn zeros(alloc: Global, len: usize) -> Result<Vec<u8>, AllocError>
    ensures { IfOk result (λ buffer. vec_len buffer ≡ len) }
{
    vec![in alloc; 0; len]
}

/// A read of a track that there is.
pub(crate) fn read_of<T: Stage>(
    layer: &mut Layer<Ckd>,
    stage: &mut T,
    number: u32,
    out: &mut [u8],
) -> Result<Held, LayerFault>
    requires whole { layer.old.broken ≡ false }
    requires can_read { CanRead layer.old (seen T.Shows stage.old) }
    requires room { 65536 ≤ length out.old }
    ensures whole { layer.new.broken ≡ false }
    ensures can_read { CanRead layer.new (seen T.Shows stage.new) }
{
    if number < layer.layout().geo.tracks() {
        return layer.read(stage, Track(number), out);
    }
    Ok(Held::Below)
}

#[test]
fn a_base_is_mounted_and_read(rt: HostRuntime) -> Result<(), Fail> {
    let alloc = rt.alloc();
    let bytes = written(alloc, 3152, &[])?;
    let (mut stage, slot) = stage_of(alloc, &bytes, &[])?;
    let mut layer: Layer<Ckd> = match Layer::mount(
        alloc,
        &mut stage,
        slot,
        Roles::Base,
        FORMAT_LIMIT,
    ) {
        Ok(layer) => layer,
        Err(_) => return Err(Fail::new("not mounted")),
    };
    assert_eq!(rt; stage.ops().len(), 1);
    assert_eq!(rt; layer.cached(0), false);
    assert_eq!(rt; layer.broken(), false);
    assert_eq!(rt; layer.count(&mut stage), Ok(2000));
    let mut room = zeros(alloc, 65536)?;
    let out = room.as_mut_slice();
    assert_eq!(rt;
        read_of(&mut layer, &mut stage, 0, out),
        Ok(Held::Here { len: 45 })
    );
    assert_eq!(rt; out.starts_with(&STORED), true);
    assert_eq!(rt; layer.cached(0), true);
    assert_eq!(rt;
        read_of(&mut layer, &mut stage, 1, out),
        Ok(Held::Here { len: 37 })
    );
    assert_eq!(rt; out.starts_with(&NULL_1), true);
    assert_eq!(rt; stage.ops().len(), 1);
    Ok(())
}

#[test]
fn a_shadow_has_the_tracks_of_its_tables(rt: HostRuntime) -> Result<(), Fail> {
    let alloc = rt.alloc();
    let bytes = written(alloc, 3152, &SHADOW)?;
    let (mut stage, slot) = stage_of(alloc, &bytes, &[])?;
    let mut layer: Layer<Ckd> = match Layer::mount(
        alloc,
        &mut stage,
        slot,
        Roles::Either,
        FORMAT_LIMIT,
    ) {
        Ok(layer) => layer,
        Err(_) => return Err(Fail::new("not mounted")),
    };
    assert_eq!(rt; layer.count(&mut stage), Ok(256));
    let mut room = zeros(alloc, 65536)?;
    let out = room.as_mut_slice();
    assert_eq!(rt;
        read_of(&mut layer, &mut stage, 0, out),
        Ok(Held::Here { len: 45 })
    );
    assert_eq!(rt; read_of(&mut layer, &mut stage, 256, out), Ok(Held::Below));
    assert_eq!(rt; out.starts_with(&STORED), true);
    Ok(())
}

#[test]
fn a_fault_of_a_track_is_told(rt: HostRuntime) -> Result<(), Fail> {
    let alloc = rt.alloc();
    let bytes = written(alloc, 3152, &[(3106, b"\x01")])?;
    // The calls before these bind the slot, mount it in six, and look the track up.
    let (mut stage, slot) = stage_of(alloc, &bytes, &[9])?;
    let mut layer: Layer<Ckd> = match Layer::mount(
        alloc,
        &mut stage,
        slot,
        Roles::Base,
        FORMAT_LIMIT,
    ) {
        Ok(layer) => layer,
        Err(_) => return Err(Fail::new("not mounted")),
    };
    let mut room = zeros(alloc, 65536)?;
    let out = room.as_mut_slice();
    assert_eq!(rt;
        read_of(&mut layer, &mut stage, 0, out),
        Err(LayerFault::ReadFault)
    );
    assert_eq!(rt; layer.cached(0), true);
    let fault = TrackFault::WrongTrack { cyl: 1, head: 0 };
    assert_eq!(rt;
        read_of(&mut layer, &mut stage, 0, out),
        Err(LayerFault::Track(fault))
    );
    Ok(())
}

/// Why a base of so many bytes, with more put into it, isn't mounted where the calls of these numbers fail.
fn refusal_of(
    alloc: Global,
    len: usize,
    more: &[Patch],
    failing: &[u64],
) -> Result<Option<OpenFault>, Fail> {
    let bytes = written(alloc, len, more)?;
    let (mut stage, slot) = stage_of(alloc, &bytes, failing)?;
    let mounted: Result<Layer<Ckd>, OpenFault> = Layer::mount(
        alloc,
        &mut stage,
        slot,
        Roles::Base,
        FORMAT_LIMIT,
    );
    match mounted {
        Ok(_) => Ok(None),
        Err(fault) => Ok(Some(fault)),
    }
}

#[test]
fn each_cause_is_told(rt: HostRuntime) -> Result<(), Fail> {
    let alloc = rt.alloc();
    let other = OpenFault::Header {
        slot: 0,
        fault: HeaderFault::NotCckd { id: *b"CKD_S370" },
    };
    assert_eq!(rt; refusal_of(alloc, 3152, &SHADOW, &[])?, Some(other));
    let far = OpenFault::Scan {
        slot: 0,
        fault: Misfit::BadTable { group: 1, pos: 255 },
    };
    assert_eq!(rt;
        refusal_of(alloc, 3152, &[(1028, b"\xff")], &[])?,
        Some(far)
    );
    let refused = [
        (2, Some(OpenFault::SyncFault)),
        (3, Some(OpenFault::ReadFault)),
        (4, Some(OpenFault::ReadFault)),
        (5, Some(OpenFault::ReadFault)),
        (6, Some(OpenFault::ReadFault)),
        (7, Some(OpenFault::ReadFault)),
        (8, None),
    ];
    for (call, want) in refused {
        assert_eq!(rt; refusal_of(alloc, 3152, &[], &[call])?, want, "at {call}");
    }
    Ok(())
}

/// A header area and a table, with 16 free bytes between them and 80 behind.
fn gapped(alloc: Global) -> Result<Space, Fail> {
    let used = [
        Extent {
            pos: 0,
            len: 1056,
            size: 1056,
            owner: Owner::Header,
        },
        Extent {
            pos: 1072,
            len: 2048,
            size: 2048,
            owner: Owner::Table(0),
        },
    ];
    Ok(Space::from_used(alloc, &used, 3200, 4096, 0)?)
}

/// What closing writes over zeros for this space: the second header, and two links.
const CLOSED: [Patch<'static>; 4] = [
    (
        512,
        b"\0\x03\x01\0\x08\0\0\0\0\x01\0\0\x80\x0c\0\0\x20\x0c\0\0\x20\x04\0\0\x60\0\0\0\x50\0\0\0\x02\0\0\0\0\0\0\0",
    ),
    (552, b"\xc8\0\0\0\0\0\xff\xff"),
    (1056, b"\x30\x0c\0\0\x10\0\0\0"),
    (3120, b"\0\0\0\0\x50\0\0\0"),
];

/// The headers of a 2311 that was opened.
fn opened() -> Result<ImageHeader, Fail> {
    let mut headers = [0; 1024];
    patch(&mut headers, &RAW_2311);
    match decode(&headers, 3200, Roles::Base) {
        Ok(header) => Ok(open_header(&header)),
        Err(_) => Err(Fail::new("no headers")),
    }
}

#[test]
fn a_closed_image_has_its_chain_and_totals(rt: HostRuntime) -> Result<(), Fail> {
    let alloc = rt.alloc();
    let zeroed = zeros(alloc, 3200)?;
    let (mut stage, slot) = stage_of(alloc, zeroed.as_slice(), &[])?;
    let space = gapped(alloc)?;
    let header = opened()?;
    assert_eq!(rt; header.cckd.options, 128);
    let Ok(closed) = close_image(&mut stage, slot, &space, Order::Little, &header) else {
        return Err(Fail::new("not closed"));
    };
    assert_eq!(rt; closed.cckd.options, 0);
    assert_eq!(rt; closed.cckd.free, 1056);
    assert_eq!(rt; stage.ops().len(), 5);
    let mut want = zeros(alloc, 3200)?;
    patch(want.as_mut_slice(), &CLOSED);
    let Some(file) = stage.file("v") else {
        return Err(Fail::new("no file"));
    };
    assert_eq!(rt; file.len(), 3200);
    assert_eq!(rt; file.starts_with(want.as_slice()), true);
    Ok(())
}

/// Why an image isn't closed where the call of this number fails.
fn closing_fault(alloc: Global, failing: u64) -> Result<Option<Device>, Fail> {
    let zeroed = zeros(alloc, 3200)?;
    let (mut stage, slot) = stage_of(alloc, zeroed.as_slice(), &[failing])?;
    let space = gapped(alloc)?;
    let header = opened()?;
    match close_image(&mut stage, slot, &space, Order::Little, &header) {
        Ok(_) => Ok(None),
        Err(fault) => Ok(Some(fault)),
    }
}

#[test]
fn a_fault_of_closing_is_told(rt: HostRuntime) -> Result<(), Fail> {
    let alloc = rt.alloc();
    let faults = [
        (2, Some(Device::Write)),
        (3, Some(Device::Write)),
        (4, Some(Device::Sync)),
        (5, Some(Device::Write)),
        (6, Some(Device::Sync)),
        (7, None),
    ];
    for (call, want) in faults {
        assert_eq!(rt; closing_fault(alloc, call)?, want, "at {call}");
    }
    Ok(())
}

#[test]
fn a_layer_that_was_not_changed_is_closed_without_a_call(rt: HostRuntime) -> Result<(), Fail> {
    let alloc = rt.alloc();
    let bytes = written(alloc, 3152, &[])?;
    let (mut stage, slot) = stage_of(alloc, &bytes, &[])?;
    let mut layer: Layer<Ckd> = match Layer::mount(
        alloc,
        &mut stage,
        slot,
        Roles::Base,
        FORMAT_LIMIT,
    ) {
        Ok(layer) => layer,
        Err(_) => return Err(Fail::new("not mounted")),
    };
    assert_eq!(rt; layer.close(&mut stage), Ok(()));
    assert_eq!(rt; stage.ops().len(), 1);
    let Some(file) = stage.file("v") else {
        return Err(Fail::new("no file"));
    };
    assert_eq!(rt; file.starts_with(bytes.as_slice()), true);
    Ok(())
}

/// Puts 16 bytes.
fn put_sixteen(
    stage: &mut MemoryStage,
    slot: Slot,
    space: &mut Space,
    bytes: &[u8; 16],
) -> Result<Result<u32, PutFault>, Fail> {
    space.grow(2)?;
    Ok(put_bytes(stage, slot, space, bytes.as_slice()))
}

#[test]
fn bytes_are_put_to_the_first_gap(rt: HostRuntime) -> Result<(), Fail> {
    let alloc = rt.alloc();
    let zeroed = zeros(alloc, 3200)?;
    let (mut stage, slot) = stage_of(alloc, zeroed.as_slice(), &[])?;
    let mut space = gapped(alloc)?;
    let bytes = b"sixteen bytes it";
    assert_eq!(rt; put_sixteen(&mut stage, slot, &mut space, bytes)?, Ok(1056));
    assert_eq!(rt; put_sixteen(&mut stage, slot, &mut space, bytes)?, Ok(3120));
    let mut want = zeros(alloc, 3200)?;
    patch(want.as_mut_slice(), &[(1056, bytes), (3120, bytes)]);
    let Some(file) = stage.file("v") else {
        return Err(Fail::new("no file"));
    };
    assert_eq!(rt; file.starts_with(want.as_slice()), true);
    Ok(())
}

#[test]
fn a_place_stays_taken_where_the_write_fails(rt: HostRuntime) -> Result<(), Fail> {
    let alloc = rt.alloc();
    let zeroed = zeros(alloc, 3200)?;
    let (mut stage, slot) = stage_of(alloc, zeroed.as_slice(), &[2])?;
    let mut space = gapped(alloc)?;
    let bytes = b"sixteen bytes it";
    assert_eq!(rt;
        put_sixteen(&mut stage, slot, &mut space, bytes)?,
        Err(PutFault::Write)
    );
    assert_eq!(rt; put_sixteen(&mut stage, slot, &mut space, bytes)?, Ok(3120));
    Ok(())
}
