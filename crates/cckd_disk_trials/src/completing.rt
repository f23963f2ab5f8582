//! Bases whose one stored track says that its space passes the file's end.
ghost use Rattle.std.specs.Prelude.{◌≡◌, ◌≤◌, false, length, IfOk};
ghost use Rattle.cckd_shelf.specs.Seen.{seen};
ghost use Rattle.cckd_layer.specs.Mounted.{CanRead};
ghost use Rattle.cckd_layer.specs.Loose.{TiedIn};

use crate::callers::complete_write_and_close;
use crate::layer::{STORED, read_of, stage_of, written, zeros};
use cckd_base::{FORMAT_LIMIT, LayerFault, Track};
use cckd_image::Roles;
use cckd_layer::{Held, Layer};
use cckd_shelf::{Slot, Stage};
use cckd_track::Ckd;
use std::alloc::Global;
use std::test::Fail;

/// A layer over the base in a slot.
fn mounted<T: Stage>(alloc: Global, stage: &mut T, slot: Slot) -> Result<Layer<Ckd>, Fail>
    ensures whole { IfOk result (λ layer. layer.broken ≡ false) }
    ensures can_read { IfOk result (λ layer. CanRead layer (seen T.Shows stage.new)) }
    ensures tied { IfOk result (λ layer. TiedIn layer (seen T.Shows stage.new)) }
{
    match Layer::mount(alloc, stage, slot, Roles::Base, FORMAT_LIMIT) {
        Ok(layer) => Ok(layer),
        Err(_) => Err(Fail::new("not mounted")),
    }
}

/// Completes a layer, and writes a track of the device.
fn rewrite<T: Stage>(
    layer: &mut Layer<Ckd>,
    stage: &mut T,
    number: u32,
    bytes: &[u8],
) -> Result<(), Fail>
    requires whole { layer.old.broken ≡ false }
    requires long { length bytes.now ≤ 65535 }
    requires tied { TiedIn layer.old (seen T.Shows stage.old) }
{
    if layer.layout().geo.tracks() <= number {
        return Err(Fail::new("no such track"));
    }
    match complete_write_and_close(layer, stage, Track(number), bytes) {
        Ok(()) => Ok(()),
        Err(_) => Err(Fail::new("not written")),
    }
}

#[test]
fn the_last_entry_gets_the_size_up_to_the_end(rt: HostRuntime) -> Result<(), Fail> {
    let alloc = rt.alloc();
    let cases = [
        (3149, 0x2d, 3),
        (3150, 0x2e, 3),
        (3151, 0x2f, 3),
        (3152, 0x30, 1),
        (3200, 0x30, 1),
    ];
    for (len, size, operations) in cases {
        let bytes = written(alloc, len, &[])?;
        let (mut stage, slot) = stage_of(alloc, bytes.as_slice(), &[])?;
        let mut layer = mounted(alloc, &mut stage, slot)?;
        assert_eq!(rt; layer.complete(&mut stage), Ok(()));
        assert_eq!(rt; stage.ops().len(), operations, "of {len}");
        let want = written(alloc, len, &[(1062, &[size])])?;
        let Some(file) = stage.file("v") else {
            return Err(Fail::new("no file"));
        };
        assert_eq!(rt; file.len(), len);
        assert_eq!(rt; file.starts_with(want.as_slice()), true, "of {len}");
    }
    Ok(())
}

/// Why a base of 3,149 bytes isn't made snug where the call of this number fails.
fn fault_of(alloc: Global, failing: u64) -> Result<Option<LayerFault>, Fail> {
    let bytes = written(alloc, 3149, &[])?;
    let (mut stage, slot) = stage_of(alloc, bytes.as_slice(), &[failing])?;
    let mut layer = mounted(alloc, &mut stage, slot)?;
    match layer.complete(&mut stage) {
        Ok(()) => Ok(None),
        Err(fault) => Ok(Some(fault)),
    }
}

#[test]
fn a_fault_of_completing_is_told(rt: HostRuntime) -> Result<(), Fail> {
    let alloc = rt.alloc();
    // The calls before these bind the slot, and mount it in six.
    let faults = [
        (8, Some(LayerFault::ReadFault)),
        (9, Some(LayerFault::ReadFault)),
        (10, Some(LayerFault::WriteFault)),
        (11, Some(LayerFault::SyncFault)),
        (12, None),
    ];
    for (call, want) in faults {
        assert_eq!(rt; fault_of(alloc, call)?, want, "at {call}");
    }
    Ok(())
}

#[test]
fn a_base_that_was_not_snug_is_written_and_mounted_again(rt: HostRuntime) -> Result<(), Fail> {
    let alloc = rt.alloc();
    let bytes = written(alloc, 3149, &[])?;
    let (mut stage, slot) = stage_of(alloc, bytes.as_slice(), &[])?;
    let mut layer = mounted(alloc, &mut stage, slot)?;
    let mut track = STORED;
    track[29] = 0xbb;
    rewrite(&mut layer, &mut stage, 0, track.as_slice())?;
    let mut again = mounted(alloc, &mut stage, slot)?;
    let mut room = zeros(alloc, 65536)?;
    let out = room.as_mut_slice();
    assert_eq!(rt;
        read_of(&mut again, &mut stage, 0, out),
        Ok(Held::Here { len: 45 })
    );
    assert_eq!(rt; out.starts_with(track.as_slice()), true);
    Ok(())
}
