ghost use Rattle.std.specs.Prelude.{◌+◌, ◌^◌, ◌<◌, ◌≤◌, IfOk};
ghost use Rattle.cckd_record_example.specs.Versions.{IsFit};

use crate::{Version, store, update, update_all};
use cckd_memory::{Bytes, FileIn, MemoryStage, Op, image_of};
use cckd_shelf::{Shelf, Slot};
use std::alloc::Global;
use std::test::Fail;

const OLD_PLACE: u64 = 100;

const NEW_PLACE: u64 = 1000;

/// An entry, and at its place a record of 600 bytes `a`.
fn old_file(alloc: Global) -> Result<Vec<u8>, Fail> {
    let mut file = Vec::new(alloc);
    file.extend_from_slice(&OLD_PLACE.to_le_bytes())?;
    file.resize(100, 0)?;
    file.resize(700, b'a')?;
    Ok(file)
}

/// The byte that fills the record to which the entry points.
fn read_value(file: &[u8]) -> Option<u8> {
    let entry = file.get(..8)?;
    let mut place = [0u8; 8];
    for (to, from) in place.iter_mut().zip(entry) {
        *to = *from;
    }
    let at = u64::from_le_bytes(place) as usize;
    let record = file.get(at..at.wrapping_add(600))?;
    let first = *record.first()?;
    if record.iter().all(|byte| *byte == first) {
        Some(first)
    } else {
        None
    }
}

/// A stage whose slot 0 has this file.
fn bound(alloc: Global, file: &[u8]) -> Result<MemoryStage, Fail> {
    let mut files = Vec::new(alloc);
    files.push(FileIn {
        name: Bytes::of(alloc, b"v")?,
        bytes: Bytes::of(alloc, file)?,
    })?;
    let mut stage = MemoryStage::new(alloc, &files, b"", &[])?;
    let slot = Slot::new(0).ok_or("no slot")?;
    stage.bind(slot, "v")?;
    Ok(stage)
}

fn updated(alloc: Global, file: &[u8]) -> Result<MemoryStage, Fail> {
    let mut stage = bound(alloc, file)?;
    let slot = Slot::new(0).ok_or("no slot")?;
    update(&mut stage, slot, NEW_PLACE, &[b'b'; 600])?;
    Ok(stage)
}

/// What is read after a stop that follows these operations.
fn left(alloc: Global, file: &[u8], ops: &[Op], choices: &[u8]) -> Result<Option<u8>, Fail> {
    let slot = Slot::new(0).ok_or("no slot")?;
    let image = image_of(alloc, file, ops, slot, choices)?;
    Ok(read_value(&image))
}

#[test]
fn a_stop_leaves_the_old_value_or_the_new_one(rt: HostRuntime) -> Result<(), Fail> {
    let file = old_file(rt.alloc())?;
    let stage = updated(rt.alloc(), &file)?;
    let ops = stage.ops();
    assert_eq!(rt; ops.len(), 4);
    let choices: [&[u8]; 4] = [&[0, 0], &[1, 1], &[0, 1], &[1, 0]];
    for made in 0..ops.len() {
        for choice in choices {
            let value = left(rt.alloc(), &file, &ops[..made], choice)?;
            assert!(rt;
                value == Some(b'a') || value == Some(b'b'),
                "{made} {choice:?}"
            );
        }
    }
    for choice in choices {
        assert_eq!(rt; left(rt.alloc(), &file, ops, choice)?, Some(b'b'));
    }
    Ok(())
}

/// A version of 600 equal bytes.
fn version(alloc: Global, place: u64, byte: u8) -> Result<Version, Fail>
    requires behind { 8 ≤ place }
    requires room { place + 600 < 2 ^ 63 }
    ensures { IfOk result IsFit }
{
    Ok(Version {
        place,
        value: vec![in alloc; byte; 600]?,
    })
}

#[test]
fn a_version_follows_another(rt: HostRuntime) -> Result<(), Fail> {
    let alloc = rt.alloc();
    let file = old_file(alloc)?;
    let mut stage = bound(alloc, &file)?;
    let slot = Slot::new(0).ok_or("no slot")?;
    let first = version(alloc, NEW_PLACE, b'b')?;
    let second = version(alloc, OLD_PLACE, b'c')?;
    update_all(&mut stage, slot, &[first, second])?;
    let ops = stage.ops();
    assert_eq!(rt; ops.len(), 8);
    // Record, sync, entry and sync of each; all that is open is made.
    let values = [b'a', b'a', b'a', b'b', b'b', b'b', b'b', b'c'];
    for made in 0..ops.len() {
        let value = values.get(made).ok_or("no value")?;
        assert_eq!(rt;
            left(alloc, &file, &ops[..made], &[1])?,
            Some(*value),
            "{made}"
        );
    }
    assert_eq!(rt; left(alloc, &file, ops, &[])?, Some(b'c'));
    Ok(())
}

#[test]
fn stored_bytes_are_read_back(rt: HostRuntime) -> Result<(), Fail> {
    let alloc = rt.alloc();
    let mut stage = bound(alloc, b"longer than what is stored")?;
    let slot = Slot::new(3).ok_or("no slot")?;
    store(&mut stage, slot, "w", b"stored")?;
    let len = stage.len(slot)?;
    assert_eq!(rt; len, 6);
    let mut bytes = vec![in alloc; 0; len as usize]?;
    stage.read(slot, 0, bytes.as_mut_slice())?;
    assert_eq!(rt; bytes.as_slice(), b"stored".as_slice());
    let image = image_of(alloc, b"", stage.ops(), slot, &[])?;
    assert_eq!(rt; image.as_slice(), b"stored".as_slice());
    Ok(())
}
