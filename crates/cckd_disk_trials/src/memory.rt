use cckd_memory::{Bytes, FileIn, MemoryStage, Op, image_of};
use cckd_shelf::{Failed, Shelf, Slot, Stage};
use std::alloc::Global;
use std::test::Fail;

fn slot(n: u8) -> Result<Slot, Fail> {
    Ok(Slot::new(n).ok_or("no slot")?)
}

fn stage_of(
    alloc: Global,
    file: &[u8],
    script: &[u8],
    failing: &[u64],
) -> Result<MemoryStage, Fail> {
    let mut files = Vec::new(alloc);
    files.push(FileIn {
        name: Bytes::of(alloc, b"v")?,
        bytes: Bytes::of(alloc, file)?,
    })?;
    Ok(MemoryStage::new(alloc, &files, script, failing)?)
}

/// Reads where the range lies within the file, and answers the file's length.
fn read_part<S: Shelf>(
    shelf: &mut S,
    slot: Slot,
    pos: u64,
    into: &mut [u8],
) -> Result<u64, Failed> {
    let len = shelf.len(slot)?;
    if pos <= len && into.len() as u64 <= len - pos {
        shelf.read(slot, pos, into)?;
    }
    Ok(len)
}

#[test]
fn a_bound_file_is_read(rt: HostRuntime) -> Result<(), Fail> {
    let mut stage = stage_of(rt.alloc(), b"abcdef", b"", &[])?;
    stage.bind(slot(0)?, "v")?;
    stage.bind(slot(1)?, "w")?;
    let mut part = [0u8; 3];
    assert_eq!(rt; read_part(&mut stage, slot(0)?, 2, &mut part)?, 6);
    assert_eq!(rt; part.as_slice(), b"cde".as_slice());
    assert_eq!(rt; read_part(&mut stage, slot(1)?, 0, &mut part)?, 0);
    assert_eq!(rt; stage.file("v"), Some(b"abcdef".as_slice()));
    assert_eq!(rt; stage.file("w"), None);
    Ok(())
}

#[test]
fn a_script_is_taken_and_an_output_put(rt: HostRuntime) -> Result<(), Fail> {
    let mut stage = stage_of(rt.alloc(), b"", b"xyz", &[])?;
    let mut script = [0u8; 2];
    assert_eq!(rt; stage.take(&mut script)?, 2);
    assert_eq!(rt; script.as_slice(), b"xy".as_slice());
    assert_eq!(rt; stage.take(&mut script)?, 1);
    assert_eq!(rt; stage.take(&mut script)?, 0);
    assert_eq!(rt; stage.put(b"one ")?, 4);
    assert_eq!(rt; stage.put(b"two")?, 3);
    assert_eq!(rt; stage.output(), b"one two".as_slice());
    assert_eq!(rt; stage.ops().len(), 2);
    assert_eq!(rt; stage.wanted(), 0);
    Ok(())
}

fn all_calls(stage: &mut MemoryStage) -> Result<u64, Fail> {
    let base = slot(0)?;
    let mut failed = 0;
    let mut script = [0u8; 1];
    if stage.bind(base, "v").is_err() {
        failed += 1;
    }
    if stage.len(base).is_err() {
        failed += 10;
    }
    if stage.write(base, 8, b"z").is_err() {
        failed += 100;
    }
    if stage.sync(base).is_err() {
        failed += 1_000;
    }
    if stage.take(&mut script).is_err() {
        failed += 10_000;
    }
    if stage.put(b"out").is_err() {
        failed += 100_000;
    }
    Ok(failed)
}

#[test]
fn each_listed_call_fails_alone(rt: HostRuntime) -> Result<(), Fail> {
    let mut expected = 1;
    for number in 1..7u64 {
        let mut stage = stage_of(rt.alloc(), b"abc", b"s", &[number])?;
        assert_eq!(rt; all_calls(&mut stage)?, expected, "call {number}");
        assert_eq!(rt; stage.wanted(), 0);
        expected = u64::wrapping_mul(expected, 10);
    }
    Ok(())
}

#[test]
fn a_write_past_the_end_leaves_zeros(rt: HostRuntime) -> Result<(), Fail> {
    let mut stage = stage_of(rt.alloc(), b"abc", b"", &[])?;
    stage.bind(slot(0)?, "v")?;
    stage.bind(slot(1)?, "w")?;
    stage.write(slot(0)?, 5, b"fg")?;
    stage.write(slot(0)?, 1, b"B")?;
    assert_eq!(rt; stage.file("v"), Some(b"aBc\0\0fg".as_slice()));
    stage.sync(slot(1)?)?;
    assert_eq!(rt; stage.file("w"), None, "a sync makes no file");
    stage.write(slot(1)?, 0, b"new")?;
    assert_eq!(rt; stage.file("w"), Some(b"new".as_slice()));
    assert_eq!(rt; stage.ops().len(), 4);
    Ok(())
}

#[test]
fn a_failed_write_is_torn(rt: HostRuntime) -> Result<(), Fail> {
    let mut stage = stage_of(rt.alloc(), b"abc", b"", &[2])?;
    stage.bind(slot(0)?, "v")?;
    assert_eq!(rt; stage.write(slot(0)?, 0, b"xy"), Err(Failed));
    match stage.ops() {
        [
            Op::Torn {
                slot: 0,
                pos: 0,
                bytes,
            },
        ] => assert_eq!(rt; bytes.get(), b"xy".as_slice()),
        ops => assert!(rt; false, "{ops:?}"),
    }
    Ok(())
}

#[test]
fn a_failed_cut_is_half_made(rt: HostRuntime) -> Result<(), Fail> {
    let alloc = rt.alloc();
    let mut stage = stage_of(alloc, b"abc", b"", &[2])?;
    stage.bind(slot(0)?, "v")?;
    assert_eq!(rt; stage.cut(slot(0)?, 1), Err(Failed));
    assert!(rt; matches!(stage.ops(), [Op::HalfCut { slot: 0, len: 1 }]));
    for (choice, left) in [(0u8, b"abc".as_slice()), (1, b"a".as_slice())] {
        let image = image_of(alloc, b"abc", stage.ops(), slot(0)?, &[choice])?;
        assert_eq!(rt; image.as_slice(), left, "choice {choice}");
    }
    Ok(())
}

#[test]
fn a_name_moves_to_another_slot(rt: HostRuntime) -> Result<(), Fail> {
    let mut stage = stage_of(rt.alloc(), b"abc", b"", &[])?;
    stage.bind(slot(0)?, "v")?;
    stage.write(slot(0)?, 3, b"d")?;
    stage.bind(slot(1)?, "v")?;
    assert_eq!(rt; stage.len(slot(0)?)?, 0);
    assert_eq!(rt; stage.len(slot(1)?)?, 4);
    assert_eq!(rt; stage.file("v"), Some(b"abcd".as_slice()));
    Ok(())
}

/// One write inside a sector, one of another slot, one across two sectors, one past the end, and a cut.
fn five_ops(alloc: Global) -> Result<Vec<Op>, Fail> {
    let mut ops = Vec::new(alloc);
    ops.push(Op::Write {
        slot: 0,
        pos: 600,
        bytes: Bytes::of(alloc, b"bb")?,
    })?;
    ops.push(Op::Write {
        slot: 1,
        pos: 0,
        bytes: Bytes::of(alloc, b"zz")?,
    })?;
    ops.push(Op::Write {
        slot: 0,
        pos: 511,
        bytes: Bytes::of(alloc, b"cc")?,
    })?;
    ops.push(Op::Write {
        slot: 0,
        pos: 1026,
        bytes: Bytes::of(alloc, b"d")?,
    })?;
    ops.push(Op::Cut { slot: 0, len: 700 })?;
    Ok(ops)
}

/// A write that is synced, and a torn one.
fn torn_ops(alloc: Global) -> Result<Vec<Op>, Fail> {
    let mut ops = Vec::new(alloc);
    ops.push(Op::Write {
        slot: 0,
        pos: 0,
        bytes: Bytes::of(alloc, b"bb")?,
    })?;
    ops.push(Op::Sync { slot: 0 })?;
    ops.push(Op::Torn {
        slot: 0,
        pos: 1,
        bytes: Bytes::of(alloc, b"cc")?,
    })?;
    Ok(ops)
}

/// The bytes from `at` on in the outcome of a file of 1,024 bytes `a`, as many as are expected.
fn is_left(
    alloc: Global,
    ops: &[Op],
    choices: &[u8],
    at: usize,
    expected: &[u8],
) -> Result<bool, Fail> {
    let image = image_of(alloc, &[b'a'; 1024], ops, slot(0)?, choices)?;
    let part = image.get(at..at.wrapping_add(expected.len()));
    Ok(part == Some(expected))
}

#[test]
fn an_outcome_is_made_by_choices(rt: HostRuntime) -> Result<(), Fail> {
    let ops = five_ops(rt.alloc())?;
    let rows: [(&[u8], usize, &[u8]); 7] = [
        (&[0, 0, 0, 0], 510, b"aaaa"),
        (&[], 600, b"aa"),
        (&[1, 1, 1, 1], 600, b"bb"),
        (&[1, 7, 1, 1], 510, b"a\x07\x07a"),
        (&[0, 7, 0, 1], 598, b"aaaa"),
        (&[1, 0, 1], 1023, b"a\0\0d"),
        (&[0, 0, 0, 1], 699, b"a"),
    ];
    for (choices, at, expected) in rows {
        assert!(rt;
            is_left(rt.alloc(), &ops, choices, at, expected)?,
            "{choices:?}"
        );
    }
    assert!(rt;
        !is_left(rt.alloc(), &ops, &[0, 0, 0, 1], 700, b"a")?,
        "the cut was made"
    );
    Ok(())
}

#[test]
fn a_sync_stays_and_a_torn_write_may_be_made(rt: HostRuntime) -> Result<(), Fail> {
    let ops = torn_ops(rt.alloc())?;
    assert!(rt; is_left(rt.alloc(), &ops, &[], 0, b"bbaa")?);
    assert!(rt; is_left(rt.alloc(), &ops, &[1], 0, b"bcca")?);
    Ok(())
}
