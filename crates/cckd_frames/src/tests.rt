ghost use Rattle.std.specs.Prelude.{◌≡◌, ◌≤◌, ◌<◌, ◌-◌, ◌∷◌, length, take, IfSome, IsNone};
ghost use Rattle.cckd_frames.specs.Frames.{IsKept, IsUsed, keys, holding, with_entries, frames as frames_of};

use crate::{Frame, Frames};
use lru::LruCache;
use std::alloc::Global;
use std::num::NonZeroUsize;
use std::test::Fail;

#[test]
fn keys_come_in_the_order_of_lru(rt: HostRuntime) -> Result<(), Fail> {
    let mut frames = Frames::new(rt.alloc(), 3, 8)?;
    let mut cache = LruCache::new(rt.alloc(), NonZeroUsize::new(3).unwrap())?;
    for key in [7u32, 9, 7, 4, 1, 9, 9, 4, 7, 1, 0, 4, 2, 2, 7, 0] {
        if frames.find(key).is_none() {
            let _frame = frames.take_last(key);
        }
        if cache.get(&key).is_none() {
            let _old = cache.put(key, ())?;
        }
        let mut place = 0u32;
        for (wanted, _) in cache.iter() {
            assert_eq!(rt; frames.key_at(place), Some(*wanted), "after {key}");
            place = place.wrapping_add(1);
        }
        assert_eq!(rt; frames.key_at(place), None, "after {key}");
    }
    Ok(())
}

/// An entry of the plain list.
#[derive(Drop)]
struct Row {
    key: u32,
    mark: Option<u32>,
    bytes: Vec<u8>,
}

/// The next number of a fixed sequence.
fn step(seed: u32) -> u32 {
    seed.wrapping_mul(1_664_525).wrapping_add(1_013_904_223)
}

/// Where the list has the key.
fn place_of(rows: &[Row], key: u32) -> Option<usize> {
    for (place, row) in rows.iter().enumerate() {
        if row.key == key {
            return Some(place);
        }
    }
    None
}

/// Brings the row of a key to the front, or a new one, where the last row goes if there are `count`.
fn bring(alloc: Global, rows: &mut Vec<Row>, key: u32, count: usize) -> Result<(), Fail> {
    let row = match place_of(rows.as_slice(), key) {
        Some(place) if place < rows.len() => rows.remove(place),
        _ => {
            if rows.len() >= count {
                let _last = rows.pop();
            }
            Row {
                key,
                mark: None,
                bytes: Vec::new(alloc),
            }
        }
    };
    rows.insert(0, row)?;
    Ok(())
}

/// The mark and the bytes of each row are those of the entry with its key.
fn holds_each(frames: &Frames, rows: &[Row]) -> bool {
    for row in rows {
        let Some(frame) = frames.peek(row.key) else {
            return false;
        };
        if frames.marked(frame) != row.mark || frames.bytes(frame) != row.bytes.as_slice() {
            return false;
        }
    }
    true
}

/// The keys are those of the rows, in their order.
fn is_in_order(frames: &Frames, rows: &[Row]) -> bool {
    let mut place = 0u32;
    for row in rows {
        if frames.key_at(place) != Some(row.key) {
            return false;
        }
        place = place.wrapping_add(1);
    }
    frames.key_at(place).is_none() && frames.len() == place
}

fn scribble(bytes: &mut [u8], number: u32) {
    for byte in bytes.iter_mut() {
        *byte = byte.wrapping_mul(3).wrapping_add((number % 251) as u8);
    }
}

/// Finds or takes the entry of a key, and sets its length, its mark and its bytes.
fn touch(frames: &mut Frames, key: u32, len: u32, number: u32)
    requires { len ≤ frames.old.frame_len }
    ensures { frames.new.frame_len ≡ frames.old.frame_len }
{
    let frame = match frames.find(key) {
        Some(frame) => frame,
        None => frames.take_last(key),
    };
    frames.set_len(frame, len);
    frames.mark(frame, if number % 3 == 0 { None } else { Some(number) });
    scribble(frames.bytes_mut(frame), number);
}

/// The same of the plain list.
fn touch_row(
    alloc: Global,
    rows: &mut Vec<Row>,
    key: u32,
    count: usize,
    len: u32,
    number: u32,
) -> Result<(), Fail> {
    bring(alloc, rows, key, count)?;
    if let Some(row) = rows.first_mut() {
        row.bytes.resize(len as usize, 0)?;
        row.mark = if number % 3 == 0 { None } else { Some(number) };
        scribble(row.bytes.as_mut_slice(), number);
    }
    Ok(())
}

/// A run of a fixed sequence of calls.
struct Run {
    count: u32,
    keys: u32,
    calls: u32,
    // All is forgotten before each call whose number is a multiple of this.
    forget_every: u32,
    // From this call on all entries are compared, and before it the first alone.
    whole_from: u32,
}

/// Makes the call with this number on both. Whether they answer the same.
fn call_both(
    alloc: Global,
    frames: &mut Frames,
    rows: &mut Vec<Row>,
    run: &Run,
    seed: u32,
) -> Result<bool, Fail>
    requires { (0 < run.now.keys) × (9 ≤ frames.old.frame_len) }
    ensures { frames.new.frame_len ≡ frames.old.frame_len }
{
    let key = (seed >> 8) % run.keys;
    let number = seed >> 4;
    if seed >> 25 < 9 {
        return Ok(frames.peek(key).is_some() == place_of(rows.as_slice(), key).is_some());
    }
    let len = number % 10;
    touch(frames, key, len, number);
    touch_row(alloc, rows, key, run.count as usize, len, number)?;
    Ok(true)
}

/// The last key is that of the last row where all frames are in use, and none is told before.
fn has_last(frames: &Frames, rows: &[Row], count: u32) -> bool {
    let last = match rows.last() {
        Some(row) if rows.len() >= count as usize => Some(row.key),
        _ => None,
    };
    frames.last() == last
}

/// Frames and a plain list take the same calls, and are compared after each. Counts the calls with
/// all frames in use, after which all entries were the same. None where anything differs.
fn agrees(alloc: Global, run: &Run) -> Result<Option<u32>, Fail>
    requires { (1 ≤ run.now.count) × (run.now.count ≤ 4096) × (0 < run.now.keys) × (0 < run.now.forget_every) }
{
    let mut frames = Frames::new(alloc, run.count, 9)?;
    let mut rows: Vec<Row> = Vec::new(alloc);
    let mut seed = 2311u32;
    let mut full = 0u32;
    for call in 0..run.calls {
        seed = step(seed);
        if call % run.forget_every == 0 {
            frames.forget_all();
            rows.clear();
        }
        if !call_both(alloc, &mut frames, &mut rows, run, seed)? {
            return Ok(None);
        }
        let whole = call >= run.whole_from;
        let some = if whole { rows.len() } else { rows.len().min(1) };
        if frames.len() as usize != rows.len()
            || !has_last(&frames, rows.as_slice(), run.count)
            || !holds_each(&frames, &rows.as_slice()[..some])
        {
            return Ok(None);
        }
        if whole && !is_in_order(&frames, rows.as_slice()) {
            return Ok(None);
        }
        if whole && rows.len() == run.count as usize {
            full = full.wrapping_add(1);
        }
    }
    Ok(Some(full))
}

#[test]
fn one_frame_agrees_with_a_plain_list(rt: HostRuntime) -> Result<(), Fail> {
    let run = &Run {
        count: 1,
        keys: 3,
        calls: 2_000,
        forget_every: 50,
        whole_from: 0,
    };
    let full = agrees(rt.alloc(), run)?;
    assert!(rt; full.is_some_and(|calls| calls >= 1_900), "{full:?}");
    Ok(())
}

#[test]
fn five_frames_agree_with_a_plain_list(rt: HostRuntime) -> Result<(), Fail> {
    let run = &Run {
        count: 5,
        keys: 12,
        calls: 4_000,
        forget_every: 100,
        whole_from: 0,
    };
    let full = agrees(rt.alloc(), run)?;
    assert!(rt; full.is_some_and(|calls| calls >= 3_000), "{full:?}");
    Ok(())
}

#[test]
fn the_most_frames_agree_with_a_plain_list(rt: HostRuntime) -> Result<(), Fail> {
    let run = &Run {
        count: 4_096,
        keys: 6_000,
        calls: 8_000,
        // Once, before the first call.
        forget_every: 8_000,
        whole_from: 7_800,
    };
    let full = agrees(rt.alloc(), run)?;
    assert_eq!(rt; full, Some(200));
    Ok(())
}

#[test]
fn new_bytes_are_zeros(rt: HostRuntime) -> Result<(), Fail> {
    let mut frames = Frames::new(rt.alloc(), 1, 4)?;
    let frame = frames.take_last(20);
    frames.set_len(frame, 4);
    frames.bytes_mut(frame).fill(0xaa);
    let again = frames.take_last(21);
    assert_eq!(rt; again, Frame(0));
    assert!(rt; frames.bytes(again).is_empty());
    frames.set_len(again, 4);
    assert_eq!(rt; frames.bytes(again), [0u8; 4].as_slice());
    Ok(())
}

/// Writes each byte of the entry, and then marks it. What is known after the loan is enough for the
/// next call, and for the clauses here.
fn write_and_mark(frames: &mut Frames, frame: Frame, byte: u8, mark: u32)
    requires { IsUsed frame.0 frames.old.entries }
    ensures used { IsUsed frame.0 frames.new.entries }
    ensures kept { IsKept frames.new }
    ensures keys { keys frames.new.entries ≡ keys frames.old.entries }
    ensures frames { frames_of frames.new.entries ≡ frames_of frames.old.entries }
{
    let bytes = frames.bytes_mut(frame);
    bytes.fill(byte);
    frames.mark(frame, Some(mark));
}

#[test]
fn a_written_entry_can_be_marked(rt: HostRuntime) -> Result<(), Fail> {
    let mut frames = Frames::new(rt.alloc(), 2, 4)?;
    let frame = frames.take_last(20);
    frames.set_len(frame, 3);
    write_and_mark(&mut frames, frame, 7, 11);
    assert_eq!(rt; frames.bytes(frame), [7u8; 3].as_slice());
    assert_eq!(rt; frames.marked(frame), Some(11));
    Ok(())
}

// Puts the bytes where the key is new.
fn put_new(frames: &mut Frames, key: u32, bytes: &[u8]) -> Option<Frame>
    requires { length bytes.now ≤ frames.old.frame_len }
    ensures put { IfSome result (λ f. frames.new ≡ with_entries frames.old (holding f.0 key bytes.now ∷ take (frames.old.count - 1) frames.old.entries)) }
    ensures same { IsNone result → frames.new ≡ frames.old }
    ensures len { frames.new.frame_len ≡ frames.old.frame_len }
{
    if frames.peek(key).is_some() {
        return None;
    }
    Some(frames.put(key, bytes))
}

#[test]
fn bytes_are_put_over_those_of_the_last_entry(rt: HostRuntime) -> Result<(), Fail> {
    let mut frames = Frames::new(rt.alloc(), 2, 4)?;
    let long = put_new(&mut frames, 7, b"long".as_slice());
    let more = put_new(&mut frames, 8, b"more".as_slice());
    let last = put_new(&mut frames, 9, b"last".as_slice());
    assert_eq!(rt;
        (long, more, last),
        (Some(Frame(0)), Some(Frame(1)), Some(Frame(0)))
    );
    assert_eq!(rt; (frames.key_at(0), frames.key_at(1)), (Some(9), Some(8)));
    let frame = frames.peek(9).expect(&rt, "9 is there");
    assert_eq!(rt; frames.bytes(frame), b"last".as_slice());
    assert_eq!(rt; frames.marked(frame), None);
    Ok(())
}
