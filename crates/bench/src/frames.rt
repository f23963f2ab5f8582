//! Finds and takes per second of `cckd_frames`, beside `lru` with boxed bytes.
ghost use Rattle.std.specs.Prelude.{◌≤◌};

use crate::sequence::next_number;
use cckd_frames::Frames;
use lru::LruCache;
use std::alloc::Global;
use std::io;
use std::num::NonZeroUsize;
use std::time::{Duration, Instant};

const FRAME_LEN: u32 = 65_024;

const FINDS: u32 = 2_000_000;

const TAKES: u32 = 20_000;

/// Finds a key, or takes a frame for it.
fn look(frames: &mut Frames, key: u32) -> bool {
    if frames.find(key).is_some() {
        true
    } else {
        let _frame = frames.take_last(key);
        false
    }
}

/// How many of the looks found their key. Each key is one of `keys`, from `first` on.
fn look_often(frames: &mut Frames, first: u32, keys: u32, calls: u32) -> u32 {
    let mut seed = 2311u32;
    let mut found = 0u32;
    for call in 0..calls {
        seed = next_number(seed);
        let key = if keys == 0 { call } else { (seed >> 8) % keys };
        if look(frames, first.wrapping_add(key)) {
            found = found.wrapping_add(1);
        }
    }
    found
}

fn boxed(alloc: Global) -> io::Result<Vec<u8>> {
    Ok(Vec::from_elem(alloc, 0u8, FRAME_LEN as usize)?)
}

/// The same looks at `lru`.
fn look_often_at(
    alloc: Global,
    cache: &mut LruCache<u32, Vec<u8>>,
    first: u32,
    keys: u32,
    calls: u32,
) -> io::Result<u32> {
    let mut seed = 2311u32;
    let mut found = 0u32;
    for call in 0..calls {
        seed = next_number(seed);
        let key = if keys == 0 { call } else { (seed >> 8) % keys };
        let key = first.wrapping_add(key);
        if cache.get(&key).is_some() {
            found = found.wrapping_add(1);
        } else {
            let bytes = boxed(alloc)?;
            if cache.put(key, bytes).is_err() {
                return Ok(found);
            }
        }
    }
    Ok(found)
}

fn per_second(calls: u32, spent: Duration) -> u64 {
    let nanos = spent.as_nanos().min(u64::MAX as u128 / 2) as u64;
    u64::from(calls) * 1_000_000_000 / nanos.max(1)
}

fn compare(rt: &HostRuntime, count: u32) -> io::Result<()> {
    if count < 1 || count > 4_096 {
        return Ok(());
    }
    let mut frames = Frames::new(rt.alloc(), count, FRAME_LEN)?;
    let start = Instant::now(rt)?;
    let taken = look_often(&mut frames, 1_000_000, 0, TAKES);
    let takes = start.elapsed(rt)?;
    let _filled = look_often(&mut frames, 0, count, count.wrapping_mul(16));
    let start = Instant::now(rt)?;
    let found = look_often(&mut frames, 0, count, FINDS);
    let finds = start.elapsed(rt)?;
    println!(rt;
        "frames {count}: {} finds and {} takes per second ({found} found, {taken} known)",
        per_second(FINDS, finds),
        per_second(TAKES, takes)
    )?;

    let Some(cap) = NonZeroUsize::new(count as usize) else {
        return Ok(());
    };
    let mut cache: LruCache<u32, Vec<u8>> = LruCache::new(rt.alloc(), cap)?;
    let start = Instant::now(rt)?;
    let taken = look_often_at(rt.alloc(), &mut cache, 1_000_000, 0, TAKES)?;
    let takes = start.elapsed(rt)?;
    let _filled = look_often_at(rt.alloc(), &mut cache, 0, count, count.wrapping_mul(16))?;
    let start = Instant::now(rt)?;
    let found = look_often_at(rt.alloc(), &mut cache, 0, count, FINDS)?;
    let finds = start.elapsed(rt)?;
    println!(rt;
        "lru {count}: {} finds and {} takes per second ({found} found, {taken} known)",
        per_second(FINDS, finds),
        per_second(TAKES, takes)
    )?;
    Ok(())
}

/// Makes frames, and says whether there was memory for them.
fn make(rt: &HostRuntime) -> io::Result<()> {
    match Frames::new(rt.alloc(), 4_096, FRAME_LEN) {
        Ok(_) => println!(rt; "frames"),
        Err(_) => println!(rt; "no memory"),
    }
}

/// With the word `run` it measures 64 and 4,096 frames, and with `make` it makes frames twice.
pub fn measure(rt: &HostRuntime, word: Option<String>) -> io::Result<()> {
    let Some(word) = word else {
        return Ok(());
    };
    match word.as_str() {
        "run" => {
            compare(rt, 64)?;
            compare(rt, 4_096)
        }
        "make" => {
            make(rt)?;
            make(rt)
        }
        _ => Ok(()),
    }
}
