//! Calls per second of a counter that threads use by tickets, beside the same counter in a `Mutex`.
ghost use Rattle.std.specs.Prelude.{◌^◌, ◌<◌, ◌≤◌};

use crate::race;
use std::alloc::Global;
use std::io;
use std::rt::Clock;
use std::sync::Wait;
use std::thread::Threads;
use std::time::{Duration, Instant};

// How many threads race in the run that has no words.
const UNTIMED: [u32; 3] = [1, 2, 5];

// A word of the command line, or 1.
fn number(word: &String) -> u64 {
    word.as_str().parse::<u64>().unwrap_or(1)
}

fn per_second(calls: u64, time: Duration) -> u64 {
    let micros = time.as_micros().max(1);
    (u128::from(calls) * 1_000_000 / micros).min(u128::from(u64::MAX)) as u64
}

// How many calls of the first were made for each 100 of the second.
fn for_each_hundred(first: u64, second: u64) -> u64 {
    (u128::from(first) * 100 / u128::from(second.max(1))).min(u128::from(u64::MAX)) as u64
}

fn compared<R: Threads + Wait + Sync + Clock + Print>(
    rt: &R,
    alloc: Global,
    calls: u64,
    threads: u32,
    is_timed: bool,
) -> io::Result<()>
    requires threads { (0 < threads) × (threads ≤ 64) }
    requires calls { calls ≤ 2 ^ 40 }
{
    let each = calls / u64::from(threads);
    let start = Instant::now(rt)?;
    let turns = race::by_turn(rt, alloc, threads, each)?;
    let middle = Instant::now(rt)?;
    let locks = race::by_lock(rt, alloc, threads, each)?;
    let end = Instant::now(rt)?;
    println!(rt; "threads {threads}: {turns} by turns, {locks} by a lock")?;
    if is_timed {
        let turn = per_second(turns, middle.duration_since(start));
        let lock = per_second(locks, end.duration_since(middle));
        println!(rt;
            "  calls a second: {turn} by turns, {lock} by a lock; {} for each 100",
            for_each_hundred(turn, lock)
        )?;
    }
    Ok(())
}

/// How many calls a word asks for: 1 to 2^40.
pub fn calls_in(word: Option<String>) -> u64
    ensures { result ≤ 2 ^ 40 }
{
    match word {
        Some(word) => number(&word).clamp(1, 1 << 40),
        None => 1,
    }
}

/// So many calls in all, with as many threads as the word says, 1 to 64.
pub fn measure<R: Threads + Wait + Sync + Clock + Print>(
    rt: &R,
    alloc: Global,
    calls: u64,
    word: &String,
) -> io::Result<()>
    requires { calls ≤ 2 ^ 40 }
{
    let threads = number(word).clamp(1, 64) as u32;
    compared(rt, alloc, calls, threads, true)
}

/// 10,000 calls with one, two and five threads, and how many were counted.
pub fn add_up<R: Threads + Wait + Sync + Clock + Print>(rt: &R, alloc: Global) -> io::Result<()> {
    for threads in UNTIMED {
        compared(rt, alloc, 10_000, threads, false)?;
    }
    Ok(())
}
