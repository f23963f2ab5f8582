//! Threads that count the same number of calls each, by turns and by a lock.
ghost use Rattle.std.specs.Prelude.{◌≡◌, ℕ, ◌*◌, ◌^◌, ◌<◌, ◌≤◌, length, slice_index_or};
ghost use Rattle.cckd_turn.specs.Passes.{IsReady, IsBack};

use crate::counter::{Counter, count_calls};
use cckd_turn::{Pass, TurnTable};
use std::alloc::{AllocError, Global};
use std::sync::{Mutex, Wait};
use std::thread::{self, Threads};

fn run<R: Threads + Wait + Sync>(
    rt: &R,
    table: &TurnTable<Counter>,
    passes: &mut [Pass<u64>],
    calls: u64,
)
    requires some { 0 < length passes.old }
    requires ready { (i : ℕ) (p : _) → i < length passes.old → p ≡ slice_index_or passes.old i p
        → IsReady table.now p calls }
    ensures { (i : ℕ) (p : _) → i < length passes.old
        → IsBack table.now (slice_index_or passes.old i p) (slice_index_or passes.new i p) }
{
    thread::for_each_mut(
        rt,
        passes,
        passes.len(),
        &|_, pass: &mut Pass<u64>|
            requires { IsReady table.now pass.old calls }
            ensures { IsBack table.entry.now pass.old pass.new }
        { count_calls(rt, table, pass, calls) },
    );
}

/// How many calls were counted in the end.
pub fn by_turn<R: Threads + Wait + Sync>(
    rt: &R,
    alloc: Global,
    threads: u32,
    calls: u64,
) -> Result<u64, AllocError>
    requires threads { (0 < threads) × (threads ≤ 64) }
    requires calls { threads * calls < 2 ^ 63 }
{
    match TurnTable::new(alloc, Counter { count: 0 }, threads, calls) {
        Ok((table, mut passes)) => {
            run(rt, &table, passes.as_mut_slice(), calls);
            Ok(table.close(passes).count)
        }
        Err((_, memory)) => Err(memory),
    }
}

fn lock_calls<R: Wait>(rt: &R, counter: &Mutex<u64>, calls: u64) {
    for _ in 0..calls {
        let mut count = counter.lock(rt);
        *count = count.wrapping_add(1);
    }
}

/// The same by a lock.
pub fn by_lock<R: Threads + Wait + Sync>(
    rt: &R,
    alloc: Global,
    threads: u32,
    calls: u64,
) -> Result<u64, AllocError>
    requires { 0 < threads }
{
    let counter = Mutex::new(0u64);
    let mut workers = vec![in alloc; calls; threads as usize]?;
    let shared = &counter;
    thread::for_each_mut(
        rt,
        workers.as_mut_slice(),
        threads as usize,
        &|_, calls: &mut u64| lock_calls(rt, shared, *calls),
    );
    Ok(counter.into_inner())
}
