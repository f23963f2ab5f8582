ghost use Rattle.std.specs.Prelude.{◌≡◌, ℕ, ◌+◌, ◌^◌, ◌<◌, ◌≤◌, [], ◌∷◌, length, Some, slice_index_or, vec_len, IfOk, IfSome};
ghost use Rattle.cckd_turn.specs.Passes.{IsReady, IsBack, IsResting, IsTakenBy, IsNew, HasRoom, callers_of, calls_each_of, number_of, left_of, seen_by, seen_in};

use crate::{Adds, Busy, Pass, Receipt, Stands, Taken, TurnTable};
use std::alloc::{AllocError, Global};
use std::marker::{Brand, PhantomData};
use std::sync::Wait;
use std::test::Fail;
use std::thread::{self, Threads};

// How many calls were made. An entry is the number of the pass that made the call.
#[derive(Drop)]
pub(crate) struct Counter {
    pub count: u64,
}

impl Stands for Counter {
    type Entry = u64;

    ghost stands = { λ c log. c.count ≡ length log };

    ghost by = { λ entry. entry };
}

// Which pass makes a call.
pub(crate) trait Caller {
    ghost number: { ℕ };
}

impl Caller for Brand {
    ghost number = { 0 };
}

struct Counted<C> {
    caller: PhantomData<C>,
}

impl<C: Caller> Adds<u64> for Counted<C> {
    ghost entry = { C.number };
}

// Counts the call, and gives the counter back.
pub(crate) fn finish<C: Caller>(
    table: &TurnTable<Counter>,
    pass: &mut Pass<u64>,
    mut taken: Taken<Counter>,
) -> Receipt
    requires caller { C.number ≡ number_of pass.old }
    requires own { IsTakenBy table.now pass.old taken }
    requires stands { taken.value.count ≡ length (seen_in taken) }
    requires room { HasRoom table.now (seen_in taken) }
    ensures back { IsResting table.now pass.new }
    ensures same { (number_of pass.new ≡ number_of pass.old)
        × (left_of pass.new ≡ left_of pass.old) }
    ensures place { result.place ≡ length (seen_by pass.new) }
{
    taken.value.count += 1;
    table.leave::<Counted<C>>(pass, taken)
}

fn count<R: Wait>(rt: &R, table: &TurnTable<Counter>, pass: &mut Pass<u64>) -> Receipt
    requires own { IsResting table.now pass.old }
    requires calls { 0 < left_of pass.old }
    ensures back { IsResting table.now pass.new }
    ensures same { (number_of pass.new ≡ number_of pass.old)
        × (left_of pass.new + 1 ≡ left_of pass.old) }
    ensures place { result.place ≡ length (seen_by pass.new) }
{
    let taken = table.enter(rt, pass);
    finish::<Brand>(table, pass, taken)
}

pub(crate) fn try_count(table: &TurnTable<Counter>, pass: &mut Pass<u64>) -> Result<Receipt, Busy>
    requires own { IsResting table.now pass.old }
    requires calls { 0 < left_of pass.old }
    ensures back { IsResting table.now pass.new }
    ensures same { number_of pass.new ≡ number_of pass.old }
{
    match table.try_enter(pass) {
        Ok(taken) => Ok(finish::<Brand>(table, pass, taken)),
        Err(busy) => Err(busy),
    }
}

// Two passes of a table whose other passes were taken out.
fn pair(mut passes: Vec<Pass<u64>>) -> Option<(Pass<u64>, Pass<u64>)>
    requires { length passes.items ≡ 2 }
    ensures { IfSome result (λ r. passes.items ≡ r.0 ∷ r.1 ∷ []) }
{
    let second = passes.pop()?;
    let first = passes.pop()?;
    Some((first, second))
}

fn opened(
    alloc: Global,
    calls_each: u64,
) -> Result<(TurnTable<Counter>, Pass<u64>, Pass<u64>), Fail>
    requires { calls_each < 2 ^ 62 }
    ensures { IfOk result (λ r. (callers_of r.0 ≡ 2) × (calls_each_of r.0 ≡ calls_each)
        × IsNew r.0 0 r.1 × IsNew r.0 1 r.2) }
{
    match TurnTable::new(alloc, Counter { count: 0 }, 2, calls_each) {
        Ok((table, passes)) => match pair(passes) {
            Some((first, second)) => Ok((table, first, second)),
            None => Err(AllocError.into()),
        },
        Err((_, memory)) => Err(memory.into()),
    }
}

fn closed(
    alloc: Global,
    table: TurnTable<Counter>,
    first: Pass<u64>,
    second: Pass<u64>,
) -> Result<Counter, Fail>
    requires passes { callers_of table ≡ 2 }
    requires first { IsResting table first × (number_of first ≡ 0) }
    requires second { IsResting table second × (number_of second ≡ 1) }
{
    let mut passes = Vec::with_capacity(alloc, 2)?;
    passes.push_reserved(first);
    passes.push_reserved(second);
    Ok(table.close(passes))
}

pub(crate) fn triple(mut passes: Vec<Pass<u64>>) -> Option<(Pass<u64>, Pass<u64>, Pass<u64>)>
    requires { length passes.items ≡ 3 }
    ensures { IfSome result (λ r. passes.items ≡ r.0 ∷ r.1 ∷ r.2 ∷ []) }
{
    let third = passes.pop()?;
    let (first, second) = pair(passes)?;
    Some((first, second, third))
}

#[test]
fn three_tries_in_a_row_take_places_one_to_three(rt: HostRuntime) -> Result<(), Fail> {
    let (table, passes) = match TurnTable::new(rt.alloc(), Counter { count: 0 }, 3, 1) {
        Ok(made) => made,
        Err((_, memory)) => return Err(memory.into()),
    };
    let Some((mut first, mut second, mut third)) = triple(passes) else {
        return Err(AllocError.into());
    };
    let tries = [
        try_count(&table, &mut first),
        try_count(&table, &mut second),
        try_count(&table, &mut third),
    ];
    assert_eq!(rt; tries, [1, 2, 3].map(|place| Ok(Receipt { place })));
    assert_eq!(rt; table.front(&third), 3);
    Ok(())
}

// The second pass's try while the first has the value.
fn try_during_turn(
    table: &TurnTable<Counter>,
    first: &mut Pass<u64>,
    second: &mut Pass<u64>,
) -> Option<Result<Receipt, Busy>>
    requires first { IsResting table.now first.old × (0 < left_of first.old) }
    requires second { IsResting table.now second.old × (0 < left_of second.old) }
    ensures first { IsResting table.now first.new × (number_of first.new ≡ number_of first.old) }
    ensures second { IsResting table.now second.new
        × (number_of second.new ≡ number_of second.old) }
{
    match table.try_enter(first) {
        Ok(taken) => {
            let other = try_count(table, second);
            finish::<Brand>(table, first, taken);
            Some(other)
        }
        Err(_) => None,
    }
}

#[test]
fn a_try_during_a_turn_is_busy(rt: HostRuntime) -> Result<(), Fail> {
    let (table, mut first, mut second) = opened(rt.alloc(), 1)?;
    let other = try_during_turn(&table, &mut first, &mut second);
    assert_eq!(rt;
        other,
        Some(Err(Busy {
            serving: 0,
            ticket: 1
        }))
    );
    assert_eq!(rt; (first.left(), second.left()), (0, 1));
    assert_eq!(rt; closed(rt.alloc(), table, first, second)?.count, 1);
    Ok(())
}

#[derive(Drop)]
struct Worker {
    pass: Pass<u64>,
    places: Vec<u64>,
}

// Makes as many calls as the worker has room for places.
fn count_all<R: Wait>(rt: &R, table: &TurnTable<Counter>, worker: &mut Worker)
    requires { IsReady table.now worker.old.pass (vec_len worker.old.places) }
    ensures { IsBack table.now worker.old.pass worker.new.pass }
{
    let pass = &mut worker.pass;
    for place in worker.places.iter_mut() {
        *place = count(rt, table, pass).place;
    }
}

// Each worker in a thread of its own.
fn count_beside<R: Threads + Wait + Sync>(
    rt: &R,
    table: &TurnTable<Counter>,
    workers: &mut [Worker],
)
    requires { (i : ℕ) (w : _) → i < length workers.old → w ≡ slice_index_or workers.old i w
        → IsReady table.now w.pass (vec_len w.places) }
    ensures { (i : ℕ) (w : _) → i < length workers.old
        → IsBack table.now (slice_index_or workers.old i w).pass (slice_index_or workers.new i w).pass }
{
    thread::for_each_mut(
        rt,
        workers,
        2,
        &|_, worker: &mut Worker|
            requires { IsReady table.now worker.old.pass (vec_len worker.old.places) }
            ensures { IsBack table.entry.now worker.old.pass worker.new.pass }
        { count_all(rt, table, worker) },
    );
}

fn count_both<R: Threads + Wait + Sync>(
    rt: &R,
    table: &TurnTable<Counter>,
    first: Worker,
    second: Worker,
) -> (Worker, Worker)
    requires first { IsReady table.now first.pass (vec_len first.places) }
    requires second { IsReady table.now second.pass (vec_len second.places) }
    ensures first { IsBack table.now first.pass result.0.pass }
    ensures second { IsBack table.now second.pass result.1.pass }
{
    let mut workers = [first, second];
    count_beside(rt, table, &mut workers);
    let [first, second] = workers;
    (first, second)
}

fn rises(places: &[u64]) -> bool {
    places.windows(2).all(|pair| pair[0] < pair[1])
}

#[test]
fn two_threads_take_each_place_once(rt: HostRuntime) -> Result<(), Fail> {
    let alloc = rt.alloc();
    let (table, first, second) = opened(alloc, 1000)?;
    let one = Worker {
        pass: first,
        places: vec![in alloc; 0u64; 1000]?,
    };
    let other = Worker {
        pass: second,
        places: vec![in alloc; 0u64; 1000]?,
    };
    let (one, other) = count_both(&rt, &table, one, other);
    assert!(rt; rises(&one.places) && rises(&other.places));
    let mut all = one.places;
    all.extend_from_slice(&other.places)?;
    all.sort_unstable();
    assert!(rt; all.first() == Some(&1) && all.last() == Some(&2000) && rises(&all));
    assert_eq!(rt;
        (all.len(), closed(alloc, table, one.pass, other.pass)?.count),
        (2000, 2000)
    );
    Ok(())
}
