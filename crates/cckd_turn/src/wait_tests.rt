//! That who waits sleeps meanwhile, and is served in the end.
ghost use Rattle.std.specs.Prelude.{◌≡◌, ℕ, ◌<◌, ◌∷◌, [], length, slice_index_or, IfOk, IfSome};
ghost use Rattle.cckd_turn.specs.Passes.{IsReady, IsResting};

use crate::tests::{Counter, finish, triple, try_count};
use crate::{Pass, Receipt, TurnTable};
use std::alloc::{AllocError, Global};
use std::marker::Brand;
use std::process::Abort;
use std::rt::Clock;
use std::sync::Wait;
use std::test::Fail;
use std::thread::{self, Threads};
use std::time::Duration;

// A fifth pass looks this often at most for what the others do, which is 10 seconds.
const LOOKS: u32 = 10_000;

// A nap between two looks, in milliseconds.
const NAP: u64 = 1;

// Long enough for a thread that drew its ticket to fall asleep.
const LULL: u64 = 50;

fn nap<R: Clock>(rt: &R, millis: u64) {
    thread::sleep(rt, Duration::from_millis(millis));
}

// A pass that waits for one turn, and how often it looked.
#[derive(Drop)]
struct Waiter {
    pass: Pass<u64>,
    looks: u64,
}

fn who_waits(pass: Pass<u64>) -> Waiter
    ensures { result.pass ≡ pass }
{
    Waiter { pass, looks: 0 }
}

// Until somebody has drawn the first ticket.
fn let_one_go_first<R: Clock>(rt: &R, table: &TurnTable<Counter>) {
    for _ in 0..LOOKS {
        if table.table.shared.peek(0) != 0 {
            return;
        }
        nap(rt, NAP);
    }
}

fn wait_once<R: Wait + Clock>(rt: &R, table: &TurnTable<Counter>, waiter: &mut Waiter)
    requires { IsReady table.now waiter.old.pass 1 }
{
    let_one_go_first(rt, table);
    let pass = &mut waiter.pass;
    let taken = table.enter(rt, pass);
    waiter.looks = taken.looks;
    finish::<Brand>(table, pass, taken);
}

fn wait_beside<R: Threads + Wait + Clock + Sync>(
    rt: &R,
    table: &TurnTable<Counter>,
    waiters: &mut [Waiter],
)
    requires { (i : ℕ) (w : _) → i < length waiters.old → w ≡ slice_index_or waiters.old i w
        → IsReady table.now w.pass 1 }
{
    thread::for_each_mut(
        rt,
        waiters,
        3,
        &|_, waiter: &mut Waiter|
            requires { IsReady table.now waiter.old.pass 1 }
        { wait_once(rt, table, waiter) },
    );
}

// How often each of three passes looked, which wait in threads of their own.
fn looks_of<R: Threads + Wait + Clock + Sync>(
    rt: &R,
    table: &TurnTable<Counter>,
    first: Pass<u64>,
    second: Pass<u64>,
    third: Pass<u64>,
) -> [u64; 3]
    requires first { IsReady table.now first 1 }
    requires second { IsReady table.now second 1 }
    requires third { IsReady table.now third 1 }
{
    let mut waiters = [who_waits(first), who_waits(second), who_waits(third)];
    wait_beside(rt, table, &mut waiters);
    let [first, second, third] = waiters;
    [first.looks, second.looks, third.looks]
}

// Tries until as many tickets are drawn.
fn are_drawn<R: Clock>(
    rt: &R,
    table: &TurnTable<Counter>,
    pass: &mut Pass<u64>,
    tickets: u64,
) -> bool
    requires { IsResting table.now pass.old }
    ensures { IsResting table.now pass.new }
{
    for _ in 0..LOOKS {
        if pass.left() == 0 {
            return false;
        }
        if let Err(busy) = try_count(table, pass) {
            if busy.ticket >= tickets {
                return true;
            }
        }
        nap(rt, NAP);
    }
    false
}

// Tries until nobody has the value or waits for it, and counts then.
fn count_behind<R: Clock>(
    rt: &R,
    table: &TurnTable<Counter>,
    pass: &mut Pass<u64>,
) -> Option<Receipt>
    requires { IsResting table.now pass.old }
{
    for _ in 0..LOOKS {
        if pass.left() == 0 {
            return None;
        }
        if let Ok(receipt) = try_count(table, pass) {
            return Some(receipt);
        }
        nap(rt, NAP);
    }
    None
}

// Takes the value, gives it back once three others wait for it, and tries with a fifth pass until all were served.
fn lead<R: Wait + Clock + Abort>(
    rt: &R,
    table: &TurnTable<Counter>,
    mut first: Pass<u64>,
    mut fifth: Pass<u64>,
)
    requires first { IsReady table.now first 1 }
    requires fifth { IsReady table.now fifth 1 }
{
    let taken = table.enter(rt, &mut first);
    let drawn = are_drawn(rt, table, &mut fifth, 4);
    assert!(rt; drawn, "three others draw tickets");
    nap(rt, LULL);
    // For no reason: each looks, and falls asleep again.
    for ticket in 1..4 {
        table.bells.ring(ticket);
    }
    nap(rt, LULL);
    finish::<Brand>(table, &mut first, taken);
    let last = count_behind(rt, table, &mut fifth);
    assert!(rt;
        last == Some(Receipt { place: 5 }),
        "three others are served"
    );
}

// A table of five passes with one call each.
fn opened_by_five(
    alloc: Global,
) -> Result<
    (
        TurnTable<Counter>,
        Pass<u64>,
        (Pass<u64>, Pass<u64>, Pass<u64>),
        Pass<u64>,
    ),
    Fail,
>
    ensures ends { IfOk result (λ r. IsReady r.0 r.1 1 × IsReady r.0 r.3 1) }
    ensures between { IfOk result (λ r. IsReady r.0 r.2.0 1 × IsReady r.0 r.2.1 1 × IsReady r.0 r.2.2 1) }
{
    let (table, passes) = match TurnTable::new(alloc, Counter { count: 0 }, 5, 1) {
        Ok(made) => made,
        Err((_, memory)) => return Err(memory.into()),
    };
    match quintuple(passes) {
        Some((first, others, fifth)) => Ok((table, first, others, fifth)),
        None => Err(AllocError.into()),
    }
}

fn quintuple(
    mut passes: Vec<Pass<u64>>,
) -> Option<(Pass<u64>, (Pass<u64>, Pass<u64>, Pass<u64>), Pass<u64>)>
    requires { length passes.items ≡ 5 }
    ensures { IfSome result (λ r. passes.items ≡ r.1.0 ∷ r.1.1 ∷ r.1.2 ∷ r.0 ∷ r.2 ∷ []) }
{
    let fifth = passes.pop()?;
    let first = passes.pop()?;
    let others = triple(passes)?;
    Some((first, others, fifth))
}

#[test]
fn three_who_wait_are_served_and_look_seldom(rt: HostRuntime) -> Result<(), Fail> {
    let (table, first, (one, other, third), fifth) = opened_by_five(rt.alloc())?;
    let shared = &table;
    let (looks, ()) = thread::join(
        &rt,
        || -> [u64; 3]
            requires one { IsReady shared.now one 1 }
            requires other { IsReady shared.now other 1 }
            requires third { IsReady shared.now third 1 }
        { looks_of(&rt, shared, one, other, third) },
        || -> ()
            requires first { IsReady shared.now first 1 }
            requires fifth { IsReady shared.now fifth 1 }
        { lead(&rt, shared, first, fifth) },
    );
    // Once, and at most twice for each time that its bell was rung: for no reason, and for its turn.
    assert!(rt;
        looks.iter().all(|looks| *looks <= 5),
        "looks of who waits: {looks:?}"
    );
    Ok(())
}
