//! A counter of calls, and one call.
ghost use Rattle.std.specs.Prelude.{◌≡◌, ℕ, ◌+◌, ◌<◌, ◌≤◌, length};
ghost use Rattle.cckd_turn.specs.Passes.{IsResting, IsTakenBy, IsReady, IsBack, HasRoom, number_of, left_of, seen_in};

use cckd_turn::{Adds, Pass, Stands, Taken, TurnTable};
use std::marker::{Brand, PhantomData};
use std::sync::Wait;

/// How many calls were made. An entry is the number of the pass that made the call.
#[derive(Drop)]
pub struct Counter {
    pub count: u64,
}

impl Stands for Counter {
    type Entry = u64;

    ghost stands = { λ c log. c.count ≡ length log };

    ghost by = { λ entry. entry };
}

// Which pass makes a call.
trait Caller {
    ghost number: { ℕ };
}

impl Caller for Brand {
    ghost number = { 0 };
}

struct Counted<C> {
    caller: PhantomData<C>,
}

impl<C: Caller> Adds<u64> for Counted<C> {
    ghost entry = { C.number };
}

// Counts the call, and gives the counter back.
fn finish<C: Caller>(table: &TurnTable<Counter>, pass: &mut Pass<u64>, mut taken: Taken<Counter>)
    requires caller { C.number ≡ number_of pass.old }
    requires own { IsTakenBy table.now pass.old taken }
    requires stands { taken.value.count ≡ length (seen_in taken) }
    requires room { HasRoom table.now (seen_in taken) }
    ensures back { IsBack table.now pass.old pass.new }
    ensures left { left_of pass.new ≡ left_of pass.old }
{
    taken.value.count += 1;
    table.leave::<Counted<C>>(pass, taken);
}

fn count<R: Wait>(rt: &R, table: &TurnTable<Counter>, pass: &mut Pass<u64>)
    requires { IsReady table.now pass.old 1 }
    ensures back { IsBack table.now pass.old pass.new }
    ensures left { left_of pass.new + 1 ≡ left_of pass.old }
{
    let taken = table.enter(rt, pass);
    finish::<Brand>(table, pass, taken);
}

/// Makes as many calls.
pub fn count_calls<R: Wait>(rt: &R, table: &TurnTable<Counter>, pass: &mut Pass<u64>, calls: u64)
    requires { IsReady table.now pass.old calls }
    ensures { IsBack table.now pass.old pass.new }
{
    for _ in 0..calls {
        count(rt, table, pass);
    }
}
