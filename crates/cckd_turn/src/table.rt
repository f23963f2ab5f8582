//! The table: how it is made with its passes, and how it ends.
ghost use Rattle.std.specs.Prelude.{◌≡◌, ◌*◌, ◌^◌, ◌<◌, ◌≤◌, [], IfOk, IfErr, vec_capacity};
ghost use Rattle.cckd_turn.specs.Views.{opening_view};

use crate::bells::Bells;
use crate::pass::Pass;
use crate::plays::{Deal, Turns};
use crate::stands::Stands;
use crate::view::{Terms, View};
use atomic_table::{Refused, Seat, Table};
use std::alloc::{AllocError, Global};

/// There was no memory.
pub type Memory = AllocError;

/// A value that its passes use in turn.
#[derive(Drop)]
pub struct TurnTable<V: Stands> {
    pub(crate) table: Table<Option<V>, View<V::Entry>, Terms, Turns, Global>,
    pub(crate) bells: Bells,
    ghost words: { table.shared.table_id.words ≡ 2 },
    ghost slots: { table.shared.table_id.slots ≡ 1 },
    ghost callers: { 0 < table.shared.key.callers },
}

// A table that has dealt no pass yet, with the seat that deals them. At `Err` the value comes back.
fn lay<V: Stands>(
    alloc: Global,
    value: V,
    bells: Bells,
    terms: &Terms,
) -> Result<(TurnTable<V>, Seat<Option<V>, View<V::Entry>>), V>
    requires callers { 0 < terms.now.callers }
    requires calls { terms.now.callers * terms.now.each < 2 ^ 63 }
    requires empty { V.stands value [] }
    ensures table { IfOk result (λ made. made.0.table.shared.key ≡ terms.now) }
    ensures seat { IfOk result (λ made. (made.1.table_id ≡ made.0.table.shared.table_id)
        × (made.1.me ≡ (opening_view terms.now, []))) }
    ensures back { IfErr result (λ refused. refused ≡ value) }
{
    let Ok(mut slots) = Vec::with_capacity(alloc, 1) else {
        return Err(value);
    };
    slots.push_reserved(Some(value));
    match Table::new(alloc, &[0, 0], slots, terms) {
        Ok((table, seat)) => Ok((TurnTable { table, bells }, seat)),
        Err(Refused { mut slots }) => {
            let Some(Some(value)) = slots.pop() else {
                unreachable!()
            };
            slots.destroy_empty();
            Err(value)
        }
    }
}

impl<V: Stands> TurnTable<V> {
    ghost use Rattle.cckd_turn.specs.Passes.{AreDealt, table_id_of};

    /// A table over the value, with all its passes. Each may make `calls_each` calls. At `Err` the value comes back.
    pub fn new(
        alloc: Global,
        value: V,
        callers: u32,
        calls_each: u64,
    ) -> Result<(TurnTable<V>, Vec<Pass<V::Entry>>), (V, Memory)>
        requires callers { (0 < callers) × (callers ≤ 64) }
        requires calls { callers * calls_each < 2 ^ 63 }
        requires empty { V.stands value [] }
        ensures dealt { IfOk result (λ made. AreDealt made.0 callers calls_each made.1.items) }
        ensures back { IfErr result (λ refused. refused.0 ≡ value) }
    {
        let terms = Terms {
            callers: u64::from(callers),
            each: calls_each,
        };
        let Ok(passes) = Vec::with_capacity(alloc, callers as usize) else {
            return Err((value, AllocError));
        };
        let Ok(bells) = Bells::new(alloc, callers) else {
            return Err((value, AllocError));
        };
        match lay(alloc, value, bells, &terms) {
            Ok((table, seat)) => {
                let passes = table.deal(seat, passes, terms);
                Ok((table, passes))
            }
            Err(value) => Err((value, AllocError)),
        }
    }

    // The seat deals all numbers but the last, which is its own.
    fn deal(
        &self,
        mut seat: Seat<Option<V>, View<V::Entry>>,
        mut passes: Vec<Pass<V::Entry>>,
        terms: Terms,
    ) -> Vec<Pass<V::Entry>>
        requires terms { terms ≡ self.now.table.shared.key }
        requires seat { (seat.table_id ≡ table_id_of self.now)
            × (seat.me ≡ (opening_view terms, [])) }
        requires room { (passes.items ≡ []) × (terms.callers ≤ vec_capacity passes) }
        ensures { AreDealt self.now terms.callers terms.each result.items }
    {
        let last = terms.callers - 1;
        for number in 0..last {
            let other = self.table.shared.split_seat::<Deal>(&mut seat);
            passes.push_reserved(Pass::new(number, terms.each, other));
        }
        passes.push_reserved(Pass::new(last, terms.each, seat));
        passes
    }
}

impl<V: Stands> TurnTable<V> {
    ghost use Rattle.cckd_turn.specs.Passes.{AreAll, Closes, table_id_of};
    ghost use Rattle.cckd_turn.specs.Gathered.{HasAll};

    /// Ends the table once all its passes are back, and gives the value.
    pub fn close(self, passes: Vec<Pass<V::Entry>>) -> V
        requires { AreAll self passes.items }
        ensures { Closes V.stands V.by passes.items result }
    {
        let seat = self.gather(passes);
        let TurnTable { table, bells: _ } = self;
        let mut closed = table.close_with(seat);
        let Some(value) = closed.take(0) else {
            unreachable!()
        };
        closed.free();
        value
    }

    // The seat of one pass, which has taken in all others.
    fn gather(&self, mut passes: Vec<Pass<V::Entry>>) -> Seat<Option<V>, View<V::Entry>>
        requires { AreAll self.now passes.items }
        ensures table { result.table_id ≡ table_id_of self.now }
        ensures all { HasAll passes.items result.me.0 }
    {
        let Some(mut first) = passes.pop() else {
            unreachable!()
        };
        let mut seat = first.rise();
        while let Some(mut pass) = passes.pop() {
            self.table.shared.join_seat::<Deal>(&mut seat, pass.rise());
        }
        seat
    }
}
