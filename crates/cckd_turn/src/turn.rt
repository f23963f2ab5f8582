//! A call: taking the value, and giving it back.
ghost use Rattle.std.specs.Prelude.{◌≡◌, ◌≢◌, ◌+◌, ◌*◌, ◌<◌, ◌++◌, [], ◌∷◌, length, None, IfOk, IfErr, OnErr};
ghost use Rattle.cckd_turn.specs.declared.view.PassState.TheVariants.{Waiting, Holding, Returning};
ghost use Rattle.cckd_turn.specs.Views.{holding, returning, served};
ghost use Rattle.cckd_turn.specs.Steps.{HasWaited};

use crate::pass::{Busy, Pass, Receipt, Taken};
use crate::plays::{Draw, Look, PassOn, PutBack, Take, Try};
use crate::stands::{Adds, Stands};
use crate::table::TurnTable;
use crate::view::View;
use atomic_table::Seat;
use std::sync::Wait;

const TICKET: usize = 0;

const SERVING: usize = 1;

impl<V: Stands> TurnTable<V> {
    ghost use Rattle.cckd_turn.specs.Passes.{IsResting, IsTakenBy, Enters, Stays, Leaves, HasRoom, IsBusy, callers_of, calls_each_of, table_id_of, number_of, left_of, seen_by, looks_of, tries_of, seen_in, looks_in, tries_in};

    /// Draws a ticket, and waits until it is served.
    pub fn enter<R: Wait>(&self, rt: &R, pass: &mut Pass<V::Entry>) -> Taken<V>
        requires own { IsResting self.now pass.old }
        requires calls { 0 < left_of pass.old }
        ensures taken { IsTakenBy self.now pass.new result }
        ensures enters { Enters V.by pass.old pass.new result }
        ensures stands { V.stands result.value (seen_in result) }
        ensures room { HasRoom self.now (seen_in result) }
        ensures looks { looks_of pass.old < looks_in result }
        ensures counted { looks_in result ≡ looks_of pass.old + result.looks }
        ensures tries { tries_in result ≡ tries_of pass.old }
    {
        let mut seat = pass.rise();
        pass.count_call();
        let ticket = self.table.shared.fetch_add::<Draw>(&mut seat, TICKET, 1);
        let looks = self.wait(rt, &mut seat, ticket);
        self.take(seat, looks)
    }

    /// Draws a ticket only where it is served at once. It tries once, and waits for nobody.
    pub fn try_enter(&self, pass: &mut Pass<V::Entry>) -> Result<Taken<V>, Busy>
        requires own { IsResting self.now pass.old }
        requires calls { 0 < left_of pass.old }
        ensures taken { IfOk result (λ x. IsTakenBy self.now pass.new x) }
        ensures enters { IfOk result (λ x. Enters V.by pass.old pass.new x) }
        ensures stands { IfOk result (λ x. V.stands x.value (seen_in x)) }
        ensures room { IfOk result (λ x. HasRoom self.now (seen_in x)) }
        ensures counts { IfOk result (λ x. (looks_in x ≡ looks_of pass.old + 1)
            × (tries_in x ≡ tries_of pass.old)) }
        ensures counted { IfOk result (λ x. x.looks ≡ 1) }

        // Busy has the two numbers that this call read, of which the ticket was another than the one served.
        ensures busy { IfErr result (λ b. IsBusy pass.new b.serving b.ticket) }
        ensures tried { OnErr result ((looks_of pass.new ≡ looks_of pass.old + 1)
            × (tries_of pass.new ≡ tries_of pass.old + 1)) }
        ensures back { OnErr result (IsResting self.now pass.new) }
        ensures stays { OnErr result (Stays V.by pass.old pass.new) }
    {
        let mut seat = pass.rise();
        let shared = &self.table.shared;
        let serving = shared.load::<Look>(&mut seat, SERVING);
        let ticket = shared.compare_exchange::<Try>(&mut seat, TICKET, serving, serving + 1);
        if ticket != serving {
            pass.sit(seat, serving);
            return Err(Busy { serving, ticket });
        }
        pass.count_call();
        Ok(self.take(seat, 1))
    }

    /// Gives the value back, as the one that the entry `N` leads to, and serves the next ticket.
    pub fn leave<N: Adds<V::Entry>>(&self, pass: &mut Pass<V::Entry>, taken: Taken<V>) -> Receipt
        requires own { IsTakenBy self.now pass.old taken }
        requires named { V.by N.entry ≡ number_of pass.old }
        requires stands { V.stands taken.value (seen_in taken ++ N.entry ∷ []) }
        ensures back { IsResting self.now pass.new }
        ensures leaves { Leaves V.by N.entry pass.old taken pass.new }
        ensures place { result.place ≡ length (seen_by pass.new) }
    {
        let Taken {
            value,
            looks: _,
            mut seat,
        } = taken;
        let shared = &self.table.shared;
        let empty = shared.exchange(&mut seat, 0, Some(value));
        let None = empty else { unreachable!() };
        shared.load::<PutBack<N>>(&mut seat, SERVING);
        let before = shared.fetch_add::<PassOn>(&mut seat, SERVING, 1);
        let place = before + 1;
        // Whoever draws the next ticket from here on sees that it is served, and doesn't sleep.
        if shared.peek(TICKET) != place {
            self.bells.ring(place);
        }
        pass.sit(seat, place);
        Receipt { place }
    }

    /// How long a beginning of the history the pass has seen.
    pub fn front(&self, pass: &Pass<V::Entry>) -> u64
        requires { IsResting self.now pass.now }
        ensures { result ≡ length (seen_by pass.now) }
    {
        pass.front()
    }

    // Looks until the ticket is served, and says how often it looked.
    fn wait<R: Wait>(&self, rt: &R, seat: &mut Seat<Option<V>, View<V::Entry>>, ticket: u64) -> u64
        requires table { seat.old.table_id ≡ table_id_of self.now }
        requires ticket { ticket ≡ seat.old.me.0.ticket }
        ensures table { seat.new.table_id ≡ seat.old.table_id }
        ensures waited { HasWaited V.by seat.old.me seat.new.me }
        ensures looks { seat.new.me.0.looks ≡ seat.old.me.0.looks + result }
    {
        let shared = &self.table.shared;
        for looks in 1..u64::MAX {
            let rung = self.bells.rung(ticket);
            let serving = shared.load::<Look>(seat, SERVING);
            if serving == ticket {
                return looks;
            }
            self.bells.sleep(rt, ticket, rung);
        }
        // Nobody comes here: no run has time for so many looks.
        for _ in rt.forever() {}
        unreachable!()
    }

    // Takes the value for a seat whose ticket is served.
    fn take(&self, mut seat: Seat<Option<V>, View<V::Entry>>, looks: u64) -> Taken<V>
        requires table { seat.table_id ≡ table_id_of self.now }
        requires served { (seat.me.1 ≡ []) × (seat.me.0.state ≡ Waiting)
            × (seat.me.0.ticket ≡ length seat.me.0.seen) }
        requires terms { (seat.me.0.callers ≡ callers_of self.now)
            × (seat.me.0.each ≡ calls_each_of self.now) }
        ensures seat { (result.seat.table_id ≡ seat.table_id)
            × (result.seat.me ≡ (holding seat.me.0, (0, None) ∷ [])) }
        ensures looks { result.looks ≡ looks }
        ensures stands { V.stands result.value seat.me.0.seen }
        ensures room { HasRoom self.now seat.me.0.seen }
    {
        let shared = &self.table.shared;
        shared.load::<Take>(&mut seat, SERVING);
        let Some(value) = shared.exchange(&mut seat, 0, None) else {
            unreachable!()
        };
        Taken { value, looks, seat }
    }
}
