//! What a caller holds: its pass, and the value while it has the turn.
ghost use Rattle.std.specs.Prelude.{◌≡◌, ◌+◌, ◌<◌, [], ◌∷◌};

use crate::stands::Stands;
use crate::view::View;
use atomic_table::{Badge, Seat};
use std::mem::replace;

/// The right to make calls on one table. It has no lock and no loan of the table, and may cross threads.
pub struct Pass<E> {
    badge: Badge<View<E>>,
    number: u64,
    left: u64,
    front: u64,
}

impl<E> Drop for Pass<E> {
    fn drop(self) {
        let Pass {
            badge: _,
            number: _,
            left: _,
            front: _,
        } = self;
    }
}

/// The value, while a pass has the turn. It has no `Drop`, so that it ends in `leave`.
pub struct Taken<V: Stands> {
    pub value: V,
    /// How often the call looked which ticket is served.
    pub looks: u64,
    pub(crate) seat: Seat<Option<V>, View<V::Entry>>,
}

/// The place of a call in the history, counted from 1.
#[derive(Clone, Copy, Debug, PartialEq, Eq)]
pub struct Receipt {
    pub place: u64,
}

/// Another pass is served or waits: the ticket that was served, and the next ticket, which was another.
#[derive(Clone, Copy, Debug, PartialEq, Eq)]
pub struct Busy {
    pub serving: u64,
    pub ticket: u64,
}

impl<E> Pass<E> {
    ghost use Rattle.cckd_turn.specs.Passes.{left_of, view_of};

    // A pass that has seen nothing.
    pub(crate) fn new<S>(number: u64, left: u64, seat: Seat<S, View<E>>) -> Pass<E>
        requires { seat.me.1 ≡ [] }
        ensures seat { (result.badge.views ≡ seat.me.0 ∷ [])
            × (result.badge.table_id ≡ seat.table_id) }
        ensures fields { (result.number ≡ number) × (result.left ≡ left) × (result.front ≡ 0) }
    {
        Pass {
            badge: seat.into_badge(),
            number,
            left,
            front: 0,
        }
    }

    /// How many calls the pass may still make.
    pub fn left(&self) -> u64
        ensures { result ≡ left_of self.now }
    {
        self.left
    }

    pub(crate) fn front(&self) -> u64
        ensures { result ≡ self.now.front }
    {
        self.front
    }

    // The pass's seat, without which it is until `sit`.
    pub(crate) fn rise<S>(&mut self) -> Seat<S, View<E>>
        requires { self.old.badge.views ≡ view_of self.old ∷ [] }
        ensures seat { (result.table_id ≡ self.old.badge.table_id)
            × (result.me ≡ (view_of self.old, [])) }
        ensures out { self.new.badge.views ≡ [] }
        ensures fields { (self.new.number ≡ self.old.number) × (self.new.left ≡ self.old.left)
            × (self.new.front ≡ self.old.front) }
    {
        replace(&mut self.badge, Badge::blank()).into_seat()
    }

    pub(crate) fn sit<S>(&mut self, seat: Seat<S, View<E>>, front: u64)
        requires { seat.me.1 ≡ [] }
        ensures seat { (self.new.badge.views ≡ seat.me.0 ∷ [])
            × (self.new.badge.table_id ≡ seat.table_id) }
        ensures fields { (self.new.number ≡ self.old.number) × (self.new.left ≡ self.old.left)
            × (self.new.front ≡ front) }
    {
        self.badge = seat.into_badge();
        self.front = front;
    }

    pub(crate) fn count_call(&mut self)
        requires { 0 < self.old.left }
        ensures count { self.new.left + 1 ≡ self.old.left }
        ensures fields { (self.new.badge ≡ self.old.badge) × (self.new.number ≡ self.old.number)
            × (self.new.front ≡ self.old.front) }
    {
        self.left -= 1;
    }
}
