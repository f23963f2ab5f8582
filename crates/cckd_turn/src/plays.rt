//! The rule of the table, and its steps.
ghost use Rattle.cckd_turn.specs.Views.{opening_view, after_dealing, dealt, joined, spent};
ghost use Rattle.cckd_turn.specs.Rule.{IsKept};
ghost use Rattle.cckd_turn.specs.Steps.{drawn, tried, looked, took, put_back, passed_on};

use crate::stands::{Adds, Stands};
use crate::view::{Terms, View};
use atomic_table::{Join, Play, Split, TableRule};
use std::marker::PhantomData;

/// The rule that the table keeps.
pub struct Turns;

impl<V: Stands> TableRule<Option<V>, View<V::Entry>, Terms> for Turns {
    ghost holds = { IsKept V.stands V.by };

    ghost first = { opening_view };
}

/// Draws a ticket.
pub struct Draw;

impl<V: Stands> Play<Option<V>, View<V::Entry>> for Draw {
    ghost then = { λ _. drawn };
}

/// Draws a ticket only where it is served at once.
pub struct Try;

impl<V: Stands> Play<Option<V>, View<V::Entry>> for Try {
    ghost then = { λ step. tried step.first };
}

/// Looks which ticket is served.
pub struct Look;

impl<V: Stands> Play<Option<V>, View<V::Entry>> for Look {
    ghost then = { λ _. looked V.by };
}

/// Takes the value out.
pub struct Take;

impl<V: Stands> Play<Option<V>, View<V::Entry>> for Take {
    ghost then = { λ _. took V.stands };
}

/// Puts the value back.
pub struct PutBack<N> {
    naming: PhantomData<N>,
}

impl<V: Stands, N: Adds<V::Entry>> Play<Option<V>, View<V::Entry>> for PutBack<N> {
    ghost then = { λ _. put_back N.entry };
}

/// Serves the next ticket.
pub struct PassOn;

impl<V: Stands> Play<Option<V>, View<V::Entry>> for PassOn {
    ghost then = { λ _. passed_on V.by };
}

/// Gives a number to a new seat, and takes a seat's numbers in.
pub struct Deal;

impl<E> Split<View<E>> for Deal {
    ghost left = { after_dealing };

    ghost right = { dealt };
}

impl<E> Join<View<E>> for Deal {
    ghost both = { joined };

    ghost spent = { spent };
}
