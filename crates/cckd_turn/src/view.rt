//! What a pass knows. These types are plain data for the proofs, and no value of `View` is made.
use std::collections::LinkedList;

/// Where a pass is in a call.
pub enum PassState {
    Idle,
    /// It has a ticket.
    Waiting,
    /// It has the value.
    Holding,
    /// The value is home again, and the next ticket isn't served yet.
    Returning,
}

/// How many passes a table has, and how many calls each may make.
#[derive(Clone, Copy)]
pub struct Terms {
    pub callers: u64,
    pub each: u64,
}

/// What one pass knows.
pub struct View<E> {
    pub state: PassState,
    pub callers: u64,
    pub each: u64,
    /// How many calls the pass may still make.
    pub left: u64,
    pub ticket: u64,
    /// The beginning of the history that the pass has seen.
    pub seen: LinkedList<E>,
    /// What passes had seen that were taken in.
    pub heard: LinkedList<LinkedList<E>>,
    /// The entry that is made but isn't in the history yet.
    pub made: LinkedList<E>,
    /// Numbers of callers, each with its entries in the history: first the pass's own, then those that it may deal or
    /// has taken in.
    pub names: LinkedList<(u64, LinkedList<E>)>,
    /// The ticket that was served at the last look, and the next ticket that the last lost try found.
    pub serving: u64,
    pub found: u64,
    pub looks: u64,
    pub tries: u64,
}
