//! The outside of a run: files in nine slots, a script to take and an output to put.
#![tactic(auto)]

mod fault;
mod shelf;
mod shows;
mod sink;
mod slot;
mod stage;
#[cfg(test)]
mod tests;

pub use fault::{Failed, Faults, Kind};
pub use shelf::Shelf;
pub use shows::Shows;
pub use sink::put_all;
pub use slot::Slot;
pub use stage::Stage;
