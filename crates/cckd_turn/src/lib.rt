//! A value that callers use one after another, by tickets, with a history of who used it.
#![tactic(auto)]

mod bells;
mod crossing;
mod pass;
mod plays;
mod stands;
mod table;
#[cfg(test)]
mod tests;
mod turn;
mod view;
#[cfg(test)]
mod wait_tests;

pub use crossing::cross_threads;
pub use pass::{Busy, Pass, Receipt, Taken};
pub use stands::{Adds, Stands};
pub use table::{Memory, TurnTable};
