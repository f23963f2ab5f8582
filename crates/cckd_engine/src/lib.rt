//! The engine: one call after the other on a stack of layers, each numbered, and a line for each.
#![tactic(auto)]

mod disk;
mod engine;
mod mounting;
mod stack_disk;
mod tally;

pub use disk::Disk;
pub use engine::{Engine, Served};
pub use tally::Tally;
