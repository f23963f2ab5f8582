//! A script, line by line, as it is taken from a stage.
#![tactic(auto)]

mod lines;

pub use lines::{Next, Place, next_line};
