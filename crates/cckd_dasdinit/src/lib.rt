//! The command `dasdinit`: a new base, from the words to what is printed.
#![tactic(auto)]

mod run;
mod serial;
mod text;
mod words;

pub use run::run_init;
pub use serial::serial_named;
pub use words::{NewBase, named_base};
