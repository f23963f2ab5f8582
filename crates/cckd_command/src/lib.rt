//! What commands have in common: words, and how a run ends.
#![tactic(auto)]

mod ending;
mod words;

pub use ending::end_with;
pub use words::names_file;
