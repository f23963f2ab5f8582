//! The smallest update that a stop can't break: a record beside the old one, and then the entry that points
//! to it.
#![tactic(auto)]

mod storing;
#[cfg(test)]
mod tests;
mod updating;

pub use storing::{make_stay, store};
pub use updating::{Version, update, update_all};
