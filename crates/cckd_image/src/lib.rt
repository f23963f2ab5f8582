//! The two headers of an image: what they say, their first fault, and the bytes that spell them.
#![tactic(auto)]

mod encode;
mod fault;
mod fresh;
mod header;
mod layout;
mod read;
mod roles;
#[cfg(test)]
mod tests;

pub use header::{CckdHeader, DevHeader, ImageHeader};
pub use read::decode;
pub use roles::Roles;
