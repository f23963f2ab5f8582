//! A bounded list by recency whose entries lie in frames of one block of memory.
#![tactic(auto)]

mod block;
mod bytes;
mod frames;
mod node;
mod nodes;
mod rings;
mod sending;
#[cfg(test)]
mod tests;

pub use frames::{Frame, Frames, Memory};
pub use sending::frames_are_send;
