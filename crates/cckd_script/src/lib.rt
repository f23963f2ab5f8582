//! The lines of a script and of its replies: how one is read, and what is printed for each reply.
#![tactic(auto)]

mod fill;
mod misread;
mod parse;
mod phrase;
mod print;
#[cfg(test)]
mod tests;
mod text;
mod tokens;

pub use misread::Misreading;
pub use parse::{Line, LineFault, What, parse_line};
pub use phrase::{NUMBER_ROOM, Part, put_number, put_phrase};
pub use print::{LINE_ROOM, print_misreading, print_reply};

/// The most bytes of a script's line, without its line feed.
pub const LINE_LIMIT: usize = 131_072;
