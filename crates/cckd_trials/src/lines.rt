//! Lines of a script.

use crate::model::push_digits;
use crate::tracks::Address;
use std::alloc::{AllocError, Global};

/// A line of a script, or its end.
#[derive(Drop)]
pub enum Line {
    Read(Address),
    Write(Address, Vec<u8>),
    Fill(Address, u16, u8),
    Harden,
    Display,
    Check(u8),
    /// A line that is wrong from a column on.
    Misread { text: &'static str, column: usize },
    /// A comment, or nothing.
    Silent(&'static str),
    /// The end, which stands for the call that closes.
    Close,
}

/// Adds a line to a script.
fn push_line(script: &mut String, line: &Line) -> Result<(), AllocError> {
    match line {
        Line::Read(Address { cylinder, head }) => write!(script, "read {cylinder} {head}")?,
        Line::Write(Address { cylinder, head }, bytes) => {
            write!(script, "write {cylinder} {head} ")?;
            push_digits(script, bytes)?;
        }
        Line::Fill(Address { cylinder, head }, len, byte) => {
            write!(script, "fill {cylinder} {head} {len} {byte:02X}")?
        }
        Line::Harden => script.push_str("harden")?,
        Line::Display => script.push_str("sfd")?,
        Line::Check(1) => script.push_str("sfk")?,
        Line::Check(level) => write!(script, "sfk {level}")?,
        Line::Misread { text, .. } => script.push_str(text)?,
        Line::Silent(text) => script.push_str(text)?,
        Line::Close => return Ok(()),
    }
    script.push_str("\n")
}

/// The text of a script.
pub fn script_of(alloc: Global, lines: &[Line]) -> Result<String, AllocError> {
    let mut script = String::new(alloc);
    for line in lines {
        push_line(&mut script, line)?;
    }
    Ok(script)
}
