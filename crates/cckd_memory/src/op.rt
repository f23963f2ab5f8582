//! What was done to the outside.

use crate::Bytes;

/// One operation on a slot's file, or on the output.
#[derive(Debug, Drop)]
pub enum Op {
    Write { slot: u8, pos: u64, bytes: Bytes },
    /// A write that failed, of which any part may have been made.
    Torn { slot: u8, pos: u64, bytes: Bytes },
    /// The file was cut to `len` bytes.
    Cut { slot: u8, len: u64 },
    /// A cut that failed, and may have been made.
    HalfCut { slot: u8, len: u64 },
    Sync { slot: u8 },
    Put { bytes: Bytes },
}
