//! What a layer has of a track.

/// Whether a layer has a track.
#[derive(Clone, Copy, Debug, PartialEq, Eq)]
pub enum Held {
    /// It has it: `len` bytes, which stand at the front of the buffer.
    Here { len: u16 },
    /// The track is looked up in the file below.
    Below,
}
