//! The buffers of a run.

use cckd_script::{LINE_LIMIT, LINE_ROOM};

/// Room for a line of the script, and for what is taken behind it.
const SCRIPT_ROOM: usize = LINE_LIMIT + 65_536;

/// Room for the bytes of a track.
const TRACK_ROOM: usize = 65_536;

/// Buffers for what is taken of a script, for the bytes that a call gives and those that it is answered, and for a line that
/// is put.
#[derive(Drop)]
pub struct Rooms {
    pub script: [u8; SCRIPT_ROOM],
    pub given: [u8; TRACK_ROOM],
    pub answer: [u8; TRACK_ROOM],
    pub line: [u8; LINE_ROOM],
}

impl Rooms {
    /// Buffers of zeros.
    pub fn new() -> Rooms {
        Rooms {
            script: [0; SCRIPT_ROOM],
            given: [0; TRACK_ROOM],
            answer: [0; TRACK_ROOM],
            line: [0; LINE_ROOM],
        }
    }
}
