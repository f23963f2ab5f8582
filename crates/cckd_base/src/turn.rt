/// What one step of the collector did. Positions are bytes from the file's start.
#[derive(Clone, Copy, Debug, PartialEq, Eq)]
pub enum Turn {
    /// The stored bytes of a track were copied to `to`; the move ends at a later step.
    Copied { track: u32, to: u32 },
    /// The entry of a track that was copied names `to` now.
    Moved { track: u32, from: u32, to: u32 },
    /// The table of a group stands at `to` now.
    MovedTable { group: u32, from: u32, to: u32 },
    /// A track that was copied was written since: it was picked at `picked` and stands at `now`, which is 0
    /// for a null track.
    GivenUp { track: u32, picked: u32, now: u32 },
    /// The file was cut to `size` bytes.
    Trimmed { size: u32 },
    /// There was nothing to do.
    Idle,
}
