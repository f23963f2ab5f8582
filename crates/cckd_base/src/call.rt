use crate::geometry::Addr;

/// One call of a script. The bytes that a call gives stand beside it.
#[derive(Clone, Copy, Debug, PartialEq, Eq)]
pub enum Call {
    /// The value of the track at an address.
    Read { at: Addr },
    /// The bytes given are the track at an address from now on.
    Write { at: Addr },
    /// Key and data of the record `num` of the track at an address.
    GetRecord { at: Addr, num: u8 },
    /// The bytes given are the data of the record `num` of the track at an address from now on.
    PutRecord { at: Addr, num: u8 },
    /// What was written so far stays whatever stops the run.
    Harden,
    /// One step of the collector, which moves tracks and tables towards the file's start.
    Turn,
    /// A new shadow file on top of the stack.
    Add,
    /// The top shadow file's tracks are written into the file below, and the shadow file is taken off.
    Merge,
    /// The top shadow file is taken off with its tracks.
    Drop,
    /// The top file is laid out anew without free spaces.
    Compress,
    /// How many tracks each layer has.
    Display,
    /// The stored tracks of all layers are checked at a level from 0 to 3.
    Check { level: u8 },
    /// The end of a run.
    Close,
}
