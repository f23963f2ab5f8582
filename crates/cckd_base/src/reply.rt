use crate::fault::TrackFault;
use crate::space::Full;
use crate::turn::Turn;

/// The answer to one call of a script. Lengths are in bytes.
#[derive(Clone, Copy, Debug, PartialEq, Eq)]
pub enum Reply {
    /// The track's value: so many bytes, which stand in the caller's buffer.
    Track { len: u32 },
    /// The track was written with so many bytes.
    Written { len: u32 },
    /// The record's key and behind it its data, which stand in the caller's buffer.
    Record { key_len: u32, body_len: u32 },
    /// The record's data, so many bytes, were replaced.
    Replaced { len: u32 },
    /// What was written stays.
    Hardened,
    /// What the collector's step did.
    Turned(Turn),
    /// The slot of the new shadow file.
    Added { slot: u8 },
    /// The slot whose shadow file was merged and taken off.
    Merged { slot: u8 },
    /// The slot whose shadow file was taken off.
    Dropped { slot: u8 },
    /// The top file was laid out anew.
    Compressed,
    /// The number of layers, and of the tracks that each has from slot 0 on; 0 for layers that aren't there.
    Shown { layers: u8, counts: [u32; 9] },
    /// At this level so many stored tracks are at fault.
    Checked { level: u8, bad: u32 },
    /// The end of a run.
    Closed,
    /// The call has no other answer than why.
    Refused(Refusal),
}

/// Why a call was refused.
#[derive(Clone, Copy, Debug, PartialEq, Eq)]
pub enum Refusal {
    /// The device has no track at the address.
    NoSuchTrack,
    /// The stored bytes, or those given, are no track.
    Track(TrackFault),
    /// The track has no record of this number.
    NoRecord { num: u8 },
    /// The record has `has` bytes of data, another number than was given.
    LengthDiffers { has: u32 },
    /// What was to be written has no place.
    Full(Full),
    /// There are `have` shadow files, and no further one may be.
    TooMany { have: u8 },
    /// There is no shadow file to take off.
    OnlyBase,
    /// A call that reads failed.
    ReadFault,
    /// A call that writes or cuts failed.
    WriteFault,
    /// A call that syncs failed.
    SyncFault,
    /// An earlier call, counted from 1, left the stack unfit for any other.
    Broken { at: u64 },
    /// Memory was wanted.
    Memory,
}
