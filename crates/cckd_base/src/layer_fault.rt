use crate::fault::TrackFault;
use crate::space::Full;

/// Why a layer, the file of one slot with its tracks, did not do what it was asked to do.
#[derive(Clone, Copy, Debug, PartialEq, Eq)]
pub enum LayerFault {
    /// The stored bytes, or those given, are no track.
    Track(TrackFault),
    /// What was to be written has no place.
    Full(Full),
    /// A call that reads failed.
    ReadFault,
    /// A call that writes or cuts failed.
    WriteFault,
    /// A call that syncs failed.
    SyncFault,
}

/// Why a stack of layers did not do what it was asked to do.
#[derive(Clone, Copy, Debug, PartialEq, Eq)]
pub enum StackFault {
    /// One of its layers did not.
    Layer(LayerFault),
    /// There are `have` shadow files, and no further one may be.
    TooMany { have: u8 },
    /// There is no shadow file to take off.
    OnlyBase,
    /// Memory was wanted.
    Memory,
}
