use crate::fault::TrackFault;
use crate::misfit::Misfit;

/// What a check of one image finds amiss.
#[derive(Clone, Copy, Debug, PartialEq, Eq)]
pub enum Damage {
    /// A table or an entry that an image can't have.
    Misfit(Misfit),
    /// At `at`, in bytes from the file's start, the chain of free spaces names none that may stand there.
    BadFree { at: u32 },
    /// The stored bytes of the track are no track.
    Track { track: u32, fault: TrackFault },
}
