//! Why an image isn't made.

/// The refusal of a making, or what stopped it.
#[derive(Clone, Copy, Debug, PartialEq, Eq)]
pub enum InitFault {
    /// A file of `len` bytes is there.
    NotEmpty {
        /// Its length.
        len: u64,
    },
    /// A call that reads failed.
    ReadFault,
    /// A write or a cut failed.
    WriteFault,
    /// A sync failed.
    SyncFault,
    /// There was no memory.
    Memory,
}
