//! Why an image isn't made.

/// What stopped the making of an image.
#[derive(Clone, Copy, Debug, PartialEq, Eq)]
pub enum MakeFault {
    /// A write or a cut failed.
    WriteFault,
    /// A sync failed.
    SyncFault,
    /// There was no memory; nothing was done to the slot then.
    Memory,
}
