//! Why the tables and the file of a slot didn't come together.

/// A call of the shelf failed.
#[derive(Clone, Copy, Debug, PartialEq, Eq)]
pub enum Device {
    /// One that reads.
    Read,
    /// One that writes.
    Write,
    /// A sync.
    Sync,
}
