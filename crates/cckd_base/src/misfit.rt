use crate::entry::L2Entry;
use crate::space::{Extent, Owner};

/// A table or an entry that an image can't have. Positions are bytes from the file's start.
#[derive(Clone, Copy, Debug, PartialEq, Eq)]
pub enum Misfit {
    /// The level-one word names a table that isn't wholly behind the header area and inside the file.
    BadTable { group: u32, pos: u32 },
    /// The entry is neither null nor see-parent, nor that of stored bytes inside the file.
    BadEntry { track: u32, entry: L2Entry },
    /// The space of `second` shares a byte with that of `first`.
    Overlap { first: Extent, second: Extent },
    /// A base has no file below it.
    ParentInBase { owner: Owner },
}

/// Why the survey of an image gives no spaces.
#[derive(Clone, Copy, Debug, PartialEq, Eq)]
pub enum ScanFault {
    /// The first misfit in the order of the survey.
    Misfit(Misfit),
    /// A call that reads failed.
    ReadFault,
    /// Memory was wanted.
    Memory,
}
