use crate::entry::L2Entry;
use crate::geometry::Track;

/// A track whose bytes stand in the file, with the entry that is to name them.
#[derive(Clone, Copy, Debug, PartialEq, Eq)]
pub struct Stowed {
    pub track: Track,
    pub entry: L2Entry,
}
