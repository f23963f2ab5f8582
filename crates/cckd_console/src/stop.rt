/// How the serving of a script stops.
#[derive(Clone, Copy, Debug, PartialEq, Eq)]
pub enum Stop {
    /// All was served and said, and the disk was closed, with this status.
    Closed(u8),
    /// The script couldn't be taken.
    Unscripted,
    /// The output failed in a line.
    Cut,
}
