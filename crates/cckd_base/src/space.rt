/// Whom a space of an image belongs to.
#[derive(Clone, Copy, Debug, PartialEq, Eq)]
pub enum Owner {
    /// The bytes are free, or not kept.
    Nobody,
    /// The two headers and the level-one table.
    Header,
    /// The level-two table of this group.
    Table(u32),
    /// The stored bytes of this track.
    Track(u32),
}

/// A space of an image: `size` bytes from `pos`, of which the first `len` are in use.
#[derive(Clone, Copy, Debug, PartialEq, Eq)]
pub struct Extent {
    /// Bytes from the file's start.
    pub pos: u32,
    /// Bytes in use, from the first on.
    pub len: u32,
    /// Bytes of the space.
    pub size: u32,
    pub owner: Owner,
}

/// Why `need` bytes have no place: no free piece offers more than `largest` bytes, and the end of the file
/// offers `room`.
#[derive(Clone, Copy, Debug, PartialEq, Eq)]
pub struct Full {
    pub need: u32,
    pub largest: u32,
    pub room: u32,
}
