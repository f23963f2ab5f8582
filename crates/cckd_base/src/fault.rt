/// Why bytes are no track. Places are counted from the track's first byte.
#[derive(Clone, Copy, Debug, PartialEq, Eq)]
pub enum TrackFault {
    /// There are `len` bytes, more than the track size `max`.
    TooLong { len: u32, max: u32 },
    /// At `at` too few bytes are left for a home address, a count or the end mark.
    NoEnd { at: u32 },
    /// The first byte names a compression in its low two bits.
    Compressed { byte: u8 },
    /// The home address is that of another track.
    WrongTrack { cyl: u16, head: u16 },
    /// At `at` stands no record that may stand there, or bytes follow the end mark.
    BadRecord { at: u32 },
}

/// A field of the device header that says the geometry.
#[derive(Clone, Copy, Debug, PartialEq, Eq)]
pub enum GeoField {
    /// Heads, which are the tracks of a cylinder.
    Heads,
    /// Cylinders of the device.
    Cylinders,
    /// The product of heads and cylinders.
    Tracks,
    /// The greatest length of a track in bytes.
    TrackSize,
    /// The file's number within a set of files.
    Sequence,
}

/// A count that has to agree with the geometry or with the file.
#[derive(Clone, Copy, Debug, PartialEq, Eq)]
pub enum CountField {
    /// The words of the level-one table, one a group.
    LevelOne,
    /// The entries of a level-two table.
    LevelTwo,
    /// The file's length in bytes.
    Length,
}

/// Why a file's first 1,024 bytes are no header of an image.
#[derive(Clone, Copy, Debug, PartialEq, Eq)]
pub enum HeaderFault {
    /// The first eight bytes, with zeros past a short file's end.
    NotCckd { id: [u8; 8] },
    /// No device has this value of the field.
    BadGeometry { field: GeoField, value: u64 },
    /// The value isn't the one that the geometry or the file wants.
    BadCounts { field: CountField, value: u64 },
    /// Null tracks of the device don't have this format.
    BadNullFormat { value: u8 },
}
