ghost use Rattle.std.specs.Prelude.{◌≡◌, ◌↔◌, IsTrue, if◌then◌else◌, Some, None};

use crate::geometry::Geometry;
use crate::order::Order;

/// An entry of a level-two table. Position 0 is a null track, whose length field is its format.
#[derive(Clone, Copy, Debug, PartialEq, Eq)]
pub struct L2Entry {
    /// Bytes from the file's start.
    pub pos: u32,
    /// The length of the stored bytes.
    pub len: u16,
    /// The length of the space that they stand in.
    pub size: u16,
}

/// The position of an entry whose track is looked up in the file below, and the level-one word of a group
/// of such tracks.
pub const SEE_PARENT: u32 = 0xffff_ffff;

impl L2Entry {
    ghost use Rattle.cckd_base.specs.Entry.{entry_of, entry_bytes};
    ghost use Rattle.cckd_base.specs.Geometry.{is_null_format};

    /// The entry that eight bytes spell.
    pub fn decode(order: Order, bytes: [u8; 8]) -> L2Entry
        ensures value { result ≡ entry_of order bytes }
        ensures undone { entry_bytes order result ≡ bytes }
    {
        let [a, b, c, d, e, f, g, h] = bytes;
        L2Entry {
            pos: order.u32_of([a, b, c, d]),
            len: order.u16_of([e, f]),
            size: order.u16_of([g, h]),
        }
    }

    /// The eight bytes that spell the entry.
    pub fn encode(self, order: Order) -> [u8; 8]
        ensures value { result ≡ entry_bytes order self }
        ensures undone { entry_of order result ≡ self }
    {
        let [a, b, c, d] = order.u32_bytes(self.pos);
        let [e, f] = order.u16_bytes(self.len);
        let [g, h] = order.u16_bytes(self.size);
        [a, b, c, d, e, f, g, h]
    }

    /// Whether the track is null.
    pub fn is_null(self) -> bool
        ensures { IsTrue result ↔ (self.pos ≡ 0) }
    {
        self.pos == 0
    }

    /// The format that the length field of a null entry names, where null tracks of the device have it.
    pub fn null_format(self, geo: &Geometry) -> Option<u8>
        ensures { result ≡ (if is_null_format geo.now self.len then Some self.len else None) }
    {
        match u8::try_from(self.len) {
            Ok(format) if geo.admits(format) => Some(format),
            _ => None,
        }
    }

    /// Whether the track is looked up in the file below.
    pub fn is_parent(self) -> bool
        ensures { IsTrue result ↔ (self.pos ≡ 4294967295) }
    {
        self.pos == SEE_PARENT
    }
}
