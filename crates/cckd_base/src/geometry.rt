ghost use Rattle.std.specs.Prelude.{◌≡◌, ◌<◌, ◌↔◌, IsTrue, IfSome};
ghost use Rattle.cckd_base.specs.Geometry.{track_count, group_count, area_of, track_at, address_of, is_null_format, IsGeometry, IsNullFormat};

use crate::order::Order;
use crate::{GROUP_TRACKS, WORDS_AT};

/// A track's number, counted from 0 through the heads of each cylinder in turn.
#[derive(Clone, Copy, Debug, PartialEq, Eq)]
pub struct Track(pub u32);

/// Where a track lies on the device.
#[derive(Clone, Copy, Debug, PartialEq, Eq)]
pub struct Addr {
    /// The cylinder, counted from 0.
    pub cyl: u16,
    /// The head within it, counted from 0.
    pub head: u16,
}

/// The shape of a device: 1 to 65,536 heads and as many cylinders, at most 1,048,576 tracks, and a track
/// size of 37 to 65,024 bytes.
#[derive(Clone, Copy, Debug, PartialEq, Eq)]
pub struct Geometry {
    /// The last two digits of the device's name, as hexadecimal digits.
    pub devtype: u8,
    /// Heads, which are the tracks of a cylinder.
    pub heads: u32,
    /// Cylinders of the device.
    pub cyls: u32,
    /// The greatest length of a track in bytes.
    pub track_size: u32,
}

impl Geometry {
    /// How many tracks the device has.
    pub fn tracks(&self) -> u32
        requires { IsGeometry self.now }
        ensures { result ≡ track_count self.now }
    {
        self.cyls * self.heads
    }

    /// How many groups of 256 tracks it has, the last of which may be short.
    pub fn groups(&self) -> u32
        requires { IsGeometry self.now }
        ensures { result ≡ group_count self.now }
    {
        self.tracks().div_ceil(GROUP_TRACKS)
    }

    /// The number of the track at an address, which `addr` undoes.
    pub fn track(&self, a: Addr) -> Option<Track>
        requires { IsGeometry self.now }
        ensures value { result ≡ track_at self.now a }
        ensures within { IfSome result (λ t. t.0 < track_count self.now) }
        ensures undone { IfSome result (λ t. address_of self.now t.0 ≡ a) }
    {
        if u32::from(a.cyl) < self.cyls && u32::from(a.head) < self.heads {
            Some(Track(u32::from(a.cyl) * self.heads + u32::from(a.head)))
        } else {
            None
        }
    }

    /// The address of a track, which `track` undoes.
    pub fn addr(&self, t: Track) -> Addr
        requires geometry { IsGeometry self.now }
        requires track { t.0 < track_count self.now }
        ensures value { result ≡ address_of self.now t.0 }
        ensures undone { track_at self.now result ≡ Some t }
    {
        Addr {
            cyl: (t.0 / self.heads) as u16,
            head: (t.0 % self.heads) as u16,
        }
    }

    /// Whether `fmt` is the format of a null track of such a device.
    pub fn admits(&self, fmt: u8) -> bool
        ensures value { result ≡ is_null_format self.now fmt }
        ensures means { IsTrue result ↔ IsNullFormat self.now fmt }
    {
        fmt < 2
    }
}

/// How an image lays its tracks out.
#[derive(Clone, Copy, Debug, PartialEq, Eq)]
pub struct Layout {
    /// The order of the bytes of words, entries and counts.
    pub order: Order,
    pub geo: Geometry,
    /// Groups of 256 tracks, the last of which may be short.
    pub groups: u32,
    /// Whether it is a shadow file, above another file.
    pub shadow: bool,
    /// The format of the null tracks of a group without a table.
    pub null_fmt: u8,
}

impl Layout {
    /// The bytes of the two headers and of the level-one table.
    pub fn area(&self) -> u64
        ensures { result ≡ area_of self.now.groups }
    {
        u64::from(WORDS_AT) + 4 * u64::from(self.groups)
    }
}
