//! The fields of the two headers, in their order.

ghost use Rattle.std.specs.Prelude.{◌≡◌};
ghost use Rattle.cckd_image.specs.Image.{order_by};

use cckd_base::Order;

/// The device header: the first 512 bytes. Its numbers have their low byte first in every image.
#[derive(Clone, Copy, Debug, PartialEq, Eq)]
pub struct DevHeader {
    /// The identifier in ASCII.
    pub id: [u8; 8],
    /// The number of heads, which are the tracks of a cylinder.
    pub heads: u32,
    /// The greatest length of a track in bytes.
    pub track_size: u32,
    /// The last two digits of the device's name, as hexadecimal digits.
    pub devtype: u8,
    /// The number of the file in a set of files, 0 or 1.
    pub sequence: u8,
    /// The highest cylinder, which nothing here reads.
    pub highest: u16,
    /// Bytes that nothing here reads.
    pub reserved: [u8; 492],
}

/// The header of a compressed device: the second 512 bytes. Its numbers are in the image's order, but for
/// the cylinders, which have their low byte first in every image.
#[derive(Clone, Copy, Debug, PartialEq, Eq)]
pub struct CckdHeader {
    /// The version in three parts, which nothing here reads.
    pub version: [u8; 3],
    /// Bit 2 names the order, and bit 128 an image that was not closed.
    pub options: u8,
    /// The number of level-one words.
    pub words: u32,
    /// The number of entries of a level-two table.
    pub entries: u32,
    /// The length of the file in bytes, when it was closed.
    pub size: u32,
    /// Bytes of the file in use.
    pub used: u32,
    /// The position of the first free space in bytes from the file's start, or 0.
    pub free: u32,
    /// Free bytes of the file.
    pub free_total: u32,
    /// Bytes of the largest free space.
    pub free_largest: u32,
    /// The number of free spaces.
    pub free_number: u32,
    /// Bytes of used spaces behind the stored bytes in them.
    pub free_imbed: u32,
    /// The number of cylinders.
    pub cyls: u32,
    /// The format of the null tracks of a group without a table.
    pub null_fmt: u8,
    /// The compression of new tracks, by its number.
    pub compress: u8,
    /// The parameter of the compression.
    pub param: i16,
    /// Bytes that nothing here reads.
    pub reserved: [u8; 464],
}

/// The two headers of an image.
#[derive(Clone, Copy, Debug, PartialEq, Eq)]
pub struct ImageHeader {
    /// Bytes 0 to 511 of the file.
    pub dev: DevHeader,
    /// Bytes 512 to 1,023 of the file.
    pub cckd: CckdHeader,
}

/// The order that the option byte names.
pub fn order_in(options: u8) -> Order
    ensures { result ≡ order_by options }
{
    if options / 2 % 2 == 1 {
        Order::Big
    } else {
        Order::Little
    }
}
