ghost use Rattle.std.specs.Prelude.{◌≡◌, ◌≤◌, length};
ghost use Rattle.std.specs.Int.{w16, w32};

use byteorder::{BigEndian, ByteOrder, LittleEndian};

/// The order of the bytes of an image's own numbers.
#[derive(Clone, Copy, Debug, PartialEq, Eq)]
pub enum Order {
    /// The low byte first.
    Little,
    /// The high byte first.
    Big,
}

impl Order {
    ghost use Rattle.cckd_base.specs.Numbers.{number_of, bytes_of, number_at};

    /// The number that the first four bytes spell: a level-one word, or a link of the chain of free spaces.
    #[tactic(auto, using(crate::proofs::NumberLemmas::big_four, crate::proofs::NumberLemmas::little_four))]
    pub fn read_u32(self, bytes: &[u8]) -> u32
        requires { 4 ≤ length bytes.now }
        ensures { result ≡ number_at self w32 bytes.now 0 }
    {
        match self {
            Order::Little => LittleEndian::read_u32(bytes),
            Order::Big => BigEndian::read_u32(bytes),
        }
    }

    /// The number that four bytes spell, from which `u32_bytes` gives the bytes back.
    pub fn u32_of(self, bytes: [u8; 4]) -> u32
        ensures value { result ≡ number_of self w32 bytes }
        ensures undone { bytes_of self w32 result ≡ bytes }
    {
        match self {
            Order::Little => u32::from_le_bytes(bytes),
            Order::Big => u32::from_be_bytes(bytes),
        }
    }

    /// The number that two bytes spell, from which `u16_bytes` gives the bytes back.
    pub fn u16_of(self, bytes: [u8; 2]) -> u16
        ensures value { result ≡ number_of self w16 bytes }
        ensures undone { bytes_of self w16 result ≡ bytes }
    {
        match self {
            Order::Little => u16::from_le_bytes(bytes),
            Order::Big => u16::from_be_bytes(bytes),
        }
    }

    /// The four bytes that spell a number.
    pub fn u32_bytes(self, number: u32) -> [u8; 4]
        ensures value { result ≡ bytes_of self w32 number }
        ensures undone { number_of self w32 result ≡ number }
    {
        match self {
            Order::Little => number.to_le_bytes(),
            Order::Big => number.to_be_bytes(),
        }
    }

    /// The two bytes that spell a number.
    pub fn u16_bytes(self, number: u16) -> [u8; 2]
        ensures value { result ≡ bytes_of self w16 number }
        ensures undone { number_of self w16 result ≡ number }
    {
        match self {
            Order::Little => number.to_le_bytes(),
            Order::Big => number.to_be_bytes(),
        }
    }
}
