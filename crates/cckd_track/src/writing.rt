ghost use Rattle.std.specs.Prelude.{◌≡◌, ◌+◌, ◌≤◌, ◌∷◌, [], ◌++◌, length};
ghost use Rattle.std.specs.List.{flat_map};
ghost use Rattle.std.specs.Int.{w16, to_be_bytes};
ghost use Rattle.cckd_base.specs.Put.{IsPut};
ghost use Rattle.cckd_base.specs.Track.{address_bytes, end_mark, spelling, null_record_zero, null_record_one, null_records};
ghost use Rattle.cckd_track.specs.Builder.{record_at_address};

use byteorder::{BigEndian, ByteOrder};
use cckd_base::{Addr, put_bytes};

/// What ends a track.
pub(crate) const END_MARK: [u8; 8] = [0xff; 8];

/// The greatest length of a null track in bytes.
pub(crate) const NULL_MAX: usize = 37;

/// Cylinder and head.
pub(crate) fn address_of(a: Addr) -> [u8; 4]
    ensures { result ≡ address_bytes a.cyl a.head }
{
    let mut bytes = [0; 4];
    BigEndian::write_u16(&mut bytes, a.cyl);
    BigEndian::write_u16(&mut bytes[2..], a.head);
    bytes
}

/// The home address of a track: a flag byte 0, cylinder and head.
pub(crate) fn home_bytes(a: Addr) -> [u8; 5]
    ensures { result ≡ 0 ∷ address_bytes a.cyl a.head }
{
    let [c, d, h, i] = address_of(a);
    [0, c, d, h, i]
}

/// The count of a record at an address.
fn count_bytes(a: Addr, number: u8, key_len: u8, body_len: u16) -> [u8; 8]
    ensures { result ≡ address_bytes a.cyl a.head ++ number ∷ key_len ∷ [] ++ to_be_bytes w16 body_len }
{
    let mut bytes = [0; 8];
    BigEndian::write_u16(&mut bytes, a.cyl);
    BigEndian::write_u16(&mut bytes[2..], a.head);
    bytes[4] = number;
    bytes[5] = key_len;
    BigEndian::write_u16(&mut bytes[6..], body_len);
    bytes
}

/// Puts a record zero of eight zero bytes.
pub(crate) fn put_record_zero(out: &mut [u8], at: usize, a: Addr) -> usize
    requires { at + 16 ≤ length out.old }
    ensures { IsPut at result (spelling (null_record_zero a)) out.old out.new }
{
    let at = put_bytes(out, at, &count_bytes(a, 0, 0, 8));
    put_bytes(out, at, &[0; 8])
}

/// Puts a record one without key and data.
fn put_record_one(out: &mut [u8], at: usize, a: Addr) -> usize
    requires { at + 8 ≤ length out.old }
    ensures { IsPut at result (spelling (null_record_one a)) out.old out.new }
{
    put_bytes(out, at, &count_bytes(a, 1, 0, 0))
}

/// Puts a record: its count, its key and its data.
pub(crate) fn put_record(
    out: &mut [u8],
    at: usize,
    a: Addr,
    number: u8,
    key: &[u8],
    body: &[u8],
) -> usize
    requires key { length key.now ≤ 255 }
    requires body { length body.now ≤ 65535 }
    requires room { at + 8 + length key.now + length body.now ≤ length out.old }
    ensures { IsPut at result (spelling (record_at_address a number key.now body.now)) out.old out.new }
{
    let count = count_bytes(a, number, key.len() as u8, body.len() as u16);
    let key_at = put_bytes(out, at, &count);
    let body_at = put_bytes(out, key_at, key);
    put_bytes(out, body_at, body)
}

/// Puts the records of a null track.
fn put_records(out: &mut [u8], at: usize, a: Addr, fmt: u8) -> usize
    requires { at + 24 ≤ length out.old }
    ensures put { IsPut at result (flat_map spelling (null_records a fmt)) out.old out.new }
    ensures short { result ≤ at + 24 }
{
    match fmt {
        0 => {
            let at = put_record_zero(out, at, a);
            put_record_one(out, at, a)
        }
        1 => put_record_zero(out, at, a),
        _ => at,
    }
}

/// Puts a null track to the front of a buffer, and answers its length.
pub(crate) fn put_null(out: &mut [u8], a: Addr, fmt: u8) -> usize
    requires { NULL_MAX ≤ length out.old }
    ensures put { IsPut 0 result (0 ∷ address_bytes a.cyl a.head
        ++ flat_map spelling (null_records a fmt) ++ end_mark) out.old out.new }
    ensures short { result ≤ NULL_MAX }
{
    let at = put_bytes(out, 0, &home_bytes(a));
    let at = put_records(out, at, a, fmt);
    put_bytes(out, at, &END_MARK)
}
