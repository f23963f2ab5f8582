//! The track that `fill` gives.

ghost use Rattle.std.specs.Prelude.{◌≡◌, ◌+◌, ◌≤◌, ◌∷◌, [], ◌++◌, length, replicate};
ghost use Rattle.std.specs.Int.{w16, to_be_bytes};
ghost use Rattle.cckd_base.specs.Put.{IsPut};
ghost use Rattle.cckd_base.specs.Track.{address_bytes, spelling, null_record_zero};
ghost use Rattle.cckd_script.specs.Filled.{filled_record, filled_track};

use cckd_base::{Addr, put_bytes};

/// What ends a track.
const END_MARK: [u8; 8] = [0xff; 8];

/// So many bytes hold a filled track but the data of its record one.
const FILLED_ROOM: usize = 37;

/// Puts an address, two bytes of cylinder and two of head.
fn put_address(out: &mut [u8], from: usize, at: Addr) -> usize
    requires { from + 4 ≤ length out.old }
    ensures { IsPut from result (address_bytes at.cyl at.head) out.old out.new }
{
    let end = put_bytes(out, from, &at.cyl.to_be_bytes());
    put_bytes(out, end, &at.head.to_be_bytes())
}

/// Puts the count of a record without key.
fn put_count(out: &mut [u8], from: usize, at: Addr, number: u8, body_len: u16) -> usize
    requires { from + 8 ≤ length out.old }
    ensures { IsPut from result
        (address_bytes at.cyl at.head ++ number ∷ 0 ∷ [] ++ to_be_bytes w16 body_len) out.old out.new }
{
    let end = put_address(out, from, at);
    let end = put_bytes(out, end, &[number, 0]);
    put_bytes(out, end, &body_len.to_be_bytes())
}

/// Puts so many equal bytes.
fn put_equal(out: &mut [u8], from: usize, count: u16, byte: u8) -> usize
    requires { from + count ≤ length out.old }
    ensures { IsPut from result (replicate count byte) out.old out.new }
{
    let end = from + count as usize;
    out[from..end].fill(byte);
    end
}

/// Puts a record zero of eight zero bytes.
fn put_record_zero(out: &mut [u8], from: usize, at: Addr) -> usize
    requires { from + 16 ≤ length out.old }
    ensures { IsPut from result (spelling (null_record_zero at)) out.old out.new }
{
    let end = put_count(out, from, at, 0, 8);
    put_bytes(out, end, &[0; 8])
}

/// Puts a record one without key, whose data are so many equal bytes.
fn put_record_one(out: &mut [u8], from: usize, at: Addr, count: u16, byte: u8) -> usize
    requires { from + 8 + count ≤ length out.old }
    ensures { IsPut from result (spelling (filled_record at count byte)) out.old out.new }
{
    let end = put_count(out, from, at, 1, count);
    put_equal(out, end, count, byte)
}

/// Puts the track of a `fill` to the front of a buffer, and answers its length.
pub(crate) fn put_filled(out: &mut [u8], at: Addr, count: u16, byte: u8) -> usize
    requires { FILLED_ROOM + count ≤ length out.old }
    ensures put { IsPut 0 result (filled_track at count byte) out.old out.new }
    ensures len { result ≡ FILLED_ROOM + count }
{
    let end = put_bytes(out, 0, &[0]);
    let end = put_address(out, end, at);
    let end = put_record_zero(out, end, at);
    let end = put_record_one(out, end, at, count, byte);
    put_bytes(out, end, &END_MARK)
}
