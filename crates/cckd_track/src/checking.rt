ghost use Rattle.std.specs.Prelude.{◌≡◌, ◌+◌, ◌<◌, ◌≤◌, length, drop, OnOk};
ghost use Rattle.cckd_base.specs.Geometry.{track_count, IsGeometry};
ghost use Rattle.cckd_base.specs.Track.{OkUnless, may_stand, end_verdict, record_at, size_fault, home_fault, records_fault};

use crate::writing::{END_MARK, address_of};
use byteorder::{BigEndian, ByteOrder};
use cckd_base::{Geometry, Track, TrackFault};

/// The length of a count, and of the end mark.
const COUNT_LEN: usize = 8;

/// Where record zero stands, behind the home address.
const RECORD_ZERO: usize = 5;

/// Whether the bytes fit the track size.
pub(crate) fn check_size(geo: &Geometry, bytes: &[u8]) -> Result<(), TrackFault>
    requires { length bytes.now ≤ 65535 }
    ensures { OkUnless result (size_fault geo.now bytes.now) }
{
    let len = bytes.len() as u32;
    let max = geo.track_size;
    if max < len {
        return Err(TrackFault::TooLong { len, max });
    }
    Ok(())
}

/// Whether the bytes begin with the home address of the track.
pub(crate) fn check_address(geo: &Geometry, t: Track, bytes: &[u8]) -> Result<(), TrackFault>
    requires geometry { IsGeometry geo.now }
    requires track { t.0 < track_count geo.now }
    requires length { length bytes.now ≤ 65535 }
    ensures fault { OkUnless result (home_fault geo.now t.0 bytes.now) }
    ensures long { OnOk result (5 ≤ length bytes.now) }
{
    if bytes.len() < RECORD_ZERO {
        return Err(TrackFault::NoEnd {
            at: bytes.len() as u32,
        });
    }
    let flag = bytes[0];
    let here = bytes[1..5] == address_of(geo.addr(t))[..];
    let plain = flag % 4 == 0;
    if !plain {
        return Err(TrackFault::Compressed { byte: flag });
    }
    if !here {
        return Err(TrackFault::WrongTrack {
            cyl: BigEndian::read_u16(&bytes[1..]),
            head: BigEndian::read_u16(&bytes[3..]),
        });
    }
    Ok(())
}

/// Goes from record to record, up to the end mark.
pub(crate) fn check_records(bytes: &[u8]) -> Result<(), TrackFault>
    requires home { 5 ≤ length bytes.now }
    requires length { length bytes.now ≤ 65535 }
    ensures { OkUnless result (records_fault 5 0 (drop 5 bytes.now)) }
{
    let mut at = RECORD_ZERO;
    loop {
        match measure(at, &bytes[at..]) {
            Ok(len) => at += len,
            Err(None) => return Ok(()),
            Err(Some(fault)) => return Err(fault),
        }
    }
}

/// The length of the record that stands at a place, or, where none may stand, what ends the track.
fn measure(at: usize, rest: &[u8]) -> Result<usize, Option<TrackFault>>
    requires { at + length rest.now ≤ 65535 }
    ensures { result ≡ record_at at rest.now }
{
    if rest.len() < COUNT_LEN {
        return Err(Some(TrackFault::NoEnd { at: at as u32 }));
    }
    if rest[..COUNT_LEN] == END_MARK[..] {
        return Err(judge_end(at, rest));
    }
    let len = COUNT_LEN + usize::from(rest[5]) + usize::from(BigEndian::read_u16(&rest[6..]));
    if is_record(at, rest) && len <= rest.len() {
        Ok(len)
    } else {
        Err(Some(bad_record(at)))
    }
}

/// How the end mark at a place is judged.
fn judge_end(at: usize, rest: &[u8]) -> Option<TrackFault>
    requires { at + 8 ≤ 65535 }
    ensures { result ≡ end_verdict at rest.now }
{
    if at == RECORD_ZERO {
        Some(bad_record(at))
    } else if rest.len() == COUNT_LEN {
        None
    } else {
        Some(bad_record(at + COUNT_LEN))
    }
}

/// The fault of a place where no record may stand.
fn bad_record(at: usize) -> TrackFault
    requires { at ≤ 65535 }
    ensures { result ≡ TrackFault.BadRecord at }
{
    TrackFault::BadRecord { at: at as u32 }
}

/// Whether a count may stand at a place: that of record zero at the first, and any other behind it.
fn is_record(at: usize, count: &[u8]) -> bool
    requires { 8 ≤ length count.now }
    ensures { result ≡ may_stand at count.now }
{
    let number = count[4];
    if at == RECORD_ZERO {
        number == 0 && count[5] == 0 && BigEndian::read_u16(&count[6..]) == 8
    } else {
        number != 0
    }
}
