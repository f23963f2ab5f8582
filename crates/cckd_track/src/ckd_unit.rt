ghost use Rattle.std.specs.Prelude.{◌<◌, ◌≤◌, ◌↔◌, length, IsOk, IfErr};
ghost use Rattle.cckd_base.specs.Geometry.{track_count, IsGeometry};
ghost use Rattle.cckd_base.specs.Track.{track_fault, home_fault, track_value, null_track, OkUnless, IsTrack};
ghost use Rattle.cckd_track.specs.Stop.{StopsBehindRecords};
ghost use Rattle.cckd_base.proofs.TrackLemmas.{null_passes_lem, null_fits_lem, null_value_lem, accepted_length_lem, value_passes_lem, value_length_lem, value_once_lem, home_in_front_lem, home_first_lem, home_is_fault_lem};

use crate::checking::{check_address, check_records, check_size};
use crate::writing::{NULL_MAX, put_null};
use cckd_base::{Geometry, Track, TrackFault, Unit};

/// The unit of a CKD image: a track is a home address, records and an end mark.
#[derive(Clone, Copy, Debug)]
pub struct Ckd;

impl Unit for Ckd {
    ghost fault = { track_fault };

    ghost home_fault = { home_fault };

    ghost value = { track_value };

    ghost null_bytes = { null_track };

    /// Whether the bytes are those of track `t`, within the track size. The flag byte's upper bits are free.
    fn check(geo: &Geometry, t: Track, bytes: &[u8]) -> Result<(), TrackFault>
        requires geometry { IsGeometry geo.now }
        requires track { t.0 < track_count geo.now }
        requires length { length bytes.now ≤ 65535 }
        ensures fault { OkUnless result (track_fault geo.now t.0 bytes.now) }

        // Bytes of the grammar alone are accepted, and a fault behind the home address stands behind whole records.
        ensures accepted { IsOk result ↔ IsTrack geo.now t.0 bytes.now }
        ensures stop { IfErr result (StopsBehindRecords geo.now t.0 bytes.now) }
    {
        check_size(geo, bytes)?;
        check_address(geo, t, bytes)?;
        check_records(bytes)
    }

    /// Whether the bytes begin with the home address of track `t`, in a flag byte that names no compression.
    fn check_home(geo: &Geometry, t: Track, bytes: &[u8]) -> Result<(), TrackFault> {
        check_address(geo, t, bytes)
    }

    /// Clears the flag byte, in which bits that name no compression may stand.
    fn settle(bytes: &mut [u8]) {
        bytes[0] = 0;
    }

    /// Record one stands behind record zero in format 0 alone.
    fn null(geo: &Geometry, t: Track, fmt: u8, out: &mut [u8]) -> u16 {
        put_null(out, geo.addr(t), fmt) as u16
    }

    /// The bytes are compared with at most 37 others.
    fn is_null(geo: &Geometry, t: Track, fmt: u8, bytes: &[u8]) -> bool {
        let mut track = [0; NULL_MAX];
        let len = put_null(track.as_mut_slice(), geo.addr(t), fmt);
        bytes == &track[..len]
    }

    ghost null_passes = { null_passes_lem };

    ghost null_fits = { null_fits_lem };

    ghost null_value = { null_value_lem };

    ghost accepted_length = { accepted_length_lem };

    ghost value_passes = { value_passes_lem };

    ghost value_length = { value_length_lem };

    ghost value_once = { value_once_lem };

    ghost home_in_front = { home_in_front_lem };

    ghost home_first = { home_first_lem };

    ghost home_is_fault = { home_is_fault_lem };
}
