ghost use Rattle.std.specs.Prelude.{◌≡◌, ◌<◌, ◌≤◌, ◌↔◌, ◌++◌, ℕ, List, length, take, drop, Option, Some, None, IsTrue};
ghost use Rattle.cckd_base.specs.declared.geometry.Geometry.{Geometry};
ghost use Rattle.cckd_base.specs.declared.fault.TrackFault.{TrackFault};
ghost use Rattle.cckd_base.specs.Geometry.{track_count, IsGeometry, IsNullFormat};
ghost use Rattle.cckd_base.specs.Track.{OkUnless};

use crate::fault::TrackFault;
use crate::geometry::{Geometry, Track};

/// What an image keeps in a track: which bytes it may hold, what they say, and which it holds while nothing
/// was written.
pub trait Unit {
    /// The first fault of the bytes as those of this track, if there is one.
    ghost fault: { Geometry → ℕ → List ℕ → Option TrackFault };

    /// The first fault of the track's own address, which stands in the first five bytes.
    ghost home_fault: { Geometry → ℕ → List ℕ → Option TrackFault };

    /// What bytes that may be stored say.
    ghost value: { List ℕ → List ℕ };

    /// The bytes of a null track of this format.
    ghost null_bytes: { Geometry → ℕ → ℕ → List ℕ };

    /// Whether the bytes may be stored as those of track `t`.
    fn check(geo: &Geometry, t: Track, bytes: &[u8]) -> Result<(), TrackFault>
        requires geometry { IsGeometry geo.now }
        requires track { t.0 < track_count geo.now }
        requires length { length bytes.now ≤ 65535 }
        ensures { OkUnless result (fault geo.now t.0 bytes.now) };

    /// Whether the bytes begin with the address of track `t`. All of them give the answer that the first
    /// five give.
    fn check_home(geo: &Geometry, t: Track, bytes: &[u8]) -> Result<(), TrackFault>
        requires geometry { IsGeometry geo.now }
        requires track { t.0 < track_count geo.now }
        requires length { length bytes.now ≤ 65535 }
        ensures { OkUnless result (home_fault geo.now t.0 bytes.now) };

    /// Makes bytes that may be stored what they say.
    fn settle(bytes: &mut [u8])
        requires { 0 < length bytes.old }
        ensures { bytes.new ≡ value bytes.old };

    /// Writes the bytes of a null track of format `fmt` to the front of `out`, and answers how many.
    fn null(geo: &Geometry, t: Track, fmt: u8, out: &mut [u8]) -> u16
        requires geometry { IsGeometry geo.now }
        requires track { t.0 < track_count geo.now }
        requires format { IsNullFormat geo.now fmt }
        requires room { 65536 ≤ length out.old }
        ensures written { out.new ≡ null_bytes geo.now t.0 fmt ++ drop result out.old }
        ensures length { result ≡ length (null_bytes geo.now t.0 fmt) };

    /// Whether the bytes are those of a null track of format `fmt`.
    fn is_null(geo: &Geometry, t: Track, fmt: u8, bytes: &[u8]) -> bool
        requires geometry { IsGeometry geo.now }
        requires track { t.0 < track_count geo.now }
        requires format { IsNullFormat geo.now fmt }
        ensures { IsTrue result ↔ (bytes.now ≡ null_bytes geo.now t.0 fmt) };

    /// A null track may be stored.
    ghost null_passes: { (geo : Geometry) (t format : ℕ) → IsGeometry geo → t < track_count geo
        → IsNullFormat geo format → fault geo t (null_bytes geo t format) ≡ None };

    /// A null track is no longer than the track size.
    ghost null_fits: { (geo : Geometry) (t format : ℕ) → IsGeometry geo → IsNullFormat geo format
        → length (null_bytes geo t format) ≤ geo.track_size };

    /// A null track says itself.
    ghost null_value: { (geo : Geometry) (t format : ℕ) → IsNullFormat geo format
        → value (null_bytes geo t format) ≡ null_bytes geo t format };

    /// What may be stored has at least one byte, and at most the track size.
    ghost accepted_length: { (geo : Geometry) (t : ℕ) (bytes : List ℕ) → fault geo t bytes ≡ None
        → (1 ≤ length bytes) × (length bytes ≤ geo.track_size) };

    /// What stored bytes say may be stored.
    ghost value_passes: { (geo : Geometry) (t : ℕ) (bytes : List ℕ) → fault geo t bytes ≡ None
        → fault geo t (value bytes) ≡ None };

    /// It has as many bytes.
    ghost value_length: { (geo : Geometry) (t : ℕ) (bytes : List ℕ) → fault geo t bytes ≡ None
        → length (value bytes) ≡ length bytes };

    /// It says itself.
    ghost value_once: { (bytes : List ℕ) → value (value bytes) ≡ value bytes };

    /// The first five bytes show each fault of the address.
    ghost home_in_front: { (geo : Geometry) (t : ℕ) (bytes : List ℕ)
        → home_fault geo t (take 5 bytes) ≡ home_fault geo t bytes };

    /// Bytes that may be stored have no such fault.
    ghost home_first: { (geo : Geometry) (t : ℕ) (bytes : List ℕ) → fault geo t bytes ≡ None
        → home_fault geo t bytes ≡ None };

    /// It is the first fault of bytes that aren't too long.
    ghost home_is_fault: { (geo : Geometry) (t : ℕ) (bytes : List ℕ) (found : TrackFault)
        → length bytes ≤ geo.track_size → home_fault geo t bytes ≡ Some found
        → fault geo t bytes ≡ Some found };
}
