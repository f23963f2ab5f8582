//! The first fault of the headers of a file.

ghost use Rattle.std.specs.Prelude.{◌≡◌, if◌then◌else◌, Some, None};
ghost use Rattle.cckd_base.specs.declared.fault.HeaderFault.TheVariants.{BadGeometry};
ghost use Rattle.cckd_base.specs.Geometry.{IsGeometry};
ghost use Rattle.cckd_base.specs.Header.{is_outside};
ghost use Rattle.cckd_image.specs.Inside.{other_file_fault, geometry_fault, count_fault, format_fault, fault_of};
ghost use Rattle.cckd_image.specs.Image.{geometry, identifiers_of};

use crate::header::ImageHeader;
use crate::roles::Roles;
use cckd_base::{CountField, FORMAT_LIMIT, GROUP_TRACKS, GeoField, HeaderFault};

/// Whether a number lies outside of a range.
fn is_outside(low: u64, high: u64, n: u64) -> bool
    ensures { result ≡ is_outside low high n }
{
    n < low || high < n
}

/// The fault of a field of the geometry whose value lies outside of a range.
fn field_fault(field: GeoField, low: u64, high: u64, value: u64) -> Option<HeaderFault>
    ensures { result ≡ (if is_outside low high value then Some (BadGeometry field value) else None) }
{
    if is_outside(low, high, value) {
        return Some(HeaderFault::BadGeometry { field, value });
    }
    None
}

impl ImageHeader {
    /// The fault of a file that is too short, or begins with no identifier of these roles.
    fn other_file_fault(&self, len: u64, roles: Roles) -> Option<HeaderFault>
        ensures { result ≡ other_file_fault self.now (identifiers_of roles) len }
    {
        let id = self.dev.id.as_slice();
        let base = id == b"CKD_C370".as_slice();
        let shadow = id == b"CKD_S370".as_slice();
        let named = match roles {
            Roles::Base => base,
            Roles::Shadow => shadow,
            Roles::Either => base || shadow,
        };
        if len < 1024 || !named {
            return Some(HeaderFault::NotCckd { id: self.dev.id });
        }
        None
    }

    /// The first fault of the fields that say the geometry.
    fn geometry_fault(&self) -> Option<HeaderFault>
        ensures { result ≡ geometry_fault self.now }
    {
        let heads = u64::from(self.dev.heads);
        let cyls = u64::from(self.cckd.cyls);
        let size = u64::from(self.dev.track_size);
        let sequence = u64::from(self.dev.sequence);
        field_fault(GeoField::Heads, 1, 65_536, heads)
            .or(field_fault(GeoField::Cylinders, 1, 65_536, cyls))
            .or(field_fault(GeoField::Tracks, 0, 1_048_576, cyls * heads))
            .or(field_fault(GeoField::TrackSize, 37, 65_024, size))
            .or(field_fault(GeoField::Sequence, 0, 1, sequence))
    }

    /// The first fault of the counts, in a file of `len` bytes.
    fn count_fault(&self, len: u64) -> Option<HeaderFault>
        requires { IsGeometry (geometry self.now) }
        ensures { result ≡ count_fault self.now len }
    {
        let layout = self.layout();
        let words = self.cckd.words;
        if words != layout.groups {
            return Some(HeaderFault::BadCounts {
                field: CountField::LevelOne,
                value: u64::from(words),
            });
        }
        let entries = self.cckd.entries;
        if entries != GROUP_TRACKS {
            return Some(HeaderFault::BadCounts {
                field: CountField::LevelTwo,
                value: u64::from(entries),
            });
        }
        if is_outside(layout.area(), u64::from(FORMAT_LIMIT), len) {
            return Some(HeaderFault::BadCounts {
                field: CountField::Length,
                value: len,
            });
        }
        None
    }

    /// The fault of the format of null tracks.
    fn format_fault(&self) -> Option<HeaderFault>
        ensures { result ≡ format_fault self.now }
    {
        let null_fmt = self.cckd.null_fmt;
        if self.geometry().admits(null_fmt) {
            None
        } else {
            Some(HeaderFault::BadNullFormat { value: null_fmt })
        }
    }

    /// The first fault of these headers in a file of `len` bytes.
    pub(crate) fn fault(&self, len: u64, roles: Roles) -> Option<HeaderFault>
        ensures { result ≡ fault_of self.now (identifiers_of roles) len }
    {
        let early = self.other_file_fault(len, roles).or(self.geometry_fault());
        if early.is_some() {
            return early;
        }
        self.count_fault(len).or(self.format_fault())
    }
}
