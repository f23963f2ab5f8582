//! How an image lays its tracks out.

ghost use Rattle.std.specs.Prelude.{◌≡◌};
ghost use Rattle.cckd_base.specs.Geometry.{IsGeometry};
ghost use Rattle.cckd_base.specs.Header.{shadow_identifier};
ghost use Rattle.cckd_image.specs.Image.{geometry, layout_by};

use crate::header::{ImageHeader, order_in};
use cckd_base::{Geometry, Layout};

impl ImageHeader {
    /// The geometry that the headers say.
    pub(crate) fn geometry(&self) -> Geometry
        ensures { result ≡ geometry self.now }
    {
        Geometry {
            devtype: self.dev.devtype,
            heads: self.dev.heads,
            cyls: self.cckd.cyls,
            track_size: self.dev.track_size,
        }
    }

    /// The layout that the headers say.
    pub fn layout(&self) -> Layout
        requires { IsGeometry (geometry self.now) }
        ensures { result ≡ layout_by self.now }
    {
        let geo = self.geometry();
        Layout {
            order: order_in(self.cckd.options),
            geo,
            groups: geo.groups(),
            shadow: self.dev.id.as_slice() == b"CKD_S370".as_slice(),
            null_fmt: self.cckd.null_fmt,
        }
    }
}
