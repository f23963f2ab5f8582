//! What the headers of a file say, before it is mounted.
ghost use Rattle.std.specs.Prelude.{◌≡◌, IfOk, IfErr};
ghost use Rattle.cckd_shelf.specs.Seen.{seen};
ghost use Rattle.cckd_base.specs.Geometry.{IsGeometry};
ghost use Rattle.cckd_layer.specs.Mounted.{SaysGeometry, IsLookCause, OnlyLooks};
ghost use Rattle.cckd_layer.specs.Reads.{OfFile};

use crate::mounting::find;
use cckd_base::{Geometry, Layout, OpenFault};
use cckd_image::Roles;
use cckd_shelf::{Slot, Stage};

/// The geometry of a device whose image is laid out so.
fn shape_of(l: &Layout) -> Geometry
    ensures { result ≡ l.now.geo }
{
    l.geo
}

/// The geometry that the headers of a slot's file say, or their first fault as those of these roles. Nothing is synced.
pub fn geometry_in<T: Stage>(stage: &mut T, slot: Slot, roles: Roles) -> Result<Geometry, OpenFault>
    ensures can { IfOk result IsGeometry }
    ensures says { OfFile slot (λ file. IfOk result (λ geo. SaysGeometry roles geo file)) (seen T.Shows stage.old) }
    ensures cause { IfErr result (IsLookCause roles slot (seen T.Shows stage.old)) }
    ensures looks { OnlyLooks result (seen T.Shows stage.old) (seen T.Shows stage.new) }
{
    match find(stage, slot, roles) {
        Ok(found) => Ok(shape_of(&found.layout)),
        Err(fault) => Err(fault),
    }
}
