//! What a new image is. The function does nothing: its contract is a law.
ghost use Rattle.cckd_base.specs.declared.geometry.Layout.{Layout as Shape};
ghost use Rattle.cckd_base.specs.Geometry.{IsLayout};
ghost use Rattle.cckd_make.specs.NewImage.{new_image, IsNew};

/// A new image is sound, and no track is stored in it: in a base each one is null, and a shadow has none.
pub fn new_images_are_new()
    ensures { (l : Shape) → IsLayout l → IsNew l (new_image l) }
{}
