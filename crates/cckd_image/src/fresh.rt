//! The headers of a new image.

ghost use Rattle.std.specs.Prelude.{◌≡◌, ℕ, length, None};
ghost use Rattle.cckd_base.specs.Geometry.{IsLayout};
ghost use Rattle.cckd_base.specs.Header.{header_fault, layout_of};
ghost use Rattle.cckd_image.specs.Image.{identifiers_of, layout_by, header_bytes, IsLength};
ghost use Rattle.cckd_image.specs.Fresh.{new_layout, new_header, new_dev_header, new_cckd_header, is_new_shadow};

use crate::header::{CckdHeader, DevHeader, ImageHeader};
use crate::roles::Roles;
use cckd_base::{GROUP_TRACKS, Layout};

/// Whether a new image in these roles is a shadow.
fn is_new_shadow(roles: Roles, wished: bool) -> bool
    ensures { result ≡ is_new_shadow roles wished }
{
    match roles {
        Roles::Base => false,
        Roles::Shadow => true,
        Roles::Either => wished,
    }
}

/// The device header of a new image.
fn new_dev(l: &Layout, shadow: bool) -> DevHeader
    requires { IsLayout l.now }
    ensures { result ≡ new_dev_header (record l.now { shadow = shadow }) }
{
    DevHeader {
        id: if shadow { *b"CKD_S370" } else { *b"CKD_C370" },
        heads: l.geo.heads,
        track_size: l.geo.track_size,
        devtype: l.geo.devtype,
        sequence: 0,
        highest: 0,
        reserved: [0; 492],
    }
}

/// The header of a compressed device of a new image.
fn new_cckd(l: &Layout) -> CckdHeader
    requires { IsLayout l.now }
    ensures { result ≡ new_cckd_header l.now }
{
    let area = l.area() as u32;
    CckdHeader {
        version: [0, 3, 1],
        options: 0,
        words: l.groups,
        entries: GROUP_TRACKS,
        size: area,
        used: area,
        free: 0,
        free_total: 0,
        free_largest: 0,
        free_number: 0,
        free_imbed: 0,
        cyls: l.geo.cyls,
        null_fmt: l.null_fmt,
        compress: 0,
        param: -1,
        reserved: [0; 464],
    }
}

/// Both headers of a new image.
fn new_headers(l: &Layout, roles: Roles) -> ImageHeader
    requires { IsLayout l.now }
    ensures { result ≡ new_header (new_layout roles l.now) }
{
    ImageHeader {
        dev: new_dev(l, is_new_shadow(roles, l.shadow)),
        cckd: new_cckd(l),
    }
}

impl ImageHeader {
    /// The headers of a new image with the layout's geometry and null format, in which nothing is stored. Its
    /// numbers have their low byte first, and it is a shadow or not as its role says; the layout says it
    /// where both are allowed.
    #[tactic(auto, using(crate::proofs::FreshLemmas::new_says, crate::proofs::FreshLemmas::bytes_say))]
    pub fn fresh(l: &Layout, roles: Roles) -> ImageHeader
        requires { IsLayout l.now }
        ensures value { result ≡ new_header (new_layout roles l.now) }
        ensures layout { layout_by result ≡ new_layout roles l.now }

        // What its bytes say, in a file that has room for the level-one table.
        ensures sound { (len : ℕ) → IsLength l.now.groups len → header_fault (identifiers_of roles) (header_bytes result) len ≡ None }
        ensures says { layout_of (header_bytes result) ≡ new_layout roles l.now }
        ensures length { length (header_bytes result) ≡ 1024 }
    {
        new_headers(l, roles)
    }
}
