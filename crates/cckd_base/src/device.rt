ghost use Rattle.std.specs.Prelude.{◌≡◌};
ghost use Rattle.cckd_base.specs.Device.{geometry_named};

use crate::geometry::Geometry;

/// The geometry of the device with this name, as `3390-1`.
pub fn geometry_of(name: &[u8]) -> Option<Geometry>
    ensures { result ≡ geometry_named name.now }
{
    let (devtype, cyls, heads, track_size) = if name == b"2311".as_slice() {
        (0x11, 200, 10, 4096)
    } else if name == b"2314".as_slice() {
        (0x14, 200, 20, 7680)
    } else if name == b"3330".as_slice() {
        (0x30, 404, 19, 13312)
    } else if name == b"3350".as_slice() {
        (0x50, 555, 30, 19456)
    } else if name == b"3380".as_slice() {
        (0x80, 885, 15, 47616)
    } else if name == b"3380-E".as_slice() {
        (0x80, 1770, 15, 47616)
    } else if name == b"3380-K".as_slice() {
        (0x80, 2655, 15, 47616)
    } else if name == b"3390-1".as_slice() {
        (0x90, 1113, 15, 56832)
    } else if name == b"3390-2".as_slice() {
        (0x90, 2226, 15, 56832)
    } else if name == b"3390-3".as_slice() {
        (0x90, 3339, 15, 56832)
    } else if name == b"3390-9".as_slice() {
        (0x90, 10017, 15, 56832)
    } else {
        return None;
    };
    Some(Geometry {
        devtype,
        heads,
        cyls,
        track_size,
    })
}
