//! The volume label of a base.
ghost use Rattle.std.specs.Prelude.{◌≡◌, ◌<◌, ◌≤◌, length, IfOk, IsOk};
ghost use Rattle.cckd_base.specs.Geometry.{address_of, IsLayout};
ghost use Rattle.cckd_track.specs.Builder.{IsBuilt};
ghost use Rattle.cckd_tools.specs.Label.{label_data, label_records, label_length};

use cckd_base::{Layout, Track, TrackFault, put_bytes};
use cckd_track::Builder;

/// Keys of the records in EBCDIC.
const IPL1: [u8; 4] = [0xc9, 0xd7, 0xd3, 0xf1];

const IPL2: [u8; 4] = [0xc9, 0xd7, 0xd3, 0xf2];

const VOL1: [u8; 4] = [0xe5, 0xd6, 0xd3, 0xf1];

/// A blank in EBCDIC.
const BLANK: u8 = 0x40;

/// The data of the label of a volume with this serial, in EBCDIC.
fn label_data(serial: &[u8; 6]) -> [u8; 80]
    ensures { result ≡ label_data serial.now }
{
    let mut label = [BLANK; 80];
    let room = label.as_mut_slice();
    let name = put_bytes(room, 0, &VOL1);
    let volume = put_bytes(room, name, serial);
    let access = put_bytes(room, volume, &[BLANK]);
    put_bytes(room, access, &[0; 5]);
    label
}

/// Builds the labelled track 0 at the front of a buffer of zeros, and answers its length.
pub(crate) fn put_label(l: &Layout, serial: &[u8; 6], out: &mut [u8]) -> Result<u16, TrackFault>
    requires layout { IsLayout l.now }
    requires room { 65536 ≤ length out.old }
    ensures built { IfOk result (λ len. IsBuilt l.now.geo 0 (label_records (address_of l.now.geo 0) serial.now) out.old len out.new) }
    ensures fits { label_length ≤ l.now.geo.track_size → IsOk result }
{
    let mut builder = Builder::new(l, Track(0), out);
    if let Err(fault) = builder.add(1, &IPL1, &[0; 24]) {
        return Err(fault);
    }
    if let Err(fault) = builder.add(2, &IPL2, &[0; 144]) {
        return Err(fault);
    }
    if let Err(fault) = builder.add(3, &VOL1, &label_data(serial)) {
        return Err(fault);
    }
    Ok(builder.finish())
}
