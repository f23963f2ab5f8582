//! What `dasdinit` prints, put into a buffer.

ghost use Rattle.std.specs.Prelude.{◌≡◌, ◌+◌, ◌≤◌, length};
ghost use Rattle.cckd_base.specs.Geometry.{IsGeometry};
ghost use Rattle.cckd_base.specs.Put.{IsPut};
ghost use Rattle.cckd_script.specs.Text.{line as ended};
ghost use Rattle.cckd_dasdinit.specs.Text.{counts_text, made_text, unmade_text, wrong_text};

use cckd_base::{Geometry, put_bytes};
use cckd_script::{Part, put_phrase};
use cckd_tools::InitFault;

/// A buffer of so many bytes holds each of these lines.
pub const LINE_ROOM: usize = 200;

/// Puts that a word is wrong or missing, and answers where the line ends.
#[tactic(auto, using(cckd_base::proofs::PutLemmas::puts_join))]
pub fn put_wrong(line: &mut [u8], number: u64) -> usize
    requires { LINE_ROOM ≤ length line.old }
    ensures put { IsPut 0 result (ended (wrong_text number)) line.old line.new }
    ensures within { result ≤ length line.new }
{
    let end = put_phrase(line, 0, b"bad words at", &[Part::Number(number)]);
    put_bytes(line, end, b"\n")
}

/// Puts why no base is made.
fn put_cause(line: &mut [u8], why: InitFault) -> usize
    requires { LINE_ROOM ≤ length line.old }
    ensures put { IsPut 0 result (unmade_text why) line.old line.new }
    ensures short { result ≤ 100 }
{
    match why {
        InitFault::NotEmpty { len } => {
            put_phrase(line, 0, b"refused: not empty,", &[Part::Number(len)])
        }
        InitFault::ReadFault => put_phrase(line, 0, b"fault: read", &[]),
        InitFault::WriteFault => put_phrase(line, 0, b"fault: write", &[]),
        InitFault::SyncFault => put_phrase(line, 0, b"fault: sync", &[]),
        InitFault::Memory => put_phrase(line, 0, b"no memory", &[]),
    }
}

/// Puts the line of it, and answers where it ends.
#[tactic(auto, using(cckd_base::proofs::PutLemmas::puts_join))]
pub fn put_unmade(line: &mut [u8], why: InitFault) -> usize
    requires { LINE_ROOM ≤ length line.old }
    ensures put { IsPut 0 result (ended (unmade_text why)) line.old line.new }
    ensures within { result ≤ length line.new }
{
    let end = put_cause(line, why);
    put_bytes(line, end, b"\n")
}

/// Puts what a device has, and how long its base is.
fn put_counts(line: &mut [u8], at: usize, geo: &Geometry, groups: u32, len: u32) -> usize
    requires { at + 120 ≤ length line.old }
    ensures put { IsPut at result (counts_text geo.now.cyls geo.now.heads groups len) line.old line.new }
    ensures short { result ≤ at + 120 }
{
    let parts = [
        Part::Number(u64::from(geo.cyls)),
        Part::Words(b"cylinders,"),
        Part::Number(u64::from(geo.heads)),
        Part::Words(b"heads,"),
        Part::Number(u64::from(groups)),
        Part::Words(b"groups,"),
        Part::Number(u64::from(len)),
        Part::Words(b"bytes"),
    ];
    put_phrase(line, at, b":", &parts)
}

/// Puts which base of `len` bytes was made, and answers where the line ends.
pub fn put_made(line: &mut [u8], device: &str, geo: &Geometry, len: u32) -> usize
    requires room { LINE_ROOM ≤ length line.old }
    requires device { length device.now ≤ 6 }
    requires geometry { IsGeometry geo.now }
    ensures put { IsPut 0 result (ended (made_text device.now geo.now len)) line.old line.new }
    ensures within { result ≤ length line.new }
{
    let begun = put_bytes(line, 0, b"made ");
    let named = put_bytes(line, begun, device.as_bytes());
    let counted = put_counts(line, named, geo, geo.groups(), len);
    put_bytes(line, counted, b"\n")
}
