//! What the headers of a file say.
ghost use Rattle.std.specs.Prelude.{◌≡◌, ◌≤◌, length, min, replicate, None, IfOk, OnOk, IfErr, IsTrue, ◌↔◌};
ghost use Rattle.cckd_shelf.specs.Seen.{seen, IsLength};
ghost use Rattle.cckd_base.specs.Geometry.{area_of, IsLayout};
ghost use Rattle.cckd_base.specs.Header.{headers_of, header_fault, header_options, layout_of};
ghost use Rattle.cckd_image.specs.Image.{identifiers_of};
ghost use Rattle.cckd_image.specs.declared.roles.Roles.TheVariants.{Either};
ghost use Rattle.cckd_check.specs.Chain.{header_free};
ghost use Rattle.cckd_check.specs.Look.{OfFile, OnlyLooks, IsLookCause, IsHeaderFault, IsHeadingOf};

use crate::report::LookFault;
use cckd_base::Layout;
use cckd_image::{Roles, decode};
use cckd_shelf::{Slot, Stage};

/// Bytes of the two headers.
const HEADERS: usize = 1024;

/// What a check needs of the headers of a file, and the file's length.
#[derive(Clone, Copy)]
pub(crate) struct Heading {
    pub(crate) layout: Layout,
    pub(crate) len: u32,
    /// The option bits.
    pub(crate) options: u8,
    /// The position of the first free space, or 0.
    pub(crate) free: u32,
}

/// How much of the headers a file of this length has.
fn front_of(len: u64) -> usize
    ensures { result ≡ min len 1024 }
{
    len.min(1024) as usize
}

/// Reads the headers of a file to a buffer of zeros, as far as the file has them, and answers the file's length.
fn read_headers<T: Stage>(stage: &mut T, slot: Slot, headers: &mut [u8]) -> Result<u64, LookFault>
    requires zeros { headers.old ≡ replicate HEADERS 0 }
    ensures headers { OfFile slot (λ file. OnOk result (headers.new ≡ headers_of file)) (seen T.Shows stage.old) }
    ensures length { OfFile slot (λ file. IfOk result (λ len. len ≡ length file)) (seen T.Shows stage.old) }
    ensures cause { IfErr result (λ why. why ≡ LookFault.ReadFault) }
    ensures looks { OnlyLooks result (seen T.Shows stage.old) (seen T.Shows stage.new) }
{
    let Ok(len) = stage.len(slot) else {
        return Err(LookFault::ReadFault);
    };
    let Ok(()) = stage.read(slot, 0, &mut headers[..front_of(len)]) else {
        return Err(LookFault::ReadFault);
    };
    Ok(len)
}

/// What these headers of a file of `len` bytes say, or their first fault.
fn read_out(headers: &[u8; 1024], len: u64) -> Result<Heading, LookFault>
    ensures layout { IfOk result (λ h. IsLayout h.layout) }
    ensures area { IfOk result (λ h. area_of h.layout.groups ≤ h.len) }
    ensures sound { OnOk result (header_fault (identifiers_of Either) headers.now len ≡ None) }
    ensures says { IfOk result (λ h. h.layout ≡ layout_of headers.now) }
    ensures options { IfOk result (λ h. h.options ≡ header_options headers.now) }
    ensures free { IfOk result (λ h. h.free ≡ header_free headers.now) }
    ensures length { IfOk result (λ h. h.len ≡ len) }
    ensures refusal { IfErr result (IsHeaderFault headers.now len) }
{
    match decode(headers, len, Roles::Either) {
        Ok(header) => Ok(Heading {
            layout: header.layout(),
            len: len as u32,
            options: header.cckd.options,
            free: header.cckd.free,
        }),
        Err(fault) => Err(LookFault::Header(fault)),
    }
}

/// What the headers of the file say, or their first fault.
pub(crate) fn find<T: Stage>(stage: &mut T, slot: Slot) -> Result<Heading, LookFault>
    ensures layout { IfOk result (λ h. IsLayout h.layout) }
    ensures area { IfOk result (λ h. area_of h.layout.groups ≤ h.len) }
    ensures heading { OfFile slot (λ file. IfOk result (IsHeadingOf file)) (seen T.Shows stage.old) }
    ensures cause { IfErr result (IsLookCause slot (seen T.Shows stage.old)) }
    ensures looks { OnlyLooks result (seen T.Shows stage.old) (seen T.Shows stage.new) }
{
    let mut headers = [0; HEADERS];
    match read_headers(stage, slot, &mut headers) {
        Ok(len) => read_out(&headers, len),
        Err(fault) => Err(fault),
    }
}
