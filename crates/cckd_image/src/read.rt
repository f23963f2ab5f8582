//! The headers that bytes spell.

ghost use Rattle.std.specs.Prelude.{◌≡◌, ◌+◌, ◌≤◌, IfOk, length};
ghost use Rattle.std.specs.Int.{w16, w32, cast_signed};
ghost use Rattle.cckd_base.specs.Numbers.{bytes_of, bytes_at, number_at};
ghost use Rattle.cckd_base.specs.Geometry.{IsLayout};
ghost use Rattle.cckd_base.specs.Header.{header_fault, layout_of};
ghost use Rattle.cckd_image.specs.Image.{identifiers_of, dev_header_of, cckd_header_of, decoded, header_of, layout_by, dev_bytes, cckd_bytes, header_bytes, IsHeader, IsLength, HasRole};

use crate::header::{CckdHeader, DevHeader, ImageHeader, order_in};
use crate::roles::Roles;
use cckd_base::{HeaderFault, Order, part};

/// The number of four bytes at a place of the headers.
fn number(order: Order, headers: &[u8], at: usize) -> u32
    requires { at + 4 ≤ length headers.now }
    ensures value { result ≡ number_at order w32 headers.now at }
    ensures undone { bytes_of order w32 result ≡ bytes_at headers.now at 4 }
{
    order.u32_of(part(headers, at))
}

/// The number of two bytes at a place of the headers.
fn small_number(order: Order, headers: &[u8], at: usize) -> u16
    requires { at + 2 ≤ length headers.now }
    ensures value { result ≡ number_at order w16 headers.now at }
    ensures undone { bytes_of order w16 result ≡ bytes_at headers.now at 2 }
{
    order.u16_of(part(headers, at))
}

/// The device header that these headers begin with.
fn dev_in(headers: &[u8]) -> DevHeader
    requires { length headers.now ≡ 1024 }
    ensures value { result ≡ dev_header_of headers.now }
    ensures undone { dev_bytes result ≡ bytes_at headers.now 0 512 }
{
    DevHeader {
        id: part(headers, 0),
        heads: number(Order::Little, headers, 8),
        track_size: number(Order::Little, headers, 12),
        devtype: headers[16],
        sequence: headers[17],
        highest: small_number(Order::Little, headers, 18),
        reserved: part(headers, 20),
    }
}

/// The header of a compressed device that these headers end with.
fn cckd_in(headers: &[u8]) -> CckdHeader
    requires { length headers.now ≡ 1024 }
    ensures value { result ≡ cckd_header_of headers.now }
    ensures undone { cckd_bytes result ≡ bytes_at headers.now 512 512 }
{
    let order = order_in(headers[515]);
    CckdHeader {
        version: part(headers, 512),
        options: headers[515],
        words: number(order, headers, 516),
        entries: number(order, headers, 520),
        size: number(order, headers, 524),
        used: number(order, headers, 528),
        free: number(order, headers, 532),
        free_total: number(order, headers, 536),
        free_largest: number(order, headers, 540),
        free_number: number(order, headers, 544),
        free_imbed: number(order, headers, 548),
        cyls: number(Order::Little, headers, 552),
        null_fmt: headers[556],
        compress: headers[557],
        param: small_number(order, headers, 558).cast_signed(),
        reserved: part(headers, 560),
    }
}

/// Both headers.
fn header_in(headers: &[u8; 1024]) -> ImageHeader
    ensures value { result ≡ header_of headers.now }
    ensures undone { header_bytes result ≡ headers.now }
{
    ImageHeader {
        dev: dev_in(headers.as_slice()),
        cckd: cckd_in(headers.as_slice()),
    }
}

/// The headers that these bytes of a file of `len` bytes spell, or the first fault that the file has in a
/// file of these roles. The bytes past the end of a short file are zeros.
pub fn decode(bytes: &[u8; 1024], len: u64, roles: Roles) -> Result<ImageHeader, HeaderFault>
    ensures answer { result ≡ decoded (header_fault (identifiers_of roles) bytes.now len) (header_of bytes.now) }

    // What the headers say that are accepted, and how the bytes come back.
    ensures sound { IfOk result (λ h. IsHeader h len) }
    ensures layout { IfOk result (λ h. layout_by h ≡ layout_of bytes.now) }
    ensures image { IfOk result (λ h. IsLayout (layout_by h)) }
    ensures area { IfOk result (λ h. IsLength (layout_by h).groups len) }
    ensures role { IfOk result (λ h. HasRole roles (layout_by h).shadow) }
    ensures undone { IfOk result (λ h. header_bytes h ≡ bytes.now) }
    ensures again { IfOk result (λ h. header_of (header_bytes h) ≡ h) }
{
    let header = header_in(bytes);
    match header.fault(len, roles) {
        Some(fault) => Err(fault),
        None => Ok(header),
    }
}
