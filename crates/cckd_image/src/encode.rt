//! The bytes that spell the headers.

ghost use Rattle.std.specs.Prelude.{◌≡◌, ℕ, List, ◌++◌, length};
ghost use Rattle.cckd_image.specs.Image.{order_by, dev_bytes, count_bytes, cckd_bytes, header_bytes, dev_header_of, cckd_header_of, header_of, HasCounts};

use crate::header::{CckdHeader, DevHeader, ImageHeader, order_in};
use cckd_base::{Order, put_bytes};

impl DevHeader {
    /// The bytes that spell the device header.
    fn encode(&self) -> [u8; 512]
        ensures value { result ≡ dev_bytes self.now }
        ensures undone { (rest : List ℕ) → dev_header_of (result ++ rest) ≡ self.now }
    {
        let mut bytes = [0; 512];
        let room = bytes.as_mut_slice();
        let at = put_bytes(room, 0, &self.id);
        let at = put_bytes(room, at, &Order::Little.u32_bytes(self.heads));
        let at = put_bytes(room, at, &Order::Little.u32_bytes(self.track_size));
        let at = put_bytes(room, at, &[self.devtype, self.sequence]);
        let at = put_bytes(room, at, &Order::Little.u16_bytes(self.highest));
        put_bytes(room, at, &self.reserved);
        bytes
    }
}

impl CckdHeader {
    /// The bytes that spell the counts.
    fn encode_counts(&self, order: Order) -> [u8; 36]
        ensures value { result ≡ count_bytes order self.now }
        ensures undone { HasCounts order result self.now }
    {
        let mut bytes = [0; 36];
        let room = bytes.as_mut_slice();
        let at = put_bytes(room, 0, &order.u32_bytes(self.words));
        let at = put_bytes(room, at, &order.u32_bytes(self.entries));
        let at = put_bytes(room, at, &order.u32_bytes(self.size));
        let at = put_bytes(room, at, &order.u32_bytes(self.used));
        let at = put_bytes(room, at, &order.u32_bytes(self.free));
        let at = put_bytes(room, at, &order.u32_bytes(self.free_total));
        let at = put_bytes(room, at, &order.u32_bytes(self.free_largest));
        let at = put_bytes(room, at, &order.u32_bytes(self.free_number));
        put_bytes(room, at, &order.u32_bytes(self.free_imbed));
        bytes
    }

    /// The bytes that spell the header of a compressed device.
    fn encode(&self) -> [u8; 512]
        ensures value { result ≡ cckd_bytes self.now }
        ensures undone { (front : List ℕ) → length front ≡ 512 → cckd_header_of (front ++ result) ≡ self.now }
    {
        let order = order_in(self.options);
        let mut bytes = [0; 512];
        let room = bytes.as_mut_slice();
        let at = put_bytes(room, 0, &self.version);
        let at = put_bytes(room, at, &[self.options]);
        let at = put_bytes(room, at, &self.encode_counts(order));
        let at = put_bytes(room, at, &Order::Little.u32_bytes(self.cyls));
        let at = put_bytes(room, at, &[self.null_fmt, self.compress]);
        let at = put_bytes(room, at, &order.u16_bytes(self.param.cast_unsigned()));
        put_bytes(room, at, &self.reserved);
        bytes
    }
}

impl ImageHeader {
    /// The bytes that spell the headers, from which their fields are read back.
    pub fn encode(&self) -> [u8; 1024]
        ensures value { result ≡ header_bytes self.now }
        ensures undone { header_of result ≡ self.now }
    {
        let mut bytes = [0; 1024];
        let room = bytes.as_mut_slice();
        let at = put_bytes(room, 0, &self.dev.encode());
        put_bytes(room, at, &self.cckd.encode());
        bytes
    }
}
