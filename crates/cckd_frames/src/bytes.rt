//! The bytes of all frames, one frame after another.
ghost use Rattle.std.specs.Prelude.{◌≡◌, ◌+◌, ◌-◌, ◌≤◌, [], ◌++◌, replicate, length, take, drop, ⊤};
ghost use Rattle.std.specs.Borrow.{sem};
ghost use denote.RawPtr.{InBlock};

use crate::block::Row;
use std::alloc::AllocError;
use std::marker::{Model, Send, Sync};

/// Where bytes lie. It owns nothing.
pub(crate) struct BytePtr {
    pub(crate) ptr: *mut u8,
}

impl Clone for BytePtr {
    ghost is_clone = { λ x y. y ≡ x };

    ghost is_infallible = { λ _. ⊤ };

    fn clone(&self) -> Result<BytePtr, AllocError> {
        Ok(*self)
    }
}

impl Copy for BytePtr {}

unsafe impl Send for BytePtr {}

unsafe impl Sync for BytePtr {}

/// The bytes that were made so far.
pub(crate) struct Bytes {
    row: Row<u8>,
    first: BytePtr,
    len: usize,
}

impl Model for Bytes {
    ghost use Rattle.std.specs.Prelude.{◌≡◌, length};
    ghost use denote.RawPtr.{InBlock};
    ghost use Rattle.cckd_frames.specs.Store.{Stored};

    ghost Value = { Stored };

    ghost view = { λ b. record { at = b.first.ptr; room = b.row.room; bytes = b.row.items } };

    ghost invariant = { λ b. (b.row.at ≡ b.first.ptr) × (b.len ≡ length b.row.items) × InBlock b.first.ptr };
}

/// Puts zeros behind the `from` bytes of the row, up to `end`.
fn fill_up(row: &mut Row<u8>, first: BytePtr, from: usize, end: usize)
    requires place { (row.old.at ≡ first.ptr) × InBlock first.ptr }
    requires part { (from ≡ length row.old.items) × (from ≤ end) × (end ≤ row.old.room) }
    ensures place { (row.new.at ≡ row.old.at) × (row.new.room ≡ row.old.room) }
    ensures zeros { row.new.items ≡ row.old.items ++ replicate (end - from) 0 }
{
    for at in from..end {
        let next = unsafe { first.ptr.byte_add(at) };
        row.push(next, 0);
    }
}

impl Bytes {
    ghost use Rattle.cckd_frames.specs.Lending.{LendsBytes};
    ghost use Rattle.cckd_frames.specs.Store.{filled};

    /// No bytes yet.
    pub(crate) fn new(row: Row<u8>, first: BytePtr) -> Bytes
        requires { (row.at ≡ first.ptr) × InBlock first.ptr × (row.items ≡ []) }
        ensures place { (result.at ≡ first.ptr) × (result.room ≡ row.room) }
        ensures none { result.bytes ≡ [] }
    {
        Bytes { row, first, len: 0 }
    }

    /// Makes the bytes up to `end` that aren't made yet, each 0.
    pub(crate) fn reach(&mut self, end: usize)
        requires { end ≤ self.old.room }
        ensures place { (self.new.at ≡ self.old.at) × (self.new.room ≡ self.old.room) }
        ensures filled { self.new.bytes ≡ filled end self.old.bytes }
    {
        if self.len < end {
            fill_up(&mut self.row, self.first, self.len, end);
            self.len = end;
        }
    }

    pub(crate) fn into_row(self) -> Row<u8>
        ensures { (result.at ≡ self.at) × (result.room ≡ self.room) }
    {
        let Bytes {
            row,
            first: _,
            len: _,
        } = self;
        row
    }

    /// The `len` bytes from `at` on.
    pub(crate) fn part(&self, at: usize, len: usize) -> &[u8]
        requires { at + len ≤ length self.now.bytes }
        ensures { result.now ≡ take len (drop at self.now.bytes) }
    {
        self.row.part(self.first.ptr, at, len)
    }

    /// The same, to be written.
    pub(crate) fn part_mut(&mut self, at: usize, len: usize) -> &mut [u8]
        requires { at + len ≤ length self.old.bytes }
        ensures* writes_back { sem 𝓛 (LendsBytes self.entry at len result) }
        ensures value { result.now ≡ take len (drop at self.old.bytes) }
    {
        self.row.part_mut(self.first.ptr, at, len)
    }
}
