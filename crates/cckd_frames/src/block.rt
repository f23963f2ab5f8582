//! A block of memory for two rows of values, one behind the other, and who owns which part of it.
ghost use Rattle.std.specs.Prelude.{◌≡◌, ◌≢◌, ℕ, ◌+◌, ◌*◌, ◌^◌, ◌<◌, ◌≤◌, List, [], ◌∷◌, ◌++◌, length, get_or, take, drop, IfOk};
ghost use Rattle.std.specs.Borrow.{sem};
ghost use Rattle.std.specs.Mem.{type_size};
ghost use Rattle.std.specs.Vec.Ownership.{vec_shares};
ghost use base.Fml.{ftrue};
ghost use denote.RawPtr.{Ptr, InBlock, ◌+ₚ◌};
ghost use Rattle.cckd_frames.specs.Ownership.{row_owns, deed_owns};

use std::alloc::{AllocError, Allocator};
use std::marker::{Model, PhantomData, Send, Sync};
use std::mem::{align_of, size_of};
use std::slice::{from_raw_parts, from_raw_parts_mut};

/// The owner of a row of values, and of the room behind them. It takes no space: its holder knows the place.
pub(crate) struct Row<T> {
    mark: PhantomData<*mut T>,
    ghost at: { Ptr },
    ghost room: { ℕ },
    ghost items: { List T },
    ghost within: { length items ≤ room },
}

impl<T> Model for Row<T> {
    ghost also_owns = { λ r. row_owns T.row r.at r.room r.items };

    ghost also_shares = { λ r _ κ. vec_shares T.row r.at (length r.items) r.room r.items κ };
}

unsafe impl<T: Send> Send for Row<T> {}

unsafe impl<T: Sync> Sync for Row<T> {}

/// The right to give a block back, once both rows have come back. It takes no space.
pub(crate) struct Deed<T, A: Allocator> {
    mark: PhantomData<*const (T, A)>,
    ghost at: { Ptr },
    ghost front: { ℕ },
    ghost back: { ℕ },
    ghost alloc: { A },
}

impl<T, A: Allocator> Model for Deed<T, A> {
    ghost also_owns = { λ d. deed_owns T.row (A.dealloc_token d.alloc) d.at d.front d.back };

    ghost also_shares = { λ _ _ _. ftrue };
}

unsafe impl<T, A: Allocator + Send> Send for Deed<T, A> {}

// A `&` to it holds nothing.
unsafe impl<T, A: Allocator> Sync for Deed<T, A> {}

/// A block for `front` values, and behind them the bytes that `back` more would take.
pub(crate) fn allocate<T, A: Allocator>(
    alloc: &A,
    front: usize,
    back: usize,
) -> Result<(*mut T, Row<T>, Row<u8>, Deed<T, A>), AllocError>
    requires { (0 < front) × (0 < back) × (0 < type_size T.row) × ((front + back) * type_size T.row < 2 ^ 63) }
    ensures { IfOk result (λ r. InBlock r.0 × (r.1.at ≡ r.0) × (r.1.room ≡ front) × (r.1.items ≡ [])
        × (r.2.at ≡ r.0 +ₚ front * type_size T.row) × (r.2.room ≡ back * type_size T.row) × (r.2.items ≡ [])
        × (r.3.at ≡ r.0) × (r.3.front ≡ front) × (r.3.back ≡ back) × (r.3.alloc ≡ alloc.now)) }
{
    match alloc.allocate((front + back) * size_of::<T>(), align_of::<T>()) {
        Ok(block) => Ok((
            block as *mut T,
            Row { mark: PhantomData },
            Row { mark: PhantomData },
            Deed { mark: PhantomData },
        )),
        Err(error) => Err(error),
    }
}

/// Gives the block back. What lies in it is let go.
pub(crate) fn deallocate<T, A: Allocator>(
    alloc: &A,
    first: *mut T,
    front: usize,
    back: usize,
    values: Row<T>,
    bytes: Row<u8>,
    deed: Deed<T, A>,
)
    requires { (values.at ≡ first) × (values.room ≡ front) × (bytes.at ≡ first +ₚ front * type_size T.row) × (bytes.room ≡ back * type_size T.row)
        × (deed.at ≡ first) × (deed.front ≡ front) × (deed.back ≡ back) × (deed.alloc ≡ alloc.now) × (0 < type_size T.row) × ((front + back) * type_size T.row < 2 ^ 63) }
{
    let Row { mark: _ } = values;
    let Row { mark: _ } = bytes;
    let Deed { mark: _ } = deed;
    unsafe {
        alloc.deallocate(
            first as *mut u8,
            (front + back) * size_of::<T>(),
            align_of::<T>(),
        );
    }
}

impl<T> Row<T> {
    ghost use Rattle.cckd_frames.specs.Items.{place_of, IsItem};
    ghost use Rattle.cckd_frames.specs.RowLends.{lends_item};

    /// Puts a value behind the others.
    pub(crate) fn push(&mut self, end: *mut T, value: T)
        requires { (length self.old.items < self.old.room) × (end ≡ self.old.at +ₚ length self.old.items * type_size T.row) }
        ensures { (self.new.at ≡ self.old.at) × (self.new.room ≡ self.old.room) × (self.new.items ≡ self.old.items ++ value ∷ []) }
    {
        unsafe { end.write(value) }
    }

    /// The value that lies at `at`.
    pub(crate) fn item(&self, at: *mut T) -> &T
        requires { IsItem (type_size T.row) self.now.at (length self.now.items) at }
        ensures { result.now ≡ get_or self.now.items (place_of (type_size T.row) self.now.at at) result.now }
    {
        unsafe { &*at }
    }

    /// The same, to be written.
    pub(crate) fn item_mut(&mut self, at: *mut T) -> &mut T
        requires { IsItem (type_size T.row) self.old.at (length self.old.items) at }
        ensures* writes_back { sem 𝓛 (lends_item T.row self.entry (place_of (type_size T.row) self.old.at at) result) }
        ensures value { result.now ≡ get_or self.old.items (place_of (type_size T.row) self.old.at at) result.now }
    {
        unsafe { &mut *at }
    }
}

impl Row<u8> {
    ghost use Rattle.cckd_frames.specs.RowLends.{lends_part};

    /// The `len` bytes from `from` on.
    pub(crate) fn part(&self, first: *mut u8, from: usize, len: usize) -> &[u8]
        requires { (first ≡ self.now.at) × (from + len ≤ length self.now.items) }
        ensures { result.now ≡ take len (drop from self.now.items) }
    {
        unsafe { from_raw_parts(first.add(from), len) }
    }

    /// The same, to be written.
    pub(crate) fn part_mut(&mut self, first: *mut u8, from: usize, len: usize) -> &mut [u8]
        requires { (first ≡ self.old.at) × (from + len ≤ length self.old.items) }
        ensures* writes_back { sem 𝓛 (lends_part self.entry from len result) }
        ensures value { result.now ≡ take len (drop from self.old.items) }
    {
        unsafe { from_raw_parts_mut(first.add(from), len) }
    }
}
