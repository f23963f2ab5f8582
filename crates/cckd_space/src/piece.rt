//! What a space is made of: pieces, each of one kind.
ghost use Rattle.std.specs.Prelude.{◌≡◌, ◌+◌, ◌<◌, ◌^◌, ◌&&◌};
ghost use Rattle.cckd_space.specs.Pieces.{
  is_free,
  is_used,
  is_leaving,
  is_pending,
  is_roomy,
  is_roomy_from,
  is_reserved_at,
  is_used_at,
  has_room,
  has_room_below,
  piece_end,
  aligned_up,
  offer,
  free_piece,
  reserved_piece,
  used_piece,
  settled,
  left,
  retired,
  released,
  used_len,
  roomy_len,
};

use cckd_base::{Extent, Owner};

/// What the bytes of a piece are for.
#[derive(Clone, Copy, Debug, PartialEq, Eq)]
pub enum Kind {
    /// A table, a track or the header area stands here.
    Used,
    /// New bytes may go here.
    Free,
    /// Placed, and no entry on the disk names it yet.
    Reserved,
    /// Its replacing entry is staged.
    Leaving,
    /// Its replacing entry was written, and isn't synced.
    Pending,
}

/// `size` bytes from `pos`, of which the first `len` are in use. A piece that isn't Used belongs to
/// Nobody, and its `len` is its `size`.
#[derive(Clone, Copy, Debug, PartialEq, Eq)]
pub struct Piece {
    pub pos: u32,
    pub len: u32,
    pub size: u32,
    pub kind: Kind,
    pub owner: Owner,
}

/// The totals of a file in bytes. Free spaces of fewer than 8 bytes count as imbedded. `free` is the
/// position of the first free space of at least 8 bytes, or 0.
#[derive(Clone, Copy, Debug, PartialEq, Eq)]
pub struct Totals {
    pub size: u32,
    pub used: u32,
    pub free: u32,
    pub free_total: u32,
    pub free_largest: u32,
    pub free_number: u32,
    pub free_imbed: u32,
}

/// The `len` bytes that `owner` has at `from` are to go to `to`.
#[derive(Clone, Copy, Debug, PartialEq, Eq)]
pub struct Move {
    pub owner: Owner,
    pub from: u32,
    pub to: u32,
    pub len: u32,
}

/// The first multiple of 8 at or after this place.
pub(crate) fn align(place: u32) -> u64
    ensures { result ≡ aligned_up place }
{
    (place as u64 + 7) / 8 * 8
}

pub(crate) fn free(pos: u32, size: u32) -> Piece
    ensures { result ≡ free_piece pos size }
{
    Piece {
        pos,
        len: size,
        size,
        kind: Kind::Free,
        owner: Owner::Nobody,
    }
}

pub(crate) fn reserved(pos: u32, size: u32) -> Piece
    ensures { result ≡ reserved_piece pos size }
{
    Piece {
        pos,
        len: size,
        size,
        kind: Kind::Reserved,
        owner: Owner::Nobody,
    }
}

pub(crate) fn used(extent: &Extent) -> Piece
    ensures { result ≡ used_piece extent.now }
{
    Piece {
        pos: extent.pos,
        len: extent.len,
        size: extent.size,
        kind: Kind::Used,
        owner: extent.owner,
    }
}

impl Piece {
    pub(crate) fn is_free(&self) -> bool
        ensures { result ≡ is_free self.now }
    {
        match self.kind {
            Kind::Free => true,
            Kind::Used => false,
            Kind::Reserved => false,
            Kind::Leaving => false,
            Kind::Pending => false,
        }
    }

    pub(crate) fn is_used(&self) -> bool
        ensures { result ≡ is_used self.now }
    {
        match self.kind {
            Kind::Used => true,
            Kind::Free => false,
            Kind::Reserved => false,
            Kind::Leaving => false,
            Kind::Pending => false,
        }
    }

    /// Whether it is free and has at least 8 bytes.
    pub(crate) fn is_roomy(&self) -> bool
        ensures { result ≡ is_roomy self.now }
    {
        self.is_free() && 8 <= self.size
    }

    /// Whether it is free, has at least 8 bytes and starts at or after this place.
    pub(crate) fn is_roomy_from(&self, from: u32) -> bool
        ensures { result ≡ is_roomy_from from self.now }
    {
        self.is_roomy() && from <= self.pos
    }

    pub(crate) fn is_used_at(&self, pos: u32) -> bool
        ensures { result ≡ is_used_at pos self.now }
    {
        self.is_used() && self.pos == pos
    }

    pub(crate) fn is_reserved_at(&self, pos: u32) -> bool
        ensures { result ≡ is_reserved_at pos self.now }
    {
        match self.kind {
            Kind::Reserved => self.pos == pos,
            Kind::Used => false,
            Kind::Free => false,
            Kind::Leaving => false,
            Kind::Pending => false,
        }
    }

    /// The place behind its last byte.
    pub(crate) fn end(&self) -> u64
        ensures { result ≡ piece_end self.now }
    {
        self.pos as u64 + self.size as u64
    }

    /// The number of bytes that fit from its first multiple of 8.
    pub(crate) fn offer(&self) -> u64
        ensures { result ≡ offer self.now }
    {
        if self.is_free() {
            self.end().saturating_sub(align(self.pos))
        } else {
            0
        }
    }

    pub(crate) fn has_room(&self, need: u32) -> bool
        ensures { result ≡ has_room need self.now }
    {
        self.is_free() && align(self.pos) + need as u64 <= self.end()
    }

    pub(crate) fn has_room_below(&self, need: u32, before: u32) -> bool
        ensures { result ≡ has_room_below need before self.now }
    {
        self.has_room(need) && align(self.pos) + need as u64 <= before as u64
    }

    pub(crate) fn is_leaving(&self) -> bool
        ensures { result ≡ is_leaving self.now }
    {
        match self.kind {
            Kind::Leaving => true,
            Kind::Used => false,
            Kind::Free => false,
            Kind::Reserved => false,
            Kind::Pending => false,
        }
    }

    pub(crate) fn is_pending(&self) -> bool
        ensures { result ≡ is_pending self.now }
    {
        match self.kind {
            Kind::Pending => true,
            Kind::Used => false,
            Kind::Free => false,
            Kind::Reserved => false,
            Kind::Leaving => false,
        }
    }

    /// Whether it is one piece with the next: both are Free.
    pub(crate) fn joins(&self, next: &Piece) -> bool
        ensures { result ≡ (is_free self.now && is_free next.now) }
    {
        self.is_free() && next.is_free()
    }

    pub(crate) fn settled(&self, len: u32, owner: Owner) -> Piece
        ensures { result ≡ settled len owner self.now }
    {
        Piece {
            pos: self.pos,
            len,
            size: self.size,
            kind: Kind::Used,
            owner,
        }
    }

    pub(crate) fn left(&self) -> Piece
        ensures { result ≡ left self.now }
    {
        Piece {
            pos: self.pos,
            len: self.size,
            size: self.size,
            kind: Kind::Leaving,
            owner: Owner::Nobody,
        }
    }

    pub(crate) fn retired(&self) -> Piece
        ensures { result ≡ retired self.now }
    {
        match self.kind {
            Kind::Leaving => Piece {
                pos: self.pos,
                len: self.size,
                size: self.size,
                kind: Kind::Pending,
                owner: Owner::Nobody,
            },
            Kind::Used => *self,
            Kind::Free => *self,
            Kind::Reserved => *self,
            Kind::Pending => *self,
        }
    }

    pub(crate) fn released(&self) -> Piece
        ensures { result ≡ released self.now }
    {
        match self.kind {
            Kind::Pending => free(self.pos, self.size),
            Kind::Used => *self,
            Kind::Free => *self,
            Kind::Reserved => *self,
            Kind::Leaving => *self,
        }
    }

    /// What it adds to the used bytes.
    pub(crate) fn used_len(&self) -> u32
        ensures { result ≡ used_len self.now }
    {
        if self.is_used() { self.len } else { 0 }
    }

    /// What it adds to the free bytes of the totals.
    pub(crate) fn roomy_len(&self) -> u32
        ensures { result ≡ roomy_len self.now }
    {
        if self.is_roomy() { self.size } else { 0 }
    }
}
