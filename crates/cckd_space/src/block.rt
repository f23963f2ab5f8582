//! Pieces side by side, and what is known of them.
ghost use Rattle.std.specs.Prelude.{ℕ, IfOk, max, ◌≡◌, ◌+◌, ◌-◌, ◌<◌, ◌≤◌, ◌^◌, ◌++◌, ◌||◌, ◌∷◌, [], length, take, drop, map, IsSome, IfSome, IfNone, Some, None, true, false, position};
ghost use Rattle.std.specs.Option.{option_map, is_some};
ghost use Rattle.std.specs.Vec.{vec_len, vec_capacity};
ghost use Rattle.cckd_space.specs.Pieces.{begins_by, first, last, is_reserved_at, is_used_at, is_roomy_from, left, replaced, settled, freed, cut, used_end, has_room, has_room_below, reserved_in, retired, released, merged, largest, aligned_up, summed, counted, greatest, used_len, roomy_len, is_roomy};
ghost use Rattle.cckd_space.specs.Plan.{first_fit_below};
ghost use Rattle.cckd_space.specs.Inside.{EndsAt, EndsBelow, AreMerged, IsInOrder, size_of};
ghost use Rattle.cckd_space.specs.Blocks.{starts_by, ends_free, starts_free, first_size, grown};

use crate::editing::{
    cut_end, free_at, free_end, leave_piece, merge, push_piece, release_pieces, reserve_below,
    reserve_found, retire_pieces, settle_piece,
};
use crate::ends::{
    either, ends_open, grow_last, move_rest, remove_first, slice_ends_free, slice_first_free,
    slice_starts_by, starts_open,
};
use crate::finding::{self, first_room, first_room_below, reserved_index};
use crate::piece::Piece;
use crate::totals::{Sums, add_up, largest_offer};
use cckd_base::{Memory, Owner};
use std::alloc::Global;
use std::marker::Model;

/// Pieces side by side, and what is known of them.
#[derive(Drop)]
pub(crate) struct Block {
    pieces: Vec<Piece>,
    // No piece offers more bytes.
    most: u64,
    // Where these are false, there is no Leaving piece, and no Pending one.
    leaving: bool,
    pending: bool,
    // Where these are false, it doesn't end with a Free piece, or doesn't begin with one.
    open_end: bool,
    open_start: bool,
}

impl Model for Block {
    ghost use Rattle.std.specs.Prelude.{List};
    ghost use Rattle.cckd_space.specs.declared.piece.Piece.{Piece};
    ghost use Rattle.cckd_space.specs.Blocks.{IsBlock};
    ghost use Rattle.std.specs.Vec.{vec_capacity};

    ghost Value = { List Piece };

    ghost view = { λ b. b.pieces.items };

    ghost invariant = { λ b. IsBlock b.pieces.items (vec_capacity b.pieces) b.most b.leaving b.pending b.open_end b.open_start };
}

impl Block {
    /// An empty block.
    pub(crate) fn new(alloc: Global) -> Result<Block, Memory>
        ensures { IfOk result (λ block. block ≡ []) }
    {
        let pieces = Vec::with_capacity(alloc, 128)?;
        Ok(Block {
            pieces,
            most: 0,
            leaving: false,
            pending: false,
            open_end: false,
            open_start: false,
        })
    }

    /// Its pieces, in order.
    pub(crate) fn pieces(&self) -> &[Piece]
        ensures { result.now ≡ self.now }
    {
        self.pieces.as_slice()
    }

    /// Puts a piece behind its own.
    pub(crate) fn push(&mut self, piece: Piece)
        requires { length self.old < 128 }
        ensures { self.new ≡ self.old ++ piece ∷ [] }
    {
        push_piece(&mut self.pieces, piece);
        self.most = self.most.max(piece.offer());
        self.leaving = either(self.leaving, piece.is_leaving());
        self.pending = either(self.pending, piece.is_pending());
        self.open_end = ends_open(&self.pieces);
        self.open_start = starts_open(&self.pieces);
    }

    /// Puts one piece in place of its own.
    pub(crate) fn begin(&mut self, piece: Piece)
        ensures { self.new ≡ piece ∷ [] }
    {
        self.pieces.clear();
        self.most = 0;
        self.leaving = false;
        self.pending = false;
        self.open_end = false;
        self.open_start = false;
        self.push(piece);
    }

    /// A number of bytes that none of its pieces exceeds with what it offers.
    pub(crate) fn bound(&self) -> u64
        ensures { largest self.now ≤ result }
    {
        self.most
    }

    /// The greatest number of bytes that a piece offers, or a smaller number that is known.
    pub(crate) fn largest(&self, known: u64) -> u64
        ensures { result ≡ max (largest self.now) known }
    {
        if self.most <= known {
            return known;
        }
        largest_offer(self.pieces.as_slice()).max(known)
    }

    /// What its pieces add up to.
    pub(crate) fn add_up(&self) -> Sums
        requires used { summed used_len self.now < 2 ^ 32 }
        requires total { summed roomy_len self.now < 2 ^ 32 }
        requires number { counted is_roomy self.now < 2 ^ 32 }
        ensures used { result.used ≡ summed used_len self.now }
        ensures total { result.total ≡ summed roomy_len self.now }
        ensures largest { result.largest ≡ greatest roomy_len self.now }
        ensures number { result.number ≡ counted is_roomy self.now }
    {
        add_up(self.pieces.as_slice())
    }

    /// The first Free piece of at least 8 bytes that starts at or after a place.
    pub(crate) fn roomy_from(&self, from: u32) -> Option<Piece>
        requires { IsInOrder self.now }
        ensures { result ≡ first (is_roomy_from from) self.now }
    {
        if self.most == 0 {
            return None;
        }
        finding::roomy_from(self.pieces.as_slice(), from)
    }

    /// Where the file would end without a Free piece at the end of this block, which is the last.
    pub(crate) fn free_end(&self, size: u32) -> u32
        requires { EndsAt self.now size }
        ensures { result ≡ used_end self.now }
    {
        free_end(self.pieces.as_slice(), size)
    }

    /// Drops the free bytes at the end of this block, which is the last, that stand at or past a
    /// length.
    pub(crate) fn cut_end(&mut self, len: u32, size: u32)
        requires { EndsAt self.old size }
        ensures items { self.new ≡ cut len size self.old }
        ensures len { length self.new ≤ length self.old }
    {
        cut_end(&mut self.pieces, len, size);
        self.most = largest_offer(self.pieces.as_slice());
        self.open_end = ends_open(&self.pieces);
        self.open_start = starts_open(&self.pieces);
    }

    /// Frees the Reserved piece at `pos`, merges it with its neighbours in the block, and answers a
    /// number that what is offered there doesn't exceed.
    pub(crate) fn give_back(&mut self, pos: u32) -> u64
        requires there { IsSome (first (is_reserved_at pos) self.old) }
        requires order { IsInOrder self.old }
        requires apart { AreMerged self.old }
        requires sizes { size_of self.old < 2 ^ 32 }
        ensures items { self.new ≡ merged (replaced (is_reserved_at pos) (λ p. freed p ∷ []) self.old) }
        ensures offers { largest self.new ≤ max (largest self.old) result }
        ensures len { length self.new ≤ length self.old }
    {
        let at = reserved_index(self.pieces.as_slice(), pos);
        let offered = free_at(&mut self.pieces, at);
        self.most = self.most.max(offered);
        self.open_end = ends_open(&self.pieces);
        self.open_start = starts_open(&self.pieces);
        offered
    }

    /// The index of the first piece in which so many bytes fit.
    pub(crate) fn find(&self, need: u32) -> Option<usize>
        ensures { result ≡ position (has_room need) self.now }
    {
        if self.most < need as u64 {
            return None;
        }
        first_room(self.pieces.as_slice(), need)
    }

    pub(crate) fn has_room(&self, need: u32) -> bool
        ensures { result ≡ is_some (first (has_room need) self.now) }
    {
        self.find(need).is_some()
    }

    /// The index of the first piece in which so many bytes fit and end at or below a place.
    pub(crate) fn find_below(&self, need: u32, before: u32) -> Option<usize>
        ensures { result ≡ position (has_room_below need before) self.now }
    {
        if self.most < need as u64 {
            return None;
        }
        first_room_below(self.pieces.as_slice(), need, before)
    }

    pub(crate) fn has_room_below(&self, need: u32, before: u32) -> bool
        ensures { result ≡ is_some (first (has_room_below need before) self.now) }
    {
        self.find_below(need, before).is_some()
    }

    /// Where so many bytes first fit and end at or below a place.
    pub(crate) fn fits_below(&self, need: u32, before: u32) -> Option<u32>
        ensures { result ≡ first_fit_below need before self.now }
    {
        finding::place_below(self.pieces.as_slice(), need, before)
    }

    /// Reserves so many bytes at the first fit that ends at or below a place.
    pub(crate) fn reserve_below(&mut self, need: u32, before: u32) -> Option<u32>
        requires room { length self.old ≤ 126 }
        requires ends { EndsBelow self.old (2 ^ 32) }
        ensures place { result ≡ option_map (λ p. aligned_up p.pos) (first (has_room_below need before) self.old) }
        ensures items { self.new ≡ replaced (has_room_below need before) (reserved_in need) self.old }
        ensures len { length self.new ≤ length self.old + 2 }
    {
        let place = reserve_below(&mut self.pieces, need, before);
        self.most = largest_offer(self.pieces.as_slice());
        self.open_end = ends_open(&self.pieces);
        self.open_start = starts_open(&self.pieces);
        place
    }

    /// Reserves so many bytes at the first fit.
    pub(crate) fn reserve(&mut self, need: u32) -> u32
        requires there { IsSome (first (has_room need) self.old) }
        requires room { length self.old ≤ 126 }
        requires ends { EndsBelow self.old (2 ^ 32) }
        ensures place { Some result ≡ option_map (λ p. aligned_up p.pos) (first (has_room need) self.old) }
        ensures items { self.new ≡ replaced (has_room need) (reserved_in need) self.old }
        ensures len { length self.new ≤ length self.old + 2 }
    {
        let Some(at) = first_room(self.pieces.as_slice(), need) else {
            unreachable!();
        };
        let place = reserve_found(&mut self.pieces, at, need);
        self.most = largest_offer(self.pieces.as_slice());
        self.open_end = ends_open(&self.pieces);
        self.open_start = starts_open(&self.pieces);
        place
    }

    /// Whether it begins at or before a place.
    pub(crate) fn starts_by(&self, pos: u32) -> bool
        ensures { result ≡ starts_by pos self.now }
    {
        slice_starts_by(self.pieces.as_slice(), pos)
    }

    /// The last piece that begins at or before a place.
    pub(crate) fn last_by(&self, pos: u32) -> Option<Piece>
        requires { IsInOrder self.now }
        ensures { result ≡ last (begins_by pos) self.now }
    {
        finding::last_by(self.pieces.as_slice(), pos)
    }

    /// The Used piece at `pos`, if there is one.
    pub(crate) fn used_at(&self, pos: u32) -> Option<Piece>
        requires { IsInOrder self.now }
        ensures { result ≡ first (is_used_at pos) self.now }
    {
        finding::used_at(self.pieces.as_slice(), pos)
    }

    /// The Reserved piece at `pos`, if there is one.
    pub(crate) fn reserved_at(&self, pos: u32) -> Option<Piece>
        requires { IsInOrder self.now }
        ensures { result ≡ first (is_reserved_at pos) self.now }
    {
        finding::reserved_at(self.pieces.as_slice(), pos)
    }

    /// Turns the Reserved piece at `pos` into a Used one.
    pub(crate) fn settle(&mut self, pos: u32, len: u32, owner: Owner)
        requires there { IsSome (first (is_reserved_at pos) self.old) }
        requires order { IsInOrder self.old }
        ensures { self.new ≡ replaced (is_reserved_at pos) (λ p. settled len owner p ∷ []) self.old }
    {
        settle_piece(&mut self.pieces, pos, len, owner);
        self.open_end = ends_open(&self.pieces);
        self.open_start = starts_open(&self.pieces);
    }

    /// Turns the Used piece at `pos` into a Leaving one.
    pub(crate) fn leave(&mut self, pos: u32)
        requires there { IsSome (first (is_used_at pos) self.old) }
        requires order { IsInOrder self.old }
        ensures { self.new ≡ replaced (is_used_at pos) (λ p. left p ∷ []) self.old }
    {
        leave_piece(&mut self.pieces, pos);
        self.leaving = true;
        self.open_end = ends_open(&self.pieces);
        self.open_start = starts_open(&self.pieces);
    }

    /// Moves its pieces from an index on into another block, whose own are dropped.
    pub(crate) fn halve(&mut self, other: &mut Block, at: usize)
        ensures front { self.new ≡ take at self.old }
        ensures rest { other.new ≡ drop at self.old }
    {
        move_rest(&mut self.pieces, &mut other.pieces, at);
        self.most = largest_offer(self.pieces.as_slice());
        other.most = largest_offer(other.pieces.as_slice());
        other.leaving = self.leaving;
        other.pending = self.pending;
        self.open_end = ends_open(&self.pieces);
        self.open_start = starts_open(&self.pieces);
        other.open_end = ends_open(&other.pieces);
        other.open_start = starts_open(&other.pieces);
    }

    /// Frees every Pending piece, and merges neighbours.
    pub(crate) fn release(&mut self)
        requires apart { AreMerged self.old }
        requires sizes { size_of self.old < 2 ^ 32 }
        ensures { self.new ≡ merged (map released self.old) }
    {
        if !self.pending {
            return;
        }
        release_pieces(&mut self.pieces);
        merge(&mut self.pieces);
        self.most = largest_offer(self.pieces.as_slice());
        self.open_end = ends_open(&self.pieces);
        self.open_start = starts_open(&self.pieces);
        self.pending = false;
    }

    pub(crate) fn ends_free(&self) -> bool
        ensures { result ≡ ends_free self.now }
    {
        if !self.open_end {
            return false;
        }
        slice_ends_free(self.pieces.as_slice())
    }

    /// The size of a Free piece that it begins with.
    pub(crate) fn first_free(&self) -> Option<u32>
        ensures some { IfSome result (λ size. (starts_free self.now ≡ true) × (size ≡ first_size self.now)) }
        ensures none { IfNone result (starts_free self.now ≡ false) }
    {
        if !self.open_start {
            return None;
        }
        slice_first_free(self.pieces.as_slice())
    }

    /// Puts so many free bytes to its last piece, which is Free.
    pub(crate) fn grow_end(&mut self, more: u32)
        requires free { ends_free self.old ≡ true }
        requires sizes { size_of self.old + more < 2 ^ 32 }
        ensures { self.new ≡ grown more self.old }
    {
        grow_last(&mut self.pieces, more);
        self.open_end = ends_open(&self.pieces);
        self.open_start = starts_open(&self.pieces);
        self.most = largest_offer(self.pieces.as_slice());
    }

    /// Drops its first piece.
    pub(crate) fn drop_first(&mut self)
        requires { 0 < length self.old }
        ensures { self.new ≡ drop 1 self.old }
    {
        remove_first(&mut self.pieces);
        self.most = largest_offer(self.pieces.as_slice());
        self.open_end = ends_open(&self.pieces);
        self.open_start = starts_open(&self.pieces);
    }

    pub(crate) fn count(&self) -> usize
        ensures count { result ≡ length self.now }
        ensures few { result ≤ 128 }
    {
        self.pieces.len()
    }

    /// Puts the pieces of the next block behind its own.
    pub(crate) fn append(&mut self, next: &Block)
        requires { length self.old + length next.now ≤ 128 }
        ensures { self.new ≡ self.old ++ next.now }
    {
        let Ok(()) = self.pieces.extend_from_slice(next.pieces.as_slice()) else {
            unreachable!();
        };
        self.most = self.most.max(next.most);
        self.open_end = ends_open(&self.pieces);
        self.open_start = starts_open(&self.pieces);
        self.leaving = either(self.leaving, next.leaving);
        self.pending = either(self.pending, next.pending);
    }

    /// Turns every Leaving piece into a Pending one.
    pub(crate) fn retire(&mut self)
        ensures { self.new ≡ map retired self.old }
    {
        if !self.leaving {
            return;
        }
        retire_pieces(&mut self.pieces);
        self.leaving = false;
        self.pending = true;
        self.open_end = ends_open(&self.pieces);
        self.open_start = starts_open(&self.pieces);
    }
}
