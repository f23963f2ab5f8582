//! The space of a file.
ghost use Rattle.std.specs.Prelude.{◌≡◌, ◌+◌, ◌-◌, ◌*◌, ◌%◌, ◌<◌, ◌≤◌, ◌↔◌, ◌^◌, [], ◌∷◌, length, map, min, max, IfOk, OnOk, OnErr, IfErr, IsErr, IsOk, IsTrue, IsSome, IfSome, IfNone, None, Some, false};

use crate::blocks::Blocks;
use crate::making::list_pieces;
use crate::piece::{Piece, Totals, align};
use crate::pieces::Pieces;
use crate::totals::start_or_zero;
use cckd_base::{Extent, Full, Memory, Owner};
use std::alloc::Global;
use std::marker::Model;

/// Which bytes of a file are in use and which are free: its pieces in order of position, its size,
/// the size that it may grow to, and how many pieces may still be added without taking memory.
#[derive(Drop)]
pub struct Space {
    pieces: Blocks,
    size: u32,
    limit: u32,
    // No piece offers more bytes.
    most: u64,
    // Whether there is a Leaving piece, and whether there is a Pending one.
    leaving: bool,
    pending: bool,
    // So many pieces may still be added, if not more.
    least: usize,
}

impl Model for Space {
    ghost use Rattle.cckd_space.specs.Plan.{Plan};
    ghost use Rattle.cckd_space.specs.Inside.{IsKept};

    ghost Value = { Plan };

    ghost view = { λ s. record { pieces = s.pieces.pieces; size = s.size; limit = s.limit; spare = s.pieces.spare } };

    ghost invariant = { λ s. IsKept s.pieces.pieces s.size s.most s.leaving s.pending s.least s.pieces.spare };
}

impl Space {
    ghost use Rattle.cckd_base.specs.Survey.{StandApart};
    ghost use Rattle.cckd_space.specs.Pieces.{first, replaced, counted, is_leaving, is_pending, is_used_at, is_reserved_at, settled, left, retired, released, merged, freed, has_room, reserved_piece, appended, end_place, has_room_below, reserved_in, cut, trimmed, used_end, largest};
    ghost use Rattle.cckd_space.specs.Plan.{IsSound, IsClear, CoversBytes, IsNeed, IsPlanOf, KeepsAllButSpare, Becomes, first_fit, first_fit_below, place_of, with_reserved, size_with, room, numbers, totals_of, free_from};

    /// The space of a file of `size` bytes, of which these are used, and which may grow to `limit`
    /// bytes. So many pieces may be added without taking memory.
    pub fn from_used(
        alloc: Global,
        used: &[Extent],
        size: u32,
        limit: u32,
        spare: u32,
    ) -> Result<Space, Memory>
        requires used { StandApart 0 used.now size }
        ensures plan { IfOk result (IsPlanOf used.now size limit spare) }
        ensures sound { IfOk result IsSound }
    {
        Space::in_blocks(alloc, used, size, limit, spare, 126)
    }

    /// The same, with at most so many pieces in a block.
    pub(crate) fn in_blocks(
        alloc: Global,
        used: &[Extent],
        size: u32,
        limit: u32,
        spare: u32,
        full: usize,
    ) -> Result<Space, Memory>
        requires used { StandApart 0 used.now size }
        requires least { 4 ≤ full }
        requires most { full ≤ 126 }
        ensures plan { IfOk result (IsPlanOf used.now size limit spare) }
        ensures sound { IfOk result IsSound }
    {
        let pieces = list_pieces(alloc, used, size, spare, full)?;
        Ok(Space {
            pieces,
            size,
            limit,
            most: size as u64,
            leaving: false,
            pending: false,
            least: 0,
        })
    }

    /// Makes room for at least so many pieces more.
    pub fn grow(&mut self, more: u32) -> Result<(), Memory>
        ensures kept { KeepsAllButSpare self.old self.new }
        ensures enough { OnOk result (more ≤ self.new.spare) }
        ensures ready { more ≤ self.old.spare → IsOk result }
        ensures same { OnErr result (self.new ≡ self.old) }
        ensures sound { IsSound self.new }
    {
        self.pieces.grow(more)
    }

    /// Whether so many pieces may still be added without taking memory. The pieces are counted where what is known since
    /// they last were doesn't say it.
    pub fn has_spare(&mut self, wanted: usize) -> bool
        ensures answer { IsTrue result ↔ (wanted ≤ self.old.spare) }
        ensures same { self.new ≡ self.old }
    {
        if self.least < wanted {
            self.least = self.pieces.spare();
        }
        wanted <= self.least
    }

    /// Reserves `need` bytes at the first fit, or else at the end of the file.
    pub fn place(&mut self, need: u32) -> Result<u32, Full>
        requires need { IsNeed need }
        requires spare { 2 ≤ self.old.spare }
        ensures placed { IfOk result (λ pos. pos ≡ place_of need self.old.pieces) }
        ensures reserved { OnOk result (Becomes self.old self.new (with_reserved need self.old.pieces) (size_with need self.old)) }

        // It is full exactly where neither a free piece nor the end of the file has room.
        ensures full { IsErr result ↔ ((largest self.old.pieces < need) × (room self.old < need)) }
        ensures numbers { IfErr result (λ full. full ≡ numbers need self.old) }
        ensures same { OnErr result (self.new ≡ self.old) }

        // What is reserved is found at its place, and takes two pieces at most.
        ensures there { IfOk result (λ pos. first (is_reserved_at pos) self.new.pieces ≡ Some (reserved_piece pos need)) }
        ensures spent { self.old.spare ≤ self.new.spare + 2 }
        ensures sound { IsSound self.new }

        // Nobody needs its bytes, and they end at or below the limit, or inside the old file.
        ensures clear { IfOk result (λ pos. IsClear self.old.pieces pos need) }
        ensures within { IfOk result (λ pos. pos + need ≤ max self.old.limit self.old.size) }
    {
        match self.place_first(need) {
            Some(pos) => Ok(pos),
            None => self.place_at_end(need),
        }
    }

    /// Reserves `need` bytes at the first fit, if there is one.
    fn place_first(&mut self, need: u32) -> Option<u32>
        requires need { 8 ≤ need }
        requires spare { 2 ≤ self.old.spare }
        ensures placed { result ≡ first_fit need self.old.pieces }
        ensures reserved { Becomes self.old self.new (replaced (has_room need) (reserved_in need) self.old.pieces) self.old.size }
        ensures none { IfNone result (self.new ≡ self.old) }
        ensures there { IfSome result (λ pos. first (is_reserved_at pos) self.new.pieces ≡ Some (reserved_piece pos need)) }
        ensures spent { self.old.spare ≤ self.new.spare + 2 }
        ensures was { IsSound self.old }
        ensures sound { IsSound self.new }
    {
        if self.most < need as u64 {
            return None;
        }
        self.least = self.least.saturating_sub(2);
        self.pieces.reserve(need)
    }

    /// Reserves bytes at the end of the file, where no free piece offers as many.
    fn place_at_end(&mut self, need: u32) -> Result<u32, Full>
        requires need { 0 < need }
        requires none { largest self.old.pieces < need }
        requires spare { 2 ≤ self.old.spare }
        ensures placed { IfOk result (λ pos. pos ≡ end_place self.old.pieces) }
        ensures reserved { OnOk result (Becomes self.old self.new (appended need self.old.pieces) (end_place self.old.pieces + need)) }
        ensures full { IsErr result ↔ (room self.old < need) }
        ensures numbers { IfErr result (λ full. full ≡ numbers need self.old) }
        ensures same { OnErr result (self.new ≡ self.old) }
        ensures there { IfOk result (λ pos. first (is_reserved_at pos) self.new.pieces ≡ Some (reserved_piece pos need)) }
        ensures spent { self.old.spare ≤ self.new.spare + 2 }
        ensures sound { IsSound self.new }
        ensures within { IfOk result (λ pos. pos + need ≤ self.old.limit) }
    {
        let end = self.pieces.free_end(self.size);
        let place = align(end);
        if place + need as u64 <= self.limit as u64 {
            self.least = self.least.saturating_sub(2);
            self.pieces.reserve_end(end, self.size, need);
            self.most = need as u64 - 1;
            self.size = place as u32 + need;
            return Ok(place as u32);
        }
        self.most = self.pieces.largest();
        let largest = self.most as u32;
        let room = (self.limit as u64).saturating_sub(place) as u32;
        Err(Full {
            need,
            largest,
            room,
        })
    }

    /// Reserves `need` bytes at the first fit that ends at or below `before`.
    pub fn place_below(&mut self, need: u32, before: u32) -> Option<u32>
        requires need { IsNeed need }
        requires spare { 2 ≤ self.old.spare }
        ensures placed { result ≡ first_fit_below need before self.old.pieces }
        ensures reserved { Becomes self.old self.new (replaced (has_room_below need before) (reserved_in need) self.old.pieces) self.old.size }
        ensures there { IfSome result (λ pos. first (is_reserved_at pos) self.new.pieces ≡ Some (reserved_piece pos need)) }
        ensures spent { self.old.spare ≤ self.new.spare + 2 }
        ensures sound { IsSound self.new }
        ensures clear { IfSome result (λ pos. IsClear self.old.pieces pos need) }
        ensures within { IfSome result (λ pos. pos + need ≤ min before self.old.size) }
    {
        if self.most < need as u64 {
            return None;
        }
        self.least = self.least.saturating_sub(2);
        self.pieces.reserve_below(need, before)
    }

    /// Where so many bytes would go that have to end at or below `before`.
    pub fn fits_below(&self, need: u32, before: u32) -> Option<u32>
        requires { IsNeed need }
        ensures { result ≡ first_fit_below need before self.now.pieces }
    {
        if self.most < need as u64 {
            return None;
        }
        self.pieces.fits_below(need, before)
    }

    /// The pieces, in order of position.
    pub fn pieces(&self) -> Pieces<'_>
        ensures listed { result ≡ self.now.pieces }
        ensures sound { IsSound self.now }
        ensures covers { CoversBytes self.now }
    {
        self.pieces.view()
    }

    /// The Used piece at `pos`, if there is one.
    pub fn used_at(&self, pos: u32) -> Option<Piece>
        ensures { result ≡ first (is_used_at pos) self.now.pieces }
    {
        self.pieces.used_at(pos)
    }

    /// The Reserved piece at `pos`, if there is one.
    pub fn reserved_at(&self, pos: u32) -> Option<Piece>
        ensures { result ≡ first (is_reserved_at pos) self.now.pieces }
    {
        self.pieces.reserved_at(pos)
    }

    /// Whether there is a Leaving piece.
    pub fn has_leaving(&self) -> bool
        ensures { IsTrue result ↔ (0 < counted is_leaving self.now.pieces) }
    {
        self.leaving
    }

    /// Whether there is a Pending piece.
    pub fn has_pending(&self) -> bool
        ensures { IsTrue result ↔ (0 < counted is_pending self.now.pieces) }
    {
        self.pending
    }

    /// Turns the Reserved piece at `pos` into a Used one of this owner, of which `len` bytes are in
    /// use.
    pub fn settle(&mut self, pos: u32, len: u32, owner: Owner)
        requires reserved { IfSome (first (is_reserved_at pos) self.old.pieces) (λ p. (1 ≤ len) × (len ≤ p.size)) }
        requires there { IsSome (first (is_reserved_at pos) self.old.pieces) }
        ensures becomes { Becomes self.old self.new (replaced (is_reserved_at pos) (λ p. settled len owner p ∷ []) self.old.pieces) self.old.size }
        ensures there { IfSome (first (is_reserved_at pos) self.old.pieces) (λ p. first (is_used_at pos) self.new.pieces ≡ Some (settled len owner p)) }
        ensures spent { self.new.spare ≡ self.old.spare }
        ensures sound { IsSound self.new }
    {
        self.pieces.settle(pos, len, owner);
    }

    /// Turns the Used piece at `pos` into a Leaving one.
    pub fn leave(&mut self, pos: u32)
        requires there { IsSome (first (is_used_at pos) self.old.pieces) }
        ensures becomes { Becomes self.old self.new (replaced (is_used_at pos) (λ p. left p ∷ []) self.old.pieces) self.old.size }
        ensures spent { self.new.spare ≡ self.old.spare }
        ensures sound { IsSound self.new }
    {
        self.pieces.leave(pos);
        self.leaving = true;
    }

    /// Turns every Leaving piece into a Pending one.
    pub fn retire_all(&mut self)
        ensures becomes { Becomes self.old self.new (map retired self.old.pieces) self.old.size }
        ensures spent { self.new.spare ≡ self.old.spare }
        ensures sound { IsSound self.new }
    {
        if !self.leaving {
            return;
        }
        self.pieces.retire();
        self.leaving = false;
        self.pending = true;
    }

    /// Frees the Reserved piece at `pos`.
    pub fn give_back(&mut self, pos: u32)
        requires there { IsSome (first (is_reserved_at pos) self.old.pieces) }
        ensures becomes { Becomes self.old self.new (merged (replaced (is_reserved_at pos) (λ p. freed p ∷ []) self.old.pieces)) self.old.size }
        ensures spent { self.old.spare ≤ self.new.spare }
        ensures sound { IsSound self.new }
    {
        let offered = self.pieces.give_back(pos);
        self.most = self.most.max(offered);
    }

    /// Frees every Pending piece.
    pub fn release_all(&mut self)
        ensures becomes { Becomes self.old self.new (merged (map released self.old.pieces)) self.old.size }
        ensures spent { self.old.spare ≤ self.new.spare }
        ensures sound { IsSound self.new }
    {
        if !self.pending {
            return;
        }
        self.most = self.pieces.release();
        self.pending = false;
    }

    /// Drops a Free piece at the end, and answers the size of the file then.
    pub fn trim(&mut self) -> u32
        ensures size { result ≡ used_end self.old.pieces }
        ensures dropped { Becomes self.old self.new (trimmed self.old.pieces) (used_end self.old.pieces) }
        ensures spent { self.old.spare ≤ self.new.spare }
        ensures sound { IsSound self.new }
    {
        let end = self.pieces.free_end(self.size);
        self.pieces.cut_end(0, self.size);
        self.size = end;
        end
    }

    /// Drops the free bytes at the end that stand at or past `len`.
    pub fn cut_back(&mut self, len: u32)
        ensures becomes { Becomes self.old self.new (cut len self.old.size self.old.pieces) (max (used_end self.old.pieces) (min len self.old.size)) }
        ensures spent { self.old.spare ≤ self.new.spare }
        ensures sound { IsSound self.new }
    {
        let end = self.pieces.free_end(self.size);
        self.pieces.cut_end(len, self.size);
        self.size = end.max(len.min(self.size));
    }

    /// The totals of the file.
    pub fn totals(&self) -> Totals
        ensures totals { result ≡ totals_of self.now }
        ensures whole { result.used + result.free_total + result.free_imbed ≡ result.size }
    {
        let size = self.size;
        let sums = self.pieces.add_up();
        Totals {
            size,
            used: sums.used,
            free: start_or_zero(self.pieces.roomy_from(0)),
            free_total: sums.total,
            free_largest: sums.largest,
            free_number: sums.number,
            free_imbed: size - sums.used - sums.total,
        }
    }

    /// The first free piece of at least 8 bytes that starts at or after `from`: where it starts, and
    /// its size.
    pub fn next_free(&self, from: u32) -> Option<(u32, u32)>
        ensures { result ≡ free_from from self.now.pieces }
    {
        let Some(piece) = self.pieces.roomy_from(from) else {
            return None;
        };
        Some((piece.pos, piece.size))
    }
}
