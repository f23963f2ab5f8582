//! The pieces of a file in blocks.
ghost use Rattle.std.specs.Prelude.{ℕ, ◌≡◌, ◌+◌, ◌-◌, ◌*◌, ◌<◌, ◌≤◌, ◌^◌, ◌++◌, ◌∷◌, [], length, map, max, min, IfOk, OnOk, OnErr, IsOk, IsSome, IfSome, Some, None};
ghost use Rattle.std.specs.Option.{option_map};
ghost use Rattle.std.specs.Vec.{vec_len, vec_capacity};
ghost use Rattle.cckd_space.specs.Pieces.{first, is_reserved_at, is_used_at, is_roomy_from, is_roomy, left, replaced, settled, freed, cut, appended, end_place, used_end, free_run, has_room, has_room_below, reserved_in, retired, released, merged, largest, aligned_up, summed, counted, greatest, used_len, roomy_len};
ghost use Rattle.cckd_space.specs.Plan.{first_fit, first_fit_below};
ghost use Rattle.cckd_space.specs.Inside.{EndsAt, EndsBelow, AreMerged, size_of};

use crate::block::Block;
use crate::border::give_back_in;
use crate::order::{
    add_up_in, block_below, block_with_room, bound_in, count_in, end_in, largest_in, leave_in,
    reserved_in_blocks, roomy_in, settle_in, used_in,
};
use crate::piece::{Piece, align, free, reserved};
use crate::pieces::Pieces;
use crate::release::{release_blocks, retire_blocks};
use crate::store::{cut_last, make_ready, push_in, reserve_below_in, reserve_in};
use crate::totals::Sums;
use cckd_base::{Memory, Owner};
use std::alloc::Global;
use std::marker::Model;

/// The pieces of a file in order of position, and how many may still be added without taking memory.
#[derive(Drop)]
pub(crate) struct Blocks {
    blocks: Vec<Block>,
    // Empty blocks.
    store: Vec<Block>,
    // How many pieces there may be.
    slots: usize,
    // How many pieces may stand in a block. While one is placed there may be two more.
    full: usize,
}

impl Model for Blocks {
    ghost use Rattle.cckd_space.specs.Blocks.{Held, AreHeld, whole};
    ghost use Rattle.std.specs.Vec.{vec_len, vec_capacity};
    ghost use Rattle.std.specs.Prelude.{◌-◌, length};

    ghost Value = { Held };

    ghost view = { λ b. record { pieces = whole b.blocks.items; spare = b.slots - length (whole b.blocks.items) } };

    ghost invariant = { λ b. AreHeld b.blocks.items b.slots b.full (vec_len b.blocks) (vec_len b.store) (vec_capacity b.blocks) (vec_capacity b.store) };
}

/// How many blocks are enough for so many pieces.
fn blocks_for(slots: usize, full: usize) -> usize
    requires slots { slots < 2 ^ 61 }
    requires full { full ≤ 126 }
    ensures enough { 2 * slots + (full + 1) < (full + 1) * result }
    ensures fits { result < 2 ^ 63 }
{
    2 * slots / (full + 1) + 2
}

/// Puts so many empty blocks more into a store.
fn fill(alloc: Global, store: &mut Vec<Block>, more: usize) -> Result<(), Memory>
    requires room { vec_len store.old + more ≤ vec_capacity store.old }
    ensures all { OnOk result (vec_len store.new ≡ vec_len store.old + more) }
    ensures least { vec_len store.old ≤ vec_len store.new }
    ensures most { vec_len store.new ≤ vec_len store.old + more }
    ensures capacity { vec_capacity store.old ≤ vec_capacity store.new }
{
    for _ in 0..more {
        let block = Block::new(alloc)?;
        let Ok(()) = store.push(block) else {
            unreachable!();
        };
    }
    Ok(())
}

/// Makes more empty blocks, until there are at least so many blocks.
fn add_blocks(blocks: &mut Vec<Block>, store: &mut Vec<Block>, wanted: usize) -> Result<(), Memory>
    requires room { vec_len blocks.old + vec_len store.old ≤ min (vec_capacity blocks.old) (vec_capacity store.old) }
    ensures items { blocks.new.items ≡ blocks.old.items }
    ensures len { vec_len blocks.new ≡ vec_len blocks.old }
    ensures enough { OnOk result (wanted ≤ vec_len blocks.new + vec_len store.new) }
    ensures least { vec_len store.old ≤ vec_len store.new }
    ensures room { vec_len blocks.new + vec_len store.new ≤ min (vec_capacity blocks.new) (vec_capacity store.new) }
{
    if wanted <= blocks.len() + store.len() {
        return Ok(());
    }
    blocks.reserve(wanted - blocks.len())?;
    store.reserve(wanted - store.len())?;
    let alloc = *store.allocator();
    let more = wanted - blocks.len() - store.len();
    fill(alloc, store, more)
}

impl Blocks {
    ghost use Rattle.cckd_space.specs.Blocks.{Held, Holds, AreInOrder};

    /// Blocks of so many pieces with room for so many pieces, of which there are none.
    pub(crate) fn new(alloc: Global, slots: usize, full: usize) -> Result<Blocks, Memory>
        requires slots { slots < 2 ^ 61 }
        requires least { 4 ≤ full }
        requires most { full ≤ 126 }
        ensures empty { IfOk result (λ held. held ≡ record { pieces = []; spare = slots }) }
    {
        let wanted = blocks_for(slots, full);
        let blocks = Vec::with_capacity(alloc, wanted)?;
        let mut store = Vec::with_capacity(alloc, wanted)?;
        fill(alloc, &mut store, wanted)?;
        Ok(Blocks {
            blocks,
            store,
            slots,
            full,
        })
    }

    /// The pieces.
    pub(crate) fn view(&self) -> Pieces<'_>
        requires { AreInOrder self.now.pieces }
        ensures { result ≡ self.now.pieces }
    {
        Pieces::new(self.blocks.as_slice())
    }

    /// How many pieces more there is room for. The pieces are counted.
    pub(crate) fn spare(&self) -> usize
        ensures { result ≡ self.now.spare }
    {
        self.slots - count_in(self.blocks.as_slice())
    }

    /// Makes room for at least so many pieces more.
    pub(crate) fn grow(&mut self, more: u32) -> Result<(), Memory>
        requires few { length self.old.pieces < 2 ^ 32 }
        ensures same { self.new.pieces ≡ self.old.pieces }
        ensures kept { self.old.spare ≤ self.new.spare }
        ensures enough { OnOk result (more ≤ self.new.spare) }
        ensures ready { more ≤ self.old.spare → IsOk result }
        ensures err { OnErr result (self.new ≡ self.old) }
    {
        let slots = count_in(self.blocks.as_slice()) + more as usize;
        if slots <= self.slots {
            return Ok(());
        }
        let wanted = blocks_for(slots, self.full);
        add_blocks(&mut self.blocks, &mut self.store, wanted)?;
        self.slots = slots;
        Ok(())
    }

    /// Puts a piece behind the others.
    pub(crate) fn push(&mut self, piece: Piece)
        requires { 1 ≤ self.old.spare }
        ensures { Holds self.old self.new (self.old.pieces ++ piece ∷ []) }
    {
        push_in(&mut self.blocks, &mut self.store, self.full, piece);
    }

    /// Puts the free bytes between two places behind the pieces, if there are any.
    pub(crate) fn push_run(&mut self, from: u32, to: u32)
        requires { length (free_run from to) ≤ self.old.spare }
        ensures { Holds self.old self.new (self.old.pieces ++ free_run from to) }
    {
        if from < to {
            self.push(free(from, to - from));
        }
    }

    /// Reserves so many bytes at the first fit.
    pub(crate) fn reserve(&mut self, need: u32) -> Option<u32>
        requires spare { 2 ≤ self.old.spare }
        requires ends { EndsBelow self.old.pieces (2 ^ 32) }
        ensures place { result ≡ first_fit need self.old.pieces }
        ensures holds { Holds self.old self.new (replaced (has_room need) (reserved_in need) self.old.pieces) }
    {
        make_ready(&mut self.blocks, &mut self.store, self.full);
        let Some(at) = block_with_room(self.blocks.as_slice(), need) else {
            return None;
        };
        Some(reserve_in(&mut self.blocks, &mut self.store, self.full, at, need))
    }

    /// Reserves so many bytes at the first fit that ends at or below a place.
    pub(crate) fn reserve_below(&mut self, need: u32, before: u32) -> Option<u32>
        requires spare { 2 ≤ self.old.spare }
        requires order { AreInOrder self.old.pieces }
        requires ends { EndsBelow self.old.pieces (2 ^ 32) }
        ensures place { result ≡ first_fit_below need before self.old.pieces }
        ensures holds { Holds self.old self.new (replaced (has_room_below need before) (reserved_in need) self.old.pieces) }
    {
        make_ready(&mut self.blocks, &mut self.store, self.full);
        let Some(at) = block_below(self.blocks.as_slice(), need, before) else {
            return None;
        };
        reserve_below_in(
            &mut self.blocks,
            &mut self.store,
            self.full,
            at,
            need,
            before,
        )
    }

    /// Where so many bytes first fit and end at or below a place.
    pub(crate) fn fits_below(&self, need: u32, before: u32) -> Option<u32>
        requires order { AreInOrder self.now.pieces }
        ensures { result ≡ first_fit_below need before self.now.pieces }
    {
        let Some(at) = block_below(self.blocks.as_slice(), need, before) else {
            return None;
        };
        self.blocks[at].fits_below(need, before)
    }

    /// The Used piece at `pos`, if there is one.
    pub(crate) fn used_at(&self, pos: u32) -> Option<Piece>
        requires { AreInOrder self.now.pieces }
        ensures { result ≡ first (is_used_at pos) self.now.pieces }
    {
        used_in(self.blocks.as_slice(), pos)
    }

    /// The Reserved piece at `pos`, if there is one.
    pub(crate) fn reserved_at(&self, pos: u32) -> Option<Piece>
        requires { AreInOrder self.now.pieces }
        ensures { result ≡ first (is_reserved_at pos) self.now.pieces }
    {
        reserved_in_blocks(self.blocks.as_slice(), pos)
    }

    /// Turns the Reserved piece at `pos` into a Used one.
    pub(crate) fn settle(&mut self, pos: u32, len: u32, owner: Owner)
        requires there { IsSome (first (is_reserved_at pos) self.old.pieces) }
        requires order { AreInOrder self.old.pieces }
        ensures { Holds self.old self.new (replaced (is_reserved_at pos) (λ p. settled len owner p ∷ []) self.old.pieces) }
    {
        settle_in(&mut self.blocks, pos, len, owner);
    }

    /// Turns the Used piece at `pos` into a Leaving one.
    pub(crate) fn leave(&mut self, pos: u32)
        requires there { IsSome (first (is_used_at pos) self.old.pieces) }
        requires order { AreInOrder self.old.pieces }
        ensures { Holds self.old self.new (replaced (is_used_at pos) (λ p. left p ∷ []) self.old.pieces) }
    {
        leave_in(&mut self.blocks, pos);
    }

    /// Turns every Leaving piece into a Pending one.
    pub(crate) fn retire(&mut self)
        ensures { Holds self.old self.new (map retired self.old.pieces) }
    {
        retire_blocks(&mut self.blocks);
    }

    /// Frees every Pending piece, and answers a number that no piece exceeds with what it offers
    /// then.
    pub(crate) fn release(&mut self) -> u64
        requires apart { AreMerged self.old.pieces }
        requires sizes { size_of self.old.pieces < 2 ^ 32 }
        ensures holds { Holds self.old self.new (merged (map released self.old.pieces)) }
        ensures offers { largest self.new.pieces ≤ result }
    {
        release_blocks(&mut self.blocks, &mut self.store);
        bound_in(self.blocks.as_slice())
    }

    /// Frees the Reserved piece at `pos`, and answers a number that what is offered there then
    /// doesn't exceed.
    pub(crate) fn give_back(&mut self, pos: u32) -> u64
        requires there { IsSome (first (is_reserved_at pos) self.old.pieces) }
        requires order { AreInOrder self.old.pieces }
        requires apart { AreMerged self.old.pieces }
        requires sizes { size_of self.old.pieces < 2 ^ 32 }
        ensures holds { Holds self.old self.new (merged (replaced (is_reserved_at pos) (λ p. freed p ∷ []) self.old.pieces)) }
        ensures offers { largest self.new.pieces ≤ max (largest self.old.pieces) result }
    {
        give_back_in(&mut self.blocks, &mut self.store, pos)
    }

    /// Where the file would end without a Free piece at its end.
    pub(crate) fn free_end(&self, size: u32) -> u32
        requires { EndsAt self.now.pieces size }
        ensures { result ≡ used_end self.now.pieces }
    {
        end_in(self.blocks.as_slice(), size)
    }

    /// Drops the free bytes at the end that stand at or past a length.
    pub(crate) fn cut_end(&mut self, len: u32, size: u32)
        requires { EndsAt self.old.pieces size }
        ensures { Holds self.old self.new (cut len size self.old.pieces) }
    {
        cut_last(&mut self.blocks, &mut self.store, len, size);
    }

    /// Reserves so many bytes at the end of the file, whose used part ends at `end`.
    pub(crate) fn reserve_end(&mut self, end: u32, size: u32, need: u32)
        requires ends { EndsAt self.old.pieces size }
        requires end { end ≡ used_end self.old.pieces }
        requires spare { 2 ≤ self.old.spare }
        requires fits { end_place self.old.pieces + need < 2 ^ 32 }
        ensures { Holds self.old self.new (appended need self.old.pieces) }
    {
        self.cut_end(0, size);
        let place = align(end) as u32;
        self.push_run(end, place);
        self.push(reserved(place, need));
    }

    /// The greatest number of bytes that a piece offers.
    pub(crate) fn largest(&self) -> u64
        ensures { result ≡ largest self.now.pieces }
    {
        largest_in(self.blocks.as_slice())
    }

    /// What the pieces add up to.
    pub(crate) fn add_up(&self) -> Sums
        requires used { summed used_len self.now.pieces < 2 ^ 32 }
        requires total { summed roomy_len self.now.pieces < 2 ^ 32 }
        requires number { counted is_roomy self.now.pieces < 2 ^ 32 }
        ensures used { result.used ≡ summed used_len self.now.pieces }
        ensures total { result.total ≡ summed roomy_len self.now.pieces }
        ensures largest { result.largest ≡ greatest roomy_len self.now.pieces }
        ensures number { result.number ≡ counted is_roomy self.now.pieces }
    {
        add_up_in(self.blocks.as_slice())
    }

    /// The first Free piece of at least 8 bytes that starts at or after a place.
    pub(crate) fn roomy_from(&self, from: u32) -> Option<Piece>
        requires { AreInOrder self.now.pieces }
        ensures { result ≡ first (is_roomy_from from) self.now.pieces }
    {
        roomy_in(self.blocks.as_slice(), from)
    }
}
