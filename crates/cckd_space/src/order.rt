//! What stands where among blocks.
ghost use Rattle.std.specs.Prelude.{ℕ, ◌≡◌, ◌+◌, ◌-◌, ◌<◌, ◌≤◌, ◌^◌, [], ◌∷◌, length, max, take, drop, IsSome, IfSome, IfNone, Some, None, slice_get};
ghost use Rattle.std.specs.Vec.{vec_len, vec_capacity};
ghost use Rattle.cckd_space.specs.Pieces.{begins_by, first, last, is_reserved_at, is_used_at, is_roomy_from, is_roomy, left, replaced, settled, has_room, has_room_below, largest, summed, counted, greatest, used_len, roomy_len, used_end};
ghost use Rattle.cckd_space.specs.Inside.{EndsAt};
ghost use Rattle.cckd_space.specs.Blocks.{AreFilled, AreInOrder, IsFoundIn, StandsIn, StayFit, block_at, first_pos, whole};

use crate::block::Block;
use crate::finding::piece_at;
use crate::piece::Piece;
use crate::totals::Sums;
use cckd_base::Owner;

/// How many blocks begin at or before a place.
fn begun_blocks(blocks: &[Block], pos: u32) -> usize
    requires filled { AreFilled blocks.now }
    requires order { AreInOrder (whole blocks.now) }
    ensures within { result ≤ length blocks.now }
    ensures before { (k : ℕ) → k < result → first_pos (block_at blocks.now k) ≤ pos }
    ensures behind { (k : ℕ) → result ≤ k → k < length blocks.now → pos < first_pos (block_at blocks.now k) }
{
    blocks.partition_point(|block| block.starts_by(pos))
}

/// The index of the block in which what begins at a place stands.
pub(crate) fn block_index(blocks: &[Block], pos: u32) -> usize
    requires some { 0 < length blocks.now }
    requires filled { AreFilled blocks.now }
    requires order { AreInOrder (whole blocks.now) }
    ensures { StandsIn pos blocks.now result }
{
    begun_blocks(blocks, pos).saturating_sub(1)
}

/// The last piece that begins at or before a place.
pub(crate) fn last_in(blocks: &[Block], pos: u32) -> Option<Piece>
    requires filled { AreFilled blocks.now }
    requires order { AreInOrder (whole blocks.now) }
    ensures { result ≡ last (begins_by pos) (whole blocks.now) }
{
    let count = begun_blocks(blocks, pos);
    if count == 0 {
        return None;
    }
    blocks[count - 1].last_by(pos)
}

/// The Used piece at `pos`, if there is one.
pub(crate) fn used_in(blocks: &[Block], pos: u32) -> Option<Piece>
    requires filled { AreFilled blocks.now }
    requires order { AreInOrder (whole blocks.now) }
    ensures { result ≡ first (is_used_at pos) (whole blocks.now) }
{
    if blocks.len() == 0 {
        return None;
    }
    let at = block_index(blocks, pos);
    blocks[at].used_at(pos)
}

/// The Reserved piece at `pos`, if there is one.
pub(crate) fn reserved_in_blocks(blocks: &[Block], pos: u32) -> Option<Piece>
    requires filled { AreFilled blocks.now }
    requires order { AreInOrder (whole blocks.now) }
    ensures { result ≡ first (is_reserved_at pos) (whole blocks.now) }
{
    if blocks.len() == 0 {
        return None;
    }
    let at = block_index(blocks, pos);
    blocks[at].reserved_at(pos)
}

/// Turns the Reserved piece at `pos` into a Used one.
pub(crate) fn settle_in(blocks: &mut Vec<Block>, pos: u32, len: u32, owner: Owner)
    requires there { IsSome (first (is_reserved_at pos) (whole blocks.old.items)) }
    requires filled { AreFilled blocks.old.items }
    requires order { AreInOrder (whole blocks.old.items) }
    ensures items { whole blocks.new.items ≡ replaced (is_reserved_at pos) (λ p. settled len owner p ∷ []) (whole blocks.old.items) }
    ensures fit { StayFit blocks.old.items blocks.new.items }
    ensures len { vec_len blocks.new ≡ vec_len blocks.old }
    ensures capacity { vec_capacity blocks.new ≡ vec_capacity blocks.old }
{
    let at = block_index(blocks, pos);
    blocks[at].settle(pos, len, owner);
}

/// Turns the Used piece at `pos` into a Leaving one.
pub(crate) fn leave_in(blocks: &mut Vec<Block>, pos: u32)
    requires there { IsSome (first (is_used_at pos) (whole blocks.old.items)) }
    requires filled { AreFilled blocks.old.items }
    requires order { AreInOrder (whole blocks.old.items) }
    ensures items { whole blocks.new.items ≡ replaced (is_used_at pos) (λ p. left p ∷ []) (whole blocks.old.items) }
    ensures fit { StayFit blocks.old.items blocks.new.items }
    ensures len { vec_len blocks.new ≡ vec_len blocks.old }
    ensures capacity { vec_capacity blocks.new ≡ vec_capacity blocks.old }
{
    let at = block_index(blocks, pos);
    blocks[at].leave(pos);
}

/// The block of the first piece in which so many bytes fit.
pub(crate) fn block_with_room(blocks: &[Block], need: u32) -> Option<usize>
    ensures found { IfSome result (IsFoundIn (has_room need) blocks.now) }
    ensures none { IfNone result (first (has_room need) (whole blocks.now) ≡ None) }
{
    for (at, block) in blocks.iter().enumerate() {
        if block.has_room(need) {
            return Some(at);
        }
    }
    None
}

/// The block of the first piece in which so many bytes fit and end at or below a place.
fn block_with_room_below(blocks: &[Block], need: u32, before: u32) -> Option<usize>
    ensures found { IfSome result (IsFoundIn (has_room_below need before) blocks.now) }
    ensures none { IfNone result (first (has_room_below need before) (whole blocks.now) ≡ None) }
{
    for (at, block) in blocks.iter().enumerate() {
        if block.has_room_below(need, before) {
            return Some(at);
        }
    }
    None
}

/// The same. No block is looked at that begins behind the place.
pub(crate) fn block_below(blocks: &[Block], need: u32, before: u32) -> Option<usize>
    requires filled { AreFilled blocks.now }
    requires order { AreInOrder (whole blocks.now) }
    ensures found { IfSome result (IsFoundIn (has_room_below need before) blocks.now) }
    ensures none { IfNone result (first (has_room_below need before) (whole blocks.now) ≡ None) }
{
    let end = begun_blocks(blocks, before);
    block_with_room_below(&blocks[..end], need, before)
}

/// The first of some blocks that has a Free piece of at least 8 bytes which starts at or after a
/// place.
fn first_roomy(blocks: &[Block], from: u32) -> Option<Piece>
    requires order { AreInOrder (whole blocks.now) }
    ensures { result ≡ first (is_roomy_from from) (whole blocks.now) }
{
    for block in blocks {
        let found = block.roomy_from(from);
        if found.is_some() {
            return found;
        }
    }
    None
}

/// The first Free piece of at least 8 bytes that starts at or after a place.
pub(crate) fn roomy_in(blocks: &[Block], from: u32) -> Option<Piece>
    requires filled { AreFilled blocks.now }
    requires order { AreInOrder (whole blocks.now) }
    ensures { result ≡ first (is_roomy_from from) (whole blocks.now) }
{
    if blocks.len() == 0 {
        return None;
    }
    let start = block_index(blocks, from);
    first_roomy(&blocks[start..], from)
}

/// How many pieces there are.
pub(crate) fn count_in(blocks: &[Block]) -> usize
    requires { length (whole blocks.now) < 2 ^ 63 }
    ensures { result ≡ length (whole blocks.now) }
{
    let mut count = 0;
    for block in blocks {
        count += block.count();
    }
    count
}

/// A number of bytes that no piece exceeds with what it offers.
pub(crate) fn bound_in(blocks: &[Block]) -> u64
    ensures { largest (whole blocks.now) ≤ result }
{
    let mut most = 0;
    for block in blocks {
        most = block.bound().max(most);
    }
    most
}

/// The greatest number of bytes that a piece offers.
pub(crate) fn largest_in(blocks: &[Block]) -> u64
    ensures { result ≡ largest (whole blocks.now) }
{
    let mut most = 0;
    for block in blocks {
        most = block.largest(most);
    }
    most
}

/// What the pieces add up to.
pub(crate) fn add_up_in(blocks: &[Block]) -> Sums
    requires used { summed used_len (whole blocks.now) < 2 ^ 32 }
    requires total { summed roomy_len (whole blocks.now) < 2 ^ 32 }
    requires number { counted is_roomy (whole blocks.now) < 2 ^ 32 }
    ensures used { result.used ≡ summed used_len (whole blocks.now) }
    ensures total { result.total ≡ summed roomy_len (whole blocks.now) }
    ensures largest { result.largest ≡ greatest roomy_len (whole blocks.now) }
    ensures number { result.number ≡ counted is_roomy (whole blocks.now) }
{
    let mut sums = Sums {
        used: 0,
        total: 0,
        largest: 0,
        number: 0,
    };
    for block in blocks {
        let more = block.add_up();
        sums.used += more.used;
        sums.total += more.total;
        sums.largest = sums.largest.max(more.largest);
        sums.number += more.number;
    }
    sums
}

/// Where the file would end without a Free piece at its end.
pub(crate) fn end_in(blocks: &[Block], size: u32) -> u32
    requires filled { AreFilled blocks.now }
    requires ends { EndsAt (whole blocks.now) size }
    ensures { result ≡ used_end (whole blocks.now) }
{
    let count = blocks.len();
    if count == 0 {
        return 0;
    }
    blocks[count - 1].free_end(size)
}

/// The piece of a number, which counts from 0.
pub(crate) fn piece_in(blocks: &[Block], number: usize) -> Piece
    requires { number < length (whole blocks.now) }
    ensures { slice_get (whole blocks.now) number ≡ Some result }
{
    let mut left = number;
    for block in blocks {
        let pieces = block.pieces();
        let count = pieces.len();
        if left < count {
            return piece_at(pieces, left);
        }
        left -= count;
    }
    unreachable!()
}
