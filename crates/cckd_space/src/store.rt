//! Blocks side by side, and a store of empty ones from which and into which they go.
ghost use Rattle.std.specs.Prelude.{ℕ, ◌≡◌, ◌+◌, ◌-◌, ◌*◌, ◌<◌, ◌≤◌, ◌^◌, ◌++◌, ◌∷◌, [], length, min, take, drop, IsSome, IfSome, IfNone, Some, None, slice_set};
ghost use Rattle.std.specs.List.{insert, remove};
ghost use Rattle.std.specs.Option.{option_map};
ghost use Rattle.std.specs.Vec.{vec_len, vec_capacity};
ghost use Rattle.cckd_space.specs.Pieces.{first, replaced, has_room, has_room_below, reserved_in, cut, aligned_up};
ghost use Rattle.cckd_space.specs.Inside.{EndsAt, EndsBelow};
ghost use Rattle.cckd_space.specs.Blocks.{AreFilled, AreFit, AreFitBut, StayFit, IsDense, IsFoundIn, block_at, whole};

use crate::block::Block;
use crate::piece::Piece;

/// Puts an empty block into the store.
pub(crate) fn drop_empty(blocks: &mut Vec<Block>, store: &mut Vec<Block>, at: usize)
    requires within { at < vec_len blocks.old }
    requires room { vec_len blocks.old + vec_len store.old ≤ min (vec_capacity blocks.old) (vec_capacity store.old) }
    ensures items { blocks.new.items ≡ remove blocks.old.items at }
    ensures len { vec_len blocks.new + 1 ≡ vec_len blocks.old }
    ensures store { vec_len store.new ≡ vec_len store.old + 1 }
    ensures room { vec_len blocks.new + vec_len store.new ≤ min (vec_capacity blocks.new) (vec_capacity store.new) }
{
    let block = blocks.remove(at);
    let Ok(()) = store.push(block) else {
        unreachable!();
    };
}

/// Puts a block into the store if it is empty.
pub(crate) fn drop_if_empty(blocks: &mut Vec<Block>, store: &mut Vec<Block>, at: usize)
    requires within { at < vec_len blocks.old }
    requires room { vec_len blocks.old + vec_len store.old ≤ min (vec_capacity blocks.old) (vec_capacity store.old) }
    ensures same { whole blocks.new.items ≡ whole blocks.old.items }
    ensures fit { (full : ℕ) → AreFitBut full 0 full at blocks.old.items → AreFit full blocks.new.items }
    ensures front { take at blocks.new.items ≡ take at blocks.old.items }
    ensures total { vec_len blocks.new + vec_len store.new ≡ vec_len blocks.old + vec_len store.old }
    ensures room { vec_len blocks.new + vec_len store.new ≤ min (vec_capacity blocks.new) (vec_capacity store.new) }
{
    if blocks[at].count() == 0 {
        drop_empty(blocks, store, at);
    }
}

/// Cuts a block in two at an index.
fn split(blocks: &mut Vec<Block>, store: &mut Vec<Block>, at: usize, half: usize)
    requires within { at < vec_len blocks.old }
    requires store { 0 < vec_len store.old }
    requires room { vec_len blocks.old + vec_len store.old ≤ min (vec_capacity blocks.old) (vec_capacity store.old) }
    ensures items { blocks.new.items ≡ insert (slice_set blocks.old.items at (take half (block_at blocks.old.items at))) (at + 1) (drop half (block_at blocks.old.items at)) }
    ensures total { vec_len blocks.new + vec_len store.new ≡ vec_len blocks.old + vec_len store.old }
    ensures room { vec_len blocks.new + vec_len store.new ≤ min (vec_capacity blocks.new) (vec_capacity store.new) }
{
    let Some(mut other) = store.pop() else {
        unreachable!();
    };
    blocks[at].halve(&mut other, half);
    let Ok(()) = blocks.insert(at + 1, other) else {
        unreachable!();
    };
}

/// Cuts a block in two if it has too many pieces.
fn cut_crowded(blocks: &mut Vec<Block>, store: &mut Vec<Block>, full: usize, at: usize)
    requires within { at < vec_len blocks.old }
    requires full { 4 ≤ full }
    requires fit { AreFitBut full 1 (full + 2) at blocks.old.items }
    requires store { 0 < vec_len store.old }
    requires room { vec_len blocks.old + vec_len store.old ≤ min (vec_capacity blocks.old) (vec_capacity store.old) }
    ensures same { whole blocks.new.items ≡ whole blocks.old.items }
    ensures fit { AreFit full blocks.new.items }
    ensures total { vec_len blocks.new + vec_len store.new ≡ vec_len blocks.old + vec_len store.old }
    ensures room { vec_len blocks.new + vec_len store.new ≤ min (vec_capacity blocks.new) (vec_capacity store.new) }
{
    if full < blocks[at].count() {
        split(blocks, store, at, full / 2);
    }
}

/// Makes two neighbours one block.
fn unite(blocks: &mut Vec<Block>, store: &mut Vec<Block>, at: usize)
    requires within { at + 1 < vec_len blocks.old }
    requires fits { length (block_at blocks.old.items at) + length (block_at blocks.old.items (at + 1)) ≤ 128 }
    requires room { vec_len blocks.old + vec_len store.old ≤ min (vec_capacity blocks.old) (vec_capacity store.old) }
    ensures items { blocks.new.items ≡ slice_set (remove blocks.old.items (at + 1)) at (block_at blocks.old.items at ++ block_at blocks.old.items (at + 1)) }
    ensures len { vec_len blocks.new + 1 ≡ vec_len blocks.old }
    ensures store { vec_len store.new ≡ vec_len store.old + 1 }
    ensures room { vec_len blocks.new + vec_len store.new ≤ min (vec_capacity blocks.new) (vec_capacity store.new) }
{
    let next = blocks.remove(at + 1);
    blocks[at].append(&next);
    let Ok(()) = store.push(next) else {
        unreachable!();
    };
}

/// Makes neighbours one block wherever they have few pieces.
fn pack(blocks: &mut Vec<Block>, store: &mut Vec<Block>, full: usize)
    requires full { full ≤ 126 }
    requires fit { AreFit full blocks.old.items }
    requires room { vec_len blocks.old + vec_len store.old ≤ min (vec_capacity blocks.old) (vec_capacity store.old) }
    ensures same { whole blocks.new.items ≡ whole blocks.old.items }
    ensures fit { AreFit full blocks.new.items }
    ensures dense { IsDense full (length blocks.new.items - 1) blocks.new.items }
    ensures total { vec_len blocks.new + vec_len store.new ≡ vec_len blocks.old + vec_len store.old }
    ensures room { vec_len blocks.new + vec_len store.new ≤ min (vec_capacity blocks.new) (vec_capacity store.new) }
{
    let mut at = 0;
    while at + 1 < blocks.len() {
        if blocks[at].count() + blocks[at + 1].count() <= full {
            unite(blocks, store, at);
        } else {
            at += 1;
        }
    }
}

/// Sees to it that the store has a block.
pub(crate) fn make_ready(blocks: &mut Vec<Block>, store: &mut Vec<Block>, full: usize)
    requires full { full ≤ 126 }
    requires fit { AreFit full blocks.old.items }
    requires enough { 2 * length (whole blocks.old.items) + (full + 1) < (full + 1) * (vec_len blocks.old + vec_len store.old) }
    requires room { vec_len blocks.old + vec_len store.old ≤ min (vec_capacity blocks.old) (vec_capacity store.old) }
    ensures same { whole blocks.new.items ≡ whole blocks.old.items }
    ensures fit { AreFit full blocks.new.items }
    ensures store { 0 < vec_len store.new }
    ensures total { vec_len blocks.new + vec_len store.new ≡ vec_len blocks.old + vec_len store.old }
    ensures room { vec_len blocks.new + vec_len store.new ≤ min (vec_capacity blocks.new) (vec_capacity store.new) }
{
    if store.len() == 0 {
        pack(blocks, store, full);
    }
}

/// Reserves so many bytes at the first fit, which is in the block at this index.
pub(crate) fn reserve_in(
    blocks: &mut Vec<Block>,
    store: &mut Vec<Block>,
    full: usize,
    at: usize,
    need: u32,
) -> u32
    requires found { IsFoundIn (has_room need) blocks.old.items at }
    requires full { (4 ≤ full) × (full ≤ 126) }
    requires fit { AreFit full blocks.old.items }
    requires store { 0 < vec_len store.old }
    requires ends { EndsBelow (whole blocks.old.items) (2 ^ 32) }
    requires room { vec_len blocks.old + vec_len store.old ≤ min (vec_capacity blocks.old) (vec_capacity store.old) }
    ensures place { Some result ≡ option_map (λ p. aligned_up p.pos) (first (has_room need) (whole blocks.old.items)) }
    ensures items { whole blocks.new.items ≡ replaced (has_room need) (reserved_in need) (whole blocks.old.items) }
    ensures fit { AreFit full blocks.new.items }
    ensures total { vec_len blocks.new + vec_len store.new ≡ vec_len blocks.old + vec_len store.old }
    ensures room { vec_len blocks.new + vec_len store.new ≤ min (vec_capacity blocks.new) (vec_capacity store.new) }
{
    let place = blocks[at].reserve(need);
    cut_crowded(blocks, store, full, at);
    place
}

/// Reserves so many bytes at the first fit that ends at or below a place, which is in the block at
/// this index.
pub(crate) fn reserve_below_in(
    blocks: &mut Vec<Block>,
    store: &mut Vec<Block>,
    full: usize,
    at: usize,
    need: u32,
    before: u32,
) -> Option<u32>
    requires found { IsFoundIn (has_room_below need before) blocks.old.items at }
    requires full { (4 ≤ full) × (full ≤ 126) }
    requires fit { AreFit full blocks.old.items }
    requires store { 0 < vec_len store.old }
    requires ends { EndsBelow (whole blocks.old.items) (2 ^ 32) }
    requires room { vec_len blocks.old + vec_len store.old ≤ min (vec_capacity blocks.old) (vec_capacity store.old) }
    ensures place { result ≡ option_map (λ p. aligned_up p.pos) (first (has_room_below need before) (whole blocks.old.items)) }
    ensures items { whole blocks.new.items ≡ replaced (has_room_below need before) (reserved_in need) (whole blocks.old.items) }
    ensures fit { AreFit full blocks.new.items }
    ensures total { vec_len blocks.new + vec_len store.new ≡ vec_len blocks.old + vec_len store.old }
    ensures room { vec_len blocks.new + vec_len store.new ≤ min (vec_capacity blocks.new) (vec_capacity store.new) }
{
    let place = blocks[at].reserve_below(need, before);
    cut_crowded(blocks, store, full, at);
    place
}

/// The index of the last block, if it may take a piece more.
fn open_last(blocks: &[Block], full: usize) -> Option<usize>
    ensures { IfSome result (λ at. (at + 1 ≡ length blocks.now) × (length (block_at blocks.now at) < full)) }
{
    let count = blocks.len();
    if count == 0 || full <= blocks[count - 1].count() {
        return None;
    }
    Some(count - 1)
}

/// Puts a piece into a block of its own behind the others.
fn push_block(blocks: &mut Vec<Block>, store: &mut Vec<Block>, piece: Piece)
    requires store { 0 < vec_len store.old }
    requires room { vec_len blocks.old + vec_len store.old ≤ min (vec_capacity blocks.old) (vec_capacity store.old) }
    ensures items { blocks.new.items ≡ blocks.old.items ++ (piece ∷ []) ∷ [] }
    ensures total { vec_len blocks.new + vec_len store.new ≡ vec_len blocks.old + vec_len store.old }
    ensures room { vec_len blocks.new + vec_len store.new ≤ min (vec_capacity blocks.new) (vec_capacity store.new) }
{
    let Some(mut block) = store.pop() else {
        unreachable!();
    };
    block.begin(piece);
    let Ok(()) = blocks.push(block) else {
        unreachable!();
    };
}

/// Puts a piece behind the others.
pub(crate) fn push_in(blocks: &mut Vec<Block>, store: &mut Vec<Block>, full: usize, piece: Piece)
    requires full { (4 ≤ full) × (full ≤ 126) }
    requires fit { AreFit full blocks.old.items }
    requires enough { 2 * length (whole blocks.old.items) + (full + 1) < (full + 1) * (vec_len blocks.old + vec_len store.old) }
    requires room { vec_len blocks.old + vec_len store.old ≤ min (vec_capacity blocks.old) (vec_capacity store.old) }
    ensures items { whole blocks.new.items ≡ whole blocks.old.items ++ piece ∷ [] }
    ensures fit { AreFit full blocks.new.items }
    ensures total { vec_len blocks.new + vec_len store.new ≡ vec_len blocks.old + vec_len store.old }
    ensures room { vec_len blocks.new + vec_len store.new ≤ min (vec_capacity blocks.new) (vec_capacity store.new) }
{
    if let Some(at) = open_last(blocks, full) {
        blocks[at].push(piece);
        return;
    }
    make_ready(blocks, store, full);
    push_block(blocks, store, piece);
}

/// Drops the free bytes at the end of the file that stand at or past a length.
pub(crate) fn cut_last(blocks: &mut Vec<Block>, store: &mut Vec<Block>, len: u32, size: u32)
    requires filled { AreFilled blocks.old.items }
    requires ends { EndsAt (whole blocks.old.items) size }
    requires room { vec_len blocks.old + vec_len store.old ≤ min (vec_capacity blocks.old) (vec_capacity store.old) }
    ensures items { whole blocks.new.items ≡ cut len size (whole blocks.old.items) }
    ensures fit { StayFit blocks.old.items blocks.new.items }
    ensures total { vec_len blocks.new + vec_len store.new ≡ vec_len blocks.old + vec_len store.old }
    ensures room { vec_len blocks.new + vec_len store.new ≤ min (vec_capacity blocks.new) (vec_capacity store.new) }
{
    let count = blocks.len();
    if count == 0 {
        return;
    }
    blocks[count - 1].cut_end(len, size);
    drop_if_empty(blocks, store, count - 1);
}
