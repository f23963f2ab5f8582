//! Free pieces on both sides of a border between blocks, and what frees pieces.
ghost use Rattle.std.specs.Prelude.{ℕ, ◌≡◌, ◌+◌, ◌-◌, ◌<◌, ◌≤◌, ◌^◌, ◌++◌, ◌&&◌, ◌∷◌, [], length, min, max, take, drop, IsSome, true, false};
ghost use Rattle.std.specs.Vec.{vec_len, vec_capacity};
ghost use Rattle.cckd_space.specs.Pieces.{first, replaced, is_reserved_at, freed, merged, largest};
ghost use Rattle.cckd_space.specs.Inside.{AreMerged, size_of};
ghost use Rattle.cckd_space.specs.Blocks.{AreClosed, AreFilled, AreInOrder, AreTidy, StayFit, block_at, closed_at, ends_free, first_size, knit, starts_free, whole};

use crate::block::Block;
use crate::order::block_index;
use crate::store::{drop_empty, drop_if_empty};

/// Makes the Free pieces at the two sides of a border one, and answers whether there were two.
fn close_border(blocks: &mut Vec<Block>, at: usize) -> bool
    requires within { at + 1 < vec_len blocks.old }
    requires sizes { size_of (whole blocks.old.items) < 2 ^ 32 }
    ensures same { merged (whole blocks.new.items) ≡ merged (whole blocks.old.items) }
    ensures closed { result ≡ false → (ends_free (block_at blocks.old.items at) && starts_free (block_at blocks.old.items (at + 1))) ≡ false }
    ensures kept { result ≡ false → blocks.new.items ≡ blocks.old.items }
    ensures len { vec_len blocks.new ≡ vec_len blocks.old }
    ensures capacity { vec_capacity blocks.old ≤ vec_capacity blocks.new }
    ensures items { result ≡ true → blocks.new.items ≡ closed_at at blocks.old.items }
    ensures both { result ≡ true → (ends_free (block_at blocks.old.items at) ≡ true) × (starts_free (block_at blocks.old.items (at + 1)) ≡ true) }
{
    if !blocks[at].ends_free() {
        return false;
    }
    let Some(more) = blocks[at + 1].first_free() else {
        return false;
    };
    blocks[at].grow_end(more);
    blocks[at + 1].drop_first();
    true
}

/// Closes the border behind a block, if another block follows, and answers a number that what is
/// offered there then doesn't exceed.
fn join_border(blocks: &mut Vec<Block>, store: &mut Vec<Block>, at: usize) -> u64
    requires within { at < vec_len blocks.old }
    requires filled { AreFilled blocks.old.items }
    requires sizes { size_of (whole blocks.old.items) < 2 ^ 32 }
    requires room { vec_len blocks.old + vec_len store.old ≤ min (vec_capacity blocks.old) (vec_capacity store.old) }
    ensures items { whole blocks.new.items ≡ whole (take at blocks.old.items) ++ knit (block_at blocks.old.items at) (whole (drop (at + 1) blocks.old.items)) }
    ensures front { take at blocks.new.items ≡ take at blocks.old.items }
    ensures fit { StayFit blocks.old.items blocks.new.items }
    ensures offers { largest (whole blocks.new.items) ≤ max (largest (whole blocks.old.items)) result }
    ensures total { vec_len blocks.new + vec_len store.new ≡ vec_len blocks.old + vec_len store.old }
    ensures room { vec_len blocks.new + vec_len store.new ≤ min (vec_capacity blocks.new) (vec_capacity store.new) }
{
    if blocks.len() <= at + 1 {
        return 0;
    }
    if !close_border(blocks, at) {
        return 0;
    }
    let offered = blocks[at].bound();
    drop_if_empty(blocks, store, at + 1);
    offered
}

/// Frees the Reserved piece at `pos`, and answers a number that what is offered there then doesn't
/// exceed.
pub(crate) fn give_back_in(blocks: &mut Vec<Block>, store: &mut Vec<Block>, pos: u32) -> u64
    requires there { IsSome (first (is_reserved_at pos) (whole blocks.old.items)) }
    requires filled { AreFilled blocks.old.items }
    requires order { AreInOrder (whole blocks.old.items) }
    requires apart { AreMerged (whole blocks.old.items) }
    requires sizes { size_of (whole blocks.old.items) < 2 ^ 32 }
    requires room { vec_len blocks.old + vec_len store.old ≤ min (vec_capacity blocks.old) (vec_capacity store.old) }
    ensures items { whole blocks.new.items ≡ merged (replaced (is_reserved_at pos) (λ p. freed p ∷ []) (whole blocks.old.items)) }
    ensures fit { StayFit blocks.old.items blocks.new.items }
    ensures offers { largest (whole blocks.new.items) ≤ max (largest (whole blocks.old.items)) result }
    ensures total { vec_len blocks.new + vec_len store.new ≡ vec_len blocks.old + vec_len store.old }
    ensures room { vec_len blocks.new + vec_len store.new ≤ min (vec_capacity blocks.new) (vec_capacity store.new) }
{
    let at = block_index(blocks, pos);
    let here = blocks[at].give_back(pos);
    let behind = join_border(blocks, store, at);
    if at == 0 {
        return here.max(behind);
    }
    let before = join_border(blocks, store, at - 1);
    here.max(behind).max(before)
}

/// Closes a border, all before which are closed, and drops the block behind it if it is empty then.
fn merge_border(blocks: &mut Vec<Block>, store: &mut Vec<Block>, at: usize) -> bool
    requires within { at + 1 < vec_len blocks.old }
    requires sizes { size_of (whole blocks.old.items) < 2 ^ 32 }
    requires tidy { AreTidy blocks.old.items }
    requires closed { AreClosed at blocks.old.items }
    requires room { vec_len blocks.old + vec_len store.old ≤ min (vec_capacity blocks.old) (vec_capacity store.old) }
    ensures same { merged (whole blocks.new.items) ≡ merged (whole blocks.old.items) }
    ensures tidy { AreTidy blocks.new.items }
    ensures closed { AreClosed at blocks.new.items }
    ensures more { result ≡ false → AreClosed (at + 1) blocks.new.items }
    ensures kept { result ≡ false → blocks.new.items ≡ blocks.old.items }
    ensures fewer { result ≡ true → length (whole blocks.new.items) < length (whole blocks.old.items) }
    ensures within { at < vec_len blocks.new }
    ensures len { vec_len blocks.new ≤ vec_len blocks.old }
    ensures fit { StayFit blocks.old.items blocks.new.items }
    ensures total { vec_len blocks.new + vec_len store.new ≡ vec_len blocks.old + vec_len store.old }
    ensures room { vec_len blocks.new + vec_len store.new ≤ min (vec_capacity blocks.new) (vec_capacity store.new) }
{
    if !close_border(blocks, at) {
        return false;
    }
    if blocks[at + 1].count() == 0 {
        drop_empty(blocks, store, at + 1);
    }
    true
}

/// Closes every border.
pub(crate) fn merge_borders(blocks: &mut Vec<Block>, store: &mut Vec<Block>)
    requires sizes { size_of (whole blocks.old.items) < 2 ^ 32 }
    requires tidy { AreTidy blocks.old.items }
    requires room { vec_len blocks.old + vec_len store.old ≤ min (vec_capacity blocks.old) (vec_capacity store.old) }
    ensures items { whole blocks.new.items ≡ merged (whole blocks.old.items) }
    ensures tidy { AreTidy blocks.new.items }
    ensures fit { StayFit blocks.old.items blocks.new.items }
    ensures total { vec_len blocks.new + vec_len store.new ≡ vec_len blocks.old + vec_len store.old }
    ensures room { vec_len blocks.new + vec_len store.new ≤ min (vec_capacity blocks.new) (vec_capacity store.new) }
{
    let mut at = 0;
    while at + 1 < blocks.len() {
        if !merge_border(blocks, store, at) {
            at += 1;
        }
    }
}
