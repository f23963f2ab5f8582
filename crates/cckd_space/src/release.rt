//! What a commit makes of blocks.
ghost use Rattle.std.specs.Prelude.{ℕ, ◌≡◌, ◌+◌, ◌<◌, ◌≤◌, ◌^◌, min, map};
ghost use Rattle.std.specs.Vec.{vec_len, vec_capacity};
ghost use Rattle.cckd_space.specs.Pieces.{retired, released, merged};
ghost use Rattle.cckd_space.specs.Inside.{size_of};
ghost use Rattle.cckd_space.specs.Blocks.{AreTidy, StayFit, whole};

use crate::block::Block;
use crate::border::merge_borders;

fn retire_each_block(blocks: &mut [Block])
    ensures { blocks.new ≡ map (map retired) blocks.old }
{
    for block in blocks.iter_mut() {
        block.retire();
    }
}

fn retire_every(blocks: &mut Vec<Block>)
    ensures items { blocks.new.items ≡ map (map retired) blocks.old.items }
    ensures len { vec_len blocks.new ≡ vec_len blocks.old }
    ensures capacity { vec_capacity blocks.new ≡ vec_capacity blocks.old }
{
    retire_each_block(blocks.as_mut_slice());
}

/// Turns every Leaving piece into a Pending one.
pub(crate) fn retire_blocks(blocks: &mut Vec<Block>)
    ensures items { whole blocks.new.items ≡ map retired (whole blocks.old.items) }
    ensures fit { StayFit blocks.old.items blocks.new.items }
    ensures len { vec_len blocks.new ≡ vec_len blocks.old }
    ensures capacity { vec_capacity blocks.new ≡ vec_capacity blocks.old }
{
    retire_every(blocks);
}

fn release_each_block(blocks: &mut [Block])
    requires sizes { size_of (whole blocks.old) < 2 ^ 32 }
    requires tidy { AreTidy blocks.old }
    ensures { blocks.new ≡ map (λ b. merged (map released b)) blocks.old }
{
    for block in blocks.iter_mut() {
        block.release();
    }
}

fn release_every(blocks: &mut Vec<Block>)
    requires sizes { size_of (whole blocks.old.items) < 2 ^ 32 }
    requires tidy { AreTidy blocks.old.items }
    ensures items { blocks.new.items ≡ map (λ b. merged (map released b)) blocks.old.items }
    ensures len { vec_len blocks.new ≡ vec_len blocks.old }
    ensures capacity { vec_capacity blocks.new ≡ vec_capacity blocks.old }
{
    release_each_block(blocks.as_mut_slice());
}

/// Frees every Pending piece.
pub(crate) fn release_blocks(blocks: &mut Vec<Block>, store: &mut Vec<Block>)
    requires sizes { size_of (whole blocks.old.items) < 2 ^ 32 }
    requires tidy { AreTidy blocks.old.items }
    requires room { vec_len blocks.old + vec_len store.old ≤ min (vec_capacity blocks.old) (vec_capacity store.old) }
    ensures items { whole blocks.new.items ≡ merged (map released (whole blocks.old.items)) }
    ensures tidy { AreTidy blocks.new.items }
    ensures fit { StayFit blocks.old.items blocks.new.items }
    ensures total { vec_len blocks.new + vec_len store.new ≡ vec_len blocks.old + vec_len store.old }
    ensures room { vec_len blocks.new + vec_len store.new ≤ min (vec_capacity blocks.new) (vec_capacity store.new) }
{
    release_every(blocks);
    merge_borders(blocks, store);
}
