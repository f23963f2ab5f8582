//! The pieces of a file of which these spaces are used.
ghost use Rattle.std.specs.Prelude.{◌≡◌, ◌+◌, ◌*◌, ◌≤◌, ◌++◌, ◌∷◌, [], length, IfOk};
ghost use Rattle.cckd_base.specs.Survey.{StandApart};
ghost use Rattle.cckd_space.specs.Pieces.{pieces_of, free_run, used_piece};
ghost use Rattle.cckd_space.specs.Blocks.{Holds};

use crate::blocks::Blocks;
use crate::piece::used;
use cckd_base::{Extent, Memory};
use std::alloc::Global;

fn run_count(from: u32, to: u32) -> usize
    ensures { result ≡ length (free_run from to) }
{
    if from < to { 1 } else { 0 }
}

/// How many pieces a file has of which these spaces are used.
fn count_pieces(extents: &[Extent], size: u32) -> usize
    requires { StandApart 0 extents.now size }
    ensures { result ≡ length (pieces_of 0 extents.now size) }
{
    let mut count: usize = 0;
    let mut at = 0;
    for extent in extents {
        count += run_count(at, extent.pos) + 1;
        at = extent.pos + extent.size;
    }
    count + run_count(at, size)
}

/// Puts the free bytes up to a used space and the space itself behind the pieces so far.
fn push_used(pieces: &mut Blocks, from: u32, extent: &Extent)
    requires { length (free_run from extent.now.pos) + 1 ≤ pieces.old.spare }
    ensures { Holds pieces.old pieces.new (pieces.old.pieces ++ (free_run from extent.now.pos ++ used_piece extent.now ∷ [])) }
{
    pieces.push_run(from, extent.pos);
    pieces.push(used(extent));
}

/// The pieces, in blocks of so many, with room for so many pieces more.
pub(crate) fn list_pieces(
    alloc: Global,
    extents: &[Extent],
    size: u32,
    spare: u32,
    full: usize,
) -> Result<Blocks, Memory>
    requires used { StandApart 0 extents.now size }
    requires least { 4 ≤ full }
    requires most { full ≤ 126 }
    ensures pieces { IfOk result (λ held. held.pieces ≡ pieces_of 0 extents.now size) }
    ensures spare { IfOk result (λ held. held.spare ≡ spare) }
{
    let slots = count_pieces(extents, size) + spare as usize;
    let mut pieces = Blocks::new(alloc, slots, full)?;
    let mut at = 0;
    for extent in extents {
        push_used(&mut pieces, at, extent);
        at = extent.pos + extent.size;
    }
    pieces.push_run(at, size);
    Ok(pieces)
}
