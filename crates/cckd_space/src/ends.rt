//! The two ends of a list of pieces.
ghost use Rattle.std.specs.Prelude.{◌≡◌, ◌+◌, ◌<◌, ◌≤◌, ◌^◌, ◌||◌, length, take, drop, IfSome, IfNone, true, false};
ghost use Rattle.std.specs.Vec.{vec_len, vec_capacity};
ghost use Rattle.cckd_space.specs.Inside.{size_of};
ghost use Rattle.cckd_space.specs.Blocks.{starts_by, ends_free, starts_free, first_size, grown};

use crate::piece::{Piece, free};

pub(crate) fn slice_ends_free(pieces: &[Piece]) -> bool
    ensures { result ≡ ends_free pieces.now }
{
    let count = pieces.len();
    if count == 0 {
        return false;
    }
    pieces[count - 1].is_free()
}

fn slice_starts_free(pieces: &[Piece]) -> bool
    ensures { result ≡ starts_free pieces.now }
{
    if pieces.len() == 0 {
        return false;
    }
    pieces[0].is_free()
}

pub(crate) fn ends_open(pieces: &Vec<Piece>) -> bool
    ensures { result ≡ ends_free pieces.now.items }
{
    slice_ends_free(pieces.as_slice())
}

pub(crate) fn starts_open(pieces: &Vec<Piece>) -> bool
    ensures { result ≡ starts_free pieces.now.items }
{
    slice_starts_free(pieces.as_slice())
}

pub(crate) fn slice_starts_by(pieces: &[Piece], pos: u32) -> bool
    ensures { result ≡ starts_by pos pieces.now }
{
    if pieces.len() == 0 {
        return true;
    }
    pieces[0].pos <= pos
}

pub(crate) fn slice_first_free(pieces: &[Piece]) -> Option<u32>
    ensures some { IfSome result (λ size. (starts_free pieces.now ≡ true) × (size ≡ first_size pieces.now)) }
    ensures none { IfNone result (starts_free pieces.now ≡ false) }
{
    if pieces.len() == 0 {
        return None;
    }
    let piece = pieces[0];
    if piece.is_free() {
        Some(piece.size)
    } else {
        None
    }
}

pub(crate) fn grow_last(pieces: &mut Vec<Piece>, more: u32)
    requires free { ends_free pieces.old.items ≡ true }
    requires sizes { size_of pieces.old.items + more < 2 ^ 32 }
    ensures items { pieces.new.items ≡ grown more pieces.old.items }
    ensures len { vec_len pieces.new ≡ vec_len pieces.old }
    ensures capacity { vec_capacity pieces.old ≤ vec_capacity pieces.new }
{
    let last = pieces.len() - 1;
    let piece = pieces[last];
    pieces[last] = free(piece.pos, piece.size + more);
}

pub(crate) fn remove_first(pieces: &mut Vec<Piece>)
    requires { 0 < vec_len pieces.old }
    ensures items { pieces.new.items ≡ drop 1 pieces.old.items }
    ensures capacity { vec_capacity pieces.old ≤ vec_capacity pieces.new }
{
    let _first = pieces.remove(0);
}

pub(crate) fn either(a: bool, b: bool) -> bool
    ensures { result ≡ (a || b) }
{
    a || b
}

/// Moves the pieces from an index on into another list, whose own are dropped.
pub(crate) fn move_rest(pieces: &mut Vec<Piece>, other: &mut Vec<Piece>, at: usize)
    requires room { vec_len pieces.old ≤ vec_capacity other.old }
    ensures front { pieces.new.items ≡ take at pieces.old.items }
    ensures rest { other.new.items ≡ drop at pieces.old.items }
    ensures len { vec_len pieces.new ≤ vec_len pieces.old }
    ensures fewer { vec_len other.new ≤ vec_len pieces.old }
    ensures capacity { vec_capacity pieces.old ≤ vec_capacity pieces.new }
    ensures room { vec_capacity other.old ≤ vec_capacity other.new }
{
    let from = at.min(pieces.len());
    other.clear();
    let Ok(()) = other.extend_from_slice(&pieces[from..]) else {
        unreachable!();
    };
    pieces.truncate(at);
}
