//! The changes of a list of pieces.
ghost use Rattle.std.specs.Prelude.{◌≡◌, ◌+◌, ◌-◌, ◌<◌, ◌≤◌, ◌^◌, ◌++◌, ◌∷◌, [], length, take, drop, map, min, max, IsTrue, IsSome, Some, position, slice_index_or};
ghost use Rattle.std.specs.Vec.{vec_len, vec_capacity};
ghost use Rattle.cckd_space.specs.Pieces.{
  piece_end,
  has_room,
  has_room_below,
  free_run,
  reserved_in,
  trimmed,
  used_end,
  retired,
  released,
  merged,
  joined,
  appended,
  end_place,
  cut,
  aligned_up,
  replaced,
  first,
  is_reserved_at,
  is_used_at,
  settled,
  left,
  freed,
  largest,
  offer,
};
ghost use Rattle.std.specs.Option.{option_map};
ghost use Rattle.cckd_space.specs.Inside.{size_of, AreMerged, EndsAt, EndsBelow, IsInOrder};

use crate::finding::{first_room_below, reserved_index, used_index};
use crate::piece::{Piece, align, free, reserved};
use cckd_base::Owner;

/// Puts a piece behind the list.
pub(crate) fn push_piece(pieces: &mut Vec<Piece>, piece: Piece)
    requires room { vec_len pieces.old < vec_capacity pieces.old }
    ensures items { pieces.new.items ≡ pieces.old.items ++ piece ∷ [] }
    ensures len { vec_len pieces.new ≡ vec_len pieces.old + 1 }
    ensures capacity { vec_capacity pieces.old ≤ vec_capacity pieces.new }
{
    let Ok(()) = pieces.push(piece) else {
        unreachable!();
    };
}

/// Puts the free bytes between two places into the list, if there are any.
fn put_run(pieces: &mut Vec<Piece>, at: usize, from: u32, to: u32)
    requires within { at ≤ vec_len pieces.old }
    requires room { from < to → vec_len pieces.old < vec_capacity pieces.old }
    ensures items { pieces.new.items ≡ take at pieces.old.items ++ (free_run from to ++ drop at pieces.old.items) }
    ensures len { vec_len pieces.new ≤ vec_len pieces.old + 1 }
    ensures capacity { vec_capacity pieces.old ≤ vec_capacity pieces.new }
{
    if from < to {
        let Ok(()) = pieces.insert(at, free(from, to - from)) else {
            unreachable!();
        };
    }
}

/// Reserves the first `need` bytes from the first multiple of 8 of the piece at this index.
pub(crate) fn reserve_at(pieces: &mut Vec<Piece>, at: usize, need: u32) -> u32
    requires within { at < vec_len pieces.old }
    requires room { vec_len pieces.old + 2 ≤ vec_capacity pieces.old }
    requires fits { (d : Piece) → IsTrue (has_room need (slice_index_or pieces.old.items at d)) }
    requires end { (d : Piece) → piece_end (slice_index_or pieces.old.items at d) < 2 ^ 32 }
    ensures place { (d : Piece) → result ≡ aligned_up (slice_index_or pieces.old.items at d).pos }
    ensures items { (d : Piece) → pieces.new.items ≡ take at pieces.old.items ++ (reserved_in need (slice_index_or pieces.old.items at d) ++ drop (at + 1) pieces.old.items) }
    ensures len { vec_len pieces.new ≤ vec_len pieces.old + 2 }
    ensures capacity { vec_capacity pieces.old ≤ vec_capacity pieces.new }
{
    let piece = pieces[at];
    let place = align(piece.pos) as u32;
    pieces[at] = reserved(place, need);
    put_run(pieces, at + 1, place + need, piece.pos + piece.size);
    put_run(pieces, at, piece.pos, place);
    place
}

/// Reserves so many bytes at the first fit, which is the piece at this index, and answers where.
pub(crate) fn reserve_found(pieces: &mut Vec<Piece>, at: usize, need: u32) -> u32
    requires found { position (has_room need) pieces.old.items ≡ Some at }
    requires room { vec_len pieces.old + 2 ≤ vec_capacity pieces.old }
    requires ends { EndsBelow pieces.old.items (2 ^ 32) }
    ensures place { Some result ≡ option_map (λ p. aligned_up p.pos) (first (has_room need) pieces.old.items) }
    ensures items { pieces.new.items ≡ replaced (has_room need) (reserved_in need) pieces.old.items }
    ensures len { vec_len pieces.new ≤ vec_len pieces.old + 2 }
    ensures capacity { vec_capacity pieces.old ≤ vec_capacity pieces.new }
{
    reserve_at(pieces, at, need)
}

/// Reserves so many bytes at the first fit that ends at or below a place, and answers where.
pub(crate) fn reserve_below(pieces: &mut Vec<Piece>, need: u32, before: u32) -> Option<u32>
    requires room { vec_len pieces.old + 2 ≤ vec_capacity pieces.old }
    requires ends { EndsBelow pieces.old.items (2 ^ 32) }
    ensures place { result ≡ option_map (λ p. aligned_up p.pos) (first (has_room_below need before) pieces.old.items) }
    ensures items { pieces.new.items ≡ replaced (has_room_below need before) (reserved_in need) pieces.old.items }
    ensures len { vec_len pieces.new ≤ vec_len pieces.old + 2 }
    ensures capacity { vec_capacity pieces.old ≤ vec_capacity pieces.new }
{
    let Some(at) = first_room_below(pieces.as_slice(), need, before) else {
        return None;
    };
    Some(reserve_at(pieces, at, need))
}

/// Where the file would end without a Free piece at its end.
pub(crate) fn free_end(pieces: &[Piece], size: u32) -> u32
    requires ends { EndsAt pieces.now size }
    ensures { result ≡ used_end pieces.now }
{
    let count = pieces.len();
    if count == 0 {
        return 0;
    }
    let last = pieces[count - 1];
    if last.is_free() { last.pos } else { size }
}

/// Drops the free bytes at the end that stand at or past a length.
pub(crate) fn cut_end(pieces: &mut Vec<Piece>, len: u32, size: u32)
    requires ends { EndsAt pieces.old.items size }
    requires room { vec_len pieces.old ≤ vec_capacity pieces.old }
    ensures items { pieces.new.items ≡ cut len size pieces.old.items }
    ensures len { vec_len pieces.new ≤ vec_len pieces.old }
    ensures capacity { vec_capacity pieces.old ≤ vec_capacity pieces.new }
{
    let count = pieces.len();
    if count == 0 {
        return;
    }
    let last = pieces[count - 1];
    if last.is_free() {
        pieces.truncate(count - 1);
        put_run(pieces, count - 1, last.pos, len.min(size));
    }
}

/// Turns the Reserved piece at `pos` into a Used one.
pub(crate) fn settle_piece(pieces: &mut Vec<Piece>, pos: u32, len: u32, owner: Owner)
    requires there { IsSome (first (is_reserved_at pos) pieces.old.items) }
    requires order { IsInOrder pieces.old.items }
    ensures items { pieces.new.items ≡ replaced (is_reserved_at pos) (λ p. settled len owner p ∷ []) pieces.old.items }
    ensures len { vec_len pieces.new ≡ vec_len pieces.old }
    ensures capacity { vec_capacity pieces.old ≤ vec_capacity pieces.new }
{
    let at = reserved_index(pieces.as_slice(), pos);
    let piece = pieces[at];
    pieces[at] = piece.settled(len, owner);
}

/// Turns the Used piece at `pos` into a Leaving one.
pub(crate) fn leave_piece(pieces: &mut Vec<Piece>, pos: u32)
    requires there { IsSome (first (is_used_at pos) pieces.old.items) }
    requires order { IsInOrder pieces.old.items }
    ensures items { pieces.new.items ≡ replaced (is_used_at pos) (λ p. left p ∷ []) pieces.old.items }
    ensures len { vec_len pieces.new ≡ vec_len pieces.old }
    ensures capacity { vec_capacity pieces.old ≤ vec_capacity pieces.new }
{
    let at = used_index(pieces.as_slice(), pos);
    let piece = pieces[at];
    pieces[at] = piece.left();
}

/// Makes the piece at this index one with the next where both are Free, and answers what it offers
/// then.
fn join_next(pieces: &mut Vec<Piece>, at: usize) -> u64
    requires within { at < vec_len pieces.old }
    requires sizes { size_of pieces.old.items < 2 ^ 32 }
    ensures items { (d : Piece) → pieces.new.items ≡ take at pieces.old.items ++ joined (slice_index_or pieces.old.items at d) (drop (at + 1) pieces.old.items) }
    ensures offers { (d : Piece) → result ≡ offer (slice_index_or pieces.new.items at d) }
    ensures len { vec_len pieces.new ≤ vec_len pieces.old }
    ensures capacity { vec_capacity pieces.old ≤ vec_capacity pieces.new }
{
    let piece = pieces[at];
    if at + 1 == pieces.len() {
        return piece.offer();
    }
    let next = pieces[at + 1];
    if !piece.joins(&next) {
        return piece.offer();
    }
    let whole = free(piece.pos, piece.size + next.size);
    let _next = pieces.remove(at + 1);
    pieces[at] = whole;
    whole.offer()
}

/// Turns the piece at this index into a Free one, merges it with its neighbours, and answers the
/// greatest number of bytes that is offered there then.
pub(crate) fn free_at(pieces: &mut Vec<Piece>, at: usize) -> u64
    requires within { at < vec_len pieces.old }
    requires merged { AreMerged pieces.old.items }
    requires sizes { size_of pieces.old.items < 2 ^ 32 }
    ensures items { (d : Piece) → pieces.new.items ≡ merged (take at pieces.old.items ++ freed (slice_index_or pieces.old.items at d) ∷ drop (at + 1) pieces.old.items) }
    ensures offers { largest pieces.new.items ≤ max (largest pieces.old.items) result }
    ensures len { vec_len pieces.new ≤ vec_len pieces.old }
    ensures capacity { vec_capacity pieces.old ≤ vec_capacity pieces.new }
{
    let piece = pieces[at];
    pieces[at] = free(piece.pos, piece.size);
    let behind = join_next(pieces, at);
    if at == 0 {
        return behind;
    }
    let before = join_next(pieces, at - 1);
    before.max(behind)
}

/// Turns what is Leaving into Pending.
fn retire_each(pieces: &mut [Piece])
    ensures { pieces.new ≡ map retired pieces.old }
{
    for piece in pieces.iter_mut() {
        *piece = piece.retired();
    }
}

/// Turns what is Pending into Free.
fn release_each(pieces: &mut [Piece])
    ensures { pieces.new ≡ map released pieces.old }
{
    for piece in pieces.iter_mut() {
        *piece = piece.released();
    }
}

/// One step of a merge from the end: the pieces from `kept` on are merged, and the one at `at` comes
/// before them. Answers where they begin then.
fn join_at(pieces: &mut [Piece], at: usize, kept: usize) -> usize
    requires before { at < kept }
    requires within { kept ≤ length pieces.old }
    requires sizes { (d : Piece) → kept < length pieces.old → (slice_index_or pieces.old at d).size + (slice_index_or pieces.old kept d).size < 2 ^ 32 }
    ensures begins { at ≤ result }
    ensures within { result ≤ length pieces.old }
    ensures front { take at pieces.new ≡ take at pieces.old }
    ensures joined { (d : Piece) → drop result pieces.new ≡ joined (slice_index_or pieces.old at d) (drop kept pieces.old) }
{
    let piece = pieces[at];
    if kept < pieces.len() {
        let next = pieces[kept];
        if piece.is_free() && next.is_free() {
            pieces[kept] = free(piece.pos, piece.size + next.size);
            return kept;
        }
    }
    pieces[kept - 1] = piece;
    kept - 1
}

/// Merges neighbouring Free pieces, and answers where the merged list begins.
fn merge_slice(pieces: &mut [Piece]) -> usize
    requires { size_of pieces.old < 2 ^ 32 }
    ensures within { result ≤ length pieces.old }
    ensures merged { drop result pieces.new ≡ merged pieces.old }
{
    let mut kept = pieces.len();
    let mut at = pieces.len();
    while at > 0 {
        at -= 1;
        kept = join_at(pieces, at, kept);
    }
    kept
}

fn rotate(pieces: &mut [Piece], kept: usize)
    requires { kept ≤ length pieces.old }
    ensures { pieces.new ≡ drop kept pieces.old ++ take kept pieces.old }
{
    pieces.rotate_left(kept);
}

fn merge_front(pieces: &mut Vec<Piece>) -> usize
    requires { size_of pieces.old.items < 2 ^ 32 }
    ensures within { result ≤ vec_len pieces.old }
    ensures items { take result pieces.new.items ≡ merged pieces.old.items }
    ensures len { vec_len pieces.new ≡ vec_len pieces.old }
    ensures capacity { vec_capacity pieces.new ≡ vec_capacity pieces.old }
{
    let slice = pieces.as_mut_slice();
    let kept = merge_slice(slice);
    let count = slice.len();
    rotate(slice, kept);
    count - kept
}

/// Merges neighbouring Free pieces.
pub(crate) fn merge(pieces: &mut Vec<Piece>)
    requires { size_of pieces.old.items < 2 ^ 32 }
    ensures items { pieces.new.items ≡ merged pieces.old.items }
    ensures len { vec_len pieces.new ≤ vec_len pieces.old }
    ensures capacity { vec_capacity pieces.old ≤ vec_capacity pieces.new }
{
    let count = merge_front(pieces);
    pieces.truncate(count);
}

/// Turns what is Leaving into Pending.
pub(crate) fn retire_pieces(pieces: &mut Vec<Piece>)
    ensures items { pieces.new.items ≡ map retired pieces.old.items }
    ensures len { vec_len pieces.new ≡ vec_len pieces.old }
    ensures capacity { vec_capacity pieces.old ≤ vec_capacity pieces.new }
{
    retire_each(pieces.as_mut_slice());
}

/// Turns what is Pending into Free.
pub(crate) fn release_pieces(pieces: &mut Vec<Piece>)
    ensures items { pieces.new.items ≡ map released pieces.old.items }
    ensures len { vec_len pieces.new ≡ vec_len pieces.old }
    ensures capacity { vec_capacity pieces.old ≤ vec_capacity pieces.new }
{
    release_each(pieces.as_mut_slice());
}
