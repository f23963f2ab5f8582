//! Where a piece stands in the list.
ghost use Rattle.std.specs.Prelude.{◌≡◌, ◌+◌, ◌<◌, ◌≤◌, length, position, IsSome, IsTrue, Some, slice_get, slice_index_or};
ghost use Rattle.cckd_space.specs.Inside.{IsInOrder, StartsAt};
ghost use Rattle.cckd_space.specs.Pieces.{begins_by, first, has_room, has_room_below, is_reserved_at, is_roomy_from, is_used_at, last};
ghost use Rattle.cckd_space.specs.Plan.{first_fit_below};

use crate::piece::{Piece, align};

/// How many pieces begin before a place.
pub(crate) fn start_index(pieces: &[Piece], pos: u32) -> usize
    requires { IsInOrder pieces.now }
    ensures { StartsAt pos pieces.now result }
{
    pieces.partition_point(|p| p.pos < pos)
}

/// The piece at an index.
pub(crate) fn piece_at(pieces: &[Piece], at: usize) -> Piece
    requires { at < length pieces.now }
    ensures { slice_get pieces.now at ≡ Some result }
{
    pieces[at]
}

/// How many pieces begin at or before a place.
fn begun_index(pieces: &[Piece], pos: u32) -> usize
    requires { IsInOrder pieces.now }
    ensures { StartsAt (pos + 1) pieces.now result }
{
    pieces.partition_point(|p| p.pos <= pos)
}

/// The last piece that begins at or before a place.
pub(crate) fn last_by(pieces: &[Piece], pos: u32) -> Option<Piece>
    requires { IsInOrder pieces.now }
    ensures { result ≡ last (begins_by pos) pieces.now }
{
    let count = begun_index(pieces, pos);
    if count == 0 {
        return None;
    }
    Some(pieces[count - 1])
}

/// The Used piece at `pos`.
pub(crate) fn used_at(pieces: &[Piece], pos: u32) -> Option<Piece>
    requires { IsInOrder pieces.now }
    ensures { result ≡ first (is_used_at pos) pieces.now }
{
    let at = start_index(pieces, pos);
    if at == pieces.len() {
        return None;
    }
    let piece = pieces[at];
    if piece.is_used_at(pos) {
        Some(piece)
    } else {
        None
    }
}

/// The Reserved piece at `pos`.
pub(crate) fn reserved_at(pieces: &[Piece], pos: u32) -> Option<Piece>
    requires { IsInOrder pieces.now }
    ensures { result ≡ first (is_reserved_at pos) pieces.now }
{
    let at = start_index(pieces, pos);
    if at == pieces.len() {
        return None;
    }
    let piece = pieces[at];
    if piece.is_reserved_at(pos) {
        Some(piece)
    } else {
        None
    }
}

/// The index of the Reserved piece at `pos`.
pub(crate) fn reserved_index(pieces: &[Piece], pos: u32) -> usize
    requires there { IsSome (first (is_reserved_at pos) pieces.now) }
    requires order { IsInOrder pieces.now }
    ensures { position (is_reserved_at pos) pieces.now ≡ Some result }
{
    start_index(pieces, pos)
}

/// The index of the Used piece at `pos`.
pub(crate) fn used_index(pieces: &[Piece], pos: u32) -> usize
    requires there { IsSome (first (is_used_at pos) pieces.now) }
    requires order { IsInOrder pieces.now }
    ensures { position (is_used_at pos) pieces.now ≡ Some result }
{
    start_index(pieces, pos)
}

pub(crate) fn first_room(pieces: &[Piece], need: u32) -> Option<usize>
    ensures { result ≡ position (has_room need) pieces.now }
{
    pieces.iter().position(|p| p.has_room(need))
}

pub(crate) fn first_room_below(pieces: &[Piece], need: u32, before: u32) -> Option<usize>
    ensures { result ≡ position (has_room_below need before) pieces.now }
{
    pieces.iter().position(|p| p.has_room_below(need, before))
}

fn first_roomy(pieces: &[Piece], from: u32) -> Option<usize>
    ensures { result ≡ position (is_roomy_from from) pieces.now }
{
    pieces.iter().position(|p| p.is_roomy_from(from))
}

/// Where so many bytes first fit and end at or below a place.
pub(crate) fn place_below(pieces: &[Piece], need: u32, before: u32) -> Option<u32>
    ensures { result ≡ first_fit_below need before pieces.now }
{
    let Some(at) = first_room_below(pieces, need, before) else {
        return None;
    };
    Some(align(pieces[at].pos) as u32)
}

/// The first free piece of at least 8 bytes that starts at or after a place.
fn roomy_index(pieces: &[Piece], from: u32) -> Option<usize>
    requires { IsInOrder pieces.now }
    ensures { result ≡ position (is_roomy_from from) pieces.now }
{
    let start = start_index(pieces, from);
    let Some(at) = first_roomy(&pieces[start..], from) else {
        return None;
    };
    Some(start + at)
}

/// The first free piece of at least 8 bytes that starts at or after a place.
pub(crate) fn roomy_from(pieces: &[Piece], from: u32) -> Option<Piece>
    requires { IsInOrder pieces.now }
    ensures { result ≡ first (is_roomy_from from) pieces.now }
{
    let Some(at) = roomy_index(pieces, from) else {
        return None;
    };
    Some(pieces[at])
}
