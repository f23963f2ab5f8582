//! The numbers of a list of pieces.
ghost use Rattle.std.specs.Prelude.{◌≡◌, ◌+◌, ◌<◌, ◌^◌};
ghost use Rattle.std.specs.Option.{option_map, unwrap_or};
ghost use Rattle.cckd_space.specs.Pieces.{largest, greatest, offer, summed, counted, used_len, roomy_len, is_roomy, first};

use crate::piece::Piece;

/// The greatest number of bytes that a free piece offers.
pub(crate) fn largest_offer(pieces: &[Piece]) -> u64
    ensures { result ≡ largest pieces.now }
{
    let mut best = 0;
    for piece in pieces {
        best = piece.offer().max(best);
    }
    best
}

/// What the pieces of a file add up to: the bytes in use; and of the free pieces of at least 8 bytes
/// the bytes, the greatest size, and how many there are.
#[derive(Clone, Copy)]
pub(crate) struct Sums {
    pub(crate) used: u32,
    pub(crate) total: u32,
    pub(crate) largest: u32,
    pub(crate) number: u32,
}

pub(crate) fn add_up(pieces: &[Piece]) -> Sums
    requires used { summed used_len pieces.now < 2 ^ 32 }
    requires total { summed roomy_len pieces.now < 2 ^ 32 }
    requires number { counted is_roomy pieces.now < 2 ^ 32 }
    ensures used { result.used ≡ summed used_len pieces.now }
    ensures total { result.total ≡ summed roomy_len pieces.now }
    ensures largest { result.largest ≡ greatest roomy_len pieces.now }
    ensures number { result.number ≡ counted is_roomy pieces.now }
{
    let mut used: u32 = 0;
    let mut total: u32 = 0;
    let mut largest = 0;
    let mut number: u32 = 0;
    for piece in pieces {
        used += piece.used_len();
        if piece.is_roomy() {
            total += piece.size;
            largest = piece.size.max(largest);
            number += 1;
        }
    }
    Sums {
        used,
        total,
        largest,
        number,
    }
}

/// Where a piece begins, or 0 where there is none.
pub(crate) fn start_or_zero(piece: Option<Piece>) -> u32
    ensures { result ≡ unwrap_or (option_map (λ p. p.pos) piece) 0 }
{
    match piece {
        Some(piece) => piece.pos,
        None => 0,
    }
}
