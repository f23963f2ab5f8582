//! A `Space` and the plain program, to which the same calls are made.
ghost use Rattle.std.specs.Prelude.{◌≡◌, ◌≤◌, IfSome, Some, if◌then◌else◌};
ghost use Rattle.cckd_base.specs.Survey.{StandApart};
ghost use Rattle.cckd_space.specs.Pieces.{first, is_reserved_at, is_used_at};
ghost use Rattle.cckd_space.specs.Plan.{IsNeed};

use crate::piece::Piece;
use crate::plain::{self, Byte};
use crate::{Extent, Kind, Owner, Space};
use std::alloc::Global;
use std::process::Abort;
use std::test::Fail;

/// A file in both programs, and the next number of a fixed sequence.
#[derive(Drop)]
pub(crate) struct Pair {
    space: Space,
    bytes: Vec<Byte>,
    limit: u32,
    seed: u32,
}

/// How many pieces may stand in a block: so few that borders are met often, or as many as elsewhere.
fn block_size(seed: u32) -> usize
    ensures least { 4 ≤ result }
    ensures most { result ≤ 126 }
{
    if seed % 4 == 3 {
        126
    } else {
        4 + (seed % 4) as usize
    }
}

fn started(alloc: Global, used: &[Extent], size: u32, limit: u32, seed: u32) -> Result<Pair, Fail>
    requires { StandApart 0 used.now size }
{
    let space = Space::in_blocks(alloc, used, size, limit, 0, block_size(seed))?;
    let bytes = plain::start(alloc, used, size)?;
    Ok(Pair {
        space,
        bytes,
        limit,
        seed,
    })
}

fn gapped(alloc: Global, seed: u32) -> Result<Pair, Fail> {
    let used = [
        Extent {
            pos: 0,
            len: 13,
            size: 13,
            owner: Owner::Header,
        },
        Extent {
            pos: 27,
            len: 40,
            size: 48,
            owner: Owner::Table(1),
        },
        Extent {
            pos: 329,
            len: 1,
            size: 30,
            owner: Owner::Track(7),
        },
    ];
    started(alloc, &used, 400, 800, seed)
}

fn headed(alloc: Global, size: u32, limit: u32, seed: u32) -> Result<Pair, Fail>
    requires { 70 ≤ size }
{
    let used = [Extent {
        pos: 0,
        len: 70,
        size: 70,
        owner: Owner::Header,
    }];
    started(alloc, &used, size, limit, seed)
}

/// One of four files: an empty one, one with gaps that begin anywhere, one that ends past its limit,
/// and one that has only a header.
pub(crate) fn file(alloc: Global, number: u32, seed: u32) -> Result<Pair, Fail> {
    match number {
        0 => started(alloc, &[], 0, 600, seed),
        1 => gapped(alloc, seed),
        2 => headed(alloc, 700, 640, seed),
        _ => headed(alloc, 70, 500, seed),
    }
}

/// Whether a piece is Used, or else Reserved.
fn is_wanted(piece: &Piece, used: bool) -> bool
    ensures { result ≡ (if used then is_used_at piece.now.pos piece.now else is_reserved_at piece.now.pos piece.now) }
{
    if used {
        piece.is_used_at(piece.pos)
    } else {
        piece.is_reserved_at(piece.pos)
    }
}

/// The Used piece of the file behind the first few, or else the Reserved one; or None.
fn some_piece(space: &Space, used: bool, few: u32) -> Option<Piece>
    ensures { IfSome result (λ p. first (λ q. if used then is_used_at p.pos q else is_reserved_at p.pos q) space.now.pieces ≡ Some p) }
{
    let pieces = space.pieces();
    let mut left = few;
    for at in 0..pieces.len() {
        let piece = pieces.piece(at);
        if is_wanted(&piece, used) {
            if left == 0 {
                return Some(piece);
            }
            left -= 1;
        }
    }
    None
}

/// Whether a space has these pieces: one by one, and each by its place and by its last byte.
pub(crate) fn same_pieces(rt: &impl Abort, space: &Space, wanted: &[Piece]) -> Result<(), Fail> {
    let pieces = space.pieces();
    assert_eq!(rt; pieces.len(), wanted.len());
    for (piece, want) in pieces.iter().zip(wanted) {
        assert_eq!(rt; piece, *want);
        let last = piece.pos.saturating_add(piece.size).saturating_sub(1);
        assert_eq!(rt; pieces.at_or_before(piece.pos), Some(piece));
        assert_eq!(rt; pieces.at_or_before(last), Some(piece));
        let used = piece.kind == Kind::Used;
        let reserved = piece.kind == Kind::Reserved;
        assert_eq!(rt; space.used_at(piece.pos), used.then_some(piece));
        assert_eq!(rt; space.reserved_at(piece.pos), reserved.then_some(piece));
    }
    Ok(())
}

/// A number of bytes that may be asked for.
fn some_need(number: u32) -> u32
    ensures { IsNeed result }
{
    number % 20 * 8 + 8
}

impl Pair {
    fn number(&mut self) -> u32 {
        self.seed = self
            .seed
            .wrapping_mul(1_664_525)
            .wrapping_add(1_013_904_223);
        self.seed >> 12
    }

    fn place(&mut self, rt: &impl Abort) -> Result<(), Fail> {
        let need = some_need(self.number());
        self.space.grow(2)?;
        let answer = self.space.place(need);
        assert_eq!(rt; answer, plain::place(&mut self.bytes, self.limit, need)?);
        Ok(())
    }

    fn place_below(&mut self, rt: &impl Abort) -> Result<(), Fail> {
        let need = some_need(self.number());
        let before = self.number() % 600;
        self.space.grow(2)?;
        let fits = self.space.fits_below(need, before);
        let answer = self.space.place_below(need, before);
        assert_eq!(rt; answer, fits);
        assert_eq!(rt; answer, plain::place_below(&mut self.bytes, need, before));
        Ok(())
    }

    fn settle(&mut self) {
        let number = self.number();
        if let Some(piece) = some_piece(&self.space, false, number % 4) {
            let len = (number % 160 + 1).min(piece.size);
            if 1 <= len {
                self.space.settle(piece.pos, len, Owner::Track(number));
                plain::settle(&mut self.bytes, piece.pos, len, Owner::Track(number));
            }
        }
    }

    fn leave(&mut self) {
        let number = self.number();
        if let Some(piece) = some_piece(&self.space, true, number % 4) {
            self.space.leave(piece.pos);
            plain::leave(&mut self.bytes, piece.pos);
        }
    }

    fn give_back(&mut self) {
        let number = self.number();
        if let Some(piece) = some_piece(&self.space, false, number % 4) {
            self.space.give_back(piece.pos);
            plain::give_back(&mut self.bytes, piece.pos);
        }
    }

    fn retire(&mut self) {
        self.space.retire_all();
        plain::change_all(&mut self.bytes, Kind::Leaving, Kind::Pending);
    }

    fn release(&mut self) {
        self.space.release_all();
        plain::change_all(&mut self.bytes, Kind::Pending, Kind::Free);
    }

    fn trim(&mut self, rt: &impl Abort) -> Result<(), Fail> {
        assert_eq!(rt; self.space.trim(), plain::cut_back(&mut self.bytes, 0));
        Ok(())
    }

    fn cut_back(&mut self) {
        let len = self.number() % 700;
        self.space.cut_back(len);
        let _size = plain::cut_back(&mut self.bytes, len);
    }

    /// One call, to both.
    fn call(&mut self, rt: &impl Abort) -> Result<(), Fail> {
        match self.number() % 20 {
            0 => self.retire(),
            1 => self.release(),
            2 => self.trim(rt)?,
            3 => self.cut_back(),
            4..=5 => self.place_below(rt)?,
            6..=7 => self.give_back(),
            8..=10 => self.leave(),
            11..=13 => self.settle(),
            _ => self.place(rt)?,
        }
        Ok(())
    }

    /// Whether both have the same pieces, totals and free spaces.
    fn compare(&mut self, rt: &impl Abort, alloc: Global) -> Result<(), Fail> {
        let pieces = plain::pieces(alloc, &self.bytes)?;
        same_pieces(rt, &self.space, pieces.as_slice())?;
        assert_eq!(rt; self.space.totals(), plain::totals(&self.bytes));
        let leaving = plain::has(&self.bytes, Kind::Leaving);
        assert_eq!(rt; self.space.has_leaving(), leaving);
        let pending = plain::has(&self.bytes, Kind::Pending);
        assert_eq!(rt; self.space.has_pending(), pending);
        let from = self.number() % 700;
        assert_eq!(rt;
            self.space.next_free(from),
            plain::next_free(&self.bytes, from)
        );
        Ok(())
    }
}

/// So many calls to both, which have to agree after each.
pub(crate) fn follow(
    rt: &impl Abort,
    alloc: Global,
    pair: &mut Pair,
    calls: u32,
) -> Result<(), Fail> {
    pair.compare(rt, alloc)?;
    for _ in 0..calls {
        pair.call(rt)?;
        pair.compare(rt, alloc)?;
    }
    Ok(())
}
