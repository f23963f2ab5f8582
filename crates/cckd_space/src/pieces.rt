//! What callers read of a list of pieces.
ghost use Rattle.std.specs.Prelude.{◌≡◌, ◌<◌, ◌^◌, length, slice_get, Some};
ghost use Rattle.cckd_space.specs.Pieces.{begins_by, last};

use crate::block::Block;
use crate::order::{count_in, last_in, piece_in};
use crate::piece::Piece;
use std::marker::Model;

/// The pieces of a space, in order of position, to be read. Contracts see the list.
#[derive(Drop)]
pub struct Pieces<'a> {
    blocks: &'a [Block],
}

impl<'a> Model for Pieces<'a> {
    ghost use Rattle.std.specs.Prelude.{List};
    ghost use Rattle.cckd_space.specs.declared.piece.Piece.{Piece as OnePiece};
    ghost use Rattle.cckd_space.specs.Blocks.{AreRead, whole};

    ghost Value = { List OnePiece };

    ghost view = { λ p. whole p.blocks.now };

    ghost invariant = { λ p. AreRead p.blocks.now };
}

impl<'a> Pieces<'a> {
    ghost use Rattle.cckd_space.specs.Blocks.{AreRead, whole};

    pub(crate) fn new(blocks: &'a [Block]) -> Pieces<'a>
        requires { AreRead blocks.now }
        ensures { result ≡ whole blocks.now }
    {
        Pieces { blocks }
    }

    /// How many pieces there are.
    pub fn len(&self) -> usize
        ensures { result ≡ length self.now }
    {
        count_in(self.blocks)
    }

    /// The piece of a number, which counts from 0.
    pub fn piece(&self, number: usize) -> Piece
        requires { number < length self.now }
        ensures { slice_get self.now number ≡ Some result }
    {
        piece_in(self.blocks, number)
    }

    /// The piece that begins at a place, or else the last one before it.
    pub fn at_or_before(&self, pos: u32) -> Option<Piece>
        ensures { result ≡ last (begins_by pos) self.now }
    {
        last_in(self.blocks, pos)
    }

    /// The pieces one by one.
    pub fn iter(&self) -> PieceIter<'a>
        ensures { result ≡ self.now }
    {
        PieceIter {
            rest: &[],
            blocks: self.blocks,
        }
    }
}

/// The pieces that are still to come.
#[derive(Drop)]
pub struct PieceIter<'a> {
    // Those of one block, and the blocks behind it.
    rest: &'a [Piece],
    blocks: &'a [Block],
}

impl<'a> Model for PieceIter<'a> {
    ghost use Rattle.std.specs.Prelude.{List, ◌++◌};
    ghost use Rattle.cckd_space.specs.declared.piece.Piece.{Piece as OnePiece};
    ghost use Rattle.cckd_space.specs.Blocks.{AreFilled, whole};

    ghost Value = { List OnePiece };

    ghost view = { λ p. p.rest.now ++ whole p.blocks.now };

    ghost invariant = { λ p. AreFilled p.blocks.now };
}

impl<'a> Iterator for PieceIter<'a> {
    ghost use Rattle.std.specs.Iterator.{YieldsFirst, item_count};

    type Item = Piece;

    ghost next_gives = { YieldsFirst (λ rest. rest) };

    ghost remaining = { item_count (λ rest. rest) };

    fn next(&mut self) -> Option<Piece> {
        if let Some((first, others)) = self.rest.split_first() {
            self.rest = others;
            return Some(*first);
        }
        let (block, others) = self.blocks.split_first()?;
        let (first, rest) = block.pieces().split_first()?;
        self.rest = rest;
        self.blocks = others;
        Some(*first)
    }
}
