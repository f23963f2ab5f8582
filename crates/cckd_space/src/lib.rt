//! The space of one image: which bytes are in use, which are free, and where new bytes go.
#![tactic(auto)]

#[cfg(test)]
mod beside;
mod block;
mod blocks;
mod border;
mod editing;
mod ends;
mod finding;
mod making;
mod order;
mod piece;
mod pieces;
#[cfg(test)]
mod plain;
mod release;
mod space;
mod store;
#[cfg(test)]
mod tests;
mod totals;

pub use cckd_base::{Extent, Full, Memory, Owner};
pub use piece::{Kind, Move, Piece, Totals};
pub use pieces::{PieceIter, Pieces};
pub use space::Space;
