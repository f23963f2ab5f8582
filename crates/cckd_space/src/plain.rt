//! A plain program for the tests: a file as the list of its bytes, each of which says what it is
//! for. What a `Space` answers is found here byte by byte.

use crate::piece::{Kind, Piece, Totals};
use cckd_base::{Extent, Full, Memory, Owner};
use std::alloc::Global;

/// A byte of the file. `begins` is set at the first byte of a piece, and `in_use` at each byte that
/// an owner has written.
#[derive(Clone, Copy, Debug, PartialEq, Eq)]
pub(crate) struct Byte {
    kind: Kind,
    owner: Owner,
    begins: bool,
    in_use: bool,
}

const FREE: Byte = Byte {
    kind: Kind::Free,
    owner: Owner::Nobody,
    begins: false,
    in_use: false,
};

fn number(count: usize) -> u32 {
    u32::try_from(count).unwrap_or(u32::MAX)
}

/// Makes `size` bytes from a place on one piece, of which the first `len` are in use.
fn mark(bytes: &mut [Byte], from: usize, size: usize, len: usize, kind: Kind, owner: Owner) {
    let end = from.saturating_add(size).min(bytes.len());
    for at in from..end {
        bytes[at] = Byte {
            kind,
            owner,
            begins: at == from,
            in_use: at - from < len,
        };
    }
}

/// Makes free bytes that stand side by side one piece.
fn join_free(bytes: &mut [Byte]) {
    let mut was_free = false;
    for byte in bytes.iter_mut() {
        let is_free = byte.kind == Kind::Free;
        if is_free {
            byte.begins = !was_free;
        }
        was_free = is_free;
    }
}

/// How many bytes the piece has that begins at a place.
fn size_at(bytes: &[Byte], pos: usize) -> usize {
    for at in pos..bytes.len() {
        if pos < at && bytes[at].begins {
            return at - pos;
        }
    }
    bytes.len().saturating_sub(pos)
}

/// How many bytes from a place on are free.
fn free_run(bytes: &[Byte], pos: usize) -> usize {
    for at in pos..bytes.len() {
        if bytes[at].kind != Kind::Free {
            return at - pos;
        }
    }
    bytes.len().saturating_sub(pos)
}

/// The first multiple of 8 from which on so many bytes are free that end at or below a place.
fn first_fit(bytes: &[Byte], need: usize, before: usize) -> Option<usize> {
    for at in 0..bytes.len() {
        if at % 8 == 0 && need <= free_run(bytes, at) && at.saturating_add(need) <= before {
            return Some(at);
        }
    }
    None
}

/// The most bytes that are free from a multiple of 8 on.
fn largest(bytes: &[Byte]) -> usize {
    let mut most = 0;
    for at in 0..bytes.len() {
        if at % 8 == 0 {
            most = free_run(bytes, at).max(most);
        }
    }
    most
}

/// Drops free bytes from the end while the file is longer than this.
fn drop_free(bytes: &mut Vec<Byte>, len: usize) {
    for _ in 0..bytes.len() {
        let count = bytes.len();
        if count <= len || bytes[count - 1].kind != Kind::Free {
            return;
        }
        bytes.truncate(count - 1);
    }
}

/// A file of `size` bytes, of which these are used.
pub(crate) fn start(alloc: Global, used: &[Extent], size: u32) -> Result<Vec<Byte>, Memory> {
    let mut bytes = Vec::from_elem(alloc, FREE, size as usize)?;
    for extent in used {
        mark(
            &mut bytes,
            extent.pos as usize,
            extent.size as usize,
            extent.len as usize,
            Kind::Used,
            extent.owner,
        );
    }
    join_free(&mut bytes);
    Ok(bytes)
}

fn reserve(bytes: &mut [Byte], pos: usize, need: usize) {
    mark(bytes, pos, need, 0, Kind::Reserved, Owner::Nobody);
    join_free(bytes);
}

/// Where the file would end without the free bytes at its end.
fn end_of(bytes: &[Byte]) -> usize {
    let mut end = 0usize;
    for at in 0..bytes.len() {
        if bytes[at].kind != Kind::Free {
            end = at + 1;
        }
    }
    end
}

pub(crate) fn place(
    bytes: &mut Vec<Byte>,
    limit: u32,
    need: u32,
) -> Result<Result<u32, Full>, Memory> {
    let size = need as usize;
    if let Some(at) = first_fit(bytes, size, usize::MAX) {
        reserve(bytes, at, size);
        return Ok(Ok(number(at)));
    }
    let pos = end_of(bytes).saturating_add(7) / 8 * 8;
    let room = (limit as usize).saturating_sub(pos);
    if room < size {
        return Ok(Err(Full {
            need,
            largest: number(largest(bytes)),
            room: number(room),
        }));
    }
    drop_free(bytes, 0);
    bytes.resize(pos.saturating_add(size), FREE)?;
    reserve(bytes, pos, size);
    Ok(Ok(number(pos)))
}

pub(crate) fn place_below(bytes: &mut [Byte], need: u32, before: u32) -> Option<u32> {
    let Some(at) = first_fit(bytes, need as usize, before as usize) else {
        return None;
    };
    reserve(bytes, at, need as usize);
    Some(number(at))
}

pub(crate) fn settle(bytes: &mut [Byte], pos: u32, len: u32, owner: Owner) {
    let size = size_at(bytes, pos as usize);
    mark(bytes, pos as usize, size, len as usize, Kind::Used, owner);
}

pub(crate) fn leave(bytes: &mut [Byte], pos: u32) {
    let size = size_at(bytes, pos as usize);
    mark(bytes, pos as usize, size, 0, Kind::Leaving, Owner::Nobody);
}

pub(crate) fn give_back(bytes: &mut [Byte], pos: u32) {
    let size = size_at(bytes, pos as usize);
    mark(bytes, pos as usize, size, 0, Kind::Free, Owner::Nobody);
    join_free(bytes);
}

/// Makes the bytes of one kind bytes of another.
pub(crate) fn change_all(bytes: &mut [Byte], from: Kind, to: Kind) {
    for byte in bytes.iter_mut() {
        if byte.kind == from {
            byte.kind = to;
        }
    }
    join_free(bytes);
}

/// Whether there are bytes of a kind.
pub(crate) fn has(bytes: &[Byte], kind: Kind) -> bool {
    bytes.iter().any(|byte| byte.kind == kind)
}

pub(crate) fn cut_back(bytes: &mut Vec<Byte>, len: u32) -> u32 {
    drop_free(bytes, len as usize);
    number(bytes.len())
}

/// How many bytes of the piece that begins at a place are in use, or all of them where it isn't used.
fn len_at(bytes: &[Byte], pos: usize, size: usize) -> usize {
    let mut len = 0usize;
    for at in pos..pos.saturating_add(size).min(bytes.len()) {
        if bytes[at].in_use || bytes[at].kind != Kind::Used {
            len = len.saturating_add(1);
        }
    }
    len
}

pub(crate) fn pieces(alloc: Global, bytes: &[Byte]) -> Result<Vec<Piece>, Memory> {
    let mut pieces = Vec::new(alloc);
    for at in 0..bytes.len() {
        let byte = bytes[at];
        if byte.begins {
            let size = size_at(bytes, at);
            pieces.push(Piece {
                pos: number(at),
                len: number(len_at(bytes, at, size)),
                size: number(size),
                kind: byte.kind,
                owner: byte.owner,
            })?;
        }
    }
    Ok(pieces)
}

/// The size of the free piece that begins at a place, if it has at least 8 bytes.
fn roomy_at(bytes: &[Byte], at: usize) -> Option<usize> {
    let size = size_at(bytes, at);
    if at < bytes.len() && bytes[at].begins && bytes[at].kind == Kind::Free && 8 <= size {
        Some(size)
    } else {
        None
    }
}

pub(crate) fn next_free(bytes: &[Byte], from: u32) -> Option<(u32, u32)> {
    for at in from as usize..bytes.len() {
        if let Some(size) = roomy_at(bytes, at) {
            return Some((number(at), number(size)));
        }
    }
    None
}

fn in_use(bytes: &[Byte]) -> u32 {
    let mut used = 0u32;
    for byte in bytes {
        if byte.in_use {
            used = used.saturating_add(1);
        }
    }
    used
}

pub(crate) fn totals(bytes: &[Byte]) -> Totals {
    let mut totals = Totals {
        size: number(bytes.len()),
        used: in_use(bytes),
        free: 0,
        free_total: 0,
        free_largest: 0,
        free_number: 0,
        free_imbed: 0,
    };
    for at in 0..bytes.len() {
        if let Some(size) = roomy_at(bytes, at) {
            if totals.free_number == 0 {
                totals.free = number(at);
            }
            totals.free_number = totals.free_number.saturating_add(1);
            totals.free_total = totals.free_total.saturating_add(number(size));
            totals.free_largest = totals.free_largest.max(number(size));
        }
    }
    let known = totals.used.saturating_add(totals.free_total);
    totals.free_imbed = totals.size.saturating_sub(known);
    totals
}
