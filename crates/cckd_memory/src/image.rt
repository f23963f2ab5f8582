//! One outcome of a stop, for tests.
ghost use Rattle.std.specs.Prelude.{◌≡◌, ℕ, drop, slice_index_or, IfOk, OnOk};
ghost use Rattle.cckd_shelf.specs.Files.{overlaid};
ghost use Rattle.cckd_shelf.specs.Outcomes.{IsOutcome};
ghost use Rattle.cckd_memory.specs.Ops.{event_of, events_from};
ghost use Rattle.cckd_memory.specs.Images.{write_by, cut_by, used_after, held_after, left_after, chosen};

use crate::{Bytes, Memory, Op};
use cckd_shelf::Slot;
use std::alloc::{AllocError, Global};

/// One outcome of a stop for a slot whose file was `start`, after these operations. The bytes of `choices`
/// decide in turn on the slot's writes and cuts since its last sync: 0 leaves one out, and another byte
/// makes it. A write that isn't inside one sector isn't made as it is: the byte fills its range and its gap.
/// Past the end of `choices` nothing is made.
pub fn image_of(
    alloc: Global,
    start: &[u8],
    ops: &[Op],
    slot: Slot,
    choices: &[u8],
) -> Result<Vec<u8>, Memory>
    ensures outcome { IfOk result (λ image. IsOutcome (events_from slot start.now ops.now) slot image.items) }
    ensures chosen { IfOk result (λ image. image.items ≡ chosen choices.now slot start.now ops.now) }
{
    let at = slot.get();
    let mut held = Bytes::of(alloc, start)?;
    let mut left = Bytes::of(alloc, start)?;
    let mut rest = choices;
    for op in ops {
        let choice = first_of(rest);
        rest = rest_after(op, at, rest, choices);
        leave(alloc, op, at, choice, &held, &mut left)?;
        hold(alloc, op, at, choice, &mut held)?;
    }
    Ok(left.into_vec())
}

fn first_of(choices: &[u8]) -> u8
    ensures { result ≡ slice_index_or choices.now 0 0 }
{
    match choices {
        [choice, ..] => *choice,
        [] => 0,
    }
}

/// The choices for the operations after this one.
fn rest_after<'a>(op: &Op, at: u8, rest: &'a [u8], all: &'a [u8]) -> &'a [u8]
    ensures { (n : ℕ) → rest.now ≡ drop n all.now → result.now ≡ drop (used_after at (event_of op.now) n) all.now }
{
    match op {
        Op::Sync { slot } if *slot == at => all,
        Op::Write { slot, .. } if *slot == at => without_first(rest),
        Op::Torn { slot, .. } if *slot == at => without_first(rest),
        Op::Cut { slot, .. } if *slot == at => without_first(rest),
        Op::HalfCut { slot, .. } if *slot == at => without_first(rest),
        _ => rest,
    }
}

fn without_first(choices: &[u8]) -> &[u8]
    ensures { result.now ≡ drop 1 choices.now }
{
    match choices {
        [_, rest @ ..] => rest,
        [] => choices,
    }
}

/// Makes the operation on what the slot holds. One that failed half way goes by the choice.
fn hold(alloc: Global, op: &Op, at: u8, choice: u8, held: &mut Bytes) -> Result<(), Memory>
    ensures { OnOk result (held.new ≡ held_after choice at (event_of op.now) held.old) }
{
    match op {
        Op::Write { slot, pos, bytes } if *slot == at => write_whole(held, *pos, bytes.get()),
        Op::Torn { slot, pos, bytes } if *slot == at => {
            leave_write(alloc, held, *pos, bytes.get(), choice)
        }
        Op::Cut { slot, len } if *slot == at => {
            held.cut(*len as usize);
            Ok(())
        }
        Op::HalfCut { slot, len } if *slot == at => {
            leave_cut(held, *len, choice);
            Ok(())
        }
        _ => Ok(()),
    }
}

/// Makes the operation on what a stop leaves, as the choice says, where the slot held this before it.
fn leave(
    alloc: Global,
    op: &Op,
    at: u8,
    choice: u8,
    held: &Bytes,
    left: &mut Bytes,
) -> Result<(), Memory>
    ensures { OnOk result (left.new ≡ left_after choice at (event_of op.now) held.now left.old) }
{
    match op {
        Op::Write { slot, pos, bytes } if *slot == at => {
            leave_write(alloc, left, *pos, bytes.get(), choice)
        }
        Op::Torn { slot, pos, bytes } if *slot == at => {
            leave_write(alloc, left, *pos, bytes.get(), choice)
        }
        Op::Cut { slot, len } if *slot == at => {
            leave_cut(left, *len, choice);
            Ok(())
        }
        Op::HalfCut { slot, len } if *slot == at => {
            leave_cut(left, *len, choice);
            Ok(())
        }
        Op::Sync { slot } if *slot == at => {
            *left = Bytes::of(alloc, held.get())?;
            Ok(())
        }
        _ => Ok(()),
    }
}

fn write_whole(file: &mut Bytes, pos: u64, bytes: &[u8]) -> Result<(), Memory>
    ensures { OnOk result (file.new ≡ overlaid file.old pos bytes.now) }
{
    if pos >= MOST || bytes.len() as u64 >= MOST - pos {
        return Err(AllocError);
    }
    file.overlay(pos as usize, bytes)
}

const MOST: u64 = 1 << 63;

const SECTOR: u64 = 512;

fn leave_cut(file: &mut Bytes, len: u64, choice: u8)
    ensures { file.new ≡ cut_by choice len file.old }
{
    if choice != 0 {
        file.cut(len as usize);
    }
}

/// What a write that isn't synced leaves by a choice.
fn leave_write(
    alloc: Global,
    file: &mut Bytes,
    pos: u64,
    bytes: &[u8],
    choice: u8,
) -> Result<(), Memory>
    ensures { OnOk result (file.new ≡ write_by choice pos bytes.now file.old) }
{
    if choice == 0 {
        return Ok(());
    }
    if pos >= MOST || bytes.len() as u64 >= MOST - pos {
        return Err(AllocError);
    }
    if pos % SECTOR + bytes.len() as u64 <= SECTOR {
        file.overlay(pos as usize, bytes)?;
        return Ok(());
    }
    let from = file.get().len().min(pos as usize);
    let mut fill = Vec::new(alloc);
    fill.resize(pos as usize + bytes.len() - from, choice)?;
    file.overlay(from, &fill)?;
    Ok(())
}
