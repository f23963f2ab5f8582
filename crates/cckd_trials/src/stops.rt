//! What a stop may leave of a layer.

use crate::maker::patch;
use crate::model::{Effect, Layer};
use cckd_memory::Op;
use std::alloc::{AllocError, Global};

/// How many lines these operations put.
pub fn lines_put(ops: &[Op]) -> usize {
    let mut lines = 0usize;
    for op in ops {
        if let Op::Put { bytes } = op {
            let ends = bytes.get().iter().filter(|byte| **byte == b'\n').count();
            lines = lines.wrapping_add(ends);
        }
    }
    lines
}

/// Whether a track may hold these bytes behind so many answers, one more call being under way: it was hardened with
/// them last, or they were written later.
fn may_hold(
    start: &Option<Vec<u8>>,
    effects: &[Effect],
    answered: usize,
    track: usize,
    held: &Option<Vec<u8>>,
) -> bool {
    let mut hardened = false;
    let count = effects.len().min(answered.wrapping_add(1));
    for (number, effect) in effects.iter().enumerate().take(count).rev() {
        match effect {
            Effect::Nothing => {}
            Effect::Hardened => hardened = hardened || number < answered,
            Effect::Closed => hardened = hardened || number < answered,
            Effect::Wrote {
                track: written,
                bytes,
            } if *written == track => {
                if held.as_ref() == Some(bytes) {
                    return true;
                }
                if hardened {
                    return false;
                }
            }
            Effect::Wrote { .. } => {}
        }
    }
    held == start
}

/// The first track that doesn't hold what a stop may leave, if any doesn't.
pub fn lost_track(
    start: &Layer,
    effects: &[Effect],
    answered: usize,
    left: &Layer,
) -> Option<usize> {
    for (track, held) in left.iter().enumerate() {
        let before = start.get(track).unwrap_or(&None);
        if !may_hold(before, effects, answered, track, held) {
            return Some(track);
        }
    }
    None
}

/// What a slot's file is, with all operations made as they were asked.
pub fn made_of(alloc: Global, start: &[u8], ops: &[Op], at: u8) -> Result<Vec<u8>, AllocError> {
    let mut file = Vec::from_slice(alloc, start)?;
    for op in ops {
        match op {
            Op::Write { slot, pos, bytes } | Op::Torn { slot, pos, bytes } if *slot == at => {
                put_over(&mut file, *pos as usize, bytes.get())?
            }
            Op::Cut { slot, len } | Op::HalfCut { slot, len } if *slot == at => {
                file.truncate(*len as usize)
            }
            _ => {}
        }
    }
    Ok(file)
}

fn put_over(file: &mut Vec<u8>, at: usize, bytes: &[u8]) -> Result<(), AllocError> {
    let end = at.wrapping_add(bytes.len());
    if file.len() < end {
        file.resize(end, 0)?;
    }
    patch(file, at, bytes);
    Ok(())
}
