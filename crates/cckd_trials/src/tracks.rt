//! The bytes of tracks, and what is wrong with some.

use std::alloc::{AllocError, Global};

/// A cylinder and a head.
#[derive(Clone, Copy)]
pub struct Address {
    pub cylinder: u16,
    pub head: u16,
}

const END: [u8; 8] = [0xff; 8];

/// Adds a home address and the first record, whose eight bytes are zeros.
fn add_start(bytes: &mut Vec<u8>, at: Address) -> Result<(), AllocError> {
    bytes.push(0)?;
    bytes.extend_from_slice(&at.cylinder.to_be_bytes())?;
    bytes.extend_from_slice(&at.head.to_be_bytes())?;
    add_count(bytes, at, 0, 0, 8)?;
    bytes.extend_from_slice(&[0; 8])
}

fn add_count(
    bytes: &mut Vec<u8>,
    at: Address,
    number: u8,
    key: u8,
    len: u16,
) -> Result<(), AllocError> {
    bytes.extend_from_slice(&at.cylinder.to_be_bytes())?;
    bytes.extend_from_slice(&at.head.to_be_bytes())?;
    bytes.extend_from_slice(&[number, key])?;
    bytes.extend_from_slice(&len.to_be_bytes())
}

fn add_many(bytes: &mut Vec<u8>, byte: u8, count: usize) -> Result<(), AllocError> {
    let len = bytes.len().wrapping_add(count);
    bytes.resize(len, byte)
}

/// A track without data. Of format 0 it has an empty record 1.
pub fn null_track(alloc: Global, at: Address, format: u8) -> Result<Vec<u8>, AllocError> {
    let mut bytes = Vec::new(alloc);
    add_start(&mut bytes, at)?;
    if format == 0 {
        add_count(&mut bytes, at, 1, 0, 0)?;
    }
    bytes.extend_from_slice(&END)?;
    Ok(bytes)
}

/// A track with a record 1 of so many bytes.
pub fn filled_track(alloc: Global, at: Address, len: u16, byte: u8) -> Result<Vec<u8>, AllocError> {
    let mut bytes = Vec::new(alloc);
    add_start(&mut bytes, at)?;
    add_count(&mut bytes, at, 1, 0, len)?;
    add_many(&mut bytes, byte, len as usize)?;
    bytes.extend_from_slice(&END)?;
    Ok(bytes)
}

/// A track with two records, one of which has a key.
pub fn keyed_track(
    alloc: Global,
    at: Address,
    key: u8,
    len: u16,
    byte: u8,
) -> Result<Vec<u8>, AllocError> {
    let mut bytes = Vec::new(alloc);
    add_start(&mut bytes, at)?;
    add_count(&mut bytes, at, 7, key, len)?;
    add_many(&mut bytes, byte, key as usize)?;
    add_many(&mut bytes, !byte, len as usize)?;
    add_count(&mut bytes, at, 2, 0, 1)?;
    bytes.push(byte)?;
    bytes.extend_from_slice(&END)?;
    Ok(bytes)
}

/// What is wrong with the bytes of a track.
#[derive(Clone, Copy)]
pub enum Flaw {
    TooLong { len: usize, most: usize },
    NoEnd { at: usize },
    Compressed { byte: u8 },
    WrongTrack { cylinder: u16, head: u16 },
    BadRecord { at: usize },
}

impl Flaw {
    /// What a line that meets it is answered.
    pub fn text(self, alloc: Global) -> Result<String, AllocError> {
        match self {
            Flaw::TooLong { len, most } => {
                format!(in alloc; "refused: track too long {len} over {most}")
            }
            Flaw::NoEnd { at } => format!(in alloc; "refused: no end at {at}"),
            Flaw::Compressed { byte } => format!(in alloc; "refused: compressed {byte}"),
            Flaw::WrongTrack { cylinder, head } => {
                format!(in alloc; "refused: wrong track {cylinder} {head}")
            }
            Flaw::BadRecord { at } => format!(in alloc; "refused: bad record at {at}"),
        }
    }
}

/// A number of two bytes, or 0 where they aren't there.
fn pair(bytes: &[u8], at: usize) -> u16 {
    match bytes.get(at..at.wrapping_add(2)) {
        Some([first, second]) => u16::from_be_bytes([*first, *second]),
        _ => 0,
    }
}

/// The first thing that is wrong with the bytes of the track that is there, if anything is.
pub fn flaw_of(bytes: &[u8], at: Address, most: usize) -> Option<Flaw> {
    let len = bytes.len();
    if len > most {
        return Some(Flaw::TooLong { len, most });
    }
    let [byte, _, _, _, _, ..] = bytes else {
        return Some(Flaw::NoEnd { at: len });
    };
    if *byte % 4 != 0 {
        return Some(Flaw::Compressed { byte: *byte });
    }
    let cylinder = pair(bytes, 1);
    let head = pair(bytes, 3);
    if cylinder != at.cylinder || head != at.head {
        return Some(Flaw::WrongTrack { cylinder, head });
    }
    record_flaw(bytes)
}

enum Step {
    Next(usize),
    End,
    Bad(Flaw),
}

/// What is wrong with the records of a track.
fn record_flaw(bytes: &[u8]) -> Option<Flaw> {
    let mut at = 5;
    for _ in 0..bytes.len() {
        match read_record(bytes, at) {
            Step::Next(next) => at = next,
            Step::End => return None,
            Step::Bad(flaw) => return Some(flaw),
        }
    }
    Some(Flaw::NoEnd { at })
}

fn read_record(bytes: &[u8], at: usize) -> Step {
    let data = at.wrapping_add(8);
    let Some(count) = bytes.get(at..data) else {
        return Step::Bad(Flaw::NoEnd { at });
    };
    if count == END.as_slice() {
        return end_at(bytes.len(), at, data);
    }
    let [_, _, _, _, number, key, _, _] = count else {
        return Step::Bad(Flaw::NoEnd { at });
    };
    let body = pair(count, 6);
    let next = data.wrapping_add(*key as usize).wrapping_add(body as usize);
    let fits = if at == 5 {
        *number == 0 && *key == 0 && body == 8
    } else {
        *number != 0
    };
    if fits && next <= bytes.len() {
        Step::Next(next)
    } else {
        Step::Bad(Flaw::BadRecord { at })
    }
}

/// What an end mark means that stands from `at` to `behind` in a track of so many bytes.
fn end_at(len: usize, at: usize, behind: usize) -> Step {
    if at == 5 {
        Step::Bad(Flaw::BadRecord { at: 5 })
    } else if behind < len {
        Step::Bad(Flaw::BadRecord { at: behind })
    } else {
        Step::End
    }
}

/// Whether a check at a level counts these bytes as bad.
pub fn is_counted(bytes: &[u8], at: Address, most: usize, level: u8) -> bool {
    match flaw_of(bytes, at, most) {
        None => false,
        Some(Flaw::Compressed { .. }) => false,
        Some(_) if level == 3 => true,
        Some(_) if level == 2 => is_misplaced(bytes, at),
        Some(_) => false,
    }
}

fn is_misplaced(bytes: &[u8], at: Address) -> bool {
    match bytes {
        [byte, _, _, _, _, ..] => {
            *byte % 4 == 0 && (pair(bytes, 1) != at.cylinder || pair(bytes, 3) != at.head)
        }
        _ => true,
    }
}
