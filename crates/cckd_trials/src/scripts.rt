//! Images and scripts at random.

use crate::dice::Dice;
use crate::lines::Line;
use crate::maker::Maker;
use crate::model::Shape;
use crate::tracks::{Address, filled_track, keyed_track, null_track};
use std::alloc::{AllocError, Global};

/// Shapes of one, two and three groups.
const SHAPES: [Shape; 4] = [
    Shape {
        heads: 4,
        cylinders: 12,
        track_size: 512,
    },
    Shape {
        heads: 15,
        cylinders: 20,
        track_size: 1024,
    },
    Shape {
        heads: 7,
        cylinders: 80,
        track_size: 4096,
    },
    Shape {
        heads: 1,
        cylinders: 256,
        track_size: 2048,
    },
];

pub fn random_shape(dice: &mut Dice) -> Shape {
    let [first, second, third, fourth] = SHAPES;
    match dice.below(4) {
        0 => first,
        1 => second,
        2 => third,
        _ => fourth,
    }
}

/// The shape of a disk with more tracks than can be staged at once.
pub fn long_shape() -> Shape {
    let [_, _, third, _] = SHAPES;
    third
}

fn small(dice: &mut Dice, below: usize) -> u16 {
    u16::try_from(dice.below(below)).unwrap_or(0)
}

/// A base and up to two shadows, each in a byte order of its own. A short image's last space passes its end.
pub fn random_files(
    alloc: Global,
    dice: &mut Dice,
    shape: Shape,
    short: bool,
) -> Result<Vec<Vec<u8>>, AllocError> {
    let mut files = Vec::new(alloc);
    for slot in 0..dice.below(3).wrapping_add(1) {
        files.push(random_image(alloc, dice, shape, slot > 0, short)?)?;
    }
    Ok(files)
}

fn random_image(
    alloc: Global,
    dice: &mut Dice,
    shape: Shape,
    shadow: bool,
    short: bool,
) -> Result<Vec<u8>, AllocError> {
    let big = dice.once_in(2);
    let format = dice.byte() % 2;
    let mut maker = Maker::new(alloc, shape, big, shadow, format)?;
    for group in 0..shape.groups() {
        add_group(alloc, dice, &mut maker, shape, shadow, group)?;
    }
    if short {
        add_short(alloc, dice, &mut maker, shape)?;
    } else if dice.once_in(3) {
        maker.add_gap(dice.below(300))?;
    }
    Ok(maker.into_file())
}

/// Adds a table with one track, whose space is longer than what is left of the file.
fn add_short(
    alloc: Global,
    dice: &mut Dice,
    maker: &mut Maker,
    shape: Shape,
) -> Result<(), AllocError> {
    let spare = small(dice, 30);
    let table = maker.add_table(0, 0)?;
    let bytes = filled_track(alloc, shape.address(2), small(dice, 30), dice.byte())?;
    maker.add_track(table, 2, &bytes, dice.below(8), spare)?;
    maker.cut_short(spare);
    Ok(())
}

/// Adds nothing, a word, or a table with some tracks.
fn add_group(
    alloc: Global,
    dice: &mut Dice,
    maker: &mut Maker,
    shape: Shape,
    shadow: bool,
    group: usize,
) -> Result<(), AllocError> {
    match dice.below(5) {
        0 => return Ok(()),
        1 => {
            maker.set_word(group, 0);
            return Ok(());
        }
        _ => {}
    }
    let skew = if dice.once_in(3) { dice.below(8) } else { 0 };
    let table = maker.add_table(group, skew)?;
    for _ in 0..dice.below(7) {
        let index = dice.below(256.min(shape.tracks()));
        let track = group.wrapping_mul(256).wrapping_add(index);
        add_entry(alloc, dice, maker, shape, shadow, table, track)?;
    }
    Ok(())
}

fn add_entry(
    alloc: Global,
    dice: &mut Dice,
    maker: &mut Maker,
    shape: Shape,
    shadow: bool,
    table: usize,
    track: usize,
) -> Result<(), AllocError> {
    let index = track % 256;
    match dice.below(6) {
        0 => maker.set_null(table, index, dice.byte() % 2),
        1 if shadow => maker.set_below(table, index),
        _ => {
            let bytes = random_track(alloc, dice, shape, shape.address(track))?;
            let skew = if dice.once_in(3) { dice.below(8) } else { 0 };
            let spare = if dice.once_in(2) { small(dice, 20) } else { 0 };
            if dice.once_in(4) {
                maker.add_gap(dice.below(200))?;
            }
            maker.add_track(table, index, &bytes, skew, spare)?;
        }
    }
    Ok(())
}

/// Bytes that mostly are those of the track that is there.
fn random_track(
    alloc: Global,
    dice: &mut Dice,
    shape: Shape,
    at: Address,
) -> Result<Vec<u8>, AllocError> {
    let most = (shape.track_size as usize).saturating_sub(37);
    let len = if dice.once_in(6) {
        small(dice, most.wrapping_add(1))
    } else {
        small(dice, most.min(150))
    };
    match dice.below(8) {
        0 => null_track(alloc, at, dice.byte() % 2),
        1 => keyed_track(alloc, at, dice.byte() % 16, small(dice, 40), dice.byte()),
        2 => spoiled_track(alloc, dice, at),
        _ => filled_track(alloc, at, len, dice.byte()),
    }
}

/// A track with a byte that is wrong, or may be.
fn spoiled_track(alloc: Global, dice: &mut Dice, at: Address) -> Result<Vec<u8>, AllocError> {
    let mut bytes = filled_track(alloc, at, small(dice, 20), dice.byte())?;
    let place = match dice.below(3) {
        0 => 0,
        1 => dice.below(37),
        _ => dice.below(bytes.len()),
    };
    if let Some(byte) = bytes.get_mut(place) {
        *byte = dice.byte();
    }
    match dice.below(5) {
        0 => bytes.truncate(dice.below(bytes.len()).wrapping_add(1)),
        1 => bytes.push(dice.byte())?,
        _ => {}
    }
    Ok(bytes)
}

/// Lines that are wrong, and the column where.
const MISREAD: [(&str, usize); 12] = [
    ("read 0", 7),
    ("read 0 x", 8),
    ("frobnicate", 1),
    ("harden now", 8),
    ("sfk 4", 5),
    ("sfd 1", 5),
    ("fill 0 0 8 a", 12),
    ("fill 0 0 65499 00", 10),
    ("write 0 0 a", 11),
    ("read 00 0", 6),
    (" read 0 0", 1),
    ("read 0 0 0", 10),
];

const SILENT: [&str; 3] = ["", "# a comment", "#read 0 0"];

fn misread_line(dice: &mut Dice) -> Line {
    if dice.once_in(4) {
        let text = SILENT.get(dice.below(3)).copied().unwrap_or("");
        return Line::Silent(text);
    }
    let (text, column) = MISREAD.get(dice.below(12)).copied().unwrap_or(("x", 1));
    Line::Misread { text, column }
}

/// Where the tracks are that a script asks for, most of the time.
#[derive(Drop)]
pub struct Haunt {
    shape: Shape,
    tracks: [usize; 5],
}

impl Haunt {
    pub fn new(dice: &mut Dice, shape: Shape) -> Haunt {
        let all = shape.tracks();
        Haunt {
            shape,
            tracks: [
                dice.below(all),
                dice.below(all),
                dice.below(all),
                dice.below(4),
                all.wrapping_sub(1),
            ],
        }
    }

    fn address(&self, dice: &mut Dice) -> Address {
        if dice.once_in(30) {
            return Address {
                cylinder: small(dice, 65_536),
                head: small(dice, 40),
            };
        }
        let track = if dice.once_in(6) {
            dice.below(self.shape.tracks())
        } else {
            self.tracks.get(dice.below(5)).copied().unwrap_or(0)
        };
        self.shape.address(track)
    }

    fn fill(&self, dice: &mut Dice) -> Line {
        let most = (self.shape.track_size as usize).saturating_sub(37);
        let len = match dice.below(30) {
            0 => most.wrapping_add(1),
            1 => most,
            2 => dice.below(65_499),
            3..=8 => dice.below(most),
            _ => dice.below(most.min(150)),
        };
        let len = u16::try_from(len).unwrap_or(0);
        Line::Fill(self.address(dice), len, dice.byte())
    }

    fn line(&self, alloc: Global, dice: &mut Dice) -> Result<Line, AllocError> {
        let line = match dice.below(20) {
            0..=6 => self.fill(dice),
            7..=8 => {
                let at = self.address(dice);
                Line::Write(at, random_track(alloc, dice, self.shape, at)?)
            }
            9..=13 => Line::Read(self.address(dice)),
            14..=16 => Line::Harden,
            17 => Line::Display,
            18 => Line::Check(dice.byte() % 4),
            _ => misread_line(dice),
        };
        Ok(line)
    }

    /// A script of so many lines, and its end.
    pub fn script(
        &self,
        alloc: Global,
        dice: &mut Dice,
        count: usize,
    ) -> Result<Vec<Line>, AllocError> {
        let mut lines = Vec::new(alloc);
        for _ in 0..count {
            lines
                .push(self.line(alloc, dice)?)
                .map_err(AllocError::from)?;
        }
        lines.push(Line::Close).map_err(AllocError::from)?;
        Ok(lines)
    }
}

/// A write of each track in turn, and its end: more than can be staged at once.
pub fn long_script(alloc: Global, dice: &mut Dice, shape: Shape) -> Result<Vec<Line>, AllocError> {
    let mut lines = Vec::new(alloc);
    for track in 0..shape.tracks() {
        let line = Line::Fill(shape.address(track), small(dice, 9), dice.byte());
        lines.push(line).map_err(AllocError::from)?;
    }
    lines.push(Line::Close).map_err(AllocError::from)?;
    Ok(lines)
}

/// A limit that a file is near to, or none.
pub fn random_limit(dice: &mut Dice, files: &[Vec<u8>]) -> Option<usize> {
    let Some(last) = files.last() else {
        return None;
    };
    let more = match dice.below(4) {
        0 => dice.below(100),
        1 => dice.below(600),
        _ => return None,
    };
    let limit = last.len().div_ceil(8).wrapping_add(more).wrapping_mul(8);
    Some(limit.max(4096))
}

/// A script that reads these tracks, shows and checks, and ends.
pub fn reading_script(
    alloc: Global,
    shape: Shape,
    tracks: &[usize],
) -> Result<Vec<Line>, AllocError> {
    let mut lines = Vec::new(alloc);
    for track in tracks {
        lines
            .push(Line::Read(shape.address(*track)))
            .map_err(AllocError::from)?;
    }
    lines.push(Line::Display).map_err(AllocError::from)?;
    lines.push(Line::Check(3)).map_err(AllocError::from)?;
    lines.push(Line::Close).map_err(AllocError::from)?;
    Ok(lines)
}
