//! A plain model of the layered disk: a list of maps from tracks to bytes.

use crate::lines::Line;
use crate::tracks::{Address, filled_track, flaw_of, is_counted};
use std::alloc::{AllocError, Global};

/// The shape of a disk.
#[derive(Clone, Copy)]
pub struct Shape {
    pub heads: u16,
    pub cylinders: u16,
    pub track_size: u16,
}

impl Shape {
    pub fn tracks(self) -> usize {
        (self.heads as usize).wrapping_mul(self.cylinders as usize)
    }

    pub fn groups(self) -> usize {
        self.tracks().div_ceil(256)
    }

    /// Where the tables of a file begin at the earliest.
    pub fn area(self) -> usize {
        self.groups().wrapping_mul(4).wrapping_add(1024)
    }

    pub fn address(self, track: usize) -> Address {
        if self.heads == 0 {
            return Address {
                cylinder: 0,
                head: 0,
            };
        }
        let heads = self.heads as usize;
        Address {
            cylinder: u16::try_from(track / heads).unwrap_or(0),
            head: u16::try_from(track % heads).unwrap_or(0),
        }
    }

    pub fn track(self, at: Address) -> Option<usize> {
        if at.cylinder >= self.cylinders || at.head >= self.heads {
            return None;
        }
        let before = (at.cylinder as usize).wrapping_mul(self.heads as usize);
        Some(before.wrapping_add(at.head as usize))
    }
}

/// What a layer has of each track: bytes, or none where the layer below is asked.
pub type Layer = Vec<Option<Vec<u8>>>;

/// What a line does to the disk, if it isn't refused.
#[derive(Drop)]
pub enum Effect {
    Nothing,
    Wrote { track: usize, bytes: Vec<u8> },
    Hardened,
    Closed,
}

/// What the model says of a line: the answer without its end, and what the line then did.
#[derive(Drop)]
pub struct Expected {
    pub text: String,
    pub effect: Effect,
    /// A line that is no call is answered the same on a broken disk.
    pub is_call: bool,
}

impl Expected {
    fn reply(text: String) -> Expected {
        Expected {
            text,
            effect: Effect::Nothing,
            is_call: true,
        }
    }
}

/// A base and the shadows on it.
#[derive(Drop)]
pub struct Disk {
    pub shape: Shape,
    pub layers: Vec<Layer>,
}

impl Disk {
    /// What the disk shows of a track.
    fn visible(&self, track: usize) -> Option<&Vec<u8>> {
        for layer in self.layers.iter().rev() {
            if let Some(Some(bytes)) = layer.get(track) {
                return Some(bytes);
            }
        }
        None
    }

    /// What a line is answered. A line without a call or a fault of its own has no answer.
    pub fn expected(&self, alloc: Global, line: &Line) -> Result<Option<Expected>, AllocError> {
        let said = match line {
            Line::Silent(_) => return Ok(None),
            Line::Misread { column, .. } => Expected {
                text: format!(in alloc; "refused: line fault at column {column}")?,
                effect: Effect::Nothing,
                is_call: false,
            },
            Line::Read(at) => Expected::reply(self.read(alloc, *at)?),
            Line::Write(at, bytes) => self.written(alloc, *at, bytes)?,
            Line::Fill(at, len, byte) => {
                let bytes = filled_track(alloc, *at, *len, *byte)?;
                self.written(alloc, *at, &bytes)?
            }
            Line::Harden => Expected {
                text: String::from_str(alloc, "hardened")?,
                effect: Effect::Hardened,
                is_call: true,
            },
            Line::Display => Expected::reply(self.shown(alloc)?),
            Line::Check(level) => Expected::reply(self.checked(alloc, *level)?),
            Line::Close => Expected {
                text: String::from_str(alloc, "closed")?,
                effect: Effect::Closed,
                is_call: true,
            },
        };
        Ok(Some(said))
    }

    fn read(&self, alloc: Global, at: Address) -> Result<String, AllocError> {
        let Some(track) = self.shape.track(at) else {
            return String::from_str(alloc, NO_TRACK);
        };
        let Some(bytes) = self.visible(track) else {
            return String::from_str(alloc, "a base leaves no track out");
        };
        if let Some(flaw) = flaw_of(bytes, at, self.shape.track_size as usize) {
            return flaw.text(alloc);
        }
        let Address { cylinder, head } = at;
        let len = bytes.len();
        let mut text = format!(in alloc; "track {cylinder} {head} {len} 00")?;
        push_digits(&mut text, bytes.get(1..).unwrap_or(&[]))?;
        Ok(text)
    }

    fn written(&self, alloc: Global, at: Address, bytes: &[u8]) -> Result<Expected, AllocError> {
        let Some(track) = self.shape.track(at) else {
            return Ok(Expected::reply(String::from_str(alloc, NO_TRACK)?));
        };
        if let Some(flaw) = flaw_of(bytes, at, self.shape.track_size as usize) {
            return Ok(Expected::reply(flaw.text(alloc)?));
        }
        let Address { cylinder, head } = at;
        let len = bytes.len();
        let mut value = Vec::from_slice(alloc, bytes)?;
        if let Some(first) = value.first_mut() {
            *first = 0;
        }
        Ok(Expected {
            text: format!(in alloc; "written {cylinder} {head} {len}")?,
            effect: Effect::Wrote {
                track,
                bytes: value,
            },
            is_call: true,
        })
    }

    fn shown(&self, alloc: Global) -> Result<String, AllocError> {
        let count = self.layers.len();
        let mut text = format!(in alloc; "layers {count}:")?;
        for layer in &self.layers {
            let tracks = layer.iter().filter(|track| track.is_some()).count();
            write!(text, " {tracks}")?;
        }
        Ok(text)
    }

    fn checked(&self, alloc: Global, level: u8) -> Result<String, AllocError> {
        let mut bad = 0usize;
        for layer in &self.layers {
            bad = bad.wrapping_add(bad_tracks(layer, self.shape, level));
        }
        format!(in alloc; "checked {level}: {bad} bad")
    }

    /// Puts bytes into the last layer.
    pub fn store(&mut self, track: usize, bytes: Vec<u8>) {
        let Some(layer) = self.layers.last_mut() else {
            return;
        };
        if let Some(place) = layer.get_mut(track) {
            *place = Some(bytes);
        }
    }
}

const NO_TRACK: &str = "refused: no such track";

fn bad_tracks(layer: &Layer, shape: Shape, level: u8) -> usize {
    let mut bad = 0usize;
    for (track, held) in layer.iter().enumerate() {
        let Some(bytes) = held else {
            continue;
        };
        if is_counted(
            bytes,
            shape.address(track),
            shape.track_size as usize,
            level,
        ) {
            bad = bad.wrapping_add(1);
        }
    }
    bad
}

/// Adds two digits for each byte.
pub fn push_digits(text: &mut String, bytes: &[u8]) -> Result<(), AllocError> {
    for byte in bytes {
        text.push(digit(*byte / 16))?;
        text.push(digit(*byte % 16))?;
    }
    Ok(())
}

fn digit(value: u8) -> char {
    match value {
        0..=9 => char::from(b'0'.wrapping_add(value)),
        _ => char::from(b'a'.wrapping_add(value.wrapping_sub(10))),
    }
}
