//! An opener of images, which reads their tables plainly.

use crate::model::{Layer, Shape};
use crate::tracks::null_track;
use std::alloc::{AllocError, Global};

/// What an image holds.
#[derive(Drop)]
pub struct Opened {
    pub layer: Layer,
    /// What is wrong with it, if anything is: the rest of it then means nothing.
    pub problem: Option<&'static str>,
    /// The bytes of its file that are in use behind the words: the position and length of each space.
    spaces: Vec<(usize, usize)>,
    /// The sum that its header should have as used.
    used: usize,
}

/// A file, and how its numbers are written.
#[derive(Drop)]
struct File<'a> {
    bytes: &'a [u8],
    big: bool,
    shadow: bool,
    shape: Shape,
}

/// A number of four bytes, or 0 where the file ends before.
fn four(bytes: &[u8], at: usize, big: bool) -> usize {
    match bytes.get(at..at.wrapping_add(4)) {
        Some([a, b, c, d]) if big => u32::from_be_bytes([*a, *b, *c, *d]) as usize,
        Some([a, b, c, d]) => u32::from_le_bytes([*a, *b, *c, *d]) as usize,
        _ => 0,
    }
}

fn two(bytes: &[u8], at: usize, big: bool) -> usize {
    match bytes.get(at..at.wrapping_add(2)) {
        Some([a, b]) if big => u16::from_be_bytes([*a, *b]) as usize,
        Some([a, b]) => u16::from_le_bytes([*a, *b]) as usize,
        _ => 0,
    }
}

/// The option byte.
pub fn options(bytes: &[u8]) -> u8 {
    bytes.get(515).copied().unwrap_or(0)
}

/// Whether a file says that it was opened and not closed.
pub fn is_marked(bytes: &[u8]) -> bool {
    options(bytes) >= 128
}

/// Opens an image of this shape.
pub fn open(alloc: Global, bytes: &[u8], shape: Shape, shadow: bool) -> Result<Opened, AllocError> {
    let big = options(bytes) / 2 % 2 == 1;
    let file = File {
        bytes,
        big,
        shadow,
        shape,
    };
    let mut opened = Opened {
        layer: Vec::new(alloc),
        problem: file.header_problem(),
        spaces: Vec::new(alloc),
        used: shape.area(),
    };
    for group in 0..shape.groups() {
        opened.add_group(alloc, &file, group)?;
    }
    opened.spaces.sort()?;
    opened.find_overlap(shape.area());
    Ok(opened)
}

impl File<'_> {
    fn header_problem(&self) -> Option<&'static str> {
        let name = if self.shadow {
            b"CKD_S370"
        } else {
            b"CKD_C370"
        };
        let bytes = self.bytes;
        if bytes.get(..8) != Some(name.as_slice()) {
            return Some("another identifier");
        }
        if bytes.len() < self.shape.area() {
            return Some("too short");
        }
        if four(bytes, 8, false) != self.shape.heads as usize
            || four(bytes, 12, false) != self.shape.track_size as usize
            || four(bytes, 552, false) != self.shape.cylinders as usize
        {
            return Some("another geometry");
        }
        if four(bytes, 516, self.big) != self.shape.groups() || four(bytes, 520, self.big) != 256 {
            return Some("other counts");
        }
        if bytes.get(556).copied().unwrap_or(2) > 1 {
            return Some("another null format");
        }
        None
    }
}

/// The word and the position that stand for the layer below.
const BELOW: usize = 0xffff_ffff;

impl Opened {
    fn fail(&mut self, problem: &'static str) {
        if self.problem.is_none() {
            self.problem = Some(problem);
        }
    }

    fn add_group(&mut self, alloc: Global, file: &File, group: usize) -> Result<(), AllocError> {
        let table = four(
            file.bytes,
            group.wrapping_mul(4).wrapping_add(1024),
            file.big,
        );
        if table != 0 && table != BELOW {
            self.add_table(file, table)?;
        }
        let first = group.wrapping_mul(256);
        let last = file.shape.tracks().min(first.wrapping_add(256));
        for track in first..last {
            let held = self.track(alloc, file, table, track)?;
            self.layer.push(held).map_err(AllocError::from)?;
        }
        Ok(())
    }

    fn add_table(&mut self, file: &File, table: usize) -> Result<(), AllocError> {
        if table < file.shape.area() || table.saturating_add(2048) > file.bytes.len() {
            self.fail("a table out of bounds");
        }
        self.spaces.push((table, 2048))?;
        self.used = self.used.wrapping_add(2048);
        Ok(())
    }

    /// What a track holds whose group has this word.
    fn track(
        &mut self,
        alloc: Global,
        file: &File,
        table: usize,
        track: usize,
    ) -> Result<Option<Vec<u8>>, AllocError> {
        if table == 0 {
            let format = file.bytes.get(556).copied().unwrap_or(0);
            return Ok(Some(null_track(alloc, file.shape.address(track), format)?));
        }
        if table == BELOW {
            return Ok(self.below(file));
        }
        let entry = (track % 256).wrapping_mul(8).wrapping_add(table);
        let at = four(file.bytes, entry, file.big);
        if at == BELOW {
            return Ok(self.below(file));
        }
        let len = two(file.bytes, entry.wrapping_add(4), file.big);
        if at == 0 {
            return Ok(Some(self.null(alloc, file, track, len)?));
        }
        let size = two(file.bytes, entry.wrapping_add(6), file.big);
        Ok(Some(self.stored(alloc, file, at, len, size)?))
    }

    /// A track that is left to the layer below.
    fn below(&mut self, file: &File) -> Option<Vec<u8>> {
        if !file.shadow {
            self.fail("a base that leaves a track out");
        }
        None
    }

    /// A null track of the format that its entry has as length.
    fn null(
        &mut self,
        alloc: Global,
        file: &File,
        track: usize,
        len: usize,
    ) -> Result<Vec<u8>, AllocError> {
        if len > 1 {
            self.fail("a null entry of another format");
        }
        let format = if len == 0 { 0 } else { 1 };
        null_track(alloc, file.shape.address(track), format)
    }

    fn stored(
        &mut self,
        alloc: Global,
        file: &File,
        at: usize,
        len: usize,
        size: usize,
    ) -> Result<Vec<u8>, AllocError> {
        if at < file.shape.area() || len == 0 || len > size {
            self.fail("a bad entry");
        }
        let end = file.bytes.len();
        let space = size.min(end.saturating_sub(at));
        self.spaces.push((at, space))?;
        self.used = self.used.wrapping_add(len);
        match file.bytes.get(at..at.wrapping_add(len)) {
            Some(bytes) => Vec::from_slice(alloc, bytes),
            None => {
                self.fail("a track past the end");
                Ok(Vec::new(alloc))
            }
        }
    }

    /// Looks whether two spaces share a byte.
    fn find_overlap(&mut self, area: usize) {
        let mut end = area;
        let mut overlaps = false;
        for (at, len) in &self.spaces {
            overlaps = overlaps || *at < end;
            end = at.wrapping_add(*len);
        }
        if overlaps {
            self.fail("spaces that overlap");
        }
    }

    /// What isn't as in a closed image of this layer, if anything isn't.
    pub fn closed_problem(
        &self,
        alloc: Global,
        bytes: &[u8],
        area: usize,
    ) -> Result<Option<&'static str>, AllocError> {
        if is_marked(bytes) {
            return Ok(Some("it is marked as open"));
        }
        let gaps = self.gaps(alloc, area, bytes.len())?;
        let big = options(bytes) / 2 % 2 == 1;
        if !is_chain(bytes, &gaps, big) {
            return Ok(Some("the chain isn't that of the free spaces"));
        }
        Ok(self.totals_problem(bytes, &gaps, big))
    }

    /// The free spaces of at least eight bytes.
    fn gaps(
        &self,
        alloc: Global,
        area: usize,
        len: usize,
    ) -> Result<Vec<(usize, usize)>, AllocError> {
        let mut gaps = Vec::new(alloc);
        let mut end = area;
        for (at, space) in &self.spaces {
            push_gap(&mut gaps, end, *at)?;
            end = at.wrapping_add(*space);
        }
        push_gap(&mut gaps, end, len)?;
        Ok(gaps)
    }

    fn totals_problem(
        &self,
        bytes: &[u8],
        gaps: &[(usize, usize)],
        big: bool,
    ) -> Option<&'static str> {
        let mut total = 0usize;
        let mut largest = 0usize;
        for (_, len) in gaps {
            total = total.wrapping_add(*len);
            largest = largest.max(*len);
        }
        let size = bytes.len();
        let imbedded = size.wrapping_sub(self.used).wrapping_sub(total);
        let rows = [
            (524, size, "another size"),
            (528, self.used, "another sum of used bytes"),
            (536, total, "another sum of free bytes"),
            (540, largest, "another largest free space"),
            (544, gaps.len(), "another number of free spaces"),
            (548, imbedded, "another sum of imbedded bytes"),
        ];
        first_wrong(bytes, &rows, big)
    }
}

/// The first field that isn't as its row says.
fn first_wrong(
    bytes: &[u8],
    rows: &[(usize, usize, &'static str)],
    big: bool,
) -> Option<&'static str> {
    for (at, value, problem) in rows {
        if four(bytes, *at, big) != *value {
            return Some(*problem);
        }
    }
    None
}

fn push_gap(gaps: &mut Vec<(usize, usize)>, from: usize, to: usize) -> Result<(), AllocError> {
    let len = to.saturating_sub(from);
    if len >= 8 {
        gaps.push((from, len))?;
    }
    Ok(())
}

/// Whether the chain of free spaces has exactly these.
fn is_chain(bytes: &[u8], gaps: &[(usize, usize)], big: bool) -> bool {
    let mut place = 532;
    for (at, len) in gaps {
        if four(bytes, place, big) != *at || four(bytes, at.wrapping_add(4), big) != *len {
            return false;
        }
        place = *at;
    }
    four(bytes, place, big) == 0
}
