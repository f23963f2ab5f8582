//! Images, made by hand.

use crate::model::Shape;
use std::alloc::{AllocError, Global};

/// An image in the making. What isn't set yet is null in a base, and left to the layer below in a shadow.
#[derive(Drop)]
pub struct Maker {
    shape: Shape,
    big: bool,
    shadow: bool,
    null_format: u8,
    file: Vec<u8>,
}

/// Puts bytes over those of a file, as far as it reaches.
pub fn patch(file: &mut [u8], at: usize, bytes: &[u8]) {
    let Some(rest) = file.get_mut(at..) else {
        return;
    };
    for (place, byte) in rest.iter_mut().zip(bytes) {
        *place = *byte;
    }
}

impl Maker {
    pub fn new(
        alloc: Global,
        shape: Shape,
        big: bool,
        shadow: bool,
        null_format: u8,
    ) -> Result<Maker, AllocError> {
        let mut made = Maker {
            shape,
            big,
            shadow,
            null_format,
            file: vec![in alloc; 0; shape.area()]?,
        };
        made.set_headers();
        for group in 0..shape.groups() {
            made.set_word(group, if shadow { u32::MAX } else { 0 });
        }
        Ok(made)
    }

    fn set_headers(&mut self) {
        let name = if self.shadow {
            b"CKD_S370"
        } else {
            b"CKD_C370"
        };
        let options = if self.big { 2 } else { 0 };
        let groups = u32::try_from(self.shape.groups()).unwrap_or(0);
        patch(&mut self.file, 0, name);
        patch(&mut self.file, 8, &(self.shape.heads as u32).to_le_bytes());
        patch(
            &mut self.file,
            12,
            &(self.shape.track_size as u32).to_le_bytes(),
        );
        patch(&mut self.file, 16, b"\x90");
        patch(&mut self.file, 512, &[0, 3, 1, options]);
        self.set_four(516, groups);
        self.set_four(520, 256);
        patch(
            &mut self.file,
            552,
            &(self.shape.cylinders as u32).to_le_bytes(),
        );
        patch(&mut self.file, 556, &[self.null_format, 0, 0xff, 0xff]);
    }

    fn set_four(&mut self, at: usize, value: u32) {
        let bytes = if self.big {
            value.to_be_bytes()
        } else {
            value.to_le_bytes()
        };
        patch(&mut self.file, at, &bytes);
    }

    fn set_two(&mut self, at: usize, value: u16) {
        let bytes = if self.big {
            value.to_be_bytes()
        } else {
            value.to_le_bytes()
        };
        patch(&mut self.file, at, &bytes);
    }

    /// Sets the word of a group.
    pub fn set_word(&mut self, group: usize, word: u32) {
        self.set_four(group.wrapping_mul(4).wrapping_add(1024), word);
    }

    /// Adds bytes that nothing uses.
    pub fn add_gap(&mut self, len: usize) -> Result<(), AllocError> {
        let end = self.file.len().wrapping_add(len);
        self.file.resize(end, 0xa5)
    }

    /// Adds a space so many bytes behind the next multiple of 8, and answers where it is.
    fn add_space(&mut self, skew: usize, len: usize) -> Result<usize, AllocError> {
        let over = self.file.len() % 8;
        let gap = if over == 0 {
            0
        } else {
            8usize.wrapping_sub(over)
        };
        self.add_gap(gap.wrapping_add(skew))?;
        let at = self.file.len();
        self.file.resize(at.wrapping_add(len), 0)?;
        Ok(at)
    }

    /// Adds a table for a group, and answers where it is.
    pub fn add_table(&mut self, group: usize, skew: usize) -> Result<usize, AllocError> {
        let table = self.add_space(skew, 2048)?;
        self.set_word(group, u32::try_from(table).unwrap_or(0));
        for index in 0..256usize {
            if self.shadow {
                self.set_below(table, index);
            } else {
                self.set_null(table, index, self.null_format);
            }
        }
        Ok(table)
    }

    fn set_entry(&mut self, table: usize, index: usize, at: u32, len: u16, size: u16) {
        let place = index.wrapping_mul(8).wrapping_add(table);
        self.set_four(place, at);
        self.set_two(place.wrapping_add(4), len);
        self.set_two(place.wrapping_add(6), size);
    }

    pub fn set_null(&mut self, table: usize, index: usize, format: u8) {
        self.set_entry(table, index, 0, format as u16, format as u16);
    }

    pub fn set_below(&mut self, table: usize, index: usize) {
        self.set_entry(table, index, u32::MAX, u16::MAX, u16::MAX);
    }

    /// Adds the bytes of a track, in a space that is longer by some.
    pub fn add_track(
        &mut self,
        table: usize,
        index: usize,
        bytes: &[u8],
        skew: usize,
        spare: u16,
    ) -> Result<(), AllocError> {
        let len = u16::try_from(bytes.len()).unwrap_or(0);
        let size = len.saturating_add(spare);
        let at = self.add_space(skew, size as usize)?;
        patch(&mut self.file, at, bytes);
        self.set_entry(table, index, u32::try_from(at).unwrap_or(0), len, size);
        Ok(())
    }

    /// Ends the file so many bytes before its last space does.
    pub fn cut_short(&mut self, bytes: u16) {
        let len = self.file.len().saturating_sub(bytes as usize);
        self.file.truncate(len);
    }

    /// The image. Of its totals it has its size alone: mounting looks at none.
    pub fn into_file(self) -> Vec<u8> {
        let mut made = self;
        let size = u32::try_from(made.file.len()).unwrap_or(0);
        made.set_four(524, size);
        made.file
    }
}
