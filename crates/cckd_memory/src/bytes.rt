//! Bytes that contracts see as a list.
ghost use Rattle.std.specs.Prelude.{◌≡◌, ◌+◌, ◌^◌, ◌<◌, ◌++◌, [], length, take, drop, ◌≤◌, IfOk, OnOk, OnErr};
ghost use Rattle.cckd_shelf.specs.Files.{overlaid};

use std::alloc::Global;
use std::marker::Model;

/// Want of memory.
pub type Memory = std::alloc::AllocError;

/// A `Vec` of bytes that contracts see as the list of them.
#[derive(Debug, Drop)]
pub struct Bytes {
    items: Vec<u8>,
}

impl Model for Bytes {
    ghost use Rattle.std.specs.Prelude.{List, ℕ};

    ghost Value = { List ℕ };

    ghost view = { λ b. b.items.items };
}

impl Bytes {
    /// A copy of these bytes, or want of memory for it.
    pub fn of(alloc: Global, bytes: &[u8]) -> Result<Bytes, Memory>
        ensures { IfOk result (λ b. b ≡ bytes.now) }
    {
        let items = Vec::from_slice(alloc, bytes)?;
        Ok(Bytes { items })
    }

    /// No bytes. Takes no memory.
    pub fn empty(alloc: Global) -> Bytes
        ensures { result ≡ [] }
    {
        Bytes {
            items: Vec::new(alloc),
        }
    }

    /// The bytes of a `Vec`. Takes no memory.
    pub fn from_vec(items: Vec<u8>) -> Bytes
        ensures { result ≡ items.items }
    {
        Bytes { items }
    }

    /// The bytes as a `Vec`. Takes no memory.
    pub fn into_vec(self) -> Vec<u8>
        ensures { result.items ≡ self }
    {
        let Bytes { items } = self;
        items
    }

    pub fn get(&self) -> &[u8]
        ensures { result.now ≡ self.now }
    {
        self.items.as_slice()
    }

    pub(crate) fn add(&mut self, bytes: &[u8]) -> Result<(), Memory>
        ensures added { OnOk result (self.new ≡ self.old ++ bytes.now) }
        ensures kept { OnErr result (self.new ≡ self.old) }
    {
        self.items.extend_from_slice(bytes)
    }

    pub(crate) fn cut(&mut self, len: usize)
        ensures { self.new ≡ take len self.old }
    {
        self.items.truncate(len);
    }

    /// Puts the bytes at `pos`, and zeros into a gap before them.
    pub(crate) fn overlay(&mut self, pos: usize, bytes: &[u8]) -> Result<(), Memory>
        requires { pos + length bytes.now < 2 ^ 63 }
        ensures put { OnOk result (self.new ≡ overlaid self.old pos bytes.now) }
        ensures kept { OnErr result (self.new ≡ self.old) }
    {
        overlay(&mut self.items, pos, bytes)
    }
}

fn overlay(file: &mut Vec<u8>, pos: usize, bytes: &[u8]) -> Result<(), Memory>
    requires { pos + length bytes.now < 2 ^ 63 }
    ensures put { OnOk result (file.new.items ≡ overlaid file.old.items pos bytes.now) }
    ensures kept { OnErr result (file.new.items ≡ file.old.items) }
{
    let end = pos + bytes.len();
    if end <= file.len() {
        copy_over(file.as_mut_slice(), pos, bytes);
        return Ok(());
    }
    file.resize(end, 0)?;
    copy_over(file.as_mut_slice(), pos, bytes);
    Ok(())
}

fn copy_over(file: &mut [u8], pos: usize, bytes: &[u8])
    requires { pos + length bytes.now ≤ length file.old }
    ensures { file.new ≡ take pos file.old ++ (bytes.now ++ drop (pos + length bytes.now) file.old) }
{
    file[pos..pos + bytes.len()].copy_from_slice(bytes);
}

/// A file by its name.
#[derive(Debug, Drop)]
pub struct FileIn {
    pub name: Bytes,
    pub bytes: Bytes,
}
