//! The files and slots of a stage in memory, with all that happened to them.
ghost use Rattle.std.specs.Prelude.{◌≡◌, ◌+◌, ◌^◌, ◌<◌, ℕ, List, length, OnOk, OnErr, IfOk};
ghost use Rattle.cckd_shelf.specs.Files.{bytes_at};
ghost use Rattle.cckd_shelf.specs.World.{file_of, after_bind, after_sync, after_put};
ghost use Rattle.cckd_memory.specs.Files.{file_named, fresh};
ghost use Rattle.std.specs.Option.{option_copied};
ghost use Rattle.cckd_memory.specs.Ops as ops;
ghost use Rattle.cckd_memory.specs.Inside.{IsStored};

use crate::copies::{copy_files, nine_places};
use crate::files::{copy_named, cut_held, give_name, held, named, overlay_held};
use crate::history::History;
use crate::places::Place;
use crate::{Bytes, FileIn, Memory, Op};
use cckd_shelf::Slot;
use std::alloc::Global;

#[derive(Debug, Drop)]
pub(crate) struct Holdings {
    pub(crate) alloc: Global,
    pub(crate) files: Vec<FileIn>,
    pub(crate) places: Vec<Place>,
    pub(crate) history: History,
    ghost stored: { IsStored (file_named files.items) places.items history },
}

impl Holdings {
    ghost use Rattle.cckd_memory.specs.Held.{world_in, after_overlay, after_cut_off};

    pub(crate) fn new(alloc: Global, files: &[FileIn]) -> Result<Holdings, Memory>
        ensures { IfOk result (λ held. (script : List ℕ) → world_in held script ≡ fresh files.now script) }
    {
        Ok(Holdings {
            alloc,
            files: copy_files(alloc, files)?,
            places: nine_places(alloc)?,
            history: History::new(alloc),
        })
    }

    pub(crate) fn file(&self, name: &[u8]) -> Option<&[u8]>
        ensures { option_copied result ≡ file_named self.now.files.items name.now }
    {
        named(&self.files, name)
    }

    pub(crate) fn get(&self, slot: Slot) -> &[u8]
        ensures { (script : List ℕ) → result.now ≡ file_of (world_in self.now script) slot }
    {
        held(&self.files, &self.places[slot.get() as usize])
    }

    pub(crate) fn bind(&mut self, slot: Slot, name: &[u8]) -> Result<(), Memory>
        ensures bound { (script : List ℕ) → OnOk result (world_in self.new script ≡ after_bind slot name.now (world_in self.old script)) }
        ensures kept { (script : List ℕ) → OnErr result (world_in self.new script ≡ world_in self.old script) }
    {
        let at = slot.get() as usize;
        if self.places[at].has_name(name) {
            return Ok(());
        }
        let bytes = copy_named(self.alloc, &self.files, name)?;
        let own = Bytes::of(self.alloc, name)?;
        let noted = Bytes::of(self.alloc, name)?;
        self.history.add_bound(slot.get(), noted, bytes)?;
        give_name(self.alloc, &mut self.places, at, name, own);
        Ok(())
    }

    /// Puts the bytes, and notes a write that was made or one that failed half way.
    pub(crate) fn write(
        &mut self,
        half: bool,
        slot: Slot,
        pos: u64,
        bytes: &[u8],
    ) -> Result<(), Memory>
        requires { pos + length bytes.now < 2 ^ 63 }
        ensures written { (script : List ℕ) → OnOk result (world_in self.new script ≡ after_overlay half slot pos bytes.now (world_in self.old script)) }
        ensures kept { (script : List ℕ) → OnErr result (world_in self.new script ≡ world_in self.old script) }
    {
        let at = slot.get();
        let copy = Bytes::of(self.alloc, bytes)?;
        self.history.add(write_op(half, at, pos, copy))?;
        let place = &mut self.places[at as usize];
        let Ok(()) = overlay_held(self.alloc, &mut self.files, place, pos as usize, bytes) else {
            self.history.take_back();
            return Err(std::alloc::AllocError);
        };
        Ok(())
    }

    /// Cuts the file, and notes a cut that was made or one that failed half way.
    pub(crate) fn cut(&mut self, half: bool, slot: Slot, len: u64) -> Result<(), Memory>
        ensures cut { (script : List ℕ) → OnOk result (world_in self.new script ≡ after_cut_off half slot len (world_in self.old script)) }
        ensures kept { (script : List ℕ) → OnErr result (world_in self.new script ≡ world_in self.old script) }
    {
        let at = slot.get();
        self.history.add(cut_op(half, at, len))?;
        let place = &mut self.places[at as usize];
        cut_held(&mut self.files, place, len as usize);
        Ok(())
    }

    pub(crate) fn sync(&mut self, slot: Slot) -> Result<(), Memory>
        ensures synced { (script : List ℕ) → OnOk result (world_in self.new script ≡ after_sync slot (world_in self.old script)) }
        ensures kept { (script : List ℕ) → OnErr result (world_in self.new script ≡ world_in self.old script) }
    {
        self.history.add(Op::Sync { slot: slot.get() })?;
        Ok(())
    }

    pub(crate) fn put(&mut self, bytes: &[u8]) -> Result<(), Memory>
        ensures put { (script : List ℕ) → OnOk result (world_in self.new script ≡ after_put bytes.now (world_in self.old script)) }
        ensures kept { (script : List ℕ) → OnErr result (world_in self.new script ≡ world_in self.old script) }
    {
        let copy = Bytes::of(self.alloc, bytes)?;
        self.history.add_put(copy)?;
        Ok(())
    }
}

fn write_op(half: bool, slot: u8, pos: u64, bytes: Bytes) -> Op
    ensures { result ≡ ops.write_op half slot pos bytes }
{
    if half {
        Op::Torn { slot, pos, bytes }
    } else {
        Op::Write { slot, pos, bytes }
    }
}

fn cut_op(half: bool, slot: u8, len: u64) -> Op
    ensures { result ≡ ops.cut_op half slot len }
{
    if half {
        Op::HalfCut { slot, len }
    } else {
        Op::Cut { slot, len }
    }
}
