//! A stage in memory, which tells all that it holds.
ghost use Rattle.std.specs.Prelude.{◌≡◌, ◌+◌, ◌^◌, ◌<◌, ◌≤◌, length, map, drop, take, IfOk, OnOk, OnErr};
ghost use Rattle.std.specs.Option.{option_copied};
ghost use Rattle.cckd_shelf.specs.Events.{ops_of, output_of};
ghost use Rattle.cckd_shelf.specs.declared.fault.Kind.TheVariants.{Reads, Writes, Syncs, Takes, Puts};
ghost use Rattle.cckd_shelf.specs.Seen.{Stays, Makes, MayMake, Fails, Called, IsLength, HasBytes, IsPart, AreNext};
ghost use Rattle.cckd_shelf.specs.World.{after_bind, after_write, after_torn, after_cut, after_half_cut, after_sync, after_take, after_put};
ghost use Rattle.cckd_memory.specs.Files.{fresh};

use crate::counts::Counts;
use crate::holdings::Holdings;
use crate::parts::{copy_front, copy_part};
use crate::{Bytes, FileIn, Memory, Op};
use cckd_shelf::{Failed, Kind, Shelf, Shows, Slot, Stage};
use std::alloc::Global;

/// Files, a script and an output in memory. A call fails exactly where its number, counted from 1, is
/// listed as failing, or where memory was wanted in it.
#[derive(Debug, Drop)]
pub struct MemoryStage {
    held: Holdings,
    script: Bytes,
    taken: usize,
    counts: Counts,
    ghost within: { taken ≤ length script },
}

impl MemoryStage {
    ghost use Rattle.cckd_memory.specs.Memory.{world_of, counts_of};
    ghost use Rattle.cckd_memory.specs.Counts.{IsFresh};
    ghost use Rattle.cckd_memory.specs.Ops.{event_of};

    /// A stage with these files and this script. The calls of the numbers in `failing` are to fail, counted from
    /// 1 over all calls of both traits.
    pub fn new(
        alloc: Global,
        files: &[FileIn],
        script: &[u8],
        failing: &[u64],
    ) -> Result<MemoryStage, Memory>
        ensures world { IfOk result (λ stage. world_of stage ≡ fresh files.now script.now) }
        ensures counts { IfOk result (λ stage. IsFresh failing.now (counts_of stage)) }
    {
        Ok(MemoryStage {
            held: Holdings::new(alloc, files)?,
            script: Bytes::of(alloc, script)?,
            taken: 0,
            counts: Counts::new(alloc, failing)?,
        })
    }

    /// What the name holds, where a file has it.
    pub fn file(&self, name: &str) -> Option<&[u8]>
        ensures { option_copied result ≡ (world_of self.now).files name.now }
    {
        self.held.file(name.as_bytes())
    }

    /// All that was put.
    pub fn output(&self) -> &[u8]
        ensures { result.now ≡ output_of (world_of self.now).events }
    {
        self.held.history.output()
    }

    /// All operations, the oldest first.
    pub fn ops(&self) -> &[Op]
        ensures { map event_of result.now ≡ ops_of (world_of self.now).events }
    {
        self.held.history.ops()
    }

    /// What is left of the script.
    fn rest(&self) -> &[u8]
        ensures rest { result.now ≡ drop self.now.taken self.now.script }
        ensures short { self.now.taken + length result.now < 2 ^ 64 }
    {
        &self.script.get()[self.taken..]
    }

    /// How many calls failed for want of memory.
    pub fn wanted(&self) -> u64
        ensures { result ≡ (counts_of self.now).wanted }
    {
        self.counts.wanted()
    }
}

impl Shows for MemoryStage {
    ghost use Rattle.std.specs.Prelude.{true};
    ghost use Rattle.cckd_memory.specs.Memory.{world_of, world_tied};

    ghost tells = { true };

    ghost world = { world_of };

    ghost faults = { λ s. s.counts.faults };

    ghost calls = { λ s. s.counts.calls };

    ghost tied = { λ s _. world_tied s };
}

impl Shelf for MemoryStage {
    ghost use Rattle.cckd_memory.specs.Memory.{counts_of, seen_of, Notes};
    ghost use Rattle.cckd_memory.specs.Counts.{Counted, NeedsNone};

    fn bind(&mut self, slot: Slot, name: &str) -> Result<(), Failed>
        ensures bound { OnOk result (Makes (after_bind slot name.now) (seen_of self.old) (seen_of self.new)) }
        ensures kept { OnErr result (Stays (seen_of self.old) (seen_of self.new)) }
        ensures fails { Fails Reads result (seen_of self.old) (seen_of self.new) }
        ensures called { Called (seen_of self.old) (seen_of self.new) }
        ensures counted { Counted Reads result (counts_of self.old) (counts_of self.new) }
    {
        if self.counts.begin() {
            return Err(self.counts.fail(Kind::Reads));
        }
        let Ok(()) = self.held.bind(slot, name.as_bytes()) else {
            return Err(self.counts.fail_wanting(Kind::Reads));
        };
        Ok(())
    }

    fn len(&mut self, slot: Slot) -> Result<u64, Failed>
        ensures len { IfOk result (λ n. IsLength slot n (seen_of self.old)) }
        ensures kept { Stays (seen_of self.old) (seen_of self.new) }
        ensures fails { Fails Reads result (seen_of self.old) (seen_of self.new) }
        ensures called { Called (seen_of self.old) (seen_of self.new) }
        ensures counted { Counted Reads result (counts_of self.old) (counts_of self.new) }
        ensures needs { NeedsNone (counts_of self.old) (counts_of self.new) }
    {
        if self.counts.begin() {
            return Err(self.counts.fail(Kind::Reads));
        }
        Ok(self.held.get(slot).len() as u64)
    }

    fn read(&mut self, slot: Slot, pos: u64, into: &mut [u8]) -> Result<(), Failed>
        requires { HasBytes slot (pos + length into.old) (seen_of self.old) }
        ensures bytes { OnOk result (IsPart slot pos (length into.old) into.new (seen_of self.old)) }
        ensures kept { Stays (seen_of self.old) (seen_of self.new) }
        ensures fails { Fails Reads result (seen_of self.old) (seen_of self.new) }
        ensures called { Called (seen_of self.old) (seen_of self.new) }
        ensures counted { Counted Reads result (counts_of self.old) (counts_of self.new) }
        ensures needs { NeedsNone (counts_of self.old) (counts_of self.new) }
    {
        if self.counts.begin() {
            return Err(self.counts.fail(Kind::Reads));
        }
        copy_part(self.held.get(slot), pos, into);
        Ok(())
    }

    fn write(&mut self, slot: Slot, pos: u64, bytes: &[u8]) -> Result<(), Failed>
        requires { pos + length bytes.now < 2 ^ 63 }
        ensures written { OnOk result (Makes (after_write slot pos bytes.now) (seen_of self.old) (seen_of self.new)) }
        ensures torn { OnErr result (MayMake (after_torn slot pos bytes.now) (seen_of self.old) (seen_of self.new)) }
        ensures noted { OnErr result (Notes (after_torn slot pos bytes.now) self.old self.new) }
        ensures fails { Fails Writes result (seen_of self.old) (seen_of self.new) }
        ensures called { Called (seen_of self.old) (seen_of self.new) }
        ensures counted { Counted Writes result (counts_of self.old) (counts_of self.new) }
    {
        let listed = self.counts.begin();
        let Ok(()) = self.held.write(listed, slot, pos, bytes) else {
            return Err(self.counts.fail_wanting(Kind::Writes));
        };
        if listed {
            return Err(self.counts.fail(Kind::Writes));
        }
        Ok(())
    }

    fn cut(&mut self, slot: Slot, len: u64) -> Result<(), Failed>
        ensures cut { OnOk result (Makes (after_cut slot len) (seen_of self.old) (seen_of self.new)) }
        ensures half { OnErr result (MayMake (after_half_cut slot len) (seen_of self.old) (seen_of self.new)) }
        ensures noted { OnErr result (Notes (after_half_cut slot len) self.old self.new) }
        ensures fails { Fails Writes result (seen_of self.old) (seen_of self.new) }
        ensures called { Called (seen_of self.old) (seen_of self.new) }
        ensures counted { Counted Writes result (counts_of self.old) (counts_of self.new) }
    {
        let listed = self.counts.begin();
        let Ok(()) = self.held.cut(listed, slot, len) else {
            return Err(self.counts.fail_wanting(Kind::Writes));
        };
        if listed {
            return Err(self.counts.fail(Kind::Writes));
        }
        Ok(())
    }

    fn sync(&mut self, slot: Slot) -> Result<(), Failed>
        ensures synced { OnOk result (Makes (after_sync slot) (seen_of self.old) (seen_of self.new)) }
        ensures kept { OnErr result (Stays (seen_of self.old) (seen_of self.new)) }
        ensures fails { Fails Syncs result (seen_of self.old) (seen_of self.new) }
        ensures called { Called (seen_of self.old) (seen_of self.new) }
        ensures counted { Counted Syncs result (counts_of self.old) (counts_of self.new) }
    {
        if self.counts.begin() {
            return Err(self.counts.fail(Kind::Syncs));
        }
        let Ok(()) = self.held.sync(slot) else {
            return Err(self.counts.fail_wanting(Kind::Syncs));
        };
        Ok(())
    }
}

impl Stage for MemoryStage {
    ghost use Rattle.cckd_memory.specs.Memory.{counts_of, seen_of};
    ghost use Rattle.cckd_memory.specs.Counts.{Counted, NeedsNone};

    fn take(&mut self, into: &mut [u8]) -> Result<usize, Failed>
        requires { 0 < length into.old }
        ensures fits { IfOk result (λ n. n ≤ length into.old) }
        ensures next { IfOk result (λ n. AreNext n into.new (seen_of self.old)) }
        ensures left { IfOk result (λ n. Makes (after_take n) (seen_of self.old) (seen_of self.new)) }
        ensures kept { OnErr result (Stays (seen_of self.old) (seen_of self.new)) }
        ensures fails { Fails Takes result (seen_of self.old) (seen_of self.new) }
        ensures called { Called (seen_of self.old) (seen_of self.new) }
        ensures counted { Counted Takes result (counts_of self.old) (counts_of self.new) }
        ensures needs { NeedsNone (counts_of self.old) (counts_of self.new) }
    {
        if self.counts.begin() {
            return Err(self.counts.fail(Kind::Takes));
        }
        let n = copy_front(self.rest(), into);
        self.taken += n;
        Ok(n)
    }

    fn put(&mut self, bytes: &[u8]) -> Result<usize, Failed>
        ensures fits { IfOk result (λ n. n ≤ length bytes.now) }
        ensures some { IfOk result (λ n. 0 < length bytes.now → 0 < n) }
        ensures put { IfOk result (λ n. Makes (after_put (take n bytes.now)) (seen_of self.old) (seen_of self.new)) }
        ensures kept { OnErr result (Stays (seen_of self.old) (seen_of self.new)) }
        ensures fails { Fails Puts result (seen_of self.old) (seen_of self.new) }
        ensures called { Called (seen_of self.old) (seen_of self.new) }
        ensures counted { Counted Puts result (counts_of self.old) (counts_of self.new) }
    {
        if self.counts.begin() {
            return Err(self.counts.fail(Kind::Puts));
        }
        let Ok(()) = self.held.put(bytes) else {
            return Err(self.counts.fail_wanting(Kind::Puts));
        };
        Ok(bytes.len())
    }
}
