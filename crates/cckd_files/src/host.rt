//! The stage over real files, standard input and standard output. It tells nothing of what they hold.
ghost use Rattle.std.specs.Prelude.{◌≡◌, ◌+◌, ◌<◌, ◌≤◌, length, IfOk, IfSome};
ghost use Rattle.cckd_shelf.specs.Faults.{no_faults};

use crate::host_file::HostFile;
use crate::streams::{Streams, read_input};
use cckd_shelf::{Failed, Faults, Kind, Shelf, Shows, Slot, Stage};
use std::alloc::Global;
use std::fs::Metadata;
use std::io;

/// Files of the operating system, standard input and standard output. A failure raises the count of its
/// kind by one.
#[derive(Drop)]
pub struct HostStage {
    rt: HostRuntime,
    alloc: Global,
    streams: Streams,
    /// One for each name that was bound, in the order of their first binds.
    files: Vec<HostFile>,
    calls: u64,
    faults: Faults,
}

impl HostStage {
    /// Takes no memory.
    pub fn new(rt: HostRuntime, alloc: Global) -> HostStage
        ensures calls { result.calls ≡ 0 }
        ensures faults { result.faults ≡ no_faults }
    {
        HostStage {
            rt,
            alloc,
            streams: Streams::new(alloc),
            files: Vec::new(alloc),
            calls: 0,
            faults: Faults::none(),
        }
    }
}

fn count_call(calls: &mut u64)
    ensures fell { calls.old ≤ calls.new }
    ensures once { calls.new ≤ calls.old + 1 }
{
    *calls = calls.saturating_add(1);
}

/// Gives the slot the file of the name, and takes it from another slot that has it. No file is opened before the
/// descriptors of the standard streams are taken.
fn bind(
    rt: &HostRuntime,
    alloc: Global,
    streams: &mut Streams,
    files: &mut Vec<HostFile>,
    slot: u8,
    name: &str,
) -> io::Result<()> {
    streams.take_descriptors(rt)?;
    if !files.iter().any(|file| file.has_name(name)) {
        let file = HostFile::open(rt, alloc, name)?;
        if let Some(found) = file.metadata()? {
            require_no_other(files, &found)?;
            streams.keep_apart(rt, &found);
        }
        files.push(file)?;
    }
    for file in files.iter_mut() {
        if file.has_name(name) {
            file.put_in(slot);
        } else {
            file.take_from(slot);
        }
    }
    Ok(())
}

/// A file that another name has is refused: what one name holds would change with the other.
fn require_no_other(files: &[HostFile], found: &Metadata) -> io::Result<()> {
    if files.iter().any(|file| file.is_that_of(found)) {
        return Err(io::ErrorKind::InvalidInput.into());
    }
    Ok(())
}

fn place_of(files: &[HostFile], slot: Slot) -> Option<usize>
    ensures { IfSome result (λ at. at < length files.now) }
{
    files.iter().position(|file| file.is_in(slot.get()))
}

impl Shows for HostStage {
    ghost use Rattle.std.specs.Prelude.{false, [], None};

    ghost tells = { false };

    ghost world = { λ _. record { files = λ _. None; events = []; script = [] } };

    ghost faults = { λ s. s.faults };

    ghost calls = { λ s. s.calls };

    ghost tied = { λ s told. absurd told };
}

impl Shelf for HostStage {
    fn bind(&mut self, slot: Slot, name: &str) -> Result<(), Failed> {
        count_call(&mut self.calls);
        let outcome = bind(
            &self.rt,
            self.alloc,
            &mut self.streams,
            &mut self.files,
            slot.get(),
            name,
        );
        match outcome {
            Ok(()) => Ok(()),
            Err(_) => Err(self.faults.raise(Kind::Reads)),
        }
    }

    fn len(&mut self, slot: Slot) -> Result<u64, Failed> {
        count_call(&mut self.calls);
        let Some(at) = place_of(&self.files, slot) else {
            return Ok(0);
        };
        match self.files[at].len() {
            Ok(len) => Ok(len),
            Err(_) => Err(self.faults.raise(Kind::Reads)),
        }
    }

    fn read(&mut self, slot: Slot, pos: u64, into: &mut [u8]) -> Result<(), Failed> {
        count_call(&mut self.calls);
        let outcome = match place_of(&self.files, slot) {
            Some(at) => self.files[at].read(pos, into),
            None if into.is_empty() => Ok(()),
            None => Err(io::ErrorKind::NotFound.into()),
        };
        match outcome {
            Ok(()) => Ok(()),
            Err(_) => Err(self.faults.raise(Kind::Reads)),
        }
    }

    fn write(&mut self, slot: Slot, pos: u64, bytes: &[u8]) -> Result<(), Failed> {
        count_call(&mut self.calls);
        let outcome = match place_of(&self.files, slot) {
            Some(at) => self.files[at].write(&self.rt, pos, bytes),
            None => Err(io::ErrorKind::NotFound.into()),
        };
        match outcome {
            Ok(()) => Ok(()),
            Err(_) => Err(self.faults.raise(Kind::Writes)),
        }
    }

    fn cut(&mut self, slot: Slot, len: u64) -> Result<(), Failed> {
        count_call(&mut self.calls);
        let Some(at) = place_of(&self.files, slot) else {
            return Ok(());
        };
        match self.files[at].cut(&self.rt, len) {
            Ok(()) => Ok(()),
            Err(_) => Err(self.faults.raise(Kind::Writes)),
        }
    }

    fn sync(&mut self, slot: Slot) -> Result<(), Failed> {
        count_call(&mut self.calls);
        let Some(at) = place_of(&self.files, slot) else {
            return Ok(());
        };
        match self.files[at].sync(&self.rt) {
            Ok(()) => Ok(()),
            Err(_) => Err(self.faults.raise(Kind::Syncs)),
        }
    }
}

impl Stage for HostStage {
    fn take(&mut self, into: &mut [u8]) -> Result<usize, Failed> {
        count_call(&mut self.calls);
        match read_input(&self.rt, into) {
            Ok(n) => Ok(n),
            Err(_) => Err(self.faults.raise(Kind::Takes)),
        }
    }

    fn put(&mut self, bytes: &[u8]) -> Result<usize, Failed> {
        count_call(&mut self.calls);
        match self.streams.write(&self.rt, bytes) {
            Ok(n) => Ok(n),
            Err(_) => Err(self.faults.raise(Kind::Puts)),
        }
    }
}
