//! One file of the operating system.

use std::alloc::Global;
use std::fs::{self, File, Metadata, OpenOptions};
use std::io;
use std::os::unix::fs::{FileExt, MetadataExt};
use std::path::Path;

/// What is open of a file.
#[derive(Drop)]
enum Handle {
    /// No file had the name when it was first bound.
    Absent,
    Reading(File),
    Writing(File),
}

/// What a sync of a file has to keep.
#[derive(Clone, Copy, PartialEq, Eq)]
enum Owed {
    Bytes,
    /// The file was opened for writing, and its folder not synced since.
    BytesAndFolder,
    /// A sync failed. The system may have dropped what it couldn't write, and would answer the next sync all the same.
    TooMuch,
}

/// The file of a name. It stays open from the name's first bind on, whatever is bound later, so that the name
/// keeps its file, and the file what a sync of it owes.
#[derive(Drop)]
pub(crate) struct HostFile {
    name: String,
    /// The slot that has the name now.
    slot: Option<u8>,
    handle: Handle,
    owed: Owed,
}

impl HostFile {
    /// Opens the file for reading, in no slot yet. An absent one is not made, and what isn't a regular file
    /// is refused.
    pub(crate) fn open(rt: &HostRuntime, alloc: Global, name: &str) -> io::Result<HostFile> {
        let name = String::from_str(alloc, name)?;
        let handle = match fs::symlink_metadata(rt, name.as_str()) {
            Ok(_) => Handle::Reading(open_regular(rt, name.as_str())?),
            Err(error) if error.kind() == io::ErrorKind::NotFound => Handle::Absent,
            Err(error) => return Err(error),
        };
        Ok(HostFile {
            name,
            slot: None,
            handle,
            owed: Owed::Bytes,
        })
    }

    pub(crate) fn has_name(&self, name: &str) -> bool {
        self.name.as_str() == name
    }

    /// What the file is now. None where no file has the name.
    pub(crate) fn metadata(&self) -> io::Result<Option<Metadata>> {
        match &self.handle {
            Handle::Absent => Ok(None),
            Handle::Reading(file) | Handle::Writing(file) => Ok(Some(file.metadata()?)),
        }
    }

    /// Whether what was looked at is this file.
    pub(crate) fn is_that_of(&self, other: &Metadata) -> bool {
        match self.metadata() {
            Ok(Some(found)) => is_same(&found, other),
            _ => false,
        }
    }

    pub(crate) fn is_in(&self, slot: u8) -> bool {
        self.slot == Some(slot)
    }

    pub(crate) fn put_in(&mut self, slot: u8) {
        self.slot = Some(slot);
    }

    pub(crate) fn take_from(&mut self, slot: u8) {
        if self.is_in(slot) {
            self.slot = None;
        }
    }

    pub(crate) fn len(&self) -> io::Result<u64> {
        match self.metadata()? {
            Some(found) => Ok(found.len()),
            None => Ok(0),
        }
    }

    /// Fills `into` from `pos` on. A short read is continued, and fails at the file's end.
    pub(crate) fn read(&self, pos: u64, into: &mut [u8]) -> io::Result<()> {
        match &self.handle {
            Handle::Absent if into.is_empty() => Ok(()),
            Handle::Absent => Err(io::ErrorKind::UnexpectedEof.into()),
            Handle::Reading(file) | Handle::Writing(file) => file.read_exact_at(into, pos),
        }
    }

    /// Puts the bytes at `pos`. A write of no bytes past the end makes the file longer too.
    pub(crate) fn write(&mut self, rt: &HostRuntime, pos: u64, bytes: &[u8]) -> io::Result<()> {
        self.make_writable(rt)?;
        let Handle::Writing(file) = &self.handle else {
            return Err(io::ErrorKind::Other.into());
        };
        if bytes.is_empty() && file.metadata()?.len() < pos {
            return file.set_len(pos);
        }
        file.write_all_at(bytes, pos)
    }

    /// Makes the file no longer than `len`. An absent one is left as it is.
    pub(crate) fn cut(&mut self, rt: &HostRuntime, len: u64) -> io::Result<()> {
        if matches!(&self.handle, Handle::Absent) {
            return Ok(());
        }
        self.make_writable(rt)?;
        match &self.handle {
            Handle::Writing(file) if len < file.metadata()?.len() => file.set_len(len),
            Handle::Writing(_) => Ok(()),
            _ => Err(io::ErrorKind::Other.into()),
        }
    }

    /// Keeps what was written, and the file's entry in its folder. An absent file is left as it is.
    pub(crate) fn sync(&mut self, rt: &HostRuntime) -> io::Result<()> {
        if self.owed == Owed::TooMuch {
            return Err(io::ErrorKind::Other.into());
        }
        let outcome = match &self.handle {
            Handle::Absent => return Ok(()),
            Handle::Reading(file) | Handle::Writing(file) => self.sync_file(rt, file),
        };
        self.owed = if outcome.is_ok() {
            Owed::Bytes
        } else {
            Owed::TooMuch
        };
        outcome
    }

    /// A file's length is kept with its bytes. Only the times aren't, which nothing here asks for.
    fn sync_file(&self, rt: &HostRuntime, file: &File) -> io::Result<()> {
        file.sync_data()?;
        match self.owed {
            Owed::BytesAndFolder => sync_folder(rt, self.name.as_str()),
            _ => Ok(()),
        }
    }

    /// Opens the file for writing too, and makes an absent one. What has come to stand in its place is refused.
    fn make_writable(&mut self, rt: &HostRuntime) -> io::Result<()> {
        let mut options = OpenOptions::new();
        options.read(true).write(true);
        let file = match &self.handle {
            Handle::Writing(_) => return Ok(()),
            Handle::Absent => options.create_new(true).open(rt, self.name.as_str())?,
            Handle::Reading(bound) => {
                let file = options.open(rt, self.name.as_str())?;
                if !is_same(&bound.metadata()?, &file.metadata()?) {
                    return Err(io::ErrorKind::InvalidInput.into());
                }
                file
            }
        };
        self.handle = Handle::Writing(file);
        // The folder is synced once, also where the file was there: whoever made it may not have done so.
        // After that nobody makes the entry anew.
        if self.owed == Owed::Bytes {
            self.owed = Owed::BytesAndFolder;
        }
        Ok(())
    }
}

/// What the name stands for is looked at before it is opened, since opening a pipe waits for its other end, and
/// once more behind that.
fn open_regular(rt: &HostRuntime, name: &str) -> io::Result<File> {
    require_regular(&fs::metadata(rt, name)?)?;
    let file = File::open(rt, name)?;
    require_regular(&file.metadata()?)?;
    Ok(file)
}

/// A folder, a pipe or a device is refused.
fn require_regular(found: &Metadata) -> io::Result<()> {
    if found.is_file() {
        Ok(())
    } else {
        Err(io::ErrorKind::InvalidInput.into())
    }
}

/// Whether both are of one file. One of the two has to be open, so that its number is no other file's.
pub(crate) fn is_same(one: &Metadata, other: &Metadata) -> bool {
    one.dev() == other.dev() && one.ino() == other.ino()
}

/// Syncs the folder that has the file, also where the name is a link from elsewhere.
fn sync_folder(rt: &HostRuntime, name: &str) -> io::Result<()> {
    let path = fs::canonicalize(rt, name)?;
    let folder = path.parent().unwrap_or(Path::new("/"));
    File::open(rt, folder)?.sync_all()
}
