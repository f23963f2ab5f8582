//! Standard input and standard output, and what keeps disk files apart from them.
ghost use Rattle.std.specs.Prelude.{◌<◌, ◌≤◌, length, IfOk};

use crate::host_file::is_same;
use std::alloc::Global;
use std::fs::{self, File, Metadata};
use std::io::{self, Read, Write};
use std::os::fd::AsRawFd;

/// Standard input, output and error have the descriptors below it.
const FIRST_OTHER: i32 = 3;

/// It holds nothing, and opened for reading it takes no byte.
const NOTHING: &str = "/dev/null";

/// The name by which the output can be looked at.
const OUTPUT: &str = "/dev/stdout";

/// What of the standard streams isn't as the process got it.
#[derive(Drop)]
pub(crate) struct Streams {
    /// They have the descriptors of streams that were closed at the start.
    stand_ins: Vec<File>,
    are_all_taken: bool,
    /// The output writes a file that was bound.
    is_output_bound: bool,
}

impl Streams {
    /// Takes no memory.
    pub(crate) fn new(alloc: Global) -> Streams {
        Streams {
            stand_ins: Vec::new(alloc),
            are_all_taken: false,
            is_output_bound: false,
        }
    }

    /// Behind an Ok no file that is opened gets the descriptor of a standard stream.
    pub(crate) fn take_descriptors(&mut self, rt: &HostRuntime) -> io::Result<()> {
        if self.are_all_taken {
            return Ok(());
        }
        for _ in 0..FIRST_OTHER {
            // A file gets the least descriptor that is free.
            let file = File::open(rt, NOTHING)?;
            if file.as_raw_fd() >= FIRST_OTHER {
                break;
            }
            self.stand_ins.push(file)?;
        }
        self.are_all_taken = true;
        Ok(())
    }

    /// A bound file that the output writes too would be written over: from then on each put fails.
    pub(crate) fn keep_apart(&mut self, rt: &HostRuntime, bound: &Metadata) {
        if let Ok(output) = fs::metadata(rt, OUTPUT)
            && is_same(&output, bound)
        {
            self.is_output_bound = true;
        }
    }

    /// Writes to standard output, again where that was interrupted and took nothing. Of a piece that isn't
    /// empty it has to take a byte.
    pub(crate) fn write(&self, rt: &HostRuntime, bytes: &[u8]) -> io::Result<usize>
        ensures fits { IfOk result (λ n. n ≤ length bytes.now) }
        ensures some { IfOk result (λ n. 0 < length bytes.now → 0 < n) }
    {
        if self.is_output_bound {
            return Err(io::ErrorKind::PermissionDenied.into());
        }
        for _ in 0..u64::MAX {
            match rt.stdout().write(bytes) {
                Ok(0) if !bytes.is_empty() => return Err(io::ErrorKind::WriteZero.into()),
                Ok(n) => return Ok(n),
                Err(error) if error.kind() == io::ErrorKind::Interrupted => {}
                Err(error) => return Err(error),
            }
        }
        Err(io::ErrorKind::Interrupted.into())
    }
}

/// Reads from standard input, again where that was interrupted and took nothing.
pub(crate) fn read_input(rt: &HostRuntime, into: &mut [u8]) -> io::Result<usize>
    ensures { IfOk result (λ n. n ≤ length into.old) }
{
    for _ in 0..u64::MAX {
        match rt.stdin().read(into) {
            Ok(n) => return Ok(n),
            Err(error) if error.kind() == io::ErrorKind::Interrupted => {}
            Err(error) => return Err(error),
        }
    }
    Err(io::ErrorKind::Interrupted.into())
}
