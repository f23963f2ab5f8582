//! A run over the process's own words, files and standard streams.
#![tactic(auto)]

ghost use Rattle.cckd_host.specs.Words.{IsRun};
ghost use Rattle.cckd_host.specs.Commands.{RunsCommand};
ghost use Rattle.cckd_shelf.specs.Seen.{seen};

mod commands;
mod source;
#[cfg(test)]
mod tests;
mod words;

use cckd_files::HostStage;
use cckd_shelf::{Stage, put_all};
pub use commands::run_command;
pub use source::WordSource;
use std::alloc::Global;
use std::process::ExitCode;
pub use words::words_of;

/// The status where memory for the words is wanted.
const NO_MEMORY: u8 = 8;

/// Runs on this stage with the words of a source, and answers the status. Where there was no memory for the words, it says so.
pub fn run_from<T: Stage, W: WordSource>(stage: T, alloc: Global, source: &W) -> (T, u8)
    ensures { IsRun W.tells (W.words source.now)
        (λ words. RunsCommand words (seen T.Shows stage) (seen T.Shows result.0) result.1)
        (seen T.Shows stage) (seen T.Shows result.0) result.1 }
{
    let mut stage = stage;
    match words_of(source, alloc) {
        Ok(words) => run_command(stage, alloc, &words),
        Err(_) => {
            // Where that can't be put either, the status says it.
            match put_all(&mut stage, b"no memory\n") {
                Ok(()) | Err(_) => (stage, NO_MEMORY),
            }
        }
    }
}

/// Runs the words behind the program's name, and answers the status that the process ends with.
pub fn run(rt: HostRuntime) -> ExitCode {
    let alloc = rt.alloc();
    let done = run_from(HostStage::new(rt, alloc), alloc, &rt);
    let (_stage, status) = done;
    ExitCode::from(status)
}
