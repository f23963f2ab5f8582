//! The run of the command that the words name.

ghost use Rattle.std.specs.Prelude.{◌≡◌, map, string_bytes};
ghost use Rattle.cckd_shelf.specs.Seen.{seen};
ghost use Rattle.cckd_dasdinit.specs.Words.{init_command};
ghost use Rattle.cckd_host.specs.Commands.{is_command, RunsCommand};

use cckd_dasdinit::run_init;
use cckd_shelf::Stage;
use cckd_top::run_plain;
use std::alloc::Global;

/// The name of the command that makes a base.
const INIT_COMMAND: &str = "dasdinit";

/// Whether the first word is the name of that command.
fn names_init(words: &[String]) -> bool
    ensures { result ≡ is_command init_command (map string_bytes words.now) }
{
    let [command, ..] = words else {
        return false;
    };
    command.as_str() == INIT_COMMAND
}

/// Runs on this stage the command that the words name, and answers the status. Words that name none are refused as those of a script's run.
pub fn run_command<T: Stage>(stage: T, alloc: Global, words: &[String]) -> (T, u8)
    ensures { RunsCommand (map string_bytes words.now) (seen T.Shows stage) (seen T.Shows result.0) result.1 }
{
    if names_init(words) {
        run_init(stage, alloc, words)
    } else {
        let (stage, status) = run_plain(stage, alloc, words);
        (stage, status.code)
    }
}
