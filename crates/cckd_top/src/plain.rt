//! The run of the plain program.

ghost use Rattle.std.specs.Prelude.{◌≡◌, map, string_bytes};
ghost use Rattle.cckd_shelf.specs.Seen.{seen};
ghost use Rattle.cckd_top.specs.Explained.{IsExplained};

use crate::run::run_words;
use crate::status::Status;
use cckd_console::Rooms;
use cckd_shelf::Stage;
use std::alloc::Global;

/// Runs `cckdrun [-limit N] FILE` with these words, the command's name first. It mounts the files of the disk, serves the
/// script line by line, whatever its length, and prints a line for each reply. It waits for nobody. Beside what the stage
/// takes, memory is taken at mounting alone.
pub fn run_plain<T: Stage>(stage: T, alloc: Global, words: &[String]) -> (T, Status)
    ensures { IsExplained (map string_bytes words.now) (seen T.Shows stage) (seen T.Shows result.0) result.1.code }
{
    let mut rooms = Rooms::new();
    let (stage, code) = run_words(stage, alloc, words, &mut rooms);
    (stage, Status { code })
}
