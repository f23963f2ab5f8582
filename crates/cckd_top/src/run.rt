//! A run, from its words to its status.

ghost use Rattle.std.specs.Prelude.{◌≡◌, ◌≤◌, length, map, string_bytes, IsTrue, false};
ghost use Rattle.cckd_shelf.specs.Seen.{seen};
ghost use Rattle.cckd_shelf.specs.Frame.{PutsSome};
ghost use Rattle.cckd_engine.specs.Engine.{Runs};
ghost use Rattle.cckd_console.specs.Saying.{IsSaid, plain_text};
ghost use Rattle.cckd_script.specs.Text.{line as ended};
ghost use Rattle.cckd_top.specs.Ended.{EndsScript, SaysSource};
ghost use Rattle.cckd_top.specs.Explained.{IsExplained, ExplainsDisk};
ghost use Rattle.cckd_top.specs.Opening.{IsOpening};
ghost use Rattle.cckd_top.specs.Run.{script_limit};
ghost use Rattle.cckd_top.specs.Text.{halt_text, halt_status, open_fault_status};
ghost use Rattle.cckd_top.specs.Words.{is_file_word};

use crate::halt::Halt;
use crate::names::bind_all;
use crate::text::{HALT_ROOM, put_halt};
use crate::words::named_disk;
use cckd_base::{FORMAT_LIMIT, OpenFault};
use cckd_console::{Rooms, Stop, serve_script};
use cckd_engine::{Disk, Engine};
use cckd_shelf::{Failed, Stage, put_all};
use cckd_stack::Stack;
use cckd_track::Ckd;
use std::alloc::Global;

/// The status of a run that met a fault.
const FAULT: u8 = 7;

/// The most bytes of a script.
const SCRIPT_LIMIT: usize = 1_073_741_824;

/// The status that goes with files that don't open.
fn unopened_status(why: OpenFault) -> u8
    ensures { result ≡ open_fault_status why }
{
    match why {
        OpenFault::ReadFault | OpenFault::WriteFault | OpenFault::SyncFault => FAULT,
        OpenFault::Memory => 8,
        _ => 3,
    }
}

/// The status that goes with a halt.
fn status_of(halt: Halt) -> u8
    ensures { result ≡ halt_status halt }
{
    match halt {
        Halt::BadWords(_) => 2,
        Halt::Files(why) => unopened_status(why),
    }
}

/// Puts a text, and answers the status of a run that ends with it.
fn end_with<T: Stage>(stage: &mut T, text: &[u8], code: u8) -> u8
    ensures said { IsSaid (plain_text text.now code) (seen T.Shows stage.old) (seen T.Shows stage.new) result }
    ensures puts { PutsSome text.now (seen T.Shows stage.old) (seen T.Shows stage.new) }
{
    match put_all(stage, text) {
        Ok(()) => code,
        Err(Failed) => code.max(FAULT),
    }
}

/// Prints why a run halts, and answers its status.
fn end_halted<T: Stage>(stage: &mut T, halt: Halt, output: &mut [u8]) -> u8
    requires { HALT_ROOM ≤ length output.old }
    ensures said { IsSaid (plain_text (ended (halt_text halt)) (halt_status halt)) (seen T.Shows stage.old) (seen T.Shows stage.new) result }
    ensures puts { PutsSome (ended (halt_text halt)) (seen T.Shows stage.old) (seen T.Shows stage.new) }
{
    let end = put_halt(output, halt);
    end_with(stage, &output[..end], status_of(halt))
}

/// Prints that the script couldn't be taken.
fn print_source<T: Stage, D: Disk>(engine: &mut Engine<T, D>)
    ensures { SaysSource T.Shows D.Disk engine.old engine.new }
{
    match engine.print(b"fault: source\n") {
        Ok(()) => {}
        Err(Failed) => {}
    }
}

/// Serves the script over an engine, closes it, and answers what is left, with the status.
fn serve_to_end<T: Stage, D: Disk + Drop>(engine: Engine<T, D>, rooms: &mut Rooms) -> (T, u8)
    requires fresh { engine.calls ≡ 0 }
    requires runs { Runs (D.tied engine.disk) engine.broken (seen T.Shows engine.stage) }
    requires heard { engine.mute ≡ false }
    ensures { EndsScript T.Shows D.Disk script_limit engine result.0 result.1 }
{
    let mut engine = engine;
    match serve_script(&mut engine, SCRIPT_LIMIT, rooms) {
        Stop::Closed(status) => (engine.into_stage(), status),
        Stop::Unscripted => {
            print_source(&mut engine);
            (engine.into_stage(), FAULT)
        }
        Stop::Cut => (engine.into_stage(), FAULT),
    }
}

/// Gives the slots the files of a disk, and mounts them. Where they don't open it answers the stage and why.
fn open<T: Stage>(
    stage: T,
    alloc: Global,
    file: &str,
    limit: u32,
) -> Result<Engine<T, Stack<Ckd>>, (T, OpenFault)>
    requires file { IsTrue (is_file_word file.now) }
    requires limit { limit ≤ FORMAT_LIMIT }
    ensures { IsOpening T.Shows ⟦<Stack<Ckd> as Disk>⟧ file.now limit stage result }
{
    let mut stage = stage;
    let Ok(()) = bind_all(&mut stage, file) else {
        return Err((stage, OpenFault::ReadFault));
    };
    match Engine::mount(alloc, stage, limit) {
        Ok(engine) => Ok(engine),
        Err((left, why)) => Err((left, why)),
    }
}

/// Serves the script on a disk, and answers the stage and the status.
fn run_disk<T: Stage>(stage: T, alloc: Global, file: &str, limit: u32, rooms: &mut Rooms) -> (T, u8)
    requires file { IsTrue (is_file_word file.now) }
    requires limit { limit ≤ FORMAT_LIMIT }
    ensures { ExplainsDisk file.now limit (seen T.Shows stage) (seen T.Shows result.0) result.1 }
{
    match open(stage, alloc, file, limit) {
        Ok(engine) => serve_to_end(engine, rooms),
        Err((left, why)) => {
            let mut left = left;
            let code = end_halted(&mut left, Halt::Files(why), &mut rooms.line);
            (left, code)
        }
    }
}

/// Runs with these words, and answers the stage and the status.
pub fn run_words<T: Stage>(stage: T, alloc: Global, words: &[String], rooms: &mut Rooms) -> (T, u8)
    ensures { IsExplained (map string_bytes words.now) (seen T.Shows stage) (seen T.Shows result.0) result.1 }
{
    match named_disk(words) {
        Ok(disk) => run_disk(stage, alloc, disk.file, disk.limit, rooms),
        Err(number) => {
            let mut left = stage;
            let code = end_halted(&mut left, Halt::BadWords(number), &mut rooms.line);
            (left, code)
        }
    }
}
