//! A line of the script, from its bytes to the line that is printed for it.

ghost use Rattle.std.specs.Prelude.{◌≡◌, ◌<◌, ◌≤◌, ◌-◌, ◌+◌, ◌^◌, [], ◌∷◌, false, length};
ghost use Rattle.cckd_shelf.specs.Seen.{seen};
ghost use Rattle.cckd_script.specs.Items.{asked, unread, line_items};
ghost use Rattle.cckd_lines.specs.Lines.{LiesIn, IsShort};
ghost use Rattle.cckd_engine.specs.Calls.{CanAsk};
ghost use Rattle.cckd_engine.specs.Engine.{Runs};
ghost use Rattle.cckd_console.specs.Script.{closing, items_of_next, calls_of_next};
ghost use Rattle.cckd_console.specs.Saying.{if_printed};
ghost use Rattle.cckd_console.specs.Serving.{ServesItems};

use crate::asking::request_of;
use crate::status::status_of;
use cckd_base::Call;
use cckd_engine::{Disk, Engine};
use cckd_lines::Next;
use cckd_script::{LINE_LIMIT, LINE_ROOM, Misreading, What, print_misreading};
use cckd_shelf::{Failed, Stage};

/// The status of a reply, where its line was printed.
fn if_printed(printed: bool, status: u8) -> Result<u8, Failed>
    ensures { result ≡ if_printed printed status }
{
    if printed { Ok(status) } else { Err(Failed) }
}

/// Serves a call, and prints its line. The answer is the status that its reply asks for.
fn serve_call<T: Stage, D: Disk>(
    engine: &mut Engine<T, D>,
    call: Call,
    input: &[u8],
    answer: &mut [u8],
    line: &mut [u8],
) -> Result<u8, Failed>
    requires asks { CanAsk call (length input.now) (length answer.old) }
    requires line { LINE_ROOM ≤ length line.old }
    requires numbered { engine.old.calls < 2 ^ 64 - 1 }
    requires runs { Runs (D.tied engine.old.disk) engine.old.broken (seen T.Shows engine.old.stage) }
    requires heard { engine.old.mute ≡ false }
    ensures serves { ServesItems T.Shows D.Disk (asked call input.now ∷ []) 1 engine.old engine.new result }
    ensures answer { length answer.new ≡ length answer.old }
    ensures line { length line.new ≡ length line.old }
{
    let served = engine.serve(None, call, input, answer, line);
    let status = status_of(served.reply);
    if_printed(served.printed, status)
}

/// Makes the call that ends a script, and prints its line.
pub fn close<T: Stage, D: Disk>(
    engine: &mut Engine<T, D>,
    answer: &mut [u8],
    line: &mut [u8],
) -> Result<u8, Failed>
    requires answer { 65536 ≤ length answer.old }
    requires line { LINE_ROOM ≤ length line.old }
    requires numbered { engine.old.calls < 2 ^ 64 - 1 }
    requires runs { Runs (D.tied engine.old.disk) engine.old.broken (seen T.Shows engine.old.stage) }
    requires heard { engine.old.mute ≡ false }
    ensures { ServesItems T.Shows D.Disk closing 1 engine.old engine.new result }
{
    serve_call(engine, Call::Close, &[], answer, line)
}

/// Prints the line of a line that was misread. The answer is the status that it asks for.
fn refuse<T: Stage, D: Disk>(
    engine: &mut Engine<T, D>,
    why: Misreading,
    line: &mut [u8],
) -> Result<u8, Failed>
    requires line { LINE_ROOM ≤ length line.old }
    requires heard { engine.old.mute ≡ false }
    ensures serves { ServesItems T.Shows D.Disk (unread why ∷ []) 0 engine.old engine.new result }
    ensures line { length line.new ≡ length line.old }
{
    let end = print_misreading(why, line);
    match engine.print(&line[..end as usize]) {
        Ok(()) => Ok(1),
        Err(Failed) => Err(Failed),
    }
}

/// Serves a line of the script. The answer is the status that its reply asks for.
fn serve_line<T: Stage, D: Disk>(
    engine: &mut Engine<T, D>,
    text: &[u8],
    given: &mut [u8],
    answer: &mut [u8],
    line: &mut [u8],
) -> Result<u8, Failed>
    requires text { length text.now ≤ LINE_LIMIT }
    requires given { 65536 ≤ length given.old }
    requires answer { 65536 ≤ length answer.old }
    requires line { LINE_ROOM ≤ length line.old }
    requires numbered { engine.old.calls < 2 ^ 64 - 1 }
    requires runs { Runs (D.tied engine.old.disk) engine.old.broken (seen T.Shows engine.old.stage) }
    requires heard { engine.old.mute ≡ false }
    ensures serves { ServesItems T.Shows D.Disk (line_items text.now) 1 engine.old engine.new result }
    ensures given { length given.new ≡ length given.old }
    ensures answer { length answer.new ≡ length answer.old }
    ensures line { length line.new ≡ length line.old }
{
    match request_of(text, given) {
        Ok(What::Nothing) => Ok(0),
        Ok(What::One { call, input_len }) => {
            serve_call(engine, call, &given[..input_len as usize], answer, line)
        }
        Ok(What::Turns { .. }) => unreachable!(),
        Err(why) => refuse(engine, why, line),
    }
}

/// Serves what comes next in a script. The answer is the status that its reply asks for.
pub fn serve_next<T: Stage, D: Disk>(
    engine: &mut Engine<T, D>,
    script: &[u8],
    next: Next,
    given: &mut [u8],
    answer: &mut [u8],
    line: &mut [u8],
) -> Result<u8, Failed>
    requires lies { LiesIn script.now next }
    requires short { IsShort next }
    requires given { 65536 ≤ length given.old }
    requires answer { 65536 ≤ length answer.old }
    requires line { LINE_ROOM ≤ length line.old }
    requires numbered { engine.old.calls < 2 ^ 64 - 1 }
    requires runs { Runs (D.tied engine.old.disk) engine.old.broken (seen T.Shows engine.old.stage) }
    requires heard { engine.old.mute ≡ false }
    ensures serves { ServesItems T.Shows D.Disk (items_of_next script.now next) (calls_of_next next) engine.old engine.new result }
    ensures given { length given.new ≡ length given.old }
    ensures answer { length answer.new ≡ length answer.old }
    ensures line { length line.new ≡ length line.old }
{
    match next {
        Next::Line { start, end } => serve_line(engine, &script[start..end], given, answer, line),
        Next::LineTooLong => refuse(engine, Misreading::LineTooLong, line),
        Next::ScriptTooLong => refuse(engine, Misreading::ScriptTooLong, line),
        Next::End => Ok(0),
    }
}
