//! A script, from its first line to the reply that ends it.

ghost use Rattle.std.specs.Prelude.{◌≡◌, ◌<◌, ◌+◌, ◌-◌, ◌^◌, false};
ghost use Rattle.cckd_shelf.specs.Seen.{seen};
ghost use Rattle.cckd_engine.specs.Engine.{Runs};
ghost use Rattle.cckd_console.specs.Script.{is_last};
ghost use Rattle.cckd_console.specs.Serving.{ServesScript, ServesLines};

use crate::line::{close, serve_next};
use crate::rooms::Rooms;
use crate::status::worse;
use crate::stop::Stop;
use cckd_engine::{Disk, Engine};
use cckd_lines::{Next, Place};
use cckd_shelf::{Failed, Stage};

/// Whether nothing of a script is served behind this.
fn is_last(next: Next) -> bool
    ensures { result ≡ is_last next }
{
    matches!(next, Next::ScriptTooLong | Next::End)
}

/// Serves the lines of a script of at most `limit` bytes. The answer is the worst status, or why it stops before the script's
/// end.
fn serve_lines<T: Stage, D: Disk>(
    engine: &mut Engine<T, D>,
    limit: usize,
    rooms: &mut Rooms,
) -> Result<u8, Stop>
    requires numbered { engine.old.calls + limit < 2 ^ 64 - 1 }
    requires runs { Runs (D.tied engine.old.disk) engine.old.broken (seen T.Shows engine.old.stage) }
    requires heard { engine.old.mute ≡ false }
    ensures { ServesLines T.Shows D.Disk limit engine.old engine.new result }
{
    let mut place = Place {
        start: 0,
        end: 0,
        left: limit,
        ended: false,
    };
    let mut worst = 0;
    loop {
        let (next, behind) = match engine.next_line(&mut rooms.script, place) {
            Ok(found) => found,
            Err(Failed) => return Err(Stop::Unscripted),
        };
        place = behind;
        let Ok(status) = serve_next(
            engine,
            &rooms.script,
            next,
            &mut rooms.given,
            &mut rooms.answer,
            &mut rooms.line,
        ) else {
            return Err(Stop::Cut);
        };
        worst = worse(worst, status);
        if is_last(next) {
            return Ok(worst);
        }
    }
}

/// Serves a script of at most `limit` bytes, line by line, and then closes. The lines of a longer one are served as far as
/// they end within the limit, and the next one is refused. After a line that was cut nothing more is taken.
pub fn serve_script<T: Stage, D: Disk>(
    engine: &mut Engine<T, D>,
    limit: usize,
    rooms: &mut Rooms,
) -> Stop
    requires numbered { engine.old.calls + limit < 2 ^ 64 - 1 }
    requires runs { Runs (D.tied engine.old.disk) engine.old.broken (seen T.Shows engine.old.stage) }
    requires heard { engine.old.mute ≡ false }
    ensures { ServesScript T.Shows D.Disk limit engine.old engine.new result }
{
    let worst = match serve_lines(engine, limit, rooms) {
        Ok(worst) => worst,
        Err(stop) => return stop,
    };
    match close(engine, &mut rooms.answer, &mut rooms.line) {
        Ok(status) => Stop::Closed(worse(worst, status)),
        Err(Failed) => Stop::Cut,
    }
}
