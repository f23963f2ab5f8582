//! What a line of a script asks.

ghost use Rattle.std.specs.Prelude.{◌≡◌, ◌≤◌, length};
ghost use Rattle.cckd_console.specs.Script.{IsAskedBy};

use cckd_script::{LINE_LIMIT, Misreading, What, parse_line};

/// What a line asks, or why it is refused. The bytes of a call go to the front of `given`.
pub fn request_of(line: &[u8], given: &mut [u8]) -> Result<What, Misreading>
    requires line { length line.now ≤ LINE_LIMIT }
    requires given { 65536 ≤ length given.old }
    ensures asks { IsAskedBy line.now given.new result }
    ensures given { length given.new ≡ length given.old }
{
    match parse_line(line, false, given) {
        Ok(line) => Ok(line.what),
        Err(fault) => Err(Misreading::LineFault {
            column: fault.column,
        }),
    }
}
