//! The status that replies ask for.

ghost use Rattle.std.specs.Prelude.{◌≡◌, max};
ghost use Rattle.cckd_console.specs.Served.{refusal_status, reply_status};

use cckd_base::{Refusal, Reply};

/// The status of a reply that refuses a call.
const REFUSED: u8 = 1;

/// The status of a reply that tells a fault.
const FAULT: u8 = 7;

/// The status of a reply for want of memory.
const NO_MEMORY: u8 = 8;

/// The status that a refusal asks for.
fn refused_status(why: Refusal) -> u8
    ensures { result ≡ refusal_status why }
{
    match why {
        Refusal::ReadFault | Refusal::WriteFault | Refusal::SyncFault | Refusal::Broken { .. } => {
            FAULT
        }
        Refusal::Memory => NO_MEMORY,
        _ => REFUSED,
    }
}

/// The status that a reply asks for.
pub fn status_of(reply: Reply) -> u8
    ensures { result ≡ reply_status reply }
{
    match reply {
        Reply::Refused(why) => refused_status(why),
        _ => 0,
    }
}

/// The status that stands for both.
pub fn worse(a: u8, b: u8) -> u8
    ensures { result ≡ max a b }
{
    a.max(b)
}
