//! How a run ends that prints one text.

ghost use Rattle.cckd_shelf.specs.Seen.{seen};
ghost use Rattle.cckd_shelf.specs.Frame.{PutsSome};
ghost use Rattle.cckd_console.specs.Saying.{IsSaid, plain_text};

use cckd_shelf::{Failed, Stage, put_all};

/// The status of a run that met a fault.
const FAULT: u8 = 7;

/// Puts a text, and answers the status of a run that ends with it: the one given, or the greater of it and a fault's where a put failed.
pub fn end_with<T: Stage>(stage: &mut T, text: &[u8], code: u8) -> u8
    ensures said { IsSaid (plain_text text.now code) (seen T.Shows stage.old) (seen T.Shows stage.new) result }
    ensures puts { PutsSome text.now (seen T.Shows stage.old) (seen T.Shows stage.new) }
{
    match put_all(stage, text) {
        Ok(()) => code,
        Err(Failed) => code.max(FAULT),
    }
}
