//! A whole text, as it goes to the output.
ghost use Rattle.std.specs.Prelude.{OnOk};
ghost use Rattle.cckd_shelf.specs.Faults.{Puts};
ghost use Rattle.cckd_shelf.specs.Seen.{seen, Fails};
ghost use Rattle.cckd_shelf.specs.Frame.{PutsAll, PutsSome};

use crate::{Failed, Stage};

/// Puts the whole text, in as many pieces as the output takes. At a failure a front of it was put.
pub fn put_all<T: Stage>(stage: &mut T, text: &[u8]) -> Result<(), Failed>
    ensures whole { OnOk result (PutsAll text.now (seen T.Shows stage.old) (seen T.Shows stage.new)) }
    ensures front { PutsSome text.now (seen T.Shows stage.old) (seen T.Shows stage.new) }
    ensures fails { Fails Puts result (seen T.Shows stage.old) (seen T.Shows stage.new) }
{
    let mut put = 0;
    while put < text.len() {
        put += stage.put(&text[put..])?;
    }
    Ok(())
}
