//! The reads of a check.
ghost use Rattle.std.specs.Prelude.{◌+◌, ◌≤◌, length, take, OnOk, IfErr};
ghost use Rattle.cckd_shelf.specs.Seen.{seen, HasBytes, IsPart};
ghost use Rattle.cckd_check.specs.Look.{OnlyLooks, IsOutside};

use crate::report::LookFault;
use cckd_shelf::{Slot, Stage};

/// Fills `into` with the file's bytes from `pos` on.
pub(crate) fn read_at<T: Stage>(
    stage: &mut T,
    slot: Slot,
    pos: u32,
    into: &mut [u8],
) -> Result<(), LookFault>
    requires { HasBytes slot (pos + length into.old) (seen T.Shows stage.old) }
    ensures bytes { OnOk result (IsPart slot pos (length into.old) into.new (seen T.Shows stage.old)) }
    ensures cause { IfErr result IsOutside }
    ensures looks { OnlyLooks result (seen T.Shows stage.old) (seen T.Shows stage.new) }
{
    let Ok(()) = stage.read(slot, u64::from(pos), into) else {
        return Err(LookFault::ReadFault);
    };
    Ok(())
}

/// Fills the front of a buffer with `len` of the file's bytes from `pos` on.
pub(crate) fn read_front<T: Stage>(
    stage: &mut T,
    slot: Slot,
    pos: u32,
    len: usize,
    buffer: &mut [u8],
) -> Result<(), LookFault>
    requires room { len ≤ length buffer.old }
    requires bytes { HasBytes slot (pos + len) (seen T.Shows stage.old) }
    ensures bytes { OnOk result (IsPart slot pos len (take len buffer.new) (seen T.Shows stage.old)) }
    ensures cause { IfErr result IsOutside }
    ensures looks { OnlyLooks result (seen T.Shows stage.old) (seen T.Shows stage.new) }
{
    read_at(stage, slot, pos, &mut buffer[..len])
}
