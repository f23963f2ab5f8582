//! Whether a slot is there.
ghost use Rattle.std.specs.Prelude.{◌≡◌, ◌==◌, length, IfOk, IfErr};
ghost use Rattle.std.specs.List.{list_all};
ghost use Rattle.cckd_shelf.specs.Seen.{seen, Stays};
ghost use Rattle.cckd_base.specs.Header.{is_present};
ghost use Rattle.cckd_tools.specs.Init.{OfFile, CountsInit};

use crate::fault::InitFault;
use cckd_shelf::{Slot, Stage};

/// Bytes of the device header, which are all zero where no file is there.
const FRONT: usize = 512;

/// Whether all bytes are zero.
fn are_zeros(bytes: &[u8]) -> bool
    ensures { result ≡ list_all (λ b. b == 0) bytes.now }
{
    bytes.iter().all(|b| *b == 0)
}

/// The length of the slot's file, and whether the slot is there: its file isn't empty, and doesn't begin with 512 zeros.
pub(crate) fn find<T: Stage>(stage: &mut T, slot: Slot) -> Result<(u64, bool), InitFault>
    ensures length { OfFile slot (λ file. IfOk result (λ found. found.0 ≡ length file)) (seen T.Shows stage.old) }
    ensures there { OfFile slot (λ file. IfOk result (λ found. found.1 ≡ is_present file)) (seen T.Shows stage.old) }
    ensures cause { IfErr result (λ why. why ≡ InitFault.ReadFault) }
    ensures kept { Stays (seen T.Shows stage.old) (seen T.Shows stage.new) }
    ensures counts { CountsInit result (seen T.Shows stage.old).faults (seen T.Shows stage.new).faults }
{
    let Ok(len) = stage.len(slot) else {
        return Err(InitFault::ReadFault);
    };
    if len < 512 {
        return Ok((len, len > 0));
    }
    let mut front = [0; FRONT];
    let Ok(()) = stage.read(slot, 0, &mut front) else {
        return Err(InitFault::ReadFault);
    };
    Ok((len, !are_zeros(&front)))
}
