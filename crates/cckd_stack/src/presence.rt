//! Which slots are there.
ghost use Rattle.std.specs.Prelude.{◌≡◌, ◌==◌, ◌≤◌, true, IfOk, IfErr};
ghost use Rattle.std.specs.List.{list_all};
ghost use Rattle.cckd_shelf.specs.Seen.{seen};
ghost use Rattle.cckd_base.specs.Header.{is_present};
ghost use Rattle.cckd_layer.specs.Mounted.{OnlyLooks};
ghost use Rattle.cckd_layer.specs.Reads.{OfFile};
ghost use Rattle.cckd_stack.specs.Stacked.{OfFiles};
ghost use Rattle.cckd_stack.specs.Mounting.{HasRow, IsRow, IsRowCause};

use cckd_base::OpenFault;
use cckd_shelf::{Slot, Stage};

/// Bytes of the device header, which are all zero where no file is there.
const FRONT: usize = 512;

/// Whether all bytes are zero.
fn are_zeros(bytes: &[u8]) -> bool
    ensures { result ≡ list_all (λ b. b == 0) bytes.now }
{
    bytes.iter().all(|b| *b == 0)
}

/// Whether a slot is there: its file isn't empty, and doesn't begin with 512 zeros.
fn is_there<T: Stage>(stage: &mut T, slot: Slot) -> Result<bool, OpenFault>
    ensures there { OfFile slot (λ file. IfOk result (λ there. there ≡ is_present file)) (seen T.Shows stage.old) }
    ensures cause { IfErr result (λ why. why ≡ OpenFault.ReadFault) }
    ensures looks { OnlyLooks result (seen T.Shows stage.old) (seen T.Shows stage.new) }
{
    let Ok(len) = stage.len(slot) else {
        return Err(OpenFault::ReadFault);
    };
    if len < 512 {
        return Ok(len > 0);
    }
    let mut front = [0; FRONT];
    let Ok(()) = stage.read(slot, 0, &mut front) else {
        return Err(OpenFault::ReadFault);
    };
    Ok(!are_zeros(&front))
}

/// The slot of a number.
pub(crate) fn slot_of(number: u8) -> Slot
    requires { number ≤ 8 }
    ensures { result ≡ number }
{
    Slot::new(number).unwrap()
}

/// How many slots are there above a base that is, with the base.
fn row_above<T: Stage>(stage: &mut T) -> Result<u8, OpenFault>
    requires base { OfFile 0 (λ file. is_present file ≡ true) (seen T.Shows stage.old) }
    ensures row { OfFiles (λ files. IfOk result (IsRow files)) (seen T.Shows stage.old) }
    ensures some { IfOk result (λ count. 1 ≤ count) }
    ensures few { IfOk result (λ count. count ≤ 9) }
    ensures cause { IfErr result (IsRowCause (seen T.Shows stage.old)) }
    ensures looks { OnlyLooks result (seen T.Shows stage.old) (seen T.Shows stage.new) }
{
    let mut count = 1;
    for number in 1..9u8 {
        let there = match is_there(stage, slot_of(number)) {
            Ok(there) => there,
            Err(fault) => return Err(fault),
        };
        if there {
            if count < number {
                return Err(OpenFault::Gap { slot: number });
            }
            count += 1;
        }
    }
    Ok(count)
}

/// How many slots are there, from the base on: none where the base isn't.
pub(crate) fn row<T: Stage>(stage: &mut T) -> Result<u8, OpenFault>
    ensures row { OfFiles (λ files. IfOk result (HasRow files)) (seen T.Shows stage.old) }
    ensures few { IfOk result (λ count. count ≤ 9) }
    ensures cause { IfErr result (IsRowCause (seen T.Shows stage.old)) }
    ensures looks { OnlyLooks result (seen T.Shows stage.old) (seen T.Shows stage.new) }
{
    match is_there(stage, slot_of(0)) {
        Ok(true) => row_above(stage),
        Ok(false) => Ok(0),
        Err(fault) => Err(fault),
    }
}
