//! The run of `dasdinit`, from its words to its status.

ghost use Rattle.std.specs.Prelude.{◌≡◌, ◌≤◌, length, map, string_bytes};
ghost use Rattle.cckd_base.specs.Geometry.{IsGeometry};
ghost use Rattle.cckd_shelf.specs.Seen.{seen};
ghost use Rattle.cckd_shelf.specs.Frame.{PutsSome};
ghost use Rattle.cckd_console.specs.Saying.{IsSaid, plain_text};
ghost use Rattle.cckd_script.specs.Text.{line as ended};
ghost use Rattle.cckd_tools.specs.Label.{label_length};
ghost use Rattle.cckd_dasdinit.specs.Text.{made_text, unmade_text, unmade_status, wrong_text};
ghost use Rattle.cckd_dasdinit.specs.Explained.{EndsMaking, ExplainsInit};

use crate::text::{LINE_ROOM, put_made, put_unmade, put_wrong};
use crate::words::{NewBase, named_base};
use cckd_command::end_with;
use cckd_shelf::{Slot, Stage};
use cckd_tools::{InitFault, init};
use std::alloc::Global;

/// The slot of a base.
fn base_slot() -> Slot
    ensures { result ≡ 0 }
{
    Slot::new(0).unwrap()
}

/// The status that goes with a base that isn't made.
fn status_of(why: InitFault) -> u8
    ensures { result ≡ unmade_status why }
{
    match why {
        InitFault::NotEmpty { .. } => 3,
        InitFault::ReadFault | InitFault::WriteFault | InitFault::SyncFault => 7,
        InitFault::Memory => 8,
    }
}

/// Prints why no base is made, and answers the status.
fn end_unmade<T: Stage>(stage: &mut T, why: InitFault) -> u8
    ensures said { IsSaid (plain_text (ended (unmade_text why)) (unmade_status why)) (seen T.Shows stage.old) (seen T.Shows stage.new) result }
    ensures puts { PutsSome (ended (unmade_text why)) (seen T.Shows stage.old) (seen T.Shows stage.new) }
{
    let mut line = [0; LINE_ROOM];
    let end = put_unmade(&mut line, why);
    end_with(stage, &line[..end], status_of(why))
}

/// Prints which base was made, and answers the status.
fn end_made<T: Stage>(stage: &mut T, base: &NewBase<'_>, len: u32) -> u8
    requires geometry { IsGeometry base.now.geometry }
    requires short { length base.now.device.now ≤ 6 }
    ensures said { IsSaid (plain_text (ended (made_text base.now.device.now base.now.geometry len)) 0) (seen T.Shows stage.old) (seen T.Shows stage.new) result }
    ensures puts { PutsSome (ended (made_text base.now.device.now base.now.geometry len)) (seen T.Shows stage.old) (seen T.Shows stage.new) }
{
    let mut line = [0; LINE_ROOM];
    let end = put_made(&mut line, base.device, &base.geometry, len);
    end_with(stage, &line[..end], 0)
}

/// Prints that a word is wrong, and answers the status.
fn end_wrong<T: Stage>(stage: &mut T, number: u64) -> u8
    ensures said { IsSaid (plain_text (ended (wrong_text number)) 2) (seen T.Shows stage.old) (seen T.Shows stage.new) result }
    ensures puts { PutsSome (ended (wrong_text number)) (seen T.Shows stage.old) (seen T.Shows stage.new) }
{
    let mut line = [0; LINE_ROOM];
    let end = put_wrong(&mut line, number);
    end_with(stage, &line[..end], 2)
}

/// Gives slot 0 the file, makes the base there, and prints how that ends.
fn make_named<T: Stage>(stage: &mut T, alloc: Global, base: &NewBase<'_>) -> u8
    requires geometry { IsGeometry base.now.geometry }
    requires label { label_length ≤ base.now.geometry.track_size }
    requires short { length base.now.device.now ≤ 6 }
    ensures { EndsMaking (record { file = base.now.file.now; device = base.now.device.now; geometry = base.now.geometry; label = base.now.label })
        (seen T.Shows stage.old) (seen T.Shows stage.new) result }
{
    if let Err(_) = stage.bind(base_slot(), base.file) {
        return end_unmade(stage, InitFault::ReadFault);
    }
    match init(alloc, stage, base.geometry, base.label) {
        Ok(len) => end_made(stage, base, len),
        Err(why) => end_unmade(stage, why),
    }
}

/// Runs `dasdinit -0 [-r] FILE DEVICE [VOLSER]` with these words, the command's name first: makes a base where none is, prints one
/// line, and answers the stage and the status. It waits for nobody. Memory is taken for the image.
pub fn run_init<T: Stage>(stage: T, alloc: Global, words: &[String]) -> (T, u8)
    ensures { ExplainsInit (map string_bytes words.now) (seen T.Shows stage) (seen T.Shows result.0) result.1 }
{
    let mut stage = stage;
    match named_base(words) {
        Ok(base) => {
            let status = make_named(&mut stage, alloc, &base);
            (stage, status)
        }
        Err(number) => {
            let status = end_wrong(&mut stage, number);
            (stage, status)
        }
    }
}
