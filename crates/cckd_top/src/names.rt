//! The names of a disk's files, and the slots that get them.

ghost use Rattle.std.specs.Prelude.{◌≡◌, ◌+◌, ◌<◌, ◌≤◌, length, take, IsTrue, OnOk, OnErr};
ghost use Rattle.cckd_shelf.specs.Seen.{seen, Tells, Stays, Makes, Fails};
ghost use Rattle.cckd_shelf.specs.declared.fault.Kind.TheVariants.{Reads};
ghost use Rattle.cckd_shelf.specs.World.{after_bind};
ghost use Rattle.cckd_top.specs.Names.{slot_name, after_binds, BindsSome};
ghost use Rattle.cckd_top.specs.Words.{is_file_word};

use cckd_base::put_bytes;
use cckd_shelf::{Failed, Slot, Stage};
use std::str;

/// The longest name of a shadow's file, in bytes.
const NAME_ROOM: usize = 259;

/// Writes the name of a shadow's file to the front of `room`, and answers how long it is.
fn put_shadow_name(file: &str, slot: u8, room: &mut [u8]) -> usize
    requires shadow { (0 < slot) × (slot ≤ 8) }
    requires fits { length file.now + 4 ≤ length room.old }
    ensures name { take result room.new ≡ slot_name file.now slot }
    ensures within { result ≤ length room.new }
{
    let end = put_bytes(room, 0, file.as_bytes());
    let end = put_bytes(room, end, b".sf");
    put_bytes(room, end, &[b'0' + slot])
}

/// Gives a slot its file.
fn bind<T: Stage>(stage: &mut T, slot: Slot, file: &str) -> Result<(), Failed>
    requires { IsTrue (is_file_word file.now) }
    ensures bound { OnOk result (Makes (after_bind slot (slot_name file.now slot)) (seen T.Shows stage.old) (seen T.Shows stage.new)) }
    ensures kept { OnErr result (Stays (seen T.Shows stage.old) (seen T.Shows stage.new)) }
    ensures fails { Fails Reads result (seen T.Shows stage.old) (seen T.Shows stage.new) }
{
    let number = slot.get();
    if number == 0 {
        return stage.bind(slot, file);
    }
    let mut room = [0; NAME_ROOM];
    let end = put_shadow_name(file, number, &mut room);
    match str::from_utf8(&room[..end]) {
        Ok(name) => stage.bind(slot, name),
        Err(_) => unreachable!(),
    }
}

/// Gives the nine slots their files, from the base's on. Where one can't be had, those below it have theirs.
pub fn bind_all<T: Stage>(stage: &mut T, file: &str) -> Result<(), Failed>
    requires { IsTrue (is_file_word file.now) }
    ensures bound { OnOk result (Makes (after_binds file.now 9) (seen T.Shows stage.old) (seen T.Shows stage.new)) }
    ensures some { Tells (seen T.Shows stage.old) → OnErr result (BindsSome file.now (seen T.Shows stage.old).world (seen T.Shows stage.new).world) }
    ensures fails { Fails Reads result (seen T.Shows stage.old) (seen T.Shows stage.new) }
{
    for number in 0..9u8 {
        let slot = Slot::new(number).unwrap();
        bind(stage, slot, file)?;
    }
    Ok(())
}
