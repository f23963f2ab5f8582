//! A stack of layers on the files of its slots, as an engine's disk.
ghost use Rattle.std.specs.Prelude.{◌≡◌, ℕ, ◌≤◌, List, length};
ghost use Rattle.cckd_shelf.specs.Seen.{seen};
ghost use Rattle.cckd_stack.specs.Stacked.{IsStack};
ghost use Rattle.cckd_stack.specs.Called.{CanCall};
ghost use Rattle.cckd_stack.specs.Writes.{refusal_by, reply_by};
ghost use Rattle.cckd_engine.specs.Calls.{CanAsk, asks, answer_in};
ghost use Rattle.cckd_engine.specs.Performs.{Performs, said_to_read, said_to_display, said_to_check};

use crate::disk::Disk;
use cckd_base::{Addr, Call, Geometry, LayerFault, Refusal, Reply, StackFault};
use cckd_shelf::Stage;
use cckd_stack::Stack;
use cckd_track::Ckd;

/// How a call is refused for a fault of the stack.
fn refusal_of(fault: StackFault) -> Refusal
    ensures { result ≡ refusal_by fault }
{
    match fault {
        StackFault::Layer(LayerFault::Track(why)) => Refusal::Track(why),
        StackFault::Layer(LayerFault::Full(full)) => Refusal::Full(full),
        StackFault::Layer(LayerFault::ReadFault) => Refusal::ReadFault,
        StackFault::Layer(LayerFault::WriteFault) => Refusal::WriteFault,
        StackFault::Layer(LayerFault::SyncFault) => Refusal::SyncFault,
        StackFault::TooMany { have } => Refusal::TooMany { have },
        StackFault::OnlyBase => Refusal::OnlyBase,
        StackFault::Memory => Refusal::Memory,
    }
}

/// The reply to a call that is answered so once it is done, or refused for a fault.
fn reply_of(done: Reply, made: Result<(), StackFault>) -> Reply
    ensures { result ≡ reply_by done made }
{
    match made {
        Ok(()) => done,
        Err(fault) => Reply::Refused(refusal_of(fault)),
    }
}

/// The reply to a read that found so many bytes.
fn reply_to_read(found: Result<u16, StackFault>) -> Reply
    ensures { result ≡ said_to_read found }
{
    match found {
        Ok(len) => Reply::Track {
            len: u32::from(len),
        },
        Err(fault) => Reply::Refused(refusal_of(fault)),
    }
}

/// The reply to a call that shows the layers.
fn reply_to_display(found: Result<(u8, [u32; 9]), StackFault>) -> Reply
    ensures { result ≡ said_to_display found }
{
    match found {
        Ok(shown) => {
            let layers = shown.0;
            let counts = shown.1;
            Reply::Shown { layers, counts }
        }
        Err(fault) => Reply::Refused(refusal_of(fault)),
    }
}

/// The reply to a check that counted so many tracks.
fn reply_to_check(level: u8, found: Result<u32, StackFault>) -> Reply
    ensures { result ≡ said_to_check level found }
{
    match found {
        Ok(bad) => Reply::Checked { level, bad },
        Err(fault) => Reply::Refused(refusal_of(fault)),
    }
}

/// Reads the track at an address.
fn read_at<T: Stage>(
    disk: &mut Stack<Ckd>,
    stage: &mut T,
    shape: &Geometry,
    at: Addr,
    out: &mut [u8],
) -> Reply
    requires stack { IsStack disk.old }
    requires can { CanCall disk.old (seen T.Shows stage.old) }
    requires shape { shape.now ≡ disk.old.geometry }
    requires room { 65536 ≤ length out.old }
    ensures performs { (given : List ℕ) → Performs (asks (Call.Read at) given) (answer_in result out.new) disk.old disk.new
        (seen T.Shows stage.old) (seen T.Shows stage.new) }
    ensures out { length out.new ≡ length out.old }
{
    let Some(t) = shape.track(at) else {
        return Reply::Refused(Refusal::NoSuchTrack);
    };
    let found = disk.read(stage, t, out);
    reply_to_read(found)
}

/// Writes the bytes given as the track at an address.
fn write_at<T: Stage>(
    disk: &mut Stack<Ckd>,
    stage: &mut T,
    shape: &Geometry,
    at: Addr,
    given: &[u8],
) -> Reply
    requires stack { IsStack disk.old }
    requires can { CanCall disk.old (seen T.Shows stage.old) }
    requires shape { shape.now ≡ disk.old.geometry }
    requires few { length given.now ≤ 65535 }
    ensures { (out : List ℕ) → Performs (asks (Call.Write at) given.now) (answer_in result out) disk.old disk.new
        (seen T.Shows stage.old) (seen T.Shows stage.new) }
{
    let Some(t) = shape.track(at) else {
        return Reply::Refused(Refusal::NoSuchTrack);
    };
    let len = given.len() as u32;
    let made = disk.write(stage, t, given);
    reply_of(Reply::Written { len }, made)
}

/// Makes all stay that was written.
fn harden<T: Stage>(disk: &mut Stack<Ckd>, stage: &mut T) -> Reply
    requires stack { IsStack disk.old }
    requires can { CanCall disk.old (seen T.Shows stage.old) }
    ensures { (given out : List ℕ) → Performs (asks Call.Harden given) (answer_in result out) disk.old disk.new
        (seen T.Shows stage.old) (seen T.Shows stage.new) }
{
    let made = disk.harden(stage);
    reply_of(Reply::Hardened, made)
}

/// Closes the files that were changed.
fn close<T: Stage>(disk: &mut Stack<Ckd>, stage: &mut T) -> Reply
    requires stack { IsStack disk.old }
    requires can { CanCall disk.old (seen T.Shows stage.old) }
    ensures { (given out : List ℕ) → Performs (asks Call.Close given) (answer_in result out) disk.old disk.new
        (seen T.Shows stage.old) (seen T.Shows stage.new) }
{
    let made = disk.close(stage);
    reply_of(Reply::Closed, made)
}

/// Counts the tracks of all layers.
fn display<T: Stage>(disk: &mut Stack<Ckd>, stage: &mut T) -> Reply
    requires stack { IsStack disk.old }
    requires can { CanCall disk.old (seen T.Shows stage.old) }
    ensures { (given out : List ℕ) → Performs (asks Call.Display given) (answer_in result out) disk.old disk.new
        (seen T.Shows stage.old) (seen T.Shows stage.new) }
{
    let found = disk.display(stage);
    reply_to_display(found)
}

/// Counts the stored tracks that are at fault at a level. Tracks are read into `room`.
fn check<T: Stage>(disk: &mut Stack<Ckd>, stage: &mut T, level: u8, room: &mut [u8]) -> Reply
    requires stack { IsStack disk.old }
    requires can { CanCall disk.old (seen T.Shows stage.old) }
    requires room { 65536 ≤ length room.old }
    ensures performs { (given out : List ℕ) → Performs (asks (Call.Check level) given) (answer_in result out) disk.old disk.new
        (seen T.Shows stage.old) (seen T.Shows stage.new) }
    ensures room { length room.new ≡ length room.old }
{
    let found = disk.check(stage, level, room);
    reply_to_check(level, found)
}

/// Makes a call of a stack.
fn make<T: Stage>(
    disk: &mut Stack<Ckd>,
    stage: &mut T,
    call: Call,
    input: &[u8],
    out: &mut [u8],
) -> Reply
    requires can { CanCall disk.old (seen T.Shows stage.old) }
    requires asks { CanAsk call (length input.now) (length out.old) }
    ensures performs { Performs (asks call input.now) (answer_in result out.new) disk.old disk.new
        (seen T.Shows stage.old) (seen T.Shows stage.new) }
    ensures out { length out.new ≡ length out.old }
{
    let shape = disk.geometry();
    match call {
        Call::Read { at } => read_at(disk, stage, &shape, at, out),
        Call::Write { at } => write_at(disk, stage, &shape, at, input),
        Call::Harden => harden(disk, stage),
        Call::Display => display(disk, stage),
        Call::Check { level } => check(disk, stage, level, out),
        Call::Close => close(disk, stage),
        _ => unreachable!(),
    }
}

impl Disk for Stack<Ckd> {
    ghost use Rattle.std.specs.Prelude.{refl};
    ghost use Rattle.std.proofs.Common.{sym};
    ghost use Rattle.cckd_stack.specs.Called.{CanCall, AgreesAfter, stack_in};
    ghost use Rattle.cckd_stack.specs.Writes.{AreUnchanged};
    ghost use Rattle.cckd_stack.specs.Room.{HasRoom};
    ghost use Rattle.cckd_engine.specs.Frame.{IsLower};
    ghost use Rattle.cckd_stack.specs.Marking.{MarksSince};
    ghost use Rattle.cckd_stack.proofs.TiedLemmas.{can_call_puts, can_call_still, agrees_after_put};
    ghost use Rattle.cckd_stack.proofs.MarkingLemmas.{marks_since_put};

    ghost geometry = { λ s. s.geometry };

    ghost stack = { stack_in };

    ghost tied = { CanCall };

    ghost agrees = { AgreesAfter };

    ghost unchanged = { λ s. AreUnchanged s.layers };

    ghost marks = { MarksSince };

    ghost spares = { IsLower };

    ghost has_room = { HasRoom };

    fn perform<T: Stage>(
        &mut self,
        stage: &mut T,
        call: Call,
        input: &[u8],
        out: &mut [u8],
    ) -> Reply {
        make(self, stage, call, input, out)
    }

    ghost stack_at_put = { λ s bytes events. refl };

    ghost tied_at_puts = { can_call_puts };

    ghost tied_at_takes = { λ s now next same takes. can_call_still s now next same (λ told. sym (takes told).events) };

    ghost agrees_at_put = { agrees_after_put };

    ghost marks_at_put = { marks_since_put };
}
