//! A stack of layers, as an engine uses it.
ghost use Rattle.cckd_stack.specs.Room.{Room, KeepsRoom, room_after_call};
ghost use Rattle.std.specs.Prelude.{◌≡◌, ◌∷◌, ℕ, List, length, false};
ghost use Rattle.cckd_base.specs.declared.geometry.Geometry.{Geometry as Shape};
ghost use Rattle.cckd_shelf.specs.Events.{Event, Put, file_now};
ghost use Rattle.cckd_shelf.specs.Seen.{Seen, seen, Tells, Stays};
ghost use Rattle.cckd_shelf.specs.World.{IsSure};
ghost use Rattle.cckd_shelf.specs.Frame.{PutsSome};
ghost use Rattle.cckd_script.specs.Text.{FitsCall};
ghost use Rattle.cckd_lines.specs.Lines.{OnlyTakes};
ghost use Rattle.cckd_stack.specs.Layers.{Stack};
ghost use Rattle.cckd_stack.specs.Answers.{MayAnswer, stack_after_call};
ghost use Rattle.cckd_stack.specs.History.{reply_breaks};
ghost use Rattle.cckd_stack.specs.Moments.{Hardening, IsHardened, KeepsStops};
ghost use Rattle.cckd_engine.specs.Frame.{Spares};
ghost use Rattle.cckd_engine.specs.Closing.{TellsChanges};
ghost use Rattle.cckd_engine.specs.Calls.{CanAsk, KeepsRun, asks, answer_in, CountsReply, writes};

use cckd_base::{Call, Reply};
use cckd_shelf::Stage;

/// A stack of layers that makes calls.
pub trait Disk {
    /// The geometry of all its layers.
    ghost geometry: { Self → Shape };

    /// The stack that it stands for, where these events have happened.
    ghost stack: { Self → List Event → Stack };

    /// That it can make calls: it isn't broken, and is tied to the files of its slots, as far as that is told and no operation failed
    /// half way.
    ghost tied: { Self → Seen → Type 0 };

    /// That each file is snug and agrees with it, so that it is told what stops leave.
    ghost agrees: { Self → List Event → Type 0 };

    /// That nothing was written to it since it was mounted or closed.
    ghost unchanged: { Self → Type 0 };

    /// That its marks say what was done to the files since earlier events.
    ghost marks: { Self → List Event → List Event → Type 0 };

    /// That its calls leave the file of a slot alone.
    ghost spares: { Self → ℕ → Type 0 };

    /// That this room is in its last file.
    ghost has_room: { Self → Room → Type 0 };

    /// Makes a call. Bytes that it gives are `input`, and those that it is answered go to the front of `out`.
    fn perform<T: Stage>(
        &mut self,
        stage: &mut T,
        call: Call,
        input: &[u8],
        out: &mut [u8],
    ) -> Reply
        requires ready { tied self.old (seen T.Shows stage.old) }
        requires asks { CanAsk call (length input.now) (length out.old) }
        // Where no operation had failed half way it is answered as the layered disk may answer.
        ensures answers { Tells (seen T.Shows stage.old) → IsSure (seen T.Shows stage.old).world → MayAnswer (geometry self.old)
            (stack self.old (seen T.Shows stage.old).world.events) (asks call input.now) (answer_in result out.new) }
        ensures fits { FitsCall call (length input.now) result }
        ensures out { length out.new ≡ length out.old }

        // A call that doesn't break leaves the stack that the layered disk has after it, and no operation of it failed half way.
        ensures stack { Tells (seen T.Shows stage.old) → IsSure (seen T.Shows stage.old).world → reply_breaks call result ≡ false
            → stack self.new (seen T.Shows stage.new).world.events
            ≡ stack_after_call (geometry self.old) (stack self.old (seen T.Shows stage.old).world.events) (asks call input.now) result }
        ensures sure { Tells (seen T.Shows stage.old) → IsSure (seen T.Shows stage.old).world → reply_breaks call result ≡ false
            → IsSure (seen T.Shows stage.new).world }
        ensures ready { reply_breaks call result ≡ false → tied self.new (seen T.Shows stage.new) }
        ensures geometry { geometry self.new ≡ geometry self.old }

        // At each operation of the call, for all that was hardened and written since, where the files agree with it.
        ensures agrees { reply_breaks call result ≡ false → Tells (seen T.Shows stage.old)
            → agrees self.old (seen T.Shows stage.old).world.events → agrees self.new (seen T.Shows stage.new).world.events }
        ensures stops { (was : Hardening) → Tells (seen T.Shows stage.old) → agrees self.old (seen T.Shows stage.old).world.events
            → was.stack ≡ stack self.old (seen T.Shows stage.old).world.events
            → IsHardened (geometry self.old) was (seen T.Shows stage.old).world.events
            → KeepsStops (geometry self.old) was (asks call input.now) result
            (seen T.Shows stage.old).world.events (seen T.Shows stage.new).world.events }

        // A call that writes nothing to a disk that wasn't changed does nothing to the files, and leaves it unchanged.
        ensures quiet { unchanged self.old → writes call ≡ false → unchanged self.new × Stays (seen T.Shows stage.old) (seen T.Shows stage.new) }

        // Whatever the reply is, and whatever failed before, nothing is done to the files that it leaves alone, and it leaves them alone on.
        ensures spares { Spares (spares self.old) (spares self.new) (seen T.Shows stage.old) (seen T.Shows stage.new) }

        // A refusal for want of room has its cause, the last file is within its bounds, and the room is known on.
        ensures room { (room : Room) → Tells (seen T.Shows stage.old) → IsSure (seen T.Shows stage.old).world → has_room self.old room
            → KeepsRoom (geometry self.old) room (stack self.old (seen T.Shows stage.old).world.events) (asks call input.now) result (file_now (seen T.Shows stage.new).world.events) }
        ensures room_on { (room : Room) → Tells (seen T.Shows stage.old) → IsSure (seen T.Shows stage.old).world → has_room self.old room
            → reply_breaks call result ≡ false → has_room self.new (room_after_call (geometry self.old) room (asks call input.now) result) }

        // Where it was told what was done to the files since earlier events, it is told again, unless the call breaks; and behind the reply
        // `closed` each file was left or is that of a closed image.
        ensures closes { (base : List Event) → Tells (seen T.Shows stage.old) → agrees self.old (seen T.Shows stage.old).world.events
            → marks self.old base (seen T.Shows stage.old).world.events
            → TellsChanges (marks self.new) (reply_breaks call result) result base (seen T.Shows stage.new).world.events }

        // A fault that was met is told, and no other count rose; nothing is put and nothing is taken.
        ensures counts { CountsReply result (seen T.Shows stage.old).faults (seen T.Shows stage.new).faults }
        ensures run { KeepsRun (seen T.Shows stage.old) (seen T.Shows stage.new) };

    /// Bytes that are put out don't concern it.
    ghost stack_at_put: { (disk : Self) (bytes : List ℕ) (events : List Event)
        → stack disk (Put bytes ∷ events) ≡ stack disk events };

    ghost tied_at_puts: { (disk : Self) (text : List ℕ) (s next : Seen) → next.tells ≡ s.tells → PutsSome text s next
        → tied disk s → tied disk next };

    /// Nor does the script, of which a part is taken.
    ghost tied_at_takes: { (disk : Self) (s next : Seen) → next.tells ≡ s.tells → (Tells s → OnlyTakes s.world next.world)
        → tied disk s → tied disk next };

    ghost agrees_at_put: { (disk : Self) (bytes : List ℕ) (events : List Event)
        → agrees disk events → agrees disk (Put bytes ∷ events) };

    ghost marks_at_put: { (disk : Self) (bytes : List ℕ) (base events : List Event)
        → marks disk base events → marks disk base (Put bytes ∷ events) };
}
