//! The engine: a stage, the stack of layers on it, and the numbers of its calls.
ghost use Rattle.cckd_stack.specs.Room.{Room};
ghost use Rattle.std.specs.Prelude.{ℕ, Option, ◌≡◌, ◌<◌, ◌≤◌, ◌+◌, ◌-◌, ◌^◌, ◌∷◌, ◌++◌, true, false, None, length, not, IfOk, OnOk, OnErr, IsNone, IsSome, IfSome, [], List};
ghost use Rattle.cckd_base.specs.declared.geometry.Geometry.{Geometry as Shape};
ghost use Rattle.cckd_shelf.specs.Events.{Event, output_of};
ghost use Rattle.cckd_shelf.specs.declared.fault.Kind.TheVariants.{Puts, Takes};
ghost use Rattle.cckd_shelf.specs.World.{after_take};
ghost use Rattle.cckd_shelf.specs.Seen.{seen, Tells, Stays, Makes, Fails, AreNext};
ghost use Rattle.cckd_shelf.specs.Frame.{PutsAll, PutsSome};
ghost use Rattle.cckd_script.specs.Text.{FitsCall, IsLine, answered_length, answered_bytes, reply_line};
ghost use Rattle.cckd_stack.specs.Layers.{Stack};
ghost use Rattle.cckd_stack.specs.History.{History, reply_breaks};
ghost use Rattle.cckd_stack.specs.Stops.{Survives};
ghost use Rattle.cckd_stack.specs.Moments.{EachOpens};
ghost use Rattle.cckd_engine.specs.Calls.{CanAsk, CountsReply, KeepsRun, asks, answer_in, writes};
ghost use Rattle.cckd_engine.specs.Frame.{Spares};
ghost use Rattle.cckd_engine.specs.Engine.{entry_of, no_tally, standing, IsWithStage, Stands, Runs, TellsStops, KeepsHistory, KeepsToRoom};
ghost use Rattle.cckd_engine.specs.Closing.{TellsSince};
ghost use Rattle.cckd_lines.specs.Lines.{IsPlace, IsAtEnd, IsNext, LiesIn, IsShort, Advances, BreaksOff, OnlyTakes, held, text_of, allowance};
ghost use Rattle.cckd_engine.specs.Lines.{KeepsLine, of_call, of_text, CountsServed, CountsCut, HasFront, AreFilesThen};

use crate::disk::Disk;
use crate::tally::Tally;
use cckd_base::{Call, Refusal, Reply};
use cckd_lines::{Next, Place, next_line};
use cckd_script::{LINE_LIMIT, LINE_ROOM, print_reply};
use cckd_shelf::{Failed, Stage, put_all};

/// A stage, the stack of layers on its files, and what was made of it so far.
pub struct Engine<T, D> {
    stage: T,
    disk: D,
    calls: u64,
    broken: Option<u64>,
    tally: Tally,
    mute: bool,
}

/// A reply, and whether its line was put.
#[derive(Clone, Copy, Debug, PartialEq, Eq)]
pub struct Served {
    pub reply: Reply,
    pub printed: bool,
}

/// Whether a refusal of this call leaves the disk unfit for any other.
fn refusal_breaks(call: Call, why: Refusal) -> bool
    ensures { result ≡ reply_breaks call (Reply.Refused why) }
{
    match why {
        Refusal::WriteFault | Refusal::SyncFault => true,
        Refusal::ReadFault => matches!(call, Call::Merge),
        _ => false,
    }
}

/// Whether a reply to this call does.
fn breaks(call: Call, reply: Reply) -> bool
    ensures { result ≡ reply_breaks call reply }
{
    match reply {
        Reply::Refused(why) => refusal_breaks(call, why),
        _ => false,
    }
}

impl<T: Stage, D: Disk> Engine<T, D> {
    /// An engine that has made no call yet.
    pub fn new(stage: T, disk: D) -> Engine<T, D>
        ensures stage { result.stage ≡ stage }
        ensures disk { result.disk ≡ disk }
        ensures calls { result.calls ≡ 0 }
        ensures broken { result.broken ≡ None }
        ensures tally { result.tally ≡ no_tally }
        ensures mute { result.mute ≡ false }
    {
        Engine {
            stage,
            disk,
            calls: 0,
            broken: None,
            tally: Tally::none(),
            mute: false,
        }
    }

    /// Makes a call, whose bytes are `input`. Bytes that it is answered stand at the front of `out`. After a call that
    /// broke the disk each is refused with the number of that one, and nothing is done.
    pub fn step(&mut self, call: Call, input: &[u8], out: &mut [u8]) -> Reply
        requires asks { CanAsk call (length input.now) (length out.old) }
        requires numbered { self.old.calls < 2 ^ 64 - 1 }
        requires runs { Runs (D.tied self.old.disk) self.old.broken (seen T.Shows self.old.stage) }
        ensures stands { (session : Option ℕ) (s0 : Stack) (h : History) → Tells (seen T.Shows self.old.stage)
            → Stands s0 h (standing T.Shows D.Disk self.old)
            → Stands s0 (entry_of session (asks call input.now) (answer_in result out.new) (seen T.Shows self.new.stage).world.events ∷ h)
            (standing T.Shows D.Disk self.new) }
        ensures room { (session : Option ℕ) (s0 : Stack) (h : History) (room : Room) → Tells (seen T.Shows self.old.stage)
            → Stands s0 h (standing T.Shows D.Disk self.old) → KeepsToRoom (D.has_room self.old.disk) room s0 h (standing T.Shows D.Disk self.old)
            → KeepsToRoom (D.has_room self.new.disk) room s0
            (entry_of session (asks call input.now) (answer_in result out.new) (seen T.Shows self.new.stage).world.events ∷ h) (standing T.Shows D.Disk self.new) }
        ensures stops { (session : Option ℕ) (s0 : Stack) (h : History) → Tells (seen T.Shows self.old.stage)
            → Stands s0 h (standing T.Shows D.Disk self.old)
            → TellsStops (D.agrees self.old.disk) self.old.broken (seen T.Shows self.old.stage).world.events
            → EachOpens (D.geometry self.old.disk) (Survives (D.geometry self.old.disk) s0 h) (seen T.Shows self.old.stage).world.events
            → KeepsHistory (D.geometry self.old.disk) s0 h
            (entry_of session (asks call input.now) (answer_in result out.new) (seen T.Shows self.new.stage).world.events)
            (seen T.Shows self.old.stage).world.events (seen T.Shows self.new.stage).world.events }
        ensures runs { Runs (D.tied self.new.disk) self.new.broken (seen T.Shows self.new.stage) }
        ensures agrees { Tells (seen T.Shows self.old.stage)
            → TellsStops (D.agrees self.old.disk) self.old.broken (seen T.Shows self.old.stage).world.events
            → TellsStops (D.agrees self.new.disk) self.new.broken (seen T.Shows self.new.stage).world.events }
        ensures closes { (session : Option ℕ) (base : List Event) (h : History) → Tells (seen T.Shows self.old.stage)
            → TellsStops (D.agrees self.old.disk) self.old.broken (seen T.Shows self.old.stage).world.events
            → TellsSince (D.marks self.old.disk) self.old.broken base h (seen T.Shows self.old.stage).world.events
            → TellsSince (D.marks self.new.disk) self.new.broken base
            (entry_of session (asks call input.now) (answer_in result out.new) (seen T.Shows self.new.stage).world.events ∷ h)
            (seen T.Shows self.new.stage).world.events }
        ensures geometry { D.geometry self.new.disk ≡ D.geometry self.old.disk }
        ensures calls { self.new.calls ≡ self.old.calls + 1 }
        ensures mute { self.new.mute ≡ self.old.mute }
        ensures fits { FitsCall call (length input.now) result }
        ensures out { length out.new ≡ length out.old }
        ensures counts { CountsReply result (seen T.Shows self.old.stage).faults (seen T.Shows self.new.stage).faults }
        ensures run { KeepsRun (seen T.Shows self.old.stage) (seen T.Shows self.new.stage) }
        ensures quiet { D.unchanged self.old.disk → writes call ≡ false → D.unchanged self.new.disk × Stays (seen T.Shows self.old.stage) (seen T.Shows self.new.stage) }
        ensures spares { Spares (D.spares self.old.disk) (D.spares self.new.disk) (seen T.Shows self.old.stage) (seen T.Shows self.new.stage) }
        ensures refused { IfSome self.old.broken (λ at. result ≡ Reply.Refused (Refusal.Broken at)) }
        ensures idle { IsSome self.old.broken → seen T.Shows self.new.stage ≡ seen T.Shows self.old.stage }
    {
        self.calls += 1;
        if let Some(at) = self.broken {
            return Reply::Refused(Refusal::Broken { at });
        }
        let reply = self.disk.perform(&mut self.stage, call, input, out);
        self.tally.count(reply);
        if breaks(call, reply) {
            self.broken = Some(self.calls);
        }
        reply
    }

    /// Makes a call and puts the line of its reply, unless a line was cut before. `who` is the session whose call it is;
    /// lines of sessions come later.
    pub fn serve(
        &mut self,
        who: Option<u8>,
        call: Call,
        input: &[u8],
        out: &mut [u8],
        line: &mut [u8],
    ) -> Served
        requires alone { IsNone who }
        requires asks { CanAsk call (length input.now) (length out.old) }
        requires line { LINE_ROOM ≤ length line.old }
        requires numbered { self.old.calls < 2 ^ 64 - 1 }
        requires runs { Runs (D.tied self.old.disk) self.old.broken (seen T.Shows self.old.stage) }
        ensures stands { (s0 : Stack) (h : History) → Tells (seen T.Shows self.old.stage)
            → Stands s0 h (standing T.Shows D.Disk self.old)
            → Stands s0 (entry_of who (asks call input.now) (answer_in result.reply out.new) (seen T.Shows self.new.stage).world.events ∷ h)
            (standing T.Shows D.Disk self.new) }
        ensures room { (s0 : Stack) (h : History) (room : Room) → Tells (seen T.Shows self.old.stage)
            → Stands s0 h (standing T.Shows D.Disk self.old) → KeepsToRoom (D.has_room self.old.disk) room s0 h (standing T.Shows D.Disk self.old)
            → KeepsToRoom (D.has_room self.new.disk) room s0
            (entry_of who (asks call input.now) (answer_in result.reply out.new) (seen T.Shows self.new.stage).world.events ∷ h) (standing T.Shows D.Disk self.new) }
        ensures stops { (s0 : Stack) (h : History) → Tells (seen T.Shows self.old.stage)
            → Stands s0 h (standing T.Shows D.Disk self.old)
            → TellsStops (D.agrees self.old.disk) self.old.broken (seen T.Shows self.old.stage).world.events
            → EachOpens (D.geometry self.old.disk) (Survives (D.geometry self.old.disk) s0 h) (seen T.Shows self.old.stage).world.events
            → KeepsLine (D.geometry self.old.disk) s0 h
            (of_call (entry_of who (asks call input.now) (answer_in result.reply out.new) (seen T.Shows self.new.stage).world.events))
            (output_of (seen T.Shows self.old.stage).world.events)
            (seen T.Shows self.old.stage).world.events (seen T.Shows self.new.stage).world.events }
        ensures files { Tells (seen T.Shows self.old.stage) → AreFilesThen (output_of (seen T.Shows self.old.stage).world.events) 0
            (of_call (entry_of who (asks call input.now) (answer_in result.reply out.new) (seen T.Shows self.new.stage).world.events) ∷ [])
            (seen T.Shows self.old.stage).world.events (seen T.Shows self.new.stage).world.events }
        ensures runs { Runs (D.tied self.new.disk) self.new.broken (seen T.Shows self.new.stage) }
        ensures agrees { Tells (seen T.Shows self.old.stage)
            → TellsStops (D.agrees self.old.disk) self.old.broken (seen T.Shows self.old.stage).world.events
            → TellsStops (D.agrees self.new.disk) self.new.broken (seen T.Shows self.new.stage).world.events }
        ensures closes { (base : List Event) (h : History) → Tells (seen T.Shows self.old.stage)
            → TellsStops (D.agrees self.old.disk) self.old.broken (seen T.Shows self.old.stage).world.events
            → TellsSince (D.marks self.old.disk) self.old.broken base h (seen T.Shows self.old.stage).world.events
            → TellsSince (D.marks self.new.disk) self.new.broken base
            (entry_of who (asks call input.now) (answer_in result.reply out.new) (seen T.Shows self.new.stage).world.events ∷ h)
            (seen T.Shows self.new.stage).world.events }
        ensures geometry { D.geometry self.new.disk ≡ D.geometry self.old.disk }
        ensures calls { self.new.calls ≡ self.old.calls + 1 }
        ensures fits { FitsCall call (length input.now) result.reply }
        ensures out { length out.new ≡ length out.old }
        ensures line { length line.new ≡ length line.old }

        // The line is put whole where it is said to be printed, and else a front of it, or nothing.
        ensures printed { result.printed ≡ not self.new.mute }
        ensures one { self.old.mute ≡ false → IsLine (reply_line call result.reply (answered_bytes result.reply out.new)) }
        ensures said { Tells (seen T.Shows self.old.stage) → result.printed ≡ true
            → output_of (seen T.Shows self.new.stage).world.events ≡ output_of (seen T.Shows self.old.stage).world.events
            ++ reply_line call result.reply (answered_bytes result.reply out.new) }
        ensures front { Tells (seen T.Shows self.old.stage) → HasFront (output_of (seen T.Shows self.old.stage).world.events)
            (reply_line call result.reply (answered_bytes result.reply out.new)) (output_of (seen T.Shows self.new.stage).world.events) }
        ensures muted { self.old.mute ≡ true → self.new.mute ≡ true }
        ensures silent { Tells (seen T.Shows self.old.stage) → self.old.mute ≡ true
            → output_of (seen T.Shows self.new.stage).world.events ≡ output_of (seen T.Shows self.old.stage).world.events }
        ensures counts { CountsServed result.reply self.old.mute self.new.mute
            (seen T.Shows self.old.stage).faults (seen T.Shows self.new.stage).faults }
        ensures quiet { D.unchanged self.old.disk → writes call ≡ false → D.unchanged self.new.disk
            × PutsSome (reply_line call result.reply (answered_bytes result.reply out.new)) (seen T.Shows self.old.stage) (seen T.Shows self.new.stage) }
        ensures spares { Spares (D.spares self.old.disk) (D.spares self.new.disk) (seen T.Shows self.old.stage) (seen T.Shows self.new.stage) }
        ensures script { Tells (seen T.Shows self.old.stage) → (seen T.Shows self.new.stage).world.script ≡ (seen T.Shows self.old.stage).world.script }
    {
        let reply = self.step(call, input, out);
        let given = input.len() as u32;
        self.mute = put_line(
            &mut self.stage,
            self.mute,
            who,
            call,
            given,
            &reply,
            out,
            line,
        );
        Served {
            reply,
            printed: !self.mute,
        }
    }

    /// Puts a text that answers no call. At a failure a front of it was put.
    pub fn print(&mut self, text: &[u8]) -> Result<(), Failed>
        ensures whole { OnOk result (PutsAll text.now (seen T.Shows self.old.stage) (seen T.Shows self.new.stage)) }
        ensures front { PutsSome text.now (seen T.Shows self.old.stage) (seen T.Shows self.new.stage) }
        ensures fails { Fails Puts result (seen T.Shows self.old.stage) (seen T.Shows self.new.stage) }
        ensures rest { IsWithStage self.new self.old }

        // The history stays, the engine runs, and a line that is put keeps what stops may leave.
        ensures stands { (s0 : Stack) (h : History) → Tells (seen T.Shows self.old.stage)
            → Stands s0 h (standing T.Shows D.Disk self.old) → Stands s0 h (standing T.Shows D.Disk self.new) }
        ensures stops { (s0 : Stack) (h : History) → Tells (seen T.Shows self.old.stage) → IsLine text.now
            → EachOpens (D.geometry self.old.disk) (Survives (D.geometry self.old.disk) s0 h) (seen T.Shows self.old.stage).world.events
            → KeepsLine (D.geometry self.old.disk) s0 h (of_text text.now) (output_of (seen T.Shows self.old.stage).world.events)
            (seen T.Shows self.old.stage).world.events (seen T.Shows self.new.stage).world.events }
        ensures runs { Runs (D.tied self.old.disk) self.old.broken (seen T.Shows self.old.stage)
            → Runs (D.tied self.new.disk) self.new.broken (seen T.Shows self.new.stage) }
        ensures agrees { Tells (seen T.Shows self.old.stage)
            → TellsStops (D.agrees self.old.disk) self.old.broken (seen T.Shows self.old.stage).world.events
            → TellsStops (D.agrees self.new.disk) self.new.broken (seen T.Shows self.new.stage).world.events }
        ensures closes { (base : List Event) (h : History) → Tells (seen T.Shows self.old.stage)
            → TellsSince (D.marks self.old.disk) self.old.broken base h (seen T.Shows self.old.stage).world.events
            → TellsSince (D.marks self.new.disk) self.new.broken base h (seen T.Shows self.new.stage).world.events }
    {
        put_all(&mut self.stage, text)
    }

    /// Takes the next bytes of the script, as the stage does.
    pub fn take(&mut self, into: &mut [u8]) -> Result<usize, Failed>
        requires { 0 < length into.old }
        ensures fits { IfOk result (λ n. n ≤ length into.old) }
        ensures next { IfOk result (λ n. AreNext n into.new (seen T.Shows self.old.stage)) }
        ensures left { IfOk result (λ n. Makes (after_take n) (seen T.Shows self.old.stage) (seen T.Shows self.new.stage)) }
        ensures kept { OnErr result (Stays (seen T.Shows self.old.stage) (seen T.Shows self.new.stage)) }
        ensures fails { Fails Takes result (seen T.Shows self.old.stage) (seen T.Shows self.new.stage) }
        ensures rest { IsWithStage self.new self.old }
        ensures same { Tells (seen T.Shows self.old.stage) → (seen T.Shows self.new.stage).world.events ≡ (seen T.Shows self.old.stage).world.events }
    {
        self.stage.take(into)
    }

    /// What comes next in the script, from a place of the room on.
    pub fn next_line(&mut self, room: &mut [u8], place: Place) -> Result<(Next, Place), Failed>
        requires place { IsPlace room.old place }
        requires room { LINE_LIMIT + 2 ≤ length room.old }
        requires ended { Tells (seen T.Shows self.old.stage) → IsAtEnd place (seen T.Shows self.old.stage).world.script }
        ensures place { IfOk result (λ found. IsPlace room.new found.1) }
        ensures room { length room.new ≡ length room.old }
        ensures ended { Tells (seen T.Shows self.old.stage) → IfOk result (λ found. IsAtEnd found.1 (seen T.Shows self.new.stage).world.script) }
        ensures next { Tells (seen T.Shows self.old.stage) → IfOk result (λ found. IsNext (held room.old place (seen T.Shows self.old.stage).world.script)
            (held room.new found.1 (seen T.Shows self.new.stage).world.script) found.0) }
        ensures lies { IfOk result (λ found. LiesIn room.new found.0) }
        ensures short { IfOk result (λ found. IsShort found.0) }
        ensures advances { IfOk result (λ found. Advances (allowance place) (allowance found.1) found.0) }
        ensures broken { Tells (seen T.Shows self.old.stage) → OnErr result
            (BreaksOff (allowance place) (text_of (held room.old place (seen T.Shows self.old.stage).world.script)) (seen T.Shows self.new.stage).world.script) }
        ensures going_on { OnErr result (place.ended ≡ false) }
        ensures only { Tells (seen T.Shows self.old.stage) → OnlyTakes (seen T.Shows self.old.stage).world (seen T.Shows self.new.stage).world }
        ensures fails { Fails Takes result (seen T.Shows self.old.stage) (seen T.Shows self.new.stage) }
        ensures rest { IsWithStage self.new self.old }
        ensures runs { Runs (D.tied self.old.disk) self.old.broken (seen T.Shows self.old.stage)
            → Runs (D.tied self.new.disk) self.new.broken (seen T.Shows self.new.stage) }
    {
        next_line(&mut self.stage, room, place)
    }

    /// How many calls were made.
    pub fn calls(&self) -> u64
        ensures { result ≡ self.now.calls }
    {
        self.calls
    }

    /// How many replies were refusals, by four kinds.
    pub fn tally(&self) -> Tally
        ensures { result ≡ self.now.tally }
    {
        self.tally
    }

    /// Whether a line was cut, since when none is put.
    pub fn mute(&self) -> bool
        ensures { result ≡ self.now.mute }
    {
        self.mute
    }
}

impl<T: Stage, D: Disk + Drop> Engine<T, D> {
    /// The stage.
    pub fn into_stage(self) -> T
        ensures { result ≡ self.stage }
    {
        let Engine {
            stage,
            disk: _,
            calls: _,
            broken: _,
            tally: _,
            mute: _,
        } = self;
        stage
    }
}

/// Puts the line of a reply to a call that gave so many bytes, unless a line was cut before. The answer is whether one was
/// cut now or before.
fn put_line<T: Stage>(
    stage: &mut T,
    mute: bool,
    who: Option<u8>,
    call: Call,
    given: u32,
    reply: &Reply,
    out: &[u8],
    line: &mut [u8],
) -> bool
    requires alone { IsNone who }
    requires fits { FitsCall call given reply.now }
    requires answered { answered_length reply.now ≤ length out.now }
    requires room { LINE_ROOM ≤ length line.old }
    ensures one { mute ≡ false → IsLine (reply_line call reply.now (answered_bytes reply.now out.now)) }
    ensures front { PutsSome (reply_line call reply.now (answered_bytes reply.now out.now)) (seen T.Shows stage.old) (seen T.Shows stage.new) }
    ensures whole { result ≡ false → PutsAll (reply_line call reply.now (answered_bytes reply.now out.now)) (seen T.Shows stage.old) (seen T.Shows stage.new) }
    ensures still { mute ≡ true → (result ≡ true) × (seen T.Shows stage.new ≡ seen T.Shows stage.old) }
    ensures counts { CountsCut mute result (seen T.Shows stage.old).faults (seen T.Shows stage.new).faults }
    ensures line { length line.new ≡ length line.old }
{
    if mute {
        return true;
    }
    let end = print_reply(who, call, reply, given, out, line);
    put_all(stage, &line[..end as usize]).is_err()
}
