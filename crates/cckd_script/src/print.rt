//! The lines that are printed for replies.

ghost use Rattle.std.specs.Prelude.{◌≡◌, ◌≤◌, ℕ, List, length, IsNone};
ghost use Rattle.cckd_base.specs.declared.reply.Reply.{Reply as Answer};
ghost use Rattle.cckd_base.specs.Put.{IsPut};
ghost use Rattle.cckd_script.specs.Text.{call_address, call_record, CallFits, FitsCall, IsAnswer, IsLine, reply_text, reply_line, misreading_line, answered_length, answered_bytes};

use crate::misread::Misreading;
use crate::text::{put_misreading, put_reply};
use cckd_base::{Addr, Call, Reply, put_bytes};

/// A buffer of so many bytes holds each line.
pub const LINE_ROOM: usize = 131_200;

/// The address that a call names, and 0 0 where it names none.
fn address_of(call: Call) -> Addr
    ensures { result ≡ call_address call }
{
    match call {
        Call::Read { at }
        | Call::Write { at }
        | Call::GetRecord { at, .. }
        | Call::PutRecord { at, .. } => at,
        _ => Addr { cyl: 0, head: 0 },
    }
}

/// The record that a call names, and 0 where it names none.
fn record_of(call: Call) -> u8
    ensures { result ≡ call_record call }
{
    match call {
        Call::GetRecord { num, .. } | Call::PutRecord { num, .. } => num,
        _ => 0,
    }
}

/// Puts the line of a reply to the front of `line`, where the call gave `input_len` bytes and those
/// that the reply answers stand at the front of `out`. The answer is the line's length with its line
/// feed. `who` is the session whose call it was, where lines are those of sessions.
#[tactic(auto, using(cckd_base::proofs::PutLemmas::puts_join))]
pub fn print_reply(
    who: Option<u8>,
    call: Call,
    reply: &Reply,
    input_len: u32,
    out: &[u8],
    line: &mut [u8],
) -> u32
    requires alone { IsNone who }
    requires fits { FitsCall call input_len reply.now }
    requires answered { answered_length reply.now ≤ length out.now }
    requires room { LINE_ROOM ≤ length line.old }
    ensures printed { IsPut 0 result
        (reply_line call reply.now (answered_bytes reply.now out.now)) line.old line.new }
    ensures within { result ≤ LINE_ROOM }
    ensures one_line { IsLine (reply_line call reply.now (answered_bytes reply.now out.now)) }
    ensures asked { CallFits call }
    ensures answer { IsAnswer call input_len reply.now (answered_bytes reply.now out.now) }

    // Text and call determine the reply, and the bytes that it answers.
    ensures told { (other : Answer) (bytes : List ℕ) → IsAnswer call input_len other bytes
        → reply_text call other bytes ≡ reply_text call reply.now (answered_bytes reply.now out.now)
        → (other ≡ reply.now) × (bytes ≡ answered_bytes reply.now out.now) }
{
    let end = put_reply(line, address_of(call), record_of(call), *reply, out);
    put_bytes(line, end, b"\n") as u32
}

/// Puts the line of a refused line to the front of `line`, and answers its length with its line
/// feed.
#[tactic(auto, using(cckd_base::proofs::PutLemmas::puts_join))]
pub fn print_misreading(why: Misreading, line: &mut [u8]) -> u32
    requires room { LINE_ROOM ≤ length line.old }
    ensures printed { IsPut 0 result (misreading_line why) line.old line.new }
    ensures within { result ≤ LINE_ROOM }
    ensures one_line { IsLine (misreading_line why) }
{
    let end = put_misreading(line, why);
    put_bytes(line, end, b"\n") as u32
}
