//! What a line of a script asks.

ghost use Rattle.std.specs.Prelude.{◌≡◌, ◌↔◌, ◌+◌, ◌<◌, ◌≤◌, ◌^◌, ◌∷◌, [], ℕ, List, false, length, IfSome, IfNone, IfOk};
ghost use Rattle.cckd_base.specs.Put.{IsPut};
ghost use Rattle.cckd_script.specs.Lines.{tokens};
ghost use Rattle.cckd_script.specs.Parse.{Request, parsed, parsed_tokens, forms, form_named, read_form, write_form, fill_form, bare_form, check_form, line_in, given_in};
ghost use Rattle.cckd_script.specs.Spelling.{IsLineOf, IsAnswered};
ghost use Rattle.cckd_script.specs.Inside.{decoded, AreDigits, bytes_of, GivenFits, request_in, word_text, AsksFor};

use crate::LINE_LIMIT;
use crate::fill::put_filled;
use crate::tokens::{address_behind, digits_behind, ends_at, number_behind, token_end};
use cckd_base::{Addr, Call};

/// Where a line stops to be one of the script's.
#[derive(Clone, Copy, Debug, PartialEq, Eq)]
pub struct LineFault {
    /// Where the first wrong token begins, in bytes from 1. It is the place behind the line where a
    /// token is missing.
    pub column: u32,
}

/// What a line asks.
#[derive(Clone, Copy, Debug, PartialEq, Eq)]
pub enum What {
    /// An empty line or a comment asks for nothing, and has no reply.
    Nothing,
    /// A call, and how many bytes it gives.
    One { call: Call, input_len: u32 },
    /// So many steps of the collector, one reply each.
    Turns { count: u32 },
}

/// A line that was read.
#[derive(Clone, Copy, Debug, PartialEq, Eq)]
pub struct Line {
    /// The session whose line it is, where lines are those of sessions.
    pub who: Option<u8>,
    pub what: What,
}

/// The bytes that a call gives.
#[derive(Clone, Copy)]
enum Given<'a> {
    Nothing,
    /// Those that pairs of hexadecimal digits spell.
    Digits(&'a [u8]),
    /// A track whose record one has so many equal bytes.
    Filled { at: Addr, count: u16, byte: u8 },
}

/// A call and the bytes that it gives.
#[derive(Clone, Copy)]
struct Asked<'a> {
    call: Call,
    gives: Given<'a>,
}

/// The words that begin lines.
#[derive(Clone, Copy)]
enum Word {
    Read,
    Write,
    Fill,
    Harden,
    Display,
    Check,
}

/// The read of the address that stands behind the token that ends at `end`.
fn read_call<'a>(line: &'a [u8], end: usize) -> Result<Asked<'a>, LineFault>
    requires short { length line.now ≤ LINE_LIMIT }
    requires within { end ≤ length line.now }
    ensures asks { AsksFor read_form line.now end result }
    ensures fits { IfOk result (λ asked. GivenFits asked.gives) }
{
    let place = address_behind(line, end)?;
    ends_at(line, place.end)?;
    Ok(Asked {
        call: Call::Read { at: place.at },
        gives: Given::Nothing,
    })
}

/// The write of the bytes that stand behind an address, which is behind the token that ends at
/// `end`.
fn write_call<'a>(line: &'a [u8], end: usize) -> Result<Asked<'a>, LineFault>
    requires short { length line.now ≤ LINE_LIMIT }
    requires within { end ≤ length line.now }
    ensures asks { AsksFor write_form line.now end result }
    ensures fits { IfOk result (λ asked. GivenFits asked.gives) }
{
    let place = address_behind(line, end)?;
    let digits = digits_behind(line, place.end, 1, 65_535)?;
    ends_at(line, digits.end)?;
    Ok(Asked {
        call: Call::Write { at: place.at },
        gives: Given::Digits(digits.text),
    })
}

/// The byte that a pair of hexadecimal digits spells.
fn byte_in(digits: &[u8]) -> u8
    requires { AreDigits digits.now 1 1 }
    ensures { decoded digits.now ≡ result ∷ [] }
{
    let mut byte = [0];
    let _ = hex::decode_to_slice(digits, &mut byte);
    byte[0]
}

/// The write of a track with a record one of equal bytes, by the address, their count and the byte
/// that stand behind the token that ends at `end`.
fn fill_call<'a>(line: &'a [u8], end: usize) -> Result<Asked<'a>, LineFault>
    requires short { length line.now ≤ LINE_LIMIT }
    requires within { end ≤ length line.now }
    ensures asks { AsksFor fill_form line.now end result }
    ensures fits { IfOk result (λ asked. GivenFits asked.gives) }
{
    let place = address_behind(line, end)?;
    let at = place.at;
    let count = number_behind(line, place.end, 0, 65_498)?;
    let digits = digits_behind(line, count.end, 1, 1)?;
    ends_at(line, digits.end)?;
    let byte = byte_in(digits.text);
    Ok(Asked {
        call: Call::Write { at },
        gives: Given::Filled {
            at,
            count: count.value as u16,
            byte,
        },
    })
}

/// A call without bytes, behind whose word, which ends at `end`, nothing stands.
fn bare_call<'a>(line: &'a [u8], end: usize, call: Call) -> Result<Asked<'a>, LineFault>
    requires short { length line.now ≤ LINE_LIMIT }
    requires within { end ≤ length line.now }
    ensures asks { (front : List ℕ) → AsksFor (bare_form front call) line.now end result }
    ensures fits { IfOk result (λ asked. GivenFits asked.gives) }
{
    ends_at(line, end)?;
    Ok(Asked {
        call,
        gives: Given::Nothing,
    })
}

/// The check at the level that stands behind the token that ends at `end`, and at level 1 where
/// none does.
fn check_call<'a>(line: &'a [u8], end: usize) -> Result<Asked<'a>, LineFault>
    requires short { length line.now ≤ LINE_LIMIT }
    requires within { end ≤ length line.now }
    ensures asks { AsksFor check_form line.now end result }
    ensures fits { IfOk result (λ asked. GivenFits asked.gives) }
{
    if end == line.len() {
        return Ok(Asked {
            call: Call::Check { level: 1 },
            gives: Given::Nothing,
        });
    }
    let level = number_behind(line, end, 0, 3)?;
    ends_at(line, level.end)?;
    Ok(Asked {
        call: Call::Check {
            level: level.value as u8,
        },
        gives: Given::Nothing,
    })
}

/// The word that a token is.
fn word_in(token: &[u8]) -> Option<Word>
    ensures known { IfSome result (λ word. token.now ≡ word_text word) }
    ensures unknown { IfNone result (form_named forms token.now ≡ None) }
{
    if token == b"read".as_slice() {
        Some(Word::Read)
    } else if token == b"write".as_slice() {
        Some(Word::Write)
    } else if token == b"fill".as_slice() {
        Some(Word::Fill)
    } else if token == b"harden".as_slice() {
        Some(Word::Harden)
    } else if token == b"sfd".as_slice() {
        Some(Word::Display)
    } else if token == b"sfk".as_slice() {
        Some(Word::Check)
    } else {
        None
    }
}

/// What the word that begins a line asks for with the tokens behind it.
fn form_call<'a>(line: &'a [u8]) -> Result<Asked<'a>, LineFault>
    requires { length line.now ≤ LINE_LIMIT }
    ensures asks { request_in result ≡ parsed_tokens (tokens line.now) }
    ensures fits { IfOk result (λ asked. GivenFits asked.gives) }
{
    let end = token_end(line, 0);
    match word_in(&line[..end]) {
        Some(Word::Read) => read_call(line, end),
        Some(Word::Write) => write_call(line, end),
        Some(Word::Fill) => fill_call(line, end),
        Some(Word::Harden) => bare_call(line, end, Call::Harden),
        Some(Word::Display) => bare_call(line, end, Call::Display),
        Some(Word::Check) => check_call(line, end),
        None => Err(LineFault { column: 1 }),
    }
}

/// Puts the bytes that digits spell to the front of a buffer, and answers how many they are.
fn put_digits(into: &mut [u8], digits: &[u8]) -> usize
    requires digits { AreDigits digits.now 1 65535 }
    requires room { 65535 ≤ length into.old }
    ensures { IsPut 0 result (decoded digits.now) into.old into.new }
{
    let count = digits.len() / 2;
    let _ = hex::decode_to_slice(digits, &mut into[..count]);
    count
}

/// Puts the bytes that a call gives to the front of a buffer, and answers how many they are.
fn put_given(into: &mut [u8], gives: Given) -> u32
    requires fits { GivenFits gives }
    requires room { 65535 ≤ length into.old }
    ensures put { IsPut 0 result (bytes_of gives.entry) into.old into.new }
    ensures short { result ≤ 65535 }
{
    match gives {
        Given::Nothing => 0,
        Given::Digits(digits) => put_digits(into, digits) as u32,
        Given::Filled { at, count, byte } => put_filled(into, at, count, byte) as u32,
    }
}

/// What a line that begins with a word asks, whose bytes go to the front of `into`.
fn parse_call(line: &[u8], into: &mut [u8]) -> Result<Line, LineFault>
    requires short { length line.now ≤ LINE_LIMIT }
    requires room { 65535 ≤ length into.old }
    ensures parsed { result ≡ line_in (parsed_tokens (tokens line.now)) }
    ensures given { IsPut 0 (length (given_in (parsed_tokens (tokens line.now))))
        (given_in (parsed_tokens (tokens line.now))) into.old into.new }
    ensures few { length (given_in (parsed_tokens (tokens line.now))) ≤ 65535 }
{
    match form_call(line) {
        Ok(asked) => {
            let input_len = put_given(into, asked.gives);
            let call = asked.call;
            Ok(Line {
                who: None,
                what: What::One { call, input_len },
            })
        }
        Err(fault) => Err(fault),
    }
}

/// What a line without its line feed asks: nothing where it is empty or a comment, and else a call,
/// whose bytes go to the front of `into`. The column of a fault is where the first token begins that
/// isn't of its kind. `sessions` says that the line is one of sessions.
pub fn parse_line(line: &[u8], sessions: bool, into: &mut [u8]) -> Result<Line, LineFault>
    requires alone { sessions ≡ false }
    requires short { length line.now ≤ LINE_LIMIT }
    requires room { 65536 ≤ length into.old }
    ensures parsed { result ≡ line_in (parsed line.now) }

    // The bytes of a call stand at the front of `into`; all else of it stays.
    ensures given { IsPut 0 (length (given_in (parsed line.now))) (given_in (parsed line.now)) into.old into.new }
    ensures few { length (given_in (parsed line.now)) ≤ 65535 }

    // A line asks for a request exactly where it is a line of it.
    ensures spelled { (request : Request) → IsAnswered request result (given_in (parsed line.now)) ↔ IsLineOf request line.now }
{
    match line.first() {
        None | Some(b'#') => Ok(Line {
            who: None,
            what: What::Nothing,
        }),
        Some(_) => parse_call(line, into),
    }
}
