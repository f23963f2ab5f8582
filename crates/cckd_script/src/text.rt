//! What is printed for a reply, put into a buffer.

ghost use Rattle.std.specs.Prelude.{◌≡◌, ◌+◌, ◌*◌, ◌≤◌, ◌<◌, ◌^◌, ℕ, List, [], ◌∷◌, length, map, codes};
ghost use Rattle.std.specs.List.{AllByRecursion};
ghost use Rattle.cckd_base.specs.declared.call.Call.{Call as Asked};
ghost use Rattle.cckd_base.specs.Put.{IsPut};
ghost use Rattle.cckd_script.specs.Phrase.{phrase, phrase_text, words as wording, number, marked, hex};
ghost use Rattle.cckd_script.specs.Text.{at_address, refusal_phrase, turn_phrase, reply_phrase, misreading_phrase, answered_length, answered_bytes, FaultFits, TurnFits, RefusalFits, ReplyFits, FitsCall, MisreadingFits};

use crate::misread::Misreading;
use crate::phrase::{Part, put_phrase};
use cckd_base::{Addr, Full, Refusal, Reply, TrackFault, Turn};

/// So many bytes hold any text but the bytes that it shows.
const TEXT_ROOM: usize = 400;

/// Puts words alone.
fn put_words(line: &mut [u8], words: &[u8]) -> usize
    requires { length words.now ≤ length line.old }
    ensures put { IsPut 0 result (phrase words.now []) line.old line.new }
    ensures short { result ≤ length words.now }
{
    put_phrase(line, 0, words, &[])
}

/// Puts words with one number behind them.
fn put_number_behind(line: &mut [u8], words: &[u8], n: u64) -> usize
    requires { length words.now + 21 ≤ length line.old }
    ensures put { IsPut 0 result (phrase words.now (number n ∷ [])) line.old line.new }
    ensures short { result ≤ length words.now + 21 }
{
    put_phrase(line, 0, words, &[Part::Number(n)])
}

/// Puts what moved from where to where.
fn put_move(line: &mut [u8], words: &[u8], what: u32, from: u32, to: u32) -> usize
    requires { length words.now + 80 ≤ length line.old }
    ensures put { IsPut 0 result
        (phrase words.now (number what ∷ wording (codes "from") ∷ number from ∷ wording (codes "to") ∷ number to ∷ [])) line.old line.new }
    ensures short { result ≤ length words.now + 80 }
{
    put_phrase(
        line,
        0,
        words,
        &[
            Part::Number(u64::from(what)),
            Part::Words(b"from"),
            Part::Number(u64::from(from)),
            Part::Words(b"to"),
            Part::Number(u64::from(to)),
        ],
    )
}

/// Puts the text of a track fault.
fn put_track_fault(line: &mut [u8], fault: TrackFault) -> usize
    requires { TEXT_ROOM ≤ length line.old }
    ensures put { IsPut 0 result (phrase_text (refusal_phrase (Refusal.Track fault))) line.old line.new }
    ensures short { result ≤ TEXT_ROOM }
    ensures numbers { FaultFits fault }
{
    match fault {
        TrackFault::TooLong { len, max } => put_phrase(
            line,
            0,
            b"refused: track too long",
            &[
                Part::Number(u64::from(len)),
                Part::Words(b"over"),
                Part::Number(u64::from(max)),
            ],
        ),
        TrackFault::NoEnd { at } => put_number_behind(line, b"refused: no end at", u64::from(at)),
        TrackFault::Compressed { byte } => {
            put_number_behind(line, b"refused: compressed", u64::from(byte))
        }
        TrackFault::WrongTrack { cyl, head } => put_phrase(
            line,
            0,
            b"refused: wrong track",
            &[Part::Number(u64::from(cyl)), Part::Number(u64::from(head))],
        ),
        TrackFault::BadRecord { at } => {
            put_number_behind(line, b"refused: bad record at", u64::from(at))
        }
    }
}

/// Puts what is wanted where there is no place, and what there is.
fn put_full(line: &mut [u8], full: Full) -> usize
    requires { TEXT_ROOM ≤ length line.old }
    ensures put { IsPut 0 result (phrase_text (refusal_phrase (Refusal.Full full))) line.old line.new }
    ensures short { result ≤ TEXT_ROOM }
    ensures numbers { RefusalFits (Refusal.Full full) }
{
    put_phrase(
        line,
        0,
        b"refused: full, need",
        &[
            Part::Number(u64::from(full.need)),
            Part::Words(b"largest"),
            Part::Number(u64::from(full.largest)),
            Part::Words(b"room"),
            Part::Number(u64::from(full.room)),
        ],
    )
}

/// Puts the text of a refusal.
fn put_refusal(line: &mut [u8], why: Refusal) -> usize
    requires { TEXT_ROOM ≤ length line.old }
    ensures put { IsPut 0 result (phrase_text (refusal_phrase why)) line.old line.new }
    ensures short { result ≤ TEXT_ROOM }
    ensures numbers { RefusalFits why }
{
    match why {
        Refusal::NoSuchTrack => put_words(line, b"refused: no such track"),
        Refusal::Track(fault) => put_track_fault(line, fault),
        Refusal::NoRecord { num } => {
            put_number_behind(line, b"refused: no record", u64::from(num))
        }
        Refusal::LengthDiffers { has } => {
            put_number_behind(line, b"refused: length differs, has", u64::from(has))
        }
        Refusal::Full(full) => put_full(line, full),
        Refusal::TooMany { have } => {
            put_number_behind(line, b"refused: too many shadow files,", u64::from(have))
        }
        Refusal::OnlyBase => put_words(line, b"refused: only the base file"),
        Refusal::ReadFault => put_words(line, b"fault: read"),
        Refusal::WriteFault => put_words(line, b"fault: write"),
        Refusal::SyncFault => put_words(line, b"fault: sync"),
        Refusal::Broken { at } => put_number_behind(line, b"broken at", at),
        Refusal::Memory => put_words(line, b"no memory"),
    }
}

/// Puts what a step of the collector did.
fn put_turn(line: &mut [u8], turn: Turn) -> usize
    requires { TEXT_ROOM ≤ length line.old }
    ensures put { IsPut 0 result (phrase_text (turn_phrase turn)) line.old line.new }
    ensures short { result ≤ TEXT_ROOM }
    ensures numbers { TurnFits turn }
{
    match turn {
        Turn::Copied { track, to } => put_phrase(
            line,
            0,
            b"gc copied track",
            &[
                Part::Number(u64::from(track)),
                Part::Words(b"to"),
                Part::Number(u64::from(to)),
            ],
        ),
        Turn::Moved { track, from, to } => put_move(line, b"gc moved track", track, from, to),
        Turn::MovedTable { group, from, to } => {
            put_move(line, b"gc moved table", group, from, to)
        }
        Turn::GivenUp { track, picked, now } => put_phrase(
            line,
            0,
            b"gc gave up track",
            &[
                Part::Marked(u64::from(track), b':'),
                Part::Words(b"picked"),
                Part::Marked(u64::from(picked), b','),
                Part::Words(b"now"),
                Part::Number(u64::from(now)),
            ],
        ),
        Turn::Trimmed { size } => put_number_behind(line, b"gc trimmed to", u64::from(size)),
        Turn::Idle => put_words(line, b"gc idle"),
    }
}

/// Puts how many layers there are, and how many tracks each of them has.
fn put_layers(line: &mut [u8], counts: &[u32]) -> usize
    requires line { TEXT_ROOM ≤ length line.old }
    requires layers { length counts.now ≤ 9 }
    ensures put { IsPut 0 result
        (phrase (codes "layers") (marked (length counts.now) 58 ∷ map number counts.now)) line.old line.new }
    ensures short { result ≤ TEXT_ROOM }
    ensures numbers { AllByRecursion (λ n. n < 2 ^ 32) counts.now }
{
    let layers = counts.len() as u64;
    let mut end = put_phrase(line, 0, b"layers", &[Part::Marked(layers, b':')]);
    for count in counts {
        end = put_phrase(line, end, b"", &[Part::Number(u64::from(*count))]);
    }
    end
}

/// Puts the track at an address, whose bytes are these.
fn put_track(line: &mut [u8], at: Addr, bytes: &[u8]) -> usize
    requires { TEXT_ROOM + 2 * length bytes.now ≤ length line.old }
    ensures put { IsPut 0 result
        (phrase (codes "track") (at_address at (number (length bytes.now) ∷ hex bytes.now ∷ []))) line.old line.new }
    ensures short { result ≤ TEXT_ROOM + 2 * length bytes.now }
{
    put_phrase(
        line,
        0,
        b"track",
        &[
            Part::Number(u64::from(at.cyl)),
            Part::Number(u64::from(at.head)),
            Part::Number(bytes.len() as u64),
            Part::Hex(bytes),
        ],
    )
}

/// Puts that so many bytes were written.
fn put_written(line: &mut [u8], at: Addr, len: u32) -> usize
    requires { TEXT_ROOM ≤ length line.old }
    ensures put { IsPut 0 result
        (phrase (codes "written") (at_address at (number len ∷ []))) line.old line.new }
    ensures short { result ≤ TEXT_ROOM }
{
    put_phrase(
        line,
        0,
        b"written",
        &[
            Part::Number(u64::from(at.cyl)),
            Part::Number(u64::from(at.head)),
            Part::Number(u64::from(len)),
        ],
    )
}

/// Puts a record's key and its data.
fn put_record<'a>(line: &mut [u8], at: Addr, num: u8, key: &'a [u8], body: &'a [u8]) -> usize
    requires { TEXT_ROOM + 2 * (length key.now + length body.now) ≤ length line.old }
    ensures put { IsPut 0 result
        (phrase (codes "record") (at_address at (number num ∷ hex key.now ∷ hex body.now ∷ []))) line.old line.new }
    ensures short { result ≤ TEXT_ROOM + 2 * (length key.now + length body.now) }
{
    put_phrase(
        line,
        0,
        b"record",
        &[
            Part::Number(u64::from(at.cyl)),
            Part::Number(u64::from(at.head)),
            Part::Number(u64::from(num)),
            Part::Hex(key),
            Part::Hex(body),
        ],
    )
}

/// Puts that so many bytes of a record were replaced.
fn put_replaced(line: &mut [u8], at: Addr, num: u8, len: u32) -> usize
    requires { TEXT_ROOM ≤ length line.old }
    ensures put { IsPut 0 result
        (phrase (codes "replaced") (at_address at (number num ∷ number len ∷ []))) line.old line.new }
    ensures short { result ≤ TEXT_ROOM }
{
    put_phrase(
        line,
        0,
        b"replaced",
        &[
            Part::Number(u64::from(at.cyl)),
            Part::Number(u64::from(at.head)),
            Part::Number(u64::from(num)),
            Part::Number(u64::from(len)),
        ],
    )
}

/// Puts how many tracks fail a check at a level.
fn put_checked(line: &mut [u8], level: u8, bad: u32) -> usize
    requires { TEXT_ROOM ≤ length line.old }
    ensures put { IsPut 0 result
        (phrase (codes "checked") (marked level 58 ∷ number bad ∷ wording (codes "bad") ∷ [])) line.old line.new }
    ensures short { result ≤ TEXT_ROOM }
{
    put_phrase(
        line,
        0,
        b"checked",
        &[
            Part::Marked(u64::from(level), b':'),
            Part::Number(u64::from(bad)),
            Part::Words(b"bad"),
        ],
    )
}

/// Puts the text of a reply to a call of this address and this record, whose bytes stand at the
/// front of `out`.
pub(crate) fn put_reply(line: &mut [u8], at: Addr, num: u8, reply: Reply, out: &[u8]) -> usize
    requires fits { (call : Asked) × (input : ℕ) × FitsCall call input reply }
    requires answered { answered_length reply ≤ length out.now }
    requires room { TEXT_ROOM + 2 * answered_length reply ≤ length line.old }
    ensures put { IsPut 0 result
        (phrase_text (reply_phrase at num reply (answered_bytes reply out.now))) line.old line.new }
    ensures short { result ≤ TEXT_ROOM + 2 * answered_length reply }
    ensures numbers { ReplyFits reply }
{
    match reply {
        Reply::Track { len } => put_track(line, at, &out[..len as usize]),
        Reply::Written { len } => put_written(line, at, len),
        Reply::Record { key_len, body_len } => {
            let key_end = key_len as usize;
            let body_end = key_end + body_len as usize;
            put_record(line, at, num, &out[..key_end], &out[key_end..body_end])
        }
        Reply::Replaced { len } => put_replaced(line, at, num, len),
        Reply::Hardened => put_words(line, b"hardened"),
        Reply::Turned(turn) => put_turn(line, turn),
        Reply::Added { slot } => put_number_behind(line, b"added", u64::from(slot)),
        Reply::Merged { slot } => put_number_behind(line, b"merged", u64::from(slot)),
        Reply::Dropped { slot } => put_number_behind(line, b"dropped", u64::from(slot)),
        Reply::Compressed => put_words(line, b"compressed"),
        Reply::Shown { layers, counts } => put_layers(line, &counts[..layers as usize]),
        Reply::Checked { level, bad } => put_checked(line, level, bad),
        Reply::Closed => put_words(line, b"closed"),
        Reply::Refused(why) => put_refusal(line, why),
    }
}

/// Puts why a line is refused.
pub(crate) fn put_misreading(line: &mut [u8], why: Misreading) -> usize
    requires { TEXT_ROOM ≤ length line.old }
    ensures put { IsPut 0 result (phrase_text (misreading_phrase why)) line.old line.new }
    ensures short { result ≤ TEXT_ROOM }
    ensures numbers { MisreadingFits why }
{
    match why {
        Misreading::LineFault { column } => {
            put_number_behind(line, b"refused: line fault at column", u64::from(column))
        }
        Misreading::LineTooLong => put_words(line, b"refused: line too long"),
        Misreading::ScriptTooLong => put_words(line, b"refused: script too long"),
    }
}
