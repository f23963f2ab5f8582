//! The script, line by line, as it is taken into a room.

ghost use Rattle.std.specs.Prelude.{◌≡◌, ℕ, ◌+◌, ◌-◌, ◌<◌, ◌≤◌, ◌++◌, false, length, take, drop, position, MatchOption, [], IfOk, IfErr, IfSome, IfNone, OnErr};
ghost use Rattle.cckd_shelf.specs.declared.fault.Kind.TheVariants.{Takes};
ghost use Rattle.cckd_shelf.specs.Seen.{seen, Tells, Stays, Fails};
ghost use Rattle.cckd_script.specs.Lines.{HasNoFeed};
ghost use Rattle.cckd_lines.specs.Lines.{is_feed, IsFirstFeed, IsPlace, IsAtEnd, Grows, TakesMore, IsNext, Passes, LiesIn, IsShort, Advances, BreaksOff, OnlyTakes, held, text_of, pending, allowance, line_next};

use cckd_script::LINE_LIMIT;
use cckd_shelf::{Failed, Stage};

/// Where the script stands: what was taken of it lies in a room, from `start` to `end`.
#[derive(Clone, Copy, Debug, PartialEq, Eq)]
pub struct Place {
    /// Where the next line begins.
    pub start: usize,
    /// Where the bytes end that were taken.
    pub end: usize,
    /// How many more bytes may be taken before the script is too long.
    pub left: usize,
    /// Whether the script's end was met.
    pub ended: bool,
}

/// What comes next in a script.
#[derive(Clone, Copy, Debug, PartialEq, Eq)]
pub enum Next {
    /// A line, which lies in the room from `start` to `end`, without its line feed.
    Line { start: usize, end: usize },
    /// A line of more than 131,072 bytes, which was passed.
    LineTooLong,
    /// The line in which the first byte past the script's limit stands.
    ScriptTooLong,
    End,
}

/// Where the first line feed of a text stands.
fn first_feed(text: &[u8]) -> Option<usize>
    ensures { result ≡ position is_feed text.now }
{
    text.iter().position(|b| *b == b'\n')
}

/// Where the first line feed of a text stands, whose first `seen` bytes are known to have none.
fn feed_behind(text: &[u8], seen: usize) -> Option<usize>
    requires within { seen ≤ length text.now }
    requires searched { HasNoFeed (take seen text.now) }
    ensures { MatchOption result (HasNoFeed text.now) (IsFirstFeed text.now) }
{
    match first_feed(&text[seen..]) {
        Some(at) => Some(seen + at),
        None => None,
    }
}

/// Moves what is pending to the front of the room.
fn moved_to_front(room: &mut [u8], place: Place) -> Place
    requires { IsPlace room.old place }
    ensures place { IsPlace room.new result }
    ensures pending { pending room.new result ≡ pending room.old place }
    ensures end { result ≡ record place { start = 0; end = place.end - place.start } }
{
    if place.start == 0 {
        return place;
    }
    room.copy_within(place.start..place.end, 0);
    Place {
        start: 0,
        end: place.end - place.start,
        ..place
    }
}

/// Takes more of the script behind what is pending, or meets its end. None where a byte past the limit
/// was taken.
fn take_more<T: Stage>(
    stage: &mut T,
    room: &mut [u8],
    place: Place,
) -> Result<Option<Place>, Failed>
    requires place { IsPlace room.old place }
    requires room { place.end < length room.old }
    requires going_on { place.ended ≡ false }
    ensures place { IfOk result (λ taken. IfSome taken (IsPlace room.new)) }
    ensures grows { IfOk result (λ taken. IfSome taken (Grows place)) }
    ensures takes { Tells (seen T.Shows stage.old) → IfOk result (λ taken. IfSome taken (λ after.
        TakesMore (held room.old place (seen T.Shows stage.old).world.script) (held room.new after (seen T.Shows stage.new).world.script))) }
    ensures front { IfOk result (λ taken. IfSome taken (λ after.
        take (place.end - place.start) (pending room.new after) ≡ pending room.old place)) }
    ensures past { IfOk result (λ taken. IfNone taken (place.left ≡ 0)) }
    ensures room { length room.new ≡ length room.old }
    ensures some { Tells (seen T.Shows stage.old) → IfOk result (λ taken. IfNone taken (0 < length (seen T.Shows stage.old).world.script)) }
    ensures one { Tells (seen T.Shows stage.old) → IfOk result (λ taken. IfNone taken
        ((seen T.Shows stage.new).world.script ≡ drop 1 (seen T.Shows stage.old).world.script)) }
    ensures only { Tells (seen T.Shows stage.old) → OnlyTakes (seen T.Shows stage.old).world (seen T.Shows stage.new).world }
    ensures kept { OnErr result (Stays (seen T.Shows stage.old) (seen T.Shows stage.new)) }
    ensures fails { Fails Takes result (seen T.Shows stage.old) (seen T.Shows stage.new) }
{
    let room_left = room.len() - place.end;
    let want = room_left.min(place.left).max(1);
    let count = stage.take(&mut room[place.end..place.end + want])?;
    if count == 0 {
        return Ok(Some(Place {
            ended: true,
            ..place
        }));
    }
    if place.left == 0 {
        return Ok(None);
    }
    Ok(Some(Place {
        end: place.end + count,
        left: place.left - count,
        ..place
    }))
}

/// Passes the rest of a line that is too long, of which nothing is kept.
fn pass_line<T: Stage>(
    stage: &mut T,
    room: &mut [u8],
    place: Place,
) -> Result<(Next, Place), Failed>
    requires room { 0 < length room.old }
    requires going_on { place.ended ≡ false }
    ensures place { IfOk result (λ found. IsPlace room.new found.1) }
    ensures ended { Tells (seen T.Shows stage.old) → IfOk result (λ found. IsAtEnd found.1 (seen T.Shows stage.new).world.script) }
    ensures passes { Tells (seen T.Shows stage.old) → IfOk result (λ found. Passes place.left (seen T.Shows stage.old).world.script
        (held room.new found.1 (seen T.Shows stage.new).world.script) found.0) }
    ensures lies { IfOk result (λ found. LiesIn room.new found.0) }
    ensures short { IfOk result (λ found. IsShort found.0) }
    ensures left { IfOk result (λ found. allowance found.1 ≤ place.left) }
    ensures room { length room.new ≡ length room.old }
    ensures broken { Tells (seen T.Shows stage.old) → OnErr result (BreaksOff place.left (seen T.Shows stage.old).world.script (seen T.Shows stage.new).world.script) }
    ensures only { Tells (seen T.Shows stage.old) → OnlyTakes (seen T.Shows stage.old).world (seen T.Shows stage.new).world }
    ensures fails { Fails Takes result (seen T.Shows stage.old) (seen T.Shows stage.new) }
{
    let mut place = place;
    loop {
        place = Place {
            start: 0,
            end: 0,
            ..place
        };
        let Some(taken) = take_more(stage, room, place)? else {
            return Ok((Next::ScriptTooLong, place));
        };
        place = taken;
        if let Some(at) = feed_behind(&room[place.start..place.end], 0) {
            let behind = Place {
                start: place.start + at + 1,
                ..place
            };
            return Ok((Next::LineTooLong, behind));
        }
        if place.ended {
            let behind = Place {
                start: place.end,
                ..place
            };
            return Ok((Next::LineTooLong, behind));
        }
    }
}

/// A line of `len` bytes from the place on, and the place `past` bytes further.
fn cut_off(place: Place, len: usize, past: usize) -> (Next, Place)
    requires order { len ≤ past }
    requires within { place.start + past ≤ place.end }
    ensures next { result.0 ≡ line_next place.start len }
    ensures short { IsShort result.0 }
    ensures place { result.1 ≡ record place { start = place.start + past } }
{
    let next = if len > LINE_LIMIT {
        Next::LineTooLong
    } else {
        Next::Line {
            start: place.start,
            end: place.start + len,
        }
    };
    let behind = Place {
        start: place.start + past,
        ..place
    };
    (next, behind)
}

/// What comes next in the script, from a place of the room on.
pub fn next_line<T: Stage>(
    stage: &mut T,
    room: &mut [u8],
    place: Place,
) -> Result<(Next, Place), Failed>
    requires place { IsPlace room.old place }
    requires room { LINE_LIMIT + 2 ≤ length room.old }
    requires ended { Tells (seen T.Shows stage.old) → IsAtEnd place (seen T.Shows stage.old).world.script }
    ensures place { IfOk result (λ found. IsPlace room.new found.1) }
    ensures room { length room.new ≡ length room.old }
    ensures ended { Tells (seen T.Shows stage.old) → IfOk result (λ found. IsAtEnd found.1 (seen T.Shows stage.new).world.script) }
    ensures next { Tells (seen T.Shows stage.old) → IfOk result (λ found. IsNext (held room.old place (seen T.Shows stage.old).world.script)
        (held room.new found.1 (seen T.Shows stage.new).world.script) found.0) }
    ensures lies { IfOk result (λ found. LiesIn room.new found.0) }
    ensures short { IfOk result (λ found. IsShort found.0) }
    ensures advances { IfOk result (λ found. Advances (allowance place) (allowance found.1) found.0) }
    ensures broken { Tells (seen T.Shows stage.old) → OnErr result
        (BreaksOff (allowance place) (text_of (held room.old place (seen T.Shows stage.old).world.script)) (seen T.Shows stage.new).world.script) }
    ensures going_on { OnErr result (place.ended ≡ false) }
    ensures only { Tells (seen T.Shows stage.old) → OnlyTakes (seen T.Shows stage.old).world (seen T.Shows stage.new).world }
    ensures fails { Fails Takes result (seen T.Shows stage.old) (seen T.Shows stage.new) }
{
    let mut place = place;
    let mut seen = 0;
    loop {
        let len = place.end - place.start;
        if let Some(at) = feed_behind(&room[place.start..place.end], seen) {
            return Ok(cut_off(place, at, at + 1));
        }
        if place.ended && len == 0 {
            return Ok((Next::End, place));
        }
        if place.ended {
            return Ok(cut_off(place, len, len));
        }
        if len > LINE_LIMIT {
            return pass_line(stage, room, place);
        }
        seen = len;
        place = moved_to_front(room, place);
        let Some(taken) = take_more(stage, room, place)? else {
            let behind = Place {
                start: place.end,
                ..place
            };
            return Ok((Next::ScriptTooLong, behind));
        };
        place = taken;
    }
}
