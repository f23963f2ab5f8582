ghost use Rattle.std.specs.Prelude.{◌≡◌, ◌+◌, ◌≤◌, length, vec_len, IfOk};
ghost use Rattle.cckd_script.specs.Text.{FitsCall, RefusalFitsCall, answered_length};

use crate::{
    LINE_ROOM, Line, LineFault, Misreading, What, parse_line, print_misreading, print_reply,
};
use cckd_base::{Addr, Call, Full, Refusal, Reply, TrackFault, Turn};
use std::alloc::{AllocError, Global};
use std::process::Abort;
use std::test::Fail;

/// An address.
const AT: Addr = Addr {
    cyl: 1112,
    head: 14,
};

/// What a line asks, of no session.
const fn asks(what: What) -> Result<Line, LineFault> {
    Ok(Line { who: None, what })
}

/// A line that reads the track at an address.
const fn read(cyl: u16, head: u16) -> Result<Line, LineFault> {
    asks(What::One {
        call: Call::Read {
            at: Addr { cyl, head },
        },
        input_len: 0,
    })
}

/// A line that writes so many bytes as the track at an address.
const fn write(cyl: u16, head: u16, input_len: u32) -> Result<Line, LineFault> {
    asks(What::One {
        call: Call::Write {
            at: Addr { cyl, head },
        },
        input_len,
    })
}

/// A line of a call without bytes.
const fn bare(call: Call) -> Result<Line, LineFault> {
    asks(What::One { call, input_len: 0 })
}

/// A line that is wrong at a column.
const fn wrong(column: u32) -> Result<Line, LineFault> {
    Err(LineFault { column })
}

/// A buffer of so many zeros.
fn zeros(alloc: Global, len: usize) -> Result<Vec<u8>, AllocError>
    ensures { IfOk result (λ buffer. vec_len buffer ≡ len) }
{
    vec![in alloc; 0; len]
}

/// Tells whether these bytes stand at a place of a buffer.
fn stands(rt: &impl Abort, buffer: &[u8], at: usize, bytes: &[u8])
    requires { at + length bytes.now ≤ length buffer.now }
{
    assert_eq!(rt; &buffer[at..at + bytes.len()], bytes);
}

/// Tells whether the reply to a call that gave three bytes is printed as this line.
fn told(rt: &impl Abort, line: &mut [u8], call: Call, reply: Reply, out: &[u8], text: &[u8])
    requires fits { FitsCall call 3 reply }
    requires answered { answered_length reply ≤ length out.now }
    requires room { LINE_ROOM ≤ length line.old }
{
    let end = print_reply(None, call, &reply, 3, out, line);
    assert_eq!(rt; &line[..end as usize], text);
}

/// Tells whether a refusal is printed as this line.
fn refused(rt: &impl Abort, line: &mut [u8], why: Refusal, text: &[u8])
    requires fits { RefusalFitsCall why }
    requires room { LINE_ROOM ≤ length line.old }
{
    told(rt, line, Call::Close, Reply::Refused(why), b"", text);
}

/// Tells whether a step of the collector is printed as this line.
fn turned(rt: &impl Abort, line: &mut [u8], turn: Turn, text: &[u8])
    requires { LINE_ROOM ≤ length line.old }
{
    told(rt, line, Call::Turn, Reply::Turned(turn), b"", text);
}

#[test]
fn lines_are_read_or_wrong_at_their_first_wrong_token(rt: HostRuntime) -> Result<(), Fail> {
    let rows: [(&[u8], Result<Line, LineFault>); 21] = [
        (b"read 0 0", read(0, 0)),
        (b"read 41 1", read(41, 1)),
        (b"read 65535 65535", read(65535, 65535)),
        (b"", asks(What::Nothing)),
        (b"# read 0 0", asks(What::Nothing)),
        (b"#", asks(What::Nothing)),
        (b"read 0 x", wrong(8)),
        (b"read 0", wrong(7)),
        (b"read", wrong(5)),
        (b"read ", wrong(6)),
        (b"READ 0 0", wrong(1)),
        (b"reads 0 0", wrong(1)),
        (b" ", wrong(1)),
        (b" read 0 0", wrong(1)),
        (b"read  0 0", wrong(6)),
        (b"read 00 0", wrong(6)),
        (b"read 0 65536", wrong(8)),
        (b"read 12345678901 0", wrong(6)),
        (b"read 0 0 0", wrong(10)),
        (b"read 0 0 ", wrong(10)),
        (b"read 0 +1", wrong(8)),
    ];
    let mut into = zeros(rt.alloc(), 65_536)?;
    for (line, answer) in rows {
        assert_eq!(rt; parse_line(line, false, &mut into), answer);
    }
    Ok(())
}

#[test]
fn lines_of_write_are_read_or_wrong_at_their_first_wrong_token(
    rt: HostRuntime,
) -> Result<(), Fail> {
    let rows: [(&[u8], Result<Line, LineFault>); 13] = [
        (b"write 0 0 00", write(0, 0, 1)),
        (b"write 65535 1 0aFf", write(65535, 1, 2)),
        (b"write", wrong(6)),
        (b"write 0", wrong(8)),
        (b"write 65536 0 00", wrong(7)),
        (b"write 0 x 00", wrong(9)),
        (b"write 0 0", wrong(10)),
        (b"write 0 0 ", wrong(11)),
        (b"write 0 0 0", wrong(11)),
        (b"write 0 0 -", wrong(11)),
        (b"write 0 0 0g", wrong(11)),
        (b"write 0 0 00 00", wrong(14)),
        (b"write 0 0 00 ", wrong(14)),
    ];
    let mut into = zeros(rt.alloc(), 65_536)?;
    for (line, answer) in rows {
        assert_eq!(rt; parse_line(line, false, &mut into), answer);
    }
    Ok(())
}

#[test]
fn lines_of_fill_are_read_or_wrong_at_their_first_wrong_token(rt: HostRuntime) -> Result<(), Fail> {
    let rows: [(&[u8], Result<Line, LineFault>); 15] = [
        (b"fill 0 0 8 aa", write(0, 0, 45)),
        (b"fill 41 1 0 FF", write(41, 1, 37)),
        (b"fill 0 0 56795 00", write(0, 0, 56_832)),
        (b"fill 0 0 65498 00", write(0, 0, 65_535)),
        (b"fill 0 0 65499 00", wrong(10)),
        (b"fill 0 0 08 aa", wrong(10)),
        (b"fill 0 0 x", wrong(10)),
        (b"fill 0 0 8", wrong(11)),
        (b"fill 0 0 8 a", wrong(12)),
        (b"fill 0 0 8 -", wrong(12)),
        (b"fill 0 0 8 xx", wrong(12)),
        (b"fill 0 0 8 aabb", wrong(12)),
        (b"fill 0 0 8 aa ", wrong(15)),
        (b"fill 0 0 8 aa 0", wrong(15)),
        (b"filled 0 0 8 aa", wrong(1)),
    ];
    let mut into = zeros(rt.alloc(), 65_536)?;
    for (line, answer) in rows {
        assert_eq!(rt; parse_line(line, false, &mut into), answer);
    }
    Ok(())
}

#[test]
fn lines_without_bytes_are_read_or_wrong_at_their_first_wrong_token(
    rt: HostRuntime,
) -> Result<(), Fail> {
    let rows: [(&[u8], Result<Line, LineFault>); 21] = [
        (b"harden", bare(Call::Harden)),
        (b"harden ", wrong(8)),
        (b"harden 0", wrong(8)),
        (b"Harden", wrong(1)),
        (b"sfd", bare(Call::Display)),
        (b"sfd 1", wrong(5)),
        (b"sfk", bare(Call::Check { level: 1 })),
        (b"sfk 0", bare(Call::Check { level: 0 })),
        (b"sfk 3", bare(Call::Check { level: 3 })),
        (b"sfk 4", wrong(5)),
        (b"sfk 01", wrong(5)),
        (b"sfk ", wrong(5)),
        (b"sfk 1 0", wrong(7)),
        (b"sfk 1 ", wrong(7)),
        (b"rec 0 0 1", wrong(1)),
        (b"put 0 0 1 00", wrong(1)),
        (b"gc 1", wrong(1)),
        (b"sf+", wrong(1)),
        (b"sf-", wrong(1)),
        (b"sfc", wrong(1)),
        (b"#sfd", asks(What::Nothing)),
    ];
    let mut into = zeros(rt.alloc(), 65_536)?;
    for (line, answer) in rows {
        assert_eq!(rt; parse_line(line, false, &mut into), answer);
    }
    Ok(())
}

#[test]
fn the_bytes_given_stand_at_the_front_and_all_else_stays(rt: HostRuntime) -> Result<(), Fail> {
    let mut into = zeros(rt.alloc(), 65_536)?;
    into.fill(0xee);
    let _ = parse_line(b"fill 0 0 8 aa 0", false, &mut into);
    let _ = parse_line(b"write 0 0 0011 ", false, &mut into);
    assert!(rt; into.iter().all(|b| *b == 0xee));
    let _ = parse_line(b"write 0 0 00aFF01b", false, &mut into);
    stands(&rt, &into, 0, b"\x00\xaf\xf0\x1b\xee");
    Ok(())
}

#[test]
fn a_filled_track_has_one_record_of_equal_bytes(rt: HostRuntime) -> Result<(), Fail> {
    let mut into = zeros(rt.alloc(), 65_536)?;
    into.fill(0xee);
    let _ = parse_line(b"fill 258 3 2 Ab", false, &mut into);
    stands(&rt, &into, 0, b"\x00\x01\x02\x00\x03");
    stands(
        &rt,
        &into,
        5,
        b"\x01\x02\x00\x03\x00\x00\x00\x08\x00\x00\x00\x00\x00\x00\x00\x00",
    );
    stands(&rt, &into, 21, b"\x01\x02\x00\x03\x01\x00\x00\x02\xab\xab");
    stands(&rt, &into, 31, b"\xff\xff\xff\xff\xff\xff\xff\xff\xee");
    Ok(())
}

#[test]
fn a_track_filled_with_no_bytes_is_the_null_track(rt: HostRuntime) -> Result<(), Fail> {
    let mut into = zeros(rt.alloc(), 65_536)?;
    let _ = parse_line(b"fill 41 1 0 94", false, &mut into);
    stands(&rt, &into, 0, b"\x00\x00\x29\x00\x01");
    stands(&rt, &into, 5, b"\x00\x29\x00\x01\x00\x00\x00\x08");
    stands(&rt, &into, 13, b"\x00\x00\x00\x00\x00\x00\x00\x00");
    stands(&rt, &into, 21, b"\x00\x29\x00\x01\x01\x00\x00\x00");
    stands(&rt, &into, 29, b"\xff\xff\xff\xff\xff\xff\xff\xff\x00");
    Ok(())
}

#[test]
fn each_answer_has_its_text(rt: HostRuntime) -> Result<(), Fail> {
    let mut room = zeros(rt.alloc(), LINE_ROOM)?;
    let line = room.as_mut_slice();
    let out = b"\x00\xaf\xf0\xff";
    let read = Call::Read { at: AT };
    let write = Call::Write { at: AT };
    let get = Call::GetRecord { at: AT, num: 255 };
    let put = Call::PutRecord { at: AT, num: 1 };
    told(
        &rt,
        line,
        read,
        Reply::Track { len: 0 },
        out,
        b"track 1112 14 0 -\n",
    );
    told(
        &rt,
        line,
        read,
        Reply::Track { len: 3 },
        out,
        b"track 1112 14 3 00aff0\n",
    );
    told(
        &rt,
        line,
        write,
        Reply::Written { len: 3 },
        b"",
        b"written 1112 14 3\n",
    );
    let record = Reply::Record {
        key_len: 1,
        body_len: 3,
    };
    told(
        &rt,
        line,
        get,
        record,
        out,
        b"record 1112 14 255 00 aff0ff\n",
    );
    let bare = Reply::Record {
        key_len: 0,
        body_len: 2,
    };
    told(&rt, line, get, bare, out, b"record 1112 14 255 - 00af\n");
    told(
        &rt,
        line,
        put,
        Reply::Replaced { len: 3 },
        b"",
        b"replaced 1112 14 1 3\n",
    );
    Ok(())
}

#[test]
fn each_answer_without_bytes_has_its_text(rt: HostRuntime) -> Result<(), Fail> {
    let mut room = zeros(rt.alloc(), LINE_ROOM)?;
    let line = room.as_mut_slice();
    told(&rt, line, Call::Harden, Reply::Hardened, b"", b"hardened\n");
    told(
        &rt,
        line,
        Call::Add,
        Reply::Added { slot: 1 },
        b"",
        b"added 1\n",
    );
    told(
        &rt,
        line,
        Call::Merge,
        Reply::Merged { slot: 8 },
        b"",
        b"merged 8\n",
    );
    told(
        &rt,
        line,
        Call::Drop,
        Reply::Dropped { slot: 2 },
        b"",
        b"dropped 2\n",
    );
    told(
        &rt,
        line,
        Call::Compress,
        Reply::Compressed,
        b"",
        b"compressed\n",
    );
    let shown = Reply::Shown {
        layers: 3,
        counts: [2_000, 0, 17, 0, 0, 0, 0, 0, 0],
    };
    told(
        &rt,
        line,
        Call::Display,
        shown,
        b"",
        b"layers 3: 2000 0 17\n",
    );
    let checked = Reply::Checked { level: 3, bad: 12 };
    told(
        &rt,
        line,
        Call::Check { level: 3 },
        checked,
        b"",
        b"checked 3: 12 bad\n",
    );
    told(&rt, line, Call::Close, Reply::Closed, b"", b"closed\n");
    Ok(())
}

#[test]
fn each_step_of_the_collector_has_its_text(rt: HostRuntime) -> Result<(), Fail> {
    let mut room = zeros(rt.alloc(), LINE_ROOM)?;
    let rows: [(Turn, &[u8]); 6] = [
        (
            Turn::Copied {
                track: 5,
                to: 3_104,
            },
            b"gc copied track 5 to 3104\n",
        ),
        (
            Turn::Moved {
                track: 5,
                from: 9_000,
                to: 3_104,
            },
            b"gc moved track 5 from 9000 to 3104\n",
        ),
        (
            Turn::MovedTable {
                group: 7,
                from: 9_000,
                to: 1_056,
            },
            b"gc moved table 7 from 9000 to 1056\n",
        ),
        (
            Turn::GivenUp {
                track: 5,
                picked: 9_000,
                now: 0,
            },
            b"gc gave up track 5: picked 9000, now 0\n",
        ),
        (Turn::Trimmed { size: 4_096 }, b"gc trimmed to 4096\n"),
        (Turn::Idle, b"gc idle\n"),
    ];
    for (turn, text) in rows {
        turned(&rt, &mut room, turn, text);
    }
    Ok(())
}

#[test]
fn each_track_fault_has_its_text(rt: HostRuntime) -> Result<(), Fail> {
    let mut room = zeros(rt.alloc(), LINE_ROOM)?;
    let rows: [(TrackFault, &[u8]); 5] = [
        (
            TrackFault::TooLong {
                len: 65_024,
                max: 4_096,
            },
            b"refused: track too long 65024 over 4096\n",
        ),
        (TrackFault::NoEnd { at: 37 }, b"refused: no end at 37\n"),
        (
            TrackFault::Compressed { byte: 255 },
            b"refused: compressed 255\n",
        ),
        (
            TrackFault::WrongTrack { cyl: 2, head: 9 },
            b"refused: wrong track 2 9\n",
        ),
        (
            TrackFault::BadRecord { at: 21 },
            b"refused: bad record at 21\n",
        ),
    ];
    for (fault, text) in rows {
        refused(&rt, &mut room, Refusal::Track(fault), text);
    }
    Ok(())
}

#[test]
fn each_refusal_has_its_text(rt: HostRuntime) -> Result<(), Fail> {
    let mut room = zeros(rt.alloc(), LINE_ROOM)?;
    let line = room.as_mut_slice();
    let full = Full {
        need: 160,
        largest: 152,
        room: 7,
    };
    refused(&rt, line, Refusal::NoSuchTrack, b"refused: no such track\n");
    refused(
        &rt,
        line,
        Refusal::NoRecord { num: 3 },
        b"refused: no record 3\n",
    );
    let differs = Refusal::LengthDiffers { has: 80 };
    refused(&rt, line, differs, b"refused: length differs, has 80\n");
    refused(
        &rt,
        line,
        Refusal::Full(full),
        b"refused: full, need 160 largest 152 room 7\n",
    );
    let many = Refusal::TooMany { have: 8 };
    refused(&rt, line, many, b"refused: too many shadow files, 8\n");
    refused(
        &rt,
        line,
        Refusal::OnlyBase,
        b"refused: only the base file\n",
    );
    refused(&rt, line, Refusal::ReadFault, b"fault: read\n");
    refused(&rt, line, Refusal::WriteFault, b"fault: write\n");
    refused(&rt, line, Refusal::SyncFault, b"fault: sync\n");
    let broken = Refusal::Broken {
        at: 18_446_744_073_709_551_615,
    };
    refused(&rt, line, broken, b"broken at 18446744073709551615\n");
    refused(&rt, line, Refusal::Memory, b"no memory\n");
    Ok(())
}

#[test]
fn a_line_that_is_refused_has_its_text(rt: HostRuntime) -> Result<(), Fail> {
    let mut room = zeros(rt.alloc(), LINE_ROOM)?;
    let rows: [(Misreading, &[u8]); 3] = [
        (
            Misreading::LineFault { column: 131_073 },
            b"refused: line fault at column 131073\n",
        ),
        (Misreading::LineTooLong, b"refused: line too long\n"),
        (Misreading::ScriptTooLong, b"refused: script too long\n"),
    ];
    for (why, text) in rows {
        let end = print_misreading(why, &mut room);
        assert_eq!(rt; &room[..end as usize], text);
    }
    Ok(())
}
