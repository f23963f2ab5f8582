//! Worked numbers of small images, and calls in any order beside a plain program.
ghost use Rattle.std.specs.Prelude.{◌≤◌};
ghost use Rattle.cckd_space.specs.Plan.{IsNeed};

use crate::beside::{file, follow, same_pieces};
use crate::{Extent, Full, Kind, Owner, Piece, Space, Totals};
use std::alloc::Global;
use std::test::Fail;

fn placed(space: &mut Space, need: u32) -> Result<Result<u32, Full>, Fail>
    requires { IsNeed need }
{
    space.grow(2)?;
    Ok(space.place(need))
}

fn header(alloc: Global, len: u32, limit: u32) -> Result<Space, Fail>
    requires { 1 ≤ len }
{
    let used = [Extent {
        pos: 0,
        len,
        size: len,
        owner: Owner::Header,
    }];
    Ok(Space::from_used(alloc, &used, len, limit, 0)?)
}

#[test]
fn a_track_behind_a_table_takes_the_last_room(rt: HostRuntime) -> Result<(), Fail> {
    let mut space = header(rt.alloc(), 1056, 4096)?;
    assert_eq!(rt; placed(&mut space, 2048)?, Ok(1056));
    let full = Full {
        need: 1000,
        largest: 0,
        room: 992,
    };
    assert_eq!(rt; placed(&mut space, 1000)?, Err(full));
    assert_eq!(rt; placed(&mut space, 992)?, Ok(3104));
    Ok(())
}

#[test]
fn the_last_bytes_below_the_greatest_limit_are_placed(rt: HostRuntime) -> Result<(), Fail> {
    let mut space = header(rt.alloc(), 4_294_965_240, 4_294_967_288)?;
    assert_eq!(rt; placed(&mut space, 2048)?, Ok(4_294_965_240));
    let full = Full {
        need: 8,
        largest: 0,
        room: 0,
    };
    assert_eq!(rt; placed(&mut space, 8)?, Err(full));
    Ok(())
}

#[test]
fn a_gap_and_the_end_offer_what_each_has(rt: HostRuntime) -> Result<(), Fail> {
    let used = [
        Extent {
            pos: 0,
            len: 1056,
            size: 1056,
            owner: Owner::Header,
        },
        Extent {
            pos: 2056,
            len: 1000,
            size: 1000,
            owner: Owner::Track(0),
        },
    ];
    let mut space = Space::from_used(rt.alloc(), &used, 3056, 5096, 0)?;
    let full = Full {
        need: 2048,
        largest: 1000,
        room: 2040,
    };
    assert_eq!(rt; placed(&mut space, 2048)?, Err(full));
    assert_eq!(rt; placed(&mut space, 1000)?, Ok(1056));
    assert_eq!(rt; placed(&mut space, 2040)?, Ok(3056));
    Ok(())
}

/// What is worked out by hand of a file: its totals, the free space at or after a place, and its size
/// once it is trimmed.
#[derive(Clone, Copy)]
struct Worked {
    totals: Totals,
    from: u32,
    next_free: Option<(u32, u32)>,
    trimmed: u32,
}

/// Each file of `worked_file`.
const WORKED: [Worked; 5] = [
    Worked {
        totals: Totals {
            size: 3200,
            used: 3149,
            free: 3104,
            free_total: 48,
            free_largest: 48,
            free_number: 1,
            free_imbed: 3,
        },
        from: 0,
        next_free: Some((3104, 48)),
        trimmed: 3200,
    },
    Worked {
        totals: Totals {
            size: 400,
            used: 54,
            free: 13,
            free_total: 309,
            free_largest: 254,
            free_number: 3,
            free_imbed: 37,
        },
        from: 14,
        next_free: Some((75, 254)),
        trimmed: 359,
    },
    Worked {
        totals: Totals {
            size: 100,
            used: 53,
            free: 60,
            free_total: 40,
            free_largest: 40,
            free_number: 1,
            free_imbed: 7,
        },
        from: 16,
        next_free: Some((60, 40)),
        trimmed: 60,
    },
    Worked {
        totals: Totals {
            size: 1056,
            used: 1056,
            free: 0,
            free_total: 0,
            free_largest: 0,
            free_number: 0,
            free_imbed: 0,
        },
        from: 0,
        next_free: None,
        trimmed: 1056,
    },
    Worked {
        totals: Totals {
            size: 10,
            used: 0,
            free: 0,
            free_total: 10,
            free_largest: 10,
            free_number: 1,
            free_imbed: 0,
        },
        from: 1,
        next_free: None,
        trimmed: 0,
    },
];

/// A header area, a table, 48 free bytes, and a track of 45 bytes in 48.
fn behind_a_table(alloc: Global) -> Result<Space, Fail> {
    let used = [
        Extent {
            pos: 0,
            len: 1056,
            size: 1056,
            owner: Owner::Header,
        },
        Extent {
            pos: 1056,
            len: 2048,
            size: 2048,
            owner: Owner::Table(0),
        },
        Extent {
            pos: 3152,
            len: 45,
            size: 48,
            owner: Owner::Track(0),
        },
    ];
    Ok(Space::from_used(alloc, &used, 3200, 4096, 0)?)
}

/// Three used spaces with 14 and 254 free bytes between them, and 41 behind.
fn unaligned(alloc: Global) -> Result<Space, Fail> {
    let used = [
        Extent {
            pos: 0,
            len: 13,
            size: 13,
            owner: Owner::Header,
        },
        Extent {
            pos: 27,
            len: 40,
            size: 48,
            owner: Owner::Table(1),
        },
        Extent {
            pos: 329,
            len: 1,
            size: 30,
            owner: Owner::Track(7),
        },
    ];
    Ok(Space::from_used(alloc, &used, 400, 800, 0)?)
}

/// Four free bytes, which count as imbedded, and 40 at the end.
fn small_gap(alloc: Global) -> Result<Space, Fail> {
    let used = [
        Extent {
            pos: 0,
            len: 16,
            size: 16,
            owner: Owner::Header,
        },
        Extent {
            pos: 20,
            len: 37,
            size: 40,
            owner: Owner::Track(1),
        },
    ];
    Ok(Space::from_used(alloc, &used, 100, 200, 0)?)
}

fn worked_file(alloc: Global, number: usize) -> Result<Space, Fail> {
    match number {
        0 => behind_a_table(alloc),
        1 => unaligned(alloc),
        2 => small_gap(alloc),
        3 => header(alloc, 1056, 4096),
        _ => Ok(Space::from_used(alloc, &[], 10, 100, 0)?),
    }
}

#[test]
fn totals_next_free_and_trim_are_as_worked_out(rt: HostRuntime) -> Result<(), Fail> {
    let rows = WORKED;
    for number in 0..rows.len() {
        let row = &rows[number];
        let mut space = worked_file(rt.alloc(), number)?;
        assert_eq!(rt; space.totals(), row.totals);
        assert_eq!(rt; space.next_free(row.from), row.next_free);
        assert_eq!(rt; space.trim(), row.trimmed);
        assert_eq!(rt; space.totals().size, row.trimmed);
        assert_eq!(rt; space.next_free(row.trimmed), None);
    }
    Ok(())
}

#[test]
fn a_table_given_back_leaves_the_header_alone(rt: HostRuntime) -> Result<(), Fail> {
    let mut space = header(rt.alloc(), 1056, 4096)?;
    space.grow(2)?;
    let answer = space.place(2048);
    assert_eq!(rt; answer, Ok(1056));
    if let Ok(pos) = answer {
        space.give_back(pos);
    }
    assert_eq!(rt; space.totals().size, 3104);
    space.cut_back(1056);
    assert_eq!(rt; space.totals().size, 1056);
    let left = [Piece {
        pos: 0,
        len: 1056,
        size: 1056,
        kind: Kind::Used,
        owner: Owner::Header,
    }];
    same_pieces(&rt, &space, left.as_slice())
}

/// Puts a used space of 64 bytes where it fits first.
fn put_used(space: &mut Space, number: u32) -> Result<Option<u32>, Fail> {
    space.grow(2)?;
    let Ok(pos) = space.place(64) else {
        return Ok(None);
    };
    space.settle(pos, 64, Owner::Track(number));
    Ok(Some(pos))
}

fn leave_used(space: &mut Space, pos: u32) {
    if space.used_at(pos).is_some() {
        space.leave(pos);
    }
}

fn give_back_reserved(space: &mut Space, pos: u32) {
    if space.reserved_at(pos).is_some() {
        space.give_back(pos);
    }
}

fn free_now(space: &mut Space) -> Totals {
    space.retire_all();
    space.release_all();
    space.totals()
}

/// The totals of a file of 25,600 bytes, of which so many are used.
fn totals(used: u32, imbed: u32, free: u32, total: u32, largest: u32, number: u32) -> Totals {
    Totals {
        size: 25_600,
        used,
        free,
        free_total: total,
        free_largest: largest,
        free_number: number,
        free_imbed: imbed,
    }
}

#[test]
fn four_hundred_spaces_come_and_go(rt: HostRuntime) -> Result<(), Fail> {
    let mut space = Space::from_used(rt.alloc(), &[], 0, 1_000_000, 0)?;
    for number in 0..400 {
        assert_eq!(rt; put_used(&mut space, number)?, Some(number * 64));
    }
    assert_eq!(rt; space.totals(), totals(25_600, 0, 0, 0, 0, 0));
    for number in 0..200 {
        leave_used(&mut space, number * 128);
    }
    assert_eq!(rt; free_now(&mut space), totals(12_800, 0, 0, 12_800, 64, 200));
    for number in 0..200 {
        let pos = number / 2 * 128 + number % 2 * 32;
        assert_eq!(rt; placed(&mut space, 32)?, Ok(pos));
    }
    assert_eq!(rt;
        space.totals(),
        totals(12_800, 6_400, 12_800, 6_400, 64, 100)
    );
    assert_eq!(rt; space.pieces().len(), 500);
    for number in 0..100 {
        give_back_reserved(&mut space, number * 128 + 32);
    }
    assert_eq!(rt; space.totals(), totals(12_800, 3_200, 32, 9_600, 64, 200));
    for number in 0..100 {
        give_back_reserved(&mut space, number * 128);
    }
    assert_eq!(rt; space.totals(), totals(12_800, 0, 0, 12_800, 64, 200));
    for number in 0..200 {
        leave_used(&mut space, number * 128 + 64);
    }
    assert_eq!(rt; free_now(&mut space), totals(0, 0, 0, 25_600, 25_600, 1));
    assert_eq!(rt; space.pieces().len(), 1);
    assert_eq!(rt; space.trim(), 0);
    Ok(())
}

#[test]
fn calls_in_any_order_answer_as_the_plain_program_does(rt: HostRuntime) -> Result<(), Fail> {
    for number in 0..4 {
        for seed in 0..80 {
            let mut pair = file(rt.alloc(), number, seed)?;
            follow(&rt, rt.alloc(), &mut pair, 30)?;
        }
    }
    Ok(())
}
