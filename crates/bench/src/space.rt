//! The time of calls of `cckd_space` over an image of any number of tracks.
ghost use Rattle.std.specs.Prelude.{◌≡◌, ◌+◌, ◌*◌, ◌≤◌, IfOk};
ghost use Rattle.cckd_space.specs.Plan.{IsNeed};

use crate::sequence::next_number;
use cckd_space::{Owner, Space};
use std::alloc::Global;
use std::io;
use std::time::Instant;

/// The bytes of a track, and of the gap behind it.
const TRACK: u32 = 64;

const GAP: u32 = 24;

/// An image in which all tracks are stored, with a small gap behind each: where each track is, and
/// the next number of a fixed sequence.
#[derive(Drop)]
struct Image {
    space: Space,
    places: Vec<u32>,
    seed: u32,
}

/// Puts a used space where it first fits.
fn put_used(space: &mut Space, need: u32) -> Option<u32>
    requires need { IsNeed need }
    requires spare { 2 ≤ space.old.spare }
    ensures { space.old.spare ≤ space.new.spare + 2 }
{
    let Ok(pos) = space.place(need) else {
        return None;
    };
    space.settle(pos, need, Owner::Header);
    Some(pos)
}

fn leave_used(space: &mut Space, pos: u32)
    ensures { space.old.spare ≤ space.new.spare }
{
    if space.used_at(pos).is_some() {
        space.leave(pos);
    }
}

fn give_back(space: &mut Space, pos: u32)
    ensures { space.old.spare ≤ space.new.spare }
{
    if space.reserved_at(pos).is_some() {
        space.give_back(pos);
    }
}

/// What a hardening makes of the space.
fn harden(space: &mut Space)
    ensures { space.old.spare ≤ space.new.spare }
{
    space.retire_all();
    space.release_all();
}

/// Puts so many tracks and gaps into a space.
fn fill(space: &mut Space, places: &mut Vec<u32>, tracks: u32) -> io::Result<()>
    requires { 4 * tracks ≤ space.old.spare }
{
    for _ in 0..tracks {
        if let Some(pos) = put_used(space, TRACK) {
            places.push(pos)?;
        }
        if let Some(pos) = put_used(space, GAP) {
            leave_used(space, pos);
        }
    }
    Ok(())
}

/// An image of so many tracks, which may grow to `limit` bytes.
fn built(alloc: Global, tracks: u32, limit: u32) -> io::Result<Image> {
    let mut space = Space::from_used(alloc, &[], 0, limit, 0)?;
    let mut places = Vec::new(alloc);
    let tracks = tracks.min(1_000_000);
    space.grow(tracks * 4)?;
    fill(&mut space, &mut places, tracks)?;
    harden(&mut space);
    Ok(Image {
        space,
        places,
        seed: 2311,
    })
}

/// What is measured.
#[derive(Clone, Copy)]
enum Row {
    Splits,
    Merges,
    Appends,
    GroupedRewrites,
    HardenedRewrites,
    Searches,
    Refusals,
    Totals,
    Chain,
}

const ROWS: [Row; 9] = [
    Row::Splits,
    Row::Merges,
    Row::Appends,
    Row::GroupedRewrites,
    Row::HardenedRewrites,
    Row::Searches,
    Row::Refusals,
    Row::Totals,
    Row::Chain,
];

impl Row {
    fn name(&self) -> &'static str {
        match self {
            Row::Splits => "a placement that splits the first gap that is left",
            Row::Merges => "a giving back that merges into such a gap",
            Row::Appends => "a placement at the end",
            Row::GroupedRewrites => "a rewrite, hardened every 256",
            Row::HardenedRewrites => "a rewrite, hardened each time",
            Row::Searches => "a search below a place",
            Row::Refusals => "a placement that is refused",
            Row::Totals => "the totals, for each track",
            Row::Chain => "the next free space",
        }
    }
}

impl Image {
    fn number(&mut self) -> u32
        ensures { self.new.space ≡ self.old.space }
    {
        self.seed = next_number(self.seed);
        self.seed >> 8
    }

    /// The number of a track.
    fn track(&mut self) -> usize
        ensures { self.new.space ≡ self.old.space }
    {
        let count = self.places.len().max(1);
        self.number() as usize % count
    }

    /// Puts a track to another place.
    fn rewrite(&mut self)
        requires { 2 ≤ self.old.space.spare }
        ensures { self.old.space.spare ≤ self.new.space.spare + 2 }
    {
        let track = self.track();
        if track < self.places.len() {
            let old = self.places[track];
            if let Some(pos) = put_used(&mut self.space, TRACK) {
                leave_used(&mut self.space, old);
                self.places[track] = pos;
            }
        }
    }
}

fn rewrites(image: &mut Image, calls: u32, group: u32)
    requires { 2 * calls ≤ image.old.space.spare }
{
    let mut left = group;
    for _ in 0..calls {
        image.rewrite();
        left = left.saturating_sub(1);
        if left == 0 {
            harden(&mut image.space);
            left = group;
        }
    }
}

/// Reserves so many spaces of 16 bytes.
fn splits(space: &mut Space, placed: &mut Vec<u32>, calls: u32) -> io::Result<()>
    requires { 2 * calls ≤ space.old.spare }
{
    for _ in 0..calls {
        if let Ok(pos) = space.place(16) {
            placed.push(pos)?;
        }
    }
    Ok(())
}

fn appends(space: &mut Space, calls: u32)
    requires { 2 * calls ≤ space.old.spare }
{
    for _ in 0..calls {
        let _pos = put_used(space, 1000);
    }
}

fn searches(image: &mut Image, calls: u32) -> u64 {
    let mut sum = 0u64;
    for _ in 0..calls {
        let track = image.track();
        if track < image.places.len() {
            let before = image.places[track];
            if let Some(pos) = image.space.fits_below(TRACK, before) {
                sum = sum.wrapping_add(u64::from(pos));
            }
        }
    }
    sum
}

fn refusals(space: &mut Space, calls: u32) -> u64
    requires { 2 * calls ≤ space.old.spare }
{
    let mut sum = 0u64;
    for _ in 0..calls {
        if let Err(full) = space.place(65_528) {
            sum = sum.wrapping_add(u64::from(full.largest));
        }
    }
    sum
}

fn chain(space: &Space, calls: u32) -> u64 {
    let mut sum = 0u64;
    let mut from = 0;
    for _ in 0..calls {
        from = match space.next_free(from) {
            Some((pos, size)) => pos.saturating_add(size),
            None => 0,
        };
        sum = sum.wrapping_add(u64::from(from));
    }
    sum
}

fn totals(space: &Space, calls: u32) -> u64 {
    let mut sum = 0u64;
    for _ in 0..calls {
        let totals = space.totals();
        sum = sum.wrapping_add(u64::from(totals.free_total));
    }
    sum
}

/// An image and what stands reserved in it.
#[derive(Drop)]
struct Bench {
    image: Image,
    // The same, without room at its end.
    tight: Image,
    placed: Vec<u32>,
}

impl Bench {
    fn merges(&mut self) {
        for pos in &self.placed {
            give_back(&mut self.image.space, *pos);
        }
    }

    /// So many calls of a kind. Answers what those add up to that change nothing.
    fn run(&mut self, row: Row, calls: u32) -> io::Result<u64> {
        let calls = calls.min(1_000_000);
        let space = &mut self.image.space;
        space.grow(calls * 2)?;
        match row {
            Row::Splits => splits(space, &mut self.placed, calls)?,
            Row::Merges => self.merges(),
            Row::Appends => appends(space, calls),
            Row::GroupedRewrites => rewrites(&mut self.image, calls, 256),
            Row::HardenedRewrites => rewrites(&mut self.image, calls, 1),
            Row::Searches => return Ok(searches(&mut self.image, calls)),
            Row::Refusals => {
                self.tight.space.grow(calls * 2)?;
                return Ok(refusals(&mut self.tight.space, calls));
            }
            Row::Totals => return Ok(totals(space, calls)),
            Row::Chain => return Ok(chain(space, calls)),
        }
        Ok(0)
    }

    /// What tells that the calls so far were made.
    fn sum(&self) -> u64 {
        let totals = self.image.space.totals();
        u64::from(totals.free_total).wrapping_add(u64::from(totals.size))
    }
}

/// One row: what the calls add up to, or how long one took.
fn put_row(
    rt: &HostRuntime,
    bench: &mut Bench,
    row: Row,
    tracks: u32,
    calls: u32,
    is_timed: bool,
) -> io::Result<()> {
    let start = Instant::now(rt)?;
    let sum = bench.run(row, calls)?;
    let spent = start.elapsed(rt)?.as_nanos();
    let name = row.name();
    if !is_timed {
        let sum = sum.wrapping_add(bench.sum());
        println!(rt; "{name}: {sum}")?;
        return Ok(());
    }
    let parts = match row {
        Row::Totals => u128::from(calls).saturating_mul(u128::from(tracks)),
        _ => u128::from(calls),
    };
    let picos = spent.saturating_mul(1000) / parts.max(1);
    println!(rt; "{name}: {picos}")?;
    Ok(())
}

fn put_rows(rt: &HostRuntime, tracks: u32, calls: u32, is_timed: bool) -> io::Result<()> {
    let limit = tracks.saturating_mul(TRACK + GAP);
    let mut bench = Bench {
        image: built(rt.alloc(), tracks, 2_147_483_640)?,
        tight: built(rt.alloc(), tracks, limit)?,
        placed: Vec::new(rt.alloc()),
    };
    for row in ROWS {
        put_row(rt, &mut bench, row, tracks, calls, is_timed)?;
    }
    Ok(())
}

/// The number that a word tells.
fn number(word: Option<String>, otherwise: u32) -> u32 {
    match word {
        Some(word) => word.as_str().parse::<u32>().unwrap_or(otherwise),
        None => otherwise,
    }
}

/// How many thousandths of a nanosecond a call of each kind takes, over so many tracks.
pub fn measure(rt: &HostRuntime, tracks: Option<String>, calls: Option<String>) -> io::Result<()> {
    put_rows(rt, number(tracks, 1500), number(calls, 1000), true)
}

/// What 200 calls of each kind over 1,500 tracks add up to.
pub fn add_up(rt: &HostRuntime) -> io::Result<()> {
    put_rows(rt, 1500, 200, false)
}
