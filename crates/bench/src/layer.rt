//! The time of writes to a layer over a real file.
ghost use Rattle.std.specs.Prelude.{◌≤◌};

use crate::sequence::next_number;
use byteorder::{BigEndian, ByteOrder};
use cckd_base::{Addr, FORMAT_LIMIT, Track};
use cckd_files::HostStage;
use cckd_image::Roles;
use cckd_layer::{Layer, Slot};
use cckd_shelf::Shelf;
use cckd_track::Ckd;
use std::alloc::Global;
use std::io;
use std::time::Instant;

/// The bytes of a track beside the data of record one.
const FRAME: usize = 37;

/// Where the data of record one stands.
const DATA: usize = 29;

/// Which tracks are written.
#[derive(Clone, Copy)]
enum Choice {
    InTurn,
    First,
    AtRandom,
}

/// What is measured.
#[derive(Clone, Copy)]
struct Row {
    choice: Choice,
    /// The bytes of a track.
    len: usize,
    /// How many tracks are written.
    calls: u32,
    /// After how many the layer is hardened.
    group: u32,
}

/// The bytes of a track of one record, of some track's address.
fn track_of(alloc: Global, len: usize) -> io::Result<Vec<u8>> {
    let mut track = Vec::from_elem(alloc, 0u8, len)?;
    let bytes = track.as_mut_slice();
    if bytes.len() > FRAME && bytes.len() < 65_000 {
        let data = (bytes.len() - FRAME) as u16;
        bytes[12] = 8;
        bytes[25] = 1;
        BigEndian::write_u16(&mut bytes[27..], data);
        let end = bytes.len() - 8;
        bytes[end..].fill(0xff);
    }
    Ok(track)
}

/// Makes the bytes those of another track, and of another write.
fn readdress(bytes: &mut [u8], a: Addr, call: u32) {
    if bytes.len() > FRAME {
        BigEndian::write_u16(&mut bytes[1..], a.cyl);
        BigEndian::write_u16(&mut bytes[3..], a.head);
        bytes[DATA] = (call % 256) as u8;
    }
}

/// A layer, its stage, and the bytes that are written.
#[derive(Drop)]
struct Bench {
    stage: HostStage,
    layer: Layer<Ckd>,
    bytes: Vec<u8>,
    seed: u32,
}

impl Bench {
    /// The track of a call.
    fn track(&mut self, choice: Choice, call: u32) -> u32 {
        let tracks = self.layer.layout().geo.tracks().max(1);
        match choice {
            Choice::InTurn => call % tracks,
            Choice::First => 0,
            Choice::AtRandom => {
                self.seed = next_number(self.seed);
                (self.seed >> 8) % tracks
            }
        }
    }

    /// Writes a track, and answers whether that was done.
    fn write(&mut self, number: u32, call: u32) -> bool {
        let layout = self.layer.layout();
        let bytes = self.bytes.as_mut_slice();
        let fits = bytes.len() > FRAME && bytes.len() < 65_000;
        if self.layer.broken() || number >= layout.geo.tracks() || !fits {
            return false;
        }
        let t = Track(number);
        readdress(bytes, layout.geo.addr(t), call);
        self.layer.write(&mut self.stage, t, bytes).is_ok()
    }

    /// Makes all stay that was written, and answers whether that was done.
    fn harden(&mut self) -> bool {
        if self.layer.broken() {
            return false;
        }
        self.layer.harden(&mut self.stage).is_ok()
    }

    /// Makes the calls of a row, and answers how many tracks were written.
    fn run(&mut self, row: Row) -> u32 {
        let mut done = 0u32;
        let mut left = row.group;
        for call in 0..row.calls {
            let number = self.track(row.choice, call);
            if self.write(number, call) {
                done = done.wrapping_add(1);
            }
            left = left.saturating_sub(1);
            if left == 0 {
                left = row.group;
                if !self.harden() {
                    return done;
                }
            }
        }
        done
    }

    fn close(&mut self) -> bool {
        if self.layer.broken() {
            return false;
        }
        self.layer.close(&mut self.stage).is_ok()
    }
}

/// The layer of a file.
fn mounted(rt: &HostRuntime, file: &str, len: usize) -> io::Result<Bench> {
    let mut stage = HostStage::new(*rt, rt.alloc());
    let bytes = track_of(rt.alloc(), len)?;
    let Some(slot) = Slot::new(0) else {
        return Err(io::ErrorKind::Other.into());
    };
    let Ok(()) = stage.bind(slot, file) else {
        return Err(io::ErrorKind::NotFound.into());
    };
    match Layer::mount(rt.alloc(), &mut stage, slot, Roles::Base, FORMAT_LIMIT) {
        Ok(layer) => Ok(Bench {
            stage,
            layer,
            bytes,
            seed: 2311,
        }),
        Err(_) => Err(io::ErrorKind::InvalidData.into()),
    }
}

/// Makes the calls of a row, and prints how many tracks were written, and in how many nanoseconds. One more is
/// written before, which marks the file.
fn put_row(rt: &HostRuntime, file: &str, row: Row) -> io::Result<()> {
    let mut bench = mounted(rt, file, row.len)?;
    let is_ready = bench.write(0, 0) && bench.harden();
    println!(rt; "ready: {is_ready}")?;
    let start = Instant::now(rt)?;
    let done = bench.run(row);
    let nanos = start.elapsed(rt)?.as_nanos();
    println!(rt; "written: {done} in {nanos}")?;
    let is_closed = bench.close();
    println!(rt; "closed: {is_closed}")
}

/// The number that a word tells.
fn number(word: Option<String>, otherwise: u32) -> u32 {
    match word {
        Some(word) => word.as_str().parse::<u32>().unwrap_or(otherwise),
        None => otherwise,
    }
}

/// Which tracks a word names.
fn chosen(word: &Option<String>) -> Choice {
    match word {
        Some(word) => match word.as_str() {
            "first" => Choice::First,
            "random" => Choice::AtRandom,
            _ => Choice::InTurn,
        },
        None => Choice::InTurn,
    }
}

/// Writes tracks of `len` bytes to a file: so many calls, and hardened after each `group` of them.
pub fn measure(
    rt: &HostRuntime,
    file: Option<String>,
    which: Option<String>,
    len: Option<String>,
    calls: Option<String>,
    group: Option<String>,
) -> io::Result<()> {
    let Some(file) = file else {
        return Ok(());
    };
    let row = Row {
        choice: chosen(&which),
        len: number(len, 1_000).clamp(38, 56_832) as usize,
        calls: number(calls, 1_000),
        group: number(group, 256),
    };
    put_row(rt, file.as_str(), row)
}
