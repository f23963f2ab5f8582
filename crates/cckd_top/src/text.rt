//! What a run prints beside the replies to its script, put into a buffer.

ghost use Rattle.std.specs.Prelude.{◌≡◌, ◌+◌, ◌≤◌, length};
ghost use Rattle.cckd_base.specs.Put.{IsPut};
ghost use Rattle.cckd_script.specs.Text.{line as ended};
ghost use Rattle.cckd_top.specs.Text.{geometry_field, count_field, header_fault_text, owner_text, space_text, misfit_text, refused_slot, open_fault_text, halt_text};

use crate::halt::Halt;
use cckd_base::{
    CountField, Extent, GeoField, Geometry, HeaderFault, L2Entry, Misfit, OpenFault, Owner,
    put_bytes,
};
use cckd_script::{Part, put_phrase};

/// A buffer of so many bytes holds each of these lines.
pub const HALT_ROOM: usize = 500;

/// The name of a field of the geometry.
fn geometry_field(field: GeoField) -> &'static [u8]
    ensures name { result.now ≡ geometry_field field }
    ensures short { length result.now ≤ 10 }
{
    match field {
        GeoField::Heads => b"heads",
        GeoField::Cylinders => b"cylinders",
        GeoField::Tracks => b"tracks",
        GeoField::TrackSize => b"track-size",
        GeoField::Sequence => b"sequence",
    }
}

/// The name of a count.
fn count_field(field: CountField) -> &'static [u8]
    ensures name { result.now ≡ count_field field }
    ensures short { length result.now ≤ 10 }
{
    match field {
        CountField::LevelOne => b"level-one",
        CountField::LevelTwo => b"level-two",
        CountField::Length => b"length",
    }
}

/// Puts what is wrong with the headers of a file.
fn put_header_fault(line: &mut [u8], at: usize, fault: HeaderFault) -> usize
    requires { at + 60 ≤ length line.old }
    ensures put { IsPut at result (header_fault_text fault) line.old line.new }
    ensures short { result ≤ at + 60 }
{
    match fault {
        HeaderFault::NotCckd { .. } => put_phrase(line, at, b" not a CCKD image", &[]),
        HeaderFault::BadGeometry { field, value } => {
            let parts = [Part::Words(geometry_field(field)), Part::Number(value)];
            put_phrase(line, at, b" bad geometry", &parts)
        }
        HeaderFault::BadCounts { field, value } => {
            let parts = [Part::Words(count_field(field)), Part::Number(value)];
            put_phrase(line, at, b" bad count", &parts)
        }
        HeaderFault::BadNullFormat { value } => {
            let parts = [Part::Number(u64::from(value))];
            put_phrase(line, at, b" bad null format", &parts)
        }
    }
}

/// Puts whom a space belongs to.
fn put_owner(line: &mut [u8], at: usize, owner: Owner) -> usize
    requires { at + 30 ≤ length line.old }
    ensures put { IsPut at result (owner_text owner) line.old line.new }
    ensures short { result ≤ at + 30 }
{
    match owner {
        Owner::Nobody => put_phrase(line, at, b" nobody", &[]),
        Owner::Header => put_phrase(line, at, b" header", &[]),
        Owner::Table(group) => {
            put_phrase(line, at, b" table", &[Part::Number(u64::from(group))])
        }
        Owner::Track(track) => {
            put_phrase(line, at, b" track", &[Part::Number(u64::from(track))])
        }
    }
}

/// Puts a space, with its length.
#[tactic(auto, using(cckd_base::proofs::PutLemmas::puts_join))]
fn put_space(line: &mut [u8], at: usize, space: Extent) -> usize
    requires { at + 90 ≤ length line.old }
    ensures put { IsPut at result (space_text space) line.old line.new }
    ensures short { result ≤ at + 90 }
{
    let end = put_owner(line, at, space.owner);
    let parts = [
        Part::Number(u64::from(space.pos)),
        Part::Words(b"for"),
        Part::Number(u64::from(space.size)),
    ];
    put_phrase(line, end, b" at", &parts)
}

/// Puts an entry that is wrong.
fn put_bad_entry(line: &mut [u8], at: usize, track: u32, entry: L2Entry) -> usize
    requires { at + 200 ≤ length line.old }
    ensures put { IsPut at result (misfit_text (Misfit.BadEntry track entry)) line.old line.new }
    ensures short { result ≤ at + 200 }
{
    let parts = [
        Part::Number(u64::from(track)),
        Part::Words(b"at"),
        Part::Number(u64::from(entry.pos)),
        Part::Words(b"length"),
        Part::Number(u64::from(entry.len)),
        Part::Words(b"size"),
        Part::Number(u64::from(entry.size)),
    ];
    put_phrase(line, at, b" bad entry track", &parts)
}

/// Puts two spaces that share a byte.
#[tactic(auto, using(cckd_base::proofs::PutLemmas::puts_join))]
fn put_overlap(line: &mut [u8], at: usize, first: Extent, second: Extent) -> usize
    requires { at + 200 ≤ length line.old }
    ensures put { IsPut at result (misfit_text (Misfit.Overlap first second)) line.old line.new }
    ensures short { result ≤ at + 200 }
{
    let end = put_bytes(line, at, b" overlap");
    let end = put_space(line, end, first);
    let end = put_bytes(line, end, b" and");
    put_space(line, end, second)
}

/// Puts what is wrong with the tables of a file.
#[tactic(auto, using(cckd_base::proofs::PutLemmas::puts_join))]
fn put_misfit(line: &mut [u8], at: usize, misfit: Misfit) -> usize
    requires { at + 200 ≤ length line.old }
    ensures put { IsPut at result (misfit_text misfit) line.old line.new }
    ensures short { result ≤ at + 200 }
{
    match misfit {
        Misfit::BadTable { group, pos } => {
            let parts = [
                Part::Number(u64::from(group)),
                Part::Words(b"at"),
                Part::Number(u64::from(pos)),
            ];
            put_phrase(line, at, b" bad table group", &parts)
        }
        Misfit::BadEntry { track, entry } => put_bad_entry(line, at, track, entry),
        Misfit::Overlap { first, second } => put_overlap(line, at, first, second),
        Misfit::ParentInBase { owner } => {
            let end = put_bytes(line, at, b" parent in base");
            put_owner(line, end, owner)
        }
    }
}

/// Puts the slot of a file that is refused.
fn put_refused(line: &mut [u8], slot: u8) -> usize
    requires { 40 ≤ length line.old }
    ensures put { IsPut 0 result (refused_slot slot) line.old line.new }
    ensures short { result ≤ 40 }
{
    put_phrase(line, 0, b"refused: slot", &[Part::Number(u64::from(slot))])
}

/// Puts that a slot has a file above one that has none.
fn put_gap(line: &mut [u8], slot: u8) -> usize
    requires { 100 ≤ length line.old }
    ensures put { IsPut 0 result (open_fault_text (OpenFault.Gap slot)) line.old line.new }
    ensures short { result ≤ 100 }
{
    let parts = [Part::Number(u64::from(slot))];
    put_phrase(line, 0, b"refused: gap at slot", &parts)
}

/// Puts that the file of a slot is that of another device.
fn put_mismatch(line: &mut [u8], slot: u8, base: Geometry, found: Geometry) -> usize
    requires { 100 ≤ length line.old }
    ensures put { IsPut 0 result (open_fault_text (OpenFault.Mismatch slot base found)) line.old line.new }
    ensures short { result ≤ 100 }
{
    let parts = [
        Part::Number(u64::from(slot)),
        Part::Words(b"geometry differs"),
    ];
    put_phrase(line, 0, b"refused: slot", &parts)
}

/// Puts why the files don't open to a disk.
#[tactic(auto, using(cckd_base::proofs::PutLemmas::puts_join))]
fn put_open_fault(line: &mut [u8], why: OpenFault) -> usize
    requires { 300 ≤ length line.old }
    ensures put { IsPut 0 result (open_fault_text why) line.old line.new }
    ensures short { result ≤ 300 }
{
    match why {
        OpenFault::Header { slot, fault } => {
            let end = put_refused(line, slot);
            put_header_fault(line, end, fault)
        }
        OpenFault::Gap { slot } => put_gap(line, slot),
        OpenFault::Mismatch { slot, base, found } => put_mismatch(line, slot, base, found),
        OpenFault::Scan { slot, fault } => {
            let end = put_refused(line, slot);
            put_misfit(line, end, fault)
        }
        OpenFault::ReadFault => put_phrase(line, 0, b"fault: read", &[]),
        OpenFault::WriteFault => put_phrase(line, 0, b"fault: write", &[]),
        OpenFault::SyncFault => put_phrase(line, 0, b"fault: sync", &[]),
        OpenFault::Memory => put_phrase(line, 0, b"no memory", &[]),
    }
}

/// Puts why a run ends before it looks at its script.
fn put_cause(line: &mut [u8], halt: Halt) -> usize
    requires { 300 ≤ length line.old }
    ensures put { IsPut 0 result (halt_text halt) line.old line.new }
    ensures short { result ≤ 300 }
{
    match halt {
        Halt::BadWords(number) => put_phrase(line, 0, b"bad words at", &[Part::Number(number)]),
        Halt::Files(why) => put_open_fault(line, why),
    }
}

/// Puts the line of it to the front of the buffer, and answers its length.
#[tactic(auto, using(cckd_base::proofs::PutLemmas::puts_join))]
pub fn put_halt(line: &mut [u8], halt: Halt) -> usize
    requires { HALT_ROOM ≤ length line.old }
    ensures put { IsPut 0 result (ended (halt_text halt)) line.old line.new }
    ensures within { result ≤ length line.new }
{
    let end = put_cause(line, halt);
    put_bytes(line, end, b"\n")
}
