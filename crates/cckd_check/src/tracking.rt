//! The stored tracks that a survey kept, one after the other.
ghost use Rattle.std.specs.Prelude.{◌≡◌, ◌+◌, ◌<◌, ◌≤◌, ◌^◌, ◌++◌, [], ◌∷◌, length, replicate, IfOk, IfErr, OnOk};
ghost use Rattle.cckd_shelf.specs.Seen.{seen, HasBytes};
ghost use Rattle.cckd_base.specs.Numbers.{bytes_at};
ghost use Rattle.cckd_base.specs.Geometry.{track_count, IsGeometry};
ghost use Rattle.cckd_base.specs.Track.{home_fault, track_fault};
ghost use Rattle.cckd_check.specs.Damage.{fault_in};
ghost use Rattle.cckd_check.specs.Inside.{AddsFault, AddsTracks, AreNoted, fault_told, noted_for, space_named};
ghost use Rattle.cckd_check.specs.Look.{OfFile, OnlyLooks, IsOutside};

use crate::damages::Damages;
use crate::reading::read_front;
use crate::report::{LookFault, Report};
use cckd_base::{Damage, Extent, Geometry, Owner, Track, TrackFault, Unit};
use cckd_shelf::{Slot, Stage};
use cckd_track::Ckd;
use std::alloc::Global;

/// Bytes of a home address.
const HOME: u32 = 5;

/// Bytes of the buffer through which tracks are read: as many as a track of any device may have, and more.
const BUFFER: usize = 65536;

/// Notes the place of a space for the track that owns it, where none is noted yet.
fn note_place(places: &mut [usize], space: &Extent, place: usize)
    ensures { places.new ≡ noted_for space.now.owner places.old place }
{
    let Owner::Track(track) = space.owner else {
        return;
    };
    let track = track as usize;
    if track < places.len() && places[track] == 0 {
        places[track] = place;
    }
}

/// Notes of each track the place of its first space in the list, counted from 1.
fn note_places(places: &mut [usize], spaces: &[Extent])
    requires { places.old ≡ replicate (length places.old) 0 }
    ensures { AreNoted spaces.now spaces.now places.new }
{
    for (index, space) in spaces.iter().enumerate() {
        note_place(places, space, index + 1);
    }
}

/// The space that a number names.
fn space_named(spaces: &[Extent], place: usize) -> Option<Extent>
    ensures { result ≡ space_named spaces.now place }
{
    if place == 0 {
        return None;
    }
    if spaces.len() < place {
        return None;
    }
    Some(spaces[place - 1])
}

/// The fault that a check told.
fn fault_told(answer: Result<(), TrackFault>) -> Option<TrackFault>
    ensures { result ≡ fault_told answer }
{
    match answer {
        Ok(()) => None,
        Err(fault) => Some(fault),
    }
}

/// The first fault of the home address of the bytes in a space.
fn home_fault_in<T: Stage>(
    stage: &mut T,
    slot: Slot,
    geo: &Geometry,
    t: Track,
    space: &Extent,
    buffer: &mut [u8],
) -> Result<Option<TrackFault>, LookFault>
    requires geometry { IsGeometry geo.now }
    requires track { t.0 < track_count geo.now }
    requires room { 65536 ≤ length buffer.old }
    requires bytes { HasBytes slot (space.now.pos + space.now.len) (seen T.Shows stage.old) }
    ensures fault { OfFile slot (λ file. IfOk result (λ fault. fault ≡ home_fault geo.now t.0 (bytes_at file space.now.pos space.now.len))) (seen T.Shows stage.old) }
    ensures cause { IfErr result IsOutside }
    ensures looks { OnlyLooks result (seen T.Shows stage.old) (seen T.Shows stage.new) }
{
    let len = space.len.min(HOME) as usize;
    match read_front(stage, slot, space.pos, len, buffer) {
        Ok(()) => Ok(fault_told(Ckd::check_home(geo, t, &buffer[..len]))),
        Err(fault) => Err(fault),
    }
}

/// The first fault of the bytes in a space. Those of a track that is too long aren't read.
fn track_fault_in<T: Stage>(
    stage: &mut T,
    slot: Slot,
    geo: &Geometry,
    t: Track,
    space: &Extent,
    buffer: &mut [u8],
) -> Result<Option<TrackFault>, LookFault>
    requires geometry { IsGeometry geo.now }
    requires track { t.0 < track_count geo.now }
    requires room { 65536 ≤ length buffer.old }
    requires bytes { HasBytes slot (space.now.pos + space.now.len) (seen T.Shows stage.old) }
    ensures fault { OfFile slot (λ file. IfOk result (λ fault. fault ≡ track_fault geo.now t.0 (bytes_at file space.now.pos space.now.len))) (seen T.Shows stage.old) }
    ensures cause { IfErr result IsOutside }
    ensures looks { OnlyLooks result (seen T.Shows stage.old) (seen T.Shows stage.new) }
{
    let max = geo.track_size;
    if max < space.len {
        return Ok(Some(TrackFault::TooLong {
            len: space.len,
            max,
        }));
    }
    let len = space.len as usize;
    match read_front(stage, slot, space.pos, len, buffer) {
        Ok(()) => Ok(fault_told(Ckd::check(geo, t, &buffer[..len]))),
        Err(fault) => Err(fault),
    }
}

/// Puts damage behind the others.
pub(crate) fn add_damage(found: &mut Damages, damage: Damage) -> Result<(), LookFault>
    ensures added { OnOk result (found.new ≡ found.old ++ damage ∷ []) }
    ensures cause { IfErr result (λ why. why ≡ LookFault.Memory) }
{
    match found.push(damage) {
        Ok(()) => Ok(()),
        Err(_) => Err(LookFault::Memory),
    }
}

/// Puts the fault of a track into the report.
fn note_fault(report: &mut Report, t: Track, fault: Option<TrackFault>) -> Result<(), LookFault>
    requires { report.old.unread + 1 < 2 ^ 32 }
    ensures added { OnOk result (AddsFault t.0 fault report.old report.new) }
    ensures cause { IfErr result (λ why. why ≡ LookFault.Memory) }
    ensures few { report.new.unread ≤ report.old.unread + 1 }
{
    match fault {
        None => Ok(()),
        Some(TrackFault::Compressed { .. }) => {
            report.unread += 1;
            Ok(())
        }
        Some(fault) => {
            let damage = Damage::Track { track: t.0, fault };
            add_damage(&mut report.found, damage)
        }
    }
}

/// The tracks that a check looks at: which spaces of a file of `len` bytes are in use.
#[derive(Clone, Copy)]
pub(crate) struct Tracks<'a> {
    pub(crate) geo: &'a Geometry,
    pub(crate) level: u8,
    pub(crate) spaces: &'a [Extent],
    pub(crate) len: u32,
}

impl Tracks<'_> {
    ghost use Rattle.cckd_check.specs.Inside.{CanCheck};

    /// The first fault of the bytes in the space that a number names.
    fn fault_at<T: Stage>(
        &self,
        stage: &mut T,
        slot: Slot,
        t: Track,
        place: usize,
        buffer: &mut [u8],
    ) -> Result<Option<TrackFault>, LookFault>
        requires can { CanCheck self.now slot (seen T.Shows stage.old) }
        requires track { t.0 < track_count self.now.geo.now }
        requires room { 65536 ≤ length buffer.old }
        ensures fault { OfFile slot (λ file. IfOk result (λ fault. fault
            ≡ fault_in self.now.level self.now.geo.now file t.0 (space_named self.now.spaces.now place))) (seen T.Shows stage.old) }
        ensures cause { IfErr result IsOutside }
        ensures looks { OnlyLooks result (seen T.Shows stage.old) (seen T.Shows stage.new) }
    {
        let Some(space) = space_named(self.spaces, place) else {
            return Ok(None);
        };
        if self.level == 2 {
            return home_fault_in(stage, slot, self.geo, t, &space, buffer);
        }
        track_fault_in(stage, slot, self.geo, t, &space, buffer)
    }

    /// Adds the faults of the tracks to the report, each of which has a number that names its space.
    fn check_each<T: Stage>(
        &self,
        stage: &mut T,
        slot: Slot,
        places: &[usize],
        buffer: &mut [u8],
        report: &mut Report,
    ) -> Result<(), LookFault>
        requires can { CanCheck self.now slot (seen T.Shows stage.old) }
        requires places { length places.now ≡ track_count self.now.geo.now }
        requires noted { AreNoted self.now.spaces.now self.now.spaces.now places.now }
        requires room { 65536 ≤ length buffer.old }
        requires none { report.old.unread ≡ 0 }
        ensures added { OfFile slot (λ file. OnOk result (AddsTracks self.now.level self.now.geo.now self.now.spaces.now file
            (track_count self.now.geo.now) report.old report.new)) (seen T.Shows stage.old) }
        ensures cause { IfErr result IsOutside }
        ensures looks { OnlyLooks result (seen T.Shows stage.old) (seen T.Shows stage.new) }
    {
        for number in 0..self.geo.tracks() {
            let t = Track(number);
            let place = places[number as usize];
            let fault = match self.fault_at(stage, slot, t, place, buffer) {
                Ok(fault) => fault,
                Err(fault) => return Err(fault),
            };
            match note_fault(report, t, fault) {
                Ok(()) => {}
                Err(fault) => return Err(fault),
            }
        }
        Ok(())
    }

    /// Adds the faults of the tracks to the report.
    pub(crate) fn check<T: Stage>(
        &self,
        alloc: Global,
        stage: &mut T,
        slot: Slot,
        report: &mut Report,
    ) -> Result<(), LookFault>
        requires can { CanCheck self.now slot (seen T.Shows stage.old) }
        requires none { report.old.unread ≡ 0 }
        ensures added { OfFile slot (λ file. OnOk result (AddsTracks self.now.level self.now.geo.now self.now.spaces.now file
            (track_count self.now.geo.now) report.old report.new)) (seen T.Shows stage.old) }
        ensures cause { IfErr result IsOutside }
        ensures looks { OnlyLooks result (seen T.Shows stage.old) (seen T.Shows stage.new) }
    {
        let Ok(mut places) = vec![in alloc; 0; self.geo.tracks() as usize] else {
            return Err(LookFault::Memory);
        };
        let Ok(mut buffer) = vec![in alloc; 0; BUFFER] else {
            return Err(LookFault::Memory);
        };
        note_places(places.as_mut_slice(), self.spaces);
        self.check_each(
            stage,
            slot,
            places.as_slice(),
            buffer.as_mut_slice(),
            report,
        )
    }
}
