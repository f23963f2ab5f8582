//! What the slots of a stage in memory hold.
ghost use Rattle.std.specs.Prelude.{◌≡◌, ◌+◌, ◌^◌, ◌<◌, ℕ, List, [], length, map, take, unwrap_or, slice_set, IfOk, IfSome, IfNone, OnOk, OnErr};
ghost use Rattle.std.specs.Option.{option_copied};
ghost use Rattle.cckd_shelf.specs.Files.{overlaid};
ghost use Rattle.cckd_shelf.specs.World.{with_file, with_present};
ghost use Rattle.cckd_memory.specs.Files.{file_named};
ghost use Rattle.cckd_memory.specs.Inside.{place_in, without, content, with_content, IsFirst, HasNone};

use crate::places::Place;
use crate::{Bytes, FileIn, Memory};
use std::alloc::Global;

fn place_of(files: &[FileIn], name: &[u8]) -> Option<usize>
    ensures { result ≡ place_in files.now name.now }
{
    files.iter().position(|file| file.name.get() == name)
}

/// Where the first file of this name stands.
pub(crate) fn find(files: &[FileIn], name: &[u8]) -> Option<usize>
    ensures none { IfNone result (HasNone files.now name.now) }
    ensures first { IfSome result (λ at. IsFirst files.now name.now at) }
    ensures within { IfSome result (λ at. at < length files.now) }
{
    place_of(files, name)
}

pub(crate) fn named<'a>(files: &'a [FileIn], name: &[u8]) -> Option<&'a [u8]>
    ensures { option_copied result ≡ file_named files.now name.now }
{
    let Some(at) = find(files, name) else {
        return None
    };
    Some(files[at].bytes.get())
}

/// What the slot holds.
pub(crate) fn held<'a>(files: &'a [FileIn], place: &'a Place) -> &'a [u8]
    ensures { result.now ≡ content (file_named files.now) place.now }
{
    match &place.name {
        Some(name) => named(files, name.get()).unwrap_or(&[]),
        None => place.loose.get(),
    }
}

/// A copy of what the name holds.
pub(crate) fn copy_named(alloc: Global, files: &[FileIn], name: &[u8]) -> Result<Bytes, Memory>
    ensures { IfOk result (λ bytes. bytes ≡ unwrap_or (file_named files.now name.now) []) }
{
    match named(files, name) {
        Some(bytes) => Bytes::of(alloc, bytes),
        None => Ok(Bytes::empty(alloc)),
    }
}

/// Gives the slot at this place the name, and takes it from the slot that has it.
pub(crate) fn give_name(alloc: Global, places: &mut [Place], at: usize, name: &[u8], own: Bytes)
    requires { at < length places.old }
    ensures { places.new ≡ slice_set (map (without name.now) places.old) at (record { name = Some own; loose = [] }) }
{
    free_name(alloc, places, name);
    places[at] = Place {
        name: Some(own),
        loose: Bytes::empty(alloc),
    };
}

/// Takes the name from the slot that has it.
fn free_name(alloc: Global, places: &mut [Place], name: &[u8])
    ensures { places.new ≡ map (without name.now) places.old }
{
    for place in places.iter_mut() {
        place.lose(alloc, name);
    }
}

/// Puts bytes into the file of the slot, and makes it where it is absent.
pub(crate) fn overlay_held(
    alloc: Global,
    files: &mut Vec<FileIn>,
    place: &mut Place,
    pos: usize,
    bytes: &[u8],
) -> Result<(), Memory>
    requires { pos + length bytes.now < 2 ^ 63 }
    ensures files { OnOk result ((other : List ℕ) → file_named files.new.items other
        ≡ with_file (file_named files.old.items) place.old.name (overlaid (content (file_named files.old.items) place.old) pos bytes.now) other) }
    ensures place { OnOk result (place.new ≡ with_content place.old
        (overlaid (content (file_named files.old.items) place.old) pos bytes.now)) }
    ensures kept { OnErr result ((files.new.items ≡ files.old.items) × (place.new ≡ place.old)) }
{
    match &place.name {
        Some(name) => overlay_named(alloc, files, name.get(), pos, bytes),
        None => place.loose.overlay(pos, bytes),
    }
}

fn overlay_named(
    alloc: Global,
    files: &mut Vec<FileIn>,
    name: &[u8],
    pos: usize,
    bytes: &[u8],
) -> Result<(), Memory>
    requires { pos + length bytes.now < 2 ^ 63 }
    ensures files { OnOk result ((other : List ℕ) → file_named files.new.items other
        ≡ with_file (file_named files.old.items) (Some name.now) (overlaid (unwrap_or (file_named files.old.items name.now) []) pos bytes.now) other) }
    ensures kept { OnErr result (files.new.items ≡ files.old.items) }
{
    match find(files, name) {
        Some(at) => files[at].bytes.overlay(pos, bytes),
        None => {
            let mut fresh = Bytes::empty(alloc);
            fresh.overlay(pos, bytes)?;
            let name = Bytes::of(alloc, name)?;
            files.push(FileIn { name, bytes: fresh })?;
            Ok(())
        }
    }
}

/// Cuts the file of the slot. An absent one stays absent.
pub(crate) fn cut_held(files: &mut Vec<FileIn>, place: &mut Place, len: usize)
    ensures files { (other : List ℕ) → file_named files.new.items other
        ≡ with_present (file_named files.old.items) place.old.name (take len (content (file_named files.old.items) place.old)) other }
    ensures place { place.new ≡ with_content place.old (take len (content (file_named files.old.items) place.old)) }
{
    match &place.name {
        Some(name) => cut_named(files, name.get(), len),
        None => place.loose.cut(len),
    }
}

fn cut_named(files: &mut Vec<FileIn>, name: &[u8], len: usize)
    ensures { (other : List ℕ) → file_named files.new.items other
        ≡ with_present (file_named files.old.items) (Some name.now) (take len (unwrap_or (file_named files.old.items name.now) [])) other }
{
    if let Some(at) = find(files, name) {
        files[at].bytes.cut(len);
    }
}
