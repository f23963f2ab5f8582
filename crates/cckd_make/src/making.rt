//! The making of an image.
ghost use Rattle.std.specs.Prelude.{◌≡◌, if◌then◌else◌, ◌++◌, length, take, drop, OnOk, IfOk, IfErr};
ghost use Rattle.cckd_base.specs.Geometry.{IsLayout};
ghost use Rattle.cckd_shelf.specs.Seen.{seen, Tells, Makes};
ghost use Rattle.cckd_shelf.specs.Frame.{OnlyIn};
ghost use Rattle.cckd_image.specs.Image.{header_bytes};
ghost use Rattle.cckd_image.specs.Fresh.{new_header};
ghost use Rattle.cckd_make.specs.NewImage.{made_layout, new_words, new_image};
ghost use Rattle.cckd_make.specs.Making.{StopsWithout, HasOnly, CountsMaking, after_laying};

use crate::fault::MakeFault;
use crate::laying::lay;
use cckd_base::{Layout, put_bytes};
use cckd_image::{ImageHeader, Roles};
use cckd_shelf::{Shelf, Slot};
use std::alloc::Global;

/// Bytes of each of the two headers.
const HEADER: usize = 512;

/// The byte that a new image's level-one words are made of: those of a base are 0, and those of a shadow send to the file below.
fn word_byte(shadow: bool) -> u8
    ensures { result ≡ (if shadow then 255 else 0) }
{
    if shadow { 0xff } else { 0 }
}

/// The second header and the level-one words of a new image.
fn behind_first(alloc: Global, l: &Layout, second: &[u8]) -> Result<Vec<u8>, MakeFault>
    requires layout { IsLayout l.now }
    requires second { length second.now ≡ HEADER }
    ensures bytes { IfOk result (λ rest. rest.items ≡ second.now ++ new_words l.now) }
    ensures memory { IfErr result (λ why. why ≡ MakeFault.Memory) }
{
    let fill = word_byte(l.shadow);
    let Ok(mut rest) = vec![in alloc; fill; HEADER + 4 * l.groups as usize] else {
        return Err(MakeFault::Memory);
    };
    put_bytes(rest.as_mut_slice(), 0, second);
    Ok(rest)
}

/// The bytes of both headers of a new image.
fn headers(l: &Layout) -> [u8; 1024]
    requires { IsLayout l.now }
    ensures { result ≡ header_bytes (new_header (made_layout l.now)) }
{
    ImageHeader::fresh(l, Roles::Either).encode()
}

/// Makes the image with these two headers.
fn make_with<S: Shelf>(
    alloc: Global,
    shelf: &mut S,
    slot: Slot,
    l: &Layout,
    first: &[u8],
    second: &[u8],
) -> Result<(), MakeFault>
    requires layout { IsLayout l.now }
    requires headers { first.now ++ second.now ≡ header_bytes (new_header (made_layout l.now)) }
    requires first { length first.now ≡ HEADER }
    requires second { length second.now ≡ HEADER }
    ensures made { OnOk result (Makes (after_laying slot (take HEADER (new_image l.now)) (drop HEADER (new_image l.now))) (seen S.Shows shelf.old) (seen S.Shows shelf.new)) }
    ensures only { OnOk result (Tells (seen S.Shows shelf.old) → HasOnly slot (new_image l.now) (seen S.Shows shelf.new).world) }
    ensures stopped { StopsWithout slot (new_image l.now) (seen S.Shows shelf.old) (seen S.Shows shelf.new) }
    ensures others { OnlyIn slot (seen S.Shows shelf.old) (seen S.Shows shelf.new) }
    ensures counts { CountsMaking result (seen S.Shows shelf.old).faults (seen S.Shows shelf.new).faults }
    ensures untouched { IfErr result (λ why. why ≡ MakeFault.Memory → seen S.Shows shelf.new ≡ seen S.Shows shelf.old) }
{
    match behind_first(alloc, l, second) {
        Ok(rest) => lay(shelf, slot, first, rest.as_slice()),
        Err(fault) => Err(fault),
    }
}

/// Makes a new image of this layout in a slot, whatever the slot's file was: a base or a shadow, as the layout
/// says, in which nothing is stored, and whose numbers have their low byte first. Where a stop can't leave
/// the slot there before, it leaves it so or the whole image in it, at each operation.
pub fn make<S: Shelf>(alloc: Global, shelf: &mut S, slot: Slot, l: &Layout) -> Result<(), MakeFault>
    requires { IsLayout l.now }
    ensures made { OnOk result (Makes (after_laying slot (take HEADER (new_image l.now)) (drop HEADER (new_image l.now))) (seen S.Shows shelf.old) (seen S.Shows shelf.new)) }
    ensures only { OnOk result (Tells (seen S.Shows shelf.old) → HasOnly slot (new_image l.now) (seen S.Shows shelf.new).world) }
    ensures stopped { StopsWithout slot (new_image l.now) (seen S.Shows shelf.old) (seen S.Shows shelf.new) }
    ensures others { OnlyIn slot (seen S.Shows shelf.old) (seen S.Shows shelf.new) }
    ensures counts { CountsMaking result (seen S.Shows shelf.old).faults (seen S.Shows shelf.new).faults }
    ensures untouched { IfErr result (λ why. why ≡ MakeFault.Memory → seen S.Shows shelf.new ≡ seen S.Shows shelf.old) }
{
    let both = headers(l);
    make_with(alloc, shelf, slot, l, &both[..HEADER], &both[HEADER..])
}
