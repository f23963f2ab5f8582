//! The making of a base where none is.
ghost use Rattle.std.specs.Prelude.{◌≡◌, ◌≤◌, length, OnOk, IfOk, IfErr};
ghost use Rattle.cckd_base.specs.Geometry.{IsGeometry, IsLayout};
ghost use Rattle.cckd_shelf.specs.Seen.{seen, Stays};
ghost use Rattle.cckd_shelf.specs.Frame.{OnlyIn};
ghost use Rattle.cckd_make.specs.NewImage.{new_image};
ghost use Rattle.cckd_make.specs.Making.{StopsWithout};
ghost use Rattle.cckd_tools.specs.Init.{OfFile, base_layout, base_image, base_length, IsAnswerOn, CountsInit, KeptInit, IsMade, IsAskCause, IsMakeCause, OfSure};
ghost use Rattle.cckd_tools.specs.Label.{label_image, label_length};

use crate::fault::InitFault;
use crate::labelled::{label_image, label_size};
use crate::presence::find;
use cckd_base::{Geometry, Layout, Order};
use cckd_make::{MakeFault, lay, make};
use cckd_shelf::{Slot, Stage};
use std::alloc::Global;

/// The slot of a base.
fn base_slot() -> Slot
    ensures { result ≡ 0 }
{
    Slot::new(0).unwrap()
}

/// The layout of a new base.
fn base_layout(geo: Geometry) -> Layout
    requires { IsGeometry geo }
    ensures value { result ≡ base_layout geo }
    ensures layout { IsLayout result }
{
    Layout {
        order: Order::Little,
        geo,
        groups: geo.groups(),
        shadow: false,
        null_fmt: 0,
    }
}

/// Asks that a slot isn't there.
fn ask<T: Stage>(stage: &mut T, slot: Slot) -> Result<(), InitFault>
    ensures answer { OfFile slot (IsAnswerOn result) (seen T.Shows stage.old) }
    ensures cause { IfErr result IsAskCause }
    ensures kept { Stays (seen T.Shows stage.old) (seen T.Shows stage.new) }
    ensures counts { CountsInit result (seen T.Shows stage.old).faults (seen T.Shows stage.new).faults }
{
    match find(stage, slot) {
        Ok((len, true)) => Err(InitFault::NotEmpty { len }),
        Ok((_, false)) => Ok(()),
        Err(fault) => Err(fault),
    }
}

/// Lays a whole file in a slot.
fn lay_whole<T: Stage>(stage: &mut T, slot: Slot, file: &[u8]) -> Result<(), InitFault>
    requires long { 512 ≤ length file.now }
    requires short { length file.now ≤ 65536 }
    ensures made { OfSure (OnOk result (IsMade slot file.now (seen T.Shows stage.new).world)) (seen T.Shows stage.old) }
    ensures cause { IfErr result IsMakeCause }
    ensures kept { KeptInit result (seen T.Shows stage.old) (seen T.Shows stage.new) }
    ensures counts { CountsInit result (seen T.Shows stage.old).faults (seen T.Shows stage.new).faults }
    ensures stopped { StopsWithout slot file.now (seen T.Shows stage.old) (seen T.Shows stage.new) }
    ensures others { OnlyIn slot (seen T.Shows stage.old) (seen T.Shows stage.new) }
{
    match lay(stage, slot, &file[..512], &file[512..]) {
        Ok(()) => Ok(()),
        Err(MakeFault::WriteFault) => Err(InitFault::WriteFault),
        Err(MakeFault::SyncFault) => Err(InitFault::SyncFault),
        Err(MakeFault::Memory) => unreachable!(),
    }
}

/// Makes a new base in a slot, as the tool says what stopped it.
fn make_base<T: Stage>(
    alloc: Global,
    stage: &mut T,
    slot: Slot,
    l: &Layout,
) -> Result<(), InitFault>
    requires { IsLayout l.now }
    ensures made { OfSure (OnOk result (IsMade slot (new_image l.now) (seen T.Shows stage.new).world)) (seen T.Shows stage.old) }
    ensures cause { IfErr result IsMakeCause }
    ensures kept { KeptInit result (seen T.Shows stage.old) (seen T.Shows stage.new) }
    ensures counts { CountsInit result (seen T.Shows stage.old).faults (seen T.Shows stage.new).faults }
    ensures stopped { StopsWithout slot (new_image l.now) (seen T.Shows stage.old) (seen T.Shows stage.new) }
    ensures others { OnlyIn slot (seen T.Shows stage.old) (seen T.Shows stage.new) }
{
    match make(alloc, stage, slot, l) {
        Ok(()) => Ok(()),
        Err(MakeFault::WriteFault) => Err(InitFault::WriteFault),
        Err(MakeFault::SyncFault) => Err(InitFault::SyncFault),
        Err(MakeFault::Memory) => Err(InitFault::Memory),
    }
}

/// Makes a labelled base in a slot.
fn make_labelled<T: Stage>(
    alloc: Global,
    stage: &mut T,
    slot: Slot,
    l: &Layout,
    serial: &[u8; 6],
) -> Result<(), InitFault>
    requires layout { IsLayout l.now }
    requires label { label_length ≤ l.now.geo.track_size }
    ensures made { OfSure (OnOk result (IsMade slot (label_image l.now serial.now) (seen T.Shows stage.new).world)) (seen T.Shows stage.old) }
    ensures cause { IfErr result IsMakeCause }
    ensures kept { KeptInit result (seen T.Shows stage.old) (seen T.Shows stage.new) }
    ensures counts { CountsInit result (seen T.Shows stage.old).faults (seen T.Shows stage.new).faults }
    ensures stopped { StopsWithout slot (label_image l.now serial.now) (seen T.Shows stage.old) (seen T.Shows stage.new) }
    ensures others { OnlyIn slot (seen T.Shows stage.old) (seen T.Shows stage.new) }
{
    match label_image(alloc, l, serial) {
        Ok(file) => lay_whole(stage, slot, file.as_slice()),
        Err(fault) => Err(fault),
    }
}

/// Makes a base in a slot, with a label or without one.
fn make_whole<T: Stage>(
    alloc: Global,
    stage: &mut T,
    slot: Slot,
    l: &Layout,
    label: Option<[u8; 6]>,
) -> Result<u32, InitFault>
    requires layout { IsLayout l.now }
    requires label { label_length ≤ l.now.geo.track_size }
    ensures made { OfSure (OnOk result (IsMade slot (base_image l.now label) (seen T.Shows stage.new).world)) (seen T.Shows stage.old) }
    ensures length { IfOk result (λ len. len ≡ base_length l.now label) }
    ensures cause { IfErr result IsMakeCause }
    ensures kept { KeptInit result (seen T.Shows stage.old) (seen T.Shows stage.new) }
    ensures counts { CountsInit result (seen T.Shows stage.old).faults (seen T.Shows stage.new).faults }
    ensures stopped { StopsWithout slot (base_image l.now label) (seen T.Shows stage.old) (seen T.Shows stage.new) }
    ensures others { OnlyIn slot (seen T.Shows stage.old) (seen T.Shows stage.new) }
{
    match label {
        None => match make_base(alloc, stage, slot, l) {
            Ok(()) => Ok(l.area() as u32),
            Err(fault) => Err(fault),
        },
        Some(serial) => match make_labelled(alloc, stage, slot, l, &serial) {
            Ok(()) => Ok(label_size(l)),
            Err(fault) => Err(fault),
        },
    }
}

/// Makes a base of this geometry in slot 0, where no file is there: without a label an image in which nothing is stored, and with the
/// label of a volume's serial one whose track 0 is labelled. Answers the file's length.
pub fn init<T: Stage>(
    alloc: Global,
    stage: &mut T,
    g: Geometry,
    label: Option<[u8; 6]>,
) -> Result<u32, InitFault>
    requires geometry { IsGeometry g }
    requires label { label_length ≤ g.track_size }

    // A file that is there is refused with its length, and nothing else is.
    ensures answer { OfFile 0 (IsAnswerOn result) (seen T.Shows stage.old) }

    // At Ok the slot has exactly the new base, and so has whatever a stop leaves.
    ensures made { OfSure (OnOk result (IsMade 0 (base_image (base_layout g) label) (seen T.Shows stage.new).world)) (seen T.Shows stage.old) }
    ensures length { IfOk result (λ len. len ≡ base_length (base_layout g) label) }

    // Where no stop could leave the slot there before, each stop within leaves it so, or the whole new base.
    ensures stopped { StopsWithout 0 (base_image (base_layout g) label) (seen T.Shows stage.old) (seen T.Shows stage.new) }
    ensures others { OnlyIn 0 (seen T.Shows stage.old) (seen T.Shows stage.new) }
    ensures kept { KeptInit result (seen T.Shows stage.old) (seen T.Shows stage.new) }
    ensures counts { CountsInit result (seen T.Shows stage.old).faults (seen T.Shows stage.new).faults }
{
    let slot = base_slot();
    if let Err(fault) = ask(stage, slot) {
        return Err(fault);
    }
    let l = base_layout(g);
    make_whole(alloc, stage, slot, &l, label)
}
