use crate::fault::HeaderFault;
use crate::geometry::Geometry;
use crate::misfit::Misfit;

/// Why the files of the slots are no stack of layers.
#[derive(Clone, Copy, Debug, PartialEq, Eq)]
pub enum OpenFault {
    /// The file of the slot has no header of an image of its kind.
    Header {
        slot: u8,
        fault: HeaderFault,
    },
    /// The slot has a file, and the slot before it has none.
    Gap {
        slot: u8,
    },
    /// The file of the slot is that of a device of another shape than the base.
    Mismatch {
        slot: u8,
        base: Geometry,
        found: Geometry,
    },
    /// The tables of the slot's file have a misfit.
    Scan {
        slot: u8,
        fault: Misfit,
    },
    /// A call that reads failed.
    ReadFault,
    /// A call that writes or cuts failed.
    WriteFault,
    /// A call that syncs failed.
    SyncFault,
    /// Memory was wanted.
    Memory,
}
