//! A layer: the file of one slot with its tracks.

use cckd_base::Layout;
use cckd_image::ImageHeader;
use cckd_shelf::Slot;
use cckd_space::Space;
use cckd_tables::Tables;
use std::marker::{Model, PhantomData};

/// The file of one slot as an image: its tables, which bytes of it are in use, and what is under way. Contracts see a
/// `LayerState`.
#[derive(Drop)]
pub struct Layer<U> {
    pub(crate) slot: Slot,
    /// As they were last read from the file or written to it.
    pub(crate) header: ImageHeader,
    pub(crate) tables: Tables,
    pub(crate) space: Space,
    /// It was changed since it was mounted or closed.
    pub(crate) marked: bool,
    /// All that was written is on the disk for good.
    pub(crate) hardened: bool,
    /// A write, a cut or a sync failed.
    pub(crate) broken: bool,
    /// Room for what is written, with its rounding zeros.
    pub(crate) buffer: Vec<u8>,
    pub(crate) of: PhantomData<U>,
}

impl<U> Model for Layer<U> {
    ghost use Rattle.std.specs.Prelude.{◌≡◌, length};
    ghost use Rattle.cckd_layer.specs.Mounted.{LayerState, IsRoomy};

    ghost Value = { LayerState };

    ghost view = { λ s. record { slot = s.slot; header = s.header; tables = s.tables; plan = s.space; marked = s.marked; hardened = s.hardened; broken = s.broken } };

    ghost invariant = { λ s. IsRoomy s.tables s.space × (length s.buffer.items ≡ 65536) };
}

impl<U> Layer<U> {
    ghost use Rattle.std.specs.Prelude.{◌≡◌, ◌↔◌, IsTrue};
    ghost use Rattle.cckd_base.specs.Geometry.{IsLayout};
    ghost use Rattle.cckd_tables.specs.Cached.{IsCached};
    ghost use Rattle.cckd_layer.specs.Mounted.{IsRoomy};

    /// How the image lays its tracks out.
    pub fn layout(&self) -> Layout
        ensures value { result ≡ self.now.tables.layout }
        ensures can { IsLayout result }
    {
        self.tables.layout()
    }

    /// Which bytes of the file are in use. There is always room for as many pieces as a layer may have.
    pub fn space(&self) -> &Space
        ensures value { result.now ≡ self.now.plan }
        ensures roomy { IsRoomy self.now.tables result.now }
    {
        &self.space
    }

    /// Whether the table of a group is kept in memory.
    pub fn cached(&self, group: u32) -> bool
        ensures { IsTrue result ↔ IsCached group self.now.tables.cached }
    {
        self.tables.cached(group)
    }

    /// Whether the file was changed since it was mounted or closed.
    pub fn marked(&self) -> bool
        ensures { result ≡ self.now.marked }
    {
        self.marked
    }

    /// Whether a write, a cut or a sync failed. Nothing else may be called then.
    pub fn broken(&self) -> bool
        ensures { result ≡ self.now.broken }
    {
        self.broken
    }
}
