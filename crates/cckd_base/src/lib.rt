//! The shared words of the workspace: geometries, tracks, table entries, faults and replies.
#![tactic(auto)]

mod bytes;
mod call;
mod damage;
mod device;
mod entry;
mod fault;
mod geometry;
mod layer_fault;
mod misfit;
mod open_fault;
mod order;
mod put;
mod reply;
mod space;
mod stowed;
#[cfg(test)]
mod tests;
mod turn;
mod unit;

pub use bytes::part;
pub use call::Call;
pub use damage::Damage;
pub use device::geometry_of;
pub use entry::{L2Entry, SEE_PARENT};
pub use fault::{CountField, GeoField, HeaderFault, TrackFault};
pub use geometry::{Addr, Geometry, Layout, Track};
pub use layer_fault::{LayerFault, StackFault};
pub use misfit::{Misfit, ScanFault};
pub use open_fault::OpenFault;
pub use order::Order;
pub use put::put_bytes;
pub use reply::{Refusal, Reply};
pub use space::{Extent, Full, Owner};
pub use stowed::Stowed;
pub use turn::Turn;
pub use unit::Unit;

/// The greatest length of an image in bytes.
pub const FORMAT_LIMIT: u32 = 2_147_483_640;

/// Where the level-one table starts, in bytes: behind the two headers.
pub const WORDS_AT: u32 = 1024;

/// Bytes of a level-two table.
pub const TABLE_LEN: u32 = 2048;

/// Tracks of a group, each of which has an entry in the group's level-two table.
pub const GROUP_TRACKS: u32 = 256;

/// The answer for want of memory.
pub type Memory = std::alloc::AllocError;
