//! A stage in memory, which tells all that it holds, and the outcomes of a stop.
#![tactic(auto)]

mod bytes;
mod copies;
mod counts;
mod files;
mod history;
mod holdings;
mod image;
mod memory;
mod op;
mod pairs;
mod parts;
mod places;
mod sending;

pub use bytes::{Bytes, FileIn, Memory};
pub use counts::Counts;
pub use image::image_of;
pub use memory::MemoryStage;
pub use op::Op;
pub use sending::memory_stage_is_send;
