//! The stage may be handed to another thread.

use crate::MemoryStage;

fn is_send<T: Send>() {}

/// Shows it: this has no other use.
pub fn memory_stage_is_send() {
    is_send::<MemoryStage>();
}
