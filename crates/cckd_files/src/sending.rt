//! The stage may be handed to another thread.

use crate::HostStage;

fn is_send<T: Send>() {}

/// Shows it: this has no other use.
pub fn host_stage_is_send() {
    is_send::<HostStage>();
}
