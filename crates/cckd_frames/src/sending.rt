//! Frames may be handed to another thread.

use crate::Frames;

fn is_send<T: Send>() {}

/// Shows it: this has no other use.
pub fn frames_are_send() {
    is_send::<Frames>();
}
