//! The layered disk: a base image, the shadow files on it, and what calls and stops make of them.
#![tactic(auto)]

mod checking;
mod closing;
mod hardening;
mod laws;
mod mounting;
mod presence;
mod reading;
mod showing;
mod stack;
mod writing;

pub use cckd_base::{Call, Geometry, Refusal, Reply, Turn};
pub use laws::{
    bridges, caches_keep_stacks, files_open_once, hardening_is_answered, hardenings_go_on,
    last_layers_count, mounted_layers_agree, mounted_opens, stops_are_kept, writes_are_answered,
};
pub use stack::Stack;
