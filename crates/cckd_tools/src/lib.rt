//! Tools over whole images: the making of a base.
#![tactic(auto)]

mod fault;
mod label;
mod labelled;
mod making;
mod presence;

pub use fault::InitFault;
pub use making::init;
