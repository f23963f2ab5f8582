//! The check of one image: all that is amiss in its tables, its chain of free spaces and its stored tracks.
#![tactic(auto)]

mod chaining;
mod damages;
mod examining;
mod heading;
mod looking;
mod reading;
mod report;
mod tracking;

pub use cckd_base::{Damage, HeaderFault, Layout, Misfit, TrackFault};
pub use damages::Damages;
pub use looking::look;
pub use report::{LookFault, Report};
