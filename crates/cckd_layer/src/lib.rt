//! One image that is written: what holds of its file between calls, and the acts that keep it so.
#![tactic(auto)]

mod agreeing;
mod chaining;
mod claiming;
mod closing;
mod committing;
mod completing;
mod counting;
mod hardening;
mod held;
mod laws;
mod layer;
mod looking;
mod marking;
mod mounting;
mod opening;
mod placing;
mod preparing;
mod reading;
mod settling;
mod staging;
mod writing;

pub use agreeing::layers_agree;
pub use cckd_base::Layout;
pub use cckd_shelf::Slot;
pub use cckd_space::Space;
pub use cckd_tables::{Device, StagedEntry, StagedWord};
pub use chaining::put_chain;
pub use closing::close_image;
pub use completing::layers_tied;
pub use held::Held;
pub use laws::{
    closes_stand, commits_stand, fulls_are_justified, images_have_no_misfit, marks_stand,
    marks_stay, puts_stand, releases_stand, stages_stand,
};
pub use layer::Layer;
pub use looking::geometry_in;
pub use marking::{close_header, open_header, put_second, second_header};
pub use placing::{PutFault, put_bytes};
pub use settling::settle_staged;
pub use staging::{give_place_back, leave_place};
