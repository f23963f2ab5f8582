//! The two-level tables of one image: the survey of all that they name.
#![tactic(auto)]

mod cache;
mod cell;
mod commit;
mod device;
mod item;
mod kept;
mod making;
mod progress;
mod read;
mod run;
mod settling;
mod staged;
mod stages;
mod surveyed;
mod table;
mod tables;
mod words;

pub use cckd_base::{Extent, Layout, Misfit, Owner, ScanFault};
pub use commit::Commit;
pub use device::Device;
pub use staged::{StagedEntry, StagedWord};
pub use surveyed::{SurveyFault, Surveyed, scan, survey};
pub use tables::Tables;
