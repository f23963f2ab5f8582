//! Tracks of CKD devices: the check of their bytes, the bytes of null tracks, and tracks that are built.
#![tactic(auto)]

mod building;
mod checking;
mod ckd_unit;
#[cfg(test)]
mod tests;
mod writing;

pub use building::Builder;
pub use cckd_base::Unit;
pub use ckd_unit::Ckd;
