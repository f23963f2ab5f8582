//! The stage over real files, standard input and standard output.
#![tactic(auto)]

mod host;
mod host_file;
mod sending;
mod streams;
#[cfg(test)]
mod tests;

pub use host::HostStage;
pub use sending::host_stage_is_send;
