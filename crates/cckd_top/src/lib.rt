//! The run of `cckdrun`: words, the files that they name, a script that is served, and the lines that are printed.
#![tactic(auto)]

mod halt;
mod laws;
mod names;
mod plain;
mod run;
mod status;
mod text;
mod words;

pub use halt::Halt;
pub use laws::{hardened_files_are_known, open_files_are_clean, runs_are_served};
pub use plain::run_plain;
pub use status::Status;
