//! A script that is served over an engine, line by line.
#![tactic(auto)]

mod asking;
mod line;
mod rooms;
mod serving;
mod status;
mod stop;

pub use rooms::Rooms;
pub use serving::serve_script;
pub use stop::Stop;
