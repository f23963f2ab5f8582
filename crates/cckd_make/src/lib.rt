//! New images: a file that is made in a slot, so that a stop leaves none or the whole.
#![tactic(auto)]

mod fault;
mod laws;
mod laying;
mod making;

pub use fault::MakeFault;
pub use laws::new_images_are_new;
pub use laying::lay;
pub use making::make;
