// Chart files: loaded whole or refused, and written back byte for byte.
#![tactic(auto)]

mod before;
mod entry;
pub mod fault;
pub mod frame;
mod hex;
pub mod kind;
pub mod loading;
pub mod writing;

pub use fault::{Cause, Fault, ShortBuffer};
pub use loading::load;
pub use writing::write;
