//! The receiver: lines in, as a capture card lets go of them; each block out, or the answer that it is missing or lost.
#![tactic(auto)]

mod asks;
mod lines;
mod memory;
mod offers;
mod receivers;

pub use memory::MEMORY;
pub use offers::faults_found;
pub use receivers::{Closed, Gathering};
