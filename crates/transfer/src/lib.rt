//! The way of a field from a sender to a receiver, over any carrier, and what is promised of it.
#![tactic(auto)]

mod steps;
mod whole;

pub use steps::{Step, carry_out, gather, run};
pub use whole::{Outcome, transfer};
