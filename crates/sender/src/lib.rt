//! The sender: basic blocks in, the words of a whole field out.
#![tactic(auto)]

mod mapping;
mod memory;
mod passes;
mod searches;
mod sender;

pub use layout::{BASIC, BLOCKS};
pub use memory::{MEMORY, loads_stay};
pub use sender::Sender;
