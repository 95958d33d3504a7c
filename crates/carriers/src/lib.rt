//! What holds lines: the two traits, and the carriers over memory.
#![tactic(auto)]

mod capture;
mod carrier;
mod lent;
mod rates;
mod run;
mod shared;
mod sheet;
mod window;

pub use capture::Capture;
pub use carrier::{Carrier, WritableCarrier};
pub use rates::field_start;
pub use run::{place_for, place_in};
pub use sheet::{Sheet, sheet_fits};
pub use window::{Window, window_fits};
