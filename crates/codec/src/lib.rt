//! Check symbols, syndromes and mending for the Reed-Solomon code with four check symbols, in one text for every field.
#![tactic(auto)]

mod checks;
mod mender;
mod record;
mod remainder;
mod roots;
mod syndromes;

pub use checks::check_symbols;
pub use mender::{mend, mended_one_way};
pub use record::MendRecord;
pub use syndromes::{Syndromes, syndromes_of};
