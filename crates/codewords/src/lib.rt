//! Coded blocks and cassette labels in the caller's own bytes, and the lines that tell what became of a block.
#![tactic(auto)]

mod block;
mod label;
mod symbols;
mod verdict;

pub use block::{BLOCK, make_block, mend_block, one_block};
pub use label::{make_label, mend_label};
pub use symbols::mended_bytes_one_way;
pub use verdict::{Verdict, judge, judged_one_way, lines_join, verdict_line, verdict_lines};
