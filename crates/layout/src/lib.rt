//! The layout of a field: ten-bit words, where every coded byte stands, and every word of a mapped field.
#![tactic(auto)]

mod block;
mod field;
mod memory;
mod places;
mod words;

pub use block::{BASIC, BLOCKS, BlockName, PACKET, PACKETS};
pub use field::{FILLER, TYPE_WORD, field_worded, first_found, mark_word};
pub use memory::{clear, clear_marks, whole};
pub use places::{
    CodedByte, LINE, LINES, coded_byte_at, place_of, questions_undo, second_line, stream_covered,
};
pub use words::{received_byte, sent_word, words_apart};
