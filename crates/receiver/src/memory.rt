//! The bytes that a receiver works in.
use layout::{LINE, LINES};

// Where the marks begin: behind the bytes of all lines.
pub(crate) const MARKS: usize = LINES * LINE;

/// How many bytes a receiver works in.
pub const MEMORY: usize = MARKS + LINES;
