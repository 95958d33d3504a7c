//! Why nothing was rehearsed.
use crate::script::Wrong;
use denial::Denial;
use layout::{BASIC, BLOCKS};
use std::alloc::AllocError;
use std::io;
use thiserror::Error;

const BLOCK_FILE: usize = BLOCKS * BASIC;

#[derive(Debug, Drop, Error)]
pub enum Fault {
    #[error("usage: rehearse RATE FIELD [BLOCKS]")]
    Usage,
    #[error("the rate is none of 0, 1, 2, 3")]
    Rate,
    #[error("the field is neither 0 nor 1")]
    Field,
    #[error("the block file: {0}")]
    Unread(io::Error),
    /// The block file has another length, namely this.
    #[error("the block file has {0} bytes in place of {wanted}", wanted = BLOCK_FILE)]
    Length(usize),
    /// A line of the script, counted from 1, is no command.
    #[error("script line {0}: {1}")]
    Script(u64, Wrong),
    /// The library refused what it should not.
    #[error("denied {0}")]
    Denied(#[from] Denial),
    /// Reading the script or writing the report failed.
    #[error(transparent)]
    Io(#[from] io::Error),
    #[error("out of memory")]
    Memory(#[from(alloc)] AllocError),
}
