//! Why a line does not count.
use crate::kind::Kind;
use std::alloc::AllocError;
use thiserror::Error;

#[derive(Clone, Copy, Debug, Error)]
pub enum Fault {
    #[error("{0} disagrees")]
    Disagrees(Kind),
    #[error("malformed")]
    Malformed,
    #[error(transparent)]
    Memory(#[from(alloc)] AllocError),
}
