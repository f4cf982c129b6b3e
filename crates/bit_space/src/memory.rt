//! Allocation failures.

use std::alloc::AllocError;
use thiserror::Error;

/// An allocation failed. It displays the line that reports it.
#[derive(Clone, Copy, Debug, PartialEq, Eq, Error)]
#[error("fault Memory")]
pub struct Memory;

impl From<AllocError> for Memory {
    fn from(_refused: AllocError) -> Memory {
        Memory
    }
}
