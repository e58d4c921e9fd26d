//! The answer for want of memory, and how a failed allocation of std becomes this answer.

use std::alloc::{AllocError, AllocFailed};

/// There is no memory left. This answer may come at any allocation. What was lent to the call is then as it was, unless
/// the call says otherwise.
#[derive(Clone, Copy, Debug, PartialEq, Eq)]
pub struct Memory;

impl From<AllocError> for Memory {
    fn from(_: AllocError) -> Self {
        Memory
    }
}

impl<T: Drop> From<AllocFailed<T>> for Memory {
    fn from(_: AllocFailed<T>) -> Self {
        Memory
    }
}
