//! Why a row has no answer.

use std::alloc::{AllocError, AllocFailed};

/// Why a row has no answer.
#[derive(Clone, Copy, Debug, PartialEq, Eq)]
pub enum RowFault {
    /// The line is no call of the layer.
    BadRow,
    /// Memory is wanting, and nothing has changed.
    Memory,
    /// Memory was wanting, and something has changed.
    Changed,
}

impl From<AllocError> for RowFault {
    fn from(_: AllocError) -> Self {
        RowFault::Memory
    }
}

impl<T: Drop> From<AllocFailed<T>> for RowFault {
    fn from(_: AllocFailed<T>) -> Self {
        RowFault::Memory
    }
}
