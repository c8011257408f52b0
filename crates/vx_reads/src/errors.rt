//! Why a reader gives no answer.

ghost use Rattle.std.specs.Prelude.{◌≡◌};
ghost use Rattle.vx_reads.specs.declared.errors.ReaderError.TheVariants as errors;

use std::alloc::{AllocError, AllocFailed};
use thiserror::Error;

/// Why the rows of a range can't be given.
#[derive(Clone, Copy, Debug, PartialEq, Eq, Error)]
pub enum ReaderError {
    /// A read failed, and the source's count of faults rose.
    #[error("a read failed")]
    ReadFault,
    /// The bytes of a segment spell no values for a leaf that names it.
    #[error("segment {0} does not hold its rows")]
    BadSegment(u32),
    /// The code at that row of a dictionary is neither null nor the place of a value.
    #[error("the code at row {row} of node {node} is too great")]
    BadCode { node: u32, row: u64 },
    /// The expression is a fault at that row; where a filter works a strict one out over the values of a dictionary, at the
    /// value of that number.
    #[error("the expression is a fault at row {0}")]
    EvalFault(u64),
    /// A segment has no location.
    #[error("segment {0} has no location")]
    NoLocation(u32),
    /// There is no memory left.
    #[error("out of memory")]
    Memory,
}

impl From<AllocError> for ReaderError {
    ghost from_gives = { λ _ e. e ≡ errors.Memory };

    fn from(_error: AllocError) -> ReaderError {
        ReaderError::Memory
    }
}

impl<T: Drop> From<AllocFailed<T>> for ReaderError {
    ghost from_gives = { λ _ e. e ≡ errors.Memory };

    fn from(_error: AllocFailed<T>) -> ReaderError {
        ReaderError::Memory
    }
}
