//! Why a segment was not decoded.

ghost use Rattle.std.specs.Prelude.{◌≡◌};
ghost use Rattle.vx_segments.specs.declared.decode_errors.DecodeError.TheVariants as errors;

use std::alloc::{AllocError, AllocFailed};
use thiserror::Error;

/// Why a segment was not decoded.
#[derive(Debug, Drop, Error)]
pub enum DecodeError {
    /// The bytes spell no values of the dtype for so many rows.
    #[error("the segment does not hold the rows that it should")]
    BadSegment,
    /// There is no memory left.
    #[error("out of memory")]
    Memory,
}

impl From<AllocError> for DecodeError {
    ghost from_gives = { λ _ e. e ≡ errors.Memory };

    fn from(_error: AllocError) -> DecodeError {
        DecodeError::Memory
    }
}

impl<T: Drop> From<AllocFailed<T>> for DecodeError {
    ghost from_gives = { λ _ e. e ≡ errors.Memory };

    fn from(_error: AllocFailed<T>) -> DecodeError {
        DecodeError::Memory
    }
}
