//! Why a column was not encoded.

ghost use Rattle.std.specs.Prelude.{◌≡◌};
ghost use Rattle.vx_segments.specs.declared.encode_errors.EncodeError.TheVariants as errors;

use std::alloc::{AllocError, AllocFailed};
use thiserror::Error;

/// Why a column was not encoded.
#[derive(Debug, Drop, Error)]
pub enum EncodeError {
    /// The first row, counted from 0, that has another value than row 0, where a constant was asked for.
    #[error("row {0} has another value than row 0")]
    NotConstant(u64),
    /// There is no memory left.
    #[error("out of memory")]
    Memory,
}

impl From<AllocError> for EncodeError {
    ghost from_gives = { λ _ e. e ≡ errors.Memory };

    fn from(_error: AllocError) -> EncodeError {
        EncodeError::Memory
    }
}

impl<T: Drop> From<AllocFailed<T>> for EncodeError {
    ghost from_gives = { λ _ e. e ≡ errors.Memory };

    fn from(_error: AllocFailed<T>) -> EncodeError {
        EncodeError::Memory
    }
}
