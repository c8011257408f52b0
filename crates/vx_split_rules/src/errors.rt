//! Why a range is not split.

ghost use Rattle.std.specs.Prelude.{◌≡◌};
ghost use Rattle.vx_split_rules.specs.declared.errors.SplitError.TheVariants as errors;

use std::alloc::{AllocError, AllocFailed};
use thiserror::Error;

/// Why a range is not split.
#[derive(Clone, Copy, Debug, PartialEq, Eq, Error)]
pub enum SplitError {
    /// A split of no rows.
    #[error("a split has no rows")]
    ZeroSize,
    /// The range ends before it starts, or past the rows.
    #[error("the range is not one of the rows")]
    OutOfRange,
    /// There is no memory left.
    #[error("out of memory")]
    Memory,
}

impl From<AllocError> for SplitError {
    ghost from_gives = { λ _ e. e ≡ errors.Memory };

    fn from(_error: AllocError) -> SplitError {
        SplitError::Memory
    }
}

impl<T: Drop> From<AllocFailed<T>> for SplitError {
    ghost from_gives = { λ _ e. e ≡ errors.Memory };

    fn from(_error: AllocFailed<T>) -> SplitError {
        SplitError::Memory
    }
}
