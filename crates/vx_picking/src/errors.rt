//! Why codes look up no values.

ghost use Rattle.std.specs.Prelude.{◌≡◌};
ghost use Rattle.vx_picking.specs.declared.errors.LookUpError.TheVariants as errors;

use std::alloc::{AllocError, AllocFailed};
use thiserror::Error;

/// Why codes look up no values.
#[derive(Clone, Copy, Debug, PartialEq, Eq, Error)]
pub enum LookUpError {
    /// The code at that row is neither null nor the place of a value.
    #[error("the code at row {0} is too great")]
    BadCode(u64),
    /// There is no memory left.
    #[error("out of memory")]
    Memory,
}

impl From<AllocError> for LookUpError {
    ghost from_gives = { λ _ e. e ≡ errors.Memory };

    fn from(_error: AllocError) -> LookUpError {
        LookUpError::Memory
    }
}

impl<T: Drop> From<AllocFailed<T>> for LookUpError {
    ghost from_gives = { λ _ e. e ≡ errors.Memory };

    fn from(_error: AllocFailed<T>) -> LookUpError {
        LookUpError::Memory
    }
}
