//! Binding: which dtype an expression has over the dtype of its root.

ghost use Rattle.std.specs.Prelude.{◌≡◌};
ghost use Rattle.vx_expr.specs.declared.binding.BindError.TheVariants as errors;

use std::alloc::{AllocError, AllocFailed};
use thiserror::Error;
use vx_base::Text;

/// Why an expression has no dtype.
#[derive(Debug, Drop, Error)]
pub enum BindError {
    /// A struct has no field of this name.
    #[error("there is no field \"{}\"", .0.as_str())]
    NoField(Text),
    /// The part of this number, counted from 0 with the whole before its parts, breaks the rule of its
    /// form: an operand has another dtype, a literal's value doesn't fit a leaf dtype, or two names of a
    /// struct are equal.
    #[error("part {0} breaks the rule of its form")]
    TypeMismatch(u64),
    /// The expression nests deeper than 64 levels.
    #[error("the expression is too deep")]
    TooDeep,
    /// There is no memory left.
    #[error("out of memory")]
    Memory,
}

impl From<AllocError> for BindError {
    ghost from_gives = { λ _ e. e ≡ errors.Memory };

    fn from(_error: AllocError) -> BindError {
        BindError::Memory
    }
}

impl<T: Drop> From<AllocFailed<T>> for BindError {
    ghost from_gives = { λ _ e. e ≡ errors.Memory };

    fn from(_error: AllocFailed<T>) -> BindError {
        BindError::Memory
    }
}
