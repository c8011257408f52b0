//! Why a step of a scan is refused, and why bytes are.

ghost use Rattle.std.specs.Prelude.{◌≡◌};
ghost use Rattle.vx_steps.specs.declared.errors.StepError.TheVariants as errors;

use std::alloc::{AllocError, AllocFailed};
use thiserror::Error;
use vx_plan::PlanRef;

/// Why a step of a scan is refused, by the bytes that were delivered and the values that were handed in.
#[derive(Clone, Copy, Debug, Error)]
pub enum StepError {
    /// A selected row reads a row of the list.
    #[error("the rows of a list are not supported")]
    Unsupported(PlanRef),
    /// The bytes of the segment spell no rows of a leaf that is read.
    #[error("segment {0} does not hold the rows that it should")]
    BadSegment(u32),
    /// The code of the row of the take is neither null nor the place of a value.
    #[error("the code at row {row} is none of the values")]
    BadCode { node: PlanRef, row: u64 },
    /// The expression of a plan is a fault at that row of the plan.
    #[error("the expression is a fault at row {0}")]
    EvalFault(u64),
    /// There is no memory left.
    #[error("out of memory")]
    Memory,
}

impl From<AllocError> for StepError {
    ghost from_gives = { λ _ e. e ≡ errors.Memory };

    fn from(_error: AllocError) -> StepError {
        StepError::Memory
    }
}

impl<T: Drop> From<AllocFailed<T>> for StepError {
    ghost from_gives = { λ _ e. e ≡ errors.Memory };

    fn from(_error: AllocFailed<T>) -> StepError {
        StepError::Memory
    }
}

/// Why bytes were not taken.
#[derive(Clone, Copy, Debug, Error)]
pub enum DeliverError {
    /// The read was not handed out, or its bytes came already.
    #[error("no such read is outstanding")]
    UnknownRead,
}
