//! Why an adaptor gave no step, or took no bytes.

ghost use Rattle.std.specs.Prelude.{◌≡◌};
ghost use Rattle.vx_drive.specs.Refusals.{refusal_of};

use thiserror::Error;
use vx_steps::StepError;

/// Why an adaptor gave no step, or took no bytes. A segment is named by its number.
#[derive(Clone, Copy, Debug, Error)]
pub enum AdaptorError {
    /// The scan reads the segment, and it has no location.
    #[error("segment {0} has no location")]
    NoLocation(u32),
    /// The scan refused a step, and not for want of memory.
    #[error(transparent)]
    Step(StepError),
    /// No fetch of that number is outstanding.
    #[error("no such fetch is outstanding")]
    NotOutstanding,
    /// There is no memory left.
    #[error("out of memory")]
    Memory,
}

impl From<StepError> for AdaptorError {
    ghost from_gives = { λ error e. e ≡ refusal_of error };

    fn from(error: StepError) -> AdaptorError {
        match error {
            StepError::Memory => AdaptorError::Memory,
            error => AdaptorError::Step(error),
        }
    }
}
