//! The texts of the errors.

use std::alloc::AllocError;
use vx_io::{DriveError, IoOwnerId, IoRequestId, PollError, SubmitError};

/// The answer to `text ERROR`: what the error says.
pub(crate) fn write_text(name: &str, out: &mut String) -> Result<(), AllocError> {
    let (owner, request) = (IoOwnerId(7), IoRequestId(3));
    match name {
        "submit unknown range" => write!(out, "{}", SubmitError::UnknownRange(3)),
        "submit source" => write!(out, "{}", SubmitError::Source { taken: 2 }),
        "submit memory" => write!(out, "{}", SubmitError::Memory { taken: 2 }),
        "poll nothing in flight" => write!(out, "{}", PollError::NothingInFlight),
        "poll source" => write!(out, "{}", PollError::Source { owner, request }),
        "poll memory" => write!(out, "{}", PollError::Memory),
        "drive submit" => write!(out, "{}", DriveError::Submit(SubmitError::UnknownRange(3))),
        "drive poll" => write!(out, "{}", DriveError::Poll(PollError::NothingInFlight)),
        "drive memory" => write!(out, "{}", DriveError::Memory),
        _ => Ok(()),
    }
}
