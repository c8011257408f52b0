//! Requests as words, and what calls of a session answer.

ghost use Rattle.std.specs.Prelude.{◌≡◌};

use crate::fields::place_of;
use std::alloc::{AllocError, Global};
use vx_base::SegmentLocation;
use vx_io::{Completion, IoIntent, IoOwnerId, IoRequest, IoRequestId, IoTarget, PollError};

pub(crate) const OWNER: IoOwnerId = IoOwnerId(7);

/// The request of a location.
pub(crate) fn request(intent: IoIntent, number: u32, at: SegmentLocation) -> IoRequest
    ensures { result.request.0 ≡ number }
{
    IoRequest {
        intent,
        request: IoRequestId(number),
        target: IoTarget::Range {
            offset: at.offset,
            len: at.length,
            alignment: at.alignment,
        },
    }
}

/// The batch of these requests between commas, as `announce:0@4+2,fetch:1@0+2`.
pub(crate) fn batch_of(alloc: Global, words: &str) -> Result<Vec<IoRequest>, AllocError> {
    let mut batch = Vec::new(alloc);
    for word in words.split(',') {
        let (intent, rest) = word.split_once(':').unwrap_or((word, ""));
        let (number, range) = rest.split_once('@').unwrap_or((rest, ""));
        let intent = match intent {
            "announce" => IoIntent::Announce,
            "prefetch" => IoIntent::Prefetch,
            _ => IoIntent::Fetch,
        };
        let number = number.parse::<u32>().unwrap_or(0);
        batch.push(request(intent, number, place_of(range)))?;
    }
    Ok(batch)
}

/// The owner, the number and the bytes of a completion, as `7.0 0a0b`.
pub(crate) fn write_completion(
    completion: &Completion,
    out: &mut String,
) -> Result<(), AllocError> {
    write!(out, "{}.{} ", completion.owner.0, completion.request.0)?;
    for byte in completion.bytes.as_slice() {
        write!(out, "{byte:02x}")?;
    }
    Ok(())
}

/// What a poll failed by, with the fetch that it ended.
pub(crate) fn write_failed(error: PollError, out: &mut String) -> Result<(), AllocError> {
    match error {
        PollError::Source { owner, request } => { write!(out, "{}.{} {error}", owner.0, request.0) }
        _ => write!(out, "{error}"),
    }
}
