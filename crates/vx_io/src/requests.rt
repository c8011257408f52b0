//! What is asked of a session, and what it gives back.

ghost use Rattle.std.specs.Prelude.{◌≡◌};
ghost use Rattle.vx_io.specs.Session.{location_of_target};

use thiserror::Error;
use vx_base::SegmentLocation;

/// What a request is for.
#[derive(Clone, Copy, Debug, PartialEq, Eq, Hash)]
pub enum IoIntent {
    /// A read that will be wanted: it is started and waits in line.
    Announce,
    /// A read that will soon be fetched: one at most waits for each segment.
    Prefetch,
    /// A read whose bytes are wanted: it ends in a completion.
    Fetch,
}

/// The number of a request, which its owner chose.
#[derive(Clone, Copy, Debug, PartialEq, Eq, Hash)]
pub struct IoRequestId(pub u32);

/// Who a request belongs to.
#[derive(Clone, Copy, Debug, PartialEq, Eq, Hash)]
pub struct IoOwnerId(pub u32);

/// What a request reads.
#[derive(Clone, Copy, Debug, PartialEq, Eq, Hash)]
pub enum IoTarget {
    /// `len` bytes of the file from byte `offset` on, with an alignment that is handed on.
    Range {
        offset: u64,
        len: u32,
        alignment: u32,
    },
}

impl IoTarget {
    /// The location that a source is asked for.
    pub(crate) fn location(self) -> SegmentLocation
        ensures { result ≡ location_of_target self }
    {
        let IoTarget::Range {
            offset,
            len,
            alignment,
        } = self;
        SegmentLocation {
            offset,
            length: len,
            alignment,
        }
    }
}

/// One request of a batch.
#[derive(Clone, Copy, Debug, PartialEq, Eq, Hash)]
pub struct IoRequest {
    pub intent: IoIntent,
    pub request: IoRequestId,
    pub target: IoTarget,
}

/// The bytes of a fetch that ended.
#[derive(Debug, Drop)]
pub struct Completion {
    pub owner: IoOwnerId,
    pub request: IoRequestId,
    pub bytes: Vec<u8>,
}

/// Why a batch was not taken whole.
#[derive(Clone, Copy, Debug, PartialEq, Eq, Error)]
pub enum SubmitError {
    /// The first request of the batch, counted from 0, whose range no segment has. Nothing was started.
    #[error("no segment has the range of request {0}")]
    UnknownRange(u64),
    /// The source failed: the first `taken` requests took effect, and no later one.
    #[error("the source failed behind {taken} requests")]
    Source { taken: u64 },
    /// There is no memory left: the first `taken` requests took effect, and no later one.
    #[error("out of memory behind {taken} requests")]
    Memory { taken: u64 },
}

/// Why a poll gave no answer.
#[derive(Clone, Copy, Debug, PartialEq, Eq, Error)]
pub enum PollError {
    /// No fetch is in flight.
    #[error("no fetch is in flight")]
    NothingInFlight,
    /// The source failed at this fetch, which is gone.
    #[error("the source failed")]
    Source {
        owner: IoOwnerId,
        request: IoRequestId,
    },
    /// There is no memory left; all fetches are still in flight.
    #[error("out of memory")]
    Memory,
}
