//! What a run does to its session: it submits a batch of fetches, and waits for one to end.

ghost use Rattle.std.specs.Prelude.{◌<◌, length};
ghost use Rattle.std.specs.List.{All};
ghost use Rattle.vx_io.specs.Submits.{IsKnown};
ghost use Rattle.vx_io.specs.Fetches.{AllFetch, NothingWaits};
ghost use Rattle.vx_io.specs.Tables.{session_state, KeepsLoans};
ghost use Rattle.vx_drive.specs.Waits.{SendGives, WaitGives};

use crate::errors::ScanError;
use vx_base::SegmentSource;
use vx_io::{Completion, IoOwnerId, IoRequest, PollError, SegmentIoSource, SubmitError};

/// The owner of all fetches of a run.
const OWNER: IoOwnerId = IoOwnerId(0);

/// Submits a batch of fetches whose ranges are known, where nothing waits.
pub(crate) fn send<S: SegmentSource>(
    session: &mut SegmentIoSource<'_, S>,
    batch: Vec<IoRequest>,
) -> Result<(), ScanError>
    requires known { All (IsKnown session.old.ranges.now) batch.items }
    requires fetches { AllFetch batch.items }
    requires nothing_waits { NothingWaits (session_state session.old).table }
    ensures loans { KeepsLoans session.old session.new }
    ensures gives { SendGives batch.items result (session_state session.old) (session_state session.new) }
{
    match session.submit(OWNER, batch) {
        Ok(()) => Ok(()),
        Err(SubmitError::UnknownRange(_)) => unreachable!(),
        Err(SubmitError::Source { .. }) => Err(ScanError::ReadFault),
        Err(SubmitError::Memory { .. }) => Err(ScanError::Memory),
    }
}

/// Polls until a fetch ends. The source stalls once it has answered as often as the limit that a read goes on:
/// a poll of the session in which nothing ends has each fetch in flight answered so.
pub(crate) fn next_completion<S: SegmentSource>(
    session: &mut SegmentIoSource<'_, S>,
    idle_limit: u64,
) -> Result<Completion, ScanError>
    requires { 0 < length (session_state session.old).table.fetches }
    ensures loans { KeepsLoans session.old session.new }
    ensures gives { WaitGives idle_limit result (session_state session.old) (session_state session.new) }
{
    let mut idle: u64 = 0;
    'waiting: while idle < idle_limit {
        let polled = session.in_flight();
        match session.poll_completion() {
            Ok(Some(completion)) => return Ok(completion),
            Ok(None) => idle = idle.saturating_add(polled),
            Err(PollError::Source { .. }) => return Err(ScanError::ReadFault),
            Err(PollError::Memory) => return Err(ScanError::Memory),
            Err(PollError::NothingInFlight) => unreachable!(),
        }
    }
    Err(ScanError::Stalled)
}
