//! The session: requests of many owners over one lent source, and the fetches that are in flight.

ghost use Rattle.std.specs.Prelude.{◌≡◌, ◌<◌, ◌↔◌, [], ◌++◌, length, IsErrOf, MatchOption};
ghost use Rattle.std.specs.List.{All};
ghost use Rattle.std.specs.VecDeque.{deque_len, deque_capacity};
ghost use Rattle.vx_base.specs.Sources.{Cleared};
ghost use Rattle.vx_io.specs.Session.{waits, state_in, fetch_with, empty_table, RequestsTellAsks};
ghost use Rattle.vx_io.specs.Sound.{IsSound, HasWhatIsInFlight};
ghost use Rattle.vx_io.specs.Submits.{IsKnown, IsFirstUnknown, SubmitGives, StartGives};
ghost use Rattle.vx_io.specs.Polls.{SessionPollGives, CompletionGives, PollsAt};

use crate::flights::FetchInFlight;
use crate::ranges::SegmentRanges;
use crate::requests::{Completion, IoOwnerId, IoRequest, IoRequestId, PollError, SubmitError};
use crate::waiting::WaitingTable;
use std::alloc::Global;
use std::collections::VecDeque;
use vx_base::{SegmentLocation, SegmentSource, SourceError};

/// A session over a lent source. It keeps for each segment the announced reads in order and at most one
/// prefetched read, and the fetches in flight in the order of their submission. Its tables grow in `submit`. A
/// session that is let go leaves its reads in flight at the source; `clear` forgets them.
#[derive(Drop)]
pub struct SegmentIoSource<'a, S: SegmentSource> {
    source: &'a mut S,
    ranges: &'a SegmentRanges,
    waiting: WaitingTable,
    fetches: VecDeque<FetchInFlight>,
    ghost sound: { IsSound ranges.now (state_in (waits waiting.segments) fetches.items (S.state source.now)) },
}

/// The first request of a batch whose range no segment has. None where each range is known.
fn first_unknown(ranges: &SegmentRanges, batch: &[IoRequest]) -> Option<usize>
    ensures { MatchOption result (All (IsKnown ranges.now) batch.now) (λ place. IsFirstUnknown ranges.now batch.now place) }
{
    for (place, request) in batch.iter().enumerate() {
        let at = request.target.location();
        if ranges.find(at.offset, at.length).is_none() {
            return Some(place);
        }
    }
    None
}

/// Adds the fetch that took a read behind the others.
fn add_fetch(
    fetches: &mut VecDeque<FetchInFlight>,
    owner: IoOwnerId,
    request: IoRequestId,
    at: SegmentLocation,
    taken: Option<u64>,
)
    requires { deque_len fetches.old < deque_capacity fetches.old }
    ensures { fetches.new.items ≡ fetches.old.items ++ fetch_with owner request at taken }
{
    if let Some(ticket) = taken {
        fetches.push_back_reserved(FetchInFlight {
            owner,
            request,
            at,
            ticket,
        });
    }
}

/// What a run of requests asks for depends on the requests alone.
pub fn requests_tell_asks()
    ensures { RequestsTellAsks }
{}

impl<'a, S: SegmentSource> SegmentIoSource<'a, S> {
    ghost use Rattle.vx_io.specs.Tables.{session_state, KeepsLoans};

    /// A session with nothing waiting and nothing in flight. It clears the source and takes no memory.
    pub fn new(
        alloc: Global,
        source: &'a mut S,
        ranges: &'a SegmentRanges,
    ) -> SegmentIoSource<'a, S>
        ensures same_reference { result.source.ghost_name ≡ source.entry.ghost_name }
        ensures ranges { result.ranges.now ≡ ranges.now }
        ensures empty { (session_state result).table ≡ empty_table }
        ensures cleared { Cleared (S.state source.old) (S.state result.source.now) }
    {
        source.clear();
        ranges.are_apart();
        SegmentIoSource {
            source,
            ranges,
            waiting: WaitingTable::new(alloc),
            fetches: VecDeque::new(alloc),
        }
    }

    /// Does one request of a batch, whose range is known.
    fn start(&mut self, owner: IoOwnerId, request: IoRequest) -> Result<(), SourceError>
        requires { IsKnown self.old.ranges.now request }
        ensures loans { KeepsLoans self.old self.new }
        ensures gives { StartGives self.old.ranges.now owner request result (session_state self.old) (session_state self.new) }
    {
        let at = request.target.location();
        let segment = self.ranges.find(at.offset, at.length).unwrap();
        if self.fetches.reserve(1).is_err() {
            return Err(SourceError::Memory);
        }
        match self.waiting.take(self.source, request.intent, segment, at) {
            Ok(taken) => {
                add_fetch(&mut self.fetches, owner, request.request, at, taken);
                Ok(())
            }
            Err(error) => Err(error),
        }
    }

    /// Polls the fetch at a place in line. One that ended is gone.
    fn poll_at(&mut self, place: usize) -> Result<Option<Completion>, PollError>
        requires { place < length (session_state self.old).table.fetches }
        ensures loans { KeepsLoans self.old self.new }
        ensures gives { PollsAt place self.old.ranges.now result (session_state self.old) (session_state self.new) }
    {
        let fetch = self.fetches[place];
        match self.source.poll(fetch.ticket) {
            Ok(None) => Ok(None),
            Ok(Some(bytes)) => {
                self.fetches.remove(place);
                Ok(Some(Completion {
                    owner: fetch.owner,
                    request: fetch.request,
                    bytes,
                }))
            }
            Err(SourceError::Failed) => {
                self.fetches.remove(place);
                Err(PollError::Source {
                    owner: fetch.owner,
                    request: fetch.request,
                })
            }
            Err(SourceError::Memory) => Err(PollError::Memory),
        }
    }

    /// Takes a batch of requests of one owner, in order. A batch with a range that no segment has starts
    /// nothing; after another refusal the first `taken` requests took effect, and no later one. Nothing is asked of
    /// owners and numbers: that no two fetches share both is only needed for the promise of `drive` that none is
    /// completed twice, and is its condition.
    pub fn submit(&mut self, owner: IoOwnerId, batch: Vec<IoRequest>) -> Result<(), SubmitError>
        ensures loans { KeepsLoans self.old self.new }
        ensures gives { SubmitGives self.old.ranges.now owner batch.items result
            (session_state self.old) (session_state self.new) }
    {
        if let Some(place) = first_unknown(self.ranges, batch.as_slice()) {
            return Err(SubmitError::UnknownRange(place as u64));
        }
        let mut taken: u64 = 0;
        for request in &batch {
            match self.start(owner, *request) {
                Ok(()) => taken += 1,
                Err(SourceError::Failed) => return Err(SubmitError::Source { taken }),
                Err(SourceError::Memory) => return Err(SubmitError::Memory { taken }),
            }
        }
        Ok(())
    }

    /// Polls the fetches in flight in the order of their submission until one ends. `None` says that none is
    /// in flight, or that each goes on.
    pub fn poll(&mut self) -> Result<Option<Completion>, PollError>
        ensures loans { KeepsLoans self.old self.new }
        ensures gives { SessionPollGives self.old.ranges.now result (session_state self.old) (session_state self.new) }
    {
        for place in 0..self.fetches.len() {
            match self.poll_at(place) {
                Ok(None) => {}
                ended => return ended,
            }
        }
        Ok(None)
    }

    /// As `poll`, but where no fetch is in flight it answers `NothingInFlight`.
    pub fn poll_completion(&mut self) -> Result<Option<Completion>, PollError>
        ensures loans { KeepsLoans self.old self.new }
        ensures nothing { IsErrOf result PollError.NothingInFlight ↔ ((session_state self.old).table.fetches ≡ []) }
        ensures gives { CompletionGives self.old.ranges.now result (session_state self.old) (session_state self.new) }
    {
        if self.fetches.is_empty() {
            return Err(PollError::NothingInFlight);
        }
        self.poll()
    }

    /// How many fetches are in flight. What is in flight at the source is exactly what the table has. It takes no
    /// memory.
    pub fn in_flight(&self) -> u64
        ensures count { result ≡ length (session_state self.now).table.fetches }
        ensures reads { HasWhatIsInFlight (session_state self.now) }
    {
        self.fetches.len() as u64
    }

    /// Forgets every read and clears the source. Its counts and asks stay. It takes no memory.
    pub fn clear(&mut self)
        ensures loans { KeepsLoans self.old self.new }
        ensures empty { (session_state self.new).table ≡ empty_table }
        ensures cleared { Cleared (S.state self.old.source.now) (S.state self.new.source.now) }
    {
        self.waiting.clear();
        self.fetches.clear();
        self.source.clear();
    }

    /// Ends the session and gives its lent source back as it stands, with what is in flight there. It takes no
    /// memory.
    pub fn into_source(self) -> &'a mut S
        ensures same_reference { result.ghost_name ≡ self.entry.source.ghost_name }
        ensures same { result.now ≡ self.entry.source.now }
    {
        let SegmentIoSource { source, .. } = self;
        source
    }

    /// Does nothing: the reads of an owner stay until they end or the session is cleared.
    pub fn release(&mut self, _owner: IoOwnerId)
        ensures { self.new ≡ self.old }
    {}
}
