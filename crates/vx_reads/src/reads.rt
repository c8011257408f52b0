//! The reads of a state: each of a segment, in the order in which the rows need them.

ghost use Rattle.std.specs.Prelude.{◌≡◌, ◌+◌, ℕ, Some, Ok, Err, IfOk};
ghost use Rattle.vx_reads.specs.Fresh.{AreFresh};
ghost use Rattle.vx_reads.specs.Reads.{AreInFlight, IsAtSource, PollGivesOne, PollsAll, PollsReads, StartGivesOne, StartsAll};

use crate::errors::ReaderError;
use std::alloc::{AllocError, Global};
use vx_base::{SegmentLocation, SegmentSource, SourceError};

/// How far the read of a segment has come.
#[derive(Drop)]
pub enum ReadState {
    /// The source was not asked yet.
    NotAsked,
    /// It is in flight under that ticket.
    InFlight(u64),
    /// Its bytes came.
    Came(Vec<u8>),
}

/// The read of a segment.
#[derive(Drop)]
pub struct SegmentRead {
    pub segment: u32,
    pub state: ReadState,
}

impl SegmentRead {
    /// Asks the source, where it was not asked yet.
    fn start<S: SegmentSource>(
        &mut self,
        locations: &[SegmentLocation],
        source: &mut S,
    ) -> Result<(), ReaderError>
        ensures { StartGivesOne locations.now result self.old self.new (S.state source.old) (S.state source.new) }
    {
        if !matches!(&self.state, ReadState::NotAsked) {
            return Ok(());
        }
        let at = match locations.get(self.segment as usize) {
            Some(at) => *at,
            None => return Err(ReaderError::NoLocation(self.segment)),
        };
        match source.request(self.segment, at) {
            Ok(ticket) => {
                self.state = ReadState::InFlight(ticket);
                Ok(())
            }
            Err(SourceError::Failed) => Err(ReaderError::ReadFault),
            Err(SourceError::Memory) => Err(ReaderError::Memory),
        }
    }
}

impl SegmentRead {
    /// Polls the source, where the read is in flight. Whether it goes on.
    fn poll<S: SegmentSource>(&mut self, source: &mut S) -> Result<bool, ReaderError>
        requires { IsAtSource self.old.state (S.state source.old) }
        ensures { PollGivesOne result self.old self.new (S.state source.old) (S.state source.new) }
    {
        let ticket = match self.state {
            ReadState::InFlight(ticket) => ticket,
            _ => return Ok(false),
        };
        match source.poll(ticket) {
            Ok(None) => Ok(true),
            Ok(Some(bytes)) => {
                self.state = ReadState::Came(bytes);
                Ok(false)
            }
            Err(SourceError::Failed) => Err(ReaderError::ReadFault),
            Err(SourceError::Memory) => Err(ReaderError::Memory),
        }
    }
}

/// Asks the source for each read that it was not asked for yet.
fn start_all<S: SegmentSource>(
    locations: &[SegmentLocation],
    reads: &mut Vec<SegmentRead>,
    source: &mut S,
) -> Result<(), ReaderError>
    requires { AreInFlight locations.now reads.old.items (S.state source.old).in_flight }
    ensures { StartsAll locations.now result reads.old.items reads.new.items (S.state source.old) (S.state source.new) }
{
    for place in 0..reads.len() {
        match reads[place].start(locations, source) {
            Ok(()) => {}
            Err(error) => return Err(error),
        }
    }
    Ok(())
}

/// Polls each read in flight once, and counts those that go on.
fn poll_all<S: SegmentSource>(
    locations: &[SegmentLocation],
    reads: &mut Vec<SegmentRead>,
    source: &mut S,
) -> Result<u64, ReaderError>
    requires { AreInFlight locations.now reads.old.items (S.state source.old).in_flight }
    ensures { PollsAll locations.now result reads.old.items reads.new.items (S.state source.old) (S.state source.new) }
{
    let _locations = locations;
    let mut waiting: u64 = 0;
    for place in 0..reads.len() {
        match reads[place].poll(source) {
            Ok(goes_on) => {
                if goes_on {
                    waiting += 1;
                }
            }
            Err(error) => return Err(error),
        }
    }
    Ok(waiting)
}

/// Asks for each read that was not asked for yet, and polls each one in flight once. How many go on.
pub fn poll_reads<S: SegmentSource>(
    locations: &[SegmentLocation],
    reads: &mut Vec<SegmentRead>,
    source: &mut S,
) -> Result<u64, ReaderError>
    requires { AreInFlight locations.now reads.old.items (S.state source.old).in_flight }
    ensures { PollsReads locations.now result reads.old.items reads.new.items (S.state source.old) (S.state source.new) }
{
    match start_all(locations, reads, source) {
        Ok(()) => poll_all(locations, reads, source),
        Err(error) => Err(error),
    }
}

/// The reads of these segments, none of which was asked for.
pub fn fresh_reads(alloc: Global, needs: &[u32]) -> Result<Vec<SegmentRead>, AllocError>
    ensures { IfOk result (λ reads. AreFresh needs.now reads.items) }
{
    let mut reads = Vec::with_capacity(alloc, needs.len())?;
    for segment in needs {
        reads.push(SegmentRead {
            segment: *segment,
            state: ReadState::NotAsked,
        })?;
    }
    Ok(reads)
}
