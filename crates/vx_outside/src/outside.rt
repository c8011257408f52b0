//! The outside world as three traits: a source of segments, a stream that is read and one that is
//! written. What each call does to them is said in docs/DEFINITIONS.md under "The outside".

ghost use Rattle.std.specs.Prelude.{ℕ, ◌<◌, IsSome};
ghost use Rattle.vx_outside.specs.Sources.{SourceState, location_of, RequestGives, PollGives, Cleared};
ghost use Rattle.vx_outside.specs.Streams.{ReadState, WriteState, ReadGives, WriteGives};

use crate::locations::SegmentLocation;
use thiserror::Error;

/// Why a source of segments gave no answer.
#[derive(Clone, Copy, Debug, PartialEq, Eq, Error)]
pub enum SourceError {
    /// The read failed, and the source's count of faults rose.
    #[error("the read failed")]
    Failed,
    #[error("out of memory")]
    Memory,
}

/// Why a stream gave no answer.
#[derive(Clone, Copy, Debug, PartialEq, Eq, Error)]
pub enum StreamError {
    /// The call failed, and the stream's count of faults rose.
    #[error("the stream failed")]
    Failed,
    #[error("out of memory")]
    Memory,
}

/// A source of segments: reads are started, polled until they end, and cleared.
pub trait SegmentSource {
    /// What its callers know of it.
    ghost state: { Self → SourceState };

    /// Starts the read of the segment `id`, which lies `at` a place of the file. `Ok` is its ticket.
    fn request(&mut self, id: u32, at: SegmentLocation) -> Result<u64, SourceError>
        ensures { RequestGives result at (state self.old) (state self.new) };

    /// Asks how a read goes: `Some` of its bytes ends it, and `None` says that it goes on. After
    /// `Failed` the read is over, and after `Memory` all is as before.
    fn poll(&mut self, ticket: u64) -> Result<Option<Vec<u8>>, SourceError>
        requires { IsSome (location_of ticket (state self.old).in_flight) }
        ensures { PollGives result ticket (state self.old) (state self.new) };

    /// Forgets the reads in flight. Counts and asks stay.
    fn clear(&mut self)
        ensures { Cleared (state self.old) (state self.new) };
}

/// A stream that is read in pieces.
pub trait Source {
    /// What its callers know of it.
    ghost state: { Self → ReadState };

    /// The next piece, of at most `max` bytes; an empty piece is the end. An error gives nothing.
    fn read(&mut self, max: usize) -> Result<Vec<u8>, StreamError>
        requires { 0 < max }
        ensures { ReadGives result max (state self.old) (state self.new) };
}

/// A stream that is written in pieces.
pub trait Sink {
    /// What its callers know of it.
    ghost state: { Self → WriteState };

    /// Takes leading bytes of the piece, at least one of a nonempty piece. `Ok` says how many. An
    /// error takes nothing.
    fn write(&mut self, piece: &[u8]) -> Result<usize, StreamError>
        ensures { WriteGives result piece.now (state self.old) (state self.new) };
}
