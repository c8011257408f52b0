//! Reading the rows of an evaluation to their end.

ghost use Rattle.std.specs.Prelude.{◌≡◌};
ghost use Rattle.vx_reads.specs.Reads.{AreInFlight};
ghost use Rattle.vx_readers.specs.declared.reading.ReadRowsError.TheVariants as errors;
ghost use Rattle.vx_readers.specs.ReadErrors.{read_error};
ghost use Rattle.vx_readers.specs.Reading.{ReadsRange};

use crate::progress::Progress;
use crate::states::ColumnState;
use std::alloc::{AllocError, AllocFailed};
use thiserror::Error;
use vx_base::{Column, SegmentSource};
use vx_reads::{ColumnPieces, ReaderError};

/// Why rows were not read to their end.
#[derive(Clone, Copy, Debug, PartialEq, Eq, Error)]
pub enum ReadRowsError {
    /// The reader gives no answer.
    #[error("{0}")]
    Reader(ReaderError),
    /// The source had nothing so often as was allowed.
    #[error("the source has stalled")]
    Stalled,
    /// A split of no rows.
    #[error("a split has no rows")]
    ZeroSize,
    /// There is no memory left.
    #[error("out of memory")]
    Memory,
}

impl From<AllocError> for ReadRowsError {
    ghost from_gives = { λ _ e. e ≡ errors.Memory };

    fn from(_error: AllocError) -> ReadRowsError {
        ReadRowsError::Memory
    }
}

impl<T: Drop> From<AllocFailed<T>> for ReadRowsError {
    ghost from_gives = { λ _ e. e ≡ errors.Memory };

    fn from(_error: AllocFailed<T>) -> ReadRowsError {
        ReadRowsError::Memory
    }
}

/// What a reader's error is to a read: want of memory is its own.
fn read_error(error: ReaderError) -> ReadRowsError
    ensures { result ≡ read_error error }
{
    match error {
        ReaderError::Memory => ReadRowsError::Memory,
        ReaderError::ReadFault => ReadRowsError::Reader(error),
        ReaderError::BadSegment(_) => ReadRowsError::Reader(error),
        ReaderError::BadCode { .. } => ReadRowsError::Reader(error),
        ReaderError::EvalFault(_) => ReadRowsError::Reader(error),
        ReaderError::NoLocation(_) => ReadRowsError::Reader(error),
    }
}

/// Polls a state until it has its answer, as often as is allowed. Nothing is left in flight.
pub fn read_range<S: SegmentSource>(
    state: ColumnState<'_>,
    source: &mut S,
    idle_limit: u64,
) -> Result<Column, ReadRowsError>
    requires { AreInFlight state.evaluation.locations state.evaluation.reads (S.state source.old).in_flight }
    ensures { ReadsRange idle_limit result state.entry.evaluation (S.state source.old) (S.state source.new) }
{
    let alloc = state.evaluation.alloc();
    match read_pieces(state, source, idle_limit) {
        Ok(pieces) => match pieces.into_column(alloc) {
            Ok(column) => Ok(column),
            Err(_) => Err(ReadRowsError::Memory),
        },
        Err(error) => Err(error),
    }
}

/// The same, where the answer is the column in pieces.
pub(crate) fn read_pieces<S: SegmentSource>(
    state: ColumnState<'_>,
    source: &mut S,
    idle_limit: u64,
) -> Result<ColumnPieces, ReadRowsError>
    requires { AreInFlight state.evaluation.locations state.evaluation.reads (S.state source.old).in_flight }
    ensures { ReadsRange idle_limit result state.entry.evaluation (S.state source.old) (S.state source.new) }
{
    let mut state = state;
    for turn in 0..idle_limit {
        let _polls = turn;
        match state.poll_pieces(source) {
            Ok(Progress::Ready(pieces)) => {
                source.clear();
                return Ok(pieces);
            }
            Ok(Progress::Pending(next)) => state = next,
            Err(error) => {
                source.clear();
                return Err(read_error(error));
            }
        }
    }
    source.clear();
    Err(ReadRowsError::Stalled)
}
