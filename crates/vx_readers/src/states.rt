//! States of evaluations, and their polls.

ghost use Rattle.vx_reads.specs.Reads.{AreInFlight};
ghost use Rattle.vx_readers.specs.States.{ColumnPollGives, IsMask, MaskPollGives, ReadsAreInFlight};

use crate::evaluations::{Evaluating, Turn};
use crate::filterings::Filtering;
use crate::progress::Progress;
use crate::prunings::Pruning;
use vx_base::{Column, Mask, SegmentSource};
use vx_reads::{ColumnPieces, ReaderError};

/// An expression that is projected over selected rows.
#[derive(Drop)]
pub struct ColumnState<'a> {
    pub(crate) evaluation: Evaluating<'a>,
}

impl<'a> ColumnState<'a> {
    /// Asks for the reads that were not asked for yet, and polls those in flight once each. The answer comes once all
    /// of them have come; after an error the other reads stay in flight.
    pub fn poll<S: SegmentSource>(
        self,
        source: &mut S,
    ) -> Result<Progress<Column, ColumnState<'a>>, ReaderError>
        requires { AreInFlight self.evaluation.locations self.evaluation.reads (S.state source.old).in_flight }
        ensures { ColumnPollGives result self.entry.evaluation (S.state source.old) (S.state source.new) }
    {
        let alloc = self.evaluation.alloc();
        match self.poll_pieces(source) {
            Ok(Progress::Ready(pieces)) => match pieces.into_column(alloc) {
                Ok(column) => Ok(Progress::Ready(column)),
                Err(_) => Err(ReaderError::Memory),
            },
            Ok(Progress::Pending(next)) => Ok(Progress::Pending(next)),
            Err(error) => Err(error),
        }
    }

    /// The same, where the answer is the column in pieces.
    pub(crate) fn poll_pieces<S: SegmentSource>(
        self,
        source: &mut S,
    ) -> Result<Progress<ColumnPieces, ColumnState<'a>>, ReaderError>
        requires { AreInFlight self.evaluation.locations self.evaluation.reads (S.state source.old).in_flight }
        ensures { ColumnPollGives result self.entry.evaluation (S.state source.old) (S.state source.new) }
    {
        match self.evaluation.turn(source) {
            Ok(Turn::Waits(evaluation)) => Ok(Progress::Pending(ColumnState { evaluation })),
            Ok(Turn::Came(evaluation)) => match evaluation.pieces() {
                Ok(pieces) => Ok(Progress::Ready(pieces)),
                Err(error) => Err(error),
            },
            Err(error) => Err(error),
        }
    }
}

/// A mask over rows: one that is known, or what a filter makes of one, or what zones leave of one.
#[derive(Drop)]
pub enum Masking<'a> {
    /// The mask.
    Known(Mask),
    /// An expression, at whose rows the mask is kept where it is true.
    Filters(Filtering<'a>),
    /// A predicate: the mask loses the rows of zones that it prunes.
    Prunes(Pruning<'a>),
}

/// A mask that is filtered, or pruned.
#[derive(Drop)]
pub struct MaskState<'a> {
    pub(crate) masking: Masking<'a>,
}

impl<'a> MaskState<'a> {
    /// A mask that is known: it reads nothing.
    pub(crate) fn known(mask: Mask) -> MaskState<'a>
        ensures { IsMask mask result.masking }
    {
        MaskState {
            masking: Masking::Known(mask),
        }
    }

    /// Asks for the reads that were not asked for yet, and polls those in flight once each. The answer comes once all
    /// of them have come; after an error the other reads stay in flight.
    pub fn poll<S: SegmentSource>(
        self,
        source: &mut S,
    ) -> Result<Progress<Mask, MaskState<'a>>, ReaderError>
        requires { ReadsAreInFlight self.masking (S.state source.old).in_flight }
        ensures { MaskPollGives result self.entry.masking (S.state source.old) (S.state source.new) }
    {
        match self.masking {
            Masking::Known(mask) => Ok(Progress::Ready(mask)),
            Masking::Filters(filtering) => match filtering.poll(source) {
                Ok(Progress::Ready(kept)) => Ok(Progress::Ready(kept)),
                Ok(Progress::Pending(next)) => Ok(Progress::Pending(MaskState {
                    masking: Masking::Filters(next),
                })),
                Err(error) => Err(error),
            },
            Masking::Prunes(pruning) => match pruning.poll(source) {
                Ok(Progress::Ready(kept)) => Ok(Progress::Ready(kept)),
                Ok(Progress::Pending(next)) => Ok(Progress::Pending(MaskState {
                    masking: Masking::Prunes(next),
                })),
                Err(error) => Err(error),
            },
        }
    }
}
