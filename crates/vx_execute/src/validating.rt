//! What becomes of the chunks that ran with borrowed values, once all workers are done: they are validated in their
//! order, and all pieces are put into the order of their chunks.

ghost use Rattle.std.specs.Prelude.{◌≡◌, ◌≤◌, ◌<◌, ℕ, [], length};
ghost use Rattle.std.specs.Bool.{MatchBool};
ghost use Rattle.std.specs.List.{All, AllByRecursion};
ghost use Rattle.std.specs.List.Sorted.{IsNonDecreasingBy};
ghost use Rattle.vx_plan.specs.Tables.{IsGoodTable};
ghost use Rattle.vx_steps.specs.Held.{AreTyped};
ghost use Rattle.vx_claims.specs.Apart.{times};
ghost use Rattle.vx_drive.specs.Plans.{ArePlans, IsChunkOf};
ghost use Rattle.vx_chunks.specs.Outcomes.{data_of};
ghost use Rattle.vx_workers.specs.Merges.{IsBelow};
ghost use Rattle.vx_workers.specs.Borrowers.{borrower_chunks, IsBorrower};
ghost use Rattle.vx_execute.specs.Validated.{IsNotBelow, KeepsPiece, ValidatesAll, Sorts, SortsBorrowers};
ghost use Rattle.vx_execute.specs.Validating.{Validates};

use crate::outcomes::Outcome;
use crate::rerunning::{Checked, validate_one};
use std::alloc::Global;
use vx_base::{Column, SegmentSource};
use vx_drive::{ScanError, ScanPlans};
use vx_splits::SelectedRows;
use vx_workers::{Borrower, ChunkError, Joined, Piece, want_of_memory};

/// What is validated so far: the pieces; what was made sure of for them; and why the lowest chunk that failed has no
/// piece.
#[derive(Drop)]
pub(crate) struct Validated {
    pub(crate) pieces: Vec<Piece>,
    pub(crate) checked: Checked,
    pub(crate) error: Option<ChunkError>,
}

/// Whether the number is below that of the chunk that failed.
fn is_below(error: Option<ChunkError>, number: u64) -> bool
    ensures { MatchBool result (IsBelow error number) (IsNotBelow error number) }
{
    match error {
        Some(one) => number < one.chunk,
        None => true,
    }
}

/// Puts the piece of a chunk behind the others, if the chunk has one.
fn keep_piece(
    pieces: &mut Vec<Piece>,
    number: u64,
    validated: Result<Column, ScanError>,
) -> Result<(), ScanError>
    ensures { KeepsPiece number validated result pieces.old.items pieces.new.items }
{
    match validated {
        Ok(column) => {
            pieces.push(Piece {
                chunk: number,
                column,
            })?;
            Ok(())
        }
        Err(error) => Err(error),
    }
}

/// Validates the chunks in the order of the borrowers, up to the first one that fails, or that lies no lower than the
/// chunk that failed before.
fn validate_all<S: SegmentSource>(
    alloc: Global,
    plans: &ScanPlans,
    chunks: &[SelectedRows],
    borrowers: Vec<Borrower>,
    validated: &mut Validated,
    source: &mut S,
)
    requires plans { ArePlans plans.now }
    requires good { IsGoodTable plans.now.table }
    requires chunks { AllByRecursion (IsChunkOf plans.now) chunks.now }
    requires borrowers { All (IsBorrower plans.now chunks.now) borrowers.items }
    requires ordered { IsNonDecreasingBy (λ borrower. borrower.chunk) borrowers.items }
    requires once { (x : ℕ) → times x (borrower_chunks borrowers.items) ≤ 1 }
    requires typed { AreTyped plans.now.table (data_of validated.old.checked.right.items) }
    requires none { validated.old.checked.reruns.items ≡ [] }
    ensures { ValidatesAll plans.now chunks.now borrowers.items validated.old validated.new (S.state source.old) (S.state source.new) }
{
    for borrower in borrowers {
        let number = borrower.chunk;
        if !is_below(validated.error, number) {
            return;
        }
        let chosen = &chunks[number as usize];
        let one = validate_one(
            alloc,
            plans,
            chosen,
            borrower,
            &mut validated.checked,
            source,
        );
        if let Err(error) = keep_piece(&mut validated.pieces, number, one) {
            validated.error = Some(ChunkError {
                chunk: number,
                error,
            });
            return;
        }
    }
}

/// Brings the borrowers into the order of their chunks, if there is memory for it.
fn sort_borrowers(borrowers: &mut Vec<Borrower>) -> bool
    ensures { SortsBorrowers result borrowers.old.items borrowers.new.items }
{
    match borrowers.sort_by_key(|borrower| borrower.chunk) {
        Ok(()) => true,
        Err(_) => false,
    }
}

/// Brings the pieces into the order of their chunks. Where there is no memory for it, no piece is left.
fn sort(pieces: &mut Vec<Piece>) -> bool
    ensures sorted { IsNonDecreasingBy (λ piece. piece.chunk) pieces.new.items }
    ensures gives { Sorts result pieces.old.items pieces.new.items }
{
    match pieces.sort_by_key(|piece| piece.chunk) {
        Ok(()) => true,
        Err(_) => {
            pieces.clear();
            false
        }
    }
}

/// Validates the chunks that ran with borrowed values, the lowest first, up to the first one that fails, or that lies
/// no lower than a chunk that failed before, and puts all pieces into the order of their chunks.
pub(crate) fn validate<S: SegmentSource>(
    alloc: Global,
    plans: &ScanPlans,
    chunks: &[SelectedRows],
    joined: Joined,
    source: &mut S,
) -> Outcome
    requires plans { ArePlans plans.now }
    requires chunks { AllByRecursion (IsChunkOf plans.now) chunks.now }
    requires borrowers { All (IsBorrower plans.now chunks.now) joined.borrowers.items }
    requires once { (x : ℕ) → times x (borrower_chunks joined.borrowers.items) ≤ 1 }
    requires typed { AreTyped plans.now.table (data_of joined.made.items) }
    ensures { Validates plans.now chunks.now joined result (S.state source.old) (S.state source.new) }
{
    plans.table.keeps_rules();
    let Joined {
        claimed,
        pieces,
        mut borrowers,
        made,
        error,
    } = joined;
    if !sort_borrowers(&mut borrowers) {
        return Outcome {
            pieces: Vec::new(alloc),
            claimed,
            reruns: Vec::new(alloc),
            error: Some(want_of_memory()),
        };
    }
    let mut validated = Validated {
        pieces,
        checked: Checked {
            right: made,
            reruns: Vec::new(alloc),
        },
        error,
    };
    validate_all(alloc, plans, chunks, borrowers, &mut validated, source);
    let Validated {
        mut pieces,
        checked,
        mut error,
    } = validated;
    let Checked { right: _, reruns } = checked;
    if !sort(&mut pieces) {
        error = Some(want_of_memory());
    }
    Outcome {
        pieces,
        claimed,
        reruns,
        error,
    }
}
