//! The run of a chunk: the scan of its selected rows, from which its piece comes.

ghost use Rattle.std.specs.Prelude.{◌<◌, [], length, IfOk};
ghost use Rattle.vx_plan.specs.Refs.{number_of};
ghost use Rattle.vx_drive.specs.Plans.{with_projection, ArePlans, IsChunkOf};
ghost use Rattle.vx_chunks.specs.ChunkScans.{IsChunkScan};
ghost use Rattle.vx_chunks.specs.Outcomes.{data_of, AreOwn, CanHandOn, HasOwn, LendsLeaves, RunsChunk, RunsOnly};
ghost use Rattle.vx_chunks.specs.Pieces.{PieceOf};

use crate::kept_values::give;
use crate::outcomes::{ChunkOutcome, HandedOn, Ran};
use std::alloc::{AllocError, Global};
use vx_base::{Column, SegmentSource};
use vx_drive::{Finished, ScanError, ScanPlans, run_over};
use vx_plan::PlanRef;
use vx_splits::SelectedRows;
use vx_steps::{KeptValue, Scan, ScanBuildError, ScanKept, Split, asked_wholes};

/// The scan of a chunk's selected rows, as rows of a plan of the table.
pub(crate) fn scan_of<'a>(
    alloc: Global,
    plans: &'a ScanPlans,
    plan: PlanRef,
    chosen: &SelectedRows,
) -> Result<Scan<'a>, AllocError>
    requires plans { ArePlans plans.now }
    requires known { number_of plan < length plans.now.table }
    requires chunk { IsChunkOf (with_projection plans.now plan) chosen.now }
    ensures { IfOk result (IsChunkScan (with_projection plans.now plan) chosen.now [] [] []) }
{
    let mut splits = Vec::with_capacity(alloc, 1)?;
    splits.push(Split {
        rows: chosen.scope.rows.start..chosen.scope.rows.end,
        mask: chosen.mask.copy(alloc)?,
    })?;
    plans.table.keeps_rules();
    match Scan::try_new(alloc, &plans.table, plan, splits) {
        Ok(scan) => Ok(scan.with_row_offset(plans.row_offset)),
        Err(ScanBuildError::OutOfRange) => unreachable!(),
    }
}

/// The column of the scan's split as a piece of its plan: an empty one where no row is selected.
pub(crate) fn piece_of(
    alloc: Global,
    plans: &ScanPlans,
    plan: PlanRef,
    output: Result<Option<Column>, ScanError>,
) -> Result<Column, ScanError>
    requires { number_of plan < length plans.now.table }
    ensures { PieceOf (with_projection plans.now plan) output result }
{
    match output {
        Ok(Some(column)) => Ok(column),
        Ok(None) => {
            let dtype = plans.table.dtype(plan).copy(alloc)?;
            Ok(Column::empty(alloc, dtype)?)
        }
        Err(error) => Err(error),
    }
}

/// Runs a chunk on a new session over the source. The given values stand in place of the whole values of their plans; one
/// of another dtype or length than its plan's counts for nothing. Whatever it answers, nothing is in flight at the
/// source afterwards.
pub fn run_chunk<S: SegmentSource>(
    alloc: Global,
    plans: &ScanPlans,
    chosen: &SelectedRows,
    source: &mut S,
    given: Vec<KeptValue>,
) -> ChunkOutcome
    requires plans { ArePlans plans.now }
    requires chunk { IsChunkOf plans.now chosen.now }
    ensures { RunsChunk plans.now chosen.now (data_of given.items) result (S.state source.old) (S.state source.new) }
{
    let Ok(scan) = scan_of(alloc, plans, plans.projection, chosen) else {
        source.clear();
        return ChunkOutcome {
            piece: Err(ScanError::Memory),
            used: Vec::new(alloc),
            made: Vec::new(alloc),
        };
    };
    let Finished { output, kept } = run_over(alloc, plans, scan.with_value_cache(given), source);
    let ScanKept { used, made, .. } = kept;
    ChunkOutcome {
        piece: piece_of(alloc, plans, plans.projection, output),
        used,
        made,
    }
}

/// Of the values that the worker made, copies of those that the chunk asks for, which cost no rows where the columns are
/// shared.
fn made_for(
    alloc: Global,
    plans: &ScanPlans,
    chosen: &SelectedRows,
    made: &[KeptValue],
) -> Result<Vec<KeptValue>, AllocError>
    requires plans { ArePlans plans.now }
    requires chunk { IsChunkOf plans.now chosen.now }
    ensures { IfOk result (λ own. AreOwn plans.now chosen.now (data_of made.now) (data_of own.items)) }
{
    let mut own = Vec::new(alloc);
    if made.is_empty() {
        return Ok(own);
    }
    let rows = chosen.scope.rows.start;
    let asked = asked_wholes(alloc, &plans.table, plans.projection, rows, &chosen.mask)?;
    for plan in &asked {
        give(alloc, *plan, made, &mut own)?;
    }
    Ok(own)
}

/// The given values, and behind them those that the worker made and the chunk asks for.
fn given_and_made(
    alloc: Global,
    plans: &ScanPlans,
    chosen: &SelectedRows,
    given: Vec<KeptValue>,
    made: &[KeptValue],
) -> Result<Vec<KeptValue>, AllocError>
    requires plans { ArePlans plans.now }
    requires chunk { IsChunkOf plans.now chosen.now }
    ensures { IfOk result (λ all. HasOwn plans.now chosen.now (data_of given.items) (data_of made.now) (data_of all.items)) }
{
    let mut all = given;
    let mut own = made_for(alloc, plans, chosen, made)?;
    all.append(&mut own)?;
    Ok(all)
}

/// Runs a chunk with what was lent to it, and hands on what the later ones can use: the leaves that the row behind the
/// chunk reads, if it has rows. The given values stand in place of the whole values of their plans, as in `run_chunk`,
/// and are not handed on. Behind them so do the values that the worker made and the chunk asks for, so that no leaf is
/// read for these again. Whatever it answers, nothing is in flight at the source afterwards.
fn run_lent<S: SegmentSource>(
    alloc: Global,
    plans: &ScanPlans,
    chosen: &SelectedRows,
    source: &mut S,
    handed: HandedOn,
    given: Vec<KeptValue>,
) -> Ran
    requires plans { ArePlans plans.now }
    requires chunk { IsChunkOf plans.now chosen.now }
    requires handed { CanHandOn plans.now handed }
    requires lends { LendsLeaves chosen.now handed }
    ensures { RunsOnly plans.now chosen.now handed (data_of given.items) result (S.state source.old) (S.state source.new) }
{
    let Ok(given) = given_and_made(alloc, plans, chosen, given, handed.made.as_slice()) else {
        source.clear();
        return Ran {
            piece: Err(ScanError::Memory),
            handed,
        };
    };
    let Ok(scan) = scan_of(alloc, plans, plans.projection, chosen) else {
        source.clear();
        return Ran {
            piece: Err(ScanError::Memory),
            handed,
        };
    };
    let HandedOn { leaves, made } = handed;
    let scan = scan
        .with_leaves(leaves)
        .with_made(made)
        .with_value_cache(given);
    let Finished { output, kept } = run_over(alloc, plans, scan, source);
    let ScanKept { leaves, made, .. } = kept;
    Ran {
        piece: piece_of(alloc, plans, plans.projection, output),
        handed: HandedOn { leaves, made },
    }
}

/// Runs a chunk with what earlier chunks of the worker handed on, and hands on what the later ones can use. A chunk
/// without rows reads no leaf, so those that were handed on to it are handed on by it.
pub fn run_on<S: SegmentSource>(
    alloc: Global,
    plans: &ScanPlans,
    chosen: &SelectedRows,
    source: &mut S,
    handed: HandedOn,
    given: Vec<KeptValue>,
) -> Ran
    requires plans { ArePlans plans.now }
    requires chunk { IsChunkOf plans.now chosen.now }
    requires handed { CanHandOn plans.now handed }
    ensures { RunsOnly plans.now chosen.now handed (data_of given.items) result (S.state source.old) (S.state source.new) }
{
    if chosen.scope.rows.start < chosen.scope.rows.end {
        return run_lent(alloc, plans, chosen, source, handed, given);
    }
    let HandedOn { leaves, made } = handed;
    let lent = HandedOn {
        leaves: Vec::new(alloc),
        made,
    };
    let Ran { piece, handed } = run_lent(alloc, plans, chosen, source, lent, given);
    let HandedOn { made, .. } = handed;
    let handed = HandedOn { leaves, made };
    Ran { piece, handed }
}
