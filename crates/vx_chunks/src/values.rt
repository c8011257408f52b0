//! The reading of the whole values of a plan.

ghost use Rattle.std.specs.Prelude.{◌<◌, [], length, IfOk};
ghost use Rattle.vx_plan.specs.Refs.{number_of};
ghost use Rattle.vx_drive.specs.Plans.{with_projection, ArePlans};
ghost use Rattle.vx_chunks.specs.ChunkScans.{IsChunkScan};
ghost use Rattle.vx_chunks.specs.Values.{all_rows, RunsValues};

use crate::chunks::{piece_of, scan_of};
use std::alloc::{AllocError, Global};
use vx_base::{Column, Mask, SegmentSource};
use vx_drive::{Finished, ScanError, ScanPlans, run_over};
use vx_plan::PlanRef;
use vx_splits::{SelectedRows, WorkScope};
use vx_steps::Scan;

/// The scan of all rows of a plan.
fn whole_scan<'a>(
    alloc: Global,
    plans: &'a ScanPlans,
    plan: PlanRef,
) -> Result<Scan<'a>, AllocError>
    requires plans { ArePlans plans.now }
    requires known { number_of plan < length plans.now.table }
    ensures { IfOk result (IsChunkScan (with_projection plans.now plan) (all_rows plans.now plan) [] [] []) }
{
    let count = plans.table.row_count(plan);
    let mask = Mask::new_true(alloc, count)?;
    let scope = WorkScope {
        file_ordinal: 0,
        rows: 0..count,
    };
    let chosen = SelectedRows { scope, mask };
    scan_of(alloc, plans, plan, &chosen)
}

/// Reads all rows of a plan on a new session over the source: its whole values. Whatever it answers, nothing is in
/// flight at the source afterwards. Its errors are those of a chunk that selects all these rows; it takes memory for the
/// bytes that it reads and for the columns that it makes of them.
pub fn run_values<S: SegmentSource>(
    alloc: Global,
    plans: &ScanPlans,
    plan: PlanRef,
    source: &mut S,
) -> Result<Column, ScanError>
    requires plans { ArePlans plans.now }
    requires known { number_of plan < length plans.now.table }
    ensures { RunsValues plans.now plan result (S.state source.old) (S.state source.new) }
{
    let Ok(scan) = whole_scan(alloc, plans, plan) else {
        source.clear();
        return Err(ScanError::Memory);
    };
    let Finished { output, .. } = run_over(alloc, plans, scan, source);
    piece_of(alloc, plans, plan, output)
}
