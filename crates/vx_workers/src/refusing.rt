//! Chunks that are refused before anything is asked for them: those with a row that reads a list, or a segment without a
//! location. So they are told for what they are, whatever bytes would come, and the lowest of them is.

ghost use Rattle.vx_drive.specs.Plans.{ArePlans, IsChunkOf};
ghost use Rattle.vx_chunks.specs.Outcomes.{CanHandOn};
ghost use Rattle.vx_workers.specs.Hindered.{RunsIfUnhindered, TellsHindrance};

use crate::borrowing::{Shared, refuse, run_shared};
use crate::commons::Common;
use std::alloc::Global;
use std::sync::Wait;
use vx_base::SegmentSource;
use vx_chunks::HandedOn;
use vx_drive::{ScanError, ScanPlans};
use vx_plan::PlanRef;
use vx_splits::SelectedRows;
use vx_steps::{Hindrance, first_hindrance};

/// Why the chunk can have no piece, whatever bytes come, if it can't.
fn hindrance_of(plans: &ScanPlans, chosen: &SelectedRows) -> Option<ScanError>
    requires plans { ArePlans plans.now }
    requires chunk { IsChunkOf plans.now chosen.now }
    ensures { TellsHindrance plans.now chosen.now result }
{
    plans.table.keeps_rules();
    let places = plans.locations.as_slice().len();
    let rows = chosen.scope.rows.start;
    match first_hindrance(&plans.table, plans.projection, rows, &chosen.mask, places) {
        Some(Hindrance::List(list)) => Some(ScanError::Unsupported(PlanRef(list))),
        Some(Hindrance::Segment(segment)) => Some(ScanError::NoLocation(segment)),
        None => None,
    }
}

/// Runs a chunk as [`run_shared`] does, unless one of its rows reads a list, or a segment without a location: then it is
/// refused, and nothing is asked for it.
pub(crate) fn run_unhindered<R: Wait, S: SegmentSource>(
    rt: &R,
    alloc: Global,
    common: &Common<'_>,
    chosen: &SelectedRows,
    source: &mut S,
    handed: HandedOn,
) -> Shared
    requires plans { ArePlans common.now.plans.now }
    requires chunk { IsChunkOf common.now.plans.now chosen.now }
    requires handed { CanHandOn common.now.plans.now handed }
    ensures { RunsIfUnhindered common.now.shares common.now.plans.now chosen.now handed result (S.state source.old) (S.state source.new) }
{
    let Some(error) = hindrance_of(common.plans, chosen) else {
        return run_shared(rt, alloc, common, chosen, source, handed);
    };
    refuse(alloc, error, source, handed)
}
