//! What all chunks of a scan share.

use vx_base::SegmentLocation;
use vx_io::SegmentRanges;
use vx_plan::{PlanRef, PlanTable};

/// The table of plans and in it the plan of the projection; where each segment lies, and which segment has a range;
/// what is added to the numbers of rows; and how often a source may answer that a read goes on, from one completion to
/// the next.
#[derive(Drop)]
pub struct ScanPlans {
    pub table: PlanTable,
    pub projection: PlanRef,
    pub locations: Vec<SegmentLocation>,
    pub ranges: SegmentRanges,
    pub row_offset: u64,
    pub idle_limit: u64,
}
