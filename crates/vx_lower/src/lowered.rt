//! What a tree is lowered to.

use vx_plan::{PlanRef, PlanTable};

/// A table of plans, and the plan of the whole.
#[derive(Drop)]
pub struct Lowered {
    pub table: PlanTable,
    pub root: PlanRef,
}
