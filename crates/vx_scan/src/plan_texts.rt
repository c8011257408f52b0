//! The text of the plan that a projection of a layout has.

ghost use Rattle.std.specs.Prelude.{◌≡◌, IfOk};
ghost use Rattle.vx_expr.specs.Bound.{IsBoundTo};
ghost use Rattle.vx_layout.specs.Trees.{head_of, subtree};
ghost use Rattle.vx_scan.specs.PlanTexts.{projection_of, IsPlanText};

use crate::file_plans::plan_layout;
use std::alloc::{AllocError, Global};
use vx_expr::BoundExpression;
use vx_layout::LayoutTree;
use vx_lower::{Lowered, PlanTreeDisplay};

/// The text of the plan that a scan of the layout runs for the projection: a line for each plan with its kind, its dtype,
/// its rows and its expression, and below it the lines of its children. No row is read.
pub fn plan_text(
    alloc: Global,
    layout: &LayoutTree,
    projection: &BoundExpression,
) -> Result<Vec<u8>, AllocError>
    requires bound { IsBoundTo projection.now (head_of (subtree layout.now 0)).dtype }
    ensures { IfOk result (λ text. IsPlanText (projection_of layout.now projection.now) text.items) }
{
    let Lowered { table, root } = plan_layout(alloc, layout, projection)?;
    table.keeps_rules();
    PlanTreeDisplay::default_display(alloc, &table, root).text()
}
