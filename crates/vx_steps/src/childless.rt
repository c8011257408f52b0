//! The columns of plans that are computed from no other plan's: of no row, of a leaf, of the numbers of rows.

ghost use Rattle.std.specs.Prelude.{◌≡◌, ◌+◌, ◌<◌, ◌≤◌, [], length, IfErr, IfOk};
ghost use Rattle.vx_base.specs.Masks.{true_count};
ghost use Rattle.vx_picking.specs.Rows.{SelectsSome};
ghost use Rattle.vx_plan.specs.declared.shapes.Shape.TheVariants.{RowNumbers};
ghost use Rattle.vx_plan.specs.Rules.{node_at};
ghost use Rattle.vx_plan.specs.Shapes.{HasShape};
ghost use Rattle.vx_steps.specs.declared.errors.StepError.TheVariants.{Memory};
ghost use Rattle.vx_steps.specs.Computed.{AreReady, Computes};
ghost use Rattle.vx_steps.specs.Held.{held, IsHeld, IsLeaf};

use crate::computing::Sources;
use crate::errors::StepError;
use crate::picking::numbered;
use std::alloc::Global;
use vx_base::{Column, Mask};
use vx_picking::picked;
use vx_plan::{PlanRef, PlanTable};

/// No row of a plan.
pub(crate) fn no_rows(alloc: Global, table: &PlanTable, plan: u32) -> Result<Column, StepError>
    requires { plan < length table.now }
    ensures dtype { IfOk result (λ column. column.dtype ≡ (node_at table.now plan).dtype) }
    ensures none { IfOk result (λ column. column.values ≡ []) }
    ensures memory { IfErr result (λ error. error ≡ Memory) }
{
    let dtype = table.dtype(PlanRef(plan)).copy(alloc)?;
    Ok(Column::empty(alloc, dtype)?)
}

/// The selected rows of a leaf.
pub(crate) fn leaf_of(
    alloc: Global,
    from: Sources<'_>,
    plan: u32,
    start: u64,
    mask: &Mask,
) -> Result<Column, StepError>
    requires known { plan < length from.table.now }
    requires leaf { IsLeaf from.table.now plan }
    requires inside { start + length mask.now ≤ (node_at from.table.now plan).rows }
    requires some { SelectsSome mask.now }
    requires held { IsHeld (held from) }
    requires ready { AreReady (held from) plan start mask.now }
    ensures dtype { IfOk result (λ column. column.dtype ≡ (node_at from.entry.table.now plan).dtype) }
    ensures rows { IfOk result (λ column. length column.values ≡ true_count mask.now) }
    ensures computed { Computes (held from.entry) plan start mask.now result }
{
    match from.leaves.find(plan) {
        Some(column) => Ok(picked(alloc, column, start, mask)?),
        None => unreachable!(),
    }
}

/// The numbers of the selected rows.
pub(crate) fn numbers_of(
    alloc: Global,
    from: Sources<'_>,
    plan: u32,
    start: u64,
    mask: &Mask,
) -> Result<Column, StepError>
    requires known { plan < length from.table.now }
    requires numbers { HasShape from.table.now plan RowNumbers }
    requires inside { start + length mask.now ≤ (node_at from.table.now plan).rows }
    requires held { IsHeld (held from) }
    ensures dtype { IfOk result (λ column. column.dtype ≡ (node_at from.entry.table.now plan).dtype) }
    ensures rows { IfOk result (λ column. length column.values ≡ true_count mask.now) }
    ensures computed { Computes (held from.entry) plan start mask.now result }
{
    from.table.numbers_fit(PlanRef(plan));
    Ok(numbered(alloc, start, from.offset, mask)?)
}
