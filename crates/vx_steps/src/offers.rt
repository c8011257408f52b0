//! Columns that are handed in: those that are for the plans that they name are kept, and any other is dropped.

ghost use Rattle.std.specs.Prelude.{◌↔◌, map, IsTrue};
ghost use Rattle.vx_steps.specs.Kept.{kept_data};
ghost use Rattle.vx_steps.specs.Offers.{IsForLeaf, IsForPlan, Keeps};

use crate::kept::KeptValue;
use vx_plan::{PlanTable, Shape};

/// Whether the column is for a plan of the table: of its dtype, and with its rows.
fn is_for_plan(table: &PlanTable, value: &KeptValue) -> bool
    ensures { IsTrue result ↔ IsForPlan table.now (kept_data value.now) }
{
    value.node.0 < table.len()
        && value.column.dtype().same(table.dtype(value.node))
        && value.column.len() == table.row_count(value.node)
}

/// Whether the column is for a plan that scans a segment.
fn is_for_leaf(table: &PlanTable, value: &KeptValue) -> bool
    ensures { IsTrue result ↔ IsForLeaf table.now (kept_data value.now) }
{
    if !is_for_plan(table, value) {
        return false;
    }
    matches!(table.shape(value.node), Shape::Leaf(_))
}

/// The columns that are for plans of the table. It takes no memory.
pub(crate) fn for_plans(table: &PlanTable, mut offered: Vec<KeptValue>) -> Vec<KeptValue>
    ensures { Keeps (IsForPlan table.now) (map kept_data offered.items) (map kept_data result.items) }
{
    offered.retain(|value| is_for_plan(table, value));
    offered
}

/// The columns that are for plans that scan a segment. It takes no memory.
pub(crate) fn for_leaves(table: &PlanTable, mut offered: Vec<KeptValue>) -> Vec<KeptValue>
    ensures { Keeps (IsForLeaf table.now) (map kept_data offered.items) (map kept_data result.items) }
{
    offered.retain(|value| is_for_leaf(table, value));
    offered
}
