//! Plans of children one after another.

ghost use Rattle.std.specs.Prelude.{◌≡◌, ◌<◌, ◌≤◌, ◌^◌, length, map, IfErr, IfOk, MatchOption, OnErr, sum_by};
ghost use Rattle.std.specs.Arc.{arc_value};
ghost use Rattle.vx_base.specs.Views.{data_type};
ghost use Rattle.vx_plan.specs.Kinds.{HasKind, IsConcat};
ghost use Rattle.vx_plan.specs.Limits.{most_plans};
ghost use Rattle.vx_plan.specs.Nodes.{node_data};
ghost use Rattle.vx_plan.specs.Refs.{number_of};
ghost use Rattle.vx_plan.specs.Rules.{concat_node, node_at, nodes_at, offsets_from, rows_of, AreOffsets, RefusedBy};
ghost use Rattle.vx_plan.specs.Tables.{AreIn, IsAdded};

use crate::checks::child_at;
use crate::children::PlanChildren;
use crate::errors::PlanError;
use crate::field_checks::are_all_of;
use crate::nodes::{PlanKind, PlanNode};
use crate::plan_types::ConcatPlan;
use crate::tables::PlanTable;
use std::alloc::{AllocError, Global};
use std::sync::Arc;
use vx_base::DType;

/// The rows before each child, and all rows.
#[derive(Drop)]
struct RowOffsets {
    offsets: Vec<u64>,
    rows: u64,
}

/// The rows before each of the children, and `None` where all are more than a `u64` holds.
fn offsets_of(
    alloc: Global,
    nodes: &[PlanNode],
    children: &PlanChildren,
) -> Result<Option<RowOffsets>, AllocError>
    requires { AreIn (map node_data nodes.now) children.now }
    ensures { IfOk result (λ found. MatchOption found (2 ^ 64 ≤ sum_by rows_of (nodes_at (map node_data nodes.now) children.now)) (λ all. AreOffsets (nodes_at (map node_data nodes.now) children.now) all.rows all.offsets.items)) }
{
    let mut offsets = Vec::new(alloc);
    let mut rows: u64 = 0;
    for place in 0..children.len() {
        offsets.push(rows)?;
        let more = child_at(nodes, children, place).row_count;
        if more > u64::MAX - rows {
            return Ok(None);
        }
        rows += more;
    }
    Ok(Some(RowOffsets { offsets, rows }))
}

/// Why these children are refused, which have more rows than a `u64` holds.
fn too_many_rows(nodes: &[PlanNode], children: &PlanChildren, dtype: &DType) -> PlanError
    requires known { AreIn (map node_data nodes.now) children.now }
    requires many { 2 ^ 64 ≤ sum_by rows_of (nodes_at (map node_data nodes.now) children.now) }
    ensures { RefusedBy (concat_node (map node_data nodes.now) (data_type dtype.now) children.now) (nodes_at (map node_data nodes.now) children.now) result }
{
    if are_all_of(nodes, children, dtype) {
        PlanError::BadPlan { rule: 2 }
    } else {
        PlanError::BadPlan { rule: 1 }
    }
}

impl ConcatPlan {
    /// A plan of the children's rows, one child after another: rules 1 and 2.
    pub fn try_new(
        alloc: Global,
        table: &mut PlanTable,
        dtype: DType,
        children: PlanChildren,
    ) -> Result<ConcatPlan, PlanError>
        requires room { length table.old < most_plans }
        requires known { AreIn table.old children }
        ensures added { IfOk result (λ plan. IsAdded table.old table.new (concat_node table.old (data_type dtype) children) (number_of plan.plan)) }
        ensures unchanged { OnErr result (table.new ≡ table.old) }
        ensures refused { IfErr result (RefusedBy (concat_node table.old (data_type dtype) children) (nodes_at table.old children)) }
    {
        let dtype = Arc::new(alloc, dtype)?;
        ConcatPlan::sharing(alloc, table, dtype, children)
    }

    /// The same, whose dtype is shared with whoever else holds it.
    pub fn sharing(
        alloc: Global,
        table: &mut PlanTable,
        dtype: Arc<DType, Global>,
        children: PlanChildren,
    ) -> Result<ConcatPlan, PlanError>
        requires room { length table.old < most_plans }
        requires known { AreIn table.old children }
        ensures added { IfOk result (λ plan. IsAdded table.old table.new (concat_node table.old (data_type (arc_value dtype)) children) (number_of plan.plan)) }
        ensures unchanged { OnErr result (table.new ≡ table.old) }
        ensures refused { IfErr result (RefusedBy (concat_node table.old (data_type (arc_value dtype)) children) (nodes_at table.old children)) }
    {
        match offsets_of(alloc, table.nodes(), &children)? {
            None => Err(too_many_rows(table.nodes(), &children, &dtype)),
            Some(RowOffsets { offsets, rows }) => {
                let node = PlanNode {
                    kind: PlanKind::Concat,
                    dtype,
                    row_count: rows,
                    children,
                    row_offsets: offsets,
                };
                let plan = table.add(alloc, node)?;
                Ok(ConcatPlan { plan })
            }
        }
    }

    /// The row at which each child starts.
    pub fn row_offsets(self, table: &PlanTable) -> &[u64]
        requires { HasKind IsConcat table.now (number_of self.plan) }
        ensures kept { result.now ≡ (node_at table.now (number_of self.plan)).offsets }
        ensures starts { result.now ≡ offsets_from 0 (nodes_at table.now (node_at table.now (number_of self.plan)).children) }
    {
        table.node(self.plan.0).row_offsets.as_slice()
    }
}
