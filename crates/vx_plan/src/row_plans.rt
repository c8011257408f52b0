//! Plans of one child's rows, of the numbers of rows, and of a segment's rows.

ghost use Rattle.std.specs.Prelude.{◌≡◌, ◌<◌, [], ◌∷◌, length, IfErr, IfOk, OnErr};
ghost use Rattle.std.specs.Arc.{arc_value};
ghost use Rattle.vx_base.specs.Views.{data_type};
ghost use Rattle.vx_plan.specs.Kinds.{coding_of, HasKind, IsEval, IsFilter, IsSegmentScan, IsShare};
ghost use Rattle.vx_plan.specs.Limits.{most_plans};
ghost use Rattle.vx_plan.specs.Nodes.{node_data};
ghost use Rattle.vx_plan.specs.declared.errors.PlanError.TheVariants.{Memory};
ghost use Rattle.vx_plan.specs.declared.nodes.PlanKind.TheVariants.{Eval, SegmentScan};
ghost use Rattle.vx_plan.specs.Refs.{number_of};
ghost use Rattle.vx_plan.specs.Rules.{eval_node, filter_node, node_at, nodes_at, row_idx_node, scan_node, share_node, IsLikeChild, RefusedBy};
ghost use Rattle.vx_plan.specs.Tables.{IsAdded, IsChildAt};

use crate::children::{PlanChildren, PlanRef, one_child};
use crate::errors::PlanError;
use crate::nodes::{EvalExpression, PlanKind, PlanNode};
use crate::plan_types::{EvalPlan, FilterPlan, RowIdxPlan, SegmentScanPlan, SharePlan};
use crate::tables::PlanTable;
use std::alloc::{AllocError, Global};
use std::sync::Arc;
use vx_base::{Coding, DType, IntKind, Nullability};
use vx_expr::BoundExpression;

impl SegmentScanPlan {
    /// A plan of a segment's rows: rule 7.
    pub fn new(
        alloc: Global,
        table: &mut PlanTable,
        dtype: DType,
        row_count: u64,
        segment: u32,
        coding: Coding,
    ) -> Result<SegmentScanPlan, PlanError>
        requires room { length table.old < most_plans }
        ensures added { IfOk result (λ plan. IsAdded table.old table.new (scan_node (data_type dtype) row_count segment coding) (number_of plan.plan)) }
        ensures unchanged { OnErr result (table.new ≡ table.old) }
        ensures refused { IfErr result (RefusedBy (scan_node (data_type dtype) row_count segment coding) []) }
    {
        let dtype = Arc::new(alloc, dtype)?;
        SegmentScanPlan::sharing(alloc, table, dtype, row_count, segment, coding)
    }

    /// The same, whose dtype is shared with whoever else holds it.
    pub fn sharing(
        alloc: Global,
        table: &mut PlanTable,
        dtype: Arc<DType, Global>,
        row_count: u64,
        segment: u32,
        coding: Coding,
    ) -> Result<SegmentScanPlan, PlanError>
        requires room { length table.old < most_plans }
        ensures added { IfOk result (λ plan. IsAdded table.old table.new (scan_node (data_type (arc_value dtype)) row_count segment coding) (number_of plan.plan)) }
        ensures unchanged { OnErr result (table.new ≡ table.old) }
        ensures refused { IfErr result (RefusedBy (scan_node (data_type (arc_value dtype)) row_count segment coding) []) }
    {
        let node = PlanNode {
            kind: PlanKind::SegmentScan { segment, coding },
            dtype,
            row_count,
            children: PlanChildren::from(Vec::new(alloc)),
            row_offsets: Vec::new(alloc),
        };
        let plan = table.add(alloc, node)?;
        Ok(SegmentScanPlan { plan })
    }

    /// The segment.
    pub fn segment_id(self, table: &PlanTable) -> u32
        requires { HasKind IsSegmentScan table.now (number_of self.plan) }
        ensures { (node_at table.now (number_of self.plan)).kind ≡ SegmentScan result (coding_of (node_at table.now (number_of self.plan)).kind) }
    {
        match table.node(self.plan.0).kind {
            PlanKind::SegmentScan { segment, .. } => segment,
            _ => unreachable!(),
        }
    }

    /// How the segment is coded.
    pub fn coding(self, table: &PlanTable) -> Coding
        requires { HasKind IsSegmentScan table.now (number_of self.plan) }
        ensures { result ≡ coding_of (node_at table.now (number_of self.plan)).kind }
    {
        table.coding(self.plan)
    }
}

impl RowIdxPlan {
    /// A plan of the numbers of so many rows. It is refused for want of memory alone.
    pub fn new(
        alloc: Global,
        table: &mut PlanTable,
        row_count: u64,
    ) -> Result<RowIdxPlan, PlanError>
        requires room { length table.old < most_plans }
        ensures added { IfOk result (λ plan. IsAdded table.old table.new (row_idx_node row_count) (number_of plan.plan)) }
        ensures unchanged { OnErr result (table.new ≡ table.old) }
        ensures refused { IfErr result (λ error. error ≡ Memory) }
    {
        let dtype = Arc::new(alloc, DType::Int(IntKind::U64, Nullability::NonNullable))?;
        let node = PlanNode {
            kind: PlanKind::RowIdx,
            dtype,
            row_count,
            children: PlanChildren::from(Vec::new(alloc)),
            row_offsets: Vec::new(alloc),
        };
        let plan = table.add(alloc, node)?;
        Ok(RowIdxPlan { plan })
    }
}

/// The node of a plan that has the rows of its child, and shares its dtype.
fn like(
    alloc: Global,
    table: &PlanTable,
    kind: PlanKind,
    child: PlanRef,
) -> Result<PlanNode, AllocError>
    requires { number_of child < length table.now }
    ensures { IfOk result (λ node. IsLikeChild kind table.now (number_of child) (node_data node)) }
{
    let dtype = table.shared_dtype(child)?;
    let children = one_child(child);
    Ok(PlanNode {
        kind,
        dtype,
        row_count: table.row_count(child),
        children,
        row_offsets: Vec::new(alloc),
    })
}

impl FilterPlan {
    /// A plan of the child's rows. It is refused for want of memory alone.
    pub fn new(
        alloc: Global,
        table: &mut PlanTable,
        child: PlanRef,
    ) -> Result<FilterPlan, PlanError>
        requires room { length table.old < most_plans }
        requires known { number_of child < length table.old }
        ensures added { IfOk result (λ plan. IsAdded table.old table.new (filter_node table.old (number_of child)) (number_of plan.plan)) }
        ensures unchanged { OnErr result (table.new ≡ table.old) }
        ensures refused { IfErr result (λ error. error ≡ Memory) }
    {
        let node = like(alloc, table, PlanKind::Filter, child)?;
        let plan = table.add(alloc, node)?;
        Ok(FilterPlan { plan })
    }

    /// The plan whose rows it has.
    pub fn child_plan(self, table: &PlanTable) -> PlanRef
        requires { HasKind IsFilter table.now (number_of self.plan) }
        ensures { IsChildAt table.now (number_of self.plan) 0 (number_of result) }
    {
        PlanRef(table.node(self.plan.0).children.at(0))
    }
}

impl SharePlan {
    /// A plan of the child's rows, which is read whole. It is refused for want of memory alone.
    pub fn new(alloc: Global, table: &mut PlanTable, child: PlanRef) -> Result<SharePlan, PlanError>
        requires room { length table.old < most_plans }
        requires known { number_of child < length table.old }
        ensures added { IfOk result (λ plan. IsAdded table.old table.new (share_node table.old (number_of child)) (number_of plan.plan)) }
        ensures unchanged { OnErr result (table.new ≡ table.old) }
        ensures refused { IfErr result (λ error. error ≡ Memory) }
    {
        let node = like(alloc, table, PlanKind::Share, child)?;
        let plan = table.add(alloc, node)?;
        Ok(SharePlan { plan })
    }

    /// The plan whose rows it has.
    pub fn child_plan(self, table: &PlanTable) -> PlanRef
        requires { HasKind IsShare table.now (number_of self.plan) }
        ensures { IsChildAt table.now (number_of self.plan) 0 (number_of result) }
    {
        PlanRef(table.node(self.plan.0).children.at(0))
    }
}

impl EvalPlan {
    /// A plan of the expression at each row of the child: rules 3 and 4.
    pub fn try_new(
        alloc: Global,
        table: &mut PlanTable,
        expression: BoundExpression,
        child: PlanRef,
    ) -> Result<EvalPlan, PlanError>
        requires room { length table.old < most_plans }
        requires known { number_of child < length table.old }
        ensures added { IfOk result (λ plan. IsAdded table.old table.new (eval_node table.old expression (number_of child)) (number_of plan.plan)) }
        ensures unchanged { OnErr result (table.new ≡ table.old) }
        ensures refused { IfErr result (RefusedBy (eval_node table.old expression (number_of child)) (nodes_at table.old (number_of child ∷ []))) }
    {
        let dtype = Arc::new(alloc, expression.dtype().copy(alloc)?)?;
        let expression = EvalExpression::of(alloc, expression)?;
        let children = one_child(child);
        let node = PlanNode {
            kind: PlanKind::Eval(expression),
            dtype,
            row_count: table.row_count(child),
            children,
            row_offsets: Vec::new(alloc),
        };
        let plan = table.add(alloc, node)?;
        Ok(EvalPlan { plan })
    }

    /// The expression.
    pub fn expression(self, table: &PlanTable) -> &BoundExpression
        requires { HasKind IsEval table.now (number_of self.plan) }
        ensures { (node_at table.now (number_of self.plan)).kind ≡ Eval result.now }
    {
        match &table.node(self.plan.0).kind {
            PlanKind::Eval(expression) => expression.bound(),
            _ => unreachable!(),
        }
    }

    /// The plan at whose rows the expression is worked out.
    pub fn child_plan(self, table: &PlanTable) -> PlanRef
        requires { HasKind IsEval table.now (number_of self.plan) }
        ensures { IsChildAt table.now (number_of self.plan) 0 (number_of result) }
    {
        PlanRef(table.node(self.plan.0).children.at(0))
    }
}
