//! New plans of a table that keep the rules of their kinds, so that memory alone can be wanting.

ghost use Rattle.std.specs.Prelude.{◌≡◌, ◌+◌, ◌<◌, [], ◌∷◌, ◌++◌, length, IfOk, option_map};
ghost use Rattle.std.specs.Arc.{arc_value};
ghost use Rattle.vx_base.specs.Leaf.{IsLeaf};
ghost use Rattle.vx_base.specs.Views.{data_type};
ghost use Rattle.vx_rows.specs.TypeForms.{IsStruct};
ghost use Rattle.vx_rows.specs.Heads.{Head};
ghost use Rattle.vx_plan.specs.declared.errors.PlanError.TheVariants.{Memory};
ghost use Rattle.vx_plan.specs.Plans.{filter_plan, scan_plan};
ghost use Rattle.vx_plan.specs.Refs.{number_of};
ghost use Rattle.vx_plan.specs.Rules.{concat_node, eval_node, given_validity, list_node, nodes_at, packed_node, scan_node, take_node, KeepsRules};
ghost use Rattle.vx_plan.specs.Tables.{AreIn, IsAdded, IsGoodTable};
ghost use Rattle.vx_plan.specs.Limits.{most_plans};
ghost use Rattle.vx_lower.specs.NodeParts.{zones_node};
ghost use Rattle.vx_lower.specs.Numbered.{AddsPlan};

use crate::node_parts::ZonedParts;
use std::alloc::{AllocError, Global};
use std::sync::Arc;
use vx_base::{Coding, DType, Nullability};
use vx_expr::{BoundExpression, Statistics};
use vx_plan::{
    ConcatPlan, EvalPlan, FilterPlan, LegacyStatsPlan, ListPackPlan, PackPlan, PlanChildren,
    PlanError, PlanRef, PlanTable, SegmentScanPlan, TakePlan, ZonedPlan,
};

/// The error of a call that can fail for want of memory alone.
fn memory_only(error: PlanError) -> AllocError
    requires { error ≡ Memory }
{
    match error {
        PlanError::Memory => AllocError,
        PlanError::BadPlan { .. } => unreachable!(),
    }
}

/// Adds a scan of a segment.
fn add_scan(
    alloc: Global,
    dtype: Arc<DType, Global>,
    row_count: u64,
    segment: u32,
    coding: Coding,
    table: &mut PlanTable,
) -> Result<PlanRef, AllocError>
    requires room { length table.old < most_plans }
    requires leaf { IsLeaf (data_type (arc_value dtype)) }
    ensures { IfOk result (λ plan. IsAdded table.old table.new (scan_node (data_type (arc_value dtype)) row_count segment coding) (number_of plan)) }
{
    match SegmentScanPlan::sharing(alloc, table, dtype, row_count, segment, coding) {
        Ok(plan) => Ok(plan.into_plan()),
        Err(error) => Err(memory_only(error)),
    }
}

/// Adds the plan of a leaf: a filter over a scan.
pub(crate) fn add_leaf(
    alloc: Global,
    dtype: Arc<DType, Global>,
    row_count: u64,
    segment: u32,
    coding: Coding,
    table: &mut PlanTable,
) -> Result<PlanRef, AllocError>
    requires room { length table.old + 1 < most_plans }
    requires leaf { IsLeaf (data_type (arc_value dtype)) }
    requires good { IsGoodTable table.old }
    ensures { IfOk result (λ plan. (head : Head) → head.dtype ≡ data_type (arc_value dtype) → head.rows ≡ row_count → AddsPlan table.old table.new (filter_plan head (scan_plan head segment coding)) (number_of plan)) }
{
    let scan = add_scan(alloc, dtype, row_count, segment, coding, table)?;
    match FilterPlan::new(alloc, table, scan) {
        Ok(plan) => Ok(plan.into_plan()),
        Err(error) => Err(memory_only(error)),
    }
}

/// Adds a concat.
pub(crate) fn add_concat(
    alloc: Global,
    dtype: Arc<DType, Global>,
    chunks: PlanChildren,
    table: &mut PlanTable,
) -> Result<PlanRef, AllocError>
    requires room { length table.old < most_plans }
    requires known { AreIn table.old chunks }
    requires kept { KeepsRules (concat_node table.old (data_type (arc_value dtype)) chunks) (nodes_at table.old chunks) }
    ensures { IfOk result (λ plan. IsAdded table.old table.new (concat_node table.old (data_type (arc_value dtype)) chunks) (number_of plan)) }
{
    match ConcatPlan::sharing(alloc, table, dtype, chunks) {
        Ok(plan) => Ok(plan.into_plan()),
        Err(error) => Err(memory_only(error)),
    }
}

/// Adds a pack.
pub(crate) fn add_pack(
    alloc: Global,
    dtype: Arc<DType, Global>,
    row_count: u64,
    fields: PlanChildren,
    validity: Option<PlanRef>,
    table: &mut PlanTable,
) -> Result<PlanRef, AllocError>
    requires room { length table.old < most_plans }
    requires known { AreIn table.old (fields ++ given_validity (option_map number_of validity)) }
    requires structs { IsStruct (data_type (arc_value dtype)) }
    requires kept { KeepsRules (packed_node (data_type (arc_value dtype)) row_count fields (option_map number_of validity)) (nodes_at table.old (fields ++ given_validity (option_map number_of validity))) }
    ensures { IfOk result (λ plan. IsAdded table.old table.new (packed_node (data_type (arc_value dtype)) row_count fields (option_map number_of validity)) (number_of plan)) }
{
    match PackPlan::sharing(alloc, table, dtype, row_count, fields, validity) {
        Ok(plan) => Ok(plan.into_plan()),
        Err(error) => Err(memory_only(error)),
    }
}

/// Adds a take.
pub(crate) fn add_take(
    alloc: Global,
    codes: PlanRef,
    values: PlanRef,
    table: &mut PlanTable,
) -> Result<PlanRef, AllocError>
    requires room { length table.old < most_plans }
    requires known { AreIn table.old (number_of codes ∷ number_of values ∷ []) }
    requires kept { KeepsRules (take_node table.old (number_of codes) (number_of values)) (nodes_at table.old (number_of codes ∷ number_of values ∷ [])) }
    ensures { IfOk result (λ plan. IsAdded table.old table.new (take_node table.old (number_of codes) (number_of values)) (number_of plan)) }
{
    match TakePlan::new(alloc, table, codes, values) {
        Ok(plan) => Ok(plan.into_plan()),
        Err(error) => Err(memory_only(error)),
    }
}

/// Adds a list.
pub(crate) fn add_list(
    alloc: Global,
    nullability: Nullability,
    row_count: u64,
    elements: PlanRef,
    offsets: PlanRef,
    validity: Option<PlanRef>,
    table: &mut PlanTable,
) -> Result<PlanRef, AllocError>
    requires room { length table.old < most_plans }
    requires known { AreIn table.old (number_of elements ∷ number_of offsets ∷ given_validity (option_map number_of validity)) }
    requires kept { KeepsRules (list_node table.old nullability row_count (number_of elements) (number_of offsets) (option_map number_of validity)) (nodes_at table.old (number_of elements ∷ number_of offsets ∷ given_validity (option_map number_of validity))) }
    ensures { IfOk result (λ plan. IsAdded table.old table.new (list_node table.old nullability row_count (number_of elements) (number_of offsets) (option_map number_of validity)) (number_of plan)) }
{
    match ListPackPlan::try_new(
        alloc,
        table,
        nullability,
        row_count,
        elements,
        offsets,
        validity,
    ) {
        Ok(plan) => Ok(plan.into_plan()),
        Err(error) => Err(memory_only(error)),
    }
}

/// Adds an eval.
pub(crate) fn add_eval(
    alloc: Global,
    expression: BoundExpression,
    child: PlanRef,
    table: &mut PlanTable,
) -> Result<PlanRef, AllocError>
    requires room { length table.old < most_plans }
    requires known { number_of child < length table.old }
    requires kept { KeepsRules (eval_node table.old expression (number_of child)) (nodes_at table.old (number_of child ∷ [])) }
    ensures { IfOk result (λ plan. IsAdded table.old table.new (eval_node table.old expression (number_of child)) (number_of plan)) }
{
    match EvalPlan::try_new(alloc, table, expression, child) {
        Ok(plan) => Ok(plan.into_plan()),
        Err(error) => Err(memory_only(error)),
    }
}

/// The same statistics in memory of their own.
fn copied(alloc: Global, stats: &Statistics) -> Result<Statistics, AllocError>
    ensures { IfOk result (λ copied. copied ≡ stats.now) }
{
    Ok(Statistics::from_vec(stats.items().to_vec(alloc)?))
}

/// Adds data with its zones.
pub(crate) fn add_zoned(
    alloc: Global,
    told: ZonedParts<'_>,
    content: PlanRef,
    zones: PlanRef,
    table: &mut PlanTable,
) -> Result<PlanRef, AllocError>
    requires room { length table.old < most_plans }
    requires known { AreIn table.old (number_of content ∷ number_of zones ∷ []) }
    requires kept { KeepsRules (zones_node told.is_legacy table.old (number_of content) (number_of zones) told.zone_len told.stats.now) (nodes_at table.old (number_of content ∷ number_of zones ∷ [])) }
    ensures { IfOk result (λ plan. IsAdded table.old table.new (zones_node told.entry.is_legacy table.old (number_of content) (number_of zones) told.entry.zone_len told.entry.stats.now) (number_of plan)) }
{
    let stats = copied(alloc, told.stats)?;
    if told.is_legacy {
        match LegacyStatsPlan::new(alloc, table, content, zones, told.zone_len, stats) {
            Ok(plan) => Ok(plan.into_plan()),
            Err(error) => Err(memory_only(error)),
        }
    } else {
        match ZonedPlan::new(alloc, table, content, zones, told.zone_len, stats) {
            Ok(plan) => Ok(plan.into_plan()),
            Err(error) => Err(memory_only(error)),
        }
    }
}
