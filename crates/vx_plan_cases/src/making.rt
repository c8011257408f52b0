//! Commands that add a plan.

ghost use Rattle.std.specs.Prelude.{◌<◌, length, IfOk};
ghost use Rattle.vx_base.specs.Views.{data_type};
ghost use Rattle.vx_expr.specs.Bound.{IsBoundTo};
ghost use Rattle.vx_plan.specs.Limits.{most_before_four};
ghost use Rattle.vx_plan.specs.Refs.{number_of};

use crate::words::{UNREAD, number_at, plan_at, plans_from, times};
use std::alloc::Global;
use vx_base::{Coding, DType, Fields, Nullability};
use vx_expr::{BoundExpression, bind};
use vx_expr_notation::{spelled, statistics_of};
use vx_notation::dtype_of;
use vx_plan::{
    ConcatPlan, EvalPlan, FilterPlan, LegacyStatsPlan, ListPackPlan, PackPlan, PlanError, PlanRef,
    PlanTable, RowIdxPlan, SegmentScanPlan, SharePlan, TakePlan, ZonedPlan,
};

/// The dtype that is written so.
fn dtype_in(alloc: Global, text: &str) -> Result<DType, PlanError> {
    match dtype_of(alloc, text) {
        Ok(dtype) => Ok(dtype),
        Err(_) => Err(UNREAD),
    }
}

/// A plan of a segment's rows: of so many rows, over that segment, which is coded plainly where no third number or 0
/// is there, as a constant at 1 and in runs at 2.
fn scan(
    alloc: Global,
    table: &mut PlanTable,
    numbers: &[u64],
    rest: &str,
) -> Result<PlanRef, PlanError>
    requires { length table.old < most_before_four }
{
    let rows = number_at(numbers, 0);
    let segment = u32::try_from(number_at(numbers, 1)).unwrap_or(0);
    let coding = match number_at(numbers, 2) {
        0 => Coding::Plain,
        1 => Coding::Constant,
        _ => Coding::Runs,
    };
    let dtype = dtype_in(alloc, rest)?;
    Ok(SegmentScanPlan::new(alloc, table, dtype, rows, segment, coding)?.into_plan())
}

/// The expression that is spelled so, bound to a dtype.
fn bound_to(alloc: Global, dtype: &DType, words: &str) -> Result<BoundExpression, PlanError>
    ensures { IfOk result (λ bound. IsBoundTo bound (data_type dtype.now)) }
{
    let expr = spelled(alloc, words)?;
    let bound = bind(alloc, &expr, dtype);
    drop(expr);
    match bound {
        Ok(bound) => Ok(bound),
        Err(error) => {
            drop(error);
            Err(UNREAD)
        }
    }
}

/// The expression that is spelled so, bound to the dtype that is written so.
fn bound_of(alloc: Global, dtype: &str, words: &str) -> Result<BoundExpression, PlanError> {
    let dtype = dtype_in(alloc, dtype)?;
    let bound = bound_to(alloc, &dtype, words);
    drop(dtype);
    bound
}

/// A plan over one other.
fn over(
    alloc: Global,
    table: &mut PlanTable,
    command: &str,
    numbers: &[u64],
    rest: &str,
) -> Result<PlanRef, PlanError>
    requires { length table.old < most_before_four }
{
    let child = plan_at(table, numbers, 0)?;
    match command {
        "filter" => return Ok(FilterPlan::new(alloc, table, child)?.into_plan()),
        "share" => return Ok(SharePlan::new(alloc, table, child)?.into_plan()),
        _ => {}
    }
    let (dtype, words) = rest.split_once(" | ").unwrap_or((rest, ""));
    let bound = bound_of(alloc, dtype, words)?;
    Ok(EvalPlan::try_new(alloc, table, bound, child)?.into_plan())
}

/// A plan of codes and values.
fn taking(alloc: Global, table: &mut PlanTable, numbers: &[u64]) -> Result<PlanRef, PlanError>
    requires { length table.old < most_before_four }
{
    let codes = plan_at(table, numbers, 0)?;
    let values = plan_at(table, numbers, 1)?;
    Ok(TakePlan::new(alloc, table, codes, values)?.into_plan())
}

/// A plan of data and zones.
fn zones(
    alloc: Global,
    table: &mut PlanTable,
    command: &str,
    numbers: &[u64],
    rest: &str,
) -> Result<PlanRef, PlanError>
    requires { length table.old < most_before_four }
{
    let column = plan_at(table, numbers, 0)?;
    let zones = plan_at(table, numbers, 1)?;
    let len = number_at(numbers, 2);
    let stats = statistics_of(alloc, rest)?;
    if command == "zoned" {
        return Ok(ZonedPlan::new(alloc, table, column, zones, len, stats)?.into_plan());
    }
    Ok(LegacyStatsPlan::new(alloc, table, column, zones, len, stats)?.into_plan())
}

/// The pruning plan of a plan of zones, by the predicate that is spelled so; none where there is none to be made.
pub(crate) fn pruning(
    alloc: Global,
    table: &mut PlanTable,
    plan: PlanRef,
    words: &str,
) -> Result<Option<PlanRef>, PlanError>
    requires room { length table.old < most_before_four }
    requires known { number_of plan < length table.old }
{
    let Some(zoned) = table.as_zoned(plan) else {
        return Err(UNREAD);
    };
    let predicate = bound_to(alloc, table.dtype(plan), words)?;
    let made = match predicate.dtype() {
        DType::Bool(_) => zoned.with_pruning(alloc, table, &predicate),
        _ => Err(UNREAD),
    };
    drop(predicate);
    match made {
        Ok(Some(pruning)) => Ok(Some(pruning.into_plan())),
        Ok(None) => Ok(None),
        Err(error) => Err(error),
    }
}

/// The plans as chunks, of the dtype.
fn chunks(
    alloc: Global,
    table: &mut PlanTable,
    numbers: &[u64],
    rest: &str,
) -> Result<PlanRef, PlanError>
    requires { length table.old < most_before_four }
{
    let children = plans_from(alloc, table, numbers, 0)?;
    let Ok(dtype) = dtype_in(alloc, rest) else {
        drop(children);
        return Err(UNREAD);
    };
    Ok(ConcatPlan::try_new(alloc, table, dtype, children)?.into_plan())
}

/// One plan as so many chunks, of the dtype.
fn repeated(
    alloc: Global,
    table: &mut PlanTable,
    numbers: &[u64],
    rest: &str,
) -> Result<PlanRef, PlanError>
    requires { length table.old < most_before_four }
{
    let count = number_at(numbers, 0);
    let child = plan_at(table, numbers, 1)?;
    let children = times(alloc, table, child, count)?;
    let Ok(dtype) = dtype_in(alloc, rest) else {
        drop(children);
        return Err(UNREAD);
    };
    Ok(ConcatPlan::try_new(alloc, table, dtype, children)?.into_plan())
}

/// The fields and the nulls of the dtype of structs that is written so.
fn struct_in(alloc: Global, text: &str) -> Result<(Fields, Nullability), PlanError> {
    let dtype = dtype_in(alloc, text)?;
    let found = match &dtype {
        DType::Struct(fields, nulls) => match fields.copy(alloc) {
            Ok(fields) => Ok((fields, *nulls)),
            Err(_) => Err(PlanError::Memory),
        },
        _ => Err(UNREAD),
    };
    drop(dtype);
    found
}

/// Structs of the rows that stand first, and of the fields behind them; with `?` a validity stands between.
fn structs(
    alloc: Global,
    table: &mut PlanTable,
    command: &str,
    numbers: &[u64],
    rest: &str,
) -> Result<PlanRef, PlanError>
    requires { length table.old < most_before_four }
{
    let rows = number_at(numbers, 0);
    let validity = if command == "pack" {
        None
    } else {
        Some(plan_at(table, numbers, 1)?)
    };
    let first = if command == "pack" { 1 } else { 2 };
    let children = plans_from(alloc, table, numbers, first)?;
    let Ok((fields, nulls)) = struct_in(alloc, rest) else {
        drop(children);
        return Err(UNREAD);
    };
    Ok(PackPlan::try_new(alloc, table, fields, nulls, rows, children, validity)?.into_plan())
}

/// Lists of so many rows, with elements and offsets; with `?` a validity follows.
fn lists(
    alloc: Global,
    table: &mut PlanTable,
    command: &str,
    numbers: &[u64],
    rest: &str,
) -> Result<PlanRef, PlanError>
    requires { length table.old < most_before_four }
{
    let nulls = if rest == "?" {
        Nullability::Nullable
    } else {
        Nullability::NonNullable
    };
    let rows = number_at(numbers, 0);
    let elements = plan_at(table, numbers, 1)?;
    let offsets = plan_at(table, numbers, 2)?;
    let validity = if command == "list" {
        None
    } else {
        Some(plan_at(table, numbers, 3)?)
    };
    Ok(ListPackPlan::try_new(alloc, table, nulls, rows, elements, offsets, validity)?.into_plan())
}

/// Adds the plan of a command.
pub(crate) fn made(
    alloc: Global,
    table: &mut PlanTable,
    command: &str,
    numbers: &[u64],
    rest: &str,
) -> Result<PlanRef, PlanError>
    requires { length table.old < most_before_four }
{
    match command {
        "scan" => scan(alloc, table, numbers, rest),
        "row_idx" => Ok(RowIdxPlan::new(alloc, table, number_at(numbers, 0))?.into_plan()),
        "filter" | "share" | "eval" => over(alloc, table, command, numbers, rest),
        "take" => taking(alloc, table, numbers),
        "zoned" | "legacy" => zones(alloc, table, command, numbers, rest),
        "concat" => chunks(alloc, table, numbers, rest),
        "repeat" => repeated(alloc, table, numbers, rest),
        "pack" | "pack?" => structs(alloc, table, command, numbers, rest),
        "list" | "list?" => lists(alloc, table, command, numbers, rest),
        _ => Err(UNREAD),
    }
}
