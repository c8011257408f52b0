//! Columns of the selected rows of a plan: those of a range of a mask, values at codes, structs of parts, an expression
//! over its root, and the numbers of the rows.

ghost use Rattle.std.specs.Prelude.{◌≡◌, ◌+◌, ◌-◌, ◌<◌, ◌≤◌, ◌^◌, length, map, slice_range, Some, true, IfOk, IfErr, IsTrue};
ghost use Rattle.std.specs.Bool.{MatchBool};
ghost use Rattle.std.specs.List.{flat_map, All, AllByRecursion};
ghost use Rattle.vx_base.specs.Fits.{nullability_of};
ghost use Rattle.vx_base.specs.ColumnCalls.{natural, nullable_where, IsUnsigned};
ghost use Rattle.vx_base.specs.Masks.{chosen, true_count};
ghost use Rattle.vx_expr.specs.Bound.{IsBoundTo};
ghost use Rattle.vx_expr.specs.Types.{row_number_type};
ghost use Rattle.vx_picking.specs.RowFaults.{root_meaning};
ghost use Rattle.vx_picking.specs.Rows.{rows_of, SelectsNone, SelectsSome};
ghost use Rattle.vx_plan.specs.Kinds.{has_validity_of, HasKind, IsPack};
ghost use Rattle.vx_plan.specs.Rules.{node_at};
ghost use Rattle.vx_rows.specs.Derivations.{look_up};
ghost use Rattle.vx_steps.specs.RowFaults.{IsCodeFault, IsEvalFault};
ghost use Rattle.vx_steps.specs.Structs.{field_parts, front_parts, last_part, structs_at, truths_of, validity_part, HaveTypes, LastIsBool};

use crate::errors::StepError;
use std::alloc::{AllocError, Global};
use std::ops::Range;
use vx_base::{Column, Mask};
use vx_expr::{ApplyError, BoundExpression};
use vx_picking::{LookUpError, picked};
use vx_plan::{PlanRef, PlanTable};

/// Whether no row is selected.
pub(crate) fn selects_none(mask: &Mask) -> bool
    ensures { MatchBool result (SelectsNone mask.now) (SelectsSome mask.now) }
{
    mask.first().is_none()
}

/// The rows of a column that a range of a mask selects, from the first row of that range on. Where the whole mask is
/// known to select each row, no mask is made of the range, and no row copied where these are all rows of a column that
/// shares them.
pub(crate) fn picked_range(
    alloc: Global,
    column: &Column,
    start: u64,
    mask: &Mask,
    selects_all: bool,
    range: Range<u64>,
) -> Result<Column, AllocError>
    requires all { IsTrue selects_all → All (λ bit. bit ≡ true) mask.now }
    requires forwards { range.start ≤ range.end }
    requires masked { range.end ≤ length mask.now }
    requires inside { start + (range.end - range.start) ≤ length column.now.values }
    ensures dtype { IfOk result (λ picked. picked.dtype ≡ column.now.dtype) }
    ensures values { IfOk result (λ picked. picked.values ≡ chosen (slice_range mask.now range.start range.end) (slice_range column.now.values start (start + length (slice_range mask.now range.start range.end)))) }
{
    if !selects_all {
        let some = mask.slice(alloc, range)?;
        return picked(alloc, column, start, &some);
    }
    let _rows = column.len();
    let end = start + (range.end - range.start);
    column.slice(alloc, start..end)
}

/// The columns one after another, as rows of the plan.
pub(crate) fn joined(
    alloc: Global,
    table: &PlanTable,
    plan: u32,
    parts: Vec<Column>,
) -> Result<Column, AllocError>
    requires known { plan < length table.now }
    requires dtypes { AllByRecursion (λ part. part.dtype ≡ (node_at table.now plan).dtype) parts.items }
    ensures dtype { IfOk result (λ column. column.dtype ≡ (node_at table.now plan).dtype) }
    ensures values { IfOk result (λ column. column.values ≡ flat_map (λ part. part.values) parts.items) }
{
    let dtype = table.dtype(PlanRef(plan)).copy(alloc)?;
    Column::concat(alloc, dtype, parts)
}

/// The values at the codes of a take; a fault names the row of the first code that is none of them.
pub(crate) fn looked_up(
    alloc: Global,
    plan: u32,
    codes: &Column,
    values: &Column,
    start: u64,
    mask: &Mask,
) -> Result<Column, StepError>
    requires unsigned { IsUnsigned codes.now.dtype }
    requires few { start + length mask.now < 2 ^ 64 }
    ensures dtype { IfOk result (λ column. column.dtype ≡ nullable_where (nullability_of codes.now.dtype) values.now.dtype) }
    ensures values { IfOk result (λ column. map (look_up values.now.values) codes.now.values ≡ map Some column.values) }
    ensures fault { IfErr result (IsCodeFault plan (length values.now.values) codes.now.values start mask.now) }
{
    match vx_picking::looked_up(alloc, codes, values, start, mask) {
        Ok(column) => Ok(column),
        Err(LookUpError::BadCode(row)) => Err(StepError::BadCode {
            node: PlanRef(plan),
            row,
        }),
        Err(LookUpError::Memory) => Err(StepError::Memory),
    }
}

/// An expression over the values of its root; a fault names the first row at which it is one.
pub(crate) fn worked_out(
    alloc: Global,
    expression: &BoundExpression,
    root: &Column,
    start: u64,
    mask: &Mask,
) -> Result<Column, StepError>
    requires bound { IsBoundTo expression.now root.now.dtype }
    requires few { start + length mask.now < 2 ^ 64 }
    ensures dtype { IfOk result (λ column. column.dtype ≡ expression.now.dtype) }
    ensures values { IfOk result (λ column. map (root_meaning root.now.dtype expression.now.term) root.now.values ≡ map Some column.values) }
    ensures fault { IfErr result (IsEvalFault root.now.dtype expression.now.term root.now.values start mask.now) }
{
    match vx_picking::worked_out(alloc, expression, root, start, mask) {
        Ok(column) => Ok(column),
        Err(ApplyError::EvalFault(row)) => Err(StepError::EvalFault(row)),
        Err(ApplyError::Memory) => Err(StepError::Memory),
    }
}

/// The numbers of the selected rows, behind an offset.
pub(crate) fn numbered(
    alloc: Global,
    start: u64,
    offset: u64,
    mask: &Mask,
) -> Result<Column, AllocError>
    requires { start + length mask.now + offset < 2 ^ 64 }
    ensures dtype { IfOk result (λ column. column.dtype ≡ row_number_type) }
    ensures values { IfOk result (λ column. column.values ≡ map (λ row. natural (row + offset)) (rows_of start mask.now)) }
{
    let mut numbers = Vec::with_capacity(alloc, mask.true_count() as usize)?;
    for row in 0..mask.len() {
        if mask.value(row) {
            numbers.push(start + row + offset)?;
        }
    }
    Column::from_numbers(alloc, numbers)
}

/// The truth values of the last of the columns, which is taken away. None where there are no columns.
fn last_truths(alloc: Global, parts: &mut Vec<Column>) -> Result<Option<Mask>, AllocError>
    requires { LastIsBool parts.old.items }
    ensures truths { IfOk result (λ truths. truths ≡ truths_of (last_part parts.old.items)) }
    ensures left { IfOk result (λ _. parts.new.items ≡ front_parts parts.old.items) }
{
    match parts.pop() {
        Some(validity) => {
            let truth = validity.truth(alloc);
            drop(validity);
            let truth = truth?;
            Ok(Some(truth))
        }
        None => Ok(None),
    }
}

/// The truth values of the validity, where there is one: it is the last of the columns, and taken away.
fn taken_validity(
    alloc: Global,
    has_validity: bool,
    parts: &mut Vec<Column>,
) -> Result<Option<Mask>, AllocError>
    requires { IsTrue has_validity → LastIsBool parts.old.items }
    ensures truths { IfOk result (λ truths. truths ≡ validity_part has_validity parts.old.items) }
    ensures left { IfOk result (λ _. parts.new.items ≡ field_parts has_validity parts.old.items) }
{
    if has_validity {
        last_truths(alloc, parts)
    } else {
        Ok(None)
    }
}

/// Structs of the fields of a plan, from the columns of its children, of which the last is the validity where there is
/// one: a struct is null where that is false.
pub(crate) fn structs(
    alloc: Global,
    table: &PlanTable,
    plan: u32,
    mut parts: Vec<Column>,
    rows: u64,
) -> Result<Column, AllocError>
    requires known { HasKind IsPack table.now plan }
    requires typed { HaveTypes table.now (node_at table.now plan).children parts.items }
    requires rows { AllByRecursion (λ part. length part.values ≡ rows) parts.items }
    ensures dtype { IfOk result (λ column. column.dtype ≡ (node_at table.now plan).dtype) }
    ensures values { IfOk result (λ column. column.values ≡ structs_at (has_validity_of (node_at table.now plan).kind) parts.items rows) }
{
    table.keeps_rules();
    match table.as_pack(PlanRef(plan)) {
        Some(pack) => {
            let fields = pack.fields(table).copy(alloc)?;
            let validity = pack.validity(table).is_some();
            let validity = taken_validity(alloc, validity, &mut parts)?;
            Column::pack(alloc, fields, parts, validity, rows)
        }
        None => unreachable!(),
    }
}
