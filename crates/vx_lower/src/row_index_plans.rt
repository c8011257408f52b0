//! The plan of an expression over a plan and the numbers of its rows.

ghost use Rattle.std.specs.Prelude.{◌≡◌, ◌<◌, [], false, length, true, IfErr, IfOk, OnErr, OnOk};
ghost use Rattle.vx_base.specs.Views.{data_type, members_of};
ghost use Rattle.vx_expr.specs.Bound.{IsBoundTo};
ghost use Rattle.vx_expr.specs.Mentions.{uses_root, uses_row_number};
ghost use Rattle.vx_expr.specs.Types.{row_number_type};
ghost use Rattle.vx_plan.specs.Limits.{most_plans, most_before_four};
ghost use Rattle.vx_plan.specs.declared.errors.PlanError.TheVariants.{Memory};
ghost use Rattle.vx_plan.specs.Plans.{plan_at};
ghost use Rattle.vx_plan.specs.Refs.{number_of};
ghost use Rattle.vx_plan.specs.Rules.{eval_node, node_at, row_idx_node};
ghost use Rattle.vx_plan.specs.Tables.{IsAdded, IsGoodTable};
ghost use Rattle.vx_lower.specs.PlannedOver.{HoldsAll, IsPlannedOver, IsWorthOver, ReadsOver, RefusedOver};
ghost use Rattle.vx_lower.specs.RowNumberPlans.{empty_node, numbered_members, numbered_node};

use std::alloc::{AllocError, Global};
use vx_base::{DType, Field, Fields, IntKind, Nullability, Text};
use vx_expr::BoundExpression;
use vx_plan::{EvalPlan, PackPlan, PlanChildren, PlanError, PlanRef, PlanTable, RowIdxPlan};

/// The dtype of the numbers of rows: `u64` without nulls.
pub fn row_idx_dtype() -> DType
    ensures { data_type result ≡ row_number_type }
{
    DType::Int(IntKind::U64, Nullability::NonNullable)
}

/// Adds the plan of an expression that is bound to its child's dtype and doesn't use the row's number.
fn add_eval(
    alloc: Global,
    table: &mut PlanTable,
    expression: BoundExpression,
    child: PlanRef,
) -> Result<PlanRef, AllocError>
    requires room { length table.old < most_plans }
    requires known { number_of child < length table.old }
    requires bound { IsBoundTo expression (node_at table.old (number_of child)).dtype }
    requires unnumbered { uses_row_number expression.term ≡ false }
    ensures added { IfOk result (λ plan. IsAdded table.old table.new (eval_node table.old expression (number_of child)) (number_of plan)) }
    ensures unchanged { OnErr result (table.new ≡ table.old) }
{
    match EvalPlan::try_new(alloc, table, expression, child) {
        Ok(plan) => Ok(plan.into_plan()),
        Err(PlanError::Memory) => Err(AllocError),
        Err(PlanError::BadPlan { .. }) => unreachable!(),
    }
}

/// Adds the plan of the numbers of so many rows.
fn add_row_numbers(
    alloc: Global,
    table: &mut PlanTable,
    row_count: u64,
) -> Result<PlanRef, AllocError>
    requires room { length table.old < most_plans }
    ensures added { IfOk result (λ plan. IsAdded table.old table.new (row_idx_node row_count) (number_of plan)) }
    ensures unchanged { OnErr result (table.new ≡ table.old) }
{
    match RowIdxPlan::new(alloc, table, row_count) {
        Ok(plan) => Ok(plan.into_plan()),
        Err(PlanError::Memory) => Err(AllocError),
        Err(PlanError::BadPlan { .. }) => unreachable!(),
    }
}

/// Adds a plan of so many empty structs.
fn add_empty_structs(
    alloc: Global,
    table: &mut PlanTable,
    row_count: u64,
) -> Result<PlanRef, AllocError>
    requires room { length table.old < most_plans }
    ensures added { IfOk result (λ plan. IsAdded table.old table.new (empty_node row_count) (number_of plan)) }
    ensures unchanged { OnErr result (table.new ≡ table.old) }
{
    let fields = Fields::from_vec(Vec::new(alloc));
    let children = PlanChildren::from(Vec::new(alloc));
    match PackPlan::try_new(
        alloc,
        table,
        fields,
        Nullability::NonNullable,
        row_count,
        children,
        None,
    ) {
        Ok(plan) => Ok(plan.into_plan()),
        Err(PlanError::Memory) => Err(AllocError),
        Err(PlanError::BadPlan { .. }) => unreachable!(),
    }
}

/// A field of that name.
fn field(alloc: Global, name: &str, dtype: DType) -> Result<Field, AllocError>
    ensures name { IfOk result (λ field. field.name ≡ name.now) }
    ensures dtype { IfOk result (λ field. data_type field.dtype ≡ data_type dtype) }
{
    let name = Text::from_string(String::from_str(alloc, name)?);
    Ok(Field { name, dtype })
}

/// Appends a field of row numbers and a field of the dtype.
fn push_numbered(alloc: Global, dtype: &DType, fields: &mut Vec<Field>) -> Result<(), AllocError>
    requires { fields.old.items ≡ [] }
    ensures { OnOk result (members_of fields.new.items ≡ numbered_members (data_type dtype.now)) }
{
    fields.push(field(alloc, "row_idx", row_idx_dtype())?)?;
    fields.push(field(alloc, "child", dtype.copy(alloc)?)?)?;
    Ok(())
}

/// A field of row numbers and a field of the dtype.
fn numbered_fields(alloc: Global, dtype: &DType) -> Result<Fields, AllocError>
    ensures { IfOk result (λ fields. fields ≡ numbered_members (data_type dtype.now)) }
{
    let mut fields = Vec::with_capacity(alloc, 2)?;
    push_numbered(alloc, dtype, &mut fields)?;
    Ok(Fields::from_vec(fields))
}

/// Adds the plan of structs of a row's number and a row of the child.
fn add_numbered_rows(
    alloc: Global,
    table: &mut PlanTable,
    numbers: PlanRef,
    child: PlanRef,
) -> Result<PlanRef, AllocError>
    requires room { length table.old < most_plans }
    requires known { number_of child < length table.old }
    requires numbers { number_of numbers < length table.old }
    requires numbered { node_at table.old (number_of numbers) ≡ row_idx_node (node_at table.old (number_of child)).rows }
    ensures added { IfOk result (λ plan. IsAdded table.old table.new (numbered_node table.old (number_of numbers) (number_of child)) (number_of plan)) }
    ensures unchanged { OnErr result (table.new ≡ table.old) }
{
    let fields = numbered_fields(alloc, table.dtype(child))?;
    let children = PlanChildren::from(vec![in alloc; numbers, child]?);
    let row_count = table.row_count(child);
    match PackPlan::try_new(
        alloc,
        table,
        fields,
        Nullability::NonNullable,
        row_count,
        children,
        None,
    ) {
        Ok(plan) => Ok(plan.into_plan()),
        Err(PlanError::Memory) => Err(AllocError),
        Err(PlanError::BadPlan { .. }) => unreachable!(),
    }
}

/// Plans an expression that uses the root alone.
fn over_child(
    alloc: Global,
    table: &mut PlanTable,
    expression: &BoundExpression,
    child: PlanRef,
) -> Result<PlanRef, AllocError>
    requires room { length table.old < most_before_four }
    requires good { IsGoodTable table.old }
    requires known { number_of child < length table.old }
    requires bound { IsBoundTo expression.now (node_at table.old (number_of child)).dtype }
    requires rooted { uses_root expression.now.term ≡ true }
    requires unnumbered { uses_row_number expression.now.term ≡ false }
    ensures planned { IfOk result (λ plan. IsPlannedOver table.old table.new expression.now (number_of child) (number_of plan)) }
    ensures kept { OnErr result (HoldsAll table.old table.new) }
{
    let copied = expression.copy(alloc)?;
    add_eval(alloc, table, copied, child)
}

/// Plans an expression that uses the row's number alone: it becomes the root.
fn over_row_numbers(
    alloc: Global,
    table: &mut PlanTable,
    expression: &BoundExpression,
    child: PlanRef,
) -> Result<PlanRef, AllocError>
    requires room { length table.old < most_before_four }
    requires good { IsGoodTable table.old }
    requires known { number_of child < length table.old }
    requires rootless { uses_root expression.now.term ≡ false }
    requires numbered { uses_row_number expression.now.term ≡ true }
    ensures planned { IfOk result (λ plan. IsPlannedOver table.old table.new expression.now (number_of child) (number_of plan)) }
    ensures kept { OnErr result (HoldsAll table.old table.new) }
{
    let row_count = table.row_count(child);
    let numbers = add_row_numbers(alloc, table, row_count)?;
    let over_numbers = expression.row_idx_as_root(alloc)?;
    add_eval(alloc, table, over_numbers, numbers)
}

/// Plans an expression that uses neither: it is worked out at as many empty structs as there are rows.
fn over_empty_structs(
    alloc: Global,
    table: &mut PlanTable,
    expression: &BoundExpression,
    child: PlanRef,
) -> Result<PlanRef, AllocError>
    requires room { length table.old < most_before_four }
    requires good { IsGoodTable table.old }
    requires known { number_of child < length table.old }
    requires rootless { uses_root expression.now.term ≡ false }
    requires unnumbered { uses_row_number expression.now.term ≡ false }
    ensures planned { IfOk result (λ plan. IsPlannedOver table.old table.new expression.now (number_of child) (number_of plan)) }
    ensures kept { OnErr result (HoldsAll table.old table.new) }
{
    let row_count = table.row_count(child);
    let structs = add_empty_structs(alloc, table, row_count)?;
    let copied = expression.copy(alloc)?;
    add_eval(alloc, table, copied, structs)
}

/// Plans an expression that uses both: it is worked out at structs of a row's number and a row of the child.
fn over_numbered_rows(
    alloc: Global,
    table: &mut PlanTable,
    expression: &BoundExpression,
    child: PlanRef,
) -> Result<PlanRef, AllocError>
    requires room { length table.old < most_before_four }
    requires good { IsGoodTable table.old }
    requires known { number_of child < length table.old }
    requires bound { IsBoundTo expression.now (node_at table.old (number_of child)).dtype }
    requires rooted { uses_root expression.now.term ≡ true }
    requires numbered { uses_row_number expression.now.term ≡ true }
    ensures planned { IfOk result (λ plan. IsPlannedOver table.old table.new expression.now (number_of child) (number_of plan)) }
    ensures kept { OnErr result (HoldsAll table.old table.new) }
{
    let row_count = table.row_count(child);
    let numbers = add_row_numbers(alloc, table, row_count)?;
    let rows = add_numbered_rows(alloc, table, numbers, child)?;
    let over_both = expression.over_row_idx(alloc)?;
    add_eval(alloc, table, over_both, rows)
}

/// Plans an expression that is bound to the child's dtype, by what it uses.
fn plan_bound(
    alloc: Global,
    table: &mut PlanTable,
    expression: &BoundExpression,
    child: PlanRef,
) -> Result<PlanRef, AllocError>
    requires room { length table.old < most_before_four }
    requires good { IsGoodTable table.old }
    requires known { number_of child < length table.old }
    requires bound { IsBoundTo expression.now (node_at table.old (number_of child)).dtype }
    ensures planned { IfOk result (λ plan. IsPlannedOver table.old table.new expression.now (number_of child) (number_of plan)) }
    ensures kept { OnErr result (HoldsAll table.old table.new) }
{
    match (expression.uses_root(), expression.uses_row_idx()) {
        (false, false) => over_empty_structs(alloc, table, expression, child),
        (false, true) => over_row_numbers(alloc, table, expression, child),
        (true, false) => over_child(alloc, table, expression, child),
        (true, true) => over_numbered_rows(alloc, table, expression, child),
    }
}

/// The plan of the expression at each row of the child and at the row's number. Rule 3 is refused, exactly where
/// the expression isn't bound to the child's dtype. After an error the table is as it was.
pub fn plan_row_idx_expression(
    alloc: Global,
    table: &mut PlanTable,
    expression: &BoundExpression,
    child: PlanRef,
) -> Result<PlanRef, PlanError>
    requires room { length table.old < most_before_four }
    requires known { number_of child < length table.old }
    // The plan, and what its rows are worth and read.
    ensures planned { IfOk result (λ plan. IsPlannedOver table.old table.new expression.now (number_of child) (number_of plan)) }
    ensures value { IfOk result (λ plan. IsWorthOver expression.now.term (plan_at table.old (number_of child)) (plan_at table.new (number_of plan))) }
    ensures reads { IfOk result (λ plan. ReadsOver expression.now.term (plan_at table.old (number_of child)) (plan_at table.new (number_of plan))) }
    // When it is refused, and what then stands.
    ensures bound { OnOk result (IsBoundTo expression.now (node_at table.old (number_of child)).dtype) }
    ensures refused { IfErr result (RefusedOver expression.now (node_at table.old (number_of child)).dtype) }
    ensures unchanged { OnErr result (table.new ≡ table.old) }
{
    if !expression.is_root_bound_to(table.dtype(child)) {
        return Err(PlanError::BadPlan { rule: 3 });
    }
    let count = table.len();
    match plan_bound(alloc, table, expression, child) {
        Ok(plan) => Ok(plan),
        Err(AllocError) => {
            table.truncate(count);
            Err(PlanError::Memory)
        }
    }
}
