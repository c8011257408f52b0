//! The commands, over one tree and the plans that it was lowered to. What was lent is let go by `drop`, so that the
//! proof takes it apart there alone.

ghost use Rattle.std.specs.Prelude.{◌<◌, length};
ghost use Rattle.vx_expr.specs.Bound.{IsBoundTo};
ghost use Rattle.vx_plan.specs.Refs.{number_of};
ghost use Rattle.vx_plan.specs.Rules.{node_at};

use crate::texts::write_text;
use std::alloc::{AllocError, Global};
use std::mem::replace;
use vx_base::DType;
use vx_expr::{BoundExpression, bind};
use vx_expr_notation::spelled;
use vx_layout::LayoutTree;
use vx_lower::{Lowered, plan_row_idx_expression};
use vx_plan::{PlanError, PlanRef, PlanTable, SharePlan};
use vx_tree_notation::{dtype_in, lowered, tree_of};

/// The tree, and the plans that it was lowered to, of which the root is spoken of.
#[derive(Drop)]
struct CaseState {
    tree: Option<LayoutTree>,
    plans: Lowered,
}

/// Says that a plan breaks a rule, and how many plans there are.
fn write_refused(table: &PlanTable, error: PlanError, out: &mut String) -> Result<(), AllocError> {
    match error {
        PlanError::BadPlan { rule } => { write!(out, " breaks rule {rule}, {} plans", table.len()) }
        PlanError::Memory => Err(AllocError),
    }
}

/// Plans an expression over the root, and appends the text of that plan.
fn write_planned(
    alloc: Global,
    plans: &mut Lowered,
    command: &str,
    bound: &BoundExpression,
    out: &mut String,
) -> Result<(), AllocError>
    requires known { number_of plans.old.root < length plans.old.table }
    requires room { length plans.old.table < 1000000 }
{
    match plan_row_idx_expression(alloc, &mut plans.table, bound, plans.root) {
        Ok(plan) => write_text(alloc, &plans.table, plan, command, "", out),
        Err(error) => write_refused(&plans.table, error, out),
    }
}

/// Plans the expression that the words spell over the root. It is bound to the dtype in front of ` | `, else to the
/// root's.
fn write_over(
    alloc: Global,
    plans: &mut Lowered,
    command: &str,
    words: &str,
    out: &mut String,
) -> Result<(), AllocError>
    requires known { number_of plans.old.root < length plans.old.table }
    requires room { length plans.old.table < 1000000 }
{
    let (dtype, words) = words.split_once(" | ").unwrap_or(("", words));
    let expr = spelled(alloc, words)?;
    let dtype = dtype_in(alloc, dtype);
    let bound = match &dtype {
        Some(dtype) => bind(alloc, &expr, dtype),
        None => bind(alloc, &expr, plans.table.dtype(plans.root)),
    };
    drop(dtype);
    drop(expr);
    let written = match &bound {
        Ok(bound) => write_planned(alloc, plans, command, bound, out),
        Err(_) => out.push_str(" isn't bound"),
    };
    drop(bound);
    written
}

/// Makes the pruning plan of a zoned root by the predicate, and appends its text.
fn write_pruning(
    alloc: Global,
    plans: &mut Lowered,
    predicate: &BoundExpression,
    out: &mut String,
) -> Result<(), AllocError>
    requires known { number_of plans.old.root < length plans.old.table }
    requires room { length plans.old.table < 1000000 }
    requires bound { IsBoundTo predicate.now (node_at plans.old.table (number_of plans.old.root)).dtype }
{
    let Some(zoned) = plans.table.as_zoned(plans.root) else {
        return out.push_str(" no zones");
    };
    let made = match predicate.dtype() {
        DType::Bool(_) => zoned.with_pruning(alloc, &mut plans.table, predicate),
        _ => return out.push_str(" no predicate"),
    };
    match made {
        Ok(Some(made)) => write_text(alloc, &plans.table, made.into_plan(), "prune", "", out),
        Ok(None) => out.push_str(" none"),
        Err(error) => write_refused(&plans.table, error, out),
    }
}

/// Makes the pruning plan of a zoned root by the predicate that the words spell, and appends its text.
fn write_pruned(
    alloc: Global,
    plans: &mut Lowered,
    words: &str,
    out: &mut String,
) -> Result<(), AllocError>
    requires known { number_of plans.old.root < length plans.old.table }
    requires room { length plans.old.table < 1000000 }
{
    let expr = spelled(alloc, words)?;
    let bound = bind(alloc, &expr, plans.table.dtype(plans.root));
    drop(expr);
    let written = match &bound {
        Ok(bound) => write_pruning(alloc, plans, bound, out),
        Err(_) => out.push_str(" isn't bound"),
    };
    drop(bound);
    written
}

/// Appends the text of a share of the root.
fn write_shared(alloc: Global, plans: &mut Lowered, out: &mut String) -> Result<(), AllocError>
    requires known { number_of plans.old.root < length plans.old.table }
    requires room { length plans.old.table < 1000000 }
{
    match SharePlan::new(alloc, &mut plans.table, plans.root) {
        Ok(shared) => write_text(alloc, &plans.table, shared.into_plan(), "share", "", out),
        Err(error) => write_refused(&plans.table, error, out),
    }
}

/// Appends the answer to a command over the plans, of which there are few.
fn write_on_plans(
    alloc: Global,
    plans: &mut Lowered,
    command: &str,
    words: &str,
    out: &mut String,
) -> Result<(), AllocError> {
    let count = plans.table.len();
    if count <= plans.root.0 || 1000000 <= count {
        return Ok(());
    }
    match command {
        "plans" => write!(out, " {count} plans"),
        "over" | "line" => write_over(alloc, plans, command, words, out),
        "share" => write_shared(alloc, plans, out),
        "prune" => write_pruned(alloc, plans, words, out),
        _ => write_text(alloc, &plans.table, plans.root, command, words, out),
    }
}

/// Takes the tree of the nodes, of which there are few, and says how many they are.
fn write_tree(
    alloc: Global,
    case_state: &mut CaseState,
    words: &str,
    out: &mut String,
) -> Result<(), AllocError> {
    drop(replace(&mut case_state.tree, tree_of(alloc, words)));
    match &case_state.tree {
        Some(tree) => write!(out, " {} nodes", tree.len()),
        None => out.push_str(" no tree"),
    }
}

/// Lowers the tree, where there is one, and appends the text of its plan.
fn write_lowered(
    alloc: Global,
    case_state: &mut CaseState,
    words: &str,
    out: &mut String,
) -> Result<(), AllocError> {
    if let Some(tree) = &case_state.tree {
        let made = lowered(alloc, tree, words)?;
        drop(replace(&mut case_state.plans, made));
    }
    write_on_plans(alloc, &mut case_state.plans, "lower", "", out)
}

/// Appends the answer to a command.
fn write_answer(
    alloc: Global,
    case_state: &mut CaseState,
    line: &str,
    out: &mut String,
) -> Result<(), AllocError> {
    let (command, words) = line.split_once(' ').unwrap_or((line, ""));
    match command {
        "tree" => write_tree(alloc, case_state, words, out),
        "lower" => write_lowered(alloc, case_state, words, out),
        _ => write_on_plans(alloc, &mut case_state.plans, command, words, out),
    }
}

/// Appends the answer to a line that has one.
fn write_line(
    alloc: Global,
    case_state: &mut CaseState,
    line: &str,
    out: &mut String,
) -> Result<(), AllocError> {
    if line.is_empty() || line.starts_with("# ") {
        return Ok(());
    }
    out.push_str(" =>")
        .and(write_answer(alloc, case_state, line, out))
}

/// Appends each line with its answer.
fn write_lines(
    alloc: Global,
    case_state: &mut CaseState,
    lines: &str,
    out: &mut String,
) -> Result<(), AllocError> {
    for line in lines.lines() {
        out.push_str(line)
            .and(write_line(alloc, case_state, line, out))
            .and(out.push('\n'))?;
    }
    Ok(())
}

/// Appends each line with its answer, where there is no tree at first.
pub(crate) fn write_answers(
    alloc: Global,
    lines: &str,
    out: &mut String,
) -> Result<(), AllocError> {
    let table = PlanTable::new(alloc);
    let root = PlanRef(0);
    let plans = Lowered { table, root };
    let mut case_state = CaseState { tree: None, plans };
    let written = write_lines(alloc, &mut case_state, lines, out);
    drop(case_state);
    written
}
