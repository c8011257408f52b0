//! The commands, over one tree, a plan of it, and the bytes of its segments. What was lent is let go by `drop`, so that
//! the proof takes it apart there alone.

ghost use Rattle.std.specs.Prelude.{◌<◌, length};
ghost use Rattle.vx_expr.specs.Bound.{IsBoundTo};
ghost use Rattle.vx_plan.specs.Refs.{number_of};
ghost use Rattle.vx_plan.specs.Rules.{node_at};

use crate::answers::{write_columns, write_error};
use crate::scans::write_scan;
use crate::segments::{Segment, take_segments};
use crate::splits::write_splits;
use std::alloc::{AllocError, Global};
use std::mem::replace;
use vx_base::DType;
use vx_expr::{BoundExpression, bind};
use vx_expr_notation::spelled;
use vx_lower::{Lowered, plan_row_idx_expression};
use vx_plan::{PlanError, PlanRef, PlanTable, SharePlan};
use vx_steps::KeptValue;
use vx_tree_notation::{lowered, tree_of};

/// The plans that a tree was lowered to, of which the root is scanned, the bytes of the segments, and the leaves that
/// the last scan left.
#[derive(Drop)]
struct CaseState {
    plans: Lowered,
    file: Vec<Segment>,
    leaves: Vec<KeptValue>,
}

/// Says which plan is scanned, or what rule a plan breaks.
fn write_planned(
    plans: &mut Lowered,
    made: Result<PlanRef, PlanError>,
    out: &mut String,
) -> Result<(), AllocError> {
    match made {
        Ok(plan) => {
            plans.root = plan;
            write!(out, " plan {}", plan.0)
        }
        Err(PlanError::BadPlan { rule }) => { write!(out, " breaks rule {rule}") }
        Err(PlanError::Memory) => Err(AllocError),
    }
}

/// Plans an expression over the root.
fn write_bound(
    alloc: Global,
    plans: &mut Lowered,
    bound: &BoundExpression,
    out: &mut String,
) -> Result<(), AllocError>
    requires known { number_of plans.old.root < length plans.old.table }
    requires room { length plans.old.table < 1000000 }
{
    let made = plan_row_idx_expression(alloc, &mut plans.table, bound, plans.root);
    write_planned(plans, made, out)
}

/// Plans the expression that the words spell over the root.
fn write_over(
    alloc: Global,
    plans: &mut Lowered,
    words: &str,
    out: &mut String,
) -> Result<(), AllocError>
    requires known { number_of plans.old.root < length plans.old.table }
    requires room { length plans.old.table < 1000000 }
{
    let expr = spelled(alloc, words)?;
    let bound = bind(alloc, &expr, plans.table.dtype(plans.root));
    drop(expr);
    let written = match &bound {
        Ok(bound) => write_bound(alloc, plans, bound, out),
        Err(_) => out.push_str(" isn't bound"),
    };
    drop(bound);
    written
}

/// Plans whether zones are pruned by the predicate, over a zoned root.
fn write_pruning(
    alloc: Global,
    plans: &mut Lowered,
    predicate: &BoundExpression,
    out: &mut String,
) -> Result<(), AllocError>
    requires known { number_of plans.old.root < length plans.old.table }
    requires room { length plans.old.table < 1000000 }
    requires bound { IsBoundTo predicate.now (node_at plans.old.table (number_of plans.old.root)).dtype }
{
    let Some(zoned) = plans.table.as_zoned(plans.root) else {
        return out.push_str(" no zones");
    };
    let made = match predicate.dtype() {
        DType::Bool(_) => zoned.with_pruning(alloc, &mut plans.table, predicate),
        _ => return out.push_str(" no predicate"),
    };
    match made {
        Ok(Some(made)) => write_planned(plans, Ok(made.into_plan()), out),
        Ok(None) => out.push_str(" none"),
        Err(error) => write_planned(plans, Err(error), out),
    }
}

/// Plans whether zones are pruned by the predicate that the words spell, over a zoned root.
fn write_pruned(
    alloc: Global,
    plans: &mut Lowered,
    words: &str,
    out: &mut String,
) -> Result<(), AllocError>
    requires known { number_of plans.old.root < length plans.old.table }
    requires room { length plans.old.table < 1000000 }
{
    let expr = spelled(alloc, words)?;
    let bound = bind(alloc, &expr, plans.table.dtype(plans.root));
    drop(expr);
    let written = match &bound {
        Ok(bound) => write_pruning(alloc, plans, bound, out),
        Err(_) => out.push_str(" isn't bound"),
    };
    drop(bound);
    written
}

/// Plans a share of the root.
fn write_shared(alloc: Global, plans: &mut Lowered, out: &mut String) -> Result<(), AllocError>
    requires known { number_of plans.old.root < length plans.old.table }
    requires room { length plans.old.table < 1000000 }
{
    let made = match SharePlan::new(alloc, &mut plans.table, plans.root) {
        Ok(shared) => Ok(shared.into_plan()),
        Err(error) => Err(error),
    };
    write_planned(plans, made, out)
}

/// Lowers the tree of the nodes, of which there are few, and says the number of its plan. An expression behind ` | `
/// says which fields are kept.
fn write_tree(
    alloc: Global,
    plans: &mut Lowered,
    words: &str,
    out: &mut String,
) -> Result<(), AllocError> {
    let (text, words) = words.split_once(" | ").unwrap_or((words, ""));
    let Some(tree) = tree_of(alloc, text) else {
        return out.push_str(" no tree");
    };
    let made = lowered(alloc, &tree, words);
    drop(tree);
    drop(replace(plans, made?));
    write!(out, " plan {}", plans.root.0)
}

/// Appends the answer to a command over the plans, of which there are few.
fn write_on_plans(
    alloc: Global,
    case_state: &mut CaseState,
    command: &str,
    words: &str,
    out: &mut String,
) -> Result<(), AllocError> {
    let count = case_state.plans.table.len();
    if count <= case_state.plans.root.0 || 1000000 <= count {
        return Ok(());
    }
    match command {
        "over" => write_over(alloc, &mut case_state.plans, words, out),
        "share" => write_shared(alloc, &mut case_state.plans, out),
        "prune" => write_pruned(alloc, &mut case_state.plans, words, out),
        "scan" => write_scan(
            alloc,
            &case_state.plans,
            &case_state.file,
            &mut case_state.leaves,
            words,
            out,
        ),
        _ => out.push_str(" no command"),
    }
}

/// Appends the answer to a line.
fn write_answer(
    alloc: Global,
    case_state: &mut CaseState,
    line: &str,
    out: &mut String,
) -> Result<(), AllocError> {
    let (command, words) = line.split_once(' ').unwrap_or((line, ""));
    match command {
        "tree" => write_tree(alloc, &mut case_state.plans, words, out),
        "file" => take_segments(alloc, &mut case_state.file, words),
        "leaves" => write_columns(alloc, "leaf", &case_state.leaves, out),
        "splits" => write_splits(alloc, words, out),
        "error" => write_error(words, out),
        _ => write_on_plans(alloc, case_state, command, words, out),
    }
}

/// Appends the answer to a line that has one.
fn write_line(
    alloc: Global,
    case_state: &mut CaseState,
    line: &str,
    out: &mut String,
) -> Result<(), AllocError> {
    if line.is_empty() || line.starts_with("# ") {
        return Ok(());
    }
    out.push_str(" =>")
        .and(write_answer(alloc, case_state, line, out))
}

/// Appends each line with its answer.
fn write_case_state(
    alloc: Global,
    case_state: &mut CaseState,
    lines: &str,
    out: &mut String,
) -> Result<(), AllocError> {
    for line in lines.lines() {
        out.push_str(line)
            .and(write_line(alloc, case_state, line, out))
            .and(out.push('\n'))?;
    }
    Ok(())
}

/// Appends each line with its answer, where there is no plan at first.
pub(crate) fn write_lines(alloc: Global, lines: &str, out: &mut String) -> Result<(), AllocError> {
    let table = PlanTable::new(alloc);
    let root = PlanRef(0);
    let plans = Lowered { table, root };
    let mut case_state = CaseState {
        plans,
        file: Vec::new(alloc),
        leaves: Vec::new(alloc),
    };
    let written = write_case_state(alloc, &mut case_state, lines, out);
    drop(case_state);
    written
}
