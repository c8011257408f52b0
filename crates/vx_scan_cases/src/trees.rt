//! The plans of a tree, and of whether its zones are pruned.

ghost use Rattle.std.specs.Prelude.{◌<◌, length, IfSome};
ghost use Rattle.vx_expr.specs.Bound.{IsBoundTo};
ghost use Rattle.vx_plan.specs.Refs.{number_of};
ghost use Rattle.vx_plan.specs.Rules.{node_at};

use crate::commands::CaseState;
use std::alloc::{AllocError, Global};
use vx_base::DType;
use vx_expr::{BoundExpression, bind};
use vx_expr_notation::spelled;
use vx_lower::Lowered;
use vx_plan::PlanRef;
use vx_tree_notation::{lowered, tree_of};

/// The plans that the tree of the nodes is lowered to; none where they are no tree.
fn tree_plans(alloc: Global, nodes: &str) -> Option<Lowered>
    ensures { IfSome result (λ plans. number_of plans.root < length plans.table) }
{
    let tree = tree_of(alloc, nodes)?;
    let plans = lowered(alloc, &tree, "").ok();
    drop(tree);
    plans
}

/// The predicate that the words spell, over the rows of the root; none where it can't be bound.
fn predicate_of(alloc: Global, plans: &Lowered, words: &str) -> Option<BoundExpression>
    requires { number_of plans.now.root < length plans.now.table }
    ensures { IfSome result (λ predicate. IsBoundTo predicate (node_at plans.now.table (number_of plans.now.root)).dtype) }
{
    let expr = spelled(alloc, words).ok()?;
    let bound = bind(alloc, &expr, plans.table.dtype(plans.root));
    drop(expr);
    match bound {
        Ok(predicate) => Some(predicate),
        Err(_) => None,
    }
}

/// The plan of whether zones are pruned by the predicate, over the root; none where that isn't over zones, or no zone can
/// be pruned.
fn pruning_of(alloc: Global, plans: &mut Lowered, predicate: &BoundExpression) -> Option<PlanRef>
    requires known { number_of plans.old.root < length plans.old.table }
    requires room { length plans.old.table < 1000000 }
    requires bound { IsBoundTo predicate.now (node_at plans.old.table (number_of plans.old.root)).dtype }
{
    let zoned = plans.table.as_zoned(plans.root)?;
    let made = match predicate.dtype() {
        DType::Bool(_) => zoned.with_pruning(alloc, &mut plans.table, predicate),
        _ => return None,
    };
    match made {
        Ok(Some(pruning)) => Some(pruning.into_plan()),
        _ => None,
    }
}

/// The plans with that of whether zones are pruned by the predicate of the words in place of the root; none where there
/// is no such plan.
fn pruned(alloc: Global, mut plans: Lowered, words: &str) -> Option<Lowered>
    requires { number_of plans.root < length plans.table }
    ensures { IfSome result (λ made. number_of made.root < length made.table) }
{
    if plans.table.len() >= 1000000 {
        return None;
    }
    let Some(predicate) = predicate_of(alloc, &plans, words) else {
        return None;
    };
    let made = pruning_of(alloc, &mut plans, &predicate);
    drop(predicate);
    match made {
        Some(root) if root.0 < plans.table.len() => {
            plans.root = root;
            Some(plans)
        }
        _ => None,
    }
}

/// The plans of the tree, of which the root is the tree's, or tells whether its zones are pruned where a predicate is
/// said; none where there is no such plan.
pub(crate) fn lowered_of(alloc: Global, case_state: CaseState<'_>) -> Option<Lowered>
    ensures { IfSome result (λ plans. number_of plans.root < length plans.table) }
{
    let plans = tree_plans(alloc, case_state.nodes)?;
    if case_state.predicate.is_empty() {
        return Some(plans);
    }
    pruned(alloc, plans, case_state.predicate)
}

/// Says the number of the root, or what there isn't.
pub(crate) fn write_plan(
    alloc: Global,
    case_state: CaseState<'_>,
    missing: &str,
    out: &mut String,
) -> Result<(), AllocError> {
    let Some(plans) = lowered_of(alloc, case_state) else {
        return write!(out, " {missing}");
    };
    let root = plans.root.0;
    drop(plans);
    write!(out, " plan {root}")
}
