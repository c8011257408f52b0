//! The rules of plans, tried on a node before it comes into the table.

ghost use Rattle.std.specs.Prelude.{◌≡◌, ◌<◌, ◌↔◌, length, map, IsTrue, IfErr, IfOk, OnOk, Some, option_map, slice_get};
ghost use Rattle.vx_plan.specs.Nodes.{node_data};
ghost use Rattle.vx_plan.specs.Rules.{nodes_at, Asks, HasLeafType, HasNoRowIndex, HasUnsignedCodes, IsBoundOver, KeepsRules, RefusedBy};
ghost use Rattle.vx_plan.specs.Tables.{AreIn};

use crate::children::PlanChildren;
use crate::errors::PlanError;
use crate::field_checks::{has_fitting_count, have_fitting_rows, have_fitting_types};
use crate::nodes::{PlanKind, PlanNode};
use crate::rules::PlanRule;
use crate::zone_checks::have_fitting_zones;
use std::alloc::{AllocError, Global};
use vx_base::{DType, is_leaf, is_unsigned};
use vx_expr::BoundExpression;

/// The node of the child at a place.
pub fn child_at<'a>(nodes: &'a [PlanNode], children: &PlanChildren, place: usize) -> &'a PlanNode
    requires known { AreIn (map node_data nodes.now) children.now }
    requires place { place < length children.now }
    ensures { slice_get (nodes_at (map node_data nodes.now) children.now) place ≡ Some (node_data result.now) }
{
    &nodes[children.at(place) as usize]
}

/// The node of the child at a place, and `None` past the last.
pub fn child_in<'a>(
    nodes: &'a [PlanNode],
    children: &PlanChildren,
    place: usize,
) -> Option<&'a PlanNode>
    requires { AreIn (map node_data nodes.now) children.now }
    ensures { option_map (λ child. node_data child.now) result ≡ slice_get (nodes_at (map node_data nodes.now) children.now) place }
{
    if place < children.len() {
        Some(child_at(nodes, children, place))
    } else {
        None
    }
}

/// Whether an expression is bound to the child's dtype.
fn is_bound(nodes: &[PlanNode], node: &PlanNode) -> bool
    requires { AreIn (map node_data nodes.now) node.now.children }
    ensures { IsTrue result ↔ IsBoundOver node.now.kind (nodes_at (map node_data nodes.now) node.now.children) }
{
    match &node.kind {
        PlanKind::Eval(expression) => match child_in(nodes, &node.children, 0) {
            Some(child) => expression.bound().is_root_bound_to(child.dtype()),
            None => false,
        },
        _ => true,
    }
}

/// Whether no expression uses the row index.
fn has_no_row_index(node: &PlanNode) -> bool
    ensures { IsTrue result ↔ HasNoRowIndex node.now.kind }
{
    match &node.kind {
        PlanKind::Eval(expression) => !expression.bound().uses_row_idx(),
        _ => true,
    }
}

/// Whether the codes of a take are unsigned.
fn has_unsigned_codes(nodes: &[PlanNode], node: &PlanNode) -> bool
    requires { AreIn (map node_data nodes.now) node.now.children }
    ensures { IsTrue result ↔ HasUnsignedCodes node.now.kind (nodes_at (map node_data nodes.now) node.now.children) }
{
    match node.kind {
        PlanKind::Take => match child_in(nodes, &node.children, 0) {
            Some(codes) => is_unsigned(codes.dtype()),
            None => false,
        },
        _ => true,
    }
}

/// Whether a segment has the dtype of a leaf.
fn has_leaf_type(node: &PlanNode) -> bool
    ensures { IsTrue result ↔ HasLeafType node.now.kind (node_data node.now).dtype }
{
    match node.kind {
        PlanKind::SegmentScan { .. } => is_leaf(node.dtype()),
        _ => true,
    }
}

/// Whether the node has what the rule asks.
fn has_asked(
    alloc: Global,
    nodes: &[PlanNode],
    rule: PlanRule,
    node: &PlanNode,
) -> Result<bool, AllocError>
    requires { AreIn (map node_data nodes.now) node.now.children }
    ensures { IfOk result (λ asked. IsTrue asked ↔ Asks rule (node_data node.now) (nodes_at (map node_data nodes.now) node.now.children)) }
{
    match rule {
        PlanRule::ChildTypes => Ok(have_fitting_types(nodes, node)),
        PlanRule::ChildRows => Ok(have_fitting_rows(nodes, node)),
        PlanRule::BoundExpression => Ok(is_bound(nodes, node)),
        PlanRule::NoRowIndex => Ok(has_no_row_index(node)),
        PlanRule::FieldCount => Ok(has_fitting_count(node)),
        PlanRule::UnsignedCodes => Ok(has_unsigned_codes(nodes, node)),
        PlanRule::LeafType => Ok(has_leaf_type(node)),
        PlanRule::FittingZones => Ok(have_fitting_zones(alloc, nodes, node)?),
    }
}

/// Whether the node keeps every rule. The rules are tried in their order.
pub fn check(alloc: Global, nodes: &[PlanNode], node: &PlanNode) -> Result<(), PlanError>
    requires { AreIn (map node_data nodes.now) node.now.children }
    ensures kept { OnOk result (KeepsRules (node_data node.now) (nodes_at (map node_data nodes.now) node.now.children)) }
    ensures refused { IfErr result (RefusedBy (node_data node.now) (nodes_at (map node_data nodes.now) node.now.children)) }
{
    for number in 1..9 {
        if !has_asked(alloc, nodes, PlanRule::of_number(number), node)? {
            return Err(PlanError::BadPlan { rule: number });
        }
    }
    Ok(())
}
