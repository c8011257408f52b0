//! The first fault of a list of nodes, by rule and then by node.

ghost use Rattle.std.specs.Prelude.{◌<◌, ◌≤◌, ◌↔◌, length, map, IfOk, OnOk, IfErr, IsTrue};
ghost use Rattle.vx_layout.specs.Facts.{AreFacts};
ghost use Rattle.vx_layout.specs.Faults.{BreaksFirst, RefusedBy};
ghost use Rattle.vx_layout.specs.Nodes.{node_data};
ghost use Rattle.vx_layout.specs.Shape.{node_limit, Asks, IsGoodTree, Keeps};

use crate::errors::LayoutError;
use crate::facts::{Facts, facts_of};
use crate::nodes::LayoutNode;
use crate::number_rules::{
    has_few_coded_rows, has_few_rows, has_fitting_count, has_later_children, is_child_once,
    is_shallow,
};
use crate::row_rules::{have_fitting_rows, have_fitting_zones};
use crate::rules::ShapeRule;
use crate::type_rules::{has_unsigned_codes, have_fitting_types};
use std::alloc::{AllocError, Global};
use vx_base::has_distinct_names;

/// One more than the number of the last rule.
const PAST_LAST_RULE: u8 = 13;

/// Whether the node of that number has what the rule asks.
fn has_asked(
    alloc: Global,
    facts: &Facts,
    nodes: &[LayoutNode],
    rule: ShapeRule,
    number: usize,
    node: &LayoutNode,
) -> Result<bool, AllocError>
    requires place { number < length nodes.now }
    requires facts { AreFacts (map node_data nodes.now) facts.now }
    ensures { IfOk result (λ has. IsTrue has ↔ Asks rule (map node_data nodes.now) number (node_data node.now)) }
{
    Ok(match rule {
        ShapeRule::Nonempty => true,
        ShapeRule::LaterChildren => has_later_children(nodes, number, node),
        ShapeRule::ChildOnce => is_child_once(nodes, facts, number),
        ShapeRule::Shallow => is_shallow(nodes, facts, number, node),
        ShapeRule::FewRows => has_few_rows(node),
        ShapeRule::ChildCount => has_fitting_count(node),
        ShapeRule::DistinctNames => has_distinct_names(alloc, &node.dtype)?,
        ShapeRule::FittingTypes => have_fitting_types(alloc, nodes, node)?,
        ShapeRule::UnsignedCodes => has_unsigned_codes(nodes, node),
        ShapeRule::RowCounts => have_fitting_rows(nodes, node),
        ShapeRule::FittingZones => have_fitting_zones(alloc, nodes, node)?,
        ShapeRule::FewCodedRows => has_few_coded_rows(node),
    })
}

/// Whether the node of that number keeps the rule.
fn keeps(
    alloc: Global,
    facts: &Facts,
    nodes: &[LayoutNode],
    rule: ShapeRule,
    number: usize,
) -> Result<bool, AllocError>
    requires place { number < length nodes.now }
    requires facts { AreFacts (map node_data nodes.now) facts.now }
    ensures { IfOk result (λ kept. IsTrue kept ↔ Keeps rule (map node_data nodes.now) number) }
{
    has_asked(alloc, facts, nodes, rule, number, &nodes[number])
}

/// The number of the first rule that the node of that number breaks, of the rules before the limit; the limit
/// where it keeps them.
fn first_broken(
    alloc: Global,
    facts: &Facts,
    nodes: &[LayoutNode],
    number: usize,
    limit: u8,
) -> Result<u8, AllocError>
    requires place { number < length nodes.now }
    requires facts { AreFacts (map node_data nodes.now) facts.now }
    requires some { 1 ≤ limit }
    requires few { limit ≤ 13 }
    ensures { IfOk result (BreaksFirst (map node_data nodes.now) number limit) }
{
    for at in 1..limit {
        if !keeps(alloc, facts, nodes, ShapeRule::of_number(at), number)? {
            return Ok(at);
        }
    }
    Ok(limit)
}

/// Whether the nodes keep every rule of the shape; the error is the first fault, by rule and then by node. Each
/// node is asked once, for the rules before the first that an earlier node broke. Time is linear in nodes,
/// children and fields together, but for the names of a struct's fields, which are told apart in n log n.
pub fn check(alloc: Global, nodes: &[LayoutNode]) -> Result<(), LayoutError>
    requires { length nodes.now < node_limit }
    ensures good { OnOk result (IsGoodTree (map node_data nodes.now)) }
    ensures refused { IfErr result (RefusedBy (map node_data nodes.now)) }
{
    if nodes.is_empty() {
        return Err(LayoutError::BadLayout { node: 0, rule: 1 });
    }
    let facts = facts_of(alloc, nodes)?;
    let mut rule = PAST_LAST_RULE;
    let mut node = 0;
    for number in 0..nodes.len() {
        let broken = first_broken(alloc, &facts, nodes, number, rule)?;
        if broken < rule {
            rule = broken;
            node = number as u32;
        }
    }
    if rule < PAST_LAST_RULE {
        return Err(LayoutError::BadLayout { node, rule });
    }
    Ok(())
}
