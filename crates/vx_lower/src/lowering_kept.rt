//! Lowering without the fields of the root that aren't kept: down to the root's fields or to a dictionary, through
//! chunks and data in zones. What lies below is lowered with all its fields.

ghost use Rattle.std.specs.Prelude.{true, All, IfOk};
ghost use Rattle.vx_layout.specs.Trees.{subtree};
ghost use Rattle.vx_plan.specs.Refs.{number_of};
ghost use Rattle.vx_lower.specs.Keeping.{kept_of, IsKeeping};
ghost use Rattle.vx_lower.specs.Lowered.{lowered};
ghost use Rattle.vx_lower.specs.NodeParts.{lowered_each, tree_head, zones_at, CanLower, CanLowerEach, IsChunked, IsLookUp, IsStructNode, IsZonedNode};
ghost use Rattle.vx_lower.specs.Numbered.{AddsPlan, AddsPlans};

use crate::adding::{add_concat, add_eval, add_zoned};
use crate::keeping::Keeping;
use crate::lowering_whole::{lower_look_up, lower_packed, lower_whole};
use crate::node_parts::{NodeParts, ZonedParts};
use std::alloc::{AllocError, Global};
use std::sync::Arc;
use vx_layout::LayoutTree;
use vx_plan::{PlanChildren, PlanRef, PlanTable};

/// Packs the kept fields of structs.
fn keep_fields(
    alloc: Global,
    tree: &LayoutTree,
    node: u32,
    fields: &[u32],
    validity: Option<u32>,
    keeping: &Keeping<'_>,
    table: &mut PlanTable,
) -> Result<PlanRef, AllocError>
    requires can { CanLower tree.now node (kept_of keeping.now) table.old }
    requires parts { IsStructNode tree.now node fields.now validity }
    requires keeping { IsKeeping (tree_head tree.now node).dtype keeping.now }
    ensures { IfOk result (λ plan. AddsPlan table.old table.new (lowered (subtree tree.now node) (kept_of keeping.now)) (number_of plan)) }
{
    let kept = keeping.chosen(alloc, fields)?;
    let dtype = Arc::try_clone(&keeping.dtype)?;
    lower_packed(alloc, tree, node, &kept, validity, dtype, table)
}

/// Packs the kept fields over a dictionary, which is lowered whole.
fn keep_looked_up(
    alloc: Global,
    tree: &LayoutTree,
    node: u32,
    codes: u32,
    values: u32,
    keeping: &Keeping<'_>,
    table: &mut PlanTable,
) -> Result<PlanRef, AllocError>
    requires can { CanLower tree.now node (kept_of keeping.now) table.old }
    requires parts { IsLookUp tree.now node codes values }
    requires keeping { IsKeeping (tree_head tree.now node).dtype keeping.now }
    ensures { IfOk result (λ plan. AddsPlan table.old table.new (lowered (subtree tree.now node) (kept_of keeping.now)) (number_of plan)) }
{
    let whole = lower_look_up(alloc, tree, node, codes, values, table)?;
    let pack = keeping.pack.copy(alloc)?;
    add_eval(alloc, pack, whole, table)
}

/// Lowers later nodes of the root's dtype, one after another.
#[cycle(kept)]
fn keep_each(
    alloc: Global,
    tree: &LayoutTree,
    node: u32,
    children: &[u32],
    keeping: &Keeping<'_>,
    table: &mut PlanTable,
) -> Result<PlanChildren, AllocError>
    requires can { CanLowerEach tree.now node children.now (kept_of keeping.now) table.old }
    requires keeping { All (λ child. IsKeeping (tree_head tree.now child).dtype keeping.now) children.now }
    ensures { IfOk result (AddsPlans table.old table.new (lowered_each tree.now (kept_of keeping.now) children.now)) }
{
    let mut plans = Vec::with_capacity(alloc, children.len())?;
    for child in children {
        let plan = lower_kept(alloc, tree, *child, keeping, table)?;
        plans.push(plan)?;
    }
    Ok(PlanChildren::from(plans))
}

/// Lowers chunks, which share the dtype of the kept fields.
#[cycle(kept)]
fn keep_chunks(
    alloc: Global,
    tree: &LayoutTree,
    node: u32,
    chunks: &[u32],
    keeping: &Keeping<'_>,
    table: &mut PlanTable,
) -> Result<PlanRef, AllocError>
    requires can { CanLower tree.now node (kept_of keeping.now) table.old }
    requires parts { IsChunked tree.now node chunks.now }
    requires keeping { IsKeeping (tree_head tree.now node).dtype keeping.now }
    ensures { IfOk result (λ plan. AddsPlan table.old table.new (lowered (subtree tree.now node) (kept_of keeping.now)) (number_of plan)) }
{
    let plans = keep_each(alloc, tree, node, chunks, keeping, table)?;
    let dtype = Arc::try_clone(&keeping.dtype)?;
    add_concat(alloc, dtype, plans, table)
}

/// Lowers data that stands in zones, and then the table that tells of them, with all its fields.
#[cycle(kept)]
fn keep_zoned(
    alloc: Global,
    tree: &LayoutTree,
    node: u32,
    told: ZonedParts<'_>,
    keeping: &Keeping<'_>,
    table: &mut PlanTable,
) -> Result<PlanRef, AllocError>
    requires can { CanLower tree.now node (kept_of keeping.now) table.old }
    requires parts { IsZonedNode tree.now node true (zones_at told) told.content told.table }
    requires keeping { IsKeeping (tree_head tree.now node).dtype keeping.now }
    ensures { IfOk result (λ plan. AddsPlan table.old table.new (lowered (subtree tree.now node) (kept_of keeping.now)) (number_of plan)) }
{
    let content = lower_kept(alloc, tree, told.content, keeping, table)?;
    let zones = lower_whole(alloc, tree, told.table, None, table)?;
    add_zoned(alloc, told, content, zones, table)
}

/// Lowers a node of the root's dtype, and all below it that is kept.
#[cycle(kept)]
pub(crate) fn lower_kept(
    alloc: Global,
    tree: &LayoutTree,
    node: u32,
    keeping: &Keeping<'_>,
    table: &mut PlanTable,
) -> Result<PlanRef, AllocError>
    requires can { CanLower tree.now node (kept_of keeping.now) table.old }
    requires keeping { IsKeeping (tree_head tree.now node).dtype keeping.now }
    ensures { IfOk result (λ plan. AddsPlan table.old table.new (lowered (subtree tree.now node) (kept_of keeping.now)) (number_of plan)) }
{
    match NodeParts::of(tree, node) {
        NodeParts::Chunks { chunks } => keep_chunks(alloc, tree, node, chunks, keeping, table),
        NodeParts::Fields { fields, validity } => {
            keep_fields(alloc, tree, node, fields, validity, keeping, table)
        }
        NodeParts::LookUp { codes, values } => {
            keep_looked_up(alloc, tree, node, codes, values, keeping, table)
        }
        NodeParts::Plain { content } => lower_kept(alloc, tree, content, keeping, table),
        NodeParts::Zoned(told) => keep_zoned(alloc, tree, node, told, keeping, table),
        NodeParts::Leaf { .. } | NodeParts::Lists { .. } => unreachable!(),
    }
}
