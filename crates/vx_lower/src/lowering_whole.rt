//! Lowering with all fields: node by node, children first, in the order in which the plan has them.

ghost use Rattle.std.specs.Prelude.{◌≡◌, ◌<◌, ◌++◌, ℕ, true, length, All, IfOk, option_map};
ghost use Rattle.std.specs.Arc.{arc_value};
ghost use Rattle.vx_base.specs.Fits.{nullability_of};
ghost use Rattle.vx_base.specs.Views.{data_type};
ghost use Rattle.vx_layout.specs.Kept.{all};
ghost use Rattle.vx_layout.specs.Trees.{subtree};
ghost use Rattle.vx_plan.specs.Refs.{number_of};
ghost use Rattle.vx_plan.specs.Rules.{given_validity, is_given};
ghost use Rattle.vx_lower.specs.Lowered.{lowered};
ghost use Rattle.vx_lower.specs.NodeParts.{lowered_each, packed_plan, tree_head, zones_at, ArePacked, CanLower, CanLowerEach, IsChunked, IsLeafNode, IsListNode, IsLookUp, IsStructNode, IsTypeAt, IsZonedNode};
ghost use Rattle.vx_lower.specs.Numbered.{AddsPlan, AddsPlans};

use crate::adding::{add_concat, add_leaf, add_list, add_pack, add_take, add_zoned};
use crate::node_parts::{NodeParts, ZonedParts};
use std::alloc::{AllocError, Global};
use std::sync::Arc;
use vx_base::{Coding, DType, Nullability};
use vx_layout::LayoutTree;
use vx_plan::{PlanChildren, PlanRef, PlanTable};

/// The dtype of a node in memory of its own, to be shared.
fn type_copied(
    alloc: Global,
    tree: &LayoutTree,
    node: u32,
) -> Result<Arc<DType, Global>, AllocError>
    requires { node < length tree.now }
    ensures { IfOk result (λ dtype. data_type (arc_value dtype) ≡ (tree_head tree.now node).dtype) }
{
    let layout = tree.node(node);
    let copied = layout.dtype.copy(alloc)?;
    let dtype = Arc::new(alloc, copied)?;
    Ok(dtype)
}

/// The dtype of a node, which is shared where it is given and else copied.
fn type_at(
    alloc: Global,
    tree: &LayoutTree,
    node: u32,
    given: Option<&Arc<DType, Global>>,
) -> Result<Arc<DType, Global>, AllocError>
    requires known { node < length tree.now }
    requires given { IsTypeAt tree.now node (option_map (λ dtype. data_type (arc_value dtype.now)) given) }
    ensures { IfOk result (λ dtype. data_type (arc_value dtype) ≡ (tree_head tree.now node).dtype) }
{
    match given {
        Some(dtype) => Arc::try_clone(dtype),
        None => type_copied(alloc, tree, node),
    }
}

/// The rows of a node.
pub(crate) fn rows_at(tree: &LayoutTree, node: u32) -> u64
    requires { node < length tree.now }
    ensures { result ≡ (tree_head tree.now node).rows }
{
    let layout = tree.node(node);
    layout.row_count
}

/// Whether a dtype takes nulls.
fn nullability(dtype: &DType) -> Nullability
    ensures { result ≡ nullability_of (data_type dtype.now) }
{
    match dtype {
        DType::Bool(nullability) => *nullability,
        DType::Int(_, nullability) => *nullability,
        DType::Utf8(nullability) => *nullability,
        DType::Struct(_, nullability) => *nullability,
        DType::List(_, nullability) => *nullability,
    }
}

/// Whether the dtype of a node takes nulls.
fn nullability_at(tree: &LayoutTree, node: u32) -> Nullability
    requires { node < length tree.now }
    ensures { result ≡ nullability_of (tree_head tree.now node).dtype }
{
    let layout = tree.node(node);
    nullability(&layout.dtype)
}

/// Lowers a leaf.
fn lower_leaf(
    alloc: Global,
    tree: &LayoutTree,
    node: u32,
    segment: u32,
    coding: Coding,
    given: Option<&Arc<DType, Global>>,
    table: &mut PlanTable,
) -> Result<PlanRef, AllocError>
    requires can { CanLower tree.now node all table.old }
    requires parts { IsLeafNode tree.now node segment coding }
    requires given { IsTypeAt tree.now node (option_map (λ dtype. data_type (arc_value dtype.now)) given) }
    ensures { IfOk result (λ plan. AddsPlan table.old table.new (lowered (subtree tree.now node) all) (number_of plan)) }
{
    let dtype = type_at(alloc, tree, node, given)?;
    add_leaf(alloc, dtype, rows_at(tree, node), segment, coding, table)
}

/// Lowers later nodes, one after another. A dtype that is given is that of all of them.
#[cycle(whole)]
fn lower_each(
    alloc: Global,
    tree: &LayoutTree,
    node: u32,
    children: &[u32],
    given: Option<&Arc<DType, Global>>,
    table: &mut PlanTable,
) -> Result<PlanChildren, AllocError>
    requires can { CanLowerEach tree.now node children.now all table.old }
    requires given { All (λ child. IsTypeAt tree.now child (option_map (λ dtype. data_type (arc_value dtype.now)) given)) children.now }
    ensures { IfOk result (AddsPlans table.old table.new (lowered_each tree.now all children.now)) }
{
    let mut plans = Vec::with_capacity(alloc, children.len())?;
    for child in children {
        let plan = lower_whole(alloc, tree, *child, given, table)?;
        plans.push(plan)?;
    }
    Ok(PlanChildren::from(plans))
}

/// Lowers a validity, where there is one.
#[cycle(whole)]
fn lower_validity(
    alloc: Global,
    tree: &LayoutTree,
    node: u32,
    validity: Option<u32>,
    table: &mut PlanTable,
) -> Result<Option<PlanRef>, AllocError>
    requires { CanLowerEach tree.now node (given_validity validity) all table.old }
    ensures adds { IfOk result (λ plan. AddsPlans table.old table.new (lowered_each tree.now all (given_validity validity)) (given_validity (option_map number_of plan))) }
    ensures given { IfOk result (λ plan. is_given (option_map number_of plan) ≡ is_given validity) }
{
    match validity {
        Some(child) => {
            let plan = lower_whole(alloc, tree, child, None, table)?;
            Ok(Some(plan))
        }
        None => Ok(None),
    }
}

/// Lowers the fields of structs of a dtype and their validity, which stand below the node, and packs them.
#[cycle(whole)]
pub(crate) fn lower_packed(
    alloc: Global,
    tree: &LayoutTree,
    node: u32,
    fields: &[u32],
    validity: Option<u32>,
    dtype: Arc<DType, Global>,
    table: &mut PlanTable,
) -> Result<PlanRef, AllocError>
    requires known { node < length tree.now }
    requires can { CanLowerEach tree.now node (fields.now ++ given_validity validity) all table.old }
    requires packed { ArePacked tree.now (data_type (arc_value dtype)) (tree_head tree.now node).rows fields.now validity }
    ensures { IfOk result (λ plan. (number : ℕ) → AddsPlan table.old table.new (packed_plan tree.now (record { number = number; dtype = data_type (arc_value dtype); rows = (tree_head tree.now node).rows }) fields.now validity) (number_of plan)) }
{
    let row_count = rows_at(tree, node);
    let field_plans = lower_each(alloc, tree, node, fields, None, table)?;
    let validity = lower_validity(alloc, tree, node, validity, table)?;
    add_pack(alloc, dtype, row_count, field_plans, validity, table)
}

/// Lowers chunks, which share the node's dtype.
#[cycle(whole)]
fn lower_chunks(
    alloc: Global,
    tree: &LayoutTree,
    node: u32,
    chunks: &[u32],
    given: Option<&Arc<DType, Global>>,
    table: &mut PlanTable,
) -> Result<PlanRef, AllocError>
    requires can { CanLower tree.now node all table.old }
    requires parts { IsChunked tree.now node chunks.now }
    requires given { IsTypeAt tree.now node (option_map (λ dtype. data_type (arc_value dtype.now)) given) }
    ensures { IfOk result (λ plan. AddsPlan table.old table.new (lowered (subtree tree.now node) all) (number_of plan)) }
{
    let dtype = type_at(alloc, tree, node, given)?;
    let plans = lower_each(alloc, tree, node, chunks, Some(&dtype), table)?;
    add_concat(alloc, dtype, plans, table)
}

/// Lowers structs.
#[cycle(whole)]
fn lower_fields(
    alloc: Global,
    tree: &LayoutTree,
    node: u32,
    fields: &[u32],
    validity: Option<u32>,
    given: Option<&Arc<DType, Global>>,
    table: &mut PlanTable,
) -> Result<PlanRef, AllocError>
    requires can { CanLower tree.now node all table.old }
    requires parts { IsStructNode tree.now node fields.now validity }
    requires given { IsTypeAt tree.now node (option_map (λ dtype. data_type (arc_value dtype.now)) given) }
    ensures { IfOk result (λ plan. AddsPlan table.old table.new (lowered (subtree tree.now node) all) (number_of plan)) }
{
    let dtype = type_at(alloc, tree, node, given)?;
    lower_packed(alloc, tree, node, fields, validity, dtype, table)
}

/// Lowers a dictionary: its codes, then its values.
#[cycle(whole)]
pub(crate) fn lower_look_up(
    alloc: Global,
    tree: &LayoutTree,
    node: u32,
    codes: u32,
    values: u32,
    table: &mut PlanTable,
) -> Result<PlanRef, AllocError>
    requires can { CanLower tree.now node all table.old }
    requires parts { IsLookUp tree.now node codes values }
    ensures { IfOk result (λ plan. AddsPlan table.old table.new (lowered (subtree tree.now node) all) (number_of plan)) }
{
    let code_plan = lower_whole(alloc, tree, codes, None, table)?;
    let value_plan = lower_whole(alloc, tree, values, None, table)?;
    add_take(alloc, code_plan, value_plan, table)
}

/// Lowers lists: their elements, their offsets, and the validity where there is one.
#[cycle(whole)]
fn lower_lists(
    alloc: Global,
    tree: &LayoutTree,
    node: u32,
    elements: u32,
    offsets: u32,
    validity: Option<u32>,
    table: &mut PlanTable,
) -> Result<PlanRef, AllocError>
    requires can { CanLower tree.now node all table.old }
    requires parts { IsListNode tree.now node elements offsets validity }
    ensures { IfOk result (λ plan. AddsPlan table.old table.new (lowered (subtree tree.now node) all) (number_of plan)) }
{
    let nullability = nullability_at(tree, node);
    let row_count = rows_at(tree, node);
    let element_plan = lower_whole(alloc, tree, elements, None, table)?;
    let offset_plan = lower_whole(alloc, tree, offsets, None, table)?;
    let validity_plan = lower_validity(alloc, tree, node, validity, table)?;
    add_list(
        alloc,
        nullability,
        row_count,
        element_plan,
        offset_plan,
        validity_plan,
        table,
    )
}

/// Lowers data that stands in zones, which shares the node's dtype, and then the table that tells of them.
#[cycle(whole)]
fn lower_zoned(
    alloc: Global,
    tree: &LayoutTree,
    node: u32,
    told: ZonedParts<'_>,
    given: Option<&Arc<DType, Global>>,
    table: &mut PlanTable,
) -> Result<PlanRef, AllocError>
    requires can { CanLower tree.now node all table.old }
    requires parts { IsZonedNode tree.now node true (zones_at told) told.content told.table }
    requires given { IsTypeAt tree.now node (option_map (λ dtype. data_type (arc_value dtype.now)) given) }
    ensures { IfOk result (λ plan. AddsPlan table.old table.new (lowered (subtree tree.now node) all) (number_of plan)) }
{
    let content = lower_whole(alloc, tree, told.content, given, table)?;
    let zones = lower_whole(alloc, tree, told.table, None, table)?;
    add_zoned(alloc, told, content, zones, table)
}

/// Lowers a node and all below it, whose dtype is shared where it is given. Time is linear in the nodes and in
/// the fields of their dtypes.
#[cycle(whole)]
pub(crate) fn lower_whole(
    alloc: Global,
    tree: &LayoutTree,
    node: u32,
    given: Option<&Arc<DType, Global>>,
    table: &mut PlanTable,
) -> Result<PlanRef, AllocError>
    requires can { CanLower tree.now node all table.old }
    requires given { IsTypeAt tree.now node (option_map (λ dtype. data_type (arc_value dtype.now)) given) }
    ensures { IfOk result (λ plan. AddsPlan table.old table.new (lowered (subtree tree.now node) all) (number_of plan)) }
{
    match NodeParts::of(tree, node) {
        NodeParts::Leaf { segment, coding } => {
            lower_leaf(alloc, tree, node, segment, coding, given, table)
        }
        NodeParts::Chunks { chunks } => lower_chunks(alloc, tree, node, chunks, given, table),
        NodeParts::Fields { fields, validity } => {
            lower_fields(alloc, tree, node, fields, validity, given, table)
        }
        NodeParts::LookUp { codes, values } => {
            lower_look_up(alloc, tree, node, codes, values, table)
        }
        NodeParts::Lists {
            elements,
            offsets,
            validity,
        } => lower_lists(alloc, tree, node, elements, offsets, validity, table),
        NodeParts::Plain { content } => lower_whole(alloc, tree, content, given, table),
        NodeParts::Zoned(told) => lower_zoned(alloc, tree, node, told, given, table),
    }
}
