//! The rules on the dtypes, the rows and the count of the children of chunks, structs and lists.

ghost use Rattle.std.specs.Prelude.{◌≡◌, ◌<◌, ◌≤◌, ◌↔◌, length, map, IsTrue, All};
ghost use Rattle.vx_base.specs.Views.{data_type};
ghost use Rattle.vx_rows.specs.TypeForms.{IsOffsets};
ghost use Rattle.vx_plan.specs.Nodes.{node_data};
ghost use Rattle.vx_plan.specs.Rules.{field_count, nodes_at, CountFits, FieldsFit, IsValidityType, ListFits, ListRowsFit, PackFits, RowsFit, TypesFit, ValidityFits, ValidityRowsFit};
ghost use Rattle.vx_plan.specs.Tables.{AreIn};

use crate::checks::{child_at, child_in};
use crate::children::PlanChildren;
use crate::nodes::{PlanKind, PlanNode};
use vx_base::{DType, Fields, Nullability};

/// Whether each child has the dtype.
pub fn are_all_of(nodes: &[PlanNode], children: &PlanChildren, dtype: &DType) -> bool
    requires { AreIn (map node_data nodes.now) children.now }
    ensures { IsTrue result ↔ All (λ child. child.dtype ≡ data_type dtype.now) (nodes_at (map node_data nodes.now) children.now) }
{
    for place in 0..children.len() {
        if !child_at(nodes, children, place).dtype().same(dtype) {
            return false;
        }
    }
    true
}

/// Whether each child has so many rows.
fn have_all_rows(nodes: &[PlanNode], children: &PlanChildren, rows: u64) -> bool
    requires { AreIn (map node_data nodes.now) children.now }
    ensures { IsTrue result ↔ All (λ child. child.rows ≡ rows) (nodes_at (map node_data nodes.now) children.now) }
{
    for place in 0..children.len() {
        if child_at(nodes, children, place).row_count != rows {
            return false;
        }
    }
    true
}

/// How many of so many children are fields: the last is a validity where one is given.
fn count_of_fields(has_validity: bool, count: usize) -> usize
    ensures { result ≡ field_count has_validity count }
{
    if has_validity {
        count.saturating_sub(1)
    } else {
        count
    }
}

/// Whether each of the first so many children has the dtype of the field at its place, where there is one.
fn fit_fields(nodes: &[PlanNode], children: &PlanChildren, fields: &Fields, count: usize) -> bool
    requires known { AreIn (map node_data nodes.now) children.now }
    requires count { count ≤ length children.now }
    ensures { IsTrue result ↔ FieldsFit fields.now count (nodes_at (map node_data nodes.now) children.now) }
{
    for place in 0..count {
        if let Some(field) = fields.get(place) {
            if !child_at(nodes, children, place).dtype().same(&field.dtype) {
                return false;
            }
        }
    }
    true
}

/// Whether the dtype is that of a validity: truth values that are never null.
fn is_validity_type(dtype: &DType) -> bool
    ensures { IsTrue result ↔ IsValidityType (data_type dtype.now) }
{
    dtype.same(&DType::Bool(Nullability::NonNullable))
}

/// Whether the dtype is a non-nullable Int.
fn is_offsets(dtype: &DType) -> bool
    ensures { IsTrue result ↔ IsOffsets (data_type dtype.now) }
{
    matches!(dtype, DType::Int(_, Nullability::NonNullable))
}

/// Whether the child at the place is a validity, where one is given.
fn has_validity_at(
    nodes: &[PlanNode],
    children: &PlanChildren,
    has_validity: bool,
    place: usize,
) -> bool
    requires { AreIn (map node_data nodes.now) children.now }
    ensures { IsTrue result ↔ ValidityFits has_validity place (nodes_at (map node_data nodes.now) children.now) }
{
    if !has_validity {
        return true;
    }
    match child_in(nodes, children, place) {
        Some(validity) => is_validity_type(validity.dtype()),
        None => false,
    }
}

/// Whether the validity at the place has so many rows, where one is given.
fn has_validity_rows_at(
    nodes: &[PlanNode],
    children: &PlanChildren,
    has_validity: bool,
    place: usize,
    rows: u64,
) -> bool
    requires { AreIn (map node_data nodes.now) children.now }
    ensures { IsTrue result ↔ ValidityRowsFit has_validity place rows (nodes_at (map node_data nodes.now) children.now) }
{
    if !has_validity {
        return true;
    }
    match child_in(nodes, children, place) {
        Some(validity) => validity.row_count == rows,
        None => false,
    }
}

/// Whether the children are fields of these dtypes, and a validity behind them where one is given.
#[tactic(auto, using(crate::proofs::ChildNodes::count_at))]
fn fit_pack(nodes: &[PlanNode], children: &PlanChildren, has_validity: bool, dtype: &DType) -> bool
    requires { AreIn (map node_data nodes.now) children.now }
    ensures { IsTrue result ↔ PackFits has_validity (data_type dtype.now) (nodes_at (map node_data nodes.now) children.now) }
{
    let count = count_of_fields(has_validity, children.len());
    match dtype {
        DType::Struct(fields, _) => {
            fit_fields(nodes, children, fields, count)
                && has_validity_at(nodes, children, has_validity, count)
        }
        _ => false,
    }
}

/// Whether the second child is a list's offsets, and the third a validity where one is given.
fn fit_list(nodes: &[PlanNode], children: &PlanChildren, has_validity: bool) -> bool
    requires { AreIn (map node_data nodes.now) children.now }
    ensures { IsTrue result ↔ ListFits has_validity (nodes_at (map node_data nodes.now) children.now) }
{
    match child_in(nodes, children, 1) {
        Some(offsets) => {
            is_offsets(offsets.dtype()) && has_validity_at(nodes, children, has_validity, 2)
        }
        None => false,
    }
}

/// Whether the offsets of a list are one more than its rows, and a validity has as many as these.
fn have_list_rows(
    nodes: &[PlanNode],
    children: &PlanChildren,
    has_validity: bool,
    rows: u64,
) -> bool
    requires { AreIn (map node_data nodes.now) children.now }
    ensures { IsTrue result ↔ ListRowsFit has_validity rows (nodes_at (map node_data nodes.now) children.now) }
{
    match child_in(nodes, children, 1) {
        Some(offsets) => {
            offsets.row_count > rows
                && offsets.row_count - rows == 1
                && has_validity_rows_at(nodes, children, has_validity, 2, rows)
        }
        None => false,
    }
}

/// Whether the children have the dtypes that the kind asks for.
pub fn have_fitting_types(nodes: &[PlanNode], node: &PlanNode) -> bool
    requires { AreIn (map node_data nodes.now) node.now.children }
    ensures { IsTrue result ↔ TypesFit node.now.kind (node_data node.now).dtype (nodes_at (map node_data nodes.now) node.now.children) }
{
    match &node.kind {
        PlanKind::Concat => are_all_of(nodes, &node.children, node.dtype()),
        PlanKind::Pack { has_validity } => {
            fit_pack(nodes, &node.children, *has_validity, node.dtype())
        }
        PlanKind::ListPack { has_validity } => fit_list(nodes, &node.children, *has_validity),
        _ => true,
    }
}

/// Whether the children have the rows that the kind asks for.
pub fn have_fitting_rows(nodes: &[PlanNode], node: &PlanNode) -> bool
    requires { AreIn (map node_data nodes.now) node.now.children }
    ensures { IsTrue result ↔ RowsFit node.now.kind node.now.row_count (nodes_at (map node_data nodes.now) node.now.children) }
{
    match &node.kind {
        PlanKind::Pack { .. } => have_all_rows(nodes, &node.children, node.row_count),
        PlanKind::ListPack { has_validity } => {
            have_list_rows(nodes, &node.children, *has_validity, node.row_count)
        }
        PlanKind::Concat => node.row_count <= u64::MAX,
        _ => true,
    }
}

/// Whether there is a child for each field, and a validity exactly where nulls are taken.
#[tactic(auto, using(vx_types::proofs::Members::length_in_view))]
pub fn has_fitting_count(node: &PlanNode) -> bool
    ensures { IsTrue result ↔ CountFits node.now.kind (node_data node.now).dtype (length node.now.children) }
{
    match (&node.kind, node.dtype()) {
        (PlanKind::Pack { has_validity }, DType::Struct(fields, nullability)) => {
            count_of_fields(*has_validity, node.children.len()) == fields.len()
                && *has_validity == matches!(nullability, Nullability::Nullable)
        }
        (PlanKind::Pack { .. }, _) => false,
        (PlanKind::ListPack { has_validity }, dtype) => *has_validity == dtype.is_nullable(),
        _ => true,
    }
}
