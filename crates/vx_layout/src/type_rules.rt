//! The rules on the dtypes of children.

ghost use Rattle.std.specs.Prelude.{◌≡◌, ◌≤◌, ◌↔◌, map, IfOk, IsTrue};
ghost use Rattle.vx_base.specs.ColumnCalls.{nullable_where};
ghost use Rattle.vx_base.specs.Fits.{nullability_of};
ghost use Rattle.vx_base.specs.Views.{data_type, members_of};
ghost use Rattle.vx_rows.specs.TypeForms.{IsOffsets};
ghost use Rattle.vx_layout.specs.Children.{ChildAt};
ghost use Rattle.vx_layout.specs.Nodes.{node_data};
ghost use Rattle.vx_layout.specs.Shape.{CodesFit, FieldsFrom, IsLookedUp, TypesFit, ValidityAt};

use crate::children::{are_all_of, child_at, has_child_of};
use crate::dtypes::is_offsets;
use crate::nodes::{LayoutKind, LayoutNode};
use crate::number_rules::validity_count;
use std::alloc::{AllocError, Global};
use vx_base::{DType, Field, Nullability, is_leaf, is_unsigned};

/// Whether the child at the place is a validity, where there is one.
fn has_validity_at(
    nodes: &[LayoutNode],
    node: &LayoutNode,
    place: usize,
    nullability: Nullability,
) -> bool
    ensures { IsTrue result ↔ ValidityAt (map node_data nodes.now) (node_data node.now) place nullability }
{
    match nullability {
        Nullability::NonNullable => true,
        Nullability::Nullable => has_child_of(
            nodes,
            node,
            place,
            &DType::Bool(Nullability::NonNullable),
        ),
    }
}

/// Whether each field has a child of its dtype, in order, the first of them at the place, which is behind
/// the validity if there is one.
fn has_fields_from(nodes: &[LayoutNode], node: &LayoutNode, first: usize, fields: &[Field]) -> bool
    requires { first ≤ 1 }
    ensures { IsTrue result ↔ FieldsFrom (map node_data nodes.now) (node_data node.now) first (members_of fields.now) }
{
    for (place, field) in fields.iter().enumerate() {
        if !has_child_of(nodes, node, first + place, &field.dtype) {
            return false;
        }
    }
    true
}

/// Whether the child at the place is a list's offsets.
fn has_offsets_at(nodes: &[LayoutNode], node: &LayoutNode, place: usize) -> bool
    ensures { IsTrue result ↔ ChildAt (map node_data nodes.now) (node_data node.now) place (λ offsets. IsOffsets offsets.dtype) }
{
    match child_at(nodes, node, place) {
        Some(offsets) => is_offsets(&offsets.dtype),
        None => false,
    }
}

/// Whether the dtype is that of the values, made nullable where the codes are.
fn is_made_of(
    alloc: Global,
    dtype: &DType,
    values: &DType,
    codes: &DType,
) -> Result<bool, AllocError>
    ensures { IfOk result (λ made. IsTrue made
        ↔ (data_type dtype.now ≡ nullable_where (nullability_of (data_type codes.now)) (data_type values.now))) }
{
    if codes.is_nullable() {
        let nullable = values.as_nullable(alloc)?;
        Ok(dtype.same(&nullable))
    } else {
        Ok(dtype.same(values))
    }
}

/// Whether the dtype of a dictionary is that of its values, made nullable where its codes are.
fn is_looked_up(alloc: Global, nodes: &[LayoutNode], node: &LayoutNode) -> Result<bool, AllocError>
    ensures { IfOk result (λ fits. IsTrue fits
        ↔ IsLookedUp (map node_data nodes.now) (node_data node.now) (data_type node.now.dtype)) }
{
    match (child_at(nodes, node, 0), child_at(nodes, node, 1)) {
        (Some(values), Some(codes)) => is_made_of(alloc, &node.dtype, &values.dtype, &codes.dtype),
        _ => Ok(false),
    }
}

/// Whether the dtypes of the children fit the kind and the dtype.
pub fn have_fitting_types(
    alloc: Global,
    nodes: &[LayoutNode],
    node: &LayoutNode,
) -> Result<bool, AllocError>
    ensures { IfOk result (λ fit. IsTrue fit
        ↔ TypesFit (map node_data nodes.now) (node_data node.now) (node_data node.now).kind (data_type node.now.dtype)) }
{
    Ok(match (&node.kind, &node.dtype) {
        (LayoutKind::Flat { .. }, dtype) => is_leaf(dtype),
        (LayoutKind::Chunked, dtype) => are_all_of(nodes, &node.children, dtype),
        (LayoutKind::Struct, DType::Struct(fields, nullability)) => {
            has_validity_at(nodes, node, 0, *nullability)
                && has_fields_from(nodes, node, validity_count(*nullability), fields.items())
        }
        (LayoutKind::Dict, _) => is_looked_up(alloc, nodes, node)?,
        (LayoutKind::List, DType::List(element, nullability)) => {
            has_child_of(nodes, node, 0, element.dtype())
                && has_offsets_at(nodes, node, 1)
                && has_validity_at(nodes, node, 2, *nullability)
        }
        (LayoutKind::Struct | LayoutKind::List, _) => true,
        (LayoutKind::Zoned { .. } | LayoutKind::LegacyStats { .. }, dtype) => has_child_of(
            nodes, node, 0, dtype,
        ),
    })
}

/// Whether the codes of a dictionary are unsigned.
pub fn has_unsigned_codes(nodes: &[LayoutNode], node: &LayoutNode) -> bool
    ensures { IsTrue result ↔ CodesFit (map node_data nodes.now) (node_data node.now) (node_data node.now).kind }
{
    match &node.kind {
        LayoutKind::Dict => match child_at(nodes, node, 1) {
            Some(codes) => is_unsigned(&codes.dtype),
            None => false,
        },
        _ => true,
    }
}
