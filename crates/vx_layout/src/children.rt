//! The children of a node, found in the list of all nodes. What is asked of a child is false where it is
//! no node.

ghost use Rattle.std.specs.Prelude.{◌≡◌, ◌<◌, ◌↔◌, Some, length, map, IsTrue, IsSomeAnd, option_and_then, option_map, slice_get};
ghost use Rattle.vx_base.specs.Views.{data_type};
ghost use Rattle.vx_layout.specs.Children.{child_at, ChildAt, EachChild};
ghost use Rattle.vx_layout.specs.Nodes.{node_data};
ghost use Rattle.vx_layout.specs.Shape.{RowsAt};

use crate::nodes::LayoutNode;
use vx_base::DType;

/// The node of a number.
pub fn node_of(nodes: &[LayoutNode], number: u32) -> Option<&LayoutNode>
    ensures { option_map (λ node. node_data node.now) result ≡ slice_get (map node_data nodes.now) number }
{
    nodes.get(number as usize)
}

/// The node of a number that there is.
pub fn node_at(nodes: &[LayoutNode], number: u32) -> &LayoutNode
    requires { number < length nodes.now }
    ensures { slice_get (map node_data nodes.now) number ≡ Some (node_data result.now) }
{
    &nodes[number as usize]
}

/// The number of the child at a place of the node of a number.
pub fn child_number(nodes: &[LayoutNode], number: u32, place: usize) -> Option<u32>
    ensures { result ≡ option_and_then (λ node. slice_get node.children place) (slice_get (map node_data nodes.now) number) }
{
    match node_of(nodes, number) {
        Some(node) => node.children.get(place).copied(),
        None => None,
    }
}

/// The child of a node at a place.
pub fn child_at<'a>(
    nodes: &'a [LayoutNode],
    node: &LayoutNode,
    place: usize,
) -> Option<&'a LayoutNode>
    ensures { option_map (λ child. node_data child.now) result ≡ child_at (map node_data nodes.now) (node_data node.now) place }
{
    match node.children.get(place) {
        Some(number) => node_of(nodes, *number),
        None => None,
    }
}

/// Whether there is a node of that number, and it has the dtype.
fn is_of(nodes: &[LayoutNode], number: u32, dtype: &DType) -> bool
    ensures { IsTrue result ↔ IsSomeAnd (slice_get (map node_data nodes.now) number) (λ node. node.dtype ≡ data_type dtype.now) }
{
    match node_of(nodes, number) {
        Some(node) => node.dtype.same(dtype),
        None => false,
    }
}

/// Whether there is a node of that number, and it has so many rows.
fn has_rows(nodes: &[LayoutNode], number: u32, rows: u64) -> bool
    ensures { IsTrue result ↔ IsSomeAnd (slice_get (map node_data nodes.now) number) (λ node. node.rows ≡ rows) }
{
    match node_of(nodes, number) {
        Some(node) => node.row_count == rows,
        None => false,
    }
}

/// Whether the child at a place has the dtype.
pub fn has_child_of(nodes: &[LayoutNode], node: &LayoutNode, place: usize, dtype: &DType) -> bool
    ensures { IsTrue result
        ↔ ChildAt (map node_data nodes.now) (node_data node.now) place (λ child. child.dtype ≡ data_type dtype.now) }
{
    match child_at(nodes, node, place) {
        Some(child) => child.dtype.same(dtype),
        None => false,
    }
}

/// Whether the child at a place has so many rows.
pub fn has_rows_at(nodes: &[LayoutNode], node: &LayoutNode, place: usize, rows: u64) -> bool
    ensures { IsTrue result ↔ RowsAt (map node_data nodes.now) (node_data node.now) place rows }
{
    match child_at(nodes, node, place) {
        Some(child) => child.row_count == rows,
        None => false,
    }
}

/// Whether each of these children has the dtype.
pub fn are_all_of(nodes: &[LayoutNode], children: &[u32], dtype: &DType) -> bool
    ensures { IsTrue result ↔ EachChild (map node_data nodes.now) children.now (λ child. child.dtype ≡ data_type dtype.now) }
{
    for number in children {
        if !is_of(nodes, *number, dtype) {
            return false;
        }
    }
    true
}

/// Whether each of these children has so many rows.
pub fn have_all_rows(nodes: &[LayoutNode], children: &[u32], rows: u64) -> bool
    ensures { IsTrue result ↔ EachChild (map node_data nodes.now) children.now (λ child. child.rows ≡ rows) }
{
    for number in children {
        if !has_rows(nodes, *number, rows) {
            return false;
        }
    }
    true
}
