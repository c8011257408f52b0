//! The rules on numbers: of children, levels and rows of a node by itself.

ghost use Rattle.std.specs.Prelude.{◌≡◌, ◌<◌, ◌≤◌, ◌↔◌, length, map, IsTrue};
ghost use Rattle.vx_layout.specs.Facts.{AreFacts};
ghost use Rattle.vx_layout.specs.Nodes.{node_data};
ghost use Rattle.vx_layout.specs.Shape.{HasLaterChildren, IsChildOnce, IsShallow, AreFewIn, HasFewCodedRows, HasFewRows, HasFittingCount, validity_count};

use crate::dtypes::is_within;
use crate::facts::Facts;
use crate::nodes::{LayoutKind, LayoutNode};
use vx_base::{Coding, DType, Nullability};

/// A node has at most so many rows.
pub(crate) const MOST_ROWS: u64 = 68719476736;

/// A flat node whose segment is coded in another way than plainly has at most so many rows.
pub(crate) const MOST_CODED_ROWS: u64 = 16777216;

/// The levels of a tree, and of a dtype.
pub(crate) const MOST_LEVELS: u32 = 64;

/// Whether the children have greater numbers than the node, and are nodes themselves.
pub fn has_later_children(nodes: &[LayoutNode], number: usize, node: &LayoutNode) -> bool
    ensures { IsTrue result ↔ HasLaterChildren (map node_data nodes.now) number (node_data node.now) }
{
    let count = nodes.len();
    node.children.iter().all(|child| number < *child as usize && (*child as usize) < count)
}

/// Whether the node is the root, or a child exactly once.
pub fn is_child_once(nodes: &[LayoutNode], facts: &Facts, number: usize) -> bool
    requires place { number < length nodes.now }
    requires facts { AreFacts (map node_data nodes.now) facts.now }
    ensures { IsTrue result ↔ IsChildOnce (map node_data nodes.now) number }
{
    number == 0 || facts.counts[number] == 1
}

/// Whether neither the node nor its dtype is deeper than 64 levels.
pub fn is_shallow(nodes: &[LayoutNode], facts: &Facts, number: usize, node: &LayoutNode) -> bool
    requires place { number < length nodes.now }
    requires facts { AreFacts (map node_data nodes.now) facts.now }
    ensures { IsTrue result ↔ IsShallow (map node_data nodes.now) number (node_data node.now) }
{
    facts.depths[number] <= MOST_LEVELS && is_within(&node.dtype, MOST_LEVELS)
}

/// Whether the node has few rows.
pub fn has_few_rows(node: &LayoutNode) -> bool
    ensures { IsTrue result ↔ HasFewRows (node_data node.now) }
{
    node.row_count <= MOST_ROWS
}

/// Whether so many rows are few enough for the coding.
pub fn are_few_in(coding: Coding, rows: u64) -> bool
    ensures { IsTrue result ↔ AreFewIn coding rows }
{
    match coding {
        Coding::Plain => true,
        Coding::Constant | Coding::Runs => rows <= MOST_CODED_ROWS,
    }
}

/// Whether the node has few enough rows for its coding, where it is flat.
pub fn has_few_coded_rows(node: &LayoutNode) -> bool
    ensures { IsTrue result ↔ HasFewCodedRows (node_data node.now).kind (node_data node.now).rows }
{
    match &node.kind {
        LayoutKind::Flat { coding, .. } => are_few_in(*coding, node.row_count),
        _ => true,
    }
}

/// How many children a validity is.
pub fn validity_count(nullability: Nullability) -> usize
    ensures count { result ≡ validity_count nullability }
    ensures most { result ≤ 1 }
{
    match nullability {
        Nullability::NonNullable => 0,
        Nullability::Nullable => 1,
    }
}

/// Whether so many children fit the kind and the dtype.
#[tactic(auto, using(vx_types::proofs::Members::length_in_view))]
pub fn has_fitting_count(node: &LayoutNode) -> bool
    ensures { IsTrue result ↔ HasFittingCount (node_data node.now) }
{
    let count = node.children.len();
    match (&node.kind, &node.dtype) {
        (LayoutKind::Flat { .. }, _) => count == 0,
        (LayoutKind::Chunked, _) => true,
        (LayoutKind::Struct, DType::Struct(fields, nullability)) => {
            let others = validity_count(*nullability);
            others <= count && count - others == fields.len()
        }
        (LayoutKind::List, DType::List(_, nullability)) => count
            == 2 + validity_count(*nullability),
        (LayoutKind::Struct | LayoutKind::List, _) => false,
        (LayoutKind::Dict | LayoutKind::Zoned { .. } | LayoutKind::LegacyStats { .. }, _) => count
            == 2,
    }
}
