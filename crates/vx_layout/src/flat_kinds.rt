//! The flat nodes of a tree: how many there are, and whether each has few enough rows to be written anew.

ghost use Rattle.std.specs.Prelude.{◌≡◌, ◌↔◌, false, IsTrue, MatchOption};
ghost use Rattle.std.specs.List.{AllByRecursion};
ghost use Rattle.vx_layout.specs.Migrations.{flat_count, is_flat_kind, HasCountedRows};
ghost use Rattle.vx_layout.specs.Nodes.{node_data};

use crate::nodes::{LayoutKind, LayoutNode};
use crate::trees::LayoutTree;
use vx_base::Coding;

/// A flat node that is written anew has fewer rows than this.
const ROW_LIMIT: u64 = 4294967296;

/// The segment of a flat kind and how it is coded.
pub(crate) fn flat_parts(kind: &LayoutKind) -> Option<(u32, Coding)>
    ensures { MatchOption result (is_flat_kind kind.now ≡ false) (λ parts. kind.now ≡ LayoutKind.Flat parts.0 parts.1) }
{
    match kind {
        LayoutKind::Flat { segment, coding } => Some((*segment, *coding)),
        _ => None,
    }
}

/// Whether the kind is flat.
fn is_flat(kind: &LayoutKind) -> bool
    ensures { result ≡ is_flat_kind kind.now }
{
    match kind {
        LayoutKind::Flat { .. } => true,
        _ => false,
    }
}

/// Whether the node has few enough rows to be written anew, where it is flat.
fn is_counted(node: &LayoutNode) -> bool
    ensures { IsTrue result ↔ HasCountedRows (node_data node.now) }
{
    match &node.kind {
        LayoutKind::Flat { .. } => node.row_count < ROW_LIMIT,
        _ => true,
    }
}

/// How many flat nodes the tree has: `migrate` takes so many codings.
pub fn flat_nodes(tree: &LayoutTree) -> usize
    ensures { result ≡ flat_count tree.now }
{
    let mut count = 0;
    for number in 0..tree.len() {
        if is_flat(&tree.node(number).kind) {
            count += 1;
        }
    }
    count
}

/// Whether each flat node of the tree has fewer than 4294967296 rows, so that it can be written anew.
pub fn has_counted_rows(tree: &LayoutTree) -> bool
    ensures { IsTrue result ↔ AllByRecursion HasCountedRows tree.now }
{
    for number in 0..tree.len() {
        if !is_counted(tree.node(number)) {
            return false;
        }
    }
    true
}
