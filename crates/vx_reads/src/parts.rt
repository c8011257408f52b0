//! What a node of a readable layout is over.

ghost use Rattle.std.specs.Prelude.{◌≡◌, ◌<◌, ◌^◌, length, IfOk};
ghost use Rattle.vx_base.specs.Views.{data_type};
ghost use Rattle.vx_reads.specs.Readable.{tree_head, AreReadable, PartsOf};

use std::alloc::{AllocError, Global};
use vx_base::{Coding, Column, DType};
use vx_expr::Statistics;
use vx_layout::{LayoutKind, LayoutTree};

/// What a node is over, by the numbers of its children.
#[derive(Drop)]
pub enum NodeParts<'a> {
    /// A segment, and how it is coded.
    Leaf {
        segment: u32,
        coding: Coding,
    },
    /// One child after another.
    Chunks {
        chunks: &'a [u32],
    },
    /// The codes, and the values that they look up.
    Dict {
        codes: u32,
        values: u32,
    },
    /// Data, and zones of so many rows, which tell so much of each.
    Zoned {
        content: u32,
        zones: u32,
        zone_len: u64,
        stats: &'a Statistics,
    },
    /// A child for each field of a struct that takes no nulls.
    Struct {
        fields: &'a [u32],
    },
}

impl<'a> NodeParts<'a> {
    /// What the node is over.
    pub fn of(tree: &'a LayoutTree, node: u32) -> NodeParts<'a>
        requires known { node < length tree.now }
        requires readable { AreReadable tree.now }
        ensures { PartsOf tree.now node result }
    {
        let layout = tree.node(node);
        let children = layout.children.as_slice();
        match &layout.kind {
            LayoutKind::Flat { segment, coding } => NodeParts::Leaf {
                segment: *segment,
                coding: *coding,
            },
            LayoutKind::Chunked => NodeParts::Chunks { chunks: children },
            LayoutKind::Dict => NodeParts::Dict {
                codes: children[1],
                values: children[0],
            },
            LayoutKind::Zoned { zone_len, stats } => NodeParts::Zoned {
                content: children[0],
                zones: children[1],
                zone_len: *zone_len,
                stats,
            },
            LayoutKind::Struct => NodeParts::Struct { fields: children },
            _ => unreachable!(),
        }
    }
}

/// The rows of a node.
pub fn rows_at(tree: &LayoutTree, node: u32) -> u64
    requires { node < length tree.now }
    ensures { result ≡ (tree_head tree.now node).rows }
{
    tree.node(node).row_count
}

/// The dtype of a node.
pub fn dtype_at(tree: &LayoutTree, node: u32) -> &DType
    requires { node < length tree.now }
    ensures { data_type result.now ≡ (tree_head tree.now node).dtype }
{
    &tree.node(node).dtype
}

/// The column of no rows of a node.
pub(crate) fn empty_at(alloc: Global, tree: &LayoutTree, node: u32) -> Result<Column, AllocError>
    requires { node < length tree.now }
    ensures dtype { IfOk result (λ column. column.dtype ≡ (tree_head tree.now node).dtype) }
    ensures rows { IfOk result (λ column. length column.values ≡ 0) }
{
    let dtype = dtype_at(tree, node).copy(alloc)?;
    Column::empty(alloc, dtype)
}
