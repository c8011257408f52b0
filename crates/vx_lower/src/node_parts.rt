//! What a node of a layout is over, as its plan has its children.

ghost use Rattle.std.specs.Prelude.{◌≡◌, ◌<◌, ℕ, List, [], ◌∷◌, length, slice_get};
ghost use Rattle.vx_rows.specs.Zones.{zones_of};
ghost use Rattle.vx_layout.specs.Nodes.{Node};
ghost use Rattle.vx_layout.specs.Trees.{subtree, zoned};
ghost use Rattle.vx_lower.specs.Lowered.{tell};
ghost use Rattle.vx_lower.specs.NodeParts.{tree_head, IsOver, PartsOf};

use vx_base::Coding;
use vx_expr::Statistics;
use vx_layout::{LayoutKind, LayoutTree};

/// Data that stands in zones, and the table that tells of each of them.
#[derive(Drop)]
pub(crate) struct ZonedParts<'a> {
    pub(crate) content: u32,
    pub(crate) table: u32,
    pub(crate) is_legacy: bool,
    pub(crate) zone_len: u64,
    pub(crate) stats: &'a Statistics,
}

/// What a node is over, by the numbers of its children.
#[derive(Drop)]
pub(crate) enum NodeParts<'a> {
    /// A segment that is coded in that way.
    Leaf {
        segment: u32,
        coding: Coding,
    },
    /// One child after another.
    Chunks {
        chunks: &'a [u32],
    },
    /// A child for each field, and the validity.
    Fields {
        fields: &'a [u32],
        validity: Option<u32>,
    },
    /// The codes, and the values that they look up.
    LookUp {
        codes: u32,
        values: u32,
    },
    /// The elements, the offsets and the validity.
    Lists {
        elements: u32,
        offsets: u32,
        validity: Option<u32>,
    },
    /// Data whose zones tell nothing.
    Plain {
        content: u32,
    },
    /// Data whose zones tell something.
    Zoned(ZonedParts<'a>),
}

/// Whether zones of a length tell something.
fn tell(zone_len: u64, stats: &Statistics) -> bool
    ensures { result ≡ tell zone_len stats.now }
{
    zone_len != 0 && !stats.items().is_empty()
}

/// The third of these, where there is one.
fn third(children: &[u32]) -> Option<u32>
    ensures { result ≡ slice_get children.now 2 }
{
    children.get(2).copied()
}

/// Data and its zones, or the data alone where these tell nothing.
fn zoned_parts<'a>(
    content: u32,
    table: u32,
    is_legacy: bool,
    zone_len: u64,
    stats: &'a Statistics,
) -> NodeParts<'a>
    ensures { (nodes : List Node) (n : ℕ) → IsOver nodes n (zoned (tree_head nodes n) (zones_of is_legacy zone_len stats.now) (subtree nodes content) (subtree nodes table)) (content ∷ table ∷ []) → PartsOf nodes n result }
{
    if tell(zone_len, stats) {
        NodeParts::Zoned(ZonedParts {
            content,
            table,
            is_legacy,
            zone_len,
            stats,
        })
    } else {
        NodeParts::Plain { content }
    }
}

impl<'a> NodeParts<'a> {
    /// What the node is over.
    pub(crate) fn of(tree: &'a LayoutTree, node: u32) -> NodeParts<'a>
        requires { node < length tree.now }
        ensures { PartsOf tree.now node result }
    {
        let layout = tree.node(node);
        let children = layout.children.as_slice();
        match &layout.kind {
            LayoutKind::Flat { segment, coding } => NodeParts::Leaf {
                segment: *segment,
                coding: *coding,
            },
            LayoutKind::Chunked => NodeParts::Chunks { chunks: children },
            LayoutKind::Struct => {
                if layout.dtype.is_nullable() {
                    NodeParts::Fields {
                        fields: &children[1..],
                        validity: Some(children[0]),
                    }
                } else {
                    NodeParts::Fields {
                        fields: children,
                        validity: None,
                    }
                }
            }
            LayoutKind::Dict => NodeParts::LookUp {
                codes: children[1],
                values: children[0],
            },
            LayoutKind::List => NodeParts::Lists {
                elements: children[0],
                offsets: children[1],
                validity: third(children),
            },
            LayoutKind::Zoned { zone_len, stats } => {
                zoned_parts(children[0], children[1], false, *zone_len, stats)
            }
            LayoutKind::LegacyStats { zone_len, stats } => {
                zoned_parts(children[0], children[1], true, *zone_len, stats)
            }
        }
    }
}
