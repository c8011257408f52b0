//! Where the chunks of a node end.

ghost use Rattle.std.specs.Prelude.{◌≡◌, ◌++◌, ◌<◌, length, All, OnOk};
ghost use Rattle.std.specs.List.{filter};
ghost use Rattle.vx_layout.specs.Shape.{IsLater};
ghost use Rattle.vx_layout.specs.Trees.{subtree};
ghost use Rattle.vx_reads.specs.Readable.{trees_of, AreReadable};
ghost use Rattle.vx_readers.specs.ChunkEnds.{ends_in, ends_of, StandFirst};
ghost use Rattle.vx_split_rules.specs.Splits.{is_inside};

use std::alloc::AllocError;
use vx_layout::LayoutTree;
use vx_reads::parts::NodeParts;
use vx_reads::rows_at;
use vx_split_rules::RowSplits;

/// Pushes where chunks of a node end between two rows of the root; its first row is that row of the root. Where memory is
/// short some of these may be pushed, behind what was there.
#[cycle(ends)]
pub(crate) fn add_ends(
    tree: &LayoutTree,
    node: u32,
    from: u64,
    start: u64,
    end: u64,
    splits: &mut RowSplits,
) -> Result<(), AllocError>
    requires known { node < length tree.now }
    requires readable { AreReadable tree.now }
    ensures ends { OnOk result (splits.new ≡ splits.old ++ filter (is_inside start end) (ends_of (subtree tree.now node) from)) }
    ensures behind { StandFirst splits.old splits.new }
{
    match NodeParts::of(tree, node) {
        NodeParts::Leaf { .. } => Ok(()),
        NodeParts::Chunks { chunks } => add_chunk_ends(
            tree, chunks, node, from, start, end, splits,
        ),
        NodeParts::Dict { codes, values: _ } => add_ends(tree, codes, from, start, end, splits),
        NodeParts::Zoned {
            content,
            zones: _,
            zone_len: _,
            stats: _,
        } => add_ends(tree, content, from, start, end, splits),
        NodeParts::Struct { .. } => Ok(()),
    }
}

/// Pushes where each chunk ends, behind where those inside it do; none that begins behind the last row is looked at.
#[cycle(ends)]
fn add_chunk_ends(
    tree: &LayoutTree,
    chunks: &[u32],
    node: u32,
    from: u64,
    start: u64,
    end: u64,
    splits: &mut RowSplits,
) -> Result<(), AllocError>
    requires known { node < length tree.now }
    requires readable { AreReadable tree.now }
    requires later { All (IsLater tree.now node) chunks.now }
    ensures ends { OnOk result (splits.new ≡ splits.old ++ filter (is_inside start end) (ends_in (trees_of tree.now chunks.now) from)) }
    ensures behind { StandFirst splits.old splits.new }
{
    let mut row = from;
    for chunk in chunks {
        if end <= row {
            return Ok(());
        }
        add_ends(tree, *chunk, row, start, end, splits)?;
        let next = match row.checked_add(rows_at(tree, *chunk)) {
            Some(next) => next,
            None => return Ok(()),
        };
        if start < next && next < end {
            splits.push(next)?;
        }
        row = next;
    }
    Ok(())
}
