//! Which child of a concat holds a row.

ghost use Rattle.std.specs.Prelude.{◌≡◌, ◌+◌, ◌<◌, length, IsTrue, Some, slice_get};
ghost use Rattle.vx_plan.specs.declared.shapes.Shape.TheVariants.{Chunks};
ghost use Rattle.vx_plan.specs.Nodes.{node_data};
ghost use Rattle.vx_plan.specs.Rules.{node_at};
ghost use Rattle.vx_plan.specs.Shapes.{HasShape};
ghost use Rattle.vx_plan.specs.Chunks.{IsChunk, HoldsPlace};

use crate::children::PlanRef;
use crate::nodes::PlanNode;
use crate::tables::PlanTable;

/// A child of a concat, its rows among those of the concat, and the place of the child behind it.
#[derive(Clone, Copy)]
pub struct Chunk {
    pub child: u32,
    pub start: u64,
    pub end: u64,
    pub next: usize,
}

/// The last place whose offset isn't past the row.
fn place_of(offsets: &[u64], row: u64) -> usize
    requires { HoldsPlace offsets.now row 0 (length offsets.now) }
    ensures { HoldsPlace offsets.now row result (result + 1) }
{
    let mut low: usize = 0;
    let mut high: usize = offsets.len();
    while high - low > 1 {
        let middle = low + (high - low) / 2;
        if offsets[middle] <= row {
            low = middle;
        } else {
            high = middle;
        }
    }
    low
}

/// Whether the place is the last one whose offset isn't past the row.
fn is_place_of(offsets: &[u64], place: usize, row: u64) -> bool
    ensures { IsTrue result → HoldsPlace offsets.now row place (place + 1) }
{
    if place >= offsets.len() || offsets[place] > row {
        return false;
    }
    let next = place + 1;
    next == offsets.len() || row < offsets[next]
}

/// The last place whose offset isn't past the row. It is searched for, unless it is the one that is tried: rows are mostly
/// gone through in order.
fn place_near(offsets: &[u64], tried: usize, row: u64) -> usize
    requires { HoldsPlace offsets.now row 0 (length offsets.now) }
    ensures { HoldsPlace offsets.now row result (result + 1) }
{
    if is_place_of(offsets, tried, row) {
        return tried;
    }
    place_of(offsets, row)
}

/// The child of a concat that holds a row, by a search in the offsets, unless it is the one at the place that is
/// tried.
pub fn chunk_at(table: &PlanTable, plan: u32, row: u64, tried: usize) -> Chunk
    requires known { plan < length table.now }
    requires concat { HasShape table.now plan Chunks }
    requires inside { row < (node_at table.now plan).rows }
    ensures { IsChunk table.now plan row result }
{
    chunk_in(table, plan, table.node(plan), row, tried)
}

/// The same, where the node of the concat is at hand.
pub(crate) fn chunk_in(
    table: &PlanTable,
    plan: u32,
    node: &PlanNode,
    row: u64,
    tried: usize,
) -> Chunk
    requires known { plan < length table.now }
    requires here { slice_get table.now plan ≡ Some (node_data node.now) }
    requires concat { HasShape table.now plan Chunks }
    requires inside { row < (node_at table.now plan).rows }
    ensures { IsChunk table.now plan row result }
{
    let offsets = node.row_offsets.as_slice();
    let place = place_near(offsets, tried, row);
    let child = node.children.at(place);
    let start = offsets[place];
    let end = start + table.row_count(PlanRef(child));
    Chunk {
        child,
        start,
        end,
        next: place + 1,
    }
}
