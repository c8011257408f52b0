//! How many of the reads that rows still need are of each leaf, and how many of them name each segment.

ghost use Rattle.std.specs.Prelude.{◌≡◌, List, ◌++◌, [], map, OnOk};
ghost use Rattle.std.specs.Bool.{MatchBool};
ghost use Rattle.vx_steps.specs.declared.leaf_reads.LeafRead.{LeafRead};
ghost use Rattle.vx_steps.specs.Pieces.{read_of};
ghost use Rattle.vx_steps.specs.StillRead.{CountsLeaf, CountsLeaves, CountsMore, CountsOneLess, CountsSegments, IsTallyOf, LeafIsRead, SegmentIsRead, TalliesOneLess};

use crate::counts::{count_of, put_count};
use crate::number_table::NumberTable;
use crate::placed_reads::PlacedRead;
use crate::segment_runs::names_at;
use std::alloc::{AllocError, Global};
use std::collections::BTreeMap;

/// How many of some reads are of each leaf, and how many of them name each segment.
#[derive(Drop)]
pub(crate) struct StillRead {
    leaves: NumberTable,
    segments: BTreeMap<u32, u64>,
}

/// Counts a leaf once more. So many that their number doesn't fit never come together, since each takes memory.
fn count_leaf(leaf: u32, leaves: &mut NumberTable) -> Result<(), AllocError>
    ensures { OnOk result (CountsLeaf leaf leaves.old leaves.new) }
{
    let count = match leaves.get(leaf).checked_add(1) {
        Some(count) => count,
        None => return Err(AllocError),
    };
    leaves.reach(leaf)?;
    leaves.put(leaf, count);
    Ok(())
}

/// Counts the leaves of the needs.
fn count_leaves(needs: &[PlacedRead], leaves: &mut NumberTable) -> Result<(), AllocError>
    ensures { OnOk result (CountsLeaves (map read_of needs.now) leaves.old leaves.new) }
{
    for place in 0..needs.len() {
        count_leaf(needs[place].leaf, leaves)?;
    }
    Ok(())
}

/// Counts a key so many times more.
fn add_count(counts: &mut BTreeMap<u32, u64>, key: u32, more: u64) -> Result<(), AllocError>
    ensures { OnOk result (CountsMore key more counts.old counts.new) }
{
    match count_of(counts, key).checked_add(more) {
        Some(count) => put_count(counts, key, count),
        None => Err(AllocError),
    }
}

/// Counts the segments of the needs: those beside each other that name one are counted together.
fn count_segments(needs: &[PlacedRead], counts: &mut BTreeMap<u32, u64>) -> Result<(), AllocError>
    ensures { OnOk result (CountsSegments (map read_of needs.now) counts.old counts.new) }
{
    let mut run: u64 = 0;
    for place in 0..needs.len() {
        let segment = needs[place].segment;
        run += 1;
        if !names_at(needs, place + 1, segment) {
            add_count(counts, segment, run)?;
            run = 0;
        }
    }
    Ok(())
}

/// Counts a key once less, where it was counted. It takes no memory.
fn take_one(counts: &mut BTreeMap<u32, u64>, key: u32)
    ensures { CountsOneLess key counts.old counts.new }
{
    if let Some(count) = counts.get_mut(&key) {
        *count = count.saturating_sub(1);
    }
}

/// Adds the needs to the tallies.
pub(crate) fn add_needs(needs: &[PlacedRead], still: &mut StillRead) -> Result<(), AllocError>
    ensures added { OnOk result ((reads : List LeafRead) → IsTallyOf still.old reads → IsTallyOf still.new (reads ++ map read_of needs.now)) }
{
    count_leaves(needs, &mut still.leaves)?;
    count_segments(needs, &mut still.segments)
}

impl StillRead {
    /// There are no reads. It takes no memory.
    pub(crate) fn new(alloc: Global) -> StillRead
        ensures { IsTallyOf result [] }
    {
        StillRead {
            leaves: NumberTable::new(alloc),
            segments: BTreeMap::new(alloc),
        }
    }

    /// One of the reads is gone. It takes no memory.
    pub(crate) fn take(&mut self, leaf: u32, segment: u32)
        ensures { TalliesOneLess (record { leaf = leaf; segment = segment }) self.old self.new }
    {
        let count = self.leaves.get(leaf);
        if count > 0 {
            self.leaves.put(leaf, count - 1);
        }
        take_one(&mut self.segments, segment);
    }

    /// Whether some of the reads is of the leaf.
    pub(crate) fn reads_leaf(&self, leaf: u32) -> bool
        ensures { (reads : List LeafRead) → IsTallyOf self.now reads → MatchBool result (LeafIsRead leaf reads) (LeafIsRead leaf reads → ⊥) }
    {
        self.leaves.get(leaf) > 0
    }

    /// Whether some of the reads names the segment.
    pub(crate) fn reads_segment(&self, segment: u32) -> bool
        ensures { (reads : List LeafRead) → IsTallyOf self.now reads → MatchBool result (SegmentIsRead segment reads) (SegmentIsRead segment reads → ⊥) }
    {
        count_of(&self.segments, segment) > 0
    }
}
