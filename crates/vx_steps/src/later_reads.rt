//! Up to which of the splits each leaf is read, and each segment.

ghost use Rattle.std.specs.Prelude.{◌+◌, ◌<◌, ◌^◌, List, [], OnOk, OnErr};
ghost use Rattle.std.specs.Bool.{MatchBool};
ghost use Rattle.vx_steps.specs.LaterReads.{SplitRead, IsNotedOf, KeepsNotes, KeepsNumbers, LeafReadFrom, NotesOneMore, Reaches, SegmentReadFrom};

use crate::counts::{count_of, put_count};
use crate::number_table::NumberTable;
use std::alloc::{AllocError, Global};
use std::collections::BTreeMap;

/// For each leaf that some split reads the number behind that of the last one, and the same for each segment.
#[derive(Drop)]
pub(crate) struct LaterReads {
    leaves: NumberTable,
    segments: BTreeMap<u32, u64>,
}

/// The key is read by the split. Where memory is wanting, all is as before.
fn reach(until: &mut BTreeMap<u32, u64>, key: u32, split: u64) -> Result<(), AllocError>
    requires { split + 1 < 2 ^ 64 }
    ensures reached { OnOk result (Reaches key split until.old until.new) }
    ensures as_before { OnErr result (KeepsNumbers until.old until.new) }
{
    let number = count_of(until, key).max(split + 1);
    put_count(until, key, number)
}

impl LaterReads {
    /// Nothing is noted. It takes no memory.
    pub(crate) fn new(alloc: Global) -> LaterReads
        ensures { IsNotedOf result [] }
    {
        LaterReads {
            leaves: NumberTable::new(alloc),
            segments: BTreeMap::new(alloc),
        }
    }

    /// Notes that a split reads a leaf, which names the segment. Where memory is wanting, all is as before.
    pub(crate) fn note(&mut self, leaf: u32, segment: u32, split: usize) -> Result<(), AllocError>
        requires { split + 1 < 2 ^ 64 }
        ensures noted { OnOk result (NotesOneMore (record { number = split; read = record { leaf = leaf; segment = segment } }) self.old self.new) }
        ensures as_before { OnErr result (KeepsNotes self.old self.new) }
    {
        let split = split as u64;
        let number = self.leaves.get(leaf).max(split + 1);
        self.leaves.reach(leaf)?;
        reach(&mut self.segments, segment, split)?;
        self.leaves.put(leaf, number);
        Ok(())
    }

    /// Whether a split of that number or a later one reads the leaf.
    pub(crate) fn leaf_read_from(&self, leaf: u32, next: usize) -> bool
        ensures { (reads : List SplitRead) → IsNotedOf self.now reads → MatchBool result (LeafReadFrom leaf next reads) (LeafReadFrom leaf next reads → ⊥) }
    {
        (next as u64) < self.leaves.get(leaf)
    }

    /// Whether a split of that number or a later one reads the segment.
    pub(crate) fn segment_read_from(&self, segment: u32, next: usize) -> bool
        ensures { (reads : List SplitRead) → IsNotedOf self.now reads → MatchBool result (SegmentReadFrom segment next reads) (SegmentReadFrom segment next reads → ⊥) }
    {
        (next as u64) < count_of(&self.segments, segment)
    }
}
