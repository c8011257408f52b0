//! Which segments of a plan table still have a leaf over them whose column is not kept.

ghost use Rattle.std.specs.Prelude.{◌≡◌, ◌+◌, ◌^◌, ◌<◌, List, length, true, IfOk, OnOk};
ghost use Rattle.vx_plan.specs.Nodes.{Node};
ghost use Rattle.vx_steps.specs.Counts.{count_in};
ghost use Rattle.vx_steps.specs.KeptData.{Kept};
ghost use Rattle.vx_steps.specs.OpenSegments.{AddsOne, AreCounted, AreCountedTo, HasOneAtMost, TakesOne};

use crate::counts::{count_of, put_count};
use crate::leaf_columns::LeafColumns;
use std::alloc::{AllocError, Global};
use std::collections::BTreeMap;
use vx_plan::{PlanRef, PlanTable, Shape};

/// For each segment how many of the leaves of a table over it have no column, at most; nothing before they are counted.
/// A segment all of whose leaves had one when they were counted has no count.
#[derive(Drop)]
pub(crate) struct OpenSegments {
    left: BTreeMap<u32, u64>,
    found: bool,
}

/// Counts one more leaf over the segment.
fn add_one(left: &mut BTreeMap<u32, u64>, segment: u32) -> Result<(), AllocError>
    requires { count_in left.old segment < 2 ^ 32 }
    ensures { OnOk result (AddsOne segment left.old left.new) }
{
    let before = count_of(left, segment);
    put_count(left, segment, before + 1)
}

/// Counts the next plan of the table, if that is a leaf whose column is not kept.
fn count_next(
    table: &PlanTable,
    plan: u32,
    leaves: &LeafColumns,
    left: &mut BTreeMap<u32, u64>,
) -> Result<(), AllocError>
    requires known { plan < length table.now }
    requires before { AreCountedTo table.now leaves.now.all plan left.old }
    ensures { OnOk result (AreCountedTo table.now leaves.now.all (plan + 1) left.new) }
{
    if leaves.is_kept(plan) {
        return Ok(());
    }
    match table.shape(PlanRef(plan)) {
        Shape::Leaf(segment) => {
            add_one(left, segment)?;
            Ok(())
        }
        _ => Ok(()),
    }
}

/// Counts all leaves of the table whose columns are not kept.
fn counted(
    alloc: Global,
    table: &PlanTable,
    leaves: &LeafColumns,
) -> Result<BTreeMap<u32, u64>, AllocError>
    ensures { IfOk result (AreCountedTo table.now leaves.now.all (length table.now)) }
{
    let mut left = BTreeMap::new(alloc);
    for plan in 0..table.len() {
        count_next(table, plan, leaves, &mut left)?;
    }
    Ok(left)
}

impl OpenSegments {
    /// None are counted yet. It takes no memory.
    pub(crate) fn new(alloc: Global) -> OpenSegments
        ensures { (nodes : List Node) (leaves : List Kept) → AreCounted nodes leaves result }
    {
        OpenSegments {
            left: BTreeMap::new(alloc),
            found: false,
        }
    }

    /// Counts the leaves of the table whose columns are not kept, unless that was done. Where memory is wanting, all is
    /// as before.
    pub(crate) fn find(
        &mut self,
        alloc: Global,
        table: &PlanTable,
        leaves: &LeafColumns,
    ) -> Result<(), AllocError>
        requires { AreCounted table.now leaves.now.all self.old }
        ensures { AreCounted table.now leaves.now.all self.new }
    {
        if self.found {
            return Ok(());
        }
        self.left = counted(alloc, table, leaves)?;
        self.found = true;
        Ok(())
    }

    /// One more leaf over the segment has its column. Says whether that was the last one without: then the count stays
    /// at one, since none is closed after it. It takes no memory.
    pub(crate) fn close(&mut self, segment: u32) -> bool
        ensures takes { TakesOne segment self.old self.new }
        ensures last { result ≡ true → HasOneAtMost segment self.old }
    {
        let count = match self.left.get(&segment) {
            Some(count) => *count,
            None => return false,
        };
        if count < 2 {
            return true;
        }
        // The segment has a count, so that this takes no memory.
        let _put = put_count(&mut self.left, segment, count - 1);
        false
    }
}
