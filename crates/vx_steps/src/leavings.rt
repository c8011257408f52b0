//! What a scan leaves to the next one: the columns of those leaves that the row behind its splits reads, and the
//! whole values.

ghost use Rattle.std.specs.Prelude.{◌≡◌, ◌+◌, ◌<◌, ◌≤◌, ◌↔◌, ℕ, false, length, map, true, IsTrue, None, OnOk, Some};
ghost use Rattle.std.specs.Option.{is_some};
ghost use Rattle.vx_plan.specs.Refs.{number_of};
ghost use Rattle.vx_plan.specs.Rules.{node_at};
ghost use Rattle.vx_steps.specs.Kept.{kept_data, IsKept};
ghost use Rattle.vx_steps.specs.Leavings.{behind_all, behind_split, IsReadBehind, Meets, RowReads, RowsRead};
ghost use Rattle.vx_steps.specs.Offers.{Keeps};
ghost use Rattle.vx_steps.specs.Places.{place_in, SetsPlace};

use crate::jobs::Job;
use crate::kept::KeptValue;
use crate::leaf_columns::LeafColumns;
use crate::places::PlaceTable;
use crate::splits::Split;
use std::alloc::{AllocError, Global};
use vx_plan::{Part, PartPlace, PlanRef, PlanTable, Shape};

/// What a scan leaves to the next one.
#[derive(Drop)]
pub struct ScanKept {
    /// The columns of leaves that the row behind the splits reads.
    pub leaves: Vec<KeptValue>,
    /// The values that were handed in and used.
    pub used: Vec<KeptValue>,
    /// The whole values that were made.
    pub made: Vec<KeptValue>,
}

/// The row behind those of a split, which is the first of all where it has none.
fn behind(split: &Split) -> u64
    ensures { result ≡ behind_split split.now }
{
    if split.rows.start < split.rows.end {
        split.rows.end
    } else {
        0
    }
}

/// The row behind all those of the splits, selected or not.
pub(crate) fn row_behind(splits: &[Split]) -> u64
    ensures { result ≡ behind_all splits.now }
{
    let mut row: u64 = 0;
    for place in 0..splits.len() {
        let split = &splits[place];
        row = row.max(behind(split));
    }
    row
}

/// The leaves that were not met yet on the way through a plan: those that stand in an index, and one that is looked for,
/// until it is found.
#[derive(Drop)]
pub(crate) struct Sieve {
    places: PlaceTable,
    wanted: u32,
    found: bool,
}

impl Sieve {
    /// Over the leaves of an index; none is looked for besides.
    fn over(places: PlaceTable) -> Sieve
        ensures places { result.places ≡ places }
        ensures found { result.found ≡ true }
    {
        Sieve {
            places,
            wanted: 0,
            found: true,
        }
    }

    /// Over no leaves, and none is looked for. It takes no memory.
    pub(crate) fn none(alloc: Global) -> Sieve
        ensures places { (n : ℕ) → place_in result.places n ≡ None }
        ensures found { result.found ≡ true }
    {
        Sieve::over(PlaceTable::new(alloc))
    }

    /// Over one more leaf.
    pub(crate) fn put(&mut self, leaf: u32) -> Result<(), AllocError>
        ensures put { OnOk result (SetsPlace leaf (Some 0) self.old.places self.new.places) }
        ensures found { self.new.found ≡ self.old.found }
        ensures wanted { self.new.wanted ≡ self.old.wanted }
    {
        self.places.put(leaf, 0)
    }

    /// Whether the leaf stands in the index: it was put there, and not met.
    pub(crate) fn has(&self, leaf: u32) -> bool
        ensures { result ≡ is_some (place_in self.now.places leaf) }
    {
        self.places.has(leaf)
    }

    /// The index.
    pub(crate) fn index(&self) -> &PlaceTable
        ensures { result.now ≡ self.now.places }
    {
        &self.places
    }

    /// For one leaf that is looked for. It takes no memory.
    fn for_leaf(alloc: Global, leaf: u32) -> Sieve
        ensures places { (n : ℕ) → place_in result.places n ≡ None }
        ensures wanted { result.wanted ≡ leaf }
        ensures found { result.found ≡ false }
    {
        Sieve {
            places: PlaceTable::new(alloc),
            wanted: leaf,
            found: false,
        }
    }

    /// Meets the leaf.
    fn meet(&mut self, leaf: u32)
        ensures { Meets (λ n. leaf ≡ n) self.old self.new }
    {
        self.places.remove(leaf);
        if self.wanted == leaf {
            self.found = true;
        }
    }
}

/// Meets the leaves that so many rows of a plan read, counted from the start on, where no whole values are handed in
/// for them.
#[cycle(leavings)]
fn meet_rows(table: &PlanTable, plan: u32, start: u64, count: u64, sieve: &mut Sieve)
    requires known { plan < length table.now }
    requires inside { start + count ≤ (node_at table.now plan).rows }
    ensures { Meets (RowsRead table.now plan start count) sieve.old sieve.new }
{
    if count == 0 {
        return;
    }
    if let Shape::Leaf(_) = table.shape(PlanRef(plan)) {
        return sieve.meet(plan);
    }
    let mut place = PartPlace::first();
    while let Some(next) = table.next_part(PlanRef(plan), start, count, place) {
        match next.part {
            Part::Rows(rows) => {
                meet_rows(table, rows.child, rows.start, rows.to - rows.from, sieve)
            }
            Part::Whole(_, child) => {
                meet_rows(table, child, 0, table.row_count(PlanRef(child)), sieve)
            }
            Part::All(child) => {
                meet_rows(table, child, 0, table.row_count(PlanRef(child)), sieve)
            }
        }
        place = next.behind;
    }
}

/// Meets the leaves that a row of a plan reads, if there is such a row.
pub(crate) fn meet_row(table: &PlanTable, plan: u32, row: u64, sieve: &mut Sieve)
    requires { plan < length table.now }
    ensures { Meets (λ leaf. (row < (node_at table.now plan).rows) × RowReads table.now plan row leaf) sieve.old sieve.new }
{
    if row < table.row_count(PlanRef(plan)) {
        meet_rows(table, plan, row, 1, sieve);
    }
}

/// Whether there is such a row, and it reads the leaf.
fn row_reads(alloc: Global, table: &PlanTable, plan: u32, row: u64, leaf: u32) -> bool
    requires { plan < length table.now }
    ensures { IsTrue result ↔ ((row < (node_at table.now plan).rows) × RowReads table.now plan row leaf) }
{
    let mut sieve = Sieve::for_leaf(alloc, leaf);
    meet_row(table, plan, row, &mut sieve);
    sieve.found
}

/// Whether the leaf of the column stands in the index no more.
fn is_met(places: &PlaceTable, value: &KeptValue) -> bool
    ensures { IsTrue result ↔ (place_in places.now (number_of value.now.node) ≡ None) }
{
    places.get(value.node.0).is_none()
}

/// The columns of those leaves that the row behind the splits reads, none of which is gone. It takes no memory.
pub(crate) fn leaves_behind(
    alloc: Global,
    table: &PlanTable,
    job: &Job,
    leaves: LeafColumns,
) -> Vec<KeptValue>
    requires known { job.now.plan < length table.now }
    requires here { (leaf : ℕ) → IsReadBehind table.now job.now leaf → IsKept leaves.all leaf → IsKept leaves.here leaf }
    ensures { Keeps (λ kept. IsReadBehind table.now job.now kept.node) leaves.all (map kept_data result.items) }
{
    let row = row_behind(&job.splits);
    let plan = job.plan;
    match leaves.into_indexed() {
        Ok((mut columns, places)) => {
            let mut sieve = Sieve::over(places);
            meet_row(table, plan, row, &mut sieve);
            let Sieve { places, .. } = sieve;
            columns.retain(|value| is_met(&places, value));
            columns
        }
        // What was handed in is indexed by the first step.
        Err(mut columns) => {
            columns.retain(|value| row_reads(alloc, table, plan, row, value.node.0));
            columns
        }
    }
}
