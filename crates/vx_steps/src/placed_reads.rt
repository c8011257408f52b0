//! The leaves that the selected rows of a split read, each with the places of the first and of the last row that read it.

ghost use Rattle.std.specs.Prelude.{◌≡◌, ◌+◌, ◌-◌, ◌<◌, ◌≤◌, ◌^◌, List, [], ◌∷◌, ◌++◌, length, map, slice_range, false, true, IfOk, IfSome, IsTrue, MatchOption, OnOk};
ghost use Rattle.std.specs.List.{All};
ghost use Rattle.std.specs.List.Sorted.{IsNonDecreasingBy, IsPermutation};
ghost use Rattle.vx_picking.specs.Rows.{SelectsNone};
ghost use Rattle.vx_plan.specs.Nodes.{Node};
ghost use Rattle.vx_plan.specs.Reaches.{all_rows};
ghost use Rattle.vx_plan.specs.Rules.{node_at};
ghost use Rattle.vx_steps.specs.KeptData.{Kept};
ghost use Rattle.vx_steps.specs.Needs.{AreLeaves};
ghost use Rattle.vx_steps.specs.Pieces.{read_of, AreInOrder, ArePlaced};
ghost use Rattle.vx_steps.specs.declared.placed_reads.Spot.TheVariants.{Whichever};
ghost use Rattle.vx_steps.specs.Placed.{ends_at, first_at, last_at, moved, up_to, AddsPlaced, AddsUnder, AreEnds, AskForNone, IsLeafUnder, SpotFits};

use crate::kept::KeptColumns;
use crate::leaf_reads::{LeafRead, add_whole_reads, leaf_at};
use std::alloc::{AllocError, Global};
use vx_base::Mask;
use vx_plan::{ChildRows, Part, PartPlace, PlanRef, PlanTable, Shape};

/// A leaf that is read, the segment that it names, and the places of the first and of the last row that read it on one
/// way through the plans. All rows wait for what is read for whole values.
#[derive(Clone, Copy)]
pub(crate) struct PlacedRead {
    pub(crate) leaf: u32,
    pub(crate) segment: u32,
    pub(crate) from: u64,
    pub(crate) last: u64,
}

/// What selected rows need: the leaves that they read, and whether they may ask for whole values.
#[derive(Drop)]
pub(crate) struct PlacedNeeds {
    pub(crate) needs: Vec<PlacedRead>,
    pub(crate) asks: bool,
}

/// The places of the first and of the last selected row.
#[derive(Clone, Copy)]
pub(crate) struct Ends {
    pub(crate) first: u64,
    pub(crate) last: u64,
}

/// Where rows stand: behind so many others; or, where all rows are asked for, whichever they are, at the places of the
/// first and of the last row that ask for them.
#[derive(Clone, Copy)]
pub(crate) enum Spot {
    Behind(u64),
    Whichever(Ends),
}

impl Spot {
    /// The place up to which the row at a place waits.
    fn first_at(self, place: u64) -> u64
        requires { SpotFits self (place + 1) }
        ensures { result ≡ first_at self place }
    {
        match self {
            Spot::Behind(base) => base + place,
            Spot::Whichever(ends) => ends.first,
        }
    }

    /// The place behind which it isn't needed.
    fn last_at(self, place: u64) -> u64
        requires { SpotFits self (place + 1) }
        ensures { result ≡ last_at self place }
    {
        match self {
            Spot::Behind(base) => base + place,
            Spot::Whichever(ends) => ends.last,
        }
    }

    /// The spot of rows that stand behind so many more.
    fn moved(self, by: u64) -> Spot
        requires { SpotFits self by }
        ensures { result ≡ moved self by }
    {
        match self {
            Spot::Behind(base) => Spot::Behind(base + by),
            Spot::Whichever(ends) => Spot::Whichever(ends),
        }
    }

    /// The places of the first and of the last of some rows.
    fn ends_at(self, ends: Ends) -> Ends
        requires first { SpotFits self (ends.first + 1) }
        requires last { SpotFits self (ends.last + 1) }
        ensures { result ≡ ends_at self ends }
    {
        Ends {
            first: self.first_at(ends.first),
            last: self.last_at(ends.last),
        }
    }
}

/// The places of the first and of the last selected row, where there is one.
fn ends_of(mask: &Mask) -> Option<Ends>
    ensures { MatchOption result (SelectsNone mask.now) (AreEnds mask.now) }
{
    let first = match mask.first() {
        Some(place) => place,
        None => return None,
    };
    match mask.last() {
        Some(last) => Some(Ends { first, last }),
        None => None,
    }
}

/// The places of the first and of the last selected row of a range, counted from its first row, where there is one. A mask
/// is made of the range only where this isn't seen without: not where each row of the mask is known to be selected, and
/// not for one row or for all of them.
fn ends_in(
    alloc: Global,
    mask: &Mask,
    selects_all: bool,
    from: u64,
    to: u64,
) -> Result<Option<Ends>, AllocError>
    requires all { IsTrue selects_all → All (λ bit. bit ≡ true) mask.now }
    requires forwards { from ≤ to }
    requires inside { to ≤ length mask.now }
    ensures { IfOk result (λ ends. MatchOption ends (SelectsNone (slice_range mask.now from to)) (AreEnds (slice_range mask.now from to))) }
{
    if selects_all && from < to {
        let last = to - from - 1;
        return Ok(Some(Ends { first: 0, last }));
    }
    if to - from == 1 {
        if mask.value(from) {
            return Ok(Some(Ends { first: 0, last: 0 }));
        }
        return Ok(None);
    }
    if from == 0 && to == mask.len() {
        return Ok(ends_of(mask));
    }
    let some = mask.slice(alloc, from..to)?;
    Ok(ends_of(&some))
}

/// Adds a leaf that rows from the one place to the other read.
fn add_need(
    leaf: u32,
    segment: u32,
    from: u64,
    last: u64,
    needs: &mut Vec<PlacedRead>,
) -> Result<(), AllocError>
    ensures { OnOk result (needs.new.items ≡ needs.old.items ++ record { leaf = leaf; segment = segment; from = from; last = last } ∷ []) }
{
    needs.push(PlacedRead {
        leaf,
        segment,
        from,
        last,
    })?;
    Ok(())
}

/// The leaf whose rows are those of a plan, where the plan is a leaf, or a filter over one.
fn leaf_under(table: &PlanTable, plan: u32) -> Option<LeafRead>
    requires { plan < length table.now }
    ensures { IfSome result (IsLeafUnder table.now plan) }
{
    match table.shape(PlanRef(plan)) {
        Shape::Leaf(segment) => {
            Some(LeafRead {
                leaf: plan,
                segment,
            })
        }
        Shape::Same(child) => leaf_at(table, child),
        _ => None,
    }
}

/// Adds the leaf under a plan, if the mask selects one of these rows of the plan.
fn add_leaf_rows(
    alloc: Global,
    leaf: LeafRead,
    rows: ChildRows,
    mask: &Mask,
    selects_all: bool,
    spot: Spot,
    needs: &mut Vec<PlacedRead>,
) -> Result<(), AllocError>
    requires all { IsTrue selects_all → All (λ bit. bit ≡ true) mask.now }
    requires forwards { rows.from ≤ rows.to }
    requires asked { rows.to ≤ length mask.now }
    requires fits { SpotFits spot (length mask.now) }
    ensures { OnOk result ((nodes : List Node) (given : List Kept) → rows.child < length nodes → IsLeafUnder nodes rows.child leaf → AddsPlaced nodes given rows.child rows.start (slice_range mask.now rows.from rows.to) (moved spot rows.from) needs.old.items needs.new.items) }
{
    let behind = spot.moved(rows.from);
    match ends_in(alloc, mask, selects_all, rows.from, rows.to) {
        Ok(Some(ends)) => {
            let ends = behind.ends_at(ends);
            add_need(leaf.leaf, leaf.segment, ends.first, ends.last, needs)
        }
        Ok(None) => Ok(()),
        Err(error) => Err(error),
    }
}

/// Adds the leaves that the selected rows of a plan read, and notes whether these ask for whole values. The rows stand at
/// the spot.
#[cycle(placed_reads)]
pub(crate) fn add_placed(
    alloc: Global,
    table: &PlanTable,
    given: &KeptColumns,
    plan: u32,
    start: u64,
    mask: &Mask,
    selects_all: bool,
    spot: Spot,
    needs: &mut Vec<PlacedRead>,
    asks: &mut bool,
) -> Result<(), AllocError>
    requires known { plan < length table.now }
    requires all { IsTrue selects_all → All (λ bit. bit ≡ true) mask.now }
    requires inside { start + length mask.now ≤ (node_at table.now plan).rows }
    requires fits { SpotFits spot (length mask.now) }
    ensures added { OnOk result (AddsPlaced table.now given.now plan start mask.now spot needs.old.items needs.new.items) }
    ensures asks { OnOk result (asks.new ≡ false → (asks.old ≡ false) × AskForNone table.now given.now plan start mask.now) }
{
    let ends = match ends_of(mask) {
        Some(ends) => spot.ends_at(ends),
        None => return Ok(()),
    };
    if let Shape::Leaf(segment) = table.shape(PlanRef(plan)) {
        return add_need(plan, segment, ends.first, ends.last, needs);
    }
    let mut place = PartPlace::first();
    while let Some(next) = table.next_part(PlanRef(plan), start, mask.len(), place) {
        match next.part {
            Part::Rows(rows) => add_placed_rows(
                alloc,
                table,
                given,
                rows,
                mask,
                selects_all,
                spot,
                needs,
                asks,
            )?,
            Part::Whole(whole, child) => {
                add_under(alloc, table, given, whole, child, ends.last, needs)?;
                *asks = true;
            }
            Part::All(child) => add_placed_zones(alloc, table, given, child, ends, needs, asks)?,
        }
        place = next.behind;
    }
    Ok(())
}

/// Adds the leaves that rows of a child read which the mask selects at their places. No mask is made for the rows of a leaf
/// that are all selected, nor for those of a filter over it.
#[cycle(placed_reads)]
fn add_placed_rows(
    alloc: Global,
    table: &PlanTable,
    given: &KeptColumns,
    rows: ChildRows,
    mask: &Mask,
    selects_all: bool,
    spot: Spot,
    needs: &mut Vec<PlacedRead>,
    asks: &mut bool,
) -> Result<(), AllocError>
    requires known { rows.child < length table.now }
    requires all { IsTrue selects_all → All (λ bit. bit ≡ true) mask.now }
    requires forwards { rows.from ≤ rows.to }
    requires asked { rows.to ≤ length mask.now }
    requires inside { rows.start + (rows.to - rows.from) ≤ (node_at table.now rows.child).rows }
    requires fits { SpotFits spot (length mask.now) }
    ensures added { OnOk result (AddsPlaced table.now given.now rows.child rows.start (slice_range mask.now rows.from rows.to) (moved spot rows.from) needs.old.items needs.new.items) }
    ensures asks { OnOk result (asks.new ≡ false → (asks.old ≡ false) × AskForNone table.now given.now rows.child rows.start (slice_range mask.now rows.from rows.to)) }
{
    if let Some(leaf) = leaf_under(table, rows.child) {
        return add_leaf_rows(alloc, leaf, rows, mask, selects_all, spot, needs);
    }
    if rows.from == 0 && rows.to == mask.len() {
        return add_placed(
            alloc,
            table,
            given,
            rows.child,
            rows.start,
            mask,
            selects_all,
            spot,
            needs,
            asks,
        );
    }
    let some = mask.slice(alloc, rows.from..rows.to)?;
    let all = some.all_true();
    let behind = spot.moved(rows.from);
    add_placed(
        alloc, table, given, rows.child, rows.start, &some, all, behind, needs, asks,
    )
}

/// Adds the leaves that all rows of a plan read, which rows ask for of which these are the places of the first and of the
/// last one.
#[cycle(placed_reads)]
fn add_placed_zones(
    alloc: Global,
    table: &PlanTable,
    given: &KeptColumns,
    plan: u32,
    ends: Ends,
    needs: &mut Vec<PlacedRead>,
    asks: &mut bool,
) -> Result<(), AllocError>
    requires { plan < length table.now }
    ensures added { OnOk result (AddsPlaced table.now given.now plan 0 (all_rows (node_at table.now plan).rows) (Whichever ends) needs.old.items needs.new.items) }
    ensures asks { OnOk result (asks.new ≡ false → (asks.old ≡ false) × AskForNone table.now given.now plan 0 (all_rows (node_at table.now plan).rows)) }
{
    let zones = Mask::new_true(alloc, table.row_count(PlanRef(plan)))?;
    let all = zones.all_true();
    let spot = Spot::Whichever(ends);
    add_placed(alloc, table, given, plan, 0, &zones, all, spot, needs, asks)
}

/// Adds leaves for which all rows wait, and which no row behind the last place reads.
fn add_for_all(found: &[LeafRead], last: u64, needs: &mut Vec<PlacedRead>) -> Result<(), AllocError>
    ensures { OnOk result (needs.new.items ≡ needs.old.items ++ map (up_to last) found.now) }
{
    for place in 0..found.len() {
        let read = found[place];
        add_need(read.leaf, read.segment, 0, last, needs)?;
    }
    Ok(())
}

/// Adds the leaves that all rows of a plan read, unless whole values were handed in for the number. All rows wait for
/// them, and none behind the last place reads them.
fn add_under(
    alloc: Global,
    table: &PlanTable,
    given: &KeptColumns,
    whole: u32,
    plan: u32,
    last: u64,
    needs: &mut Vec<PlacedRead>,
) -> Result<(), AllocError>
    requires { plan < length table.now }
    ensures { OnOk result (AddsUnder table.now given.now whole plan last needs.old.items needs.new.items) }
{
    let mut found = Vec::new(alloc);
    add_whole_reads(alloc, table, Some(given), whole, plan, &mut found)?;
    add_for_all(&found, last, needs)
}

/// Brings the needs into the order of their first places.
fn sort_placed(needs: &mut Vec<PlacedRead>) -> Result<(), AllocError>
    ensures order { OnOk result (IsNonDecreasingBy (λ need. need.from) needs.new.items) }
    ensures same { IsPermutation needs.old.items needs.new.items }
{
    match needs.sort_by_key(|need| need.from) {
        Ok(()) => Ok(()),
        Err(error) => Err(error),
    }
}

/// The leaves that the selected rows of a plan read, in the order of the first rows that wait for them, and whether these
/// rows ask for whole values.
pub(crate) fn needs_of(
    alloc: Global,
    table: &PlanTable,
    given: &KeptColumns,
    plan: u32,
    start: u64,
    mask: &Mask,
) -> Result<PlacedNeeds, AllocError>
    requires known { plan < length table.now }
    requires inside { start + length mask.now ≤ (node_at table.now plan).rows }
    ensures placed { IfOk result (λ found. ArePlaced table.now given.now plan start mask.now found.needs.items) }
    ensures order { IfOk result (λ found. AreInOrder found.needs.items) }
    ensures leaves { IfOk result (λ found. AreLeaves table.now (map read_of found.needs.items)) }
    ensures asks { IfOk result (λ found. found.asks ≡ false → AskForNone table.now given.now plan start mask.now) }
{
    table.numbers_fit(PlanRef(plan));
    let selects_all = mask.all_true();
    let mut asks = false;
    let mut needs = Vec::new(alloc);
    add_placed(
        alloc,
        table,
        given,
        plan,
        start,
        mask,
        selects_all,
        Spot::Behind(0),
        &mut needs,
        &mut asks,
    )?;
    sort_placed(&mut needs)?;
    Ok(PlacedNeeds { needs, asks })
}

/// The leaves that the selected rows of a plan read, in the order of the first rows that wait for them.
pub(crate) fn placed_of(
    alloc: Global,
    table: &PlanTable,
    given: &KeptColumns,
    plan: u32,
    start: u64,
    mask: &Mask,
) -> Result<Vec<PlacedRead>, AllocError>
    requires known { plan < length table.now }
    requires inside { start + length mask.now ≤ (node_at table.now plan).rows }
    ensures placed { IfOk result (λ needs. ArePlaced table.now given.now plan start mask.now needs.items) }
    ensures order { IfOk result (λ needs. AreInOrder needs.items) }
    ensures leaves { IfOk result (λ needs. AreLeaves table.now (map read_of needs.items)) }
{
    match needs_of(alloc, table, given, plan, start, mask) {
        Ok(found) => Ok(found.needs),
        Err(error) => Err(error),
    }
}
