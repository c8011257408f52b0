//! What keeps rows of a plan from having a column, whatever bytes come. This is no walk of the parts of a plan
//! (`PlanTable::next_part`), since it looks for lists besides leaves, and ends at the first of them that hinders.

ghost use Rattle.std.specs.Prelude.{◌+◌, ◌<◌, ◌≤◌, length};
ghost use Rattle.vx_plan.specs.declared.shapes.Shape.TheVariants.{Chunks};
ghost use Rattle.vx_plan.specs.Kinds.{HasKind, IsPack};
ghost use Rattle.vx_plan.specs.Plans.{plan_at};
ghost use Rattle.vx_plan.specs.Refs.{number_of};
ghost use Rattle.vx_plan.specs.Rules.{node_at};
ghost use Rattle.vx_plan.specs.Shapes.{HasShape};
ghost use Rattle.vx_plan.specs.Tables.{IsGoodTable};
ghost use Rattle.vx_steps.specs.Hindrances.{AreHindered, IsHindrance, IsOne, IsRun};
ghost use Rattle.vx_steps.specs.Visits.{SomeVisit};

use vx_base::Mask;
use vx_plan::{PlanRef, PlanTable, Shape, chunk_at};

/// What keeps a row of a plan from having a value, whatever bytes come.
#[derive(Clone, Copy, Debug, PartialEq, Eq)]
pub enum Hindrance {
    /// The list of that number, of which it reads a row.
    List(u32),
    /// A segment that it reads, and that has no place.
    Segment(u32),
}

/// A hindrance of so many rows of a plan, counted from the start on, where there are so many places.
#[cycle(hindrances)]
fn hindrance_of_rows(
    table: &PlanTable,
    plan: u32,
    start: u64,
    count: u64,
    places: usize,
) -> Option<Hindrance>
    requires known { plan < length table.now }
    requires inside { start + count ≤ (node_at table.now plan).rows }
    ensures { IsOne (AreHindered places table.now plan start count) result }
{
    if count == 0 {
        return None;
    }
    match table.shape(PlanRef(plan)) {
        Shape::Leaf(segment) => {
            if (segment as usize) < places {
                return None;
            }
            Some(Hindrance::Segment(segment))
        }
        Shape::Same(child) => hindrance_of_rows(table, child, start, count, places),
        Shape::Over(child) => hindrance_of_rows(table, child, start, count, places),
        Shape::Zoned(content, _) => hindrance_of_rows(table, content, start, count, places),
        Shape::Chunks => hindrance_of_chunks(table, plan, start, count, places),
        Shape::Fields(_) => hindrance_of_fields(table, plan, start, count, places),
        Shape::LookUp(codes, values) => {
            let Some(found) = hindrance_of_rows(table, codes, start, count, places) else {
                let rows = table.row_count(PlanRef(values));
                return hindrance_of_rows(table, values, 0, rows, places);
            };
            Some(found)
        }
        Shape::Shared(child) => {
            let rows = table.row_count(PlanRef(child));
            hindrance_of_rows(table, child, 0, rows, places)
        }
        Shape::Pruned(zones) => {
            let rows = table.row_count(PlanRef(zones));
            hindrance_of_rows(table, zones, 0, rows, places)
        }
        Shape::Lists => Some(Hindrance::List(plan)),
        Shape::RowNumbers => None,
    }
}

/// A hindrance of so many rows of the children.
#[cycle(hindrances)]
fn hindrance_of_fields(
    table: &PlanTable,
    plan: u32,
    start: u64,
    count: u64,
    places: usize,
) -> Option<Hindrance>
    requires good { IsGoodTable table.now }
    requires known { HasKind IsPack table.now plan }
    requires inside { start + count ≤ (node_at table.now plan).rows }
    ensures { IsOne (AreHindered places table.now plan start count) result }
{
    for place in 0..table.child_count(PlanRef(plan)) {
        let child = table.child_required(PlanRef(plan), place);
        if let Some(found) = hindrance_of_rows(table, child.0, start, count, places) {
            return Some(found);
        }
    }
    None
}

/// A hindrance of so many rows of a concat: it enters each child that holds one of them, found by a search in the offsets.
#[cycle(hindrances)]
fn hindrance_of_chunks(
    table: &PlanTable,
    plan: u32,
    start: u64,
    count: u64,
    places: usize,
) -> Option<Hindrance>
    requires good { IsGoodTable table.now }
    requires known { plan < length table.now }
    requires concat { HasShape table.now plan Chunks }
    requires inside { start + count ≤ (node_at table.now plan).rows }
    ensures { IsOne (AreHindered places table.now plan start count) result }
{
    table.numbers_fit(PlanRef(plan));
    let mut done: u64 = 0;
    let mut place: usize = 0;
    while done < count {
        let row = start + done;
        let chunk = chunk_at(table, plan, row, place);
        let here = (chunk.end - row).min(count - done);
        if let Some(found) = hindrance_of_rows(
            table,
            chunk.child,
            row - chunk.start,
            here,
            places,
        ) {
            return Some(found);
        }
        done += here;
        place = chunk.next;
    }
    None
}

/// The row behind the last of those from a row on that are all selected, or none of which is.
fn run_end(mask: &Mask, row: u64) -> u64
    requires { row < length mask.now }
    ensures behind { row < result }
    ensures inside { result ≤ length mask.now }
    ensures run { IsRun mask.now row result }
{
    let rows = mask.len();
    let selected = mask.value(row);
    for end in row + 1..rows {
        if mask.value(end) != selected {
            return end;
        }
    }
    rows
}

/// A hindrance of the selected rows of a plan, of which those that follow one another are taken together.
fn hindrance_of_runs(
    table: &PlanTable,
    plan: PlanRef,
    start: u64,
    mask: &Mask,
    places: usize,
) -> Option<Hindrance>
    requires known { number_of plan < length table.now }
    requires inside { start + length mask.now ≤ (node_at table.now (number_of plan)).rows }
    ensures { IsOne (λ x. SomeVisit (IsHindrance places x) None (plan_at table.now (number_of plan)) start mask.now) result }
{
    table.numbers_fit(plan);
    let mut done: u64 = 0;
    while done < mask.len() {
        let end = run_end(mask, done);
        if mask.value(done) {
            if let Some(found) = hindrance_of_rows(
                table,
                plan.0,
                start + done,
                end - done,
                places,
            ) {
                return Some(found);
            }
        }
        done = end;
    }
    None
}

/// What keeps the selected rows of a plan from having a column, whatever bytes come, where there are so many places: a list
/// of which one of them reads a row, or a segment that isn't below the number and that one of them reads. Of several it is
/// any one, and it counts for nothing that whole values are handed in. It takes no memory. Where nothing hinders the rows of
/// the range, selected or not, time is linear in the plans that they visit, and else in those that each run of selected rows
/// visits.
pub fn first_hindrance(
    table: &PlanTable,
    plan: PlanRef,
    start: u64,
    mask: &Mask,
    places: usize,
) -> Option<Hindrance>
    requires known { number_of plan < length table.now }
    requires inside { start + length mask.now ≤ (node_at table.now (number_of plan)).rows }
    ensures { IsOne (λ x. SomeVisit (IsHindrance places x) None (plan_at table.now (number_of plan)) start mask.now) result }
{
    let Some(_some) = hindrance_of_rows(table, plan.0, start, mask.len(), places) else {
        return None;
    };
    hindrance_of_runs(table, plan, start, mask, places)
}
