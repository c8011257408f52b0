//! Which whole values the selected rows of a plan ask for where nothing is handed in: the values of outermost takes,
//! and outermost shares.

ghost use Rattle.std.specs.Prelude.{◌+◌, ◌-◌, ◌<◌, ◌≤◌, [], length, map, slice_range, IfOk, OnOk};
ghost use Rattle.vx_plan.specs.Reaches.{all_rows};
ghost use Rattle.vx_plan.specs.Refs.{number_of};
ghost use Rattle.vx_plan.specs.Rules.{node_at};
ghost use Rattle.vx_plan.specs.Tables.{AreIn};
ghost use Rattle.vx_steps.specs.Asked.{AreAskedPlans, AreEachOnce, AreSame};
ghost use Rattle.vx_steps.specs.Needs.{Adds};
ghost use Rattle.vx_steps.specs.Wholes.{Asks};

use crate::picking::selects_none;
use crate::wholes::asks_none;
use std::alloc::{AllocError, Global};
use std::collections::BTreeSet;
use vx_base::Mask;
use vx_plan::{ChildRows, Part, PartPlace, PlanRef, PlanTable, Shape};

/// Adds the numbers of the whole values that the selected rows of a plan ask for. Nothing below whole values is gone
/// through.
#[cycle(asked)]
fn add_asked(
    alloc: Global,
    table: &PlanTable,
    plan: u32,
    start: u64,
    mask: &Mask,
    asked: &mut Vec<u32>,
) -> Result<(), AllocError>
    requires known { plan < length table.now }
    requires inside { start + length mask.now ≤ (node_at table.now plan).rows }
    ensures { OnOk result (Adds (Asks table.now [] plan start mask.now) asked.old.items asked.new.items) }
{
    if selects_none(mask) {
        return Ok(());
    }
    if let Shape::Leaf(_) = table.shape(PlanRef(plan)) {
        return Ok(());
    }
    let mut place = PartPlace::first();
    while let Some(next) = table.next_part(PlanRef(plan), start, mask.len(), place) {
        match next.part {
            Part::Rows(rows) => add_rows_asked(alloc, table, rows, mask, asked)?,
            Part::Whole(whole, _) => asked.push(whole)?,
            Part::All(child) => add_zones_asked(alloc, table, child, asked)?,
        }
        place = next.behind;
    }
    Ok(())
}

/// Adds the numbers of the whole values that rows of a child ask for which the mask selects at their places. Where no row
/// of the child asks for any, no mask is made of the range.
#[cycle(asked)]
fn add_rows_asked(
    alloc: Global,
    table: &PlanTable,
    rows: ChildRows,
    mask: &Mask,
    asked: &mut Vec<u32>,
) -> Result<(), AllocError>
    requires known { rows.child < length table.now }
    requires forwards { rows.from ≤ rows.to }
    requires asked { rows.to ≤ length mask.now }
    requires inside { rows.start + (rows.to - rows.from) ≤ (node_at table.now rows.child).rows }
    ensures { OnOk result (Adds (Asks table.now [] rows.child rows.start (slice_range mask.now rows.from rows.to)) asked.old.items asked.new.items) }
{
    if rows.from == 0 && rows.to == mask.len() {
        return add_asked(alloc, table, rows.child, rows.start, mask, asked);
    }
    if asks_none(table, rows.child) {
        return Ok(());
    }
    let some = mask.slice(alloc, rows.from..rows.to)?;
    add_asked(alloc, table, rows.child, rows.start, &some, asked)
}

/// Adds the numbers of the whole values that all rows of a plan ask for. Where none of them asks for any, no mask is made.
#[cycle(asked)]
fn add_zones_asked(
    alloc: Global,
    table: &PlanTable,
    plan: u32,
    asked: &mut Vec<u32>,
) -> Result<(), AllocError>
    requires { plan < length table.now }
    ensures { OnOk result (Adds (Asks table.now [] plan 0 (all_rows (node_at table.now plan).rows)) asked.old.items asked.new.items) }
{
    if asks_none(table, plan) {
        return Ok(());
    }
    let all = Mask::new_true(alloc, table.row_count(PlanRef(plan)))?;
    add_asked(alloc, table, plan, 0, &all, asked)
}

/// The plans of these numbers, each once, in the order in which they come first.
fn plans_of(alloc: Global, numbers: &[u32]) -> Result<Vec<PlanRef>, AllocError>
    ensures same { IfOk result (λ plans. AreSame (map number_of plans.items) numbers.now) }
    ensures once { IfOk result (λ plans. AreEachOnce (map number_of plans.items)) }
{
    let mut known = BTreeSet::new(alloc);
    let mut plans = Vec::new(alloc);
    for number in numbers {
        if known.insert(*number)? {
            plans.push(PlanRef(*number))?;
        }
    }
    Ok(plans)
}

/// The whole values that the selected rows of a plan ask for where nothing is handed in, each once: the plans of the
/// values of outermost takes, and outermost shares. What whole values ask for in their turn is not among them.
///
/// Time is linear in the plans that the rows visit outside whole values and in their masks, and n log n in the whole
/// values that they ask for, counted each time. It takes memory for these and, in a concat, for a mask of the rows of a
/// child; it fails only where there is none left.
pub fn asked_wholes(
    alloc: Global,
    table: &PlanTable,
    plan: PlanRef,
    start: u64,
    mask: &Mask,
) -> Result<Vec<PlanRef>, AllocError>
    requires known { number_of plan < length table.now }
    requires inside { start + length mask.now ≤ (node_at table.now (number_of plan)).rows }
    ensures asked { IfOk result (λ asked. AreAskedPlans table.now (number_of plan) start mask.now (map number_of asked.items)) }
    ensures once { IfOk result (λ asked. AreEachOnce (map number_of asked.items)) }
    ensures known { IfOk result (λ asked. AreIn table.now (map number_of asked.items)) }
{
    table.keeps_rules();
    let mut numbers = Vec::new(alloc);
    add_asked(alloc, table, plan.0, start, mask, &mut numbers)?;
    plans_of(alloc, &numbers)
}
