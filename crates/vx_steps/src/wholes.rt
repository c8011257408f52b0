//! The whole values that selected rows ask for: the values of takes, and shares. Each is made once, unless it was
//! handed in.

ghost use Rattle.std.specs.Prelude.{◌≡◌, ◌+◌, ◌-◌, ◌<◌, ◌≤◌, length, slice_range, Err, None, IfErr, IfOk, IsTrue, OnOk};
ghost use Rattle.std.specs.Bool.{MatchBool};
ghost use Rattle.vx_plan.specs.Reaches.{all_rows};
ghost use Rattle.vx_plan.specs.Rules.{node_at};
ghost use Rattle.vx_plan.specs.Tables.{IsGoodTable};
ghost use Rattle.vx_steps.specs.Computed.{AreReadyWhole, Computes};
ghost use Rattle.vx_steps.specs.Held.{held, IsHeld};
ghost use Rattle.vx_steps.specs.Kept.{kept_at, IsKept};
ghost use Rattle.vx_steps.specs.Wholes.{held_with, AddsAsked, AreReadyInside, AddsOne, AddsOnly, AreThere, AsksNone, FailsInside, IsThere, IsWholeOf, KeepsValues, UsesGiven, WholeFails};

use crate::computing::{Sources, whole_of_plan};
use crate::errors::StepError;
use crate::kept::KeptColumns;
use crate::leaf_columns::LeafColumns;
use crate::picking::selects_none;
use std::alloc::{AllocError, Global};
use vx_base::Mask;
use vx_plan::{ChildRows, Part, PartPlace, PlanRef, PlanTable, Shape};

/// What whole values are made from: the plans, the columns of their leaves, the whole values that were handed in, and
/// what is added to the numbers of rows.
#[derive(Clone, Copy)]
pub(crate) struct Grounds<'a> {
    pub(crate) table: &'a PlanTable,
    pub(crate) leaves: &'a LeafColumns,
    pub(crate) given: &'a KeptColumns,
    pub(crate) offset: u64,
}

/// The whole values that were made, and copies of those that were handed in and used.
#[derive(Drop)]
pub(crate) struct Wholes {
    pub(crate) made: KeptColumns,
    pub(crate) used: KeptColumns,
}

impl<'a> Grounds<'a> {
    /// With the whole values that were made.
    pub(crate) fn sources(self, wholes: &'a Wholes) -> Sources<'a>
        ensures { held result ≡ held_with self.entry wholes.now }
    {
        Sources {
            table: self.table,
            leaves: self.leaves,
            given: Some(self.given),
            made: &wholes.made,
            offset: self.offset,
        }
    }
}

/// Lists the value that was handed in for the number as used, and says whether there is one.
fn use_given(
    alloc: Global,
    given: &KeptColumns,
    number: u32,
    used: &mut KeptColumns,
) -> Result<bool, AllocError>
    ensures uses { UsesGiven given.now used.old used.new }
    ensures one { AddsOnly (λ n. number ≡ n) used.old used.new }
    ensures there { IfOk result (λ there. MatchBool there (IsKept given.now number × IsKept used.new number) (kept_at given.now number ≡ None)) }
{
    match given.find(number) {
        Some(column) => {
            if used.find(number).is_none() {
                used.keep(number, column.copy(alloc)?)?;
            }
            Ok(true)
        }
        None => Ok(false),
    }
}

/// Makes the whole values of a number, which are all rows of a plan, unless they were handed in or made already.
fn ready_whole(
    alloc: Global,
    grounds: Grounds<'_>,
    number: u32,
    plan: u32,
    wholes: &mut Wholes,
) -> Result<(), StepError>
    requires good { IsGoodTable grounds.table.now }
    requires known { plan < length grounds.table.now }
    requires same { IsWholeOf grounds.table.now number plan }
    requires held { IsHeld (held_with grounds wholes.old) }
    requires ready { kept_at grounds.given.now number ≡ None → AreReadyWhole (held_with grounds wholes.old) plan }
    ensures made { KeepsValues grounds.entry.table.now grounds.entry.leaves.now.here grounds.entry.offset wholes.old.made wholes.new.made }
    ensures used { UsesGiven grounds.entry.given.now wholes.old.used wholes.new.used }
    ensures there { OnOk result (IsThere grounds.entry.given.now wholes.new number) }
    ensures one { AddsOne number wholes.old wholes.new }
    ensures cause { IfErr result (λ error. WholeFails (held_with grounds.entry wholes.old) number plan error) }
{
    if use_given(alloc, grounds.given, number, &mut wholes.used)? {
        return Ok(());
    }
    if wholes.made.find(number).is_some() {
        return Ok(());
    }
    match whole_of_plan(alloc, grounds.sources(wholes), plan) {
        Ok(column) => {
            wholes.made.keep_shared(alloc, number, column)?;
            Ok(())
        }
        Err(error) => Err(error),
    }
}

/// Makes the whole values that the selected rows of a plan ask for, unless they were handed in or made already.
#[cycle(wholes)]
pub(crate) fn ready_wholes(
    alloc: Global,
    grounds: Grounds<'_>,
    plan: u32,
    start: u64,
    mask: &Mask,
    wholes: &mut Wholes,
) -> Result<(), StepError>
    requires known { plan < length grounds.table.now }
    requires inside { start + length mask.now ≤ (node_at grounds.table.now plan).rows }
    requires held { IsHeld (held_with grounds wholes.old) }
    requires ready { AreReadyInside (held_with grounds wholes.old) plan start mask.now }
    ensures made { KeepsValues grounds.entry.table.now grounds.entry.leaves.now.here grounds.entry.offset wholes.old.made wholes.new.made }
    ensures used { UsesGiven grounds.entry.given.now wholes.old.used wholes.new.used }
    ensures there { OnOk result (AreThere grounds.entry.table.now grounds.entry.given.now wholes.new plan start mask.now) }
    ensures asked { AddsAsked grounds.entry.table.now grounds.entry.given.now plan start mask.now wholes.old wholes.new }
    ensures cause { IfErr result (λ error. Computes (held_with grounds.entry wholes.old) plan start mask.now (Err error)) }
    ensures inside { IfErr result (λ error. FailsInside (held_with grounds.entry wholes.old) plan start mask.now error) }
{
    if selects_none(mask) {
        return Ok(());
    }
    if let Shape::Leaf(_) = grounds.table.shape(PlanRef(plan)) {
        return Ok(());
    }
    let mut place = PartPlace::first();
    while let Some(next) = grounds
        .table
        .next_part(PlanRef(plan), start, mask.len(), place)
    {
        match next.part {
            Part::Rows(rows) => match ready_child_rows(alloc, grounds, rows, mask, wholes) {
                Ok(()) => {}
                Err(error) => return Err(error),
            },
            Part::Whole(number, child) => {
                match ready_whole(alloc, grounds, number, child, wholes) {
                    Ok(()) => {}
                    Err(error) => return Err(error),
                }
            }
            Part::All(child) => match ready_zones(alloc, grounds, child, wholes) {
                Ok(()) => {}
                Err(error) => return Err(error),
            },
        }
        place = next.behind;
    }
    Ok(())
}

/// Whether no row of the plan asks for whole values, since there is no plan below it but one that has the same rows.
#[cycle(asking)]
pub(crate) fn asks_none(table: &PlanTable, plan: u32) -> bool
    requires { plan < length table.now }
    ensures { IsTrue result → AsksNone table.now plan }
{
    match table.shape(PlanRef(plan)) {
        Shape::Leaf(_) | Shape::RowNumbers | Shape::Lists => true,
        Shape::Same(child) => asks_none(table, child),
        _ => false,
    }
}

/// Makes the whole values that all rows of a plan ask for. Where none of them asks for any, no mask is made.
#[cycle(wholes)]
fn ready_zones(
    alloc: Global,
    grounds: Grounds<'_>,
    plan: u32,
    wholes: &mut Wholes,
) -> Result<(), StepError>
    requires known { plan < length grounds.table.now }
    requires held { IsHeld (held_with grounds wholes.old) }
    requires ready { AreReadyInside (held_with grounds wholes.old) plan 0 (all_rows (node_at grounds.table.now plan).rows) }
    ensures made { KeepsValues grounds.entry.table.now grounds.entry.leaves.now.here grounds.entry.offset wholes.old.made wholes.new.made }
    ensures used { UsesGiven grounds.entry.given.now wholes.old.used wholes.new.used }
    ensures there { OnOk result (AreThere grounds.entry.table.now grounds.entry.given.now wholes.new plan 0 (all_rows (node_at grounds.entry.table.now plan).rows)) }
    ensures asked { AddsAsked grounds.entry.table.now grounds.entry.given.now plan 0 (all_rows (node_at grounds.entry.table.now plan).rows) wholes.old wholes.new }
    ensures cause { IfErr result (λ error. Computes (held_with grounds.entry wholes.old) plan 0 (all_rows (node_at grounds.entry.table.now plan).rows) (Err error)) }
    ensures inside { IfErr result (λ error. FailsInside (held_with grounds.entry wholes.old) plan 0 (all_rows (node_at grounds.entry.table.now plan).rows) error) }
{
    if asks_none(grounds.table, plan) {
        return Ok(());
    }
    let all = Mask::new_true(alloc, grounds.table.row_count(PlanRef(plan)))?;
    ready_wholes(alloc, grounds, plan, 0, &all, wholes)
}

/// Makes the whole values that rows of a child ask for which the mask selects at their places.
#[cycle(wholes)]
fn ready_child_rows(
    alloc: Global,
    grounds: Grounds<'_>,
    rows: ChildRows,
    mask: &Mask,
    wholes: &mut Wholes,
) -> Result<(), StepError>
    requires known { rows.child < length grounds.table.now }
    requires forwards { rows.from ≤ rows.to }
    requires asked { rows.to ≤ length mask.now }
    requires inside { rows.start + (rows.to - rows.from) ≤ (node_at grounds.table.now rows.child).rows }
    requires held { IsHeld (held_with grounds wholes.old) }
    requires ready { AreReadyInside (held_with grounds wholes.old) rows.child rows.start (slice_range mask.now rows.from rows.to) }
    ensures made { KeepsValues grounds.entry.table.now grounds.entry.leaves.now.here grounds.entry.offset wholes.old.made wholes.new.made }
    ensures used { UsesGiven grounds.entry.given.now wholes.old.used wholes.new.used }
    ensures there { OnOk result (AreThere grounds.entry.table.now grounds.entry.given.now wholes.new rows.child rows.start (slice_range mask.now rows.from rows.to)) }
    ensures asked { AddsAsked grounds.entry.table.now grounds.entry.given.now rows.child rows.start (slice_range mask.now rows.from rows.to) wholes.old wholes.new }
    ensures cause { IfErr result (λ error. Computes (held_with grounds.entry wholes.old) rows.child rows.start (slice_range mask.now rows.from rows.to) (Err error)) }
    ensures inside { IfErr result (λ error. FailsInside (held_with grounds.entry wholes.old) rows.child rows.start (slice_range mask.now rows.from rows.to) error) }
{
    if rows.from == 0 && rows.to == mask.len() {
        return ready_wholes(alloc, grounds, rows.child, rows.start, mask, wholes);
    }
    if asks_none(grounds.table, rows.child) {
        return Ok(());
    }
    let some = mask.slice(alloc, rows.from..rows.to)?;
    ready_wholes(alloc, grounds, rows.child, rows.start, &some, wholes)
}
