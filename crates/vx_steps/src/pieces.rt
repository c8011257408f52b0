//! The pieces in which the rows of a split are given.

ghost use Rattle.std.specs.Prelude.{◌≡◌, ◌+◌, ◌<◌, ◌≤◌, ◌⊎◌, length, slice_range, Err, IfOk, IfErr, IfSome, None, OnOk, false, true};
ghost use Rattle.vx_base.specs.Masks.{true_count};
ghost use Rattle.vx_plan.specs.Rules.{node_at};
ghost use Rattle.vx_steps.specs.Computed.{AreReady, Computes};
ghost use Rattle.vx_steps.specs.Held.{IsHeld};
ghost use Rattle.vx_steps.specs.Pieces.{AreInOrder, ArePassed, ArePlaced, FailsRows, GivesRows, IsGivenTo, IsNextNeed, IsNextRow, WaitsFor};
ghost use Rattle.vx_steps.specs.Wholes.{held_with, AddsAsked, AreThere, FailsInside, KeepsValues, UsesGiven};

use crate::computing::column_of;
use crate::errors::StepError;
use crate::placed_reads::PlacedRead;
use crate::splits::Split;
use crate::wholes::{Grounds, Wholes, ready_wholes};
use std::alloc::Global;
use vx_base::{Column, Mask};
use vx_plan::PlanRef;

/// The column of the selected rows of a split from a place on, up to another. No mask is made where these are all its
/// rows.
pub(crate) fn piece_column(
    alloc: Global,
    grounds: Grounds<'_>,
    plan: u32,
    split: &Split,
    from: u64,
    to: u64,
    wholes: &Wholes,
) -> Result<Column, StepError>
    requires known { plan < length grounds.table.now }
    requires forwards { from ≤ to }
    requires inside { to ≤ length split.now.mask }
    requires rows { split.now.rows.start + length split.now.mask ≤ (node_at grounds.table.now plan).rows }
    requires held { IsHeld (held_with grounds wholes.now) }
    requires ready { AreReady (held_with grounds wholes.now) plan (split.now.rows.start + from) (slice_range split.now.mask from to) }
    ensures dtype { IfOk result (λ column. column.dtype ≡ (node_at grounds.entry.table.now plan).dtype) }
    ensures rows { IfOk result (λ column. length column.values ≡ true_count (slice_range split.now.mask from to)) }
    ensures computed { Computes (held_with grounds.entry wholes.now) plan (split.now.rows.start + from) (slice_range split.now.mask from to) result }
{
    grounds.table.numbers_fit(PlanRef(plan));
    if from == 0 && to == split.mask.len() {
        return column_of(
            alloc,
            grounds.sources(wholes),
            plan,
            split.rows.start,
            &split.mask,
        );
    }
    let some = split.mask.slice(alloc, from..to)?;
    column_of(
        alloc,
        grounds.sources(wholes),
        plan,
        split.rows.start + from,
        &some,
    )
}

/// In front of which place the rows of a split of so many rows are ready, where the needs in front of the next one are
/// kept: the place of that need, if there is one.
pub(crate) fn ready_rows(needs: &[PlacedRead], rows: u64, next: usize) -> u64
    requires order { AreInOrder needs.now }
    ensures within { result ≤ rows }
    ensures passed { ArePassed needs.now result next }
    ensures next { result < rows → IsNextNeed needs.now next result }
{
    if next >= needs.len() {
        return rows;
    }
    needs[next].from.min(rows)
}

/// How far the rows of a split are given: in front of which place; which selected row is the next; how many needs, from the
/// first one on, are known to be kept; and whether the whole values that the split asks for were made, or it asks for none.
#[derive(Clone, Copy)]
pub(crate) struct GivenRows {
    pub(crate) done: u64,
    pub(crate) row: u64,
    pub(crate) next: usize,
    pub(crate) made: bool,
}

impl GivenRows {
    /// No row of the mask was given, and no whole values were made: none have to be, unless the split asks for some.
    pub(crate) fn none(mask: &Mask, asks: bool) -> GivenRows
        ensures row { IsNextRow mask.now 0 result.row }
        ensures done { result.done ≡ 0 }
        ensures next { result.next ≡ 0 }
        ensures made { result.made ≡ true → asks ≡ false }
    {
        let row = match mask.first() {
            Some(row) => row,
            None => mask.len(),
        };
        GivenRows {
            done: 0,
            row,
            next: 0,
            made: !asks,
        }
    }
}

/// The column of the rows of a split that were not given yet, up to the place in front of which they are ready. The whole
/// values that the split asks for are there.
fn give_rows(
    alloc: Global,
    grounds: Grounds<'_>,
    plan: u32,
    split: &Split,
    needs: &[PlacedRead],
    wholes: &Wholes,
    ready: u64,
    at: &mut GivenRows,
) -> Result<Column, StepError>
    requires known { plan < length grounds.table.now }
    requires rows { split.now.rows.start + length split.now.mask ≤ (node_at grounds.table.now plan).rows }
    requires held { IsHeld (held_with grounds wholes.now) }
    requires placed { ArePlaced grounds.table.now grounds.given.now plan split.now.rows.start split.now.mask needs.now }
    requires given { IsGivenTo grounds.table.now grounds.given.now grounds.leaves.now.here wholes.now plan split.now needs.now at.old }
    requires made { at.old.made ≡ true }
    requires some { at.old.row < ready }
    requires within { ready ≤ length split.now.mask }
    requires passed { ArePassed needs.now ready at.old.next }
    requires next { ready < length split.now.mask → IsNextNeed needs.now at.old.next ready }
    ensures given { IsGivenTo grounds.entry.table.now grounds.entry.given.now grounds.entry.leaves.now.here wholes.now plan split.now needs.now at.new }
    ensures next { at.new.next ≡ at.old.next }
    ensures gives { IfOk result (GivesRows (held_with grounds.entry wholes.now) plan split.now at.old.done at.new.done) }
    ensures cause { IfErr result (FailsRows (held_with grounds.entry wholes.now) plan split.now needs.now at.old.done) }
    ensures stays { IfErr result (λ _. at.new ≡ at.old) }
{
    match piece_column(alloc, grounds, plan, split, at.done, ready, wholes) {
        Ok(column) => {
            at.done = ready;
            at.row = ready;
            Ok(column)
        }
        Err(error) => Err(error),
    }
}

/// Makes the whole values that the selected rows of a split ask for, unless that was done. All leaves of whole values are
/// kept, since a row of the split is ready.
fn make_wholes(
    alloc: Global,
    grounds: Grounds<'_>,
    plan: u32,
    split: &Split,
    needs: &[PlacedRead],
    wholes: &mut Wholes,
    at: &mut GivenRows,
) -> Result<(), StepError>
    requires known { plan < length grounds.table.now }
    requires rows { split.now.rows.start + length split.now.mask ≤ (node_at grounds.table.now plan).rows }
    requires held { IsHeld (held_with grounds wholes.old) }
    requires placed { ArePlaced grounds.table.now grounds.given.now plan split.now.rows.start split.now.mask needs.now }
    requires given { IsGivenTo grounds.table.now grounds.given.now grounds.leaves.now.here wholes.old plan split.now needs.now at.old }
    requires ready { ArePassed needs.now 1 at.old.next }
    ensures given { IsGivenTo grounds.entry.table.now grounds.entry.given.now grounds.entry.leaves.now.here wholes.new plan split.now needs.now at.new }
    ensures done { at.new.done ≡ at.old.done }
    ensures row { at.new.row ≡ at.old.row }
    ensures next { at.new.next ≡ at.old.next }
    ensures now { OnOk result (at.new.made ≡ true) }
    ensures made { KeepsValues grounds.entry.table.now grounds.entry.leaves.now.here grounds.entry.offset wholes.old.made wholes.new.made }
    ensures used { UsesGiven grounds.entry.given.now wholes.old.used wholes.new.used }
    ensures asked { AddsAsked grounds.entry.table.now grounds.entry.given.now plan split.now.rows.start split.now.mask wholes.old wholes.new }
    ensures cause { IfErr result (λ error. Computes (held_with grounds.entry wholes.old) plan split.now.rows.start split.now.mask (Err error)) }
    ensures inside { IfErr result (λ error. FailsInside (held_with grounds.entry wholes.old) plan split.now.rows.start split.now.mask error) }
{
    if at.made {
        return Ok(());
    }
    match ready_wholes(alloc, grounds, plan, split.rows.start, &split.mask, wholes) {
        Ok(()) => {
            at.made = true;
            Ok(())
        }
        Err(error) => Err(error),
    }
}

/// What a started split comes to: the column of its next rows, as many as are ready, if the next selected one is. No row is
/// ready before all leaves of the whole values that the split asks for are kept; then these are made, unless they were.
/// So all of them are there, even where a column is not computed in the end, unless the fault is one of theirs.
pub(crate) fn next_rows(
    alloc: Global,
    grounds: Grounds<'_>,
    plan: u32,
    split: &Split,
    needs: &[PlacedRead],
    wholes: &mut Wholes,
    at: &mut GivenRows,
) -> Result<Option<Column>, StepError>
    requires known { plan < length grounds.table.now }
    requires rows { split.now.rows.start + length split.now.mask ≤ (node_at grounds.table.now plan).rows }
    requires held { IsHeld (held_with grounds wholes.old) }
    requires placed { ArePlaced grounds.table.now grounds.given.now plan split.now.rows.start split.now.mask needs.now }
    requires order { AreInOrder needs.now }
    requires given { IsGivenTo grounds.table.now grounds.given.now grounds.leaves.now.here wholes.old plan split.now needs.now at.old }
    ensures given { IsGivenTo grounds.entry.table.now grounds.entry.given.now grounds.entry.leaves.now.here wholes.new plan split.now needs.now at.new }
    ensures next { at.new.next ≡ at.old.next }
    ensures made { KeepsValues grounds.entry.table.now grounds.entry.leaves.now.here grounds.entry.offset wholes.old.made wholes.new.made }
    ensures used { UsesGiven grounds.entry.given.now wholes.old.used wholes.new.used }
    ensures asked { AddsAsked grounds.entry.table.now grounds.entry.given.now plan split.now.rows.start split.now.mask wholes.old wholes.new }
    ensures there { IfOk result (λ rows. IfSome rows (λ _. AreThere grounds.entry.table.now grounds.entry.given.now wholes.new plan split.now.rows.start split.now.mask)) }
    ensures gives { IfOk result (λ rows. IfSome rows (GivesRows (held_with grounds.entry wholes.old) plan split.now at.old.done at.new.done)) }
    ensures waits { IfOk result (λ rows. rows ≡ None → (at.new ≡ at.old) × (at.old.row < length split.now.mask → WaitsFor needs.now at.old.next at.old.row)) }
    ensures cause { IfErr result (λ error. Computes (held_with grounds.entry wholes.old) plan split.now.rows.start split.now.mask (Err error)) }
    ensures left { IfErr result (λ error. AreThere grounds.entry.table.now grounds.entry.given.now wholes.new plan split.now.rows.start split.now.mask ⊎ FailsInside (held_with grounds.entry wholes.old) plan split.now.rows.start split.now.mask error) }
    ensures fails { IfErr result (λ error. FailsRows (held_with grounds.entry wholes.old) plan split.now needs.now at.old.done error ⊎ FailsInside (held_with grounds.entry wholes.old) plan split.now.rows.start split.now.mask error) }
    ensures stays { IfErr result (λ _. at.new.done ≡ at.old.done) }
{
    let ready = ready_rows(needs, split.mask.len(), at.next);
    if ready <= at.row {
        return Ok(None);
    }
    match make_wholes(alloc, grounds, plan, split, needs, wholes, at) {
        Ok(()) => {}
        Err(error) => return Err(error),
    }
    match give_rows(alloc, grounds, plan, split, needs, wholes, ready, at) {
        Ok(column) => Ok(Some(column)),
        Err(error) => Err(error),
    }
}
