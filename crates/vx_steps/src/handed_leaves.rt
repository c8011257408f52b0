//! What is found at the first step: up to which split each leaf is read, and which of the leaves that were handed in rows read.

ghost use Rattle.std.specs.Prelude.{◌≡◌, ◌+◌, ◌<◌, ◌^◌, length, true, IfSome, OnErr, OnOk};
ghost use Rattle.std.specs.List.{AllByRecursion};
ghost use Rattle.vx_plan.specs.Rules.{node_at};
ghost use Rattle.vx_steps.specs.Splits.{IsInside};
ghost use Rattle.vx_steps.specs.HandedLeaves.{AreSetApart, HandedAreApart, HoldsLeaf, IsHolding, NotesAll, NotesSplit};
ghost use Rattle.vx_steps.specs.Kept.{IsKept};
ghost use Rattle.vx_steps.specs.LettingGo.{KeepsStanding};
ghost use Rattle.vx_steps.specs.OpenSegments.{IsLeafOver};
ghost use Rattle.vx_steps.specs.Running.{IsRunning, IsSound};

use crate::jobs::{Job, Progress};
use crate::later_reads::LaterReads;
use crate::leaf_columns::LeafColumns;
use crate::leaf_reads::{LeafRead, leaf_at};
use crate::leavings::{meet_row, row_behind};
use crate::needed::Needed;
use crate::placed_reads::{PlacedRead, placed_of};
use std::alloc::{AllocError, Global};
use vx_plan::PlanTable;

/// Notes what the split of a number reads.
fn note_split(needs: &[PlacedRead], number: usize, later: &mut LaterReads) -> Result<(), AllocError>
    requires { number + 1 < 2 ^ 64 }
    ensures { OnOk result (NotesSplit needs.now number later.old later.new) }
{
    for place in 0..needs.len() {
        let need = needs[place];
        later.note(need.leaf, need.segment, number)?;
    }
    Ok(())
}

/// Notes up to which split each leaf and each segment is read, where there are two splits or more, and finds the row behind
/// them.
pub(crate) fn note_later(
    alloc: Global,
    table: &PlanTable,
    job: &Job,
    needed: &mut Needed,
) -> Result<(), AllocError>
    requires known { job.now.plan < length table.now }
    requires inside { AllByRecursion (IsInside (node_at table.now job.now.plan).rows) job.now.splits.items }
    ensures noted { OnOk result (NotesAll table.now job.now needed.old needed.new) }
{
    needed.row = row_behind(&job.splits);
    needed.noted = true;
    if job.splits.len() < 2 {
        return Ok(());
    }
    for number in 0..job.splits.len() {
        let split = &job.splits[number];
        let needs = placed_of(
            alloc,
            table,
            &job.given,
            job.plan,
            split.rows.start,
            &split.mask,
        )?;
        note_split(&needs, number, &mut needed.later)?;
    }
    Ok(())
}

/// Sets the leaves of the needs apart that the row behind the splits doesn't read.
pub(crate) fn set_apart(
    table: &PlanTable,
    plan: u32,
    needs: &[PlacedRead],
    needed: &mut Needed,
) -> Result<(), AllocError>
    requires { plan < length table.now }
    ensures { OnOk result (AreSetApart table.now plan needs.now needed.old needed.new) }
{
    for place in 0..needs.len() {
        needed.apart.put(needs[place].leaf)?;
    }
    meet_row(table, plan, needed.row, &mut needed.apart);
    Ok(())
}

/// Sets the leaves apart that were handed in and that the row behind the splits doesn't read.
pub(crate) fn set_apart_handed(
    table: &PlanTable,
    job: &Job,
    handed: &LeafColumns,
    needed: &mut Needed,
) -> Result<(), AllocError>
    requires { job.now.plan < length table.now }
    ensures { OnOk result (HandedAreApart table.now job.now.plan handed.now.here needed.old needed.new) }
{
    let columns = handed.stored();
    for place in 0..columns.len() {
        needed.apart.put(columns[place].node.0)?;
    }
    meet_row(table, job.plan, needed.row, &mut needed.apart);
    Ok(())
}

/// Holds the segment of a leaf that was handed in, if rows read the leaf, and forgets it, if neither they nor the row behind
/// them reads it. Where memory is wanting, all is as before.
fn hold_leaf(
    alloc: Global,
    leaf: u32,
    segment: u32,
    splits: usize,
    progress: &mut Progress,
) -> Result<(), AllocError>
    requires { progress.old.store.columns.ready ≡ true }
    ensures holds { OnOk result (HoldsLeaf leaf segment splits progress.old progress.new) }
    ensures as_before { OnErr result (progress.new ≡ progress.old) }
{
    let next = progress.next;
    let is_ahead = progress.needed.is_leaf_ahead(leaf, next, splits);
    if is_ahead && progress.needed.is_segment_ahead(segment, next, splits) {
        progress.needed.held.make_room(segment)?;
        progress.needed.held.insert(segment);
    }
    if !is_ahead && progress.needed.apart.has(leaf) {
        progress.store.columns.forget(alloc, leaf);
    }
    Ok(())
}

/// The leaf whose column is stored at a place, where there is one.
fn stored_leaf(table: &PlanTable, leaves: &LeafColumns, place: usize) -> Option<LeafRead>
    ensures { IfSome result (λ read. IsLeafOver table.now read.segment read.leaf × IsKept leaves.now.all read.leaf) }
{
    let columns = leaves.stored();
    if place >= columns.len() {
        return None;
    }
    let leaf = columns[place].node.0;
    if leaf >= table.len() {
        return None;
    }
    match leaf_at(table, leaf) {
        Some(read) => Some(read),
        None => None,
    }
}

/// Holds the leaves that were handed in, as far as rows read them, and forgets the others.
pub(crate) fn hold_handed(
    alloc: Global,
    table: &PlanTable,
    job: &Job,
    progress: &mut Progress,
) -> Result<(), AllocError>
    requires sound { IsSound table.now job.now progress.old }
    requires holding { IsHolding table.now job.now progress.old }
    ensures sound { IsSound table.now job.now progress.new }
    ensures running { OnOk result (IsRunning table.now job.now progress.new) }
    ensures keeps { KeepsStanding progress.old progress.new }
{
    for place in 0..progress.store.columns.stored().len() {
        if let Some(read) = stored_leaf(table, &progress.store.columns, place) {
            hold_leaf(alloc, read.leaf, read.segment, job.splits.len(), progress)?;
        }
    }
    Ok(())
}
