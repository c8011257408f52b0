//! The steps of a scan over what it is to do and how far it is.

ghost use Rattle.std.specs.Prelude.{◌≡◌, ◌+◌, ◌<◌, ◌≤◌, length, Some, None, true, IfOk, IfErr, IfSome, OnOk};
ghost use Rattle.std.specs.Bool.{MatchBool};
ghost use Rattle.std.specs.List.{slice_get};
ghost use Rattle.vx_steps.specs.declared.jobs.ActiveSplit.{ActiveSplit};
ghost use Rattle.vx_steps.specs.Jobs.{active_of, AddsLeaves, CanStart, KeepsBound, KeepsColumns, KeepsTold, KeepsWholesFor, OnlyKeeps, Starts, WantsFor};
ghost use Rattle.vx_steps.specs.Needs.{AreAmong};
ghost use Rattle.vx_steps.specs.Running.{IsActiveOutput, IsEnded, IsHeldAt, IsLast, IsGoing, IsPassing, IsRunning, IsSound, Settles};
ghost use Rattle.vx_steps.specs.Standings.{standing_of};
ghost use Rattle.vx_steps.specs.Steps.{active_in, tried_in, GivesOutput, HoldsAll, IsStepRefusal, TakesTurn};
ghost use Rattle.vx_steps.specs.Wants.{Grows};

use crate::errors::StepError;
use crate::handed_leaves::{hold_handed, note_later, set_apart, set_apart_handed};
use crate::jobs::{Job, Progress, make_ready};
use crate::letting_go::{end, pass_needs};
use crate::reads::ReadRequest;
use crate::turns::{finish_split, start_split};
use std::alloc::{AllocError, Global};
use vx_base::Column;
use vx_plan::PlanTable;

/// What a step of a scan comes to.
#[derive(Drop)]
pub enum Turn {
    /// The segment is to be read, and its bytes delivered.
    Read(ReadRequest),
    /// The column of the next selected rows of the split of that number.
    Output(usize, Column),
    /// Nothing can be done before bytes are delivered.
    Waiting,
    /// No split is left, or a step was refused.
    Done,
}

/// Starts the next split, if it selects a row, and passes it by otherwise.
fn start_next(
    alloc: Global,
    table: &PlanTable,
    job: &Job,
    progress: &mut Progress,
) -> Result<(), AllocError>
    requires left { progress.old.next < length job.now.splits.items }
    requires ready { progress.old.store.columns.ready ≡ true }
    requires noted { progress.old.needed.noted ≡ true }
    requires sound { IsSound table.now job.now progress.old }
    requires running { IsGoing table.now job.now progress.old }
    ensures sound { IsSound table.now job.now progress.new }
    ensures running { OnOk result (IsGoing table.now job.now progress.new) }
    ensures told { KeepsTold table.now job.now (standing_of progress.old) (standing_of progress.new) }
    ensures grows { Grows progress.old.reads.wanted progress.new.reads.wanted }
    ensures store { progress.new.store ≡ progress.old.store }
    ensures noted { OnOk result (progress.new.needed.noted ≡ progress.old.needed.noted) }
    ensures wholes { progress.new.wholes ≡ progress.old.wholes }
    ensures bounded { length progress.new.active.items ≤ length progress.old.active.items + 1 }
    ensures next { OnOk result (progress.new.next ≡ progress.old.next + 1) }
    ensures starts { OnOk result (Starts table.now job.now (standing_of progress.old) (standing_of progress.new)) }
{
    let number = progress.next;
    let split = &job.splits[number];
    if split.mask.true_count() == 0 {
        progress.next += 1;
        return Ok(());
    }
    let active = start_split(
        alloc,
        table,
        job,
        number,
        split,
        &progress.store.columns,
        &mut progress.reads,
        &mut progress.needed,
    )?;
    set_apart(table, job.plan, &active.needs, &mut progress.needed)?;
    progress.active.push(active)?;
    progress.next += 1;
    Ok(())
}

/// Whether a split is left to be started, and one more may be active.
fn can_start(job: &Job, progress: &Progress) -> bool
    ensures { MatchBool result (CanStart job.now (standing_of progress.now)) (CanStart job.now (standing_of progress.now) → ⊥) }
{
    progress.next < job.splits.len()
        && (progress.active.is_empty() || progress.active.len() < job.max_active)
}

/// Starts splits, as many as can be.
fn start_splits(
    alloc: Global,
    table: &PlanTable,
    job: &Job,
    progress: &mut Progress,
) -> Result<(), AllocError>
    requires ready { progress.old.store.columns.ready ≡ true }
    requires noted { progress.old.needed.noted ≡ true }
    requires sound { IsSound table.now job.now progress.old }
    requires running { IsGoing table.now job.now progress.old }
    ensures sound { IsSound table.now job.now progress.new }
    ensures running { OnOk result (IsGoing table.now job.now progress.new) }
    ensures told { KeepsTold table.now job.now (standing_of progress.old) (standing_of progress.new) }
    ensures grows { Grows progress.old.reads.wanted progress.new.reads.wanted }
    ensures store { progress.new.store ≡ progress.old.store }
    ensures noted { OnOk result (progress.new.needed.noted ≡ progress.old.needed.noted) }
    ensures wholes { progress.new.wholes ≡ progress.old.wholes }
    ensures bounded { KeepsBound job.now (standing_of progress.old) (standing_of progress.new) }
    ensures starts { OnOk result (Starts table.now job.now (standing_of progress.old) (standing_of progress.new)) }
    ensures all { OnOk result (CanStart job.now (standing_of progress.new) → ⊥) }
{
    'splits: while can_start(job, progress) {
        start_next(alloc, table, job, progress)?;
    }
    Ok(())
}

/// Whether no split is left to be started, and one alone is active.
fn is_last(job: &Job, progress: &Progress) -> bool
    ensures { result ≡ true → IsLast job.now progress.now }
{
    progress.next == job.splits.len() && progress.active.len() == 1
}

/// Gives rows of the active split at the place: their column, as soon as all that the first of them reads came, and None
/// before. Nothing is let go for want of rows yet.
fn finish_at(
    alloc: Global,
    table: &PlanTable,
    job: &Job,
    place: usize,
    progress: &mut Progress,
) -> Result<Option<Column>, StepError>
    requires place { place < length progress.old.active.items }
    requires sound { IsSound table.now job.now progress.old }
    requires running { IsRunning table.now job.now progress.old }
    ensures sound { IsSound table.now job.now progress.new }
    ensures running { IfOk result (λ output. output ≡ None → IsRunning table.now job.now progress.new) }
    ensures passing { IfOk result (λ output. IfSome output (λ _. IsPassing table.now job.now place progress.new)) }
    ensures keeps { IfOk result (λ output. output ≡ None → OnlyKeeps table.now job.now (standing_of progress.old) (standing_of progress.new)) }
    ensures told { KeepsTold table.now job.now (standing_of progress.old) (standing_of progress.new) }
    ensures next { progress.new.next ≡ progress.old.next }
    ensures numbers { active_of (standing_of progress.new) ≡ active_of (standing_of progress.old) }
    ensures wanted { progress.new.reads.wanted ≡ progress.old.reads.wanted }
    ensures handed { progress.new.reads.handed ≡ progress.old.reads.handed }
    ensures leaves { KeepsColumns progress.old.store.columns.all progress.new.store.columns.all }
    ensures leaves_only { AddsLeaves table.now job.now (active_of (standing_of progress.old)) progress.old.store.columns.all progress.new.store.columns.all }
    ensures wholes { KeepsWholesFor table.now job.now (active_of (standing_of progress.old)) progress.old.wholes progress.new.wholes }
    ensures output { IfOk result (λ output. IfSome output (IsActiveOutput table.now job.now progress.old progress.new place)) }
    ensures held { IfOk result (λ output. output ≡ None → IsHeldAt table.now job.now progress.old place) }
    ensures cause { IfErr result (IsStepRefusal table.now job.now (standing_of progress.old) (standing_of progress.new)) }
{
    let last = is_last(job, progress);
    let active = &mut progress.active[place];
    let split = &job.splits[active.split];
    finish_split(
        alloc,
        table,
        job,
        split,
        &mut progress.store,
        last,
        &active.needs,
        &mut active.at,
        &mut progress.reads,
        &mut progress.wholes,
    )
}

/// Whether all rows are given: no split is left to be started, and none of the rows of the one that alone is active.
fn is_ended(job: &Job, place: usize, progress: &Progress) -> bool
    requires place { place < length progress.now.active.items }
    requires known { (active : ActiveSplit) → slice_get progress.now.active.items place ≡ Some active → active.split < length job.now.splits.items }
    ensures { result ≡ true → IsEnded job.now place progress.now }
{
    if !is_last(job, progress) {
        return false;
    }
    let active = &progress.active[place];
    let split = &job.splits[active.split];
    split.mask.len() <= active.at.done
}

/// Passes the needs of the active split at the place, rows of which were given, and gives its number. Where none of its rows
/// is left it is active no more; where no row is left at all, all is let go at once.
fn settle(
    alloc: Global,
    table: &PlanTable,
    job: &Job,
    place: usize,
    progress: &mut Progress,
) -> usize
    requires place { place < length progress.old.active.items }
    requires sound { IsSound table.now job.now progress.old }
    requires passing { IsPassing table.now job.now place progress.old }
    ensures sound { IsSound table.now job.now progress.new }
    ensures running { IsRunning table.now job.now progress.new }
    ensures settles { Settles job.now place result progress.old progress.new }
{
    if is_ended(job, place, progress) {
        let number = progress.active[place].split;
        end(alloc, progress);
        return number;
    }
    pass_needs(alloc, table, job, place, progress);
    let active = &progress.active[place];
    let number = active.split;
    let split = &job.splits[number];
    if active.at.done < split.mask.len() {
        return number;
    }
    drop(progress.active.remove(place));
    number
}

/// Gives rows of an active split, if some are ready: of the first one in the order in which they were started.
fn finish_some(
    alloc: Global,
    table: &PlanTable,
    job: &Job,
    progress: &mut Progress,
) -> Result<Option<(usize, Column)>, StepError>
    requires sound { IsSound table.now job.now progress.old }
    requires running { IsRunning table.now job.now progress.old }
    ensures sound { IsSound table.now job.now progress.new }
    ensures running { OnOk result (IsRunning table.now job.now progress.new) }
    ensures told { KeepsTold table.now job.now (standing_of progress.old) (standing_of progress.new) }
    ensures wholes { KeepsWholesFor table.now job.now (active_of (standing_of progress.old)) progress.old.wholes progress.new.wholes }
    ensures wanted { progress.new.reads.wanted ≡ progress.old.reads.wanted }
    ensures handed { progress.new.reads.handed ≡ progress.old.reads.handed }
    ensures leaves { KeepsColumns progress.old.store.columns.all progress.new.store.columns.all }
    ensures leaves_only { AddsLeaves table.now job.now (active_of (standing_of progress.old)) progress.old.store.columns.all progress.new.store.columns.all }
    ensures bounded { length progress.new.active.items ≤ length progress.old.active.items }
    ensures active { IfOk result (λ output. AreAmong (active_of (standing_of progress.old)) (tried_in output (standing_of progress.new))) }
    ensures output { IfOk result (λ output. IfSome output (λ given. GivesOutput table.now job.now (standing_of progress.old) (standing_of progress.new) given.0 given.1)) }
    ensures none { IfOk result (λ output. output ≡ None → HoldsAll table.now job.now (standing_of progress.old) (standing_of progress.new)) }
    ensures cause { IfErr result (IsStepRefusal table.now job.now (standing_of progress.old) (standing_of progress.new)) }
    ensures refused { IfErr result (λ _. active_of (standing_of progress.new) ≡ active_of (standing_of progress.old)) }
{
    for place in 0..progress.active.len() {
        match finish_at(alloc, table, job, place, progress) {
            Ok(Some(column)) => {
                let number = settle(alloc, table, job, place, progress);
                return Ok(Some((number, column)));
            }
            Ok(None) => {}
            Err(error) => return Err(error),
        }
    }
    Ok(None)
}

/// Starts what can be started. At the first step handed-in leaves that rows read are held then, and those are forgotten that
/// nobody reads.
fn start_all(
    alloc: Global,
    table: &PlanTable,
    job: &Job,
    progress: &mut Progress,
) -> Result<(), AllocError>
    requires ready { progress.old.store.columns.ready ≡ true }
    requires sound { IsSound table.now job.now progress.old }
    requires running { IsRunning table.now job.now progress.old }
    ensures sound { IsSound table.now job.now progress.new }
    ensures running { OnOk result (IsRunning table.now job.now progress.new) }
    ensures told { KeepsTold table.now job.now (standing_of progress.old) (standing_of progress.new) }
    ensures grows { Grows progress.old.reads.wanted progress.new.reads.wanted }
    ensures leaves { progress.new.store.columns.all ≡ progress.old.store.columns.all }
    ensures wholes { progress.new.wholes ≡ progress.old.wholes }
    ensures bounded { KeepsBound job.now (standing_of progress.old) (standing_of progress.new) }
    ensures starts { OnOk result (Starts table.now job.now (standing_of progress.old) (standing_of progress.new)) }
    ensures all { OnOk result (CanStart job.now (standing_of progress.new) → ⊥) }
{
    if progress.needed.noted {
        return start_splits(alloc, table, job, progress);
    }
    note_later(alloc, table, job, &mut progress.needed)?;
    set_apart_handed(table, job, &progress.store.columns, &mut progress.needed)?;
    start_splits(alloc, table, job, progress)?;
    hold_handed(alloc, table, job, progress)
}

/// Starts what can be started, and hands out a read, or else gives rows, if some are ready.
fn advance(
    alloc: Global,
    table: &PlanTable,
    job: &Job,
    progress: &mut Progress,
) -> Result<Turn, StepError>
    requires ready { progress.old.store.columns.ready ≡ true }
    requires sound { IsSound table.now job.now progress.old }
    requires running { IsRunning table.now job.now progress.old }
    ensures sound { IsSound table.now job.now progress.new }
    ensures running { OnOk result (IsRunning table.now job.now progress.new) }
    ensures told { KeepsTold table.now job.now (standing_of progress.old) (standing_of progress.new) }
    ensures grows { Grows progress.old.reads.wanted progress.new.reads.wanted }
    ensures leaves { KeepsColumns progress.old.store.columns.all progress.new.store.columns.all }
    ensures leaves_only { AddsLeaves table.now job.now (active_in result (standing_of progress.new)) progress.old.store.columns.all progress.new.store.columns.all }
    ensures wholes { KeepsWholesFor table.now job.now (active_in result (standing_of progress.new)) progress.old.wholes progress.new.wholes }
    ensures bounded { KeepsBound job.now (standing_of progress.old) (standing_of progress.new) }
    ensures wants { IfOk result (λ _. WantsFor table.now job.now (active_in result (standing_of progress.new)) (standing_of progress.old) (standing_of progress.new)) }
    ensures turn { IfOk result (TakesTurn table.now job.now (standing_of progress.old) (standing_of progress.new)) }
    ensures cause { IfErr result (IsStepRefusal table.now job.now (standing_of progress.old) (standing_of progress.new)) }
{
    start_all(alloc, table, job, progress)?;
    if progress.active.is_empty() {
        return Ok(Turn::Done);
    }
    if let Some(read) = progress.reads.hand_out() {
        return Ok(Turn::Read(read));
    }
    match finish_some(alloc, table, job, progress) {
        Ok(Some((number, column))) => Ok(Turn::Output(number, column)),
        Ok(None) => Ok(Turn::Waiting),
        Err(error) => Err(error),
    }
}

/// Makes ready what was handed in, unless that was done, and goes on.
pub(crate) fn next_turn(
    alloc: Global,
    table: &PlanTable,
    job: &mut Job,
    progress: &mut Progress,
) -> Result<Turn, StepError>
    requires sound { IsSound table.now job.old progress.old }
    requires running { IsRunning table.now job.old progress.old }
    ensures sound { IsSound table.now job.old progress.new }
    ensures running { OnOk result (IsRunning table.now job.old progress.new) }
    ensures job { job.new ≡ job.old }
    ensures told { KeepsTold table.now job.old (standing_of progress.old) (standing_of progress.new) }
    ensures grows { Grows progress.old.reads.wanted progress.new.reads.wanted }
    ensures leaves { KeepsColumns progress.old.store.columns.all progress.new.store.columns.all }
    ensures leaves_only { AddsLeaves table.now job.old (active_in result (standing_of progress.new)) progress.old.store.columns.all progress.new.store.columns.all }
    ensures wholes { KeepsWholesFor table.now job.old (active_in result (standing_of progress.new)) progress.old.wholes progress.new.wholes }
    ensures bounded { KeepsBound job.old (standing_of progress.old) (standing_of progress.new) }
    ensures wants { IfOk result (λ _. WantsFor table.now job.old (active_in result (standing_of progress.new)) (standing_of progress.old) (standing_of progress.new)) }
    ensures turn { IfOk result (TakesTurn table.now job.old (standing_of progress.old) (standing_of progress.new)) }
    ensures cause { IfErr result (IsStepRefusal table.now job.old (standing_of progress.old) (standing_of progress.new)) }
{
    make_ready(alloc, table, job, progress)?;
    advance(alloc, table, job, progress)
}
