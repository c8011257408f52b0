//! The run of a chunk by a worker that shares whole values with others: what the chunk asks for and the worker lacks is
//! looked for in the cache, and what the run made is put there.

ghost use Rattle.std.specs.Prelude.{◌≡◌, ◌<◌, [], length, map, IsTrue, IfOk, IfSome};
ghost use Rattle.std.specs.Bool.{MatchBool};
ghost use Rattle.std.specs.List.{AllByRecursion};
ghost use Rattle.vx_plan.specs.Refs.{number_of};
ghost use Rattle.vx_plan.specs.Tables.{AreIn};
ghost use Rattle.vx_steps.specs.Asked.{AreAskedPlans};
ghost use Rattle.vx_steps.specs.Kept.{kept_data};
ghost use Rattle.vx_steps.specs.Offers.{IsForPlan};
ghost use Rattle.vx_drive.specs.Plans.{ArePlans, IsChunkOf};
ghost use Rattle.vx_chunks.specs.Outcomes.{data_of, CanHandOn, IsGivenOrMade};
ghost use Rattle.vx_base.specs.Sources.{Cleared};
ghost use Rattle.vx_workers.specs.Borrowing.{AreHad, AreOfPlans, BorrowsOne, RecordsOutcome, RestsOn, RunsShared};
ghost use Rattle.vx_workers.specs.Borrowers.{AreBorrowed, RestsOnValues};

use crate::books::ValueCache;
use crate::commons::Common;
use crate::worker_states::{Borrower, ChunkError, Piece, WorkerState};
use std::alloc::{AllocError, Global};
use std::sync::Wait;
use vx_base::{Column, SegmentSource};
use vx_chunks::{HandedOn, Ran, first_for, run_on};
use vx_drive::{ScanError, ScanPlans};
use vx_plan::{PlanRef, PlanTable};
use vx_splits::SelectedRows;
use vx_steps::{KeptValue, asked_wholes};

/// What a chunk gave that ran with borrowed values, and those of these on which it rests: all or none.
#[derive(Drop)]
pub(crate) struct Shared {
    pub(crate) ran: Ran,
    pub(crate) borrowed: Vec<KeptValue>,
}

/// The plans whose whole values a chunk asks for; what it borrows of them, with copies; and those of which neither the
/// worker has any, nor the cache any that fit.
#[derive(Drop)]
pub(crate) struct Borrowed {
    pub(crate) asked: Vec<PlanRef>,
    pub(crate) lacking: Vec<PlanRef>,
    pub(crate) given: Vec<KeptValue>,
    pub(crate) kept: Vec<KeptValue>,
}

/// Whether the column has the dtype and the rows of the plan.
fn fits(table: &PlanTable, plan: PlanRef, column: &Column) -> bool
    requires known { number_of plan < length table.now }
    ensures { IsTrue result → IsForPlan table.now (record { node = number_of plan; column = column.now }) }
{
    column.dtype().same(table.dtype(plan)) && column.len() == table.row_count(plan)
}

/// The whole values that the cache has for the plan, if they have its dtype and rows.
fn borrow_one<R: Wait>(
    rt: &R,
    table: &PlanTable,
    plan: PlanRef,
    cache: &ValueCache,
) -> Result<Option<Column>, AllocError>
    requires known { number_of plan < length table.now }
    ensures { IfOk result (λ found. IfSome found (λ column. IsForPlan table.now (record { node = number_of plan; column = column }))) }
{
    let Some(column) = cache.get(rt, plan)? else {
        return Ok(None);
    };
    if fits(table, plan, &column) {
        return Ok(Some(column));
    }
    drop(column);
    Ok(None)
}

/// Borrows the whole values of the plan, if the cache has them, and lists the plan as lacking if it doesn't.
fn borrow_or_lack<R: Wait>(
    rt: &R,
    table: &PlanTable,
    plan: PlanRef,
    cache: &ValueCache,
    borrowed: &mut Borrowed,
) -> Result<(), AllocError>
    requires known { number_of plan < length table.now }
    ensures { BorrowsOne table.now (number_of plan) (data_of borrowed.old.given.items) (data_of borrowed.new.given.items) }
{
    match borrow_one(rt, table, plan, cache)? {
        Some(column) => borrowed.given.push(KeptValue { node: plan, column })?,
        None => borrowed.lacking.push(plan)?,
    }
    Ok(())
}

/// Those of these plans that the worker did not make itself: what the cache has of them, and the others.
fn borrow<R: Wait>(
    rt: &R,
    alloc: Global,
    table: &PlanTable,
    asked: &[PlanRef],
    made: &[KeptValue],
    cache: &ValueCache,
) -> Result<Borrowed, AllocError>
    requires known { AllByRecursion (λ plan. number_of plan < length table.now) asked.now }
    ensures { IfOk result (λ borrowed. AreOfPlans table.now (map number_of asked.now) (data_of borrowed.given.items)) }
{
    let mut borrowed = Borrowed {
        asked: Vec::new(alloc),
        lacking: Vec::new(alloc),
        given: Vec::new(alloc),
        kept: Vec::new(alloc),
    };
    for plan in asked {
        if first_for(made, *plan).is_none() {
            borrow_or_lack(rt, table, *plan, cache, &mut borrowed)?;
        }
    }
    Ok(borrowed)
}

/// Copies of whole values, which cost no rows where the columns are shared.
pub(crate) fn copies(alloc: Global, values: &[KeptValue]) -> Result<Vec<KeptValue>, AllocError>
    ensures { IfOk result (λ copied. data_of copied.items ≡ map kept_data values.now) }
{
    let mut copied = Vec::with_capacity(alloc, values.len())?;
    for value in values {
        copied.push(KeptValue {
            node: value.node,
            column: value.column.copy(alloc)?,
        })?;
    }
    Ok(copied)
}

/// Puts a copy of the column into the cache, where there is memory for it. What the cache has for the plan stays.
fn share_one<R: Wait>(
    rt: &R,
    alloc: Global,
    plan: PlanRef,
    column: &Column,
    cache: &ValueCache,
) -> Result<(), AllocError> {
    let copied = column.copy(alloc)?;
    drop(cache.insert(rt, plan, copied)?);
    Ok(())
}

/// Puts a copy of the whole values of each of these plans into the cache, where there are some and memory for it. What the
/// cache has for a plan stays.
fn share<R: Wait>(
    rt: &R,
    alloc: Global,
    asked: &[PlanRef],
    made: &[KeptValue],
    cache: &ValueCache,
) {
    for plan in asked {
        if let Some(column) = first_for(made, *plan) {
            // The cache goes without what there is no memory for.
            let _shared = share_one(rt, alloc, *plan, column, cache);
        }
    }
}

/// What a chunk borrows of the whole values that it asks for: what the worker did not make and the cache has.
fn borrowed_for<R: Wait>(
    rt: &R,
    alloc: Global,
    plans: &ScanPlans,
    chosen: &SelectedRows,
    made: &[KeptValue],
    cache: &ValueCache,
) -> Result<Borrowed, AllocError>
    requires plans { ArePlans plans.now }
    requires chunk { IsChunkOf plans.now chosen.now }
    ensures borrowed { IfOk result (λ borrowed. AreBorrowed plans.now chosen.now (data_of borrowed.given.items)) }
    ensures kept { IfOk result (λ borrowed. data_of borrowed.kept.items ≡ data_of borrowed.given.items) }
    ensures asked { IfOk result (λ borrowed. AreAskedPlans plans.now.table (number_of plans.now.projection) chosen.now.scope.rows.start chosen.now.mask (map number_of borrowed.asked.items)) }
    ensures known { IfOk result (λ borrowed. AreIn plans.now.table (map number_of borrowed.asked.items)) }
{
    let asked = asked_wholes(
        alloc,
        &plans.table,
        plans.projection,
        chosen.scope.rows.start,
        &chosen.mask,
    )?;
    let mut borrowed = borrow(rt, alloc, &plans.table, asked.as_slice(), made, cache)?;
    borrowed.kept = copies(alloc, borrowed.given.as_slice())?;
    borrowed.asked = asked;
    Ok(borrowed)
}

/// Whether an error may come of a value that is wrong.
fn rests_on_values(error: ScanError) -> bool
    ensures { MatchBool result (RestsOnValues error) (RestsOnValues error → ⊥) }
{
    match error {
        ScanError::BadCode { .. } | ScanError::EvalFault(_) => true,
        _ => false,
    }
}

/// Whether the plan has whole values among those that were made or given.
fn is_had(plan: PlanRef, made: &[KeptValue], given: &[KeptValue]) -> bool
    ensures { MatchBool result (IsGivenOrMade (data_of given.now) (data_of made.now) (number_of plan)) (IsGivenOrMade (data_of given.now) (data_of made.now) (number_of plan) → ⊥) }
{
    if first_for(made, plan).is_some() {
        return true;
    }
    first_for(given, plan).is_some()
}

/// Whether each of the plans has.
fn are_had(asked: &[PlanRef], made: &[KeptValue], given: &[KeptValue]) -> bool
    ensures { MatchBool result (AreHad (map number_of asked.now) (data_of given.now) (data_of made.now)) (AreHad (map number_of asked.now) (data_of given.now) (data_of made.now) → ⊥) }
{
    for plan in asked {
        if !is_had(*plan, made, given) {
            return false;
        }
    }
    true
}

/// The given values, if the result may rest on them. It doesn't where it is a fault of a chunk for which some of the whole
/// values that it asks for are missing then: such a fault is one of these.
fn rested_on(
    alloc: Global,
    piece: &Result<Column, ScanError>,
    asked: &[PlanRef],
    made: &[KeptValue],
    given: Vec<KeptValue>,
) -> Vec<KeptValue>
    ensures { RestsOn piece.now (map number_of asked.now) (data_of made.now) given.items result.items }
{
    let Err(error) = piece else {
        return given;
    };
    if rests_on_values(*error) && !are_had(asked, made, given.as_slice()) {
        return Vec::new(alloc);
    }
    given
}

/// What a chunk gives that is refused before it runs: what was handed on to it is handed on by it. Nothing is left in
/// flight at the source.
pub(crate) fn refuse<S: SegmentSource>(
    alloc: Global,
    error: ScanError,
    source: &mut S,
    handed: HandedOn,
) -> Shared
    ensures ran { result.ran ≡ record { piece = Err error; handed = handed } }
    ensures borrowed { result.borrowed.items ≡ [] }
    ensures cleared { Cleared (S.state source.old) (S.state source.new) }
{
    source.clear();
    Shared {
        ran: Ran {
            piece: Err(error),
            handed,
        },
        borrowed: Vec::new(alloc),
    }
}

/// Runs a chunk with what earlier chunks of the worker handed on, and, where values are shared, with whole values that it
/// borrows from the cache for those that it asks for and the worker lacks. Those that the worker has then are put into
/// the cache. Whatever it answers, nothing is in flight at the source afterwards.
pub(crate) fn run_shared<R: Wait, S: SegmentSource>(
    rt: &R,
    alloc: Global,
    common: &Common<'_>,
    chosen: &SelectedRows,
    source: &mut S,
    handed: HandedOn,
) -> Shared
    requires plans { ArePlans common.now.plans.now }
    requires chunk { IsChunkOf common.now.plans.now chosen.now }
    requires handed { CanHandOn common.now.plans.now handed }
    ensures { RunsShared common.now.shares common.now.plans.now chosen.now handed result (S.state source.old) (S.state source.new) }
{
    let plans = common.plans;
    if !common.shares {
        let ran = run_on(alloc, plans, chosen, source, handed, Vec::new(alloc));
        return Shared {
            ran,
            borrowed: Vec::new(alloc),
        };
    }
    let made = handed.made.as_slice();
    let Ok(borrowed) = borrowed_for(rt, alloc, plans, chosen, made, common.cache) else {
        return refuse(alloc, ScanError::Memory, source, handed);
    };
    let Borrowed {
        asked,
        lacking,
        given,
        kept,
    } = borrowed;
    let ran = run_on(alloc, plans, chosen, source, handed, given);
    let made = ran.handed.made.as_slice();
    share(rt, alloc, lacking.as_slice(), made, common.cache);
    let borrowed = rested_on(alloc, &ran.piece, asked.as_slice(), made, kept);
    plans.table.keeps_rules();
    Shared { ran, borrowed }
}

/// Lists what came of a chunk in the state, and says whether the worker goes on.
pub(crate) fn record_outcome(
    worker: &mut WorkerState,
    number: u64,
    piece: Result<Column, ScanError>,
    borrowed: Vec<KeptValue>,
) -> bool
    requires pieces { length worker.old.pieces.items < worker.old.pieces.cap }
    requires borrowers { length worker.old.borrowers.items < worker.old.borrowers.cap }
    ensures { RecordsOutcome number piece borrowed result worker.old worker.new }
{
    match piece {
        Ok(column) if borrowed.is_empty() => {
            worker.pieces.push_reserved(Piece {
                chunk: number,
                column,
            });
            true
        }
        Err(error) if borrowed.is_empty() || !rests_on_values(error) => {
            worker.error = Some(ChunkError {
                chunk: number,
                error,
            });
            false
        }
        result => {
            worker.borrowers.push_reserved(Borrower {
                chunk: number,
                borrowed,
                result,
            });
            true
        }
    }
}
