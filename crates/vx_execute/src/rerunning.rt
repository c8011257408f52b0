//! One chunk that ran with borrowed values: each of these is tested, and if one is wrong, the chunk runs again.

ghost use Rattle.std.specs.Prelude.{◌≡◌, ◌<◌, length, OnOk, Some};
ghost use Rattle.std.specs.Bool.{MatchBool};
ghost use Rattle.std.specs.List.{AllByRecursion};
ghost use Rattle.vx_plan.specs.Refs.{number_of};
ghost use Rattle.vx_plan.specs.Tables.{IsGoodTable};
ghost use Rattle.vx_steps.specs.Held.{AreTyped};
ghost use Rattle.vx_steps.specs.Kept.{kept_at, kept_data, IsKept};
ghost use Rattle.vx_steps.specs.Offers.{IsForPlan};
ghost use Rattle.vx_drive.specs.Plans.{ArePlans, IsChunkOf};
ghost use Rattle.vx_chunks.specs.Outcomes.{data_of};
ghost use Rattle.vx_workers.specs.Certified.{error_in, Certifies, GivesRight, IsTested, Tests};
ghost use Rattle.vx_execute.specs.Validated.{ChecksOne, IsBorrowerOf, ListsRerun};

use crate::outcomes::Rerun;
use std::alloc::{AllocError, Global};
use vx_base::{Column, SegmentSource};
use vx_chunks::{ChunkOutcome, first_for, give, run_chunk, run_values};
use vx_drive::{ScanError, ScanPlans};
use vx_plan::PlanRef;
use vx_splits::SelectedRows;
use vx_steps::{KeptValue, asked_wholes};
use vx_workers::Borrower;

/// What was made sure of for chunks that were validated: the whole values that are right, by their plans, and which chunks
/// ran again.
#[derive(Drop)]
pub(crate) struct Checked {
    pub(crate) right: Vec<KeptValue>,
    pub(crate) reruns: Vec<Rerun>,
}

/// Makes sure that there are whole values for the plan which are right: those that a worker made, or else what is read now
/// on the source, once.
fn certify<S: SegmentSource>(
    alloc: Global,
    plans: &ScanPlans,
    plan: PlanRef,
    right: &mut Vec<KeptValue>,
    source: &mut S,
) -> Result<(), ScanError>
    requires plans { ArePlans plans.now }
    requires known { number_of plan < length plans.now.table }
    ensures certifies { Certifies plans.now (λ n. n ≡ number_of plan) (data_of right.old.items) (data_of right.new.items) (error_in result) (S.state source.old) (S.state source.new) }
    ensures there { OnOk result (IsKept (data_of right.new.items) (number_of plan)) }
{
    if first_for(right, plan).is_some() {
        return Ok(());
    }
    if right.reserve(1).is_err() {
        return Err(ScanError::Memory);
    }
    match run_values(alloc, plans, plan, source) {
        Ok(column) => {
            right.push_reserved(KeptValue { node: plan, column });
            Ok(())
        }
        Err(error) => Err(error),
    }
}

/// Whether the borrowed value is the same as the one that is right for its plan.
fn is_right(one: &KeptValue, right: &[KeptValue]) -> bool
    ensures { MatchBool result (kept_at (data_of right.now) (kept_data one.now).node ≡ Some one.now.column) (kept_at (data_of right.now) (kept_data one.now).node ≡ Some one.now.column → ⊥) }
{
    match first_for(right, one.node) {
        Some(column) => column.same(&one.column),
        None => false,
    }
}

/// The place of the first borrowed value that is wrong. Values that no worker made are read on the source.
fn first_wrong<S: SegmentSource>(
    alloc: Global,
    plans: &ScanPlans,
    borrowed: &[KeptValue],
    right: &mut Vec<KeptValue>,
    source: &mut S,
) -> Result<Option<usize>, ScanError>
    requires plans { ArePlans plans.now }
    requires fit { AllByRecursion (IsForPlan plans.now.table) (data_of borrowed.now) }
    ensures { Tests plans.now (data_of borrowed.now) (data_of right.old.items) (data_of right.new.items) result (S.state source.old) (S.state source.new) }
{
    for (place, one) in borrowed.iter().enumerate() {
        match certify(alloc, plans, one.node, right, source) {
            Ok(()) => {}
            Err(error) => return Err(error),
        }
        if !is_right(one, right) {
            return Ok(Some(place));
        }
    }
    Ok(None)
}

/// Makes sure that there are right whole values for all plans that the chunk asks for, and gives copies of these.
fn all_right<S: SegmentSource>(
    alloc: Global,
    plans: &ScanPlans,
    chosen: &SelectedRows,
    right: &mut Vec<KeptValue>,
    source: &mut S,
) -> Result<Vec<KeptValue>, ScanError>
    requires plans { ArePlans plans.now }
    requires chunk { IsChunkOf plans.now chosen.now }
    ensures { GivesRight plans.now chosen.now (data_of right.old.items) (data_of right.new.items) result (S.state source.old) (S.state source.new) }
{
    let rows = chosen.scope.rows.start;
    let Ok(asked) = asked_wholes(alloc, &plans.table, plans.projection, rows, &chosen.mask) else {
        return Err(ScanError::Memory);
    };
    let mut given = Vec::new(alloc);
    for plan in &asked {
        match certify(alloc, plans, *plan, right, source) {
            Ok(()) => {}
            Err(error) => return Err(error),
        }
        match give(alloc, *plan, right, &mut given) {
            Ok(()) => {}
            Err(_) => return Err(ScanError::Memory),
        }
    }
    Ok(given)
}

/// Lists the chunk of a borrower as one that runs again, with the borrowed value at the place and the one that is
/// right.
fn list_rerun(
    alloc: Global,
    borrower: &Borrower,
    place: usize,
    right: &[KeptValue],
    reruns: &mut Vec<Rerun>,
) -> Result<(), AllocError>
    requires wrong { IsTested (data_of borrower.now.borrowed.items) (data_of right.now) (Some place) }
    ensures { ListsRerun borrower.now place (data_of right.now) result reruns.old.items reruns.new.items }
{
    let one = &borrower.borrowed[place];
    if let Some(made) = first_for(right, one.node) {
        reruns.push(Rerun {
            chunk: borrower.chunk,
            node: one.node,
            borrowed: one.column.copy(alloc)?,
            made: made.copy(alloc)?,
        })?;
    }
    Ok(())
}

/// Runs the chunk of a borrower again on the source, with right values for all that it asks for, and lists it with the
/// borrowed value at the place, which is wrong.
fn run_again<S: SegmentSource>(
    alloc: Global,
    plans: &ScanPlans,
    chosen: &SelectedRows,
    borrower: &Borrower,
    place: usize,
    checked: &mut Checked,
    source: &mut S,
) -> Result<Column, ScanError>
    requires plans { ArePlans plans.now }
    requires good { IsGoodTable plans.now.table }
    requires chunk { IsChunkOf plans.now chosen.now }
    requires borrower { IsBorrowerOf plans.now chosen.now borrower.now }
    requires typed { AreTyped plans.now.table (data_of checked.old.right.items) }
    requires wrong { IsTested (data_of borrower.now.borrowed.items) (data_of checked.old.right.items) (Some place) }
    ensures { ChecksOne plans.now chosen.now borrower.now checked.old checked.new result (S.state source.old) (S.state source.new) }
{
    match all_right(alloc, plans, chosen, &mut checked.right, source) {
        Ok(given) => match list_rerun(alloc, borrower, place, &checked.right, &mut checked.reruns) {
            Ok(()) => {
                let ChunkOutcome { piece, .. } = run_chunk(alloc, plans, chosen, source, given);
                piece
            }
            Err(_) => Err(ScanError::Memory),
        },
        Err(error) => Err(error),
    }
}

/// Validates one chunk: its result stands where all values that it borrowed are right. Else it runs again on the
/// source, with right values for all that it asks for, and is listed with the value that is wrong.
pub(crate) fn validate_one<S: SegmentSource>(
    alloc: Global,
    plans: &ScanPlans,
    chosen: &SelectedRows,
    borrower: Borrower,
    checked: &mut Checked,
    source: &mut S,
) -> Result<Column, ScanError>
    requires plans { ArePlans plans.now }
    requires good { IsGoodTable plans.now.table }
    requires chunk { IsChunkOf plans.now chosen.now }
    requires borrower { IsBorrowerOf plans.now chosen.now borrower }
    requires typed { AreTyped plans.now.table (data_of checked.old.right.items) }
    ensures { ChecksOne plans.now chosen.now borrower checked.old checked.new result (S.state source.old) (S.state source.new) }
{
    let borrowed = borrower.borrowed.as_slice();
    match first_wrong(alloc, plans, borrowed, &mut checked.right, source) {
        Ok(wrong) => match wrong {
            None => borrower.result,
            Some(place) => {
                let piece = run_again(alloc, plans, chosen, &borrower, place, checked, source);
                drop(borrower);
                piece
            }
        },
        Err(error) => Err(error),
    }
}
