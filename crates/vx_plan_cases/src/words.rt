//! The words of a command: numbers, and plans of the table.

ghost use Rattle.std.specs.Prelude.{◌<◌, length, IfOk};
ghost use Rattle.vx_plan.specs.Refs.{number_of};
ghost use Rattle.vx_plan.specs.Tables.{AreIn};

use std::alloc::Global;
use vx_plan::{PlanChildren, PlanError, PlanRef, PlanTable};

/// What a line that can't be read is refused by: the rules of plans are counted from 1.
pub(crate) const UNREAD: PlanError = PlanError::BadPlan { rule: 0 };

/// The numbers between blanks; what is no number is 0, and what has no room is left out.
pub(crate) fn numbers_of(alloc: Global, words: &str) -> Vec<u64> {
    let mut numbers = Vec::new(alloc);
    for word in words.split_whitespace() {
        let _pushed = numbers.push(word.parse::<u64>().unwrap_or(0)).ok();
    }
    numbers
}

/// The number at a place; where there is none, 0.
pub(crate) fn number_at(numbers: &[u64], place: usize) -> u64 {
    numbers.get(place).copied().unwrap_or(0)
}

/// The plan of the number at a place.
pub(crate) fn plan_at(
    table: &PlanTable,
    numbers: &[u64],
    place: usize,
) -> Result<PlanRef, PlanError>
    ensures { IfOk result (λ plan. number_of plan < length table.now) }
{
    match numbers.get(place) {
        Some(number) if *number < u64::from(table.len()) => Ok(PlanRef(*number as u32)),
        _ => Err(UNREAD),
    }
}

/// The plans of the numbers from a place on.
pub(crate) fn plans_from(
    alloc: Global,
    table: &PlanTable,
    numbers: &[u64],
    first: usize,
) -> Result<PlanChildren, PlanError>
    ensures { IfOk result (λ children. AreIn table.now children) }
{
    let mut plans = Vec::new(alloc);
    for place in first..numbers.len() {
        let plan = plan_at(table, numbers, place)?;
        plans.push(plan)?;
    }
    Ok(PlanChildren::from(plans))
}

/// The plan so many times.
pub(crate) fn times(
    alloc: Global,
    table: &PlanTable,
    plan: PlanRef,
    count: u64,
) -> Result<PlanChildren, PlanError>
    requires { number_of plan < length table.now }
    ensures { IfOk result (λ children. AreIn table.now children) }
{
    let mut plans = Vec::new(alloc);
    for _time in 0..count {
        plans.push(plan)?;
    }
    let _ = table.len();
    Ok(PlanChildren::from(plans))
}
