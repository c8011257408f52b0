//! Marks of plans: a table by the numbers of plans.

ghost use Rattle.std.specs.Prelude.{◌≡◌, ℕ, false, OnOk};
ghost use Rattle.vx_steps.specs.NumberTable.{IsReached};
ghost use Rattle.vx_steps.specs.PlanMarks.{is_marked, KeepsMarks, Marks};

use crate::number_table::NumberTable;
use std::alloc::{AllocError, Global};

/// Which plans are marked, by their numbers: those that have a 1 in the table. A plan that is reached has room for a
/// mark.
#[derive(Drop)]
pub(crate) struct PlanMarks {
    numbers: NumberTable,
}

impl PlanMarks {
    /// No marks. It takes no memory.
    pub(crate) fn new(alloc: Global) -> PlanMarks
        ensures { (n : ℕ) → is_marked result n ≡ false }
    {
        PlanMarks {
            numbers: NumberTable::new(alloc),
        }
    }

    /// Whether the plan is marked.
    pub(crate) fn get(&self, plan: u32) -> bool
        ensures { result ≡ is_marked self.now plan }
    {
        self.numbers.get(plan) == 1
    }

    /// Makes room for the mark of a plan.
    pub(crate) fn reach(&mut self, plan: u32) -> Result<(), AllocError>
        ensures there { OnOk result (IsReached self.new.numbers plan) }
        ensures kept { KeepsMarks self.old self.new }
    {
        self.numbers.reach(plan)
    }

    /// Marks a plan for whose mark there is room. It takes no memory.
    pub(crate) fn mark(&mut self, plan: u32)
        requires { IsReached self.old.numbers plan }
        ensures { Marks plan self.old self.new }
    {
        self.numbers.put(plan, 1);
    }
}
