//! A number for each plan: a table by the numbers of plans.

ghost use Rattle.std.specs.Prelude.{◌≡◌, ◌-◌, ◌<◌, ℕ, MatchOption, OnOk};
ghost use Rattle.vx_steps.specs.NumberTable.{number_in, IsReached, KeepsAll, KeepsReach, SetsNumber};

use std::alloc::{AllocError, Global};

/// The number of each plan, 0 where none was put. It reaches from the first plan that was to have one, or from one before
/// that, as far as the last, or beyond.
#[derive(Drop)]
pub(crate) struct NumberTable {
    first: u32,
    numbers: Vec<u64>,
}

impl NumberTable {
    /// Each number is 0. It takes no memory.
    pub(crate) fn new(alloc: Global) -> NumberTable
        ensures { (n : ℕ) → number_in result n ≡ 0 }
    {
        NumberTable {
            first: 0,
            numbers: Vec::new(alloc),
        }
    }

    /// Where the number of the plan stands, if the plan is reached.
    fn place_of(&self, plan: u32) -> Option<usize>
        ensures { MatchOption result (IsReached self.now plan → ⊥) (λ place. IsReached self.now plan × (place ≡ plan - self.now.first)) }
    {
        if plan < self.first {
            return None;
        }
        let place = (plan - self.first) as usize;
        if place < self.numbers.len() {
            Some(place)
        } else {
            None
        }
    }

    /// The number of the plan.
    pub(crate) fn get(&self, plan: u32) -> u64
        ensures value { result ≡ number_in self.now plan }
        ensures reached { 0 < result → IsReached self.now plan }
    {
        match self.place_of(plan) {
            Some(place) => self.numbers[place],
            None => 0,
        }
    }

    /// Begins at a plan in front of the first one, or before it. The table is at least twice as long then, unless it
    /// begins with plan 0: so the time of all calls together is in proportion to the length.
    fn begin_before(&mut self, plan: u32) -> Result<(), AllocError>
        requires { plan < self.old.first }
        ensures there { OnOk result (IsReached self.new plan) }
        ensures kept { KeepsAll self.old self.new }
        ensures reached { KeepsReach self.old self.new }
    {
        let count = self.numbers.len();
        let least = (self.first - plan) as usize;
        let more = least.max(count).min(self.first as usize);
        self.numbers.resize(count + more, 0)?;
        self.numbers.rotate_right(more);
        self.first -= more as u32;
        Ok(())
    }

    /// Reaches a plan, and behind the last one up to 1024 more, since those that follow are mostly reached next.
    fn grow(&mut self, plan: u32) -> Result<(), AllocError>
        ensures there { OnOk result (IsReached self.new plan) }
        ensures kept { KeepsAll self.old self.new }
        ensures reached { KeepsReach self.old self.new }
    {
        let count = self.numbers.len();
        if count == 0 {
            self.first = plan;
            return self.numbers.resize(1, 0);
        }
        if plan < self.first {
            return self.begin_before(plan);
        }
        let least = (plan - self.first) as usize + 1;
        self.numbers.resize(least.max(count + count.min(1024)), 0)
    }

    /// Reaches the plan, so that its number can be put.
    pub(crate) fn reach(&mut self, plan: u32) -> Result<(), AllocError>
        ensures there { OnOk result (IsReached self.new plan) }
        ensures kept { KeepsAll self.old self.new }
        ensures reached { KeepsReach self.old self.new }
    {
        if self.place_of(plan).is_some() {
            return Ok(());
        }
        self.grow(plan)
    }

    /// Puts the number of a plan that is reached. It takes no memory.
    pub(crate) fn put(&mut self, plan: u32, number: u64)
        requires { IsReached self.old plan }
        ensures number { SetsNumber plan number self.old self.new }
        ensures reached { KeepsReach self.old self.new }
    {
        self.numbers[(plan - self.first) as usize] = number;
    }
}
