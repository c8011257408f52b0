//! Where the column of each plan stands among kept ones: a table by the numbers of plans.

ghost use Rattle.std.specs.Prelude.{◌≡◌, ℕ, Some, None, OnErr, OnOk};
ghost use Rattle.std.specs.Option.{is_some};
ghost use Rattle.vx_steps.specs.Places.{place_in, KeepsPlaces, SetsPlace};

use crate::number_table::NumberTable;
use std::alloc::{AllocError, Global};

/// The place of each plan that has one, by the plan's number. What stands in the table is one more than the place.
#[derive(Drop)]
pub(crate) struct PlaceTable {
    numbers: NumberTable,
}

impl PlaceTable {
    /// No places. It takes no memory.
    pub(crate) fn new(alloc: Global) -> PlaceTable
        ensures { (n : ℕ) → place_in result n ≡ None }
    {
        PlaceTable {
            numbers: NumberTable::new(alloc),
        }
    }

    /// The place of the plan, where it has one.
    pub(crate) fn get(&self, plan: u32) -> Option<usize>
        ensures { result ≡ place_in self.now plan }
    {
        let number = self.numbers.get(plan);
        if number == 0 {
            return None;
        }
        Some((number - 1) as usize)
    }

    /// Whether the plan has a place.
    pub(crate) fn has(&self, plan: u32) -> bool
        ensures { result ≡ is_some (place_in self.now plan) }
    {
        self.get(plan).is_some()
    }

    /// Gives the plan a place.
    pub(crate) fn put(&mut self, plan: u32, place: usize) -> Result<(), AllocError>
        ensures put { OnOk result (SetsPlace plan (Some place) self.old self.new) }
        ensures as_before { OnErr result (KeepsPlaces self.old self.new) }
    {
        // Columns at so many places that their number doesn't fit never come together.
        let number = match (place as u64).checked_add(1) {
            Some(number) => number,
            None => return Err(AllocError),
        };
        self.numbers.reach(plan)?;
        self.numbers.put(plan, number);
        Ok(())
    }

    /// Takes its place from the plan, where it has one.
    pub(crate) fn remove(&mut self, plan: u32)
        ensures { SetsPlace plan None self.old self.new }
    {
        if self.numbers.get(plan) > 0 {
            self.numbers.put(plan, 0);
        }
    }
}
