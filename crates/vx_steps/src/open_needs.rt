//! The needs of a started split of which rows are left, in the order of their last rows.

ghost use Rattle.std.specs.Prelude.{◌≡◌, IfOk, MatchOption, OnOk};
ghost use Rattle.std.specs.List.Sorted.{IsNonDecreasingBy, IsPermutation};
ghost use Rattle.vx_steps.specs.OpenNeeds.{EndBehind, Passes};

use crate::placed_reads::PlacedRead;
use std::alloc::{AllocError, Global};
use std::marker::Model;

/// The needs of a split in the order of their last rows. Those that are passed are of no row that is left.
#[derive(Drop)]
pub(crate) struct OpenNeeds {
    needs: Vec<PlacedRead>,
    passed: usize,
}

impl Model for OpenNeeds {
    ghost use Rattle.std.specs.Prelude.{List};
    ghost use Rattle.vx_steps.specs.declared.placed_reads.PlacedRead.{PlacedRead};

    ghost Value = { List PlacedRead };

    ghost use Rattle.std.specs.Prelude.{drop};
    ghost use Rattle.std.specs.List.Sorted.{IsNonDecreasingBy};

    ghost view = { λ a. drop a.passed a.needs.items };

    ghost invariant = { λ a. IsNonDecreasingBy (λ need. need.last) a.needs.items };
}

/// Brings needs into the order of their last rows.
fn sort_by_last(needs: &mut Vec<PlacedRead>) -> Result<(), AllocError>
    ensures order { OnOk result (IsNonDecreasingBy (λ need. need.last) needs.new.items) }
    ensures same { IsPermutation needs.old.items needs.new.items }
{
    match needs.sort_by_key(|need| need.last) {
        Ok(()) => Ok(()),
        Err(error) => Err(error),
    }
}

impl OpenNeeds {
    /// These needs, none of which is passed.
    pub(crate) fn of(alloc: Global, needs: &[PlacedRead]) -> Result<OpenNeeds, AllocError>
        ensures { IfOk result (IsPermutation needs.now) }
    {
        let mut behind = Vec::from_slice(alloc, needs)?;
        sort_by_last(&mut behind)?;
        Ok(OpenNeeds {
            needs: behind,
            passed: 0,
        })
    }

    /// The next need whose last row stands in front of the place; it is passed from now on. It takes no memory.
    pub(crate) fn pass(&mut self, place: u64) -> Option<PlacedRead>
        ensures { MatchOption result (EndBehind place self.new × (self.new ≡ self.old)) (Passes place self.old self.new) }
    {
        if self.passed >= self.needs.len() {
            return None;
        }
        let need = self.needs[self.passed];
        if need.last >= place {
            return None;
        }
        self.passed += 1;
        Some(need)
    }
}
