//! Row indices that ascend strictly, and those of them that lie in a range.

ghost use Rattle.std.specs.Prelude.{◌≡◌, ◌<◌, ◌≤◌, IfOk, IfErr, OnOk, MatchOption};
ghost use Rattle.std.specs.List.{filter};
ghost use Rattle.vx_base.specs.Masks.{Ascend, is_among};
ghost use Rattle.vx_splits.specs.Taken.{NotSortedAt, IsFirstUnsorted, rows_between};

use std::marker::Model;
use std::ops::Range;
use thiserror::Error;

/// Why values are no ascending indices. Want of memory is no cause: making sorted indices takes none.
#[derive(Clone, Copy, Debug, PartialEq, Eq, Error)]
pub enum SortError {
    /// The first place, counted from 0, whose value isn't greater than the one before it.
    #[error("the value at place {0} is not greater than the one before it")]
    NotSorted(u64),
}

/// Row indices, each greater than the one before it.
#[derive(Debug, Drop)]
pub struct StrictSorted {
    values: Vec<u64>,
}

impl Model for StrictSorted {
    ghost use Rattle.std.specs.Prelude.{ℕ, List};
    ghost use Rattle.vx_base.specs.Masks.{Ascend};

    ghost Value = { List ℕ };

    ghost view = { λ a. a.values.items };

    ghost invariant = { λ a. Ascend a.values.items };
}

impl StrictSorted {
    /// The indices, if each is greater than the one before it. It takes no memory.
    pub fn try_new(values: Vec<u64>) -> Result<StrictSorted, SortError>
        ensures made { IfOk result (λ sorted. sorted ≡ values.items) }
        ensures ascending { OnOk result (Ascend values.items) }
        ensures refused { IfErr result (λ error. NotSortedAt values.items error) }
    {
        match first_unsorted(values.as_slice()) {
            None => Ok(StrictSorted { values }),
            Some(place) => Err(SortError::NotSorted(place as u64)),
        }
    }

    /// The indices in order. It takes no memory.
    pub fn as_slice(&self) -> &[u64]
        ensures values { result.now ≡ self.now }
        ensures ascending { Ascend result.now }
    {
        self.values.as_slice()
    }

    /// The indices that lie in the range, found by a search; no index where the range is empty or reversed.
    pub(crate) fn within(&self, rows: &Range<u64>) -> &[u64]
        ensures { result.now ≡ filter (is_among self.now) (rows_between rows.now.start rows.now.end) }
    {
        let values = self.values.as_slice();
        let (start, end) = (rows.start, rows.end);
        let front = &values[..values.partition_point(|value| *value < end)];
        &front[front.partition_point(|value| *value < start)..]
    }
}

/// The first place, counted from 0, whose value isn't greater than the one before it.
#[tactic(auto, using(crate::proofs::Runs::ascend_none, crate::proofs::Runs::ascend_more, crate::proofs::Runs::ascend_all, crate::proofs::Runs::first_unsorted_at))]
fn first_unsorted(values: &[u64]) -> Option<usize>
    ensures { MatchOption result (Ascend values.now) (λ place. IsFirstUnsorted values.now place) }
{
    for place in 1..values.len() {
        if values[place] <= values[place - 1] {
            return Some(place);
        }
    }
    None
}
