//! The numbers of few rows, in order: whether they are such, and the first and the last of them.

ghost use Rattle.std.specs.Prelude.{◌≡◌, ◌<◌, [], length, IsTrue, MatchOption};
ghost use Rattle.vx_masks.specs.Forms.{marks_from, Within};
ghost use Rattle.vx_masks.specs.Masks.{is_among, IsFirstTrue, IsLastTrue, NoneTrue};

/// Whether the numbers ascend, and are numbers of so many rows.
#[tactic(auto, using(crate::proofs::FewRows::within_more, crate::proofs::FewRows::within_done))]
pub(crate) fn are_within(numbers: &[u64], rows: u64) -> bool
    ensures { IsTrue result → Within 0 rows numbers.now }
{
    let mut low = 0;
    for number in numbers {
        if *number < low || rows <= *number {
            return false;
        }
        low = *number + 1;
    }
    true
}

/// Whether the row is one of these.
pub(crate) fn has(numbers: &[u64], row: u64) -> bool
    ensures { result ≡ is_among numbers.now row }
{
    numbers.contains(&row)
}

/// The first of them. None where there is none.
#[tactic(auto, using(crate::proofs::FewRows::first_mark, crate::proofs::FewRows::no_mark))]
pub(crate) fn first_of(numbers: &[u64], rows: u64) -> Option<u64>
    requires { Within 0 rows numbers.now }
    ensures { MatchOption result (NoneTrue (marks_from 0 rows numbers.now) 0 (length (marks_from 0 rows numbers.now))) (λ row. IsFirstTrue (marks_from 0 rows numbers.now) row) }
{
    let _rows = rows;
    if numbers.is_empty() {
        None
    } else {
        Some(numbers[0])
    }
}

/// The last of them. None where there is none.
#[tactic(auto, using(crate::proofs::FewRows::last_mark, crate::proofs::FewRows::no_mark))]
pub(crate) fn last_of(numbers: &[u64], rows: u64) -> Option<u64>
    requires { Within 0 rows numbers.now }
    ensures { MatchOption result (NoneTrue (marks_from 0 rows numbers.now) 0 (length (marks_from 0 rows numbers.now))) (λ row. IsLastTrue (marks_from 0 rows numbers.now) row) }
{
    let _rows = rows;
    if numbers.is_empty() {
        None
    } else {
        Some(numbers[numbers.len() - 1])
    }
}
