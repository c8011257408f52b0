//! The splits of a scan: each a range of rows, and which of them are selected.

ghost use Rattle.std.specs.Prelude.{◌≡◌, ◌-◌, true, replicate, IfOk, IsErrOf, OnOk};
ghost use Rattle.std.specs.List.{AllByRecursion};
ghost use Rattle.std.specs.Bool.{MatchBool};
ghost use Rattle.vx_steps.specs.Splits.{IsInside};

use std::alloc::{AllocError, Global};
use std::ops::Range;
use thiserror::Error;
use vx_base::Mask;

/// A range of a plan's rows, and a mask with a truth value for each of them.
#[derive(Drop)]
pub struct Split {
    pub rows: Range<u64>,
    pub mask: Mask,
}

impl Split {
    /// The split that selects all rows of a range. A reversed range has no rows, so that its mask has none; it stays
    /// reversed, and `Scan::try_new` refuses the split.
    pub fn all(alloc: Global, rows: Range<u64>) -> Result<Split, AllocError>
        ensures rows { IfOk result (λ split. split.rows ≡ rows) }
        ensures mask { IfOk result (λ split. split.mask ≡ replicate (rows.end - rows.start) true) }
    {
        let mask = Mask::new_true(alloc, rows.end.saturating_sub(rows.start))?;
        Ok(Split { rows, mask })
    }
}

/// Why a scan was not built.
#[derive(Clone, Copy, Debug, Error)]
pub enum ScanBuildError {
    /// A split is reversed, passes the rows, or has a mask of another length.
    #[error("a split is not inside the plan")]
    OutOfRange,
}

/// Whether the split is forwards, ends within so many rows, and has a mask of its length.
fn is_inside(split: &Split, rows: u64) -> bool
    ensures { MatchBool result (IsInside rows split.now) (IsInside rows split.now → ⊥) }
{
    let start = split.rows.start;
    let end = split.rows.end;
    start <= end && end <= rows && split.mask.len() == end - start
}

/// That each split is inside the rows.
pub(crate) fn check_splits(splits: &[Split], rows: u64) -> Result<(), ScanBuildError>
    ensures inside { OnOk result (AllByRecursion (IsInside rows) splits.now) }
    ensures refused { IsErrOf result ScanBuildError.OutOfRange → AllByRecursion (IsInside rows) splits.now → ⊥ }
{
    for split in splits {
        if !is_inside(split, rows) {
            return Err(ScanBuildError::OutOfRange);
        }
    }
    Ok(())
}
