//! The selected rows of a piece of work: its scope, cut down to the first and last selected row, with a
//! mask.

ghost use Rattle.std.specs.Prelude.{◌≡◌, ◌↔◌, ◌≤◌, [], ℕ, Some, IfOk, IfSome, IsNone};
ghost use Rattle.vx_splits.specs.Taken.{selected_rows, taken_rows};
ghost use Rattle.vx_splits.specs.Trimmed.{IsTrimmed, rows_in_chunk};

use crate::selections::Selection;
use std::alloc::{AllocError, Global};
use std::ops::Range;
use vx_base::Mask;

/// A piece of work: rows of one file. Files are numbered by the caller.
#[derive(Debug, Drop)]
pub struct WorkScope {
    pub file_ordinal: u32,
    pub rows: Range<u64>,
}

/// A piece of work with the rows that are selected of it: a truth value for each row of the scope.
#[derive(Debug, Drop)]
pub struct SelectedRows {
    pub scope: WorkScope,
    pub mask: Mask,
}

/// The scope cut down to its first and last selected row, with a mask as long. None where no row of the
/// scope is selected. The scope is trimmed by the indices before a mask is made, so that the mask is only as
/// long as what is left.
pub fn select_rows(
    alloc: Global,
    scope: WorkScope,
    selection: &Selection,
) -> Result<Option<SelectedRows>, AllocError>
    ensures none { IfOk result (λ chunk. IsNone chunk
        ↔ (selected_rows selection.now scope.rows.start scope.rows.end ≡ [])) }
    ensures trimmed { IfOk result (λ chunk. IfSome chunk (λ chunk. IsTrimmed selection.now scope chunk)) }
    ensures taken { IfOk result (λ chunk. (row_count : ℕ) → scope.rows.end ≤ row_count
        → rows_in_chunk chunk ≡ taken_rows selection.now (Some scope.rows) row_count) }
{
    let Some(rows) = selection.trim(&scope.rows) else {
        return Ok(None);
    };
    let mask = selection.row_mask(alloc, &rows)?;
    let scope = WorkScope {
        file_ordinal: scope.file_ordinal,
        rows,
    };
    Ok(Some(SelectedRows { scope, mask }))
}
