//! What a reader tells of where its rows are split.

ghost use Rattle.std.specs.Prelude.{◌≡◌, ◌++◌, ◌≤◌, ℕ, Bool, List, OnErr, OnOk};
ghost use Rattle.vx_split_rules.specs.Splits.{registered};

use crate::field_masks::FieldMask;
use crate::row_splits::RowSplits;
use crate::split_ranges::SplitRange;
use std::alloc::AllocError;

/// What knows where the chunks of its rows end.
pub trait RegistersSplits {
    /// Where the chunks end, in rows of the root, if its first row is that row of the root.
    ghost chunk_ends: { Self → ℕ → List ℕ };

    /// Whether it pushes where an empty range ends.
    ghost ends_empty: { Self → Bool };

    /// How many rows there are.
    ghost all_rows: { Self → ℕ };

    /// How many rows there are.
    fn row_count(&self) -> u64
        ensures { result ≡ all_rows self.now };

    /// Pushes where chunks end inside the range, and where the range ends; nothing at all where memory is short.
    fn register_splits(
        &self,
        field_mask: &[FieldMask],
        range: &SplitRange,
        splits: &mut RowSplits,
    ) -> Result<(), AllocError>
        requires { range.now.end ≤ all_rows self.now }
        ensures pushed { OnOk result (splits.new ≡ splits.old ++ registered (chunk_ends self.now range.now.offset) (ends_empty self.now) range.now) }
        ensures same { OnErr result (splits.new ≡ splits.old) };
}
