//! Which rows are read, and how they are cut into pieces of work: selections, the chunks of a range, and
//! split rules over lists of rows.
//!
//! - Which rows are selected: [`Selection`] over [`StrictSorted`] indices, [`SortError`], and the law
//!   [`rows_are_selected`].
//! - Chunks of a range: [`rows_per_chunk`], [`row_chunks`], [`first_chunk`], and the laws [`chunks_join`],
//!   [`chunks_have_blocks`], [`chunks_are_shared`].
//! - The selected rows of a piece of work: [`WorkScope`], [`SelectedRows`], [`select_rows`]; the first ones of several,
//!   [`limit_rows`].
//! - Split rules: [`subdivide_large_spans`], [`DEFAULT_MAX_SPLIT_ROWS`], [`Splits`],
//!   [`attempt_split_ranges`].
//! - The promised numbers: the law [`limits_are_promised`]. The definitions on literals: [`splits_by_hand`].
#![tactic(auto)]

mod by_hand;
mod chunks;
mod first_rows;
mod limits;
mod selected_rows;
mod selections;
mod sorted_indices;
mod spans;
mod split_ranges;

pub use by_hand::splits_by_hand;
pub use chunks::{
    chunks_are_shared, chunks_have_blocks, chunks_join, first_chunk, row_chunks, rows_per_chunk,
};
pub use first_rows::limit_rows;
pub use limits::limits_are_promised;
pub use selected_rows::{SelectedRows, WorkScope, select_rows};
pub use selections::{Selection, rows_are_selected};
pub use sorted_indices::{SortError, StrictSorted};
pub use spans::{DEFAULT_MAX_SPLIT_ROWS, subdivide_large_spans};
pub use split_ranges::{Splits, attempt_split_ranges};
