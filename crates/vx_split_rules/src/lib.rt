//! The rules by which the rows of a read are split.
//!
//! - A rule, [`SplitBy`], and where it splits the rows of a reader: [`SplitBy::splits`].
//! - What such a reader tells: the trait [`RegistersSplits`], over a [`SplitRange`], into [`RowSplits`].
//! - Which fields are read: [`FieldMask`].
//! - Why a range is not split: [`SplitError`].
#![tactic(auto)]

mod errors;
mod field_masks;
mod registering;
mod row_splits;
mod split_ranges;
mod split_rules;

pub use errors::SplitError;
pub use field_masks::FieldMask;
pub use registering::RegistersSplits;
pub use row_splits::RowSplits;
pub use split_ranges::SplitRange;
pub use split_rules::SplitBy;
