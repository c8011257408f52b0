//! Columns: a dtype and values that it takes, packed, shared or in runs.
//!
//! - Columns: [`Column`], [`ColumnParts`], [`ColumnError`], [`RunsError`].
//! - The definitions on literals: [`runs_by_hand`].
#![tactic(auto)]

mod built_columns;
mod by_hand;
mod column_calls;
mod columns;
mod laid_runs;
mod run_counts;
mod run_rows;
mod runs;
mod stored_rows;

pub use by_hand::runs_by_hand;
pub use columns::{Column, ColumnError, ColumnParts};
pub use runs::RunsError;
