//! The demo file, a large valid input that is made from a number, and the summary of a scan of it.
//!
//! - [`demo_file`] makes a [`DemoFile`], whose layout is good by the law [`demo_layouts_are_good`].
//! - [`summary_of`] is the text of the batches that a scan of it gave, and [`scans_give_demo_rows`] the law of such scans.
//! - [`demo_by_hand`] checks the definitions on the file of ten rows.
#![tactic(auto)]

mod by_hand;
mod demo_files;
mod file_writers;
mod laws;
mod row_totals;
mod stored_columns;
mod summaries;

pub use by_hand::demo_by_hand;
pub use demo_files::{DemoFile, demo_file};
pub use laws::{demo_layouts_are_good, scans_give_demo_rows};
pub use summaries::summary_of;
