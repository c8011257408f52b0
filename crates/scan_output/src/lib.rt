//! The output of the program: rows as text, and their lines.
//!
//! - [`row_text`] writes a value as JSON, [`append_column_lines`] and [`append_row_lines`] a line for each row of a
//!   column or of a range of its rows; [`write_batches`] writes the lines of batches.
//! - [`strings_by_hand`] and [`rows_by_hand`] check the definitions on literals.
//!
//! For the crates above: [`write_by`] writes the lines of batches from texts that are made side by side, and [`write_all`]
//! a text to its end.
#![tactic(auto)]

mod cell_texts;
mod column_lines;
mod field_leads;
mod json_strings;
mod printed_numbers;
mod row_texts;
mod row_writing;
mod run_lines;
mod side_by_side;
mod texts_by_hand;
mod value_lines;
mod writing;

pub use column_lines::{append_column_lines, append_row_lines};
pub use row_texts::row_text;
pub use row_writing::write_batches;
pub use side_by_side::write_by;
pub use texts_by_hand::{rows_by_hand, strings_by_hand};
pub use writing::write_all;
