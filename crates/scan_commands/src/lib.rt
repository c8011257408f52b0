//! The commands of the program: words, a request, sources of segments and a sink go in, a status comes out.
//!
//! - [`run`] runs the words of a command line: it scans, reads, draws a plan or runs the demo. It carries the theorem of each.
//! - [`row_text`] writes a value as JSON, [`append_column_lines`] and [`append_row_lines`] a line for each row of a
//!   column or of a range of its rows.
//! - The statuses from [`DONE`] to [`OUT_OF_MEMORY`], and the text of each, [`status_text`].
//! - [`request_of`] reads the bytes of a [`Request`], or tells by a [`RequestError`] why they are none.
//! - [`numbers_are_promised`] holds the constants of the code to the numbers of the promises, [`numbers_agree`] the numbers
//!   of the promises to one another; [`commands_by_hand`],
//!   [`strings_by_hand`], [`rows_by_hand`], [`dtype_forms_by_hand`], [`node_forms_by_hand`], [`expression_forms_by_hand`],
//!   [`row_forms_by_hand`] and [`request_forms_by_hand`] check the definitions on literals.
//!
//! It exports what callers need of `scan_request` and `scan_output`.
#![tactic(auto)]

mod by_hand;
mod demo_runs;
mod endings;
mod lent_requests;
mod numbers;
mod plan_runs;
mod read_runs;
mod reads;
mod runs;
mod scan_runs;
mod scans;
mod statuses;

pub use by_hand::commands_by_hand;
pub use numbers::{numbers_agree, numbers_are_promised};
pub use runs::run;
pub use scan_output::{
    append_column_lines, append_row_lines, row_text, rows_by_hand, strings_by_hand, write_batches,
};
pub use scan_request::{
    Request, RequestError, dtype_forms_by_hand, expression_forms_by_hand, node_forms_by_hand,
    request_forms_by_hand, request_of, row_forms_by_hand,
};
pub use statuses::{
    BAD_CODE, BAD_LAYOUT, BAD_PROJECTION, BAD_REQUEST, BAD_SEGMENT, DONE, EXPRESSION_FAULT,
    LISTS_UNSUPPORTED, NO_LOCATION, NOT_READABLE, OUT_OF_MEMORY, READ_FAULT, REQUEST_FAULT,
    REQUEST_TOO_LARGE, ROW_OFFSET_OVERFLOW, ROW_OUT_OF_RANGE, STALLED, USAGE, WRITE_FAULT,
    status_text,
};
