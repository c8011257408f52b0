//! Reads of segments at a lent source, and what is made of the rows of a node from their bytes.
//!
//! For the crates above:
//!
//! - The reads of a state, [`SegmentRead`] with its [`ReadState`]: [`fresh_reads`], of which none was asked for, and one
//!   turn of all of them at a source, [`poll_reads`].
//! - A node's dtype and rows, [`dtype_at`] and [`rows_at`], and which segments its selected rows need: [`add_needs`].
//! - From the bytes of these: [`projected`], which gives a column in pieces, [`ColumnPieces`], and [`kept_rows`]; the column itself,
//!   [`column_of`]; the filters over a column, [`sparse_filter`], [`dense_filter`], [`filter_column`] and [`pushed_filter`].
//! - Why a reader gives no answer: [`ReaderError`].
//! - The laws of what is needed, [`needs_are_reached`], and of both filters, [`filters_agree`].
#![tactic(auto)]

mod columns;
mod errors;
mod faults;
mod filters;
mod laws;
mod leaf_columns;
mod masks;
mod needs;
mod node_masks;
pub mod parts;
mod pieces;
mod projections;
pub mod reads;
mod structs;

pub use columns::column_of;
pub use errors::ReaderError;
pub use filters::{dense_filter, filter_column, pushed_filter, sparse_filter};
pub use laws::{filters_agree, needs_are_reached};
pub use masks::kept_rows;
pub use needs::{add_needs, rows_here};
pub use parts::{dtype_at, rows_at};
pub use pieces::ColumnPieces;
pub use projections::projected;
pub use reads::{ReadState, SegmentRead, fresh_reads, poll_reads};
