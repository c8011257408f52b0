//! The input of the program: the bytes of a request, read to their end.
//!
//! - [`read_request`] reads them from a stream, or tells by a [`ReadingError`] why it couldn't.
//! - [`MOST_BYTES`] and [`PIECE_BYTES`] are numbers that are promised: how many bytes a request has at most, and a piece of
//!   it that is read at once.
#![tactic(auto)]

mod reading;

pub use reading::{MOST_BYTES, PIECE_BYTES, ReadingError, read_request};
