//! Columns of the selected rows of a range: picked from a column, looked up by codes, or worked out by an expression.
//!
//! For the crates above: [`selects_some`], [`picked`], [`looked_up`], [`worked_out`].
//!
//! - Why codes look up no values: [`LookUpError`].
#![tactic(auto)]

pub mod errors;
mod picking;

pub use errors::LookUpError;
pub use picking::{looked_up, picked, selects_some, worked_out};
