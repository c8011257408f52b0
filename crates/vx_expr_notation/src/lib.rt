//! Expressions and statistics as words of plain text, for the programs of cases above `vx_expr`.
//!
//! - [`spelled`] reads an expression, each part before the whole: `$ .a 5:i64 <` is `$.a < 5`.
//! - [`statistics_of`] reads the names of statistics between commas.
#![tactic(auto)]

mod expressions;
mod statistics;

pub use expressions::spelled;
pub use statistics::statistics_of;
