//! Operators: what comparisons, arithmetic and truth make of values, and of the packed rows of columns, a
//! whole column at a time.
//!
//! - The operators: [`CompareOp`], [`ArithOp`].
//! - What a part of an expression is worth at each row: [`ColumnarValue`], with [`Scalar`].
//! - The definitions on literals: [`truth_by_hand`], [`comparisons_by_hand`], [`arithmetic_by_hand`].
#![tactic(auto)]

mod by_hand;
mod columnar_values;
mod dispatch;
mod integers;
mod number_operators;
mod numbers;
pub mod operators;
mod sides;
mod tested_rows;
mod text_fronts;
mod text_operators;
mod text_sides;
mod texts;
mod truth_operators;
mod truths;
mod valid_rows;

pub use by_hand::{arithmetic_by_hand, comparisons_by_hand, truth_by_hand};
pub use columnar_values::{ColumnarValue, Scalar};
pub use dispatch::{
    and_columnar, compare_columnar, join_columnar, not_columnar, null_test, or_columnar, value_test,
};
pub use integers::Integer;
pub use operators::{ArithOp, CompareOp};
