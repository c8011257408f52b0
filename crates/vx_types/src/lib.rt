//! What a column's values are, and what each row of a column has in a slot of its own.
//!
//! - Dtypes and their parts: [`DType`], [`IntKind`], [`Nullability`], [`Fields`], [`Field`], [`Element`],
//!   [`Text`]; what is asked of one: [`is_leaf`], [`is_unsigned`], [`has_distinct_names`].
//! - Values: [`Value`], [`Values`], [`fits`].
#![tactic(auto)]

mod dtype_kinds;
mod dtype_texts;
pub mod dtypes;
mod field_names;
mod int_kinds;
mod texts;
pub mod values;

pub use dtype_kinds::{is_leaf, is_unsigned};
pub use dtypes::{DType, Element, Field, Fields, IntKind, Nullability};
pub use field_names::has_distinct_names;
pub use texts::Text;
pub use values::{Value, Values, fits};
