//! Columns whose values lie packed: numbers of a kind in a vector of that kind, texts in one buffer,
//! and beside them a mask of the rows that have a value. The definitions on literals: [`places_by_hand`],
//! [`texts_by_hand`], [`structs_by_hand`].
#![tactic(auto)]

mod arrays;
mod by_hand;
mod cells;
mod first_bytes;
mod kinds;
mod numbers;
mod of_values;
mod places;
mod primitives;
mod rows;
mod texts;

pub use arrays::{Array, ArrayView, Buffers, ChildArrays, SharedArray};
pub use by_hand::{places_by_hand, structs_by_hand, texts_by_hand};
pub use cells::Cell;
pub use first_bytes::front_of;
pub use kinds::Kind;
pub use numbers::Numbers;
pub use primitives::Primitive;
pub use texts::Texts;
