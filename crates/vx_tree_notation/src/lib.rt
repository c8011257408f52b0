//! Layout trees as words of plain text, and the plans that they are lowered to, for the programs of cases above
//! `vx_layout`.
//!
//! - [`nodes_of`] reads nodes between semicolons, as `chunked 6 1,2 i64; flat:0 3 - i64; flat:1 3 - i64`, each with its
//!   kind, rows, children and dtype.
//! - [`tree_of`] reads the tree of such nodes, and [`lowered`] lowers it.
//! - [`dtype_in`] reads a dtype of any depth.
#![tactic(auto)]

mod dtypes;
mod kinds;
mod nodes;
mod trees;

pub use dtypes::dtype_in;
pub use nodes::nodes_of;
pub use trees::{lowered, tree_of};
