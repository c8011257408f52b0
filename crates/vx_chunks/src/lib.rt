//! The run of a chunk of rows, and the reading of the whole values of a plan, each on a session of its own.
//!
//! - The run of a chunk: [`run_chunk`] with its [`ChunkOutcome`].
//! - The reading of a plan's whole values: [`run_values`].
//!
//! For the crates above: [`run_on`] runs a chunk with what earlier ones have [`HandedOn`], and gives what is left once it
//! has [`Ran`], from [`nothing_handed`] on; [`first_for`] and [`give`] look up whole values by their plan.
#![tactic(auto)]

mod chunks;
mod kept_values;
mod outcomes;
mod values;

pub use chunks::{run_chunk, run_on};
pub use kept_values::{first_for, give};
pub use outcomes::{ChunkOutcome, HandedOn, Ran, nothing_handed};
pub use values::run_values;
