//! The run of all chunks over all sources, by a worker for each source, and the validation of what they borrowed.
//!
//! - The run: [`execute`] with its [`Outcome`] and [`Rerun`].
#![tactic(auto)]

mod executes;
mod outcomes;
mod rerunning;
mod validating;

pub use executes::execute;
pub use outcomes::{Outcome, Rerun};
