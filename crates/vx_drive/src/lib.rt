//! The drive of one scan of a plan over a session on a lent source: its reads become fetches, and what a fetch gives is
//! handed to the reads that it was made for, until all rows of its split are there.
//!
//! - What the chunks of a scan share: [`ScanPlans`].
//! - Between the scan of a plan and a session: [`ScanAdaptor`], with its [`State`], [`AdaptorStep`] and
//!   [`AdaptorError`].
//! - Why there are no rows: [`ScanError`].
//!
//! For the crates above: [`run_over`] runs a scan to its end, and gives what is [`Finished`].
#![tactic(auto)]

mod adaptor_errors;
mod adaptors;
mod batching;
pub mod errors;
mod gathered;
mod plans;
mod runs;
mod waits;

pub use adaptor_errors::AdaptorError;
pub use adaptors::{AdaptorStep, ScanAdaptor, State};
pub use errors::ScanError;
pub use plans::ScanPlans;
pub use runs::{Finished, run_over};
