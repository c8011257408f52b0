//! The workers of a scan: each claims chunks, and runs them on its own source.
//!
//! - What a worker gives: [`Piece`], [`ChunkError`]; [`ClaimList`]; the chunks that workers claim: [`Claims`],
//!   [`Claiming`], [`ClaimSeat`].
//! - Whole values by plan: [`Book`], and [`ValueCache`], which keeps one under a lock.
//!
//! For the crates above: [`open_workers`] makes a [`WorkerState`] for each worker, [`spread`] runs them side by side,
//! with what they have in [`Common`], and [`join_workers`] puts together what they gave, [`Joined`], with what is left to
//! validate, each a [`Borrower`]; [`want_of_memory`] is the error of none of the chunks.
#![tactic(auto)]

mod books;
mod borrowing;
mod claim_lists;
mod commons;
mod joins;
mod merges;
mod refusing;
mod worker_states;
mod workers;

pub use books::{Book, ValueCache};
pub use claim_lists::ClaimList;
pub use commons::Common;
pub use joins::{Joined, join_workers};
pub use merges::open_workers;
pub use vx_claims::{ClaimSeat, Claiming, Claims};
pub use worker_states::{Borrower, ChunkError, Piece, WorkerState, want_of_memory};
pub use workers::spread;
