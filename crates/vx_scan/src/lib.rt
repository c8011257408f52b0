//! The scan of a file: plans of a layout tree, cut into chunks of rows, each run on a session over a lent source.
//!
//! - What a scan is given: [`ScanFile`], and [`ScanPlans`], which the chunks of a scan share.
//! - A scan that is built and run: [`ScanBuilder`]; one that is prepared to run: [`Prepared`].
//! - Between the scan of a plan and a session: [`ScanAdaptor`], with its [`State`], [`AdaptorStep`] and
//!   [`AdaptorError`].
//! - The run of a chunk: [`run_chunk`] with its [`ChunkOutcome`]; the reading of a plan's whole values: [`run_values`].
//! - The run of all chunks by a worker for each source: [`execute`] with its [`Outcome`], of [`Piece`], [`ClaimList`],
//!   [`Rerun`] and [`ChunkError`]; the chunks that workers claim: [`Claims`], [`Claiming`], [`ClaimSeat`].
//! - Whole values by plan: [`Book`], and [`ValueCache`], which keeps one under a lock.
//! - The plan of a projection as a text: [`plan_text`].
//! - Why there are no rows: [`ScanError`].
//! - The laws of answers: [`scans_have_answers`], [`pieces_are_the_answer`]; of errors: [`errors_have_causes`]; of values
//!   that were used: [`used_values_serve_chunks`]; of asks: [`asks_are_counted`], [`claimed_asks_are_counted`]; of texts:
//!   [`plans_have_one_text`]; by hand: [`answers_by_hand`], [`faults_by_hand`], [`limits_by_hand`], [`pieces_by_hand`].
//!
//! It exports what callers need of `vx_drive`, `vx_chunks`, `vx_workers` and `vx_execute`.
#![tactic(auto)]

mod admission;
mod batches;
mod builders;
mod by_hand;
mod file_plans;
mod laws;
mod plan_texts;
mod prepared_scans;
mod settings;

pub use builders::ScanBuilder;
pub use by_hand::{answers_by_hand, faults_by_hand, limits_by_hand, pieces_by_hand};
pub use laws::{
    asks_are_counted, claimed_asks_are_counted, errors_have_causes, pieces_are_the_answer,
    plans_have_one_text, scans_have_answers, used_values_serve_chunks,
};
pub use plan_texts::plan_text;
pub use prepared_scans::Prepared;
pub use vx_chunks::{ChunkOutcome, run_chunk, run_values};
pub use vx_claims::{ClaimSeat, Claiming, Claims};
pub use vx_drive::{AdaptorError, AdaptorStep, ScanAdaptor, ScanError, ScanPlans, State, errors};
pub use vx_execute::{Outcome, Rerun, execute};
pub use vx_layout::ScanFile;
pub use vx_workers::{Book, ChunkError, ClaimList, Piece, ValueCache};
