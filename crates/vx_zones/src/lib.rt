//! Zones of rows: what a table tells of each zone, and which zones a predicate prunes by it, at a bound.
//!
//! - Proofs: [`falsify`], which finds whether a predicate can prune zones, and [`ZoneProof`].
//! - Tables: [`ZoneTable`] with [`ZoneError`]; its `prune` goes over all zones at a time.
//! - The laws: [`pruned_rows_are_not_true`], [`proofs_alone_prune`].
//! - The definitions on literals: [`pruning_by_hand`], [`tables_by_hand`].
#![tactic(auto)]

mod by_hand;
pub mod errors;
mod laws;
mod pruning;
mod tables;
mod tellings;
mod told;
mod zone_proofs;

pub use by_hand::{pruning_by_hand, tables_by_hand};
pub use errors::ZoneError;
pub use laws::{proofs_alone_prune, pruned_rows_are_not_true};
pub use tables::ZoneTable;
pub use zone_proofs::{ZoneProof, falsify};
