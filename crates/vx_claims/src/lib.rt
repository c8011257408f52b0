//! Chunks that running workers claim: a word that counts up, and a seat at it for each worker.
//!
//! A scan opens claims of its chunks and splits off a seat for each worker. Whoever is free draws the next chunk with
//! one atomic step, and keeps its number in the list of its seat. At the end the seats are joined into one, with which
//! the claims are closed: that seat's list has each chunk that was drawn, and none twice.
//!
//! - The claims: [`Claims`], [`Claiming`], [`ClaimSeat`].
//! - What holds of the chunks that all workers claimed: the laws [`closed_claims_are_apart`], [`claims_weigh_at_most`].
//! - The definitions on literals: [`seats_by_hand`], [`lists_by_hand`].
#![tactic(auto)]

mod by_hand;
mod claims;
mod laws;
mod views;

pub use by_hand::{lists_by_hand, seats_by_hand};
pub use claims::{ClaimSeat, Claiming, Claims};
pub use laws::{claims_weigh_at_most, closed_claims_are_apart};
