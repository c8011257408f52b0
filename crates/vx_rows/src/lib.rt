//! How the value of a row is derived from rows of leaves, what it is worth and what it reads: definitions,
//! which layout trees and plans share, and their laws.
//!
//! - What reads say of values: [`reads_decide_values`], [`ways_tell_the_dictionary`].
//! - Leaves by the bytes of their segments: [`bytes_give_leaves`].
//! - Other numbers for dictionaries, and values that are handed in: [`numbers_dont_count`],
//!   [`given_values_serve`].
//! - What a table of zones holds: [`zones_type`], [`stand_over`].
//! - The definitions on literals: [`rows_by_hand`], [`codes_by_hand`], [`reads_by_hand`], [`handed_values_by_hand`].
#![tactic(auto)]

mod by_hand;
mod laws;
mod zones;

pub use by_hand::{codes_by_hand, handed_values_by_hand, reads_by_hand, rows_by_hand};
pub use laws::{
    bytes_give_leaves, given_values_serve, numbers_dont_count, reads_decide_values,
    ways_tell_the_dictionary,
};
pub use zones::{stand_over, zones_type};
