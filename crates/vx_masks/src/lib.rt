//! Truth values packed into words: [`Mask`], [`filter`], and the calls over words that it rests on, [`kernels`].
//! [`bytes_by_hand`] and [`masks_by_hand`] check the definitions on literals.
#![tactic(auto)]

mod by_hand;
mod deposits;
mod few_rows;
mod filters;
mod joins;
pub mod kernels;
mod masks;
mod pairs;
mod parts;
mod shared_words;
mod two_masks;
mod word_masks;

pub use by_hand::{bytes_by_hand, masks_by_hand};
pub use filters::filter;
pub use masks::{Mask, masks_choose_twice};
