//! Segments: which bytes spell which values of a leaf dtype, and the reading and writing of them.
//!
//! - Reading: [`decode`] and [`decode_as`], with [`DecodeError`]; rows of a range without the others, [`decode_rows`], or of
//!   these those that a mask chooses, [`decode_chosen`]; rows that are still bytes, [`SpelledRows`], with [`are_spelled`] and
//!   [`is_by_length`].
//! - Writing: [`encode`] and [`encode_as`], with [`EncodeError`], and how many bytes that would write, [`spelled_len`].
//! - How a segment spells its rows: [`Coding`].
//! - The laws of both: [`one_spelling`], [`decoded_is_spelled`], [`decoding_undoes_encoding`], and in each coding
//!   [`one_spelling_as`] and [`decoded_as_is_spelled`].
//! - The definitions on literals: [`segments_by_hand`], [`constant_segments_by_hand`], [`run_segments_by_hand`].
#![tactic(auto)]

mod by_hand;
mod coded_segments;
pub mod codings;
mod constant_segments;
mod decode_errors;
mod decoded_numbers;
mod decoded_rows;
mod decoded_texts;
mod decoded_truths;
mod decoding;
mod encode_errors;
mod encoded_segments;
mod encoding;
mod number_rows;
mod run_segments;
mod segment_laws;
mod spelled_lens;
mod spelled_rows;
mod text_ends;
mod text_rows;
mod validity;

pub use by_hand::{constant_segments_by_hand, run_segments_by_hand, segments_by_hand};
pub use coded_segments::decode_as;
pub use codings::Coding;
pub use decode_errors::DecodeError;
pub use decoded_rows::{decode_chosen, decode_rows};
pub use decoding::decode;
pub use encode_errors::EncodeError;
pub use encoded_segments::encode_as;
pub use encoding::encode;
pub use segment_laws::{
    decoded_as_is_spelled, decoded_is_spelled, decoding_undoes_encoding, one_spelling,
    one_spelling_as,
};
pub use spelled_lens::spelled_len;
pub use spelled_rows::{SpelledRows, are_spelled, is_by_length};
