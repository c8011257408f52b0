//! The words of the command line: what they ask of the program.
//!
//! - What the words ask, a [`Command`], or that they are at fault, a [`WordsError`].
//! - [`words_of`] reads the words.
//! - [`words_by_hand`] checks the definition on command lines that are written out.
#![tactic(auto)]

mod arguments;
mod by_hand;
mod commands;
mod grammar;
mod numbers;
mod split_rules;
mod words;

pub use by_hand::words_by_hand;
pub use commands::{Command, WordsError};
pub use words::words_of;
