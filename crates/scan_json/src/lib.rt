//! JSON from its tokens, without a tree of values: what is read is what `serde_json` reads.
//!
//! - [`next_head`] reads the next value of a text, but for what is in a list or an object: [`Head`] tells that one begins.
//! - [`pass`], [`pass_items`] and [`pass_members`] read a value, the rest of a list and the rest of an object, and keep
//!   nothing of them.
//! - [`list_ends`] tells whether a list ends, and reads its other items where it doesn't.
//! - [`number`], [`text`], [`list_begins`] and [`object_begins`] read a value that is to be of one kind.
//! - [`joined`] adds an item to those of a list.
//! - [`Unread`] tells why a value wasn't read.
//!
//! A reader goes forwards only, also where a call is refused: what is left of its tokens is the last of them.
#![tactic(auto)]

mod heads;
mod kinds;
mod lists;
mod numbers;
mod passing;
mod unread;

pub use heads::{Head, next_head};
pub use kinds::{list_begins, number, object_begins, text};
pub use lists::joined;
pub use passing::{list_ends, pass, pass_items, pass_members};
pub use unread::Unread;
