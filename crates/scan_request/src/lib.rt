//! The request of the program: the form of its bytes, and what they ask for.
//!
//! - [`request_of`] reads the bytes of a [`Request`], or tells by a [`RequestError`] why they are none.
//! - [`dtype_forms_by_hand`], [`node_forms_by_hand`], [`expression_forms_by_hand`], [`row_forms_by_hand`] and
//!   [`request_forms_by_hand`] check the definitions on literals.
//!
//! For the crates above: [`MOST_ITEMS`] is a number that is promised of requests.
#![tactic(auto)]

mod dtype_forms;
mod expression_forms;
mod expression_members;
mod expression_names;
mod forms_by_hand;
mod json_forms;
mod location_forms;
mod node_forms;
mod node_members;
mod request_errors;
mod request_forms;
mod request_members;
mod request_parts;
mod row_forms;

pub use forms_by_hand::{
    dtype_forms_by_hand, expression_forms_by_hand, node_forms_by_hand, request_forms_by_hand,
    row_forms_by_hand,
};
pub use json_forms::MOST_ITEMS;
pub use request_errors::RequestError;
pub use request_forms::{Request, request_of};
