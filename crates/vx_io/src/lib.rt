//! The byte-range session: reads of segments that are announced, prefetched and fetched over one source, so
//! that many are in flight together.
//!
//! - Which segment has a range: [`segment_ranges`], [`SegmentRanges`].
//! - What is asked of a session and what it answers: [`IoRequest`] with [`IoIntent`], [`IoRequestId`],
//!   [`IoOwnerId`] and [`IoTarget`]; [`Completion`]; [`SubmitError`], [`PollError`].
//! - The session: [`SegmentIoSource`], and the laws [`requests_tell_asks`] and [`sessions_by_hand`].
//! - A list of commands: [`drive`], [`IoCommand`], [`Driven`], [`DriveError`].
#![tactic(auto)]

mod by_hand;
mod commands;
mod flights;
mod ranges;
mod requests;
mod sessions;
mod waiting;

pub use by_hand::sessions_by_hand;
pub use commands::{DriveError, Driven, IoCommand, drive};
pub use ranges::{SegmentRanges, segment_ranges};
pub use requests::{
    Completion, IoIntent, IoOwnerId, IoRequest, IoRequestId, IoTarget, PollError, SubmitError,
};
pub use sessions::{SegmentIoSource, requests_tell_asks};
