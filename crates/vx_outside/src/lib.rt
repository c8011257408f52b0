//! The outside world as three traits, with their sources and sinks.
//!
//! - Where a segment lies: [`SegmentLocation`], and the range that it asks for, [`AskedRange`].
//! - Sources of segments: the trait [`SegmentSource`] with [`SourceError`]; [`MemorySource`],
//!   [`FileSource`]; [`ScriptSource`], which keeps to a [`Script`]; [`GateSource`], whose reads wait at a [`Gate`].
//! - Streams that are read: the trait [`Source`] with [`StreamError`]; [`BytesSource`], [`ReadSource`].
//! - Streams that are written: the trait [`Sink`]; [`BytesSink`], [`WriteSink`].
//! - The definitions on literals: [`scripts_by_hand`], [`reads_by_hand`].
#![tactic(auto)]

mod adapters;
mod by_hand;
pub mod file_sources;
mod gate_sources;
mod in_flight;
pub mod locations;
pub mod memory_sources;
mod memory_streams;
pub mod outside;
mod script_sources;

pub use adapters::{ReadSource, WriteSink};
pub use by_hand::{reads_by_hand, scripts_by_hand};
pub use file_sources::FileSource;
pub use gate_sources::{Gate, GateSource};
pub use locations::{AskedRange, SegmentLocation};
pub use memory_sources::MemorySource;
pub use memory_streams::{BytesSink, BytesSource};
pub use outside::{SegmentSource, Sink, Source, SourceError, StreamError};
pub use script_sources::{Script, ScriptSource};
