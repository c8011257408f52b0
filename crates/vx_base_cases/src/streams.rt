//! Streams over memory: one that is read and one that is written.

ghost use Rattle.std.specs.Prelude.{◌<◌};

use crate::fields::{bytes_of, list_of, three, two, write_bytes};
use std::alloc::{AllocError, Global};
use vx_base::{BytesSink, BytesSource, Sink, Source, StreamError};

/// A count that is not 0; any other word is 1.
fn size_of(word: &str) -> usize
    ensures { 0 < result }
{
    match word.parse::<usize>() {
        Ok(size) if 0 < size => size,
        _ => 1,
    }
}

/// Sets the stream that is read.
pub(crate) fn set_stream(alloc: Global, stream: &mut BytesSource, rest: &str) {
    let (piece, fails, bytes) = three(rest);
    let fails = list_of(alloc, fails);
    *stream = BytesSource::new(alloc, bytes_of(alloc, bytes), size_of(piece), fails);
}

/// Sets the stream that is written.
pub(crate) fn set_sink(alloc: Global, stream: &mut BytesSink, rest: &str) {
    let (piece, fails) = two(rest);
    *stream = BytesSink::new(alloc, size_of(piece), list_of(alloc, fails));
}

/// The next piece of the stream that is read.
pub(crate) fn write_next(
    stream: &mut BytesSource,
    word: &str,
    out: &mut String,
) -> Result<(), AllocError> {
    let piece = stream.read(size_of(word));
    let written = match &piece {
        Ok(piece) => write_bytes(piece.as_slice(), out),
        Err(error) => write!(out, "{error}"),
    };
    written.and(write!(out, ", {} faults", stream.faults()))
}

/// How much of these bytes the stream that is written takes.
pub(crate) fn write_taken(
    alloc: Global,
    stream: &mut BytesSink,
    words: &str,
    out: &mut String,
) -> Result<(), AllocError> {
    let taken = stream.write(bytes_of(alloc, words).as_slice());
    let written = match taken {
        Ok(count) => write!(out, "took {count}"),
        Err(error) => write!(out, "{error}"),
    };
    written.and(write!(out, ", {} faults", stream.faults()))
}
