//! A reader and a writer of std as streams.

ghost use Rattle.std.specs.Prelude.{◌≡◌, ◌↔◌, ◌<◌, [], Some, None, IsSome, IsErrOf, IfOk, MatchResult, option_and_then};
ghost use Rattle.std.specs.Io.KnownBytes.{Keeps, Consumes, IsAtEnd, WriteAppends};
ghost use Rattle.vx_outside.specs.Streams.{ReadGives, WriteGives};
ghost use Rattle.vx_outside.specs.Faults.{StreamCountsFaults};

use crate::outside::{Sink, Source, StreamError};
use std::alloc::Global;
use std::io::{Read, Write};

/// The most bytes that one read asks its reader for.
const LARGEST_READ: usize = 65536;

/// A reader of std as a stream that is read. Where there is no reader, every read answers `Failed`.
#[derive(Drop)]
pub struct ReadSource<I> {
    alloc: Global,
    reader: Option<I>,
    pieces: Vec<usize>,
    faults: u64,
}

impl<I: Read + Drop> ReadSource<I> {
    ghost use Rattle.vx_outside.specs.Adapters.{reader_state, reader_rest, HasReader};

    /// A stream over the reader, which begins at what the reader has left. It takes no memory.
    pub fn new(alloc: Global, reader: Option<I>) -> ReadSource<I>
        ensures state { reader_state result ≡ record { rest = None; pieces = []; faults = 0 } }
        ensures has_reader { HasReader result ↔ IsSome reader }
        ensures rest { reader_rest I.remaining result ≡ option_and_then I.remaining reader }
    {
        ReadSource {
            alloc,
            reader,
            pieces: Vec::new(alloc),
            faults: 0,
        }
    }

    /// How many reads failed, up to `u64::MAX`.
    pub fn faults(&self) -> u64
        ensures { result ≡ (reader_state self.now).faults }
    {
        self.faults
    }
}

impl<I: Read + Drop> Source for ReadSource<I> {
    ghost use Rattle.vx_outside.specs.Adapters.{reader_state, reader_rest, HasReader};

    ghost state = { reader_state };

    /// The next piece, of at most 65536 bytes. `Failed` says that the reader failed, or
    /// that there is none.
    fn read(&mut self, max: usize) -> Result<Vec<u8>, StreamError>
        requires { 0 < max }
        ensures gives { ReadGives result max (reader_state self.old) (reader_state self.new) }
        ensures no_reader { ¬ HasReader self.old → IsErrOf result StreamError.Failed }
        ensures faults { StreamCountsFaults result (reader_state self.old).faults (reader_state self.new).faults }
        ensures has_reader { HasReader self.new ↔ HasReader self.old }
        // The piece is what the reader gave; an error took nothing from it.
        ensures reader { MatchResult result
            (λ piece. Consumes (reader_rest I.remaining self.old) (reader_rest I.remaining self.new) piece.items)
            (λ _. Keeps (reader_rest I.remaining self.old) (reader_rest I.remaining self.new)) }
        ensures at_end { IfOk result (λ piece. piece.items ≡ [] → IsAtEnd (reader_rest I.remaining self.new)) }
    {
        let Some(reader) = &mut self.reader else {
            self.faults = self.faults.saturating_add(1);
            return Err(StreamError::Failed);
        };
        let Ok(mut piece) = Vec::from_elem(self.alloc, 0u8, max.min(LARGEST_READ)) else {
            return Err(StreamError::Memory);
        };
        if self.pieces.reserve(1).is_err() {
            return Err(StreamError::Memory);
        }
        let Ok(count) = reader.read(piece.as_mut_slice()) else {
            self.faults = self.faults.saturating_add(1);
            return Err(StreamError::Failed);
        };
        piece.truncate(count);
        let _ = self.pieces.push(count);
        Ok(piece)
    }
}

/// A writer of std as a stream that is written.
#[derive(Drop)]
pub struct WriteSink<O> {
    writer: O,
    faults: u64,
}

impl<O: Write + Drop> WriteSink<O> {
    ghost use Rattle.vx_outside.specs.Adapters.{writer_state, writer_bytes};

    /// A stream over the writer, which begins behind what the writer holds.
    pub fn new(writer: O) -> WriteSink<O>
        ensures state { writer_state result ≡ record { written = None; faults = 0 } }
        ensures bytes { writer_bytes O.contents result ≡ O.contents writer }
    {
        WriteSink { writer, faults: 0 }
    }

    /// How many writes failed, up to `u64::MAX`.
    pub fn faults(&self) -> u64
        ensures { result ≡ (writer_state self.now).faults }
    {
        self.faults
    }
}

impl<O: Write + Drop> Sink for WriteSink<O> {
    ghost use Rattle.vx_outside.specs.Adapters.{writer_state, writer_bytes};

    ghost state = { writer_state };

    /// Hands the piece to the writer, once. `Failed` says that the writer failed, or that it took
    /// nothing of a nonempty piece.
    fn write(&mut self, piece: &[u8]) -> Result<usize, StreamError>
        ensures gives { WriteGives result piece.now (writer_state self.old) (writer_state self.new) }
        ensures faults { StreamCountsFaults result (writer_state self.old).faults (writer_state self.new).faults }
        ensures not_memory { ¬ IsErrOf result StreamError.Memory }
        // The writer got what was taken, and nothing where the call failed.
        ensures writer { WriteAppends (writer_bytes O.contents self.old) (writer_bytes O.contents self.new)
            result piece.now }
    {
        match self.writer.write(piece) {
            Ok(count) if count > 0 || piece.is_empty() => Ok(count),
            _ => {
                self.faults = self.faults.saturating_add(1);
                Err(StreamError::Failed)
            }
        }
    }
}
