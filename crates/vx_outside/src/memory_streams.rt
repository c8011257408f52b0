//! Streams over memory: one that is read and one that is written. Each gives or takes its bytes in
//! pieces of a set size, and fails at the calls that it is told to fail at.

ghost use Rattle.std.specs.Prelude.{◌≡◌, ℕ, ◌<◌, ◌≤◌, [], Some, IfOk, IfSome, length, min, Contains, vec_len};
ghost use Rattle.vx_outside.specs.Streams.{ReadGives, WriteGives};
ghost use Rattle.vx_outside.specs.Faults.{StreamFailsWhere, StreamCountsFaults, CountsCalls};

use crate::outside::{Sink, Source, StreamError};
use std::alloc::Global;

/// Bytes in memory as a stream that is read. Its reads are numbered from 0 on; a read that lacks
/// memory is not counted, and the number stands still at `u64::MAX`.
#[derive(Drop)]
pub struct BytesSource {
    alloc: Global,
    bytes: Vec<u8>,
    given: usize,
    piece: usize,
    fails: Vec<u64>,
    call: u64,
    pieces: Vec<usize>,
    faults: u64,
    ghost gives_some: { 0 < piece },
    ghost within: { given ≤ vec_len bytes },
}

impl BytesSource {
    ghost use Rattle.vx_outside.specs.MemoryStreams.{read_state, read_size, failing_reads, next_read};

    /// A stream of the bytes, at most `piece` of them a read, whose reads with the numbers `fails`
    /// fail. It takes no memory.
    pub fn new(alloc: Global, bytes: Vec<u8>, piece: usize, fails: Vec<u64>) -> BytesSource
        requires { 0 < piece }
        ensures state { read_state result ≡ record { rest = Some bytes.items; pieces = []; faults = 0 } }
        ensures size { read_size result ≡ piece }
        ensures fails { failing_reads result ≡ fails.items }
        ensures first { next_read result ≡ 0 }
    {
        BytesSource {
            alloc,
            bytes,
            given: 0,
            piece,
            fails,
            call: 0,
            pieces: Vec::new(alloc),
            faults: 0,
        }
    }

    /// How many reads failed, up to `u64::MAX`.
    pub fn faults(&self) -> u64
        ensures { result ≡ (read_state self.now).faults }
    {
        self.faults
    }
}

impl Source for BytesSource {
    ghost use Rattle.vx_outside.specs.MemoryStreams.{read_state, read_size, failing_reads, next_read};

    ghost state = { read_state };

    /// The next piece: as many bytes as were set, as `max` and as are left, whichever is least.
    fn read(&mut self, max: usize) -> Result<Vec<u8>, StreamError>
        requires { 0 < max }
        ensures gives { ReadGives result max (read_state self.old) (read_state self.new) }
        ensures size { IfOk result (λ piece. IfSome (read_state self.old).rest
            (λ rest. length piece.items ≡ min (min (read_size self.old) max) (length rest))) }
        ensures fails { StreamFailsWhere result (Contains (failing_reads self.old) (next_read self.old)) }
        ensures counted { CountsCalls result (next_read self.old) (next_read self.new) }
        ensures faults { StreamCountsFaults result (read_state self.old).faults (read_state self.new).faults }
        ensures same_size { read_size self.new ≡ read_size self.old }
        ensures same_fails { failing_reads self.new ≡ failing_reads self.old }
    {
        if self.fails.contains(&self.call) {
            self.call = self.call.saturating_add(1);
            self.faults = self.faults.saturating_add(1);
            return Err(StreamError::Failed);
        }
        let rest = &self.bytes[self.given..];
        let count = self.piece.min(max).min(rest.len());
        let Ok(piece) = rest[..count].to_vec(self.alloc) else {
            return Err(StreamError::Memory);
        };
        if self.pieces.push(count).is_err() {
            return Err(StreamError::Memory);
        }
        self.given += count;
        self.call = self.call.saturating_add(1);
        Ok(piece)
    }
}

/// Memory as a stream that is written. Its writes are numbered from 0 on; a write that lacks memory
/// is not counted, and the number stands still at `u64::MAX`.
#[derive(Drop)]
pub struct BytesSink {
    written: Vec<u8>,
    piece: usize,
    fails: Vec<u64>,
    call: u64,
    faults: u64,
    ghost takes_some: { 0 < piece },
}

impl BytesSink {
    ghost use Rattle.vx_outside.specs.MemoryStreams.{write_state, write_size, failing_writes, next_write};

    /// A stream that takes at most `piece` bytes a write, and whose writes with the numbers `fails`
    /// fail. It takes no memory.
    pub fn new(alloc: Global, piece: usize, fails: Vec<u64>) -> BytesSink
        requires { 0 < piece }
        ensures state { write_state result ≡ record { written = Some []; faults = 0 } }
        ensures size { write_size result ≡ piece }
        ensures fails { failing_writes result ≡ fails.items }
        ensures first { next_write result ≡ 0 }
    {
        BytesSink {
            written: Vec::new(alloc),
            piece,
            fails,
            call: 0,
            faults: 0,
        }
    }

    /// What was written, in order.
    pub fn written(&self) -> &[u8]
        ensures { (write_state self.now).written ≡ Some result.now }
    {
        self.written.as_slice()
    }

    /// How many writes failed, up to `u64::MAX`.
    pub fn faults(&self) -> u64
        ensures { result ≡ (write_state self.now).faults }
    {
        self.faults
    }
}

impl Sink for BytesSink {
    ghost use Rattle.vx_outside.specs.MemoryStreams.{write_state, write_size, failing_writes, next_write};

    ghost state = { write_state };

    /// Takes as many bytes as were set, or the whole piece if it is shorter.
    fn write(&mut self, piece: &[u8]) -> Result<usize, StreamError>
        ensures gives { WriteGives result piece.now (write_state self.old) (write_state self.new) }
        ensures size { IfOk result (λ count. count ≡ min (write_size self.old) (length piece.now)) }
        ensures fails { StreamFailsWhere result (Contains (failing_writes self.old) (next_write self.old)) }
        ensures counted { CountsCalls result (next_write self.old) (next_write self.new) }
        ensures faults { StreamCountsFaults result (write_state self.old).faults (write_state self.new).faults }
        ensures same_size { write_size self.new ≡ write_size self.old }
        ensures same_fails { failing_writes self.new ≡ failing_writes self.old }
    {
        if self.fails.contains(&self.call) {
            self.call = self.call.saturating_add(1);
            self.faults = self.faults.saturating_add(1);
            return Err(StreamError::Failed);
        }
        let count = self.piece.min(piece.len());
        if self.written.extend_from_slice(&piece[..count]).is_err() {
            return Err(StreamError::Memory);
        }
        self.call = self.call.saturating_add(1);
        Ok(count)
    }
}
