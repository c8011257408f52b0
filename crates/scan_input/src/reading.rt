//! Reading a request to its end.

ghost use Rattle.std.specs.Prelude.{◌≡◌};
ghost use Rattle.scan_input.specs.Reading.{ReadingGives, ReadsPieces};
ghost use Rattle.scan_input.specs.declared.reading.ReadingError.TheVariants.{Memory};

use std::alloc::{AllocError, Global};
use vx_outside::{Source, StreamError};

/// A request has at most so many bytes.
pub const MOST_BYTES: usize = 16777216;

/// A piece of the request has at most so many bytes.
pub const PIECE_BYTES: usize = 65536;

/// Why a request was not read.
#[derive(Clone, Copy, Debug, PartialEq, Eq)]
pub enum ReadingError {
    /// The request has more than 16777216 bytes.
    TooLarge,
    /// A read failed.
    Failed,
    /// Memory ran out.
    Memory,
}

impl From<AllocError> for ReadingError {
    ghost from_gives = { λ _ e. e ≡ Memory };

    fn from(_e: AllocError) -> ReadingError {
        ReadingError::Memory
    }
}

/// All bytes of a request. After more than 16777216 bytes no further one is read.
pub fn read_request<Q: Source>(alloc: Global, request: &mut Q) -> Result<Vec<u8>, ReadingError>
    ensures bytes { ReadingGives result (Q.state request.old) (Q.state request.new) }
    ensures pieces { ReadsPieces (Q.state request.old) (Q.state request.new) }
{
    let mut bytes = Vec::new(alloc);
    for _turn in 0..MOST_BYTES + 1 {
        let piece = match request.read(PIECE_BYTES) {
            Ok(piece) => piece,
            Err(StreamError::Failed) => return Err(ReadingError::Failed),
            Err(StreamError::Memory) => return Err(ReadingError::Memory),
        };
        if piece.is_empty() {
            return Ok(bytes);
        }
        if piece.len() > MOST_BYTES - bytes.len() {
            return Err(ReadingError::TooLarge);
        }
        bytes.extend_from_slice(&piece)?;
    }
    unreachable!()
}
