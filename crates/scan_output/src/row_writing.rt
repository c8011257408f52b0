//! Writing the rows of batches, a line each, through one buffer: the text of all rows is never held.

ghost use Rattle.std.specs.Prelude.{◌≡◌, ◌++◌, ◌<◌, ◌≤◌, length, map};
ghost use Rattle.scan_output.specs.RowWriting.{batch_lines, lines_of, BufferGives};
ghost use Rattle.scan_output.specs.Writing.{WritingGives};

use crate::column_lines::add_row_lines;
use crate::writing::write_all;
use std::alloc::Global;
use vx_base::{Column, Sink, StreamError};

/// The buffer is written once it has so many bytes.
pub(crate) const BUFFER_BYTES: usize = 65536;

/// So many rows are put into the buffer at a time.
const ROWS_AT_ONCE: u64 = 1024;

/// Writes the buffer, if it is full, and empties it.
fn write_full<K: Sink>(out: &mut K, buffer: &mut Vec<u8>) -> Result<(), StreamError>
    ensures { BufferGives result buffer.old.items buffer.new.items (K.state out.old) (K.state out.new) }
{
    if buffer.len() < BUFFER_BYTES {
        return Ok(());
    }
    match write_all(out, buffer) {
        Ok(()) => {
            buffer.clear();
            Ok(())
        }
        Err(error) => Err(error),
    }
}

/// Puts the lines of a batch behind what is in the buffer, which is written whenever it is full.
fn write_batch<K: Sink>(
    alloc: Global,
    out: &mut K,
    batch: &Column,
    buffer: &mut Vec<u8>,
) -> Result<(), StreamError>
    ensures { BufferGives result (buffer.old.items ++ lines_of batch.now) buffer.new.items (K.state out.old) (K.state out.new) }
{
    let mut row: u64 = 0;
    while row < batch.len() {
        let end = batch.len().min(row.saturating_add(ROWS_AT_ONCE));
        match add_row_lines(alloc, batch, row..end, buffer) {
            Ok(()) => {}
            Err(_) => return Err(StreamError::Memory),
        }
        match write_full(out, buffer) {
            Ok(()) => row = end,
            Err(error) => return Err(error),
        }
    }
    Ok(())
}

/// Writes a line for each row of the batches, one batch after another. An error leaves a front of the lines written.
pub fn write_batches<K: Sink>(
    alloc: Global,
    out: &mut K,
    batches: &[Column],
) -> Result<(), StreamError>
    ensures { WritingGives result (batch_lines batches.now) (K.state out.old) (K.state out.new) }
{
    let mut buffer = match Vec::with_capacity(alloc, BUFFER_BYTES) {
        Ok(buffer) => buffer,
        Err(_) => return Err(StreamError::Memory),
    };
    for batch in batches {
        match write_batch(alloc, out, batch, &mut buffer) {
            Ok(()) => {}
            Err(error) => return Err(error),
        }
    }
    write_all(out, &buffer)
}
