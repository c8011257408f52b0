//! Chunks: a range of rows cut at the multiples of a size.

ghost use Rattle.std.specs.Prelude.{◌≡◌, ◌∷◌, ◌*◌, ◌%◌, ◌<◌, ◌≤◌, true, length, IfOk};
ghost use Rattle.std.specs.List.{sum_by};
ghost use Rattle.vx_base.specs.Limits.{most_segments};
ghost use Rattle.vx_splits.specs.Limits.{most_chunk_rows, block_rows};
ghost use Rattle.vx_splits.specs.Chunks.{rows_per_chunk, chunk_size, clipped_chunk, row_chunks, Tile, CutsAtMultiples, ChunkSizes, ChunksJoin, ChunksTake, ChunksAreShared};

use std::alloc::{AllocError, Global};
use std::ops::Range;
use vx_base::SegmentLocation;

/// The most rows that one chunk has. A file of at most so many rows is one chunk.
const MAX_ROWS: u64 = 65536;
/// The rows of a block: a chunk has one to eight of them.
const BLOCK_ROWS: u64 = 8192;
/// The most blocks that a chunk has.
const MAX_BLOCKS: u64 = 8;
/// The bytes that a chunk is meant to have.
const CHUNK_BYTES: u64 = 8_388_608;

/// How many rows a chunk of a file has, by the file's rows and the bytes of its segments: 65536 for a file
/// of at most so many rows, else about eight MiB of rows, in blocks of 8192, one block to eight. It takes no
/// memory.
pub fn rows_per_chunk(row_count: u64, locations: &[SegmentLocation]) -> u64
    requires { length locations.now ≤ most_segments }
    ensures rows { result ≡ rows_per_chunk row_count locations.now }
    ensures root { result ≡ chunk_size true row_count locations.now }
    ensures multiple { result % block_rows ≡ 0 }
    ensures at_least { block_rows ≤ result }
    ensures at_most { result ≤ most_chunk_rows }
{
    if row_count <= MAX_ROWS {
        return MAX_ROWS;
    }
    let bytes = total_length(locations);
    let bytes_per_row = bytes.div_ceil(row_count).max(1);
    BLOCK_ROWS * (CHUNK_BYTES / bytes_per_row / BLOCK_ROWS).clamp(1, MAX_BLOCKS)
}

/// The bytes of all segments.
fn total_length(locations: &[SegmentLocation]) -> u64
    requires { length locations.now ≤ most_segments }
    ensures { result ≡ sum_by (λ at. at.length) locations.now }
{
    let mut total: u64 = 0;
    for location in locations {
        total += u64::from(location.length);
    }
    total
}

/// The range cut at the multiples of the size, counted from the first row of the file on; the first and the
/// last piece may be smaller. An empty range gives none.
pub fn row_chunks(alloc: Global, rows: Range<u64>, size: u64) -> Result<Vec<Range<u64>>, AllocError>
    requires { 0 < size }
    ensures chunks { IfOk result (λ chunks. chunks.items ≡ row_chunks size rows.start rows.end) }
    ensures tile { IfOk result (λ chunks. rows.start < rows.end → Tile rows.start rows.end chunks.items) }
    ensures cuts { IfOk result (λ chunks. CutsAtMultiples size chunks.items) }
{
    if rows.end <= rows.start {
        return Ok(Vec::new(alloc));
    }
    let first = rows.start / size;
    let behind_last = (rows.end - 1) / size + 1;
    let mut chunks = Vec::with_capacity(alloc, (behind_last - first) as usize)?;
    for number in first..behind_last {
        chunks.push(clip(&rows, size, number))?;
    }
    Ok(chunks)
}

/// The first of the chunks of a range that isn't empty: its rows up to the next multiple of the size. It takes no
/// memory.
pub fn first_chunk(rows: &Range<u64>, size: u64) -> Range<u64>
    requires some { rows.now.start < rows.now.end }
    requires size { 0 < size }
    ensures first { row_chunks size rows.now.start rows.now.end ≡ result ∷ row_chunks size result.end rows.now.end }
    ensures start { result.start ≡ rows.now.start }
    ensures forwards { result.start < result.end }
    ensures inside { result.end ≤ rows.now.end }
{
    clip(rows, size, rows.start / size)
}

/// The rows of the range in the chunk of that number. The chunk begins before the range's end.
fn clip(rows: &Range<u64>, size: u64, number: u64) -> Range<u64>
    requires { number * size < rows.now.end }
    ensures { result ≡ clipped_chunk size rows.now.start rows.now.end number }
{
    let start = number * size;
    rows.start.max(start)..rows.end.min(start.saturating_add(size))
}

/// What is selected of the chunks of a range, one after the other, is what is selected of the range; and what is
/// selected of the chunks of a scan's range below the row count are the rows of the scan, where it has no limit.
pub fn chunks_join()
    ensures selected { ChunksJoin }
    ensures taken { ChunksTake }
{}

/// The chunks of a scan have whole blocks, whatever is read of its rows.
pub fn chunks_have_blocks()
    ensures { ChunkSizes }
{}

/// Two rows of a range lie in one of its chunks exactly where they share a chunk.
pub fn chunks_are_shared()
    ensures { ChunksAreShared }
{}
