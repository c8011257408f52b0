//! The limits of the code are the numbers that are promised.

ghost use Rattle.std.specs.Prelude.{◌≡◌};
ghost use Rattle.vx_splits.specs.declared.chunks.TheConstants.{MAX_ROWS, BLOCK_ROWS, CHUNK_BYTES};
ghost use Rattle.vx_splits.specs.declared.spans.TheConstants.{DEFAULT_MAX_SPLIT_ROWS};
ghost use Rattle.vx_splits.specs.declared.split_ranges.TheConstants.{RANGE_ROWS_LIMIT, MIN_GAP_ROWS};
ghost use Rattle.vx_splits.specs.Limits.{most_chunk_rows, block_rows, chunk_bytes, range_rows_limit, least_gap, default_span};

/// Each limit of the code is the number of that meaning.
pub fn limits_are_promised()
    ensures chunk_rows { MAX_ROWS ≡ most_chunk_rows }
    ensures block { BLOCK_ROWS ≡ block_rows }
    ensures bytes { CHUNK_BYTES ≡ chunk_bytes }
    ensures range { RANGE_ROWS_LIMIT ≡ range_rows_limit }
    ensures gap { MIN_GAP_ROWS ≡ least_gap }
    ensures span { DEFAULT_MAX_SPLIT_ROWS ≡ default_span }
{}
