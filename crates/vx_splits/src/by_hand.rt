//! The definitions on ranges, boundaries and indices that were worked out by hand.

ghost use Rattle.std.specs.Prelude.{◌≡◌, ◌∷◌, [], Some, None, true, false};
ghost use Rattle.vx_splits.specs.declared.selections.Selection.TheVariants.{All, IncludeByIndex, ExcludeByIndex};
ghost use Rattle.vx_splits.specs.Chunks.{rows_per_chunk, row_chunks};
ghost use Rattle.vx_splits.specs.FirstRows.{chunk_of, first_chunks};
ghost use Rattle.vx_splits.specs.Spans.{subdivided};
ghost use Rattle.vx_splits.specs.SplitRanges.{range_of, gathered_ranges};
ghost use Rattle.vx_splits.specs.Taken.{selected_rows, taken_rows};
ghost use Rattle.vx_splits.specs.Trimmed.{selection_mask};

/// A range over three chunks, the rows behind the first of them, and a reversed range, a file of one chunk; a span in
/// three parts; indices that share a range, that lie far apart, and that do neither; the rows that a selection selects and
/// a scan takes; the first three rows and the first two of chunks that have two each.
pub fn splits_by_hand()
    ensures chunks { row_chunks 8 5 20 ≡ range_of 5 8 ∷ range_of 8 16 ∷ range_of 16 20 ∷ [] }
    ensures behind_first { row_chunks 8 8 20 ≡ range_of 8 16 ∷ range_of 16 20 ∷ [] }
    ensures reversed { row_chunks 8 9 4 ≡ [] }
    ensures one_chunk { rows_per_chunk 65536 [] ≡ 65536 }
    ensures cut { subdivided 100 (0 ∷ 50 ∷ 350 ∷ 360 ∷ []) ≡ 0 ∷ 50 ∷ 150 ∷ 250 ∷ 350 ∷ 360 ∷ [] }
    ensures near { gathered_ranges (0 ∷ 3998 ∷ []) ≡ Some (range_of 0 3999 ∷ []) }
    ensures far { gathered_ranges (0 ∷ 50000 ∷ []) ≡ Some (range_of 0 1 ∷ range_of 50000 50001 ∷ []) }
    ensures between { gathered_ranges (0 ∷ 3999 ∷ []) ≡ None }
    ensures included { selected_rows (IncludeByIndex (0 ∷ 7 ∷ 9 ∷ 100 ∷ [])) 5 20 ≡ 7 ∷ 9 ∷ [] }
    ensures excluded { selection_mask (ExcludeByIndex (6 ∷ [])) 5 8 ≡ true ∷ false ∷ true ∷ [] }
    ensures taken { taken_rows All (Some (range_of 3 20)) 5 ≡ 3 ∷ 4 ∷ [] }
    ensures first_three { first_chunks 3 (chunk_of 2 5 (true ∷ false ∷ true ∷ []) ∷ chunk_of 8 10 (true ∷ true ∷ []) ∷ chunk_of 16 17 (true ∷ []) ∷ []) ≡ chunk_of 2 5 (true ∷ false ∷ true ∷ []) ∷ chunk_of 8 9 (true ∷ []) ∷ [] }
    ensures first_two { first_chunks 2 (chunk_of 2 5 (true ∷ false ∷ true ∷ []) ∷ chunk_of 8 10 (true ∷ true ∷ []) ∷ []) ≡ chunk_of 2 5 (true ∷ false ∷ true ∷ []) ∷ [] }
    ensures first_none { first_chunks 0 (chunk_of 8 10 (true ∷ true ∷ []) ∷ []) ≡ [] }
{}
