//! Scans that were written by hand, on which the definitions of answers and of causes are checked.

ghost use Rattle.std.specs.Prelude.{◌≡◌, ◌∷◌, []};
ghost use Rattle.std.specs.Prelude.{Some, None};
ghost use Rattle.vx_base.specs.Data.{null};
ghost use Rattle.vx_layout.specs.Rows.{file_leaves, segment_bytes};
ghost use Rattle.vx_layout.specs.WorkedRows.{at, no_values, no_values_at, null_codes, code_zero, torn_value, torn_file, torn_at, list_field};
ghost use Rattle.vx_rows.specs.ByHand.{all_have, i64, naturals, u64};
ghost use Rattle.vx_lower.specs.WorkedPlans.{projection, ten_through_a, two_behind};
ghost use Rattle.vx_splits.specs.declared.selections.Selection.TheVariants.{All, ExcludeByIndex, IncludeByIndex};
ghost use Rattle.vx_splits.specs.SplitRanges.{range_of};
ghost use Rattle.vx_splits.specs.Taken.{taken_rows};
ghost use Rattle.vx_scan.specs.Answer.{IsAnswer, limited, pieces_of};
ghost use Rattle.vx_scan.specs.Causes.{FaultsAt, LacksLocation, ReadsBadCode, ReadsList, ReadsTorn, ScanReaches};
ghost use Rattle.vx_scan.specs.WorkedScans.{nine_numbers, nine_numbers_at, nine_numbers_file, three_numbers, three_numbers_file, whole_of};

/// Rows lie in one piece exactly where they share a chunk.
pub fn pieces_by_hand()
    ensures threes { pieces_of 3 (0 ∷ 1 ∷ 2 ∷ 3 ∷ 5 ∷ 9 ∷ []) ≡ (0 ∷ 1 ∷ 2 ∷ []) ∷ (3 ∷ 5 ∷ []) ∷ (9 ∷ []) ∷ [] }
    ensures cut { pieces_of 65536 (0 ∷ 65535 ∷ 65536 ∷ []) ≡ (0 ∷ 65535 ∷ []) ∷ (65536 ∷ []) ∷ [] }
    ensures none { pieces_of 65536 [] ≡ [] }
{}

/// The first rows, as many as the limit: none, some, and all where there are no more; all where none is given; and their
/// pieces.
pub fn limits_by_hand()
    ensures none { limited (Some 0) (taken_rows All (Some (range_of 3 9)) 5) ≡ [] }
    ensures one { limited (Some 1) (taken_rows All (Some (range_of 3 9)) 5) ≡ 3 ∷ [] }
    ensures selected { limited (Some 2) (taken_rows (IncludeByIndex (0 ∷ 7 ∷ 8 ∷ 9 ∷ [])) None 9) ≡ 0 ∷ 7 ∷ [] }
    ensures last { limited (Some 3) (taken_rows (IncludeByIndex (0 ∷ 7 ∷ 8 ∷ 9 ∷ [])) None 9) ≡ 0 ∷ 7 ∷ 8 ∷ [] }
    ensures all { limited (Some 4) (taken_rows (IncludeByIndex (0 ∷ 7 ∷ 8 ∷ 9 ∷ [])) None 9) ≡ 0 ∷ 7 ∷ 8 ∷ [] }
    ensures unlimited { limited None (taken_rows (ExcludeByIndex (1 ∷ [])) None 4) ≡ 0 ∷ 2 ∷ 3 ∷ [] }
    ensures pieces { pieces_of 3 (limited (Some 4) (0 ∷ 1 ∷ 2 ∷ 3 ∷ 5 ∷ 9 ∷ [])) ≡ (0 ∷ 1 ∷ 2 ∷ []) ∷ (3 ∷ []) ∷ [] }
{}

/// The numbers of a leaf; two rows of three chunks, and which segments they reach; null codes of a dictionary without
/// values; an expression at two rows of three, and one over the rows' numbers.
pub fn answers_by_hand()
    ensures leaf { IsAnswer (file_leaves three_numbers_file (at 0 24 ∷ [])) (whole_of three_numbers) (0 ∷ 1 ∷ 2 ∷ []) (naturals (1 ∷ 2 ∷ 300 ∷ [])) }
    ensures chunks { IsAnswer (file_leaves nine_numbers_file nine_numbers_at) (whole_of nine_numbers) (0 ∷ 7 ∷ []) (naturals (1 ∷ 8 ∷ [])) }
    ensures reached { ScanReaches (whole_of nine_numbers) (0 ∷ 7 ∷ []) 2 }
    ensures not_reached { ScanReaches (whole_of nine_numbers) (0 ∷ 7 ∷ []) 1 → ⊥ }
    ensures dictionary { IsAnswer (file_leaves null_codes no_values_at) (whole_of no_values) (0 ∷ 1 ∷ 2 ∷ []) (null ∷ null ∷ null ∷ []) }
    ensures divided { IsAnswer (all_have (naturals (5 ∷ 0 ∷ 2 ∷ []))) (projection ten_through_a i64 0) (0 ∷ 2 ∷ []) (naturals (2 ∷ 5 ∷ [])) }
    ensures numbers { IsAnswer (all_have []) (projection two_behind u64 18446744073709551612) (0 ∷ 1 ∷ []) (naturals (18446744073709551614 ∷ 18446744073709551615 ∷ [])) }
{}

/// A code of no value, a torn value that no row has, a row of a list, a segment without a location, a division by zero,
/// and a number past the greatest.
pub fn faults_by_hand()
    ensures code { ReadsBadCode (file_leaves code_zero no_values_at) (whole_of no_values) (0 ∷ 1 ∷ 2 ∷ []) 0 0 }
    ensures torn { ReadsTorn (segment_bytes torn_file torn_at) (whole_of torn_value) (0 ∷ []) 1 }
    ensures list { ReadsList (whole_of list_field) (0 ∷ []) 2 }
    ensures location { LacksLocation [] (whole_of three_numbers) (0 ∷ []) 0 }
    ensures divided { FaultsAt (all_have (naturals (5 ∷ 0 ∷ 2 ∷ []))) (projection ten_through_a i64 0) (0 ∷ 1 ∷ 2 ∷ []) 1 }
    ensures number { FaultsAt (all_have []) (projection two_behind u64 18446744073709551612) (0 ∷ 1 ∷ 2 ∷ []) 2 }
{}
