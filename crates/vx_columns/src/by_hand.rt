//! Runs that were worked out by hand, on which their definitions are checked.

ghost use Rattle.std.specs.Prelude.{◌≡◌, ◌∷◌, [], true, false};
ghost use Rattle.vx_types.specs.Data.{null, truth};
ghost use Rattle.vx_columns.specs.RunRows.{start_of, repeated, cut_ends, mask_counts, kept_places, kept_ends};
ghost use Rattle.vx_columns.specs.Runs.{spread, run_places};

/// Runs that end at 2, 5 and 9: the rows of the first two, where the last run begins, and the run of each row. Of
/// three rows behind the first, the first run has one and ends there, the second ends at 3; behind three rows nothing of
/// the first run is left, and the others end at 2 and 6. Of chosen rows, how many each run has; which runs have any, and where those end. A value that is
/// repeated no times is left out.
pub fn runs_by_hand()
    ensures rows { spread 0 (truth true ∷ null ∷ []) (2 ∷ 5 ∷ []) ≡ truth true ∷ truth true ∷ null ∷ null ∷ null ∷ [] }
    ensures begin { start_of 0 (2 ∷ 5 ∷ 9 ∷ []) 2 ≡ 5 }
    ensures places { run_places 0 0 (2 ∷ 5 ∷ []) ≡ 0 ∷ 0 ∷ 1 ∷ 1 ∷ 1 ∷ [] }
    ensures ranged { cut_ends 1 4 (2 ∷ 5 ∷ []) ≡ 1 ∷ 3 ∷ [] }
    ensures skipped { cut_ends 3 12 (5 ∷ 9 ∷ []) ≡ 2 ∷ 6 ∷ [] }
    ensures masked { mask_counts (true ∷ false ∷ true ∷ true ∷ false ∷ []) 0 (2 ∷ 5 ∷ []) ≡ 1 ∷ 2 ∷ [] }
    ensures kept { kept_places 0 (1 ∷ 0 ∷ 2 ∷ []) ≡ 0 ∷ 2 ∷ [] }
    ensures ends { kept_ends 0 (1 ∷ 0 ∷ 2 ∷ []) ≡ 1 ∷ 3 ∷ [] }
    ensures each_repeated { repeated (1 ∷ 0 ∷ 2 ∷ []) (truth true ∷ null ∷ truth false ∷ []) ≡ truth true ∷ truth false ∷ truth false ∷ [] }
{}
