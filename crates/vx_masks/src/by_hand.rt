//! Masks and bytes that were spelled by hand, on which the definitions of truth values are checked.

ghost use Rattle.std.specs.Prelude.{◌≡◌, ℕ, ◌∷◌, [], true, false};
ghost use Rattle.vx_masks.specs.Bytes.{packed};
ghost use Rattle.vx_masks.specs.Masks.{both, chosen, chosen_of_chosen, either, is_among, place_of_rank, true_count, without};
ghost use Rattle.vx_masks.specs.Rows.{taken};
ghost use Rattle.vx_masks.specs.Words.{words_for};

/// Truth values lie lowest bit first, the ninth in a byte of its own; 64 of them take a word, 65 take two.
pub fn bytes_by_hand()
    ensures low_first { packed (true ∷ false ∷ true ∷ []) ≡ 5 ∷ [] }
    ensures ninth { packed (false ∷ true ∷ false ∷ false ∷ false ∷ false ∷ false ∷ true ∷ true ∷ []) ≡ 130 ∷ 1 ∷ [] }
    ensures one_word { words_for 64 ≡ 1 }
    ensures two_words { words_for 65 ≡ 2 }
{}

/// What a mask chooses: the rows at its true places, in order. A choice among the chosen keeps or drops the true rows
/// alone. Of two masks, the rows of both, of either, and of the first without the second. Ranks and places count from
/// 0. A place that is listed is among those of the list. Rows are taken by their places, and past the last row the
/// blank.
pub fn masks_by_hand()
    ensures picked { chosen {X = ℕ} (true ∷ false ∷ true ∷ []) (10 ∷ 20 ∷ 30 ∷ []) ≡ 10 ∷ 30 ∷ [] }
    ensures among_picked { chosen_of_chosen (true ∷ false ∷ true ∷ true ∷ []) (false ∷ true ∷ true ∷ []) ≡ false ∷ false ∷ true ∷ true ∷ [] }
    ensures in_both { both (true ∷ true ∷ false ∷ []) (true ∷ false ∷ true ∷ []) ≡ true ∷ false ∷ false ∷ [] }
    ensures in_one { either (true ∷ false ∷ false ∷ []) (true ∷ false ∷ true ∷ []) ≡ true ∷ false ∷ true ∷ [] }
    ensures in_first { without (true ∷ true ∷ false ∷ []) (true ∷ false ∷ true ∷ []) ≡ false ∷ true ∷ false ∷ [] }
    ensures count { true_count (true ∷ false ∷ true ∷ []) ≡ 2 }
    ensures second_true { place_of_rank (false ∷ true ∷ false ∷ true ∷ []) 1 ≡ 3 }
    ensures listed { is_among (2 ∷ 5 ∷ []) 5 ≡ true }
    ensures by_place { taken {X = ℕ} 0 (10 ∷ 20 ∷ []) (1 ∷ 0 ∷ 2 ∷ []) ≡ 20 ∷ 10 ∷ 0 ∷ [] }
{}
