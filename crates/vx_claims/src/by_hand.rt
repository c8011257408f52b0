//! Seats and lists of numbers by hand, on which the definitions of claims are checked.

ghost use Rattle.std.specs.Prelude.{◌≡◌, ◌+◌, ◌∷◌, [], true, false};
ghost use Rattle.vx_claims.specs.Apart.{once_below, sum_below, times, times_over, weight_of};
ghost use Rattle.vx_claims.specs.ByHand.{knows};
ghost use Rattle.vx_claims.specs.Views.{above, both, drawn, fresh, less_a_part, opened};

/// The greatest number below the count is claimed, behind those before it, and the count itself tells the end. A seat
/// that takes in another has its own numbers first, and was told the end where either was. The first seat has all parts
/// and gives one; a new one has one. What stands above a list is one more than its greatest number, and 0 above none.
pub fn seats_by_hand()
    ensures last_chunk { drawn (knows (0 ∷ []) false 0 65) 2 ≡ knows (0 ∷ 2 ∷ []) false 0 65 }
    ensures at_count { drawn (knows (0 ∷ 2 ∷ []) false 0 65) 3 ≡ knows (0 ∷ 2 ∷ []) true 1 65 }
    ensures own_first { both (knows (2 ∷ []) false 0 64) (knows (0 ∷ 1 ∷ []) true 1 1) ≡ knows (2 ∷ 0 ∷ 1 ∷ []) true 1 65 }
    ensures told_before { both (knows [] true 1 2) (knows (1 ∷ []) false 0 3) ≡ knows (1 ∷ []) true 1 5 }
    ensures part_given { less_a_part (opened 3) ≡ knows [] false 0 64 }
    ensures new_seat { fresh 3 ≡ knows [] false 0 1 }
    ensures above_all { above (1 ∷ 2 ∷ 0 ∷ []) ≡ 3 }
    ensures above_none { above [] ≡ 0 }
{}

/// How often a number stands in a list and over all lists; once below a bound, and never at it. The weights of all
/// numbers below a bound, without the bound; in lists each counts as often as it stands there.
pub fn lists_by_hand()
    ensures twice { times 2 (2 ∷ 1 ∷ 2 ∷ []) ≡ 2 }
    ensures over_lists { times_over 1 ((2 ∷ 1 ∷ []) ∷ [] ∷ (1 ∷ 1 ∷ []) ∷ []) ≡ 3 }
    ensures below { once_below 3 2 ≡ 1 }
    ensures at_bound { once_below 3 3 ≡ 0 }
    ensures weights_below { sum_below (λ n. n + 1) 3 ≡ 6 }
    ensures weights_listed { weight_of (λ n. n + 1) ((2 ∷ []) ∷ (0 ∷ 2 ∷ []) ∷ []) ≡ 7 }
{}
