//! Seats and offers by hand, on which the definitions of the bound are checked.

ghost use Rattle.std.specs.Prelude.{◌≡◌, ◌∷◌, []};
ghost use Rattle.vx_bound.specs.ByHand.{knows};
ghost use Rattle.vx_bound.specs.Offers.{bound_after};
ghost use Rattle.vx_bound.specs.Views.{both, fresh, less_a_part, loaded, offered, opened};

/// The bound is the least of the first key and the offers, in whatever order they come. A seat that offers has seen what
/// the word becomes; one that loads has seen the word and offered nothing. A seat that takes in another has its own
/// offers first, the lesser seen, and its own turns. The first seat has all parts and has seen the first key. A seat that
/// gives one of its parts gives with it what it has seen, and neither its offers nor its turns.
pub fn bounds_by_hand()
    ensures first { bound_after 100 [] ≡ 100 }
    ensures least { bound_after 100 (70 ∷ 40 ∷ 60 ∷ []) ≡ 40 }
    ensures looser { bound_after 100 (200 ∷ []) ≡ 100 }
    ensures tighter { offered (knows 90 (95 ∷ []) 1 2) 80 70 ≡ knows 70 (95 ∷ 70 ∷ []) 2 2 }
    ensures too_late { offered (knows 90 [] 1 2) 60 70 ≡ knows 60 (70 ∷ []) 2 2 }
    ensures load { loaded (knows 90 (95 ∷ []) 1 2) 60 ≡ knows 60 (95 ∷ []) 2 2 }
    ensures own_first { both (knows 70 (70 ∷ []) 3 64) (knows 60 (60 ∷ 80 ∷ []) 5 1) ≡ knows 60 (70 ∷ 60 ∷ 80 ∷ []) 3 65 }
    ensures opening { opened 100 ≡ knows 100 [] 0 65 }
    ensures part_given { less_a_part (opened 100) ≡ knows 100 [] 0 64 }
    ensures new_seat { fresh (knows 90 (95 ∷ []) 4 2) ≡ knows 90 [] 0 1 }
{}
