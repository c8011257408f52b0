//! Scripts and reads that were written by hand, on which the definitions of sources and streams are checked.

ghost use Rattle.std.specs.Prelude.{◌≡◌, ◌∷◌, [], Some, None, true, false};
ghost use Rattle.vx_outside.specs.Faults.{one_more};
ghost use Rattle.vx_outside.specs.ScriptSources.{waits_left, polled_once, tickets_before, held_up};
ghost use Rattle.vx_outside.specs.Sources.{asks_also, bytes_at, location_of, without};

/// A ticket's waits stand at its own place, none stand past the last one, and a poll takes one of them where there is
/// one. The tickets before the first place of a ticket in the order, which are none where it stands first, and nothing
/// where it stands nowhere. A ticket is held up where one before it is in flight, and not by itself.
pub fn scripts_by_hand()
    ensures waits { waits_left (3 ∷ 1 ∷ []) 1 ≡ 1 }
    ensures no_waits { waits_left (3 ∷ 1 ∷ []) 2 ≡ 0 }
    ensures polled { polled_once (3 ∷ 1 ∷ []) 1 ≡ 3 ∷ 0 ∷ [] }
    ensures polled_at_none { polled_once (0 ∷ 1 ∷ []) 0 ≡ 0 ∷ 1 ∷ [] }
    ensures before { tickets_before 2 (5 ∷ 3 ∷ 2 ∷ 7 ∷ 2 ∷ []) ≡ Some (5 ∷ 3 ∷ []) }
    ensures first { tickets_before 5 (5 ∷ 3 ∷ 2 ∷ []) ≡ Some [] }
    ensures nowhere { tickets_before 4 (5 ∷ 3 ∷ 2 ∷ []) ≡ None }
    ensures held { held_up ((3, record { offset = 0; length = 4; alignment = 0 }) ∷ []) 2 false (5 ∷ 3 ∷ 2 ∷ []) ≡ true }
    ensures not_by_itself { held_up ((3, record { offset = 0; length = 4; alignment = 0 }) ∷ []) 3 false (5 ∷ 3 ∷ 2 ∷ []) ≡ false }
{}

/// The bytes at a location, up to the file's end and not past it. The read of a ticket among others, and what is left
/// when it ends. A range is asked for behind those that were asked before, and where no ranges are told none is. A
/// count stands still at its type's end.
pub fn reads_by_hand()
    ensures inside { bytes_at (7 ∷ 8 ∷ 9 ∷ []) (record { offset = 1; length = 2; alignment = 64 }) ≡ Some (8 ∷ 9 ∷ []) }
    ensures at_end { bytes_at (7 ∷ 8 ∷ 9 ∷ []) (record { offset = 3; length = 0; alignment = 1 }) ≡ Some [] }
    ensures past_end { bytes_at (7 ∷ 8 ∷ 9 ∷ []) (record { offset = 2; length = 2; alignment = 1 }) ≡ None }
    ensures located { location_of 4 ((3, record { offset = 0; length = 4; alignment = 0 }) ∷ (4, record { offset = 4; length = 2; alignment = 8 }) ∷ []) ≡ Some (record { offset = 4; length = 2; alignment = 8 }) }
    ensures left { without 3 ((3, record { offset = 0; length = 4; alignment = 0 }) ∷ (4, record { offset = 4; length = 2; alignment = 8 }) ∷ []) ≡ (4, record { offset = 4; length = 2; alignment = 8 }) ∷ [] }
    ensures asked { asks_also (record { offset = 4; length = 2; alignment = 8 }) (Some (record { offset = 0; length = 4 } ∷ [])) ≡ Some (record { offset = 0; length = 4 } ∷ record { offset = 4; length = 2 } ∷ []) }
    ensures not_told { asks_also (record { offset = 4; length = 2; alignment = 8 }) None ≡ None }
    ensures counted { one_more 41 ≡ 42 }
    ensures stands_still { one_more 18446744073709551615 ≡ 18446744073709551615 }
{}
