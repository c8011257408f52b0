//! Plans that were written by hand, on which the definitions of rows, of reads and of what is reached are checked.

ghost use Rattle.std.specs.Prelude.{◌≡◌, ◌∷◌, [], false, pos, true, None, Some};
ghost use Rattle.vx_base.specs.ColumnCalls.{natural};
ghost use Rattle.vx_base.specs.Data.{no_items, null, number, structure, truth};
ghost use Rattle.vx_plan.specs.declared.reaching.Reach.TheVariants.{Fixed, Offset};
ghost use Rattle.vx_plan.specs.Reaches.{reached, selected_of};
ghost use Rattle.vx_plan.specs.WorkedPlans.{entry, looked_up_in, null_structs, pruned_zones, rows, segments_read, shared_flats, ten_through, three_flats, two_behind, two_lists, worth};
ghost use Rattle.vx_rows.specs.ByHand.{naturals};
ghost use Rattle.vx_rows.specs.Reads.{directly, through};

/// Chunks are reached in order, each where it is met, at the rows of the root; a chunk of whose rows none is selected
/// is not. Codes are reached before the values, which are reached whole, for the rows that were asked; and so is what
/// is shared, and what is told of zones where it is asked which are pruned. The rows of a list reach nothing, nor do no rows.
pub fn reach_by_hand()
    ensures chunks { reached three_flats (Offset 0) 0 9 ≡ entry 0 0 3 ∷ entry 1 3 6 ∷ entry 2 6 9 ∷ [] }
    ensures selected { selected_of three_flats (Offset 0) 0 (true ∷ false ∷ false ∷ false ∷ false ∷ false ∷ false ∷ true ∷ false ∷ []) ≡ entry 0 0 3 ∷ entry 2 6 9 ∷ [] }
    ensures behind { reached three_flats (Offset 100) 2 4 ≡ entry 0 102 103 ∷ entry 1 103 104 ∷ [] }
    ensures fixed { reached three_flats (Fixed (rows 7 8)) 2 4 ≡ entry 0 7 8 ∷ entry 1 7 8 ∷ [] }
    ensures codes_first { reached (looked_up_in 2) (Offset 7) 1 3 ≡ entry 0 8 10 ∷ entry 1 8 10 ∷ [] }
    ensures no_values { reached (looked_up_in 0) (Offset 7) 1 3 ≡ entry 0 8 10 ∷ [] }
    ensures shared { reached shared_flats (Offset 0) 4 5 ≡ entry 0 4 5 ∷ entry 1 4 5 ∷ entry 2 4 5 ∷ [] }
    ensures pruned { reached pruned_zones (Offset 10) 4 6 ≡ entry 3 14 16 ∷ [] }
    ensures none_pruned { selected_of pruned_zones (Offset 10) 4 (false ∷ false ∷ []) ≡ [] }
    ensures lists { reached two_lists (Offset 0) 0 2 ≡ [] }
    ensures no_rows { reached three_flats (Offset 0) 3 3 ≡ [] }
{}

/// A struct without fields is null where its validity is false. A row index is the number of the row behind the
/// offset. A take over no values reads its codes; the others read each value through the take; a share reads its own
/// row and all rows of its child. Whether a row's zone is pruned follows from all zones, which are read whole.
pub fn rows_by_hand()
    ensures validity { worth (truth true ∷ truth false ∷ truth true ∷ []) 0 null_structs (0 ∷ 1 ∷ 2 ∷ []) ≡ Some (structure no_items) ∷ Some null ∷ Some (structure no_items) ∷ [] }
    ensures row_index { worth [] 18446744073709551612 two_behind (0 ∷ 1 ∷ 2 ∷ []) ≡ Some (number (pos 18446744073709551614)) ∷ Some (number (pos 18446744073709551615)) ∷ None ∷ [] }
    ensures worked_out { worth (naturals (5 ∷ 0 ∷ 2 ∷ [])) 0 ten_through (0 ∷ 1 ∷ 2 ∷ []) ≡ Some (number (pos 2)) ∷ None ∷ Some (number (pos 5)) ∷ [] }
    ensures chunks { worth (naturals (4 ∷ 5 ∷ 6 ∷ [])) 0 three_flats (1 ∷ 8 ∷ []) ≡ Some (number (pos 5)) ∷ Some (number (pos 6)) ∷ [] }
    ensures no_values { segments_read (looked_up_in 0) 1 ≡ (directly, 0) ∷ [] }
    ensures each_value { segments_read (looked_up_in 2) 1 ≡ (directly, 0) ∷ (through 0, 1) ∷ (through 0, 1) ∷ [] }
    ensures shared { segments_read shared_flats 4 ≡ (directly, 1) ∷ (directly, 0) ∷ (directly, 0) ∷ (directly, 0) ∷ (directly, 1) ∷ (directly, 1) ∷ (directly, 1) ∷ (directly, 2) ∷ (directly, 2) ∷ (directly, 2) ∷ [] }
    ensures pruned { worth (naturals (3 ∷ 6 ∷ 9 ∷ [])) 0 pruned_zones (0 ∷ 5 ∷ 6 ∷ 8 ∷ []) ≡ Some (truth true) ∷ Some (truth true) ∷ Some (truth false) ∷ Some (truth false) ∷ [] }
    ensures untold { worth (natural 3 ∷ null ∷ natural 3 ∷ []) 0 pruned_zones (2 ∷ 3 ∷ 6 ∷ []) ≡ Some (truth true) ∷ Some (truth false) ∷ Some (truth true) ∷ [] }
    ensures faulty_zone { worth (naturals (3 ∷ 6 ∷ [])) 0 pruned_zones (0 ∷ []) ≡ None ∷ [] }
    ensures zones { segments_read pruned_zones 4 ≡ (directly, 3) ∷ (directly, 3) ∷ (directly, 3) ∷ [] }
    ensures lists { segments_read two_lists 1 ≡ [] }
    ensures list_row { worth [] 0 two_lists (1 ∷ []) ≡ None ∷ [] }
{}
