//! Splits, columns and reads by hand, on which the definitions of a scan's steps are checked.

ghost use Rattle.std.specs.Prelude.{◌≡◌, ◌∷◌, [], false, map, None, Some, true};
ghost use Rattle.vx_base.specs.ColumnCalls.{natural};
ghost use Rattle.vx_base.specs.Data.{item, no_items, null, structure, truth};
ghost use Rattle.vx_rows.specs.ByHand.{handed_for, leaves_in, naturals};
ghost use Rattle.vx_picking.specs.Rows.{rows_of};
ghost use Rattle.vx_plan.specs.declared.nodes.PlanKind.TheVariants.{Filter, Share, Take};
ghost use Rattle.vx_plan.specs.WorkedPlans.{looked_up_in, three_flats};
ghost use Rattle.vx_steps.specs.ByHand.{held_of, kept_of, numbers_in, split_of, stored_of, truths_in, wanted_of};
ghost use Rattle.vx_steps.specs.Computed.{whole_in};
ghost use Rattle.vx_steps.specs.Given.{given_as, row_value, whole_value};
ghost use Rattle.vx_steps.specs.Held.{alone};
ghost use Rattle.vx_steps.specs.Standings.{numbers_from};
ghost use Rattle.vx_steps.specs.Kept.{kept_at};
ghost use Rattle.vx_steps.specs.Leavings.{behind_all, behind_split};
ghost use Rattle.vx_steps.specs.ReadTable.{bytes_of, held_bytes};
ghost use Rattle.vx_steps.specs.Structs.{structs_at};

/// Splits that select no row have a number, and are never done. The rows of a split are those of the plan. The row
/// behind all splits is that behind the furthest, selected or not; a split without rows has none behind it.
pub fn splits_by_hand()
    ensures numbers { numbers_from 4 (split_of 0 2 (true ∷ false ∷ []) ∷ split_of 2 4 (false ∷ false ∷ []) ∷ split_of 4 5 (true ∷ []) ∷ []) ≡ 4 ∷ 6 ∷ [] }
    ensures selected { rows_of 3 (true ∷ false ∷ true ∷ []) ≡ 3 ∷ 5 ∷ [] }
    ensures furthest { behind_all (split_of 5 7 (true ∷ true ∷ []) ∷ split_of 2 4 (true ∷ true ∷ []) ∷ []) ≡ 7 }
    ensures not_selected { behind_all (split_of 0 3 (false ∷ false ∷ false ∷ []) ∷ []) ≡ 3 }
    ensures empty { behind_split (split_of 4 4 []) ≡ 0 }
{}

/// Of a plan's columns the first is kept. Values that are handed in come before those that were made, except while whole
/// values are made. A take's are those for its second child, a share's its own, and no other plan has any.
pub fn kept_columns_by_hand()
    ensures first { kept_at (kept_of 2 (5 ∷ []) ∷ kept_of 3 (6 ∷ []) ∷ kept_of 2 (7 ∷ []) ∷ []) 2 ≡ Some (numbers_in (5 ∷ [])) }
    ensures not_kept { kept_at (kept_of 2 (5 ∷ []) ∷ kept_of 3 (6 ∷ []) ∷ []) 4 ≡ None }
    ensures handed_in_first { whole_in (held_of (Some (kept_of 2 (5 ∷ []) ∷ [])) (kept_of 2 (7 ∷ []) ∷ [])) 2 ≡ Some (numbers_in (5 ∷ [])) }
    ensures else_made { whole_in (held_of (Some (kept_of 2 (5 ∷ []) ∷ [])) (kept_of 3 (6 ∷ []) ∷ [])) 3 ≡ Some (numbers_in (6 ∷ [])) }
    ensures made_alone { whole_in (alone (held_of (Some (kept_of 2 (5 ∷ []) ∷ [])) (kept_of 2 (7 ∷ []) ∷ []))) 2 ≡ Some (numbers_in (7 ∷ [])) }
    ensures of_take { given_as (kept_of 1 (4 ∷ []) ∷ kept_of 2 (5 ∷ []) ∷ kept_of 3 (6 ∷ []) ∷ []) 3 Take (1 ∷ 2 ∷ []) ≡ Some (natural 5 ∷ []) }
    ensures of_share { given_as (kept_of 2 (5 ∷ []) ∷ kept_of 3 (6 ∷ []) ∷ []) 3 Share (2 ∷ []) ≡ Some (natural 6 ∷ []) }
    ensures of_filter { given_as (kept_of 2 (5 ∷ []) ∷ kept_of 3 (6 ∷ []) ∷ []) 3 Filter (2 ∷ []) ≡ None }
{}

/// A split gives the values of its selected rows. Where a take's values are handed in, none of their segments is needed,
/// and a code that is the place of none is still a fault; where none are, a value that is missing leaves each row
/// without one. Whole values are those of all rows, and a part that is missing leaves none. The last part of structs is
/// their validity, where they have one.
pub fn columns_by_hand()
    ensures selected { map (row_value (leaves_in (naturals (1 ∷ 2 ∷ 3 ∷ []) ∷ naturals (4 ∷ 5 ∷ 6 ∷ []) ∷ [])) None 0 three_flats) (rows_of 2 (true ∷ false ∷ true ∷ [])) ≡ Some (natural 3) ∷ Some (natural 5) ∷ [] }
    ensures handed_in { map (row_value (leaves_in ((natural 0 ∷ natural 1 ∷ null ∷ natural 2 ∷ []) ∷ [])) (Some (handed_for 0 (natural 4 ∷ natural 6 ∷ []))) 0 (looked_up_in 2)) (0 ∷ 1 ∷ 2 ∷ 3 ∷ []) ≡ Some (natural 4) ∷ Some (natural 6) ∷ Some null ∷ None ∷ [] }
    ensures not_handed_in { map (row_value (leaves_in ((natural 0 ∷ natural 1 ∷ null ∷ natural 2 ∷ []) ∷ [])) None 0 (looked_up_in 2)) (0 ∷ 2 ∷ []) ≡ None ∷ None ∷ [] }
    ensures whole { whole_value (leaves_in (naturals (1 ∷ 2 ∷ 3 ∷ []) ∷ naturals (4 ∷ 5 ∷ 6 ∷ []) ∷ naturals (7 ∷ 8 ∷ 9 ∷ []) ∷ [])) 0 three_flats ≡ Some (naturals (1 ∷ 2 ∷ 3 ∷ 4 ∷ 5 ∷ 6 ∷ 7 ∷ 8 ∷ 9 ∷ [])) }
    ensures part_missing { whole_value (leaves_in (naturals (1 ∷ 2 ∷ 3 ∷ []) ∷ naturals (4 ∷ 5 ∷ 6 ∷ []) ∷ [])) 0 three_flats ≡ None }
    ensures validity_last { structs_at true (numbers_in (1 ∷ 2 ∷ []) ∷ truths_in (true ∷ false ∷ []) ∷ []) 2 ≡ structure (item (natural 1) no_items) ∷ null ∷ [] }
    ensures no_validity { structs_at false (numbers_in (1 ∷ []) ∷ truths_in (false ∷ []) ∷ []) 1 ≡ structure (item (natural 1) (item (truth false) no_items)) ∷ [] }
{}

/// The bytes of a segment are those that came for it, and none before. Bytes that are gone are held no more, and neither
/// are those that did not come.
pub fn reads_by_hand()
    ensures came { bytes_of (wanted_of 7 None ∷ wanted_of 5 (Some (1 ∷ 2 ∷ [])) ∷ []) 5 ≡ Some (1 ∷ 2 ∷ []) }
    ensures not_yet { bytes_of (wanted_of 7 None ∷ wanted_of 5 (Some (1 ∷ 2 ∷ [])) ∷ []) 7 ≡ None }
    ensures held { held_bytes (wanted_of 7 (Some (1 ∷ 2 ∷ [])) ∷ wanted_of 5 (Some (3 ∷ 4 ∷ 5 ∷ [])) ∷ wanted_of 9 None ∷ []) (stored_of 7 true ∷ stored_of 5 false ∷ stored_of 9 false ∷ []) ≡ 3 }
{}
