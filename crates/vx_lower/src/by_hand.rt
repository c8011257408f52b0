//! Trees that were written by hand, on which the definitions of lowering and of the row index are checked.

ghost use Rattle.std.specs.Prelude.{◌≡◌, ◌∷◌, [], codes, None, Some};
ghost use Rattle.vx_base.specs.declared.dtypes.Nullability.TheVariants.{NonNullable};
ghost use Rattle.vx_base.specs.Data.{no_members, struct_type};
ghost use Rattle.vx_base.specs.ColumnCalls.{natural};
ghost use Rattle.vx_expr.specs.declared.operators.ArithOp.TheVariants.{Add};
ghost use Rattle.vx_expr.specs.declared.statistics.Statistic.TheVariants.{Max};
ghost use Rattle.vx_expr.specs.Rewritten.{with_row_number};
ghost use Rattle.vx_expr.specs.Terms.{arithmetic, get_field, literal, root, row_number};
ghost use Rattle.vx_layout.specs.Kept.{all, only};
ghost use Rattle.vx_plan.specs.Plans.{all_valid, eval_plan, no_plans, pack_plan, plan, row_idx_plan};
ghost use Rattle.vx_rows.specs.ByHand.{i64, naturals, u64};
ghost use Rattle.vx_lower.specs.Lowered.{lowered};
ghost use Rattle.vx_lower.specs.Planned.{planned};
ghost use Rattle.vx_lower.specs.WorkedPlans.{b_alone, b_of_each, chunked_b, chunked_pairs, field_b, flat, head, in_zones, looked_up_numbers, looked_up_pairs, null_structs, number_and_b, packed_b, packed_lists, packed_nulls, packed_pairs, pair, pairs, projected, projection, scanned, segments_read, taken_numbers, taken_pairs, ten_through_a, two_behind, two_chunks, two_lists, two_scanned, worth, zoned_b, zoned_pairs, zones_beside};

/// A leaf is a filter over a scan, chunks are a concat, a struct is a pack of its fields with its validity, a
/// dictionary a take of its codes and its values, a list a pack of elements and offsets. Zones stand beside the data.
pub fn plans_by_hand()
    ensures leaf { lowered (flat 0 i64 3 7) all ≡ scanned 0 i64 3 7 }
    ensures chunks { lowered two_chunks all ≡ two_scanned }
    ensures fields { lowered (pairs 0 0) all ≡ packed_pairs 0 0 }
    ensures validity { lowered null_structs all ≡ packed_nulls }
    ensures dictionary { lowered looked_up_numbers all ≡ taken_numbers }
    ensures lists { lowered two_lists all ≡ packed_lists }
    ensures zones { lowered (in_zones 3 (Max ∷ [])) all ≡ zones_beside }
{}

/// Zones that have no length or no statistics are left out.
pub fn zones_by_hand()
    ensures no_length { lowered (in_zones 0 (Max ∷ [])) all ≡ scanned 1 i64 3 0 }
    ensures no_statistics { lowered (in_zones 3 []) all ≡ scanned 1 i64 3 0 }
    ensures kept { lowered (zoned_pairs 0) b_alone ≡ chunked_b 1 }
{}

/// Kept fields alone are packed, through chunks and beside zones. Over a dictionary they are packed from the whole
/// values. Where none is kept, the structs are empty.
pub fn kept_plans_by_hand()
    ensures fields { lowered (pairs 0 0) b_alone ≡ packed_b 0 0 }
    ensures chunks { lowered (chunked_pairs 0) b_alone ≡ chunked_b 0 }
    ensures zones { lowered (zoned_pairs 3) b_alone ≡ zoned_b }
    ensures dictionary { lowered looked_up_pairs b_alone ≡ b_of_each taken_pairs }
    ensures whole_dictionary { lowered looked_up_pairs all ≡ taken_pairs }
    ensures none { lowered (pairs 0 0) (only []) ≡ pack_plan (head 0 (struct_type no_members NonNullable) 3) no_plans all_valid }
{}

/// An expression that doesn't use the root is planned over the rows' numbers, or over empty structs; one that uses
/// both over the two side by side; and the root alone is the lowered tree.
pub fn projections_by_hand()
    ensures numbers { planned (projection two_behind u64 0) ≡ eval_plan (head 0 u64 3) (arithmetic Add root (literal (natural 2) u64)) (row_idx_plan (head 0 u64 3)) }
    ensures number { planned (projection row_number u64 0) ≡ eval_plan (head 0 u64 3) root (row_idx_plan (head 0 u64 3)) }
    ensures neither { planned (projection (literal (natural 2) u64) u64 0) ≡ eval_plan (head 0 u64 3) (literal (natural 2) u64) (pack_plan (head 0 (struct_type no_members NonNullable) 3) no_plans all_valid) }
    ensures both { planned (projection number_and_b u64 0) ≡ eval_plan (head 0 u64 3) (arithmetic Add (get_field (codes "row_idx") root) (get_field (codes "b") (get_field (codes "child") root))) (pack_plan (head 0 (with_row_number field_b) 3) (plan (row_idx_plan (head 0 u64 3)) (plan (packed_b 0 0) no_plans)) all_valid) }
    ensures root { planned (projection root pair 0) ≡ packed_pairs 0 0 }
{}

/// A row's number is that of the row behind the offset, and past the greatest number a sum is a fault; so is a division
/// by zero. Only the fields that the expression gets are read.
pub fn projected_rows_by_hand()
    ensures numbers { worth [] (projection two_behind u64 18446744073709551612) ≡ Some (natural 18446744073709551614) ∷ Some (natural 18446744073709551615) ∷ None ∷ [] }
    ensures number { worth [] (projection row_number u64 18446744073709551612) ≡ Some (natural 18446744073709551612) ∷ Some (natural 18446744073709551613) ∷ Some (natural 18446744073709551614) ∷ [] }
    ensures divided { worth (naturals (5 ∷ 0 ∷ 2 ∷ [])) (projection ten_through_a i64 0) ≡ Some (natural 2) ∷ None ∷ Some (natural 5) ∷ [] }
    ensures both { worth (naturals (5 ∷ 0 ∷ 2 ∷ [])) (projection number_and_b u64 100) ≡ Some (natural 105) ∷ Some (natural 101) ∷ Some (natural 104) ∷ [] }
    ensures same_numbers { projected [] (projection two_behind u64 18446744073709551612) ≡ worth [] (projection two_behind u64 18446744073709551612) }
    ensures same_divided { projected (naturals (5 ∷ 0 ∷ 2 ∷ [])) (projection ten_through_a i64 0) ≡ worth (naturals (5 ∷ 0 ∷ 2 ∷ [])) (projection ten_through_a i64 0) }
    ensures no_reads { segments_read (projection two_behind u64 0) ≡ [] }
    ensures reads_of_a { segments_read (projection ten_through_a i64 0) ≡ 0 ∷ [] }
    ensures reads_of_b { segments_read (projection number_and_b u64 0) ≡ 1 ∷ [] }
    ensures reads_of_root { segments_read (projection root pair 0) ≡ 0 ∷ 1 ∷ [] }
{}
