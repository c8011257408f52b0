//! Trees that were written by hand, on which the definitions of rows, of reads and of kept fields are checked.

ghost use Rattle.std.specs.Prelude.{◌≡◌, ◌∷◌, [], codes, Some, None, false};
ghost use Rattle.vx_base.specs.declared.dtypes.Nullability.TheVariants.{NonNullable, Nullable};
ghost use Rattle.vx_base.specs.Data.{bool_type, list_type, null, truth};
ghost use Rattle.vx_expr.specs.Terms.{root, get_field, conjunction, row_number};
ghost use Rattle.vx_rows.specs.ByHand.{i64};
ghost use Rattle.vx_rows.specs.Reads.{directly, through, Finds, FindsBy, IsIn};
ghost use Rattle.vx_layout.specs.declared.errors.LayoutError.TheVariants.{BadLayout};
ghost use Rattle.vx_layout.specs.Children.{times_child};
ghost use Rattle.vx_layout.specs.Depths.{depth_of, dtype_depth};
ghost use Rattle.vx_layout.specs.Faults.{RefusedBy};
ghost use Rattle.vx_layout.specs.Trees.{chunks, head_at, subtree};
ghost use Rattle.vx_layout.specs.Rows.{reads, value};
ghost use Rattle.vx_layout.specs.Kept.{all, only, kept_fields};
ghost use Rattle.vx_layout.specs.WorkedRows.{flat_node, chunked_node, two_chunks, two_leaves, two_truths, at, worth, segments_read, three_rows, null_structs, second_is_null, no_values, no_values_at, null_codes, code_zero, torn_value, torn_file, torn_at, one_range, one_segment, twice, signed_and_unsigned, with_list, list_field, list_file, field_a, seven_and_null, in_zones, zoned_file, zoned_at, one_two_three, nested};

/// No nodes are no tree; a child twice, the depth of a chunk's chunk and of a list. Two chunks: their tree, and the
/// value of a row of the second and of no row.
pub fn trees_by_hand()
    ensures no_nodes { RefusedBy [] (BadLayout 0 1) }
    ensures twice { times_child (chunked_node 0 (1 ∷ 1 ∷ []) ∷ flat_node i64 0 0 ∷ []) 1 ≡ 2 }
    ensures depth { depth_of (chunked_node 0 (1 ∷ []) ∷ chunked_node 0 (2 ∷ []) ∷ flat_node i64 0 0 ∷ []) 2 ≡ 3 }
    ensures dtype { dtype_depth (list_type (bool_type Nullable) NonNullable) ≡ 2 }
    ensures grown { subtree two_chunks 0 ≡ chunks (head_at 0 (chunked_node 3 (1 ∷ 2 ∷ []))) two_leaves }
    ensures second { value two_truths (subtree two_chunks 0) all 2 ≡ Some (truth false) }
    ensures behind { value two_truths (subtree two_chunks 0) all 3 ≡ None }
{}

/// A struct is null where its validity is false. Two fields may lie in one range of the file, and in one segment too,
/// where each has the values of its own dtype. A field that isn't kept is null and not read, and a list that is kept
/// makes the row a fault.
pub fn structs_by_hand()
    ensures validity { worth (5 ∷ []) (at 0 1 ∷ []) null_structs all three_rows ≡ second_is_null }
    ensures validity_is_read { segments_read null_structs all 0 ≡ (directly, 0) ∷ [] }
    ensures one_range { worth (5 ∷ 6 ∷ []) (at 0 2 ∷ at 0 2 ∷ []) one_range all (0 ∷ 1 ∷ []) ≡ twice 5 ∷ twice 6 ∷ [] }
    ensures one_segment { worth (254 ∷ []) (at 0 1 ∷ []) one_segment all (0 ∷ []) ≡ signed_and_unsigned ∷ [] }
    ensures list_left_out { worth list_file (at 0 8 ∷ []) list_field field_a (0 ∷ []) ≡ seven_and_null ∷ [] }
    ensures list_not_read { segments_read list_field field_a 0 ≡ (directly, 0) ∷ [] }
    ensures list_kept { worth list_file (at 0 8 ∷ []) list_field all (0 ∷ []) ≡ None ∷ [] }
{}

/// A null code is null, and any other is the place of a value. Each value is read, and one that is torn makes each
/// row a fault. What the values of a dictionary read is come to through the outermost one.
pub fn dictionaries_by_hand()
    ensures null_codes { worth null_codes no_values_at no_values all three_rows ≡ Some null ∷ Some null ∷ Some null ∷ [] }
    ensures no_values_are_read { segments_read no_values all 0 ≡ (directly, 1) ∷ [] }
    ensures code_of_no_value { worth code_zero no_values_at no_values all three_rows ≡ None ∷ Some null ∷ Some null ∷ [] }
    ensures torn { worth torn_file torn_at torn_value all (0 ∷ 1 ∷ []) ≡ None ∷ None ∷ [] }
    ensures each_value_is_read { segments_read torn_value all 0 ≡ (directly, 2) ∷ (through 0, 0) ∷ (through 0, 1) ∷ [] }
    ensures reached { Finds (IsIn 0) (reads (subtree nested 0) directly all 0) }
    ensures reached_directly { FindsBy directly (IsIn 2) (reads (subtree nested 0) directly all 0) }
    ensures reached_through_values { FindsBy (through 0) (IsIn 1) (reads (subtree nested 0) directly all 0) }
    ensures outermost { segments_read nested all 0 ≡ (directly, 2) ∷ (through 0, 1) ∷ (through 0, 0) ∷ [] }
{}

/// Zones are never read, and chunks follow one another.
pub fn zones_by_hand()
    ensures no_length { worth zoned_file zoned_at (in_zones 0) all three_rows ≡ one_two_three }
    ensures some_length { worth zoned_file zoned_at (in_zones 3) all three_rows ≡ one_two_three }
    ensures not_read { segments_read (in_zones 3) all 2 ≡ (directly, 1) ∷ [] }
{}

/// The fields that an expression gets from the root, in the order of the struct, unless it uses the root bare or
/// not at all.
pub fn kept_by_hand()
    ensures got { kept_fields with_list (get_field (codes "a") root) ≡ only (codes "a" ∷ []) }
    ensures in_order { kept_fields with_list (conjunction (get_field (codes "l") root) (get_field (codes "a") root)) ≡ only (codes "a" ∷ codes "l" ∷ []) }
    ensures bare { kept_fields with_list (conjunction (get_field (codes "a") root) root) ≡ all }
    ensures not_used { kept_fields with_list row_number ≡ all }
{}
