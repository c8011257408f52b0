//! Codes, texts, structs and rows that were worked out by hand, on which the definitions are checked.

ghost use Rattle.std.specs.Prelude.{◌≡◌, ◌∷◌, [], pos, negsuc, true, false};
ghost use Rattle.vx_types.specs.declared.dtypes.IntKind.TheVariants.{I8};
ghost use Rattle.vx_types.specs.declared.dtypes.Nullability.TheVariants.{NonNullable, Nullable};
ghost use Rattle.vx_types.specs.Data.{bool_type, int_type, utf8_type, struct_type, list_type, no_members, member, no_items, item, null, truth, number, text, structure};
ghost use Rattle.vx_arrays.specs.Fields.{field_at};
ghost use Rattle.vx_arrays.specs.LookUps.{code_places};
ghost use Rattle.vx_arrays.specs.ArrayRows.{beside, rows_of};
ghost use Rattle.vx_arrays.specs.Places.{places_in};
ghost use Rattle.vx_arrays.specs.Buffers.{bare, blank_in};
ghost use Rattle.vx_arrays.specs.Texts.{cut, ends_after, moved, start_in};
ghost use Rattle.vx_masks.specs.Rows.{taken};

/// Of three rows that are looked up, the places 0 and 2 are such rows; a null, a number below 0 and a number past
/// the last row have the place past the last one, and so has a number that is not valid. What is taken at the place
/// past the last row is null, and rows are taken in the order in which the places are listed.
pub fn places_by_hand()
    ensures codes { code_places 3 (number (pos 2) ∷ null ∷ number (pos 0) ∷ number (negsuc 0) ∷ number (pos 7) ∷ []) ≡ 2 ∷ 3 ∷ 0 ∷ 3 ∷ 3 ∷ [] }
    ensures numbers { places_in 3 (true ∷ false ∷ true ∷ true ∷ []) (pos 2 ∷ pos 0 ∷ negsuc 0 ∷ pos 7 ∷ []) ≡ 2 ∷ 3 ∷ 3 ∷ 3 ∷ [] }
    ensures taken_rows { taken null (number (pos 5) ∷ number (pos 6) ∷ []) (1 ∷ 2 ∷ 0 ∷ 1 ∷ []) ≡ number (pos 6) ∷ null ∷ number (pos 5) ∷ number (pos 6) ∷ [] }
{}

/// Three texts in one buffer, the second of which is empty: where they end, and what each is; and a text that begins
/// behind the first byte. Of texts that end at 2, 5 and 9 the first begins at 0, and the last where the one before it
/// ends. A text that is moved keeps its length.
pub fn texts_by_hand()
    ensures ends { ends_after 0 (2 ∷ 0 ∷ 1 ∷ []) ≡ 2 ∷ 2 ∷ 3 ∷ [] }
    ensures texts { cut (97 ∷ 98 ∷ 99 ∷ []) 0 (2 ∷ 2 ∷ 3 ∷ []) ≡ (97 ∷ 98 ∷ []) ∷ [] ∷ (99 ∷ []) ∷ [] }
    ensures later { cut (97 ∷ 98 ∷ 99 ∷ []) 1 (3 ∷ []) ≡ (98 ∷ 99 ∷ []) ∷ [] }
    ensures first { start_in (2 ∷ 5 ∷ 9 ∷ []) 0 ≡ 0 }
    ensures last { start_in (2 ∷ 5 ∷ 9 ∷ []) 2 ≡ 5 }
    ensures moved_text { moved 10 4 9 ≡ 15 }
{}

/// What buffers tell of a dtype, and the blank of each. The second item of a struct, the item that it doesn't have, and
/// the field of a null. Arrays beside one another, row by row, in the order of the fields; no arrays have rows too.
/// Values beside rows go as far as the shorter of them.
pub fn structs_by_hand()
    ensures told { bare (struct_type (member (97 ∷ []) (int_type I8 Nullable) (member (98 ∷ []) (list_type (utf8_type Nullable) Nullable) no_members)) Nullable) ≡ struct_type (member [] (int_type I8 NonNullable) (member [] (list_type (bool_type NonNullable) NonNullable) no_members)) NonNullable }
    ensures blank { blank_in (struct_type (member [] (bool_type NonNullable) (member [] (utf8_type NonNullable) no_members)) NonNullable) ≡ structure (item null (item null no_items)) }
    ensures second { field_at 1 (structure (item (truth true) (item (number (negsuc 1)) no_items))) ≡ number (negsuc 1) }
    ensures no_such_item { field_at 2 (structure (item (truth true) (item (number (negsuc 1)) no_items))) ≡ null }
    ensures field_of_null { field_at 0 null ≡ null }
    ensures in_order { rows_of 2 (record { dtype = bool_type NonNullable; values = truth true ∷ null ∷ [] } ∷ record { dtype = utf8_type NonNullable; values = text [] ∷ text (97 ∷ []) ∷ [] } ∷ []) ≡ item (truth true) (item (text []) no_items) ∷ item null (item (text (97 ∷ [])) no_items) ∷ [] }
    ensures no_arrays { rows_of 2 [] ≡ no_items ∷ no_items ∷ [] }
    ensures shorter { beside (truth true ∷ []) (no_items ∷ no_items ∷ []) ≡ item (truth true) no_items ∷ [] }
{}
