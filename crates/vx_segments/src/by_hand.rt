//! Segments that were spelled by hand, on which the definitions of the segment grammar are checked.

ghost use Rattle.std.specs.Prelude.{◌≡◌, ◌∷◌, ◌++◌, [], Some, None, true, false, pos, negsuc};
ghost use Rattle.vx_types.specs.declared.dtypes.IntKind.TheVariants.{I8, I16};
ghost use Rattle.vx_types.specs.declared.dtypes.Nullability.TheVariants.{NonNullable, Nullable};
ghost use Rattle.vx_types.specs.Data.{bool_type, int_type, utf8_type, truth, number, text, null};
ghost use Rattle.vx_segments.specs.Segment.{spelling};
ghost use Rattle.vx_segments.specs.Reading.{decoded};
ghost use Rattle.vx_segments.specs.CodingsRead.{decoded_as};
ghost use Rattle.vx_segments.specs.declared.codings.Coding.TheVariants.{Constant, Runs};

/// Three truth values in one byte: its padding bits are 0, and nothing follows. Texts and numbers with a
/// null: its bit, its slot and its length are 0.
pub fn segments_by_hand()
    ensures truths { decoded (bool_type NonNullable) 3 (5 ∷ []) ≡ Some (truth true ∷ truth false ∷ truth true ∷ []) }
    ensures padding_set { decoded (bool_type NonNullable) 3 (13 ∷ []) ≡ None }
    ensures too_short { decoded (bool_type NonNullable) 3 [] ≡ None }
    ensures too_long { decoded (bool_type NonNullable) 3 (5 ∷ 0 ∷ []) ≡ None }
    ensures texts { decoded (utf8_type Nullable) 3 (5 ∷ 2 ∷ 0 ∷ 0 ∷ 0 ∷ 0 ∷ 0 ∷ 0 ∷ 0 ∷ 0 ∷ 0 ∷ 0 ∷ 0 ∷ 97 ∷ 98 ∷ []) ≡ Some (text (97 ∷ 98 ∷ []) ∷ null ∷ text [] ∷ []) }
    ensures numbers { decoded (int_type I16 Nullable) 2 (1 ∷ 254 ∷ 255 ∷ 0 ∷ 0 ∷ []) ≡ Some (number (negsuc 1) ∷ null ∷ []) }
    ensures null_slot_set { decoded (int_type I16 Nullable) 2 (1 ∷ 254 ∷ 255 ∷ 1 ∷ 0 ∷ []) ≡ None }
    ensures spelt { spelling (int_type I16 Nullable) (number (negsuc 1) ∷ null ∷ []) ≡ Some (1 ∷ 254 ∷ 255 ∷ 0 ∷ 0 ∷ []) }
{}

/// Runs that end at 2 and 3, of the values 5 and 7: three rows. Nothing is spelled where neighbours are the same, where
/// ends do not ascend, where the last end is not the number of rows, where a value is missing, where a byte follows, and
/// where no byte is there; no runs spell no rows alone.
pub fn run_segments_by_hand()
    ensures runs { decoded_as Runs (int_type I8 NonNullable) 3 ((2 ∷ 0 ∷ 0 ∷ 0 ∷ []) ++ (2 ∷ 0 ∷ 0 ∷ 0 ∷ 0 ∷ 0 ∷ 0 ∷ 0 ∷ []) ++ (3 ∷ 0 ∷ 0 ∷ 0 ∷ 0 ∷ 0 ∷ 0 ∷ 0 ∷ []) ++ (5 ∷ 7 ∷ [])) ≡ Some (number (pos 5) ∷ number (pos 5) ∷ number (pos 7) ∷ []) }
    ensures alike { decoded_as Runs (int_type I8 NonNullable) 3 ((2 ∷ 0 ∷ 0 ∷ 0 ∷ []) ++ (2 ∷ 0 ∷ 0 ∷ 0 ∷ 0 ∷ 0 ∷ 0 ∷ 0 ∷ []) ++ (3 ∷ 0 ∷ 0 ∷ 0 ∷ 0 ∷ 0 ∷ 0 ∷ 0 ∷ []) ++ (5 ∷ 5 ∷ [])) ≡ None }
    ensures falling { decoded_as Runs (int_type I8 NonNullable) 3 ((2 ∷ 0 ∷ 0 ∷ 0 ∷ []) ++ (3 ∷ 0 ∷ 0 ∷ 0 ∷ 0 ∷ 0 ∷ 0 ∷ 0 ∷ []) ++ (2 ∷ 0 ∷ 0 ∷ 0 ∷ 0 ∷ 0 ∷ 0 ∷ 0 ∷ []) ++ (5 ∷ 7 ∷ [])) ≡ None }
    ensures ends_early { decoded_as Runs (int_type I8 NonNullable) 4 ((2 ∷ 0 ∷ 0 ∷ 0 ∷ []) ++ (2 ∷ 0 ∷ 0 ∷ 0 ∷ 0 ∷ 0 ∷ 0 ∷ 0 ∷ []) ++ (3 ∷ 0 ∷ 0 ∷ 0 ∷ 0 ∷ 0 ∷ 0 ∷ 0 ∷ []) ++ (5 ∷ 7 ∷ [])) ≡ None }
    ensures value_missing { decoded_as Runs (int_type I8 NonNullable) 3 ((2 ∷ 0 ∷ 0 ∷ 0 ∷ []) ++ (2 ∷ 0 ∷ 0 ∷ 0 ∷ 0 ∷ 0 ∷ 0 ∷ 0 ∷ []) ++ (3 ∷ 0 ∷ 0 ∷ 0 ∷ 0 ∷ 0 ∷ 0 ∷ 0 ∷ []) ++ (5 ∷ [])) ≡ None }
    ensures byte_follows { decoded_as Runs (int_type I8 NonNullable) 1 ((1 ∷ 0 ∷ 0 ∷ 0 ∷ []) ++ (1 ∷ 0 ∷ 0 ∷ 0 ∷ 0 ∷ 0 ∷ 0 ∷ 0 ∷ []) ++ (5 ∷ 0 ∷ [])) ≡ None }
    ensures no_runs { decoded_as Runs (int_type I8 NonNullable) 0 (0 ∷ 0 ∷ 0 ∷ 0 ∷ []) ≡ Some [] }
    ensures no_runs_of_a_row { decoded_as Runs (int_type I8 NonNullable) 1 (0 ∷ 0 ∷ 0 ∷ 0 ∷ []) ≡ None }
    ensures no_count { decoded_as Runs (int_type I8 NonNullable) 0 [] ≡ None }
{}

/// A constant text and a constant null: the plain spelling of one row. No bytes spell no rows alone.
pub fn constant_segments_by_hand()
    ensures texts { decoded_as Constant (utf8_type Nullable) 3 (1 ∷ 2 ∷ 0 ∷ 0 ∷ 0 ∷ 97 ∷ 98 ∷ []) ≡ Some (text (97 ∷ 98 ∷ []) ∷ text (97 ∷ 98 ∷ []) ∷ text (97 ∷ 98 ∷ []) ∷ []) }
    ensures nulls { decoded_as Constant (int_type I8 Nullable) 2 (0 ∷ 0 ∷ []) ≡ Some (null ∷ null ∷ []) }
    ensures nothing { decoded_as Constant (int_type I8 Nullable) 0 [] ≡ Some [] }
    ensures bytes_of_nothing { decoded_as Constant (int_type I8 Nullable) 0 (0 ∷ 0 ∷ []) ≡ None }
    ensures no_bytes { decoded_as Constant (int_type I8 Nullable) 1 [] ≡ None }
    ensures two_spelled { decoded_as Constant (int_type I8 NonNullable) 2 (5 ∷ 5 ∷ []) ≡ None }
{}
