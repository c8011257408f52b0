//! Strings and rows whose texts were written by hand, on which the definitions are checked.

ghost use Rattle.std.specs.Prelude.{◌≡◌, ◌∷◌, [], true, false, pos, negsuc, codes};
ghost use Rattle.scan_output.specs.RowText.{escaped, json_string, lines, row_text};
ghost use Rattle.vx_base.specs.Data.{bool_type, int_type, utf8_type, struct_type, no_members, member, null, truth, number, text, structure, no_items, item};
ghost use Rattle.vx_base.specs.declared.dtypes.IntKind.TheVariants.{I64, U64};
ghost use Rattle.vx_base.specs.declared.dtypes.Nullability.TheVariants.{NonNullable, Nullable};

/// Each escape of a string, and what stands as it is: a slash, the byte 127 and those of longer characters.
#[tactic(auto, unfolding(crate::specs::RowText::escaped))]
pub fn strings_by_hand()
    ensures quote { escaped 34 ≡ codes "\\\"" }
    ensures backslash { escaped 92 ≡ codes "\\\\" }
    ensures backspace { escaped 8 ≡ codes "\\b" }
    ensures tab { escaped 9 ≡ codes "\\t" }
    ensures newline { escaped 10 ≡ codes "\\n" }
    ensures form_feed { escaped 12 ≡ codes "\\f" }
    ensures carriage_return { escaped 13 ≡ codes "\\r" }
    ensures zero { escaped 0 ≡ codes "\\u0000" }
    ensures eleven { escaped 11 ≡ codes "\\u000b" }
    ensures last_control { escaped 31 ≡ codes "\\u001f" }
    ensures space { escaped 32 ≡ codes " " }
    ensures delete { escaped 127 ≡ 127 ∷ [] }
    ensures slash { json_string (codes "a/b") ≡ codes "\"a/b\"" }
    ensures longer { json_string (195 ∷ 169 ∷ []) ≡ 34 ∷ 195 ∷ 169 ∷ 34 ∷ [] }
    ensures empty { json_string [] ≡ codes "\"\"" }
    ensures mixed { json_string (codes "say \"\\\n") ≡ codes "\"say \\\"\\\\\\n\"" }
{}

/// Rows of each dtype: nulls, numbers at both ends, structs in structs, structs of no fields.
#[tactic(auto, unfolding(crate::specs::RowText::escaped))]
pub fn rows_by_hand()
    ensures nothing { row_text (utf8_type Nullable) null ≡ codes "null" }
    ensures yes { row_text (bool_type NonNullable) (truth true) ≡ codes "true" }
    ensures no { row_text (bool_type NonNullable) (truth false) ≡ codes "false" }
    ensures greatest { row_text (int_type U64 NonNullable) (number (pos 18446744073709551615)) ≡ codes "18446744073709551615" }
    ensures least { row_text (int_type I64 NonNullable) (number (negsuc 9223372036854775807)) ≡ codes "-9223372036854775808" }
    ensures zero { row_text (int_type I64 NonNullable) (number (pos 0)) ≡ codes "0" }
    ensures words { row_text (utf8_type NonNullable) (text (codes "a \"b\"")) ≡ codes "\"a \\\"b\\\"\"" }
    ensures no_fields { row_text (struct_type no_members NonNullable) (structure no_items) ≡ codes "{}" }
    ensures no_struct { row_text (struct_type (member (codes "a") (bool_type NonNullable) no_members) Nullable) null ≡ codes "null" }
    ensures fields { row_text (struct_type (member (codes "a") (bool_type NonNullable) (member (codes "b") (utf8_type Nullable) no_members)) NonNullable)
        (structure (item (truth true) (item null no_items))) ≡ codes "{\"a\":true,\"b\":null}" }
    ensures nested { row_text (struct_type (member (codes "\"") (struct_type (member (codes "b") (int_type I64 NonNullable) no_members) Nullable)
        (member (codes "c") (struct_type no_members NonNullable) no_members)) NonNullable)
        (structure (item (structure (item (number (negsuc 6)) no_items)) (item (structure no_items) no_items))) ≡ codes "{\"\\\"\":{\"b\":-7},\"c\":{}}" }
    ensures no_lines { lines (bool_type NonNullable) [] ≡ [] }
    ensures two_lines { lines (bool_type Nullable) (truth true ∷ null ∷ []) ≡ codes "true\nnull\n" }
{}
