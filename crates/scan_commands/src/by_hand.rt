//! Statuses and lines that were written by hand, on which the definitions are checked.

ghost use Rattle.std.specs.Prelude.{◌≡◌, ◌∷◌, [], pos, negsuc, codes};
ghost use Rattle.scan_output.specs.RowText.{lines};
ghost use Rattle.vx_base.specs.Data.{int_type, number};
ghost use Rattle.vx_base.specs.declared.dtypes.IntKind.TheVariants.{I64};
ghost use Rattle.vx_base.specs.declared.dtypes.Nullability.TheVariants.{NonNullable};
ghost use Rattle.scan_commands.specs.Statuses.{text_of_status};

/// A status has its text, and each number its line.
pub fn commands_by_hand()
    ensures text { text_of_status 17 ≡ codes "bad segment" }
    ensures no_text { text_of_status 99 ≡ codes "unknown status" }
    ensures two_lines { lines (int_type I64 NonNullable) (number (pos 300) ∷ number (negsuc 0) ∷ []) ≡ 51 ∷ 48 ∷ 48 ∷ 10 ∷ 45 ∷ 49 ∷ 10 ∷ [] }
{}
