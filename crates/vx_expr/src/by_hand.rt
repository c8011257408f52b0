//! Expressions that were worked out by hand, on which the definitions are checked.

ghost use Rattle.std.specs.Prelude.{codes, ◌≡◌, ◌∷◌, [], slice_get, Some, None, pos, negsuc, true, false};
ghost use Rattle.vx_base.specs.declared.dtypes.IntKind.TheVariants.{I64};
ghost use Rattle.vx_base.specs.declared.dtypes.Nullability.TheVariants.{Nullable};
ghost use Rattle.vx_base.specs.Data.{int_type, null, truth, number};
ghost use Rattle.vx_expr.specs.declared.binding.BindError.TheVariants.{NoField, TypeMismatch};
ghost use Rattle.vx_expr.specs.ByHand.{pairs, pair, field_a, field_p, ten_by_a, cut, false_and_null, false_and_quotient, not_one, two_unfit, right_unfit, bound_ten_by_a};
ghost use Rattle.vx_expr.specs.Filters.{quantile};
ghost use Rattle.vx_expr.specs.Meaning.{meaning, is_strict};
ghost use Rattle.vx_expr.specs.Mismatches.{parts_in_preorder};
ghost use Rattle.vx_expr.specs.Refusals.{refusal};
ghost use Rattle.vx_expr.specs.Rows.{IsFirstFault, worth};
ghost use Rattle.vx_expr.specs.Terms.{conjunction};
ghost use Rattle.vx_expr.specs.TermText.{term_text};
ghost use Rattle.vx_expr.specs.Types.{type_of};

/// A field of a nullable struct is nullable. Of two parts without a dtype the left one is told; a part is told by its
/// place among all parts, each before its own. Division cuts towards zero; by zero it is a fault, which is apart from
/// null: false and null are false, where false and a fault are a fault. A conjunction is not strict, and it is written
/// in parentheses. Of several faulty rows the first is told. The report at a tenth of eleven is the second.
pub fn expressions_by_hand()
    ensures typed { type_of pairs field_a ≡ Some (int_type I64 Nullable) }
    ensures left_refusal { refusal pairs two_unfit 0 ≡ NoField (codes "A") }
    ensures right_refusal { refusal pairs right_unfit 0 ≡ TypeMismatch 3 }
    ensures right_place { slice_get (parts_in_preorder right_unfit) 3 ≡ Some not_one }
    ensures cut { meaning pairs 0 cut null 0 ≡ Some (number (negsuc 2)) }
    ensures null_beside_false { meaning pairs 0 false_and_null null 0 ≡ Some (truth false) }
    ensures fault_beside_false { meaning pairs 0 false_and_quotient (pair (pos 0)) 0 ≡ None }
    ensures not_strict { is_strict (conjunction field_p field_p) ≡ false }
    ensures printed { term_text (conjunction field_p false_and_null) ≡ codes "($.p and (false and null))" }
    ensures first_fault { IsFirstFault (worth bound_ten_by_a (pair (pos 5) ∷ pair (pos 0) ∷ pair (pos 0) ∷ []) (number (pos 0) ∷ number (pos 1) ∷ number (pos 2) ∷ [])) 1 }
    ensures tenth { quantile (1 ∷ 2 ∷ 3 ∷ 4 ∷ 5 ∷ 6 ∷ 7 ∷ 8 ∷ 9 ∷ 10 ∷ 11 ∷ []) ≡ 2 }
{}
