//! Operators on values and on rows that were worked out by hand, on which the definitions are checked.

ghost use Rattle.std.specs.Prelude.{◌≡◌, ◌∷◌, [], Some, None, pos, negsuc, true, false};
ghost use Rattle.vx_types.specs.declared.dtypes.IntKind.TheVariants.{U8, I8, I64};
ghost use Rattle.vx_types.specs.declared.dtypes.Nullability.TheVariants.{NonNullable};
ghost use Rattle.vx_types.specs.Data.{int_type, no_items, null, truth, number, text, structure};
ghost use Rattle.vx_operators.specs.declared.operators.ArithOp.TheVariants.{Add, Sub, Mul, Div};
ghost use Rattle.vx_operators.specs.declared.operators.CompareOp.TheVariants.{Ne, Lt, Le, Gt, Ge};
ghost use Rattle.vx_operators.specs.Kernels.{exact_inside, of_two};
ghost use Rattle.vx_operators.specs.Operators.{and_of, or_of, negated, comparison_of, null_test_of, value_test_of, arithmetic_of, bound_test_of};
ghost use Rattle.vx_operators.specs.Rows.{along, front};

/// False and null are false, true or null is true, and where the value beside the null leaves it open the result is
/// null; not null is null. A number is no truth value. Null is null, and no value.
pub fn truth_by_hand()
    ensures false_and_null { and_of (truth false) null ≡ Some (truth false) }
    ensures null_and_true { and_of null (truth true) ≡ Some null }
    ensures null_or_true { or_of null (truth true) ≡ Some (truth true) }
    ensures false_or_null { or_of (truth false) null ≡ Some null }
    ensures not_null { negated null ≡ Some null }
    ensures of_number { and_of (truth false) (number (pos 0)) ≡ None }
    ensures is_null { null_test_of null ≡ Some (truth true) }
    ensures is_no_value { value_test_of null ≡ Some (truth false) }
{}

/// The number -2 stands below -1, and -1 below 0. Texts stand by their bytes: the first that differs decides, whatever
/// their lengths are, and a text stands behind its own beginning. False stands below true. A null beside a value is
/// null, and a number beside a text is a fault. A bound is among what is within it.
pub fn comparisons_by_hand()
    ensures negative { comparison_of Lt (number (negsuc 1)) (number (negsuc 0)) ≡ Some (truth true) }
    ensures below_zero { comparison_of Ge (number (negsuc 0)) (number (pos 0)) ≡ Some (truth false) }
    ensures longer { comparison_of Gt (text (98 ∷ [])) (text (97 ∷ 97 ∷ [])) ≡ Some (truth true) }
    ensures beginning { comparison_of Le (text (97 ∷ [])) (text (97 ∷ 0 ∷ [])) ≡ Some (truth true) }
    ensures truths { comparison_of Lt (truth false) (truth true) ≡ Some (truth true) }
    ensures beside_null { comparison_of Ne (number (pos 1)) null ≡ Some null }
    ensures unlike { comparison_of Ne (number (pos 1)) (text []) ≡ None }
    ensures at_bound { bound_test_of 7 (number (pos 7)) ≡ Some (truth true) }
    ensures past_bound { bound_test_of 7 (number (pos 8)) ≡ Some (truth false) }
{}

/// The last number of a kind is inside it, and one past it is a fault, at both ends; a null beside anything is null,
/// whatever the dtype is. Division cuts towards zero; by zero it is a fault, and so is the least number by -1. A row
/// that is not valid holds the blank, even where its numbers would be a fault; the rows before the first fault.
pub fn arithmetic_by_hand()
    ensures last { arithmetic_of Add (Some (int_type U8 NonNullable)) (number (pos 250)) (number (pos 5)) ≡ Some (number (pos 255)) }
    ensures past_last { arithmetic_of Add (Some (int_type U8 NonNullable)) (number (pos 250)) (number (pos 6)) ≡ None }
    ensures below_first { arithmetic_of Sub (Some (int_type U8 NonNullable)) (number (pos 5)) (number (pos 6)) ≡ None }
    ensures first { arithmetic_of Mul (Some (int_type I64 NonNullable)) (number (negsuc 4294967295)) (number (pos 2147483648)) ≡ Some (number (negsuc 9223372036854775807)) }
    ensures beside_null { arithmetic_of Div None (structure no_items) null ≡ Some null }
    ensures cut { exact_inside I8 Div (negsuc 6) (pos 2) ≡ Some (negsuc 2) }
    ensures by_zero { exact_inside I8 Div (pos 5) (pos 0) ≡ None }
    ensures least_by_minus_one { exact_inside I8 Div (negsuc 127) (negsuc 0) ≡ None }
    ensures rows { of_two (exact_inside U8 Sub) (pos 0) (true ∷ false ∷ true ∷ []) (pos 9 ∷ pos 1 ∷ pos 1 ∷ []) (pos 4 ∷ pos 2 ∷ pos 2 ∷ []) ≡ Some (pos 5) ∷ Some (pos 0) ∷ None ∷ [] }
    ensures before_fault { front (along and_of (truth true ∷ truth true ∷ null ∷ []) (null ∷ number (pos 1) ∷ null ∷ [])) ≡ null ∷ [] }
{}
