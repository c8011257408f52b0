//! Zones by hand, on which the definitions of pruning are checked.

ghost use Rattle.std.specs.Prelude.{◌≡◌, ◌∷◌, [], true, false};
ghost use Rattle.vx_base.specs.ColumnCalls.{natural};
ghost use Rattle.vx_base.specs.Data.{null};
ghost use Rattle.vx_expr.specs.Terms.{root, conjunction, disjunction, comparison, negation, null_test, value_test, bound_test};
ghost use Rattle.vx_operators.specs.declared.operators.CompareOp.TheVariants.{Eq, Ne, Lt, Le, Gt, Ge};
ghost use Rattle.vx_zones.specs.ByHand.{from, of_number, told_nothing, nulls_alone, one_to_nine, nulls_around, eight_nulls, two_least};
ghost use Rattle.vx_zones.specs.Prunes.{is_provable, prunes, pruned_zones};

/// A zone from 4 to 6: what each comparison with a value prunes, and the same with the value on the left. What isn't
/// told proves nothing, and a zone of nulls alone is pruned by all but `is_null`.
pub fn pruning_by_hand()
    ensures equal { prunes 0 (comparison Eq root (of_number 7)) (from 4 6) ≡ true }
    ensures inside { prunes 0 (comparison Eq root (of_number 5)) (from 4 6) ≡ false }
    ensures other { prunes 0 (comparison Ne root (of_number 4)) (from 4 4) ≡ true }
    ensures less { prunes 0 (comparison Lt root (of_number 4)) (from 4 6) ≡ true }
    ensures at_most { prunes 0 (comparison Le root (of_number 4)) (from 4 6) ≡ false }
    ensures greater { prunes 0 (comparison Gt root (of_number 6)) (from 4 6) ≡ true }
    ensures at_least { prunes 0 (comparison Ge root (of_number 6)) (from 4 6) ≡ false }
    ensures mirrored { prunes 0 (comparison Gt (of_number 4) root) (from 4 6) ≡ true }
    ensures bound { prunes 3 (bound_test root) (from 4 6) ≡ true }
    ensures at_bound { prunes 4 (bound_test root) (from 4 6) ≡ false }
    ensures untold { prunes 0 (comparison Eq root (of_number 7)) told_nothing ≡ false }
    ensures nulls { prunes 0 (comparison Eq root (of_number 7)) nulls_alone ≡ true }
    ensures no_value { prunes 0 (value_test root) nulls_alone ≡ true }
    ensures some_null { prunes 0 (null_test root) nulls_alone ≡ false }
    ensures none_null { prunes 0 (null_test root) (from 4 6) ≡ true }
    ensures one_side { is_provable (conjunction (negation root) (value_test root)) ≡ true }
    ensures both_sides { is_provable (disjunction (negation root) (value_test root)) ≡ false }
{}

/// Which zones of a table are pruned: of nine numbers those whose greatest is too small, or whose least is too great;
/// among nulls those that have no value, the last zone with the rows that are left. Of two statistics of one sort the
/// first stands.
pub fn tables_by_hand()
    ensures last_stays { pruned_zones 0 (comparison Gt root (of_number 7)) one_to_nine ≡ true ∷ true ∷ false ∷ [] }
    ensures last_goes { pruned_zones 0 (comparison Le root (of_number 6)) one_to_nine ≡ false ∷ false ∷ true ∷ [] }
    ensures values { pruned_zones 0 (value_test root) nulls_around ≡ true ∷ false ∷ true ∷ [] }
    ensures nulls { pruned_zones 0 (null_test root) nulls_around ≡ false ∷ true ∷ false ∷ [] }
    ensures short_zone { pruned_zones 0 (value_test root) eight_nulls ≡ true ∷ false ∷ true ∷ [] }
    ensures first_stands { pruned_zones 0 (comparison Lt root (of_number 5)) two_least ≡ false ∷ true ∷ [] }
{}
