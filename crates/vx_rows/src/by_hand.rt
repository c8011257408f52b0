//! Derived rows by hand, on which the definitions of what they are worth and read are checked.

ghost use Rattle.std.specs.Prelude.{◌≡◌, ◌+◌, ◌∷◌, [], negsuc, None, Some, false};
ghost use Rattle.vx_base.specs.ColumnCalls.{natural};
ghost use Rattle.vx_base.specs.Data.{item, no_items, null, number, structure, truth};
ghost use Rattle.vx_rows.specs.ByHand.{leaf_row_read, code_read, handed_for, leaf_row, second, two_leaves};
ghost use Rattle.vx_rows.specs.Derivations.{also, concluded, derived, each_row, given, list_row, looked_up, no_more, nothing, packed, read_whole, valid_where};
ghost use Rattle.vx_rows.specs.Given.{with_given};
ghost use Rattle.vx_rows.specs.Reads.{a_list_row, directly, read_by, reads_of, through};
ghost use Rattle.vx_rows.specs.Renumbered.{renumbered};

/// A cell has the value of its row in its segment, which may be null; behind the rows it is a fault, and so it is where
/// the segment has no values. A value is null where its validity is false alone. Fields are packed in their order. Rows
/// that are read with a row don't count, and a row of a list is a fault. What is concluded from rows is a fault where one
/// of them is.
pub fn rows_by_hand()
    ensures own_row { derived two_leaves (leaf_row 0 2) ≡ Some (natural 7) }
    ensures null_cell { derived two_leaves (leaf_row 0 1) ≡ Some null }
    ensures behind { derived two_leaves (leaf_row 0 3) ≡ None }
    ensures no_values { derived two_leaves (leaf_row 2 0) ≡ None }
    ensures not_valid { derived two_leaves (valid_where (leaf_row 0 0) (leaf_row 1 1)) ≡ Some null }
    ensures null_validity { derived two_leaves (valid_where (leaf_row 0 0) (leaf_row 1 2)) ≡ Some (natural 5) }
    ensures fields { derived two_leaves (packed (also (leaf_row 0 0) (also (leaf_row 1 1) no_more))) ≡ Some (structure (item (natural 5) (item (truth false) no_items))) }
    ensures read_beside { derived two_leaves (read_whole 9 2 (leaf_row 0 2) (also (leaf_row 2 0) no_more)) ≡ Some (natural 7) }
    ensures lists { derived two_leaves (list_row 4 0) ≡ None }
    ensures concluded { derived two_leaves (concluded second (also (leaf_row 0 0) (also (leaf_row 0 2) no_more))) ≡ Some (natural 7) }
    ensures faulty_row { derived two_leaves (concluded second (also (leaf_row 2 0) (also (leaf_row 0 2) no_more))) ≡ None }
{}

/// A code is the place of a value, from 0 on. A null code is null, also among no values. A code that is the place of
/// none is a fault, and so is a value that is one, whatever the code. So many rows follow one another.
pub fn codes_by_hand()
    ensures second { derived two_leaves (looked_up 9 0 (given (natural 1)) (also (leaf_row 0 0) (also (leaf_row 0 2) no_more))) ≡ Some (natural 7) }
    ensures behind { derived two_leaves (looked_up 9 0 (given (natural 2)) (also (leaf_row 0 0) (also (leaf_row 0 2) no_more))) ≡ None }
    ensures below { derived two_leaves (looked_up 9 0 (given (number (negsuc 0))) (also (leaf_row 0 0) no_more)) ≡ None }
    ensures null_code { derived two_leaves (looked_up 9 0 (given null) no_more) ≡ Some null }
    ensures faulty_value { derived two_leaves (looked_up 9 0 (given null) (also (leaf_row 2 0) no_more)) ≡ None }
    ensures rows { each_row (leaf_row 0) 1 2 ≡ also (leaf_row 0 1) (also (leaf_row 0 2) no_more) }
{}

/// Fields are read before their validity, and a code before the values, which are come to through the outermost
/// dictionary. A row that is read whole is itself read first. A row of a list is one read, and a value that is given
/// none. What is concluded from rows reads each of them.
pub fn reads_by_hand()
    ensures validity_last { reads_of directly (valid_where (packed (also (leaf_row 0 1) (also (leaf_row 2 1) no_more))) (leaf_row 1 1)) ≡ leaf_row_read directly 0 1 ∷ leaf_row_read directly 2 1 ∷ leaf_row_read directly 1 1 ∷ [] }
    ensures code_first { reads_of directly (looked_up 9 1 (leaf_row 0 1) (also (leaf_row 1 0) (also (leaf_row 1 1) no_more))) ≡ code_read directly 9 1 (leaf_row 0 1) 2 ∷ leaf_row_read directly 0 1 ∷ leaf_row_read (through 9) 1 0 ∷ leaf_row_read (through 9) 1 1 ∷ [] }
    ensures outermost { reads_of directly (looked_up 9 0 (leaf_row 0 0) (also (looked_up 8 0 (leaf_row 1 0) (also (leaf_row 2 0) no_more)) no_more)) ≡ code_read directly 9 0 (leaf_row 0 0) 1 ∷ leaf_row_read directly 0 0 ∷ code_read (through 9) 8 0 (leaf_row 1 0) 1 ∷ leaf_row_read (through 9) 1 0 ∷ leaf_row_read (through 9) 2 0 ∷ [] }
    ensures itself_first { reads_of directly (read_whole 9 1 (leaf_row 0 1) (also (leaf_row 0 0) (also (leaf_row 0 1) no_more))) ≡ leaf_row_read directly 0 1 ∷ leaf_row_read directly 0 0 ∷ leaf_row_read directly 0 1 ∷ [] }
    ensures lists { reads_of directly (list_row 4 2) ≡ read_by directly (a_list_row 4 2) ∷ [] }
    ensures no_read { reads_of directly (given null) ≡ [] }
    ensures concluded { reads_of directly (concluded second (also (leaf_row 0 1) (also (leaf_row 1 0) no_more))) ≡ leaf_row_read directly 0 1 ∷ leaf_row_read directly 1 0 ∷ [] }
{}

/// Values that are handed in stand for those of their dictionary, not of another, and not inside values that are read.
/// A share's row is that of the values that are handed in, which is missing behind them. They stand below what is concluded
/// from rows as well. Renumbering changes the
/// numbers of dictionaries, shares and lists alone.
pub fn handed_values_by_hand()
    ensures dictionary { with_given (handed_for 9 (natural 4 ∷ null ∷ [])) (looked_up 9 1 (leaf_row 0 1) (also (leaf_row 1 0) no_more)) ≡ looked_up 9 1 (leaf_row 0 1) (also (given (natural 4)) (also (given null) no_more)) }
    ensures other { with_given (handed_for 8 (natural 4 ∷ [])) (looked_up 9 1 (leaf_row 0 1) (also (leaf_row 1 0) no_more)) ≡ looked_up 9 1 (leaf_row 0 1) (also (leaf_row 1 0) no_more) }
    ensures inside { with_given (handed_for 8 (natural 4 ∷ [])) (looked_up 9 1 (leaf_row 0 1) (also (read_whole 8 0 (leaf_row 1 0) no_more) no_more)) ≡ looked_up 9 1 (leaf_row 0 1) (also (read_whole 8 0 (leaf_row 1 0) no_more) no_more) }
    ensures share { with_given (handed_for 9 (natural 4 ∷ natural 6 ∷ [])) (read_whole 9 1 (leaf_row 0 1) (also (leaf_row 0 0) no_more)) ≡ given (natural 6) }
    ensures behind { with_given (handed_for 9 (natural 4 ∷ [])) (read_whole 9 1 (leaf_row 0 1) (also (leaf_row 0 0) no_more)) ≡ nothing }
    ensures concluded { with_given (handed_for 9 (natural 4 ∷ [])) (concluded second (also (looked_up 9 1 (leaf_row 0 1) (also (leaf_row 1 0) no_more)) no_more)) ≡ concluded second (also (looked_up 9 1 (leaf_row 0 1) (also (given (natural 4)) no_more)) no_more) }
    ensures numbers { renumbered (λ n. n + 10) (looked_up 9 1 (list_row 4 2) (also (read_whole 3 0 (leaf_row 0 0) no_more) no_more)) ≡ looked_up 19 1 (list_row 14 2) (also (read_whole 13 0 (leaf_row 0 0) no_more) no_more) }
{}
