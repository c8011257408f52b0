//! The limits of the code are the numbers that are promised.

ghost use Rattle.std.specs.Prelude.{◌≡◌};
ghost use Rattle.vx_layout.specs.declared.number_rules.TheConstants.{MOST_CODED_ROWS, MOST_LEVELS, MOST_ROWS};
ghost use Rattle.vx_layout.specs.Shape.{most_coded_rows, most_levels, most_rows};

/// Each limit of the code is the number of that meaning.
pub fn limits_are_promised()
    ensures rows { MOST_ROWS ≡ most_rows }
    ensures coded_rows { MOST_CODED_ROWS ≡ most_coded_rows }
    ensures levels { MOST_LEVELS ≡ most_levels }
{}
