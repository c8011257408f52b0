//! What holds of the chunks that all workers claimed together.

ghost use Rattle.vx_claims.specs.Apart.{ApartWeighAtMost};
ghost use Rattle.vx_claims.specs.Claims.{ClosedAreApart, ClosedAreWhole};

/// Workers' lists that make up the list of the seat with which claims were closed have no chunk twice, and none that
/// isn't below the count; they have each chunk where that seat had all parts and was told the end.
pub fn closed_claims_are_apart()
    ensures apart { ClosedAreApart }
    ensures whole { ClosedAreWhole }
{}

/// Where lists of numbers are apart for a bound, all their numbers weigh together at most as much as all numbers below
/// the bound, whatever each number weighs.
pub fn claims_weigh_at_most()
    ensures { ApartWeighAtMost }
{}
