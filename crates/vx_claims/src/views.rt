//! What a seat knows, the rule of the claim word, and the names of its steps.

ghost use Rattle.vx_claims.specs.Rules.{Kept};
ghost use Rattle.vx_claims.specs.Views.{opened, fresh, less_a_part, both, spent, Draws};

use atomic_table::{Join, Play, Split, TableRule};
use std::collections::LinkedList;

/// What a seat knows: the numbers that it claimed, the count of the claims, whether it was told the end, how many of its
/// draws were over the count, and its parts of the 65. No value of it is made.
pub struct View {
    pub claimed: LinkedList<u64>,
    pub count: u64,
    pub told: bool,
    pub over: u64,
    pub parts: u64,
}

/// The rule of the claim word, which begins with one seat.
pub struct ClaimRule;

impl TableRule<(), View, u64> for ClaimRule {
    ghost holds = { Kept };

    ghost first = { opened };
}

/// A seat gives one of its parts to a new seat.
pub struct OnePart;

impl Split<View> for OnePart {
    ghost left = { less_a_part };

    ghost right = { λ view. fresh view.count };
}

/// A seat takes in another, which is spent.
pub struct Both;

impl Join<View> for Both {
    ghost both = { both };

    ghost spent = { spent };
}

/// A seat draws a number below the count, or is told the end.
pub struct Draw;

impl Play<(), View> for Draw {
    ghost then = { λ step old found new. Draws old found new };
}
