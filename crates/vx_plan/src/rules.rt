//! The rules of plans, in the order in which they are tried.

ghost use Rattle.std.specs.Prelude.{◌≡◌, ◌≤◌};
ghost use Rattle.vx_plan.specs.Rules.{rule_number};

/// A rule of plans, by its number from 1 on.
#[derive(Clone, Copy, Debug, PartialEq, Eq)]
pub enum PlanRule {
    /// 1: chunks have the dtype of the concat, field plans those of the fields, a validity holds truth values that are
    /// never null, and a list's offsets whole numbers that are never null.
    ChildTypes,
    /// 2: fields and a validity have the rows of their plan, a list's offsets one more; all rows of chunks together
    /// fit a `u64`.
    ChildRows,
    /// 3: an expression is bound to the dtype of its child.
    BoundExpression,
    /// 4: it doesn't use the row index.
    NoRowIndex,
    /// 5: there is a plan for each field, and a validity exactly where nulls are taken.
    FieldCount,
    /// 6: codes are unsigned whole numbers.
    UnsignedCodes,
    /// 7: a segment has a leaf dtype.
    LeafType,
    /// 8: zones have a length, a field for each statistic, and a row for each zone.
    FittingZones,
}

impl PlanRule {
    /// The rule of that number.
    pub fn of_number(number: u8) -> PlanRule
        requires first { 1 ≤ number }
        requires last { number ≤ 8 }
        ensures { rule_number result ≡ number }
    {
        match number {
            1 => PlanRule::ChildTypes,
            2 => PlanRule::ChildRows,
            3 => PlanRule::BoundExpression,
            4 => PlanRule::NoRowIndex,
            5 => PlanRule::FieldCount,
            6 => PlanRule::UnsignedCodes,
            7 => PlanRule::LeafType,
            _ => PlanRule::FittingZones,
        }
    }
}
