//! How deep expressions nest.

ghost use Rattle.std.specs.Prelude.{◌≡◌, ◌≤◌, ◌↔◌, IsTrue};
ghost use Rattle.vx_expr.specs.Counts.{depth, greatest_depth};
ghost use Rattle.vx_expr.specs.TermViews.{term};

use crate::expressions::{Expr, NamedExprs};

impl Expr {
    /// Whether the expression nests at most so many levels deep. It walks no deeper than that.
    #[cycle(depths)]
    pub(crate) fn is_within(&self, levels: u64) -> bool
        ensures { IsTrue result ↔ (depth (term self.now) ≤ levels) }
    {
        if levels == 0 {
            return false;
        }
        let below = levels - 1;
        match self {
            Expr::Root | Expr::Lit(_, _) | Expr::RowIdx => true,
            Expr::GetField(_, operand)
            | Expr::Not(operand)
            | Expr::IsNull(operand)
            | Expr::IsNotNull(operand)
            | Expr::AtMostBound(operand) => operand.expr().is_within(below),
            Expr::And(left, right)
            | Expr::Or(left, right)
            | Expr::Compare(_, left, right)
            | Expr::Arith(_, left, right) => {
                left.expr().is_within(below) && right.expr().is_within(below)
            }
            Expr::Pack(items) => items.are_within(below),
        }
    }
}

impl NamedExprs {
    /// Whether each of the expressions nests at most so many levels deep.
    #[cycle(depths)]
    fn are_within(&self, levels: u64) -> bool
        ensures { IsTrue result ↔ (greatest_depth self.now ≤ levels) }
    {
        for (_, expr) in self.items() {
            if !expr.is_within(levels) {
                return false;
            }
        }
        true
    }
}
