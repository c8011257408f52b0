//! What an expression looks at: its root value, the row's number, the bound, and which fields of the root.

ghost use Rattle.std.specs.Prelude.{◌≡◌};
ghost use Rattle.vx_expr.specs.Mentions.{mentions, mentions_in};
ghost use Rattle.vx_expr.specs.TermViews.{term};

use crate::expressions::{Expr, NamedExprs};

/// What an expression may look at.
#[derive(Clone, Copy)]
pub(crate) enum Input {
    /// The root value.
    Root,
    /// The row's number.
    RowIdx,
    /// The bound.
    Bound,
}

impl Expr {
    /// Whether the input occurs in the expression.
    #[cycle(mentions)]
    pub(crate) fn mentions(&self, input: Input) -> bool
        ensures { result ≡ mentions input (term self.now) }
    {
        match self {
            Expr::Root => matches!(input, Input::Root),
            Expr::Lit(_, _) => false,
            Expr::RowIdx => matches!(input, Input::RowIdx),
            Expr::AtMostBound(operand) => {
                matches!(input, Input::Bound) || operand.expr().mentions(input)
            }
            Expr::GetField(_, operand)
            | Expr::Not(operand)
            | Expr::IsNull(operand)
            | Expr::IsNotNull(operand) => operand.expr().mentions(input),
            Expr::And(left, right)
            | Expr::Or(left, right)
            | Expr::Compare(_, left, right)
            | Expr::Arith(_, left, right) => {
                left.expr().mentions(input) || right.expr().mentions(input)
            }
            Expr::Pack(items) => items.mentions(input),
        }
    }
}

impl NamedExprs {
    /// Whether the input occurs in one of the expressions.
    #[cycle(mentions)]
    pub(crate) fn mentions(&self, input: Input) -> bool
        ensures { result ≡ mentions_in input self.now }
    {
        for (_, expr) in self.items() {
            if expr.mentions(input) {
                return true;
            }
        }
        false
    }
}

impl Expr {
    ghost use Rattle.vx_expr.specs.Meaning.{is_strict};

    /// Whether the form alone shows that the expression is null or a fault on a null root.
    pub(crate) fn is_strict(&self) -> bool
        ensures { result ≡ is_strict (term self.now) }
    {
        match self {
            Expr::Root => true,
            Expr::GetField(_, operand) | Expr::Not(operand) | Expr::AtMostBound(operand) => {
                operand.expr().is_strict()
            }
            Expr::Compare(_, left, right) | Expr::Arith(_, left, right) => {
                left.expr().is_strict() || right.expr().is_strict()
            }
            _ => false,
        }
    }
}
