//! The members of an expression, as they are read one after another, and the expression that they tell.

ghost use Rattle.std.specs.Prelude.{◌≡◌, option_map};
ghost use Rattle.vx_base.specs.ValueViews.{datum};
ghost use Rattle.vx_base.specs.Views.{data_type};
ghost use Rattle.vx_expr.specs.TermViews.{term};
ghost use Rattle.scan_json.specs.Singles.{with_single};
ghost use Rattle.scan_request.specs.ExpressionForms.{literal_from as made_literal};
ghost use Rattle.scan_request.specs.ExpressionViews.{joined_told, object_said, told_by};

use vx_base::{DType, Value as Literal};
use vx_expr::Expr;

/// What the members of an expression tell that are no parts of a literal.
#[derive(Drop)]
pub(crate) enum Joined<'a> {
    /// There are none yet.
    Nothing,
    /// All have that name, and the last of them is that expression, if it is one.
    One(&'a str, Option<Expr>),
    /// There are two names.
    Many,
}

/// What the members of an object tell of an expression.
#[derive(Drop)]
pub(crate) struct ObjectMembers<'a> {
    pub(crate) value: Option<Option<Literal>>,
    pub(crate) dtype: Option<Option<DType>>,
    pub(crate) joined: Joined<'a>,
}

/// What they tell with one more member.
pub(crate) fn with_joined<'a>(told: Joined<'a>, name: &'a str, expr: Option<Expr>) -> Joined<'a>
    ensures { joined_told result ≡ with_single name.now (option_map term expr) (joined_told told.entry) }
{
    match told {
        Joined::Nothing => Joined::One(name, expr),
        Joined::One(first, earlier) => {
            drop(earlier);
            if first == name {
                Joined::One(name, expr)
            } else {
                drop(expr);
                Joined::Many
            }
        }
        Joined::Many => {
            drop(expr);
            Joined::Many
        }
    }
}

/// The literal of that value and dtype, where both are there.
fn literal_from(value: Option<Literal>, dtype: Option<DType>) -> Option<Expr>
    ensures { option_map term result ≡ made_literal (option_map datum value) (option_map data_type dtype) }
{
    match (value, dtype) {
        (Some(value), Some(dtype)) => Some(Expr::Lit(value, dtype)),
        _ => None,
    }
}

/// The expression that they tell.
pub(crate) fn expression_told(told: ObjectMembers<'_>) -> Option<Expr>
    ensures { option_map term result ≡ object_said (told_by told.entry) }
{
    let ObjectMembers {
        value,
        dtype,
        joined,
    } = told;
    match (joined, value, dtype) {
        (Joined::One(_, expr), None, None) => expr,
        (Joined::Nothing, Some(value), Some(dtype)) => literal_from(value, dtype),
        _ => None,
    }
}
