//! Which predicates can prune zones.

ghost use Rattle.std.specs.Prelude.{◌≡◌, IfOk, MatchOption, option_map};
ghost use Rattle.vx_base.specs.ColumnCalls.{IsBool};
ghost use Rattle.vx_base.specs.Views.{data_type};
ghost use Rattle.vx_expr.specs.Mentions.{is_root};
ghost use Rattle.vx_expr.specs.TermViews.{term};
ghost use Rattle.vx_operators.specs.ColumnarValues.{scalar_datum};
ghost use Rattle.vx_zones.specs.Prunes.{literal_in, mirrored, root_comparison, is_provable, HasProof};

use std::alloc::{AllocError, Global};
use std::marker::Model;
use vx_base::{DType, IntKind, Value, is_leaf};
use vx_expr::{BoundExpression, CompareOp, Expr};
use vx_operators::Scalar;

/// A predicate that can prune zones.
#[derive(Drop)]
pub struct ZoneProof {
    predicate: BoundExpression,
}

impl Model for ZoneProof {
    ghost use Rattle.vx_expr.specs.Bound.{Bound, coded_bound};
    ghost use Rattle.vx_zones.specs.Prunes.{HasProof};

    ghost Value = { Bound };

    ghost coded = { coded_bound };

    ghost view = { λ a. a.predicate };

    ghost invariant = { λ a. HasProof a.predicate };
}

/// The predicate as a proof that it can prune zones. None where it can't.
pub fn falsify(alloc: Global, predicate: &BoundExpression) -> Result<Option<ZoneProof>, AllocError>
    requires { IsBool predicate.now.dtype }
    ensures { IfOk result (λ found. MatchOption found (¬ HasProof predicate.now) (λ proof. (proof ≡ predicate.now) × HasProof predicate.now)) }
{
    if is_leaf(predicate.root_dtype()) && is_provable(predicate.expr()) {
        let predicate = predicate.copy(alloc)?;
        Ok(Some(ZoneProof { predicate }))
    } else {
        Ok(None)
    }
}

impl ZoneProof {
    /// The predicate. It takes no memory.
    pub fn predicate(&self) -> &BoundExpression
        ensures predicate { result.now ≡ self.now }
        ensures proof { HasProof self.now }
    {
        &self.predicate
    }

    /// The same proof in memory of its own.
    pub fn copy(&self, alloc: Global) -> Result<ZoneProof, AllocError>
        ensures { IfOk result (λ proof. proof ≡ self.now) }
    {
        let predicate = self.predicate.copy(alloc)?;
        Ok(ZoneProof { predicate })
    }
}

/// Whether the expression is the root value itself.
pub(crate) fn is_root(expr: &Expr) -> bool
    ensures { result ≡ is_root (term expr.now) }
{
    matches!(expr, Expr::Root)
}

/// The kind of a dtype's numbers, and some kind where it has none.
fn kind_of(dtype: &DType) -> IntKind {
    match dtype {
        DType::Int(kind, _) => *kind,
        _ => IntKind::I64,
    }
}

/// The value of a literal that is not null. None where it is no such literal.
fn literal_in(expr: &Expr) -> Option<Scalar<'_>>
    ensures { option_map scalar_datum result ≡ literal_in (term expr.now) }
{
    match expr {
        Expr::Lit(value, dtype) => match value {
            Value::Bool(truth) => Some(Scalar::Truth(Some(*truth))),
            Value::Int(number) => Some(Scalar::Number(kind_of(dtype), Some(*number))),
            Value::Text(text) => Some(Scalar::Text(Some(text.as_str()))),
            _ => None,
        },
        _ => None,
    }
}

/// The same comparison from the other side.
fn mirrored(op: CompareOp) -> CompareOp
    ensures { result ≡ mirrored op }
{
    match op {
        CompareOp::Eq => CompareOp::Eq,
        CompareOp::Ne => CompareOp::Ne,
        CompareOp::Lt => CompareOp::Gt,
        CompareOp::Le => CompareOp::Ge,
        CompareOp::Gt => CompareOp::Lt,
        CompareOp::Ge => CompareOp::Le,
    }
}

/// How the root is compared, and with which value. None where the sides are not the bare root and a literal.
pub(crate) fn root_comparison<'a>(
    op: CompareOp,
    left: &'a Expr,
    right: &'a Expr,
) -> Option<(CompareOp, Scalar<'a>)>
    ensures { option_map (λ test. (test.0, scalar_datum test.1)) result ≡ root_comparison op (term left.now) (term right.now) }
{
    if is_root(left) {
        match literal_in(right) {
            Some(value) => Some((op, value)),
            None => None,
        }
    } else if is_root(right) {
        match literal_in(left) {
            Some(value) => Some((mirrored(op), value)),
            None => None,
        }
    } else {
        None
    }
}

/// Whether the predicate has a proof over a root of a leaf dtype.
fn is_provable(expr: &Expr) -> bool
    ensures { result ≡ is_provable (term expr.now) }
{
    match expr {
        Expr::Compare(op, left, right) => root_comparison(*op, left.expr(), right.expr()).is_some(),
        Expr::AtMostBound(operand) | Expr::IsNull(operand) | Expr::IsNotNull(operand) => {
            is_root(operand.expr())
        }
        Expr::And(left, right) => is_provable(left.expr()) || is_provable(right.expr()),
        Expr::Or(left, right) => is_provable(left.expr()) && is_provable(right.expr()),
        _ => false,
    }
}
