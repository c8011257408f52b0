//! Short constructors of expressions, which put each part into memory of its own.

ghost use Rattle.std.specs.Prelude.{◌≡◌, IfOk};
ghost use Rattle.vx_expr.specs.Terms.{get_field, pack, negation, conjunction, disjunction, comparison, null_test, value_test, arithmetic, bound_test};
ghost use Rattle.vx_expr.specs.TermViews.{term, terms_of};

use crate::expressions::{Expr, NamedExprs, Operand};
use std::alloc::{AllocError, Global};
use vx_base::Text;
use vx_operators::{ArithOp, CompareOp};

/// Two parts, each in memory of its own.
fn operands(alloc: Global, left: Expr, right: Expr) -> Result<(Operand, Operand), AllocError>
    ensures left { IfOk result (λ parts. parts.0 ≡ term left) }
    ensures right { IfOk result (λ parts. parts.1 ≡ term right) }
{
    let left = Operand::of(alloc, left);
    let right = Operand::of(alloc, right)?;
    Ok((left?, right))
}

impl Expr {
    /// The field of that name of a struct.
    pub fn get_field(alloc: Global, name: Text, operand: Expr) -> Result<Expr, AllocError>
        ensures { IfOk result (λ expr. term expr ≡ get_field name (term operand)) }
    {
        Ok(Expr::GetField(name, Operand::of(alloc, operand)?))
    }

    /// The struct of named expressions, in their order. It takes no memory.
    pub fn pack(items: Vec<(Text, Expr)>) -> Expr
        ensures { term result ≡ pack (terms_of items.items) }
    {
        Expr::Pack(NamedExprs::from_vec(items))
    }

    /// The opposite truth value.
    pub fn negation(alloc: Global, operand: Expr) -> Result<Expr, AllocError>
        ensures { IfOk result (λ expr. term expr ≡ negation (term operand)) }
    {
        Ok(Expr::Not(Operand::of(alloc, operand)?))
    }

    /// Whether both are true.
    pub fn and(alloc: Global, left: Expr, right: Expr) -> Result<Expr, AllocError>
        ensures { IfOk result (λ expr. term expr ≡ conjunction (term left) (term right)) }
    {
        let (left, right) = operands(alloc, left, right)?;
        Ok(Expr::And(left, right))
    }

    /// Whether one is true.
    pub fn or(alloc: Global, left: Expr, right: Expr) -> Result<Expr, AllocError>
        ensures { IfOk result (λ expr. term expr ≡ disjunction (term left) (term right)) }
    {
        let (left, right) = operands(alloc, left, right)?;
        Ok(Expr::Or(left, right))
    }

    /// How two values compare.
    pub fn compare(
        alloc: Global,
        op: CompareOp,
        left: Expr,
        right: Expr,
    ) -> Result<Expr, AllocError>
        ensures { IfOk result (λ expr. term expr ≡ comparison op (term left) (term right)) }
    {
        let (left, right) = operands(alloc, left, right)?;
        Ok(Expr::Compare(op, left, right))
    }

    /// Whether there is no value.
    pub fn is_null(alloc: Global, operand: Expr) -> Result<Expr, AllocError>
        ensures { IfOk result (λ expr. term expr ≡ null_test (term operand)) }
    {
        Ok(Expr::IsNull(Operand::of(alloc, operand)?))
    }

    /// Whether there is a value.
    pub fn is_not_null(alloc: Global, operand: Expr) -> Result<Expr, AllocError>
        ensures { IfOk result (λ expr. term expr ≡ value_test (term operand)) }
    {
        Ok(Expr::IsNotNull(Operand::of(alloc, operand)?))
    }

    /// Two numbers joined to one.
    pub fn arith(alloc: Global, op: ArithOp, left: Expr, right: Expr) -> Result<Expr, AllocError>
        ensures { IfOk result (λ expr. term expr ≡ arithmetic op (term left) (term right)) }
    {
        let (left, right) = operands(alloc, left, right)?;
        Ok(Expr::Arith(op, left, right))
    }

    /// Whether a number is at most the bound.
    pub fn at_most_bound(alloc: Global, operand: Expr) -> Result<Expr, AllocError>
        ensures { IfOk result (λ expr. term expr ≡ bound_test (term operand)) }
    {
        Ok(Expr::AtMostBound(Operand::of(alloc, operand)?))
    }
}
