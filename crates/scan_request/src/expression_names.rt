//! Expressions by their names: those without parts, and how parts are joined to one.

ghost use Rattle.std.specs.Prelude.{◌≡◌, IfOk, map, option_map};
ghost use Rattle.std.specs.Map.{lookup};
ghost use Rattle.std.specs.Str.{bytes_eq};
ghost use Rattle.vx_expr.specs.Terms.{get_field, pack};
ghost use Rattle.vx_expr.specs.TermViews.{term};
ghost use Rattle.scan_request.specs.ExpressionForms.{bare_names, pair_names, terms_from, test_names};
ghost use Rattle.scan_request.specs.ExpressionViews.{joined_by, named_term, tested_by};

use std::alloc::{AllocError, Global};
use vx_base::Text;
use vx_expr::{ArithOp, CompareOp, Expr};

/// The expression without parts of that name.
pub(crate) fn bare_named(name: &str) -> Option<Expr>
    ensures { option_map term result ≡ lookup (bytes_eq name.now) bare_names }
{
    match name {
        "root" => Some(Expr::Root),
        "row_idx" => Some(Expr::RowIdx),
        _ => None,
    }
}

/// How two expressions are joined to one.
#[derive(Clone, Copy)]
pub(crate) enum Join {
    And,
    Or,
    Compare(CompareOp),
    Arith(ArithOp),
}

impl Join {
    pub(crate) fn of_name(name: &str) -> Option<Join>
        ensures { option_map joined_by result ≡ lookup (bytes_eq name.now) pair_names }
    {
        match name {
            "and" => Some(Join::And),
            "or" => Some(Join::Or),
            "eq" => Some(Join::Compare(CompareOp::Eq)),
            "ne" => Some(Join::Compare(CompareOp::Ne)),
            "lt" => Some(Join::Compare(CompareOp::Lt)),
            "le" => Some(Join::Compare(CompareOp::Le)),
            "gt" => Some(Join::Compare(CompareOp::Gt)),
            "ge" => Some(Join::Compare(CompareOp::Ge)),
            "add" => Some(Join::Arith(ArithOp::Add)),
            "sub" => Some(Join::Arith(ArithOp::Sub)),
            "mul" => Some(Join::Arith(ArithOp::Mul)),
            "div" => Some(Join::Arith(ArithOp::Div)),
            _ => None,
        }
    }

    pub(crate) fn join(self, alloc: Global, left: Expr, right: Expr) -> Result<Expr, AllocError>
        ensures { IfOk result (λ expr. term expr ≡ joined_by self (term left) (term right)) }
    {
        match self {
            Join::And => Expr::and(alloc, left, right),
            Join::Or => Expr::or(alloc, left, right),
            Join::Compare(op) => Expr::compare(alloc, op, left, right),
            Join::Arith(op) => Expr::arith(alloc, op, left, right),
        }
    }
}

/// What is asked of one expression.
#[derive(Clone, Copy)]
pub(crate) enum Test {
    Not,
    IsNull,
    IsNotNull,
}

impl Test {
    pub(crate) fn of_name(name: &str) -> Option<Test>
        ensures { option_map tested_by result ≡ lookup (bytes_eq name.now) test_names }
    {
        match name {
            "not" => Some(Test::Not),
            "is_null" => Some(Test::IsNull),
            "is_not_null" => Some(Test::IsNotNull),
            _ => None,
        }
    }

    pub(crate) fn test(self, alloc: Global, operand: Expr) -> Result<Expr, AllocError>
        ensures { IfOk result (λ expr. term expr ≡ tested_by self (term operand)) }
    {
        match self {
            Test::Not => Expr::negation(alloc, operand),
            Test::IsNull => Expr::is_null(alloc, operand),
            Test::IsNotNull => Expr::is_not_null(alloc, operand),
        }
    }
}

/// The test of an operand, where there is one.
pub(crate) fn tested(
    alloc: Global,
    test: Test,
    operand: Option<Expr>,
) -> Result<Option<Expr>, AllocError>
    ensures { IfOk result (λ expr. option_map term expr ≡ option_map (tested_by test) (option_map term operand)) }
{
    match operand {
        Some(operand) => Ok(Some(test.test(alloc, operand)?)),
        None => Ok(None),
    }
}

/// The field of an operand, where there are a name and an operand.
pub(crate) fn field_got(
    alloc: Global,
    part: Option<(Text, Expr)>,
) -> Result<Option<Expr>, AllocError>
    ensures { IfOk result (λ expr. option_map term expr ≡ option_map (λ field. get_field field.0 field.1) (option_map named_term part)) }
{
    match part {
        Some((name, operand)) => Ok(Some(Expr::get_field(alloc, name, operand)?)),
        None => Ok(None),
    }
}

/// The struct of named expressions, where there are any.
#[tactic(auto, using(crate::proofs::ExpressionMembers::pack_of_pairs))]
pub(crate) fn packed(parts: Option<Vec<(Text, Expr)>>) -> Option<Expr>
    ensures { option_map term result ≡ option_map (λ fields. pack (terms_from fields)) (option_map (λ v. map named_term v.items) parts) }
{
    Some(Expr::pack(parts?))
}
