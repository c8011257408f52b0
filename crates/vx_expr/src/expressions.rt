//! Expressions: what a projection or a filter computes of a row.

ghost use Rattle.std.specs.Prelude.{◌≡◌, IfOk};
ghost use Rattle.vx_base.specs.Views.{data_type};
ghost use Rattle.vx_base.specs.ValueViews.{datum};
ghost use Rattle.vx_expr.specs.Terms.{negation, conjunction, disjunction, comparison, null_test, value_test, arithmetic, bound_test, get_field};
ghost use Rattle.vx_expr.specs.TermViews.{term, terms_of};

use std::alloc::{AllocError, Global};
use std::marker::Model;
use vx_base::{DType, Text, Value};
use vx_operators::{ArithOp, CompareOp};

/// What is computed of a row: of its root value, its number and a bound.
#[cycle(expressions)]
pub enum Expr {
    /// The root value itself.
    Root,
    /// A value of a leaf dtype.
    Lit(Value, DType),
    /// The field of that name of a struct.
    GetField(Text, Operand),
    /// The struct of named values.
    Pack(NamedExprs),
    /// The opposite truth value.
    Not(Operand),
    /// Whether both are true.
    And(Operand, Operand),
    /// Whether one is true.
    Or(Operand, Operand),
    /// How two values compare.
    Compare(CompareOp, Operand, Operand),
    /// Whether there is no value.
    IsNull(Operand),
    /// Whether there is a value.
    IsNotNull(Operand),
    /// Two numbers joined to one.
    Arith(ArithOp, Operand, Operand),
    /// The number of the row.
    RowIdx,
    /// Whether a number is at most the bound.
    AtMostBound(Operand),
}

impl Drop for Expr {
    #[cycle(expressions_let_go)]
    fn drop(self) {
        match self {
            Expr::Root | Expr::RowIdx => {}
            Expr::Lit(_value, _dtype) => {}
            Expr::GetField(_name, _operand) => {}
            Expr::Pack(_items) => {}
            Expr::Not(_operand)
            | Expr::IsNull(_operand)
            | Expr::IsNotNull(_operand)
            | Expr::AtMostBound(_operand) => {}
            Expr::And(_left, _right)
            | Expr::Or(_left, _right)
            | Expr::Compare(_, _left, _right)
            | Expr::Arith(_, _left, _right) => {}
        }
    }
}

/// An expression inside another one, seen as that expression.
#[cycle(expressions)]
#[derive(Drop)]
pub struct Operand {
    expr: Box<Expr>,
}

impl Model for Operand {
    ghost use Rattle.vx_expr.specs.Terms.{Term};
    ghost use Rattle.vx_expr.specs.Codes.{coded_term};
    ghost use Rattle.vx_expr.specs.Counts.{node_count};

    ghost Value = { Term };

    ghost coded = { coded_term };

    ghost use Rattle.vx_expr.specs.TermViews.{term};

    ghost view = { λ a. term a.expr.value };

    ghost size = { node_count };

    ghost use Rattle.std.proofs.Common.{arith};
    ghost use Rattle.vx_expr.specs.Falls.{deep_le_count};

    ghost size_decreases = { λ a h. omega (arith, deep_le_count a.expr.value) };
}

/// Expressions with their names, in order.
#[cycle(expressions)]
#[derive(Drop)]
pub struct NamedExprs {
    items: Vec<(Text, Expr)>,
}

impl Model for NamedExprs {
    ghost use Rattle.vx_expr.specs.Terms.{Terms};
    ghost use Rattle.vx_expr.specs.Codes.{coded_terms};
    ghost use Rattle.vx_expr.specs.Counts.{nodes_in};

    ghost Value = { Terms };

    ghost coded = { coded_terms };

    ghost use Rattle.vx_expr.specs.TermViews.{terms_of};

    ghost view = { λ a. terms_of a.items.items };

    ghost size = { nodes_in };

    ghost use Rattle.std.proofs.Common.{arith};
    ghost use Rattle.vx_expr.specs.Falls.{most_le_nodes};

    ghost size_decreases = { λ a h. omega (arith, most_le_nodes a.items) };
}

impl NamedExprs {
    /// Named expressions in the order of the list. It takes no memory.
    pub fn from_vec(items: Vec<(Text, Expr)>) -> NamedExprs
        ensures { result ≡ terms_of items.items }
    {
        NamedExprs { items }
    }

    /// The named expressions, in order. It takes no memory.
    pub fn items(&self) -> &[(Text, Expr)]
        ensures { terms_of result.now ≡ self.now }
    {
        self.items.as_slice()
    }
}

impl Operand {
    /// The expression as a part of another one.
    pub fn of(alloc: Global, expr: Expr) -> Result<Operand, AllocError>
        ensures { IfOk result (λ operand. operand ≡ term expr) }
    {
        let expr = Box::new(alloc, expr)?;
        Ok(Operand { expr })
    }

    /// The expression. It takes no memory.
    pub fn expr(&self) -> &Expr
        ensures { term result.now ≡ self.now }
    {
        &self.expr
    }
}
