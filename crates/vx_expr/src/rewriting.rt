//! Expressions built anew: copied, or with other expressions in the place of the root and the row's number.

ghost use Rattle.std.specs.Prelude.{◌≡◌, IfOk};
ghost use Rattle.vx_expr.specs.Rewritten.{root_in, row_number_in, rewritten, rewritten_in};
ghost use Rattle.vx_base.specs.Views.{data_type};
ghost use Rattle.vx_base.specs.ValueViews.{datum};
ghost use Rattle.vx_expr.specs.Steps.{left_of, right_of};
ghost use Rattle.vx_expr.specs.declared.rewriting.Leaves.{Leaves};
ghost use Rattle.vx_expr.specs.Terms.{literal, get_field, root, IsPair};
ghost use Rattle.vx_expr.specs.TermViews.{term};

use crate::expressions::{Expr, NamedExprs, Operand};
use std::alloc::{AllocError, Global};
use vx_base::{DType, Text, Value};

/// What stands in the place of the root and of the row's number.
#[derive(Clone, Copy)]
pub(crate) enum Leaves {
    /// The same.
    Same,
    /// The root in the place of the row's number.
    RowIdxAsRoot,
    /// The field `row_idx` of the root in the place of the row's number, and `child` in that of the root.
    OverRowIdx,
}

/// The field of that name of the root.
fn field_of_root(alloc: Global, name: &str) -> Result<Expr, AllocError>
    ensures { IfOk result (λ expr. term expr ≡ get_field name.now root) }
{
    let name = Text::from_string(String::from_str(alloc, name)?);
    Ok(Expr::GetField(name, Operand::of(alloc, Expr::Root)?))
}

/// What stands in the place of the root.
fn new_root(alloc: Global, leaves: Leaves) -> Result<Expr, AllocError>
    ensures { IfOk result (λ expr. term expr ≡ root_in leaves) }
{
    match leaves {
        Leaves::Same | Leaves::RowIdxAsRoot => Ok(Expr::Root),
        Leaves::OverRowIdx => field_of_root(alloc, "child"),
    }
}

/// What stands in the place of the row's number.
fn new_row_idx(alloc: Global, leaves: Leaves) -> Result<Expr, AllocError>
    ensures { IfOk result (λ expr. term expr ≡ row_number_in leaves) }
{
    match leaves {
        Leaves::Same => Ok(Expr::RowIdx),
        Leaves::RowIdxAsRoot => Ok(Expr::Root),
        Leaves::OverRowIdx => field_of_root(alloc, "row_idx"),
    }
}

/// The literal built anew.
fn literal_anew(alloc: Global, value: &Value, dtype: &DType) -> Result<Expr, AllocError>
    ensures { IfOk result (λ expr. term expr ≡ literal (datum value.now) (data_type dtype.now)) }
{
    Ok(Expr::Lit(value.copy(alloc)?, dtype.copy(alloc)?))
}

/// The field of that name of an operand that was built anew.
fn field_anew(alloc: Global, name: &Text, operand: Operand) -> Result<Expr, AllocError>
    ensures { IfOk result (λ expr. term expr ≡ get_field name.now operand) }
{
    Ok(Expr::GetField(name.copy(alloc)?, operand))
}

impl Operand {
    /// The operand built anew.
    #[cycle(rewriting)]
    fn rewritten(&self, alloc: Global, leaves: Leaves) -> Result<Operand, AllocError>
        ensures { IfOk result (λ operand. operand ≡ rewritten leaves self.now) }
    {
        let expr = self.expr().rewritten(alloc, leaves)?;
        Operand::of(alloc, expr)
    }
}

impl NamedExprs {
    /// The named expressions built anew.
    #[cycle(rewriting)]
    fn rewritten(&self, alloc: Global, leaves: Leaves) -> Result<NamedExprs, AllocError>
        ensures { IfOk result (λ items. items ≡ rewritten_in leaves self.now) }
    {
        let items = self.items();
        let mut built = Vec::with_capacity(alloc, items.len())?;
        for (name, expr) in items {
            let name = name.copy(alloc)?;
            let expr = expr.rewritten(alloc, leaves)?;
            built.push((name, expr))?;
        }
        Ok(NamedExprs::from_vec(built))
    }
}

impl Expr {
    /// The expression built anew.
    #[cycle(rewriting)]
    pub(crate) fn rewritten(&self, alloc: Global, leaves: Leaves) -> Result<Expr, AllocError>
        ensures { IfOk result (λ expr. term expr ≡ rewritten leaves (term self.now)) }
    {
        match self {
            Expr::Root => new_root(alloc, leaves),
            Expr::RowIdx => new_row_idx(alloc, leaves),
            Expr::Lit(value, dtype) => literal_anew(alloc, value, dtype),
            Expr::GetField(name, operand) => {
                field_anew(alloc, name, operand.rewritten(alloc, leaves)?)
            }
            Expr::Pack(items) => items.rewritten(alloc, leaves).map(Expr::Pack),
            Expr::Not(operand) => operand.rewritten(alloc, leaves).map(Expr::Not),
            Expr::IsNull(operand) => operand.rewritten(alloc, leaves).map(Expr::IsNull),
            Expr::IsNotNull(operand) => operand.rewritten(alloc, leaves).map(Expr::IsNotNull),
            Expr::AtMostBound(operand) => operand.rewritten(alloc, leaves).map(Expr::AtMostBound),
            _ => self.rewritten_pair(alloc, leaves),
        }
    }

    /// An expression of two parts built anew.
    #[cycle(rewriting)]
    fn rewritten_pair(&self, alloc: Global, leaves: Leaves) -> Result<Expr, AllocError>
        requires { IsPair (term self.now) }
        ensures { IfOk result (λ expr. term expr ≡ rewritten leaves (term self.now)) }
    {
        match self {
            Expr::And(left, right)
            | Expr::Or(left, right)
            | Expr::Compare(_, left, right)
            | Expr::Arith(_, left, right) => {
                let left = left.rewritten(alloc, leaves)?;
                let right = right.rewritten(alloc, leaves)?;
                Ok(self.over_parts(left, right))
            }
            _ => unreachable!(),
        }
    }

    /// This expression of two parts over two others. Over its own parts built anew it is built anew.
    fn over_parts(&self, left: Operand, right: Operand) -> Expr
        requires { IsPair (term self.now) }
        ensures { (leaves : Leaves) → left ≡ rewritten leaves (left_of (term self.now)) → right ≡ rewritten leaves (right_of (term self.now)) → term result ≡ rewritten leaves (term self.now) }
    {
        match self {
            Expr::And(_, _) => Expr::And(left, right),
            Expr::Or(_, _) => Expr::Or(left, right),
            Expr::Compare(op, _, _) => Expr::Compare(*op, left, right),
            Expr::Arith(op, _, _) => Expr::Arith(*op, left, right),
            _ => unreachable!(),
        }
    }

    /// The same expression in memory of its own.
    pub fn copy(&self, alloc: Global) -> Result<Expr, AllocError>
        ensures { IfOk result (λ copied. term copied ≡ term self.now) }
    {
        self.rewritten(alloc, Leaves::Same)
    }
}
