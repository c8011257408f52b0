//! Evaluation of an expression over rows, part by part. Each part is evaluated over all rows before the
//! first fault of the parts before it.

ghost use Rattle.std.specs.Prelude.{◌≡◌, ◌≤◌, List, ◌++◌, length, take, IfOk, OnOk};
ghost use Rattle.vx_base.specs.Data.{DataType};
ghost use Rattle.vx_base.specs.Views.{data_type};
ghost use Rattle.vx_expr.specs.declared.found.Found.{Found};
ghost use Rattle.vx_expr.specs.Finds.{own_found, found_of, found_in, coming, Starts, Passes, MakesOne, MakesTwo};
ghost use Rattle.vx_expr.specs.Rows.{along, front, front_at, items_made};
ghost use Rattle.vx_expr.specs.Steps.{AreRows, evaluated_rows, rows_values, rows_numbers, left_of, right_of, packing_rows};
ghost use Rattle.vx_expr.specs.Terms.{IsDerived, IsPair};
ghost use Rattle.vx_expr.specs.TermViews.{term};

use crate::evaluated::{Evaluated, derived, literal, paired};
use crate::expressions::{Expr, NamedExprs, Operand};
use crate::found::Finds;
use crate::packing::Packing;
use crate::steps::{OneStep, TwoStep};
use std::alloc::{AllocError, Global};
use vx_arrays::Array;
use vx_base::DType;
use vx_operators::ColumnarValue;

/// The rows that an expression is evaluated over.
#[derive(Clone, Copy)]
pub(crate) struct Rows<'a> {
    /// The dtype of the root.
    pub(crate) dtype: &'a DType,
    /// The root's value of each row.
    pub(crate) root: &'a Array,
    /// The number of each row.
    pub(crate) numbers: &'a Array,
    /// How many of the rows count.
    pub(crate) count: usize,
}

impl<'a> Rows<'a> {
    /// The first rows.
    #[tactic(auto, using(crate::proofs::FirstRows::first_values, crate::proofs::FirstRows::first_numbers, crate::proofs::FirstRows::first_are))]
    fn first(self, rows: usize) -> Rows<'a>
        requires rows { AreRows self }
        requires inside { rows ≤ self.count }
        ensures rows { AreRows result }
        ensures dtype { result.dtype.now ≡ self.entry.dtype.now }
        ensures count { result.count ≡ rows }
        ensures values { rows_values result ≡ take rows (rows_values self.entry) }
        ensures numbers { rows_numbers result ≡ take rows (rows_numbers self.entry) }
    {
        Rows {
            dtype: self.dtype,
            root: self.root,
            numbers: self.numbers,
            count: rows,
        }
    }
}

/// The first rows of an array, where they stand as far as these are all.
fn first_rows<'a>(alloc: Global, array: &'a Array, rows: usize) -> Result<Evaluated<'a>, AllocError>
    requires { rows ≤ length array.now.values }
    ensures { IfOk result (λ made. evaluated_rows made ≡ take rows array.now.values) }
{
    let worth = ColumnarValue::Lent(array).first(alloc, rows)?;
    Ok(Evaluated::Packed(worth))
}

impl Expr {
    /// What this expression of one part does with that part's value, which gives what the expression is worth.
    #[tactic(auto, using(crate::proofs::TermRows::field_step))]
    fn one_step(&self, finds: &mut Finds<'_>) -> OneStep
        requires { IsDerived (term self.now) }
        ensures { (t : DataType) (rest : List Found) → coming finds.old ≡ own_found t (term self.now) ++ rest → MakesOne t (term self.now) result × (coming finds.new ≡ rest) }
    {
        match self {
            Expr::GetField(_, _) => OneStep::Field(finds.place()),
            Expr::Not(_) => OneStep::Not,
            Expr::IsNull(_) => OneStep::IsNull,
            Expr::IsNotNull(_) => OneStep::IsNotNull,
            Expr::AtMostBound(_) => OneStep::AtMostBound,
            _ => unreachable!(),
        }
    }

    /// What this expression of two parts does with their values, which gives what the expression is worth.
    #[tactic(auto, using(crate::proofs::TermRows::arith_step))]
    fn two_step(&self, finds: &mut Finds<'_>) -> TwoStep
        requires { IsPair (term self.now) }
        ensures { (t : DataType) (rest : List Found) → coming finds.old ≡ own_found t (term self.now) ++ rest → MakesTwo t (term self.now) result × (coming finds.new ≡ rest) }
    {
        match self {
            Expr::And(_, _) => TwoStep::And,
            Expr::Or(_, _) => TwoStep::Or,
            Expr::Compare(op, _, _) => TwoStep::Compare(*op),
            Expr::Arith(op, _, _) => TwoStep::Arith(*op, finds.kind()),
            _ => unreachable!(),
        }
    }

    /// The values of the expression at the rows before its first fault. `finds` is what was found of it, and
    /// then of what stands behind it.
    #[cycle(evaluation)]
    pub(crate) fn evaluated<'a>(
        &'a self,
        alloc: Global,
        rows: Rows<'a>,
        finds: &mut Finds<'_>,
    ) -> Result<Evaluated<'a>, AllocError>
        requires rows { AreRows rows }
        requires found { Starts (found_of (data_type rows.dtype.now) (term self.now)) (coming finds.old) }
        ensures made { IfOk result (λ made. evaluated_rows made ≡ front_at (data_type rows.entry.dtype.now) (term self.now) (rows_values rows.entry) (rows_numbers rows.entry)) }
        ensures passed { OnOk result (Passes (found_of (data_type rows.entry.dtype.now) (term self.now)) (coming finds.old) (coming finds.new)) }
    {
        match self {
            Expr::Root => first_rows(alloc, rows.root, rows.count),
            Expr::RowIdx => first_rows(alloc, rows.numbers, rows.count),
            Expr::Lit(value, dtype) => literal(alloc, value, dtype, rows.count),
            Expr::Pack(items) => items.rows(alloc, rows, finds)?.structs(alloc),
            Expr::And(left, right)
            | Expr::Or(left, right)
            | Expr::Compare(_, left, right)
            | Expr::Arith(_, left, right) => self.evaluated_pair(alloc, left, right, rows, finds),
            _ => self.evaluated_part(alloc, rows, finds),
        }
    }

    /// The values of this expression of one part at the rows before its first fault.
    #[cycle(evaluation)]
    fn evaluated_part<'a>(
        &'a self,
        alloc: Global,
        rows: Rows<'a>,
        finds: &mut Finds<'_>,
    ) -> Result<Evaluated<'a>, AllocError>
        requires rows { AreRows rows }
        requires derived { IsDerived (term self.now) }
        requires found { Starts (found_of (data_type rows.dtype.now) (term self.now)) (coming finds.old) }
        ensures made { IfOk result (λ made. evaluated_rows made ≡ front_at (data_type rows.entry.dtype.now) (term self.now) (rows_values rows.entry) (rows_numbers rows.entry)) }
        ensures passed { OnOk result (Passes (found_of (data_type rows.entry.dtype.now) (term self.now)) (coming finds.old) (coming finds.new)) }
    {
        match self {
            Expr::GetField(_, operand)
            | Expr::Not(operand)
            | Expr::IsNull(operand)
            | Expr::IsNotNull(operand)
            | Expr::AtMostBound(operand) => {
                let found = operand.expr().evaluated(alloc, rows, finds)?;
                derived(alloc, self.one_step(finds), found)
            }
            _ => unreachable!(),
        }
    }

    /// The values of this expression of two parts at the rows before its first fault.
    #[cycle(evaluation)]
    fn evaluated_pair<'a>(
        &'a self,
        alloc: Global,
        left: &'a Operand,
        right: &'a Operand,
        rows: Rows<'a>,
        finds: &mut Finds<'_>,
    ) -> Result<Evaluated<'a>, AllocError>
        requires rows { AreRows rows }
        requires pair { IsPair (term self.now) }
        requires left { left_of (term self.now) ≡ left.now }
        requires right { right_of (term self.now) ≡ right.now }
        requires found { Starts (found_of (data_type rows.dtype.now) (term self.now)) (coming finds.old) }
        ensures made { IfOk result (λ made. evaluated_rows made ≡ front_at (data_type rows.entry.dtype.now) (term self.now) (rows_values rows.entry) (rows_numbers rows.entry)) }
        ensures passed { OnOk result (Passes (found_of (data_type rows.entry.dtype.now) (term self.now)) (coming finds.old) (coming finds.new)) }
    {
        let lefts = left.expr().evaluated(alloc, rows, finds)?;
        let rights = right
            .expr()
            .evaluated(alloc, rows.first(lefts.len()), finds)?;
        let step = self.two_step(finds);
        paired(alloc, step, lefts, rights)
    }
}

impl NamedExprs {
    /// The values of all named expressions at the rows before the first fault, beside each other.
    #[cycle(evaluation)]
    fn rows<'a>(
        &'a self,
        alloc: Global,
        rows: Rows<'a>,
        finds: &mut Finds<'_>,
    ) -> Result<Packing<'a>, AllocError>
        requires rows { AreRows rows }
        requires found { Starts (found_in (data_type rows.dtype.now) self.now) (coming finds.old) }
        ensures made { IfOk result (λ made. packing_rows made ≡ front (along (items_made (data_type rows.entry.dtype.now) self.now) (rows_values rows.entry) (rows_numbers rows.entry))) }
        ensures passed { OnOk result (Passes (found_in (data_type rows.entry.dtype.now) self.now) (coming finds.old) (coming finds.new)) }
    {
        let items = self.items();
        let mut count = rows.count;
        let mut made = Packing::none(alloc, count, items.len())?;
        for item in items {
            let found = item.1.evaluated(alloc, rows.first(count), finds)?;
            count = found.len();
            made = made.with(alloc, found)?;
        }
        Ok(made)
    }
}
