//! Expressions that are bound to the dtype of their root, and so have a dtype.

ghost use Rattle.std.specs.Prelude.{◌≡◌, ◌↔◌, ℕ, Some, false, IfOk, IsSome, IsTrue, option_map};
ghost use Rattle.vx_base.specs.ColumnCalls.{IsBool};
ghost use Rattle.vx_base.specs.Views.{data_type};
ghost use Rattle.vx_expr.specs.Filters.{IsTruth};
ghost use Rattle.vx_expr.specs.Finds.{found_of};
ghost use Rattle.vx_expr.specs.Bound.{IsBoundTo};
ghost use Rattle.vx_expr.specs.Meaning.{is_strict};
ghost use Rattle.vx_expr.specs.Mentions.{is_root, uses_root, uses_row_number, uses_bound, root_fields, first_ones};
ghost use Rattle.vx_expr.specs.Mismatches.{BindGives};
ghost use Rattle.vx_expr.specs.Rewritten.{child_name, with_row_number, row_number_as_root, over_row_number};
ghost use Rattle.vx_expr.specs.Terms.{root};
ghost use Rattle.vx_expr.specs.TermText.{term_text};
ghost use Rattle.vx_expr.specs.TermViews.{term};
ghost use Rattle.vx_expr.specs.Types.{type_of};

use crate::binding::BindError;
use crate::dtype_rules::row_idx_dtype;
use crate::expressions::Expr;
use crate::finding::{found_over, typed_over};
use crate::found::Found;
use crate::mentions::Input;
use crate::rewriting::Leaves;
use crate::root_fields::fields_of_root;
use std::alloc::{AllocError, Global};
use std::marker::Model;
use vx_base::{DType, Field, Fields, Nullability, Text};

/// How deep an expression may nest to be bound.
const DEEPEST: u64 = 64;

/// An expression that is bound to the dtype of its root.
pub struct BoundExpression {
    expr: Expr,
    root: DType,
    dtype: DType,
    /// The places of the fields that it gets and the kinds of the numbers that it joins.
    found: Vec<Found>,
}

impl Drop for BoundExpression {
    fn drop(self) {
        let BoundExpression {
            expr: _,
            root: _,
            dtype: _,
            found: _,
        } = self;
    }
}

impl Model for BoundExpression {
    ghost use Rattle.vx_base.specs.Views.{data_type};
    ghost use Rattle.vx_expr.specs.Bound.{Bound, coded_bound};
    ghost use Rattle.vx_expr.specs.TermViews.{term};
    ghost use Rattle.vx_expr.specs.Finds.{IsFound};

    ghost Value = { Bound };

    ghost coded = { coded_bound };

    ghost view = { λ a. record { term = term a.expr; root = data_type a.root; dtype = data_type a.dtype } };

    ghost invariant = { λ a. IsFound (data_type a.root) (term a.expr) (data_type a.dtype) a.found.items };
}

/// Binds an expression to the dtype of its root: of the dtype that the forms of its parts give, from the
/// leaves upwards. `TooDeep` is tested first; the expression is walked no deeper than 64 levels. The fields of the root are
/// copied once at most, however often the root stands in the expression: its dtype shares them.
pub fn bind(alloc: Global, expr: &Expr, dtype: &DType) -> Result<BoundExpression, BindError>
    ensures { BindGives (data_type dtype.now) (term expr.now) result }
{
    if !expr.is_within(DEEPEST) {
        return Err(BindError::TooDeep);
    }
    let root = dtype.copy(alloc)?;
    let (bound, found) = match typed_over(alloc, expr, &root) {
        Ok(made) => made,
        Err(error) => return Err(error),
    };
    let expr = expr.copy(alloc)?;
    Ok(BoundExpression {
        expr,
        root,
        dtype: bound,
        found,
    })
}

/// A field of that name.
fn field(alloc: Global, name: &str, dtype: DType) -> Result<Field, AllocError>
    ensures name { IfOk result (λ field. field.name ≡ name.now) }
    ensures dtype { IfOk result (λ field. data_type field.dtype ≡ data_type dtype) }
{
    let name = Text::from_string(String::from_str(alloc, name)?);
    Ok(Field { name, dtype })
}

/// Two dtypes in memory of their own.
fn dtype_copies(alloc: Global, one: &DType, other: &DType) -> Result<(DType, DType), AllocError>
    ensures one { IfOk result (λ copies. data_type copies.0 ≡ data_type one.now) }
    ensures other { IfOk result (λ copies. data_type copies.1 ≡ data_type other.now) }
{
    let one = one.copy(alloc)?;
    let other = other.copy(alloc)?;
    Ok((one, other))
}

/// The field of the root value beside a row's number.
fn child_field(alloc: Global, root: &DType) -> Result<Field, AllocError>
    ensures name { IfOk result (λ field. field.name ≡ child_name) }
    ensures dtype { IfOk result (λ field. data_type field.dtype ≡ data_type root.now) }
{
    let dtype = root.copy(alloc)?;
    field(alloc, "child", dtype)
}

/// The struct of a row's number and its root value.
fn with_row_idx(alloc: Global, root: &DType) -> Result<DType, AllocError>
    ensures { IfOk result (λ dtype. data_type dtype ≡ with_row_number (data_type root.now)) }
{
    let row_idx = field(alloc, "row_idx", row_idx_dtype())?;
    let child = child_field(alloc, root)?;
    let fields = Fields::from_vec(vec![in alloc; row_idx, child]?);
    Ok(DType::Struct(fields, Nullability::NonNullable))
}

impl BoundExpression {
    /// The root value itself.
    pub fn new_root(alloc: Global, dtype: DType) -> Result<BoundExpression, AllocError>
        ensures term { IfOk result (λ bound. bound.term ≡ root) }
        ensures root { IfOk result (λ bound. bound.root ≡ data_type dtype) }
        ensures dtype { IfOk result (λ bound. bound.dtype ≡ data_type dtype) }
    {
        let root = dtype.copy(alloc)?;
        Ok(BoundExpression {
            expr: Expr::Root,
            root,
            dtype,
            found: Vec::new(alloc),
        })
    }

    /// The binding of an expression that has a dtype over the root's dtype.
    fn of_parts(alloc: Global, expr: Expr, root: DType) -> Result<BoundExpression, AllocError>
        requires { IsSome (type_of (data_type root) (term expr)) }
        ensures term { IfOk result (λ bound. bound.term ≡ term expr) }
        ensures root { IfOk result (λ bound. bound.root ≡ data_type root) }
        ensures dtype { IfOk result (λ bound. type_of (data_type root) (term expr) ≡ Some bound.dtype) }
    {
        let (dtype, found) = found_over(alloc, &expr, &root)?;
        Ok(BoundExpression {
            expr,
            root,
            dtype,
            found,
        })
    }

    /// The same in memory of its own.
    fn of_typed(alloc: Global, expr: &Expr, root: &DType) -> Result<BoundExpression, AllocError>
        requires { IsSome (type_of (data_type root.now) (term expr.now)) }
        ensures term { IfOk result (λ bound. bound.term ≡ term expr.now) }
        ensures root { IfOk result (λ bound. bound.root ≡ data_type root.now) }
        ensures dtype { IfOk result (λ bound. type_of (data_type root.now) (term expr.now) ≡ Some bound.dtype) }
    {
        let expr = expr.copy(alloc)?;
        let root = root.copy(alloc)?;
        BoundExpression::of_parts(alloc, expr, root)
    }

    /// The binding of an expression that has a dtype of truth values over the root's dtype, in memory of
    /// its own.
    pub(crate) fn of_truth(
        alloc: Global,
        expr: &Expr,
        root: &DType,
    ) -> Result<BoundExpression, AllocError>
        requires { IsTruth (data_type root.now) (term expr.now) }
        ensures term { IfOk result (λ bound. bound.term ≡ term expr.now) }
        ensures root { IfOk result (λ bound. bound.root ≡ data_type root.now) }
        ensures truth { IfOk result (λ bound. IsBool bound.dtype) }
    {
        let bound = BoundExpression::of_typed(alloc, expr, root)?;
        Ok(bound)
    }

    /// The dtype of the expression. It takes no memory.
    pub fn dtype(&self) -> &DType
        ensures dtype { data_type result.now ≡ self.now.dtype }
        // Every bound expression has the dtype that its form gives.
        ensures bound { type_of self.now.root self.now.term ≡ Some self.now.dtype }
    {
        &self.dtype
    }

    /// The expression. It takes no memory.
    pub fn expr(&self) -> &Expr
        ensures { term result.now ≡ self.now.term }
    {
        &self.expr
    }

    /// The dtype of the values that the expression is over. It takes no memory.
    pub fn root_dtype(&self) -> &DType
        ensures { data_type result.now ≡ self.now.root }
    {
        &self.root
    }

    /// What was found of its parts. It takes no memory.
    pub(crate) fn found(&self) -> &[Found]
        ensures { result.now ≡ found_of self.now.root self.now.term }
    {
        self.found.as_slice()
    }

    /// Whether the expression is the root value itself. It takes no memory.
    pub fn is_root(&self) -> bool
        ensures { result ≡ is_root self.now.term }
    {
        matches!(self.expr, Expr::Root)
    }

    /// Whether the expression takes root values of the dtype: any, where the root doesn't occur. It takes
    /// no memory.
    pub fn is_root_bound_to(&self, dtype: &DType) -> bool
        ensures { IsTrue result ↔ IsBoundTo self.now (data_type dtype.now) }
    {
        !self.uses_root() || self.root.same(dtype)
    }

    /// Whether the root value occurs. It takes no memory.
    pub fn uses_root(&self) -> bool
        ensures { result ≡ uses_root self.now.term }
    {
        self.expr.mentions(Input::Root)
    }

    /// Whether the row's number occurs. It takes no memory.
    pub fn uses_row_idx(&self) -> bool
        ensures { result ≡ uses_row_number self.now.term }
    {
        self.expr.mentions(Input::RowIdx)
    }

    /// Whether the bound occurs. It takes no memory.
    pub fn uses_bound(&self) -> bool
        ensures { result ≡ uses_bound self.now.term }
    {
        self.expr.mentions(Input::Bound)
    }

    /// Whether the form alone shows that the expression is null or a fault on a null root. It takes no
    /// memory.
    pub fn is_strict(&self) -> bool
        ensures { result ≡ is_strict self.now.term }
    {
        self.expr.is_strict()
    }

    /// The names of the fields that are got from the root, in the order in which they occur first. None
    /// where the root occurs other than to get a field of it.
    pub fn named_fields(&self, alloc: Global) -> Result<Option<Vec<Text>>, AllocError>
        ensures { IfOk result (λ found. option_map (λ names. names.items) found ≡ option_map first_ones (root_fields self.now.term)) }
    {
        fields_of_root(alloc, &self.expr)
    }

    /// The same expression bound to another root dtype.
    pub fn rebind(&self, alloc: Global, dtype: &DType) -> Result<BoundExpression, BindError>
        ensures { BindGives (data_type dtype.now) self.now.term result }
    {
        bind(alloc, &self.expr, dtype)
    }

    /// The same expression over another root dtype, over which it has the same dtype: its caller knows so, by the law of
    /// kept fields, and a test would need memory for a dtype that is known. It may nest deeper than `bind` allows.
    pub fn with_root(&self, alloc: Global, dtype: &DType) -> Result<BoundExpression, AllocError>
        requires { type_of (data_type dtype.now) self.now.term ≡ Some self.now.dtype }
        ensures { IfOk result (λ bound. bound ≡ record self.now { root = data_type dtype.now }) }
    {
        let bound = BoundExpression::of_typed(alloc, &self.expr, dtype)?;
        Ok(bound)
    }

    /// The expression with the root in the place of the row's number, bound to non-nullable `u64`. Its
    /// dtype stays.
    #[tactic(auto, using(crate::proofs::RewrittenTypes::type_as_root))]
    pub fn row_idx_as_root(&self, alloc: Global) -> Result<BoundExpression, AllocError>
        requires { uses_root self.now.term ≡ false }
        ensures { IfOk result (λ bound. bound ≡ row_number_as_root self.now) }
    {
        let expr = self.expr.rewritten(alloc, Leaves::RowIdxAsRoot)?;
        let bound = BoundExpression::of_parts(alloc, expr, row_idx_dtype())?;
        Ok(bound)
    }

    /// The expression with the field `row_idx` of the root in the place of the row's number and `child` in
    /// that of the root, bound to the struct of these two. Its dtype stays; it may nest one level deeper
    /// than `bind` allows.
    #[tactic(auto, using(crate::proofs::RewrittenTypes::type_over_row))]
    pub fn over_row_idx(&self, alloc: Global) -> Result<BoundExpression, AllocError>
        ensures { IfOk result (λ bound. bound ≡ over_row_number self.now) }
    {
        let expr = self.expr.rewritten(alloc, Leaves::OverRowIdx)?;
        let root = with_row_idx(alloc, &self.root)?;
        let bound = BoundExpression::of_parts(alloc, expr, root)?;
        Ok(bound)
    }

    /// The printed form of the expression. No struct literal is printed: a literal has a leaf dtype.
    pub fn text(&self, alloc: Global) -> Result<Vec<u8>, AllocError>
        ensures { IfOk result (λ text. text.items ≡ term_text self.now.term) }
    {
        let mut out = Vec::new(alloc);
        self.expr.write_text(alloc, &mut out)?;
        Ok(out)
    }

    /// The same expression in memory of its own.
    pub fn copy(&self, alloc: Global) -> Result<BoundExpression, AllocError>
        ensures { IfOk result (λ copied. copied ≡ self.now) }
    {
        let found = self.found.clone()?;
        let expr = self.expr.copy(alloc)?;
        let (root, dtype) = dtype_copies(alloc, &self.root, &self.dtype)?;
        Ok(BoundExpression {
            expr,
            root,
            dtype,
            found,
        })
    }
}
