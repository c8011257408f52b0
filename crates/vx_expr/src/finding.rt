//! The dtype of an expression over the dtype of its root, with the places and kinds that its parts need.

ghost use Rattle.std.specs.Prelude.{IfOk, IsSome};
ghost use Rattle.vx_base.specs.Views.{data_type};
ghost use Rattle.vx_expr.specs.Finds.{GivesFound, IsFound};
ghost use Rattle.vx_expr.specs.TermViews.{term};
ghost use Rattle.vx_expr.specs.Types.{type_of};

use crate::binding::BindError;
use crate::expressions::Expr;
use crate::found::Found;
use crate::indexed_roots::IndexedRoot;
use std::alloc::{AllocError, Global};
use vx_base::DType;

/// The dtype of the expression over the root's dtype, and what is found of its parts.
pub(crate) fn typed_over(
    alloc: Global,
    expr: &Expr,
    root: &DType,
) -> Result<(DType, Vec<Found>), BindError>
    ensures { GivesFound (data_type root.now) (term expr.now) result }
{
    let root = IndexedRoot::new(alloc, root)?;
    let mut next = 0;
    let mut found = Vec::new(alloc);
    let dtype = match expr.typed(alloc, &root, &mut next, &mut found) {
        Ok(typed) => typed.into_dtype(alloc)?,
        Err(error) => return Err(error),
    };
    Ok((dtype, found))
}

/// The same of an expression that has a dtype.
pub(crate) fn found_over(
    alloc: Global,
    expr: &Expr,
    root: &DType,
) -> Result<(DType, Vec<Found>), AllocError>
    requires { IsSome (type_of (data_type root.now) (term expr.now)) }
    ensures { IfOk result (λ made. IsFound (data_type root.now) (term expr.now) (data_type made.0) made.1.items) }
{
    match typed_over(alloc, expr, root) {
        Ok(made) => Ok(made),
        Err(BindError::Memory) => Err(AllocError),
        Err(_) => unreachable!(),
    }
}
