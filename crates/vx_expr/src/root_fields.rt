//! Which fields of the root an expression gets.

ghost use Rattle.std.specs.Prelude.{◌≡◌, ◌++◌, ◌∷◌, [], IfOk, OnOk, Some, option_map};
ghost use Rattle.vx_expr.specs.Mentions.{joined, root_fields, root_fields_in, first_ones};
ghost use Rattle.vx_expr.specs.Types.{on_both};
ghost use Rattle.vx_expr.specs.Collected.{Collects};
ghost use Rattle.vx_expr.specs.TermViews.{term};

use crate::expressions::{Expr, NamedExprs, Operand};
use std::alloc::{AllocError, Global};
use std::collections::BTreeSet;
use vx_base::Text;

impl Expr {
    /// Adds the names of the fields that the expression gets from the root, one for each time. False
    /// where the root occurs bare.
    #[cycle(root_fields)]
    fn collect_fields(&self, alloc: Global, names: &mut Vec<Text>) -> Result<bool, AllocError>
        ensures { IfOk result (λ found. Collects (root_fields (term self.now)) found names.old.items names.new.items) }
    {
        match self {
            Expr::Root => Ok(false),
            Expr::Lit(_, _) | Expr::RowIdx => Ok(true),
            Expr::GetField(name, operand) => operand.collect_field(alloc, name, names),
            Expr::Not(operand)
            | Expr::IsNull(operand)
            | Expr::IsNotNull(operand)
            | Expr::AtMostBound(operand) => operand.expr().collect_fields(alloc, names),
            Expr::And(left, right)
            | Expr::Or(left, right)
            | Expr::Compare(_, left, right)
            | Expr::Arith(_, left, right) => left.collect_pair(alloc, right, names),
            Expr::Pack(items) => items.collect_fields(alloc, names),
        }
    }
}

impl Operand {
    ghost use Rattle.vx_expr.specs.Terms.{get_field};

    /// The same of the field of that name.
    #[cycle(root_fields)]
    fn collect_field(
        &self,
        alloc: Global,
        name: &Text,
        names: &mut Vec<Text>,
    ) -> Result<bool, AllocError>
        ensures { IfOk result (λ found. Collects (root_fields (get_field name.now self.now)) found names.old.items names.new.items) }
    {
        match self.expr() {
            Expr::Root => {
                names.push(name.copy(alloc)?)?;
                Ok(true)
            }
            other => other.collect_fields(alloc, names),
        }
    }

    /// The same of this expression and then another one.
    #[cycle(root_fields)]
    fn collect_pair(
        &self,
        alloc: Global,
        right: &Operand,
        names: &mut Vec<Text>,
    ) -> Result<bool, AllocError>
        ensures { IfOk result (λ found. Collects (on_both joined (root_fields self.now) (root_fields right.now)) found names.old.items names.new.items) }
    {
        if !self.expr().collect_fields(alloc, names)? {
            return Ok(false);
        }
        right.expr().collect_fields(alloc, names)
    }
}

impl NamedExprs {
    /// The same of all named expressions, one after the other.
    #[cycle(root_fields)]
    fn collect_fields(&self, alloc: Global, names: &mut Vec<Text>) -> Result<bool, AllocError>
        ensures { IfOk result (λ found. Collects (root_fields_in self.now) found names.old.items names.new.items) }
    {
        for (_, expr) in self.items() {
            if !expr.collect_fields(alloc, names)? {
                return Ok(false);
            }
        }
        Ok(true)
    }
}

/// Adds the name in memory of its own.
fn push_copy(alloc: Global, name: &Text, names: &mut Vec<Text>) -> Result<(), AllocError>
    ensures { OnOk result (names.new.items ≡ names.old.items ++ (name.now ∷ [])) }
{
    names.push(name.copy(alloc)?)?;
    Ok(())
}

/// Each of the names once, where it comes first.
fn first_of_each(alloc: Global, names: &[Text]) -> Result<Vec<Text>, AllocError>
    ensures { IfOk result (λ firsts. firsts.items ≡ first_ones names.now) }
{
    let mut seen = BTreeSet::new(alloc);
    let mut firsts = Vec::new(alloc);
    for name in names {
        if seen.insert(name.as_str())? {
            push_copy(alloc, name, &mut firsts)?;
        }
    }
    Ok(firsts)
}

/// The names that the expression gets from the root, in the order in which they occur first. None where
/// the root occurs bare.
pub(crate) fn fields_of_root(alloc: Global, expr: &Expr) -> Result<Option<Vec<Text>>, AllocError>
    ensures { IfOk result (λ found. option_map (λ names. names.items) found ≡ option_map first_ones (root_fields (term expr.now))) }
{
    let mut names = Vec::new(alloc);
    if expr.collect_fields(alloc, &mut names)? {
        Ok(Some(first_of_each(alloc, &names)?))
    } else {
        Ok(None)
    }
}
