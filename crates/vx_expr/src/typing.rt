//! Typing: the dtype of an expression over the dtype of its root, form by form.

ghost use Rattle.std.specs.Prelude.{◌≡◌, ◌+◌, ◌++◌, Some, IfOk, OnOk, option_map};
ghost use Rattle.vx_base.specs.Data.{DataType};
ghost use Rattle.vx_base.specs.Views.{data_type};
ghost use Rattle.vx_base.specs.Names.{are_distinct};
ghost use Rattle.vx_expr.specs.Counts.{node_count, nodes_in};
ghost use Rattle.vx_expr.specs.Finds.{own_found, found_of, found_in};
ghost use Rattle.vx_expr.specs.Refusals.{capped, first_part, behind};
ghost use Rattle.vx_expr.specs.Steps.{left_of, part_of};
ghost use Rattle.vx_expr.specs.Terms.{IsPair};
ghost use Rattle.vx_expr.specs.TermViews.{term, terms_of};
ghost use Rattle.vx_expr.specs.Typing.{typed_data, pair_type, GivesOr, GivesType, GivesPair, GivesMembers, GivesPack, GivesJoined, GivesDerived};
ghost use Rattle.vx_expr.specs.Types.{names_in, type_of};

use crate::binding::BindError;
use crate::dtype_rules::{
    arithmetic_typed, bound_test_typed, comparison_typed, literal_typed, logic_typed,
    negation_typed, row_idx_dtype,
};
use crate::expressions::{Expr, NamedExprs, Operand};
use crate::field_typing::{field_typed, place_named};
use crate::found::Found;
use crate::indexed_roots::IndexedRoot;
use std::alloc::{AllocError, Global};
use std::collections::BTreeSet;
use vx_base::{DType, Field, Fields, Nullability, Text};

/// The dtype of an expression, borrowed where it stands in the root's dtype or in a literal.
pub(crate) enum Typed<'a> {
    Borrowed(&'a DType),
    Owned(DType),
}

impl<'a> Drop for Typed<'a> {
    fn drop(self) {
        match self {
            Typed::Borrowed(_) => {}
            Typed::Owned(_) => {}
        }
    }
}

impl<'a> Typed<'a> {
    /// The dtype. It takes no memory.
    pub(crate) fn dtype(&self) -> &DType
        ensures { data_type result.now ≡ typed_data self.now }
    {
        match self {
            Typed::Borrowed(dtype) => dtype,
            Typed::Owned(dtype) => dtype,
        }
    }

    /// The dtype in memory of its own.
    pub(crate) fn into_dtype(self, alloc: Global) -> Result<DType, AllocError>
        ensures { IfOk result (λ dtype. data_type dtype ≡ typed_data self.entry) }
    {
        match self {
            Typed::Borrowed(dtype) => dtype.copy(alloc),
            Typed::Owned(dtype) => Ok(dtype),
        }
    }

    /// The field of that name and this dtype, in memory of its own.
    fn into_field(self, alloc: Global, name: &Text) -> Result<Field, AllocError>
        ensures name { IfOk result (λ field. field.name ≡ name.now) }
        ensures dtype { IfOk result (λ field. data_type field.dtype ≡ typed_data self.entry) }
    {
        let name = name.copy(alloc)?;
        let dtype = self.into_dtype(alloc)?;
        Ok(Field { name, dtype })
    }
}

/// Whether no name stands twice.
fn has_distinct_names(alloc: Global, items: &[(Text, Expr)]) -> Result<bool, AllocError>
    ensures { IfOk result (λ distinct. distinct ≡ are_distinct (names_in (terms_of items.now))) }
{
    let mut seen = BTreeSet::new(alloc);
    for item in items {
        if !seen.insert(item.0.as_str())? {
            return Ok(false);
        }
    }
    Ok(true)
}

/// The number of the next part, which stands still at the end of its type.
fn count(next: &mut u64) -> u64
    ensures place { result ≡ next.old }
    ensures counted { next.new ≡ first_part next.old }
{
    let place = *next;
    *next = place.saturating_add(1);
    place
}

/// The dtype, or a mismatch at the place.
fn given<'a>(dtype: Option<DType>, place: u64) -> Result<Typed<'a>, BindError>
    ensures { GivesOr (option_map data_type dtype) place result }
{
    match dtype {
        Some(dtype) => Ok(Typed::Owned(dtype)),
        None => Err(BindError::TypeMismatch(place)),
    }
}

/// The struct of these fields, where the names of the expressions are distinct.
fn packed<'a>(
    alloc: Global,
    fields: Fields,
    items: &[(Text, Expr)],
    place: u64,
) -> Result<Typed<'a>, BindError>
    ensures { GivesPack (names_in (terms_of items.now)) fields place result }
{
    if has_distinct_names(alloc, items)? {
        Ok(Typed::Owned(DType::Struct(fields, Nullability::NonNullable)))
    } else {
        Err(BindError::TypeMismatch(place))
    }
}

impl NamedExprs {
    /// The fields of the struct of the named expressions, which copies share. `next` is the number of the first of them,
    /// and then of what stands behind them.
    #[cycle(typing)]
    fn fields<'a>(
        &'a self,
        alloc: Global,
        root: &'a IndexedRoot<'_>,
        next: &mut u64,
        found: &mut Vec<Found>,
    ) -> Result<Fields, BindError>
        ensures given { GivesMembers root.now self.now next.old result }
        ensures counted { OnOk result (next.new ≡ capped (next.old + nodes_in self.now)) }
        ensures found { OnOk result (found.new.items ≡ found.old.items ++ found_in root.now self.now) }
    {
        let items = self.items();
        let mut fields = Vec::with_capacity(alloc, items.len())?;
        for item in items {
            let typed = match item.1.typed(alloc, root, next, found) {
                Ok(typed) => typed,
                Err(error) => return Err(error),
            };
            let field = typed.into_field(alloc, &item.0)?;
            fields.push(field)?;
        }
        // Reading the number shows the proof that it is a `u64`.
        let _behind = *next;
        Ok(Fields::from_vec(fields).share(alloc)?)
    }
}

impl Operand {
    /// The dtypes of this operand and of another one behind it.
    #[cycle(typing)]
    fn typed_pair<'a>(
        &'a self,
        alloc: Global,
        right: &'a Operand,
        root: &'a IndexedRoot<'_>,
        next: &mut u64,
        found: &mut Vec<Found>,
    ) -> Result<(Typed<'a>, Typed<'a>), BindError>
        ensures given { GivesPair root.now self.now right.now next.old result }
        ensures counted { OnOk result (next.new ≡ capped (next.old + (node_count self.now + node_count right.now))) }
        ensures found { OnOk result (found.new.items ≡ found.old.items ++ (found_of root.now self.now ++ found_of root.now right.now)) }
    {
        let left = match self.expr().typed(alloc, root, next, found) {
            Ok(left) => left,
            Err(error) => return Err(error),
        };
        let right = match right.expr().typed(alloc, root, next, found) {
            Ok(right) => right,
            Err(error) => return Err(error),
        };
        Ok((left, right))
    }

    /// The dtype of this operand.
    #[cycle(typing)]
    fn typed<'a>(
        &'a self,
        alloc: Global,
        root: &'a IndexedRoot<'_>,
        next: &mut u64,
        found: &mut Vec<Found>,
    ) -> Result<Typed<'a>, BindError>
        ensures given { GivesType root.now self.now next.old result }
        ensures counted { OnOk result (next.new ≡ behind next.old self.now) }
        ensures found { OnOk result (found.new.items ≡ found.old.items ++ found_of root.now self.now) }
    {
        self.expr().typed(alloc, root, next, found)
    }
}

impl Expr {
    /// The dtype of the expression over the root's dtype. `next` is its number, and then of what stands
    /// behind it. What is found of its parts goes behind what was found before.
    #[cycle(typing)]
    pub(crate) fn typed<'a>(
        &'a self,
        alloc: Global,
        root: &'a IndexedRoot<'_>,
        next: &mut u64,
        found: &mut Vec<Found>,
    ) -> Result<Typed<'a>, BindError>
        ensures given { GivesType root.now (term self.now) next.old result }
        ensures counted { OnOk result (next.new ≡ behind next.old (term self.now)) }
        ensures found { OnOk result (found.new.items ≡ found.old.items ++ found_of root.now (term self.now)) }
    {
        let place = count(next);
        match self {
            Expr::Root => Ok(Typed::Borrowed(root.dtype())),
            Expr::RowIdx => Ok(Typed::Owned(row_idx_dtype())),
            Expr::Lit(value, dtype) => match literal_typed(value, dtype) {
                Some(typed) => Ok(typed),
                None => Err(BindError::TypeMismatch(place)),
            },
            Expr::Pack(items) => match items.fields(alloc, root, next, found) {
                Ok(fields) => packed(alloc, fields, items.items(), place),
                Err(error) => Err(error),
            },
            Expr::GetField(_, operand)
            | Expr::Not(operand)
            | Expr::IsNull(operand)
            | Expr::IsNotNull(operand)
            | Expr::AtMostBound(operand) => match operand.typed(alloc, root, next, found) {
                Ok(operand) => self.derived_typed(alloc, &operand, root, place, found),
                Err(error) => Err(error),
            },
            _ => self.parts_typed(alloc, root, place, next, found),
        }
    }

    /// The dtype of the expression of two parts over the root's dtype. `place` is its number, and `next` that of its
    /// first part.
    #[cycle(typing)]
    fn parts_typed<'a>(
        &'a self,
        alloc: Global,
        root: &'a IndexedRoot<'_>,
        place: u64,
        next: &mut u64,
        found: &mut Vec<Found>,
    ) -> Result<Typed<'a>, BindError>
        requires pair { IsPair (term self.now) }
        requires next { next.old ≡ first_part place }
        ensures given { GivesType root.now (term self.now) place result }
        ensures counted { OnOk result (next.new ≡ behind place (term self.now)) }
        ensures found { OnOk result (found.new.items ≡ found.old.items ++ found_of root.now (term self.now)) }
    {
        match self {
            Expr::And(left, right)
            | Expr::Or(left, right)
            | Expr::Compare(_, left, right)
            | Expr::Arith(_, left, right) => match left.typed_pair(
                alloc, right, root, next, found,
            ) {
                Ok((left, right)) => self.pair_typed(left.dtype(), right.dtype(), place, found),
                Err(error) => Err(error),
            },
            _ => unreachable!(),
        }
    }

    /// The dtype of this expression of two parts, by theirs. The kind of the numbers that it joins goes behind what
    /// was found before.
    fn pair_typed<'a>(
        &self,
        left: &DType,
        right: &DType,
        place: u64,
        found: &mut Vec<Found>,
    ) -> Result<Typed<'a>, BindError>
        requires { IsPair (term self.now) }
        ensures given { GivesJoined (term self.now) (data_type left.now) (data_type right.now) place result }
        ensures found { OnOk result ((t : DataType) → type_of t (left_of (term self.now)) ≡ Some (data_type left.now) → found.new.items ≡ found.old.items ++ own_found t (term self.now)) }
    {
        self.find_kind(left, found)?;
        given(self.joined_typed(left, right), place)
    }

    /// The dtype of this expression of two parts, by theirs.
    fn joined_typed(&self, left: &DType, right: &DType) -> Option<DType>
        ensures { option_map data_type result ≡ pair_type (term self.now) (data_type left.now) (data_type right.now) }
    {
        match self {
            Expr::And(_, _) | Expr::Or(_, _) => logic_typed(left, right),
            Expr::Compare(_, _, _) => comparison_typed(left, right),
            Expr::Arith(_, _, _) => arithmetic_typed(left, right),
            _ => None,
        }
    }

    /// Adds the kind of the numbers that this expression joins, by the dtype of its left part.
    fn find_kind(&self, left: &DType, found: &mut Vec<Found>) -> Result<(), AllocError>
        requires { IsPair (term self.now) }
        ensures { OnOk result ((t : DataType) → type_of t (left_of (term self.now)) ≡ Some (data_type left.now) → found.new.items ≡ found.old.items ++ own_found t (term self.now)) }
    {
        if let Expr::Arith(_, _, _) = self {
            let kind = match left {
                DType::Int(kind, _) => Some(*kind),
                _ => None,
            };
            found.push(Found::Kind(kind))?;
        }
        Ok(())
    }

    /// The dtype of this expression of one part, by that part's. The place of the field that it gets goes
    /// behind what was found before.
    fn derived_typed<'a>(
        &self,
        alloc: Global,
        operand: &Typed<'a>,
        root: &IndexedRoot<'_>,
        place: u64,
        found: &mut Vec<Found>,
    ) -> Result<Typed<'a>, BindError>
        requires { type_of root.now (part_of (term self.now)) ≡ Some (typed_data operand.now) }
        ensures given { GivesDerived (term self.now) (typed_data operand.now) place result }
        ensures found { OnOk result (found.new.items ≡ found.old.items ++ own_found root.now (term self.now)) }
    {
        match self {
            Expr::GetField(name, part) => {
                let at = place_named(root, part, operand.dtype(), name);
                found.push(Found::Place(at))?;
                field_typed(alloc, operand, at, name, place)
            }
            Expr::Not(_) => given(negation_typed(operand.dtype()), place),
            Expr::IsNull(_) | Expr::IsNotNull(_) => {
                Ok(Typed::Owned(DType::Bool(Nullability::NonNullable)))
            }
            Expr::AtMostBound(_) => given(bound_test_typed(operand.dtype()), place),
            _ => Err(BindError::TypeMismatch(place)),
        }
    }
}
