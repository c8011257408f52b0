//! The fields of the root that an expression gets, in the order of the dtype.

ghost use Rattle.std.specs.Prelude.{◌≡◌, ℕ, List, map, IfOk};
ghost use Rattle.vx_base.specs.Names.{names_in};
ghost use Rattle.vx_base.specs.Views.{data_type, members_of};
ghost use Rattle.vx_expr.specs.Mentions.{root_fields};
ghost use Rattle.vx_layout.specs.Kept.{is_kept, kept_among, kept_data, kept_fields, names_among, only};

use std::alloc::{AllocError, Global};
use std::collections::BTreeSet;
use vx_base::{DType, Field, Nullability, Text};
use vx_expr::BoundExpression;

/// The fields of a struct at the root that are looked at.
#[derive(Debug, Drop)]
pub enum Kept {
    /// All of them, and whatever the root is.
    All,
    /// Those of these names, in the order of the struct.
    Fields(Vec<Text>),
}

/// A set of the names.
fn set_of<'a>(alloc: Global, names: &'a [Text]) -> Result<BTreeSet<&'a str>, AllocError>
    ensures { IfOk result (λ seen. (name : List ℕ) → is_kept (only (map (λ key. key.now) seen.keys)) name
        ≡ is_kept (only names.now) name) }
{
    let mut seen = BTreeSet::new(alloc);
    for name in names {
        seen.insert(name.as_str())?;
    }
    Ok(seen)
}

/// The names of the fields that stand among these names, in the fields' order. Time is n log n.
fn names_among(alloc: Global, fields: &[Field], names: &[Text]) -> Result<Vec<Text>, AllocError>
    ensures { IfOk result (λ kept. kept.items ≡ names_among (members_of fields.now) names.now) }
{
    let seen = set_of(alloc, names)?;
    let mut kept = Vec::new(alloc);
    for field in fields {
        if seen.contains(&field.name.as_str()) {
            kept.push(field.name.copy(alloc)?)?;
        }
    }
    Ok(kept)
}

/// Whether each of the fields is one of these names, one field after another. Time is n log n.
pub fn kept_flags(alloc: Global, fields: &[Field], names: &[Text]) -> Result<Vec<bool>, AllocError>
    ensures { IfOk result (λ flags. flags.items ≡ map (is_kept (only names.now)) (names_in (members_of fields.now))) }
{
    let seen = set_of(alloc, names)?;
    let mut flags = Vec::with_capacity(alloc, fields.len())?;
    for field in fields {
        let kept = seen.contains(&field.name.as_str());
        flags.push(kept)?;
    }
    Ok(flags)
}

/// The fields that the expression gets from a root of these fields, and all where the root occurs bare.
fn fields_got(
    alloc: Global,
    fields: &[Field],
    expression: &BoundExpression,
) -> Result<Kept, AllocError>
    ensures { IfOk result (λ kept. kept_data kept ≡ kept_among (members_of fields.now) (root_fields expression.now.term)) }
{
    match expression.named_fields(alloc)? {
        Some(names) => {
            let kept = names_among(alloc, fields, &names)?;
            Ok(Kept::Fields(kept))
        }
        None => Ok(Kept::All),
    }
}

/// The fields that the expression gets from a root of the dtype, where that is a struct that takes no nulls
/// and the root occurs, but never bare.
pub fn fields_kept(
    alloc: Global,
    dtype: &DType,
    expression: &BoundExpression,
) -> Result<Kept, AllocError>
    ensures { IfOk result (λ kept. kept_data kept ≡ kept_fields (data_type dtype.now) expression.now.term) }
{
    match dtype {
        DType::Struct(fields, Nullability::NonNullable) if expression.uses_root() => {
            fields_got(alloc, fields.items(), expression)
        }
        _ => Ok(Kept::All),
    }
}
