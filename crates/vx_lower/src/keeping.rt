//! What is worked out once of the fields that are kept of the root.

ghost use Rattle.std.specs.Prelude.{◌≡◌, length, map, IfOk};
ghost use Rattle.vx_base.specs.Names.{names_in, HasDistinctNames};
ghost use Rattle.vx_base.specs.Views.{data_type, members_of};
ghost use Rattle.vx_expr.specs.declared.binding.BindError.TheVariants.{Memory};
ghost use Rattle.vx_expr.specs.TermViews.{term, terms_of};
ghost use Rattle.vx_rows.specs.TypeForms.{IsStruct};
ghost use Rattle.vx_layout.specs.Kept.{is_kept, only, KeptFields};
ghost use Rattle.vx_layout.specs.Rows.{struct_members};
ghost use Rattle.vx_lower.specs.KeptRows.{kept_pack, kept_terms, MayKeep};
ghost use Rattle.vx_lower.specs.Keeping.{bound_pack, chosen, kept_of, IsKeeping};

use std::alloc::{AllocError, Global};
use std::sync::Arc;
use vx_base::{DType, Field, Text};
use vx_expr::{BindError, BoundExpression, Expr, bind};
use vx_layout::kept_flags;

/// The fields that are kept of the root: their names, which of its fields they are, the dtype of structs of them,
/// and the expression that packs them.
pub(crate) struct Keeping<'a> {
    pub(crate) names: &'a [Text],
    pub(crate) flags: Vec<bool>,
    pub(crate) dtype: Arc<DType, Global>,
    pub(crate) pack: BoundExpression,
}

impl<'a> Drop for Keeping<'a> {
    fn drop(self) {
        let Keeping {
            names: _,
            flags: _,
            dtype: _,
            pack: _,
        } = self;
    }
}

/// The fields of a struct dtype.
fn fields_of(dtype: &DType) -> &[Field]
    requires { IsStruct (data_type dtype.now) }
    ensures { members_of result.now ≡ struct_members (data_type dtype.now) }
{
    match dtype {
        DType::Struct(fields, _) => fields.items(),
        _ => unreachable!(),
    }
}

/// Those of the fields whose flag is set, by name, each got from the root.
fn kept_items(
    alloc: Global,
    fields: &[Field],
    flags: &[bool],
) -> Result<Vec<(Text, Expr)>, AllocError>
    requires { length flags.now ≡ length fields.now }
    ensures { IfOk result (λ items. (kept : KeptFields) → flags.now ≡ map (is_kept kept) (names_in (members_of fields.now)) → terms_of items.items ≡ kept_terms kept (members_of fields.now)) }
{
    let mut items = Vec::new(alloc);
    for (place, field) in fields.iter().enumerate() {
        if flags[place] {
            let operand = field.name.copy(alloc)?;
            let name = field.name.copy(alloc)?;
            let got = Expr::get_field(alloc, operand, Expr::Root)?;
            items.push((name, got))?;
        }
    }
    Ok(items)
}

/// The error of a binding that can fail for want of memory alone.
fn memory_only(error: BindError) -> AllocError
    requires { error ≡ Memory }
{
    match error {
        BindError::Memory => AllocError,
        _ => unreachable!(),
    }
}

/// The binding of the expression that packs the kept fields.
fn bound(
    alloc: Global,
    expr: &Expr,
    dtype: &DType,
    names: &[Text],
) -> Result<BoundExpression, AllocError>
    requires may { MayKeep (only names.now) (data_type dtype.now) }
    requires distinct { HasDistinctNames (data_type dtype.now) }
    requires pack { term expr.now ≡ kept_pack (only names.now) (data_type dtype.now) }
    ensures { IfOk result (λ pack. pack ≡ bound_pack (only names.now) (data_type dtype.now)) }
{
    match bind(alloc, expr, dtype) {
        Ok(pack) => Ok(pack),
        Err(error) => Err(memory_only(error)),
    }
}

/// The expression that packs those of the fields whose flag is set, bound to their dtype.
fn pack_of(
    alloc: Global,
    dtype: &DType,
    names: &[Text],
    fields: &[Field],
    flags: &[bool],
) -> Result<BoundExpression, AllocError>
    requires may { MayKeep (only names.now) (data_type dtype.now) }
    requires distinct { HasDistinctNames (data_type dtype.now) }
    requires fields { members_of fields.now ≡ struct_members (data_type dtype.now) }
    requires flags { flags.now ≡ map (is_kept (only names.now)) (names_in (members_of fields.now)) }
    ensures { IfOk result (λ pack. pack ≡ bound_pack (only names.now) (data_type dtype.now)) }
{
    let items = kept_items(alloc, fields, flags)?;
    let expr = Expr::pack(items);
    let pack = bound(alloc, &expr, dtype, names);
    drop(expr);
    pack
}

impl<'a> Keeping<'a> {
    /// The fields of these names, of a root of the dtype.
    pub(crate) fn of(
        alloc: Global,
        dtype: &DType,
        names: &'a [Text],
    ) -> Result<Keeping<'a>, AllocError>
        requires may { MayKeep (only names.now) (data_type dtype.now) }
        requires distinct { HasDistinctNames (data_type dtype.now) }
        ensures keeping { IfOk result (IsKeeping (data_type dtype.now)) }
        ensures names { IfOk result (λ keeping. kept_of keeping ≡ only names.now) }
    {
        let fields = fields_of(dtype);
        let flags = kept_flags(alloc, fields, names)?;
        let pack = pack_of(alloc, dtype, names, fields, &flags)?;
        let kept_type = pack.dtype().copy(alloc)?;
        Ok(Keeping {
            names,
            flags,
            dtype: Arc::new(alloc, kept_type)?,
            pack,
        })
    }

    /// Those of the fields' children that are kept.
    pub(crate) fn chosen(&self, alloc: Global, children: &[u32]) -> Result<Vec<u32>, AllocError>
        requires { length children.now ≡ length self.now.flags.items }
        ensures { IfOk result (λ kept. kept.items ≡ chosen self.now.flags.items children.now) }
    {
        let flags = self.flags.as_slice();
        let mut kept = Vec::new(alloc);
        for (place, child) in children.iter().enumerate() {
            if flags[place] {
                kept.push(*child)?;
            }
        }
        Ok(kept)
    }
}
