//! The zones where what a statistic tells compares so with a value: a whole column at a time where it is packed.

ghost use Rattle.std.specs.Prelude.{◌≡◌, ◌<◌, ◌∷◌, [], length, map, slice_index_or, IfOk, IfSome};
ghost use Rattle.std.specs.Int.{div_ceil};
ghost use Rattle.vx_base.specs.ColumnCalls.{natural};
ghost use Rattle.vx_base.specs.Data.{Datum, null};
ghost use Rattle.vx_base.specs.ValueViews.{datum};
ghost use Rattle.vx_operators.specs.declared.operators.CompareOp.{CompareOp};
ghost use Rattle.vx_operators.specs.declared.operators.CompareOp.TheVariants.{Eq};
ghost use Rattle.vx_operators.specs.ColumnarValues.{scalar_datum};
ghost use Rattle.vx_arrays.specs.Cells.{cell_datum};
ghost use Rattle.vx_zones.specs.Prunes.{tells};
ghost use Rattle.vx_zones.specs.Tellings.{told_values, full_along};

use crate::told::Told;
use std::alloc::{AllocError, Global};
use vx_arrays::{Array, ArrayView};
use vx_base::{Cell, IntKind, Mask, Value};
use vx_operators::{ColumnarValue, CompareOp, Scalar, compare_columnar};

/// Whether a value compares so with another one; null does with none.
fn compares(op: CompareOp, left: Scalar<'_>, right: Scalar<'_>) -> bool
    ensures { result ≡ tells op (scalar_datum left.entry) (scalar_datum right.entry) }
{
    let order = match (left, right) {
        (Scalar::Truth(Some(left)), Scalar::Truth(Some(right))) => left.cmp(&right),
        (Scalar::Number(_, Some(left)), Scalar::Number(_, Some(right))) => left.cmp(&right),
        (Scalar::Text(Some(left)), Scalar::Text(Some(right))) => left.cmp(right),
        _ => return false,
    };
    op.holds(order)
}

/// The value of a cell as a single one, and null in place of a struct, which compares with none either.
fn scalar_of_cell(cell: Cell<'_>) -> Scalar<'_>
    ensures { (op : CompareOp) (c : Datum) → tells op (scalar_datum result) c ≡ tells op (cell_datum cell.entry) c }
{
    match cell {
        Cell::Bool(truth) => Scalar::Truth(Some(truth)),
        Cell::Int(number) => Scalar::Number(IntKind::I64, Some(number)),
        Cell::Text(text) => Scalar::Text(Some(text)),
        Cell::Null => Scalar::Truth(None),
        Cell::Struct(_arrays, _row) => Scalar::Truth(None),
    }
}

/// A value as a single one, and null in place of a struct, which compares with none either.
fn scalar_of_value(value: &Value) -> Scalar<'_>
    ensures { (op : CompareOp) (c : Datum) → tells op (scalar_datum result) c ≡ tells op (datum value.now) c }
{
    match value {
        Value::Bool(truth) => Scalar::Truth(Some(*truth)),
        Value::Int(number) => Scalar::Number(IntKind::I64, Some(*number)),
        Value::Text(text) => Scalar::Text(Some(text.as_str())),
        _ => Scalar::Truth(None),
    }
}

/// A number as a value.
pub(crate) fn natural_of(number: u64) -> Scalar<'static>
    ensures { scalar_datum result ≡ natural number }
{
    Scalar::Number(IntKind::U64, Some(i128::from(number)))
}

/// The zones where what packed statistics tell compares so with a value. None where no operator goes over them as a
/// whole.
fn tells_packed(
    alloc: Global,
    op: CompareOp,
    array: &Array,
    scalar: Scalar<'_>,
) -> Result<Option<Mask>, AllocError>
    ensures { IfOk result (λ found. IfSome found (λ mask. mask ≡ map (λ v. tells op v (scalar_datum scalar.entry)) array.now.values)) }
{
    let rows = array.len();
    let compared = compare_columnar(
        alloc,
        op,
        &ColumnarValue::Lent(array),
        &ColumnarValue::Same(scalar, rows),
    )?;
    match compared {
        Some(made) => {
            if made.len() != rows {
                return Ok(None);
            }
            match made.array_view() {
                ArrayView::Truths(_, truths) => {
                    let mask = truths.copy(alloc)?;
                    Ok(Some(mask))
                }
                _ => Ok(None),
            }
        }
        None => Ok(None),
    }
}

impl Told<'_> {
    /// How many zones there are.
    fn len(&self) -> usize
        ensures { result ≡ length (told_values self.now) }
    {
        match self {
            Told::Packed(array) => array.len(),
            Told::Values(values) => values.len(),
            Told::Nothing(zones) => *zones,
        }
    }

    /// Whether what it tells of a zone compares so with a value.
    fn tells_of(&self, op: CompareOp, zone: usize, scalar: Scalar<'_>) -> bool
        requires { zone < length (told_values self.now) }
        ensures { result ≡ tells op (slice_index_or (told_values self.now) zone null) (scalar_datum scalar.entry) }
    {
        match self {
            Told::Packed(array) => compares(op, scalar_of_cell(array.cell(zone)), scalar),
            Told::Values(values) => compares(op, scalar_of_value(&values[zone]), scalar),
            Told::Nothing(_) => false,
        }
    }

    /// The zones where what it tells compares so with a value, one by one.
    fn tells_each(
        &self,
        alloc: Global,
        op: CompareOp,
        scalar: Scalar<'_>,
    ) -> Result<Mask, AllocError>
        ensures { IfOk result (λ mask. mask ≡ map (λ v. tells op v (scalar_datum scalar.entry)) (told_values self.now)) }
    {
        let zones = self.len();
        let mut bits = Vec::with_capacity(alloc, zones)?;
        for zone in 0..zones {
            bits.push(self.tells_of(op, zone, scalar))?;
        }
        Mask::of(alloc, bits)
    }

    /// The zones where what it tells compares so with a value.
    pub(crate) fn tells(
        &self,
        alloc: Global,
        op: CompareOp,
        scalar: Scalar<'_>,
    ) -> Result<Mask, AllocError>
        ensures { IfOk result (λ mask. mask ≡ map (λ v. tells op v (scalar_datum scalar.entry)) (told_values self.now)) }
    {
        if let Told::Packed(array) = self {
            if let Some(mask) = tells_packed(alloc, op, array, scalar)? {
                return Ok(mask);
            }
        }
        self.tells_each(alloc, op, scalar)
    }

    /// Whether it tells of the last zone that it has so many of the rows that are left.
    fn tells_last(&self, alloc: Global, zone: usize, rows: u64) -> Result<Mask, AllocError>
        requires { zone < length (told_values self.now) }
        ensures { IfOk result (λ mask. mask ≡ tells Eq (slice_index_or (told_values self.now) zone null) (natural rows) ∷ []) }
    {
        let rows = natural_of(rows);
        let is_full = self.tells_of(CompareOp::Eq, zone, rows);
        Mask::of(alloc, vec![in alloc; is_full]?)
    }

    /// The zones of which it tells the number of their rows: each has as many as a zone has, the last one what is left.
    pub(crate) fn tells_rows(
        &self,
        alloc: Global,
        zone_len: u64,
        row_count: u64,
    ) -> Result<Mask, AllocError>
        requires some_rows { 0 < zone_len }
        requires count { length (told_values self.now) ≡ div_ceil row_count zone_len }
        ensures { IfOk result (λ mask. mask ≡ full_along zone_len row_count (told_values self.now)) }
    {
        let zones = self.len();
        if zones == 0 {
            return Mask::new_false(alloc, 0);
        }
        let last = zones - 1;
        let left = row_count - last as u64 * zone_len;
        let rows = natural_of(zone_len);
        let whole = self.tells(alloc, CompareOp::Eq, rows)?;
        let before = whole.slice(alloc, 0..last as u64)?;
        let end = self.tells_last(alloc, last, zone_len.min(left))?;
        let mask = before.append(&end)?;
        Ok(mask)
    }
}
