//! Structs of the values of several expressions: their columnar values beside each other as long as each of them is
//! held as a whole, and otherwise the values of each row one behind the other.

ghost use Rattle.std.specs.Prelude.{◌≡◌, ◌++◌, ◌∷◌, [], map, length, replicate, IfOk, OnOk};
ghost use Rattle.vx_operators.specs.ColumnarValues.{columnar_rows};
ghost use Rattle.vx_expr.specs.Packs.{rows_along, struct_row};
ghost use Rattle.vx_expr.specs.Rows.{along};
ghost use Rattle.vx_expr.specs.Steps.{appended, row_value_datum, evaluated_rows, packing_rows, row_data};

use crate::evaluated::{Evaluated, columnar_row_values};
use crate::row_values::RowValue;
use std::alloc::{AllocError, Global};
use std::collections::VecDeque;
use vx_base::{Value, Values};
use vx_operators::ColumnarValue;

/// The values of several expressions, so far.
pub(crate) enum Packing<'a> {
    /// A columnar value for each expression, as far as each of them has rows, and so many rows at most.
    ColumnarValues(usize, Vec<ColumnarValue<'a>>),
    /// The values of each row.
    Rows(VecDeque<Vec<Value>>),
}

impl<'a> Drop for Packing<'a> {
    fn drop(self) {
        match self {
            Packing::ColumnarValues(_, _) => {}
            Packing::Rows(_) => {}
        }
    }
}

/// How many rows each of the columnar values has, and so many at most.
pub(crate) fn fewest_rows(rows: usize, columnar_values: &[ColumnarValue<'_>]) -> usize
    ensures { result ≡ length (rows_along rows (map columnar_rows columnar_values.now)) }
{
    let mut fewest = rows;
    for columnar in columnar_values {
        let found = columnar.len();
        if found < fewest {
            fewest = found;
        }
    }
    fewest
}

/// So many rows without values, with room for that many each.
fn empty_rows(alloc: Global, rows: usize, width: usize) -> Result<VecDeque<Vec<Value>>, AllocError>
    ensures { IfOk result (λ made. map row_data made.items ≡ replicate rows []) }
{
    let mut made = VecDeque::with_capacity(alloc, rows)?;
    for _row in 0..rows {
        made.push_back(Vec::with_capacity(alloc, width)?)?;
    }
    Ok(made)
}

/// The rows with one value more each, as far as there are values.
fn longer_rows(
    alloc: Global,
    mut rows: VecDeque<Vec<Value>>,
    row_values: Vec<RowValue<'_>>,
) -> Result<VecDeque<Vec<Value>>, AllocError>
    ensures { IfOk result (λ longer. map row_data longer.items ≡ along appended (map row_data rows.items) (map row_value_datum row_values.entry.items)) }
{
    let mut longer = VecDeque::with_capacity(alloc, row_values.len())?;
    for cell in row_values {
        match rows.pop_front() {
            Some(row) => push_longer(alloc, row, cell, &mut longer)?,
            None => return Ok(longer),
        }
    }
    Ok(longer)
}

/// Adds the row with one value more.
fn push_longer(
    alloc: Global,
    mut row: Vec<Value>,
    cell: RowValue<'_>,
    longer: &mut VecDeque<Vec<Value>>,
) -> Result<(), AllocError>
    ensures { OnOk result (map row_data longer.new.items ≡ map row_data longer.old.items ++ (appended (row_data row) (row_value_datum cell.entry) ∷ [])) }
{
    row.push(cell.into_value(alloc)?)?;
    longer.push_back(row)?;
    Ok(())
}

/// The values of the columnar values, row by row.
pub(crate) fn rows_of_columnar(
    alloc: Global,
    rows: usize,
    columnar_values: Vec<ColumnarValue<'_>>,
) -> Result<VecDeque<Vec<Value>>, AllocError>
    ensures { IfOk result (λ made. map row_data made.items ≡ rows_along rows (map columnar_rows columnar_values.entry.items)) }
{
    let mut made = empty_rows(alloc, rows, columnar_values.len())?;
    for columnar in columnar_values {
        let row_values = columnar_row_values(alloc, columnar)?;
        made = longer_rows(alloc, made, row_values)?;
    }
    Ok(made)
}

/// The structs of the rows' values.
pub(crate) fn struct_row_values<'a>(
    alloc: Global,
    rows: VecDeque<Vec<Value>>,
) -> Result<Vec<RowValue<'a>>, AllocError>
    ensures { IfOk result (λ row_values. map row_value_datum row_values.items ≡ map struct_row (map row_data rows.items)) }
{
    let mut row_values = Vec::with_capacity(alloc, rows.len())?;
    for row in rows {
        row_values.push(RowValue::Owned(Value::Struct(Values::from_vec(row))))?;
    }
    Ok(row_values)
}

impl<'a> Packing<'a> {
    /// No values of so many rows, with room for those of that many expressions.
    pub(crate) fn none(alloc: Global, rows: usize, width: usize) -> Result<Packing<'a>, AllocError>
        ensures { IfOk result (λ made. packing_rows made ≡ replicate rows []) }
    {
        let columnar_values = Vec::with_capacity(alloc, width)?;
        Ok(Packing::ColumnarValues(rows, columnar_values))
    }

    /// The values of each row.
    fn into_rows(self, alloc: Global) -> Result<VecDeque<Vec<Value>>, AllocError>
        ensures { IfOk result (λ rows. map row_data rows.items ≡ packing_rows self.entry) }
    {
        match self {
            Packing::ColumnarValues(rows, columnar_values) => {
                rows_of_columnar(alloc, rows, columnar_values)
            }
            Packing::Rows(rows) => Ok(rows),
        }
    }

    /// The rows with one value more each, as far as there are values.
    pub(crate) fn with(self, alloc: Global, found: Evaluated<'a>) -> Result<Packing<'a>, AllocError>
        ensures { IfOk result (λ made. packing_rows made ≡ along appended (packing_rows self.entry) (evaluated_rows found.entry)) }
    {
        match found {
            Evaluated::Packed(columnar) => self.with_columnar(alloc, columnar),
            found => {
                let row_values = found.into_row_values(alloc)?;
                self.with_row_values(alloc, row_values)
            }
        }
    }

    /// The same of a columnar value.
    fn with_columnar(
        self,
        alloc: Global,
        columnar: ColumnarValue<'a>,
    ) -> Result<Packing<'a>, AllocError>
        ensures { IfOk result (λ made. packing_rows made ≡ along appended (packing_rows self.entry) (columnar_rows columnar.entry)) }
    {
        match self {
            Packing::ColumnarValues(rows, mut columnar_values) => {
                columnar_values.push(columnar)?;
                Ok(Packing::ColumnarValues(rows, columnar_values))
            }
            made => {
                let row_values = columnar_row_values(alloc, columnar)?;
                made.with_row_values(alloc, row_values)
            }
        }
    }

    /// The same of row values.
    fn with_row_values(
        self,
        alloc: Global,
        row_values: Vec<RowValue<'_>>,
    ) -> Result<Packing<'a>, AllocError>
        ensures { IfOk result (λ made. packing_rows made ≡ along appended (packing_rows self.entry) (map row_value_datum row_values.entry.items)) }
    {
        let rows = self.into_rows(alloc)?;
        let longer = longer_rows(alloc, rows, row_values)?;
        Ok(Packing::Rows(longer))
    }

    /// The structs of the rows' values.
    pub(crate) fn structs(self, alloc: Global) -> Result<Evaluated<'a>, AllocError>
        ensures { IfOk result (λ made. evaluated_rows made ≡ map struct_row (packing_rows self.entry)) }
    {
        match self {
            Packing::ColumnarValues(rows, columnar_values) => Ok(Evaluated::Structs(
                rows,
                columnar_values,
            )),
            Packing::Rows(rows) => {
                let row_values = struct_row_values(alloc, rows)?;
                Ok(Evaluated::RowValues(row_values))
            }
        }
    }
}
