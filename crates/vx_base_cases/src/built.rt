//! Columns that are made of columns: look-ups and structs.

ghost use Rattle.std.specs.Prelude.{◌≡◌, ◌∷◌, [], length, map, IsTrue};
ghost use Rattle.std.specs.List.{AllByRecursion};
ghost use Rattle.std.specs.Option.{ForSome};
ghost use Rattle.vx_base.specs.declared.dtypes.IntKind.TheVariants.{U64};
ghost use Rattle.vx_base.specs.declared.dtypes.Nullability.TheVariants.{NonNullable, Nullable};
ghost use Rattle.vx_base.specs.Data.{int_type, utf8_type, member, no_members};
ghost use Rattle.vx_base.specs.ColumnCalls.{IsCodeBelow};
ghost use Rattle.vx_base.specs.Views.{data_type};
ghost use Rattle.vx_base.specs.ValueViews.{datum};

use crate::column_calls::read_column;
use crate::fields::{number_of, read_dtype, three, two};
use crate::mask_calls::mask_of;
use std::alloc::Global;
use vx_base::{Column, DType, Field, Fields, IntKind, Mask, Nullability, Text, Value, is_unsigned};
use vx_notation::column_of;

/// Whether the code is below the count.
fn is_below(code: &Value, count: usize) -> bool
    ensures { IsTrue result → IsCodeBelow count (datum code.now) }
{
    match code {
        Value::Int(number) => *number < count as i128,
        _ => true,
    }
}

/// Whether each code is below the count.
fn are_below(codes: &[Value], count: usize) -> bool
    ensures { IsTrue result → AllByRecursion (IsCodeBelow count) (map datum codes.now) }
{
    for (row, code) in codes.iter().enumerate() {
        if !is_below(code, count) {
            return false;
        }
    }
    true
}

/// The values at codes.
fn looked_up(alloc: Global, codes: &Column, values: &Column) -> Option<Column> {
    let numbers = codes.to_values(alloc).ok()?;
    if !is_unsigned(codes.dtype()) || !are_below(numbers.as_slice(), values.len() as usize) {
        None
    } else {
        Column::look_up(alloc, codes, values).ok()
    }
}

/// The values at codes that are written so.
fn looked_up_in(alloc: Global, dtype: &str, codes: &str, values: &Column) -> Option<Column> {
    let codes = column_of(alloc, read_dtype(alloc, dtype), codes).ok()?;
    let found = looked_up(alloc, &codes, values);
    drop(codes);
    found
}

/// The values at codes, each column with its dtype before it.
pub(crate) fn look_up(alloc: Global, rest: &str) -> Option<Column> {
    let (dtype, codes, values) = three(rest);
    let values = read_column(alloc, values)?;
    let found = looked_up_in(alloc, dtype, codes, &values);
    drop(values);
    found
}

/// Whether a validity of so many rows is written: where the word is `all` none, else as many bits.
fn validity_of(alloc: Global, word: &str, rows: u64) -> Option<Option<Mask>>
    ensures { ForSome result (λ validity. ForSome validity (λ mask. length mask ≡ rows)) }
{
    if word == "all" {
        return Some(None);
    }
    let mask = mask_of(alloc, word)?;
    if mask.len() == rows {
        Some(Some(mask))
    } else {
        None
    }
}

/// The dtype of numbers of 64 bits that takes no nulls.
fn plain_numbers() -> DType
    ensures { data_type result ≡ int_type U64 NonNullable }
{
    DType::Int(IntKind::U64, Nullability::NonNullable)
}

/// The dtype of texts that takes nulls.
pub(crate) fn texts_or_nulls() -> DType
    ensures { data_type result ≡ utf8_type Nullable }
{
    DType::Utf8(Nullability::Nullable)
}

/// The fields of these two dtypes, a number and a text.
fn two_fields(alloc: Global) -> Option<Fields>
    ensures { ForSome result (λ fields. fields ≡ member (97 ∷ []) (int_type U64 NonNullable) (member (98 ∷ []) (utf8_type Nullable) no_members)) }
{
    let first = String::from_str(alloc, "a").ok()?;
    let second = String::from_str(alloc, "b").ok()?;
    let first = Field {
        name: Text::from_string(first),
        dtype: DType::Int(IntKind::U64, Nullability::NonNullable),
    };
    let second = Field {
        name: Text::from_string(second),
        dtype: DType::Utf8(Nullability::Nullable),
    };
    let fields = vec![in alloc; first, second].ok()?;
    Some(Fields::from_vec(fields))
}

/// The structs of a validity, numbers and texts.
fn packed(alloc: Global, validity: &str, numbers: Column, texts: Column) -> Option<Column>
    requires numbers { numbers.dtype ≡ int_type U64 NonNullable }
    requires texts { texts.dtype ≡ utf8_type Nullable }
{
    let (rows, others) = (numbers.len(), texts.len());
    let parts = vec![in alloc; numbers, texts].ok()?;
    if others != rows {
        return None;
    }
    let validity = validity_of(alloc, validity, rows)?;
    let fields = two_fields(alloc)?;
    Column::pack(alloc, fields, parts, validity, rows).ok()
}

/// The structs of a validity, numbers and texts, `{a=u64, b=utf8?}`.
pub(crate) fn pack(alloc: Global, rest: &str) -> Option<Column> {
    let (validity, numbers, texts) = three(rest);
    let numbers = column_of(alloc, plain_numbers(), numbers).ok()?;
    let Ok(texts) = column_of(alloc, texts_or_nulls(), texts) else {
        drop(numbers);
        return None;
    };
    packed(alloc, validity, numbers, texts)
}

/// The structs of a validity and no fields.
pub(crate) fn pack_none(alloc: Global, rest: &str) -> Option<Column> {
    let (validity, rows) = two(rest);
    let rows = number_of(rows);
    let validity = validity_of(alloc, validity, rows)?;
    let fields = Fields::from_vec(Vec::new(alloc));
    Column::pack(alloc, fields, Vec::new(alloc), validity, rows).ok()
}
