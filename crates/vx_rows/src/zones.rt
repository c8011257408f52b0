//! What a table of zones holds: one field for each statistic.

ghost use Rattle.std.specs.Prelude.{◌≡◌, ◌↔◌, IfOk, IsTrue};
ghost use Rattle.vx_base.specs.Views.{data_type, field_data};
ghost use Rattle.vx_rows.specs.Zones.{name_of, statistic_type, statistic_field, zones_type, StandsOver, StandOver};

use std::alloc::{AllocError, Global};
use vx_base::{DType, Field, Fields, IntKind, Nullability, Text, is_leaf};
use vx_expr::Statistic;

/// The name of the statistic's field.
fn name_of(stat: Statistic) -> &'static str
    ensures { result.now ≡ name_of stat }
{
    match stat {
        Statistic::Min => "min",
        Statistic::Max => "max",
        Statistic::NullCount => "null_count",
    }
}

/// The dtype of a statistic of rows of a dtype.
fn statistic_type(alloc: Global, dtype: &DType, stat: Statistic) -> Result<DType, AllocError>
    ensures { IfOk result (λ made. data_type made ≡ statistic_type (data_type dtype.now) stat) }
{
    match stat {
        Statistic::Min | Statistic::Max => dtype.as_nullable(alloc),
        Statistic::NullCount => Ok(DType::Int(IntKind::U64, Nullability::Nullable)),
    }
}

/// The field of a statistic of rows of a dtype.
fn statistic_field(alloc: Global, dtype: &DType, stat: Statistic) -> Result<Field, AllocError>
    ensures { IfOk result (λ field. field_data field ≡ statistic_field (data_type dtype.now) stat) }
{
    let name = Text::from_string(String::from_str(alloc, name_of(stat))?);
    let dtype = statistic_type(alloc, dtype, stat)?;
    Ok(Field { name, dtype })
}

/// The dtype of a table of these statistics of rows of a dtype.
pub fn zones_type(alloc: Global, dtype: &DType, stats: &[Statistic]) -> Result<DType, AllocError>
    ensures { IfOk result (λ made. data_type made ≡ zones_type (data_type dtype.now) stats.now) }
{
    let mut fields = Vec::with_capacity(alloc, stats.len())?;
    for stat in stats {
        let field = statistic_field(alloc, dtype, *stat)?;
        fields.push(field)?;
    }
    Ok(DType::Struct(Fields::from_vec(fields), Nullability::NonNullable))
}

/// Whether the statistic stands over the dtype: only a leaf dtype has a least and a greatest value.
fn stands_over(dtype: &DType, stat: Statistic) -> bool
    ensures { IsTrue result ↔ StandsOver (data_type dtype.now) stat }
{
    match stat {
        Statistic::Min | Statistic::Max => is_leaf(dtype),
        Statistic::NullCount => true,
    }
}

/// Whether each of the statistics stands over the dtype.
pub fn stand_over(dtype: &DType, stats: &[Statistic]) -> bool
    ensures { IsTrue result ↔ StandOver (data_type dtype.now) stats.now }
{
    for stat in stats {
        if !stands_over(dtype, *stat) {
            return false;
        }
    }
    true
}
