//! Tables of zones.

ghost use Rattle.std.specs.Prelude.{◌≡◌, ◌↔◌, ◌<◌, length, map, IsTrue, IfOk, OnOk, IsErrOf};
ghost use Rattle.std.specs.Int.{div_ceil};
ghost use Rattle.vx_base.specs.ColumnCalls.{natural};
ghost use Rattle.vx_base.specs.Views.{data_type};
ghost use Rattle.vx_operators.specs.declared.operators.CompareOp.TheVariants.{Eq};
ghost use Rattle.vx_operators.specs.ColumnarValues.{scalar_datum};
ghost use Rattle.vx_zones.specs.declared.errors.ZoneError.TheVariants as errors;
ghost use Rattle.vx_zones.specs.Prunes.{tells, none_null, all_null};
ghost use Rattle.vx_zones.specs.Tables.{place_of, same_statistic, table_of, told_at, zones_in, IsTable};
ghost use Rattle.vx_zones.specs.Tellings.{full_along};

use crate::errors::ZoneError;
use crate::tellings::natural_of;
use crate::told::told_of;
use std::alloc::{AllocError, Global};
use std::marker::Model;
use vx_base::{Column, DType, Mask};
use vx_expr::{CompareOp, Statistic, Statistics};
use vx_operators::Scalar;
use vx_rows::{stand_over, zones_type};

/// What statistics tell of the zones of rows.
pub struct ZoneTable {
    dtype: DType,
    stats: Statistics,
    /// A struct of the statistics for each zone.
    zones: Column,
    zone_len: u64,
    row_count: u64,
    /// The zones without a null row, and those of nulls alone, as far as that is told.
    none_null: Mask,
    all_null: Mask,
}

impl Drop for ZoneTable {
    fn drop(self) {
        let ZoneTable {
            dtype: _,
            stats: _,
            zones: _,
            zone_len: _,
            row_count: _,
            none_null: _,
            all_null: _,
        } = self;
    }
}

impl Model for ZoneTable {
    ghost use Rattle.vx_base.specs.Views.{data_type};
    ghost use Rattle.vx_zones.specs.Tables.{TableData, coded_table, table_of};
    ghost use Rattle.vx_zones.specs.Zoned.{IsZoned};

    ghost Value = { TableData };

    ghost coded = { coded_table };

    ghost view = { λ a. table_of (data_type a.dtype) a.stats a.zones.values a.zone_len a.row_count };

    ghost invariant = { λ a. IsZoned (table_of (data_type a.dtype) a.stats a.zones.values a.zone_len a.row_count) a.zones.dtype a.none_null a.all_null };
}

/// Whether the statistics are the same.
fn same_statistic(stat: Statistic, other: Statistic) -> bool
    ensures { result ≡ same_statistic stat other }
{
    match stat {
        Statistic::Min => matches!(other, Statistic::Min),
        Statistic::Max => matches!(other, Statistic::Max),
        Statistic::NullCount => matches!(other, Statistic::NullCount),
    }
}

/// The place of the first such statistic. None where there is none.
fn place_of(stat: Statistic, stats: &[Statistic]) -> Option<usize>
    ensures { result ≡ place_of stat stats.now }
{
    for (place, other) in stats.iter().enumerate() {
        if same_statistic(stat, *other) {
            return Some(place);
        }
    }
    None
}

/// The zones without a null row, and those of nulls alone, as far as the statistic at a place tells.
fn null_zones(
    alloc: Global,
    zones: &Column,
    place: Option<usize>,
    zone_len: u64,
    row_count: u64,
) -> Result<(Mask, Mask), AllocError>
    requires some_rows { 0 < zone_len }
    requires count { length zones.now.values ≡ div_ceil row_count zone_len }
    ensures none { IfOk result (λ masks. masks.0 ≡ map (λ told. tells Eq (told_at place told) (natural 0)) zones.now.values) }
    ensures all { IfOk result (λ masks. masks.1 ≡ full_along zone_len row_count (map (told_at place) zones.now.values)) }
{
    let nulls = told_of(alloc, zones, place)?;
    let none = natural_of(0);
    let none_null = nulls.tells(alloc, CompareOp::Eq, none)?;
    let all_null = nulls.tells_rows(alloc, zone_len, row_count)?;
    Ok((none_null, all_null))
}

/// Whether the column is a table of these statistics of so many rows of a dtype.
fn is_table(
    alloc: Global,
    dtype: &DType,
    stats: &[Statistic],
    zones: &Column,
    zone_len: u64,
    row_count: u64,
) -> Result<bool, AllocError>
    ensures { IfOk result (λ is. IsTrue is ↔ IsTable (data_type dtype.now) stats.now zones.now.dtype (length zones.now.values) zone_len row_count) }
{
    if zone_len == 0 || !stand_over(dtype, stats) {
        return Ok(false);
    }
    let shape = zones_type(alloc, dtype, stats)?;
    Ok(zones.dtype().same(&shape) && zones.len() == row_count.div_ceil(zone_len))
}

/// The statistics in memory of their own.
fn copied_statistics(alloc: Global, stats: &[Statistic]) -> Result<Statistics, AllocError>
    ensures { IfOk result (λ copied. copied ≡ stats.now) }
{
    match Vec::from_slice(alloc, stats) {
        Ok(copied) => Ok(Statistics::from_vec(copied)),
        Err(error) => Err(error),
    }
}

/// Both masks in memory of their own.
fn copied_masks(alloc: Global, one: &Mask, other: &Mask) -> Result<(Mask, Mask), AllocError>
    ensures one { IfOk result (λ masks. masks.0 ≡ one.now) }
    ensures other { IfOk result (λ masks. masks.1 ≡ other.now) }
{
    let one = one.copy(alloc)?;
    let other = other.copy(alloc)?;
    Ok((one, other))
}

/// The table of zones of a column that is one.
fn zone_table(
    alloc: Global,
    dtype: &DType,
    stats: &[Statistic],
    zones: Column,
    zone_len: u64,
    row_count: u64,
) -> Result<ZoneTable, AllocError>
    requires { IsTable (data_type dtype.now) stats.now zones.dtype (length zones.values) zone_len row_count }
    ensures { IfOk result (λ table. table ≡ table_of (data_type dtype.now) stats.now zones.values zone_len row_count) }
{
    let place = place_of(Statistic::NullCount, stats);
    let dtype = dtype.copy(alloc)?;
    let stats = copied_statistics(alloc, stats)?;
    let (none_null, all_null) = null_zones(alloc, &zones, place, zone_len, row_count)?;
    Ok(ZoneTable {
        dtype,
        stats,
        zones,
        zone_len,
        row_count,
        none_null,
        all_null,
    })
}

impl ZoneTable {
    /// A table of zones from a column of structs: one for each `zone_len` of the `row_count` rows of the dtype, with a field
    /// for each statistic, in order. Of two statistics of one sort the first stands.
    pub fn try_new(
        alloc: Global,
        dtype: &DType,
        stats: &Statistics,
        zones: Column,
        zone_len: u64,
        row_count: u64,
    ) -> Result<ZoneTable, ZoneError>
        ensures table { IfOk result (λ table. table ≡ table_of (data_type dtype.now) stats.now zones.values zone_len row_count) }
        ensures right { OnOk result (IsTable (data_type dtype.now) stats.now zones.dtype (length zones.values) zone_len row_count) }
        ensures refused { IsErrOf result errors.BadZones → ¬ IsTable (data_type dtype.now) stats.now zones.dtype (length zones.values) zone_len row_count }
    {
        let stats = stats.items();
        match is_table(alloc, dtype, stats, &zones, zone_len, row_count) {
            Ok(true) => match zone_table(alloc, dtype, stats, zones, zone_len, row_count) {
                Ok(table) => Ok(table),
                Err(_) => Err(ZoneError::Memory),
            },
            Ok(false) => Err(ZoneError::BadZones),
            Err(_) => Err(ZoneError::Memory),
        }
    }

    /// The same table in memory of its own, but for zones that are shared.
    pub fn copy(&self, alloc: Global) -> Result<ZoneTable, AllocError>
        ensures { IfOk result (λ table. table ≡ self.now) }
    {
        let dtype = self.dtype.copy(alloc)?;
        let zones = self.zones.copy(alloc)?;
        let stats = copied_statistics(alloc, self.stats.items())?;
        let (none_null, all_null) = copied_masks(alloc, &self.none_null, &self.all_null)?;
        Ok(ZoneTable {
            dtype,
            stats,
            zones,
            zone_len: self.zone_len,
            row_count: self.row_count,
            none_null,
            all_null,
        })
    }

    /// How many zones there are.
    pub(crate) fn count(&self) -> u64
        ensures { result ≡ length self.now.told }
    {
        self.zones.len()
    }

    /// The zones of which a statistic tells that they compare so with a value.
    pub(crate) fn tells(
        &self,
        alloc: Global,
        stat: Statistic,
        op: CompareOp,
        value: Scalar<'_>,
    ) -> Result<Mask, AllocError>
        ensures { IfOk result (λ mask. mask ≡ map (λ told. tells op (told_at (place_of stat self.now.stats) told) (scalar_datum value.entry)) self.now.told) }
    {
        let place = place_of(stat, self.stats.items());
        let told = told_of(alloc, &self.zones, place)?;
        told.tells(alloc, op, value)
    }

    /// The zones without a null row, as far as that is told. It takes no memory.
    pub(crate) fn none_null(&self) -> &Mask
        ensures { result.now ≡ map none_null (zones_in self.now) }
    {
        &self.none_null
    }

    /// The zones of nulls alone, as far as that is told. It takes no memory.
    pub(crate) fn all_null(&self) -> &Mask
        ensures { result.now ≡ map all_null (zones_in self.now) }
    {
        &self.all_null
    }
}
