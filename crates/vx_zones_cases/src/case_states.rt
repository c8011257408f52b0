//! What the commands have set: the dtype of the rows, the statistics, and what is told of each zone.

ghost use Rattle.std.specs.Prelude.{◌≡◌, IfOk};
ghost use Rattle.vx_base.specs.Views.{data_type};

use std::alloc::{AllocError, Global};
use std::mem::replace;
use vx_base::{Column, DType, Nullability};
use vx_expr::Statistics;
use vx_expr_notation::statistics_of;
use vx_notation::{column_of, dtype_of, number_of, numbers_of, two, values_of};
use vx_rows::zones_type;
use vx_zones::{ZoneError, ZoneTable};

/// What is told of each zone, and how the rows lie in zones.
#[derive(Drop)]
struct Told {
    zones: Column,
    zone_len: u64,
    row_count: u64,
}

/// What the commands have set.
#[derive(Drop)]
pub(crate) struct CaseState {
    /// The dtype of the rows.
    pub(crate) dtype: DType,
    stats: Statistics,
    told: Told,
}

/// The rows that each value fills from the end before it to its own.
fn runs_of(alloc: Global, dtype: DType, words: &str) -> Option<Column> {
    let (values, ends) = two(words).ok()?;
    let values = values_of(alloc, values).ok()?;
    let ends = numbers_of(alloc, ends, ' ').ok()?;
    Column::runs(alloc, dtype, values, ends).ok()
}

/// What the words write: a dtype, the rows of a zone and of all, and values, one by one or in runs.
fn told_of(alloc: Global, in_runs: bool, words: &str) -> Option<Told> {
    let (dtype, rest) = two(words).ok()?;
    let (sizes, rest) = two(rest).ok()?;
    let (zone_len, row_count) = sizes.split_once(' ')?;
    let zone_len = number_of(zone_len).ok()?;
    let row_count = number_of(row_count).ok()?;
    let dtype = dtype_of(alloc, dtype).ok()?;
    let zones = if in_runs {
        runs_of(alloc, dtype, rest)?
    } else {
        column_of(alloc, dtype, rest).ok()?
    };
    Some(Told {
        zones,
        zone_len,
        row_count,
    })
}

impl CaseState {
    /// No zones of truth values.
    pub(crate) fn new(alloc: Global) -> Result<CaseState, AllocError> {
        let zones = Column::empty(alloc, DType::Bool(Nullability::NonNullable))?;
        Ok(CaseState {
            dtype: DType::Bool(Nullability::NonNullable),
            stats: Statistics::from_vec(Vec::new(alloc)),
            told: Told {
                zones,
                zone_len: 1,
                row_count: 0,
            },
        })
    }

    /// Sets the dtype of the rows. Words that write none end all output.
    pub(crate) fn set_dtype(&mut self, alloc: Global, words: &str) -> Result<(), AllocError> {
        match dtype_of(alloc, words).ok() {
            Some(dtype) => {
                drop(replace(&mut self.dtype, dtype));
                Ok(())
            }
            None => Err(AllocError),
        }
    }

    /// Sets the statistics.
    pub(crate) fn set_stats(&mut self, alloc: Global, words: &str) -> Result<(), AllocError> {
        let stats = statistics_of(alloc, words)?;
        drop(replace(&mut self.stats, stats));
        Ok(())
    }

    /// Sets what is told of each zone. Words that write nothing end all output.
    pub(crate) fn set_zones(
        &mut self,
        alloc: Global,
        in_runs: bool,
        words: &str,
    ) -> Result<(), AllocError> {
        match told_of(alloc, in_runs, words) {
            Some(told) => {
                drop(replace(&mut self.told, told));
                Ok(())
            }
            None => Err(AllocError),
        }
    }

    /// Sets no zones, of the dtype that the statistics ask for, of so many rows each.
    pub(crate) fn set_empty(&mut self, alloc: Global, words: &str) -> Result<(), AllocError> {
        let dtype = zones_type(alloc, &self.dtype, self.stats.items())?;
        let zones = Column::empty(alloc, dtype)?;
        let told = Told {
            zones,
            zone_len: words.parse::<u64>().unwrap_or(0),
            row_count: 0,
        };
        drop(replace(&mut self.told, told));
        Ok(())
    }

    /// The table of what is set, or why there is none.
    pub(crate) fn table(&self, alloc: Global) -> Result<ZoneTable, ZoneError>
        ensures { IfOk result (λ table. table.dtype ≡ data_type self.now.dtype) }
    {
        let told = &self.told;
        match told.zones.copy(alloc) {
            Ok(zones) => ZoneTable::try_new(
                alloc,
                &self.dtype,
                &self.stats,
                zones,
                told.zone_len,
                told.row_count,
            ),
            Err(_) => Err(ZoneError::Memory),
        }
    }
}
