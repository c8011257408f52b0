//! A scan that is prepared to run: its plans and its chunks.

ghost use Rattle.std.specs.Prelude.{◌≡◌, ◌≤◌, ◌⊎◌, length, IfOk, IfErr};
ghost use Rattle.vx_base.specs.Limits.{most_segments};
ghost use Rattle.vx_scan.specs.Admission.{BeginsOver, Refuses};
ghost use Rattle.vx_scan.specs.Prepared.{IsPreparedFor};
ghost use Rattle.vx_scan.specs.Settings.{scan_by};
ghost use Rattle.vx_scan.specs.Valid.{HasRows, IsBound};
ghost use Rattle.vx_scan.specs.Answer.{row_count};

use crate::admission::begin;
use crate::file_plans::{cut_file, plan_file};
use crate::settings::Settings;
use std::alloc::{AllocError, Global};
use std::ops::Range;
use vx_drive::ScanPlans;
use vx_layout::ScanFile;
use vx_splits::SelectedRows;

/// The plans of a scan, its chunks in the order of the file, and whether its batches are to come in that order.
#[derive(Drop)]
pub struct Prepared {
    pub plans: ScanPlans,
    pub chunks: Vec<SelectedRows>,
    pub ordered: bool,
}

/// The scan of these rows.
pub(crate) fn prepare_rows(
    alloc: Global,
    file: ScanFile,
    settings: &Settings,
    rows: Range<u64>,
) -> Result<Prepared, AllocError>
    requires few { length file.locations.items ≤ most_segments }
    requires begins { BeginsOver (scan_by file settings.now) rows }
    ensures { IfOk result (IsPreparedFor (scan_by file settings.now) settings.now.idle_limit settings.now.ordered) }
{
    file.layout.keeps_rules();
    let chunks = cut_file(alloc, &file, settings, rows)?;
    let plans = plan_file(alloc, file, settings)?;
    Ok(Prepared {
        plans,
        chunks,
        ordered: settings.ordered,
    })
}

/// The scan of an empty range: it has no chunks, and counts its rows from 0.
pub(crate) fn prepare_nothing(
    alloc: Global,
    file: ScanFile,
    settings: Settings,
) -> Result<Prepared, AllocError>
    requires few { length file.locations.items ≤ most_segments }
    requires bound { IsBound (scan_by file settings) }
    requires none { ¬ (HasRows settings.range (row_count (scan_by file settings))) }
    ensures { IfOk result (IsPreparedFor (scan_by file settings) settings.idle_limit settings.ordered) }
{
    let ordered = settings.ordered;
    let planned = plan_file(alloc, file, &settings);
    drop(settings);
    let mut plans = planned?;
    plans.row_offset = 0;
    Ok(Prepared {
        plans,
        chunks: Vec::new(alloc),
        ordered,
    })
}
