//! Whether a scan begins, and over which rows: what is decided before anything is asked and any memory is taken.

ghost use Rattle.std.specs.Prelude.{◌≡◌, ◌↔◌, IsTrue};
ghost use Rattle.vx_scan.specs.Answer.{row_count as rows_of_file};
ghost use Rattle.vx_scan.specs.Admission.{Begins, Overflows, range_or};
ghost use Rattle.vx_scan.specs.Settings.{scan_by};
ghost use Rattle.vx_scan.specs.Valid.{SelectsInside};

use crate::settings::Settings;
use std::ops::Range;
use vx_drive::ScanError;
use vx_layout::ScanFile;

impl Settings {
    /// The range of the scan: the given one, else all rows.
    fn rows(&self, row_count: u64) -> Range<u64>
        ensures { result ≡ range_or self.now.range row_count }
    {
        match &self.range {
            Some(range) => range.start..range.end,
            None => 0..row_count,
        }
    }

    /// Whether some selected row of the given range, if there is one, isn't below the count.
    fn reaches_past(&self, row_count: u64) -> bool
        ensures { IsTrue result ↔ ¬ (SelectsInside self.now.selection self.now.range row_count) }
    {
        match &self.range {
            Some(range) => self.selection.reaches_past(range, row_count),
            None => false,
        }
    }
}

/// Whether numbers of rows are used and could pass the greatest `u64`.
fn overflows(file: &ScanFile, settings: &Settings) -> bool
    ensures { IsTrue result ↔ Overflows (scan_by file.now settings.now) }
{
    settings.projection.uses_row_idx() && file.layout.row_count() > u64::MAX - settings.row_offset
}

/// The range of rows to scan, cut to those of the file; none where it is empty. Refused is, in this order: a projection
/// that isn't bound to the file's dtype; where the range isn't empty, numbers of rows that could overflow; and a selected
/// row of the given range that isn't one of the file's.
pub(crate) fn begin(file: &ScanFile, settings: &Settings) -> Result<Option<Range<u64>>, ScanError>
    ensures { Begins (scan_by file.now settings.now) result }
{
    let row_count = file.layout.row_count();
    if !settings.projection.is_root_bound_to(file.layout.dtype()) {
        return Err(ScanError::BadProjection);
    }
    let rows = settings.rows(row_count);
    if rows.start >= rows.end {
        return Ok(None);
    }
    if overflows(file, settings) {
        return Err(ScanError::OffsetOverflow);
    }
    if settings.reaches_past(row_count) {
        return Err(ScanError::OutOfRange);
    }
    Ok(Some(rows.start..rows.end.min(row_count)))
}
