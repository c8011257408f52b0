//! The settings of a scan.

ghost use Rattle.std.specs.Prelude.{◌≡◌, IfOk};
ghost use Rattle.vx_base.specs.Views.{data_type};
ghost use Rattle.vx_scan.specs.Settings.{new_settings};

use std::alloc::{AllocError, Global};
use std::ops::Range;
use vx_base::DType;
use vx_expr::BoundExpression;
use vx_splits::Selection;

/// How many pieces of work a scan may have in hand where nothing else is said.
const DEFAULT_CONCURRENCY: usize = 4;

/// How often a source may answer that a read goes on, from one completion to the next, where nothing else is said.
const DEFAULT_IDLE_LIMIT: u64 = 1_000_000;

/// What a scan is told besides its file: what is projected of each row; the range of rows, if one is given, which rows of
/// it are selected, and how many of them are read at most, if a limit is given; from which number on rows are counted;
/// whether the batches are to come in the order of the file; how many pieces of work may be in hand; and how often a
/// source may answer that a read goes on, from one completion to the next.
#[derive(Drop)]
pub(crate) struct Settings {
    pub(crate) projection: BoundExpression,
    pub(crate) range: Option<Range<u64>>,
    pub(crate) selection: Selection,
    pub(crate) limit: Option<u64>,
    pub(crate) row_offset: u64,
    pub(crate) ordered: bool,
    pub(crate) concurrency: usize,
    pub(crate) idle_limit: u64,
}

impl Settings {
    /// The settings of a scan of all rows, whole, over a root of the dtype.
    pub(crate) fn new(alloc: Global, dtype: DType) -> Result<Settings, AllocError>
        ensures { IfOk result (λ settings. settings ≡ new_settings (data_type dtype)) }
    {
        let projection = BoundExpression::new_root(alloc, dtype)?;
        Ok(Settings {
            projection,
            range: None,
            selection: Selection::All,
            limit: None,
            row_offset: 0,
            ordered: true,
            concurrency: DEFAULT_CONCURRENCY,
            idle_limit: DEFAULT_IDLE_LIMIT,
        })
    }
}
