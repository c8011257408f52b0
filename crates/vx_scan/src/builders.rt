//! The builder of a scan.

ghost use Rattle.std.specs.Prelude.{◌≡◌, ◌<◌, ◌≤◌, ◌⊎◌, [], Some, length, map, Err, IfOk, IfErr, IsOk};
ghost use Rattle.vx_base.specs.Limits.{most_segments};
ghost use Rattle.vx_base.specs.Views.{data_type};
ghost use Rattle.vx_splits.specs.declared.selections.Selection.TheVariants.{IncludeByIndex};
ghost use Rattle.vx_drive.specs.declared.errors.ScanError.{ScanError as Refusal};
ghost use Rattle.vx_drive.specs.declared.errors.ScanError.TheVariants.{Memory as lacking};
ghost use Rattle.vx_drive.specs.Plans.{ArePlans};
ghost use Rattle.vx_workers.specs.Limits.{most_workers};
ghost use Rattle.vx_execute.specs.Executes.{CanRun};
ghost use Rattle.vx_scan.specs.Answer.{row_count};
ghost use Rattle.vx_scan.specs.Admission.{Refuses};
ghost use Rattle.vx_scan.specs.Batches.{GivesBatches};
ghost use Rattle.vx_scan.specs.Builders.{new_building, scan_of};
ghost use Rattle.vx_scan.specs.Prepared.{IsPreparedFor};
ghost use Rattle.vx_scan.specs.Scanned.{AnswersScan};
ghost use Rattle.vx_scan.specs.Settings.{scan_by};
ghost use Rattle.vx_scan.specs.Valid.{HasRows, IsBound};

use crate::admission::begin;
use crate::batches::batches_of;
use crate::prepared_scans::{Prepared, prepare_nothing, prepare_rows};
use crate::settings::Settings;
use std::alloc::{AllocError, Global};
use std::marker::Model;
use std::mem::replace;
use std::ops::Range;
use std::sync::Wait;
use std::thread::Threads;
use vx_base::{Column, DType, SegmentSource};
use vx_drive::ScanError;
use vx_execute::execute;
use vx_expr::BoundExpression;
use vx_layout::ScanFile;
use vx_splits::{Selection, StrictSorted};
use vx_workers::ValueCache;

/// A scan of a file, before it runs: the file, and the settings. Each `with_` call sets one setting and takes no memory;
/// of two calls for one setting the later stands.
#[derive(Drop)]
pub struct ScanBuilder {
    file: ScanFile,
    settings: Settings,
}

impl Model for ScanBuilder {
    ghost use Rattle.vx_scan.specs.Builders.{Building, coded_building};

    ghost Value = { Building };

    ghost coded = { coded_building };

    ghost use Rattle.std.specs.Prelude.{◌≡◌, ◌<◌, Some};
    ghost use Rattle.vx_expr.specs.Types.{type_of};
    ghost use Rattle.vx_scan.specs.Settings.{building_of};

    ghost view = { λ a. building_of a.file a.settings };

    ghost invariant = { λ a. 0 < a.settings.idle_limit };
}

impl ScanBuilder {
    /// A scan of all rows of the file, whole, in order: the projection is the root, rows are counted from 0, and a
    /// source may answer 1000000 times that a read goes on, from one completion to the next.
    pub fn new(alloc: Global, file: ScanFile) -> Result<ScanBuilder, AllocError>
        ensures { IfOk result (λ builder. builder ≡ new_building file.layout file.locations.items) }
    {
        file.layout.keeps_rules();
        let dtype = file.layout.dtype().copy(alloc)?;
        let settings = Settings::new(alloc, dtype)?;
        Ok(ScanBuilder { file, settings })
    }

    /// The dtype of the projection.
    pub fn dtype(&self) -> &DType
        ensures { data_type result.now ≡ self.now.projection.dtype }
    {
        self.settings.projection.dtype()
    }

    /// The scan, with another projection: what is computed of each row.
    pub fn with_projection(mut self, projection: BoundExpression) -> ScanBuilder
        ensures { result ≡ record self { projection = projection } }
    {
        drop(replace(&mut self.settings.projection, projection));
        self
    }

    /// The scan, with batches in the order of the file, or in any.
    pub fn with_ordered(mut self, ordered: bool) -> ScanBuilder
        ensures { result ≡ record self { ordered = ordered } }
    {
        self.settings.ordered = ordered;
        self
    }

    /// The scan of a range of rows, numbered from 0. A selected row of it that isn't one of the file's refuses the scan.
    pub fn with_row_range(mut self, rows: Range<u64>) -> ScanBuilder
        ensures { result ≡ record self { range = Some rows } }
    {
        self.settings.range = Some(rows);
        self
    }

    /// The scan of the rows that are selected.
    pub fn with_selection(mut self, selection: Selection) -> ScanBuilder
        ensures { result ≡ record self { selection = selection } }
    {
        self.settings.selection = selection;
        self
    }

    /// The scan of the rows with these numbers.
    pub fn with_row_indices(self, rows: StrictSorted) -> ScanBuilder
        ensures { result ≡ record self { selection = IncludeByIndex rows } }
    {
        self.with_selection(Selection::IncludeByIndex(rows))
    }

    /// The scan of so many rows at most: the first ones of those that are selected, in the order of the file, whatever order
    /// the batches come in. Only what these reach is asked for. A selected row of a given range that isn't one of the file's
    /// refuses the scan also where the limit cuts it off.
    pub fn with_limit(mut self, rows: u64) -> ScanBuilder
        ensures { result ≡ record self { limit = Some rows } }
    {
        self.settings.limit = Some(rows);
        self
    }

    /// The scan, with numbers of rows that are counted from the offset on.
    pub fn with_row_offset(mut self, offset: u64) -> ScanBuilder
        ensures { result ≡ record self { row_offset = offset } }
    {
        self.settings.row_offset = offset;
        self
    }

    /// The scan, with so many pieces of work in hand at most. It has no effect on the answer.
    pub fn with_concurrency(mut self, count: usize) -> ScanBuilder
        requires { 0 < count }
        ensures { result ≡ record self { concurrency = count } }
    {
        self.settings.concurrency = count;
        self
    }

    /// The scan, with another idle limit: how often a source may answer that a read goes on, from one completion to
    /// the next.
    pub fn with_idle_limit(mut self, polls: u64) -> ScanBuilder
        requires { 0 < polls }
        ensures { result ≡ record self { idle_limit = polls } }
    {
        self.settings.idle_limit = polls;
        self
    }

    /// The plans and the chunks of the scan, and whether its batches are to come in order: what [`execute`] runs. Nothing
    /// is asked. Refused is, in this order: a projection that isn't bound to the file's dtype; where the range isn't empty,
    /// numbers of rows that could overflow; and a selected row of the given range that isn't one of the file's.
    pub fn prepare(self, alloc: Global) -> Result<Prepared, ScanError>
        requires { length self.locations ≤ most_segments }
        ensures prepared { IfOk result (IsPreparedFor (scan_of self) self.idle_limit self.ordered) }
        ensures cause { IfErr result (λ error. (error ≡ lacking) ⊎ Refuses (scan_of self) error) }
        ensures refused { (error : Refusal) → Refuses (scan_of self) error → result ≡ Err error }
    {
        let ScanBuilder { file, settings } = self;
        prepare_file(alloc, file, settings)
    }

    /// Runs the scan over the sources, with a worker for each: the projection at the scan's rows, a column for each chunk
    /// with a row of the scan, in the order of the file. Each worker claims chunks and runs them on its own source; each
    /// stops at a chunk that fails, unless its error may come of a value that it borrowed, and the lowest chunk that failed
    /// tells the error. A chunk that reads a list, or a segment without a location, is refused before anything is asked for
    /// it. Several workers share whole values of dictionaries, which are tested on the first source once all are done. It
    /// returns when that is done too.
    pub fn into_batches<R: Threads + Wait + Sync, S: SegmentSource + Send>(
        self,
        rt: &R,
        alloc: Global,
        sources: &mut [S],
    ) -> Result<Vec<Column>, ScanError>
        requires some { 0 < length sources.old }
        requires workers { length sources.old ≤ most_workers }
        requires few { length self.locations ≤ most_segments }
        ensures answers { AnswersScan (scan_of self) self.idle_limit result (map S.state sources.old) (map S.state sources.new) }
        // An empty range has no batch, and a scan that is refused before it begins is refused: nothing is asked, and no
        // memory is taken.
        ensures empty { IsBound (scan_of self) → (HasRows self.range (row_count (scan_of self)) → ⊥) → IfOk result (λ batches. batches.items ≡ []) × IsOk result × (map S.state sources.new ≡ map S.state sources.old) }
        ensures refused { (error : Refusal) → Refuses (scan_of self) error → (result ≡ Err error) × (map S.state sources.new ≡ map S.state sources.old) }
    {
        let ScanBuilder { file, settings } = self;
        scan_file(rt, alloc, file, &settings, sources)
    }
}

/// The plans and the chunks of the scan of the file by the settings.
fn prepare_file(alloc: Global, file: ScanFile, settings: Settings) -> Result<Prepared, ScanError>
    requires { length file.locations.items ≤ most_segments }
    ensures prepared { IfOk result (IsPreparedFor (scan_by file settings) settings.idle_limit settings.ordered) }
    ensures cause { IfErr result (λ error. (error ≡ lacking) ⊎ Refuses (scan_by file settings) error) }
    ensures refused { (error : Refusal) → Refuses (scan_by file settings) error → result ≡ Err error }
{
    match begin(&file, &settings) {
        Ok(Some(rows)) => {
            let prepared = prepare_rows(alloc, file, &settings, rows);
            drop(settings);
            Ok(prepared?)
        }
        Ok(None) => Ok(prepare_nothing(alloc, file, settings)?),
        Err(error) => {
            drop(file);
            drop(settings);
            Err(error)
        }
    }
}

/// Runs the chunks of a prepared scan over the sources.
fn run_prepared<R: Threads + Wait + Sync, S: SegmentSource + Send>(
    rt: &R,
    alloc: Global,
    prepared: &Prepared,
    sources: &mut [S],
) -> Result<Vec<Column>, ScanError>
    requires some { 0 < length sources.old }
    requires workers { length sources.old ≤ most_workers }
    requires plans { ArePlans prepared.now.plans }
    requires chunks { CanRun prepared.now.plans prepared.now.chunks.items }
    ensures { GivesBatches prepared.now.plans prepared.now.chunks.items result (map S.state sources.old) (map S.state sources.new) }
{
    let cache = ValueCache::new(alloc);
    let outcome = execute(
        rt,
        alloc,
        &prepared.plans,
        &prepared.chunks,
        sources,
        &cache,
    );
    batches_of(alloc, outcome)
}

/// Runs the scan of the file by the settings over the sources.
fn scan_file<R: Threads + Wait + Sync, S: SegmentSource + Send>(
    rt: &R,
    alloc: Global,
    file: ScanFile,
    settings: &Settings,
    sources: &mut [S],
) -> Result<Vec<Column>, ScanError>
    requires some { 0 < length sources.old }
    requires workers { length sources.old ≤ most_workers }
    requires few { length file.locations.items ≤ most_segments }
    ensures answers { AnswersScan (scan_by file settings.now) settings.now.idle_limit result (map S.state sources.old) (map S.state sources.new) }
    ensures empty { IsBound (scan_by file settings.now) → (HasRows settings.now.range (row_count (scan_by file settings.now)) → ⊥) → IfOk result (λ batches. batches.items ≡ []) × IsOk result × (map S.state sources.new ≡ map S.state sources.old) }
    ensures refused { (error : Refusal) → Refuses (scan_by file settings.now) error → (result ≡ Err error) × (map S.state sources.new ≡ map S.state sources.old) }
{
    let rows = match begin(&file, settings) {
        Ok(Some(rows)) => rows,
        Ok(None) => {
            drop(file);
            return Ok(Vec::new(alloc));
        }
        Err(error) => {
            drop(file);
            return Err(error);
        }
    };
    let prepared = prepare_rows(alloc, file, settings, rows)?;
    run_prepared(rt, alloc, &prepared, sources)
}
