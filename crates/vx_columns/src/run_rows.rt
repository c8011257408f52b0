//! Rows that lie in runs: values that each fill the rows from the end before them to their own. What is asked of
//! them is answered run by run, and they are spread where that can't be.

ghost use Rattle.std.specs.Prelude.{◌≡◌, ◌<◌, ◌≤◌, ◌-◌, ◌^◌, ◌++◌, [], ◌∷◌, length, map, replicate, slice_get, sum, IfOk};
ghost use Rattle.vx_types.specs.Slots.{is_value};
ghost use Rattle.vx_columns.specs.RunRows.{AreRunsAt, HasRow, Rise, start_of, runs_column, cut_ends, mask_counts, kept_places, kept_ends, repeated};
ghost use Rattle.vx_columns.specs.Runs.{spread, run_places};
ghost use Rattle.vx_arrays.specs.ArrayRows.{sliced, filtered, picked_at};

use crate::run_counts::counts_chosen;
use std::alloc::{AllocError, Global};
use std::marker::Model;
use std::ops::Range;
use vx_arrays::Array;
use vx_masks::Mask;

/// How many rows are added to a mask at a time.
const PIECE: u64 = 65536;

/// Values that each fill the rows from the end before them to their own. Nothing is kept for a row.
pub(crate) struct Runs {
    values: Array,
    ends: Vec<u64>,
}

impl Drop for Runs {
    fn drop(self) {
        let Runs { values: _, ends: _ } = self;
    }
}

impl Model for Runs {
    ghost use Rattle.vx_types.specs.Columns.{ColumnData};
    ghost use Rattle.vx_types.specs.Codes.{coded_column};
    ghost use Rattle.vx_columns.specs.RunRows.{runs_column, AreRuns};

    ghost Value = { ColumnData };

    ghost coded = { coded_column };

    ghost view = { λ a. runs_column a.values a.ends.items };

    ghost invariant = { λ a. AreRuns a.values a.ends.items };
}

/// A mask of so many rows that are all alike.
fn alike(alloc: Global, bit: bool, rows: u64) -> Result<Mask, AllocError>
    ensures { IfOk result (λ mask. mask ≡ replicate rows bit) }
{
    if bit {
        Mask::new_true(alloc, rows)
    } else {
        Mask::new_false(alloc, rows)
    }
}

/// The mask with so many rows behind it that are all alike.
fn append_alike(alloc: Global, mask: Mask, bit: bool, rows: u64) -> Result<Mask, AllocError>
    ensures { IfOk result (λ made. made ≡ mask ++ replicate rows bit) }
{
    let mut made = mask;
    for _ in 0..rows / PIECE {
        let piece = alike(alloc, bit, PIECE)?;
        made = made.append(&piece)?;
    }
    let rest = alike(alloc, bit, rows % PIECE)?;
    made.append(&rest)
}

/// The mask in which each truth value fills the rows from the end before it to its own.
#[tactic(auto, using(crate::proofs::SpreadRuns::spread_more, crate::proofs::SpreadRuns::spread_done))]
fn spread_mask(alloc: Global, bits: &Mask, ends: &[u64]) -> Result<Mask, AllocError>
    requires { length ends.now ≡ length bits.now }
    ensures { IfOk result (λ mask. mask ≡ spread 0 bits.now ends.now) }
{
    let last = ends.last().copied().unwrap_or(0);
    let mut mask = Mask::with_room(alloc, last)?;
    let mut before = 0;
    for (run, end) in ends.iter().enumerate() {
        let rows = end.saturating_sub(before);
        mask = append_alike(alloc, mask, bits.value(run as u64), rows)?;
        before = *end;
    }
    Ok(mask)
}

/// Where the last run ends; 0 where there is none.
#[tactic(auto, using(crate::proofs::SpreadRuns::last_start, crate::proofs::SpreadRuns::no_start))]
fn last_of(ends: &[u64]) -> u64
    ensures { result ≡ start_of 0 ends.now (length ends.now) }
{
    if ends.is_empty() {
        0
    } else {
        ends[ends.len() - 1]
    }
}

/// The place of the run that has the row. It is found by a binary search.
#[tactic(auto, using(crate::proofs::SpreadRuns::between_lower, crate::proofs::SpreadRuns::between_one))]
pub(crate) fn place_of(ends: &[u64], row: u64) -> usize
    requires { row < start_of 0 ends.now (length ends.now) }
    ensures { HasRow ends.now row result }
{
    let mut low = 0;
    let mut high = ends.len() - 1;
    while low < high {
        let middle = low + (high - low) / 2;
        if ends[middle] <= row {
            low = middle + 1;
        } else {
            high = middle;
        }
    }
    low
}

/// The places of the first and of the last run that has rows of a range. They are found by binary searches.
fn places_in(ends: &[u64], rows: Range<u64>) -> (usize, usize)
    requires some { rows.start < rows.end }
    requires inside { rows.end ≤ start_of 0 ends.now (length ends.now) }
    requires rise { Rise 0 ends.now }
    ensures first { HasRow ends.now rows.start result.0 }
    ensures last { HasRow ends.now (rows.end - 1) result.1 }
    ensures order { result.0 ≤ result.1 }
{
    let first = place_of(ends, rows.start);
    let last = place_of(ends, rows.end - 1);
    (first, last)
}

/// Where the runs end of which a range of rows has a part, counted from its first row.
fn cut_ends(alloc: Global, ends: &[u64], rows: Range<u64>) -> Result<Vec<u64>, AllocError>
    ensures { IfOk result (λ cut. cut.items ≡ cut_ends rows.start rows.end ends.now) }
{
    let mut cut = Vec::with_capacity(alloc, ends.len())?;
    for end in ends {
        let inside = rows.end.min(*end);
        cut.push(inside.saturating_sub(rows.start))?;
    }
    Ok(cut)
}

/// The run that has the row, as a place among the values: the place past the last one where none has it. It is found
/// by a binary search.
fn run_at(ends: &[u64], row: usize) -> usize
    requires { Rise 0 ends.now }
    ensures { AreRunsAt ends.now (row ∷ []) (result ∷ []) }
{
    let row = row as u64;
    if row < last_of(ends) {
        place_of(ends, row)
    } else {
        ends.len()
    }
}

/// The runs that have the rows, as places among the values.
fn runs_at(alloc: Global, ends: &[u64], rows: &[usize]) -> Result<Vec<usize>, AllocError>
    requires { Rise 0 ends.now }
    ensures { IfOk result (λ places. AreRunsAt ends.now rows.now places.items) }
{
    let mut places = Vec::with_capacity(alloc, rows.len())?;
    for row in rows {
        places.push(run_at(ends, *row))?;
    }
    Ok(places)
}

/// The places of the runs that have rows.
#[tactic(auto, using(crate::proofs::KeptRuns::places_push, crate::proofs::KeptRuns::places_skip, crate::proofs::KeptRuns::places_done))]
fn places_kept(alloc: Global, counts: &[u64]) -> Result<Vec<usize>, AllocError>
    ensures { IfOk result (λ places. places.items ≡ kept_places 0 counts.now) }
{
    let mut places = Vec::new(alloc);
    for (place, count) in counts.iter().enumerate() {
        if *count > 0 {
            places.push(place)?;
        }
    }
    Ok(places)
}

/// Where the runs that have rows end.
#[tactic(auto, using(crate::proofs::KeptRuns::ends_room, crate::proofs::KeptRuns::ends_push, crate::proofs::KeptRuns::ends_skip, crate::proofs::KeptRuns::ends_done))]
fn ends_kept(alloc: Global, counts: &[u64]) -> Result<Vec<u64>, AllocError>
    requires { sum counts.now < 2 ^ 64 }
    ensures { IfOk result (λ ends. ends.items ≡ kept_ends 0 counts.now) }
{
    let mut ends = Vec::new(alloc);
    let mut last = 0;
    for count in counts {
        if *count > 0 {
            last += *count;
            ends.push(last)?;
        }
    }
    Ok(ends)
}

/// The runs of so many rows each, without those of none.
fn kept_runs(alloc: Global, values: &Array, counts: &[u64]) -> Result<Runs, AllocError>
    requires runs { length counts.now ≡ length values.now.values }
    requires rows { sum counts.now < 2 ^ 64 }
    ensures dtype { IfOk result (λ runs. runs.dtype ≡ values.now.dtype) }
    ensures values { IfOk result (λ runs. runs.values ≡ repeated counts.now values.now.values) }
{
    let places = places_kept(alloc, counts)?;
    let ends = ends_kept(alloc, counts)?;
    let values = values.take(alloc, places.as_slice())?;
    Ok(Runs { values, ends })
}

/// The number of the value that each row has.
#[tactic(auto, using(crate::proofs::RunRows::places_none, crate::proofs::RunRows::places_all))]
fn places_of(alloc: Global, ends: &[u64]) -> Result<Vec<usize>, AllocError>
    requires { Rise 0 ends.now }
    ensures { IfOk result (λ places. places.items ≡ run_places 0 0 ends.now) }
{
    let mut places = Vec::new(alloc);
    for (run, end) in ends.iter().enumerate() {
        places.resize(*end as usize, run)?;
    }
    Ok(places)
}

impl Runs {
    /// The runs of these values, each of which fills the rows from the end before it to its own. It takes no memory.
    pub(crate) fn of(values: Array, ends: Vec<u64>) -> Runs
        requires same { length ends.items ≡ length values.values }
        requires rise { Rise 0 ends.items }
        ensures { result ≡ runs_column values ends.items }
    {
        Runs { values, ends }
    }

    /// The values of the runs, and where each ends. It takes no memory.
    pub(crate) fn parts(&self) -> (&Array, &[u64])
        ensures column { runs_column result.0.now result.1.now ≡ self.now }
        ensures same { length result.1.now ≡ length result.0.now.values }
        ensures rise { Rise 0 result.1.now }
    {
        (&self.values, self.ends.as_slice())
    }

    /// How many rows there are.
    pub(crate) fn len(&self) -> usize
        ensures { result ≡ length self.now.values }
    {
        last_of(self.ends.as_slice()) as usize
    }

    /// Which rows have a value, a bit for each.
    pub(crate) fn validity(&self, alloc: Global) -> Result<Mask, AllocError>
        ensures { IfOk result (λ mask. mask ≡ map is_value self.now.values) }
    {
        spread_mask(alloc, self.values.validity(), self.ends.as_slice())
    }

    /// The values of the runs, and the place among them of the value that a row has. It takes no memory.
    pub(crate) fn value_of(&self, row: usize) -> (&Array, usize)
        requires { row < length self.now.values }
        ensures dtype { result.0.now.dtype ≡ self.now.dtype }
        ensures there { result.1 < length result.0.now.values }
        ensures value { slice_get self.now.values row ≡ slice_get result.0.now.values result.1 }
    {
        let place = place_of(self.ends.as_slice(), row as u64);
        (&self.values, place)
    }

    /// No rows of the same dtype.
    fn no_rows(&self, alloc: Global, row: usize) -> Result<Runs, AllocError>
        ensures { IfOk result (λ runs. runs ≡ sliced row row self.now) }
    {
        let values = self.values.slice(alloc, 0..0)?;
        let ends = Vec::new(alloc);
        Ok(Runs { values, ends })
    }

    /// The rows of a range that has some. It looks at the runs that have them alone.
    fn some_rows(&self, alloc: Global, rows: Range<usize>) -> Result<Runs, AllocError>
        requires some { rows.start < rows.end }
        requires inside { rows.end ≤ length self.now.values }
        ensures { IfOk result (λ runs. runs ≡ sliced rows.start rows.end self.now) }
    {
        let start = rows.start as u64;
        let end = rows.end as u64;
        let ends = self.ends.as_slice();
        let (first, last) = places_in(ends, start..end);
        let values = self.values.slice(alloc, first..last + 1)?;
        let ends = cut_ends(alloc, &ends[first..last + 1], start..end)?;
        Ok(Runs { values, ends })
    }

    /// The rows of a range. It looks at the runs that have them alone.
    pub(crate) fn slice(&self, alloc: Global, rows: Range<usize>) -> Result<Runs, AllocError>
        requires forwards { rows.start ≤ rows.end }
        requires inside { rows.end ≤ length self.now.values }
        ensures { IfOk result (λ runs. runs ≡ sliced rows.start rows.end self.now) }
    {
        if rows.start < rows.end {
            self.some_rows(alloc, rows)
        } else {
            self.no_rows(alloc, rows.start)
        }
    }

    /// The rows at these places, and null at a place past the last row. The run of each is found by a binary search,
    /// and none is spread.
    pub(crate) fn take(&self, alloc: Global, places: &[usize]) -> Result<Array, AllocError>
        ensures { IfOk result (λ array. array ≡ picked_at places.now self.now) }
    {
        let runs = runs_at(alloc, self.ends.as_slice(), places)?;
        let rows = self.values.take(alloc, runs.as_slice())?;
        Ok(rows)
    }

    /// The rows that the mask chooses.
    pub(crate) fn filter(&self, alloc: Global, mask: &Mask) -> Result<Runs, AllocError>
        requires { length mask.now ≡ length self.now.values }
        ensures { IfOk result (λ runs. runs ≡ filtered mask.now self.now) }
    {
        let _rows = mask.len();
        let counts = counts_chosen(alloc, self.ends.as_slice(), mask)?;
        let runs = kept_runs(alloc, &self.values, counts.as_slice())?;
        Ok(runs)
    }

    /// All rows, each with a value of its own.
    pub(crate) fn spread(&self, alloc: Global) -> Result<Array, AllocError>
        ensures { IfOk result (λ rows. rows ≡ self.now) }
    {
        let places = places_of(alloc, self.ends.as_slice())?;
        self.values.take(alloc, places.as_slice())
    }
}
