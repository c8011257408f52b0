//! Selections: which rows of a file are read.

ghost use Rattle.std.specs.Prelude.{◌≡◌, ◌<◌, ◌≤◌, ◌-◌, ◌↔◌, [], true, false, length, map, IfOk, IfSome, IsNone, IsTrue, MatchOption};
ghost use Rattle.std.specs.List.{All, Any};
ghost use Rattle.vx_base.specs.Masks.{Ascend, is_among};
ghost use Rattle.vx_splits.specs.Taken.{rows_between, selected_rows, SelectsRows, TakesRows};
ghost use Rattle.vx_splits.specs.Trimmed.{IsPartedAt, selection_mask, marked_as, AllAmong, IsSpan, IsLeft, IsTrimmedRange};

use crate::sorted_indices::StrictSorted;
use std::alloc::{AllocError, Global};
use std::ops::Range;
use vx_base::Mask;

/// Which rows of a file are read. Rows are numbered from 0.
#[derive(Debug, Drop)]
pub enum Selection {
    /// Every row.
    All,
    /// The rows with these numbers.
    IncludeByIndex(StrictSorted),
    /// The rows with other numbers than these.
    ExcludeByIndex(StrictSorted),
}

impl Default for Selection {
    /// Every row.
    fn default() -> Selection
        ensures { result ≡ Selection.All }
    {
        Selection::All
    }
}

impl Selection {
    /// How many rows of the range are selected. It searches the indices and takes no memory.
    pub fn row_count_in_range(&self, rows: &Range<u64>) -> u64
        ensures { result ≡ length (selected_rows self.now rows.now.start rows.now.end) }
    {
        match self {
            Selection::All => rows.end.saturating_sub(rows.start),
            Selection::IncludeByIndex(indices) => indices.within(rows).len() as u64,
            Selection::ExcludeByIndex(indices) => {
                rows.end.saturating_sub(rows.start) - indices.within(rows).len() as u64
            }
        }
    }

    /// A mask over the rows of the range: true where a row is selected. It takes no memory where all are, of a multiple
    /// of 64 rows that is at most 65,536.
    pub fn row_mask(&self, alloc: Global, rows: &Range<u64>) -> Result<Mask, AllocError>
        requires forwards { rows.now.start ≤ rows.now.end }
        ensures { IfOk result (λ mask. mask ≡ selection_mask self.now rows.now.start rows.now.end) }
    {
        match self {
            Selection::All => Mask::new_true(alloc, rows.end - rows.start),
            Selection::IncludeByIndex(indices) => chosen_at(alloc, rows, indices.within(rows)),
            Selection::ExcludeByIndex(indices) => marked(alloc, rows, indices.within(rows), false),
        }
    }

    /// Whether some selected row of the range is not below the count. It takes no memory.
    pub fn reaches_past(&self, rows: &Range<u64>, count: u64) -> bool
        ensures { IsTrue result ↔ Any (λ row. count ≤ row) (selected_rows self.now rows.now.start rows.now.end) }
    {
        let beyond = rows.start.max(count)..rows.end;
        self.row_count_in_range(&beyond) > 0
    }

    /// The range from the first to the last selected row of a range. None where none is selected. It searches
    /// the indices, and walks neither over them nor over the rows.
    pub(crate) fn trim(&self, rows: &Range<u64>) -> Option<Range<u64>>
        ensures none { IsNone result ↔ (selected_rows self.now rows.now.start rows.now.end ≡ []) }
        ensures some { IfSome result (λ trimmed. IsTrimmedRange self.now rows.now.start rows.now.end trimmed) }
    {
        let (start, end) = (rows.start, rows.end);
        match self {
            Selection::All => { if start < end { Some(start..end) } else { None } }
            Selection::IncludeByIndex(indices) => spanned(indices.within(rows)),
            Selection::ExcludeByIndex(indices) => left_of(rows, indices.within(rows)),
        }
    }
}

/// The places of rows in a range, which begins with this one.
fn places_of(alloc: Global, start: u64, indices: &[u64]) -> Result<Vec<u64>, AllocError>
    requires { All (λ index. start ≤ index) indices.now }
    ensures { IfOk result (λ places. places.items ≡ map (λ index. index - start) indices.now) }
{
    let mut places = Vec::with_capacity(alloc, indices.len())?;
    for index in indices {
        places.push(*index - start)?;
    }
    Ok(places)
}

/// A mask over the rows of the range that chooses these of them. It takes memory by their number where they are few.
fn chosen_at(alloc: Global, rows: &Range<u64>, indices: &[u64]) -> Result<Mask, AllocError>
    requires forwards { rows.now.start ≤ rows.now.end }
    requires ascending { Ascend indices.now }
    requires from { All (λ index. rows.now.start ≤ index) indices.now }
    requires below { All (λ index. index < rows.now.end) indices.now }
    ensures { IfOk result (λ mask. mask
        ≡ map (λ row. marked_as true (is_among indices.now row)) (rows_between rows.now.start rows.now.end)) }
{
    let places = places_of(alloc, rows.start, indices)?;
    let mask = Mask::from_indices(alloc, rows.end - rows.start, &places)?;
    Ok(mask)
}

/// A mask over the rows of the range: `mark` at these of them, and the other truth value elsewhere.
#[tactic(auto, using(crate::proofs::Marks::marked_none, crate::proofs::Marks::marked_more))]
fn marked(alloc: Global, rows: &Range<u64>, indices: &[u64], mark: bool) -> Result<Mask, AllocError>
    requires forwards { rows.now.start ≤ rows.now.end }
    requires from { All (λ index. rows.now.start ≤ index) indices.now }
    requires below { All (λ index. index < rows.now.end) indices.now }
    ensures { IfOk result (λ mask. mask
        ≡ map (λ row. marked_as mark (is_among indices.now row)) (rows_between rows.now.start rows.now.end)) }
{
    if indices.is_empty() && !mark {
        return Mask::new_true(alloc, rows.end - rows.start);
    }
    let len = (rows.end - rows.start) as usize;
    let mut bits = Vec::with_capacity(alloc, len)?;
    bits.resize(len, !mark)?;
    for index in indices {
        bits[(*index - rows.start) as usize] = mark;
    }
    Mask::of(alloc, bits)
}

/// The range from the first to the last of the indices. None where there are none.
fn spanned(indices: &[u64]) -> Option<Range<u64>>
    requires { All (λ index. index < u64.MAX) indices.now }
    ensures { MatchOption result (indices.now ≡ []) (λ span. IsSpan indices.now span) }
{
    let first = indices.first()?;
    let last = indices.last()?;
    Some(*first..*last + 1)
}

/// How many of the rows lie less than `bound` above their places: they are the first ones, since no row lies
/// further above its place than a later one. It is found by a binary search.
#[tactic(auto, using(crate::proofs::Runs::parting_none, crate::proofs::Runs::parting_upper, crate::proofs::Runs::parting_lower, crate::proofs::Runs::parted, crate::proofs::Runs::place_below))]
fn count_near(rows: &[u64], bound: u64) -> usize
    requires ascending { Ascend rows.now }
    ensures { IsPartedAt rows.now bound result }
{
    let mut low = 0;
    let mut high = rows.len();
    while low < high {
        let middle = low + (high - low) / 2;
        if rows[middle] - (middle as u64) < bound {
            low = middle + 1;
        } else {
            high = middle;
        }
    }
    low
}

/// The first row from `start` on that isn't one of the excluded rows, which lie from `start` to before
/// `end`. It searches the excluded rows.
#[tactic(auto, using(crate::proofs::Runs::leading_inside, crate::proofs::Runs::leading_among, crate::proofs::Runs::leading_ends))]
fn first_left(start: u64, end: u64, excluded: &[u64]) -> u64
    requires forwards { start < end }
    requires ascending { Ascend excluded.now }
    requires from { All (λ row. start ≤ row) excluded.now }
    requires below { All (λ row. row < end) excluded.now }
    ensures after { start ≤ result }
    ensures inside { result ≤ end }
    ensures left { is_among excluded.now result ≡ false }
    ensures before { AllAmong excluded.now start result }
{
    start + count_near(excluded, start + 1) as u64
}

/// The row after the last row before `end` that isn't one of the excluded rows, which lie before `end`;
/// 0 where there is none. It searches the excluded rows.
#[tactic(auto, using(crate::proofs::Runs::as_many_below, crate::proofs::Runs::trailing_among, crate::proofs::Runs::trailing_ends))]
fn end_left(end: u64, excluded: &[u64]) -> u64
    requires ascending { Ascend excluded.now }
    requires below { All (λ row. row < end) excluded.now }
    ensures inside { result ≤ end }
    ensures left { 0 < result → is_among excluded.now (result - 1) ≡ false }
    ensures after { AllAmong excluded.now result end }
{
    let count = excluded.len();
    let later = count_near(excluded, end - count as u64);
    end - (count - later) as u64
}

/// The range from the first to the last row of a range that isn't excluded. None where there is none.
#[tactic(auto, using(crate::proofs::Runs::left_some))]
fn left_of(rows: &Range<u64>, excluded: &[u64]) -> Option<Range<u64>>
    requires ascending { Ascend excluded.now }
    requires from { All (λ row. rows.now.start ≤ row) excluded.now }
    requires below { All (λ row. row < rows.now.end) excluded.now }
    ensures { MatchOption result (AllAmong excluded.now rows.now.start rows.now.end)
        (λ left. IsLeft excluded.now rows.now.start rows.now.end left) }
{
    if rows.start >= rows.end {
        return None;
    }
    let start = first_left(rows.start, rows.end, excluded);
    if start == rows.end {
        return None;
    }
    Some(start..end_left(rows.end, excluded))
}

/// The selected rows of a range, and the rows of a scan without a limit, one by one: they ascend, and they are exactly
/// those that are selected.
pub fn rows_are_selected()
    ensures selected { SelectsRows }
    ensures taken { TakesRows }
{}
