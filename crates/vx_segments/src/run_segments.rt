//! Decoding of runs: how many there are, where each ends, and the plain segment of their values. What the bytes can't
//! hold is refused before any memory is taken for it, and no row is spread.

ghost use Rattle.std.specs.Prelude.{◌≡◌, ℕ, ◌*◌, ◌^◌, ◌<◌, ◌≤◌, ◌↔◌, ◌++◌, List, length, IsTrue, IfOk, IfSome, IsNone, IsErrOf};
ghost use Rattle.std.specs.Int.{w32, w64, to_le_bytes};
ghost use Rattle.std.specs.List.{AllByRecursion};
ghost use Rattle.vx_types.specs.Data.{Datum};
ghost use Rattle.vx_types.specs.Leaf.{IsLeaf};
ghost use Rattle.vx_types.specs.Views.{data_type};
ghost use Rattle.vx_columns.specs.LaidRuns.{Differ};
ghost use Rattle.vx_columns.specs.RunRows.{Rise, start_of};
ghost use Rattle.vx_columns.specs.Runs.{spread};
ghost use Rattle.vx_segments.specs.Codings.{SpellsRuns, end_bytes, run_bytes};
ghost use Rattle.vx_segments.specs.declared.decode_errors.DecodeError.TheVariants as errors;

use crate::decode_errors::DecodeError;
use crate::decoding::decode;
use crate::text_ends::four_at;
use std::alloc::{AllocError, Global};
use vx_columns::Column;
use vx_types::DType;

/// The number of 64 bits that the first eight bytes spell, and the bytes behind them.
fn eight_at(bytes: &[u8]) -> (u64, &[u8])
    requires { 8 ≤ length bytes.now }
    ensures { bytes.now ≡ to_le_bytes w64 result.0 ++ result.1.now }
{
    let (word, rest) = bytes.split_at(8);
    (
        u64::from_le_bytes([
            word[0], word[1], word[2], word[3], word[4], word[5], word[6], word[7],
        ]),
        rest,
    )
}

/// So many ends, of eight bytes each.
fn read_ends(alloc: Global, count: usize, bytes: &[u8]) -> Result<Vec<u64>, AllocError>
    requires { length bytes.now ≡ 8 * count }
    ensures spelled { IfOk result (λ ends. end_bytes ends.items ≡ bytes.now) }
    ensures small { IfOk result (λ ends. AllByRecursion (λ end. end < 2 ^ 64) ends.items) }
{
    let mut ends = Vec::with_capacity(alloc, count)?;
    let mut rest = bytes;
    for _run in 0..count {
        let (end, after) = eight_at(rest);
        ends.push(end)?;
        rest = after;
    }
    Ok(ends)
}

/// How many runs there are, the bytes of their ends, and those behind. None where the bytes hold fewer ends.
fn split_runs(bytes: &[u8]) -> Option<(u32, &[u8], &[u8])>
    ensures joined { IfSome result (λ parts. bytes.now ≡ to_le_bytes w32 parts.0 ++ (parts.1.now ++ parts.2.now)) }
    ensures count { IfSome result (λ parts. length parts.1.now ≡ 8 * parts.0) }
    ensures none { IsNone result → (ends plain : List ℕ) → length ends < 2 ^ 32 → ¬ (bytes.now ≡ run_bytes ends plain) }
{
    if bytes.len() < 4 {
        return None;
    }
    let (count, rest) = four_at(bytes);
    if rest.len() / 8 < count as usize {
        return None;
    }
    let (ends, plain) = rest.split_at(8 * count as usize);
    Some((count, ends, plain))
}

/// Whether each end is above the one before it, the first above 0, and the last is this one; no ends end at 0.
fn rise_to(ends: &[u64], last: u64) -> bool
    ensures { IsTrue result ↔ (Rise 0 ends.now × (start_of 0 ends.now (length ends.now) ≡ last)) }
{
    let mut before = 0;
    for end in ends {
        if *end <= before {
            return false;
        }
        before = *end;
    }
    before == last
}

/// The column in which each value fills its rows, where no neighbours are the same.
fn fill_apart(alloc: Global, values: Column, ends: Vec<u64>) -> Result<Column, DecodeError>
    requires same { length ends.items ≡ length values.values }
    requires rise { Rise 0 ends.items }
    ensures dtype { IfOk result (λ column. column.dtype ≡ values.dtype) }
    ensures values { IfOk result (λ column. column.values ≡ spread 0 values.values ends.items) }
    ensures differ { IfOk result (λ _. Differ values.values) }
    ensures refused { IsErrOf result DecodeError.BadSegment → ¬ (Differ values.values) }
{
    if !values.neighbours_differ() {
        return Err(DecodeError::BadSegment);
    }
    match values.fill(alloc, ends) {
        Ok(column) => Ok(column),
        Err(_) => Err(DecodeError::Memory),
    }
}

/// The column of so many rows that runs spell.
pub(crate) fn decode_runs(
    alloc: Global,
    dtype: &DType,
    rows: u64,
    bytes: &[u8],
) -> Result<Column, DecodeError>
    requires leaf { IsLeaf (data_type dtype.now) }
    ensures dtype { IfOk result (λ column. column.dtype ≡ data_type dtype.now) }
    ensures spelled { IfOk result (λ column. SpellsRuns (data_type dtype.now) rows bytes.now column.values) }
    ensures refused { IsErrOf result DecodeError.BadSegment → (values : List Datum) → ¬ (SpellsRuns (data_type dtype.now) rows bytes.now values) }
{
    let (count, front, plain) = match split_runs(bytes) {
        Some(parts) => parts,
        None => return Err(DecodeError::BadSegment),
    };
    let ends = read_ends(alloc, count as usize, front)?;
    if !rise_to(ends.as_slice(), rows) {
        return Err(DecodeError::BadSegment);
    }
    let values = match decode(alloc, dtype, count as u64, plain) {
        Ok(values) => values,
        Err(error) => return Err(error),
    };
    match fill_apart(alloc, values, ends) {
        Ok(column) => Ok(column),
        Err(error) => Err(error),
    }
}
