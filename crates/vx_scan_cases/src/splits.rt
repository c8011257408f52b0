//! Splits as words: `0..9:101000001` selects rows by a mask, `3..6` all of them.

use std::alloc::{AllocError, Global};
use vx_base::Mask;
use vx_notation::bits_of;
use vx_steps::Split;

/// The split that is written so.
pub(crate) fn split_of(alloc: Global, word: &str) -> Result<Split, AllocError> {
    let (rows, signs) = word.split_once(':').unwrap_or((word, ""));
    let (start, end) = rows.split_once("..").unwrap_or((rows, ""));
    let rows = start.parse::<u64>().unwrap_or(0)..end.parse::<u64>().unwrap_or(0);
    if signs.is_empty() {
        return Split::all(alloc, rows);
    }
    let bits = bits_of(alloc, signs).unwrap_or(Vec::new(alloc));
    Ok(Split {
        rows,
        mask: Mask::of(alloc, bits)?,
    })
}

/// Adds the splits that the words write, so many times.
fn push_splits(alloc: Global, words: &str, splits: &mut Vec<Split>) -> Result<(), AllocError> {
    for word in words.split_whitespace() {
        let split = split_of(alloc, word)?;
        splits.push(split)?;
    }
    Ok(())
}

/// The splits that the words write, behind `9*` so many times. Those that have no room are left out.
pub(crate) fn splits_of(alloc: Global, words: &str) -> Vec<Split> {
    let (count, words) = words.split_once('*').unwrap_or(("1", words));
    let mut splits = Vec::new(alloc);
    for _time in 0..count.parse::<u64>().unwrap_or(0) {
        let _pushed = push_splits(alloc, words, &mut splits).ok();
    }
    splits
}
