//! Selected rows as words: `0..9:101000001` selects rows by a mask, `3..6` all of them.

use std::alloc::{AllocError, Global};
use std::ops::Range;
use vx_base::Mask;
use vx_notation::bits_of;

/// The range that is written so, as `1..4`.
pub(crate) fn range_of(words: &str) -> Range<u64> {
    let (start, end) = words.split_once("..").unwrap_or((words, ""));
    start.parse::<u64>().unwrap_or(0)..end.parse::<u64>().unwrap_or(0)
}

/// The mask of these signs, of which `-` is none; without a sign it is of so many rows, and selects all of them.
pub(crate) fn mask_of(alloc: Global, signs: &str, rows: u64) -> Result<Mask, AllocError> {
    if signs.is_empty() {
        return Mask::new_true(alloc, rows);
    }
    let bits = bits_of(alloc, signs).unwrap_or(Vec::new(alloc));
    Mask::of(alloc, bits)
}

/// A range of rows, and which of them are selected.
#[derive(Drop)]
pub(crate) struct Selected {
    pub(crate) rows: Range<u64>,
    pub(crate) mask: Mask,
}

/// The selected rows that are written so.
pub(crate) fn selected_of(alloc: Global, word: &str) -> Result<Selected, AllocError> {
    let (rows, signs) = word.split_once(':').unwrap_or((word, ""));
    let rows = range_of(rows);
    let mask = mask_of(alloc, signs, rows.end.saturating_sub(rows.start))?;
    Ok(Selected { rows, mask })
}
