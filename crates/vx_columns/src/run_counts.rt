//! How many rows of each run a mask chooses: counted word by word, in the mask itself.

ghost use Rattle.std.specs.Prelude.{◌≡◌, ◌-◌, ◌/◌, ◌%◌, ◌^◌, ◌<◌, ◌≤◌, length, slice_index, slice_range, IfOk};
ghost use Rattle.vx_masks.specs.Masks.{true_count};
ghost use Rattle.vx_masks.specs.Words.{low_bits, number_of, words_for, Small};
ghost use Rattle.vx_columns.specs.RunRows.{Rise, start_of, mask_counts};

use std::alloc::{AllocError, Global};
use vx_masks::Mask;
use vx_masks::kernels::count_ones;

/// So many ones, from the lowest bit on.
fn low_ones(count: u64) -> u64
    requires { count < 64 }
    ensures { result ≡ 2 ^ count - 1 }
{
    (1 << count) - 1
}

/// How many of the rows before this one are chosen that lie in one word with it.
fn chosen_before(words: &[u64], row: u64) -> u64
    requires { 0 < row % 64 → row / 64 < length words.now }
    ensures { result ≡ true_count (low_bits (row % 64) (slice_index words.now (row / 64))) }
{
    let count = row % 64;
    if count == 0 {
        return 0;
    }
    let low = words[(row / 64) as usize] & low_ones(count);
    low.count_ones() as u64
}

/// How many rows of a range the words of so many rows choose. It takes no memory.
fn chosen_in_words(words: &[u64], rows: u64, from: u64, to: u64) -> u64
    requires count { length words.now ≡ words_for rows }
    requires fit { Small 64 words.now }
    requires forwards { from ≤ to }
    requires inside { to ≤ rows }
    ensures { result ≡ true_count (slice_range (low_bits rows (number_of words.now)) from to) }
{
    let between = &words[(from / 64) as usize..(to / 64) as usize];
    count_ones(between) + chosen_before(words, to) - chosen_before(words, from)
}

/// How many rows of each run the words of so many rows choose.
#[tactic(auto, using(crate::proofs::KeptRuns::mask_done))]
fn counts_in_words(
    alloc: Global,
    ends: &[u64],
    words: &[u64],
    rows: u64,
) -> Result<Vec<u64>, AllocError>
    requires count { length words.now ≡ words_for rows }
    requires fit { Small 64 words.now }
    requires rise { Rise 0 ends.now }
    requires rows { rows ≡ start_of 0 ends.now (length ends.now) }
    ensures { IfOk result (λ counts. counts.items ≡ mask_counts (low_bits rows (number_of words.now)) 0 ends.now) }
{
    let mut counts = Vec::with_capacity(alloc, ends.len())?;
    let mut before = 0;
    for end in ends {
        counts.push(chosen_in_words(words, rows, before, *end))?;
        before = *end;
    }
    Ok(counts)
}

/// How many rows of each run the mask chooses.
pub(crate) fn counts_chosen(
    alloc: Global,
    ends: &[u64],
    mask: &Mask,
) -> Result<Vec<u64>, AllocError>
    requires rise { Rise 0 ends.now }
    requires rows { length mask.now ≡ start_of 0 ends.now (length ends.now) }
    ensures { IfOk result (λ counts. counts.items ≡ mask_counts mask.now 0 ends.now) }
{
    let words = mask.own_words(alloc)?;
    counts_in_words(alloc, ends, &words, mask.len())
}
