//! The values that a mask chooses.

ghost use Rattle.std.specs.Prelude.{◌≡◌, ◌+◌, ◌-◌, ◌++◌, ◌^◌, ◌<◌, ◌≤◌, length, drop, IfOk};
ghost use Rattle.vx_masks.specs.Masks.{chosen};
ghost use Rattle.vx_masks.specs.Words.{low_bits};

use crate::masks::{Form, Mask};
use crate::word_masks::WordMask;
use std::alloc::{AllocError, Global};

/// Adds the values that the word chooses of those from a place on, one by one.
fn push_chosen<T: Copy>(
    kept: &mut Vec<T>,
    word: u64,
    values: &[T],
    start: usize,
) -> Result<(), AllocError>
    requires { word < 2 ^ (length values.now - start) }
    ensures { IfOk result (λ _. kept.new.items ≡ kept.old.items ++ chosen (low_bits 64 word) (drop start values.now)) }
{
    let _count = values.len();
    let mut rest = word;
    let mut place = start;
    while rest != 0 {
        let skipped = rest.trailing_zeros();
        let row = place + skipped as usize;
        kept.push(values[row])?;
        rest = rest >> skipped >> 1;
        place = row + 1;
    }
    Ok(())
}

/// Adds the values that the word chooses of those from a place on: all at once where it chooses each.
#[tactic(auto, using(crate::proofs::Chosen::full_rows))]
fn push_rows<T: Copy>(
    kept: &mut Vec<T>,
    word: u64,
    values: &[T],
    start: usize,
) -> Result<(), AllocError>
    requires { word < 2 ^ (length values.now - start) }
    ensures { IfOk result (λ _. kept.new.items ≡ kept.old.items ++ chosen (low_bits 64 word) (drop start values.now)) }
{
    if word == u64::MAX {
        kept.extend_from_slice(&values[start..start + 64])?;
        Ok(())
    } else {
        push_chosen(kept, word, values, start)
    }
}

/// The values at the rows that these words choose, in order.
fn filter_words<T: Copy>(alloc: Global, mask: &WordMask, values: &[T]) -> Result<Vec<T>, AllocError>
    requires { length values.now ≡ length mask.now }
    ensures { IfOk result (λ kept. kept.items ≡ chosen mask.now values.now) }
{
    let mut kept = Vec::with_capacity(alloc, mask.true_count() as usize)?;
    for (index, word) in mask.words().iter().enumerate() {
        push_rows(&mut kept, *word, values, 64 * index)?;
    }
    Ok(kept)
}

/// The values at the rows that the mask chooses, in order.
#[tactic(auto, using(crate::proofs::AllRows::all_chosen))]
pub fn filter<T: Copy>(alloc: Global, mask: &Mask, values: &[T]) -> Result<Vec<T>, AllocError>
    requires { length values.now ≡ length mask.now }
    ensures { IfOk result (λ kept. kept.items ≡ chosen mask.now values.now) }
{
    match mask.form() {
        Form::Words(words) => filter_words(alloc, words, values),
        Form::All(_, _) => Ok(Vec::from_slice(alloc, values)?),
        Form::Few(_, _, _) => {
            let words = mask.spread(alloc)?;
            filter_words(alloc, &words, values)
        }
    }
}
