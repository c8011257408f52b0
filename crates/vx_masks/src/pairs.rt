//! Masks that are made of two masks, and rows of a mask at given places.

ghost use Rattle.std.specs.Prelude.{◌≡◌, ◌+◌, ◌++◌, ◌^◌, ◌<◌, ◌≤◌, [], false, length, count_ones, slice_index_or, IfOk, IsTrue, ◌↔◌};
ghost use Rattle.std.specs.Simd.Lanes.{mask_l};
ghost use Rattle.vx_masks.specs.Masks.{chosen, either, without};
ghost use Rattle.vx_masks.specs.Rows.{taken};
ghost use Rattle.vx_masks.specs.Words.{low_bits, number_of};

use crate::joins::{push_part, push_shifted};
use crate::masks::Mask;
use crate::parts::{part_len, word_or_zero};
use crate::word_masks::{WordMask, closed, words_for};
use std::alloc::{AllocError, Global};

/// The bits of the value at which those of the mask are set, behind one another.
fn extract(value: u64, mask: u64) -> u64
    ensures rows { low_bits (count_ones mask) result ≡ chosen (low_bits 64 mask) (low_bits 64 value) }
    ensures small { result < 2 ^ count_ones mask }
{
    let mut result = 0;
    let mut count: u32 = 0;
    let mut rest = mask;
    let mut left = value;
    while rest != 0 {
        let skipped = rest.trailing_zeros();
        let bits = left >> skipped;
        result += (bits % 2) << count;
        count += 1;
        rest = rest >> skipped >> 1;
        left = bits >> 1;
    }
    result
}

/// Whether the row at a place is chosen; none past the last row is.
fn bit_or_false(mask: &Mask, place: usize) -> bool
    ensures { result ≡ slice_index_or mask.now place false }
{
    (place as u64) < mask.len() && mask.value(place as u64)
}

/// The word whose lowest bits are the rows at these places.
fn taken_word(mask: &Mask, places: &[usize]) -> u64
    requires { length places.now ≤ 64 }
    ensures { result ≡ mask_l (taken false mask.now places.now) }
{
    let mut word = 0;
    for (index, place) in places.iter().enumerate() {
        word += (bit_or_false(mask, *place) as u64) << index;
    }
    word
}

/// Whether the words are the same.
fn same_words(ones: &[u64], others: &[u64]) -> bool
    ensures { IsTrue result ↔ (ones.now ≡ others.now) }
{
    ones == others
}

impl WordMask {
    /// Whether the masks have as many rows and choose the same. It takes no memory.
    pub(crate) fn same(&self, other: &WordMask) -> bool
        ensures { IsTrue result ↔ (self.now ≡ other.now) }
    {
        let ones = self.words();
        let others = other.words();
        if self.len() != other.len() {
            return false;
        }
        same_words(ones, others)
    }

    /// No rows, with room for so many. It takes all memory that they need.
    #[tactic(auto, using(crate::proofs::Built::built_none))]
    pub(crate) fn with_room(alloc: Global, rows: u64) -> Result<WordMask, AllocError>
        ensures { IfOk result (λ mask. mask ≡ []) }
    {
        let words = Vec::with_capacity(alloc, words_for(rows) as usize)?;
        Ok(WordMask::of_words(words, 0))
    }

    /// The rows that one of the masks chooses.
    pub(crate) fn either(&self, alloc: Global, other: &WordMask) -> Result<WordMask, AllocError>
        requires { length other.now ≡ length self.now }
        ensures { IfOk result (λ mask. mask ≡ either self.now other.now) }
    {
        let ones = self.words();
        let others = other.words();
        let mut words = Vec::with_capacity(alloc, ones.len())?;
        for (index, word) in ones.iter().enumerate() {
            words.push(*word | others[index])?;
        }
        Ok(WordMask::of_words(words, self.len()))
    }

    /// The rows that this mask chooses and the other doesn't.
    pub(crate) fn without(&self, alloc: Global, other: &WordMask) -> Result<WordMask, AllocError>
        requires { length other.now ≡ length self.now }
        ensures { IfOk result (λ mask. mask ≡ without self.now other.now) }
    {
        let ones = self.words();
        let others = other.words();
        let mut words = Vec::with_capacity(alloc, ones.len())?;
        for (index, word) in ones.iter().enumerate() {
            words.push(*word ^ (*word & others[index]))?;
        }
        Ok(WordMask::of_words(words, self.len()))
    }

    /// The rows of this mask, and then those of the other. What room this mask has is used. There is no
    /// memory for more rows than 64 bits count.
    pub(crate) fn append(self, other: &WordMask) -> Result<WordMask, AllocError>
        ensures { IfOk result (λ mask. mask ≡ self ++ other.now) }
    {
        match self.len().checked_add(other.len()) {
            Some(_) => self.append_few(other),
            None => Err(AllocError),
        }
    }

    /// The rows of this mask, and then those of the other, where 64 bits count them.
    fn append_few(self, other: &WordMask) -> Result<WordMask, AllocError>
        requires { length self + length other.now < 2 ^ 64 }
        ensures { IfOk result (λ mask. mask ≡ self ++ other.now) }
    {
        let before = self.len();
        let mut words = self.into_words()?;
        let others = other.words();
        let whole = (before / 64) as usize;
        let last = word_or_zero(words.as_slice(), whole);
        words.truncate(whole);
        let rest = push_shifted(&mut words, last, before % 64, others)?;
        let mask = closed(words, rest, before + other.len())?;
        Ok(mask)
    }

    /// The rows of this mask that the other chooses.
    pub(crate) fn filter(&self, alloc: Global, mask: &WordMask) -> Result<WordMask, AllocError>
        requires { length mask.now ≡ length self.now }
        ensures { IfOk result (λ kept. kept ≡ chosen mask.now self.now) }
    {
        let values = self.words();
        let rows = mask.true_count();
        let mut words = Vec::with_capacity(alloc, words_for(rows) as usize)?;
        let mut rest = 0;
        let mut len = 0;
        for (index, word) in mask.words().iter().enumerate() {
            let ones = word.count_ones() as u64;
            let picked = extract(values[index], *word);
            rest = push_part(&mut words, rest, len % 64, picked, ones)?;
            len += ones;
        }
        let kept = closed(words, rest, len)?;
        Ok(kept)
    }
}

impl Mask {
    /// The rows at these places, and false at a place past the last row.
    #[tactic(auto, using(crate::proofs::Built::built_none, crate::proofs::Built::built_all, crate::proofs::Built::built_rows))]
    pub fn take(&self, alloc: Global, places: &[usize]) -> Result<Mask, AllocError>
        ensures { IfOk result (λ found. found ≡ taken false self.now places.now) }
    {
        let len = places.len() as u64;
        let count = words_for(len);
        let mut words = Vec::with_capacity(alloc, count as usize)?;
        for index in 0..count {
            let start = 64 * index;
            let end = start + part_len(len, index);
            words.push(taken_word(self, &places[start as usize..end as usize]))?;
        }
        let words = WordMask::of_words(words, len);
        Ok(Mask::in_words(words))
    }
}
