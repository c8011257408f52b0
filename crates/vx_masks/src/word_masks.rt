//! Masks in words: which rows are chosen, a bit for each.

ghost use Rattle.std.specs.Prelude.{◌≡◌, ◌+◌, ◌*◌, ◌++◌, ℕ, ◌/◌, ◌%◌, ◌^◌, ◌<◌, ◌≤◌, ◌==◌, slice_index, ◌↔◌, true, false, replicate, length, slice_get, slice_range, Some, IsTrue, IfOk, OnOk, OnErr, MatchOption};
ghost use Rattle.std.specs.List.{All};
ghost use Rattle.std.specs.Int.{bit_at};
ghost use Rattle.vx_masks.specs.Masks.{chosen_of_chosen, both, true_count, Ascend, is_among, NoneTrue, IsFirstTrue, IsLastTrue};
ghost use Rattle.vx_masks.specs.Bytes.{packed, SpellNoRows};
ghost use Rattle.vx_masks.specs.Words.{low_bits, number_of, words_for, IsMask, Small};

use crate::deposits::deposit;
use crate::kernels;
use crate::parts::{
    bit_of, is_clear_past, low_ones, packed_word, part_len, part_of, word_of_bytes, words_fit,
};
use crate::shared_words::{MOST_SHARED_ROWS, held_words, own_words};
use std::alloc::{AllocError, Global};
use std::marker::Model;
use std::ops::Range;

/// Which rows are chosen, seen as a truth value for each row. A mask of rows that keeps no words chooses each of them,
/// and has words that all such masks share.
#[derive(Debug, Drop)]
pub(crate) struct WordMask {
    words: Vec<u64>,
    len: u64,
}

impl Model for WordMask {
    ghost use Rattle.std.specs.Prelude.{List, Bool};
    ghost use Rattle.vx_masks.specs.Words.{low_bits, number_of, held, AreWordsOf};

    ghost Value = { List Bool };

    ghost view = { λ a. low_bits a.len (number_of (held a.len a.words.items)) };

    ghost invariant = { λ a. AreWordsOf a.len a.words.items };
}

/// How many words so many rows take.
pub(crate) fn words_for(rows: u64) -> u64
    ensures { result ≡ words_for rows }
{
    rows.div_ceil(64)
}

/// The mask of so many rows that the words and the rest behind them hold.
pub(crate) fn closed(words: Vec<u64>, rest: u64, len: u64) -> Result<WordMask, AllocError>
    requires few { words_for len ≤ length words.items + 1 }
    requires enough { length words.items ≤ words_for len }
    requires small { number_of words.items + 2 ^ (64 * length words.items) * rest < 2 ^ len }
    ensures { IfOk result (λ mask. mask ≡ low_bits len (number_of words.items + 2 ^ (64 * length words.items) * rest)) }
{
    let mut words = words;
    if words.len() as u64 == words_for(len) {
        return Ok(WordMask::of_words(words, len));
    }
    words.push(rest)?;
    Ok(WordMask::of_words(words, len))
}

impl WordMask {
    /// The mask of so many rows that the words hold. It takes no memory.
    pub(crate) fn of_words(words: Vec<u64>, len: u64) -> WordMask
        requires { IsMask len words.items }
        ensures { result ≡ low_bits len (number_of words.items) }
    {
        WordMask { words, len }
    }

    /// The words that hold the rows, in memory of their own. It takes none where the mask has words of its own.
    pub(crate) fn into_words(self) -> Result<Vec<u64>, AllocError>
        ensures rows { IfOk result (λ words. self ≡ low_bits (length self) (number_of words.items)) }
        ensures mask { IfOk result (λ words. IsMask (length self) words.items) }
        ensures fit { IfOk result (λ words. Small 64 words.items) }
    {
        let WordMask { words, len } = self;
        let words = own_words(words, len)?;
        words_fit(words.as_slice());
        Ok(words)
    }

    /// The mask that chooses each of that many rows, with words of its own.
    #[tactic(auto, using(crate::proofs::Built::built_none, crate::proofs::Built::built_all, crate::proofs::Built::built_rows))]
    pub(crate) fn all_of(alloc: Global, len: u64) -> Result<WordMask, AllocError>
        ensures { IfOk result (λ mask. mask ≡ replicate len true) }
    {
        let count = words_for(len);
        let mut words = Vec::with_capacity(alloc, count as usize)?;
        for index in 0..count {
            words.push(low_ones(part_len(len, index)))?;
        }
        Ok(WordMask::of_words(words, len))
    }

    /// The mask that chooses each of that many rows. It takes no memory where their number is a multiple of 64 that is
    /// at most 65,536.
    pub(crate) fn new_true(alloc: Global, len: u64) -> Result<WordMask, AllocError>
        ensures { IfOk result (λ mask. mask ≡ replicate len true) }
    {
        if len <= MOST_SHARED_ROWS && len % 64 == 0 {
            let words = Vec::new(alloc);
            return Ok(WordMask { words, len });
        }
        WordMask::all_of(alloc, len)
    }

    /// The mask that chooses none of that many rows.
    #[tactic(auto, using(crate::proofs::Built::none_mask, crate::proofs::Built::none_rows))]
    pub(crate) fn new_false(alloc: Global, len: u64) -> Result<WordMask, AllocError>
        ensures { IfOk result (λ mask. mask ≡ replicate len false) }
    {
        let count = words_for(len) as usize;
        let mut words = Vec::with_capacity(alloc, count)?;
        words.resize(count, 0)?;
        Ok(WordMask::of_words(words, len))
    }

    /// The mask of these truth values.
    #[tactic(auto, using(crate::proofs::Built::built_none, crate::proofs::Built::built_all, crate::proofs::Built::built_rows))]
    pub(crate) fn of(alloc: Global, bits: Vec<bool>) -> Result<WordMask, AllocError>
        ensures { IfOk result (λ mask. mask ≡ bits.items) }
    {
        let rows = bits.as_slice();
        let len = rows.len() as u64;
        let count = words_for(len);
        let mut words = Vec::with_capacity(alloc, count as usize)?;
        for index in 0..count {
            let start = 64 * index;
            let end = start + part_len(len, index);
            words.push(packed_word(&rows[start as usize..end as usize]))?;
        }
        Ok(WordMask::of_words(words, len))
    }

    /// The rows of a range.
    #[tactic(auto, using(crate::proofs::Built::built_none, crate::proofs::Built::built_all, crate::proofs::Built::built_rows))]
    pub(crate) fn slice(&self, alloc: Global, range: Range<u64>) -> Result<WordMask, AllocError>
        requires forwards { range.start ≤ range.end }
        requires inside { range.end ≤ length self.now }
        ensures { IfOk result (λ mask. mask ≡ slice_range self.now range.start range.end) }
    {
        let all = self.words();
        let start = range.start;
        let end = range.end;
        let len = end - start;
        let count = words_for(len);
        let mut words = Vec::with_capacity(alloc, count as usize)?;
        for index in 0..count {
            words.push(part_of(all, start + 64 * index, part_len(len, index)))?;
        }
        Ok(WordMask::of_words(words, len))
    }

    /// The rows that both masks choose.
    pub(crate) fn and(&self, alloc: Global, other: &WordMask) -> Result<WordMask, AllocError>
        requires { length other.now ≡ length self.now }
        ensures { IfOk result (λ mask. mask ≡ both self.now other.now) }
    {
        let mut words = Vec::from_slice(alloc, self.words())?;
        kernels::and_into(words.as_mut_slice(), other.words());
        Ok(WordMask::of_words(words, self.len()))
    }

    /// The same mask in memory of its own. It takes none where the mask shares its words.
    pub(crate) fn copy(&self, alloc: Global) -> Result<WordMask, AllocError>
        ensures { IfOk result (λ mask. mask ≡ self.now) }
    {
        let words = Vec::from_slice(alloc, self.words.as_slice())?;
        Ok(WordMask {
            words,
            len: self.len,
        })
    }

    /// The truth values, 64 to a word. It takes no memory.
    pub(crate) fn words(&self) -> &[u64]
        ensures count { length result.now ≡ words_for (length self.now) }
        ensures rows { (row : ℕ) → row < length self.now → slice_get self.now row ≡ Some (bit_at (slice_index result.now (row / 64)) (row % 64) == 1) }
        ensures past { (row : ℕ) → length self.now ≤ row → bit_at (slice_index result.now (row / 64)) (row % 64) ≡ 0 }
        ensures number { self.now ≡ low_bits (length self.now) (number_of result.now) }
        ensures fit { Small 64 result.now }
        ensures small { number_of result.now < 2 ^ length self.now }
        ensures bound { length self.now < 2 ^ 64 }
    {
        let words = held_words(self.words.as_slice(), self.len);
        words_fit(words);
        words
    }

    /// How many rows there are.
    pub(crate) fn len(&self) -> u64
        ensures { result ≡ length self.now }
    {
        self.len
    }

    /// How many rows are chosen.
    pub(crate) fn true_count(&self) -> u64
        ensures { result ≡ true_count self.now }
    {
        kernels::count_ones(self.words())
    }

    /// Whether the row, counted from 0, is chosen. It takes no memory.
    pub(crate) fn value(&self, row: u64) -> bool
        requires { row < length self.now }
        ensures { slice_get self.now row ≡ Some result }
    {
        bit_of(self.words(), row)
    }

    /// The first chosen row. None where there is none.
    pub(crate) fn first(&self) -> Option<u64>
        ensures { MatchOption result (NoneTrue self.now 0 (length self.now)) (λ row. IsFirstTrue self.now row) }
    {
        let words = self.words();
        for (index, word) in words.iter().enumerate() {
            let word = *word;
            if word != 0 {
                return Some(64 * index as u64 + word.trailing_zeros() as u64);
            }
        }
        None
    }

    /// The last chosen row. None where there is none.
    pub(crate) fn last(&self) -> Option<u64>
        ensures { MatchOption result (NoneTrue self.now 0 (length self.now)) (λ row. IsLastTrue self.now row) }
    {
        let words = self.words();
        let mut later = words.len();
        while 0 < later {
            let word = words[later - 1];
            if word != 0 {
                return Some(64 * (later as u64 - 1) + (63 - word.leading_zeros() as u64));
            }
            later -= 1;
        }
        None
    }

    /// The mask that chooses these rows of that many.
    #[tactic(auto, using(crate::proofs::Marks::marks_none))]
    pub(crate) fn from_indices(
        alloc: Global,
        len: u64,
        indices: &[u64],
    ) -> Result<WordMask, AllocError>
        requires ascending { Ascend indices.now }
        requires below { All (λ index. index < len) indices.now }
        ensures rows { IfOk result (λ mask. length mask ≡ len) }
        ensures chosen { IfOk result (λ mask. (row : ℕ) → row < len → slice_get mask row ≡ Some (is_among indices.now row)) }
    {
        let count = words_for(len) as usize;
        let mut words = Vec::with_capacity(alloc, count)?;
        words.resize(count, 0)?;
        for index in indices {
            words[(*index / 64) as usize] |= 1 << (*index % 64);
        }
        Ok(WordMask::of_words(words, len))
    }

    /// The chosen rows that the other mask chooses of them: its rows are the chosen rows of this mask. Places are
    /// looked up only where at most one row of a word is chosen, and elsewhere the set bits are walked: looking up one
    /// place costs as much as walking to it.
    pub(crate) fn intersect_by_rank(
        &self,
        alloc: Global,
        other: &WordMask,
    ) -> Result<WordMask, AllocError>
        requires { length other.now ≡ true_count self.now }
        ensures { IfOk result (λ mask. mask ≡ chosen_of_chosen self.now other.now) }
    {
        let ranks = other.words();
        let len = self.len();
        let mut words = Vec::with_capacity(alloc, words_for(len) as usize)?;
        let mut rank = 0;
        for (index, word) in self.words().iter().enumerate() {
            let ones = word.count_ones() as u64;
            let chosen = deposit(*word, part_of(ranks, rank, ones));
            words.push(chosen & low_ones(part_len(len, index as u64)))?;
            rank += ones;
        }
        Ok(WordMask::of_words(words, len))
    }

    /// The mask of so many rows that the bytes spell, eight to a byte, lowest bit first. None where their
    /// number is off or a bit past the last row is set.
    #[tactic(auto, using(crate::proofs::Built::built_none))]
    pub(crate) fn read(
        alloc: Global,
        len: u64,
        bytes: &[u8],
    ) -> Result<Option<WordMask>, AllocError>
        ensures { IfOk result (λ read. MatchOption read (SpellNoRows len bytes.now) (λ mask. (length mask ≡ len) × (packed mask ≡ bytes.now))) }
    {
        if bytes.len() as u64 != len.div_ceil(8) {
            return Ok(None);
        }
        if !is_clear_past(bytes, len) {
            return Ok(None);
        }
        let count = words_for(len);
        let mut words = Vec::with_capacity(alloc, count as usize)?;
        for index in 0..count as usize {
            let end = (8 * index + 8).min(bytes.len());
            words.push(word_of_bytes(&bytes[8 * index..end]))?;
        }
        Ok(Some(WordMask::of_words(words, len)))
    }

    /// Adds the bytes that spell the mask, eight rows to a byte, lowest bit first. It takes the room for all of them
    /// first: where there is none, nothing is added.
    pub(crate) fn append_bytes(&self, into: &mut Vec<u8>) -> Result<(), AllocError>
        ensures added { OnOk result (into.new.items ≡ into.old.items ++ packed self.now) }
        ensures unchanged { OnErr result (into.new.items ≡ into.old.items) }
    {
        let words = self.words();
        let count = self.len().div_ceil(8);
        into.reserve(count as usize)?;
        for index in 0..count {
            into.push_reserved(part_of(words, 8 * index, 8) as u8);
        }
        Ok(())
    }
}
