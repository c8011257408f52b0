//! Masks: which rows are chosen.

ghost use Rattle.std.specs.Prelude.{◌≡◌, ◌+◌, ◌++◌, ℕ, ◌^◌, ◌<◌, ◌≤◌, ◌↔◌, [], true, false, replicate, length, slice_get, slice_range, Some, IsTrue, IfOk, OnOk, OnErr, MatchOption};
ghost use Rattle.std.specs.List.{All};
ghost use Rattle.vx_masks.specs.Bytes.{packed, SpellNoRows};
ghost use Rattle.vx_masks.specs.Forms.{rows_in, IsForm};
ghost use Rattle.vx_masks.specs.Masks.{true_count, Ascend, is_among, NoneTrue, IsFirstTrue, IsLastTrue, ChoosesTwice};
ghost use Rattle.vx_masks.specs.Words.{low_bits, number_of, words_for, Small};

use crate::few_rows::{are_within, first_of, has, last_of};
use crate::shared_words::MOST_SHARED_ROWS;
use crate::word_masks::WordMask;
use std::alloc::{AllocError, Global};
use std::marker::Model;
use std::ops::Range;

/// A number of a row takes as much memory as a bit for each of so many rows, twice.
const NUMBER_ROWS: u64 = 128;

/// What a mask keeps of its rows.
#[derive(Debug, Drop)]
pub(crate) enum Form {
    /// A bit for each row.
    Words(WordMask),
    /// How many rows there are, each of which is chosen, and whose memory their words would take.
    All(Global, u64),
    /// The numbers of the chosen rows, in order, and how many rows there are: few of many are chosen.
    Few(Global, Vec<u64>, u64),
}

/// Which rows are chosen, seen as a truth value for each row. More rows than share words keep none where each is chosen,
/// and of few chosen rows the numbers are kept.
#[derive(Debug)]
pub struct Mask {
    form: Form,
}

impl Drop for Mask {
    fn drop(self) {
        let Mask { form: _ } = self;
    }
}

impl Model for Mask {
    ghost use Rattle.std.specs.Prelude.{List, Bool};
    ghost use Rattle.vx_masks.specs.Forms.{rows_in, IsForm};

    ghost Value = { List Bool };

    ghost view = { λ a. rows_in a.form };

    ghost invariant = { λ a. IsForm a.form };
}

/// What a mask chooses of the rows that another chooses, the mask of both chooses at once.
pub fn masks_choose_twice<T>()
    ensures { ChoosesTwice T }
{}

impl Mask {
    /// The mask that these words hold. It takes no memory.
    pub(crate) fn in_words(words: WordMask) -> Mask
        ensures { result ≡ words }
    {
        Mask {
            form: Form::Words(words),
        }
    }

    /// What is kept of the rows. It takes no memory.
    pub(crate) fn form(&self) -> &Form
        ensures rows { rows_in result.now ≡ self.now }
        ensures form { IsForm result.now }
    {
        &self.form
    }

    /// The rows in words of their own.
    #[tactic(auto, using(crate::proofs::FewRows::few_in_words, crate::proofs::FewRows::ascends, crate::proofs::FewRows::all_below))]
    pub(crate) fn spread(&self, alloc: Global) -> Result<WordMask, AllocError>
        ensures { IfOk result (λ words. words ≡ self.now) }
    {
        match &self.form {
            Form::Words(words) => words.copy(alloc),
            Form::All(_, rows) => WordMask::all_of(alloc, *rows),
            Form::Few(_, numbers, rows) => WordMask::from_indices(alloc, *rows, numbers),
        }
    }

    /// The rows in words. It takes no memory where they lie in words already.
    #[tactic(auto, using(crate::proofs::FewRows::few_in_words, crate::proofs::FewRows::ascends, crate::proofs::FewRows::all_below))]
    pub(crate) fn into_words(self) -> Result<WordMask, AllocError>
        ensures { IfOk result (λ words. words ≡ self) }
    {
        let Mask { form } = self;
        match form {
            Form::Words(words) => Ok(words),
            Form::All(alloc, rows) => WordMask::all_of(alloc, rows),
            Form::Few(alloc, numbers, rows) => {
                let words = WordMask::from_indices(alloc, rows, &numbers);
                drop(numbers);
                words
            }
        }
    }

    /// The mask that chooses each of that many rows. It takes no memory where they are more than 65,536, or a multiple of
    /// 64.
    pub fn new_true(alloc: Global, len: u64) -> Result<Mask, AllocError>
        ensures { IfOk result (λ mask. mask ≡ replicate len true) }
    {
        if len > MOST_SHARED_ROWS {
            return Ok(Mask {
                form: Form::All(alloc, len),
            });
        }
        let words = WordMask::new_true(alloc, len)?;
        Ok(Mask::in_words(words))
    }

    /// The mask that chooses none of that many rows.
    pub fn new_false(alloc: Global, len: u64) -> Result<Mask, AllocError>
        ensures { IfOk result (λ mask. mask ≡ replicate len false) }
    {
        let words = WordMask::new_false(alloc, len)?;
        Ok(Mask::in_words(words))
    }

    /// The mask of these truth values.
    pub fn of(alloc: Global, bits: Vec<bool>) -> Result<Mask, AllocError>
        ensures { IfOk result (λ mask. mask ≡ bits.items) }
    {
        let words = WordMask::of(alloc, bits)?;
        Ok(Mask::in_words(words))
    }

    /// No rows, with room for so many. It takes all memory that they need.
    pub fn with_room(alloc: Global, rows: u64) -> Result<Mask, AllocError>
        ensures { IfOk result (λ mask. mask ≡ []) }
    {
        let words = WordMask::with_room(alloc, rows)?;
        Ok(Mask::in_words(words))
    }

    /// The rows of a range.
    #[tactic(auto, using(crate::proofs::AllRows::all_sliced))]
    pub fn slice(&self, alloc: Global, range: Range<u64>) -> Result<Mask, AllocError>
        requires forwards { range.start ≤ range.end }
        requires inside { range.end ≤ length self.now }
        ensures { IfOk result (λ mask. mask ≡ slice_range self.now range.start range.end) }
    {
        match &self.form {
            Form::Words(words) => {
                let words = words.slice(alloc, range)?;
                Ok(Mask::in_words(words))
            }
            Form::All(_, _) => Mask::new_true(alloc, range.end - range.start),
            Form::Few(_, _, _) => {
                let all = self.spread(alloc)?;
                let words = all.slice(alloc, range)?;
                Ok(Mask::in_words(words))
            }
        }
    }

    /// The same mask in memory of its own: in words where there are few chosen rows. It takes none where the mask has no
    /// words of its own and chooses each row.
    pub fn copy(&self, alloc: Global) -> Result<Mask, AllocError>
        ensures { IfOk result (λ mask. mask ≡ self.now) }
    {
        match &self.form {
            Form::Words(words) => {
                let words = words.copy(alloc)?;
                Ok(Mask::in_words(words))
            }
            Form::All(_, rows) => Ok(Mask {
                form: Form::All(alloc, *rows),
            }),
            Form::Few(_, _, _) => {
                let words = self.spread(alloc)?;
                Ok(Mask::in_words(words))
            }
        }
    }

    /// The truth values, 64 to a word, in memory of their own.
    pub fn own_words(&self, alloc: Global) -> Result<Vec<u64>, AllocError>
        ensures count { IfOk result (λ words. length words.items ≡ words_for (length self.now)) }
        ensures number { IfOk result (λ words. self.now ≡ low_bits (length self.now) (number_of words.items)) }
        ensures fit { IfOk result (λ words. Small 64 words.items) }
        ensures small { IfOk result (λ words. number_of words.items < 2 ^ length self.now) }
    {
        let words = self.spread(alloc)?;
        let words = words.into_words()?;
        Ok(words)
    }

    /// How many rows there are.
    #[tactic(auto, using(crate::proofs::AllRows::all_length, crate::proofs::FewRows::few_length))]
    pub fn len(&self) -> u64
        ensures { result ≡ length self.now }
    {
        match &self.form {
            Form::Words(words) => words.len(),
            Form::All(_, rows) | Form::Few(_, _, rows) => *rows,
        }
    }

    /// How many rows are chosen.
    #[tactic(auto, using(crate::proofs::AllRows::all_counted, crate::proofs::FewRows::few_counted))]
    pub fn true_count(&self) -> u64
        ensures { result ≡ true_count self.now }
    {
        match &self.form {
            Form::Words(words) => words.true_count(),
            Form::All(_, rows) => *rows,
            Form::Few(_, numbers, _) => numbers.len() as u64,
        }
    }

    /// Whether the row, counted from 0, is chosen. It takes no memory.
    #[tactic(auto, using(crate::proofs::AllRows::row_of_all, crate::proofs::FewRows::row_of_few))]
    pub fn value(&self, row: u64) -> bool
        requires { row < length self.now }
        ensures { slice_get self.now row ≡ Some result }
    {
        match &self.form {
            Form::Words(words) => words.value(row),
            Form::All(_, _) => true,
            Form::Few(_, numbers, _) => has(numbers, row),
        }
    }

    /// Whether each row is chosen.
    #[tactic(auto, using(crate::proofs::Found::is_full))]
    pub fn all_true(&self) -> bool
        ensures { IsTrue result ↔ All (λ bit. bit ≡ true) self.now }
    {
        self.true_count() == self.len()
    }

    /// Whether no row is chosen.
    pub fn all_false(&self) -> bool
        ensures { IsTrue result ↔ All (λ bit. bit ≡ false) self.now }
    {
        self.true_count() == 0
    }

    /// The first chosen row. None where there is none.
    #[tactic(auto, using(crate::proofs::AllRows::first_of_all, crate::proofs::AllRows::none_of_all))]
    pub fn first(&self) -> Option<u64>
        ensures { MatchOption result (NoneTrue self.now 0 (length self.now)) (λ row. IsFirstTrue self.now row) }
    {
        match &self.form {
            Form::Words(words) => words.first(),
            Form::All(_, rows) => { if *rows == 0 { None } else { Some(0) } }
            Form::Few(_, numbers, rows) => first_of(numbers, *rows),
        }
    }

    /// The last chosen row. None where there is none.
    #[tactic(auto, using(crate::proofs::AllRows::last_of_all, crate::proofs::AllRows::none_of_all))]
    pub fn last(&self) -> Option<u64>
        ensures { MatchOption result (NoneTrue self.now 0 (length self.now)) (λ row. IsLastTrue self.now row) }
    {
        match &self.form {
            Form::Words(words) => words.last(),
            Form::All(_, rows) => { if *rows == 0 { None } else { Some(*rows - 1) } }
            Form::Few(_, numbers, rows) => last_of(numbers, *rows),
        }
    }

    /// The mask that chooses these rows of that many. Where they are few, their numbers are kept.
    #[tactic(auto, using(crate::proofs::FewRows::few_length, crate::proofs::FewRows::few_rows))]
    pub fn from_indices(alloc: Global, len: u64, indices: &[u64]) -> Result<Mask, AllocError>
        requires ascending { Ascend indices.now }
        requires below { All (λ index. index < len) indices.now }
        ensures rows { IfOk result (λ mask. length mask ≡ len) }
        ensures chosen { IfOk result (λ mask. (row : ℕ) → row < len → slice_get mask row ≡ Some (is_among indices.now row)) }
    {
        if indices.len() as u64 <= len / NUMBER_ROWS && are_within(indices, len) {
            let numbers = Vec::from_slice(alloc, indices)?;
            return Ok(Mask {
                form: Form::Few(alloc, numbers, len),
            });
        }
        let words = WordMask::from_indices(alloc, len, indices)?;
        Ok(Mask::in_words(words))
    }

    /// The mask of so many rows that the bytes spell, eight to a byte, lowest bit first. None where their
    /// number is off or a bit past the last row is set.
    pub fn read(alloc: Global, len: u64, bytes: &[u8]) -> Result<Option<Mask>, AllocError>
        ensures { IfOk result (λ read. MatchOption read (SpellNoRows len bytes.now) (λ mask. (length mask ≡ len) × (packed mask ≡ bytes.now))) }
    {
        match WordMask::read(alloc, len, bytes)? {
            Some(words) => Ok(Some(Mask::in_words(words))),
            None => Ok(None),
        }
    }

    /// Adds the bytes that spell the mask, eight rows to a byte, lowest bit first. It takes the room for all of them
    /// first: where there is none, nothing is added.
    pub fn append_bytes(&self, into: &mut Vec<u8>) -> Result<(), AllocError>
        ensures added { OnOk result (into.new.items ≡ into.old.items ++ packed self.now) }
        ensures unchanged { OnErr result (into.new.items ≡ into.old.items) }
    {
        match &self.form {
            Form::Words(words) => words.append_bytes(into),
            Form::All(alloc, _) | Form::Few(alloc, _, _) => {
                let words = self.spread(*alloc)?;
                words.append_bytes(into)
            }
        }
    }
}
