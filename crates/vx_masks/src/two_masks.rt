//! Masks of two masks, whatever is kept of their rows.

ghost use Rattle.std.specs.Prelude.{◌≡◌, ◌++◌, ◌↔◌, ◌<◌, true, replicate, length, IfOk, IsTrue};
ghost use Rattle.vx_masks.specs.Forms.{rows_in};
ghost use Rattle.vx_masks.specs.Masks.{chosen, chosen_of_chosen, both, either, without, true_count};

use crate::masks::{Form, Mask};
use crate::word_masks::WordMask;
use std::alloc::{AllocError, Global};

impl Mask {
    /// The rows that both masks choose.
    #[tactic(auto, using(crate::proofs::AllRows::both_left, crate::proofs::AllRows::both_right))]
    pub fn and(&self, alloc: Global, other: &Mask) -> Result<Mask, AllocError>
        requires { length other.now ≡ length self.now }
        ensures { IfOk result (λ mask. mask ≡ both self.now other.now) }
    {
        match (self.form(), other.form()) {
            (Form::All(_, _), _) => other.copy(alloc),
            (_, Form::All(_, _)) => self.copy(alloc),
            (Form::Words(ones), Form::Words(others)) => {
                let words = ones.and(alloc, others)?;
                Ok(Mask::in_words(words))
            }
            _ => {
                let ones = self.spread(alloc)?;
                let others = other.spread(alloc)?;
                let words = ones.and(alloc, &others)?;
                Ok(Mask::in_words(words))
            }
        }
    }

    /// The rows that one of the masks chooses.
    #[tactic(auto, using(crate::proofs::AllRows::either_left, crate::proofs::AllRows::either_right))]
    pub fn either(&self, alloc: Global, other: &Mask) -> Result<Mask, AllocError>
        requires { length other.now ≡ length self.now }
        ensures { IfOk result (λ mask. mask ≡ either self.now other.now) }
    {
        match (self.form(), other.form()) {
            (Form::All(_, _), _) => self.copy(alloc),
            (_, Form::All(_, _)) => other.copy(alloc),
            (Form::Words(ones), Form::Words(others)) => {
                let words = ones.either(alloc, others)?;
                Ok(Mask::in_words(words))
            }
            _ => {
                let ones = self.spread(alloc)?;
                let others = other.spread(alloc)?;
                let words = ones.either(alloc, &others)?;
                Ok(Mask::in_words(words))
            }
        }
    }

    /// The rows that this mask chooses and the other doesn't.
    #[tactic(auto, using(crate::proofs::AllRows::without_all))]
    pub fn without(&self, alloc: Global, other: &Mask) -> Result<Mask, AllocError>
        requires { length other.now ≡ length self.now }
        ensures { IfOk result (λ mask. mask ≡ without self.now other.now) }
    {
        match (self.form(), other.form()) {
            (_, Form::All(_, _)) => Mask::new_false(alloc, self.len()),
            (Form::Words(ones), Form::Words(others)) => {
                let words = ones.without(alloc, others)?;
                Ok(Mask::in_words(words))
            }
            _ => {
                let ones = self.spread(alloc)?;
                let others = other.spread(alloc)?;
                let words = ones.without(alloc, &others)?;
                Ok(Mask::in_words(words))
            }
        }
    }

    /// The chosen rows that the other mask chooses of them: its rows are the chosen rows of this mask.
    #[tactic(auto, using(crate::proofs::AllRows::all_by_rank, crate::proofs::AllRows::all_ranks))]
    pub fn intersect_by_rank(&self, alloc: Global, other: &Mask) -> Result<Mask, AllocError>
        requires { length other.now ≡ true_count self.now }
        ensures { IfOk result (λ mask. mask ≡ chosen_of_chosen self.now other.now) }
    {
        match (self.form(), other.form()) {
            (Form::All(_, _), _) => other.copy(alloc),
            (_, Form::All(_, _)) => self.copy(alloc),
            (Form::Words(ones), Form::Words(ranks)) => {
                let words = ones.intersect_by_rank(alloc, ranks)?;
                Ok(Mask::in_words(words))
            }
            _ => {
                let ones = self.spread(alloc)?;
                let ranks = other.spread(alloc)?;
                let words = ones.intersect_by_rank(alloc, &ranks)?;
                Ok(Mask::in_words(words))
            }
        }
    }

    /// The rows of this mask that the other chooses.
    #[tactic(auto, using(crate::proofs::AllRows::all_filtered, crate::proofs::AllRows::all_chosen))]
    pub fn filter(&self, alloc: Global, mask: &Mask) -> Result<Mask, AllocError>
        requires { length mask.now ≡ length self.now }
        ensures { IfOk result (λ kept. kept ≡ chosen mask.now self.now) }
    {
        match (self.form(), mask.form()) {
            (Form::All(_, _), _) => Mask::new_true(alloc, mask.true_count()),
            (_, Form::All(_, _)) => self.copy(alloc),
            (Form::Words(values), Form::Words(mask)) => {
                let words = values.filter(alloc, mask)?;
                Ok(Mask::in_words(words))
            }
            _ => {
                let values = self.spread(alloc)?;
                let mask = mask.spread(alloc)?;
                let words = values.filter(alloc, &mask)?;
                Ok(Mask::in_words(words))
            }
        }
    }

    /// The rows of this mask, and then those of the other. What room this mask has is used. There is no
    /// memory for more rows than 64 bits count.
    pub fn append(self, other: &Mask) -> Result<Mask, AllocError>
        ensures { IfOk result (λ mask. mask ≡ self ++ other.now) }
    {
        match other.form() {
            Form::Words(others) => self.append_words(others),
            Form::All(alloc, _) | Form::Few(alloc, _, _) => {
                let others = other.spread(*alloc)?;
                self.append_words(&others)
            }
        }
    }

    /// The rows of this mask, and then those that the words hold.
    fn append_words(self, others: &WordMask) -> Result<Mask, AllocError>
        ensures { IfOk result (λ mask. mask ≡ self ++ others.now) }
    {
        let words = self.into_words()?;
        let joined = words.append(others)?;
        Ok(Mask::in_words(joined))
    }

    /// Whether there are so many rows, and each of them is chosen.
    #[tactic(auto, using(crate::proofs::AllRows::are_all, crate::proofs::AllRows::are_others))]
    fn is_all_of(&self, rows: u64) -> bool
        ensures { IsTrue result ↔ (self.now ≡ replicate rows true) }
    {
        if self.len() != rows {
            return false;
        }
        self.all_true()
    }

    /// Whether each row of the masks, which have as many, is chosen by both or by none.
    #[tactic(auto, using(crate::proofs::AllRows::rows_differ, crate::proofs::AllRows::agree_next, crate::proofs::AllRows::rows_agree))]
    fn same_rows(&self, other: &Mask) -> bool
        requires { length other.now ≡ length self.now }
        ensures { IsTrue result ↔ (self.now ≡ other.now) }
    {
        for row in 0..self.len() {
            if self.value(row) != other.value(row) {
                return false;
            }
        }
        true
    }

    /// Whether the masks have as many rows and choose the same. It takes no memory.
    pub fn same(&self, other: &Mask) -> bool
        ensures { IsTrue result ↔ (self.now ≡ other.now) }
    {
        match (self.form(), other.form()) {
            (Form::Words(ones), Form::Words(others)) => ones.same(others),
            (Form::All(_, rows), _) => other.is_all_of(*rows),
            (_, Form::All(_, rows)) => self.is_all_of(*rows),
            _ => {
                if self.len() != other.len() {
                    return false;
                }
                self.same_rows(other)
            }
        }
    }
}
