//! What the rows of an array hold, looked at where it stands.

ghost use Rattle.std.specs.Prelude.{◌≡◌, ◌<◌, ◌↔◌, Some, length, map, slice_get, IfSome, IsSome};
ghost use Rattle.vx_types.specs.Names.{names_in};
ghost use Rattle.vx_types.specs.ValueViews.{data_in};
ghost use Rattle.vx_arrays.specs.ArrayViews.{view_type, view_values, IsArrayView};

use crate::arrays::{Array, Buffers, ChildArrays};
use crate::numbers::Numbers;
use crate::texts::Texts;
use vx_masks::Mask;

/// Which rows of an array are valid, and what all rows hold, where it stands. A list has no buffers.
#[derive(Clone, Copy)]
pub enum ArrayView<'a> {
    Truths(&'a Mask, &'a Mask),
    Numbers(&'a Mask, &'a Numbers),
    Texts(&'a Mask, &'a Texts),
    Structs(&'a Mask, &'a ChildArrays),
    Lists(&'a Mask, &'a Mask),
}

impl ChildArrays {
    /// The array at a place, where it stands. None where there are no more than so many. It takes no memory.
    pub fn array(&self, place: usize) -> Option<&Array>
        ensures found { IfSome result (λ array. map (λ vs. slice_get (data_in vs) place) self.now.rows ≡ map Some array.now.values) }
        ensures there { IsSome result ↔ (place < length (names_in self.now.members)) }
    {
        match self.arrays.as_slice().get(place) {
            Some(shared) => Some(shared.array()),
            None => None,
        }
    }
}

impl Array {
    /// What the rows hold, where it stands. It takes no memory.
    #[tactic(auto, using(crate::proofs::ViewedArrays::view_numbers, crate::proofs::ViewedArrays::view_texts, crate::proofs::ViewedArrays::view_structs, crate::proofs::ViewedArrays::view_lists))]
    pub fn array_view(&self) -> ArrayView<'_>
        ensures dtype { view_type result ≡ self.now.dtype }
        ensures values { view_values result ≡ self.now.values }
        ensures array_view { IsArrayView result }
    {
        match &self.buffers {
            Buffers::Truths(truths) => ArrayView::Truths(&self.validity, truths),
            Buffers::Numbers(numbers) => ArrayView::Numbers(&self.validity, numbers),
            Buffers::Texts(texts) => ArrayView::Texts(&self.validity, texts),
            Buffers::Structs(arrays) => ArrayView::Structs(&self.validity, arrays),
            Buffers::Lists(blanks) => ArrayView::Lists(&self.validity, blanks),
        }
    }
}
