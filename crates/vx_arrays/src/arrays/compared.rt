//! Arrays that hold the same.

ghost use Rattle.std.specs.Prelude.{◌≡◌, ◌<◌, false, length, slice_get, IsTrue, ◌↔◌};
ghost use Rattle.vx_types.specs.Data.{text};
ghost use Rattle.vx_arrays.specs.Buffers.{buffer_type, buffer_values};

use crate::arrays::{Array, Buffers, ChildArrays};
use crate::numbers::Numbers;
use crate::texts::Texts;

/// Whether the texts are the same.
fn same_text(one: &str, other: &str) -> bool
    ensures { IsTrue result ↔ (one.now ≡ other.now) }
{
    one == other
}

impl ChildArrays {
    /// Whether the arrays' values at a row are those of another's arrays at a second row.
    #[cycle(same_row)]
    fn same_row(&self, row: usize, other: &ChildArrays, second: usize) -> bool
        requires members { other.now.members ≡ self.now.members }
        requires inside { row < length self.now.rows }
        requires other_inside { second < length other.now.rows }
        ensures { IsTrue result ↔ (slice_get self.now.rows row ≡ slice_get other.now.rows second) }
    {
        let ones = self.arrays.as_slice();
        let others = other.arrays.as_slice();
        for (place, one) in ones.iter().enumerate() {
            if !one.same_row(row, &others[place], second) {
                return false;
            }
        }
        true
    }
}

impl Buffers {
    /// Whether the slot of a row holds the same as another's slot of a second row.
    #[cycle(same_row)]
    fn same_row(&self, row: usize, other: &Buffers, second: usize) -> bool
        requires dtype { buffer_type other.now ≡ buffer_type self.now }
        requires inside { row < length (buffer_values self.now) }
        requires other_inside { second < length (buffer_values other.now) }
        ensures { IsTrue result ↔ (slice_get (buffer_values self.now) row ≡ slice_get (buffer_values other.now) second) }
    {
        match (self, other) {
            (Buffers::Truths(ones), Buffers::Truths(others)) => {
                ones.value(row as u64) == others.value(second as u64)
            }
            (Buffers::Numbers(ones), Buffers::Numbers(others)) => ones.get(row)
                == others.get(second),
            (Buffers::Texts(ones), Buffers::Texts(others)) => {
                same_text(ones.text(row), others.text(second))
            }
            (Buffers::Structs(ones), Buffers::Structs(others)) => ones.same_row(
                row, others, second,
            ),
            (Buffers::Lists(ones), Buffers::Lists(others)) => {
                ones.value(row as u64) == others.value(second as u64)
            }
            _ => unreachable!(),
        }
    }
}

impl Array {
    /// Whether the value of a row is that of another array's second row.
    #[cycle(same_row)]
    #[tactic(auto, using(crate::proofs::ArrayRanges::array_len))]
    pub fn same_row(&self, row: usize, other: &Array, second: usize) -> bool
        requires dtype { other.now.dtype ≡ self.now.dtype }
        requires inside { row < length self.now.values }
        requires other_inside { second < length other.now.values }
        ensures { IsTrue result ↔ (slice_get self.now.values row ≡ slice_get other.now.values second) }
    {
        if self.validity.value(row as u64) {
            other.validity.value(second as u64)
                && self.buffers.same_row(row, &other.buffers, second)
        } else {
            !other.validity.value(second as u64)
        }
    }

    /// Whether all values are the same, row by row.
    fn same_rows(&self, other: &Array) -> bool
        requires { other.now.dtype ≡ self.now.dtype }
        ensures { IsTrue result ↔ (self.now.values ≡ other.now.values) }
    {
        if self.len() != other.len() {
            return false;
        }
        for row in 0..self.len() {
            if !self.same_row(row, other, row) {
                return false;
            }
        }
        true
    }

    /// Whether the values are the same, in the same order: of leaves, what lies in memory. It takes no
    /// memory.
    pub fn same(&self, other: &Array) -> bool
        requires { other.now.dtype ≡ self.now.dtype }
        ensures { IsTrue result ↔ (self.now.values ≡ other.now.values) }
    {
        match (&self.buffers, &other.buffers) {
            (Buffers::Truths(ones), Buffers::Truths(others)) => {
                self.validity.same(&other.validity) && ones.same(others)
            }
            (Buffers::Numbers(ones), Buffers::Numbers(others)) => {
                self.validity.same(&other.validity) && ones.same(others)
            }
            (Buffers::Texts(ones), Buffers::Texts(others)) => {
                self.validity.same(&other.validity) && ones.same(others)
            }
            _ => self.same_rows(other),
        }
    }
}
