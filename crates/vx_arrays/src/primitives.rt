//! Numbers of one kind, in a vector of the kind's type.

ghost use Rattle.std.specs.Prelude.{◌≡◌, ◌≤◌, ◌<◌, ◌↔◌, ◌-◌, ◌*◌, ◌++◌, [], length, map, slice_get, slice_range, pos, Some, IsTrue, IfOk, OnOk, OnErr};
ghost use Rattle.std.specs.List.{AllByRecursion, flat_map};
ghost use Rattle.std.specs.Int.{byte_len};
ghost use Rattle.vx_types.specs.Fits.{IsInside};
ghost use Rattle.vx_masks.specs.Masks.{chosen};
ghost use Rattle.vx_types.specs.Slots.{number_bytes, width_of};
ghost use Rattle.vx_arrays.specs.Places.{places_in};
ghost use Rattle.vx_masks.specs.Rows.{taken, Holds, NullsHold};

use crate::kinds::{Kind, lie_inside};
use crate::places::place_of;
use crate::rows::{leaves_none, taken_rows};
use std::alloc::{AllocError, Global};
use std::marker::Model;
use std::ops::Range;
use vx_masks::Mask;

/// Numbers of one kind, in order, seen as whole numbers.
#[derive(Drop)]
pub struct Primitive<T: Kind> {
    numbers: Vec<T>,
}

impl<T: Kind> Model for Primitive<T> {
    ghost use Rattle.std.specs.Prelude.{List, ℤ, map};

    ghost Value = { List ℤ };

    ghost view = { λ a. map T.number a.numbers.items };
}

/// Whether a row that is not valid holds 0.
fn holds_zero<T: Kind>(valid: bool, number: T) -> bool
    ensures { IsTrue result ↔ Holds (pos 0) valid (T.number number) }
{
    valid || number.same(T::zero())
}

impl<T: Kind> Primitive<T> {
    /// The numbers of a vector. It takes no memory.
    pub fn of(numbers: Vec<T>) -> Primitive<T>
        ensures { result ≡ map T.number numbers.items }
    {
        Primitive { numbers }
    }

    /// No numbers, with room for so many.
    pub fn with_room(alloc: Global, rows: usize) -> Result<Primitive<T>, AllocError>
        ensures { IfOk result (λ numbers. numbers ≡ []) }
    {
        let numbers = Vec::with_capacity(alloc, rows)?;
        Ok(Primitive { numbers })
    }

    /// The numbers, in order. It takes no memory.
    pub fn as_slice(&self) -> &[T]
        ensures { map T.number result.now ≡ self.now }
    {
        self.numbers.as_slice()
    }

    /// How many numbers there are.
    pub fn len(&self) -> usize
        ensures count { result ≡ length self.now }
        ensures inside { AllByRecursion (IsInside T.kind) self.now }
    {
        let numbers = self.as_slice();
        lie_inside(numbers);
        numbers.len()
    }

    /// The numbers of a range of rows.
    #[tactic(auto, using(crate::proofs::MappedRows::map_range))]
    pub fn slice(&self, alloc: Global, rows: Range<usize>) -> Result<Primitive<T>, AllocError>
        requires forwards { rows.start ≤ rows.end }
        requires inside { rows.end ≤ length self.now }
        ensures { IfOk result (λ numbers. numbers ≡ slice_range self.now rows.start rows.end) }
    {
        let part = &self.as_slice()[rows.start..rows.end];
        let numbers = Vec::from_slice(alloc, part)?;
        Ok(Primitive { numbers })
    }

    /// The numbers that the mask chooses.
    #[tactic(auto, using(crate::proofs::MappedRows::map_chosen))]
    pub fn filter(&self, alloc: Global, mask: &Mask) -> Result<Primitive<T>, AllocError>
        requires { length mask.now ≡ length self.now }
        ensures { IfOk result (λ numbers. numbers ≡ chosen mask.now self.now) }
    {
        let numbers = vx_masks::filter(alloc, mask, self.as_slice())?;
        Ok(Primitive { numbers })
    }

    /// The numbers of a range of rows that the mask chooses of them.
    #[tactic(auto, using(crate::proofs::MappedRows::map_range_chosen))]
    pub fn filter_range(
        &self,
        alloc: Global,
        rows: Range<usize>,
        mask: &Mask,
    ) -> Result<Primitive<T>, AllocError>
        requires forwards { rows.start ≤ rows.end }
        requires inside { rows.end ≤ length self.now }
        requires masked { length mask.now ≡ rows.end - rows.start }
        ensures { IfOk result (λ numbers. numbers ≡ chosen mask.now (slice_range self.now rows.start rows.end)) }
    {
        let part = &self.as_slice()[rows.start..rows.end];
        let numbers = vx_masks::filter(alloc, mask, part)?;
        Ok(Primitive { numbers })
    }

    /// The numbers at these places, and 0 at a place past the last row.
    #[tactic(auto, using(crate::proofs::MappedRows::map_taken))]
    pub fn take(&self, alloc: Global, places: &[usize]) -> Result<Primitive<T>, AllocError>
        ensures { IfOk result (λ numbers. numbers ≡ taken (pos 0) self.now places.now) }
    {
        let numbers = taken_rows(alloc, self.as_slice(), places, T::zero())?;
        Ok(Primitive { numbers })
    }

    /// Copies other numbers behind these, or none of them where there is no room. It takes no memory where there is.
    pub fn append(&mut self, other: &Primitive<T>) -> Result<(), AllocError>
        ensures appended { OnOk result (self.new ≡ self.old ++ other.now) }
        ensures unchanged { OnErr result (self.new ≡ self.old) }
    {
        self.numbers.extend_from_slice(other.as_slice())
    }

    /// The number of a row, counted from 0. It takes no memory.
    pub fn get(&self, row: usize) -> i128
        requires { row < length self.now }
        ensures { slice_get self.now row ≡ Some result }
    {
        self.as_slice()[row].to_i128()
    }

    /// Whether the numbers are the same, in the same order. It takes no memory.
    pub fn same(&self, other: &Primitive<T>) -> bool
        ensures { IsTrue result ↔ (self.now ≡ other.now) }
    {
        let ones = self.as_slice();
        let others = other.as_slice();
        if ones.len() != others.len() {
            return false;
        }
        for (row, one) in ones.iter().enumerate() {
            if !one.same(others[row]) {
                return false;
            }
        }
        true
    }

    /// The numbers of so many rows that the bytes spell, lowest byte first.
    pub fn read(alloc: Global, rows: usize, bytes: &[u8]) -> Result<Primitive<T>, AllocError>
        requires { length bytes.now ≡ rows * byte_len (width_of T.kind) }
        ensures count { IfOk result (λ numbers. length numbers ≡ rows) }
        ensures spelled { IfOk result (λ numbers. flat_map (number_bytes T.kind) numbers ≡ bytes.now) }
    {
        let mut numbers = Vec::with_capacity(alloc, rows)?;
        let mut rest = bytes;
        for _row in 0..rows {
            let (number, after) = T::read(rest);
            numbers.push(number)?;
            rest = after;
        }
        Ok(Primitive { numbers })
    }

    /// Writes the bytes of all numbers, lowest byte first. Where one finds no room, none stays written.
    pub fn write(&self, bytes: &mut Vec<u8>) -> Result<(), AllocError>
        ensures written { OnOk result (bytes.new.items ≡ bytes.old.items ++ flat_map (number_bytes T.kind) self.now) }
        ensures unchanged { OnErr result (bytes.new.items ≡ bytes.old.items) }
    {
        let before = bytes.len();
        let numbers = self.as_slice();
        for number in numbers {
            if let Err(error) = number.write(bytes) {
                bytes.truncate(before);
                return Err(error);
            }
        }
        Ok(())
    }

    /// Whether each row that is not valid holds 0. It takes no memory.
    pub fn hold_zero(&self, valid: &Mask) -> bool
        requires { length valid.now ≡ length self.now }
        ensures { IsTrue result ↔ NullsHold (pos 0) valid.now self.now }
    {
        if leaves_none(valid) {
            return true;
        }
        let numbers = self.as_slice();
        for (row, number) in numbers.iter().enumerate() {
            if !holds_zero(valid.value(row as u64), *number) {
                return false;
            }
        }
        true
    }

    /// The numbers as places of so many rows: a row that is not valid has the place past the last one.
    pub fn places(&self, alloc: Global, valid: &Mask, past: usize) -> Result<Vec<usize>, AllocError>
        requires { length valid.now ≡ length self.now }
        ensures { IfOk result (λ places. places.items ≡ places_in past valid.now self.now) }
    {
        let numbers = self.as_slice();
        let mut places = Vec::with_capacity(alloc, numbers.len())?;
        for (row, number) in numbers.iter().enumerate() {
            places.push(place_of(valid.value(row as u64), *number, past))?;
        }
        Ok(places)
    }
}
