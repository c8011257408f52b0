//! Whole numbers of one of the eight kinds. Each call is that of the numbers of the kind.

ghost use Rattle.std.specs.Prelude.{◌≡◌, ◌≤◌, ◌<◌, ◌↔◌, ◌-◌, ◌*◌, ◌++◌, [], length, slice_get, slice_range, pos, Some, IsTrue, IfOk, OnOk, OnErr};
ghost use Rattle.std.specs.List.{AllByRecursion, flat_map};
ghost use Rattle.std.specs.Int.{byte_len};
ghost use Rattle.vx_types.specs.Fits.{IsInside};
ghost use Rattle.vx_masks.specs.Masks.{chosen};
ghost use Rattle.vx_types.specs.Slots.{number_bytes, width_of};
ghost use Rattle.vx_arrays.specs.Numbers.{kind_in, numbers_in};
ghost use Rattle.vx_arrays.specs.Places.{places_in};
ghost use Rattle.vx_masks.specs.Rows.{taken, NullsHold};

use crate::primitives::Primitive;
use std::alloc::{AllocError, Global};
use std::ops::Range;
use vx_masks::Mask;
use vx_types::IntKind;

/// Whole numbers of a kind, in order.
pub enum Numbers {
    U8(Primitive<u8>),
    U16(Primitive<u16>),
    U32(Primitive<u32>),
    U64(Primitive<u64>),
    I8(Primitive<i8>),
    I16(Primitive<i16>),
    I32(Primitive<i32>),
    I64(Primitive<i64>),
}

impl Drop for Numbers {
    fn drop(self) {
        match self {
            Numbers::U8(_) => {}
            Numbers::U16(_) => {}
            Numbers::U32(_) => {}
            Numbers::U64(_) => {}
            Numbers::I8(_) => {}
            Numbers::I16(_) => {}
            Numbers::I32(_) => {}
            Numbers::I64(_) => {}
        }
    }
}

/// What an expression gives for the numbers of whichever kind.
macro_rules! of_each_kind {
    ($numbers:expr, $of:ident => $given:expr) => {
        match $numbers {
            Numbers::U8($of) => $given,
            Numbers::U16($of) => $given,
            Numbers::U32($of) => $given,
            Numbers::U64($of) => $given,
            Numbers::I8($of) => $given,
            Numbers::I16($of) => $given,
            Numbers::I32($of) => $given,
            Numbers::I64($of) => $given,
        }
    };
}

/// What is made of the numbers of whichever kind, as numbers of the same kind.
macro_rules! as_each_kind {
    ($numbers:expr, $of:ident => $made:expr) => {
        match $numbers {
            Numbers::U8($of) => $made.map(Numbers::U8),
            Numbers::U16($of) => $made.map(Numbers::U16),
            Numbers::U32($of) => $made.map(Numbers::U32),
            Numbers::U64($of) => $made.map(Numbers::U64),
            Numbers::I8($of) => $made.map(Numbers::I8),
            Numbers::I16($of) => $made.map(Numbers::I16),
            Numbers::I32($of) => $made.map(Numbers::I32),
            Numbers::I64($of) => $made.map(Numbers::I64),
        }
    };
}

/// What is made for a kind, as numbers of it.
macro_rules! for_kind {
    ($kind:expr, $made:expr) => {
        match $kind {
            IntKind::U8 => $made.map(Numbers::U8),
            IntKind::U16 => $made.map(Numbers::U16),
            IntKind::U32 => $made.map(Numbers::U32),
            IntKind::U64 => $made.map(Numbers::U64),
            IntKind::I8 => $made.map(Numbers::I8),
            IntKind::I16 => $made.map(Numbers::I16),
            IntKind::I32 => $made.map(Numbers::I32),
            IntKind::I64 => $made.map(Numbers::I64),
        }
    };
}

impl Numbers {
    /// The kind of the numbers.
    pub fn kind(&self) -> IntKind
        ensures { result ≡ kind_in self.now }
    {
        match self {
            Numbers::U8(_) => IntKind::U8,
            Numbers::U16(_) => IntKind::U16,
            Numbers::U32(_) => IntKind::U32,
            Numbers::U64(_) => IntKind::U64,
            Numbers::I8(_) => IntKind::I8,
            Numbers::I16(_) => IntKind::I16,
            Numbers::I32(_) => IntKind::I32,
            Numbers::I64(_) => IntKind::I64,
        }
    }

    /// How many numbers there are.
    pub fn len(&self) -> usize
        ensures count { result ≡ length (numbers_in self.now) }
        ensures inside { AllByRecursion (IsInside (kind_in self.now)) (numbers_in self.now) }
    {
        of_each_kind!(self, numbers => numbers.len())
    }

    /// The numbers of a range of rows.
    pub fn slice(&self, alloc: Global, rows: Range<usize>) -> Result<Numbers, AllocError>
        requires forwards { rows.start ≤ rows.end }
        requires inside { rows.end ≤ length (numbers_in self.now) }
        ensures kind { IfOk result (λ numbers. kind_in numbers ≡ kind_in self.now) }
        ensures numbers { IfOk result (λ numbers. numbers_in numbers ≡ slice_range (numbers_in self.now) rows.start rows.end) }
    {
        as_each_kind!(self, numbers => numbers.slice(alloc, rows))
    }

    /// The numbers that the mask chooses.
    pub fn filter(&self, alloc: Global, mask: &Mask) -> Result<Numbers, AllocError>
        requires { length mask.now ≡ length (numbers_in self.now) }
        ensures kind { IfOk result (λ numbers. kind_in numbers ≡ kind_in self.now) }
        ensures numbers { IfOk result (λ numbers. numbers_in numbers ≡ chosen mask.now (numbers_in self.now)) }
    {
        as_each_kind!(self, numbers => numbers.filter(alloc, mask))
    }

    /// The numbers of a range of rows that the mask chooses of them.
    pub fn filter_range(
        &self,
        alloc: Global,
        rows: Range<usize>,
        mask: &Mask,
    ) -> Result<Numbers, AllocError>
        requires forwards { rows.start ≤ rows.end }
        requires inside { rows.end ≤ length (numbers_in self.now) }
        requires masked { length mask.now ≡ rows.end - rows.start }
        ensures kind { IfOk result (λ numbers. kind_in numbers ≡ kind_in self.now) }
        ensures numbers { IfOk result (λ numbers. numbers_in numbers ≡ chosen mask.now (slice_range (numbers_in self.now) rows.start rows.end)) }
    {
        as_each_kind!(self, numbers => numbers.filter_range(alloc, rows, mask))
    }

    /// The numbers at these places, and 0 at a place past the last row.
    pub fn take(&self, alloc: Global, places: &[usize]) -> Result<Numbers, AllocError>
        ensures kind { IfOk result (λ numbers. kind_in numbers ≡ kind_in self.now) }
        ensures numbers { IfOk result (λ numbers. numbers_in numbers ≡ taken (pos 0) (numbers_in self.now) places.now) }
    {
        as_each_kind!(self, numbers => numbers.take(alloc, places))
    }

    /// The number of a row, counted from 0. It takes no memory.
    pub fn get(&self, row: usize) -> i128
        requires { row < length (numbers_in self.now) }
        ensures { slice_get (numbers_in self.now) row ≡ Some result }
    {
        of_each_kind!(self, numbers => numbers.get(row))
    }

    /// Copies other numbers of the same kind behind these, or none of them where there is no room. It takes no memory
    /// where there is.
    pub fn append(&mut self, other: &Numbers) -> Result<(), AllocError>
        requires { kind_in other.now ≡ kind_in self.old }
        ensures kind { OnOk result (kind_in self.new ≡ kind_in self.old) }
        ensures numbers { OnOk result (numbers_in self.new ≡ numbers_in self.old ++ numbers_in other.now) }
        ensures same_kind { OnErr result (kind_in self.new ≡ kind_in self.old) }
        ensures unchanged { OnErr result (numbers_in self.new ≡ numbers_in self.old) }
    {
        match (self, other) {
            (Numbers::U8(numbers), Numbers::U8(other)) => numbers.append(other),
            (Numbers::U16(numbers), Numbers::U16(other)) => numbers.append(other),
            (Numbers::U32(numbers), Numbers::U32(other)) => numbers.append(other),
            (Numbers::U64(numbers), Numbers::U64(other)) => numbers.append(other),
            (Numbers::I8(numbers), Numbers::I8(other)) => numbers.append(other),
            (Numbers::I16(numbers), Numbers::I16(other)) => numbers.append(other),
            (Numbers::I32(numbers), Numbers::I32(other)) => numbers.append(other),
            (Numbers::I64(numbers), Numbers::I64(other)) => numbers.append(other),
            _ => unreachable!(),
        }
    }

    /// Whether kind and numbers are the same, the numbers in the same order. It takes no memory.
    pub fn same(&self, other: &Numbers) -> bool
        ensures { IsTrue result ↔ ((kind_in self.now ≡ kind_in other.now) × (numbers_in self.now ≡ numbers_in other.now)) }
    {
        match (self, other) {
            (Numbers::U8(ones), Numbers::U8(others)) => ones.same(others),
            (Numbers::U16(ones), Numbers::U16(others)) => ones.same(others),
            (Numbers::U32(ones), Numbers::U32(others)) => ones.same(others),
            (Numbers::U64(ones), Numbers::U64(others)) => ones.same(others),
            (Numbers::I8(ones), Numbers::I8(others)) => ones.same(others),
            (Numbers::I16(ones), Numbers::I16(others)) => ones.same(others),
            (Numbers::I32(ones), Numbers::I32(others)) => ones.same(others),
            (Numbers::I64(ones), Numbers::I64(others)) => ones.same(others),
            _ => false,
        }
    }

    /// The numbers of a kind, of so many rows, that the bytes spell, lowest byte first.
    pub fn read(
        alloc: Global,
        kind: IntKind,
        rows: usize,
        bytes: &[u8],
    ) -> Result<Numbers, AllocError>
        requires { length bytes.now ≡ rows * byte_len (width_of kind) }
        ensures kind { IfOk result (λ numbers. kind_in numbers ≡ kind) }
        ensures count { IfOk result (λ numbers. length (numbers_in numbers) ≡ rows) }
        ensures spelled { IfOk result (λ numbers. flat_map (number_bytes kind) (numbers_in numbers) ≡ bytes.now) }
    {
        for_kind!(kind, Primitive::read(alloc, rows, bytes))
    }

    /// No numbers of a kind, with room for so many.
    pub fn with_room(alloc: Global, kind: IntKind, rows: usize) -> Result<Numbers, AllocError>
        ensures kind { IfOk result (λ numbers. kind_in numbers ≡ kind) }
        ensures numbers { IfOk result (λ numbers. numbers_in numbers ≡ []) }
    {
        for_kind!(kind, Primitive::with_room(alloc, rows))
    }

    /// Writes the bytes of all numbers, lowest byte first, or none of them where there is no room.
    pub fn write(&self, bytes: &mut Vec<u8>) -> Result<(), AllocError>
        ensures written { OnOk result (bytes.new.items ≡ bytes.old.items ++ flat_map (number_bytes (kind_in self.now)) (numbers_in self.now)) }
        ensures unchanged { OnErr result (bytes.new.items ≡ bytes.old.items) }
    {
        of_each_kind!(self, numbers => numbers.write(bytes))
    }

    /// Whether each row that is not valid holds 0. It takes no memory.
    pub fn hold_zero(&self, valid: &Mask) -> bool
        requires { length valid.now ≡ length (numbers_in self.now) }
        ensures { IsTrue result ↔ NullsHold (pos 0) valid.now (numbers_in self.now) }
    {
        of_each_kind!(self, numbers => numbers.hold_zero(valid))
    }

    /// The numbers as places of so many rows: a row that is not valid has the place past the last one.
    pub fn places(&self, alloc: Global, valid: &Mask, past: usize) -> Result<Vec<usize>, AllocError>
        requires { length valid.now ≡ length (numbers_in self.now) }
        ensures { IfOk result (λ places. places.items ≡ places_in past valid.now (numbers_in self.now)) }
    {
        of_each_kind!(self, numbers => numbers.places(alloc, valid, past))
    }
}
