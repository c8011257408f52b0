//! Whole numbers that are compared and joined as numbers of their kind.

ghost use Rattle.std.specs.Prelude.{◌≡◌, pos, map, option_map};
ghost use Rattle.std.specs.Ordering.{int_cmp};
ghost use Rattle.vx_types.specs.declared.dtypes.IntKind.TheVariants.{U8, U16, U32, U64, I8, I16, I32, I64};
ghost use Rattle.vx_arrays.specs.Numbers.{kind_in, numbers_in};
ghost use Rattle.vx_operators.specs.Kernels.{exact_inside};

use crate::operators::ArithOp;
use std::cmp::Ordering;
use vx_arrays::{Kind, Numbers, Primitive};

/// A kind of whole numbers, with its order and its arithmetic.
pub trait Integer: Kind {
    /// Which of two numbers is less.
    fn order(self, other: Self) -> Ordering
        ensures { result ≡ int_cmp (Self.number self) (Self.number other) };

    /// The exact result. None where there is none inside the kind.
    fn joined(self, op: ArithOp, other: Self) -> Option<Self>
        ensures { option_map Self.number result ≡ exact_inside Self.kind op (Self.number self) (Self.number other) };

    /// The numbers of this kind, where they are of it. It takes no memory.
    fn of_kind(numbers: &Numbers) -> &[Self]
        requires { kind_in numbers.now ≡ Self.kind }
        ensures { map Self.number result.now ≡ numbers_in numbers.now };

    /// The numbers of this kind as numbers of whichever kind. It takes no memory.
    fn as_numbers(numbers: Vec<Self>) -> Numbers
        ensures kind { kind_in result ≡ Self.kind }
        ensures numbers { numbers_in result ≡ map Self.number numbers.items };
}

impl Integer for u8 {
    #[inline]
    fn order(self, other: Self) -> Ordering {
        self.cmp(&other)
    }

    #[inline]
    fn joined(self, op: ArithOp, other: Self) -> Option<Self> {
        match op {
            ArithOp::Add => self.checked_add(other),
            ArithOp::Sub => self.checked_sub(other),
            ArithOp::Mul => self.checked_mul(other),
            ArithOp::Div => self.checked_div(other),
        }
    }

    fn of_kind(numbers: &Numbers) -> &[Self] {
        match numbers {
            Numbers::U8(numbers) => numbers.as_slice(),
            _ => unreachable!(),
        }
    }

    fn as_numbers(numbers: Vec<Self>) -> Numbers
        ensures kind { kind_in result ≡ U8 }
        ensures numbers { numbers_in result ≡ map pos numbers.items }
    {
        Numbers::U8(Primitive::of(numbers))
    }
}

impl Integer for u16 {
    #[inline]
    fn order(self, other: Self) -> Ordering {
        self.cmp(&other)
    }

    #[inline]
    fn joined(self, op: ArithOp, other: Self) -> Option<Self> {
        match op {
            ArithOp::Add => self.checked_add(other),
            ArithOp::Sub => self.checked_sub(other),
            ArithOp::Mul => self.checked_mul(other),
            ArithOp::Div => self.checked_div(other),
        }
    }

    fn of_kind(numbers: &Numbers) -> &[Self] {
        match numbers {
            Numbers::U16(numbers) => numbers.as_slice(),
            _ => unreachable!(),
        }
    }

    fn as_numbers(numbers: Vec<Self>) -> Numbers
        ensures kind { kind_in result ≡ U16 }
        ensures numbers { numbers_in result ≡ map pos numbers.items }
    {
        Numbers::U16(Primitive::of(numbers))
    }
}

impl Integer for u32 {
    #[inline]
    fn order(self, other: Self) -> Ordering {
        self.cmp(&other)
    }

    #[inline]
    fn joined(self, op: ArithOp, other: Self) -> Option<Self> {
        match op {
            ArithOp::Add => self.checked_add(other),
            ArithOp::Sub => self.checked_sub(other),
            ArithOp::Mul => self.checked_mul(other),
            ArithOp::Div => self.checked_div(other),
        }
    }

    fn of_kind(numbers: &Numbers) -> &[Self] {
        match numbers {
            Numbers::U32(numbers) => numbers.as_slice(),
            _ => unreachable!(),
        }
    }

    fn as_numbers(numbers: Vec<Self>) -> Numbers
        ensures kind { kind_in result ≡ U32 }
        ensures numbers { numbers_in result ≡ map pos numbers.items }
    {
        Numbers::U32(Primitive::of(numbers))
    }
}

impl Integer for u64 {
    #[inline]
    fn order(self, other: Self) -> Ordering {
        self.cmp(&other)
    }

    #[inline]
    fn joined(self, op: ArithOp, other: Self) -> Option<Self> {
        match op {
            ArithOp::Add => self.checked_add(other),
            ArithOp::Sub => self.checked_sub(other),
            ArithOp::Mul => self.checked_mul(other),
            ArithOp::Div => self.checked_div(other),
        }
    }

    fn of_kind(numbers: &Numbers) -> &[Self] {
        match numbers {
            Numbers::U64(numbers) => numbers.as_slice(),
            _ => unreachable!(),
        }
    }

    fn as_numbers(numbers: Vec<Self>) -> Numbers
        ensures kind { kind_in result ≡ U64 }
        ensures numbers { numbers_in result ≡ map pos numbers.items }
    {
        Numbers::U64(Primitive::of(numbers))
    }
}

impl Integer for i8 {
    #[inline]
    fn order(self, other: Self) -> Ordering {
        self.cmp(&other)
    }

    #[inline]
    fn joined(self, op: ArithOp, other: Self) -> Option<Self> {
        match op {
            ArithOp::Add => self.checked_add(other),
            ArithOp::Sub => self.checked_sub(other),
            ArithOp::Mul => self.checked_mul(other),
            ArithOp::Div => self.checked_div(other),
        }
    }

    fn of_kind(numbers: &Numbers) -> &[Self] {
        match numbers {
            Numbers::I8(numbers) => numbers.as_slice(),
            _ => unreachable!(),
        }
    }

    fn as_numbers(numbers: Vec<Self>) -> Numbers
        ensures kind { kind_in result ≡ I8 }
        ensures numbers { numbers_in result ≡ map (λ n. n) numbers.items }
    {
        Numbers::I8(Primitive::of(numbers))
    }
}

impl Integer for i16 {
    #[inline]
    fn order(self, other: Self) -> Ordering {
        self.cmp(&other)
    }

    #[inline]
    fn joined(self, op: ArithOp, other: Self) -> Option<Self> {
        match op {
            ArithOp::Add => self.checked_add(other),
            ArithOp::Sub => self.checked_sub(other),
            ArithOp::Mul => self.checked_mul(other),
            ArithOp::Div => self.checked_div(other),
        }
    }

    fn of_kind(numbers: &Numbers) -> &[Self] {
        match numbers {
            Numbers::I16(numbers) => numbers.as_slice(),
            _ => unreachable!(),
        }
    }

    fn as_numbers(numbers: Vec<Self>) -> Numbers
        ensures kind { kind_in result ≡ I16 }
        ensures numbers { numbers_in result ≡ map (λ n. n) numbers.items }
    {
        Numbers::I16(Primitive::of(numbers))
    }
}

impl Integer for i32 {
    #[inline]
    fn order(self, other: Self) -> Ordering {
        self.cmp(&other)
    }

    #[inline]
    fn joined(self, op: ArithOp, other: Self) -> Option<Self> {
        match op {
            ArithOp::Add => self.checked_add(other),
            ArithOp::Sub => self.checked_sub(other),
            ArithOp::Mul => self.checked_mul(other),
            ArithOp::Div => self.checked_div(other),
        }
    }

    fn of_kind(numbers: &Numbers) -> &[Self] {
        match numbers {
            Numbers::I32(numbers) => numbers.as_slice(),
            _ => unreachable!(),
        }
    }

    fn as_numbers(numbers: Vec<Self>) -> Numbers
        ensures kind { kind_in result ≡ I32 }
        ensures numbers { numbers_in result ≡ map (λ n. n) numbers.items }
    {
        Numbers::I32(Primitive::of(numbers))
    }
}

impl Integer for i64 {
    #[inline]
    fn order(self, other: Self) -> Ordering {
        self.cmp(&other)
    }

    #[inline]
    fn joined(self, op: ArithOp, other: Self) -> Option<Self> {
        match op {
            ArithOp::Add => self.checked_add(other),
            ArithOp::Sub => self.checked_sub(other),
            ArithOp::Mul => self.checked_mul(other),
            ArithOp::Div => self.checked_div(other),
        }
    }

    fn of_kind(numbers: &Numbers) -> &[Self] {
        match numbers {
            Numbers::I64(numbers) => numbers.as_slice(),
            _ => unreachable!(),
        }
    }

    fn as_numbers(numbers: Vec<Self>) -> Numbers
        ensures kind { kind_in result ≡ I64 }
        ensures numbers { numbers_in result ≡ map (λ n. n) numbers.items }
    {
        Numbers::I64(Primitive::of(numbers))
    }
}
