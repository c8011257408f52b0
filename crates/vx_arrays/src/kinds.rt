//! The kinds of whole numbers as types: what each of the eight kinds gives, so that numbers of a kind are
//! written and proved once.

ghost use Rattle.std.specs.Prelude.{◌≡◌, ◌≤◌, ◌↔◌, ◌++◌, ℤ, pos, length, map, IsTrue, OnOk, OnErr};
ghost use Rattle.std.specs.List.{AllByRecursion};
ghost use Rattle.std.specs.Int.{byte_len};
ghost use Rattle.vx_types.specs.declared.dtypes.IntKind.{IntKind};
ghost use Rattle.vx_types.specs.declared.dtypes.IntKind.TheVariants.{U8, U16, U32, U64, I8, I16, I32, I64};
ghost use Rattle.vx_types.specs.Fits.{IsInside};
ghost use Rattle.vx_types.specs.Slots.{number_bytes, width_of};

use std::alloc::AllocError;

/// A type whose values are the whole numbers of a kind.
pub trait Kind: Copy {
    ghost kind: { IntKind };

    /// The whole number that a value is.
    ghost number: { Self → ℤ };

    /// How many bytes a number has in a segment.
    fn width() -> usize
        ensures { result ≡ byte_len (width_of kind) };

    /// The number 0.
    fn zero() -> Self
        ensures { number result ≡ pos 0 };

    /// The number that the first bytes spell, and the bytes behind them.
    fn read(bytes: &[u8]) -> (Self, &[u8])
        requires { byte_len (width_of kind) ≤ length bytes.now }
        ensures { bytes.now ≡ number_bytes kind (number result.0) ++ result.1.now };

    /// Writes the bytes of the number, or none of them where there is no room.
    fn write(self, bytes: &mut Vec<u8>) -> Result<(), AllocError>
        ensures written { OnOk result (bytes.new.items ≡ bytes.old.items ++ number_bytes kind (number self)) }
        ensures unchanged { OnErr result (bytes.new.items ≡ bytes.old.items) };

    /// The whole number, which lies inside the kind.
    fn to_i128(self) -> i128
        ensures value { result ≡ number self }
        ensures inside { IsInside kind (number self) };

    /// The number that a whole number inside the kind is.
    fn of_i128(whole: i128) -> Self
        requires { IsInside kind whole }
        ensures { number result ≡ whole };

    /// Whether the numbers are the same.
    fn same(self, other: Self) -> bool
        ensures { IsTrue result ↔ (number self ≡ number other) };
}

/// Numbers of a kind lie inside it. Nothing of this is left when it runs.
pub(crate) fn lie_inside<T: Kind>(numbers: &[T])
    ensures { AllByRecursion (IsInside T.kind) (map T.number numbers.now) }
{
    for number in numbers {
        let _whole = number.to_i128();
    }
}

impl Kind for u8 {
    ghost kind = { U8 };

    ghost number = { pos };

    fn width() -> usize {
        1
    }

    fn zero() -> Self {
        0
    }

    fn read(bytes: &[u8]) -> (Self, &[u8]) {
        let (word, rest) = bytes.split_at(1);
        (u8::from_le_bytes([word[0]]), rest)
    }

    fn write(self, bytes: &mut Vec<u8>) -> Result<(), AllocError> {
        bytes.extend_from_slice(&self.to_le_bytes())
    }

    fn to_i128(self) -> i128 {
        i128::from(self)
    }

    fn of_i128(whole: i128) -> Self {
        whole as u8
    }

    fn same(self, other: Self) -> bool {
        self == other
    }
}

impl Kind for i8 {
    ghost kind = { I8 };

    ghost number = { λ n. n };

    fn width() -> usize {
        1
    }

    fn zero() -> Self {
        0
    }

    fn read(bytes: &[u8]) -> (Self, &[u8]) {
        let (number, rest) = u8::read(bytes);
        (number.cast_signed(), rest)
    }

    fn write(self, bytes: &mut Vec<u8>) -> Result<(), AllocError> {
        bytes.extend_from_slice(&self.to_le_bytes())
    }

    fn to_i128(self) -> i128 {
        i128::from(self)
    }

    fn of_i128(whole: i128) -> Self {
        whole as i8
    }

    fn same(self, other: Self) -> bool {
        self == other
    }
}

impl Kind for u16 {
    ghost kind = { U16 };

    ghost number = { pos };

    fn width() -> usize {
        2
    }

    fn zero() -> Self {
        0
    }

    fn read(bytes: &[u8]) -> (Self, &[u8]) {
        let (word, rest) = bytes.split_at(2);
        (u16::from_le_bytes([word[0], word[1]]), rest)
    }

    fn write(self, bytes: &mut Vec<u8>) -> Result<(), AllocError> {
        bytes.extend_from_slice(&self.to_le_bytes())
    }

    fn to_i128(self) -> i128 {
        i128::from(self)
    }

    fn of_i128(whole: i128) -> Self {
        whole as u16
    }

    fn same(self, other: Self) -> bool {
        self == other
    }
}

impl Kind for i16 {
    ghost kind = { I16 };

    ghost number = { λ n. n };

    fn width() -> usize {
        2
    }

    fn zero() -> Self {
        0
    }

    fn read(bytes: &[u8]) -> (Self, &[u8]) {
        let (number, rest) = u16::read(bytes);
        (number.cast_signed(), rest)
    }

    fn write(self, bytes: &mut Vec<u8>) -> Result<(), AllocError> {
        bytes.extend_from_slice(&self.to_le_bytes())
    }

    fn to_i128(self) -> i128 {
        i128::from(self)
    }

    fn of_i128(whole: i128) -> Self {
        whole as i16
    }

    fn same(self, other: Self) -> bool {
        self == other
    }
}

impl Kind for u32 {
    ghost kind = { U32 };

    ghost number = { pos };

    fn width() -> usize {
        4
    }

    fn zero() -> Self {
        0
    }

    fn read(bytes: &[u8]) -> (Self, &[u8]) {
        let (word, rest) = bytes.split_at(4);
        (
            u32::from_le_bytes([word[0], word[1], word[2], word[3]]),
            rest,
        )
    }

    fn write(self, bytes: &mut Vec<u8>) -> Result<(), AllocError> {
        bytes.extend_from_slice(&self.to_le_bytes())
    }

    fn to_i128(self) -> i128 {
        i128::from(self)
    }

    fn of_i128(whole: i128) -> Self {
        whole as u32
    }

    fn same(self, other: Self) -> bool {
        self == other
    }
}

impl Kind for i32 {
    ghost kind = { I32 };

    ghost number = { λ n. n };

    fn width() -> usize {
        4
    }

    fn zero() -> Self {
        0
    }

    fn read(bytes: &[u8]) -> (Self, &[u8]) {
        let (number, rest) = u32::read(bytes);
        (number.cast_signed(), rest)
    }

    fn write(self, bytes: &mut Vec<u8>) -> Result<(), AllocError> {
        bytes.extend_from_slice(&self.to_le_bytes())
    }

    fn to_i128(self) -> i128 {
        i128::from(self)
    }

    fn of_i128(whole: i128) -> Self {
        whole as i32
    }

    fn same(self, other: Self) -> bool {
        self == other
    }
}

impl Kind for u64 {
    ghost kind = { U64 };

    ghost number = { pos };

    fn width() -> usize {
        8
    }

    fn zero() -> Self {
        0
    }

    fn read(bytes: &[u8]) -> (Self, &[u8]) {
        let (word, rest) = bytes.split_at(8);
        let number = u64::from_le_bytes([
            word[0], word[1], word[2], word[3], word[4], word[5], word[6], word[7],
        ]);
        (number, rest)
    }

    fn write(self, bytes: &mut Vec<u8>) -> Result<(), AllocError> {
        bytes.extend_from_slice(&self.to_le_bytes())
    }

    fn to_i128(self) -> i128 {
        i128::from(self)
    }

    fn of_i128(whole: i128) -> Self {
        whole as u64
    }

    fn same(self, other: Self) -> bool {
        self == other
    }
}

impl Kind for i64 {
    ghost kind = { I64 };

    ghost number = { λ n. n };

    fn width() -> usize {
        8
    }

    fn zero() -> Self {
        0
    }

    fn read(bytes: &[u8]) -> (Self, &[u8]) {
        let (number, rest) = u64::read(bytes);
        (number.cast_signed(), rest)
    }

    fn write(self, bytes: &mut Vec<u8>) -> Result<(), AllocError> {
        bytes.extend_from_slice(&self.to_le_bytes())
    }

    fn to_i128(self) -> i128 {
        i128::from(self)
    }

    fn of_i128(whole: i128) -> Self {
        whole as i64
    }

    fn same(self, other: Self) -> bool {
        self == other
    }
}
