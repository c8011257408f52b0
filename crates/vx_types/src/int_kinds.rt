//! The kinds of whole numbers: how wide they are, and which numbers lie inside each.

ghost use Rattle.std.specs.Prelude.{◌≡◌};
ghost use Rattle.std.specs.Int.{byte_len};
ghost use Rattle.vx_types.specs.Fits.{least_of, greatest_of};
ghost use Rattle.vx_types.specs.Slots.{width_of};

use crate::dtypes::IntKind;

impl IntKind {
    /// The bytes that a number takes in a segment: 1, 2, 4 or 8.
    pub fn width(&self) -> u64
        ensures { result ≡ byte_len (width_of self.now) }
    {
        match self {
            IntKind::U8 | IntKind::I8 => 1,
            IntKind::U16 | IntKind::I16 => 2,
            IntKind::U32 | IntKind::I32 => 4,
            IntKind::U64 | IntKind::I64 => 8,
        }
    }

    /// The least number of the kind.
    pub fn least(&self) -> i128
        ensures { result ≡ least_of self.now }
    {
        match self {
            IntKind::U8 | IntKind::U16 | IntKind::U32 | IntKind::U64 => 0,
            IntKind::I8 => -128,
            IntKind::I16 => -32768,
            IntKind::I32 => -2147483648,
            IntKind::I64 => -9223372036854775808,
        }
    }

    /// The greatest number of the kind.
    pub fn greatest(&self) -> i128
        ensures { result ≡ greatest_of self.now }
    {
        match self {
            IntKind::U8 => 255,
            IntKind::U16 => 65535,
            IntKind::U32 => 4294967295,
            IntKind::U64 => 18446744073709551615,
            IntKind::I8 => 127,
            IntKind::I16 => 32767,
            IntKind::I32 => 2147483647,
            IntKind::I64 => 9223372036854775807,
        }
    }
}
