//! The numbers of each kind in decimal, each kind at its own width.

ghost use Rattle.std.specs.Prelude.{◌≡◌};
ghost use Rattle.std.specs.Fmt.{signed_decimal};

use itoa::Buffer;
use vx_arrays::Kind;

/// A kind whose numbers are printed.
pub(crate) trait Printed: Kind {
    /// The number in decimal.
    fn printed(self, digits: &mut Buffer) -> &str
        ensures { result.now ≡ signed_decimal (Self.number self) };
}

impl Printed for u8 {
    fn printed(self, digits: &mut Buffer) -> &str {
        digits.format(self)
    }
}

impl Printed for u16 {
    fn printed(self, digits: &mut Buffer) -> &str {
        digits.format(self)
    }
}

impl Printed for u32 {
    fn printed(self, digits: &mut Buffer) -> &str {
        digits.format(self)
    }
}

impl Printed for u64 {
    fn printed(self, digits: &mut Buffer) -> &str {
        digits.format(self)
    }
}

impl Printed for i8 {
    fn printed(self, digits: &mut Buffer) -> &str {
        digits.format(self)
    }
}

impl Printed for i16 {
    fn printed(self, digits: &mut Buffer) -> &str {
        digits.format(self)
    }
}

impl Printed for i32 {
    fn printed(self, digits: &mut Buffer) -> &str {
        digits.format(self)
    }
}

impl Printed for i64 {
    fn printed(self, digits: &mut Buffer) -> &str {
        digits.format(self)
    }
}
