//! Why a value wasn't read.

use json::Invalid;
use std::alloc::AllocError;

/// Why a value wasn't read.
#[derive(Clone, Copy, Debug)]
pub enum Unread {
    /// The text is no JSON, nests too deep, or has a number that is too large.
    Invalid,
    /// An allocation failed.
    Memory,
}

impl From<Invalid> for Unread {
    ghost use Rattle.std.specs.Prelude.{◌≡◌};
    ghost use Rattle.scan_json.specs.declared.unread.Unread.TheVariants.{Invalid as invalid};

    ghost from_gives = { λ _ e. e ≡ invalid };

    fn from(_invalid: Invalid) -> Unread {
        Unread::Invalid
    }
}

impl From<AllocError> for Unread {
    ghost use Rattle.std.specs.Prelude.{◌≡◌};
    ghost use Rattle.scan_json.specs.declared.unread.Unread.TheVariants.{Memory};

    ghost from_gives = { λ _ e. e ≡ Memory };

    fn from(_refused: AllocError) -> Unread {
        Unread::Memory
    }
}
