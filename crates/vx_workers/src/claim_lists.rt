//! The chunks that a worker claimed, as a list of numbers.

use std::marker::Model;

/// Numbers of chunks, in the order in which they were claimed.
#[derive(Debug, Drop)]
pub struct ClaimList {
    numbers: Vec<u64>,
}

impl Model for ClaimList {
    ghost use Rattle.std.specs.Prelude.{List, ℕ};
    ghost use Rattle.std.specs.Coded.{coded_list, coded_ℕ};

    ghost Value = { List ℕ };

    ghost coded = { coded_list coded_ℕ };

    ghost view = { λ a. a.numbers.items };
}

impl ClaimList {
    ghost use Rattle.std.specs.Prelude.{◌≡◌};

    /// Numbers in the order of the list. It takes no memory.
    pub fn from_vec(items: Vec<u64>) -> ClaimList
        ensures { result ≡ items.items }
    {
        ClaimList { numbers: items }
    }

    /// The numbers, in order. It takes no memory.
    pub fn items(&self) -> &[u64]
        ensures { result.now ≡ self.now }
    {
        self.numbers.as_slice()
    }
}
