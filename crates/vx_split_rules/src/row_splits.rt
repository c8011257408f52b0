//! Rows at which a range is split, as they are pushed.

ghost use Rattle.std.specs.Prelude.{◌≡◌, ◌++◌, [], ◌∷◌, length, take, IfOk, OnErr, OnOk};
ghost use Rattle.vx_split_rules.specs.Splits.{AreOrdered};

use std::alloc::{AllocError, Global};
use std::marker::Model;

/// Rows at which a range is split, in the order in which they were pushed.
#[derive(Drop)]
pub struct RowSplits {
    rows: Vec<u64>,
}

impl Model for RowSplits {
    ghost use Rattle.std.specs.Prelude.{ℕ, List};

    ghost Value = { List ℕ };

    ghost view = { λ a. a.rows.items };
}

impl RowSplits {
    /// No rows.
    pub fn new(alloc: Global) -> RowSplits
        ensures { result ≡ [] }
    {
        RowSplits {
            rows: Vec::new(alloc),
        }
    }

    /// How many rows were pushed.
    pub fn len(&self) -> usize
        ensures { result ≡ length self.now }
    {
        self.rows.len()
    }

    /// Keeps the first so many of them.
    pub fn truncate(&mut self, count: usize)
        ensures { self.new ≡ take count self.old }
    {
        self.rows.truncate(count);
    }

    /// One row more.
    pub fn push(&mut self, row: u64) -> Result<(), AllocError>
        ensures pushed { OnOk result (self.new ≡ self.old ++ row ∷ []) }
        ensures same { OnErr result (self.new ≡ self.old) }
    {
        self.rows.push(row)?;
        Ok(())
    }

    /// The rows in order, each once.
    pub fn into_sorted_deduped(self) -> Result<Vec<u64>, AllocError>
        ensures { IfOk result (λ rows. AreOrdered self rows.items) }
    {
        let mut rows = self.rows;
        rows.sort_unstable();
        rows.dedup();
        Ok(rows)
    }
}
