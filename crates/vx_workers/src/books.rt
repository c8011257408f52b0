//! Whole values that workers share: a book of columns by plan, and a cache that keeps one under a lock.

ghost use Rattle.std.specs.Prelude.{◌≡◌, [], map, IfOk, None, OnErr};
ghost use Rattle.vx_plan.specs.Refs.{number_of};
ghost use Rattle.vx_steps.specs.Kept.{kept_at, kept_data};
ghost use Rattle.vx_workers.specs.Books.{Inserts};

use std::alloc::{AllocError, Global};
use std::marker::Model;
use std::sync::{Mutex, Wait};
use vx_base::Column;
use vx_chunks::first_for;
use vx_plan::PlanRef;
use vx_steps::KeptValue;

/// Columns by plan, in the order in which they were accepted. The first column of a plan stays.
#[derive(Drop)]
pub struct Book {
    alloc: Global,
    entries: Vec<KeptValue>,
}

impl Model for Book {
    ghost use Rattle.std.specs.Prelude.{List};
    ghost use Rattle.vx_steps.specs.KeptData.{Kept, coded_kept_list};

    ghost Value = { List Kept };

    ghost coded = { coded_kept_list };

    ghost use Rattle.std.specs.Prelude.{map};
    ghost use Rattle.vx_steps.specs.Kept.{kept_data};

    ghost view = { λ a. map kept_data a.entries.items };
}

impl Book {
    /// An empty book. It takes no memory.
    pub fn new(alloc: Global) -> Book
        ensures { result ≡ [] }
    {
        Book {
            alloc,
            entries: Vec::new(alloc),
        }
    }

    /// A copy of the column of a plan, or none where the plan has no entry.
    pub fn get(&mut self, plan: PlanRef) -> Result<Option<Column>, AllocError>
        ensures found { IfOk result (λ column. column ≡ kept_at self.old (number_of plan)) }
        ensures stays { self.new ≡ self.old }
    {
        match first_for(&self.entries, plan) {
            Some(column) => Ok(Some(column.copy(self.alloc)?)),
            None => Ok(None),
        }
    }

    /// Keeps the column of a plan, unless it has one already, and gives a copy of the kept one. After want of memory the
    /// book is as it was.
    pub fn insert(&mut self, plan: PlanRef, column: Column) -> Result<Column, AllocError>
        ensures gives { IfOk result (λ kept. Inserts (number_of plan) column kept self.old self.new) }
        ensures as_before { OnErr result (self.new ≡ self.old) }
    {
        match self.get(plan) {
            Ok(None) => self.accept(plan, column),
            Ok(Some(kept)) => {
                drop(column);
                Ok(kept)
            }
            Err(error) => {
                drop(column);
                Err(error)
            }
        }
    }

    /// Keeps the column of a plan that has none, and gives a copy of it.
    fn accept(&mut self, plan: PlanRef, column: Column) -> Result<Column, AllocError>
        requires none { kept_at self.old (number_of plan) ≡ None }
        ensures gives { IfOk result (λ kept. Inserts (number_of plan) column kept self.old self.new) }
        ensures as_before { OnErr result (self.new ≡ self.old) }
    {
        let given = match column.copy(self.alloc) {
            Ok(given) => given,
            Err(error) => {
                drop(column);
                return Err(error);
            }
        };
        match self.entries.push(KeptValue { node: plan, column }) {
            Ok(()) => Ok(given),
            Err(failed) => {
                drop(given);
                Err(failed.into())
            }
        }
    }

    /// The entries, in the order in which they were accepted. It takes no memory.
    pub fn entries(&self) -> &[KeptValue]
        ensures { map kept_data result.now ≡ self.now }
    {
        self.entries.as_slice()
    }
}

/// A book under a lock, which workers share by reference. What it has is known to no contract.
#[derive(Drop)]
pub struct ValueCache {
    book: Mutex<Book>,
}

impl ValueCache {
    /// A cache with an empty book. It takes no memory.
    pub fn new(alloc: Global) -> ValueCache {
        ValueCache {
            book: Mutex::new(Book::new(alloc)),
        }
    }

    /// A copy of the column that the book has for a plan, or none where it has none. It waits for the lock. Its only
    /// error is want of memory.
    pub fn get<R: Wait>(&self, rt: &R, plan: PlanRef) -> Result<Option<Column>, AllocError> {
        self.book.lock(rt).get(plan)
    }

    /// Keeps the column of a plan in the book, unless it has one already, and gives a copy of the kept one. It waits for
    /// the lock. Its only error is want of memory, and then the book is as it was.
    pub fn insert<R: Wait>(
        &self,
        rt: &R,
        plan: PlanRef,
        column: Column,
    ) -> Result<Column, AllocError> {
        self.book.lock(rt).insert(plan, column)
    }
}
