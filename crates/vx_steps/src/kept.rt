//! Whole columns that are kept, each for a plan.

ghost use Rattle.std.specs.Prelude.{◌≡◌, ◌+◌, ◌<◌, ◌↔◌, length, take, [], ◌∷◌, ◌++◌, false, IsTrue, None, map, MatchResult, OnOk, OnErr, option_copied};
ghost use Rattle.std.specs.Bool.{MatchBool};
ghost use Rattle.vx_plan.specs.Refs.{number_of};
ghost use Rattle.vx_steps.specs.Kept.{kept_at, kept_data, ArePlaces, ReplacesOnly};
ghost use Rattle.vx_steps.specs.Offers.{Keeps};
ghost use Rattle.vx_steps.specs.PlanMarks.{is_marked};

use crate::places::PlaceTable;
use crate::plan_marks::PlanMarks;
use std::alloc::{AllocError, Global};
use std::marker::Model;
use vx_base::Column;
use vx_plan::PlanRef;

/// The whole column of a plan: its values at all of its rows.
#[derive(Drop)]
pub struct KeptValue {
    pub node: PlanRef,
    pub column: Column,
}

/// Kept columns in the order in which they came; for a plan the first of its columns counts. Those that were handed
/// in all at once are looked through until they are indexed.
#[derive(Drop)]
pub(crate) struct KeptColumns {
    columns: Vec<KeptValue>,
    indexed: usize,
    places: PlaceTable,
}

impl Model for KeptColumns {
    ghost use Rattle.std.specs.Prelude.{List};
    ghost use Rattle.vx_steps.specs.KeptData.{Kept, coded_kept_list};

    ghost Value = { List Kept };

    ghost coded = { coded_kept_list };

    ghost use Rattle.std.specs.Prelude.{map};
    ghost use Rattle.vx_steps.specs.Kept.{kept_data, AreIndexed};

    ghost view = { λ a. map kept_data a.columns.items };

    ghost invariant = { λ a. AreIndexed a.places a.indexed (map kept_data a.columns.items) };
}

/// The first of the columns that is for the plan.
fn first_for(columns: &[KeptValue], node: u32) -> Option<&Column>
    ensures { option_copied result ≡ kept_at (map kept_data columns.now) node }
{
    for value in columns {
        if value.node.0 == node {
            return Some(&value.column);
        }
    }
    None
}

/// Indexes one more column, unless one for its plan stands before it.
fn index_at(columns: &[KeptValue], place: usize, places: &mut PlaceTable) -> Result<(), AllocError>
    requires place { place < length columns.now }
    requires before { ArePlaces places.old (take place (map kept_data columns.now)) }
    ensures after { OnOk result (ArePlaces places.new (take (place + 1) (map kept_data columns.now))) }
    ensures as_before { OnErr result (ArePlaces places.new (take place (map kept_data columns.now))) }
{
    let node = columns[place].node.0;
    if places.get(node).is_some() {
        return Ok(());
    }
    places.put(node, place)?;
    Ok(())
}

/// Whether the plan of the column is not marked.
fn is_unmarked(marks: &PlanMarks, value: &KeptValue) -> bool
    ensures { IsTrue result ↔ (is_marked marks.now (number_of value.now.node) ≡ false) }
{
    !marks.get(value.node.0)
}

impl KeptColumns {
    /// No columns. It takes no memory.
    pub(crate) fn new(alloc: Global) -> KeptColumns
        ensures { result ≡ [] }
    {
        KeptColumns {
            columns: Vec::new(alloc),
            indexed: 0,
            places: PlaceTable::new(alloc),
        }
    }

    /// Whether there are none.
    pub(crate) fn is_empty(&self) -> bool
        ensures { MatchBool result (self.now ≡ []) (self.now ≡ [] → ⊥) }
    {
        self.columns.is_empty()
    }

    /// The first column of a plan, where one is kept.
    pub(crate) fn find(&self, node: u32) -> Option<&Column>
        ensures { option_copied result ≡ kept_at self.now node }
    {
        match self.places.get(node) {
            Some(place) => Some(&self.columns[place].column),
            None => first_for(&self.columns[self.indexed..], node),
        }
    }

    /// These columns. It takes no memory.
    pub(crate) fn of(alloc: Global, columns: Vec<KeptValue>) -> KeptColumns
        ensures { result ≡ map kept_data columns.items }
    {
        KeptColumns {
            columns,
            indexed: 0,
            places: PlaceTable::new(alloc),
        }
    }

    /// Indexes the columns, so that none is looked through.
    pub(crate) fn index(&mut self) -> Result<(), AllocError>
        ensures { self.new ≡ self.old }
    {
        for place in self.indexed..self.columns.len() {
            index_at(&self.columns, place, &mut self.places)?;
            self.indexed = place + 1;
        }
        Ok(())
    }

    /// Keeps the column of a plan of which none is kept yet.
    pub(crate) fn keep(&mut self, node: u32, column: Column) -> Result<(), AllocError>
        requires { kept_at self.old node ≡ None }
        ensures kept { OnOk result (self.new ≡ self.old ++ record { node = node; column = column } ∷ []) }
        ensures as_before { OnErr result (self.new ≡ self.old) }
    {
        let place = self.columns.len();
        self.columns.push(KeptValue {
            node: PlanRef(node),
            column,
        })?;
        if self.indexed < place {
            return Ok(());
        }
        if self.places.put(node, place).is_err() {
            drop(self.columns.pop());
            return Err(AllocError);
        }
        self.indexed = place + 1;
        Ok(())
    }

    /// Keeps the column of a plan of which none is kept yet, so that others can share its rows: copies of it, and ranges
    /// of all its rows, then copy none.
    pub(crate) fn keep_shared(
        &mut self,
        alloc: Global,
        node: u32,
        column: Column,
    ) -> Result<(), AllocError>
        requires { kept_at self.old node ≡ None }
        ensures kept { OnOk result (self.new ≡ self.old ++ record { node = node; column = column } ∷ []) }
        ensures as_before { OnErr result (self.new ≡ self.old) }
    {
        let shared = column.share(alloc)?;
        self.keep(node, shared)
    }

    /// Puts a column in place of the first one of a plan, if that is indexed. It takes no memory.
    pub(crate) fn replace(&mut self, node: u32, column: Column)
        ensures { ReplacesOnly node self.old self.new }
    {
        if let Some(place) = self.places.get(node) {
            self.columns[place].column = column;
        }
    }

    /// Keeps only the columns of plans that are not marked, and looks through them until they are indexed. It takes no memory.
    pub(crate) fn drop_marked(&mut self, alloc: Global, marks: &PlanMarks)
        ensures { Keeps (λ kept. is_marked marks.now kept.node ≡ false) self.old self.new }
    {
        self.indexed = 0;
        self.places = PlaceTable::new(alloc);
        self.columns.retain(|value| is_unmarked(marks, value));
    }

    /// The kept columns, in the order in which they came.
    pub(crate) fn columns(&self) -> &[KeptValue]
        ensures { map kept_data result.now ≡ self.now }
    {
        self.columns.as_slice()
    }

    /// The kept columns, handed on in the order in which they came.
    pub(crate) fn into_columns(self) -> Vec<KeptValue>
        ensures { map kept_data result.items ≡ self }
    {
        self.columns
    }

    /// The kept columns and their places, where all are indexed, and else the columns alone.
    pub(crate) fn into_indexed(self) -> Result<(Vec<KeptValue>, PlaceTable), Vec<KeptValue>>
        ensures { MatchResult result (λ found. (map kept_data found.0.items ≡ self) × ArePlaces found.1 self) (λ columns. map kept_data columns.items ≡ self) }
    {
        if self.indexed < self.columns.len() {
            return Err(self.columns);
        }
        let KeptColumns {
            columns,
            places,
            ..
        } = self;
        Ok((columns, places))
    }
}
