//! What the summary counts over the rows of batches, each looked at where it stands.

ghost use Rattle.std.specs.Prelude.{◌≡◌, [], ◌∷◌, IfOk, OnOk, map};
ghost use Rattle.std.specs.List.{flat_map};
ghost use Rattle.vx_base.specs.Cells.{cell_datum, struct_at};
ghost use Rattle.vx_base.specs.Data.{number, structure, truth as truth_value};
ghost use Rattle.vx_base.specs.ValueViews.{datum, items_of};
ghost use Rattle.vx_arrays.specs.Fields.{field_at};
ghost use Rattle.scan_demo.specs.Totals.{facts_of, facts_without_number, natural_in, no_totals, totals_of, with_row, with_rows};

use std::alloc::{AllocError, Global};
use vx_arrays::ChildArrays;
use vx_base::{Cell, Column, Value};

/// What the summary reads of a field: its number, whether there is a value, and whether that is true.
#[derive(Clone, Copy)]
pub(crate) struct FieldFacts {
    pub(crate) number: u64,
    pub(crate) is_value: bool,
    pub(crate) truth: bool,
}

/// The sum of the numbers of rows, how many lack a name, and how many are flagged.
#[derive(Clone, Copy)]
pub(crate) struct Totals {
    pub(crate) id_sum: u64,
    pub(crate) name_nulls: u64,
    pub(crate) flag_true: u64,
}

/// A number that is no less than 0 and has 64 bits; 0 in place of any other.
fn natural(whole: i128) -> u64
    ensures { result ≡ natural_in (number whole) }
{
    if 0 <= whole && whole <= i128::from(u64::MAX) {
        whole as u64
    } else {
        0
    }
}

impl FieldFacts {
    /// The facts of a whole number.
    fn of_number(whole: i128) -> FieldFacts
        ensures { result ≡ facts_of (number whole) }
    {
        FieldFacts {
            number: natural(whole),
            is_value: true,
            truth: false,
        }
    }

    /// The facts of a truth value.
    fn of_truth(truth: bool) -> FieldFacts
        ensures { result ≡ facts_of (truth_value truth) }
    {
        FieldFacts {
            number: 0,
            is_value: true,
            truth,
        }
    }

    /// The facts of a value that is neither a number nor true, or of none.
    fn of_other(is_value: bool) -> FieldFacts
        ensures { result ≡ facts_without_number is_value }
    {
        FieldFacts {
            number: 0,
            is_value,
            truth: false,
        }
    }

    /// The facts of a cell.
    fn of_cell(cell: Cell<'_>) -> FieldFacts
        ensures { result ≡ facts_of (cell_datum cell.entry) }
    {
        match cell {
            Cell::Null => FieldFacts::of_other(false),
            Cell::Bool(truth) => FieldFacts::of_truth(truth),
            Cell::Int(whole) => FieldFacts::of_number(whole),
            Cell::Text(_) => FieldFacts::of_other(true),
            Cell::Struct(parts, row) => FieldFacts::of_struct(parts, row),
        }
    }

    /// The facts of a value.
    fn of_value(value: &Value) -> FieldFacts
        ensures { result ≡ facts_of (datum value.now) }
    {
        match value {
            Value::Null => FieldFacts::of_other(false),
            Value::Bool(truth) => FieldFacts::of_truth(*truth),
            Value::Int(whole) => FieldFacts::of_number(*whole),
            Value::Text(_) | Value::Struct(_) => FieldFacts::of_other(true),
        }
    }

    /// The facts of the struct of a row, which is null past the last row.
    #[tactic(auto, using(vx_base::proofs::StructItems::struct_found, vx_base::proofs::StructItems::struct_past))]
    fn of_struct(parts: &ChildArrays, row: usize) -> FieldFacts
        ensures { result ≡ facts_of (struct_at parts.now.rows row) }
    {
        if row < parts.len() {
            FieldFacts::of_other(true)
        } else {
            FieldFacts::of_other(false)
        }
    }

    /// The facts of the item at a place, which is null past the last item.
    #[tactic(auto, using(vx_arrays::proofs::ValueRows::field_here, vx_arrays::proofs::ValueRows::field_past))]
    fn of_item(items: &[Value], place: usize) -> FieldFacts
        ensures { result ≡ facts_of (field_at place (structure (items_of items.now))) }
    {
        if place < items.len() {
            FieldFacts::of_value(&items[place])
        } else {
            FieldFacts::of_other(false)
        }
    }

    /// The facts of the field at a place of a row's struct. Where no array lies at the place, the row is taken out into
    /// memory of its own.
    #[tactic(auto, using(vx_base::proofs::StructItems::struct_past, vx_base::proofs::StructItems::part_inside, vx_base::proofs::StructItems::part_value, vx_base::proofs::StructItems::items_value))]
    fn of_child(
        alloc: Global,
        parts: &ChildArrays,
        row: usize,
        place: usize,
    ) -> Result<FieldFacts, AllocError>
        ensures { IfOk result (λ facts. facts ≡ facts_of (field_at place (struct_at parts.now.rows row))) }
    {
        if parts.len() <= row {
            return Ok(FieldFacts::of_other(false));
        }
        match parts.array(place) {
            Some(array) => Ok(FieldFacts::of_cell(array.cell(row))),
            None => {
                let values = parts.get(alloc, row)?;
                Ok(FieldFacts::of_item(values.items(), place))
            }
        }
    }

    /// The facts of the field at a place of a row.
    fn of_field(alloc: Global, row: Cell<'_>, place: usize) -> Result<FieldFacts, AllocError>
        ensures { IfOk result (λ facts. facts ≡ facts_of (field_at place (cell_datum row.entry))) }
    {
        match row {
            Cell::Struct(parts, row) => FieldFacts::of_child(alloc, parts, row, place),
            _ => Ok(FieldFacts::of_other(false)),
        }
    }
}

impl Totals {
    /// The totals of no rows.
    pub(crate) fn none() -> Totals
        ensures { result ≡ no_totals }
    {
        Totals {
            id_sum: 0,
            name_nulls: 0,
            flag_true: 0,
        }
    }

    /// The totals with those of one row more.
    fn with_row(self, alloc: Global, row: Cell<'_>) -> Result<Totals, AllocError>
        ensures { IfOk result (λ totals. totals ≡ with_row self (cell_datum row.entry)) }
    {
        let id = FieldFacts::of_field(alloc, row, 0)?.number;
        let lacks_name = !FieldFacts::of_field(alloc, row, 1)?.is_value;
        let is_flagged = FieldFacts::of_field(alloc, row, 2)?.truth;
        Ok(Totals {
            id_sum: self.id_sum.saturating_add(id),
            name_nulls: self.name_nulls.saturating_add(u64::from(lacks_name)),
            flag_true: self.flag_true.saturating_add(u64::from(is_flagged)),
        })
    }

    /// The totals with those of the rows of a batch more.
    #[tactic(auto, using(crate::proofs::RowTotals::row_more, crate::proofs::RowTotals::rows_done))]
    fn with_batch(self, alloc: Global, batch: &Column) -> Result<Totals, AllocError>
        ensures { IfOk result (λ totals. totals ≡ with_rows self batch.now.values) }
    {
        let mut totals = self;
        for row in 0..batch.len() {
            totals = totals.with_row(alloc, batch.cell(row))?;
        }
        Ok(totals)
    }

    /// The totals of the rows of batches.
    #[tactic(auto, using(crate::proofs::RowTotals::batch_more, crate::proofs::RowTotals::totals_are))]
    pub(crate) fn of_batches(alloc: Global, batches: &[Column]) -> Result<Totals, AllocError>
        ensures { IfOk result (λ totals. totals ≡ totals_of (flat_map (λ batch. batch.values) batches.now)) }
    {
        let mut totals = Totals::none();
        for batch in batches {
            totals = totals.with_batch(alloc, batch)?;
        }
        Ok(totals)
    }
}
