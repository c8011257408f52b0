//! Cutting a column in pieces, from its first row on.

ghost use Rattle.std.specs.Prelude.{◌≡◌, ◌++◌, ◌<◌, ◌≤◌, drop, length, slice_get, take, IfOk, IsSomeAnd, OnOk};
ghost use Rattle.vx_reads.specs.Computed.{values_in};

use std::alloc::{AllocError, Global};
use std::marker::Model;
use vx_base::{Column, DType};
use vx_reads::ColumnPieces;

/// The rows of a column in pieces that were not cut off yet: those from a piece on, behind the first so many of that one.
pub(crate) struct UncutRows {
    dtype: DType,
    parts: Vec<Column>,
    place: usize,
    used: u64,
}

impl Drop for UncutRows {
    fn drop(self) {
        let UncutRows {
            dtype: _,
            parts: _,
            place: _,
            used: _,
        } = self;
    }
}

impl Model for UncutRows {
    ghost use Rattle.std.specs.Prelude.{◌≡◌, drop};
    ghost use Rattle.std.specs.List.{AllByRecursion};
    ghost use Rattle.vx_base.specs.Codes.{coded_column};
    ghost use Rattle.vx_base.specs.Columns.{ColumnData};
    ghost use Rattle.vx_base.specs.Views.{data_type};
    ghost use Rattle.vx_reads.specs.Computed.{values_in};

    ghost Value = { ColumnData };

    ghost coded = { coded_column };

    ghost view = { λ a. record { dtype = data_type a.dtype; values = drop a.used (values_in (drop a.place a.parts.items)) } };

    ghost invariant = { λ a. AllByRecursion (λ (part : ColumnData). part.dtype ≡ data_type a.dtype) a.parts.items };
}

/// The same columns, whose rows other columns can share from now on.
fn all_shared(alloc: Global, parts: Vec<Column>) -> Result<Vec<Column>, AllocError>
    ensures { IfOk result (λ shared. shared.items ≡ parts.items) }
{
    let mut shared = Vec::with_capacity(alloc, parts.len())?;
    for part in parts {
        let part = part.share(alloc)?;
        shared.push(part)?;
    }
    Ok(shared)
}

/// Where the row behind the first so many lies, of the pieces from a place on: in which piece, and behind how many rows of it.
fn place_of(parts: &[Column], place: usize, used: u64) -> (usize, u64)
    requires { used < length (values_in (drop place parts.now)) }
    ensures same { drop result.1 (values_in (drop result.0 parts.now)) ≡ drop used (values_in (drop place parts.now)) }
    ensures there { IsSomeAnd (slice_get parts.now result.0) (λ part. result.1 < length part.values) }
{
    let mut place = place;
    let mut used = used;
    'passed: while parts[place].len() <= used {
        used -= parts[place].len();
        place += 1;
    }
    (place, used)
}

impl UncutRows {
    /// All rows of a column. It moves them, and takes memory for a handle on those of each piece.
    pub(crate) fn of(alloc: Global, whole: ColumnPieces) -> Result<UncutRows, AllocError>
        ensures { IfOk result (λ rest. rest ≡ whole) }
    {
        let (dtype, parts) = whole.into_parts();
        let parts = all_shared(alloc, parts)?;
        Ok(UncutRows {
            dtype,
            parts,
            place: 0,
            used: 0,
        })
    }

    /// Cuts off the first rows, at most so many, as far as they lie in one piece. Where these are all of its rows, none is
    /// copied.
    fn next_piece(&mut self, alloc: Global, most: u64) -> Result<Column, AllocError>
        requires some { 0 < most }
        requires inside { most ≤ length self.old.values }
        ensures dtype { IfOk result (λ piece. piece.dtype ≡ self.old.dtype) }
        ensures some { IfOk result (λ piece. 0 < length piece.values) }
        ensures most { IfOk result (λ piece. length piece.values ≤ most) }
        ensures values { IfOk result (λ piece. piece.values ++ self.new.values ≡ self.old.values) }
        ensures same { OnOk result (self.new.dtype ≡ self.old.dtype) }
    {
        let (place, used) = place_of(self.parts.as_slice(), self.place, self.used);
        let part = &self.parts[place];
        let rows = most.min(part.len() - used);
        let piece = part.slice(alloc, used..used + rows)?;
        self.place = place;
        self.used = used + rows;
        Ok(piece)
    }

    /// Cuts off the first so many rows, in one column. They are copied only where they are part of a piece, or of several.
    pub(crate) fn next_rows(&mut self, alloc: Global, count: u64) -> Result<Column, AllocError>
        requires { count ≤ length self.old.values }
        ensures dtype { IfOk result (λ column. column.dtype ≡ self.old.dtype) }
        ensures values { IfOk result (λ column. column.values ≡ take count self.old.values) }
        ensures left { OnOk result (self.new.values ≡ drop count self.old.values) }
        ensures same { OnOk result (self.new.dtype ≡ self.old.dtype) }
    {
        let mut pieces = Vec::new(alloc);
        let mut left = count;
        'pieces: while left > 0 {
            let piece = self.next_piece(alloc, left)?;
            left -= piece.len();
            pieces.push(piece)?;
        }
        let dtype = self.dtype.copy(alloc)?;
        let column = Column::concat(alloc, dtype, pieces)?;
        Ok(column)
    }
}
