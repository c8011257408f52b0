//! The dtype of a root with its fields' places by their names, so that no name is searched.

ghost use Rattle.std.specs.Prelude.{◌≡◌, IfOk, Some};
ghost use Rattle.vx_base.specs.Data.{struct_type};
ghost use Rattle.vx_base.specs.declared.dtypes.Nullability.{Nullability};
ghost use Rattle.vx_base.specs.Views.{data_type};
ghost use Rattle.vx_expr.specs.Finds.{place_found};
ghost use Rattle.vx_expr.specs.Indexed.{HasPlaces};

use std::alloc::{AllocError, Global};
use std::collections::BTreeMap;
use std::marker::Model;
use vx_base::{DType, Fields, Text};

/// The dtype of a root, and the places of its fields.
#[derive(Drop)]
pub(crate) struct IndexedRoot<'a> {
    dtype: &'a DType,
    places: BTreeMap<&'a str, usize>,
}

impl<'a> Model for IndexedRoot<'a> {
    ghost use Rattle.vx_base.specs.Codes.{coded_type};
    ghost use Rattle.vx_base.specs.Data.{DataType};
    ghost use Rattle.vx_base.specs.Views.{data_type};
    ghost use Rattle.vx_expr.specs.Indexed.{HasPlaces};

    ghost Value = { DataType };

    ghost coded = { coded_type };

    ghost view = { λ a. data_type a.dtype.now };

    ghost invariant = { λ a. HasPlaces a.places (data_type a.dtype.now) };
}

/// The places of the fields by their names, the first of each name. It takes about n log n steps for n
/// fields.
fn places_of<'a>(alloc: Global, fields: &'a Fields) -> Result<BTreeMap<&'a str, usize>, AllocError>
    ensures { IfOk result (λ places. (n : Nullability) → HasPlaces places (struct_type fields.now n)) }
{
    let mut places = BTreeMap::new(alloc);
    let mut place = fields.len();
    while place > 0 {
        place -= 1;
        match fields.get(place) {
            Some(field) => places.insert(field.name.as_str(), place)?,
            None => return Ok(places),
        };
    }
    Ok(places)
}

/// The places of the fields of a dtype, which has none where it is no struct.
fn places_in<'a>(alloc: Global, dtype: &'a DType) -> Result<BTreeMap<&'a str, usize>, AllocError>
    ensures { IfOk result (λ places. HasPlaces places (data_type dtype.now)) }
{
    match dtype {
        DType::Struct(fields, _) => places_of(alloc, fields),
        _ => Ok(BTreeMap::new(alloc)),
    }
}

impl<'a> IndexedRoot<'a> {
    /// The dtype with its fields' places.
    pub(crate) fn new(alloc: Global, dtype: &'a DType) -> Result<IndexedRoot<'a>, AllocError>
        ensures { IfOk result (λ root. root ≡ data_type dtype.now) }
    {
        let places = places_in(alloc, dtype)?;
        Ok(IndexedRoot { dtype, places })
    }

    /// The dtype. It takes no memory.
    pub(crate) fn dtype(&self) -> &DType
        ensures { data_type result.now ≡ self.now }
    {
        self.dtype
    }

    /// The place of the first field of that name. None where there is none.
    pub(crate) fn find(&self, name: &Text) -> Option<usize>
        ensures { result ≡ place_found (Some self.now) name.now }
    {
        self.places.get(name.as_str()).copied()
    }
}
