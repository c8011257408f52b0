//! Dtypes: what a column's values are. A dtype is a leaf (truth values, whole numbers of eight kinds,
//! texts), a struct of named fields, or a list of elements; each of them takes nulls or doesn't. Copies of a struct's
//! fields share them.

ghost use Rattle.std.specs.Prelude.{◌≡◌, ◌≤◌, ◌↔◌, Some, IsTrue, IsNone, IfOk, IfSome, length, map, position, slice_get};
ghost use Rattle.std.specs.Str.{bytes_eq};
ghost use Rattle.vx_types.specs.ColumnCalls.{made_nullable};
ghost use Rattle.vx_types.specs.FieldLists.{listed};
ghost use Rattle.vx_types.specs.Fits.{nullability_of, takes_null};
ghost use Rattle.vx_types.specs.Views.{data_type, members_of, field_data, fields_in};

use crate::texts::Text;
use std::alloc::{AllocError, Global};
use std::marker::Model;
use std::sync::Arc;

/// Whether a dtype takes nulls.
#[derive(Clone, Copy, Debug, PartialEq, Eq)]
pub enum Nullability {
    NonNullable,
    Nullable,
}

/// The kinds of whole numbers.
#[derive(Clone, Copy, Debug, PartialEq, Eq)]
pub enum IntKind {
    U8,
    U16,
    U32,
    U64,
    I8,
    I16,
    I32,
    I64,
}

/// A field of a struct dtype.
#[cycle(dtypes)]
#[derive(Debug, Drop)]
pub struct Field {
    pub name: Text,
    pub dtype: DType,
}

/// Fields of a struct dtype in memory of their own, seen as its members.
#[cycle(dtypes)]
#[derive(Debug, Drop)]
struct OwnFields {
    fields: Vec<Field>,
}

impl Model for OwnFields {
    ghost use Rattle.vx_types.specs.Data.{Members};
    ghost use Rattle.vx_types.specs.Codes.{coded_members};
    ghost use Rattle.vx_types.specs.Sizes.{own_fields_size};

    ghost Value = { Members };

    ghost coded = { coded_members };

    ghost use Rattle.vx_types.specs.Views.{members_of};

    ghost view = { λ a. members_of a.fields.items };

    ghost size = { own_fields_size };

    ghost use Rattle.std.proofs.Common.{arith};
    ghost use Rattle.vx_types.specs.Falls.{most_le_size};

    ghost size_decreases = { λ a h. omega (arith, most_le_size a.fields.items) };
}

/// The fields of a struct dtype, and who has them.
#[cycle(dtypes)]
#[derive(Debug, Drop)]
enum FieldList {
    /// This dtype alone.
    Alone(OwnFields),
    /// Other dtypes too, perhaps.
    Shared(Arc<OwnFields, Global>),
}

/// The fields of a struct dtype, in order, seen as its members.
#[cycle(dtypes)]
#[derive(Debug, Drop)]
pub struct Fields {
    list: FieldList,
}

impl Model for Fields {
    ghost use Rattle.vx_types.specs.Data.{Members};
    ghost use Rattle.vx_types.specs.Codes.{coded_members};
    ghost use Rattle.vx_types.specs.Sizes.{fields_size};

    ghost Value = { Members };

    ghost coded = { coded_members };

    ghost use Rattle.vx_types.specs.FieldLists.{listed};

    ghost view = { λ a. listed a.list };

    ghost size = { fields_size };

    ghost use Rattle.std.proofs.Common.{arith};
    ghost use Rattle.vx_types.specs.Falls.{list_le_size};

    ghost size_decreases = { λ a h. omega (arith, list_le_size a.list) };
}

/// The dtype of a list's elements, seen as that dtype.
#[cycle(dtypes)]
#[derive(Debug, Drop)]
pub struct Element {
    dtype: Box<DType>,
}

impl Model for Element {
    ghost use Rattle.vx_types.specs.Data.{DataType};
    ghost use Rattle.vx_types.specs.Codes.{coded_type};
    ghost use Rattle.vx_types.specs.Sizes.{element_size};

    ghost Value = { DataType };

    ghost coded = { coded_type };

    ghost use Rattle.vx_types.specs.Views.{data_type};

    ghost view = { λ a. data_type a.dtype.value };

    ghost size = { element_size };

    ghost use Rattle.std.proofs.Common.{arith};
    ghost use Rattle.vx_types.specs.Falls.{deep_le_size};

    ghost size_decreases = { λ a h. omega (arith, deep_le_size a.dtype.value) };
}

/// What a column's values are.
#[cycle(dtypes)]
#[derive(Debug)]
pub enum DType {
    /// Truth values.
    Bool(Nullability),
    /// Whole numbers of a kind.
    Int(IntKind, Nullability),
    /// Texts, in UTF-8.
    Utf8(Nullability),
    /// Structs of one value for each field.
    Struct(Fields, Nullability),
    /// Lists of elements.
    List(Element, Nullability),
}

impl Drop for DType {
    #[cycle(dtypes_let_go)]
    fn drop(self) {
        match self {
            DType::Bool(_) => {}
            DType::Int(_, _) => {}
            DType::Utf8(_) => {}
            DType::Struct(_, _) => {}
            DType::List(_, _) => {}
        }
    }
}

/// The place of the first of the fields that has the name.
fn place_of(fields: &[Field], name: &str) -> Option<usize>
    ensures { result ≡ position (λ field. bytes_eq field.name name.now) fields.now }
{
    fields.iter().position(|field| field.name.as_str() == name)
}

impl OwnFields {
    /// The fields, in order. It takes no memory.
    fn items(&self) -> &[Field]
        ensures { members_of result.now ≡ self.now }
    {
        self.fields.as_slice()
    }

    /// The same fields in memory of their own.
    #[cycle(copy)]
    fn copy(&self, alloc: Global) -> Result<OwnFields, AllocError>
        ensures { IfOk result (λ copied. copied ≡ self.now) }
    {
        let items = self.items();
        let mut fields = Vec::with_capacity(alloc, items.len())?;
        for field in items {
            let name = field.name.copy(alloc)?;
            let dtype = field.dtype.copy(alloc)?;
            fields.push(Field { name, dtype })?;
        }
        Ok(OwnFields { fields })
    }

    /// The fields behind a handle. It moves them, and takes memory for the handle alone.
    fn share(self, alloc: Global) -> Result<Fields, AllocError>
        ensures { IfOk result (λ fields. fields ≡ self) }
    {
        let shared = Arc::new(alloc, self)?;
        Ok(Fields {
            list: FieldList::Shared(shared),
        })
    }
}

impl Fields {
    /// Fields in the order of the list. It takes no memory.
    pub fn from_vec(items: Vec<Field>) -> Fields
        ensures { result ≡ members_of items.items }
    {
        let fields = OwnFields { fields: items };
        Fields {
            list: FieldList::Alone(fields),
        }
    }

    /// The fields, in order. It takes no memory.
    pub fn items(&self) -> &[Field]
        ensures { members_of result.now ≡ self.now }
    {
        match &self.list {
            FieldList::Alone(fields) => fields.items(),
            FieldList::Shared(fields) => fields.items(),
        }
    }

    /// The same fields, which copies share from now on. It moves them, and takes memory for a handle alone.
    pub fn share(self, alloc: Global) -> Result<Fields, AllocError>
        ensures { IfOk result (λ fields. fields ≡ self) }
    {
        let Fields { list } = self;
        match list {
            FieldList::Alone(fields) => fields.share(alloc),
            list => Ok(Fields { list }),
        }
    }

    /// How many fields there are.
    #[tactic(auto, using(crate::proofs::Members::length_in_view))]
    pub fn len(&self) -> usize
        ensures { result ≡ length (fields_in self.now) }
    {
        self.items().len()
    }

    /// The field at a place, counted from 0. None past the last field.
    #[tactic(auto, using(crate::proofs::Members::length_in_view, crate::proofs::Members::field_in_view))]
    pub fn get(&self, place: usize) -> Option<&Field>
        ensures past { IsNone result ↔ (length (fields_in self.now) ≤ place) }
        ensures found { IfSome result (λ field. slice_get (fields_in self.now) place ≡ Some (field_data field.now)) }
    {
        self.items().get(place)
    }

    /// The place of the first field of that name, counted from 0. None where there is none.
    pub fn find(&self, name: &str) -> Option<usize>
        ensures { result ≡ position (λ field. bytes_eq field.name name.now) (fields_in self.now) }
    {
        place_of(self.items(), name)
    }
}

impl Fields {
    /// Whether the fields have the same names and dtypes, in the same order.
    #[cycle(same)]
    pub fn same(&self, other: &Fields) -> bool
        ensures { IsTrue result ↔ (self.now ≡ other.now) }
    {
        let ones = self.items();
        let others = other.items();
        if ones.len() != others.len() {
            return false;
        }
        for (place, one) in ones.iter().enumerate() {
            let two = &others[place];
            if one.name.as_str() != two.name.as_str() {
                return false;
            }
            if !one.dtype.same(&two.dtype) {
                return false;
            }
        }
        true
    }

    /// The same fields, which further copies share. Where these are shared already it takes no memory, and costs the same
    /// for any number of fields.
    #[cycle(copy)]
    pub fn copy(&self, alloc: Global) -> Result<Fields, AllocError>
        ensures { IfOk result (λ copied. copied ≡ self.now) }
    {
        match &self.list {
            FieldList::Alone(fields) => fields.copy(alloc)?.share(alloc),
            FieldList::Shared(fields) => {
                let shared = Arc::try_clone(fields)?;
                Ok(Fields {
                    list: FieldList::Shared(shared),
                })
            }
        }
    }
}

impl Element {
    /// The element of a list dtype.
    pub fn of(alloc: Global, dtype: DType) -> Result<Element, AllocError>
        ensures { IfOk result (λ element. element ≡ data_type dtype) }
    {
        let dtype = Box::new(alloc, dtype)?;
        Ok(Element { dtype })
    }

    /// The dtype of the elements. It takes no memory.
    pub fn dtype(&self) -> &DType
        ensures { data_type result.now ≡ self.now }
    {
        &self.dtype
    }
}

impl DType {
    /// Whether the dtype takes nulls, as a nullability.
    pub(crate) fn nullability(&self) -> Nullability
        ensures { result ≡ nullability_of (data_type self.now) }
    {
        match self {
            DType::Bool(nullability)
            | DType::Int(_, nullability)
            | DType::Utf8(nullability)
            | DType::Struct(_, nullability)
            | DType::List(_, nullability) => *nullability,
        }
    }

    /// Whether the dtype takes nulls.
    pub fn is_nullable(&self) -> bool
        ensures { result ≡ takes_null (nullability_of (data_type self.now)) }
    {
        matches!(self.nullability(), Nullability::Nullable)
    }

    /// Whether the dtypes are the same, null for null, name for name, and part for part.
    #[cycle(same)]
    pub fn same(&self, other: &DType) -> bool
        ensures { IsTrue result ↔ (data_type self.now ≡ data_type other.now) }
    {
        if self.nullability() != other.nullability() {
            return false;
        }
        match (self, other) {
            (DType::Bool(_), DType::Bool(_)) => true,
            (DType::Int(kind, _), DType::Int(other_kind, _)) => kind == other_kind,
            (DType::Utf8(_), DType::Utf8(_)) => true,
            (DType::Struct(fields, _), DType::Struct(others, _)) => fields.same(others),
            (DType::List(one, _), DType::List(two, _)) => one.dtype().same(two.dtype()),
            _ => false,
        }
    }

    /// The same dtype, which takes nulls; fields are copied as by `copy`.
    pub fn as_nullable(&self, alloc: Global) -> Result<DType, AllocError>
        ensures { IfOk result (λ nullable. data_type nullable ≡ made_nullable (data_type self.now)) }
    {
        let nullable = Nullability::Nullable;
        match self {
            DType::Bool(_) => Ok(DType::Bool(nullable)),
            DType::Int(kind, _) => Ok(DType::Int(*kind, nullable)),
            DType::Utf8(_) => Ok(DType::Utf8(nullable)),
            DType::Struct(fields, _) => {
                let copied = fields.copy(alloc)?;
                Ok(DType::Struct(copied, nullable))
            }
            DType::List(element, _) => {
                let copied = element.dtype().copy(alloc)?;
                let copied = Element::of(alloc, copied)?;
                Ok(DType::List(copied, nullable))
            }
        }
    }

    /// The same dtype. The fields of a struct are shared by all further copies, and take memory for the first one alone.
    #[cycle(copy)]
    pub fn copy(&self, alloc: Global) -> Result<DType, AllocError>
        ensures { IfOk result (λ copied. data_type copied ≡ data_type self.now) }
    {
        match self {
            DType::Bool(nullability) => Ok(DType::Bool(*nullability)),
            DType::Int(kind, nullability) => Ok(DType::Int(*kind, *nullability)),
            DType::Utf8(nullability) => Ok(DType::Utf8(*nullability)),
            DType::Struct(fields, nullability) => {
                let copied = fields.copy(alloc)?;
                Ok(DType::Struct(copied, *nullability))
            }
            DType::List(element, nullability) => {
                let copied = element.dtype().copy(alloc)?;
                let copied = Element::of(alloc, copied)?;
                Ok(DType::List(copied, *nullability))
            }
        }
    }
}
