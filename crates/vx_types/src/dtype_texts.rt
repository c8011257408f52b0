//! The printed form of dtypes: `i64`, `utf8?`, `{a=i64, b=utf8?}`, `list(bool)`.

ghost use Rattle.std.specs.Prelude.{◌≡◌, ◌++◌, OnOk, IfOk};
ghost use Rattle.vx_types.specs.TypeText.{kind_text, null_mark, type_text, members_text, separator};
ghost use Rattle.vx_types.specs.Views.{data_type};

use crate::dtypes::{DType, Fields, IntKind, Nullability};
use std::alloc::{AllocError, Global};

impl IntKind {
    /// The name of the kind.
    fn name(&self) -> &'static [u8]
        ensures { result.now ≡ kind_text self.now }
    {
        match self {
            IntKind::U8 => b"u8",
            IntKind::U16 => b"u16",
            IntKind::U32 => b"u32",
            IntKind::U64 => b"u64",
            IntKind::I8 => b"i8",
            IntKind::I16 => b"i16",
            IntKind::I32 => b"i32",
            IntKind::I64 => b"i64",
        }
    }
}

impl Nullability {
    /// Writes a question mark where nulls are taken.
    fn write_mark(&self, out: &mut Vec<u8>) -> Result<(), AllocError>
        ensures { OnOk result (out.new.items ≡ out.old.items ++ null_mark self.now) }
    {
        if matches!(self, Nullability::Nullable) {
            out.push(b'?')?;
        }
        Ok(())
    }
}

/// Writes these bytes, and a question mark where nulls are taken.
fn write_marked(text: &[u8], nullability: Nullability, out: &mut Vec<u8>) -> Result<(), AllocError>
    ensures { OnOk result (out.new.items ≡ out.old.items ++ (text.now ++ null_mark nullability)) }
{
    out.extend_from_slice(text)?;
    nullability.write_mark(out)
}

/// Writes a comma and a space before each field but the first.
fn write_separator(place: usize, out: &mut Vec<u8>) -> Result<(), AllocError>
    ensures { OnOk result (out.new.items ≡ out.old.items ++ separator place) }
{
    if 0 < place {
        out.extend_from_slice(b", ")?;
    }
    Ok(())
}

impl Fields {
    /// Writes the fields, with a comma between two of them.
    #[tactic(auto, using(crate::proofs::FieldTexts::text_more, crate::proofs::FieldTexts::text_done))]
    #[cycle(text)]
    fn write_text(&self, out: &mut Vec<u8>) -> Result<(), AllocError>
        ensures { OnOk result (out.new.items ≡ out.old.items ++ members_text self.now) }
    {
        let items = self.items();
        for (place, field) in items.iter().enumerate() {
            write_separator(place, out)?;
            out.extend_from_slice(field.name.as_str().as_bytes())?;
            out.push(b'=')?;
            field.dtype.write_text(out)?;
        }
        Ok(())
    }
}

impl DType {
    /// Writes the printed form of the dtype.
    #[cycle(text)]
    fn write_text(&self, out: &mut Vec<u8>) -> Result<(), AllocError>
        ensures { OnOk result (out.new.items ≡ out.old.items ++ type_text (data_type self.now)) }
    {
        let nullability = self.nullability();
        match self {
            DType::Bool(_) => write_marked(b"bool", nullability, out),
            DType::Int(kind, _) => write_marked(kind.name(), nullability, out),
            DType::Utf8(_) => write_marked(b"utf8", nullability, out),
            DType::Struct(fields, _) => {
                out.push(b'{')?;
                fields.write_text(out)?;
                write_marked(b"}", nullability, out)
            }
            DType::List(element, _) => {
                out.extend_from_slice(b"list(")?;
                element.dtype().write_text(out)?;
                write_marked(b")", nullability, out)
            }
        }
    }

    /// The printed form of the dtype.
    pub fn text(&self, alloc: Global) -> Result<Vec<u8>, AllocError>
        ensures { IfOk result (λ text. text.items ≡ type_text (data_type self.now)) }
    {
        let mut out = Vec::new(alloc);
        self.write_text(&mut out)?;
        Ok(out)
    }
}
