//! The demo file of a number.

ghost use Rattle.std.specs.Prelude.{◌≡◌, ◌≤◌, ℕ, ◌<◌, [], ◌∷◌, ◌++◌, Some, length, map, IfOk, OnOk};
ghost use Rattle.vx_base.specs.Limits.{most_segments};
ghost use Rattle.vx_base.specs.Views.{data_type, field_data};
ghost use Rattle.vx_layout.specs.Kept.{all};
ghost use Rattle.vx_layout.specs.Rows.{AreTreeValues, file_leaves, value};
ghost use Rattle.vx_layout.specs.Shape.{IsGoodTree};
ghost use Rattle.vx_layout.specs.Trees.{subtree};
ghost use Rattle.scan_demo.specs.DemoBytes.{demo_bytes, demo_locations};
ghost use Rattle.scan_demo.specs.DemoNodes.{demo_nodes, dict_node, flat_node, root_node, row_type};
ghost use Rattle.scan_demo.specs.DemoRows.{demo_row, demo_rows, most_demo_rows};
ghost use Rattle.scan_demo.specs.Flats.{demo_flats, name_flat};
ghost use Rattle.scan_demo.specs.Writing.{nodes_in, Wrote};

use crate::file_writers::FileWriter;
use crate::stored_columns::{CHUNK_ROWS, StoredColumn, names};
use std::alloc::{AllocError, Global};
use vx_base::{DType, Field, Fields, IntKind, Nullability, Text};
use vx_layout::{LayoutError, LayoutKind, LayoutTree};
use vx_scan::ScanFile;

/// A file with its bytes.
#[derive(Drop)]
pub struct DemoFile {
    pub file: ScanFile,
    pub bytes: Vec<u8>,
}

/// Adds a field of that name and dtype.
fn push_field(
    alloc: Global,
    fields: &mut Vec<Field>,
    name: &str,
    dtype: DType,
) -> Result<(), AllocError>
    ensures { OnOk result (map field_data fields.new.items ≡ map field_data fields.old.items ++ record { name = name.now; dtype = data_type dtype } ∷ []) }
{
    let name = Text::from_string(String::from_str(alloc, name)?);
    fields.push(Field { name, dtype })?;
    Ok(())
}

/// The dtype of the rows.
fn row_dtype(alloc: Global) -> Result<DType, AllocError>
    ensures { IfOk result (λ dtype. data_type dtype ≡ row_type) }
{
    let never = Nullability::NonNullable;
    let mut fields = Vec::new(alloc);
    push_field(alloc, &mut fields, "id", DType::Int(IntKind::I64, never))?;
    push_field(
        alloc,
        &mut fields,
        "name",
        DType::Utf8(Nullability::Nullable),
    )?;
    push_field(alloc, &mut fields, "flag", DType::Bool(never))?;
    Ok(DType::Struct(Fields::from_vec(fields), never))
}

/// Writes the root over its fields, each of which has so many chunks.
fn push_root(
    alloc: Global,
    writer: &mut FileWriter,
    number: u64,
    chunks: u32,
) -> Result<(), AllocError>
    requires { chunks ≤ 1000 }
    ensures { OnOk result (Wrote writer.old writer.new (root_node number chunks ∷ []) []) }
{
    let fields = vec![in alloc; 1, chunks + 2, 2 * chunks + 5]?;
    writer.push_node(LayoutKind::Struct, row_dtype(alloc)?, number, fields)
}

/// Writes the dictionary over its values and its codes, which have so many chunks, and the values behind it.
fn push_dictionary(
    alloc: Global,
    writer: &mut FileWriter,
    number: u64,
    chunks: u32,
) -> Result<(), AllocError>
    requires { chunks ≤ 1000 }
    ensures { OnOk result (Wrote writer.old writer.new (dict_node number chunks ∷ flat_node chunks name_flat ∷ []) (name_flat ∷ [])) }
{
    let dtype = DType::Utf8(Nullability::Nullable);
    let parts = vec![in alloc; chunks + 3, chunks + 4]?;
    writer.push_node(LayoutKind::Dict, dtype, number, parts)?;
    writer.push_flat(alloc, chunks, &names(alloc)?)?;
    Ok(())
}

/// Writes the demo file.
fn write_file(alloc: Global, writer: &mut FileWriter, number: u64) -> Result<(), AllocError>
    requires { number ≤ most_demo_rows }
    ensures { OnOk result (Wrote writer.old writer.new (demo_nodes number) (demo_flats number)) }
{
    let chunks = number.div_ceil(CHUNK_ROWS) as u32;
    push_root(alloc, writer, number, chunks)?;
    writer.push_chunked(alloc, StoredColumn::Ids, number, 2, 0)?;
    push_dictionary(alloc, writer, number, chunks)?;
    writer.push_chunked(alloc, StoredColumn::Codes, number, chunks + 5, chunks + 1)?;
    writer.push_chunked(
        alloc,
        StoredColumn::Flags,
        number,
        2 * chunks + 6,
        2 * chunks + 1,
    )?;
    Ok(())
}

/// The demo file as it is written.
fn written(alloc: Global, number: u64) -> Result<FileWriter, AllocError>
    requires { number ≤ most_demo_rows }
    ensures nodes { IfOk result (λ writer. nodes_in writer ≡ demo_nodes number) }
    ensures locations { IfOk result (λ writer. writer.locations.items ≡ demo_locations number) }
    ensures bytes { IfOk result (λ writer. writer.bytes.items ≡ demo_bytes number) }
{
    let mut writer = FileWriter::new(alloc);
    match write_file(alloc, &mut writer, number) {
        Ok(()) => Ok(writer),
        Err(error) => {
            drop(writer);
            Err(error)
        }
    }
}

/// The demo file of so many rows, at most a million, and its bytes (docs/FORMATS.md).
pub fn demo_file(alloc: Global, number: u64) -> Result<DemoFile, AllocError>
    requires { number ≤ most_demo_rows }
    ensures nodes { IfOk result (λ demo. demo.file.layout ≡ demo_nodes number) }
    ensures good { OnOk result (IsGoodTree (demo_nodes number)) }
    ensures locations { IfOk result (λ demo. demo.file.locations.items ≡ demo_locations number) }
    ensures bytes { IfOk result (λ demo. demo.bytes.items ≡ demo_bytes number) }
    // Its segments are few enough to be numbered.
    ensures few { IfOk result (λ demo. length demo.file.locations.items ≤ most_segments) }
    // By the bytes of the file its rows have the values of the demo rows.
    ensures rows { IfOk result (λ demo. AreTreeValues (file_leaves demo.bytes.items demo.file.locations.items) (subtree demo.file.layout 0) all (demo_rows number)) }
    ensures each { IfOk result (λ demo. (row : ℕ) → row < number
        → value (file_leaves demo.bytes.items demo.file.locations.items) (subtree demo.file.layout 0) all row ≡ Some (demo_row number row)) }
{
    let FileWriter {
        nodes,
        locations,
        bytes,
    } = written(alloc, number)?;
    match LayoutTree::try_new(alloc, nodes) {
        Ok(layout) => {
            let file = ScanFile { layout, locations };
            Ok(DemoFile { file, bytes })
        }
        Err(LayoutError::Memory) => Err(AllocError),
        Err(LayoutError::BadLayout { .. }) => unreachable!(),
    }
}
