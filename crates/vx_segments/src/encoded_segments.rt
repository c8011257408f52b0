//! Encoding in each coding.

ghost use Rattle.std.specs.Prelude.{◌≡◌, ℕ, List, ◌<◌, ◌^◌, ◌++◌, length, OnOk, IfOk, IsErrOf};
ghost use Rattle.std.specs.List.{AllByRecursion};
ghost use Rattle.vx_types.specs.Leaf.{IsLeaf};
ghost use Rattle.vx_types.specs.Slots.{IsShort};
ghost use Rattle.vx_columns.specs.LaidRuns.{AllAlike, IsFirstOther};
ghost use Rattle.vx_segments.specs.Codings.{SpellsAs, SpellsConstant, SpellsRuns, end_bytes, run_bytes};
ghost use Rattle.vx_segments.specs.Segment.{plain_bytes};
ghost use Rattle.vx_segments.specs.declared.codings.Coding.TheVariants.{Constant};
ghost use Rattle.vx_segments.specs.declared.encode_errors.EncodeError.TheVariants as errors;

use crate::codings::Coding;
use crate::encode_errors::EncodeError;
use crate::encoding::{append_plain, encode};
use std::alloc::{AllocError, Global};
use vx_columns::Column;

/// The bytes of a constant: those of its first row alone.
fn encode_one(alloc: Global, column: &Column) -> Result<Vec<u8>, AllocError>
    requires leaf { IsLeaf column.now.dtype }
    requires short { AllByRecursion IsShort column.now.values }
    requires some { 0 < length column.now.values }
    requires alike { AllAlike column.now.values }
    ensures { IfOk result (λ bytes. SpellsConstant column.now.dtype (length column.now.values) bytes.items column.now.values) }
{
    let one = column.slice(alloc, 0..1)?;
    let written = encode(alloc, &one);
    drop(one);
    match written {
        Ok(bytes) => Ok(bytes),
        Err(error) => Err(error),
    }
}

/// The bytes of a constant, of which there are none where there are no rows.
fn encode_constant(alloc: Global, column: &Column) -> Result<Vec<u8>, EncodeError>
    requires leaf { IsLeaf column.now.dtype }
    requires short { AllByRecursion IsShort column.now.values }
    ensures spelled { IfOk result (λ bytes. SpellsConstant column.now.dtype (length column.now.values) bytes.items column.now.values) }
    ensures other { (row : ℕ) → IsErrOf result (EncodeError.NotConstant row) → IsFirstOther column.now.values row }
{
    if let Some(row) = column.first_other() {
        return Err(EncodeError::NotConstant(row));
    }
    if column.len() == 0 {
        return Ok(Vec::new(alloc));
    }
    let bytes = encode_one(alloc, column)?;
    Ok(bytes)
}

/// Writes where runs end, in eight bytes each.
fn push_ends(bytes: &mut Vec<u8>, ends: &[u64]) -> Result<(), AllocError>
    ensures { OnOk result (bytes.new.items ≡ bytes.old.items ++ end_bytes ends.now) }
{
    for end in ends {
        bytes.extend_from_slice(&end.to_le_bytes())?;
    }
    Ok(())
}

/// The bytes of runs: how many there are, where each ends, and the plain spelling of their values.
fn encode_parts(alloc: Global, values: &Column, ends: &[u64]) -> Result<Vec<u8>, AllocError>
    requires leaf { IsLeaf values.now.dtype }
    requires short { AllByRecursion IsShort values.now.values }
    requires few { length ends.now < 2 ^ 32 }
    ensures { IfOk result (λ bytes. bytes.items ≡ run_bytes ends.now (plain_bytes values.now.dtype values.now.values)) }
{
    let room = values
        .size()
        .saturating_add(4)
        .saturating_add(ends.len().saturating_mul(8));
    let mut bytes = Vec::with_capacity(alloc, room)?;
    bytes.extend_from_slice(&(ends.len() as u32).to_le_bytes())?;
    push_ends(&mut bytes, ends)?;
    append_plain(alloc, &mut bytes, values)?;
    Ok(bytes)
}

/// The bytes of the runs in which the rows lie. No row is spread.
fn encode_runs(alloc: Global, column: &Column) -> Result<Vec<u8>, AllocError>
    requires leaf { IsLeaf column.now.dtype }
    requires short { AllByRecursion IsShort column.now.values }
    requires few { length column.now.values < 2 ^ 32 }
    ensures { IfOk result (λ bytes. SpellsRuns column.now.dtype (length column.now.values) bytes.items column.now.values) }
{
    let _fit = column.len();
    let (values, ends) = column.to_runs(alloc)?;
    let written = encode_parts(alloc, &values, ends.as_slice());
    drop(values);
    match written {
        Ok(bytes) => Ok(bytes),
        Err(error) => Err(error),
    }
}

/// The bytes of a segment that spell the values of a column of a leaf dtype in the coding. They are one list of
/// values' alone, which `decode_as` reads again. No constant spells values of which one is another than the first.
pub fn encode_as(alloc: Global, column: &Column, coding: Coding) -> Result<Vec<u8>, EncodeError>
    requires leaf { IsLeaf column.now.dtype }
    requires short { AllByRecursion IsShort column.now.values }
    requires few { length column.now.values < 2 ^ 32 }
    ensures spelled { IfOk result (λ bytes. SpellsAs coding column.now.dtype (length column.now.values) bytes.items column.now.values) }
    ensures other { (row : ℕ) → IsErrOf result (EncodeError.NotConstant row) → (coding ≡ Constant) × IsFirstOther column.now.values row }
{
    let written = match coding {
        Coding::Plain => encode(alloc, column),
        Coding::Constant => return encode_constant(alloc, column),
        Coding::Runs => encode_runs(alloc, column),
    };
    match written {
        Ok(bytes) => Ok(bytes),
        Err(_) => Err(EncodeError::Memory),
    }
}
