//! The segment of a flat node in another coding: what the old one holds, spelled anew.

ghost use Rattle.std.specs.Prelude.{◌≡◌, ◌<◌, ◌^◌, length, Some, None, IfErr, IfOk, MatchOption, OnOk, option_map, slice_get};
ghost use Rattle.vx_base.specs.Codings.{SpellsAs};
ghost use Rattle.vx_base.specs.LaidRuns.{AllAlike, IsFirstOther};
ghost use Rattle.vx_base.specs.Leaf.{IsLeaf};
ghost use Rattle.vx_base.specs.Slots.{IsShort};
ghost use Rattle.vx_base.specs.Sources.{bytes_at as bytes_in};
ghost use Rattle.vx_base.specs.declared.codings.Coding.TheVariants.{Constant};
ghost use Rattle.std.specs.List.{AllByRecursion};
ghost use Rattle.vx_layout.specs.Migrations.{CanWrite, HindersOrMemory, HindersValues};
ghost use Rattle.vx_layout.specs.Moving.{HasColumn, IsMovedSegment, IsRespelled, IsSegmentOf, IsTorn, RefusesBytes, RefusesFlat};
ghost use Rattle.vx_layout.specs.Nodes.{node_data};
ghost use Rattle.vx_layout.specs.Rows.{segment_bytes};

use crate::migrate_errors::MigrateError;
use crate::nodes::LayoutNode;
use crate::number_rules::are_few_in;
use std::alloc::Global;
use vx_base::{
    Coding, Column, DecodeError, EncodeError, SegmentLocation, decode_as, encode_as, spelled_len,
};

/// A segment has at most so many bytes.
const MOST_BYTES: u64 = 4294967295;

/// A flat node's number, its segment and how that is coded, and the coding that it gets.
#[derive(Clone, Copy)]
pub(crate) struct FlatNode {
    pub(crate) number: u32,
    pub(crate) segment: u32,
    pub(crate) old: Coding,
    pub(crate) new: Coding,
}

/// Where the segment lies.
fn location_of(locations: &[SegmentLocation], segment: u32) -> Option<SegmentLocation>
    ensures { result ≡ slice_get locations.now segment }
{
    locations.get(segment as usize).copied()
}

/// The bytes of the file at a location that lies inside it.
fn bytes_at(file: &[u8], at: SegmentLocation) -> Option<&[u8]>
    ensures { option_map (λ bytes. bytes.now) result ≡ bytes_in file.now at }
{
    let offset = at.offset as usize;
    let length = at.length as usize;
    if offset > file.len() || length > file.len() - offset {
        return None;
    }
    Some(&file[offset..offset + length])
}

/// The bytes of a segment and its alignment; `None` where it has no location or doesn't lie inside the file.
fn segment_in<'a>(
    locations: &[SegmentLocation],
    file: &'a [u8],
    segment: u32,
) -> Option<(&'a [u8], u32)>
    ensures { MatchOption result (segment_bytes file.now locations.now segment ≡ None) (λ found. IsSegmentOf locations.now file.now segment found.0.now found.1) }
{
    match location_of(locations, segment) {
        Some(at) => match bytes_at(file, at) {
            Some(bytes) => Some((bytes, at.alignment)),
            None => None,
        },
        None => None,
    }
}

/// The column of the flat node, by the bytes of its segment.
fn column_of(
    alloc: Global,
    node: &LayoutNode,
    flat: FlatNode,
    bytes: &[u8],
) -> Result<Column, MigrateError>
    requires { IsLeaf (node_data node.now).dtype }
    ensures column { IfOk result (HasColumn (node_data node.now) flat.old bytes.now) }
    ensures refused { IfErr result (IsTorn flat.number (node_data node.now) flat.old bytes.now) }
{
    match decode_as(alloc, &node.dtype, flat.old, node.row_count, bytes) {
        Ok(column) => Ok(column),
        Err(DecodeError::BadSegment) => Err(MigrateError::BadSegment(flat.number)),
        Err(DecodeError::Memory) => Err(MigrateError::Memory),
    }
}

/// The first row that keeps the column from having the coding; only a constant asks that all rows are the same.
fn first_unlike(column: &Column, coding: Coding) -> Option<u64>
    ensures { MatchOption result (coding ≡ Constant → AllAlike column.now.values) (λ row. (coding ≡ Constant) × IsFirstOther column.now.values row) }
{
    match coding {
        Coding::Constant => column.first_other(),
        _ => None,
    }
}

/// Why the column of a flat node has no spelling in its new coding that is short enough. The length is told without
/// writing it.
fn first_hindrance(node: &LayoutNode, flat: FlatNode, column: &Column) -> Option<MigrateError>
    requires leaf { IsLeaf column.now.dtype }
    requires dtype { column.now.dtype ≡ (node_data node.now).dtype }
    requires count { length column.now.values ≡ node.now.row_count }
    requires short { AllByRecursion IsShort column.now.values }
    requires counted { node.now.row_count < 2 ^ 32 }
    ensures { MatchOption result (CanWrite (node_data node.now) flat.new column.now.values) (HindersValues flat.number (node_data node.now) flat.new column.now.values) }
{
    if !are_few_in(flat.new, node.row_count) {
        return Some(MigrateError::TooManyRows(flat.number));
    }
    match first_unlike(column, flat.new) {
        Some(row) => Some(MigrateError::NotConstant {
            node: flat.number,
            row,
        }),
        None => match spelled_len(column, flat.new) {
            Some(len) => {
                if len <= MOST_BYTES {
                    None
                } else {
                    Some(MigrateError::TooLong(flat.number))
                }
            }
            None => Some(MigrateError::TooLong(flat.number)),
        },
    }
}

/// The spelling of the column of a flat node in its new coding.
fn spelling_of(
    alloc: Global,
    node: &LayoutNode,
    flat: FlatNode,
    column: &Column,
) -> Result<Vec<u8>, MigrateError>
    requires leaf { IsLeaf column.now.dtype }
    requires dtype { column.now.dtype ≡ (node_data node.now).dtype }
    requires count { length column.now.values ≡ node.now.row_count }
    requires short { AllByRecursion IsShort column.now.values }
    requires counted { node.now.row_count < 2 ^ 32 }
    ensures can { OnOk result (CanWrite (node_data node.now) flat.new column.now.values) }
    ensures spelled { IfOk result (λ bytes. SpellsAs flat.new (node_data node.now).dtype node.now.row_count bytes.items column.now.values) }
    ensures hindered { IfErr result (HindersOrMemory flat.number (node_data node.now) flat.new column.now.values) }
{
    match first_hindrance(node, flat, column) {
        Some(error) => Err(error),
        None => match encode_as(alloc, column, flat.new) {
            Ok(bytes) => Ok(bytes),
            Err(EncodeError::NotConstant(row)) => Err(MigrateError::NotConstant {
                node: flat.number,
                row,
            }),
            Err(EncodeError::Memory) => Err(MigrateError::Memory),
        },
    }
}

/// What the bytes hold for the flat node, in its new coding.
fn respelled(
    alloc: Global,
    node: &LayoutNode,
    flat: FlatNode,
    bytes: &[u8],
) -> Result<Vec<u8>, MigrateError>
    requires leaf { IsLeaf (node_data node.now).dtype }
    requires counted { node.now.row_count < 2 ^ 32 }
    ensures spelled { IfOk result (λ made. IsRespelled (node_data node.now) flat.old flat.new bytes.now made.items) }
    ensures refused { IfErr result (RefusesBytes flat.number (node_data node.now) flat.old flat.new bytes.now) }
{
    match column_of(alloc, node, flat, bytes) {
        Ok(column) => {
            let spelled = spelling_of(alloc, node, flat, &column);
            drop(column);
            spelled
        }
        Err(error) => Err(error),
    }
}

/// The segment of the flat node in its new coding, and the alignment that it had.
pub(crate) fn moved_segment(
    alloc: Global,
    node: &LayoutNode,
    flat: FlatNode,
    locations: &[SegmentLocation],
    file: &[u8],
) -> Result<(Vec<u8>, u32), MigrateError>
    requires leaf { IsLeaf (node_data node.now).dtype }
    requires counted { node.now.row_count < 2 ^ 32 }
    ensures moved { IfOk result (λ made. IsMovedSegment locations.now file.now (node_data node.now) flat.segment flat.old flat.new made.0.items made.1) }
    ensures refused { IfErr result (RefusesFlat locations.now file.now flat.number (node_data node.now) flat.segment flat.old flat.new) }
{
    match segment_in(locations, file, flat.segment) {
        Some((bytes, alignment)) => match respelled(alloc, node, flat, bytes) {
            Ok(spelled) => Ok((spelled, alignment)),
            Err(error) => Err(error),
        },
        None => Err(MigrateError::NoBytes(flat.number)),
    }
}
