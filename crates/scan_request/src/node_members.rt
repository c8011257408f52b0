//! The members of a node, as they are read one after another, and the node that they tell.

ghost use Rattle.std.specs.Prelude.{◌≡◌, ◌<◌, ◌≤◌, Some, None, Err, length, IfOk, OnOk, option_map};
ghost use Rattle.std.specs.Map.{lookup};
ghost use Rattle.std.specs.Str.{bytes_eq};
ghost use Rattle.serde_json.specs.Data.{Data, Members};
ghost use Rattle.vx_base.specs.Views.{data_type};
ghost use Rattle.vx_layout.specs.Nodes.{node_data};
ghost use Rattle.scan_json.specs.Members.{AreRising};
ghost use Rattle.scan_json.specs.Reading.{read_members, read_value, reads};
ghost use Rattle.scan_request.specs.NodeForms.{legacy_by, node_form, plain_kinds, zoned_by};
ghost use Rattle.scan_request.specs.NodeMembers.{children_said, coding_said, flat_said, kind_said, known, members_said, node_said, rest_said, there as is_there, told_by, told_of, told_value, with_member, zones_said};

use crate::dtype_forms::dtype_of;
use crate::json_forms::{numbers_of, whole_32, whole_64};
use crate::node_forms::{coding_of, statistics_of};
use json::Reader;
use scan_json::{Unread, object_begins, pass, text};
use std::alloc::Global;
use vx_base::{Coding, DType};
use vx_expr::Statistics;
use vx_layout::{LayoutKind, LayoutNode};

/// What the members of a node tell, each where it is there.
struct NodeMembers<'a> {
    kind: Option<Option<&'a str>>,
    dtype: Option<Option<DType>>,
    rows: Option<Option<u64>>,
    children: Option<Option<Vec<u32>>>,
    segment: Option<Option<u32>>,
    coding: Option<Option<Coding>>,
    zone_len: Option<Option<u64>>,
    stats: Option<Option<Statistics>>,
    /// A member has another name.
    others: bool,
}

impl Drop for NodeMembers<'_> {
    fn drop(self) {
        let NodeMembers {
            kind: _,
            dtype: _,
            rows: _,
            children: _,
            segment: _,
            coding: _,
            zone_len: _,
            stats: _,
            others: _,
        } = self;
    }
}

/// Reads the value of the member of that name.
fn member_told<'a>(
    alloc: Global,
    reader: &mut Reader<'a>,
    depth: usize,
    name: &str,
    told: &mut NodeMembers<'a>,
) -> Result<(), Unread>
    ensures ok { OnOk result ((d : Data) × (read_value depth reader.old ≡ Some (d, reader.new)) × (told_by told.new ≡ with_member name.now d (told_by told.old))) }
    ensures shorter { OnOk result (length reader.new < length reader.old) }
    ensures refused { result ≡ Err Unread.Invalid → read_value depth reader.old ≡ None }
{
    match name {
        "kind" => {
            told.kind = Some(text(reader, depth)?);
            Ok(())
        }
        "dtype" => {
            told.dtype = Some(dtype_of(alloc, reader, depth)?);
            Ok(())
        }
        "rows" => {
            told.rows = Some(whole_64(reader, depth)?);
            Ok(())
        }
        "children" => {
            told.children = Some(numbers_of(alloc, reader, depth)?);
            Ok(())
        }
        "segment" => {
            told.segment = Some(whole_32(reader, depth)?);
            Ok(())
        }
        "coding" => {
            told.coding = Some(coding_of(reader, depth)?);
            Ok(())
        }
        "zone_len" => {
            told.zone_len = Some(whole_64(reader, depth)?);
            Ok(())
        }
        "stats" => {
            told.stats = Some(statistics_of(alloc, reader, depth)?);
            Ok(())
        }
        _ => {
            pass(reader, depth)?;
            told.others = true;
            Ok(())
        }
    }
}

/// Reads the members of an object to its end.
fn members_in<'a>(
    alloc: Global,
    reader: &mut Reader<'a>,
    depth: usize,
) -> Result<NodeMembers<'a>, Unread>
    ensures ok { IfOk result (λ told. (ms : Members) × (read_members depth reader.old ≡ Some (ms, reader.new)) × AreRising ms × (told_by told ≡ told_of ms)) }
    ensures shorter { OnOk result (length reader.new < length reader.old) }
    ensures refused { result ≡ Err Unread.Invalid → read_members depth reader.old ≡ None }
{
    let mut told = NodeMembers {
        kind: None,
        dtype: None,
        rows: None,
        children: None,
        segment: None,
        coding: None,
        zone_len: None,
        stats: None,
        others: false,
    };
    'members: while let Some(name) = reader.next_key()? {
        member_told(alloc, reader, depth, name, &mut told)?;
    }
    Ok(told)
}

/// 1 where something is there, else 0.
fn there<T>(told: &Option<T>) -> usize
    ensures count { result ≡ is_there told.now }
    ensures one { result ≤ 1 }
{
    if told.is_some() { 1 } else { 0 }
}

/// How many of the members that a node may have are there.
fn known_count(told: &NodeMembers<'_>) -> usize
    ensures { result ≡ known (told_by told.now) }
{
    there(&told.kind)
        + there(&told.dtype)
        + there(&told.rows)
        + there(&told.children)
        + there(&told.segment)
        + there(&told.coding)
        + there(&told.zone_len)
        + there(&told.stats)
}

/// The flat kind over that segment, coded as the node tells.
fn flat_kind(segment: Option<Option<u32>>, coding: Option<Option<Coding>>) -> Option<LayoutKind>
    ensures { result ≡ flat_said segment coding }
{
    let segment = segment??;
    match coding {
        Some(coding) => Some(LayoutKind::Flat {
            segment,
            coding: coding?,
        }),
        None => Some(LayoutKind::Flat {
            segment,
            coding: Coding::Plain,
        }),
    }
}

/// The length of the zones of a node, and their statistics.
fn zones_of(
    zone_len: Option<Option<u64>>,
    stats: Option<Option<Statistics>>,
) -> Option<(u64, Statistics)>
    ensures { result ≡ zones_said zone_len stats }
{
    match (zone_len, stats) {
        (Some(Some(zone_len)), Some(Some(stats))) => Some((zone_len, stats)),
        _ => None,
    }
}

/// The zoned kind with such zones, where there are any.
fn zoned_kind(zones: Option<(u64, Statistics)>) -> Option<LayoutKind>
    ensures { result ≡ zoned_by zones }
{
    let (zone_len, stats) = zones?;
    Some(LayoutKind::Zoned { zone_len, stats })
}

/// The older zoned kind with such zones, where there are any.
fn legacy_kind(zones: Option<(u64, Statistics)>) -> Option<LayoutKind>
    ensures { result ≡ legacy_by zones }
{
    let (zone_len, stats) = zones?;
    Some(LayoutKind::LegacyStats { zone_len, stats })
}

/// The kind of that name, where its children tell all else of it.
fn plain_kind(name: &str) -> Option<LayoutKind>
    ensures { result ≡ lookup (bytes_eq name.now) plain_kinds }
{
    match name {
        "chunked" => Some(LayoutKind::Chunked),
        "struct" => Some(LayoutKind::Struct),
        "dict" => Some(LayoutKind::Dict),
        "list" => Some(LayoutKind::List),
        _ => None,
    }
}

/// The kind of that name, with what the node tells of it.
fn kind_named(
    name: &str,
    flat: Option<LayoutKind>,
    zones: Option<(u64, Statistics)>,
) -> Option<LayoutKind>
    ensures { result ≡ kind_said name.now flat zones }
{
    match name {
        "flat" => flat,
        "zoned" => zoned_kind(zones),
        "legacy_stats" => legacy_kind(zones),
        _ => plain_kind(name),
    }
}

/// How many members a node of the kind has.
fn member_count(kind: &LayoutKind, coded: usize) -> usize
    requires { coded ≤ 1 }
    ensures { result ≡ members_said kind.now coded }
{
    match kind {
        LayoutKind::Flat { .. } => 4 + coded,
        LayoutKind::Zoned { .. } | LayoutKind::LegacyStats { .. } => 6,
        _ => 4,
    }
}

/// The numbers of the children of a node, of which a flat one has none.
fn children_of(
    alloc: Global,
    kind: &LayoutKind,
    children: Option<Option<Vec<u32>>>,
) -> Option<Vec<u32>>
    ensures { option_map (λ v. v.items) result ≡ children_said kind.now (option_map (option_map (λ v. v.items)) children) }
{
    if let LayoutKind::Flat { .. } = kind {
        drop(children);
        return Some(Vec::new(alloc));
    }
    match children {
        Some(children) => children,
        None => None,
    }
}

/// The node of a kind, where all else is there.
fn node_from(
    kind: LayoutKind,
    rows: Option<Option<u64>>,
    children: Option<Vec<u32>>,
    dtype: Option<Option<DType>>,
) -> Option<LayoutNode>
    ensures { option_map node_data result ≡ rest_said kind (told_value rows) (option_map (λ v. v.items) children) (told_value (option_map (option_map data_type) dtype)) }
{
    match (rows, children, dtype) {
        (Some(Some(row_count)), Some(children), Some(Some(dtype))) => Some(LayoutNode {
            kind,
            dtype,
            row_count,
            children,
        }),
        _ => None,
    }
}

impl NodeMembers<'_> {
    /// The node that the members tell.
    fn into_node(self, alloc: Global) -> Option<LayoutNode>
        ensures { option_map node_data result ≡ node_said (told_by self.entry) }
    {
        let count = known_count(&self);
        let coded = there(&self.coding);
        let NodeMembers {
            kind,
            dtype,
            rows,
            children,
            segment,
            coding,
            zone_len,
            stats,
            others,
        } = self;
        if others {
            return None;
        }
        let flat = flat_kind(segment, coding);
        let zones = zones_of(zone_len, stats);
        let kind = match kind {
            Some(Some(name)) => kind_named(name, flat, zones)?,
            _ => return None,
        };
        if count != member_count(&kind, coded) {
            return None;
        }
        let children = children_of(alloc, &kind, children);
        node_from(kind, rows, children, dtype)
    }
}

/// The node that the next value is.
pub(crate) fn node_of(
    alloc: Global,
    reader: &mut Reader<'_>,
    depth: usize,
) -> Result<Option<LayoutNode>, Unread>
    ensures ok { IfOk result (λ node. reads node_form depth reader.old ≡ Some (option_map node_data node, reader.new)) }
    ensures shorter { OnOk result (length reader.new < length reader.old) }
    ensures refused { result ≡ Err Unread.Invalid → read_value depth reader.old ≡ None }
{
    if !object_begins(reader, depth)? {
        return Ok(None);
    }
    match members_in(alloc, reader, depth - 1) {
        Ok(told) => Ok(told.into_node(alloc)),
        Err(error) => Err(error),
    }
}
