//! The form of nodes: objects of exactly kind, dtype and rows, and the members of the kind.

ghost use Rattle.std.specs.Prelude.{◌≡◌, ◌<◌, Some, None, Err, length, IfOk, OnOk, OnErr, map, option_map};
ghost use Rattle.std.specs.Map.{lookup};
ghost use Rattle.std.specs.Str.{bytes_eq};
ghost use Rattle.vx_layout.specs.Nodes.{node_data};
ghost use Rattle.scan_json.specs.Forms.{each_form};
ghost use Rattle.scan_json.specs.Reading.{read_items, read_value, reads, reads_items};
ghost use Rattle.scan_request.specs.JsonForms.{list_form, list_of};
ghost use Rattle.scan_request.specs.NodeForms.{coding_form, coding_names, node_form, statistic_form, statistic_names};

use crate::json_forms::few;
use crate::node_members::node_of;
use json::{Invalid, Reader};
use scan_json::{Unread, joined, list_begins, text};
use std::alloc::Global;
use vx_base::Coding;
use vx_expr::{Statistic, Statistics};
use vx_layout::LayoutNode;

/// The statistic of that name.
fn statistic_named(name: &str) -> Option<Statistic>
    ensures { result ≡ lookup (bytes_eq name.now) statistic_names }
{
    match name {
        "min" => Some(Statistic::Min),
        "max" => Some(Statistic::Max),
        "null_count" => Some(Statistic::NullCount),
        _ => None,
    }
}

fn statistic_of(reader: &mut Reader<'_>, depth: usize) -> Result<Option<Statistic>, Invalid>
    ensures ok { IfOk result (λ found. reads statistic_form depth reader.old ≡ Some (found, reader.new)) }
    ensures shorter { OnOk result (length reader.new < length reader.old) }
    ensures refused { OnErr result (read_value depth reader.old ≡ None) }
{
    match text(reader, depth)? {
        Some(name) => Ok(statistic_named(name)),
        None => Ok(None),
    }
}

fn statistics_in(
    alloc: Global,
    reader: &mut Reader<'_>,
    depth: usize,
) -> Result<Option<Statistics>, Unread>
    ensures ok { IfOk result (λ list. reads_items (each_form statistic_form) depth reader.old ≡ Some (list, reader.new)) }
    ensures shorter { OnOk result (length reader.new < length reader.old) }
    ensures refused { result ≡ Err Unread.Invalid → read_items depth reader.old ≡ None }
{
    let mut made = Some(Vec::new(alloc));
    'items: while !reader.take_end_array() {
        let item = statistic_of(reader, depth)?;
        made = joined(made, item)?;
    }
    match made {
        Some(statistics) => Ok(Some(Statistics::from_vec(statistics))),
        None => Ok(None),
    }
}

/// The statistics that the next value is.
pub(crate) fn statistics_of(
    alloc: Global,
    reader: &mut Reader<'_>,
    depth: usize,
) -> Result<Option<Statistics>, Unread>
    ensures ok { IfOk result (λ list. reads (list_of statistic_form) depth reader.old ≡ Some (list, reader.new)) }
    ensures shorter { OnOk result (length reader.new < length reader.old) }
    ensures refused { result ≡ Err Unread.Invalid → read_value depth reader.old ≡ None }
{
    if list_begins(reader, depth)? {
        statistics_in(alloc, reader, depth - 1)
    } else {
        Ok(None)
    }
}

/// The coding of that name.
fn coding_named(name: &str) -> Option<Coding>
    ensures { result ≡ lookup (bytes_eq name.now) coding_names }
{
    match name {
        "plain" => Some(Coding::Plain),
        "constant" => Some(Coding::Constant),
        "runs" => Some(Coding::Runs),
        _ => None,
    }
}

/// The coding that the next value names.
pub(crate) fn coding_of(reader: &mut Reader<'_>, depth: usize) -> Result<Option<Coding>, Invalid>
    ensures ok { IfOk result (λ found. reads coding_form depth reader.old ≡ Some (found, reader.new)) }
    ensures shorter { OnOk result (length reader.new < length reader.old) }
    ensures refused { OnErr result (read_value depth reader.old ≡ None) }
{
    match text(reader, depth)? {
        Some(name) => Ok(coding_named(name)),
        None => Ok(None),
    }
}

/// The nodes that the items are, in order.
fn nodes_in(
    alloc: Global,
    reader: &mut Reader<'_>,
    depth: usize,
) -> Result<Option<Vec<LayoutNode>>, Unread>
    ensures ok { IfOk result (λ list. reads_items (each_form node_form) depth reader.old ≡ Some (option_map (λ v. map node_data v.items) list, reader.new)) }
    ensures shorter { OnOk result (length reader.new < length reader.old) }
    ensures refused { result ≡ Err Unread.Invalid → read_items depth reader.old ≡ None }
{
    let mut made = Some(Vec::new(alloc));
    'items: while !reader.take_end_array() {
        let item = node_of(alloc, reader, depth)?;
        made = joined(made, item)?;
    }
    Ok(made)
}

/// At most 4194304 nodes, in order.
pub(crate) fn nodes_of(
    alloc: Global,
    reader: &mut Reader<'_>,
    depth: usize,
) -> Result<Option<Vec<LayoutNode>>, Unread>
    ensures ok { IfOk result (λ list. reads (list_form node_form) depth reader.old ≡ Some (option_map (λ v. map node_data v.items) list, reader.new)) }
    ensures shorter { OnOk result (length reader.new < length reader.old) }
    ensures refused { result ≡ Err Unread.Invalid → read_value depth reader.old ≡ None }
{
    if !list_begins(reader, depth)? {
        return Ok(None);
    }
    match nodes_in(alloc, reader, depth - 1) {
        Ok(made) => Ok(few(made)),
        Err(error) => Err(error),
    }
}
