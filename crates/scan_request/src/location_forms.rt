//! The form of locations: lists of offset, length and alignment.

ghost use Rattle.std.specs.Prelude.{◌≡◌, ◌<◌, Some, None, Err, length, IfOk, OnOk, OnErr, option_map};
ghost use Rattle.scan_json.specs.Forms.{each_form};
ghost use Rattle.scan_json.specs.Reading.{read_items, read_value, reads, reads_items};
ghost use Rattle.scan_request.specs.JsonForms.{list_form};
ghost use Rattle.scan_request.specs.LocationForms.{location_form, location_from as made_location, location_items};

use crate::json_forms::{few, whole_32, whole_64};
use json::{Invalid, Reader};
use scan_json::{Unread, joined, list_begins, list_ends};
use std::alloc::Global;
use vx_base::SegmentLocation;

fn location_of(reader: &mut Reader<'_>, depth: usize) -> Result<Option<SegmentLocation>, Invalid>
    ensures ok { IfOk result (λ location. reads location_form depth reader.old ≡ Some (location, reader.new)) }
    ensures shorter { OnOk result (length reader.new < length reader.old) }
    ensures refused { OnErr result (read_value depth reader.old ≡ None) }
{
    if list_begins(reader, depth)? {
        location_in(reader, depth - 1)
    } else {
        Ok(None)
    }
}

/// A location as offset, length and alignment.
fn location_in(reader: &mut Reader<'_>, depth: usize) -> Result<Option<SegmentLocation>, Invalid>
    ensures ok { IfOk result (λ location. reads_items location_items depth reader.old ≡ Some (location, reader.new)) }
    ensures shorter { OnOk result (length reader.new < length reader.old) }
    ensures refused { OnErr result (read_items depth reader.old ≡ None) }
{
    if reader.take_end_array() {
        return Ok(None);
    }
    let offset = whole_64(reader, depth)?;
    if reader.take_end_array() {
        return Ok(None);
    }
    let length = whole_32(reader, depth)?;
    if reader.take_end_array() {
        return Ok(None);
    }
    let alignment = whole_32(reader, depth)?;
    if list_ends(reader, depth)? {
        Ok(location_from(offset, length, alignment))
    } else {
        Ok(None)
    }
}

/// The location of these parts, where each of them is one.
fn location_from(
    offset: Option<u64>,
    length: Option<u32>,
    alignment: Option<u32>,
) -> Option<SegmentLocation>
    ensures { result ≡ made_location offset length alignment }
{
    let offset = offset?;
    let length = length?;
    let alignment = alignment?;
    Some(SegmentLocation {
        offset,
        length,
        alignment,
    })
}

/// At most 4194304 locations, in order.
pub(crate) fn locations_of(
    alloc: Global,
    reader: &mut Reader<'_>,
    depth: usize,
) -> Result<Option<Vec<SegmentLocation>>, Unread>
    ensures ok { IfOk result (λ list. reads (list_form location_form) depth reader.old ≡ Some (option_map (λ v. v.items) list, reader.new)) }
    ensures shorter { OnOk result (length reader.new < length reader.old) }
    ensures refused { result ≡ Err Unread.Invalid → read_value depth reader.old ≡ None }
{
    if list_begins(reader, depth)? {
        Ok(few(locations_in(alloc, reader, depth - 1)?))
    } else {
        Ok(None)
    }
}

fn locations_in(
    alloc: Global,
    reader: &mut Reader<'_>,
    depth: usize,
) -> Result<Option<Vec<SegmentLocation>>, Unread>
    ensures ok { IfOk result (λ list. reads_items (each_form location_form) depth reader.old ≡ Some (option_map (λ v. v.items) list, reader.new)) }
    ensures shorter { OnOk result (length reader.new < length reader.old) }
    ensures refused { result ≡ Err Unread.Invalid → read_items depth reader.old ≡ None }
{
    let mut made = Some(Vec::new(alloc));
    'items: while !reader.take_end_array() {
        let item = location_of(reader, depth)?;
        made = joined(made, item)?;
    }
    Ok(made)
}
