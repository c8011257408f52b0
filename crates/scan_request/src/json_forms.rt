//! Numbers and lists of JSON, as the members of a request have them.

ghost use Rattle.std.specs.Prelude.{◌≡◌, ◌^◌, ◌<◌, Some, None, Err, length, IfOk, OnOk, OnErr, option_map};
ghost use Rattle.serde_json.specs.View.{number_view};
ghost use Rattle.scan_json.specs.Forms.{each_form};
ghost use Rattle.scan_json.specs.Reading.{read_items, read_value, reads, reads_items};
ghost use Rattle.scan_request.specs.JsonForms.{few_of, list_of, whole_form, whole_number};

use json::{Invalid, Reader};
use scan_json::{Unread, joined, list_begins, number};
use serde_json::Number;
use std::alloc::Global;

/// A list of a request has at most so many items.
pub const MOST_ITEMS: usize = 4194304;

fn fits_64(number: &Number) -> Option<u64>
    ensures { result ≡ whole_number (2 ^ 64) (number_view number.now) }
{
    number.as_u64()
}

fn fits_32(number: &Number) -> Option<u32>
    ensures { result ≡ whole_number (2 ^ 32) (number_view number.now) }
{
    let number = number.as_u64()?;
    if number < 4294967296 {
        Some(number as u32)
    } else {
        None
    }
}

/// A whole number that 64 bits hold.
pub(crate) fn whole_64(reader: &mut Reader<'_>, depth: usize) -> Result<Option<u64>, Invalid>
    ensures ok { IfOk result (λ found. reads (whole_form (2 ^ 64)) depth reader.old ≡ Some (found, reader.new)) }
    ensures shorter { OnOk result (length reader.new < length reader.old) }
    ensures refused { OnErr result (read_value depth reader.old ≡ None) }
{
    match number(reader, depth)? {
        Some(number) => Ok(fits_64(&number)),
        None => Ok(None),
    }
}

/// A whole number that 32 bits hold.
pub(crate) fn whole_32(reader: &mut Reader<'_>, depth: usize) -> Result<Option<u32>, Invalid>
    ensures ok { IfOk result (λ found. reads (whole_form (2 ^ 32)) depth reader.old ≡ Some (found, reader.new)) }
    ensures shorter { OnOk result (length reader.new < length reader.old) }
    ensures refused { OnErr result (read_value depth reader.old ≡ None) }
{
    match number(reader, depth)? {
        Some(number) => Ok(fits_32(&number)),
        None => Ok(None),
    }
}

/// The items, where there are at most 4194304 of them.
pub(crate) fn few<X: Drop>(items: Option<Vec<X>>) -> Option<Vec<X>>
    ensures { option_map (λ v. v.items) result ≡ few_of (option_map (λ v. v.items) items) }
{
    let items = items?;
    if items.len() > MOST_ITEMS {
        None
    } else {
        Some(items)
    }
}

/// Numbers that 32 bits hold, in order.
pub(crate) fn numbers_of(
    alloc: Global,
    reader: &mut Reader<'_>,
    depth: usize,
) -> Result<Option<Vec<u32>>, Unread>
    ensures ok { IfOk result (λ list. reads (list_of (whole_form (2 ^ 32))) depth reader.old ≡ Some (option_map (λ v. v.items) list, reader.new)) }
    ensures shorter { OnOk result (length reader.new < length reader.old) }
    ensures refused { result ≡ Err Unread.Invalid → read_value depth reader.old ≡ None }
{
    if list_begins(reader, depth)? {
        numbers_in(alloc, reader, depth - 1)
    } else {
        Ok(None)
    }
}

fn numbers_in(
    alloc: Global,
    reader: &mut Reader<'_>,
    depth: usize,
) -> Result<Option<Vec<u32>>, Unread>
    ensures ok { IfOk result (λ list. reads_items (each_form (whole_form (2 ^ 32))) depth reader.old ≡ Some (option_map (λ v. v.items) list, reader.new)) }
    ensures shorter { OnOk result (length reader.new < length reader.old) }
    ensures refused { result ≡ Err Unread.Invalid → read_items depth reader.old ≡ None }
{
    let mut made = Some(Vec::new(alloc));
    'items: while !reader.take_end_array() {
        let item = whole_32(reader, depth)?;
        made = joined(made, item)?;
    }
    Ok(made)
}
